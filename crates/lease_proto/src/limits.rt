//! How long a line is at most, and how many CPUs lines may name. Code, contracts and proofs cite
//! these by name, from `specs.declared.limits.TheConstants`. How much a setup sets up, `arena_tree`
//! says.
ghost use Rattle.std.specs.Prelude.{◌≡◌, ◌+◌, ◌-◌};

/// The longest line, in bytes before its line feed.
pub const LONGEST_LINE: usize = 255;

/// Room for each line with its line feed. The first so many bytes of a line tell whether it is too
/// long.
pub const LINE_ROOM: usize = LONGEST_LINE + 1;

/// How many CPUs there are at most.
pub const MOST_CPUS: u32 = 64;

/// The last CPU that a line may name: CPUs are numbered from 0 on.
pub const LAST_CPU: u32 = MOST_CPUS - 1;

/// The limits as the rules have them: who changes one changes it here, and nowhere else.
pub fn limit_law()
    ensures line { LONGEST_LINE ≡ 255 }
    ensures room { LINE_ROOM ≡ LONGEST_LINE + 1 }
    ensures cpus { MOST_CPUS ≡ 64 }
    ensures last_cpu { LAST_CPU ≡ MOST_CPUS - 1 }
{}
