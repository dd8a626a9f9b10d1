//! How much a setup may set up. Code and contracts cite these by name.
ghost use Rattle.std.specs.Prelude.{◌≡◌};

/// How many arenas there are at most.
pub const MOST_ARENAS: usize = 32;

/// How many spans an arena owns at most.
pub const MOST_SPANS: usize = 65536;

/// How many roots all arenas own at most: they are numbered below it. The root of this number is
/// that of the mark of a book of their leases.
pub const MOST_ROOTS: u32 = (MOST_ARENAS * MOST_SPANS) as u32;

/// How many arenas a chain has at most.
pub const LONGEST_CHAIN: usize = 4;

/// How many quantum caches an arena has at most.
pub const MOST_CACHES: u64 = 16;

/// The limits as the rules have them: who changes one changes it here, and nowhere else.
pub fn setup_limit_law()
    ensures arenas { MOST_ARENAS ≡ 32 }
    ensures spans { MOST_SPANS ≡ 65536 }
    ensures chain { LONGEST_CHAIN ≡ 4 }
    ensures caches { MOST_CACHES ≡ 16 }
{}
