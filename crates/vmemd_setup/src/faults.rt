//! Why a setup line is refused, and why a script or a server ends early.

use lease_proto::LineFault;
use lease_server::ServeFault;
use std::alloc::AllocError;
use thiserror::Error;

/// Why a setup line is refused, by its word. They stand in the order in which they are looked for.
#[derive(Clone, Copy, Debug, PartialEq, Eq, Error)]
pub enum ConfigFault {
    /// The bytes are no setup line.
    #[error("{0}")]
    Line(LineFault),
    /// An arena has this name already.
    #[error("name")]
    NameTaken,
    /// More than `MOST_ARENAS` arenas, or than `MOST_SPANS` owned spans of one.
    #[error("many")]
    TooMany,
    /// No root has this name; or, for a child, no arena its source's.
    #[error("noarena")]
    NoArena,
    /// The source's chain has `LONGEST_CHAIN` arenas.
    #[error("chain")]
    ChainTooLong,
    /// The quantum is no power of two, or above the source's.
    #[error("quantum")]
    BadQuantum,
    /// The greatest cached size isn't in whole quanta, is above `MOST_CACHES` of them, or needs
    /// slabs of more than 2^62 units.
    #[error("cache")]
    BadCache,
    /// The span is empty, ends above 2^62, isn't of whole quanta, or overlaps another of its arena.
    #[error("range")]
    BadRange,
}

/// Why a setup doesn't take a line that was read.
#[derive(Clone, Copy, Debug, PartialEq, Eq)]
pub enum SettingFault {
    Refused(ConfigFault),
    Memory,
}

/// Why a script ends early. It is shown as the program prints it, behind `vmemd: `.
#[derive(Clone, Copy, Debug, PartialEq, Eq, Error)]
pub enum ScriptFault {
    /// This line of the setup, counted from 1, is refused.
    #[error("line {line}: {word}")]
    Setup { line: u64, word: ConfigFault },
    /// The input can't be read, or goes on after `MOST_READS`.
    #[error("read")]
    Read,
    /// The output can't be written.
    #[error("write")]
    Write,
    /// Out of memory.
    #[error("memory")]
    Memory,
}

/// Why a server ends early, by its word.
#[derive(Clone, Copy, Debug, PartialEq, Eq, Error)]
pub enum RunFault {
    /// Standard input can't be read, or goes on after `MOST_READS`.
    #[error("read")]
    Read,
    /// Standard output can't be written.
    #[error("write")]
    Write,
    /// The address can't be listened at, or no descriptor is left for it.
    #[error("listen")]
    Listen,
    /// Out of memory, or no thread could be made.
    #[error("memory")]
    Memory,
    /// At the end something could not be put back at once, or a part wasn't where it was set up. It
    /// was told before.
    #[error("shut")]
    Shut,
}

impl ScriptFault {
    ghost use Rattle.std.specs.Prelude.{◌≡◌};
    ghost use Rattle.vmemd_setup.specs.Endings.{exit_of};

    /// The exit status of a program that ends so.
    pub fn exit(&self) -> u8
        ensures { result ≡ exit_of self.now }
    {
        match self {
            ScriptFault::Setup { .. } => 2,
            ScriptFault::Read | ScriptFault::Write | ScriptFault::Memory => 1,
        }
    }
}

impl From<AllocError> for ScriptFault {
    ghost use Rattle.std.specs.Prelude.{◌≡◌};
    ghost use Rattle.vmemd_setup.specs.declared.faults.ScriptFault.TheVariants.{Memory};

    ghost from_gives = { λ _ fault. fault ≡ Memory };

    fn from(_error: AllocError) -> ScriptFault {
        ScriptFault::Memory
    }
}

impl From<ServeFault> for ScriptFault {
    ghost use Rattle.std.specs.Prelude.{◌≡◌};
    ghost use Rattle.vmemd_setup.specs.Endings.{serving_fault};

    ghost from_gives = { λ cause fault. fault ≡ serving_fault cause };

    fn from(fault: ServeFault) -> ScriptFault {
        match fault {
            ServeFault::Read | ServeFault::Turns => ScriptFault::Read,
            ServeFault::Write => ScriptFault::Write,
            ServeFault::Memory => ScriptFault::Memory,
        }
    }
}
