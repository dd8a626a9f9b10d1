//! Why a setup is refused.
use std::alloc::AllocError;
use thiserror::Error;

/// Why an arena or a span isn't added: the first of these that is so. Nothing has changed then.
#[derive(Clone, Copy, PartialEq, Eq, Debug, Error)]
pub enum SetupFault {
    /// An arena has the name.
    #[error("an arena has the name")]
    NameTaken,
    /// There are `MOST_ARENAS` arenas, or `MOST_SPANS` spans that this one owns.
    #[error("too many")]
    TooMany,
    /// No arena has the source's name; or, for a span, no arena that imports nothing has the name.
    #[error("no arena has the name")]
    NoArena,
    /// The source's chain has `LONGEST_CHAIN` arenas.
    #[error("the chain is too long")]
    ChainTooLong,
    /// The quantum is no power of two, or above the source's.
    #[error("bad quantum")]
    BadQuantum,
    /// The greatest cached size isn't in whole quanta, is above `MOST_CACHES` of them, or needs
    /// slabs of more than 2^62 units.
    #[error("bad cache")]
    BadCache,
    /// The range has no unit, ends above 2^62, isn't in whole quanta, or overlaps a span of the
    /// arena.
    #[error("bad range")]
    BadRange,
    /// A growth was refused.
    #[error("out of memory")]
    NoMemory,
}

impl From<AllocError> for SetupFault {
    ghost use Rattle.std.specs.Prelude.{◌≡◌};
    ghost use Rattle.arena_tree.specs.declared.setup_faults.SetupFault.TheVariants.{NoMemory};

    ghost from_gives = { λ _ fault. fault ≡ NoMemory };

    fn from(_: AllocError) -> SetupFault {
        SetupFault::NoMemory
    }
}
