//! Why an event or a list of steps ended without its result. `S` is a segment, which comes back.
ghost use Rattle.std.specs.Prelude.{◌≡◌, false};
ghost use Rattle.arena_tree.specs.Stops.{refuses_by, part_stops, given_stops};
ghost use Rattle.arena_tree.specs.Tags.{wording_of};

use tag_arena::ArenaFault;
use thiserror::Error;

/// The gate said Stop, and nothing was done.
#[derive(Clone, Copy, PartialEq, Eq, Debug, Error)]
#[error("stopped")]
pub struct Stopped;

/// Why a part did nothing. `F` is its own word.
#[derive(Clone, Copy, PartialEq, Eq, Debug)]
pub enum PartFault<F> {
    /// The part refused.
    Refused(F),
    /// It wasn't asked.
    Stopped,
}

/// Why an arena that others use meanwhile didn't get a further span. The first that stands is told.
#[derive(Clone, Copy, PartialEq, Eq, Debug, Error)]
pub enum GrowFault {
    /// There is no such arena.
    #[error("no such arena")]
    NoArena,
    /// It has a source.
    #[error("not a root arena")]
    NotRoot,
    /// The range overlaps a span of the arena.
    #[error("overlaps a span")]
    Overlaps,
    /// Its base or length isn't a multiple of the quantum.
    #[error("not in whole quanta")]
    NotAligned,
    /// No root number is left: as many spans were opened as an arena may own.
    #[error("too many spans")]
    TooMany,
    /// Out of memory.
    #[error("out of memory")]
    NoMemory,
}

/// Why a part didn't take what it was given. `F` is its own word, with the segment.
pub enum GivenFault<F, S> {
    /// The part refused.
    Refused(F),
    /// It wasn't asked.
    Stopped(S),
}

/// Why a CPU got no fresh magazine for a full one.
#[derive(Clone, Copy, PartialEq, Eq, Debug, Error)]
pub enum FreshFault {
    /// The depot's magazines have this size, and the CPU's another.
    #[error("the depot's magazines hold {0} rounds")]
    OldSize(usize),
    /// The CPU's magazines aren't both full.
    #[error("not full")]
    NotFull,
    /// Out of memory.
    #[error("out of memory")]
    NoMemory,
}

/// Why a CPU's magazines didn't change to another size.
#[derive(Clone, Copy, PartialEq, Eq, Debug, Error)]
pub enum ChangeFault {
    /// Out of memory.
    #[error("out of memory")]
    NoMemory,
    /// The size isn't greater than theirs.
    #[error("the size isn't greater")]
    NotGreater,
}

/// Why a climb gave nothing. What it carved on its way is free again, or comes back here.
pub enum ClimbFault<S> {
    /// The size is 0, no arena of the chain has room, or one was out of memory.
    Refused(ArenaFault),
    /// A part refused this segment.
    Stuck(S),
    /// A step wasn't done; the segment is the one that it would have placed.
    Stopped(Option<S>),
}

/// Why a segment, or the imported span that it made whole, isn't free.
pub enum ReturnFault<S> {
    /// A part refused it.
    Stuck(S),
    /// A step wasn't done.
    Stopped(S),
}

impl<F> PartFault<F> {
    /// A part's answer, with its own word in the fault.
    pub fn wrap<T>(answer: Result<T, F>) -> Result<T, PartFault<F>>
        ensures word { result ≡ wording_of PartFault.Refused answer }
        ensures goes { refuses_by part_stops result ≡ false }
    {
        match answer {
            Ok(value) => Ok(value),
            Err(word) => Err(PartFault::Refused(word)),
        }
    }
}

impl<F, S> GivenFault<F, S> {
    /// A part's answer, with its own word in the fault.
    pub fn wrap<T>(answer: Result<T, F>) -> Result<T, GivenFault<F, S>>
        ensures word { result ≡ wording_of GivenFault.Refused answer }
        ensures goes { refuses_by given_stops result ≡ false }
    {
        match answer {
            Ok(value) => Ok(value),
            Err(word) => Err(GivenFault::Refused(word)),
        }
    }
}
