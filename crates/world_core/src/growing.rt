//! Arenas that get further spans of their own.
ghost use Rattle.std.specs.Prelude.{◌≡◌};
ghost use Rattle.world_core.specs.IsWorld.{IsWorld};
ghost use Rattle.world_core.specs.Events.{EndsAs};
ghost use Rattle.world_core.specs.Growing as growing;

use crate::events::{EventFault, Outcome, WorldEvent};
use crate::parts::WorldParts;
use arena_tree::GrowFault;
use deed_core::{Numbered, Range};

impl<D: Numbered> WorldParts<D> {
    /// An arena that doesn't import gets this range as a further span of its own.
    pub(crate) fn grow(&mut self, arena: usize, range: Range) -> Outcome
        requires world { IsWorld self.old }
        ensures { EndsAs (WorldEvent.Grows arena range) result self.old self.new }
    {
        let grown = self.stock.grow_by(arena, range);
        outcome_of(grown)
    }
}

/// How an event ends that asked for it.
fn outcome_of(grown: Result<(), GrowFault>) -> Outcome
    ensures { result ≡ growing.outcome_of grown }
{
    match grown {
        Ok(()) => Outcome::Done,
        Err(GrowFault::NoArena) => Outcome::NotEnabled,
        Err(GrowFault::NotRoot) => Outcome::NotEnabled,
        Err(GrowFault::Overlaps) => Outcome::Refused(EventFault::Overlaps),
        Err(GrowFault::NotAligned) => Outcome::Refused(EventFault::NotAligned),
        Err(GrowFault::TooMany) => Outcome::Refused(EventFault::TooMany),
        Err(GrowFault::NoMemory) => Outcome::NoMemory,
    }
}
