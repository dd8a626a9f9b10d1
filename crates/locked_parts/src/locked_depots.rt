//! The depots of the parts under their locks, as a walk reaches them.
ghost use Rattle.std.specs.Prelude.{◌≡◌};

use crate::depot_walks::Depots;
use crate::kind_depots::{ResizeSaid, TickSaid};
use crate::misplaced::Misplaced;
use crate::parts::LockedParts;
use deed_table::Name;
use std::sync::Wait;

/// The parts and the runtime, both lent, and what the depots said that were asked last to begin an
/// interval, and for a size, and which wasn't there last. Each call takes the lock of one depot.
#[derive(Drop)]
pub(crate) struct LockedDepots<'a, N: Name, R: Wait> {
    pub(crate) parts: &'a LockedParts<N>,
    pub(crate) rt: &'a R,
    pub(crate) ticked: Option<TickSaid>,
    pub(crate) resized: Option<ResizeSaid>,
    pub(crate) missing: Option<Misplaced>,
}

impl<'a, N: Name, R: Wait> LockedDepots<'a, N, R> {
    /// Those of the parts.
    pub(crate) fn new(parts: &'a LockedParts<N>, rt: &'a R) -> LockedDepots<'a, N, R>
        ensures { result.parts.now ≡ parts.now }
    {
        LockedDepots {
            parts,
            rt,
            ticked: None,
            resized: None,
            missing: None,
        }
    }
}

impl<N: Name, R: Wait> Depots for LockedDepots<'_, N, R> {
    ghost use Rattle.std.specs.Prelude.{◌≡◌};
    ghost use Rattle.locked_parts.specs.Walks.{SaysResize, SaysTick};

    // Which depot was asked, it says itself.
    ghost ticks = { λ s arena cache t. (t.parts.now ≡ s.parts.now)
        × SaysTick s.parts.now arena cache t.ticked t.missing };

    ghost resizes = { λ s arena cache size rose t. (t.parts.now ≡ s.parts.now)
        × SaysResize s.parts.now arena cache size rose t.resized t.missing };

    fn tick(&mut self, arena: u32, cache: u8) {
        match self.parts.reach_depot(self.rt, None, arena, cache) {
            Ok(mut depot) => self.ticked = Some(depot.tick()),
            Err(misplaced) => self.missing = Some(misplaced),
        }
    }

    fn resize(&mut self, arena: u32, cache: u8, size: usize) -> bool {
        match self.parts.reach_depot(self.rt, None, arena, cache) {
            Ok(mut depot) => {
                let said = depot.resize(size);
                let rose = said.rose();
                self.resized = Some(said);
                rose
            }
            Err(misplaced) => {
                self.missing = Some(misplaced);
                false
            }
        }
    }
}
