//! Further spans of arenas that don't import.
ghost use Rattle.std.specs.Prelude.{◌≡◌, ◌<◌, [], None, IfOk, IfErr, length};
ghost use Rattle.arena_tree.specs.declared.limits.TheConstants.{MOST_ARENAS, MOST_SPANS};
ghost use Rattle.stock.specs.Accounts.{Frames};
ghost use Rattle.stock.specs.Growing.{CanGrow, GrowsBy, RefusesHere};
ghost use Rattle.stock.specs.Setups.{root_number};
ghost use Rattle.stock.specs.Spaces.{plans_of};
ghost use Rattle.stock.specs.Stocks.{IsStock};

use crate::spaces::Space;
use crate::stocks::Stock;
use arena_tree::{GrowFault, MOST_SPANS};
use deed_core::{Deed, Numbered, PlainOpener, Range};
use std::alloc::AllocError;
use tag_arena::RangeFault;

impl<D: Numbered> Stock<D> {
    /// Gives the arena at the index a further span, if it has no source: the range, all of it free,
    /// as a root of its own, numbered by its place among the arena's. Of the faults the first that
    /// stands is told, in the order in which `GrowFault` has them, and then all is as it was.
    pub fn grow_by(&mut self, arena: usize, range: Range) -> Result<(), GrowFault>
        ensures grown { GrowsBy arena range result self.old self.new }
        ensures stock { IsStock self.new }
        ensures frame { Frames self.old [] self.new [] }
        ensures fixed { plans_of self.new ≡ plans_of self.old }
    {
        // Here and below for its clause, too: what is always so of a stock.
        if arena >= self.count() {
            return Err(GrowFault::NoArena);
        }
        let space = &self.spaces[arena];
        let place = match next_place(space, &range) {
            Ok(place) => place,
            Err(fault) => return Err(fault),
        };
        let mut opener = PlainOpener::new(number_of(arena, place), 1);
        let grown = self.grow(arena, range, &mut opener);
        let _ = self.count();
        match grown {
            Ok(()) => Ok(()),
            Err(AllocError) => Err(GrowFault::NoMemory),
        }
    }
}

/// The number of an arena's root at this place among its own.
pub(crate) fn number_of(arena: usize, place: usize) -> u32
    requires arena { arena < MOST_ARENAS }
    requires place { place < MOST_SPANS }
    ensures { result ≡ root_number arena place }
{
    (MOST_SPANS * arena + place) as u32
}

/// The place that the range gets among the roots of the arena, if it may get one.
fn next_place<D: Deed>(space: &Space<D>, range: &Range) -> Result<usize, GrowFault>
    ensures place { IfOk result (λ place. (space.now.source ≡ None)
        × CanGrow space.now.arena range.now × (place ≡ length space.now.arena.owned)) }
    ensures refused { IfErr result (RefusesHere space.now range.now) }
{
    if space.source.is_some() {
        return Err(GrowFault::NotRoot);
    }
    match space.arena.admits(range) {
        Ok(()) => {}
        Err(RangeFault::Overlaps) => return Err(GrowFault::Overlaps),
        Err(RangeFault::NotAligned) => return Err(GrowFault::NotAligned),
    }
    let owned = space.arena.owned_count();
    if owned >= MOST_SPANS {
        return Err(GrowFault::TooMany);
    }
    Ok(owned)
}
