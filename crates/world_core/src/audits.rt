//! Where the units of a world's arenas are.
ghost use Rattle.std.specs.Prelude.{◌≡◌, ◌<◌, ◌≤◌, ◌^◌, length, sum_by};
ghost use Rattle.std.specs.Option.{option_to_list};
ghost use Rattle.deed_core.specs.Covering.{units_in};
ghost use Rattle.deed_core.specs.Weights.{of_arena};
ghost use Rattle.stock_audit.specs.Outside.{out_of};
ghost use Rattle.stock_audit.specs.Audits.{IsTally, TellEach, TellsSums, units_of_arena_in};
ghost use Rattle.world_core.specs.WorldState.{in_hands, outside_of};
ghost use Rattle.world_core.specs.IsWorld.{IsWorld};

use crate::parts::WorldParts;
use crate::worlds::World;
use deed_core::{Deed, Segment};
use stock_audit::{ArenaSums, SumsRoom, UnitsOut, audit_units, audit_units_by_parts, rounds_units};

/// The units of the arena's segment in a hand, or 0.
fn units_in_hand<D: Deed>(hand: &Option<Segment<D>>, arena: usize) -> u64
    ensures value { result ≡ sum_by (of_arena arena (λ t. units_in t.holding))
        (option_to_list hand.now) }
    ensures small { result ≤ 2 ^ 62 }
{
    let Some(segment) = hand.as_ref() else {
        return 0;
    };
    if segment.arena() as usize != arena {
        return 0;
    }
    segment.range().len()
}

/// The units of the arena's segments in hands.
fn units_in_hands<D: Deed>(hands: &[Option<Segment<D>>], arena: usize) -> u128
    ensures { result ≡ units_of_arena_in arena (in_hands hands.now) }
{
    // For its clause: there are fewer than 2^64.
    let _ = hands.len();
    let mut units: u128 = 0;
    for hand in hands {
        units += u128::from(units_in_hand(hand, arena));
    }
    units
}

impl<D: Deed> WorldParts<D> {
    /// The units of the arena at the index that are out of the stock.
    fn units_out(&self, arena: usize) -> UnitsOut
        requires world { IsWorld self.now }
        requires within { arena < length self.now.names }
        ensures { IsTally arena (out_of (outside_of self.now)) result }
    {
        // For their clauses: what is always so of a stock, and its arena's units.
        let _ = self.stock.count();
        let _ = self.stock.arena_report(arena);
        UnitsOut {
            rounds: rounds_units(&self.caches, arena),
            leased: self.book.units(arena as u32),
            hand: units_in_hands(&self.hands, arena),
        }
    }

    /// The sums of the arena at the index.
    pub(crate) fn audit(&self, arena: usize) -> ArenaSums
        requires world { IsWorld self.now }
        requires within { arena < length self.now.names }
        ensures { TellsSums self.now.stock arena (out_of (outside_of self.now)) result }
    {
        let out = self.units_out(arena);
        audit_units(&self.stock, arena, out)
    }

    /// Those of each arena, in order of setup.
    pub(crate) fn sums<'a>(&self, room: &'a mut SumsRoom) -> &'a [ArenaSums]
        requires world { IsWorld self.now }
        ensures told { TellEach self.now.stock (out_of (outside_of self.now)) result.now }
        ensures named { length result.now ≡ length self.now.names }
    {
        let count = self.names.len();
        for arena in 0..count {
            room.tell(arena, self.audit(arena));
        }
        room.first(count)
    }

    /// The sums of the arena at the index, counted by parts.
    pub(crate) fn audit_by_parts(&self, arena: usize) -> ArenaSums
        requires world { IsWorld self.now }
        requires within { arena < length self.now.names }
        ensures { TellsSums self.now.stock arena (out_of (outside_of self.now)) result }
    {
        let out = self.units_out(arena);
        audit_units_by_parts(&self.stock, arena, out)
    }
}

impl<D: Deed> World<D> {
    /// The units of the arena at the index, by where they are. It takes no memory.
    pub fn audit(&self, arena: usize) -> ArenaSums
        requires within { arena < length self.now.names }
        ensures { TellsSums self.now.stock arena (out_of (outside_of self.now)) result }
    {
        self.parts.audit(arena)
    }

    /// The sums of each arena, in order of setup, lent in the caller's room. They are told by the
    /// counts that the parts keep. It takes no memory. For each arena it goes over the arenas, its
    /// slabs and depots, the CPUs' caches and the hands, in constant time each.
    pub fn sums<'a>(&self, room: &'a mut SumsRoom) -> &'a [ArenaSums]
        ensures told { TellEach self.now.stock (out_of (outside_of self.now)) result.now }
        ensures named { length result.now ≡ length self.now.names }
    {
        self.parts.sums(room)
    }

    /// The sums of the arena at the index, counted by parts: one round of the depots after another.
    pub fn audit_by_parts(&self, arena: usize) -> ArenaSums
        requires within { arena < length self.now.names }
        ensures { TellsSums self.now.stock arena (out_of (outside_of self.now)) result }
    {
        self.parts.audit_by_parts(arena)
    }
}
