//! Two deeds of one root do not overlap.
ghost use Rattle.std.specs.Prelude.{◌≡◌, [], ◌∷◌, IfOk, IfErr};
ghost use Rattle.std.specs.Arc.{arc_value};
ghost use Rattle.deed_core.specs.Extent.{IsRange, Overlap};
ghost use Rattle.deed_core.specs.Holding.{Holding};
ghost use Rattle.deed_table.specs.Name.{SitsAt};
ghost use Rattle.deed_table.specs.Piece.{piece_at};
ghost use Rattle.deed_table.specs.Seated.{AreAt, SeatsTwo};

use crate::deeds::SeatDeed;
use crate::names::Name;
use crate::steps::{DeedTable, look, part, put_beside};
use crate::views::View;
use atomic_table::Seat;
use deed_core::Range;
use std::alloc::Global;
use std::marker::{Model, PhantomData};
use std::sync::Arc;

/// Two deeds of one root that are still joined, since parting them was out of memory. It is never
/// dropped: it ends by `part`. Contracts see it as the two deeds.
pub struct Pair<N: Name> {
    root: u32,
    first: Range,
    second: Range,
    seat: Seat<(), View>,
    table: Arc<DeedTable, Global>,
    name: PhantomData<N>,
}

impl<N: Name> Model for Pair<N> {
    ghost Value = { Holding × Holding };

    ghost view = { λ p. (
      record { root = p.root; range = p.first },
      record { root = p.root; range = p.second },
    ) };

    ghost invariant = { λ p. AreAt N.table p.seat.table_id (arc_value p.table).shared.table_id
        × IsRange p.first
        × IsRange p.second
        × SeatsTwo (record { root = p.root; range = p.first })
        (record { root = p.root; range = p.second }) p.seat.me };
}

impl<N: Name> Pair<N> {
    /// The two deeds, joined.
    pub fn new(first: SeatDeed<N>, second: SeatDeed<N>) -> Pair<N>
        requires { first.root ≡ second.root }
        ensures { result ≡ (first, second) }
    {
        let SeatDeed {
            root,
            range: first,
            mut seat,
            table,
            name: _,
        } = first;
        let SeatDeed {
            root: _,
            range: second,
            seat: other,
            table: _,
            name: _,
        } = second;
        put_beside(&table, &mut seat, other);
        look_at_both(&table, &mut seat, root, &first, &second);
        Pair {
            root,
            first,
            second,
            seat,
            table,
            name: PhantomData,
        }
    }

    /// The root of both.
    pub fn root(&self) -> u32
        ensures first { result ≡ self.now.0.root }
        ensures second { result ≡ self.now.1.root }
    {
        self.root
    }

    /// The range of the first.
    pub fn first(&self) -> Range
        ensures value { result ≡ self.now.0.range }
        ensures range { IsRange result }
        ensures apart { ¬ Overlap self.now.0.range self.now.1.range }
    {
        self.first
    }

    /// The range of the second.
    pub fn second(&self) -> Range
        ensures value { result ≡ self.now.1.range }
        ensures range { IsRange result }
        ensures apart { ¬ Overlap self.now.0.range self.now.1.range }
    {
        self.second
    }

    /// Parts the two. At `Err` they are still joined.
    pub fn part(self) -> Result<(SeatDeed<N>, SeatDeed<N>), Pair<N>>
        ensures ok { IfOk result (λ deeds. deeds ≡ self) }
        ensures handed_back { IfErr result (λ pair. pair ≡ self) }
        ensures apart { ¬ Overlap self.0.range self.1.range }
    {
        let Ok(again) = Arc::try_clone(&self.table) else {
            return Err(self);
        };
        let Pair {
            root,
            first,
            second,
            mut seat,
            table,
            name: _,
        } = self;
        let other = part(&table, &mut seat);
        let first = SeatDeed {
            root,
            range: first,
            seat,
            table,
            name: PhantomData,
        };
        let second = SeatDeed {
            root,
            range: second,
            seat: other,
            table: again,
            name: PhantomData,
        };
        Ok((first, second))
    }
}

/// Shows that two deeds of one root do not overlap: it joins them, looks, and parts them again. At
/// `Err` they are still joined.
pub fn apart<N: Name>(
    first: SeatDeed<N>,
    second: SeatDeed<N>,
) -> Result<(SeatDeed<N>, SeatDeed<N>), Pair<N>>
    requires { first.root ≡ second.root }
    ensures ok { IfOk result (λ deeds. deeds ≡ (first, second)) }
    ensures handed_back { IfErr result (λ pair. pair ≡ (first, second)) }
    ensures apart { ¬ Overlap first.range second.range }
{
    Pair::new(first, second).part()
}

/// Learns that two ranges of one root, which the seat covers beside each other, do not overlap.
fn look_at_both(
    table: &DeedTable,
    seat: &mut Seat<(), View>,
    root: u32,
    first: &Range,
    second: &Range,
)
    requires seat { SitsAt seat.old.table_id table.now.shared.table_id }
    requires both { seat.old.me.0.ranges ≡ piece_at root first.now ∷ piece_at root second.now ∷ [] }
    requires first { IsRange first.now }
    requires second { IsRange second.now }
    ensures table { seat.new.table_id ≡ seat.old.table_id }
    ensures unchanged { seat.new.me ≡ seat.old.me }
    ensures apart { ¬ Overlap first.now second.now }
{
    let _ = root;
    let _ = first;
    let _ = second;
    look(table, seat);
}
