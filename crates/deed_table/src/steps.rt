//! The steps on the word, each with what it does to the seats that take part. A number or a range
//! that a step is told of is for its contract alone, which ties it to the type that the step is
//! taken with.
ghost use Rattle.std.specs.Prelude.{◌≡◌, ◌≤◌, []};
ghost use Rattle.deed_table.specs.Name.{SitsAt};
ghost use Rattle.deed_table.specs.Piece.{CutsFirst, CoverOnce};
ghost use Rattle.deed_table.specs.View.{AreJoinable, NoneLeft, low_part, high_part, merged_view};
ghost use Rattle.deed_table.specs.View.{view_of_both};
ghost use Rattle.deed_table.specs.View.{first_part, other_part, numbers_below, numbers_after};
ghost use Rattle.deed_table.specs.View.{opened_view};

use crate::choices::{Chosen, ChosenRange};
use crate::rules::{Beside, CutAt, Learn, Merge, OnceEach, Open, Part, Share};
use crate::views::View;
use atomic_table::{Seat, Table};
use deed_core::Range;
use std::alloc::Global;

/// The table that deeds share: what a seat knows is its view, by the rule `OnceEach`.
pub(crate) type DeedTable = Table<(), View, (), OnceEach, Global>;

/// Cuts the first range of a seat, and gives the part from `at` on to a new seat.
pub(crate) fn cut<C: Chosen>(
    table: &DeedTable,
    seat: &mut Seat<(), View>,
    at: u64,
) -> Seat<(), View>
    requires at { at ≡ C.number }
    requires seat { SitsAt seat.old.table_id table.now.shared.table_id }
    requires inside { CutsFirst at seat.old.me.0.ranges }
    ensures table { (seat.new.table_id ≡ seat.old.table_id)
        × (result.table_id ≡ seat.old.table_id) }
    ensures low { seat.new.me ≡ (low_part at seat.old.me.0, seat.old.me.1) }
    ensures high { result.me ≡ (high_part at seat.old.me.0, []) }
{
    let _ = at;
    table.shared.split_seat::<CutAt<C>>(seat)
}

/// Takes in the view of another seat, whose range goes on where the first ends.
pub(crate) fn merge(table: &DeedTable, seat: &mut Seat<(), View>, other: Seat<(), View>)
    requires seat { SitsAt seat.old.table_id table.now.shared.table_id }
    requires other { (other.table_id ≡ table.now.shared.table_id) × (other.me.1 ≡ []) }
    requires meets { AreJoinable seat.old.me.0 other.me.0 }
    ensures table { seat.new.table_id ≡ seat.old.table_id }
    ensures view { seat.new.me ≡ (merged_view seat.old.me.0 other.me.0, seat.old.me.1) }
{
    table.shared.join_seat::<Merge>(seat, other);
}

/// Takes in the view of another seat, beside its own.
pub(crate) fn put_beside(table: &DeedTable, seat: &mut Seat<(), View>, other: Seat<(), View>)
    requires seat { SitsAt seat.old.table_id table.now.shared.table_id }
    requires other { (other.table_id ≡ table.now.shared.table_id) × (other.me.1 ≡ []) }
    requires numbers { NoneLeft seat.old.me.0 other.me.0 }
    ensures table { seat.new.table_id ≡ seat.old.table_id }
    ensures view { seat.new.me ≡ (view_of_both seat.old.me.0 other.me.0, seat.old.me.1) }
{
    table.shared.join_seat::<Beside>(seat, other);
}

/// Learns that the view covers no unit twice.
pub(crate) fn look(table: &DeedTable, seat: &mut Seat<(), View>)
    requires { SitsAt seat.old.table_id table.now.shared.table_id }
    ensures table { seat.new.table_id ≡ seat.old.table_id }
    ensures unchanged { seat.new.me ≡ seat.old.me }
    ensures once { CoverOnce seat.old.me.0.ranges }
{
    table.shared.load::<Learn>(seat, 0);
}

/// Keeps the first range, and gives the others to a new seat.
pub(crate) fn part(table: &DeedTable, seat: &mut Seat<(), View>) -> Seat<(), View>
    requires { SitsAt seat.old.table_id table.now.shared.table_id }
    ensures table { (seat.new.table_id ≡ seat.old.table_id)
        × (result.table_id ≡ seat.old.table_id) }
    ensures first { seat.new.me ≡ (first_part seat.old.me.0, seat.old.me.1) }
    ensures other { result.me ≡ (other_part seat.old.me.0, []) }
{
    table.shared.split_seat::<Part>(seat)
}

/// Gives the first n numbers to a new seat.
pub(crate) fn share<C: Chosen>(
    table: &DeedTable,
    seat: &mut Seat<(), View>,
    n: u64,
) -> Seat<(), View>
    requires number { n ≡ C.number }
    requires seat { SitsAt seat.old.table_id table.now.shared.table_id }
    requires left { n ≤ seat.old.me.0.left }
    ensures table { (seat.new.table_id ≡ seat.old.table_id)
        × (result.table_id ≡ seat.old.table_id) }
    ensures rest { seat.new.me ≡ (numbers_after n seat.old.me.0, seat.old.me.1) }
    ensures given { result.me ≡ (numbers_below n seat.old.me.0, []) }
{
    let _ = n;
    table.shared.split_seat::<Share<C>>(seat)
}

/// The one number that is left becomes a root.
pub(crate) fn open<C: ChosenRange>(table: &DeedTable, seat: &mut Seat<(), View>, range: &Range)
    requires range { range.now ≡ C.range }
    requires seat { SitsAt seat.old.table_id table.now.shared.table_id }
    requires new { (seat.old.me.0.ranges ≡ []) × (seat.old.me.0.roots ≡ [])
        × (seat.old.me.0.left ≡ 1) }
    ensures table { seat.new.table_id ≡ seat.old.table_id }
    ensures view { seat.new.me ≡ (opened_view range.now seat.old.me.0, seat.old.me.1) }
{
    let _ = range;
    table.shared.load::<Open<C>>(seat, 0);
}
