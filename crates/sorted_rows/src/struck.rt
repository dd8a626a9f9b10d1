//! The entry that was taken out last. It lies in its row until the next change or search by weight:
//! one that is put in where it lies takes its place, and no other is moved.
ghost use Rattle.std.specs.Prelude.{◌≡◌, ◌≢◌, ◌+◌, ◌-◌, ◌<◌, ◌≤◌, [], length, All, Some, IfSome};
ghost use Rattle.std.specs.Prelude.{IsTrue, slice_get, slice_index_or, take, vec_len};
ghost use Rattle.std.specs.Prelude.{vec_capacity};
ghost use Rattle.std.specs.Bool.{OnFalse};
ghost use Rattle.sorted_rows.specs.Order.{PutsIn, IsRankAt, first_from, last_of, last_to};
ghost use Rattle.sorted_rows.specs.Layout.{entries_in, left_in, place_in, AreShort, IsLaid};
ghost use Rattle.sorted_rows.specs.Layout.{IsLoose, IsSpot};

use crate::entries::RowEntry;
use crate::headed::HeadedRows;
use crate::row::Row;
use crate::seats::{Spot, belongs, greatest_to, least_from, put, settle};

/// What stands at a spot.
pub(crate) fn entry_at<T: RowEntry>(rows: &HeadedRows<T>, spot: Spot) -> T
    requires { IsSpot rows.now.items spot }
    ensures { (d : T) → result
        ≡ slice_index_or (entries_in rows.now.items)
        (place_in rows.now.items spot.seat spot.place) d }
{
    let row = rows.row(spot.seat);
    row.get(spot.place)
}

/// Takes what stands at a spot out of its row, which may be empty then.
fn remove_at<T: RowEntry>(rows: &mut HeadedRows<T>, spot: Spot)
    requires laid { IsLaid T.rank rows.old.items }
    requires short { AreShort rows.old.items }
    requires spot { IsSpot rows.old.items spot }
    ensures loose { IsLoose T.rank spot.seat rows.new.items }
    ensures short { AreShort rows.new.items }
    ensures items { entries_in rows.new.items ≡ left_in rows.old.items (Some spot) }
    ensures len { length rows.new.items ≡ length rows.old.items }
    ensures capacity { rows.new.capacity ≡ rows.old.capacity }
{
    rows.remove(spot.seat, spot.place);
}

/// Takes the struck entry out of its row, if there is one.
pub(crate) fn clear<T: RowEntry>(
    rows: &mut HeadedRows<T>,
    spare: &mut Vec<Row<T>>,
    struck: Option<Spot>,
)
    requires laid { IsLaid T.rank rows.old.items }
    requires short { AreShort rows.old.items }
    requires spot { IfSome struck (IsSpot rows.old.items) }
    requires spare { All (λ r. r ≡ []) spare.old.items }
    requires room { length rows.old.items + vec_len spare.old ≤ vec_capacity spare.old }
    ensures laid { IsLaid T.rank rows.new.items }
    ensures short { AreShort rows.new.items }
    ensures items { entries_in rows.new.items ≡ left_in rows.old.items struck }
    ensures spare { All (λ r. r ≡ []) spare.new.items }
    ensures len { length rows.new.items + vec_len spare.new
        ≡ length rows.old.items + vec_len spare.old }
    ensures fewer { length rows.new.items ≤ length rows.old.items }
    ensures capacity { rows.new.capacity ≡ rows.old.capacity }
    ensures spare_capacity { vec_capacity spare.new ≡ vec_capacity spare.old }
{
    if let Some(spot) = struck {
        remove_at(rows, spot);
        settle(rows, spot.seat, spare);
    }
}

/// Whether the key belongs where the struck entry lies. False is always a right answer: it is for
/// speed alone.
fn fits<T: RowEntry>(rows: &HeadedRows<T>, struck: Spot, key: u128) -> bool
    requires laid { IsLaid T.rank rows.now.items }
    requires spot { IsSpot rows.now.items struck }
    ensures { IsTrue result → IsRankAt T.rank key (left_in rows.now.items (Some struck))
        (place_in rows.now.items struck.seat struck.place) }
{
    belongs(rows, struck.seat, key) && rows.row(struck.seat).is_between(struck.place, key)
}

/// Puts an entry in the place of the struck one, where it belongs there. False, with nothing
/// changed, is always a right answer: it is for speed alone.
fn put_at<T: RowEntry>(rows: &mut HeadedRows<T>, struck: Spot, entry: T) -> bool
    requires laid { IsLaid T.rank rows.old.items }
    requires short { AreShort rows.old.items }
    requires spot { IsSpot rows.old.items struck }
    requires absent { All (λ x. T.rank x ≢ T.rank entry) (left_in rows.old.items (Some struck)) }
    ensures laid { IsLaid T.rank rows.new.items }
    ensures short { AreShort rows.new.items }
    ensures items { IsTrue result → PutsIn T.rank entry (left_in rows.old.items (Some struck))
        (entries_in rows.new.items) }
    ensures unchanged { OnFalse result (rows.new.items ≡ rows.old.items) }
    ensures len { length rows.new.items ≡ length rows.old.items }
    ensures capacity { rows.new.capacity ≡ rows.old.capacity }
{
    if !fits(rows, struck, entry.key()) {
        return false;
    }
    rows.set(struck.seat, struck.place, entry);
    true
}

/// Puts an entry in: in the place of the struck one, if it belongs there, or else at its own, when
/// the struck one is out of its row. It may take one spare row.
pub(crate) fn put_over<T: RowEntry>(
    rows: &mut HeadedRows<T>,
    spare: &mut Vec<Row<T>>,
    struck: Option<Spot>,
    last: Spot,
    entry: T,
)
    requires laid { IsLaid T.rank rows.old.items }
    requires short { AreShort rows.old.items }
    requires spot { IfSome struck (IsSpot rows.old.items) }
    requires room { length rows.old.items + vec_len spare.old ≤ rows.old.capacity }
    requires spare { All (λ r. r ≡ []) spare.old.items }
    requires some { 0 < vec_len spare.old }
    requires spare_room { length rows.old.items + vec_len spare.old ≤ vec_capacity spare.old }
    requires absent { All (λ x. T.rank x ≢ T.rank entry) (left_in rows.old.items struck) }
    ensures laid { IsLaid T.rank rows.new.items }
    ensures short { AreShort rows.new.items }
    ensures items { PutsIn T.rank entry (left_in rows.old.items struck)
        (entries_in rows.new.items) }
    ensures spare { All (λ r. r ≡ []) spare.new.items }
    ensures len { length rows.new.items + vec_len spare.new
        ≡ length rows.old.items + vec_len spare.old }
    ensures capacity { rows.new.capacity ≡ rows.old.capacity }
    ensures spare_capacity { vec_capacity spare.new ≡ vec_capacity spare.old }
{
    if let Some(spot) = struck {
        if put_at(rows, spot, entry) {
            return;
        }
    }
    clear(rows, spare, struck);
    put(rows, spare, last, entry);
}

/// What stands behind a spot.
fn behind<T: RowEntry>(rows: &HeadedRows<T>, spot: Spot) -> Option<T>
    requires laid { IsLaid T.rank rows.now.items }
    requires spot { IsSpot rows.now.items spot }
    ensures { result
        ≡ slice_get (entries_in rows.now.items) (place_in rows.now.items spot.seat spot.place + 1) }
{
    let row = rows.row(spot.seat);
    if row.len() - spot.place > 1 {
        Some(row.get(spot.place + 1))
    } else if rows.len() - spot.seat > 1 {
        let next = rows.row(spot.seat + 1);
        Some(next.get(0))
    } else {
        None
    }
}

/// What stands before a spot.
fn before<T: RowEntry>(rows: &HeadedRows<T>, spot: Spot) -> Option<T>
    requires laid { IsLaid T.rank rows.now.items }
    requires spot { IsSpot rows.now.items spot }
    ensures { result
        ≡ last_of (take (place_in rows.now.items spot.seat spot.place)
        (entries_in rows.now.items)) }
{
    if spot.place > 0 {
        let row = rows.row(spot.seat);
        return Some(row.get(spot.place - 1));
    }
    if spot.seat == 0 {
        return None;
    }
    let row = rows.row(spot.seat - 1);
    Some(row.get(row.len() - 1))
}

/// The first entry at or above the key that isn't struck.
pub(crate) fn least_left<T: RowEntry>(
    rows: &HeadedRows<T>,
    struck: Option<Spot>,
    last: Spot,
    key: u128,
) -> Option<T>
    requires laid { IsLaid T.rank rows.now.items }
    requires spot { IfSome struck (IsSpot rows.now.items) }
    ensures { result ≡ first_from T.rank key (left_in rows.now.items struck) }
{
    let found = least_from(rows, last, key)?;
    let Some(spot) = struck else {
        return Some(found);
    };
    if found.key() == entry_at(rows, spot).key() {
        behind(rows, spot)
    } else {
        Some(found)
    }
}

/// The last entry at or below the key that isn't struck.
pub(crate) fn greatest_left<T: RowEntry>(
    rows: &HeadedRows<T>,
    struck: Option<Spot>,
    last: Spot,
    key: u128,
) -> Option<T>
    requires laid { IsLaid T.rank rows.now.items }
    requires spot { IfSome struck (IsSpot rows.now.items) }
    ensures { result ≡ last_to T.rank key (left_in rows.now.items struck) }
{
    let found = greatest_to(rows, last, key)?;
    let Some(spot) = struck else {
        return Some(found);
    };
    if found.key() == entry_at(rows, spot).key() {
        before(rows, spot)
    } else {
        Some(found)
    }
}
