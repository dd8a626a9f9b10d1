//! Rows of one list: where a key belongs, and how rows are edited, split and joined.
ghost use Rattle.std.specs.Prelude.{◌≡◌, ◌≢◌, ◌+◌, ◌-◌, ◌<◌, ◌≤◌, ℕ, suc, [], ◌∷◌, length, All};
ghost use Rattle.std.specs.Prelude.{IsTrue, IfSome, ◌⊎◌, ◌↔◌, slice_index_or, vec_len};
ghost use Rattle.std.specs.Prelude.{vec_capacity};
ghost use Rattle.sorted_rows.specs.Order.{PutsIn, IsRankAt, first_from, last_to};
ghost use Rattle.sorted_rows.specs.Layout.{entries_in, AreShort, IsLaid, IsLoose, IsSeat};

use crate::entries::RowEntry;
use crate::headed::HeadedRows;
use crate::row::{ROW, Row};

/// So many rows, or fewer, are looked at one by one.
const FEW_ROWS: usize = 16;

/// A row of a list, and a place in it: where the list was last at, if that is still there.
#[derive(Clone, Copy, Debug)]
pub(crate) struct Spot {
    pub seat: usize,
    pub place: usize,
}

impl Spot {
    /// The place, if it is in this row: where another is searched, it tells nothing.
    pub(crate) fn near(self, seat: usize) -> Option<usize>
        ensures { IfSome result (λ place. (self.seat ≡ seat) × (self.place ≡ place)) }
    {
        if self.seat == seat {
            Some(self.place)
        } else {
            None
        }
    }
}

/// The row where the key belongs. The rows are halved until few are left, and those are counted.
fn seat_of<T: RowEntry>(rows: &HeadedRows<T>, key: u128) -> usize
    requires laid { IsLaid T.rank rows.now.items }
    requires some { 0 < length rows.now.items }
    ensures within { result < length rows.now.items }
    ensures seat { IsSeat T.rank key rows.now.items result }
    ensures first { (d : T) → 0 < result
        → T.rank (slice_index_or (slice_index_or rows.now.items result []) 0 d) ≤ key }
{
    let (low, high) = halve(rows, key);
    count_up_to(rows, low, high, key).saturating_sub(1)
}

/// At least and at most how many rows begin at the key or below it.
fn halve<T: RowEntry>(rows: &HeadedRows<T>, key: u128) -> (usize, usize)
    requires laid { IsLaid T.rank rows.now.items }
    ensures within { (result.0 ≤ result.1) × (result.1 ≤ length rows.now.items) }
    ensures few { result.1 - result.0 ≤ 16 }
    ensures before { (d : T) → 0 < result.0
        → T.rank (slice_index_or (slice_index_or rows.now.items (result.0 - 1) []) 0 d) ≤ key }
    ensures after { (d : T) → result.1 < length rows.now.items
        → key < T.rank (slice_index_or (slice_index_or rows.now.items result.1 []) 0 d) }
{
    let mut low = 0;
    let mut count = rows.len();
    while count > FEW_ROWS {
        let half = count / 2;
        low += half * usize::from(rows.first(low + half) <= key);
        count -= half;
    }
    (low, low + count)
}

/// How many rows begin at the key or below it, from `low` to `high`. What a key tells is added, as
/// in a row.
fn count_up_to<T: RowEntry>(rows: &HeadedRows<T>, low: usize, high: usize, key: u128) -> usize
    requires laid { IsLaid T.rank rows.now.items }
    requires within { (low ≤ high) × (high ≤ length rows.now.items) }
    requires before { (d : T) → 0 < low
        → T.rank (slice_index_or (slice_index_or rows.now.items (low - 1) []) 0 d) ≤ key }
    requires after { (d : T) → high < length rows.now.items
        → key < T.rank (slice_index_or (slice_index_or rows.now.items high []) 0 d) }
    ensures within { result ≤ length rows.now.items }
    ensures before { (d : T) → 0 < result
        → T.rank (slice_index_or (slice_index_or rows.now.items (result - 1) []) 0 d) ≤ key }
    ensures after { (d : T) → result < length rows.now.items
        → key < T.rank (slice_index_or (slice_index_or rows.now.items result []) 0 d) }
{
    let mut count = low;
    let mut at = low;
    while at < high {
        if rows.first(at) <= key {
            count += 1;
        }
        at += 1;
    }
    count
}

/// Whether the key belongs in this row, which may be none of the list's.
pub(crate) fn belongs<T: RowEntry>(rows: &HeadedRows<T>, seat: usize, key: u128) -> bool
    requires laid { IsLaid T.rank rows.now.items }
    ensures within { IsTrue result → seat < length rows.now.items }
    ensures seat { IsTrue result → IsSeat T.rank key rows.now.items seat }
    ensures first { IsTrue result → (d : T) → 0 < seat
        → T.rank (slice_index_or (slice_index_or rows.now.items seat []) 0 d) ≤ key }
{
    if seat >= rows.len() {
        return false;
    }
    if seat > 0 && key < rows.first(seat) {
        return false;
    }
    seat + 1 == rows.len() || key < rows.first(seat + 1)
}

/// The row where the key belongs. It is searched for only where it isn't the one that the list was
/// last at.
pub(crate) fn seat_near<T: RowEntry>(rows: &HeadedRows<T>, last: Spot, key: u128) -> usize
    requires laid { IsLaid T.rank rows.now.items }
    requires some { 0 < length rows.now.items }
    ensures within { result < length rows.now.items }
    ensures seat { IsSeat T.rank key rows.now.items result }
    ensures first { (d : T) → 0 < result
        → T.rank (slice_index_or (slice_index_or rows.now.items result []) 0 d) ≤ key }
{
    if belongs(rows, last.seat, key) {
        return last.seat;
    }
    seat_of(rows, key)
}

/// Where the key belongs.
pub(crate) fn spot_near<T: RowEntry>(rows: &HeadedRows<T>, last: Spot, key: u128) -> Spot
    requires laid { IsLaid T.rank rows.now.items }
    requires some { 0 < length rows.now.items }
    ensures within { result.seat < length rows.now.items }
    ensures seat { IsSeat T.rank key rows.now.items result.seat }
    ensures place { IsRankAt T.rank key (slice_index_or rows.now.items result.seat [])
        result.place }
{
    let seat = seat_near(rows, last, key);
    let row = rows.row(seat);
    let place = row.below_near(key, last.near(seat));
    Spot { seat, place }
}

/// Puts an entry in its row, which may be full then.
pub(crate) fn insert_in<T: RowEntry>(
    rows: &mut HeadedRows<T>,
    seat: usize,
    near: Option<usize>,
    entry: T,
)
    requires laid { IsLaid T.rank rows.old.items }
    requires within { seat < length rows.old.items }
    requires seat { IsSeat T.rank (T.rank entry) rows.old.items seat }
    requires short { AreShort rows.old.items }
    requires absent { All (λ x. T.rank x ≢ T.rank entry) (entries_in rows.old.items) }
    ensures laid { IsLaid T.rank rows.new.items }
    ensures items { PutsIn T.rank entry (entries_in rows.old.items) (entries_in rows.new.items) }
    ensures others { (k : ℕ) → k ≢ seat → length (slice_index_or rows.new.items k []) < 64 }
    ensures len { length rows.new.items ≡ length rows.old.items }
    ensures capacity { rows.new.capacity ≡ rows.old.capacity }
{
    let at = rows.row(seat).below_near(entry.key(), near);
    rows.insert(seat, at, entry);
}

/// Cuts a full row in two halves, the upper one in a spare row.
pub(crate) fn split<T: RowEntry>(rows: &mut HeadedRows<T>, at: usize, spare: &mut Vec<Row<T>>)
    requires laid { IsLaid T.rank rows.old.items }
    requires within { at < length rows.old.items }
    requires full { length (slice_index_or rows.old.items at []) ≡ 64 }
    requires others { (k : ℕ) → k ≢ at → length (slice_index_or rows.old.items k []) < 64 }
    requires room { length rows.old.items < rows.old.capacity }
    requires spare { All (λ r. r ≡ []) spare.old.items }
    requires some { 0 < vec_len spare.old }
    ensures laid { IsLaid T.rank rows.new.items }
    ensures items { entries_in rows.new.items ≡ entries_in rows.old.items }
    ensures short { AreShort rows.new.items }
    ensures len { length rows.new.items ≡ length rows.old.items + 1 }
    ensures capacity { rows.new.capacity ≡ rows.old.capacity }
    ensures spare { All (λ r. r ≡ []) spare.new.items }
    ensures spare_len { vec_len spare.new + 1 ≡ vec_len spare.old }
    ensures spare_capacity { vec_capacity spare.new ≡ vec_capacity spare.old }
{
    let Some(row) = spare.pop() else {
        unreachable!()
    };
    rows.split(at, row);
}

/// Puts an entry at its place. It may take one spare row.
pub(crate) fn put<T: RowEntry>(
    rows: &mut HeadedRows<T>,
    spare: &mut Vec<Row<T>>,
    last: Spot,
    entry: T,
)
    requires laid { IsLaid T.rank rows.old.items }
    requires short { AreShort rows.old.items }
    requires room { length rows.old.items < rows.old.capacity }
    requires spare { All (λ r. r ≡ []) spare.old.items }
    requires some { 0 < vec_len spare.old }
    requires absent { All (λ x. T.rank x ≢ T.rank entry) (entries_in rows.old.items) }
    ensures laid { IsLaid T.rank rows.new.items }
    ensures short { AreShort rows.new.items }
    ensures items { PutsIn T.rank entry (entries_in rows.old.items) (entries_in rows.new.items) }
    ensures spare { All (λ r. r ≡ []) spare.new.items }
    ensures len { length rows.new.items + vec_len spare.new
        ≡ length rows.old.items + vec_len spare.old }
    ensures capacity { rows.new.capacity ≡ rows.old.capacity }
    ensures spare_capacity { vec_capacity spare.new ≡ vec_capacity spare.old }
{
    if rows.is_empty() {
        start(rows, spare, entry);
        return;
    }
    let seat = seat_near(rows, last, entry.key());
    insert_in(rows, seat, last.near(seat), entry);
    if rows.row(seat).len() == ROW {
        split(rows, seat, spare);
    }
}

/// Puts the first entry.
fn start<T: RowEntry>(rows: &mut HeadedRows<T>, spare: &mut Vec<Row<T>>, entry: T)
    requires none { rows.old.items ≡ [] }
    requires room { length rows.old.items < rows.old.capacity }
    requires spare { All (λ r. r ≡ []) spare.old.items }
    requires some { 0 < vec_len spare.old }
    ensures items { rows.new.items ≡ (entry ∷ []) ∷ [] }
    ensures spare { All (λ r. r ≡ []) spare.new.items }
    ensures len { length rows.new.items + vec_len spare.new
        ≡ length rows.old.items + vec_len spare.old }
    ensures capacity { rows.new.capacity ≡ rows.old.capacity }
    ensures spare_capacity { vec_capacity spare.new ≡ vec_capacity spare.old }
{
    let Some(row) = spare.pop() else {
        unreachable!()
    };
    rows.push(row);
    rows.insert(0, 0, entry);
}

/// Moves the entries of the next row into this one, and keeps that row as a spare one. One of the
/// two may have lost an entry.
fn merge<T: RowEntry>(rows: &mut HeadedRows<T>, at: usize, spare: &mut Vec<Row<T>>)
    requires loose { (i : ℕ) × ((i ≡ at) ⊎ (i ≡ suc at)) × IsLoose T.rank i rows.old.items }
    requires short { AreShort rows.old.items }
    requires within { at + 1 < length rows.old.items }
    requires total { length (slice_index_or rows.old.items at [])
        + length (slice_index_or rows.old.items (suc at) []) < 64 }
    requires spare { All (λ r. r ≡ []) spare.old.items }
    requires room { vec_len spare.old < vec_capacity spare.old }
    ensures laid { IsLaid T.rank rows.new.items }
    ensures short { AreShort rows.new.items }
    ensures items { entries_in rows.new.items ≡ entries_in rows.old.items }
    ensures spare { All (λ r. r ≡ []) spare.new.items }
    ensures len { length rows.new.items + 1 ≡ length rows.old.items }
    ensures spare_len { vec_len spare.new ≡ vec_len spare.old + 1 }
    ensures capacity { rows.new.capacity ≡ rows.old.capacity }
    ensures spare_capacity { vec_capacity spare.new ≡ vec_capacity spare.old }
{
    let row = rows.join(at);
    spare.push_reserved(row);
}

/// Puts the row that has lost an entry together with a neighbor, where the two are small or the
/// row is empty.
pub(crate) fn settle<T: RowEntry>(rows: &mut HeadedRows<T>, at: usize, spare: &mut Vec<Row<T>>)
    requires loose { IsLoose T.rank at rows.old.items }
    requires short { AreShort rows.old.items }
    requires within { at < length rows.old.items }
    requires spare { All (λ r. r ≡ []) spare.old.items }
    requires room { vec_len spare.old < vec_capacity spare.old }
    ensures laid { IsLaid T.rank rows.new.items }
    ensures short { AreShort rows.new.items }
    ensures items { entries_in rows.new.items ≡ entries_in rows.old.items }
    ensures spare { All (λ r. r ≡ []) spare.new.items }
    ensures len { length rows.new.items + vec_len spare.new
        ≡ length rows.old.items + vec_len spare.old }
    ensures fewer { length rows.new.items ≤ length rows.old.items }
    ensures capacity { rows.new.capacity ≡ rows.old.capacity }
    ensures spare_capacity { vec_capacity spare.new ≡ vec_capacity spare.old }
{
    let here = rows.row(at).len();
    if at > 0 && goes_with(here, rows.row(at - 1).len()) {
        merge(rows, at - 1, spare);
    } else if rows.len() - at > 1 && goes_with(here, rows.row(at + 1).len()) {
        merge(rows, at, spare);
    } else if here == 0 {
        let row = rows.take(at);
        spare.push_reserved(row);
    }
}

/// Whether a row of this many entries is put together with a neighbor.
fn goes_with(here: usize, beside: usize) -> bool
    requires { (here ≤ 64) × (beside ≤ 64) }
    ensures { IsTrue result ↔ ((here ≡ 0) ⊎ (here + beside ≤ 32)) }
{
    here == 0 || here + beside <= ROW / 2
}

/// The first entry at or above the key.
pub(crate) fn least_from<T: RowEntry>(rows: &HeadedRows<T>, last: Spot, key: u128) -> Option<T>
    requires laid { IsLaid T.rank rows.now.items }
    ensures { result ≡ first_from T.rank key (entries_in rows.now.items) }
{
    if rows.is_empty() {
        return None;
    }
    let seat = seat_near(rows, last, key);
    let row = rows.row(seat);
    let at = row.below_near(key, last.near(seat));
    if at < row.len() {
        Some(row.get(at))
    } else if rows.len() - seat > 1 {
        let next = rows.row(seat + 1);
        Some(next.get(0))
    } else {
        None
    }
}

/// The last entry at or below the key.
pub(crate) fn greatest_to<T: RowEntry>(rows: &HeadedRows<T>, last: Spot, key: u128) -> Option<T>
    requires laid { IsLaid T.rank rows.now.items }
    ensures { result ≡ last_to T.rank key (entries_in rows.now.items) }
{
    if rows.is_empty() {
        return None;
    }
    let seat = seat_near(rows, last, key);
    let row = rows.row(seat);
    let upper = row.up_to(key, last.near(seat));
    if upper == 0 {
        return None;
    }
    Some(row.get(upper - 1))
}
