//! What is known of the greatest weight of a row without a look at its entries: its top. It is that
//! weight by the list's measure, or `UNTOLD`.
ghost use Rattle.std.specs.Prelude.{◌≡◌, ◌≢◌, ◌<◌, ◌≤◌, ℕ, List, length, insert, remove, max};
ghost use Rattle.std.specs.Prelude.{replicate, slice_index_or};
ghost use Rattle.sorted_rows.specs.Weights.{greatest_weight};

use crate::entries::RowEntry;
use crate::row::{Row, greater};

/// The top of a row of which nothing is told. No weight is above it: so a search looks into such a
/// row, and the greater of it and another is this again. A row with an entry of this weight counts
/// as untold.
pub(crate) const UNTOLD: u64 = u64::MAX;

/// The top of a row that has lost entries, of the one before. That is no less than the greatest
/// weight that is left.
pub(crate) fn lowered<T: RowEntry>(top: u64, row: &Row<T>, measure: T::Measure) -> u64
    requires most { top ≢ UNTOLD → greatest_weight (T.weight measure) row.now ≤ top }
    ensures told { top ≢ UNTOLD → result ≡ greatest_weight (T.weight measure) row.now }
    ensures untold { top ≡ UNTOLD → result ≡ UNTOLD }
{
    if top == UNTOLD {
        return UNTOLD;
    }
    row.greatest(measure, top)
}

/// The top of a row that an entry was put in.
pub(crate) fn after_insert<T: RowEntry>(top: u64, entry: T, measure: T::Measure) -> u64
    ensures told { top ≢ UNTOLD → result ≡ max (T.weight measure entry) top }
    ensures untold { top ≡ UNTOLD → result ≡ UNTOLD }
{
    greater(entry.weight(measure), top)
}

/// The top of a row that this entry was taken out of.
pub(crate) fn after_remove<T: RowEntry>(
    top: u64,
    row: &Row<T>,
    entry: T,
    measure: T::Measure,
) -> u64
    requires most { top ≢ UNTOLD → greatest_weight (T.weight measure) row.now ≤ top }
    ensures told { (xs : List T) (at : ℕ) → top ≢ UNTOLD
        → top ≡ greatest_weight (T.weight measure) xs
        → at < length xs → entry ≡ slice_index_or xs at entry → row.now ≡ remove xs at
        → result ≡ greatest_weight (T.weight measure) row.now }
    ensures untold { top ≡ UNTOLD → result ≡ UNTOLD }
{
    if top == UNTOLD {
        return UNTOLD;
    }
    if entry.weight(measure) != top {
        return top;
    }
    lowered(top, row, measure)
}

/// The top of a row where an entry has taken the place of another.
pub(crate) fn after_set<T: RowEntry>(
    top: u64,
    row: &Row<T>,
    old: T,
    entry: T,
    measure: T::Measure,
) -> u64
    requires most { top ≢ UNTOLD → greatest_weight (T.weight measure) row.now
        ≤ max top (T.weight measure entry) }
    ensures told { (xs : List T) (at : ℕ) → top ≢ UNTOLD
        → top ≡ greatest_weight (T.weight measure) xs
        → at < length xs → old ≡ slice_index_or xs at old
        → row.now ≡ insert (remove xs at) at entry
        → result ≡ greatest_weight (T.weight measure) row.now }
    ensures untold { top ≡ UNTOLD → result ≡ UNTOLD }
{
    let weight = entry.weight(measure);
    if weight >= top {
        return weight;
    }
    if old.weight(measure) != top {
        return top;
    }
    lowered(top, row, measure)
}

/// The top of a row that the next one's entries were moved to.
pub(crate) fn joined(low: u64, high: u64) -> u64
    ensures told { low ≢ UNTOLD → high ≢ UNTOLD → result ≡ max low high }
    ensures untold_low { low ≡ UNTOLD → result ≡ UNTOLD }
    ensures untold_high { high ≡ UNTOLD → result ≡ UNTOLD }
{
    greater(low, high)
}

/// Tells nothing of any row.
pub(crate) fn untell(tops: &mut [u64])
    ensures { tops.new ≡ replicate (length tops.old) UNTOLD }
{
    tops.fill(UNTOLD);
}

/// The first row, from `from` on, of which it isn't told that each entry weighs less than `least`;
/// how many rows there are, where there is none such.
pub(crate) fn next_heavy(tops: &[u64], from: usize, least: u64) -> usize
    requires { from ≤ length tops.now }
    ensures from { from ≤ result }
    ensures within { result ≤ length tops.now }
    ensures light { (k : ℕ) (d : ℕ) → from ≤ k → k < result
        → slice_index_or tops.now k d < least }
    ensures heavy { (d : ℕ) → result < length tops.now → least ≤ slice_index_or tops.now result d }
{
    let mut seat = from;
    while seat < tops.len() && tops[seat] < least {
        seat += 1;
    }
    seat
}
