//! Searches by weight: rows that are known to be too light are passed by.
ghost use Rattle.std.specs.Prelude.{◌≡◌};
ghost use Rattle.sorted_rows.specs.Layout.{entries_in, IsLaid};
ghost use Rattle.sorted_rows.specs.Weights.{first_heavy_from};

use crate::entries::RowEntry;
use crate::headed::HeadedRows;
use crate::seats::{Spot, seat_near};

/// The first, from the first at or above the key on, that weighs as much as `least` or more.
#[tactic(auto, using(crate::proofs::HeavyLemmas::found_heavy))]
pub(crate) fn least_weighing<T: RowEntry>(
    rows: &mut HeadedRows<T>,
    last: Spot,
    measure: T::Measure,
    key: u128,
    least: u64,
) -> Option<T>
    requires laid { IsLaid T.rank rows.old.items }
    ensures value { result ≡ first_heavy_from T.rank (T.weight measure) key least
        (entries_in rows.old.items) }
    ensures unchanged { rows.new ≡ rows.old }
{
    if rows.is_empty() {
        return None;
    }
    let seat = seat_near(rows, last, key);
    if !rows.is_light(seat, measure, least) {
        let row = rows.row(seat);
        let at = row.below_near(key, last.near(seat));
        if let Some(entry) = row.heavy(measure, at, least) {
            return Some(entry);
        }
    }
    rows.search(measure, seat, least)
}
