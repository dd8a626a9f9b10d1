//! The list.
ghost use Rattle.std.specs.Prelude.{◌≡◌, ◌≢◌, ◌+◌, ◌<◌, ◌≤◌, [], length, max, All, Any};
ghost use Rattle.std.specs.Prelude.{OnOk, OnErr};
ghost use Rattle.sorted_rows.specs.Order.{Rises, PutsIn, TakesOut, StandsAtKey, first_from};
ghost use Rattle.sorted_rows.specs.Order.{last_to};
ghost use Rattle.sorted_rows.specs.Weights.{first_heavy_from};

use crate::entries::RowEntry;
use crate::headed::HeadedRows;
use crate::heavy::least_weighing;
use crate::row::Row;
use crate::seats::{Spot, spot_near};
use crate::struck::{clear, entry_at, greatest_left, least_left, put_over};
use std::alloc::{AllocError, Global};
use std::marker::Model;

/// Entries in strict order of their keys. A contract sees them as one list, and how many may be in
/// it before it needs more room.
#[derive(Drop)]
pub struct Rows<T: RowEntry> {
    rows: HeadedRows<T>,
    /// Rows with nothing in them, ready for entries to come.
    spare: Vec<Row<T>>,
    /// The entry that was taken out last, which lies in its row until the next change or search by
    /// weight.
    struck: Option<Spot>,
    /// How many entries there are, the one that was taken out last not among them.
    len: usize,
    room: usize,
    /// Where it was last at, if that is still there: where a search looks first.
    last: Spot,
}

impl<T: RowEntry> Model for Rows<T> {
    ghost use Rattle.sorted_rows.specs.Layout.{RowsState};

    ghost Value = { RowsState T };

    ghost use Rattle.sorted_rows.specs.Layout.{left_in};
    ghost use Rattle.sorted_rows.specs.Stocked.{IsStocked};

    ghost view = { λ a. record { items = left_in a.rows.items a.struck; room = a.room } };

    ghost invariant = { λ a. IsStocked T.rank a.rows a.spare a.struck a.len a.room };
}

impl<T: RowEntry> Rows<T> {
    /// A list with nothing in it, and with no room. It takes no memory.
    pub fn new(alloc: Global) -> Rows<T>
        ensures items { result.items ≡ [] }
        ensures room { result.room ≡ 0 }
    {
        Rows {
            rows: HeadedRows::new(alloc),
            spare: Vec::new(alloc),
            struck: None,
            len: 0,
            room: 0,
            last: Spot { seat: 0, place: 0 },
        }
    }

    /// How many entries stand in it.
    pub fn len(&self) -> usize
        ensures len { result ≡ length self.now.items }
        ensures order { Rises T.rank self.now.items }
        ensures room { result ≤ self.now.room }
    {
        self.len
    }

    /// How many entries may stand in it before more room is needed.
    pub fn room(&self) -> usize
        ensures { result ≡ self.now.room }
    {
        self.room
    }

    /// Makes room for `room` entries in all: out of memory, the room is as it was. Of all calls
    /// this one alone takes memory, some 100 bytes for each entry of 24.
    pub fn reserve(&mut self, alloc: Global, room: usize) -> Result<(), AllocError>
        ensures ok { OnOk result (self.new.room ≡ max room self.old.room) }
        ensures unchanged { OnErr result (self.new.room ≡ self.old.room) }
        ensures items { self.new.items ≡ self.old.items }
    {
        if room <= self.room {
            return Ok(());
        }
        let wanted = room.div_ceil(16) + 1;
        let rows = self.rows.len();
        let spare = self.spare.len();
        if rows + spare < wanted {
            if self.rows.reserve(wanted - rows).is_err() {
                return Err(AllocError);
            }
            if self.spare.reserve(wanted - spare).is_err() {
                return Err(AllocError);
            }
            for _ in rows + spare..wanted {
                let Ok(row) = Row::new(alloc) else {
                    return Err(AllocError);
                };
                self.spare.push_reserved(row);
            }
        }
        self.room = room;
        Ok(())
    }

    /// Goes to where the key belongs. It is for speed alone: the calls that follow near the key
    /// need no search for its row, nor in the row where they come to its place or to one beside it.
    pub fn go_to(&mut self, key: u128)
        ensures unchanged { self.new ≡ self.old }
    {
        if self.rows.is_empty() {
            return;
        }
        self.last = spot_near(&self.rows, self.last, key);
    }

    /// Puts in an entry whose key isn't there, where there is room. It never fails.
    pub fn insert(&mut self, entry: T)
        requires absent { All (λ x. T.rank x ≢ T.rank entry) self.old.items }
        requires room { length self.old.items < self.old.room }
        ensures items { PutsIn T.rank entry self.old.items self.new.items }
        ensures room { self.new.room ≡ self.old.room }
    {
        put_over(
            &mut self.rows,
            &mut self.spare,
            self.struck,
            self.last,
            entry,
        );
        self.struck = None;
        self.len += 1;
    }

    /// Takes out the entry with this key, which is there. Its room stays.
    pub fn remove(&mut self, key: u128) -> T
        requires present { Any (λ x. T.rank x ≡ key) self.old.items }
        ensures items { TakesOut T.rank key self.old.items self.new.items }
        ensures size { length self.new.items + 1 ≡ length self.old.items }
        ensures value { StandsAtKey T.rank key result self.old.items }
        ensures room { self.new.room ≡ self.old.room }
    {
        clear(&mut self.rows, &mut self.spare, self.struck);
        let spot = spot_near(&self.rows, self.last, key);
        let entry = entry_at(&self.rows, spot);
        self.struck = Some(spot);
        self.len -= 1;
        entry
    }

    /// The first entry at or above the key.
    pub fn least_from(&self, key: u128) -> Option<T>
        ensures { result ≡ first_from T.rank key self.now.items }
    {
        least_left(&self.rows, self.struck, self.last, key)
    }

    /// The last entry at or below the key.
    pub fn greatest_to(&self, key: u128) -> Option<T>
        ensures { result ≡ last_to T.rank key self.now.items }
    {
        greatest_left(&self.rows, self.struck, self.last, key)
    }

    /// The first entry, from the first at or above the key on, that weighs as much as `least` or
    /// more by this measure. Where it is the list's, a row behind the key's own that is searched in
    /// vain is told its greatest weight: from then on it is passed by with one look there wherever
    /// that is less than `least`. When another becomes the list's, the head of this crate says. The
    /// list stays as it is, but a struck entry is taken out of its row.
    pub fn least_weighing(&mut self, measure: T::Measure, key: u128, least: u64) -> Option<T>
        ensures value { result ≡ first_heavy_from T.rank (T.weight measure) key least
            self.old.items }
        ensures unchanged { self.new ≡ self.old }
    {
        clear(&mut self.rows, &mut self.spare, self.struck);
        self.struck = None;
        least_weighing(&mut self.rows, self.last, measure, key, least)
    }
}
