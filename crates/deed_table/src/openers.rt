//! Tables, and the root numbers that are left.
ghost use Rattle.std.specs.Prelude.{◌≡◌, ◌+◌, ◌-◌, ◌^◌, ◌<◌, ◌≤◌, [], IfOk, OnOk, OnErr};
ghost use Rattle.std.specs.Arc.{arc_value};
ghost use Rattle.atomic_table.specs.Seated.{TableId, table_id_coded};
ghost use Rattle.deed_table.specs.Seated.{AreAt, OpenerState};
ghost use Rattle.deed_table.specs.View.{opener};

use crate::deeds::SeatDeed;
use crate::names::Name;
use crate::roots::Root;
use crate::steps::{DeedTable, open, share};
use crate::views::View;
use atomic_table::{Seat, Table};
use deed_core::Range;
use std::alloc::{AllocError, Global};
use std::marker::{Brand, Model, PhantomData};
use std::sync::Arc;

/// How many root numbers a table has.
const ROOTS: u64 = 1 << 32;

/// A new table, which has no name yet. Contracts see which table it is.
#[derive(Drop)]
pub struct Ground {
    seat: Seat<(), View>,
    table: Arc<DeedTable, Global>,
}

impl Model for Ground {
    ghost Value = { TableId };

    ghost coded = { table_id_coded };

    ghost view = { λ g. g.seat.table_id };

    ghost invariant = { λ g.
        AreAt g.seat.table_id g.seat.table_id (arc_value g.table).shared.table_id
        × (g.seat.me ≡ (opener 0 (2 ^ 32), [])) };
}

impl Ground {
    /// A table with one word and no slot, none of whose root numbers is used.
    pub fn new(alloc: Global) -> Result<Ground, AllocError>
        ensures { IfOk result (λ ground. (ground.words ≡ 1) × (ground.slots ≡ 0)) }
    {
        let (table, seat) = Table::of_words(alloc, &[0], &())?;
        let table = Arc::new(alloc, table)?;
        Ok(Ground { seat, table })
    }

    /// The opener of all root numbers, which are those of type u32.
    pub fn start<N: Name>(self) -> Opener<N>
        requires { self ≡ N.table }
        ensures { result ≡ record { first = 0; left = 2 ^ 32 } }
    {
        let Ground { seat, table } = self;
        Opener {
            first: 0,
            left: ROOTS,
            seat,
            table,
            name: PhantomData,
        }
    }
}

/// The right to open roots. Contracts see it as the root numbers that are left to it. It may be let
/// go, and its numbers are then never used.
#[derive(Drop)]
pub struct Opener<N: Name> {
    first: u64,
    left: u64,
    seat: Seat<(), View>,
    table: Arc<DeedTable, Global>,
    name: PhantomData<N>,
}

impl<N: Name> Model for Opener<N> {
    ghost Value = { OpenerState };

    ghost view = { λ o. record { first = o.first; left = o.left } };

    ghost invariant = { λ o. AreAt N.table o.seat.table_id (arc_value o.table).shared.table_id
        × (o.seat.me ≡ (opener o.first o.left, []))
        × (o.first + o.left ≤ 2 ^ 32) };
}

impl<N: Name> Opener<N> {
    /// The first number that is left, which the next root gets.
    pub fn first(&self) -> u64
        ensures value { result ≡ self.now.first }
        ensures most { self.now.first + self.now.left ≤ 2 ^ 32 }
    {
        self.first
    }

    /// How many root numbers are left.
    pub fn left(&self) -> u64
        ensures value { result ≡ self.now.left }
        ensures most { self.now.first + self.now.left ≤ 2 ^ 32 }
    {
        self.left
    }

    /// Gives the first `n` numbers away. It is refused only when out of memory, before any number
    /// moves.
    pub fn share(&mut self, n: u64) -> Result<Opener<N>, AllocError>
        requires { n ≤ self.old.left }
        ensures given { IfOk result (λ other. other ≡ record { first = self.old.first; left = n }) }
        ensures rest { OnOk result
            (self.new ≡ record { first = self.old.first + n; left = self.old.left - n }) }
        ensures unchanged { OnErr result (self.new ≡ self.old) }
    {
        let again = Arc::try_clone(&self.table)?;
        let seat = share::<Brand>(&self.table, &mut self.seat, n);
        let first = self.first;
        self.first += n;
        self.left -= n;
        Ok(Opener {
            first,
            left: n,
            seat,
            table: again,
            name: PhantomData,
        })
    }

    /// Opens the next number as a root of this range, and gives the deed of the whole. It is
    /// refused only when out of memory, before any number is used.
    pub fn open_root(&mut self, range: Range) -> Result<(Root<N>, SeatDeed<N>), AllocError>
        requires { 0 < self.old.left }
        ensures root { IfOk result
            (λ made. made.0 ≡ record { root = self.old.first; range = range }) }
        ensures whole { IfOk result (λ made. made.1 ≡ made.0) }
        ensures rest { OnOk result
            (self.new ≡ record { first = self.old.first + 1; left = self.old.left - 1 }) }
        ensures unchanged { OnErr result (self.new ≡ self.old) }
    {
        let Opener {
            first,
            left: _,
            mut seat,
            table,
            name: _,
        } = self.share(1)?;
        open::<Brand>(&table, &mut seat, &range);
        let number = first as u32;
        let root = Root {
            number,
            range,
            name: PhantomData,
        };
        let deed = SeatDeed {
            root: number,
            range,
            seat,
            table,
            name: PhantomData,
        };
        Ok((root, deed))
    }
}
