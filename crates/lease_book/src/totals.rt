//! How many units of each arena are leased.
ghost use Rattle.std.specs.Prelude.{◌≡◌, ◌+◌, ◌^◌, ◌<◌, ◌≤◌, ◌==◌, [], OnOk, OnErr, position};
ghost use Rattle.lease_book.specs.Totals.{total_of, CountMore};

use std::alloc::{AllocError, Global};
use std::marker::Model;

/// So many units of an arena are leased.
#[derive(Clone, Copy, Debug)]
struct Total {
    arena: u32,
    units: u128,
}

/// A total for each arena that ever had a lease. They are few, so that a search looks at each.
#[derive(Drop)]
pub(crate) struct Totals {
    each: Vec<Total>,
}

impl Model for Totals {
    ghost use Rattle.std.specs.Prelude.{List};
    ghost use Rattle.lease_book.specs.declared.totals.Total.{Total};

    ghost Value = { List Total };

    ghost view = { λ t. t.each.items };
}

impl Totals {
    /// No totals: no unit is leased.
    pub(crate) fn new(alloc: Global) -> Totals
        ensures { result ≡ [] }
    {
        Totals {
            each: Vec::new(alloc),
        }
    }

    /// The total of an arena.
    pub(crate) fn of(&self, arena: u32) -> u128
        ensures { result ≡ total_of arena self.now }
    {
        match place_of(&self.each, arena) {
            Some(at) => self.each[at].units,
            None => 0,
        }
    }

    /// Counts units of an arena. `Err` is out of memory.
    pub(crate) fn add(&mut self, arena: u32, units: u64) -> Result<(), AllocError>
        requires { total_of arena self.old + units < 2 ^ 128 }
        ensures ok { OnOk result (CountMore arena units self.new self.old) }
        ensures unchanged { OnErr result (self.new ≡ self.old) }
    {
        match place_of(&self.each, arena) {
            Some(at) => {
                self.each[at].units += units as u128;
                Ok(())
            }
            None => {
                self.each.reserve(1)?;
                let units = units as u128;
                self.each.push_reserved(Total { arena, units });
                Ok(())
            }
        }
    }

    /// Counts units of an arena no more.
    pub(crate) fn subtract(&mut self, arena: u32, units: u64)
        requires { units ≤ total_of arena self.old }
        ensures { CountMore arena units self.old self.new }
    {
        if let Some(at) = place_of(&self.each, arena) {
            self.each[at].units -= units as u128;
        }
    }
}

/// Where the total of an arena stands.
fn place_of(totals: &[Total], arena: u32) -> Option<usize>
    ensures { result ≡ position (λ t. t.arena == arena) totals.now }
{
    totals.iter().position(|total| total.arena == arena)
}
