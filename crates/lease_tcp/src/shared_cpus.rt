//! The CPUs of a system that connections share.
ghost use Rattle.std.specs.Prelude.{◌≡◌, ◌<◌, length};

use crate::seats::Seat;
use deed_table::Name;
use lease_threads::System;
use std::marker::Model;
use std::sync::{Mutex, MutexGuard, Wait};

/// A system and the seats of its CPUs, of which there is one at least. A contract sees the arenas
/// of the system, and how many seats there are.
#[derive(Drop)]
pub struct SharedCpus<'a, N: Name> {
    pub(crate) system: &'a System<N>,
    pub(crate) seats: &'a [Mutex<Seat<N>>],
}

impl<'a, N: Name> Model for SharedCpus<'a, N> {
    ghost use Rattle.std.specs.Prelude.{◌<◌, length};
    ghost use Rattle.lease_tcp.specs.Workers.{SharedState};

    ghost Value = { SharedState };

    ghost view = { λ c. record { arenas = c.system.now.arenas; seats = length c.seats.now } };

    ghost invariant = { λ c. 0 < length c.seats.now };
}

impl<'a, N: Name> SharedCpus<'a, N> {
    /// These seats of this system.
    pub fn new(system: &'a System<N>, seats: &'a [Mutex<Seat<N>>]) -> SharedCpus<'a, N>
        requires { 0 < length seats.now }
        ensures { result
            ≡ record { arenas = system.entry.now.arenas; seats = length seats.entry.now } }
    {
        SharedCpus { system, seats }
    }

    /// Takes the first seat from this place on that no one has, else waits for the one of this
    /// place.
    pub(crate) fn take<R: Wait>(&self, rt: &R, place: usize) -> MutexGuard<'a, Seat<N>> {
        match self.free(place) {
            Some(guard) => guard,
            None => self.seats[place % self.seats.len()].lock(rt),
        }
    }

    /// Takes the first seat from this place on that no one has.
    pub(crate) fn free(&self, place: usize) -> Option<MutexGuard<'a, Seat<N>>> {
        let count = self.seats.len();
        for turn in 0..count {
            if let Some(guard) = self.seats[place.wrapping_add(turn) % count].try_lock() {
                return Some(guard);
            }
        }
        None
    }
}
