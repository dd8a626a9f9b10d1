//! A worker over CPUs that it shares.
ghost use Rattle.std.specs.Prelude.{◌≡◌};

use crate::shared_cpus::SharedCpus;
use deed_table::Name;
use lease_proto::{Line, Reply};
use std::marker::Model;
use std::sync::Wait;
use tcp_connections::{Tally, Worker};

/// A worker that answers by a system and has no CPU of its own: each line takes a seat, its own if
/// that is free, and gives it back with the reply. A contract sees the arenas of the system.
#[derive(Drop)]
pub struct SharedWorker<'a, N: Name, R: Wait> {
    rt: &'a R,
    cpus: &'a SharedCpus<'a, N>,
    place: usize,
    tally: &'a Tally,
}

impl<'a, N: Name, R: Wait> Model for SharedWorker<'a, N, R> {
    ghost use Rattle.std.specs.Prelude.{List};
    ghost use Rattle.arena_tree.specs.declared.trees.TreeArena.{TreeArena};

    ghost Value = { List TreeArena };

    ghost view = { λ w. w.cpus.now.arenas };
}

impl<'a, N: Name, R: Wait> SharedWorker<'a, N, R> {
    /// A worker whose own seat is at this place, counted round, and whose waits are counted there.
    pub fn new(
        rt: &'a R,
        cpus: &'a SharedCpus<'a, N>,
        place: usize,
        tally: &'a Tally,
    ) -> SharedWorker<'a, N, R>
        ensures { result ≡ cpus.entry.now.arenas }
    {
        SharedWorker {
            rt,
            cpus,
            place,
            tally,
        }
    }
}

impl<N: Name, R: Wait> Worker for SharedWorker<'_, N, R> {
    ghost use Rattle.std.specs.Prelude.{◌≡◌};
    ghost use Rattle.deed_table.specs.declared.deeds.SeatDeed.{SeatDeed};
    ghost use Rattle.lease_tcp.specs.Workers.{MayShareReply};

    type Tidied = ();

    ghost may_reply = { MayShareReply (SeatDeed N) };

    ghost may_tidy = { λ old new. new ≡ old };

    fn reply(&mut self, line: &Line) -> Reply {
        let cpus = self.cpus;
        let mut seat = match cpus.free(self.place) {
            Some(seat) => seat,
            None => {
                self.tally.note_wait();
                cpus.take(self.rt, self.place)
            }
        };
        seat.answer(self.rt, cpus.system, line).reply
    }

    // (the keeper of the system tidies, by time)
    fn tidy(&mut self) {}
}
