//! Serves the lines of clients over TCP by a running system: a worker serves one connection after
//! another, or each connection has a thread of its own. `tcp_connections` accepts the connections,
//! and paces, counts and serves each by any worker; the workers here answer lines by a system.
//!
//! `SystemWorker` (system_workers) has one CPU of the system to itself, and tidies by `tidy_by`
//! (tidying) after each connection. `accept_loop` serves the connections of a door by it.
//!
//! `serve_talks` (talks) gives each connection of a `House` (houses) a thread, up to as many as its
//! roll takes, and turns further ones away. Each thread has a `SharedWorker` (shared_workers),
//! which takes a `Seat` (seats) of the `SharedCpus` (shared_cpus) for each line: one of the
//! system's CPUs, under a lock. `keep` (keepers) tidies such a system at intervals, also by
//! `tidy_by`, in rounds that `keep_rounds` (rounds) begins. A thread holds one seat at a time, and
//! takes no seat while it holds a part's lock.
//!
//! In specs/, Workers.antt states what a worker of a system may reply and how it tidies,
//! Tidying.antt in which order a system is tidied, and Rounds.antt when rounds are begun.
//!
//! A `SystemWorker` makes one request of its system for each line. After a connection it drains its
//! CPU, reaps each arena, by at most `REAP_LIMIT` looks, and ticks each depot. A connection with a
//! thread has a stack of 256 KiB, of which it uses some 20, and its line waits for a seat only if
//! all are taken.
#![tactic(auto)]

mod houses;
mod keepers;
mod rounds;
mod seats;
mod shared_cpus;
mod shared_workers;
mod system_workers;
mod talks;
mod tidying;

pub use houses::House;
pub use keepers::{go_round, keep};
pub use rounds::{Kept, Rounds, keep_rounds};
pub use seats::{Drained, Reaped, Seat, new_seats};
pub use shared_cpus::SharedCpus;
pub use shared_workers::SharedWorker;
pub use system_workers::{REAP_LIMIT, SystemWorker, accept_loop};
pub use talks::serve_talks;
pub use tcp_connections::{
    Begun, Counts, Door, Overseer, Pace, Roll, Served, Shortage, Tally, Worker,
};
pub use tidying::{Tidied, Upkeep, tidy_by};
