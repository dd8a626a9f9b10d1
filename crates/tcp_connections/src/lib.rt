//! Accepts the connections of clients over TCP, and serves the lines of each by any worker. Nothing
//! here depends on how a worker answers a line; `lease_tcp` has the workers of a running system.
//!
//! A `Worker` (workers) replies to one line at a time, and tidies after each connection.
//! `ClientLines` (replying) makes a responder of `lease_server` of it: it reads each line for the
//! worker, writes the worker's reply, and counts the line with its reply once, by a `Counter`
//! (counts). A `Tally` (tallies) is a counter; a server has several, so that threads seldom share
//! one.
//!
//! `serve_connection` (connections) serves one connection over any reader, writer and `Link`, which
//! tells the peer that no further reply follows (links). `turn_away` (refusals) tells a peer that
//! its connection isn't served.
//!
//! `next_open` (arrivals) returns the next connection that is accepted while a door is open.
//! `serve_each` serves these connections one after another, and `begin_each` calls a closure with
//! each. At a `Reception` the lines of a worker meet those of an `Entrance` (entrances): each
//! connection is entered, served and left, and the worker tidies after it.
//!
//! Over sockets, `TcpEntrance` (loops) is the entrance of a `Door`: a listener, and what its
//! connections share (doors). It serves each through a `PacedReader` and a `PacedWriter` (pacing),
//! which wait for the peer no longer than a `Pace` allows, by the clock (deadlines). A `Roll`
//! (rolls) has the connections that are served now: it limits how many there are, counts them, and
//! ends them all. Where each connection has a thread, `admit` (admissions) puts it on the roll and
//! has a closure start the thread, which calls `serve_admitted`. An `Overseer` (shortages) is
//! notified when there is no descriptor or no thread for a connection.
//!
//! The definitions that contracts cite are relations between states. In specs/, Replying.antt
//! states how a line may be answered, Counting.antt what is counted of it, Connections.antt what a
//! connection leaves, Arrivals.antt what becomes of connections one after another, Entrances.antt
//! of those that come to an entrance, and Rolls.antt what a roll counts. No contract can say what a
//! socket gives or takes, or which time a clock shows.
//!
//! Each byte is looked at a few times, and a line costs what its worker does. A connection has its
//! worker to itself until it ends, or until its peer is too slow for its pace, and takes memory for
//! the replies to the lines of one read. Pacing asks the clock once for each answer, and once for
//! each read that ends within a line. A roll is one table under one lock: a call looks at one row,
//! except `end`, which looks at all.
#![tactic(auto)]

mod admissions;
mod arrivals;
mod connections;
mod counts;
mod deadlines;
mod doors;
mod entrances;
mod links;
mod loops;
mod pacing;
mod refusals;
mod replying;
mod rolls;
mod shortages;
mod tallies;
mod workers;

pub use admissions::{admit, serve_admitted};
pub use arrivals::{Arrivals, Begun, Reception, Served, Server, begin_each, next_open, serve_each};
pub use connections::serve_connection;
pub use counts::{Counter, count_exchange};
pub use deadlines::{Deadline, Limited, Side};
pub use doors::Door;
pub use entrances::Entrance;
pub use links::{Link, let_go};
pub use loops::{ACCEPT_PAUSE, TcpEntrance, pause};
pub use pacing::{Pace, PacedReader, PacedWriter};
pub use refusals::turn_away;
pub use replying::ClientLines;
pub use rolls::{Guest, Roll};
pub use shortages::{NoOne, Overseer, Shortage};
pub use tallies::{Counts, LineSums, Tally};
pub use workers::Worker;
