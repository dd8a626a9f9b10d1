//! The desk of one thread: arenas by name with their caches, CPUs, and the book of leases, which
//! together answer the lines of the lease protocol and of its operator.
//!
//! Begin with desks, which has the desk itself, as a server asks it. Each step has a module of its
//! own: what segments come from (supplies), the book as `lease_call` asks it (own_books), the
//! answers to requests and hellos by its lists of steps (requests, hellos) and the replies that
//! they are (replies), the answers to an operator (operators), his choice of a CPU (cpus), his
//! intervals and magazine sizes (depots), the ranges that he adds (growing), what he is told of the
//! arenas and clients (reports), CPUs that go offline (offlines), what is reaped (reapings), what a
//! setup gives, and that it is a picture (openings), and how leases and CPUs end (endings). What a
//! line may be answered is stated in the crate `lease_machine`.
//!
//! A client's line costs what the calls of `quantum_cache` and of the book do, and a look at the
//! names of the arenas and the numbers of the CPUs, which are few; a hello one free for each lease
//! that it ends. Of an operator's lines `tick` and `resize` go over depots, `offline` over the
//! rounds of one CPU, `reap` over the rounds and slabs that may go, `audit` for each arena over all
//! its parts, the CPUs' magazines and all leases, `clients` over all clients. `close` takes leases,
//! rounds, slabs and spans back one by one, and takes no memory.
#![tactic(auto)]

mod cpus;
mod depots;
mod desks;
mod endings;
mod growing;
mod hellos;
mod offlines;
mod openings;
mod operators;
mod own_books;
mod reapings;
mod replies;
mod reports;
mod requests;
mod supplies;

pub use desks::Desk;
pub use openings::opening_law;
