//! The running system: each arena, slab cache, depot and the book under a lock of its own.
//!
//! `System` (systems) has beside the locks what is fixed at setup: the arenas and the roots of the
//! spans that they were set up with. Its parts are those of `locked_parts`, and its book is a
//! `SharedBook` of `shared_book`. A `Cpu` (cpus) has a hand and two magazines for each quantum
//! cache, and needs no lock. Before each step a `Gate` is asked.
//!
//! `new` (openings) makes a system of a setup. `request` (requests) answers one line: it goes
//! through the line's list of steps in `lease_call`, over the parts and the book as one CPU reaches
//! them (gated_books), and tells what that ended with, by the replies of `shared_book`. A segment
//! that it left is the CPU's hand (hands). `tick`, `resize`, `grow` and `reap` (upkeep) keep the
//! system in shape, and `retire` (retiring) ends a CPU. `shut` (shutting) ends a system: its roots
//! are brought together from behind the locks (gathering) and told (telling), in room that was made
//! for that (told_rooms), all that lies in its parts is placed (emptying), the roots are closed
//! (closing), each by the deed of its own (matching), and its parts and its book are ended
//! (ending). Those who watch a system are told what its parts and its book have, each under its own
//! lock (sums).
//!
//! What contracts see of a system and a CPU stands in `specs/Systems.antt`, that a line's list of
//! steps was gone through in `Calling.antt`, what follows of each line's segments in
//! `LineLaws.antt` (laws), what a reaping tells in `Reaping.antt`, why a CPU can't end in
//! `Retiring.antt`, what watchers are told of an arena in `Sums.antt`, how a system begins and ends
//! in `Openings.antt` and `Ends.antt`. What a line may be answered, and what may settle it, stands
//! in `Replying.antt` and `Settling.antt` of `shared_book`.
//!
//! A request takes the book's lock twice at most, as its list of steps shows, and those of its
//! steps over the parts, of which `lease_call` says how many they are at most (`lock_laws`), by the
//! depth of its arena; and those of a free where its hand is full before it. A hello takes the
//! book's lock twice, and once more, with a free, for each lease that it ends; after one more than
//! a client may have leases it may be sent once more. A lock is held for one event on its part.
//! `tick` and `resize` take that of one depot after another, `grow` that of its arena, `reap` those
//! of its looks, as many as its limit at most, and of a free for each round and span that they
//! give, `retire` those for each round of the CPU. `shut` goes over all parts and leases.
#![tactic(auto)]

mod closing;
mod cpus;
mod emptying;
mod ending;
mod gated_books;
mod gathering;
mod hands;
mod laws;
mod matching;
mod openings;
mod requests;
mod retiring;
mod shutting;
mod sums;
mod systems;
mod telling;
mod told_rooms;
mod upkeep;

pub use cpus::Cpu;
pub use laws::line_laws;
pub use locked_parts::{
    EventName, Gate, Interval, NextStep, OpenGate, Pass, RequestStopped, Resized,
};
pub use quantum_cache::Reaping;
pub use shared_book::{BookSums, BookWord, LineAnswer, Told};
pub use shutting::{Halted, StoppedAt};
pub use sums::SystemSums;
pub use systems::System;
