//! Serves the lines of a stream: each line that comes in is given to a responder, and its answers
//! go out, in order, however the input comes in pieces. It knows no lease.
//!
//! An `Intake` (intakes) reads the stream and gives its lines one by one; who wants the first lines
//! for itself, as a setup does, takes them from it and hands it on. `serve` (serving) then answers
//! the others by a `Responder` (responders); or `tell` (telling) by a `Teller`, whose answers take
//! no memory. `Watched` (watching) is a reader or a writer that tells afterwards whether it failed,
//! so that a fault is laid to what failed.
//!
//! What is at hand of a stream is stated in specs/Intakes.antt, and what may go out for which lines
//! in specs/Serving.antt, over the frames of the crate `lease_proto`.
//!
//! Each byte is looked at a few times. A line is copied only where it goes over the end of what one
//! read gave, 16,384 bytes at most. An intake and a telling take no memory, a serving that for
//! the answers to the lines of one read.
#![tactic(auto)]

mod faults;
mod intakes;
mod output;
mod responders;
mod serving;
mod telling;
mod watching;

pub use faults::ServeFault;
pub use intakes::{Intake, MOST_READS, hand_law, read_limit_law};
pub use output::deliver;
pub use responders::{Responder, Teller};
pub use serving::serve;
pub use telling::tell;
pub use watching::Watched;
