//! What a client's line asks, step by step: of the book, of the parts, and of the book again. One
//! list of steps for one thread and for a system of locks.
//!
//! `Books` (books) is the book of leases as one CPU reaches it beside its parts: each call is one
//! event, with its answer. `request` (requesting) answers a request, by `release` (releasing) or
//! `lease` (leasing), and `hello` (greeting) a hello, over any book and any parts; `place`
//! (placing) takes a segment back. What a line comes to stands in `outcomes`, why a call ended
//! without that in `call_faults`. What an operator's line that grows a root asks for, and what it is
//! told, stands in `growing`.
//!
//! specs/Calls.antt has the book's calls with the type of their answers, specs/CallPlans.antt what
//! a list of steps over both is, BookEvents.antt what each call does to a book, and Placing.antt,
//! Hands.antt, Releasing.antt, Leasing.antt, Requesting.antt and Greeting.antt the lists of steps,
//! line by line. A function has the one clause that its list of steps was gone through
//! (`CallRan`), and a few that follow from it; all else is a law (laws): how many locks of parts a
//! line takes at most, that it loses no segment (Kept.antt), when nothing fits (Refusing.antt), and
//! that a stop ends it (Stopping.antt). Who has gone through a list has them of what was answered
//! (Answered.antt).
#![tactic(auto)]

mod books;
mod call_faults;
mod greeting;
mod growing;
mod laws;
mod leasing;
mod outcomes;
mod placing;
mod releasing;
mod requesting;

pub use books::Books;
pub use call_faults::{CallFault, NotGreeted, NotReleased, NotSettled};
pub use greeting::hello;
pub use growing::{Growth, grow_outcome, grow_word, growth_asked};
pub use laws::{hand_laws, kept_laws, lock_laws, no_fit_laws, stop_laws};
pub use outcomes::{Greeting, Outcome};
pub use placing::place;
pub use requesting::request;
