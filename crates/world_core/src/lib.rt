//! The world of events: a stock of arenas, CPUs with their hands, the book of leases, the clients,
//! and all lines and replies that were ever sent, as one value on which events happen one after
//! the other.
//!
//! It is a model that runs. Nothing in it is a copy of a part: the stock, the book and the clients
//! are the parts themselves, and each event is one call of one of them. Lines and replies that were
//! sent stay, so any of them may come at any time, any number of times, or never; a CPU stops
//! between two events by having no further ones. A client speaks one protocol or the other, named
//! at each restart: by the second it has up to eight requests under way, and may send any of them
//! again. Whatever list of events happens, the world stays one (`specs/IsWorld.antt`), and so it is
//! safe (`specs/Safe.antt`): each unit is in one home, each grant was asked for and fits, what
//! clients hold is leased to them and no unit is in two segments that they hold of arenas with one
//! top, and any two replies that settle one request are equal.
//!
//! [`World::new`] makes one of a setup: all spans are free, CPUs are idle, each with empty caches
//! of its own, and nothing was said; [`World::end`] takes one apart whatever is out, and closes
//! each deed. Begin with [`World::step`] and `specs/Events.antt`: where each event can be tried,
//! where it can happen, why its part refuses it, and what may become of a world at it;
//! `specs/Moves.antt` has the moves. A CPU that another adopts from has failed: it has no further
//! events, and what it had goes to others, one segment an event, until it has nothing
//! (`specs/Drains.antt`). An arena that doesn't import may grow between any two events. What holds
//! of every list of events holds from any world that is one.
//!
//! What it costs: a world keeps each line, reply and entry of the book for good. An event takes the
//! time of its part's call, and a release looks the name of its arena up among all names.
#![tactic(auto)]

mod adoptions;
mod audits;
mod carves;
mod clients;
mod closings;
mod cpu_caches;
mod depots;
mod events;
mod growing;
mod hands;
mod laws;
mod logs;
mod looks;
mod messages;
mod names;
mod openings;
mod parts;
mod releases;
mod reports;
mod rounds;
mod settlements;
mod slabs;
mod swaps;
mod tasks;
mod worlds;

pub use events::{EventFault, Outcome, WorldEvent};
pub use laws::{always_safe, drain_laws};
pub use logs::{Label, Logged};
pub use tasks::Task;
pub use worlds::World;
