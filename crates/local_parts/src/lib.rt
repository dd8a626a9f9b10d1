//! One thread's parts: a stock and one CPU's caches, both lent, as what lists of steps run
//! over.
//!
//! `Local` (locals) is `Parts` for one thread. Each event is the stock's own relation on one
//! part, or one of the CPU's own, with all else unchanged: specs/SharedSteps.antt and
//! specs/OwnSteps.antt say which, by the answer, and specs/Steps.antt puts them together.
//! Stopped never comes. What goes into the CPU's magazines is tested to be a chunk of their
//! cache, so that a forged segment is never given again.
//!
//! `CpuCaches` (cpu_caches) is one CPU's cache for each quantum cache of each arena: `new`
//! makes them for a stock, `units` tells what they hold of an arena, and `close` ends them where
//! they have no round.
//!
//! `laws` has what follows of every list of steps: it conserves units whoever else holds
//! segments, leaves the setup alone, and leaves each unit in one home. A pop takes one round.
//!
//! An event takes constant time beside what its part takes. To make a CPU's caches, and to end
//! them, goes over all of them.
#![tactic(auto)]

mod cpu_caches;
mod cpu_setups;
mod laws;
mod locals;
mod own_changes;
mod sums;

pub use cpu_caches::CpuCaches;
pub use laws::{empty_cpu_law, local_laws, pop_law};
pub use locals::Local;
