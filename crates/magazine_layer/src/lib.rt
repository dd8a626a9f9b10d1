//! Caching of segments for each CPU: magazines, the two that a CPU keeps, and the depot that all
//! CPUs share ("Magazines and Vmem", 2001).
//!
//! A segment in a magazine is called a round. A `CpuCache` takes and gives rounds with no memory
//! and no lock; where its magazines are both empty or both full, it exchanges one with the `Depot`,
//! which keeps count of what its lists need, so that the rest can be reaped. `run_rounds` puts the
//! two together, and its contract bounds the exchanges.
//!
//! A depot of magazines of seven rounds, which had magazines of three before:
//!
//! ```text
//! draining  [c d]                      rest of a magazine of either size: goes first, d before c
//! old_full  [...] [...]                full ones of smaller sizes: go next, oldest (left) first
//! full      [.......] [.......]        full_reapable 1: that many, from the left, go after these
//! empty     [       ] [       ]        empty_reapable 2: that many are discarded by each reap
//!                              ^       swaps put and take here, at the right
//! ```
//!
//! `tick` makes each reapable number its list's length, and a list that gets shorter than its
//! number makes it that length. So it is the least length since the tick, less what was reaped.
//!
//! What a call costs: `take`, `give` and the swaps take constant time, `put_full` too but for the
//! growth of lists; `change` moves the cache's rounds, at most 62. The lists are deques, so the
//! oldest magazine goes without a move of the others: `reap` takes constant time, and constant time
//! more for each empty magazine that it discards. `resize` takes constant time for each magazine
//! that the depot has of its size, full or empty, and a depot's `close` for each empty one.
//! `rounds` and `units_alike` take constant time: where all rounds are alike their units are told
//! without a walk; `units` goes over all rounds.
//!
//! What contracts see of each type stands in `specs/`: begin with `Magazines.antt`. What a call
//! did, by its answer, stands in `Calls.antt`. Runs of the whole are in `cross_tests`.
#![tactic(auto)]

mod cpu_caches;
mod depots;
mod faults;
mod full_magazines;
mod lists;
mod magazines;
mod rounds;

pub use cpu_caches::CpuCache;
pub use depots::Depot;
pub use faults::{EmptyFault, FullFault, NotGreater, PutFullFault};
pub use magazines::{Magazine, is_magazine_size, two_empty};
pub use rounds::{RoundAnswer, RoundOp, RoundRun, run_rounds};
