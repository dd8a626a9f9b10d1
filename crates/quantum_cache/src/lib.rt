//! Allocation through quantum caches, over whatever parts one CPU can reach.
//!
//! `alloc` and `xalloc` (allocs) give a segment, `free` (frees) takes one back, `drain` (drains)
//! empties the magazines of a CPU, and `reap` (reaps) what depots and slabs no longer need. Each is
//! a list of steps over `arena_tree::Parts`, and one for all parts: those of one thread, or of a
//! system of locks. A size up to the greatest that an arena caches comes out of the CPU's magazines
//! where they have it, which takes no lock; else out of the depot, a slab, or a new slab, in this
//! order; and what isn't cached is carved, by a climb through the sources where that must be.
//!
//! An allocation takes at most 8 locked steps and 2 for each arena of its chain, a free of a round
//! three, a drain one for each round, a reaping five for each look. All takes no memory beside what
//! the parts take.
//!
//! specs/Allocs.antt, Frees.antt, Drains.antt and Reaps.antt have the lists of steps, line by line;
//! specs/Sizes.antt says which cache serves a size, specs/Served.antt what an allocation gives,
//! specs/Told.antt and Looks.antt what each end tells of the way, and specs/Laws.antt where each
//! segment is then and how many locks were taken. A function has the one clause that its list of
//! steps was gone through (`Ran`), and a few that follow from it; all else is a law (laws).
#![tactic(auto)]

mod alloc_stages;
mod allocs;
mod drains;
mod emptying_faults;
mod frees;
mod laws;
mod placings;
mod reaps;
mod sizes;

pub use allocs::{alloc, xalloc};
pub use drains::drain;
pub use emptying_faults::EmptyingFault;
pub use frees::free;
pub use laws::{hand_laws, lock_laws, told_laws};
pub use reaps::{ReapFault, Reaping, reap, reap_arena};
