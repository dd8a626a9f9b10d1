//! Arenas that import from one another, and lists of steps over whatever parts they stand in.
//!
//! `Setup` (setups) is what a system is made from: arenas by name, each a root with owned spans or
//! a child that imports, added one by one; its type keeps it acceptable. `Tree` (trees) is a setup
//! without its spans: it finds an arena's number by its name, and its chain, which is the arena,
//! its source, that one's source and so on. To find a name looks at each of at most `MOST_ARENAS`;
//! a chain is kept, and takes constant time. What is asked for can be judged before it is added:
//! `judge`, `judge_root`, `judge_child` and `judge_span` take no memory, and refuse with the same
//! word. Adding a span looks at each span of its arena.
//!
//! `Parts` (parts) is what one CPU can reach: each call is one event, in one part under its lock,
//! or in the CPU's own magazines. `climb_alloc` and `climb_free` (climbs) go up a chain and down
//! again by such events, over any parts: one thread's, or those of a system of locks. They take a
//! time that grows with the chain, at most `LONGEST_CHAIN` arenas, beside what the parts take.
//!
//! specs/Setups.antt and specs/Settings.antt say what is added to a tree and a setup, and exactly
//! when which refusal comes. specs/Events.antt has the events with the type of their answers,
//! specs/Sound.antt what is so of every answer, specs/Plans.antt what a list of steps is: a tree
//! that asks an event and goes on by its answer. specs/Climbs.antt has the lists of steps of
//! climbs, line by line, specs/Told.antt what each end tells of the way, and specs/Laws.antt what
//! follows. A generic function has the one clause that its list of steps was gone through (`Ran`);
//! all else is a law of the list.
#![tactic(auto)]

mod climbs;
mod laws;
mod levels;
mod limits;
mod part_faults;
mod parts;
mod settings;
mod setup_faults;
mod setups;
mod sizes;
mod trees;

pub use climbs::{climb_alloc, climb_free};
pub use laws::{climb_laws, setup_laws, tree_laws};
pub use levels::Level;
pub use limits::{
    LONGEST_CHAIN, MOST_ARENAS, MOST_CACHES, MOST_ROOTS, MOST_SPANS, setup_limit_law,
};
pub use part_faults::{
    ChangeFault, ClimbFault, FreshFault, GivenFault, GrowFault, PartFault, ReturnFault, Stopped,
};
pub use parts::Parts;
pub use settings::{NewChild, NewRoot, NewSpan, Setting};
pub use setup_faults::SetupFault;
pub use setups::{OwnedSpan, Setup};
pub use sizes::cache_count;
pub use trees::{Tree, TreeArena};
