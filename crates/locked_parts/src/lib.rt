//! The parts of a running system, each under a lock of its own, and who reaches them.
//!
//! Under the locks stand the parts of the stock: `ArenaPart` (arena_parts), the slab cache
//! (slab_parts) and `KindDepot` (kind_depots). What lies there when a lock is taken is known by its
//! type alone, so that it is looked at before an event is asked of it (reached): one that isn't the
//! part that was sought raises an alarm (misplaced), which has a lock of its own and keeps the
//! first. Each part leaves which one it was, at which step it was asked (said) and what it answered
//! (words). `LockedParts` (parts) has them by the numbers of their arenas (locked_arenas,
//! locked_caches); they are made of arenas as they stand before their locks (new_arenas,
//! owned_spans, new_caches), and ended by taking them from under the locks (ending), up to one that
//! was found not to be empty (not_empty).
//!
//! Each span that an arena owns is a root of its own, numbered by its arena and its place among the
//! arena's spans. Those of the setup are opened before the arena comes under its lock, and their
//! roots are handed out; further ones are opened under the lock, and their roots stay there until
//! they are asked for (`LockedParts::{grow, hand_over}`). There is room for the end of all by then
//! (end_rooms): it is made under the same lock, before a root is opened.
//!
//! `Running` (running) is `arena_tree::Parts` over them for one CPU, which has two magazines for
//! each quantum cache (own_caches, magazine_sets): each event of a shared part takes its lock, and
//! no other (locked_events, own_events; running_tests::one_lock tests that), and asks the gate
//! (gates) before.
//! Intervals and sizes of magazines are for all depots, one after another: such a walk
//! (depot_walks) is proved over whatever keeps the depots, and goes over the locks (locked_depots).
//!
//! `specs/Kinds.antt` has quantum caches and what contracts see of magazines and depots,
//! `States.antt` what stands beside the locks, `Swaps.antt` exchanges, `Answers.antt` what an event
//! answers, `Saying.antt` by which part it came or that there is none, `Missing.antt` what is found
//! then, `Words.antt` the plain words by which a part says what it answered, `Gates.antt` what a
//! gate is asked and may say, `News.antt` what parts are made as, `GrowAnswers.antt` which arenas
//! get further roots, `Growing.antt` how and why not, `Handing.antt` what an arena gives out of its
//! lock at the end, `Walks.antt` walks over depots, `Sums.antt` what parts tell of themselves.
//!
//! A part is found by its number, in constant time. An event costs what the part's own call does
//! (`tag_arena`, `slab_layer`, `magazine_layer`) and a few looks whether it is the part that is
//! meant; one of the CPU's own magazines takes constant time and no lock. A CPU keeps two magazines
//! for each quantum cache.
#![tactic(auto)]

mod arena_parts;
mod depot_walks;
mod end_rooms;
mod ending;
mod gates;
mod kind_depots;
mod kinds;
mod locked_arenas;
mod locked_caches;
mod locked_depots;
mod locked_events;
mod magazine_sets;
mod misplaced;
mod new_arenas;
mod new_caches;
mod not_empty;
mod own_caches;
mod own_events;
mod owned_spans;
mod part_sums;
mod parts;
mod reached;
mod running;
mod said;
mod slab_parts;
mod words;

pub use arena_parts::{
    ArenaPart, ArenaSaid, ArenaSet, Grown, GrowthRefused, HandedOver, NoneWhole, NotCounted, Taken,
};
pub use depot_walks::{Interval, Resized};
pub use gates::{EventName, Gate, NextStep, OpenGate, Pass, RequestStopped, StepCount};
pub use kind_depots::{DepotSaid, KindDepot};
pub use kinds::CacheKind;
pub use locked_arenas::LockedArena;
pub use locked_caches::{DepotGuard, SlabGuard};
pub use magazine_sets::{end_rounds, new_rounds};
pub use misplaced::{Cause, Misplaced, NoneMissed, PartName};
pub use new_arenas::NewArena;
pub use not_empty::NotEmpty;
pub use own_caches::OwnCache;
pub use part_sums::PartSums;
pub use parts::{LockedParts, NotGrown, NotHandedOver, NotTaken};
pub use running::Running;
pub use said::Said;
pub use slab_parts::SlabSaid;
pub use words::Word;
