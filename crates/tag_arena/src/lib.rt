//! One arena: ranges of whole numbers, carved by a policy and freed again. `Arena` is where to
//! begin; `specs/ArenaState.antt` says what its contracts see, `specs/Calls.antt` what a call does
//! to it, and `specs/Outcomes.antt` what a call comes to, by cases on its answer. Its tests stand
//! in the crate `cross_tests`, and a plain body with the same contract in `plain_arena`.
//!
//! A span of 32 units with the quantum 4, of which two segments are out:
//!
//! ```text
//!     base 0      8           20          32
//!          |free  |allocated  |free |alloc|       2 free ranges, each as long as it can be
//!          ^span's base                   ^span's end: free ranges of two spans never merge
//! ```
//!
//! `FreeIndex` holds the deeds of the free ranges, which a contract sees as one list from the
//! oldest to the newest. In it
//!
//! * `slots` has each deed in a slot of its own, with the time at which it became free;
//! * `rising` has the ranges by base, with their lengths as weights, under `next`;
//! * `sizes` has them by length and base, under `best` and `instant`, from the first call on that
//!   needs it;
//! * `lists` has them by power-of-two list, linked from the newest to the oldest, under `instant`.
//!
//! Round it `Arena` has the owned and the imported spans, each in the order of their ends, in
//! `Spans`; a contract sees spans in order of coming. `Tags` has the allocated ranges: each stands
//! in a cell of its own (`Cells`), which is found by the base on a hashed chain (`Chains`). Under
//! `best` and `instant` a free range has a cell too, and each is linked with those of the ranges
//! beside it: so a release finds its free neighbors, which `next` finds in `rising`. Chains and
//! links are for speed alone: who follows one looks at the range itself.
//!
//! What it costs: a call seeks in each index, by a search for a row of up to 64 ranges and one in
//! the row. Each change of an index moves up to 158 entries, and a search by weight up to 63; by
//! cells a neighbor is found without a search. On the lists a range comes and goes without one, and
//! `instant` looks at 64 heads at most. `next`, and a request with an `align` or a `nocross` of its
//! own, pass by the rows that have no room with one look at each; `Arena::probes` tells how many
//! ranges the last grant tried. Other calls look at more: `Arena::remove_owned` at each owned span
//! below the one that it takes, a carve, a new span or an import that makes a table larger at each
//! range, and the first call that needs `sizes` at each free range: under `instant` one with
//! options, or for which no list serves, or `Arena::remove_owned`. A request with a window of its
//! own, from `min` to `max`, may try many ranges that don't serve it, and one on another grid than
//! the last may weigh many anew. An index takes some 100 bytes for each range, free or allocated,
//! whether `sizes` is kept yet or not, cells and chains some 40 to 80, and the lists 8 to 16,
//! beside 1,024 of each arena: a carve and a new span make room for what they add, and for each
//! allocated range to become free, before they change anything. So `Arena::free` and
//! `Arena::remove_owned` take no memory.
//!
//! Its rules are those of "Magazines and Vmem" (2001), where no other source is named.
#![tactic(auto)]

mod arenas;
mod cell_notes;
mod cells;
mod chained;
mod chains;
mod cuts;
mod earliest;
mod entries;
mod faults;
mod filling;
mod free_index;
mod held_ranges;
mod laws;
mod merges;
mod newest_lists;
mod orders;
mod owned_spans;
mod places;
mod policies;
mod probes;
mod reaches;
mod reserves;
mod returns;
mod searches;
mod short_indexes;
mod slot_searches;
mod slots;
mod span_entries;
mod span_searches;
mod spans;
mod tags;
mod whole_spans;

pub use arenas::{Arena, ArenaReport};
pub use faults::{ArenaFault, RangeFault, SpanFault};
pub use laws::{allocated_laws, arena_laws, one_choice_laws, serving_laws};
pub use policies::Policy;
