//! A plain body of an arena, under the contract of `tag_arena`'s `Arena`: lists of spans and of
//! free ranges that each call looks through. It is for tests alone: `cross_tests` makes the same
//! calls on both bodies and compares every answer. `PlainArena` is where to begin; its words are
//! those of `tag_arena`'s `specs/`, and so are most of its lemmas.
//!
//! What it costs: `xalloc` looks at each free range, `add_span` and `add_span_and_carve` at each
//! span, `free` and `report` at both; `remove_owned` looks for owned spans among the free ranges,
//! at worst each with each.
#![tactic(auto)]

mod arenas;
mod choices;
mod cuts;
mod held_ranges;
mod merges;
mod places;
mod power_lists;
mod spans;
mod tags;
mod whole_spans;

pub use arenas::PlainArena;
