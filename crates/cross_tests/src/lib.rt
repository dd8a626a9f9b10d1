//! Tests that cross crates, and those that use a crate's public calls alone. It has no code of its
//! own.
//!
//! They stand here and not in their crates, since the gate proves a crate once more for tests of
//! its own. `base` is for `deed_core` and `refusing_deed`, `tables` for `deed_table`. `arenas` has
//! rows of calls of an arena, over plain deeds and over deeds one of whose splits is refused;
//! `slabs` the same of a slab cache; `magazines` runs over a CPU's cache and its depot. `books` has
//! rows of requests to a book of leases, `client` what a client's core says to replies, also one
//! that goes on at the last number. `seat_deeds` has an arena over the deeds of running threads,
//! `same_answers` the arena beside its plain body. `promises` cites what the layers above reckon
//! with: one function for each call or law of the arena, the slab cache and the magazines, whose
//! contract only its callee's clauses carry. Tests of setups and stocks stand in `stock_tests`,
//! those of lines and desks in `line_tests`, those of the running system and of its parts in
//! `running_tests`.
//!
//! Each test is proved safe before it runs, and what that takes depends on its form: under a second
//! where it is a table of rows and one call, ten to twenty where it is a chain of ten assertions
//! over one value. So the calls and what they must give are rows of an enum, which one function
//! takes one by one; texts stand in one literal, a line each; and what is cut out of a literal is
//! cut by a function that is given it.
#![tactic(auto)]

#[cfg(test)]
mod arenas;
#[cfg(test)]
mod base;
#[cfg(test)]
mod books;
#[cfg(test)]
mod client;
#[cfg(test)]
mod magazines;
#[cfg(test)]
mod promises;
#[cfg(test)]
mod same_answers;
#[cfg(test)]
mod seat_deeds;
#[cfg(test)]
mod slabs;
#[cfg(test)]
mod tables;
