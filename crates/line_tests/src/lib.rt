//! Tests of lines and what answers them, by public calls. It has no code of its own, and stands
//! apart from `cross_tests` so that neither waits for the other's crates.
//!
//! `lines` has lines, replies and streams of the protocol, `operator_lines` those of an operator,
//! `desk_limits` a desk at its limits and out of memory, by `asking`; what a desk replies else, the
//! files of tests/cases have, over the program. `serving` has streams of lines, failing ones too,
//! and `connections` those of a worker, one after another; `pacing` has slow peers, and `rounds`
//! what becomes of CPUs at rest.
#![tactic(auto)]

#[cfg(test)]
mod asking;
#[cfg(test)]
mod connections;
#[cfg(test)]
mod desk_limits;
#[cfg(test)]
mod lines;
#[cfg(test)]
mod operator_lines;
#[cfg(test)]
mod pacing;
#[cfg(test)]
mod rounds;
#[cfg(test)]
mod serving;
