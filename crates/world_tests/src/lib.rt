//! Tests of worlds by their public calls. It has no code of its own.
//!
//! `stories` has worlds to which each event of a list happens, with what clients hold, what was
//! replied and what audits tell in the end; `refusals` each named refusal of an event that a test
//! can reach, and events that can't be tried, at which nothing moves; `failing` a CPU that fails
//! after each of its events in turn; `rows` imports and slabs, with all sums after each event;
//! `growths` arenas that get further spans, as many as one may own; `windows` a client with eight
//! requests under way; `limits` the last CPU, the last client, and as many leases as one may have;
//! `walks` a hundred thousand events at random, by clients of both protocols, along which the sums
//! and what clients hold are looked at. What they share stands in `worlds`; `picks`, `chances` and
//! `kinds` are for the walk.
#![tactic(auto)]

#[cfg(test)]
mod chances;
#[cfg(test)]
mod failing;
#[cfg(test)]
mod growths;
#[cfg(test)]
mod kinds;
#[cfg(test)]
mod limits;
#[cfg(test)]
mod picks;
#[cfg(test)]
mod refusals;
#[cfg(test)]
mod rows;
#[cfg(test)]
mod stories;
#[cfg(test)]
mod walks;
#[cfg(test)]
mod windows;
#[cfg(test)]
mod worlds;
