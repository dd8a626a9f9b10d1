//! Tests of running systems by their public calls: several CPUs and threads, from setup to shut; and
//! of their parts, each under its lock. It has no code of its own, and stands apart from
//! `cross_tests` since its tests wait for locks.
//!
//! `one_lock` asks each event of a shared part while the locks of other parts are held, and then
//! asks parts that changed places under their locks. The modules below `systems` have running
//! systems. `conversations` has setups with lines and what they are answered, the same as of a
//! script (`running_rows`); `rows` has lines and their answers, asked of two CPUs in turn, and how
//! a system ends; `growing` arenas that get further spans, and those that have several from the
//! setup on; `watching` what is told of a running system; `gates` has requests that a gate holds or
//! stops, in two threads; `orders` the steps of requests, imports, exchanges and changes of
//! magazines among them; `between` what is free between steps, and how many there are; `repeats`
//! which lines are settled and which come again; `pipeline` a client that has eight requests under
//! way; `settles` a lease or a hello that another CPU's lines come before, of which each may be one
//! that comes twice at once; `draining` a CPU that fails in a line and is drained beside a worker;
//! `starved_threads` calls that are refused memory and made again; `soak` has four workers for ten
//! seconds, after which no two leases overlap and each root comes back whole.
#![tactic(auto)]

#[cfg(test)]
mod one_lock;
#[cfg(test)]
mod systems;
