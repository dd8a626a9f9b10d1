//! Calls of two CPUs over one thread's parts, by caches and by climbs: imports and what goes back
//! to a source, with the locked steps that each call takes. `arrangements` makes the stock and ends
//! it, `calls` has one function for each call, `sums` tells where units are, and `walks` has the
//! rows. `requests` has what an arena itself gives, `reaps` what goes back to one arena, `counts` a
//! long run of calls, and `most_steps` the one that takes the most steps.
mod arrangements;
mod calls;
mod counts;
mod most_steps;
mod reaps;
mod requests;
mod sums;
mod walks;
