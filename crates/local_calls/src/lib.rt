//! What the calls of quantum caches come to over one thread's parts.
//!
//! A call of `quantum_cache` has one clause: its list of steps was gone through. Over `Local` more
//! follows, where the parts are set up by a tree (`IsLocalOf`, specs/Runs.antt) and the accounts
//! balance, whoever else holds segments (`laws`):
//!
//! - no part refuses what it is rightly asked (specs/Asked.antt), so nothing is stuck or stops;
//! - NoFit comes only where nothing fits (specs/NoFits.antt), and leaves the stock as it was;
//! - a drain leaves the CPU no round, and a reaping nothing that could be reaped
//!   (specs/Reaped.antt), if its limit is above the looks that are enough (specs/Looks.antt); so
//!   of one arena (specs/ArenaReaps.antt).
//!
//! It has no code: laws alone.
#![tactic(auto)]

mod laws;
mod look_laws;

pub use laws::{emptied_laws, never_stuck_laws, no_fit_laws};
pub use look_laws::{reap_arena_laws, reap_limit_laws};
