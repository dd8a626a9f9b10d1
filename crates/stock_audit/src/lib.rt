//! Where the units of a stock are, and that all of them are accounted for: what every layer above a
//! stock says of it, said once.
//!
//! A stock doesn't know who holds what is out of it. Here that is data (`Outside`): the segments in
//! hands, those leased, and the caches of the CPUs. `audit` tells the six sums of an arena, and
//! `specs/Accounted.antt` says what is so between any two steps (`IsAccountedFor`). The laws say
//! that a new stock is accounted for, that each step keeps it, and what follows: the sums add up,
//! what a source exported are its children's spans, and no two segments that are out overlap.
//!
//! `audit` goes once over the lists that it is given; else it takes constant time for each arena
//! and each cache of the one that it tells of. It takes no memory.
//!
//! Begin with `audit` in `audits`; `specs/Outside.antt` has what is out, `specs/Laws.antt` what the
//! laws say.
#![tactic(auto)]

mod audits;
mod laws;
mod lists;

pub use audits::{UnitsOut, audit, audit_units, audit_units_by_parts};
pub use laws::{
    accounted_laws, chain_laws, chain_sum_laws, move_laws, off_chain_laws, reach_laws, step_laws,
    sum_laws,
};
pub use lists::{rounds_units, units_of};
pub use stock::{ArenaSums, SumsRoom};
