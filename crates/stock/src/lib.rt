//! The stock: all parts of a system as one value. It has the arenas, each with the arena that it
//! imports from and its quantum caches, and each quantum cache is a slab cache and a depot.
//!
//! What moves segments among the parts (the lists of steps, one thread's program, the world of
//! events, the running system) speaks of a stock by its plain data, `SpaceState`, in order of
//! setup. Each call here is one event on one part: its contract is that part's own relation, with
//! all else unchanged, and its frame law. `specs/Accounts.antt` says what always balances, relative
//! to the list of the segments that are out of all parts: in hands, leased, or rounds of CPUs.
//!
//! A call finds its part by its index, in constant time, and costs what the part's own call does.
//! `reap_all` and `close` go through all parts: a stock ends by the first, by `remove_owned` until
//! it gives none, and by the second, exactly where nothing is out of it (`end_laws`). `put_back`
//! takes back what is out, and `close_plain_stock` does all of that over plain deeds.
//!
//! Begin with `Stock::of` in `making`, which makes a `Stock` of a setup (`plain_stock` does over
//! plain deeds), and with its calls in `stocks`; `specs/Setups.antt` says what a stock is set up
//! as, `specs/Steps.antt` has the steps, and `laws` what follows from the accounts. Arenas and
//! caches come by nothing else, and further spans by `Stock::grow`, or over plain deeds by
//! `grow_by`.
#![tactic(auto)]

mod arena_steps;
mod depot_steps;
mod endings;
mod growing;
mod laws;
mod making;
mod own_caches;
mod plain_stocks;
mod reaping;
mod reports;
mod setups;
mod slab_steps;
mod spaces;
mod stocks;
mod sums;

pub use laws::{
    apart_laws, chain_laws, end_laws, frame_laws, never_refused_laws, number_laws, one_home_laws,
    weight_laws,
};
pub use own_caches::OwnCache;
pub use plain_stocks::{close_plain_stock, plain_stock};
pub use spaces::{QuantumCache, Space};
pub use stocks::Stock;
pub use sums::{ArenaSums, SumsRoom};
