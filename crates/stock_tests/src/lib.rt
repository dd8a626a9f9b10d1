//! Tests of setups and stocks by their public calls, and of what one CPU reaches. It has no code of
//! its own, and stands apart from `cross_tests` so that neither waits for the other's crates.
//!
//! `tree` has setups of arenas, what is refused of them, and the chains that they make; `stocks`
//! has a script of events on a stock (`stock_events`) and audits after each, beside the stock's own
//! sums (`same_sums`), `stock_sums` the audits of two arenas in a chain, `several_spans` a stock of
//! two roots that own three spans, `growing` what refuses a further span, `climbs` calls of one CPU
//! over one thread's parts, with the locked steps of each, and with the sums after it.
#![tactic(auto)]

#[cfg(test)]
mod climbs;
#[cfg(test)]
mod growing;
#[cfg(test)]
mod same_sums;
#[cfg(test)]
mod several_spans;
#[cfg(test)]
mod stock_events;
#[cfg(test)]
mod stock_sums;
#[cfg(test)]
mod stocks;
#[cfg(test)]
mod tree;
