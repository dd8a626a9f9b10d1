//! What a server shows to who watches it: `Seen` is what is seen of a server, as one value, and
//! this crate makes texts of it. It opens no socket, takes no lock and asks no clock; who serves
//! sees the value and passes it on.
//!
//! Begin with seen.rt. `metrics_text` (metrics) is the text that Prometheus reads, byte for byte as
//! specs/Metrics.antt has it, and `page_text` (pages) the page for browsers, after specs/Pages.antt
//! and specs/Markup.antt. `Word` (words) says by what lines and replies are counted, and `Looks`
//! (looks) what was done lately. `asked` (requests) says what a request's method, path and query ask
//! for. A `ListQuery` (queries) asks for leases; it looks at one after another, and keeps the rows
//! that `list_text` (rows) writes in JSON, after specs/Rows.antt.
//!
//! Texts are appended piece by piece to a `Vec<u8>`, each piece by a function of its own whose text
//! has a name in specs/: so the proof of a chain sees names, and no bytes. To make a text takes a
//! step for each of its bytes, and fails only when out of memory.
#![tactic(auto)]

mod bars;
mod families;
mod looks;
mod markup;
mod metrics;
mod pages;
mod queries;
mod requests;
mod rows;
mod samples;
mod seen;
mod tables;
mod words;

pub use looks::Looks;
pub use metrics::metrics_text;
pub use pages::page_text;
pub use queries::{ListQuery, Listed, MOST_ROWS};
pub use requests::{Wanted, asked};
pub use rows::{LeaseRow, list_text};
pub use seen::{ArenaSeen, ConnectionCounts, Seen, UnitsSeen, Version, Work};
pub use words::{WORDS, Word, WordCounts, count_of};
