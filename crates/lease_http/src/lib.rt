//! Shows a server over HTTP to who watches it: one connection after another is accepted, one
//! request of it is answered, and it is ended. The texts are of the crate `lease_watch`.
//!
//! `View` (views) is what is watched. `Showing` (showing) answers a request by it, with the status,
//! the fields and the bytes of specs/Answers.antt, as a service of the kit's `http_server`, which
//! reads requests and writes responses. A list of leases is made of what each client has, one client
//! after another (listing). `serve_scrapes` (scrapes) serves the connections of a socket; each is
//! ended within `SCRAPE_LIMIT` seconds (deadlines), whatever its peer does.
#![tactic(auto)]

mod deadlines;
mod listing;
mod scrapes;
mod showing;
mod views;

pub use deadlines::{Timed, Until};
pub use scrapes::{SCRAPE_LIMIT, answer_scrape, serve_scrapes};
pub use showing::Showing;
pub use views::View;
