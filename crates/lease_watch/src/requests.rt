//! What is asked for over HTTP.
ghost use Rattle.std.specs.Prelude.{◌≡◌, ◌<◌, ◌≤◌};
ghost use Rattle.lease_watch.specs.Requests as spec;

use crate::queries::{ListQuery, clients_in, leases_in};

/// What a request asks for.
#[derive(Clone, Copy, Debug, PartialEq, Eq)]
pub enum Wanted {
    /// The page that shows the server.
    Page,
    /// The samples.
    Metrics,
    /// Whether the server serves.
    Health,
    /// Leases, and who has them.
    Leases(ListQuery),
    /// Of what lies there something can't be asked so.
    BadQuery,
    /// Nothing lies there.
    NotFound,
    /// It can only be read.
    NotAllowed,
}

impl Wanted {
    /// The status of the answer, by whether the server serves.
    pub fn status(&self, serves: bool) -> u16
        ensures value { result ≡ spec.status_of self.now serves }
        ensures within { (200 ≤ result) × (result < 600) }
    {
        match self {
            Wanted::Page | Wanted::Metrics | Wanted::Leases(_) => 200,
            Wanted::Health => { if serves { 200 } else { 503 } }
            Wanted::BadQuery => 400,
            Wanted::NotFound => 404,
            Wanted::NotAllowed => 405,
        }
    }
}

/// What a request asks for, by its method and by the path and the query of its target.
pub fn asked(method: &[u8], path: &[u8], query: &[u8]) -> Wanted
    ensures { result ≡ spec.asked_of method.now path.now query.now }
{
    let wanted = page_at(path, query);
    if is_read(method) {
        return wanted;
    }
    match wanted {
        Wanted::NotFound => Wanted::NotFound,
        _ => Wanted::NotAllowed,
    }
}

/// Whether a method is one that is answered.
fn is_read(method: &[u8]) -> bool
    ensures { result ≡ spec.is_read method.now }
{
    method == b"GET".as_slice() || method == b"HEAD".as_slice()
}

/// What lies at a path.
fn page_at(path: &[u8], query: &[u8]) -> Wanted
    ensures { result ≡ spec.page_at path.now query.now }
{
    if path == b"/".as_slice() {
        Wanted::Page
    } else if path == b"/metrics".as_slice() {
        Wanted::Metrics
    } else if path == b"/healthz".as_slice() {
        Wanted::Health
    } else if path == b"/leases".as_slice() {
        list_by(leases_in(query))
    } else if path == b"/clients".as_slice() {
        list_by(clients_in(query))
    } else {
        Wanted::NotFound
    }
}

/// What is wanted by a query of a list.
fn list_by(query: Option<ListQuery>) -> Wanted
    ensures { result ≡ spec.list_by query }
{
    match query {
        Some(query) => Wanted::Leases(query),
        None => Wanted::BadQuery,
    }
}
