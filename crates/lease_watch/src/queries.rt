//! What the query of a request asks a list of.
ghost use Rattle.std.specs.Prelude.{◌≡◌, option_copied};
ghost use Rattle.lease_watch.specs.Queries as spec;

use form_urlencoded::raw_pairs;
use lease_proto::value_of;
use lease_terms::ArenaName;

/// How many rows an answer has at most.
pub const MOST_ROWS: u64 = 1000;

/// Whose leases a list has.
#[derive(Clone, Copy, Debug, PartialEq, Eq)]
pub enum Listed {
    /// Those of an arena, in order of their bases.
    Arena(ArenaName),
    /// Those of all clients, in order of these.
    Clients,
}

/// Which leases are asked for: the first so many of those that are listed.
#[derive(Clone, Copy, Debug, PartialEq, Eq)]
pub struct ListQuery {
    pub of: Listed,
    /// The first unit that is asked for, or the first client.
    pub from: u64,
    /// From 1 to `MOST_ROWS`.
    pub count: u64,
}

/// `arena=NAME&from=UNIT&count=N`, in any order: each is needed, and of two the first counts. None
/// where one is missing, is no name or no number, or where N isn't from 1 to `MOST_ROWS`. Nothing
/// in it is decoded, since no such value needs a code.
pub(crate) fn leases_in(query: &[u8]) -> Option<ListQuery>
    ensures { result ≡ spec.leases_in query.now }
{
    let arena = ArenaName::new(value_in(query, b"arena")?)?;
    list_in(query, Listed::Arena(arena))
}

/// `from=CLIENT&count=N`, likewise.
pub(crate) fn clients_in(query: &[u8]) -> Option<ListQuery>
    ensures { result ≡ spec.clients_in query.now }
{
    list_in(query, Listed::Clients)
}

/// The list that a query names.
fn list_in(query: &[u8], of: Listed) -> Option<ListQuery>
    ensures { result ≡ spec.list_in query.now of }
{
    let from = number_in(query, b"from")?;
    let count = number_in(query, b"count")?;
    if 1 <= count && count <= MOST_ROWS {
        Some(ListQuery { of, from, count })
    } else {
        None
    }
}

/// The number that a parameter has.
fn number_in(query: &[u8], name: &[u8]) -> Option<u64>
    ensures { result ≡ spec.number_of query.now name.now }
{
    value_of(value_in(query, name)?)
}

/// What the first parameter of this name has.
fn value_in<'a>(query: &'a [u8], name: &[u8]) -> Option<&'a [u8]>
    ensures { option_copied result ≡ spec.value_in query.now name.now }
{
    for (key, value) in raw_pairs(query) {
        if key == name {
            return Some(value);
        }
    }
    None
}
