//! Lists of a server's leases.
ghost use Rattle.std.specs.Prelude.{◌≡◌, IfOk, OnOk, fold};
ghost use Rattle.lease_watch.specs.Rows.{IsInOrder, after_look};
ghost use Rattle.lease_http.specs.Listing.{MayList};

use crate::deadlines::Until;
use crate::views::View;
use lease_watch::{LeaseRow, ListQuery};
use std::alloc::{AllocError, Global};
use std::time::Clock;

/// The leases that are asked for. The clients are looked at one after another, each as it is at a
/// moment of its own: a lease that goes from one client to another meanwhile is told twice, or not
/// at all. It ends where the deadline has come by one of them. A server has at most 65,536 clients,
/// and a client at most 1,024 leases.
pub(crate) fn list<V: View, C: Clock>(
    alloc: Global,
    view: &V,
    query: &ListQuery,
    until: &Until<'_, C>,
) -> Result<Vec<LeaseRow>, AllocError>
    ensures { IfOk result (λ rows. MayList (V.may_count view.now) (V.may_have view.now) query.now
        rows.items) }
{
    let mut rows = Vec::new(alloc);
    let mut leases = Vec::new(alloc);
    for place in 0..view.clients() {
        if until.has_come() {
            return Err(AllocError);
        }
        leases.clear();
        view.leases_at(place, &mut leases)?;
        look_at_each(query, leases.as_slice(), &mut rows)?;
    }
    Ok(rows)
}

/// Looks at some leases.
fn look_at_each(
    query: &ListQuery,
    leases: &[LeaseRow],
    rows: &mut Vec<LeaseRow>,
) -> Result<(), AllocError>
    requires { IsInOrder query.now rows.old.items }
    ensures { OnOk result (rows.new.items ≡ fold (after_look query.now) rows.old.items leases.now) }
{
    for lease in leases {
        query.look_at(rows, *lease)?;
    }
    Ok(())
}
