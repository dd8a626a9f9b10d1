//! How the parts and the book of a system are ended.
ghost use Rattle.std.specs.Prelude.{◌≡◌, IfErr, OnOk};
ghost use Rattle.lease_threads.specs.Ends.{AreClosed};

use crate::systems::System;
use deed_table::{Name, Root};
use locked_parts::{LockedParts, NotEmpty};
use shared_book::{LeaseStands, SharedBook};

/// Ends a system whose roots of arenas are all closed, and closes the root of its book's mark. It
/// hands the system back where a deed lies in it or a lease stands, with what was found.
pub(crate) fn end_parts<N: Name>(system: System<N>) -> Result<(), (System<N>, Left)>
    requires { AreClosed system.roots }
    ensures unchanged { IfErr result (λ same. same.0 ≡ system) }
{
    let System {
        mut parts,
        roots,
        told: _,
        book,
    } = system;
    match end_book(&mut parts, book) {
        Ok(()) => {
            parts.end();
            end_lists(roots);
            Ok(())
        }
        Err((book, left)) => {
            let system = System {
                parts,
                roots,
                told: None,
                book,
            };
            Err((system, left))
        }
    }
}

/// What keeps a system from its end: a part that isn't empty, or a lease. Each is made where it was
/// found, and nowhere else.
#[derive(PartialEq, Eq, Debug, Drop)]
pub(crate) enum Left {
    Part(NotEmpty),
    Lease(LeaseStands),
}

/// Ends the arenas of the parts, and then the book, as far as nothing is left in them.
fn end_book<N: Name>(
    parts: &mut LockedParts<N>,
    book: SharedBook<N>,
) -> Result<(), (SharedBook<N>, Left)>
    ensures arenas { parts.new.arenas ≡ parts.old.arenas }
    ensures ended { OnOk result (parts.new.standing ≡ 0) }
{
    if let Err(found) = parts.end_arenas() {
        return Err((book, Left::Part(found)));
    }
    match book.end() {
        Ok(()) => Ok(()),
        Err((book, found)) => Err((book, Left::Lease(found))),
    }
}

/// Lets lists go that have no root.
pub(crate) fn end_lists<N: Name>(mut lists: Vec<Vec<Root<N>>>)
    requires { AreClosed lists.items }
{
    while let Some(list) = lists.pop() {
        list.destroy_empty();
    }
    lists.destroy_empty();
}
