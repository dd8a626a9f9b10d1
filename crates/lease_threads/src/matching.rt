//! Which root a deed is of.
ghost use Rattle.std.specs.Prelude.{◌≡◌, ◌+◌, ◌<◌, ◌==◌, length, position, slice_get};
ghost use Rattle.std.specs.Prelude.{IfErr, IfSome, IfNone, OnErr, OnOk, Some, None};
ghost use Rattle.deed_core.specs.Holding.{Holding};
ghost use Rattle.lease_threads.specs.Ends as ends;

use deed_core::{Deed, insert_reserved};
use deed_table::{Name, Root, SeatDeed, close};

/// That no root of a deed's number is the deed's own. Only `close_by` makes one, where it looked.
#[derive(PartialEq, Eq, Debug, Drop)]
pub(crate) struct OddDeed(());

/// Closes the root of these that has the deed's number, if the deed is of the whole of it.
pub(crate) fn close_by<N: Name>(
    roots: &mut Vec<Root<N>>,
    deed: SeatDeed<N>,
) -> Result<(), (SeatDeed<N>, OddDeed)>
    ensures closed { OnOk result (length roots.new.items + 1 ≡ length roots.old.items) }
    ensures odd { OnErr result (ends.IsOdd roots.old.items deed) }
    ensures handed_back { IfErr result (λ same. same.0 ≡ deed) }
    ensures unchanged { OnErr result (roots.new.items ≡ roots.old.items) }
{
    let number = deed.root();
    let Some(index) = index_of(roots, number) else {
        return Err((deed, OddDeed(())));
    };
    let root = roots.remove(index);
    match close(root, deed) {
        Ok(_) => Ok(()),
        Err((root, deed)) => {
            insert_reserved(roots, index, root);
            Err((deed, OddDeed(())))
        }
    }
}

/// Where a root of this number stands, which is mostly the last; None only where none does.
fn index_of<N: Name>(roots: &[Root<N>], number: u32) -> Option<usize>
    ensures within { IfSome result (λ index. index < length roots.now) }
    ensures found { IfSome result
        (λ index. (r : Holding) × (slice_get roots.now index ≡ Some r) × (r.root ≡ number)) }
    ensures none { IfNone result (position (λ root. root.root == number) roots.now ≡ None) }
{
    if let Some(root) = roots.last() {
        if root.number() == number {
            return Some(roots.len() - 1);
        }
    }
    first_of(roots, number)
}

/// Where the first one stands.
fn first_of<N: Name>(roots: &[Root<N>], number: u32) -> Option<usize>
    ensures first { result ≡ position (λ root. root.root == number) roots.now }
    ensures within { IfSome result (λ index. index < length roots.now) }
    ensures found { IfSome result
        (λ index. (r : Holding) × (slice_get roots.now index ≡ Some r) × (r.root ≡ number)) }
{
    roots.iter().position(|root| root.number() == number)
}
