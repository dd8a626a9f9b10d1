//! What the end of a system tells of an arena: the ranges of its roots.
ghost use Rattle.std.specs.Prelude.{◌≡◌, ◌↔◌, ◌≤◌, [], map, length, vec_capacity};
ghost use Rattle.std.specs.Prelude.{IfOk, OnOk, OnErr, IsTrue};
ghost use Rattle.locked_parts.specs.Growing.{AreRootsOf};
ghost use Rattle.lease_threads.specs.Ends.{InOrder};

use crate::systems::owner_of;
use deed_core::Range;
use deed_table::{Name, Root};
use locked_parts::HandedOver;

/// That the numbers of roots don't rise, or aren't all of their arena. Only `tell` makes one.
#[derive(PartialEq, Eq, Debug, Drop)]
pub(crate) struct Misnumbered(());

/// The ranges of the roots, whose numbers rise and are all of this arena. A number that stands
/// twice, or is of another, which no table opens, is refused.
pub(crate) fn tell<N: Name>(
    id: u32,
    handed: HandedOver,
    roots: &[Root<N>],
) -> Result<Vec<Range>, Misnumbered>
    requires arena { handed.arena ≡ id }
    requires none { handed.ranges.items ≡ [] }
    requires room { length roots.now ≤ vec_capacity handed.ranges }
    ensures order { OnOk result (InOrder roots.now) }
    ensures of_arena { OnOk result (AreRootsOf id roots.now) }
    ensures told { IfOk result (λ told. told.items ≡ map (λ r. r.range) roots.now) }
    ensures refused { OnErr result (¬ (InOrder roots.now × AreRootsOf id roots.now)) }
{
    if !are_in_order(roots) || !are_of(id, roots) {
        return Err(Misnumbered(()));
    }
    let mut ranges = handed.into_ranges();
    for root in roots {
        ranges.push_reserved(root.range());
    }
    Ok(ranges)
}

/// Whether the numbers of the roots rise.
fn are_in_order<N: Name>(roots: &[Root<N>]) -> bool
    ensures { IsTrue result ↔ InOrder roots.now }
{
    roots.is_sorted_by(|a, b| a.number() < b.number())
}

/// Whether the roots are all of the arena of this number.
fn are_of<N: Name>(id: u32, roots: &[Root<N>]) -> bool
    ensures { IsTrue result ↔ AreRootsOf id roots.now }
{
    roots.iter().all(|root| owner_of(root) == id)
}
