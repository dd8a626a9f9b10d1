//! The system: what stands beside the locks, and what stands under them.
ghost use Rattle.std.specs.Prelude.{◌≡◌, length};
ghost use Rattle.arena_tree.specs.declared.limits.TheConstants.{MOST_SPANS};
ghost use Rattle.lease_threads.specs.Ends as ends;

use arena_tree::{MOST_SPANS, Tree};
use deed_core::Range;
use deed_table::{Name, Root};
use locked_parts::LockedParts;
use shared_book::SharedBook;
use std::marker::Model;

/// The number of the arena that owns the span of this root: each has as many root numbers as it may
/// own spans.
pub(crate) fn owner_of<N: Name>(root: &Root<N>) -> u32
    ensures { result ≡ ends.owner_of root.now }
{
    root.number() / MOST_SPANS as u32
}

/// Arenas with their quantum caches, and the book of their leases, each part under a lock of its
/// own. Workers share it. A contract sees what stands beside the locks: the arenas as they were set
/// up, and of each the roots of the spans that it was set up with. Those that `grow` opens stand
/// under the locks, where there is room for the end of all. `told` is empty, with room for what the
/// end tells of each arena, until that is told; till then all arenas stand, with all that they were
/// set up with. A system is never dropped: `shut` ends it.
pub struct System<N: Name> {
    pub(crate) parts: LockedParts<N>,
    pub(crate) roots: Vec<Vec<Root<N>>>,
    pub(crate) told: Option<Vec<Vec<Range>>>,
    pub(crate) book: SharedBook<N>,
}

impl<N: Name> Model for System<N> {
    ghost use Rattle.std.specs.Prelude.{◌≡◌, ◌≤◌, IfSome, length, vec_len, vec_capacity};
    ghost use Rattle.lease_threads.specs.Systems.{SystemState};
    ghost use Rattle.locked_parts.specs.News.{StandAsSet};

    ghost Value = { SystemState };

    ghost view = { λ s. record { arenas = s.parts.arenas; roots = s.roots.items } };

    ghost invariant = { λ s. (vec_len s.roots ≡ length s.parts.arenas)
        × IfSome s.told (λ told.
        (vec_len told ≡ 0) × (length s.parts.arenas ≤ vec_capacity told)
        × StandAsSet s.parts.arenas s.parts.stand) };
}

impl<N: Name> System<N> {
    /// The arenas as they were set up.
    pub fn tree(&self) -> &Tree
        ensures { result.now ≡ self.now.arenas }
    {
        self.parts.tree()
    }

    /// There are roots for each arena.
    pub(crate) fn check(&self)
        ensures { length self.now.roots ≡ length self.now.arenas }
    {
        // For its clause: what is always so of a system.
        let _ = self.roots.len();
    }
}
