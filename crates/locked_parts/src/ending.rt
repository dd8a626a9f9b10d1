//! How parts are taken from under their locks and ended.
ghost use Rattle.std.specs.Prelude.{◌≡◌, ◌≤◌, [], List, OnOk, vec_len};
ghost use Rattle.arena_tree.specs.declared.trees.TreeArena.{TreeArena};
ghost use Rattle.locked_parts.specs.States.{AreInPlace, IsFrontOf};

use crate::locked_arenas::LockedArena;
use crate::locked_caches::LockedCache;
use crate::not_empty::NotEmpty;
use crate::parts::LockedParts;
use deed_table::Name;
use std::alloc::Global;

impl<N: Name> LockedParts<N> {
    /// Ends the arenas that stand, the last first, up to one in which a part is found that isn't
    /// empty. One that is ended is told as misplaced to who seeks it.
    pub fn end_arenas(&mut self) -> Result<(), NotEmpty>
        ensures arenas { self.new.arenas ≡ self.old.arenas }
        ensures ended { OnOk result (self.new.standing ≡ 0) }
    {
        end_all(self.alloc, &mut self.arenas)
    }

    /// Ends parts of which no arena stands.
    pub fn end(self)
        requires { self.standing ≡ 0 }
    {
        let LockedParts {
            alloc: _,
            tree: _,
            caches_before: _,
            arenas,
            alarm: _,
        } = self;
        arenas.destroy_empty();
    }
}

/// Ends arenas in which no deed lies, the last first.
fn end_all<N: Name>(alloc: Global, arenas: &mut Vec<LockedArena<N>>) -> Result<(), NotEmpty>
    ensures none { OnOk result (vec_len arenas.new ≡ 0) }
    ensures in_place { (tree : List TreeArena) → AreInPlace tree arenas.old.items
        → AreInPlace tree arenas.new.items }
    ensures fewer { vec_len arenas.new ≤ vec_len arenas.old }
{
    while let Some(locked) = arenas.pop() {
        if let Err((locked, found)) = locked.end(alloc) {
            arenas.push_reserved(locked);
            return Err(found);
        }
    }
    Ok(())
}

/// Ends quantum caches in which no deed lies, the last first.
pub(crate) fn end_caches<N: Name>(
    alloc: Global,
    caches: &mut Vec<LockedCache<N>>,
) -> Result<(), NotEmpty>
    ensures none { OnOk result (caches.new.items ≡ []) }
    ensures front { IsFrontOf caches.old.items caches.new.items }
{
    while let Some(cache) = caches.pop() {
        if let Err((cache, found)) = cache.end(alloc) {
            caches.push_reserved(cache);
            return Err(found);
        }
    }
    Ok(())
}
