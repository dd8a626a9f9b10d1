//! An arena under its lock, which only its own calls take; `LockedParts` hands the guard out.
ghost use Rattle.std.specs.Prelude.{◌≡◌, IfErr, IfNone, IfOk, IfSome};
ghost use Rattle.std.specs.Sync.Mutex.{mutex_guard_value};
ghost use Rattle.locked_parts.specs.Answers.{IsArenaFor};
ghost use Rattle.locked_parts.specs.Saying.{HasCache, HasCacheAt};
ghost use Rattle.locked_parts.specs.States.{IsFrontOf};

use crate::arena_parts::{ArenaPart, ArenaSet, OtherArena};
use crate::ending::end_caches;
use crate::locked_caches::LockedCache;
use crate::not_empty::{NotEmpty, end_part};
use deed_table::Name;
use std::alloc::Global;
use std::marker::Model;
use std::sync::{Mutex, MutexGuard, Wait};

/// An arena under its lock, and beside that what it was set up as, and its quantum caches by their
/// numbers, from 1 on. A contract sees these.
pub struct LockedArena<N: Name> {
    set: ArenaSet,
    part: Mutex<ArenaPart<N>>,
    caches: Vec<LockedCache<N>>,
}

impl<N: Name> Model for LockedArena<N> {
    ghost use Rattle.locked_parts.specs.States.{LockedArenaState};

    ghost Value = { LockedArenaState };

    ghost view = { λ a. record { set = a.set; kinds = a.caches.items } };
}

/// That what lies under an arena's lock said that it is another. Only `LockedArena::reach` makes
/// one.
#[derive(PartialEq, Eq, Debug, Drop)]
pub(crate) struct OtherArenaUnder {
    said: OtherArena,
}

impl Model for OtherArenaUnder {
    ghost use Rattle.locked_parts.specs.declared.arena_parts.ArenaSet.{ArenaSet};

    ghost Value = { ArenaSet };

    ghost view = { λ o. o.said };

    ghost inverse = { λ s. record { said = s } };
}

impl<N: Name> LockedArena<N> {
    /// Puts an arena under a lock, with what it was set up as and its quantum caches beside that.
    pub(crate) fn new(part: ArenaPart<N>, caches: Vec<LockedCache<N>>) -> LockedArena<N>
        ensures set { IsArenaFor result.set part }
        ensures kinds { result.kinds ≡ caches.items }
    {
        LockedArena {
            set: part.set(),
            part: Mutex::new(part),
            caches,
        }
    }

    /// What lies under the lock, unless it is another arena.
    pub(crate) fn reach<R: Wait>(
        &self,
        rt: &R,
    ) -> Result<MutexGuard<'_, ArenaPart<N>>, OtherArenaUnder>
        ensures here { IfOk result (λ g. IsArenaFor self.now.set (mutex_guard_value g)) }
        ensures other { IfErr result (λ o. o ≡ self.now.set) }
    {
        let part = self.part.lock(rt);
        if let Err(said) = part.look(&self.set) {
            return Err(OtherArenaUnder { said });
        }
        Ok(part)
    }

    /// Where the quantum cache of this number is kept, if it stands.
    pub(crate) fn cache(&self, number: u8) -> Option<&LockedCache<N>>
        ensures stands { IfSome result (λ cache. HasCacheAt self.now number cache.now) }
        ensures none { IfNone result (¬ HasCache self.now number) }
    {
        if number == 0 || number as usize > self.caches.len() {
            return None;
        }
        Some(&self.caches[number as usize - 1])
    }

    /// Ends it with its caches, where no deed lies in it; else what is left of it is back.
    pub(crate) fn end(self, alloc: Global) -> Result<(), (LockedArena<N>, NotEmpty)>
        ensures set { IfErr result (λ left. left.0.set ≡ self.set) }
        ensures kinds { IfErr result (λ left. IsFrontOf self.kinds left.0.kinds) }
    {
        let LockedArena {
            set,
            part,
            mut caches,
        } = self;
        if let Err(found) = end_caches(alloc, &mut caches) {
            let left = LockedArena { set, part, caches };
            return Err((left, found));
        }
        match end_part(part.into_inner()) {
            Ok(()) => {
                caches.destroy_empty();
                Ok(())
            }
            Err((part, found)) => {
                let left = LockedArena {
                    set,
                    part: Mutex::new(part),
                    caches,
                };
                Err((left, found))
            }
        }
    }
}
