//! Reaching a part by its lock. What lies there is known by its type alone, so that it is looked at
//! before an event is asked of it.
ghost use Rattle.std.specs.Prelude.{◌≡◌, ◌<◌, IfErr, IfNone, IfOk, IfSome};
ghost use Rattle.std.specs.Sync.Mutex.{mutex_guard_value};
ghost use Rattle.locked_parts.specs.Answers.{IsArenaFor, set_of};
ghost use Rattle.locked_parts.specs.Kinds.{AreSlabsOf};
ghost use Rattle.locked_parts.specs.Owns.{cache_of};
ghost use Rattle.locked_parts.specs.Saying.{IsMisplaced, IsNoCache};
ghost use Rattle.locked_parts.specs.States.{IsCacheAt};
ghost use Rattle.locked_parts.specs.declared.misplaced.PartName.{PartName};

use crate::arena_parts::ArenaPart;
use crate::gates::NextStep;
use crate::kinds::CacheKind;
use crate::locked_caches::{DepotGuard, LockedCache, SlabGuard};
use crate::misplaced::{Found, Misplaced, PartName};
use crate::parts::LockedParts;
use deed_table::Name;
use std::sync::{MutexGuard, Wait};

impl<N: Name> LockedParts<N> {
    /// Returns the arena with this number under its lock, which is held until the guard is dropped.
    /// It waits for the lock. `step` is the step that seeks the part, if one does: the fault names
    /// it. It returns `Misplaced` iff none stands there or another part lies under the lock; the
    /// first part that is missed is kept (`LockedParts::look`). A thread that already holds this
    /// lock waits forever, and threads that hold several parts have to lock them in one order.
    pub fn reach_arena<R: Wait>(
        &self,
        rt: &R,
        step: Option<NextStep>,
        arena: u32,
    ) -> Result<MutexGuard<'_, ArenaPart<N>>, Misplaced>
        ensures stands { IfOk result (λ _. arena < self.now.standing) }
        ensures here { IfOk result
            (λ g. IsArenaFor (set_of self.now.arenas arena) (mutex_guard_value g)) }
        ensures missing { IfErr result (IsMisplaced self.now step (PartName.Arena arena)) }
    {
        let found = match self.standing(arena) {
            Some(locked) => match locked.reach(rt) {
                Ok(part) => return Ok(part),
                Err(other) => Found::OtherArena(other),
            },
            None => Found::None,
        };
        Err(self.missed(rt, step, PartName::Arena(arena), found))
    }

    /// The quantum cache of this number, if it stands.
    #[tactic(auto, using(crate::proofs::Came::lacks))]
    pub(crate) fn standing_cache(&self, arena: u32, number: u8) -> Option<&LockedCache<N>>
        ensures kind { IfSome result (λ c. IsCacheAt self.now.arenas arena number c.now) }
        ensures same { IfSome result (λ c. c.now ≡ cache_of self.now.arenas arena number) }
        ensures none { IfNone result (IsNoCache self.now arena number) }
    {
        let Some(locked) = self.standing(arena) else {
            return None;
        };
        // For its clause: no quantum is 0.
        let _ = self.tree.quantum(arena);
        locked.cache(number)
    }

    /// Returns the slabs of this arena's quantum cache with this number, from 1 on, under their lock,
    /// and which cache it is; otherwise as `reach_arena`.
    pub fn reach_slabs<R: Wait>(
        &self,
        rt: &R,
        step: Option<NextStep>,
        arena: u32,
        number: u8,
    ) -> Result<(CacheKind, SlabGuard<'_, N>), Misplaced>
        ensures kind { IfOk result (λ f. IsCacheAt self.now.arenas arena number f.0) }
        ensures same { IfOk result (λ f. f.0 ≡ cache_of self.now.arenas arena number) }
        ensures here { IfOk result (λ f. AreSlabsOf f.0 (mutex_guard_value f.1)) }
        ensures missing { IfErr result (IsMisplaced self.now step (PartName.Slabs arena number)) }
    {
        let found = match self.standing_cache(arena, number) {
            Some(cache) => match cache.reach_slabs(rt) {
                Ok(slabs) => return Ok((cache.kind(), slabs)),
                Err(other) => Found::OtherSlabs(other),
            },
            None => Found::None,
        };
        Err(self.missed(rt, step, PartName::Slabs(arena, number), found))
    }

    /// Returns the depot of that cache under its lock, otherwise as `reach_arena`.
    pub fn reach_depot<R: Wait>(
        &self,
        rt: &R,
        step: Option<NextStep>,
        arena: u32,
        number: u8,
    ) -> Result<DepotGuard<'_, N>, Misplaced>
        ensures kind { IfOk result
            (λ g. IsCacheAt self.now.arenas arena number (mutex_guard_value g).kind) }
        ensures same { IfOk result
            (λ g. (mutex_guard_value g).kind ≡ cache_of self.now.arenas arena number) }
        ensures missing { IfErr result (IsMisplaced self.now step (PartName.Depot arena number)) }
    {
        let found = match self.standing_cache(arena, number) {
            Some(cache) => match cache.reach_depot(rt) {
                Ok(depot) => return Ok(depot),
                Err(other) => Found::OtherDepot(other),
            },
            None => Found::None,
        };
        Err(self.missed(rt, step, PartName::Depot(arena, number), found))
    }
}
