//! A quantum cache whose slabs and depot lie each under a lock, which only its own calls take;
//! `LockedParts` hands the guards out.
ghost use Rattle.std.specs.Prelude.{◌≡◌, IfErr, IfOk};
ghost use Rattle.std.specs.Sync.Mutex.{mutex_guard_value};
ghost use Rattle.locked_parts.specs.Kinds.{AreSlabsOf};

use crate::kind_depots::{KindDepot, OtherDepot};
use crate::kinds::CacheKind;
use crate::not_empty::{NotEmpty, end_depot, end_slabs};
use crate::own_caches::FIRST_SIZE;
use crate::slab_parts::{OtherSlabs, look_at_slabs};
use deed_table::{Name, SeatDeed};
use slab_layer::SlabCache;
use std::alloc::Global;
use std::marker::Model;
use std::sync::{Mutex, MutexGuard, Wait};

/// The slabs of a quantum cache under their lock.
pub type SlabGuard<'a, N> = MutexGuard<'a, SlabCache<SeatDeed<N>>>;

/// The depot of one.
pub type DepotGuard<'a, N> = MutexGuard<'a, KindDepot<SeatDeed<N>>>;

/// A quantum cache: its slabs and its depot, each under its lock. A contract sees which it was made
/// as.
pub(crate) struct LockedCache<N: Name> {
    kind: CacheKind,
    slab: Mutex<SlabCache<SeatDeed<N>>>,
    depot: Mutex<KindDepot<SeatDeed<N>>>,
}

impl<N: Name> Model for LockedCache<N> {
    ghost use Rattle.locked_parts.specs.declared.kinds.CacheKind.{CacheKind};

    ghost Value = { CacheKind };

    ghost view = { λ c. c.kind };
}

/// That the slabs under their lock said that they are others. Only `LockedCache` makes one, where
/// it reaches them.
#[derive(PartialEq, Eq, Debug, Drop)]
pub(crate) struct OtherSlabsUnder {
    said: OtherSlabs,
}

impl Model for OtherSlabsUnder {
    ghost use Rattle.locked_parts.specs.declared.kinds.CacheKind.{CacheKind};

    ghost Value = { CacheKind };

    ghost view = { λ o. o.said };

    ghost inverse = { λ k. record { said = k } };
}

/// That the depot under its lock said so.
#[derive(PartialEq, Eq, Debug, Drop)]
pub(crate) struct OtherDepotUnder {
    said: OtherDepot,
}

impl Model for OtherDepotUnder {
    ghost use Rattle.locked_parts.specs.declared.kinds.CacheKind.{CacheKind};

    ghost Value = { CacheKind };

    ghost view = { λ o. o.said };

    ghost inverse = { λ k. record { said = k } };
}

impl<N: Name> LockedCache<N> {
    /// Puts slabs and a depot each under a lock, for the quantum cache that the depot is of.
    pub(crate) fn new(slab: SlabCache<SeatDeed<N>>, depot: KindDepot<SeatDeed<N>>) -> LockedCache<N>
        requires { AreSlabsOf depot.kind slab }
        ensures { result ≡ depot.kind }
    {
        LockedCache {
            kind: depot.kind(),
            slab: Mutex::new(slab),
            depot: Mutex::new(depot),
        }
    }

    /// Which one it is.
    pub(crate) fn kind(&self) -> CacheKind
        ensures { result ≡ self.now }
    {
        self.kind
    }

    /// Its slabs under their lock, unless others lie there.
    pub(crate) fn reach_slabs<R: Wait>(&self, rt: &R) -> Result<SlabGuard<'_, N>, OtherSlabsUnder>
        ensures here { IfOk result (λ g. AreSlabsOf self.now (mutex_guard_value g)) }
        ensures other { IfErr result (λ o. o ≡ self.now) }
    {
        let slab = self.slab.lock(rt);
        if let Err(said) = look_at_slabs(&slab, &self.kind) {
            return Err(OtherSlabsUnder { said });
        }
        Ok(slab)
    }

    /// Its depot under its lock, unless another lies there.
    pub(crate) fn reach_depot<R: Wait>(&self, rt: &R) -> Result<DepotGuard<'_, N>, OtherDepotUnder>
        ensures here { IfOk result (λ g. (mutex_guard_value g).kind ≡ self.now) }
        ensures other { IfErr result (λ o. o ≡ self.now) }
    {
        let depot = self.depot.lock(rt);
        if let Err(said) = depot.look(&self.kind) {
            return Err(OtherDepotUnder { said });
        }
        Ok(depot)
    }

    /// Ends it where no deed lies in it; else it is back.
    pub(crate) fn end(self, alloc: Global) -> Result<(), (LockedCache<N>, NotEmpty)>
        ensures { IfErr result (λ same. same.0 ≡ self) }
    {
        let LockedCache { kind, slab, depot } = self;
        let depot = depot.into_inner();
        let own = depot.kind();
        let (slab, depot, found) = match end_depot(depot) {
            Ok(()) => match end_slabs(slab.into_inner()) {
                Ok(()) => return Ok(()),
                Err((slab, found)) => {
                    let depot = KindDepot::new(alloc, own, FIRST_SIZE);
                    (Mutex::new(slab), depot, found)
                }
            },
            Err((depot, found)) => (slab, depot, found),
        };
        let depot = Mutex::new(depot);
        Err((LockedCache { kind, slab, depot }, found))
    }
}
