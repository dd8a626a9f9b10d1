//! The ends of parts that have to be empty.
ghost use Rattle.std.specs.Prelude.{◌≡◌, ◌↔◌, [], IsOk, IfErr};
ghost use Rattle.magazine_layer.specs.Depots.{depot_rounds};
ghost use Rattle.slab_layer.specs.Cache.{deeds_of};

use crate::arena_parts::ArenaPart;
use crate::kind_depots::KindDepot;
use deed_core::Deed;
use deed_table::Name;
use slab_layer::SlabCache;

/// That a part was found that isn't empty. Only the functions of this module make one, each where
/// its part refused to end.
#[derive(PartialEq, Eq, Debug, Drop)]
pub struct NotEmpty(());

/// Ends an arena in which no deed lies and whose further roots were handed out.
pub(crate) fn end_part<N: Name>(part: ArenaPart<N>) -> Result<(), (ArenaPart<N>, NotEmpty)>
    ensures exactly { IsOk result ↔ ((part.arena.free ≡ []) × (part.roots.roots ≡ [])) }
    ensures handed_back { IfErr result (λ same. same.0 ≡ part) }
{
    if !part.roots.roots().is_empty() {
        return Err((part, NotEmpty(())));
    }
    let ArenaPart {
        source,
        arena,
        roots,
        beside,
        room,
    } = part;
    match arena.close() {
        Ok(()) => {
            roots.end();
            room.end();
            Ok(())
        }
        Err(arena) => {
            let part = ArenaPart {
                source,
                arena,
                roots,
                beside,
                room,
            };
            Err((part, NotEmpty(())))
        }
    }
}

/// Ends slabs in which no deed lies.
pub(crate) fn end_slabs<D: Deed>(slabs: SlabCache<D>) -> Result<(), (SlabCache<D>, NotEmpty)>
    ensures exactly { IsOk result ↔ (deeds_of slabs ≡ []) }
    ensures handed_back { IfErr result (λ same. same.0 ≡ slabs) }
{
    match slabs.close() {
        Ok(()) => Ok(()),
        Err(slabs) => Err((slabs, NotEmpty(()))),
    }
}

/// Ends a depot of no rounds.
pub(crate) fn end_depot<D: Deed>(depot: KindDepot<D>) -> Result<(), (KindDepot<D>, NotEmpty)>
    ensures exactly { IsOk result ↔ (depot_rounds depot.depot ≡ []) }
    ensures handed_back { IfErr result (λ same. same.0 ≡ depot) }
{
    let KindDepot { kind, depot } = depot;
    match depot.close() {
        Ok(()) => Ok(()),
        Err(depot) => Err((KindDepot { kind, depot }, NotEmpty(()))),
    }
}
