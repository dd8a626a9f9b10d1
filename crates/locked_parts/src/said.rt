//! By which part an event came.
use crate::arena_parts::ArenaSaid;
use crate::kind_depots::DepotSaid;
use crate::misplaced::Misplaced;
use crate::slab_parts::SlabSaid;

/// What the part said that a CPU asked last: which one it is, at which step it was asked, and what
/// it answered; or that it isn't there. Each of these values is made where the part is looked for,
/// and nowhere else.
#[derive(Clone, Copy, PartialEq, Eq, Debug)]
pub enum Said {
    /// No part was asked yet.
    Nothing,
    Arena(ArenaSaid),
    Slab(SlabSaid),
    Depot(DepotSaid),
    Missing(Misplaced),
}
