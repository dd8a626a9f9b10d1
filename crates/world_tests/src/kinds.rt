//! The kinds of event, by numbers.
ghost use Rattle.std.specs.Prelude.{◌<◌};

use world_core::WorldEvent;

/// How many there are.
pub(crate) const KINDS: usize = 28;

/// The number of the event's kind.
pub(crate) fn kind_of(event: &WorldEvent) -> usize
    ensures below { result < 28 }
{
    match event {
        WorldEvent::Restarts { .. } => 0,
        WorldEvent::Says { .. } => 1,
        WorldEvent::Repeats { .. } => 2,
        WorldEvent::Hears { .. } => 3,
        WorldEvent::Looks { .. } => 4,
        WorldEvent::Settles { .. } => 5,
        WorldEvent::Declines { .. } => 6,
        WorldEvent::GivesUp { .. } => 7,
        WorldEvent::Releases { .. } => 8,
        WorldEvent::Sweeps { .. } => 9,
        WorldEvent::Carves { .. } => 10,
        WorldEvent::Frees { .. } => 11,
        WorldEvent::AddCarves { .. } => 12,
        WorldEvent::SlabTakes { .. } => 13,
        WorldEvent::SlabPuts { .. } => 14,
        WorldEvent::SlabAdds { .. } => 15,
        WorldEvent::SlabReaps { .. } => 16,
        WorldEvent::DepotReaps { .. } => 17,
        WorldEvent::Pops { .. } => 18,
        WorldEvent::Pushes { .. } => 19,
        WorldEvent::SwapsFull { .. } => 20,
        WorldEvent::SwapsEmpty { .. } => 21,
        WorldEvent::SwapsFresh { .. } => 22,
        WorldEvent::Changes { .. } => 23,
        WorldEvent::Ticks { .. } => 24,
        WorldEvent::Resizes { .. } => 25,
        WorldEvent::Adopts { .. } => 26,
        WorldEvent::Grows { .. } => 27,
    }
}
