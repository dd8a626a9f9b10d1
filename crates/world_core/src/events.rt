//! What may happen to a world.
ghost use Rattle.std.specs.Prelude.{◌≡◌};
ghost use Rattle.world_core.specs.Events.{cpu_of};

use deed_core::{Range, Request};
use lease_proto::Op;
use lease_terms::{ClientId, Protocol, Refusal};

/// An event. Clients and CPUs are named by their indexes, and so are the lines and the replies that
/// were sent, in the order in which they were.
#[derive(Clone, Copy, Debug)]
pub enum WorldEvent {
    /// A client begins a greater incarnation by a protocol: its hello is sent.
    Restarts {
        client: usize,
        incarnation: u64,
        protocol: Protocol,
    },
    /// A client sends its next request.
    Says {
        client: usize,
        op: Op,
    },
    /// A client sends a line again that is outstanding: the request with this number, or, where
    /// none is named, the first one. A hello is outstanding alone.
    Repeats {
        client: usize,
        number: Option<u64>,
    },
    /// A reply comes to a client, in whatever order, and as often as it likes. Another client's
    /// changes nothing of it.
    Hears {
        client: usize,
        which: usize,
    },
    /// A line comes to a CPU. A hello is taken whole.
    Looks {
        cpu: usize,
        which: usize,
    },
    /// A CPU leases its hand's segment to the request that it serves.
    Settles {
        cpu: usize,
    },
    /// A CPU refuses the request that it serves: nothing fits it, it is a bad one, or no arena has
    /// its name.
    Declines {
        cpu: usize,
        refusal: Refusal,
    },
    /// A CPU answers `again` to the request that it serves, and nothing is settled.
    GivesUp {
        cpu: usize,
    },
    /// A CPU takes the lease into its hand that the release names that it serves. A release of an
    /// arena that isn't here ends by `Declines`.
    Releases {
        cpu: usize,
    },
    /// A CPU takes a lease of an incarnation that has passed into its hand.
    Sweeps {
        cpu: usize,
        client: ClientId,
    },
    /// A CPU carves what the arena's policy chooses for the request.
    Carves {
        cpu: usize,
        arena: usize,
        request: Request,
    },
    /// A CPU frees its hand's segment. A span that becomes whole by that comes into the hand.
    Frees {
        cpu: usize,
    },
    /// A CPU gives its hand's segment to an arena that imports from the segment's, and gets `size`
    /// units of it, rounded up.
    AddCarves {
        cpu: usize,
        child: usize,
        size: u64,
    },
    /// A CPU takes an idle chunk. Caches are named by their indexes in their arena: the first has
    /// chunks of one quantum.
    SlabTakes {
        cpu: usize,
        arena: usize,
        cache: usize,
    },
    /// A CPU puts its hand's chunk back into its slab.
    SlabPuts {
        cpu: usize,
    },
    /// A CPU gives its hand's segment to a cache as a slab, and gets the first chunk.
    SlabAdds {
        cpu: usize,
        arena: usize,
        cache: usize,
    },
    /// A CPU takes a slab that has all its chunks.
    SlabReaps {
        cpu: usize,
        arena: usize,
        cache: usize,
    },
    /// A CPU takes a round that may be reaped out of the depot of a cache.
    DepotReaps {
        cpu: usize,
        arena: usize,
        cache: usize,
    },
    /// A CPU takes a round out of its own cache into its hand.
    Pops {
        cpu: usize,
        arena: usize,
        cache: usize,
    },
    /// A CPU puts its hand's chunk into its own cache of those chunks, as a round.
    Pushes {
        cpu: usize,
    },
    /// A CPU whose own cache has two empty magazines gets a full one for one of them.
    SwapsFull {
        cpu: usize,
        arena: usize,
        cache: usize,
    },
    /// A CPU whose own cache has two full magazines gets an empty one for one of them.
    SwapsEmpty {
        cpu: usize,
        arena: usize,
        cache: usize,
    },
    /// The same with a magazine that is made for it.
    SwapsFresh {
        cpu: usize,
        arena: usize,
        cache: usize,
    },
    /// A CPU's own cache gets two magazines of a greater size, at most its depot's, and all its
    /// rounds are in the first.
    Changes {
        cpu: usize,
        arena: usize,
        cache: usize,
        size: usize,
    },
    /// A CPU takes over what another has that has failed: its hand's segment, or else one of its
    /// rounds. Who is named so has failed from then on, and has no further events.
    Adopts {
        cpu: usize,
        other: usize,
    },
    /// An arena that doesn't import gets this range as a further span, a root of its own, whatever
    /// is out.
    Grows {
        arena: usize,
        range: Range,
    },
    /// An interval begins in a depot.
    Ticks {
        arena: usize,
        cache: usize,
    },
    /// A depot keeps magazines of a greater size from here on.
    Resizes {
        arena: usize,
        cache: usize,
        size: usize,
    },
}

/// Why a part refuses an event.
#[derive(Clone, Copy, Debug, PartialEq, Eq)]
pub enum EventFault {
    /// The incarnation isn't above the client's and each that an accepted `old` named, or it is
    /// above 2^62. Or the size isn't above the depot's.
    NotGreater,
    /// No `welcome` has come yet to the client's hello.
    NotOpen,
    /// The client's next number is too far above the least one that waits for its reply.
    Busy,
    /// The client doesn't hold what it would release.
    NotHeld,
    /// The client has no number left.
    Exhausted,
    /// Nothing of the client's is outstanding, or not the number that is named.
    Nothing,
    /// No arena of this quantum takes such a request.
    BadRequest,
    /// No free range of the arena serves the request.
    NoFit,
    /// The range overlaps a span of the arena.
    Overlaps,
    /// The range isn't in whole quanta of the arena.
    NotAligned,
    /// The arena owns `MOST_SPANS` spans.
    TooMany,
    /// The segment hasn't the length of the cache's slabs.
    WrongSize,
    /// The CPU's magazines are of another size than the depot's.
    OldSize,
    /// No full magazine stands in the depot.
    NoneFull,
    /// No empty magazine stands in the depot.
    NoneEmpty,
}

/// What became of an event.
#[derive(Clone, Copy, Debug, PartialEq, Eq)]
pub enum Outcome {
    /// Its move was made.
    Done,
    /// A client, a CPU, its hand, its request, an arena, a cache or a message isn't as the event
    /// asks.
    NotEnabled,
    /// The part that it asks refuses it.
    Refused(EventFault),
    /// Out of memory.
    NoMemory,
}

/// The CPU whose event it is, if it is a CPU's.
pub(crate) fn cpu_of(event: &WorldEvent) -> Option<usize>
    ensures { result ≡ cpu_of event.now }
{
    match *event {
        WorldEvent::Looks { cpu, .. } => Some(cpu),
        WorldEvent::Settles { cpu, .. } => Some(cpu),
        WorldEvent::Declines { cpu, .. } => Some(cpu),
        WorldEvent::GivesUp { cpu, .. } => Some(cpu),
        WorldEvent::Releases { cpu, .. } => Some(cpu),
        WorldEvent::Sweeps { cpu, .. } => Some(cpu),
        WorldEvent::Carves { cpu, .. } => Some(cpu),
        WorldEvent::Frees { cpu, .. } => Some(cpu),
        WorldEvent::AddCarves { cpu, .. } => Some(cpu),
        WorldEvent::SlabTakes { cpu, .. } => Some(cpu),
        WorldEvent::SlabPuts { cpu, .. } => Some(cpu),
        WorldEvent::SlabAdds { cpu, .. } => Some(cpu),
        WorldEvent::SlabReaps { cpu, .. } => Some(cpu),
        WorldEvent::DepotReaps { cpu, .. } => Some(cpu),
        WorldEvent::Pops { cpu, .. } => Some(cpu),
        WorldEvent::Pushes { cpu, .. } => Some(cpu),
        WorldEvent::SwapsFull { cpu, .. } => Some(cpu),
        WorldEvent::SwapsEmpty { cpu, .. } => Some(cpu),
        WorldEvent::SwapsFresh { cpu, .. } => Some(cpu),
        WorldEvent::Changes { cpu, .. } => Some(cpu),
        WorldEvent::Adopts { cpu, .. } => Some(cpu),
        _ => None,
    }
}
