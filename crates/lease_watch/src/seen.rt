//! What is seen of a server.
ghost use Rattle.std.specs.Prelude.{◌≡◌};
ghost use Rattle.lease_watch.specs.Units.{units_at};

use crate::families::Home;
use crate::words::WordCounts;
use lease_terms::ArenaName;

/// The units of an arena, by where they are. Each number is as seen under its own lock, so their
/// sum is the span's only while nothing moves.
#[derive(Clone, Copy, Debug, PartialEq, Eq)]
pub struct UnitsSeen {
    /// All that the arena has.
    pub span: u128,
    /// In no segment.
    pub free: u128,
    /// In slabs, but in none of their chunks that are out.
    pub slab: u128,
    /// In magazines.
    pub magazine: u128,
    /// In spans that other arenas import.
    pub exported: u128,
    pub leased: u128,
}

impl UnitsSeen {
    /// How many have this home.
    pub(crate) fn at(&self, home: Home) -> u128
        ensures { result ≡ units_at self.now home }
    {
        match home {
            Home::Span => self.span,
            Home::Free => self.free,
            Home::Slab => self.slab,
            Home::Magazine => self.magazine,
            Home::Exported => self.exported,
            Home::Leased => self.leased,
        }
    }
}

/// An arena.
#[derive(Clone, Copy, Debug, PartialEq, Eq)]
pub struct ArenaSeen {
    pub name: ArenaName,
    pub quantum: u64,
    /// The largest size that is cached; 0 where none is.
    pub qmax: u64,
    /// The arena that it imports from; None for a root.
    pub source: Option<ArenaName>,
    pub units: UnitsSeen,
}

/// Connections.
#[derive(Clone, Copy, Debug, PartialEq, Eq)]
pub struct ConnectionCounts {
    /// That are served.
    pub served: u64,
    /// That were ever begun to be served.
    pub total: u64,
    /// That were turned away.
    pub refused: u64,
    /// That ended, begun or not, for want of memory or a thread.
    pub failed: u64,
}

/// What was done in some time.
#[derive(Clone, Copy, Debug, PartialEq, Eq)]
pub struct Work {
    /// How long that was.
    pub seconds: u64,
    /// Lines of clients.
    pub lines: u64,
    /// Requests that were refused.
    pub refused: u64,
}

/// A version, as 1.2.3.
#[derive(Clone, Copy, Debug, PartialEq, Eq)]
pub struct Version {
    pub major: u32,
    pub minor: u32,
    pub patch: u32,
}

/// What is seen of a server.
#[derive(Debug, PartialEq, Eq, Drop)]
pub struct Seen {
    pub version: Version,
    /// Seconds since it started.
    pub uptime: u64,
    /// Clients that ever said hello.
    pub clients: u64,
    /// Leases that are held.
    pub leases: u64,
    pub connections: ConnectionCounts,
    /// Lines that waited for a CPU.
    pub cpu_waits: u64,
    /// Lines, replies and refusals, by their words.
    pub counts: WordCounts,
    pub lately: Work,
    /// In order of setup.
    pub arenas: Vec<ArenaSeen>,
}
