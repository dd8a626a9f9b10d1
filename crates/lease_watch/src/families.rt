//! The families of samples, and the homes of units.
ghost use Rattle.std.specs.Prelude.{◌≡◌};
ghost use Rattle.lease_watch.specs.Families as spec;

use crate::words::Word;

/// A family of samples.
#[derive(Clone, Copy)]
pub(crate) enum Family {
    Build,
    Uptime,
    Clients,
    Leases,
    Connections,
    ConnectionsTotal,
    ConnectionsRefused,
    ConnectionsFailed,
    CpuWaits,
    Lines,
    Replies,
    Refusals,
    Setups,
    Units,
}

impl Family {
    /// Its name.
    #[tactic(auto, unfolding(crate::specs::Families::name_of))]
    pub(crate) fn name(self) -> &'static [u8]
        ensures { result.now ≡ spec.name_of self }
    {
        match self {
            Family::Build => b"vmemd_build_info",
            Family::Uptime => b"vmemd_uptime_seconds",
            Family::Clients => b"vmemd_clients",
            Family::Leases => b"vmemd_leases",
            Family::Connections => b"vmemd_connections",
            Family::ConnectionsTotal => b"vmemd_connections_total",
            Family::ConnectionsRefused => b"vmemd_connections_refused_total",
            Family::ConnectionsFailed => b"vmemd_connections_failed_total",
            Family::CpuWaits => b"vmemd_cpu_waits_total",
            Family::Lines => b"vmemd_lines_total",
            Family::Replies => b"vmemd_replies_total",
            Family::Refusals => b"vmemd_refusals_total",
            Family::Setups => b"vmemd_arena_info",
            Family::Units => b"vmemd_units",
        }
    }

    /// Whether it counts up, or shows how much there is.
    #[tactic(auto, unfolding(crate::specs::Families::kind_of))]
    pub(crate) fn kind(self) -> &'static [u8]
        ensures { result.now ≡ spec.kind_of self }
    {
        match self {
            Family::Build
            | Family::Uptime
            | Family::Clients
            | Family::Leases
            | Family::Connections
            | Family::Setups
            | Family::Units => b"gauge",
            Family::ConnectionsTotal
            | Family::ConnectionsRefused
            | Family::ConnectionsFailed
            | Family::CpuWaits
            | Family::Lines
            | Family::Replies
            | Family::Refusals => b"counter",
        }
    }

    /// What it is, in words.
    #[tactic(auto, unfolding(crate::specs::Families::help_of))]
    pub(crate) fn help(self) -> &'static [u8]
        ensures { result.now ≡ spec.help_of self }
    {
        match self {
            Family::Build => b"The version of the server.",
            Family::Uptime => b"Seconds since the server started.",
            Family::Clients => b"Clients that ever said hello.",
            Family::Leases => b"Leases that are held.",
            Family::Connections => b"Connections that are served.",
            Family::ConnectionsTotal => b"Connections that were ever served.",
            Family::ConnectionsRefused => b"Connections that were turned away.",
            Family::ConnectionsFailed => b"Connections that ended for want of memory or a thread.",
            Family::CpuWaits => b"Lines that waited for a CPU.",
            Family::Lines => b"Lines of clients, by first word.",
            Family::Replies => b"Replies, by first word.",
            Family::Refusals => b"Refused requests, by reason.",
            Family::Setups => b"How an arena was set up.",
            Family::Units => b"Units of an arena, by where they are; span is all of them.",
        }
    }

    /// The words that its samples have, a sample each.
    pub(crate) fn words(self) -> &'static [Word]
        ensures { result.now ≡ spec.words_of self }
    {
        match self {
            Family::Lines => &[Word::Hello, Word::Lease, Word::Release],
            Family::Replies => &[
                Word::Welcome,
                Word::Granted,
                Word::Released,
                Word::Refused,
                Word::Old,
                Word::Stale,
                Word::Gap,
                Word::Again,
                Word::Error,
            ],
            Family::Refusals => &[
                Word::NoFit,
                Word::BadRequest,
                Word::NoArena,
                Word::NotYours,
                Word::Leases,
            ],
            _ => &[],
        }
    }
}

/// Where units are.
#[derive(Clone, Copy)]
pub(crate) enum Home {
    Span,
    Free,
    Slab,
    Magazine,
    Exported,
    Leased,
}

impl Home {
    /// Its word.
    #[tactic(auto, unfolding(crate::specs::Families::home_of))]
    pub(crate) fn text(self) -> &'static [u8]
        ensures { result.now ≡ spec.home_of self }
    {
        match self {
            Home::Span => b"span",
            Home::Free => b"free",
            Home::Slab => b"slab",
            Home::Magazine => b"magazine",
            Home::Exported => b"exported",
            Home::Leased => b"leased",
        }
    }
}

/// All homes, in the order in which they are shown; the last is all of them.
pub(crate) fn homes() -> &'static [Home]
    ensures { result.now ≡ spec.homes }
{
    &[
        Home::Leased,
        Home::Magazine,
        Home::Slab,
        Home::Exported,
        Home::Free,
        Home::Span,
    ]
}
