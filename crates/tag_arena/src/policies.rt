//! How an arena chooses, and by which orders and lists.
ghost use Rattle.std.specs.Prelude.{◌≡◌};
ghost use Rattle.tag_arena.specs.FreeRanges.{keeps_bases, keeps_lists, keeps_sizes};

/// How an arena chooses among its free ranges. That each arena has one, fixed when it is made, is
/// our own choice.
#[derive(Clone, Copy, PartialEq, Eq, Debug)]
pub enum Policy {
    /// From power-of-two lists: the newest range of the least list whose every member has room.
    Instant,
    /// The shortest range that serves, the lowest of those.
    Best,
    /// The least address from the end of the last carve on.
    Next,
}

/// Whether the policy asks for the order of bases.
pub(crate) fn has_bases(policy: Policy) -> bool
    ensures { result ≡ keeps_bases policy }
{
    match policy {
        Policy::Next => true,
        Policy::Best | Policy::Instant => false,
    }
}

/// Whether the policy asks for the order of sizes.
pub(crate) fn has_sizes(policy: Policy) -> bool
    ensures { result ≡ keeps_sizes policy }
{
    match policy {
        Policy::Next => false,
        Policy::Best | Policy::Instant => true,
    }
}

/// Whether the policy asks for the power-of-two lists.
pub(crate) fn has_lists(policy: Policy) -> bool
    ensures { result ≡ keeps_lists policy }
{
    match policy {
        Policy::Instant => true,
        Policy::Best | Policy::Next => false,
    }
}
