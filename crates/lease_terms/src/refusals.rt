//! Why a request is refused.

/// Why a request is refused, once and for all: its number is settled so, and the same request gets
/// the same refusal again.
#[derive(Clone, Copy, PartialEq, Eq, Debug)]
pub enum Refusal {
    /// No free segment of the arena meets the request.
    NoFit,
    /// The size and the options contradict each other or the arena's quantum.
    BadRequest,
    /// No arena has this name.
    NoArena,
    /// The client's current incarnation has no lease of this arena and base.
    NotYours,
    /// The client has as many leases as one may have.
    Leases,
}
