//! What a CPU serves.
use lease_proto::Op;
use lease_terms::RequestId;

/// The request that a CPU serves: it looked its number up, found it new, and has yet to settle it.
#[derive(Clone, Copy)]
pub struct Task {
    pub id: RequestId,
    pub op: Op,
}
