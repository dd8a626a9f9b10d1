//! What is seen of a world.
ghost use Rattle.std.specs.Prelude.{◌≡◌, ◌≤◌, length, slice_get, Some, IfSome, IfNone};
ghost use Rattle.lease_client.specs.ClientState.{ClientState};

use crate::worlds::World;
use deed_core::Deed;
use lease_client::HeldSegment;
use lease_proto::{Line, Reply};

impl<D: Deed> World<D> {
    /// How many arenas there are, each at its index in the setup.
    pub fn arenas(&self) -> usize
        ensures { result ≡ length self.now.names }
    {
        self.parts.names.len()
    }

    /// What the client at the index holds, in order of acceptance; none where there is no such
    /// client.
    pub fn held(&self, client: usize) -> Option<&[HeldSegment]>
        ensures some { IfSome result (λ held. (c : ClientState)
            × (slice_get self.now.clients client ≡ Some c) × (held.now ≡ c.held)) }
        ensures none { IfNone result (length self.now.clients ≤ client) }
    {
        if client >= self.parts.clients.len() {
            return None;
        }
        Some(self.parts.clients[client].held())
    }

    /// All lines that clients ever sent, in that order.
    pub fn requests(&self) -> &[Line]
        ensures { result.now ≡ self.now.requests }
    {
        &self.parts.requests
    }

    /// All replies that CPUs ever sent, in that order.
    pub fn replies(&self) -> &[Reply]
        ensures { result.now ≡ self.now.replies }
    {
        &self.parts.replies
    }
}
