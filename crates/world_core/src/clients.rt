//! How clients come into a world.
ghost use Rattle.std.specs.Prelude.{◌≡◌, ◌≢◌, [], ◌∷◌, ◌++◌, OnOk, OnErr};
ghost use Rattle.lease_client.specs.ClientState.{silent_client};
ghost use Rattle.world_core.specs.WorldState.{Each};

use crate::worlds::World;
use deed_core::Deed;
use lease_client::Client;
use lease_terms::ClientId;
use std::alloc::{AllocError, Global};

impl<D: Deed> World<D> {
    /// Adds a client that has said nothing, before anything was said.
    pub fn add_client(&mut self, alloc: Global, id: ClientId) -> Result<(), AllocError>
        requires entries { self.old.entries ≡ [] }
        requires requests { self.old.requests ≡ [] }
        requires fresh { Each (λ c. c.id ≢ id) self.old.clients }
        ensures added { OnOk result (self.new ≡ record self.old {
          clients = self.old.clients ++ silent_client id ∷ [];
        }) }
        ensures unchanged { OnErr result (self.new ≡ self.old) }
    {
        // For its clause: the client is in its range.
        let _ = id.get();
        let parts = &mut self.parts;
        let Ok(()) = parts.clients.reserve(1) else {
            return Err(AllocError);
        };
        parts.clients.push_reserved(Client::new(alloc, id));
        Ok(())
    }
}
