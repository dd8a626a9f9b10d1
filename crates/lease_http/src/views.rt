//! What is watched.
ghost use Rattle.std.specs.Prelude.{◌≡◌, ◌++◌, IfOk, List, OnOk};

use lease_terms::ArenaName;
use lease_watch::{LeaseRow, Seen};
use std::alloc::{AllocError, Global};

/// A server, as who watches it sees it.
pub trait View {
    ghost use Rattle.std.specs.Prelude.{ℕ, Bool, List};
    ghost use Rattle.lease_watch.specs.declared.rows.LeaseRow.{LeaseRow};
    ghost use Rattle.lease_watch.specs.declared.seen.Seen.{Seen};

    // what may be seen of it
    ghost may_see: { Self → Seen → Type 0 };

    // whether it may be found serving
    ghost may_serve: { Self → Bool → Type 0 };

    // whether it has an arena of this name
    ghost knows: { Self → List ℕ → Bool };

    // how many clients there may be
    ghost may_count: { Self → ℕ → Type 0 };

    // the leases that the client at a place may have
    ghost may_have: { Self → ℕ → List LeaseRow → Type 0 };

    /// Looks at the server. It fails only when out of memory.
    fn see(&self, alloc: Global) -> Result<Seen, AllocError>
        ensures { IfOk result (may_see self.now) };

    /// Whether the server has an arena of this name.
    fn has_arena(&self, name: &ArenaName) -> bool
        ensures { result ≡ knows self.now name.now };

    /// How many clients there are by now.
    fn clients(&self) -> usize
        ensures { may_count self.now result };

    /// Puts the leases of the client at this place behind the rows, as they are at one moment; none
    /// where no client is there. It fails only when out of memory.
    fn leases_at(&self, place: usize, rows: &mut Vec<LeaseRow>) -> Result<(), AllocError>
        ensures { OnOk result ((more : List LeaseRow) × may_have self.now place more
            × (rows.new.items ≡ rows.old.items ++ more)) };

    /// Whether the server serves; it does until it is to end.
    fn serves(&self) -> bool
        ensures { may_serve self.now result };

    /// Whether no one is to be answered any more.
    fn is_over(&self) -> bool;
}
