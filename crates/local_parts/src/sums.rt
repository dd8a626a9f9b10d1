//! The sums of arenas, as one thread's parts tell them.
ghost use Rattle.std.specs.Prelude.{◌<◌, List, length};
ghost use Rattle.deed_core.specs.Tag.{Tag};
ghost use Rattle.stock.specs.Accounts.{Accounts};
ghost use Rattle.stock.specs.Sums.{TellEach, TellsSums, as_leased};

use crate::locals::Local;
use deed_core::Deed;
use stock::{ArenaSums, SumsRoom};

impl<D: Deed> Local<'_, D> {
    /// The sums of each arena, in order of setup, lent in the caller's room. All that is out of the
    /// stock counts as leased, and so do the rounds of this CPU: others may have some too, and the
    /// stock knows of none. So none is in a hand. It takes no memory, and goes over the slabs and the
    /// depots of all caches and, for each arena, over the arenas, in constant time each.
    pub fn sums<'a>(&self, room: &'a mut SumsRoom) -> &'a [ArenaSums]
        requires balanced { (out : List Tag) × Accounts self.now.stock.now out }
        ensures { (out : List Tag) → Accounts self.now.stock.now out
            → TellEach self.now.stock.now (as_leased out) result.now }
    {
        self.stock.sums(room)
    }

    /// The sums of the arena at the index, counted by parts: one round of the depots after another.
    pub fn audit_by_parts(&self, arena: usize) -> ArenaSums
        requires within { arena < length self.now.stock.now }
        requires balanced { (out : List Tag) × Accounts self.now.stock.now out }
        ensures { (out : List Tag) → Accounts self.now.stock.now out
            → TellsSums self.now.stock.now arena (as_leased out) result }
    {
        self.stock.sums_by_parts(arena)
    }
}
