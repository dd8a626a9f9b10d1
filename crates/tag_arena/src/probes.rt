//! How many free ranges a search looks at.
ghost use Rattle.std.specs.Prelude.{◌≡◌, ◌≤◌, ◌^◌};
ghost use Rattle.std.specs.Int.{IsPowerOfTwo};
ghost use Rattle.deed_core.specs.Holding.{Holding};
ghost use Rattle.deed_core.specs.Request.{IsGood};
ghost use Rattle.tag_arena.specs.Place.{IsLeast, ServesIn};

use crate::places::least_in;
use deed_core::{Range, Request};

/// A count of looks. Each look of a search is counted here as it is made.
#[derive(Clone, Copy, Drop, Debug)]
pub(crate) struct Probes {
    pub count: u64,
}

impl Probes {
    /// No look so far.
    pub(crate) fn new() -> Probes
        ensures { result.count ≡ 0 }
    {
        Probes { count: 0 }
    }

    /// Looks at a free range.
    pub(crate) fn look(&mut self)
        ensures { self.old.count ≡ 0 → self.new.count ≡ 1 }
    {
        self.count = self.count.saturating_add(1);
    }

    /// Looks at a free range for the least base from `from` on at which it serves the request.
    pub(crate) fn least_in(
        &mut self,
        request: &Request,
        quantum: u64,
        range: Range,
        from: u64,
    ) -> Option<u64>
        requires quantum { IsPowerOfTwo quantum }
        requires good { IsGood quantum request.now }
        requires from { from ≤ 2 ^ 62 }
        ensures { (r : Holding) → r.range ≡ range
            → IsLeast (λ base. ServesIn quantum request.now r base × (from ≤ base)) result }
    {
        self.look();
        least_in(request, quantum, range, from)
    }
}
