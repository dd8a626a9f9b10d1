//! The end of a stock. Nothing is lost: one in which a deed lies is handed back.
ghost use Rattle.std.specs.Prelude.{◌≡◌, ◌↔◌, List, [], All, IsTrue, IsOk, IfErr};
ghost use Rattle.deed_core.specs.Tag.{Tag};
ghost use Rattle.tag_arena.specs.ArenaState.{spans_of};
ghost use Rattle.magazine_layer.specs.Depots.{depot_rounds};
ghost use Rattle.stock.specs.Accounts.{Accounts};
ghost use Rattle.stock.specs.Endings.{IsBare, IsBareCache, HaveUnits, RoundsHaveUnits};
ghost use Rattle.stock.specs.Endings.{IsReaped, IsTakenOut};

use crate::spaces::{QuantumCache, Space};
use crate::stocks::Stock;
use deed_core::Deed;
use tag_arena::Arena;

impl<D: Deed> Stock<D> {
    /// Ends a stock in which no deed lies, with its arenas, and hands back one in which a deed
    /// lies. It takes no memory. A stock with no arena ends. Another is reaped first (`reap_all`),
    /// and its owned spans are taken out (`remove_owned`): it ends then exactly where nothing is
    /// out of it.
    pub fn close(self) -> Result<(), Stock<D>>
        ensures ok { IsOk result ↔ All IsBare self }
        ensures nothing_out { (out : List Tag) → Accounts self out → All IsReaped self
            → All IsTakenOut self → IsOk result ↔ (out ≡ []) }
        ensures handed_back { IfErr result (λ same. same ≡ self) }
    {
        if !are_bare(&self.spaces) {
            return Err(self);
        }
        let Stock { spaces } = self;
        discard_spaces(spaces);
        Ok(())
    }
}

/// Whether no deed lies in any of the arenas.
fn are_bare<D: Deed>(spaces: &[Space<D>]) -> bool
    requires rounds { All (λ s. RoundsHaveUnits s.caches) spaces.now }
    ensures { IsTrue result ↔ All IsBare spaces.now }
{
    for space in spaces {
        if !space.is_bare() {
            return false;
        }
    }
    true
}

/// Whether no deed lies in any of the caches.
fn are_bare_caches<D: Deed>(caches: &[QuantumCache<D>]) -> bool
    requires rounds { RoundsHaveUnits caches.now }
    ensures { IsTrue result ↔ All IsBareCache caches.now }
{
    for cache in caches {
        if !cache.is_bare() {
            return false;
        }
    }
    true
}

/// Whether the arena has no span.
fn has_no_span<D: Deed>(arena: &Arena<D>) -> bool
    ensures { IsTrue result ↔ (spans_of arena.now ≡ []) }
{
    arena.report().span == 0
}

/// Ends arenas in which no deed lies.
fn discard_spaces<D: Deed>(spaces: Vec<Space<D>>)
    requires { All IsBare spaces.items }
{
    let mut spaces = spaces;
    while let Some(space) = spaces.pop() {
        space.discard();
    }
    spaces.destroy_empty();
}

/// Ends caches in which no deed lies.
fn discard_caches<D: Deed>(caches: Vec<QuantumCache<D>>)
    requires { All IsBareCache caches.items }
{
    let mut caches = caches;
    while let Some(cache) = caches.pop() {
        cache.discard();
    }
    caches.destroy_empty();
}

impl<D: Deed> Space<D> {
    /// Whether no deed lies in it.
    fn is_bare(&self) -> bool
        requires rounds { RoundsHaveUnits self.now.caches }
        ensures { IsTrue result ↔ IsBare self.now }
    {
        if !has_no_span(&self.arena) {
            return false;
        }
        are_bare_caches(&self.caches)
    }

    /// Ends an arena in which no deed lies.
    fn discard(self)
        requires { IsBare self }
    {
        let Space {
            arena,
            source: _,
            caches,
        } = self;
        discard_caches(caches);
        // For its clause: what is always so of an arena.
        let _ = arena.id();
        match arena.close() {
            Ok(()) => {}
            Err(_) => unreachable!(),
        }
    }
}

impl<D: Deed> QuantumCache<D> {
    /// Whether no deed lies in it.
    fn is_bare(&self) -> bool
        requires rounds { HaveUnits (depot_rounds self.now.depot) }
        ensures { IsTrue result ↔ IsBareCache self.now }
    {
        // For its clause: what is always so of a slab cache.
        let _ = self.slab.arena();
        let report = self.slab.report();
        if report.idle != 0 || report.gap != 0 || report.tail != 0 {
            return false;
        }
        self.depot.units() == 0
    }

    /// Ends a cache in which no deed lies.
    fn discard(self)
        requires { IsBareCache self }
    {
        let QuantumCache { slab, depot } = self;
        match slab.close() {
            Ok(()) => {}
            Err(_) => unreachable!(),
        }
        match depot.close() {
            Ok(()) => {}
            Err(_) => unreachable!(),
        }
    }
}
