//! The stock. What makes one is called by `setups` alone; `grow` gives one a further span.
ghost use Rattle.std.specs.Prelude.{◌≡◌, ◌+◌, ◌<◌, ◌≤◌, [], ◌∷◌, ◌++◌, length, slice_get, Some};
ghost use Rattle.std.specs.Prelude.{None};
ghost use Rattle.std.specs.Prelude.{OnOk, OnErr, IfSome};
ghost use Rattle.deed_core.specs.Weights.{Loses};
ghost use Rattle.std.specs.Int.{IsPowerOfTwo};
ghost use Rattle.arena_tree.specs.declared.limits.TheConstants.{MOST_ARENAS};
ghost use Rattle.magazine_layer.specs.Magazines.{IsSize};
ghost use Rattle.std.specs.Option.{option_map};
ghost use Rattle.tag_arena.specs.Calls.{AdmitsRange};
ghost use Rattle.tag_arena.specs.Outcomes.{AddSpanOf, RemoveOf};
ghost use Rattle.stock.specs.Spaces.{SpaceState, plans_of};
ghost use Rattle.stock.specs.Stocks.{IsStock};
ghost use Rattle.stock.specs.Accounts.{Accounts, Frames};
ghost use Rattle.stock.specs.Steps.{OnArena, CanImportFrom, HasRoomForCache, GainsCache, GrowOf};
ghost use Rattle.stock.specs.Steps.{new_space};

use crate::spaces::{QuantumCache, Space};
use deed_core::{Deed, Opens, Range};
use magazine_layer::Depot;
use slab_layer::SlabCache;
use std::alloc::{AllocError, Global};
use std::marker::Model;
use tag_arena::{Arena, Policy, SpanFault};

/// Arenas with their quantum caches, each at the index of its number. It is never copied or
/// dropped.
pub struct Stock<D: Deed> {
    pub(crate) spaces: Vec<Space<D>>,
}

impl<D: Deed> Model for Stock<D> {
    ghost use Rattle.std.specs.Prelude.{List};
    ghost use Rattle.std.specs.Coded.{codes, coded_ℕ};
    ghost use Rattle.std.specs.Ordering.{nat_cmp};
    ghost use Rattle.std.specs.FinMap as finmap;
    ghost use Rattle.deed_core.specs.Holding.{Holding};
    ghost use Rattle.stock.specs.Spaces.{SpaceState};
    ghost use Rattle.stock.specs.Stocks.{IsStock};

    ghost Value = { List SpaceState };

    ghost coded = { Prim.hlevel
        (codes, finmap.code {X = Holding} {R = nat_cmp} coded_ℕ (Prim.hlevel codes)) };

    ghost view = { λ s. s.spaces.items };

    ghost invariant = { λ s. IsStock s.spaces.items };
}

impl<D: Deed> Stock<D> {
    /// A stock with no arena. Its accounts balance where nothing is out.
    pub(crate) fn new(alloc: Global) -> Stock<D>
        ensures empty { result ≡ [] }
        ensures balances { Accounts result [] }
    {
        Stock {
            spaces: Vec::new(alloc),
        }
    }

    /// How many arenas there are. It takes constant time, so its clauses are the way to know of a
    /// stock what is always so.
    pub fn count(&self) -> usize
        ensures value { result ≡ length self.now }
        ensures few { length self.now ≤ MOST_ARENAS }
        ensures stock { IsStock self.now }
    {
        self.spaces.len()
    }

    /// Adds an arena with no span and no cache, which imports from the source, if there is one.
    pub(crate) fn add_arena(
        &mut self,
        alloc: Global,
        source: Option<u32>,
        quantum: u64,
        policy: Policy,
    ) -> Result<(), AllocError>
        requires few { length self.old < MOST_ARENAS }
        requires power { IsPowerOfTwo quantum }
        requires source { CanImportFrom self.old source quantum }
        ensures added { OnOk result
            (self.new ≡ self.old ++ new_space (length self.old) source quantum policy ∷ []) }
        ensures unchanged { OnErr result (self.new ≡ self.old) }
        ensures frame { Frames self.old [] self.new [] }
    {
        self.spaces.reserve(1)?;
        let id = self.spaces.len() as u32;
        let arena = Arena::new(alloc, id, quantum, policy);
        // For its clause: what is always so of an arena.
        let _ = arena.id();
        self.spaces.push_reserved(Space {
            arena,
            source,
            caches: Vec::new(alloc),
        });
        Ok(())
    }

    /// Adds an owned span to an arena that doesn't import. The deed is that of a root's whole
    /// range, as it was opened.
    pub(crate) fn add_span(&mut self, arena: usize, deed: D) -> Result<(), SpanFault<D>>
        requires within { arena < length self.old }
        requires root { (s : SpaceState) → slice_get self.old arena ≡ Some s → s.source ≡ None }
        ensures added { OnArena arena (λ a b. AddSpanOf a deed (D.holding deed) result b)
            self.old self.new }
        ensures frame { Frames self.old [] self.new [] }
        ensures fixed { plans_of self.new ≡ plans_of self.old }
    {
        let space = &mut self.spaces[arena];
        space.arena.add_span(deed)
    }

    /// Opens the range as a root for an arena that doesn't import, and adds it as an owned span.
    /// All memory is asked for before the range is opened, so an opened root is always added. The
    /// arena grows by all units of the range, each of them free.
    pub fn grow<O: Opens<D>>(
        &mut self,
        arena: usize,
        range: Range,
        opener: &mut O,
    ) -> Result<(), AllocError>
        requires within { arena < length self.old }
        requires root { (s : SpaceState) → slice_get self.old arena ≡ Some s → s.source ≡ None }
        requires admitted { (s : SpaceState) → slice_get self.old arena ≡ Some s
            → AdmitsRange s.arena range }
        requires left { O.can_open opener.old }
        ensures grown { OnArena arena
            (λ a b. GrowOf O.opens a opener.old range result b opener.new) self.old self.new }
        ensures unchanged { OnErr result (self.new ≡ self.old) }
        ensures frame { Frames self.old [] self.new [] }
        ensures fixed { plans_of self.new ≡ plans_of self.old }
    {
        let space = &mut self.spaces[arena];
        space.arena.grow(range, opener)
    }

    /// Takes the lowest owned span of an arena that is wholly free out. It takes no memory.
    pub fn remove_owned(&mut self, arena: usize) -> Option<D>
        requires within { arena < length self.old }
        ensures removed { OnArena arena (λ a b. RemoveOf a (option_map D.holding result) b)
            self.old self.new }
        ensures loses { IfSome result (λ deed. (s t : SpaceState)
            → slice_get self.old arena ≡ Some s → slice_get self.new arena ≡ Some t
            → Loses s.arena.owned t.arena.owned (D.holding deed)) }
        ensures frame { Frames self.old [] self.new [] }
        ensures fixed { plans_of self.new ≡ plans_of self.old }
    {
        let space = &mut self.spaces[arena];
        space.arena.remove_owned()
    }

    /// Adds the next quantum cache to an arena: the first has chunks of one quantum. Its slabs have
    /// `slab_size` units, and its magazines `rounds` rounds.
    pub(crate) fn add_cache(
        &mut self,
        alloc: Global,
        arena: usize,
        slab_size: u64,
        rounds: usize,
    ) -> Result<(), AllocError>
        requires within { arena < length self.old }
        requires can { (s : SpaceState) → slice_get self.old arena ≡ Some s
            → HasRoomForCache slab_size s }
        requires rounds { IsSize rounds }
        ensures added { OnOk result (GainsCache arena slab_size rounds self.old self.new) }
        ensures unchanged { OnErr result (self.new ≡ self.old) }
        ensures frame { Frames self.old [] self.new [] }
    {
        let space = &mut self.spaces[arena];
        space.caches.reserve(1)?;
        let k = space.caches.len() as u8 + 1;
        let id = space.arena.id();
        let quantum = space.arena.quantum();
        let slab = SlabCache::new(alloc, id, k, quantum, slab_size);
        // For its clause: what is always so of a slab cache.
        let _ = slab.arena();
        space.caches.push_reserved(QuantumCache {
            slab,
            depot: Depot::new(alloc, rounds),
        });
        Ok(())
    }
}
