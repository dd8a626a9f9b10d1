//! How arenas, their caches and the spans of a setup come into a stock: here and nowhere else, and
//! nothing is out of it at the end. Of a setup it is made by `Stock::of`.
ghost use Rattle.std.specs.Prelude.{◌≡◌, ◌+◌, ◌<◌, [], ◌∷◌, ◌++◌, length, slice_get};
ghost use Rattle.std.specs.Prelude.{Some, None, All, IfOk, OnOk, OnErr};
ghost use Rattle.std.specs.Int.{IsPowerOfTwo};
ghost use Rattle.magazine_layer.specs.Magazines.{IsSize};
ghost use Rattle.tag_arena.specs.Outcomes.{AddSpanOf};
ghost use Rattle.stock.specs.Spaces.{SpaceState, plans_of};
ghost use Rattle.stock.specs.Accounts.{Accounts};
ghost use Rattle.stock.specs.Stocks.{IsStock};
ghost use Rattle.arena_tree.specs.Trees.{HasCaches};
ghost use Rattle.arena_tree.specs.declared.limits.TheConstants.{MOST_ARENAS};
ghost use Rattle.stock.specs.Setups.{plan_for, plans_for, IsNewSpace};
ghost use Rattle.stock.specs.Endings.{IsBare};
ghost use Rattle.stock.specs.Steps.{OnArena, CanImportFrom, HasRoomForCache, GainsCache, new_space};

use crate::stocks::Stock;
use arena_tree::{Tree, TreeArena};
use deed_core::Deed;
use std::alloc::{AllocError, Global};
use std::marker::Model;
use tag_arena::{Policy, SpanFault};

/// A stock that is being made: the arenas so far, with their spans and quantum caches. It is never
/// copied or dropped: `finish` ends it.
pub(crate) struct StockSetup<D: Deed> {
    alloc: Global,
    stock: Stock<D>,
}

impl<D: Deed> Model for StockSetup<D> {
    ghost use Rattle.std.specs.Prelude.{List, []};
    ghost use Rattle.std.specs.Coded.{codes, coded_ℕ};
    ghost use Rattle.std.specs.Ordering.{nat_cmp};
    ghost use Rattle.std.specs.FinMap as finmap;
    ghost use Rattle.deed_core.specs.Holding.{Holding};
    ghost use Rattle.stock.specs.Spaces.{SpaceState};
    ghost use Rattle.stock.specs.Accounts.{Accounts};

    ghost Value = { List SpaceState };

    ghost coded = { Prim.hlevel
        (codes, finmap.code {X = Holding} {R = nat_cmp} coded_ℕ (Prim.hlevel codes)) };

    ghost view = { λ s. s.stock };

    ghost invariant = { λ s. Accounts s.stock [] };
}

impl<D: Deed> StockSetup<D> {
    /// No arena.
    pub(crate) fn new(alloc: Global) -> StockSetup<D>
        ensures { result ≡ [] }
    {
        StockSetup {
            alloc,
            stock: Stock::new(alloc),
        }
    }

    /// The arenas of a tree with their quantum caches, but with no span: each root's owned spans
    /// are then added. Its magazines take `rounds` rounds.
    pub(crate) fn of_tree(
        alloc: Global,
        tree: &Tree,
        rounds: usize,
    ) -> Result<StockSetup<D>, AllocError>
        requires rounds { IsSize rounds }
        ensures planned { IfOk result (λ spaces. plans_of spaces ≡ plans_for tree.now) }
        ensures unused { IfOk result (λ spaces. All (IsNewSpace rounds) spaces) }
    {
        let mut setup = StockSetup::new(alloc);
        for id in 0..tree.len() {
            let added = setup.add_planned(tree.arena(id as u32), rounds);
            if let Err(fault) = added {
                setup.discard();
                return Err(fault);
            }
        }
        Ok(setup)
    }

    /// Adds an arena of a tree, with its caches.
    fn add_planned(&mut self, arena: &TreeArena, rounds: usize) -> Result<(), AllocError>
        requires few { length self.old < MOST_ARENAS }
        requires power { IsPowerOfTwo arena.now.quantum }
        requires source { CanImportFrom self.old arena.now.source arena.now.quantum }
        requires caches { HasCaches arena.now.quantum arena.now.qcache_max arena.now.slab_size }
        requires rounds { IsSize rounds }
        ensures planned { OnOk result
            (plans_of self.new ≡ plans_of self.old ++ plan_for arena.now ∷ []) }
        ensures unused { All (IsNewSpace rounds) self.old → All (IsNewSpace rounds) self.new }
    {
        let index = self.count();
        self.add_arena(arena.source, arena.quantum, arena.policy)?;
        for _cache in 0..arena.qcache_max / arena.quantum {
            self.add_cache(index, arena.slab_size, rounds)?;
        }
        Ok(())
    }

    /// Ends what has no span.
    fn discard(self)
        requires { All IsBare self }
    {
        match self.finish().close() {
            Ok(()) => {}
            Err(_) => unreachable!(),
        }
    }

    /// How many arenas there are. It takes constant time, so its clauses are the way to know what
    /// is always so of a stock that is being made.
    pub(crate) fn count(&self) -> usize
        ensures value { result ≡ length self.now }
        ensures stock { IsStock self.now }
    {
        self.stock.count()
    }

    /// Adds an arena with no span and no cache, which imports from the source, if there is one. Its
    /// number is its index, in order of coming. `quantum` counts units.
    pub(crate) fn add_arena(
        &mut self,
        source: Option<u32>,
        quantum: u64,
        policy: Policy,
    ) -> Result<(), AllocError>
        requires few { length self.old < MOST_ARENAS }
        requires power { IsPowerOfTwo quantum }
        requires source { CanImportFrom self.old source quantum }
        ensures added { OnOk result
            (self.new ≡ self.old ++ new_space (length self.old) source quantum policy ∷ []) }
        ensures unchanged { OnErr result (self.new ≡ self.old) }
    {
        self.stock.add_arena(self.alloc, source, quantum, policy)
    }

    /// Adds an owned span to an arena that doesn't import. The deed is that of a root's whole
    /// range, as it was opened.
    pub(crate) fn add_span(&mut self, arena: usize, deed: D) -> Result<(), SpanFault<D>>
        requires within { arena < length self.old }
        requires root { (s : SpaceState) → slice_get self.old arena ≡ Some s → s.source ≡ None }
        ensures added { OnArena arena (λ a b. AddSpanOf a deed (D.holding deed) result b)
            self.old self.new }
        ensures fixed { plans_of self.new ≡ plans_of self.old }
    {
        self.stock.add_span(arena, deed)
    }

    /// Adds the next quantum cache to an arena: the first has chunks of one quantum. Its slabs have
    /// `slab_size` units, and its magazines `rounds` rounds.
    pub(crate) fn add_cache(
        &mut self,
        arena: usize,
        slab_size: u64,
        rounds: usize,
    ) -> Result<(), AllocError>
        requires within { arena < length self.old }
        requires can { (s : SpaceState) → slice_get self.old arena ≡ Some s
            → HasRoomForCache slab_size s }
        requires rounds { IsSize rounds }
        ensures added { OnOk result (GainsCache arena slab_size rounds self.old self.new) }
        ensures unchanged { OnErr result (self.new ≡ self.old) }
    {
        self.stock.add_cache(self.alloc, arena, slab_size, rounds)
    }

    /// The stock. Nothing is out of it: no segment was carved yet.
    pub(crate) fn finish(self) -> Stock<D>
        ensures value { result ≡ self }
        ensures nothing_out { Accounts result [] }
    {
        let StockSetup { alloc: _, stock } = self;
        stock
    }
}
