//! The allocated ranges, by their bases.
ghost use Rattle.std.specs.Prelude.{◌≡◌, ◌+◌, ◌^◌, ◌<◌, OnOk, OnErr, ℕ, Some, None};
ghost use Rattle.std.specs.FinMap as finmap;
ghost use Rattle.std.specs.Option.{option_map};
ghost use Rattle.deed_core.specs.Holding.{Holding};
ghost use Rattle.deed_core.specs.Extent.{end_of};
ghost use Rattle.tag_arena.specs.declared.cells.Side.{Side};

use crate::cells::{Beside, Cells, Origin, Sides};
use crate::chained::{cell_at, on_chain, put_on, take_off, widen};
use crate::chains::Chains;
use crate::held_ranges::HeldRange;
use crate::short_indexes::ShortIndex;
use std::alloc::{AllocError, Global};
use std::marker::Model;

/// An allocated range that was found, and its cell.
#[derive(Clone, Copy, Debug)]
pub(crate) struct Found {
    pub range: HeldRange,
    pub cell: usize,
}

/// The cell of a range that was put in, and that of the rest behind it, if that has one.
#[derive(Clone, Copy, Debug)]
pub(crate) struct Placed {
    pub cell: usize,
    pub behind: Option<usize>,
}

/// Each allocated range in a cell of its own, and how many they are.
#[derive(Drop)]
pub(crate) struct Tags {
    alloc: Global,
    cells: Cells,
    chains: Chains,
    count: usize,
    /// The cell last gone to.
    near: usize,
}

impl Model for Tags {
    ghost use Rattle.std.specs.Prelude.{◌≡◌};
    ghost use Rattle.std.specs.Ordering.{nat_cmp};
    ghost use Rattle.std.specs.Coded.{codes, coded_ℕ};
    ghost use Rattle.std.specs.FinMap as finmap;
    ghost use Rattle.deed_core.specs.Holding.{Holding};
    ghost use Rattle.tag_arena.specs.Cells.{AreOnce, tags_in};

    ghost Value = { finmap.FinMap nat_cmp Holding };

    ghost coded = { finmap.code coded_ℕ (Prim.hlevel codes) };

    ghost view = { λ a. tags_in a.cells };

    ghost invariant = { λ a. (a.count ≡ finmap.len (tags_in a.cells)) × AreOnce a.cells };
}

impl Tags {
    /// No range. Free ranges will have cells, or not.
    pub(crate) fn new(alloc: Global, linked: bool) -> Tags
        ensures { result ≡ finmap.empty }
    {
        Tags {
            alloc,
            cells: Cells::new(alloc, linked),
            chains: Chains::new(alloc),
            count: 0,
            near: 0,
        }
    }

    /// How many ranges are allocated.
    pub(crate) fn len(&self) -> usize
        ensures { result ≡ finmap.len self.now }
    {
        self.count
    }

    /// The first cell of the chain of a base, for `go_to`.
    pub(crate) fn head(&self, base: u64) -> ShortIndex {
        self.chains.head(base)
    }

    /// Goes to a base, along the chain that begins with this cell. It is for speed alone: a `get`
    /// at the same base that follows needs no search.
    pub(crate) fn go_to(&mut self, first: ShortIndex, base: u64)
        ensures unchanged { self.new ≡ self.old }
    {
        if self.cells.begins_at(self.near, base) {
            return;
        }
        if let Some(at) = on_chain(&self.cells, first, base) {
            self.near = at;
        }
    }

    /// The range at a base, if one stands there.
    pub(crate) fn get(&self, base: u64) -> Option<Found>
        ensures { option_map (λ f. f.range) result ≡ finmap.get self.now base }
    {
        let cell = cell_at(&self.cells, &self.chains, self.near, base)?;
        let range = self.cells.peek(cell)?;
        Some(Found { range, cell })
    }

    /// What stands beside a range, which may be in this cell.
    pub(crate) fn beside(&self, cell: usize, base: u64, end: u64) -> Beside
        ensures left { result.left ≡ Side.Allocated → (b : ℕ) × (h : Holding)
            × (finmap.get self.now b ≡ Some h) × (end_of h.range ≡ base) }
        ensures right { result.right ≡ Side.Allocated → (h : Holding)
            × (finmap.get self.now end ≡ Some h) }
    {
        self.cells.beside(cell, base, end)
    }

    /// A cell for the free range of a new span, where free ranges have cells. `Err` is out of
    /// memory.
    pub(crate) fn open(&mut self) -> Result<Option<usize>, AllocError>
        ensures unchanged { self.new ≡ self.old }
    {
        self.cells.open()
    }

    /// Tells the slot of the free range in a cell. It is for speed alone.
    pub(crate) fn set_free(&mut self, cell: Option<usize>, slot: usize)
        ensures unchanged { self.new ≡ self.old }
    {
        if let Some(at) = cell {
            self.cells.set_free(at, slot);
        }
    }

    /// Joins what is free in a cell with what is free beside it, and answers its cell.
    pub(crate) fn join(&mut self, cell: Option<usize>, sides: Sides) -> Option<usize>
        ensures unchanged { self.new ≡ self.old }
    {
        let at = cell?;
        Some(self.cells.join(at, sides))
    }

    /// What was free in a cell is gone.
    pub(crate) fn vacate(&mut self, cell: Option<usize>)
        ensures unchanged { self.new ≡ self.old }
    {
        if let Some(at) = cell {
            self.cells.unlink(at);
        }
    }

    /// Puts in a range at whose base none stands.
    pub(crate) fn insert(&mut self, range: HeldRange, origin: Origin) -> Result<Placed, AllocError>
        requires absent { finmap.get self.old range.range.base ≡ None }
        requires room { finmap.len self.old + 1 < 2 ^ 64 }
        ensures ok { OnOk result (self.new ≡ finmap.insert self.old range.range.base range) }
        ensures unchanged { OnErr result (self.new ≡ self.old) }
    {
        widen(self.alloc, &mut self.cells, &mut self.chains, self.count)?;
        let at = self.cells.place_of(origin)?;
        let behind = self.cells.place_behind(at, origin);
        self.cells.allocate(at, range);
        put_on(&mut self.cells, &mut self.chains, at, range.base());
        self.count += 1;
        Ok(Placed { cell: at, behind })
    }

    /// Takes out a range that stands, whose cell may be the one that is likely. The answer is its
    /// cell, where free ranges have cells.
    pub(crate) fn remove(&mut self, range: HeldRange, likely: usize) -> Option<usize>
        requires { finmap.get self.old range.range.base ≡ Some range }
        ensures { self.new ≡ finmap.remove self.old range.range.base }
    {
        let base = range.base();
        let Some(at) = cell_at(&self.cells, &self.chains, likely, base) else {
            unreachable!()
        };
        take_off(&mut self.cells, &mut self.chains, at, base);
        self.cells.release(at);
        self.count -= 1;
        if self.cells.is_linked() {
            return Some(at);
        }
        self.cells.unlink(at);
        None
    }
}
