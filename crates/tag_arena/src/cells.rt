//! The cells of ranges: each allocated range stands in one, and under `best` and `instant` each
//! free range has one too.
//!
//! Where free ranges have cells, each is linked with those of the ranges before it and behind it in
//! its span (boundary tags: Knuth; Magazines and Vmem, 2001). What a contract sees are the
//! allocated ranges in their cells alone. All else is for speed: which cells are linked, and the
//! slot of a free range, may be wrong, and who asks looks at the range itself, or searches.
ghost use Rattle.std.specs.Prelude.{◌≡◌, ℕ, ◌<◌, ◌≤◌, [], None, Some, IfOk, IfSome, IsTrue};
ghost use Rattle.std.specs.Prelude.{◌↔◌, length};
ghost use Rattle.deed_core.specs.Extent.{end_of};
ghost use Rattle.deed_core.specs.Holding.{Holding};
ghost use Rattle.tag_arena.specs.Cells.{allocated_at, allocated_of, CellBecomes, IsAt, IsVacant};
ghost use Rattle.tag_arena.specs.Cells.{SameCells};

use crate::held_ranges::HeldRange;
use crate::short_indexes::ShortIndex;
use deed_core::Range;
use std::alloc::{AllocError, Global};
use std::marker::Model;

/// What is known of what stands beside a range.
#[derive(Clone, Copy, PartialEq, Eq, Debug)]
pub(crate) enum Side {
    /// Nothing.
    Unknown,
    /// It may be the free range in this slot.
    Free(usize),
    /// An allocated range.
    Allocated,
}

impl Side {
    /// An allocated range, if it is known to stand right there.
    fn allocated(right_there: bool) -> Side
        ensures { result ≡ Side.Allocated → IsTrue right_there }
    {
        if right_there {
            Side::Allocated
        } else {
            Side::Unknown
        }
    }
}

/// What is known of what stands before a range and behind it.
#[derive(Clone, Copy, Debug)]
pub(crate) struct Beside {
    pub left: Side,
    pub right: Side,
}

/// On which sides of a range there is a free one that belongs to it.
#[derive(Clone, Copy, PartialEq, Eq, Debug)]
pub(crate) struct Sides {
    pub left: bool,
    pub right: bool,
}

/// Where a range is allocated: the cell of the free range that it is carved from, if it has one,
/// and which rests of it stay free.
#[derive(Clone, Copy, Debug)]
pub(crate) struct Origin {
    pub cell: Option<usize>,
    pub rests: Sides,
}

/// What stands in a cell.
#[derive(Clone, Copy, Debug)]
pub(crate) enum Standing {
    /// A free range, in this slot perhaps, or nothing.
    Free(usize),
    /// An allocated range.
    Allocated(HeldRange),
}

/// What stands in a cell, the cells of the ranges beside it, and the next one of its chain. It
/// takes 32 bytes, and would take 48 with a `Standing` in it: where many ranges are out, a call
/// waits for the memory of cells.
#[derive(Debug, Drop)]
pub(crate) struct Cell {
    base: u64,
    /// How many units are allocated here from `base` on, or 0.
    len: u64,
    /// The root of what is allocated here, or else the slot that is told.
    number: u32,
    /// The cell of the range that ends where this one begins.
    before: ShortIndex,
    /// The cell of the range that begins where this one ends.
    after: ShortIndex,
    /// The next cell of its chain.
    next: ShortIndex,
}

impl Model for Cell {
    ghost use Rattle.std.specs.Prelude.{Option, ◌≢◌};
    ghost use Rattle.deed_core.specs.Extent.{IsRange};
    ghost use Rattle.deed_core.specs.Holding.{Holding};
    ghost use Rattle.tag_arena.specs.Cells.{held_in};

    ghost Value = { Option Holding };

    ghost view = { λ c. held_in c.number c.base c.len };

    ghost invariant = { λ c. c.len ≢ 0 → IsRange (record { base = c.base; len = c.len }) };
}

/// Cells. Free ranges may have some too, or not.
#[derive(Drop)]
pub(crate) struct Cells {
    /// Whether free ranges have cells.
    linked: bool,
    cells: Vec<Cell>,
    /// The first cell that may be used again; each of these has the next one as `after`.
    unused: ShortIndex,
}

impl Model for Cells {
    ghost use Rattle.std.specs.Prelude.{List, Option};
    ghost use Rattle.deed_core.specs.Holding.{Holding};

    ghost Value = { List (Option Holding) };

    ghost view = { λ c. c.cells.items };
}

impl Cells {
    /// No cell. Free ranges will have some, or not.
    pub(crate) fn new(alloc: Global, linked: bool) -> Cells
        ensures { result ≡ [] }
    {
        Cells {
            linked,
            cells: Vec::new(alloc),
            unused: ShortIndex::none(),
        }
    }

    /// Whether free ranges have cells.
    pub(crate) fn is_linked(&self) -> bool {
        self.linked
    }

    /// How many cells there are, those that may be used again among them.
    pub(crate) fn len(&self) -> usize
        ensures { result ≡ length self.now }
    {
        self.cells.len()
    }

    /// The range that is allocated in a cell, if one is.
    pub(crate) fn peek(&self, at: usize) -> Option<HeldRange>
        ensures { result ≡ allocated_at self.now at }
    {
        match self.cells.get(at)?.standing() {
            Standing::Free(_) => None,
            Standing::Allocated(range) => Some(range),
        }
    }

    /// Whether the range that is allocated in a cell begins at a base.
    pub(crate) fn begins_at(&self, at: usize, base: u64) -> bool
        ensures { IsTrue result ↔ IsAt base at self.now }
    {
        match self.cells.get(at) {
            Some(cell) => cell.begins_at(base),
            None => false,
        }
    }

    /// Whether there is such a cell, with nothing allocated in it.
    fn is_vacant(&self, at: usize) -> bool
        ensures { IsTrue result ↔ IsVacant at self.now }
    {
        at < self.cells.len() && self.peek(at).is_none()
    }

    /// Makes room for two new cells: so `take` isn't refused twice. Out of memory, all stays.
    pub(crate) fn reserve(&mut self) -> Result<(), AllocError>
        ensures same { SameCells self.old self.new }
    {
        self.cells.reserve(2)
    }

    /// A cell with nothing allocated in it, which was used before or is new.
    pub(crate) fn take(&mut self) -> Result<usize, AllocError>
        ensures vacant { IfOk result (λ k. IsVacant k self.new) }
        ensures same { SameCells self.old self.new }
        ensures len { length self.old ≤ length self.new }
    {
        if let Some(at) = self.unused.get() {
            if self.is_vacant(at) {
                let cell = &mut self.cells[at];
                self.unused = cell.after;
                *cell = Cell::new();
                return Ok(at);
            }
        }
        self.cells.push(Cell::new())?;
        Ok(self.cells.len() - 1)
    }

    /// A cell for the free range of a new span, where free ranges have cells. `Err` is out of
    /// memory.
    pub(crate) fn open(&mut self) -> Result<Option<usize>, AllocError>
        ensures same { SameCells self.old self.new }
    {
        if !self.linked {
            return Ok(None);
        }
        Ok(Some(self.take()?))
    }

    /// Makes two cells each other's neighbors.
    fn link(&mut self, before: ShortIndex, after: ShortIndex)
        ensures same { SameCells self.old self.new }
        ensures len { length self.new ≡ length self.old }
    {
        if let Some(at) = before.get() {
            if at < self.cells.len() {
                let cell = &mut self.cells[at];
                cell.after = after;
            }
        }
        if let Some(at) = after.get() {
            if at < self.cells.len() {
                let cell = &mut self.cells[at];
                cell.before = before;
            }
        }
    }

    /// The cells before a cell and behind it.
    fn links(&self, at: usize) -> (ShortIndex, ShortIndex) {
        match self.cells.get(at) {
            Some(cell) => (cell.before, cell.after),
            None => (ShortIndex::none(), ShortIndex::none()),
        }
    }

    /// Links a cell in behind another.
    fn link_behind(&mut self, at: usize, new: usize)
        ensures same { SameCells self.old self.new }
        ensures len { length self.new ≡ length self.old }
    {
        let (_, after) = self.links(at);
        let link = ShortIndex::to(Some(new));
        self.link(ShortIndex::to(Some(at)), link);
        self.link(link, after);
    }

    /// Takes a cell with nothing allocated in it out from between its neighbors: it may be used
    /// again.
    pub(crate) fn unlink(&mut self, at: usize)
        ensures same { SameCells self.old self.new }
    {
        if !self.is_vacant(at) {
            return;
        }
        let (before, after) = self.links(at);
        self.link(before, after);
        let cell = &mut self.cells[at];
        cell.after = self.unused;
        self.unused = ShortIndex::to(Some(at));
    }

    /// Tells the slot of the free range in a cell.
    pub(crate) fn set_free(&mut self, at: usize, slot: usize)
        ensures same { SameCells self.old self.new }
    {
        if self.is_vacant(at) {
            self.cells[at].vacate(slot);
        }
    }

    /// What stands in the cell that a link leads to, if it leads to one.
    fn standing(&self, link: ShortIndex) -> Option<Standing>
        ensures { IfSome result (λ standing. (k : ℕ) × (link ≡ Some k)
            × (allocated_at self.now k ≡ allocated_of standing)) }
    {
        Some(self.cells.get(link.get()?)?.standing())
    }

    /// What stands in the cell before a range, which begins at `base`.
    fn left_of(&self, before: ShortIndex, base: u64) -> Side
        ensures { result ≡ Side.Allocated → (k : ℕ) × (h : Holding)
            × (allocated_at self.now k ≡ Some h) × (end_of h.range ≡ base) }
    {
        let Some(standing) = self.standing(before) else {
            return Side::Unknown;
        };
        match standing {
            Standing::Free(slot) => Side::Free(slot),
            Standing::Allocated(range) => Side::allocated(range.end() == base),
        }
    }

    /// What stands in the cell behind a range, which ends at `end`.
    fn right_of(&self, after: ShortIndex, end: u64) -> Side
        ensures { result ≡ Side.Allocated → (k : ℕ) × (h : Holding)
            × (allocated_at self.now k ≡ Some h) × (h.range.base ≡ end) }
    {
        let Some(standing) = self.standing(after) else {
            return Side::Unknown;
        };
        match standing {
            Standing::Free(slot) => Side::Free(slot),
            Standing::Allocated(range) => Side::allocated(range.base() == end),
        }
    }

    /// What stands beside the range in a cell, which is from `base` to `end`.
    pub(crate) fn beside(&self, at: usize, base: u64, end: u64) -> Beside
        ensures left { result.left ≡ Side.Allocated → (k : ℕ) × (h : Holding)
            × (allocated_at self.now k ≡ Some h) × (end_of h.range ≡ base) }
        ensures right { result.right ≡ Side.Allocated → (k : ℕ) × (h : Holding)
            × (allocated_at self.now k ≡ Some h) × (h.range.base ≡ end) }
    {
        let (before, after) = self.links(at);
        Beside {
            left: self.left_of(before, base),
            right: self.right_of(after, end),
        }
    }

    /// A cell for a piece of the free range in a cell, with nothing allocated in it: the same one,
    /// unless a rest before the piece keeps it.
    pub(crate) fn place_of(&mut self, origin: Origin) -> Result<usize, AllocError>
        ensures vacant { IfOk result (λ k. IsVacant k self.new) }
        ensures same { SameCells self.old self.new }
    {
        let Some(whole) = origin.cell else {
            return self.take();
        };
        if !origin.rests.left && self.is_vacant(whole) {
            return Ok(whole);
        }
        let new = self.take()?;
        self.link_behind(whole, new);
        Ok(new)
    }

    /// A cell for the rest behind a piece, where free ranges have cells, if there is such a rest,
    /// and memory.
    pub(crate) fn place_behind(&mut self, piece: usize, origin: Origin) -> Option<usize>
        ensures same { SameCells self.old self.new }
        ensures len { length self.old ≤ length self.new }
    {
        if origin.cell.is_none() || !origin.rests.right {
            return None;
        }
        let Ok(new) = self.take() else {
            return None;
        };
        self.link_behind(piece, new);
        Some(new)
    }

    /// A range is allocated in a cell.
    pub(crate) fn allocate(&mut self, at: usize, range: HeldRange)
        requires within { at < length self.old }
        ensures { CellBecomes self.old self.new at (Some range) }
    {
        self.cells[at].allocate(range);
    }

    /// What is allocated in a cell is so no more.
    pub(crate) fn release(&mut self, at: usize)
        ensures { CellBecomes self.old self.new at None }
    {
        if at < self.cells.len() {
            self.cells[at].vacate(0);
        }
    }

    /// Joins the range in a cell with those that are free beside it, and answers their cell.
    pub(crate) fn join(&mut self, at: usize, sides: Sides) -> usize
        ensures same { SameCells self.old self.new }
    {
        let (before, after) = self.links(at);
        if let Some(after) = after.get() {
            if sides.right {
                self.unlink(after);
            }
        }
        match before.get() {
            Some(before) if sides.left => {
                self.unlink(at);
                before
            }
            _ => at,
        }
    }

    /// The next cell of a cell's chain.
    pub(crate) fn next(&self, at: usize) -> ShortIndex {
        match self.cells.get(at) {
            Some(cell) => cell.next,
            None => ShortIndex::none(),
        }
    }

    /// Another cell is the next of a cell's chain.
    pub(crate) fn set_next(&mut self, at: usize, next: ShortIndex)
        ensures same { SameCells self.old self.new }
    {
        if at < self.cells.len() {
            let cell = &mut self.cells[at];
            cell.next = next;
        }
    }
}

impl Cell {
    /// One with nothing in it, and no neighbors.
    fn new() -> Cell
        ensures { result ≡ None }
    {
        Cell {
            base: 0,
            len: 0,
            number: 0,
            before: ShortIndex::none(),
            after: ShortIndex::none(),
            next: ShortIndex::none(),
        }
    }

    /// What stands in it.
    fn standing(&self) -> Standing
        ensures { allocated_of result ≡ self.now }
    {
        match Range::new(self.base, self.len) {
            Some(range) => Standing::Allocated(HeldRange::new(self.number, range)),
            None => Standing::Free(self.number as usize),
        }
    }

    /// Whether a range is allocated in it, from a base on.
    fn begins_at(&self, base: u64) -> bool
        ensures { IsTrue result ↔ (h : Holding) × (self.now ≡ Some h) × (h.range.base ≡ base) }
    {
        self.len != 0 && self.base == base
    }

    /// A range is allocated in it.
    fn allocate(&mut self, range: HeldRange)
        ensures { self.new ≡ Some range }
    {
        self.base = range.base();
        self.len = range.len();
        self.number = range.root();
    }

    /// Nothing is allocated in it. A slot that can't be told in 32 bits is told as the first.
    fn vacate(&mut self, slot: usize)
        ensures { self.new ≡ None }
    {
        self.len = 0;
        self.number = u32::try_from(slot).unwrap_or(0);
    }
}
