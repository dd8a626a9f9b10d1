//! Room for the end of an arena, which takes no memory itself.
ghost use Rattle.std.specs.Prelude.{◌≡◌, ◌≤◌, [], OnOk, vec_len, vec_capacity};

use deed_core::Range;
use deed_table::{Name, Root};
use std::alloc::{AllocError, Global};
use std::marker::Model;
use std::mem;

/// Room for so many roots, and for their ranges. A contract sees for how many.
pub(crate) struct EndRoom<N: Name> {
    count: usize,
    roots: Vec<Root<N>>,
    ranges: Vec<Range>,
}

impl<N: Name> Model for EndRoom<N> {
    ghost use Rattle.std.specs.Prelude.{◌≡◌, ◌≤◌, ℕ, vec_len, vec_capacity};

    ghost Value = { ℕ };

    ghost view = { λ r. r.count };

    ghost invariant = { λ r. (vec_len r.roots ≡ 0) × (r.count ≤ vec_capacity r.roots)
        × (vec_len r.ranges ≡ 0) × (r.count ≤ vec_capacity r.ranges) };
}

impl<N: Name> EndRoom<N> {
    /// Room for none.
    pub(crate) fn none(alloc: Global) -> EndRoom<N>
        ensures { result ≡ 0 }
    {
        EndRoom {
            count: 0,
            roots: Vec::new(alloc),
            ranges: Vec::new(alloc),
        }
    }

    /// Makes room for so many at least.
    pub(crate) fn make(&mut self, count: usize) -> Result<(), AllocError>
        ensures enough { OnOk result (count ≤ self.new) }
        ensures kept { self.old ≤ self.new }
    {
        self.roots.reserve(count)?;
        self.ranges.reserve(count)?;
        if self.count < count {
            self.count = count;
        }
        Ok(())
    }

    /// Moves these roots to the list that has room, and gives the one for ranges. Then there is
    /// room for none.
    pub(crate) fn give(&mut self, alloc: Global, roots: &mut Vec<Root<N>>) -> Vec<Range>
        requires within { vec_len roots.old ≤ self.old }
        ensures same { roots.new.items ≡ roots.old.items }
        ensures room { self.old ≤ vec_capacity roots.new }
        ensures ranges { (result.items ≡ []) × (self.old ≤ vec_capacity result) }
        ensures rest { self.new ≡ 0 }
    {
        match self.roots.append(roots) {
            Ok(()) => mem::swap(&mut self.roots, roots),
            Err(AllocError) => unreachable!(),
        }
        self.count = 0;
        mem::replace(&mut self.ranges, Vec::new(alloc))
    }

    /// Lets the room go.
    pub(crate) fn end(self) {
        let EndRoom {
            count: _,
            roots,
            ranges: _,
        } = self;
        roots.destroy_empty();
    }
}
