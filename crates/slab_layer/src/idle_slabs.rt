//! Which slabs of a cache have a chunk at home.
ghost use Rattle.std.specs.Prelude.{◌≡◌, ◌+◌, ◌<◌, ◌≤◌, List, [], length, OnOk};
ghost use Rattle.slab_layer.specs.Slab.{SlabState};
ghost use Rattle.slab_layer.specs.Bases.{AreBeside, ListsAt};

use crate::bases::Bases;
use crate::standings::Standing;
use std::alloc::{AllocError, Global};
use std::marker::Model;

/// The bases of the slabs with a chunk at home and another out, and of those with all at home.
#[derive(Drop)]
pub(crate) struct IdleSlabs {
    partial: Bases,
    complete: Bases,
}

impl Model for IdleSlabs {
    ghost use Rattle.std.specs.Prelude.{min};
    ghost use Rattle.slab_layer.specs.Bases.{IdleState};

    ghost Value = { IdleState };

    ghost view = { λ s. record {
      partial = s.partial.items;
      complete = s.complete.items;
      room = min s.partial.room s.complete.room;
    } };
}

impl IdleSlabs {
    /// None, and no room for one.
    pub(crate) fn new(alloc: Global) -> IdleSlabs
        ensures { result ≡ record { partial = []; complete = []; room = 0 } }
    {
        IdleSlabs {
            partial: Bases::new(alloc),
            complete: Bases::new(alloc),
        }
    }

    /// Makes room for so many slabs in all, however they stand.
    pub(crate) fn reserve(&mut self, alloc: Global, room: usize) -> Result<(), AllocError>
        ensures ok { OnOk result (room ≤ self.new.room) }
        ensures kept { self.old.room ≤ self.new.room }
        ensures partial { self.new.partial ≡ self.old.partial }
        ensures complete { self.new.complete ≡ self.old.complete }
    {
        self.partial.reserve(alloc, room)?;
        self.complete.reserve(alloc, room)
    }

    /// The slabs with some chunks at home and some out.
    pub(crate) fn partial(&self) -> &Bases
        ensures { result.now.items ≡ self.now.partial }
    {
        &self.partial
    }

    /// The slabs with all chunks at home.
    pub(crate) fn complete(&self) -> &Bases
        ensures { result.now.items ≡ self.now.complete }
    {
        &self.complete
    }

    /// Lists a slab anew: it `was` so, and is `now` so. It takes no memory.
    pub(crate) fn relist(&mut self, base: u64, was: Standing, now: Standing)
        requires place { (low : List SlabState) × (high : List SlabState)
            × AreBeside low base high × ListsAt low base was high self.old
            × (length low + length high < self.old.room) }
        ensures lists { (low high : List SlabState) → AreBeside low base high
            → ListsAt low base was high self.old → ListsAt low base now high self.new }
        ensures room { self.new.room ≡ self.old.room }
    {
        self.partial
            .relist(base, was.is_partial(), now.is_partial());
        self.complete
            .relist(base, was.is_complete(), now.is_complete());
    }
}
