//! What the slabs of a cache hold, together.
ghost use Rattle.std.specs.Prelude.{◌≡◌, ◌+◌, ◌^◌, ◌≤◌, ◌↔◌, [], All, IsTrue};
ghost use Rattle.slab_layer.specs.Slab.{deeds_in};
ghost use Rattle.slab_layer.specs.Sums.{idle_in, gap_in, tail_in};

use crate::slabs::Slab;
use deed_core::Deed;
use std::collections::VecDeque;

/// What lies in a cache, in units: the idle chunks, the colour gaps and the tails.
#[derive(Clone, Copy, PartialEq, Eq, Debug)]
pub struct SlabReport {
    /// In chunks at home.
    pub idle: u64,
    /// Before the first chunks.
    pub gap: u64,
    /// Behind the last chunks.
    pub tail: u64,
}

impl SlabReport {
    /// What lies in one more slab comes to it.
    pub(crate) fn add<D: Deed>(&mut self, slab: &Slab<D>)
        requires idle { self.old.idle + idle_in slab.now ≤ 2 ^ 62 }
        requires gap { self.old.gap + gap_in slab.now ≤ 2 ^ 62 }
        requires tail { self.old.tail + tail_in slab.now ≤ 2 ^ 62 }
        ensures idle { self.new.idle ≡ self.old.idle + idle_in slab.now }
        ensures gap { self.new.gap ≡ self.old.gap + gap_in slab.now }
        ensures tail { self.new.tail ≡ self.old.tail + tail_in slab.now }
    {
        self.idle += slab.idle();
        self.gap += slab.gap();
        self.tail += slab.tail();
    }

    /// What lies in a slab goes from it.
    pub(crate) fn subtract<D: Deed>(&mut self, slab: &Slab<D>)
        requires idle { idle_in slab.now ≤ self.old.idle }
        requires gap { gap_in slab.now ≤ self.old.gap }
        requires tail { tail_in slab.now ≤ self.old.tail }
        ensures idle { self.new.idle + idle_in slab.now ≡ self.old.idle }
        ensures gap { self.new.gap + gap_in slab.now ≡ self.old.gap }
        ensures tail { self.new.tail + tail_in slab.now ≡ self.old.tail }
    {
        self.idle -= slab.idle();
        self.gap -= slab.gap();
        self.tail -= slab.tail();
    }
}

/// Whether no deed lies in any slab.
pub(crate) fn are_empty<D: Deed>(slabs: &VecDeque<Slab<D>>) -> bool
    ensures { IsTrue result ↔ All (λ s. deeds_in s ≡ []) slabs.now.items }
{
    for i in 0..slabs.len() {
        if !slabs[i].is_empty() {
            return false;
        }
    }
    true
}

/// Ends slabs in which no deed lies.
pub(crate) fn discard_all<D: Deed>(slabs: VecDeque<Slab<D>>)
    requires { All (λ s. deeds_in s ≡ []) slabs.items }
{
    let mut slabs = slabs;
    while let Some(slab) = slabs.pop_back() {
        slab.discard();
    }
    slabs.destroy_empty();
}
