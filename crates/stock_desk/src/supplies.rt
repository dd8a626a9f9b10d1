//! What segments come from and go back to: a stock, the names of its arenas, and the CPUs.
ghost use Rattle.std.specs.Prelude.{◌≡◌, ◌≢◌, ◌<◌, length, position, Some, None};
ghost use Rattle.std.specs.List.{find};
ghost use Rattle.lease_machine.specs.Picture.{is_cpu};

use crate::cpus::{Cpu, index_of};
use arena_tree::Tree;
use deed_core::PlainDeed;
use lease_proto::CpuNumber;
use std::alloc::Global;
use std::marker::Model;
use stock::Stock;

/// A stock with the names and sizes of its arenas, and the CPUs that were made, one of which is
/// selected. It is never copied or dropped.
pub(crate) struct Supply {
    pub alloc: Global,
    pub tree: Tree,
    pub stock: Stock<PlainDeed>,
    pub cpus: Vec<Cpu>,
    pub selected: CpuNumber,
}

impl Model for Supply {
    ghost use Rattle.std.specs.Coded.{codes, coded_ℕ};
    ghost use Rattle.std.specs.Ordering.{nat_cmp};
    ghost use Rattle.std.specs.FinMap as finmap;
    ghost use Rattle.deed_core.specs.Holding.{Holding};
    ghost use Rattle.stock_desk.specs.Supplies.{SupplyState};

    ghost Value = { SupplyState };

    ghost coded = { Prim.hlevel
        (codes, finmap.code {X = Holding} {R = nat_cmp} coded_ℕ (Prim.hlevel codes)) };

    ghost view = { λ s. record {
      tree = s.tree;
      spaces = s.stock;
      cpus = s.cpus.items;
      selected = s.selected;
    } };
}

impl Supply {
    /// Where the selected CPU stands.
    pub(crate) fn selected_index(&self) -> usize
        requires { find (is_cpu self.now.selected) self.now.cpus ≢ None }
        ensures index { position (is_cpu self.now.selected) self.now.cpus ≡ Some result }
        ensures within { result < length self.now.cpus }
    {
        match index_of(self.cpus.as_slice(), self.selected) {
            Some(index) => index,
            None => unreachable!(),
        }
    }
}
