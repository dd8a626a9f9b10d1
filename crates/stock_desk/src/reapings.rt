//! What depots and slabs no longer need.
ghost use Rattle.std.specs.Prelude.{◌-◌, ◌^◌, List, [], None, Ok};
ghost use Rattle.deed_core.specs.Tag.{Tag};
ghost use Rattle.quantum_cache.specs.Reaps.{reap_plan};
ghost use Rattle.local_calls.specs.Runs.{IsLocalOf, IsAccountedWith, RunsTo};
ghost use Rattle.lease_book.specs.BookState.{BookState};
ghost use Rattle.stock_desk.specs.Operators.{IsReapedOnce, IsReapedSo};
ghost use Rattle.stock_desk.specs.Supplies.{picture_with, local_of};
ghost use Rattle.lease_machine.specs.Picture.{IsHeld};

use crate::supplies::Supply;
use arena_tree::Tree;
use deed_core::PlainDeed;
use local_parts::{CpuCaches, Local};
use quantum_cache::{Reaping, reap};
use std::alloc::Global;
use stock::Stock;

impl Supply {
    /// Puts the rounds that depots may let go into their slabs, and frees the slabs of which no
    /// chunk is out. It gives how many units these slabs had.
    pub(crate) fn reap(&mut self) -> u128
        requires held { (b : BookState) × IsHeld [] (picture_with b self.old) }
        ensures { (b : BookState) → IsHeld [] (picture_with b self.old)
            → IsReapedSo result (picture_with b self.old) (picture_with b self.new) }
    {
        let mut units: u128 = 0;
        'turns: loop {
            let reaping = self.reap_once();
            units += reaping.units;
            if reaping.left > 0 {
                return units;
            }
        }
    }

    /// Reaps until nothing is left to reap, or 2^64 - 1 looks were taken.
    fn reap_once(&mut self) -> Reaping
        requires held { (b : BookState) × IsHeld [] (picture_with b self.old) }
        ensures { (b : BookState) → IsHeld [] (picture_with b self.old)
            → IsReapedOnce result (picture_with b self.old) (picture_with b self.new) }
    {
        let index = self.selected_index();
        let cpu = &mut self.cpus[index];
        reap_with(self.alloc, &self.tree, &mut self.stock, &mut cpu.caches)
    }
}

/// Reaps all caches of all arenas over these parts, by at most 2^64 - 1 looks.
fn reap_with(
    alloc: Global,
    tree: &Tree,
    stock: &mut Stock<PlainDeed>,
    cpu: &mut CpuCaches<PlainDeed>,
) -> Reaping
    requires local { IsLocalOf tree.now (local_of stock.old cpu.old) }
    requires out { (others : List Tag)
        × IsAccountedWith (local_of stock.old cpu.old) None others }
    ensures ran { RunsTo tree.now (reap_plan tree.now (2 ^ 64 - 1))
        (local_of stock.old cpu.old) (local_of stock.new cpu.new) (Ok result) }
{
    let mut parts = Local {
        stock: &mut *stock,
        cpu: &mut *cpu,
        tree,
        alloc,
        steps: 0,
    };
    match reap(&mut parts, tree, u64::MAX) {
        Ok(reaping) => reaping,
        Err(_) => unreachable!(),
    }
}
