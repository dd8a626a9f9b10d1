//! Leases and CPUs that are ended: segments go back past all magazines, rounds into their slabs.
//! Nothing here takes memory.
ghost use Rattle.std.specs.Prelude.{◌≡◌, ◌<◌, ◌++◌, ℕ, List, [], ◌∷◌, All, length, Ok, None};
ghost use Rattle.deed_core.specs.Tag.{Tag};
ghost use Rattle.quantum_cache.specs.Drains.{drain_plan};
ghost use Rattle.stock.specs.Accounts.{Accounts};
ghost use Rattle.stock.specs.OwnCaches.{OwnCacheState};
ghost use Rattle.stock.specs.Setups.{plans_for};
ghost use Rattle.stock.specs.Spaces.{plans_of};
ghost use Rattle.local_parts.specs.Cpus.{IsCpuOf, HasNoRounds, cpu_rounds};
ghost use Rattle.lease_book.specs.BookState.{leased_segments};
ghost use Rattle.local_calls.specs.Runs.{IsLocalOf, IsAccountedWith, RunsTo};
ghost use Rattle.stock_desk.specs.Supplies.{local_of, rounds_of_all};

use crate::cpus::Cpu;
use arena_tree::Tree;
use deed_core::{PlainDeed, Segment};
use lease_book::Book;
use local_parts::{CpuCaches, Local};
use quantum_cache::drain;
use std::alloc::Global;
use stock::Stock;

/// Ends every lease, and frees its segment.
pub(crate) fn end_leases(stock: &mut Stock<PlainDeed>, book: &mut Book<PlainDeed>)
    requires { (others : List Tag) × Accounts stock.old (leased_segments book.old ++ others) }
    ensures none { leased_segments book.new ≡ [] }
    ensures out { (others : List Tag) → Accounts stock.old (leased_segments book.old ++ others)
        → Accounts stock.new others }
    ensures fixed { plans_of stock.new ≡ plans_of stock.old }
{
    while let Some((_, segment)) = book.take_lease() {
        put_home(stock, segment);
    }
}

/// Takes a segment back that is out.
fn put_home(stock: &mut Stock<PlainDeed>, segment: Segment<PlainDeed>)
    requires { (rest : List Tag) × Accounts stock.old (segment ∷ rest) }
    ensures out { (rest : List Tag) → Accounts stock.old (segment ∷ rest)
        → Accounts stock.new rest }
    ensures fixed { plans_of stock.new ≡ plans_of stock.old }
{
    match stock.put_back(segment) {
        Ok(()) => {}
        Err(_) => unreachable!(),
    }
}

/// Ends all CPUs.
pub(crate) fn empty_all(
    alloc: Global,
    tree: &Tree,
    stock: &mut Stock<PlainDeed>,
    mut cpus: Vec<Cpu>,
)
    requires setup { plans_of stock.old ≡ plans_for tree.now }
    requires of { All (λ c. IsCpuOf stock.old c.caches) cpus.items }
    requires out { Accounts stock.old (rounds_of_all cpus.items) }
    ensures out { Accounts stock.new [] }
{
    // For its clause: what is always so of a tree.
    let _ = tree.len();
    while let Some(cpu) = cpus.pop() {
        let Cpu { number: _, caches } = cpu;
        empty(alloc, tree, stock, caches);
    }
    cpus.destroy_empty();
}

/// Puts all rounds of a CPU into their slabs, and ends its caches.
pub(crate) fn empty(
    alloc: Global,
    tree: &Tree,
    stock: &mut Stock<PlainDeed>,
    mut caches: CpuCaches<PlainDeed>,
)
    requires local { IsLocalOf tree.now (local_of stock.old caches) }
    requires out { (others : List Tag) × Accounts stock.old (cpu_rounds caches ++ others) }
    ensures ran { (turns : ℕ) → length (cpu_rounds caches) < turns
        → (left : List (List OwnCacheState)) × RunsTo tree.now (drain_plan turns tree.now)
        (local_of stock.old caches) (local_of stock.new left) (Ok tt) }
    ensures out { (others : List Tag) → Accounts stock.old (cpu_rounds caches ++ others)
        → Accounts stock.new others }
    ensures fixed { plans_of stock.new ≡ plans_of stock.old }
{
    // For its clause: what is always so of a stock.
    let _ = stock.count();
    drain_with(alloc, tree, stock, &mut caches);
    match caches.close() {
        Ok(()) => {}
        Err(_) => unreachable!(),
    }
}

/// Puts all rounds of the CPU into their slabs.
fn drain_with(
    alloc: Global,
    tree: &Tree,
    stock: &mut Stock<PlainDeed>,
    cpu: &mut CpuCaches<PlainDeed>,
)
    requires local { IsLocalOf tree.now (local_of stock.old cpu.old) }
    requires out { (others : List Tag)
        × IsAccountedWith (local_of stock.old cpu.old) None others }
    ensures ran { (turns : ℕ) → length (cpu_rounds cpu.old) < turns
        → RunsTo tree.now (drain_plan turns tree.now)
        (local_of stock.old cpu.old) (local_of stock.new cpu.new) (Ok tt) }
    ensures empty { HasNoRounds cpu.new }
    ensures out { (others : List Tag) → Accounts stock.old (cpu_rounds cpu.old ++ others)
        → Accounts stock.new others }
    ensures fixed { plans_of stock.new ≡ plans_of stock.old }
{
    let mut parts = Local {
        stock: &mut *stock,
        cpu: &mut *cpu,
        tree,
        alloc,
        steps: 0,
    };
    match drain(&mut parts, tree) {
        Ok(()) => {}
        Err(_) => unreachable!(),
    }
}
