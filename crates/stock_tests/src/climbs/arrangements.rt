//! A stock, what two CPUs keep of it, and how all are made and end.
ghost use Rattle.std.specs.Prelude.{◌≡◌, ℕ, ◌<◌, ◌≤◌, [], ◌∷◌, length, map, slice_get, Some};
ghost use Rattle.std.specs.Prelude.{IsTrue};
ghost use Rattle.arena_tree.specs.declared.trees.TreeArena.{TreeArena};
ghost use Rattle.arena_tree.specs.Trees.{nodes_of};
ghost use Rattle.stock.specs.Spaces.{SpaceState, plans_of};
ghost use Rattle.local_parts.specs.States.{tree_of};

use arena_tree::{NewChild, NewRoot, Setting, Setup, Tree, TreeArena};
use deed_core::{Deed, PlainDeed, Range, Segment};
use lease_terms::ArenaName;
use local_parts::CpuCaches;
use std::alloc::Global;
use std::process::Abort;
use stock::{Stock, plain_stock};
use tag_arena::Policy;

/// A tree, its stock with two CPUs' caches, and the segments that are out.
pub(super) struct Walk<D: Deed> {
    pub(super) alloc: Global,
    pub(super) tree: Tree,
    pub(super) stock: Stock<D>,
    /// Those of the CPU that calls.
    pub(super) cpu: CpuCaches<D>,
    /// Those of the other one.
    pub(super) other: CpuCaches<D>,
    pub(super) held: Vec<Segment<D>>,
    /// The locked steps of the last call.
    pub(super) steps: u64,
}

fn name(rt: &impl Abort, text: &str) -> ArenaName {
    match ArenaName::new(text.as_bytes()) {
        Some(name) => name,
        None => panic!(rt; "no name"),
    }
}

/// A root from 0 on.
pub(super) fn root(
    rt: &impl Abort,
    text: &str,
    len: u64,
    quantum: u64,
    policy: Policy,
    qcache_max: u64,
) -> Setting {
    Setting::Root(NewRoot {
        name: name(rt, text),
        base: 0,
        len,
        quantum,
        policy,
        qcache_max,
    })
}

/// A child with no cache, which carves by the best rule.
pub(super) fn child(
    rt: &impl Abort,
    text: &str,
    source: &str,
    quantum: u64,
    import_min: u64,
) -> Setting {
    caching_child(rt, text, source, quantum, 0, import_min)
}

/// A child that caches sizes up to this one.
pub(super) fn caching_child(
    rt: &impl Abort,
    text: &str,
    source: &str,
    quantum: u64,
    qcache_max: u64,
    import_min: u64,
) -> Setting {
    Setting::Child(NewChild {
        name: name(rt, text),
        source: name(rt, source),
        quantum,
        policy: Policy::Best,
        qcache_max,
        import_min,
    })
}

/// Adds what is asked for, which nothing speaks against.
pub(super) fn set(rt: &impl Abort, setup: &mut Setup, setting: Setting) {
    assert_eq!(rt; setup.add(&setting), Ok(()));
}

/// Whether the arena at the index is the tree's.
fn is_alike<D: Deed>(stock: &Stock<D>, tree: &Tree, index: usize) -> bool
    requires stock { index < length stock.now }
    requires tree { index < length tree.now }
    ensures { IsTrue result → (s : SpaceState) (x : TreeArena)
        → slice_get stock.now index ≡ Some s → slice_get tree.now index ≡ Some x
        → (x.source ≡ s.source) × (x.quantum ≡ s.arena.quantum) }
{
    // For its clause: a tree has at most `MOST_ARENAS` arenas.
    let _ = tree.len();
    let arena = tree.arena(index as u32);
    stock.source(index) == arena.source && stock.quantum(index) == arena.quantum
}

/// Whether the arenas below the index are.
fn are_alike<D: Deed>(stock: &Stock<D>, tree: &Tree, end: usize) -> bool
    requires stock { length stock.now ≡ length tree.now }
    requires tree { end ≤ length tree.now }
    ensures { IsTrue result → (k : ℕ) (s : SpaceState) (x : TreeArena) → k < end
        → slice_get stock.now k ≡ Some s → slice_get tree.now k ≡ Some x
        → (x.source ≡ s.source) × (x.quantum ≡ s.arena.quantum) }
{
    if end == 0 {
        return true;
    }
    is_alike(stock, tree, end - 1) && are_alike(stock, tree, end - 1)
}

/// Whether the stock has the arenas of the tree.
#[tactic(auto, using(crate::proofs::ClimbTrees::same_nodes))]
pub(super) fn is_set_up_as<D: Deed>(stock: &Stock<D>, tree: &Tree) -> bool
    ensures { IsTrue result
        → tree_of (plans_of stock.now) tree.now ≡ nodes_of tree.now }
{
    stock.count() == tree.len() && are_alike(stock, tree, tree.len())
}

/// The range of a setup's only span.
#[tactic(auto, using(crate::proofs::ClimbTrees::one_range))]
pub(super) fn only_range(rt: &impl Abort, setup: &Setup) -> Range
    ensures { map (λ o. o.range) setup.now.spans ≡ result ∷ [] }
{
    let spans = setup.spans();
    assert!(rt; spans.len() == 1);
    spans[0].range
}

/// The stock of a setup with one span, of which this is the deed.
fn stock_of<D: Deed>(rt: &impl Abort, alloc: Global, setup: &Setup, deed: D) -> Stock<D>
    requires { map (λ o. o.range) setup.now.spans ≡ (D.holding deed).range ∷ [] }
{
    let mut deeds = Vec::with_capacity(alloc, 1).expect(rt, "room");
    deeds.push_reserved(deed);
    match Stock::of(alloc, setup, 3, deeds) {
        Ok(stock) => stock,
        Err(_) => panic!(rt; "a stock"),
    }
}

/// A new CPU.
fn cpu_of<D: Deed>(rt: &impl Abort, alloc: Global, stock: &Stock<D>) -> CpuCaches<D> {
    match CpuCaches::new(alloc, stock, 3) {
        Ok(cpu) => cpu,
        Err(_) => panic!(rt; "a CPU"),
    }
}

/// A stock for the setup, over plain deeds, and two CPUs.
pub(super) fn begin(rt: &impl Abort, alloc: Global, setup: Setup) -> Walk<PlainDeed> {
    let stock = plain_stock(alloc, &setup, 3).expect(rt, "a stock");
    arranged(rt, alloc, setup.into_tree(), stock)
}

/// A stock for the setup, which has one span, of which this is the deed, and two CPUs.
pub(super) fn begin_with<D: Deed>(rt: &impl Abort, alloc: Global, setup: Setup, deed: D) -> Walk<D>
    requires { map (λ o. o.range) setup.spans ≡ (D.holding deed).range ∷ [] }
{
    let stock = stock_of(rt, alloc, &setup, deed);
    arranged(rt, alloc, setup.into_tree(), stock)
}

fn arranged<D: Deed>(rt: &impl Abort, alloc: Global, tree: Tree, stock: Stock<D>) -> Walk<D> {
    let cpu = cpu_of(rt, alloc, &stock);
    let other = cpu_of(rt, alloc, &stock);
    Walk {
        alloc,
        tree,
        stock,
        cpu,
        other,
        held: Vec::new(alloc),
        steps: 0,
    }
}

fn close<D: Deed>(rt: &impl Abort, cpu: CpuCaches<D>) {
    match cpu.close() {
        Ok(()) => {}
        Err(_) => panic!(rt; "a round of the CPU"),
    }
}

/// Ends all but the stock; nothing is held.
fn end_cpus<D: Deed>(rt: &impl Abort, walk: Walk<D>) -> Stock<D> {
    let Walk {
        alloc: _,
        tree: _,
        stock,
        cpu,
        other,
        held,
        steps: _,
    } = walk;
    assert!(rt; held.is_empty());
    held.destroy_empty();
    close(rt, cpu);
    close(rt, other);
    stock
}

/// Ends a stock that has no deed.
fn close_stock<D: Deed>(rt: &impl Abort, stock: Stock<D>) {
    match stock.close() {
        Ok(()) => {}
        Err(_) => panic!(rt; "a deed is left"),
    }
}

/// Ends what is left: the first arena's deed, and nothing else.
pub(super) fn end<D: Deed>(rt: &impl Abort, walk: Walk<D>) -> D {
    let mut stock = end_cpus(rt, walk);
    assert!(rt; stock.count() > 0);
    let root = stock.remove_owned(0).expect(rt, "a root");
    close_stock(rt, stock);
    root
}

/// Ends what is left: the first arena's deeds of these roots, each with its base and its length.
pub(super) fn end_all(rt: &impl Abort, walk: Walk<PlainDeed>, roots: &[(u32, u64, u64)]) {
    let mut stock = end_cpus(rt, walk);
    for (root, base, len) in roots {
        assert!(rt; stock.count() > 0);
        let deed = stock.remove_owned(0).expect(rt, "a root");
        assert_eq!(rt; deed.root(), *root);
        let range = deed.close();
        assert_eq!(rt; range.base(), *base);
        assert_eq!(rt; range.len(), *len);
    }
    close_stock(rt, stock);
}
