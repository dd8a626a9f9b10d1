//! Fifty-six events on a stock of two arenas, of which the second imports from the first and has
//! quantum caches, whose slabs have colour gaps and tails. After each the sums that an audit tells
//! are compared with numbers counted by hand.
ghost use Rattle.std.specs.Prelude.{[], ◌++◌};
ghost use Rattle.std.specs.Option.{option_to_list};
ghost use Rattle.deed_core.specs.Weights.{WeighSame};
ghost use Rattle.stock.specs.Accounts.{Accounts};
ghost use Rattle.stock_tests.specs.Walks.{Balances};

use crate::same_sums::same_sums;
use crate::stock_events::{Event, moved};
use arena_tree::{NewChild, NewRoot, Setting, Setup};
use deed_core::{PlainDeed, Segment};
use lease_terms::ArenaName;
use std::alloc::Global;
use std::process::Abort;
use std::slice::from_ref;
use stock::{OwnCache, Stock, plain_stock};
use stock_audit::audit;
use tag_arena::Policy;

/// The units of one arena: free, in slabs, in magazines, exported, leased, in the hand.
type Counts = [u128; 6];

const NONE: Counts = [0, 0, 0, 0, 0, 0];

/// The first arena while the second has its span.
const EXPORTED: Counts = [64, 0, 0, 64, 0, 0];

/// Each event, and the sums of both arenas after it. A slab of 16 units has three chunks of five
/// and a unit over: the first slab's is its tail, the second's its gap. Chunks of three leave one
/// too.
const SCRIPT: [(Event, Counts, Counts); 56] = [
    (Event::Carve(0, 64), [64, 0, 0, 0, 0, 64], NONE),
    (Event::Import(16), EXPORTED, [48, 0, 0, 0, 0, 16]),
    (Event::SlabAdd(5), EXPORTED, [48, 11, 0, 0, 0, 5]),
    (Event::Push, EXPORTED, [48, 11, 5, 0, 0, 0]),
    (Event::SlabTake(5), EXPORTED, [48, 6, 5, 0, 0, 5]),
    (Event::Push, EXPORTED, [48, 6, 10, 0, 0, 0]),
    (Event::SlabTake(5), EXPORTED, [48, 1, 10, 0, 0, 5]),
    (Event::Push, EXPORTED, [48, 1, 15, 0, 0, 0]),
    (Event::Carve(1, 16), EXPORTED, [32, 1, 15, 0, 0, 16]),
    (Event::SlabAdd(5), EXPORTED, [32, 12, 15, 0, 0, 5]),
    (Event::Push, EXPORTED, [32, 12, 20, 0, 0, 0]),
    (Event::SlabTake(5), EXPORTED, [32, 7, 20, 0, 0, 5]),
    (Event::Push, EXPORTED, [32, 7, 25, 0, 0, 0]),
    (Event::SlabTake(5), EXPORTED, [32, 2, 25, 0, 0, 5]),
    (Event::Push, EXPORTED, [32, 2, 30, 0, 0, 0]),
    (Event::SwapFresh, EXPORTED, [32, 2, 30, 0, 0, 0]),
    (Event::Pop, EXPORTED, [32, 2, 25, 0, 0, 5]),
    (Event::Lease, EXPORTED, [32, 2, 25, 0, 5, 0]),
    (Event::Pop, EXPORTED, [32, 2, 20, 0, 5, 5]),
    (Event::SlabPut, EXPORTED, [32, 7, 20, 0, 5, 0]),
    (Event::Pop, EXPORTED, [32, 7, 15, 0, 5, 5]),
    (Event::SlabPut, EXPORTED, [32, 12, 15, 0, 5, 0]),
    (Event::SwapFull, EXPORTED, [32, 12, 15, 0, 5, 0]),
    (Event::SlabTake(5), EXPORTED, [32, 7, 15, 0, 5, 5]),
    (Event::Push, EXPORTED, [32, 7, 20, 0, 5, 0]),
    (Event::SlabTake(5), EXPORTED, [32, 2, 20, 0, 5, 5]),
    (Event::Push, EXPORTED, [32, 2, 25, 0, 5, 0]),
    (Event::Release, EXPORTED, [32, 2, 25, 0, 0, 5]),
    (Event::Push, EXPORTED, [32, 2, 30, 0, 0, 0]),
    (Event::SwapEmpty, EXPORTED, [32, 2, 30, 0, 0, 0]),
    (Event::Resize, EXPORTED, [32, 2, 30, 0, 0, 0]),
    (Event::Change, EXPORTED, [32, 2, 30, 0, 0, 0]),
    (Event::Carve(1, 16), EXPORTED, [16, 2, 30, 0, 0, 16]),
    (Event::SlabAdd(3), EXPORTED, [16, 15, 30, 0, 0, 3]),
    (Event::SlabPut, EXPORTED, [16, 18, 30, 0, 0, 0]),
    (Event::SlabReap(3), EXPORTED, [16, 2, 30, 0, 0, 16]),
    (Event::Free, EXPORTED, [32, 2, 30, 0, 0, 0]),
    (Event::Tick, EXPORTED, [32, 2, 30, 0, 0, 0]),
    (Event::DepotReap, EXPORTED, [32, 2, 25, 0, 0, 5]),
    (Event::SlabPut, EXPORTED, [32, 7, 25, 0, 0, 0]),
    (Event::DepotReap, EXPORTED, [32, 7, 20, 0, 0, 5]),
    (Event::SlabPut, EXPORTED, [32, 12, 20, 0, 0, 0]),
    (Event::DepotReap, EXPORTED, [32, 12, 15, 0, 0, 5]),
    (Event::SlabPut, EXPORTED, [32, 17, 15, 0, 0, 0]),
    (Event::Pop, EXPORTED, [32, 17, 10, 0, 0, 5]),
    (Event::SlabPut, EXPORTED, [32, 22, 10, 0, 0, 0]),
    (Event::Pop, EXPORTED, [32, 22, 5, 0, 0, 5]),
    (Event::SlabPut, EXPORTED, [32, 27, 5, 0, 0, 0]),
    (Event::Pop, EXPORTED, [32, 27, 0, 0, 0, 5]),
    (Event::SlabPut, EXPORTED, [32, 32, 0, 0, 0, 0]),
    (Event::SlabReap(5), EXPORTED, [32, 16, 0, 0, 0, 16]),
    (Event::Free, EXPORTED, [48, 16, 0, 0, 0, 0]),
    (Event::SlabReap(5), EXPORTED, [48, 0, 0, 0, 0, 16]),
    (Event::Free, [64, 0, 0, 0, 0, 64], NONE),
    (Event::Free, [128, 0, 0, 0, 0, 0], NONE),
    (Event::Remove, NONE, NONE),
];

/// A stock, and what is out of it.
struct Walk {
    alloc: Global,
    stock: Stock<PlainDeed>,
    cpu: OwnCache<PlainDeed>,
    hand: Vec<Segment<PlainDeed>>,
    leases: Vec<Segment<PlainDeed>>,
}

pub(crate) fn name(rt: &impl Abort, text: &str) -> ArenaName {
    ArenaName::new(text.as_bytes()).expect(rt, "a name")
}

/// A root of 128 units, and a child of it. Both cache sizes of one to five units, by slabs of 16.
pub(crate) fn two_arenas(rt: &impl Abort, alloc: Global) -> Setup {
    let mut setup = Setup::new(alloc);
    let root = NewRoot {
        name: name(rt, "root"),
        base: 0,
        len: 128,
        quantum: 1,
        policy: Policy::Best,
        qcache_max: 5,
    };
    let child = NewChild {
        name: name(rt, "child"),
        source: name(rt, "root"),
        quantum: 1,
        policy: Policy::Best,
        qcache_max: 5,
        import_min: 0,
    };
    setup.add(&Setting::Root(root)).expect(rt, "a root");
    setup.add(&Setting::Child(child)).expect(rt, "a child");
    setup
}

/// A stock of them, with the root's span.
pub(crate) fn stock_of(rt: &impl Abort, alloc: Global, setup: &Setup) -> Stock<PlainDeed>
    ensures balances { Accounts result [] }
{
    plain_stock(alloc, setup, 3).expect(rt, "a stock")
}

/// The stock, and a CPU with chunks of five units.
fn begin(rt: &impl Abort, alloc: Global) -> Walk
    ensures { Balances result.stock result.hand.items result.leases.items result.cpu }
{
    let setup = two_arenas(rt, alloc);
    let stock = stock_of(rt, alloc, &setup);
    let cpu = match OwnCache::new(alloc, 1, 4, 1, 3) {
        Ok(cpu) => cpu,
        Err(_) => panic!(rt; "a cache of a CPU"),
    };
    Walk {
        alloc,
        stock,
        cpu,
        hand: Vec::new(alloc),
        leases: Vec::new(alloc),
    }
}

/// What the event takes out of the hand, if it takes anything.
fn taken(
    rt: &impl Abort,
    hand: &mut Vec<Segment<PlainDeed>>,
    event: Event,
) -> Option<Segment<PlainDeed>>
    ensures { WeighSame hand.old.items (option_to_list result ++ hand.new.items) }
{
    if !event.takes() {
        return None;
    }
    let segment = hand.pop().expect(rt, "a segment in the hand");
    Some(segment)
}

/// What was answered goes into the hand.
fn keep(rt: &impl Abort, hand: &mut Vec<Segment<PlainDeed>>, answer: Option<Segment<PlainDeed>>)
    ensures { WeighSame (option_to_list answer ++ hand.old.items) hand.new.items }
{
    let Some(segment) = answer else {
        return;
    };
    match hand.push(segment) {
        Ok(()) => {}
        Err(_) => panic!(rt; "memory"),
    }
}

/// The last of the one goes over to the other.
fn pass(rt: &impl Abort, from: &mut Vec<Segment<PlainDeed>>, to: &mut Vec<Segment<PlainDeed>>)
    ensures { WeighSame (from.old.items ++ to.old.items) (from.new.items ++ to.new.items) }
{
    let segment = from.pop().expect(rt, "a segment");
    match to.push(segment) {
        Ok(()) => {}
        Err(_) => panic!(rt; "memory"),
    }
}

/// An event that is no change of leases.
fn run(rt: &impl Abort, walk: &mut Walk, event: Event)
    requires { Balances walk.old.stock walk.old.hand.items walk.old.leases.items walk.old.cpu }
    ensures { Balances walk.new.stock walk.new.hand.items walk.new.leases.items walk.new.cpu }
{
    let given = taken(rt, &mut walk.hand, event);
    let answer = moved(rt, walk.alloc, &mut walk.stock, &mut walk.cpu, event, given);
    keep(rt, &mut walk.hand, answer);
}

/// An event.
fn step(rt: &impl Abort, walk: &mut Walk, event: Event)
    requires { Balances walk.old.stock walk.old.hand.items walk.old.leases.items walk.old.cpu }
    ensures { Balances walk.new.stock walk.new.hand.items walk.new.leases.items walk.new.cpu }
{
    match event {
        Event::Lease => pass(rt, &mut walk.hand, &mut walk.leases),
        Event::Release => pass(rt, &mut walk.leases, &mut walk.hand),
        _ => run(rt, walk, event),
    }
}

/// An audit of the arena tells these sums.
fn tells(rt: &impl Abort, walk: &Walk, arena: usize, counts: Counts)
    requires { Balances walk.now.stock walk.now.hand.items walk.now.leases.items walk.now.cpu }
{
    assert!(rt; arena < walk.stock.count());
    let told = audit(
        &walk.stock,
        arena,
        &walk.hand,
        &walk.leases,
        from_ref(&walk.cpu),
    );
    let [free, slab, magazine, exported, leased, hand] = counts;
    assert_eq!(rt; told.free, free);
    assert_eq!(rt; told.slab, slab);
    assert_eq!(rt; told.magazine, magazine);
    assert_eq!(rt; told.exported, exported);
    assert_eq!(rt; told.leased, leased);
    assert_eq!(rt; told.hand, hand);
    same_sums(rt, &walk.stock, arena, &walk.cpu, told);
}

/// Ends what is left: nothing.
fn end(rt: &impl Abort, walk: Walk) {
    let Walk {
        alloc: _,
        stock,
        cpu,
        hand,
        leases,
    } = walk;
    assert!(rt; hand.is_empty() && leases.is_empty());
    hand.destroy_empty();
    leases.destroy_empty();
    match cpu.close() {
        Ok(()) => {}
        Err(_) => panic!(rt; "a round of a CPU"),
    }
    match stock.close() {
        Ok(()) => {}
        Err(_) => panic!(rt; "a deed is left"),
    }
}

#[test]
fn fifty_six_events(rt: HostRuntime) {
    let mut walk = begin(&rt, rt.alloc());
    for (event, first, second) in SCRIPT {
        step(&rt, &mut walk, event);
        tells(&rt, &walk, 0, first);
        tells(&rt, &walk, 1, second);
    }
    end(&rt, walk);
}
