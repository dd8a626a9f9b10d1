//! The audits of two arenas, of which the second imports from the first, after a few events, with
//! numbers counted by hand: without caches, and with slabs, a gap and tails, and a CPU's magazines;
//! and what one thread's parts tell of the first.
ghost use Rattle.std.specs.Prelude.{List, [], ◌∷◌};
ghost use Rattle.std.specs.Option.{option_to_list};
ghost use Rattle.deed_core.specs.Tag.{Tag};
ghost use Rattle.stock.specs.Accounts.{Accounts, Frames};
ghost use Rattle.stock.specs.OwnCaches.{own_rounds};
ghost use Rattle.stock_audit.specs.Outside.{outside, segments_out};

use crate::stocks::{name, stock_of, two_arenas};
use arena_tree::{NewChild, NewRoot, Parts, Setting, Setup, Tree};
use deed_core::{Deed, PlainDeed, Request, Route, Segment};
use local_parts::{CpuCaches, Local};
use std::alloc::Global;
use std::process::Abort;
use std::slice::from_ref;
use stock::{OwnCache, Stock, SumsRoom, plain_stock};
use stock_audit::{ArenaSums, audit};
use tag_arena::Policy;

/// A root of 64 units, and a child of it, neither with caches.
fn begin(rt: &impl Abort, alloc: Global) -> Stock<PlainDeed>
    ensures balances { Accounts result [] }
{
    let mut setup = Setup::new(alloc);
    let root = NewRoot {
        name: name(rt, "root"),
        base: 0,
        len: 64,
        quantum: 1,
        policy: Policy::Best,
        qcache_max: 0,
    };
    let child = NewChild {
        name: name(rt, "child"),
        source: name(rt, "root"),
        quantum: 1,
        policy: Policy::Best,
        qcache_max: 0,
        import_min: 0,
    };
    setup.add(&Setting::Root(root)).expect(rt, "a root");
    setup.add(&Setting::Child(child)).expect(rt, "a child");
    plain_stock(alloc, &setup, 3).expect(rt, "a stock")
}

/// So many units of an arena.
fn carve(rt: &impl Abort, stock: &mut Stock<PlainDeed>, size: u64) -> Segment<PlainDeed>
    ensures frame { Frames stock.old [] stock.new (result ∷ []) }
{
    assert!(rt; stock.count() == 2);
    match stock.carve(0, &Request::plain(size)) {
        Ok(segment) => segment,
        Err(_) => panic!(rt; "a carve"),
    }
}

/// The first units of a span of the first arena that the second imports.
fn import(
    rt: &impl Abort,
    stock: &mut Stock<PlainDeed>,
    span: Segment<PlainDeed>,
    size: u64,
) -> Segment<PlainDeed>
    ensures frame { Frames stock.old (span ∷ []) stock.new (result ∷ []) }
{
    assert!(rt; stock.count() == 2);
    assert_eq!(rt; stock.source(1), Some(span.arena()));
    assert_eq!(rt; stock.quantum(1), 1);
    assert_eq!(rt; span.route(), Route::Direct);
    assert!(rt; size != 0 && size <= span.range().len());
    match stock.add_carve(1, span, &Request::plain(size)) {
        Ok(first) => first,
        Err(_) => panic!(rt; "an import"),
    }
}

/// A segment goes back, and the span that became whole comes out.
fn free(
    rt: &impl Abort,
    stock: &mut Stock<PlainDeed>,
    segment: Segment<PlainDeed>,
) -> Option<Segment<PlainDeed>>
    ensures frame { Frames stock.old (segment ∷ []) stock.new (option_to_list result) }
{
    match stock.free(segment) {
        Ok(back) => back,
        Err(_) => panic!(rt; "a free"),
    }
}

/// The sums of an arena with nothing in slabs and magazines.
fn sums(free: u128, exported: u128, leased: u128, hand: u128) -> ArenaSums {
    ArenaSums {
        free,
        slab: 0,
        magazine: 0,
        exported,
        leased,
        hand,
    }
}

/// The span of the first arena becomes a slab of chunks of five units.
fn slab_add(
    rt: &impl Abort,
    stock: &mut Stock<PlainDeed>,
    span: Segment<PlainDeed>,
) -> Segment<PlainDeed>
    ensures frame { Frames stock.old (span ∷ []) stock.new (result ∷ []) }
{
    let index = stock.cache_at(0, 5).expect(rt, "a cache");
    assert_eq!(rt; span.arena(), 0);
    assert_eq!(rt; span.route(), Route::Direct);
    assert_eq!(rt; stock.quantum(0), 1);
    match stock.slab_add(0, index, span) {
        Ok(first) => first,
        Err(_) => panic!(rt; "a slab"),
    }
}

/// A chunk becomes a round of a CPU.
#[tactic(auto, using(stock::proofs::LawProofs::pushes))]
fn push(
    rt: &impl Abort,
    stock: &Stock<PlainDeed>,
    cpu: &mut OwnCache<PlainDeed>,
    chunk: Segment<PlainDeed>,
)
    ensures frame { Frames stock.now (chunk ∷ own_rounds cpu.old) stock.now (own_rounds cpu.new) }
{
    assert!(rt; cpu.takes(&chunk));
    match cpu.push(chunk) {
        Ok(()) => {}
        Err(_) => panic!(rt; "a push"),
    }
}

/// A chunk goes home.
fn put(rt: &impl Abort, stock: &mut Stock<PlainDeed>, chunk: Segment<PlainDeed>) {
    match stock.slab_put(chunk) {
        Ok(()) => {}
        Err(_) => panic!(rt; "a put"),
    }
}

/// The sums of both arenas are these.
fn tells(
    rt: &impl Abort,
    stock: &Stock<PlainDeed>,
    hand: &[Segment<PlainDeed>],
    leases: &[Segment<PlainDeed>],
    first: ArenaSums,
    second: ArenaSums,
)
    requires balances { Accounts stock.now (segments_out (outside hand.now leases.now [])) }
{
    assert!(rt; stock.count() == 2);
    assert_eq!(rt; audit(stock, 0, hand, leases, &[]), first);
    assert_eq!(rt; audit(stock, 1, hand, leases, &[]), second);
}

/// Ends what is left: nothing.
fn end(rt: &impl Abort, mut stock: Stock<PlainDeed>) {
    assert!(rt; stock.count() == 2);
    let deed = stock.remove_owned(0).expect(rt, "a root");
    assert_eq!(rt; deed.close().len(), 64);
    match stock.close() {
        Ok(()) => {}
        Err(_) => panic!(rt; "a deed is left"),
    }
}

#[test]
fn sums_of_a_chain(rt: HostRuntime) {
    let mut stock = begin(&rt, rt.alloc());
    tells(&rt, &stock, &[], &[], sums(64, 0, 0, 0), sums(0, 0, 0, 0));
    let span = carve(&rt, &mut stock, 16);
    let first = import(&rt, &mut stock, span, 4);
    let out = [first];
    tells(
        &rt,
        &stock,
        &out,
        &[],
        sums(48, 16, 0, 0),
        sums(12, 0, 0, 4),
    );
    tells(
        &rt,
        &stock,
        &[],
        &out,
        sums(48, 16, 0, 0),
        sums(12, 0, 4, 0),
    );
    let [first] = out;
    let span = free(&rt, &mut stock, first).expect(&rt, "a whole span");
    let out = [span];
    tells(&rt, &stock, &out, &[], sums(48, 0, 0, 16), sums(0, 0, 0, 0));
    let [span] = out;
    match free(&rt, &mut stock, span) {
        None => {}
        Some(_) => panic!(rt; "a span"),
    }
    tells(&rt, &stock, &[], &[], sums(64, 0, 0, 0), sums(0, 0, 0, 0));
    end(&rt, stock);
}

/// The sums of the first arena are these, in the order free, slab, magazine, exported, leased,
/// hand.
fn audits(
    rt: &impl Abort,
    stock: &Stock<PlainDeed>,
    hand: &[Segment<PlainDeed>],
    leases: &[Segment<PlainDeed>],
    cpu: &OwnCache<PlainDeed>,
    sums: [u128; 6],
)
    requires balances { Accounts stock.now
        (segments_out (outside hand.now leases.now (cpu.now ∷ []))) }
{
    assert!(rt; stock.count() == 2);
    let told = audit(stock, 0, hand, leases, from_ref(cpu));
    let [free, slab, magazine, exported, leased, hand] = sums;
    assert_eq!(rt; told.free, free);
    assert_eq!(rt; told.slab, slab);
    assert_eq!(rt; told.magazine, magazine);
    assert_eq!(rt; told.exported, exported);
    assert_eq!(rt; told.leased, leased);
    assert_eq!(rt; told.hand, hand);
}

/// All goes home: the caches are reaped, and the root is taken out.
fn end_reaped(rt: &impl Abort, mut stock: Stock<PlainDeed>) {
    match stock.reap_all() {
        Ok(()) => {}
        Err(_) => panic!(rt; "a reaping"),
    }
    assert!(rt; stock.count() == 2);
    let deed = stock.remove_owned(0).expect(rt, "a root");
    assert_eq!(rt; deed.close().len(), 128);
    match stock.close() {
        Ok(()) => {}
        Err(_) => panic!(rt; "a deed is left"),
    }
}

/// Of each of two slabs of 16 units the first chunk is out: one in a CPU, one leased. The first
/// slab has a tail of one unit, the second a gap; what is left of both are two chunks and that
/// unit.
#[test]
fn sums_with_caches(rt: HostRuntime) {
    let setup = two_arenas(&rt, rt.alloc());
    let mut stock = stock_of(&rt, rt.alloc(), &setup);
    let mut cpu = match OwnCache::new(rt.alloc(), 0, 4, 1, 3) {
        Ok(cpu) => cpu,
        Err(_) => panic!(rt; "a cache of a CPU"),
    };
    let span = carve(&rt, &mut stock, 16);
    let chunk = slab_add(&rt, &mut stock, span);
    push(&rt, &stock, &mut cpu, chunk);
    audits(&rt, &stock, &[], &[], &cpu, [112, 11, 5, 0, 0, 0]);
    let span = carve(&rt, &mut stock, 16);
    let lease = slab_add(&rt, &mut stock, span);
    audits(
        &rt,
        &stock,
        &[],
        from_ref(&lease),
        &cpu,
        [96, 22, 5, 0, 5, 0],
    );
    let span = carve(&rt, &mut stock, 16);
    let first = import(&rt, &mut stock, span, 4);
    audits(
        &rt,
        &stock,
        from_ref(&first),
        from_ref(&lease),
        &cpu,
        [80, 22, 5, 16, 5, 0],
    );
    let span = free(&rt, &mut stock, first).expect(&rt, "a whole span");
    audits(
        &rt,
        &stock,
        from_ref(&span),
        from_ref(&lease),
        &cpu,
        [80, 22, 5, 0, 5, 16],
    );
    match free(&rt, &mut stock, span) {
        None => {}
        Some(_) => panic!(rt; "a span"),
    }
    put(&rt, &mut stock, lease);
    let round = cpu.pop().expect(&rt, "a round");
    put(&rt, &mut stock, round);
    match cpu.close() {
        Ok(()) => {}
        Err(_) => panic!(rt; "a round of a CPU"),
    }
    end_reaped(&rt, stock);
}

/// One thread's parts tell these sums of the first arena, by counts and by parts, and of the second
/// that it has nothing.
fn parts_tell(rt: &impl Abort, parts: &Local<PlainDeed>, first: ArenaSums)
    requires balances { (out : List Tag) × Accounts parts.now.stock.now out }
{
    assert!(rt; parts.stock.count() == 2);
    let mut room = SumsRoom::new();
    let told = parts.sums(&mut room);
    assert_eq!(rt; told.len(), 2);
    assert_eq!(rt; told[0], first);
    assert_eq!(rt; told[1], sums(0, 0, 0, 0));
    assert_eq!(rt; parts.audit_by_parts(0), first);
}

/// What is out counts as leased.
fn leased_told(
    rt: &impl Abort,
    stock: &mut Stock<PlainDeed>,
    tree: &Tree,
    alloc: Global,
    out: &Segment<PlainDeed>,
    free: u128,
)
    requires balances { Accounts stock.old (out.now ∷ []) }
{
    let Ok(mut cpu) = CpuCaches::new(alloc, stock, 3) else {
        panic!(rt; "a CPU")
    };
    let leased = u128::from(out.range().len());
    let parts = Local {
        stock,
        cpu: &mut cpu,
        tree,
        alloc,
        steps: 0,
    };
    parts_tell(rt, &parts, sums(free, 0, leased, 0));
    match cpu.close() {
        Ok(()) => {}
        Err(_) => panic!(rt; "a round"),
    }
}

#[test]
fn sums_of_one_threads_parts(rt: HostRuntime) {
    let setup = two_arenas(&rt, rt.alloc());
    let mut stock = stock_of(&rt, rt.alloc(), &setup);
    let span = carve(&rt, &mut stock, 16);
    leased_told(&rt, &mut stock, setup.tree(), rt.alloc(), &span, 112);
    match free(&rt, &mut stock, span) {
        None => {}
        Some(_) => panic!(rt; "a span"),
    }
    end_reaped(&rt, stock);
}

/// So does a round of the CPU: five units of a slab of sixteen, of which the others lie in the
/// slab. It goes home at last.
fn round_told(
    rt: &impl Abort,
    stock: &mut Stock<PlainDeed>,
    tree: &Tree,
    alloc: Global,
    chunk: Segment<PlainDeed>,
)
    requires balances { Accounts stock.old (chunk ∷ []) }
{
    let Ok(mut cpu) = CpuCaches::new(alloc, stock, 3) else {
        panic!(rt; "a CPU")
    };
    let mut parts = Local {
        stock,
        cpu: &mut cpu,
        tree,
        alloc,
        steps: 0,
    };
    match parts.push(0, 5, chunk) {
        Ok(()) => {}
        Err(_) => panic!(rt; "a push"),
    }
    let told = ArenaSums {
        free: 112,
        slab: 11,
        magazine: 0,
        exported: 0,
        leased: 5,
        hand: 0,
    };
    parts_tell(rt, &parts, told);
    assert_eq!(rt; parts.cpu.units(0), 5);
    match parts.pop(0, 5) {
        Ok(Some(round)) => put(rt, parts.stock, round),
        _ => panic!(rt; "a pop"),
    }
    match cpu.close() {
        Ok(()) => {}
        Err(_) => panic!(rt; "a round"),
    }
}

#[test]
fn sums_of_parts_with_a_round(rt: HostRuntime) {
    let setup = two_arenas(&rt, rt.alloc());
    let mut stock = stock_of(&rt, rt.alloc(), &setup);
    let span = carve(&rt, &mut stock, 16);
    let chunk = slab_add(&rt, &mut stock, span);
    round_told(&rt, &mut stock, setup.tree(), rt.alloc(), chunk);
    end_reaped(&rt, stock);
}
