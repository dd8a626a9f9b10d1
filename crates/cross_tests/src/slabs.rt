//! Rows of calls of a slab cache with what they must give, and what is refused.
ghost use Rattle.std.specs.Prelude.{◌≡◌, ◌%◌};

use deed_core::{Deed, PlainDeed, Range, Route, Segment};
use refusing_deed::RefusingDeed;
use slab_layer::{AddFault, PutFault, SlabCache, SlabReport};
use std::process::Abort;

/// A base and a length.
type Bounds = (u64, u64);

/// A call of a cache with what it must give.
#[derive(Clone, Copy)]
enum Call {
    Add(Bounds, Result<Bounds, Why>),
    Take(Option<Bounds>),
    /// A chunk by its route goes back.
    Put(u8, Bounds, Result<(), Why>),
    Reap(Option<Bounds>),
    /// The units of idle chunks, before the first chunks and behind the last.
    Report(SlabReport),
}

/// Why a call was refused.
#[derive(Clone, Copy, PartialEq, Eq, Debug)]
enum Why {
    WrongSize,
    Overlaps,
    NoMemory,
    NotMine,
    AtHome,
}

/// A deed as a span for the cache.
fn span_of<D: Deed>(rt: &impl Abort, cache: &SlabCache<D>, deed: D) -> Segment<D>
    ensures arena { result.arena ≡ cache.now.arena }
    ensures route { result.route ≡ Route.Direct }
    ensures grid { result.holding.range.base % cache.now.quantum ≡ 0 }
{
    let base = deed.range().base();
    assert!(rt; base.is_multiple_of(cache.quantum()));
    Segment::new(cache.arena(), Route::Direct, deed)
}

fn plain(rt: &impl Abort, base: u64, len: u64) -> PlainDeed {
    PlainDeed::new(0, Range::new(base, len).expect(rt, "a range"))
}

/// The base and the length of a segment, which ends here.
fn spend(segment: Segment<PlainDeed>) -> Bounds {
    let range = segment.into_deed().close();
    (range.base(), range.len())
}

/// What `add` gives for this span.
fn added(rt: &impl Abort, cache: &mut SlabCache<PlainDeed>, bounds: Bounds) -> Result<Bounds, Why> {
    let span = span_of(rt, cache, plain(rt, bounds.0, bounds.1));
    let (span, why) = match cache.add(span) {
        Ok(first) => return Ok(spend(first)),
        Err(AddFault::WrongSize(span)) => (span, Why::WrongSize),
        Err(AddFault::Overlaps(span)) => (span, Why::Overlaps),
        Err(AddFault::NoMemory(span)) => (span, Why::NoMemory),
    };
    assert_eq!(rt; spend(span), bounds);
    Err(why)
}

/// What `put` answers to a chunk.
fn put(
    rt: &impl Abort,
    cache: &mut SlabCache<PlainDeed>,
    k: u8,
    bounds: Bounds,
) -> Result<(), Why> {
    let deed = plain(rt, bounds.0, bounds.1);
    let chunk = Segment::new(cache.arena(), Route::Cached(k), deed);
    let (chunk, why) = match cache.put(chunk) {
        Ok(()) => return Ok(()),
        Err(PutFault::NotMine(chunk)) => (chunk, Why::NotMine),
        Err(PutFault::AtHome(chunk)) => (chunk, Why::AtHome),
    };
    assert_eq!(rt; spend(chunk), bounds);
    Err(why)
}

fn make_call(rt: &impl Abort, cache: &mut SlabCache<PlainDeed>, call: Call) {
    match call {
        Call::Add(bounds, wanted) => assert_eq!(rt; added(rt, cache, bounds), wanted),
        Call::Take(wanted) => assert_eq!(rt; cache.take().map(spend), wanted),
        Call::Put(k, bounds, wanted) => assert_eq!(rt; put(rt, cache, k, bounds), wanted),
        Call::Reap(wanted) => assert_eq!(rt; cache.reap().map(spend), wanted),
        Call::Report(wanted) => assert_eq!(rt; cache.report(), wanted),
    }
}

/// Ends a cache with nothing in it.
fn close<D: Deed>(rt: &impl Abort, cache: SlabCache<D>) {
    match cache.close() {
        Ok(()) => {}
        Err(_) => panic!(rt; "a deed lies in the cache"),
    }
}

/// Chunks of 5 in slabs of 16: the second slab begins one unit later. Of two slabs the lower one
/// goes, and then the other, once it has its chunks again.
#[test]
fn colours(rt: HostRuntime) {
    let mut cache: SlabCache<PlainDeed> = SlabCache::new(rt.alloc(), 7, 5, 1, 16);
    assert_eq!(rt; (cache.arena(), cache.k()), (7, 5));
    assert_eq!(rt; (cache.quantum(), cache.slab_size()), (1, 16));
    let one = SlabReport {
        idle: 10,
        gap: 0,
        tail: 1,
    };
    let calls = [
        Call::Add((0, 16), Ok((0, 5))),
        Call::Report(one),
        Call::Take(Some((5, 5))),
        Call::Take(Some((10, 5))),
        Call::Take(None),
        Call::Add((16, 16), Ok((17, 5))),
        Call::Report(SlabReport { gap: 1, ..one }),
        Call::Take(Some((22, 5))),
        Call::Take(Some((27, 5))),
        Call::Put(5, (5, 5), Ok(())),
        Call::Take(Some((5, 5))),
        Call::Put(5, (0, 5), Ok(())),
        Call::Put(5, (5, 5), Ok(())),
        Call::Put(5, (10, 5), Ok(())),
        Call::Reap(Some((0, 16))),
        Call::Reap(None),
        Call::Add((32, 8), Err(Why::WrongSize)),
        Call::Add((24, 16), Err(Why::Overlaps)),
        Call::Put(5, (17, 5), Ok(())),
        Call::Put(5, (17, 5), Err(Why::AtHome)),
        Call::Put(4, (22, 5), Err(Why::NotMine)),
        Call::Put(5, (22, 5), Ok(())),
        Call::Put(5, (27, 5), Ok(())),
        Call::Reap(Some((16, 16))),
    ];
    for call in calls {
        make_call(&rt, &mut cache, call);
    }
    close(&rt, cache);
}

/// Six slabs, each by its base and that of its first chunk. The colours go up by a quantum and
/// begin again past the units that are in no chunk: 3 of 18, and 3 of 15 with a quantum of 2.
#[test]
fn colours_begin_again(rt: HostRuntime) {
    let cache = SlabCache::new(rt.alloc(), 7, 5, 1, 18);
    let firsts = [(0, 0), (18, 19), (36, 38), (54, 57), (72, 72), (90, 91)];
    come_and_go(&rt, cache, 18, 5, firsts);
    let cache = SlabCache::new(rt.alloc(), 7, 2, 2, 15);
    let firsts = [(0, 0), (16, 18), (32, 32), (48, 50), (64, 64), (80, 82)];
    come_and_go(&rt, cache, 15, 4, firsts);
}

/// A quantum that is more than the units in no chunk, none of these, and a chunk that is the whole
/// slab.
#[test]
fn slabs_of_one_colour(rt: HostRuntime) {
    let cache = SlabCache::new(rt.alloc(), 7, 3, 4, 13);
    let firsts = [(0, 0), (16, 16), (32, 32), (48, 48), (64, 64), (80, 80)];
    come_and_go(&rt, cache, 13, 12, firsts);
    let cache = SlabCache::new(rt.alloc(), 7, 1, 1, 4);
    let firsts = [(0, 0), (4, 4), (8, 8), (12, 12), (16, 16), (20, 20)];
    come_and_go(&rt, cache, 4, 1, firsts);
    let cache = SlabCache::new(rt.alloc(), 7, 1, 1, 1);
    let firsts = [(0, 0), (1, 1), (2, 2), (3, 3), (4, 4), (5, 5)];
    come_and_go(&rt, cache, 1, 1, firsts);
}

/// The slabs come. Then each gets its first chunk back and is reaped.
fn come_and_go(
    rt: &impl Abort,
    cache: SlabCache<PlainDeed>,
    slab_size: u64,
    chunk: u64,
    firsts: [(u64, u64); 6],
) {
    let mut cache = cache;
    let k = cache.k();
    for (base, first) in firsts {
        make_call(
            rt,
            &mut cache,
            Call::Add((base, slab_size), Ok((first, chunk))),
        );
    }
    for (base, first) in firsts {
        make_call(rt, &mut cache, Call::Put(k, (first, chunk), Ok(())));
        make_call(rt, &mut cache, Call::Reap(Some((base, slab_size))));
    }
    close(rt, cache);
}

/// Adds a span and takes its first chunk, again where it was out of memory: then the span is back
/// and the cache as before.
fn add_again(rt: &impl Abort, cache: &mut SlabCache<PlainDeed>, bounds: Bounds) -> Bounds {
    let before = cache.report();
    match added(rt, cache, bounds) {
        Ok(first) => first,
        Err(why) => {
            assert_eq!(rt; (why, cache.report()), (Why::NoMemory, before));
            added(rt, cache, bounds).ok().expect(rt, "refused twice")
        }
    }
}

/// Forty slabs of three chunks each, all taken, given back and reaped.
#[test]
fn spans_can_be_added_again(rt: HostRuntime) {
    let mut cache: SlabCache<PlainDeed> = SlabCache::new(rt.alloc(), 7, 5, 1, 16);
    for number in 0..40u64 {
        let (first, len) = add_again(&rt, &mut cache, (16 * number, 16));
        assert!(rt; first / 16 == number && len == 5);
        let calls = [
            Call::Take(Some((first + 5, 5))),
            Call::Put(5, (first, 5), Ok(())),
            Call::Take(Some((first, 5))),
            Call::Put(5, (first + 5, 5), Ok(())),
            Call::Put(5, (first, 5), Ok(())),
        ];
        for call in calls {
            make_call(&rt, &mut cache, call);
        }
    }
    for number in 0..40u64 {
        make_call(&rt, &mut cache, Call::Reap(Some((16 * number, 16))));
    }
    close(&rt, cache);
}

/// A split of the span is refused, and the span comes back whole.
fn refused(rt: &impl Abort, cache: &mut SlabCache<RefusingDeed>, range: Range, splits_left: u32) {
    let span = span_of(rt, cache, RefusingDeed::new(0, range, splits_left));
    match cache.add(span) {
        Err(AddFault::NoMemory(span)) => assert_eq!(rt; span.into_deed().close(), range),
        _ => panic!(rt; "a split is refused"),
    }
}

/// A slab of 16 takes three splits. Each may be refused, and the span is then whole again.
#[test]
fn refused_splits(rt: HostRuntime) {
    let range = Range::new(0, 16).expect(&rt, "a range");
    let mut cache: SlabCache<RefusingDeed> = SlabCache::new(rt.alloc(), 7, 5, 1, 16);
    for splits_left in 0..3 {
        refused(&rt, &mut cache, range, splits_left);
    }
    let span = span_of(&rt, &cache, RefusingDeed::new(0, range, 3));
    let first = match cache.add(span) {
        Ok(first) => first,
        Err(_) => panic!(rt; "no split is refused"),
    };
    assert_eq!(rt; first.range().len(), 5);
    match cache.put(first) {
        Ok(()) => {}
        Err(_) => panic!(rt; "the chunk was out"),
    }
    let whole = cache.reap().expect(&rt, "all chunks are at home");
    assert_eq!(rt; whole.into_deed().close(), range);
    close(&rt, cache);
}
