//! A slab cache.
ghost use Rattle.std.specs.Prelude.{◌≡◌, ◌↔◌, [], Contains, IsOk, IfOk, IfSome, IfNone, OnOk};
ghost use Rattle.deed_core.specs.Request.{Fits, plain_of};
ghost use Rattle.deed_core.specs.Weights.{Gains, Loses, WeighSame};
ghost use Rattle.slab_layer.specs.Cache.{IsSoundCache, IsChunkOf, IsSpanFor, IsSpanOf, chunk_of};
ghost use Rattle.slab_layer.specs.Cache.{chunks_out};
ghost use Rattle.slab_layer.specs.Cache.{span_tags};
ghost use Rattle.slab_layer.specs.Calls.{IsAlike, TakeOf, PutOf, AddOf, ReapOf};

use deed_core::{Deed, PlainDeed, Range, Route, Segment};
use slab_layer::{AddFault, PutFault, SlabCache, chunk_laws, move_laws};
use std::process::Abort;

/// What is known of any cache, as one taken from behind a lock.
fn known<D: Deed>(cache: &SlabCache<D>)
    ensures { IsSoundCache cache.now }
{
    let _ = cache.arena();
}

/// A chunk is taken: it serves an unconstrained request for just k quanta.
fn take<D: Deed>(cache: &mut SlabCache<D>) -> Option<Segment<D>>
    ensures taken { TakeOf cache.old result cache.new }
    ensures sound { IsSoundCache cache.new × IsAlike cache.old cache.new }
    ensures chunk { IfSome result (λ t. IsChunkOf cache.old t) }
    ensures out { IfSome result (λ t. Gains (chunks_out cache.old) (chunks_out cache.new) t) }
    ensures spans { span_tags cache.new ≡ span_tags cache.old }
{
    cache.take()
}

/// What is taken serves an unconstrained request for just k quanta.
fn take_fitting<D: Deed>(cache: &mut SlabCache<D>) -> Option<Segment<D>>
    ensures { IfSome result (λ t. Fits cache.old.quantum (plain_of (chunk_of cache.old))
        t.holding.range.base t.holding.range.len) }
{
    known(cache);
    chunk_laws();
    match cache.take() {
        Some(chunk) => Some(chunk),
        None => None,
    }
}

/// A chunk comes home, or is back.
fn put<D: Deed>(cache: &mut SlabCache<D>, chunk: Segment<D>) -> Result<(), PutFault<Segment<D>>>
    ensures put { PutOf cache.old chunk result cache.new }
    ensures sound { IsSoundCache cache.new × IsAlike cache.old cache.new }
    ensures mine { IsOk result ↔ Contains (chunks_out cache.old) chunk }
    ensures out { OnOk result (Loses (chunks_out cache.old) (chunks_out cache.new) chunk) }
    ensures spans { span_tags cache.new ≡ span_tags cache.old }
{
    cache.put(chunk)
}

/// A span becomes a slab and gives its first chunk, or is back.
fn add<D: Deed>(
    cache: &mut SlabCache<D>,
    span: Segment<D>,
) -> Result<Segment<D>, AddFault<Segment<D>>>
    requires span { IsSpanFor cache.old span }
    ensures added { AddOf cache.old span result cache.new }
    ensures sound { IsSoundCache cache.new × IsAlike cache.old cache.new }
    ensures chunk { IfOk result (λ t. IsChunkOf cache.old t) }
    ensures out { IfOk result (λ t. Gains (chunks_out cache.old) (chunks_out cache.new) t) }
    ensures spans { OnOk result (Gains (span_tags cache.old) (span_tags cache.new) span) }
{
    cache.add(span)
}

/// A slab is reaped; where none is and no chunk is out, no slab is left.
fn reap<D: Deed>(cache: &mut SlabCache<D>) -> Option<Segment<D>>
    ensures reaped { ReapOf cache.old result cache.new }
    ensures sound { IsSoundCache cache.new × IsAlike cache.old cache.new }
    ensures span { IfSome result (λ t. IsSpanOf cache.old t) }
    ensures out { WeighSame (chunks_out cache.old) (chunks_out cache.new) }
    ensures spans { IfSome result (λ t. Loses (span_tags cache.old) (span_tags cache.new) t) }
{
    cache.reap()
}

/// A cache of which nothing is out has no slab once nothing more is reaped.
fn reap_last<D: Deed>(cache: &mut SlabCache<D>) -> Option<Segment<D>>
    requires { chunks_out cache.old ≡ [] }
    ensures { IfNone result (cache.new.slabs ≡ []) }
{
    move_laws();
    match cache.reap() {
        Some(span) => Some(span),
        None => None,
    }
}

fn units(rt: &impl Abort, chunk: Option<Segment<PlainDeed>>) -> Segment<PlainDeed> {
    match chunk {
        Some(chunk) => chunk,
        None => panic!(rt; "a segment"),
    }
}

fn given(rt: &impl Abort, cache: &mut SlabCache<PlainDeed>, chunk: Segment<PlainDeed>) {
    match put(cache, chunk) {
        Ok(()) => {}
        Err(_) => panic!(rt; "the chunk is the cache's"),
    }
}

#[test]
fn a_slab_comes_and_goes(rt: HostRuntime) {
    let mut cache = SlabCache::new(rt.alloc(), 1, 2, 4, 16);
    let range = Range::new(32, 16).expect(&rt, "a range");
    let span = Segment::new(cache.arena(), Route::Direct, PlainDeed::new(0, range));
    assert!(rt; span.range().base().is_multiple_of(cache.quantum()));
    let first = match add(&mut cache, span) {
        Ok(first) => first,
        Err(_) => panic!(rt; "memory"),
    };
    let second = units(&rt, take_fitting(&mut cache));
    given(&rt, &mut cache, first);
    let first = units(&rt, take(&mut cache));
    given(&rt, &mut cache, first);
    given(&rt, &mut cache, second);
    let span = units(&rt, reap(&mut cache));
    assert_eq!(rt; span.into_deed().close(), range);
    match cache.close() {
        Ok(()) => {}
        Err(_) => panic!(rt; "a deed is left"),
    }
}
