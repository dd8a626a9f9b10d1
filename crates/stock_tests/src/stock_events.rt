//! The events of a script on a stock of two arenas. Each has its frame: what it is given, what it
//! answers and a CPU's rounds balance after it where they did before.
ghost use Rattle.std.specs.Prelude.{◌≡◌, [], ◌∷◌, ◌++◌};
ghost use Rattle.std.specs.Option.{option_to_list};
ghost use Rattle.magazine_layer.specs.Magazines.{IsSize};
ghost use Rattle.stock.specs.Accounts.{Frames};
ghost use Rattle.stock.specs.OwnCaches.{own_rounds};
ghost use Rattle.stock.specs.Spaces.{HasCache};

use deed_core::{Deed, PlainDeed, Request, Route, Segment};
use magazine_layer::Magazine;
use std::alloc::Global;
use std::process::Abort;
use stock::{OwnCache, Stock};

/// What happens. The segment that an event moves is the last in the hand, and what it answers is
/// the last in the hand afterwards. A cache is one of the second arena, named by the units of a
/// chunk; the CPU's is of chunks of five.
#[derive(Clone, Copy, PartialEq, Eq, Debug)]
pub(crate) enum Event {
    /// Of the arena with this number, so many units.
    Carve(usize, u64),
    Free,
    /// The span goes into the second arena, of which so many units are carved.
    Import(u64),
    Lease,
    Release,
    SlabAdd(u8),
    SlabTake(u8),
    SlabPut,
    SlabReap(u8),
    Push,
    Pop,
    SwapFull,
    SwapEmpty,
    SwapFresh,
    /// The depot keeps magazines of seven rounds from here on.
    Resize,
    /// The CPU changes from magazines of three rounds to magazines of seven.
    Change,
    Tick,
    DepotReap,
    /// The root goes out of the first arena.
    Remove,
}

impl Event {
    /// Whether it moves a segment that is in the hand.
    pub(crate) fn takes(self) -> bool {
        matches!(
            self,
            Event::Free | Event::Import(_) | Event::SlabAdd(_) | Event::SlabPut | Event::Push
        )
    }
}

/// The index of the second arena's cache of chunks of so many units.
fn cache(rt: &impl Abort, stock: &Stock<PlainDeed>, units: u8) -> usize
    ensures { HasCache stock.now 1 result }
{
    stock.cache_at(1, units).expect(rt, "a cache")
}

/// An event that is given a segment or none, and answers one or none.
pub(crate) fn moved(
    rt: &impl Abort,
    alloc: Global,
    stock: &mut Stock<PlainDeed>,
    cpu: &mut OwnCache<PlainDeed>,
    event: Event,
    given: Option<Segment<PlainDeed>>,
) -> Option<Segment<PlainDeed>>
    ensures frame { Frames stock.old (option_to_list given ++ own_rounds cpu.old)
        stock.new (option_to_list result ++ own_rounds cpu.new) }
{
    match given {
        Some(segment) => with_segment(rt, stock, cpu, event, segment),
        None => without(rt, alloc, stock, cpu, event),
    }
}

fn with_segment(
    rt: &impl Abort,
    stock: &mut Stock<PlainDeed>,
    cpu: &mut OwnCache<PlainDeed>,
    event: Event,
    segment: Segment<PlainDeed>,
) -> Option<Segment<PlainDeed>>
    ensures frame { Frames stock.old (segment ∷ own_rounds cpu.old)
        stock.new (option_to_list result ++ own_rounds cpu.new) }
{
    match event {
        Event::Push => {
            push(rt, stock, cpu, segment);
            None
        }
        _ => given_to_parts(rt, stock, event, segment),
    }
}

fn without(
    rt: &impl Abort,
    alloc: Global,
    stock: &mut Stock<PlainDeed>,
    cpu: &mut OwnCache<PlainDeed>,
    event: Event,
) -> Option<Segment<PlainDeed>>
    ensures frame { Frames stock.old (own_rounds cpu.old)
        stock.new (option_to_list result ++ own_rounds cpu.new) }
{
    match event {
        Event::Pop => Some(pop(rt, stock, cpu)),
        Event::SwapFull | Event::SwapEmpty | Event::SwapFresh => {
            swap(rt, alloc, stock, cpu, event);
            None
        }
        Event::Change => {
            change(rt, alloc, stock, cpu);
            None
        }
        _ => asked_of_parts(rt, stock, event),
    }
}

/// A segment goes to a part.
fn given_to_parts(
    rt: &impl Abort,
    stock: &mut Stock<PlainDeed>,
    event: Event,
    segment: Segment<PlainDeed>,
) -> Option<Segment<PlainDeed>>
    ensures frame { Frames stock.old (segment ∷ []) stock.new (option_to_list result) }
{
    match event {
        Event::Free => match stock.free(segment) {
            Ok(back) => back,
            Err(_) => panic!(rt; "a free"),
        },
        Event::Import(size) => Some(import(rt, stock, segment, size)),
        Event::SlabAdd(units) => Some(slab_add(rt, stock, segment, units)),
        Event::SlabPut => match stock.slab_put(segment) {
            Ok(()) => None,
            Err(_) => panic!(rt; "a put"),
        },
        _ => panic!(rt; "an event of parts"),
    }
}

/// A part is asked for a segment, or only changes.
fn asked_of_parts(
    rt: &impl Abort,
    stock: &mut Stock<PlainDeed>,
    event: Event,
) -> Option<Segment<PlainDeed>>
    ensures frame { Frames stock.old [] stock.new (option_to_list result) }
{
    match event {
        Event::Carve(arena, size) => Some(carve(rt, stock, arena, size)),
        Event::SlabTake(units) => {
            let index = cache(rt, stock, units);
            stock.slab_take(1, index)
        }
        Event::SlabReap(units) => {
            let index = cache(rt, stock, units);
            stock.slab_reap(1, index)
        }
        Event::DepotReap => {
            let index = cache(rt, stock, 5);
            stock.depot_reap(1, index)
        }
        _ => {
            quiet(rt, stock, event);
            None
        }
    }
}

/// An event that moves no segment.
fn quiet(rt: &impl Abort, stock: &mut Stock<PlainDeed>, event: Event)
    ensures frame { Frames stock.old [] stock.new [] }
{
    match event {
        Event::Resize => {
            let index = cache(rt, stock, 5);
            assert!(rt; stock.resize(1, index, 7).is_ok());
        }
        Event::Tick => {
            let index = cache(rt, stock, 5);
            stock.tick(1, index);
        }
        Event::Remove => {
            assert!(rt; stock.count() == 2);
            let deed = stock.remove_owned(0).expect(rt, "a root");
            assert_eq!(rt; deed.close().len(), 128);
        }
        _ => panic!(rt; "an event that moves nothing"),
    }
}

/// So many units of an arena.
fn carve(
    rt: &impl Abort,
    stock: &mut Stock<PlainDeed>,
    arena: usize,
    size: u64,
) -> Segment<PlainDeed>
    ensures frame { Frames stock.old [] stock.new (result ∷ []) }
{
    assert!(rt; arena < stock.count());
    match stock.carve(arena, &Request::plain(size)) {
        Ok(segment) => segment,
        Err(_) => panic!(rt; "a carve"),
    }
}

/// The span goes into the second arena.
fn import(
    rt: &impl Abort,
    stock: &mut Stock<PlainDeed>,
    span: Segment<PlainDeed>,
    size: u64,
) -> Segment<PlainDeed>
    ensures frame { Frames stock.old (span ∷ []) stock.new (result ∷ []) }
{
    assert!(rt; stock.count() == 2);
    assert_eq!(rt; stock.source(1), Some(span.arena()));
    assert_eq!(rt; stock.quantum(1), 1);
    assert_eq!(rt; span.route(), Route::Direct);
    assert!(rt; size != 0 && size <= span.range().len());
    match stock.add_carve(1, span, &Request::plain(size)) {
        Ok(first) => first,
        Err(_) => panic!(rt; "an import"),
    }
}

/// The span becomes a slab of chunks of so many units.
fn slab_add(
    rt: &impl Abort,
    stock: &mut Stock<PlainDeed>,
    span: Segment<PlainDeed>,
    units: u8,
) -> Segment<PlainDeed>
    ensures frame { Frames stock.old (span ∷ []) stock.new (result ∷ []) }
{
    let index = cache(rt, stock, units);
    assert_eq!(rt; span.arena(), 1);
    assert_eq!(rt; span.route(), Route::Direct);
    assert_eq!(rt; stock.quantum(1), 1);
    match stock.slab_add(1, index, span) {
        Ok(first) => first,
        Err(_) => panic!(rt; "a slab"),
    }
}

/// The chunk becomes a round of the CPU.
#[tactic(auto, using(stock::proofs::LawProofs::pushes))]
fn push(
    rt: &impl Abort,
    stock: &Stock<PlainDeed>,
    cpu: &mut OwnCache<PlainDeed>,
    chunk: Segment<PlainDeed>,
)
    ensures frame { Frames stock.now (chunk ∷ own_rounds cpu.old) stock.now (own_rounds cpu.new) }
{
    assert!(rt; cpu.takes(&chunk));
    match cpu.push(chunk) {
        Ok(()) => {}
        Err(_) => panic!(rt; "a push"),
    }
}

/// A round of the CPU.
#[tactic(auto, using(stock::proofs::LawProofs::pops))]
fn pop(
    rt: &impl Abort,
    stock: &Stock<PlainDeed>,
    cpu: &mut OwnCache<PlainDeed>,
) -> Segment<PlainDeed>
    ensures frame { Frames stock.now (own_rounds cpu.old) stock.now (result ∷ own_rounds cpu.new) }
{
    match cpu.pop() {
        Some(round) => round,
        None => panic!(rt; "a round"),
    }
}

/// The CPU exchanges a magazine with its depot.
fn swap(
    rt: &impl Abort,
    alloc: Global,
    stock: &mut Stock<PlainDeed>,
    cpu: &mut OwnCache<PlainDeed>,
    event: Event,
)
    ensures frame { Frames stock.old (own_rounds cpu.old) stock.new (own_rounds cpu.new) }
{
    let (arena, cache) = cpu.indexes();
    assert!(rt; arena < stock.count());
    assert!(rt; stock.quantum(arena) == cpu.quantum());
    assert!(rt; stock.has_cache(arena, cache));
    match event {
        Event::SwapFull => {
            assert!(rt; cpu.is_empty());
            assert!(rt; cpu.swap_full(stock).is_ok());
            assert!(rt; !cpu.is_empty());
        }
        Event::SwapEmpty => {
            assert!(rt; cpu.is_full());
            assert!(rt; cpu.swap_empty(stock).is_ok());
            assert!(rt; !cpu.is_full());
        }
        _ => {
            assert!(rt; cpu.is_full());
            let magazine = magazine(rt, alloc, 3);
            match cpu.swap_fresh(stock, magazine) {
                Ok(()) => {}
                Err(_) => panic!(rt; "a swap"),
            }
        }
    }
}

/// An empty magazine.
fn magazine(rt: &impl Abort, alloc: Global, size: usize) -> Magazine<PlainDeed>
    requires { IsSize size }
    ensures empty { result.rounds ≡ [] }
    ensures size { result.size ≡ size }
{
    match Magazine::new(alloc, size) {
        Ok(magazine) => magazine,
        Err(_) => panic!(rt; "a magazine"),
    }
}

/// The CPU changes to greater magazines.
#[tactic(auto, using(stock::proofs::LawProofs::changes))]
fn change(rt: &impl Abort, alloc: Global, stock: &Stock<PlainDeed>, cpu: &mut OwnCache<PlainDeed>)
    ensures frame { Frames stock.now (own_rounds cpu.old) stock.now (own_rounds cpu.new) }
{
    assert_eq!(rt; cpu.size(), 3);
    let loaded = magazine(rt, alloc, 7);
    let previous = magazine(rt, alloc, 7);
    cpu.change(loaded, previous);
    assert_eq!(rt; cpu.size(), 7);
}
