//! One function for each call. Each makes sure that the stock has the tree's arenas, and keeps how
//! many locked steps it took.
use super::arrangements::{Walk, is_set_up_as};
use arena_tree::{ClimbFault, GrowFault, PartFault, climb_alloc, climb_free};
use deed_core::{Deed, PlainDeed, Range, Request, Segment};
use local_parts::Local;
use magazine_layer::is_magazine_size;
use quantum_cache::{Reaping, alloc, drain, free, reap, reap_arena, xalloc};
use std::mem;
use std::process::Abort;
use tag_arena::ArenaFault;

/// What an allocation or a climb ended with: a segment, or that nothing fits.
type Given<D> = Result<Segment<D>, ClimbFault<Segment<D>>>;

/// A segment that was given; none where no arena of the chain has room.
fn given<D: Deed>(rt: &impl Abort, answer: Given<D>) -> Option<Segment<D>> {
    match answer {
        Ok(segment) => Some(segment),
        Err(ClimbFault::Refused(ArenaFault::NoFit)) => None,
        Err(_) => panic!(rt; "refused"),
    }
}

/// So many units by a climb alone.
pub(super) fn climb<D: Deed>(
    rt: &impl Abort,
    walk: &mut Walk<D>,
    arena: u32,
    size: u64,
) -> Option<Segment<D>> {
    assert!(rt; is_set_up_as(&walk.stock, &walk.tree));
    assert!(rt; (arena as usize) < walk.tree.len());
    let mut parts = Local {
        stock: &mut walk.stock,
        cpu: &mut walk.cpu,
        tree: &walk.tree,
        alloc: walk.alloc,
        steps: 0,
    };
    let answer = climb_alloc(&mut parts, walk.tree.chain(arena), size);
    walk.steps = parts.steps;
    given(rt, answer)
}

/// So many units, by the caches where they serve.
pub(super) fn allocate<D: Deed>(
    rt: &impl Abort,
    walk: &mut Walk<D>,
    arena: u32,
    size: u64,
) -> Option<Segment<D>> {
    let answer = attempt(rt, walk, arena, size);
    given(rt, answer)
}

/// The same, out of memory.
pub(super) fn allocate_without_memory<D: Deed>(
    rt: &impl Abort,
    walk: &mut Walk<D>,
    arena: u32,
    size: u64,
) {
    match attempt(rt, walk, arena, size) {
        Err(ClimbFault::Refused(ArenaFault::NoMemory)) => {}
        _ => panic!(rt; "memory"),
    }
}

fn attempt<D: Deed>(rt: &impl Abort, walk: &mut Walk<D>, arena: u32, size: u64) -> Given<D> {
    assert!(rt; is_set_up_as(&walk.stock, &walk.tree));
    assert!(rt; (arena as usize) < walk.tree.len());
    let mut parts = Local {
        stock: &mut walk.stock,
        cpu: &mut walk.cpu,
        tree: &walk.tree,
        alloc: walk.alloc,
        steps: 0,
    };
    let answer = alloc(&mut parts, walk.tree.chain(arena), size);
    walk.steps = parts.steps;
    answer
}

/// What the arena itself gives for the request.
pub(super) fn carve<D: Deed>(
    rt: &impl Abort,
    walk: &mut Walk<D>,
    arena: u32,
    request: &Request,
) -> Result<Segment<D>, PartFault<ArenaFault>> {
    assert!(rt; is_set_up_as(&walk.stock, &walk.tree));
    assert!(rt; (arena as usize) < walk.tree.len());
    let mut parts = Local {
        stock: &mut walk.stock,
        cpu: &mut walk.cpu,
        tree: &walk.tree,
        alloc: walk.alloc,
        steps: 0,
    };
    let answer = xalloc(&mut parts, arena, request);
    walk.steps = parts.steps;
    answer
}

/// Hands a segment back by a climb alone.
pub(super) fn hand_back<D: Deed>(rt: &impl Abort, walk: &mut Walk<D>, segment: Segment<D>) {
    let arena = segment.arena();
    assert!(rt; is_set_up_as(&walk.stock, &walk.tree));
    assert!(rt; (arena as usize) < walk.tree.len());
    let mut parts = Local {
        stock: &mut walk.stock,
        cpu: &mut walk.cpu,
        tree: &walk.tree,
        alloc: walk.alloc,
        steps: 0,
    };
    let answer = climb_free(&mut parts, walk.tree.chain(arena), segment);
    walk.steps = parts.steps;
    match answer {
        Ok(()) => {}
        Err(_) => panic!(rt; "a refused segment"),
    }
}

/// Frees a segment, into the CPU's magazines where it is a round.
pub(super) fn release<D: Deed>(rt: &impl Abort, walk: &mut Walk<D>, segment: Segment<D>) {
    let arena = segment.arena();
    assert!(rt; is_set_up_as(&walk.stock, &walk.tree));
    assert!(rt; (arena as usize) < walk.tree.len());
    let mut parts = Local {
        stock: &mut walk.stock,
        cpu: &mut walk.cpu,
        tree: &walk.tree,
        alloc: walk.alloc,
        steps: 0,
    };
    let answer = free(&mut parts, walk.tree.chain(arena), segment);
    walk.steps = parts.steps;
    match answer {
        Ok(()) => {}
        Err(_) => panic!(rt; "a refused segment"),
    }
}

/// Empties the CPU's magazines.
pub(super) fn empty<D: Deed>(rt: &impl Abort, walk: &mut Walk<D>) {
    let mut parts = Local {
        stock: &mut walk.stock,
        cpu: &mut walk.cpu,
        tree: &walk.tree,
        alloc: walk.alloc,
        steps: 0,
    };
    let answer = drain(&mut parts, &walk.tree);
    walk.steps = parts.steps;
    match answer {
        Ok(()) => {}
        Err(_) => panic!(rt; "a refused round"),
    }
}

/// Reaps all arenas in at most 1,024 looks: the units of the slabs that it reaped.
pub(super) fn reap_all<D: Deed>(rt: &impl Abort, walk: &mut Walk<D>) -> u128 {
    assert!(rt; is_set_up_as(&walk.stock, &walk.tree));
    let mut parts = Local {
        stock: &mut walk.stock,
        cpu: &mut walk.cpu,
        tree: &walk.tree,
        alloc: walk.alloc,
        steps: 0,
    };
    let answer = reap(&mut parts, &walk.tree, 1024);
    walk.steps = parts.steps;
    match answer {
        Ok(reaping) => reaping.units,
        Err(_) => panic!(rt; "a refused segment"),
    }
}

/// Reaps one arena in at most so many looks.
pub(super) fn reap_one<D: Deed>(
    rt: &impl Abort,
    walk: &mut Walk<D>,
    arena: u32,
    limit: u64,
) -> Reaping {
    assert!(rt; is_set_up_as(&walk.stock, &walk.tree));
    assert!(rt; (arena as usize) < walk.tree.len());
    let mut parts = Local {
        stock: &mut walk.stock,
        cpu: &mut walk.cpu,
        tree: &walk.tree,
        alloc: walk.alloc,
        steps: 0,
    };
    let answer = reap_arena(&mut parts, walk.tree.chain(arena), limit);
    walk.steps = parts.steps;
    match answer {
        Ok(reaping) => reaping,
        Err(_) => panic!(rt; "a refused segment"),
    }
}

/// An interval of each depot of the first arena ends.
pub(super) fn tick<D: Deed>(rt: &impl Abort, walk: &mut Walk<D>) {
    for cache in 1..17 {
        if let Some(index) = walk.stock.cache_at(0, cache) {
            walk.stock.tick(0, index);
        }
    }
    assert!(rt; walk.stock.count() > 0);
}

/// The depots of the first arena keep magazines of this size from here on.
pub(super) fn resize<D: Deed>(rt: &impl Abort, walk: &mut Walk<D>, size: usize) {
    assert!(rt; is_magazine_size(size));
    for cache in 1..17 {
        if let Some(index) = walk.stock.cache_at(0, cache) {
            assert!(rt; walk.stock.resize(0, index, size).is_ok());
        }
    }
}

/// The arena grows by so many units from this base on, by the stock that CPUs' parts lend.
pub(super) fn grow(
    rt: &impl Abort,
    walk: &mut Walk<PlainDeed>,
    arena: usize,
    base: u64,
    len: u64,
) -> Result<(), GrowFault> {
    let range = Range::new(base, len).expect(rt, "a range");
    walk.stock.grow_by(arena, range)
}

/// The other CPU calls from here on.
pub(super) fn change_cpus<D: Deed>(walk: &mut Walk<D>) {
    mem::swap(&mut walk.cpu, &mut walk.other);
}
