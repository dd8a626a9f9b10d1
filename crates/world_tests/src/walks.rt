//! A hundred thousand events at random: five CPUs, two of which fail, four clients that restart by
//! one protocol or the other, three arenas in a chain, two of them with caches, and an arena apart
//! from these. Both that have spans of their own get further ones. No event changes the sums of
//! more than two arenas.
use crate::kinds::{KINDS, kind_of};
use crate::picks::{CLIENTS, CPUS, Picks, picked};
use crate::worlds::{changes_two, child, name, root, same_sums, sums, world_of};
use arena_tree::{NewSpan, Setting, Setup};
use deed_core::PlainDeed;
use lease_client::HeldSegment;
use std::process::Abort;
use stock_audit::SumsRoom;
use tag_arena::Policy;
use world_core::{Outcome, World, WorldEvent};

const EVENTS: usize = 100_000;

/// After so many events the world is looked at.
const STRETCH: usize = 1_000;

/// So many events happen at least.
const LEAST: usize = 10_000;

/// r has 256 units from 0; c imports of it, and e of c; s has two spans of 64 and 32 units.
fn four_arenas(rt: &impl Abort, setup: &mut Setup) {
    root(rt, setup, "r", 0, 256, Policy::Instant, 2);
    child(rt, setup, "c", "r", Policy::Best, 1, 16);
    child(rt, setup, "e", "c", Policy::Next, 0, 4);
    root(rt, setup, "s", 0, 64, Policy::Next, 0);
    let further = Setting::Span(NewSpan {
        name: name(rt, "s"),
        base: 64,
        len: 32,
    });
    setup.add(&further).expect(rt, "a span");
}

#[test]
fn hundred_thousand_events(rt: HostRuntime) {
    let mut setup = Setup::new(rt.alloc());
    four_arenas(&rt, &mut setup);
    let mut world = world_of(&rt, rt.alloc(), &setup, CPUS, CLIENTS as u32);
    let mut picks = Picks::new();
    let mut done: [usize; KINDS] = [0; KINDS];
    let mut most_held: usize = 0;
    let mut owned: [u128; 5] = [256, 0, 0, 96, 0];
    for turn in 0..EVENTS {
        let (cpu, event) = picked(&rt, &mut picks, &world, turn);
        let mut room = SumsRoom::new();
        let before = world.sums(&mut room);
        if happens(&rt, &mut world, &event) {
            done[kind_of(&event)] = done[kind_of(&event)].saturating_add(1);
            picks.notes(cpu, &event);
            owns(&mut owned, &event);
        }
        changes_two(&rt, &world, before);
        if turn % 100 == 99 {
            same_sums(&rt, &world);
        }
        if turn % STRETCH == STRETCH - 1 {
            let held = looked_at(&rt, &world, &owned);
            most_held = most_held.max(held);
        }
    }
    assert!(rt; done.iter().all(|count| *count > 0), "{done:?}");
    assert!(rt;
        all_of(&done) >= LEAST && most_held > 3,
        "{most_held}, {done:?}"
    );
    world.end();
}

/// An arena owns what it grows by.
fn owns(owned: &mut [u128; 5], event: &WorldEvent) {
    match event {
        WorldEvent::Grows { arena, range } if *arena < 5 => {
            owned[*arena] = owned[*arena].saturating_add(u128::from(range.len()));
        }
        _ => {}
    }
}

fn all_of(counts: &[usize]) -> usize {
    let mut sum: usize = 0;
    for count in counts {
        sum = sum.saturating_add(*count);
    }
    sum
}

/// Whether the event happens. Memory is never short.
fn happens(rt: &impl Abort, world: &mut World<PlainDeed>, event: &WorldEvent) -> bool {
    let outcome = world.step(*event);
    assert!(rt; outcome != Outcome::NoMemory, "{event:?}");
    outcome == Outcome::Done
}

/// The sums add up to what the arenas own, and no two segments that clients hold overlap. How many
/// they hold.
fn looked_at(rt: &impl Abort, world: &World<PlainDeed>, owned: &[u128; 5]) -> usize {
    let (of_r, exported_r) = all(rt, world, 0);
    let (of_c, exported_c) = all(rt, world, 1);
    let (of_e, exported_e) = all(rt, world, 2);
    let (of_s, exported_s) = all(rt, world, 3);
    assert!(rt; of_r == owned[0] && of_s == owned[3], "{of_r}, {of_s}");
    assert!(rt;
        owned[1] == 0 && owned[2] == 0 && owned[4] == 0,
        "{owned:?}"
    );
    assert!(rt; of_c == exported_r && of_e == exported_c, "{of_c}, {of_e}");
    assert!(rt; exported_e == 0 && exported_s == 0);
    let mut count: usize = 0;
    for one in 0..CLIENTS {
        let held = world.held(one).expect(rt, "a client");
        count = count.saturating_add(held.len());
        is_apart(rt, world, one, held);
    }
    count
}

/// All units of the arena, and those that were exported.
fn all(rt: &impl Abort, world: &World<PlainDeed>, arena: usize) -> (u128, u128) {
    let told = sums(rt, world, arena);
    let mut units: u128 = 0;
    for part in [
        told.free,
        told.slab,
        told.magazine,
        told.exported,
        told.leased,
        told.hand,
    ] {
        units = units.saturating_add(part);
    }
    (units, told.exported)
}

/// What the client holds overlaps nothing else that it or a later client holds.
fn is_apart(rt: &impl Abort, world: &World<PlainDeed>, one: usize, held: &[HeldSegment]) {
    for other in one..CLIENTS {
        let others = world.held(other).expect(rt, "a client");
        for (index, segment) in held.iter().enumerate() {
            let from = if one == other {
                index.saturating_add(1)
            } else {
                0
            };
            has_no_part_in(rt, segment, others, from);
        }
    }
}

/// The segment overlaps none of the others from this index on.
fn has_no_part_in(rt: &impl Abort, segment: &HeldSegment, others: &[HeldSegment], from: usize) {
    for (index, other) in others.iter().enumerate() {
        if index >= from && is_of_s(segment) == is_of_s(other) {
            let apart = end(segment) <= other.base.get() || end(other) <= segment.base.get();
            assert!(rt; apart, "{segment:?}, {other:?}");
        }
    }
}

/// Whether its units aren't those of the other three arenas.
fn is_of_s(segment: &HeldSegment) -> bool {
    segment.arena.as_slice() == b"s".as_slice()
}

fn end(segment: &HeldSegment) -> u64 {
    segment.base.get().saturating_add(segment.len.get())
}
