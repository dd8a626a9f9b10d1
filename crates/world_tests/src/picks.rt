//! Which event is tried next.
ghost use Rattle.std.specs.Prelude.{◌<◌};

use crate::chances::Chances;
use crate::worlds::{client, grows, name, units};
use deed_core::{PlainDeed, Request};
use lease_proto::{LeaseLine, LeaseOptions, Line, Op, ReleaseLine};
use lease_terms::{Protocol, Refusal};
use std::process::Abort;
use world_core::{World, WorldEvent};

pub(crate) const CPUS: usize = 5;

pub(crate) const CLIENTS: usize = 4;

/// The arenas that are asked for: the roots more often.
const NAMES: [&str; 6] = ["r", "c", "e", "s", "r", "s"];

/// The indexes of the quantum caches: of an arena, and in it.
const CACHES: [(usize, usize); 3] = [(0, 0), (0, 1), (1, 0)];

/// For so many events one cache is filled or emptied.
const SPELL: usize = 1_500;

/// What the next event comes from.
#[derive(Drop)]
pub(crate) struct Picks {
    pub(crate) chances: Chances,
    /// The line that came last to each CPU.
    pub(crate) lines: [usize; CPUS],
    /// What happened last at each CPU.
    pub(crate) last: [WorldEvent; CPUS],
}

impl Picks {
    pub(crate) fn new() -> Picks {
        Picks {
            chances: Chances::new(88172645463325252),
            lines: [0; CPUS],
            last: [WorldEvent::Frees { cpu: 0 }; CPUS],
        }
    }

    /// The event happened at this CPU, or at none.
    pub(crate) fn notes(&mut self, cpu: usize, event: &WorldEvent) {
        if cpu >= CPUS {
            return;
        }
        match event {
            WorldEvent::Looks { cpu: _, which } => {
                self.lines[cpu] = *which;
                self.last[cpu] = *event;
            }
            WorldEvent::Hears { .. } | WorldEvent::Says { .. } => {}
            WorldEvent::Restarts { .. } | WorldEvent::Repeats { .. } => {}
            WorldEvent::Ticks { .. } | WorldEvent::Resizes { .. } => {}
            WorldEvent::Grows { .. } => {}
            _ => self.last[cpu] = *event,
        }
    }

    /// Mostly one of the last eight of so many.
    fn recent(&mut self, count: usize) -> usize {
        if count == 0 {
            return 0;
        }
        if self.chances.once_in(8) {
            return self.chances.below(count);
        }
        let back = self.chances.below(8);
        (count - 1).saturating_sub(back)
    }
}

/// The next event, and the CPU of which it is, if it is one's.
pub(crate) fn picked(
    rt: &impl Abort,
    picks: &mut Picks,
    world: &World<PlainDeed>,
    turn: usize,
) -> (usize, WorldEvent) {
    let cpu = picks.chances.below(CPUS);
    let (arena, cache) = CACHES[turn / SPELL % 3];
    let filling = turn / (3 * SPELL) % 2 == 0;
    let event = match picks.chances.below(32) {
        0..=3 => of_client(rt, picks, world),
        4..=6 => of_book(rt, picks, world, cpu),
        7..=9 => carves(rt, picks, world, cpu, arena, cache),
        10..=11 => of_hand(picks, cpu, arena, cache),
        12..=15 => filled(picks, cpu, arena, cache, filling),
        16..=17 => swapped(picks, cpu, arena, cache, filling),
        18 => rare(rt, picks, cpu, (arena, cache), turn),
        _ => follows(rt, picks, world, cpu, (arena, cache)),
    };
    (cpu, event)
}

/// What comes next where a CPU serves a request, or moves what it has on.
fn follows(
    rt: &impl Abort,
    picks: &mut Picks,
    world: &World<PlainDeed>,
    cpu: usize,
    (arena, cache): (usize, usize),
) -> WorldEvent {
    let last = if cpu < CPUS {
        picks.last[cpu]
    } else {
        WorldEvent::Frees { cpu }
    };
    let once = picks.chances.once_in(2);
    match last {
        WorldEvent::Looks { cpu: _, which } => served(rt, picks, world, cpu, which, (arena, cache)),
        WorldEvent::Carves { .. } if once => WorldEvent::Settles { cpu },
        WorldEvent::Carves { .. } => of_hand(picks, cpu, arena, cache),
        WorldEvent::AddCarves { .. } if once => WorldEvent::Settles { cpu },
        WorldEvent::SlabReaps { .. } | WorldEvent::AddCarves { .. } => WorldEvent::Frees { cpu },
        WorldEvent::SlabAdds { .. } | WorldEvent::SlabTakes { .. } => WorldEvent::Pushes { cpu },
        WorldEvent::Pops { .. } if picks.chances.once_in(4) => WorldEvent::Settles { cpu },
        WorldEvent::Pops { .. } | WorldEvent::DepotReaps { .. } => WorldEvent::SlabPuts { cpu },
        WorldEvent::Releases { .. } | WorldEvent::Sweeps { .. } if once => {
            WorldEvent::Pushes { cpu }
        }
        WorldEvent::Releases { .. } | WorldEvent::Sweeps { .. } => WorldEvent::Frees { cpu },
        WorldEvent::Pushes { .. } => WorldEvent::SlabTakes { cpu, arena, cache },
        WorldEvent::SlabPuts { .. } => WorldEvent::Pops { cpu, arena, cache },
        _ => WorldEvent::Looks {
            cpu,
            which: picks.recent(world.requests().len()),
        },
    }
}

/// What comes next where a CPU looked at this line.
fn served(
    rt: &impl Abort,
    picks: &mut Picks,
    world: &World<PlainDeed>,
    cpu: usize,
    which: usize,
    (arena, cache): (usize, usize),
) -> WorldEvent {
    match world.requests().get(which) {
        Some(Line::Hello(hello)) => WorldEvent::Sweeps {
            cpu,
            client: hello.client,
        },
        Some(Line::Request(_, Op::Release(_))) => WorldEvent::Releases { cpu },
        _ => carves(rt, picks, world, cpu, arena, cache),
    }
}

fn of_client(rt: &impl Abort, picks: &mut Picks, world: &World<PlainDeed>) -> WorldEvent {
    let client = picks.chances.below(CLIENTS);
    match picks.chances.below(10) {
        0 => {
            let lines = world.requests().len() as u64;
            let again = picks.chances.once_in(2) && lines > 8;
            let incarnation = if again { 1 } else { lines.saturating_add(1) };
            if again || lines < 8 || picks.chances.once_in(8) {
                return WorldEvent::Restarts {
                    client,
                    incarnation,
                    protocol: protocol(picks),
                };
            }
            WorldEvent::Repeats {
                client,
                number: number(picks, world),
            }
        }
        1..=3 => WorldEvent::Says {
            client,
            op: asked(rt, picks, world, client),
        },
        _ => WorldEvent::Hears {
            client,
            which: picks.recent(world.replies().len()),
        },
    }
}

/// One of the two.
fn protocol(picks: &mut Picks) -> Protocol {
    if picks.chances.once_in(4) {
        Protocol::One
    } else {
        Protocol::Two
    }
}

/// The number of a request of late, or none.
fn number(picks: &mut Picks, world: &World<PlainDeed>) -> Option<u64> {
    match world.requests().get(picks.recent(world.requests().len())) {
        Some(Line::Request(id, _)) => Some(id.number.get()),
        _ => None,
    }
}

/// What a client asks for: a lease, or the end of one that it holds.
fn asked(rt: &impl Abort, picks: &mut Picks, world: &World<PlainDeed>, client: usize) -> Op {
    let index = picks.chances.below(6);
    let held = world.held(client).expect(rt, "a client");
    if let Some(segment) = held.get(index) {
        return Op::Release(ReleaseLine {
            arena: segment.arena,
            base: segment.base,
        });
    }
    let mut options = LeaseOptions::none();
    if picks.chances.once_in(4) {
        options.align = units(rt, 4);
    }
    Op::Lease(LeaseLine {
        arena: name(rt, NAMES[picks.chances.below(6)]),
        size: units(rt, picks.chances.below(6) as u64),
        options,
    })
}

fn of_book(rt: &impl Abort, picks: &mut Picks, world: &World<PlainDeed>, cpu: usize) -> WorldEvent {
    let number = picks.chances.below(CLIENTS) as u32;
    match picks.chances.below(16) {
        0..=4 => WorldEvent::Looks {
            cpu,
            which: picks.recent(world.requests().len()),
        },
        5..=9 => WorldEvent::Settles { cpu },
        10 => WorldEvent::Declines {
            cpu,
            refusal: Refusal::NoFit,
        },
        11 => WorldEvent::GivesUp { cpu },
        12..=13 => WorldEvent::Releases { cpu },
        _ => WorldEvent::Sweeps {
            cpu,
            client: client(rt, number + 1),
        },
    }
}

/// For the line that came last to the CPU, or anything, or a slab or a span to import.
fn carves(
    rt: &impl Abort,
    picks: &mut Picks,
    world: &World<PlainDeed>,
    cpu: usize,
    arena: usize,
    cache: usize,
) -> WorldEvent {
    if cpu < CPUS && picks.chances.once_in(2) {
        if let Some(Line::Request(_, Op::Lease(lease))) = world.requests().get(picks.lines[cpu]) {
            let request = Request {
                size: lease.size.get(),
                align: lease.options.align.get(),
                phase: lease.options.phase.get(),
                nocross: lease.options.nocross.get(),
                min: lease.options.min.get(),
                max: lease.options.max.get(),
            };
            return WorldEvent::Carves {
                cpu,
                arena: index_of(lease.arena.as_slice()),
                request,
            };
        }
    }
    let sizes: [u64; 4] = [4, 8, 16, 5];
    let request = Request::plain(sizes[picks.chances.below(4)]);
    WorldEvent::Carves {
        cpu,
        arena,
        request,
    }
}

/// The index of the arena with this name.
fn index_of(name: &[u8]) -> usize {
    match name {
        b"r" => 0,
        b"c" => 1,
        b"e" => 2,
        _ => 3,
    }
}

/// Where the segment in a hand goes.
fn of_hand(picks: &mut Picks, cpu: usize, arena: usize, cache: usize) -> WorldEvent {
    match picks.chances.below(8) {
        0..=2 => WorldEvent::Frees { cpu },
        3..=4 => WorldEvent::AddCarves {
            cpu,
            child: picks.chances.below(4),
            size: picks.chances.below(6) as u64,
        },
        _ => WorldEvent::SlabAdds { cpu, arena, cache },
    }
}

/// A cache's chunks go into magazines, or back into slabs.
fn filled(picks: &mut Picks, cpu: usize, arena: usize, cache: usize, filling: bool) -> WorldEvent {
    match picks.chances.below(8) {
        0 => WorldEvent::SlabPuts { cpu },
        1..=3 => {
            if filling {
                WorldEvent::SlabTakes { cpu, arena, cache }
            } else {
                WorldEvent::SlabPuts { cpu }
            }
        }
        4..=6 => {
            if filling {
                WorldEvent::SlabTakes { cpu, arena, cache }
            } else {
                WorldEvent::Pops { cpu, arena, cache }
            }
        }
        _ => WorldEvent::Pops { cpu, arena, cache },
    }
}

/// A CPU and a depot exchange magazines, or a depot or a slab is emptied.
fn swapped(picks: &mut Picks, cpu: usize, arena: usize, cache: usize, filling: bool) -> WorldEvent {
    match picks.chances.below(16) {
        0 => WorldEvent::SlabReaps { cpu, arena, cache },
        1 => WorldEvent::DepotReaps { cpu, arena, cache },
        2..=5 => WorldEvent::SwapsEmpty { cpu, arena, cache },
        6..=9 if filling => WorldEvent::SwapsFresh { cpu, arena, cache },
        _ => WorldEvent::SwapsFull { cpu, arena, cache },
    }
}

/// A CPU fails, or magazines or an arena grow, which all can't happen often.
fn rare(
    rt: &impl Abort,
    picks: &mut Picks,
    cpu: usize,
    (arena, cache): (usize, usize),
    turn: usize,
) -> WorldEvent {
    let failing = turn / 40_000;
    if failing > 0 && picks.chances.once_in(2) {
        return WorldEvent::Adopts {
            cpu,
            other: picks.chances.below(failing),
        };
    }
    if picks.chances.once_in(400) {
        return WorldEvent::Resizes {
            arena,
            cache,
            size: 7,
        };
    }
    if picks.chances.once_in(40) {
        return WorldEvent::Changes {
            cpu,
            arena,
            cache,
            size: 7,
        };
    }
    if picks.chances.once_in(16) {
        return grown(rt, picks);
    }
    WorldEvent::Ticks { arena, cache }
}

/// One of the four arenas, or a fifth, gets up to eight units more.
fn grown(rt: &impl Abort, picks: &mut Picks) -> WorldEvent {
    let arena = picks.chances.below(5);
    let base = picks.chances.below(1_024) as u64;
    let len = picks.chances.below(8) as u64 + 1;
    grows(rt, arena, base, len)
}
