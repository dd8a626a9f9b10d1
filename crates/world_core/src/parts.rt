//! The parts of a world, and what is read off them.
ghost use Rattle.std.specs.Prelude.{◌≡◌, ◌↔◌, ◌<◌, length, IfSome, IfNone, IsTrue, Some, None};
ghost use Rattle.std.specs.Prelude.{slice_get};
ghost use Rattle.deed_core.specs.Tag.{Tag};
ghost use Rattle.stock.specs.Steps.{HasQuantum};
ghost use Rattle.lease_terms.specs.Requests.{RequestId};
ghost use Rattle.lease_proto.specs.declared.lines.Op.{Op};
ghost use Rattle.lease_proto.specs.declared.lines.LeaseLine.{LeaseLine};
ghost use Rattle.lease_proto.specs.declared.lines.ReleaseLine.{ReleaseLine};
ghost use Rattle.world_core.specs.declared.tasks.Task.{Task};
ghost use Rattle.world_core.specs.IsWorld.{IsWorld};
ghost use Rattle.world_core.specs.Moves.{HasTask};
ghost use Rattle.world_core.specs.Events.{IsIdle, EndsAs, HappensAs};

use crate::events::{Outcome, WorldEvent};
use crate::logs::Logged;
use crate::tasks::Task;
use deed_core::{Deed, Numbered, Segment};
use lease_book::Book;
use lease_client::Client;
use lease_proto::{LeaseLine, Line, Op, ReleaseLine, Reply};
use lease_terms::{ArenaName, RequestId};
use std::alloc::Global;
use std::marker::Model;
use stock::{OwnCache, Stock};

/// All that a world has.
pub(crate) struct WorldParts<D: Deed> {
    pub(crate) alloc: Global,
    pub(crate) stock: Stock<D>,
    pub(crate) names: Vec<ArenaName>,
    pub(crate) hands: Vec<Option<Segment<D>>>,
    pub(crate) tasks: Vec<Option<Task>>,
    pub(crate) failed: Vec<bool>,
    pub(crate) owners: Vec<usize>,
    pub(crate) caches: Vec<OwnCache<D>>,
    pub(crate) book: Book<D>,
    pub(crate) log: Vec<Logged>,
    pub(crate) clients: Vec<Client>,
    pub(crate) requests: Vec<Line>,
    pub(crate) replies: Vec<Reply>,
}

impl<D: Deed> Model for WorldParts<D> {
    ghost use Rattle.std.specs.Coded.{codes, coded_ℕ};
    ghost use Rattle.std.specs.Ordering.{nat_cmp};
    ghost use Rattle.std.specs.FinMap as finmap;
    ghost use Rattle.deed_core.specs.Holding.{Holding};
    ghost use Rattle.world_core.specs.WorldState.{WorldState, entries_of};

    ghost Value = { WorldState };

    ghost coded = { Prim.hlevel
        (codes, finmap.code {X = Holding} {R = nat_cmp} coded_ℕ (Prim.hlevel codes)) };

    ghost view = { λ w. record {
      stock = w.stock;
      names = w.names.items;
      hands = w.hands.items;
      tasks = w.tasks.items;
      failed = w.failed.items;
      owners = w.owners.items;
      caches = w.caches.items;
      book = w.book;
      entries = entries_of w.log.items;
      clients = w.clients.items;
      requests = w.requests.items;
      replies = w.replies.items;
    } };
}

impl<D: Deed> WorldParts<D> {
    /// The request that the CPU serves.
    pub(crate) fn task(&self, cpu: usize) -> Option<Task>
        ensures some { IfSome result (λ task. slice_get self.now.tasks cpu ≡ Some (Some task)) }
        ensures none { IfNone result ((task : Task)
            → ¬ (slice_get self.now.tasks cpu ≡ Some (Some task))) }
    {
        if cpu >= self.tasks.len() {
            return None;
        }
        self.tasks[cpu]
    }

    /// The lease that it serves.
    pub(crate) fn lease_task(&self, cpu: usize) -> Option<(RequestId, LeaseLine)>
        ensures some { IfSome result (λ r. HasTask self.now cpu r.0 (Op.Lease r.1)) }
        ensures none { IfNone result ((id : RequestId) (lease : LeaseLine)
            → ¬ HasTask self.now cpu id (Op.Lease lease)) }
    {
        let Task { id, op } = self.task(cpu)?;
        match op {
            Op::Lease(lease) => Some((id, lease)),
            Op::Release(_) => None,
        }
    }

    /// The release that it serves.
    pub(crate) fn release_task(&self, cpu: usize) -> Option<(RequestId, ReleaseLine)>
        ensures some { IfSome result (λ r. HasTask self.now cpu r.0 (Op.Release r.1)) }
        ensures none { IfNone result ((id : RequestId) (release : ReleaseLine)
            → ¬ HasTask self.now cpu id (Op.Release release)) }
    {
        let Task { id, op } = self.task(cpu)?;
        match op {
            Op::Lease(_) => None,
            Op::Release(release) => Some((id, release)),
        }
    }

    /// Whether the CPU is here, and its hand is empty.
    pub(crate) fn has_empty_hand(&self, cpu: usize) -> bool
        ensures { IsTrue result ↔ (slice_get self.now.hands cpu ≡ Some None) }
    {
        if cpu >= self.hands.len() {
            return false;
        }
        self.hands[cpu].is_none()
    }

    /// Whether it has nothing to do.
    pub(crate) fn is_idle(&self, cpu: usize) -> bool
        ensures { IsTrue result ↔ IsIdle self.now cpu }
    {
        if cpu >= self.tasks.len() {
            return false;
        }
        self.tasks[cpu].is_none() && self.has_empty_hand(cpu)
    }

    /// The segment in the CPU's hand.
    pub(crate) fn in_hand(&self, cpu: usize) -> Option<&Segment<D>>
        ensures some { IfSome result
            (λ t. slice_get self.now.hands cpu ≡ Some (Some t.now)) }
        ensures none { IfNone result ((t : Tag)
            → ¬ (slice_get self.now.hands cpu ≡ Some (Some t))) }
    {
        if cpu >= self.hands.len() {
            return None;
        }
        self.hands[cpu].as_ref()
    }

    /// The quantum of the arena at the index.
    pub(crate) fn quantum(&self, arena: usize) -> u64
        requires world { IsWorld self.now }
        requires within { arena < length self.now.names }
        ensures value { HasQuantum self.now.stock arena result }
        ensures some { 0 < result }
    {
        self.stock.quantum(arena)
    }
}

impl<D: Numbered> WorldParts<D> {
    /// Lets an event happen.
    pub(crate) fn step(&mut self, event: WorldEvent) -> Outcome
        requires world { IsWorld self.old }
        ensures { HappensAs event result self.old self.new }
    {
        if self.is_of_failed(&event) {
            return Outcome::NotEnabled;
        }
        self.happen(event)
    }

    /// The same where it isn't of a CPU that has failed.
    fn happen(&mut self, event: WorldEvent) -> Outcome
        requires world { IsWorld self.old }
        ensures { EndsAs event result self.old self.new }
    {
        match event {
            WorldEvent::Restarts {
                client,
                incarnation,
                protocol,
            } => self.restart(client, incarnation, protocol),
            WorldEvent::Says { client, op } => self.send(client, op),
            WorldEvent::Repeats { client, number } => self.resend(client, number),
            WorldEvent::Hears { client, which } => self.hear(client, which),
            WorldEvent::Looks { cpu, which } => self.look(cpu, which),
            WorldEvent::Settles { cpu } => self.settle(cpu),
            WorldEvent::Declines { cpu, refusal } => self.decline(cpu, refusal),
            WorldEvent::GivesUp { cpu } => self.give_up(cpu),
            WorldEvent::Releases { cpu } => self.release(cpu),
            WorldEvent::Sweeps { cpu, client } => self.sweep(cpu, client),
            WorldEvent::Carves {
                cpu,
                arena,
                request,
            } => self.carve(cpu, arena, &request),
            WorldEvent::Frees { cpu } => self.free(cpu),
            WorldEvent::AddCarves { cpu, child, size } => self.add_carve(cpu, child, size),
            WorldEvent::SlabTakes { cpu, arena, cache } => self.slab_take(cpu, arena, cache),
            WorldEvent::SlabPuts { cpu } => self.slab_put(cpu),
            WorldEvent::SlabAdds { cpu, arena, cache } => self.slab_add(cpu, arena, cache),
            WorldEvent::SlabReaps { cpu, arena, cache } => self.slab_reap(cpu, arena, cache),
            WorldEvent::DepotReaps { cpu, arena, cache } => self.depot_reap(cpu, arena, cache),
            WorldEvent::Pops { cpu, arena, cache } => self.pop(cpu, arena, cache),
            WorldEvent::Pushes { cpu } => self.push(cpu),
            WorldEvent::SwapsFull { cpu, arena, cache } => self.swap_full(cpu, arena, cache),
            WorldEvent::SwapsEmpty { cpu, arena, cache } => self.swap_empty(cpu, arena, cache),
            WorldEvent::SwapsFresh { cpu, arena, cache } => self.swap_fresh(cpu, arena, cache),
            WorldEvent::Changes {
                cpu,
                arena,
                cache,
                size,
            } => self.change(cpu, arena, cache, size),
            WorldEvent::Adopts { cpu, other } => self.adopt(cpu, other),
            WorldEvent::Grows { arena, range } => self.grow(arena, range),
            WorldEvent::Ticks { arena, cache } => self.tick(arena, cache),
            WorldEvent::Resizes { arena, cache, size } => self.resize(arena, cache, size),
        }
    }
}
