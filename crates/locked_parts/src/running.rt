//! The parts of a system as one CPU reaches them: each event of a shared part takes that part's
//! lock, and no other, and calls one method on what it finds there. Before each event the gate is
//! asked.
ghost use Rattle.std.specs.Prelude.{◌≡◌, true, false};
ghost use Rattle.arena_tree.specs.Stops.{is_stopped};
ghost use Rattle.arena_tree.specs.Trees.{nodes_of};
ghost use Rattle.locked_parts.specs.Gates.{AsksGate, NotesStops, step_after, step_named};
ghost use Rattle.locked_parts.specs.Kinds.{AreForSame, count_of_rounds};
ghost use Rattle.locked_parts.specs.Owns.{OwnStep};
ghost use Rattle.locked_parts.specs.Saying.{CameBy};

use crate::gates::{EventName, Gate, StepCount};
use crate::locked_events::{
    add_carve_in, carve_in, depot_reap_in, free_in, slab_add_in, slab_put_in, slab_reap_in,
    slab_take_in,
};
use crate::own_caches::OwnCache;
use crate::own_events::{change_in, pop_in, push_in, swap_empty_in, swap_fresh_in, swap_full_in};
use crate::parts::LockedParts;
use crate::said::Said;
use arena_tree::{ChangeFault, FreshFault, GivenFault, PartFault, Parts, Stopped};
use deed_core::{Request, Segment};
use deed_table::{Name, SeatDeed};
use magazine_layer::{EmptyFault, FullFault};
use slab_layer::{AddFault, PutFault};
use std::sync::Wait;
use tag_arena::{ArenaFault, SpanFault};

/// The parts, the runtime, a gate and the magazines of one CPU, all lent.
#[derive(Drop)]
pub struct Running<'a, N: Name, R: Wait, G: Gate> {
    pub parts: &'a LockedParts<N>,
    pub rt: &'a R,
    pub gate: &'a G,
    pub caches: &'a mut Vec<OwnCache<SeatDeed<N>>>,
    pub steps: StepCount,
    /// What the part said that was reached last.
    pub said: Said,
    /// How many events of shared parts there were.
    pub count: u64,
}

impl<'a, N: Name, R: Wait, G: Gate> Running<'a, N, R, G> {
    /// The parts as the CPU of this number reaches them, with these magazines. No step was asked
    /// for yet.
    pub fn new(
        parts: &'a LockedParts<N>,
        rt: &'a R,
        gate: &'a G,
        cpu: u32,
        caches: &'a mut Vec<OwnCache<SeatDeed<N>>>,
    ) -> Running<'a, N, R, G>
        ensures parts { result.parts.now ≡ parts.now }
        ensures gate { result.gate.now ≡ gate.now }
        ensures caches { result.caches.now ≡ caches.old }
        ensures loan { result.caches.ghost_name ≡ caches.entry.ghost_name }
        ensures unstopped { result.steps.noted ≡ false }
        ensures first { (result.steps.cpu ≡ cpu) × (result.steps.turn ≡ 0) }
        ensures uncounted { result.count ≡ 0 }
    {
        Running {
            parts,
            rt,
            gate,
            caches,
            steps: StepCount::new(cpu),
            said: Said::Nothing,
            count: 0,
        }
    }
}

impl<N: Name, R: Wait, G: Gate> Parts<Segment<SeatDeed<N>>> for Running<'_, N, R, G> {
    ghost step = { λ s e a t.
        NotesStops G.may_stop s.gate.now t.gate.now s.steps.noted t.steps.noted
        × (t.caches.ghost_name ≡ s.caches.ghost_name)
        × AreForSame s.caches.now.items t.caches.now.items
        × (is_stopped e a ≡ true → t.steps.noted ≡ true)
        × (is_stopped e a ≡ false → t.steps.noted ≡ s.steps.noted)
        × AsksGate G.may_stop G.passed s.gate.now (step_named e) (is_stopped e a) s.steps t.steps
        × (is_stopped e a ≡ false → CameBy s.parts.now s.caches.now.items
        (step_after s.steps (step_named e)) e a t.said)
        × OwnStep s.parts.now.arenas e a s.caches.now.items t.caches.now.items
        × (t.parts.now ≡ s.parts.now) };

    ghost tree = { λ s. nodes_of s.parts.now.arenas };

    ghost count = { λ s. s.count };

    ghost rounds = { λ s. count_of_rounds s.caches.now.items };

    fn steps(&self) -> u64 {
        self.count
    }

    #[tactic(auto, using(crate::proofs::Came::carve_tagged))]
    fn carve(
        &mut self,
        arena: u32,
        request: &Request,
    ) -> Result<Segment<SeatDeed<N>>, PartFault<ArenaFault>> {
        let step = self.steps.next(EventName::Carve);
        if self.steps.stops(self.gate, step.event) {
            return Err(PartFault::Stopped);
        }
        self.count = self.count.saturating_add(1);
        carve_in(self.parts, self.rt, &mut self.said, step, arena, request)
    }

    #[tactic(auto, using(crate::proofs::Came::free_tagged))]
    fn free(
        &mut self,
        segment: Segment<SeatDeed<N>>,
    ) -> Result<
        Option<Segment<SeatDeed<N>>>,
        GivenFault<Segment<SeatDeed<N>>, Segment<SeatDeed<N>>>,
    > {
        let step = self.steps.next(EventName::Free);
        if self.steps.stops(self.gate, step.event) {
            return Err(GivenFault::Stopped(segment));
        }
        self.count = self.count.saturating_add(1);
        free_in(self.parts, self.rt, &mut self.said, step, segment)
    }

    #[tactic(auto, using(crate::proofs::Came::add_tagged))]
    fn add_carve(
        &mut self,
        child: u32,
        segment: Segment<SeatDeed<N>>,
        size: u64,
    ) -> Result<
        Segment<SeatDeed<N>>,
        GivenFault<SpanFault<Segment<SeatDeed<N>>>, Segment<SeatDeed<N>>>,
    > {
        let step = self.steps.next(EventName::AddCarve);
        if self.steps.stops(self.gate, step.event) {
            return Err(GivenFault::Stopped(segment));
        }
        self.count = self.count.saturating_add(1);
        add_carve_in(
            self.parts,
            self.rt,
            &mut self.said,
            step,
            child,
            segment,
            size,
        )
    }

    #[tactic(auto, using(crate::proofs::Came::take_tagged))]
    fn slab_take(
        &mut self,
        arena: u32,
        cache: u8,
    ) -> Result<Option<Segment<SeatDeed<N>>>, Stopped> {
        let step = self.steps.next(EventName::SlabTake);
        if self.steps.stops(self.gate, step.event) {
            return Err(Stopped);
        }
        self.count = self.count.saturating_add(1);
        slab_take_in(self.parts, self.rt, &mut self.said, step, arena, cache)
    }

    #[tactic(auto, using(crate::proofs::Came::put_tagged))]
    fn slab_put(
        &mut self,
        segment: Segment<SeatDeed<N>>,
    ) -> Result<(), GivenFault<PutFault<Segment<SeatDeed<N>>>, Segment<SeatDeed<N>>>> {
        let step = self.steps.next(EventName::SlabPut);
        if self.steps.stops(self.gate, step.event) {
            return Err(GivenFault::Stopped(segment));
        }
        self.count = self.count.saturating_add(1);
        slab_put_in(self.parts, self.rt, &mut self.said, step, segment)
    }

    #[tactic(auto, using(crate::proofs::Came::slab_tagged))]
    fn slab_add(
        &mut self,
        arena: u32,
        cache: u8,
        segment: Segment<SeatDeed<N>>,
    ) -> Result<
        Segment<SeatDeed<N>>,
        GivenFault<AddFault<Segment<SeatDeed<N>>>, Segment<SeatDeed<N>>>,
    > {
        let step = self.steps.next(EventName::SlabAdd);
        if self.steps.stops(self.gate, step.event) {
            return Err(GivenFault::Stopped(segment));
        }
        self.count = self.count.saturating_add(1);
        slab_add_in(
            self.parts,
            self.rt,
            &mut self.said,
            step,
            arena,
            cache,
            segment,
        )
    }

    #[tactic(auto, using(crate::proofs::Came::reap_tagged))]
    fn slab_reap(
        &mut self,
        arena: u32,
        cache: u8,
    ) -> Result<Option<Segment<SeatDeed<N>>>, Stopped> {
        let step = self.steps.next(EventName::SlabReap);
        if self.steps.stops(self.gate, step.event) {
            return Err(Stopped);
        }
        self.count = self.count.saturating_add(1);
        slab_reap_in(self.parts, self.rt, &mut self.said, step, arena, cache)
    }

    fn swap_full(&mut self, arena: u32, cache: u8) -> Result<(), PartFault<FullFault>> {
        let step = self.steps.next(EventName::SwapFull);
        if self.steps.stops(self.gate, step.event) {
            return Err(PartFault::Stopped);
        }
        self.count = self.count.saturating_add(1);
        swap_full_in(
            self.parts,
            self.rt,
            &mut self.said,
            step,
            self.caches,
            arena,
            cache,
        )
    }

    fn swap_empty(&mut self, arena: u32, cache: u8) -> Result<(), PartFault<EmptyFault>> {
        let step = self.steps.next(EventName::SwapEmpty);
        if self.steps.stops(self.gate, step.event) {
            return Err(PartFault::Stopped);
        }
        self.count = self.count.saturating_add(1);
        swap_empty_in(
            self.parts,
            self.rt,
            &mut self.said,
            step,
            self.caches,
            arena,
            cache,
        )
    }

    fn swap_fresh(&mut self, arena: u32, cache: u8) -> Result<(), PartFault<FreshFault>> {
        let step = self.steps.next(EventName::SwapEmpty);
        if self.steps.stops(self.gate, step.event) {
            return Err(PartFault::Stopped);
        }
        self.count = self.count.saturating_add(1);
        swap_fresh_in(
            self.parts,
            self.rt,
            &mut self.said,
            step,
            self.caches,
            arena,
            cache,
        )
    }

    #[tactic(auto, using(crate::proofs::Came::round_tagged))]
    fn depot_reap(
        &mut self,
        arena: u32,
        cache: u8,
    ) -> Result<Option<Segment<SeatDeed<N>>>, Stopped> {
        let step = self.steps.next(EventName::DepotReap);
        if self.steps.stops(self.gate, step.event) {
            return Err(Stopped);
        }
        self.count = self.count.saturating_add(1);
        depot_reap_in(self.parts, self.rt, &mut self.said, step, arena, cache)
    }

    fn pop(&mut self, arena: u32, cache: u8) -> Result<Option<Segment<SeatDeed<N>>>, Stopped> {
        if self.steps.stops(self.gate, EventName::Pop) {
            return Err(Stopped);
        }
        // For its range, which the count of steps has to keep; here and below.
        let _count = self.count;
        pop_in(self.parts, self.caches, arena, cache)
    }

    fn push(
        &mut self,
        arena: u32,
        cache: u8,
        segment: Segment<SeatDeed<N>>,
    ) -> Result<(), GivenFault<Segment<SeatDeed<N>>, Segment<SeatDeed<N>>>> {
        if self.steps.stops(self.gate, EventName::Push) {
            return Err(GivenFault::Stopped(segment));
        }
        let _count = self.count;
        push_in(self.parts, self.caches, arena, cache, segment)
    }

    fn change(&mut self, arena: u32, cache: u8, size: usize) -> Result<(), PartFault<ChangeFault>> {
        if self.steps.stops(self.gate, EventName::Change) {
            return Err(PartFault::Stopped);
        }
        let _count = self.count;
        change_in(self.parts, self.caches, arena, cache, size)
    }
}
