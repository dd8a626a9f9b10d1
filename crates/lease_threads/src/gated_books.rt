//! The book of a running system, as one CPU reaches it. Each call asks the CPU's gate first, and
//! then makes the same call of the shared book, which takes the book's lock once, and no other.
ghost use Rattle.std.specs.Prelude.{◌≡◌};
ghost use Rattle.locked_parts.specs.Gates.{NotesStops};
ghost use Rattle.lease_threads.specs.Calling.{IsAskedCall, IsLockedAnswer};

use arena_tree::Stopped;
use deed_core::{Request, Segment};
use deed_table::{Name, SeatDeed};
use lease_book::{Answer, Receipt, SweepEnd, Taken};
use lease_call::{Books, NotGreeted, NotReleased, NotSettled};
use lease_terms::{ClientId, Ordinal, Protocol, Quantity, Refusal, RequestId};
use locked_parts::{EventName, Gate, Running};
use shared_book::SharedBook;
use std::sync::Wait;

/// The book under its lock, lent to a CPU whose gate is asked before each call.
#[derive(Drop)]
pub(crate) struct GatedBook<'a, N: Name> {
    /// The book under its lock.
    pub book: &'a SharedBook<N>,
}

impl<N: Name, R: Wait, G: Gate> Books<Segment<SeatDeed<N>>, SeatDeed<N>, Running<'_, N, R, G>>
    for GatedBook<'_, N> {
    ghost step = { λ b s k a c t.
        NotesStops G.may_stop s.gate.now t.gate.now s.steps.noted t.steps.noted
        × (t.caches.ghost_name ≡ s.caches.ghost_name)
        × (t.caches.now ≡ s.caches.now)
        × IsLockedAnswer _ k a s.steps.noted t.steps.noted
        × IsAskedCall _ G.may_stop G.passed s.gate.now k a s.steps t.steps };

    fn look(
        &mut self,
        parts: &mut Running<'_, N, R, G>,
        id: RequestId,
    ) -> Result<Option<Answer<SeatDeed<N>>>, Stopped> {
        if parts.steps.stops(parts.gate, EventName::Look) {
            return Err(Stopped);
        }
        Ok(self.book.look(parts.rt, id))
    }

    fn refuse(
        &mut self,
        parts: &mut Running<'_, N, R, G>,
        id: RequestId,
        why: Refusal,
    ) -> Result<Answer<SeatDeed<N>>, Stopped> {
        if parts.steps.stops(parts.gate, EventName::Settle) {
            return Err(Stopped);
        }
        Ok(self.book.refuse(parts.rt, id, why))
    }

    fn settle(
        &mut self,
        parts: &mut Running<'_, N, R, G>,
        id: RequestId,
        quantum: u64,
        request: &Request,
        segment: Segment<SeatDeed<N>>,
    ) -> Result<Receipt<SeatDeed<N>>, NotSettled<Segment<SeatDeed<N>>, SeatDeed<N>>> {
        if parts.steps.stops(parts.gate, EventName::Settle) {
            return Err(NotSettled::Stopped(segment));
        }
        match self.book.settle(parts.rt, id, quantum, request, segment) {
            Ok(receipt) => Ok(receipt),
            Err(fault) => Err(fault),
        }
    }

    fn release(
        &mut self,
        parts: &mut Running<'_, N, R, G>,
        id: RequestId,
        arena: u32,
        base: Quantity,
    ) -> Result<(Receipt<SeatDeed<N>>, Segment<SeatDeed<N>>), NotReleased<SeatDeed<N>>> {
        if parts.steps.stops(parts.gate, EventName::Release) {
            return Err(NotReleased::Stopped);
        }
        match self.book.release(parts.rt, id, arena, base) {
            Ok((receipt, segment)) => Ok((receipt, segment)),
            Err(fault) => Err(fault),
        }
    }

    fn hello(
        &mut self,
        parts: &mut Running<'_, N, R, G>,
        client: ClientId,
        incarnation: Ordinal,
        protocol: Protocol,
    ) -> Result<Taken<SeatDeed<N>>, NotGreeted<SeatDeed<N>>> {
        if parts.steps.stops(parts.gate, EventName::Look) {
            return Err(NotGreeted::Stopped);
        }
        self.book.hello(parts.rt, client, incarnation, protocol)
    }

    fn sweep(
        &mut self,
        parts: &mut Running<'_, N, R, G>,
        taken: &Taken<SeatDeed<N>>,
    ) -> Result<SweepEnd<Segment<SeatDeed<N>>, SeatDeed<N>>, Stopped> {
        if parts.steps.stops(parts.gate, EventName::Sweep) {
            return Err(Stopped);
        }
        match self.book.sweep(parts.rt, taken) {
            SweepEnd::Ended(id, segment) => Ok(SweepEnd::Ended(id, segment)),
            SweepEnd::Welcome(welcomed) => Ok(SweepEnd::Welcome(welcomed)),
        }
    }
}
