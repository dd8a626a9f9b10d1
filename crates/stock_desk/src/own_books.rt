//! The book of one thread, as its selected CPU reaches it.
ghost use Rattle.std.specs.Prelude.{◌≡◌};
ghost use Rattle.lease_call.specs.BookEvents.{BookEvent};

use arena_tree::Stopped;
use deed_core::{PlainDeed, Request, Segment};
use lease_book::{Answer, Book, Receipt, SweepEnd, Taken};
use lease_call::{Books, NotGreeted, NotReleased, NotSettled};
use lease_terms::{ClientId, Ordinal, Protocol, Quantity, Refusal, RequestId};
use local_parts::Local;

/// The book, lent. It never stops anyone.
#[derive(Drop)]
pub(crate) struct OwnBook<'a> {
    pub book: &'a mut Book<PlainDeed>,
}

impl Books<Segment<PlainDeed>, PlainDeed, Local<'_, PlainDeed>> for OwnBook<'_> {
    ghost step = { λ b s k a c t.
        BookEvent _ b.book.now k a c.book.now × (c.book.ghost_name ≡ b.book.ghost_name)
        × (t.stock.now ≡ s.stock.now) × (t.cpu.now ≡ s.cpu.now)
        × (t.stock.ghost_name ≡ s.stock.ghost_name) × (t.cpu.ghost_name ≡ s.cpu.ghost_name) };

    fn look(
        &mut self,
        _parts: &mut Local<'_, PlainDeed>,
        id: RequestId,
    ) -> Result<Option<Answer<PlainDeed>>, Stopped> {
        if self.book.is_new(id) {
            return Ok(None);
        }
        Ok(self.book.look(id).answer())
    }

    fn refuse(
        &mut self,
        _parts: &mut Local<'_, PlainDeed>,
        id: RequestId,
        why: Refusal,
    ) -> Result<Answer<PlainDeed>, Stopped> {
        Ok(self.book.refuse(id, why))
    }

    fn settle(
        &mut self,
        _parts: &mut Local<'_, PlainDeed>,
        id: RequestId,
        quantum: u64,
        request: &Request,
        segment: Segment<PlainDeed>,
    ) -> Result<Receipt<PlainDeed>, NotSettled<Segment<PlainDeed>, PlainDeed>> {
        let arena = segment.arena();
        match self.book.settle(id, arena, quantum, request, segment) {
            Ok(receipt) => Ok(receipt),
            Err(not_leased) => Err(NotSettled::NotLeased(not_leased)),
        }
    }

    fn release(
        &mut self,
        parts: &mut Local<'_, PlainDeed>,
        id: RequestId,
        arena: u32,
        base: Quantity,
    ) -> Result<(Receipt<PlainDeed>, Segment<PlainDeed>), NotReleased<PlainDeed>> {
        // For speed alone: the arena looks for the segment's memory while the book is asked.
        if (arena as usize) < parts.stock.count() {
            parts.stock.go_to(arena as usize, base.get());
        }
        match self.book.release(id, arena, base) {
            Ok((receipt, segment)) => Ok((receipt, segment)),
            Err(answer) => Err(NotReleased::Answered(answer)),
        }
    }

    fn hello(
        &mut self,
        _parts: &mut Local<'_, PlainDeed>,
        client: ClientId,
        incarnation: Ordinal,
        protocol: Protocol,
    ) -> Result<Taken<PlainDeed>, NotGreeted<PlainDeed>> {
        match self.book.hello(client, incarnation, protocol) {
            Ok(taken) => Ok(taken),
            Err(fault) => Err(NotGreeted::Late(fault)),
        }
    }

    fn sweep(
        &mut self,
        _parts: &mut Local<'_, PlainDeed>,
        taken: &Taken<PlainDeed>,
    ) -> Result<SweepEnd<Segment<PlainDeed>, PlainDeed>, Stopped> {
        match self.book.welcome(taken) {
            SweepEnd::Ended(id, segment) => Ok(SweepEnd::Ended(id, segment)),
            SweepEnd::Welcome(welcomed) => Ok(SweepEnd::Welcome(welcomed)),
        }
    }
}
