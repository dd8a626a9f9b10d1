//! The book of a running system under its lock. Each call takes the lock once, calls one method on
//! what it finds there, and returns what that returned.
ghost use Rattle.std.specs.Prelude.{◌≡◌, Ok};
ghost use Rattle.deed_core.specs.Request.{Fits};
ghost use Rattle.deed_table.specs.declared.deeds.SeatDeed.{SeatDeed};
ghost use Rattle.lease_call.specs.CallTags.{tag_swept};
ghost use Rattle.lease_call.specs.Calls.{Look, Settle, Refuse, Release, Hello, Sweep, IsWelcomeOf};
ghost use Rattle.lease_book.specs.Calls.{IsSystemRefusal};
ghost use Rattle.arena_tree.specs.declared.limits.TheConstants.{MOST_ROOTS};
ghost use Rattle.shared_book.specs.Calls.{IsLockedCall};

use crate::marked_books::{LeaseStands, MarkedBook, NoLease};
use deed_core::{Request, Segment};
use deed_table::{Name, Root, SeatDeed};
use lease_book::{Answer, Book, Receipt, SweepEnd, Taken};
use lease_call::{NotGreeted, NotReleased, NotSettled};
use lease_terms::{ClientId, Ordinal, Protocol, Quantity, Refusal, RequestId};
use std::sync::{Mutex, Wait};

/// The book of leases that the threads of a running system share, with the root of its mark, under
/// a lock of its own. A contract sees nothing of what lies under the lock: a call says only that it
/// was an event of some book that entries give, with such a mark. It is never dropped: `end` ends
/// it.
pub struct SharedBook<N: Name> {
    pub(crate) book: Mutex<MarkedBook<N>>,
}

impl<N: Name> SharedBook<N> {
    /// Puts a book under its lock, with the root of its mark.
    pub fn new(book: Book<SeatDeed<N>>, mark: Root<N>) -> SharedBook<N>
        requires { (book.mark ≡ mark) × (mark.root ≡ MOST_ROOTS) }
    {
        SharedBook {
            book: Mutex::new(MarkedBook::new(book, mark)),
        }
    }

    /// Ends a book of no leases, and closes the root of its mark. A book of leases comes back, with
    /// what says that a lease stands.
    pub fn end(self) -> Result<(), (SharedBook<N>, LeaseStands)> {
        let SharedBook { book } = self;
        match book.into_inner().end() {
            Ok(()) => Ok(()),
            Err((book, found)) => {
                let book = SharedBook {
                    book: Mutex::new(book),
                };
                Err((book, found))
            }
        }
    }

    /// Ends a lease, whichever, and gives its segment. Where no lease stands, it says so.
    pub fn take_lease<R: Wait>(&self, rt: &R) -> Result<Segment<SeatDeed<N>>, NoLease> {
        self.book.lock(rt).take_lease()
    }

    /// The answer to a request whose number isn't new. None: it is new.
    pub fn look<R: Wait>(&self, rt: &R, id: RequestId) -> Option<Answer<SeatDeed<N>>>
        ensures { IsLockedCall _ (Look id) (Ok result) }
    {
        let book = self.book.lock(rt);
        book.check();
        book.look(id)
    }

    /// Settles a request by a refusal that the book didn't find.
    pub fn refuse<R: Wait>(&self, rt: &R, id: RequestId, why: Refusal) -> Answer<SeatDeed<N>>
        requires { IsSystemRefusal why }
        ensures { IsLockedCall _ (Refuse id why) (Ok result) }
    {
        let mut book = self.book.lock(rt);
        book.check();
        book.refuse(id, why)
    }

    /// Settles a request by a grant of the segment, which comes back where that isn't leased.
    pub fn settle<R: Wait>(
        &self,
        rt: &R,
        id: RequestId,
        quantum: u64,
        request: &Request,
        segment: Segment<SeatDeed<N>>,
    ) -> Result<Receipt<SeatDeed<N>>, NotSettled<Segment<SeatDeed<N>>, SeatDeed<N>>>
        requires { Fits quantum request.now
            segment.holding.range.base segment.holding.range.len }
        ensures { IsLockedCall _
            (Settle id segment (record { quantum = quantum; request = request.now })) result }
    {
        let mut book = self.book.lock(rt);
        book.check();
        book.settle(id, quantum, request, segment)
    }

    /// Settles a request by a release, and gives the segment of the lease that it ended.
    pub fn release<R: Wait>(
        &self,
        rt: &R,
        id: RequestId,
        arena: u32,
        base: Quantity,
    ) -> Result<(Receipt<SeatDeed<N>>, Segment<SeatDeed<N>>), NotReleased<SeatDeed<N>>>
        ensures { IsLockedCall _ (Release id arena base) result }
    {
        let mut book = self.book.lock(rt);
        book.check();
        book.release(id, arena, base)
    }

    /// Takes a hello that asks for a protocol, and returns with what it took which protocol stands
    /// for its incarnation.
    pub fn hello<R: Wait>(
        &self,
        rt: &R,
        client: ClientId,
        incarnation: Ordinal,
        protocol: Protocol,
    ) -> Result<Taken<SeatDeed<N>>, NotGreeted<SeatDeed<N>>>
        ensures { IsLockedCall (SeatDeed N) (Hello client incarnation protocol) result }
    {
        let mut book = self.book.lock(rt);
        book.check();
        book.hello(client, incarnation, protocol)
    }

    /// Ends a lease of an older incarnation of the client whose hello was taken, and gives its
    /// segment; where none is left, the client is welcome.
    pub fn sweep<R: Wait>(
        &self,
        rt: &R,
        taken: &Taken<SeatDeed<N>>,
    ) -> SweepEnd<Segment<SeatDeed<N>>, SeatDeed<N>>
        ensures event { IsLockedCall (SeatDeed N) (Sweep taken.now.client)
            (tag_swept (λ t. t) (Ok result)) }
        ensures welcome { IsWelcomeOf taken.now result }
    {
        let mut book = self.book.lock(rt);
        book.check();
        book.sweep(taken)
    }
}
