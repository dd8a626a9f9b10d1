//! The book of leases as its lock keeps it.
ghost use Rattle.std.specs.Prelude.{◌≡◌, ◌+◌, ◌-◌, ◌^◌, ◌<◌, ◌≤◌, ◌↔◌, ◌++◌, [], length, min};
ghost use Rattle.std.specs.Prelude.{slice_get, sum_by, vec_len, vec_capacity, Ok};
ghost use Rattle.std.specs.Prelude.{IsOk, IsErr, IfOk, IfErr, OnErr};
ghost use Rattle.lease_terms.specs.declared.values.TheConstants.{LAST_CLIENT};
ghost use Rattle.shared_book.specs.Sums.{leases_from, leases_of};
ghost use Rattle.std.specs.Option.{option_map};
ghost use Rattle.deed_core.specs.Request.{Fits};
ghost use Rattle.deed_table.specs.declared.deeds.SeatDeed.{SeatDeed};
ghost use Rattle.lease_book.specs.BookState.{HasHistory, leased_segments, units_of_arena};
ghost use Rattle.lease_book.specs.Reports.{lease_reports, report_of};
ghost use Rattle.lease_book.specs.declared.books.TheConstants.{MOST_LEASES};
ghost use Rattle.lease_book.specs.Calls.{IsEnded};
ghost use Rattle.lease_call.specs.BookEvents.{BookEvent};
ghost use Rattle.lease_call.specs.CallTags.{tag_swept};
ghost use Rattle.lease_call.specs.Calls.{Look, Settle, Refuse, Release, Hello, Sweep, IsWelcomeOf};
ghost use Rattle.lease_book.specs.Calls.{IsSystemRefusal};
ghost use Rattle.lease_terms.specs.Requests.{RequestId};
ghost use Rattle.arena_tree.specs.declared.limits.TheConstants.{MOST_ROOTS};

use deed_core::{Request, Segment};
use deed_table::{Name, Root, SeatDeed, close};
use lease_book::{Answer, Book, ClientReport, LeaseReport, Receipt, SweepEnd, Taken};
use lease_call::{NotGreeted, NotReleased, NotSettled};
use lease_terms::{ClientId, Ordinal, Protocol, Quantity, Refusal, RequestId};
use std::marker::Model;

/// The book, with the root of its mark: the one after those of all arenas. Its calls alone reach
/// the book: what it finds itself, as that a lease isn't the client's, no other code can settle.
pub(crate) struct MarkedBook<N: Name> {
    book: Book<SeatDeed<N>>,
    mark: Root<N>,
}

/// That no lease stands, so that no more has to be ended. Only `MarkedBook::take_lease` makes one,
/// where it found none.
#[derive(PartialEq, Eq, Debug, Drop)]
pub struct NoLease(());

/// That a lease stands, so that the book can't end. Only `MarkedBook::end` makes one, where it
/// found one.
#[derive(PartialEq, Eq, Debug, Drop)]
pub struct LeaseStands(());

impl<N: Name> Model for MarkedBook<N> {
    ghost use Rattle.std.specs.Prelude.{◌≡◌};
    ghost use Rattle.lease_book.specs.BookState.{BookState};
    ghost use Rattle.arena_tree.specs.declared.limits.TheConstants.{MOST_ROOTS};

    ghost Value = { BookState };

    ghost view = { λ b. b.book };

    ghost invariant = { λ b. (b.book.mark ≡ b.mark) × (b.mark.root ≡ MOST_ROOTS) };
}

impl<N: Name> MarkedBook<N> {
    /// The book with this mark, and the root of that.
    pub(crate) fn new(book: Book<SeatDeed<N>>, mark: Root<N>) -> MarkedBook<N>
        requires { (book.mark ≡ mark) × (mark.root ≡ MOST_ROOTS) }
        ensures { result ≡ book }
    {
        MarkedBook { book, mark }
    }

    /// Ends a book of no leases, and closes the root of its mark. A book of leases comes back.
    pub(crate) fn end(self) -> Result<(), (MarkedBook<N>, LeaseStands)>
        ensures exactly { IsOk result ↔ (leased_segments self ≡ []) }
        ensures handed_back { IfErr result (λ same. same.0 ≡ self) }
    {
        let MarkedBook { book, mark } = self;
        match book.close() {
            Ok(deed) => match close(mark, deed) {
                Ok(_) => Ok(()),
                Err(_) => unreachable!(),
            },
            Err(book) => Err((MarkedBook { book, mark }, LeaseStands(()))),
        }
    }

    /// Its mark is of the root of a book's mark, and the book is what some entries give.
    pub(crate) fn check(&self)
        ensures mark { self.now.mark.root ≡ MOST_ROOTS }
        ensures history { HasHistory self.now }
    {
        // For its clauses: the mark is the book's.
        let _ = self.book.mark();
        let _ = self.mark.number();
    }

    /// Takes a hello that asks for a protocol, and tells the one that stands for its incarnation.
    pub(crate) fn hello(
        &mut self,
        client: ClientId,
        incarnation: Ordinal,
        protocol: Protocol,
    ) -> Result<Taken<SeatDeed<N>>, NotGreeted<SeatDeed<N>>>
        ensures { BookEvent (SeatDeed N) self.old (Hello client incarnation protocol) result
            self.new }
    {
        match self.book.hello(client, incarnation, protocol) {
            Ok(taken) => Ok(taken),
            Err(fault) => Err(NotGreeted::Late(fault)),
        }
    }

    /// Ends a lease of an older incarnation of the client whose hello was taken; where none is
    /// left, it is welcome.
    pub(crate) fn sweep(
        &mut self,
        taken: &Taken<SeatDeed<N>>,
    ) -> SweepEnd<Segment<SeatDeed<N>>, SeatDeed<N>>
        ensures event { BookEvent (SeatDeed N) self.old (Sweep taken.now.client)
            (tag_swept (λ t. t) (Ok result)) self.new }
        ensures welcome { IsWelcomeOf taken.now result }
    {
        match self.book.welcome(taken) {
            SweepEnd::Ended(id, segment) => SweepEnd::Ended(id, segment),
            SweepEnd::Welcome(welcomed) => SweepEnd::Welcome(welcomed),
        }
    }

    /// Ends a lease, whichever.
    pub(crate) fn take_lease(&mut self) -> Result<Segment<SeatDeed<N>>, NoLease>
        ensures event { IfOk result (λ t. (id : RequestId) × IsEnded self.old self.new id t) }
        ensures exactly { IsErr result ↔ (leased_segments self.old ≡ []) }
        ensures unchanged { OnErr result (self.new ≡ self.old) }
    {
        match self.book.take_lease() {
            Some((_, segment)) => Ok(segment),
            None => Err(NoLease(())),
        }
    }

    /// The units of the arena that are leased.
    pub(crate) fn units(&self, arena: u32) -> u128
        ensures { result ≡ sum_by (units_of_arena arena) (leased_segments self.now) }
    {
        self.book.units(arena)
    }

    /// How many clients ever said hello.
    pub(crate) fn clients(&self) -> usize
        ensures count { result ≡ length self.now.accounts }
        ensures few { result ≤ LAST_CLIENT }
    {
        self.book.clients()
    }

    /// The client that stands at an index in order of first hello.
    pub(crate) fn client_at(&self, index: usize) -> Option<ClientReport>
        ensures { result ≡ option_map report_of (slice_get self.now.accounts index) }
    {
        self.book.client_at(index)
    }

    /// The same, and each of its leases behind others.
    pub(crate) fn leases_at(&self, index: usize, out: &mut Vec<LeaseReport>) -> Option<ClientReport>
        requires { vec_len out.old + MOST_LEASES ≤ vec_capacity out.old }
        ensures client { result ≡ option_map report_of (slice_get self.now.accounts index) }
        ensures leases { out.new.items
            ≡ out.old.items ++ lease_reports (slice_get self.now.accounts index) }
        ensures capacity { vec_capacity out.new ≡ vec_capacity out.old }
    {
        self.book.leases_at(index, out);
        self.book.client_at(index)
    }

    /// How many leases these clients have, in order of first hello: so many of them, from one on.
    /// It stays at the greatest number.
    pub(crate) fn leases(&self, from: usize, count: usize) -> usize
        requires { from + count < 2 ^ 64 }
        ensures { result ≡ min (leases_from self.now.accounts from count) (2 ^ 64 - 1) }
    {
        let mut leases: usize = 0;
        for place in 0..count {
            leases = leases.saturating_add(self.leases_of(from + place));
        }
        leases
    }

    /// How many the one at an index has, if there is one.
    fn leases_of(&self, index: usize) -> usize
        ensures { result ≡ leases_of (slice_get self.now.accounts index) }
    {
        match self.book.client_at(index) {
            Some(report) => report.leases,
            None => 0,
        }
    }

    /// The answer to a request whose number isn't new.
    pub(crate) fn look(&self, id: RequestId) -> Option<Answer<SeatDeed<N>>>
        ensures { BookEvent (SeatDeed N) self.now (Look id) (Ok result) self.now }
    {
        let look = self.book.look(id);
        look.answer()
    }

    /// Settles a request by a refusal that the book didn't find.
    pub(crate) fn refuse(&mut self, id: RequestId, why: Refusal) -> Answer<SeatDeed<N>>
        requires { IsSystemRefusal why }
        ensures { BookEvent (SeatDeed N) self.old (Refuse id why) (Ok result) self.new }
    {
        self.book.refuse(id, why)
    }

    /// Settles a request by a grant of the segment.
    pub(crate) fn settle(
        &mut self,
        id: RequestId,
        quantum: u64,
        request: &Request,
        segment: Segment<SeatDeed<N>>,
    ) -> Result<Receipt<SeatDeed<N>>, NotSettled<Segment<SeatDeed<N>>, SeatDeed<N>>>
        requires fits { Fits quantum request.now
            segment.holding.range.base segment.holding.range.len }
        ensures { BookEvent (SeatDeed N) self.old
            (Settle id segment (record { quantum = quantum; request = request.now }))
            result self.new }
    {
        let arena = segment.arena();
        match self.book.settle(id, arena, quantum, request, segment) {
            Ok(receipt) => Ok(receipt),
            Err(not_leased) => Err(NotSettled::NotLeased(not_leased)),
        }
    }

    /// Settles a request by a release.
    pub(crate) fn release(
        &mut self,
        id: RequestId,
        arena: u32,
        base: Quantity,
    ) -> Result<(Receipt<SeatDeed<N>>, Segment<SeatDeed<N>>), NotReleased<SeatDeed<N>>>
        ensures { BookEvent (SeatDeed N) self.old (Release id arena base) result self.new }
    {
        match self.book.release(id, arena, base) {
            Ok((receipt, segment)) => Ok((receipt, segment)),
            Err(answer) => Err(NotReleased::Answered(answer)),
        }
    }
}
