//! The book of leases.
ghost use Rattle.std.specs.Prelude.{◌≡◌, ◌==◌, ◌<◌, ◌≤◌, ◌↔◌, List, [], length, IsOk, IsNone};
ghost use Rattle.std.specs.Prelude.{OnOk, OnErr, IfOk, IfErr, IfSome, IfNone, IsTrue, Some, None};
ghost use Rattle.std.specs.Prelude.{◌+◌, ◌++◌, slice_get, sum_by, vec_len, vec_capacity};
ghost use Rattle.std.specs.List.{find, list_any};
ghost use Rattle.std.specs.Option.{option_map};
ghost use Rattle.deed_core.specs.Request.{Fits};
ghost use Rattle.lease_terms.specs.Requests.{IsRequestId};
ghost use Rattle.lease_terms.specs.declared.values.TheConstants.{LAST_CLIENT};
ghost use Rattle.lease_book.specs.Receipts.{Kept};
ghost use Rattle.lease_book.specs.Entry.{Entry, Hello};
ghost use Rattle.lease_book.specs.Account.{is_lease, is_older};
ghost use Rattle.lease_book.specs.History.{account, clients_of};
ghost use Rattle.lease_book.specs.BookState.{BookState, IsHistory, HasHistory, Enters, account_in};
ghost use Rattle.lease_book.specs.BookState.{leased_segments, leased_in, units_of_arena};
ghost use Rattle.lease_book.specs.Reports.{report_of, lease_reports};
ghost use Rattle.lease_book.specs.declared.books.TheConstants.{MOST_LEASES};

use crate::accounts::Accounts;
use crate::answers::{Answer, HelloFault, Look, NotLeased};
use crate::leases::{Held, Which};
use crate::receipts::{Kept, KeptReply, Receipt, Terms};
use crate::reports::{ClientReport, LeaseReport};
use crate::standings::Standing;
use crate::words::{BookNumber, SweepEnd, Taken, Welcomed};
use deed_core::{Deed, Request, Segment};
use lease_terms::{ClientId, Ordinal, Protocol, Quantity, Refusal, RequestId};
use std::alloc::Global;
use std::marker::Model;

/// As many leases a client may have, those of older incarnations among them. (Our own choice.)
pub const MOST_LEASES: usize = 1024;

/// Which client holds which segment, and the settled numbers and the kept replies of each client's
/// current incarnation.
pub struct Book<D: Deed> {
    mark: D,
    accounts: Accounts<D>,
}

impl<D: Deed> Model for Book<D> {
    ghost use Rattle.lease_book.specs.BookState.{BookState, HasHistory};

    ghost Value = { BookState };

    ghost view = { λ b. record { mark = D.holding b.mark; accounts = b.accounts } };

    ghost invariant = { λ b.
        HasHistory (record { mark = D.holding b.mark; accounts = b.accounts }) };
}

impl<D: Deed> Book<D> {
    ghost use Rattle.lease_book.specs.Answers.{receipt, IsNew, IsLook, IsAnswer, IsHelloFault};
    ghost use Rattle.lease_book.specs.Shelf.{standing_of};
    ghost use Rattle.lease_book.specs.Calls.{IsFound, IsGranted, IsRefused, IsReleased, IsEnded};
    ghost use Rattle.lease_book.specs.Calls.{IsSwept, IsSweptClean, IsSweptFor};

    /// An empty book. The mark is a deed of the one unit 0; its root tells the book's receipts from
    /// another's.
    pub fn new(alloc: Global, mark: D) -> Book<D>
        requires { (D.holding mark).range ≡ record { base = 0; len = 1 } }
        ensures mark { result.mark ≡ D.holding mark }
        ensures empty { IsHistory [] result }
    {
        Book {
            mark,
            accounts: Accounts::new(alloc),
        }
    }

    /// The number of the root of the book's mark. What a book holds is always what some entries
    /// give.
    pub fn mark(&self) -> u32
        ensures mark { result ≡ self.now.mark.root }
        ensures history { HasHistory self.now }
    {
        self.mark.root()
    }

    /// Ends a book of no leases, and gives its mark back.
    pub fn close(mut self) -> Result<D, Book<D>>
        ensures exactly { IsOk result ↔ (leased_segments self ≡ []) }
        ensures mark { IfOk result (λ mark. D.holding mark ≡ self.mark) }
        ensures handed_back { IfErr result (λ book. book ≡ self) }
    {
        if self.accounts.first_leased().is_some() {
            return Err(self);
        }
        let Book { mark, accounts } = self;
        accounts.close();
        Ok(mark)
    }

    /// Takes a client's hello with an incarnation, and tells the protocol that stands for it: that
    /// of its first hello. Room for all replies that are kept is made by that one, so that a later
    /// one is never out of memory; nor is one that begins an incarnation with the first protocol,
    /// where the client is known.
    pub fn hello(
        &mut self,
        client: ClientId,
        incarnation: Ordinal,
        protocol: Protocol,
    ) -> Result<Taken<D>, HelloFault<D>>
        ensures taken { OnOk result
            (Enters (Hello client incarnation protocol) self.old self.new) }
        ensures standing { IfOk result (λ t. t ≡ record {
          client = client;
          incarnation = incarnation;
          protocol = (account_in client self.new).protocol;
        }) }
        ensures known { incarnation ≡ (account_in client self.old).incarnation
            → self.new ≡ self.old }
        ensures leases { leased_segments self.new ≡ leased_segments self.old }
        ensures current { OnOk result ((account_in client self.old).incarnation ≤ incarnation) }
        ensures refused { IfErr result
            (IsHelloFault (account_in client self.old).incarnation incarnation protocol) }
        ensures unchanged { OnErr result (self.new ≡ self.old) }
    {
        // For their clauses: the numbers are in their ranges.
        let _ = client.get();
        let _ = incarnation.get();
        let alloc = self.accounts.allocator();
        let Some((index, standing)) = self.account(client) else {
            let Ok(fresh) = Standing::new(alloc, incarnation, protocol) else {
                return Err(HelloFault::NoMemory);
            };
            let Ok(()) = self.accounts.open(client, fresh) else {
                return Err(HelloFault::NoMemory);
            };
            return Ok(Taken::by(client, incarnation, protocol));
        };
        let current = standing.incarnation();
        if incarnation.get() < current.get() {
            return Err(HelloFault::Old(BookNumber::told(current.quantity())));
        }
        if incarnation.get() == current.get() {
            return Ok(Taken::by(client, incarnation, standing.protocol()));
        }
        let Ok(fresh) = Standing::new(alloc, incarnation, protocol) else {
            return Err(HelloFault::NoMemory);
        };
        self.accounts.write(index, fresh);
        Ok(Taken::by(client, incarnation, protocol))
    }

    /// Goes to a client. It is for speed alone: the calls for the client that follow need no search
    /// for its account.
    pub fn go_to(&mut self, client: ClientId)
        ensures unchanged { self.new ≡ self.old }
    {
        self.accounts.go_to(client);
    }

    /// What a request's number is to the book.
    pub fn look(&self, id: RequestId) -> Look<D>
        ensures look { IsLook self.now (account_in id.client self.now) id result }
        ensures history { (entries : List Entry)
            → IsHistory entries self.now
            → IsLook self.now (account entries id.client) id result }
    {
        match self.new_at(id) {
            Some(_) => Look::New,
            None => self.seek(id),
        }
    }

    /// Whether a request's number is new.
    pub fn is_new(&self, id: RequestId) -> bool
        ensures new { IsTrue result ↔ IsNew (account_in id.client self.now) id }
        ensures history { (entries : List Entry)
            → IsHistory entries self.now
            → IsTrue result ↔ IsNew (account entries id.client) id }
    {
        self.new_at(id).is_some()
    }

    /// Settles a new request by a grant of the segment, which is of the arena and fits the request
    /// with its quantum. The request is refused where the client has as many leases as it may; that
    /// settles the number too. Each `Err` hands the segment back.
    pub fn settle(
        &mut self,
        id: RequestId,
        arena: u32,
        quantum: u64,
        request: &Request,
        segment: Segment<D>,
    ) -> Result<Receipt<D>, NotLeased<Segment<D>, D>>
        requires arena { segment.arena ≡ arena }
        requires fits { Fits quantum request.now
            segment.holding.range.base segment.holding.range.len }
        ensures granted { IfOk result (IsGranted self.old self.new id segment
            (record { quantum = quantum; request = request.now })) }
        ensures handed_back { IfErr result (λ e. e.segment ≡ segment) }
        ensures answer { IfErr result (λ e. IsAnswer self.old self.new id
            (λ v. IsRefused self.old self.new id Refusal.Leases v
            × (MOST_LEASES ≤ length (account_in id.client self.old).leases))
            (IsNew (account_in id.client self.old) id
            × (length (account_in id.client self.old).leases < MOST_LEASES))
            e.answer) }
    {
        let Some(index) = self.new_at(id) else {
            let answer = self.told(id);
            return Err(NotLeased { segment, answer });
        };
        if self.accounts.leases(index).len() == MOST_LEASES {
            let answer = Answer::Refused(self.refuse_at(index, id, Refusal::Leases));
            return Err(NotLeased { segment, answer });
        }
        let reply = KeptReply::granted(arena, &segment.range());
        match self.accounts.lease(index, Held::new(id, segment)) {
            Ok(()) => {
                let terms = Terms {
                    quantum,
                    request: *request,
                };
                let kept = self.accounts.keep(index, id, reply, Some(terms));
                Ok(self.receipt(id, kept))
            }
            Err(segment) => {
                let answer = Answer::Again;
                Err(NotLeased { segment, answer })
            }
        }
    }

    /// Settles a new request by a refusal.
    pub fn refuse(&mut self, id: RequestId, refusal: Refusal) -> Answer<D>
        ensures { IsAnswer self.old self.new id (IsRefused self.old self.new id refusal) ⊥ result }
    {
        match self.new_at(id) {
            Some(index) => Answer::Refused(self.refuse_at(index, id, refusal)),
            None => self.told(id),
        }
    }

    /// Settles a new request by the release of the first lease of the incarnation with this arena
    /// and base. Where the incarnation has none the request is refused, and that settles the number
    /// too.
    pub fn release(
        &mut self,
        id: RequestId,
        arena: u32,
        base: Quantity,
    ) -> Result<(Receipt<D>, Segment<D>), Answer<D>>
        ensures released { IfOk result (λ r. IsReleased self.old self.new id arena base r.0 r.1) }
        ensures answer { IfErr result (IsAnswer self.old self.new id
            (λ v. IsRefused self.old self.new id Refusal.NotYours v
            × (find (is_lease id.incarnation arena base)
            (account_in id.client self.old).leases ≡ None))
            ⊥) }
    {
        // For its clause: the base is in its range.
        let _ = base.get();
        let Some(index) = self.new_at(id) else {
            return Err(self.told(id));
        };
        let Some(held) = self.accounts.take(index, Which::At(id, arena, base)) else {
            return Err(Answer::Refused(self.refuse_at(index, id, Refusal::NotYours)));
        };
        let reply = KeptReply::Released { arena, base };
        let kept = self.accounts.keep(index, id, reply, None);
        Ok((self.receipt(id, kept), held.into_segment()))
    }

    /// Whether a lease of an older incarnation of the client stands: `sweep` gives one just then.
    pub fn can_sweep(&self, client: ClientId) -> bool
        ensures { result ≡ list_any (is_older (account_in client self.now).incarnation)
            (account_in client self.now).leases }
    {
        let Some((index, standing)) = self.account(client) else {
            return false;
        };
        self.accounts
            .leases(index)
            .has_older(standing.incarnation())
    }

    /// Ends a lease of an older incarnation of the client, and gives it with the request that was
    /// granted it. Which one is left open; it is the first in order of grant.
    pub fn sweep(&mut self, client: ClientId) -> Option<(RequestId, Segment<D>)>
        ensures swept { IfSome result (λ r. IsSwept self.old self.new client r.0 r.1) }
        ensures none { IfNone result (IsSweptClean self.old client) }
        ensures unchanged { IfNone result (self.new ≡ self.old) }
    {
        let (index, standing) = self.account(client)?;
        let older = Which::Before(standing.incarnation());
        let held = self.accounts.take(index, older)?;
        Some(held.ended(client))
    }

    /// The same for the client of a hello that was taken, which is welcome where none is left.
    pub fn welcome(&mut self, taken: &Taken<D>) -> SweepEnd<Segment<D>, D>
        ensures { IsSweptFor self.old self.new taken.now result }
    {
        match self.sweep(taken.client()) {
            Some((id, segment)) => SweepEnd::Ended(id, segment),
            None => SweepEnd::Welcome(Welcomed::after(taken)),
        }
    }

    /// Ends a lease, whichever, at a system's end, and gives it with the request that was granted
    /// it. A search goes on where the one before ended, so that ending all leases looks at each
    /// client once.
    pub fn take_lease(&mut self) -> Option<(RequestId, Segment<D>)>
        ensures taken { IfSome result (λ r. IsEnded self.old self.new r.0 r.1) }
        ensures exactly { IsNone result ↔ (leased_segments self.old ≡ []) }
        ensures unchanged { IfNone result (self.new ≡ self.old) }
    {
        let index = self.accounts.first_leased()?;
        let client = self.accounts.client(index);
        let held = self.accounts.take(index, Which::Any)?;
        Some(held.ended(client))
    }

    /// The units of the arena that are leased.
    pub fn units(&self, arena: u32) -> u128
        ensures value { result ≡ sum_by (units_of_arena arena) (leased_segments self.now) }
        ensures history { (entries : List Entry)
            → IsHistory entries self.now
            → result ≡ sum_by (units_of_arena arena) (leased_in entries) }
    {
        self.accounts.units(arena)
    }

    /// How many clients ever said hello. In order of first hello they stand at the indexes below
    /// this.
    pub fn clients(&self) -> usize
        ensures count { result ≡ length self.now.accounts }
        ensures few { result ≤ LAST_CLIENT }
        ensures history { (entries : List Entry)
            → IsHistory entries self.now
            → result ≡ length (clients_of entries) }
    {
        self.accounts.len()
    }

    /// The client that stands at an index in order of first hello.
    pub fn client_at(&self, index: usize) -> Option<ClientReport>
        ensures value { result ≡ option_map report_of (slice_get self.now.accounts index) }
        ensures history { (entries : List Entry)
            → IsHistory entries self.now
            → result ≡ option_map (λ c. report_of (account entries c))
            (slice_get (clients_of entries) index) }
    {
        self.accounts.report(index)
    }

    /// Appends each lease of the client that stands at an index in order of first hello, in order
    /// of grant, those of older incarnations among them; none where no client stands there. It looks
    /// at that client's leases alone, at most `MOST_LEASES`, and takes no memory.
    pub fn leases_at(&self, index: usize, out: &mut Vec<LeaseReport>)
        requires room { vec_len out.old + MOST_LEASES ≤ vec_capacity out.old }
        ensures leases { out.new.items
            ≡ out.old.items ++ lease_reports (slice_get self.now.accounts index) }
        ensures capacity { vec_capacity out.new ≡ vec_capacity out.old }
        ensures history { (entries : List Entry)
            → IsHistory entries self.now
            → out.new.items ≡ out.old.items ++ lease_reports
            (option_map (account entries) (slice_get (clients_of entries) index)) }
    {
        self.accounts.tell_leases(index, out);
    }

    /// Where the account of the client stands, and what is kept there, the leases apart.
    fn account(&self, client: ClientId) -> Option<(usize, &Standing)>
        ensures found { IfSome result (λ r. IsFound self.now client r.0) }
        ensures standing { IfSome result
            (λ r. standing_of (account_in client self.now) ≡ r.1.now) }
        ensures none { IfNone result (find (λ a. client == a.client) self.now.accounts ≡ None) }
    {
        let index = self.accounts.find(client)?;
        Some((index, self.accounts.standing(index)))
    }

    /// What a number that isn't new is to the book.
    #[cold]
    fn seek(&self, id: RequestId) -> Look<D>
        requires { ¬ IsNew (account_in id.client self.now) id }
        ensures { IsLook self.now (account_in id.client self.now) id result }
    {
        match self.account(id.client) {
            Some((_, standing)) => self.look_by(standing, id),
            None => Look::Old(BookNumber::told(Quantity::ZERO)),
        }
    }

    /// What a number that isn't new is to the book, by what is kept of the client.
    fn look_by(&self, standing: &Standing, id: RequestId) -> Look<D>
        requires standing { standing_of (account_in id.client self.now) ≡ standing.now }
        requires known { ¬ IsNew (account_in id.client self.now) id }
        ensures { IsLook self.now (account_in id.client self.now) id result }
    {
        let current = standing.incarnation();
        if id.incarnation.get() != current.get() {
            return Look::Old(BookNumber::told(current.quantity()));
        }
        let last = standing.last();
        if id.number.get() + standing.protocol().window() <= last.get() {
            return Look::Stale(BookNumber::told(last));
        }
        match standing.at(id.number) {
            Some(kept) => {
                let receipt = self.receipt(id, kept);
                // For its clause: a grant meets its terms.
                let _ = receipt.reply();
                Look::Kept(receipt)
            }
            None => Look::Gap(BookNumber::told(standing.low())),
        }
    }

    /// The answer to a request whose number isn't new.
    #[cold]
    fn told(&self, id: RequestId) -> Answer<D>
        requires { ¬ IsNew (account_in id.client self.now) id }
        ensures { IsAnswer self.now self.now id (λ _. ⊥) ⊥ result }
    {
        match self.seek(id).answer() {
            Some(answer) => answer,
            None => unreachable!(),
        }
    }

    /// Settles a new request of the client whose account has this index by a refusal.
    fn refuse_at(&mut self, index: usize, id: RequestId, refusal: Refusal) -> Receipt<D>
        requires index { IsFound self.old id.client index }
        requires new { IsNew (account_in id.client self.old) id }
        ensures { IsRefused self.old self.new id refusal result }
    {
        id.check();
        let reply = KeptReply::Refused(refusal);
        let kept = self.accounts.keep(index, id, reply, None);
        self.receipt(id, kept)
    }

    /// The receipt of this book for a request that was settled with this.
    fn receipt(&self, id: RequestId, kept: Kept) -> Receipt<D>
        ensures { result ≡ receipt self.now id kept }
    {
        Receipt::new(self.mark.root(), id, kept)
    }

    /// The index of the client's account, where the number is new. It reads what is kept there in
    /// place: most numbers are new.
    #[inline(always)]
    fn new_at(&self, id: RequestId) -> Option<usize>
        ensures new { IfSome result (λ _. IsNew (account_in id.client self.now) id) }
        ensures index { IfSome result (IsFound self.now id.client) }
        ensures none { IfNone result (¬ IsNew (account_in id.client self.now) id) }
        ensures range { IsRequestId id }
    {
        id.check();
        let (index, standing) = self.account(id.client)?;
        if standing.incarnation().get() == id.incarnation.get() && standing.is_open(id.number) {
            Some(index)
        } else {
            None
        }
    }
}
