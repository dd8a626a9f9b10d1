//! The accounts of the clients, in order of first hello.
ghost use Rattle.std.specs.Prelude.{◌≡◌, ◌≢◌, ◌+◌, ◌*◌, ◌<◌, ◌≤◌, ◌==◌, ◌↔◌, List, [], ◌∷◌};
ghost use Rattle.std.specs.Prelude.{◌++◌, length, All, OnOk, OnErr, IfErr, IfSome, IfNone, IsTrue};
ghost use Rattle.std.specs.Prelude.{Some, None, slice_get, position, sum_by, nat_lt, option_map};
ghost use Rattle.std.specs.Prelude.{vec_len, vec_capacity};
ghost use Rattle.std.specs.List.{find};
ghost use Rattle.lease_terms.specs.declared.values.TheConstants.{LAST_CLIENT};
ghost use Rattle.lease_book.specs.Receipts.{IsEarned};
ghost use Rattle.lease_book.specs.Standings.{IsOpen};
ghost use Rattle.lease_book.specs.Account.{Account, without_first};
ghost use Rattle.lease_book.specs.Places.{is_asked};
ghost use Rattle.lease_book.specs.Shelf.{IsEmptyBefore};
ghost use Rattle.lease_book.specs.declared.books.TheConstants.{MOST_LEASES};

use crate::leases::{Held, Leases, Which};
use crate::receipts::{Kept, KeptReply, Terms};
use crate::reports::{ClientReport, LeaseReport};
use crate::standings::Standing;
use crate::totals::Totals;
use deed_core::{Deed, Segment};
use indexmap::IndexMap;
use lease_terms::{ClientId, Quantity, RequestId};
use std::alloc::{AllocError, Global};
use std::marker::Model;

/// What is kept of each client, and beside it its leases. No client before the index `empty` has a
/// lease: so a search for a client that has one needn't begin from the first each time. A client is
/// looked for first at the index `near`, where it was last gone to. How many units of each arena
/// are leased is counted with each lease that comes and goes.
pub(crate) struct Accounts<D: Deed> {
    clients: IndexMap<ClientId, Standing>,
    leases: Vec<Leases<D>>,
    empty: usize,
    near: usize,
    totals: Totals,
}

impl<D: Deed> Model for Accounts<D> {
    ghost use Rattle.std.specs.Prelude.{List};
    ghost use Rattle.lease_book.specs.Account.{Account};
    ghost use Rattle.lease_book.specs.Shelf.{accounts_of, IsStored};

    ghost Value = { List Account };

    ghost view = { λ a. accounts_of a.clients.entries a.leases.items };

    ghost invariant = { λ a. IsStored a.clients.entries a.leases.items a.empty a.totals };
}

impl<D: Deed> Accounts<D> {
    ghost use Rattle.lease_book.specs.Shelf.{account_with, update_at, standing_of, with_standing};
    ghost use Rattle.lease_book.specs.Shelf.{with_leases, with_settled};
    ghost use Rattle.lease_book.specs.BookState.{segments_of_accounts, units_of_arena};
    ghost use Rattle.lease_book.specs.Reports.{report_of, lease_reports};

    /// No accounts.
    pub(crate) fn new(alloc: Global) -> Accounts<D>
        ensures { result ≡ [] }
    {
        Accounts {
            clients: IndexMap::new(alloc),
            leases: Vec::new(alloc),
            empty: 0,
            near: 0,
            totals: Totals::new(alloc),
        }
    }

    /// How many clients have an account: at most as many as there are numbers of clients.
    pub(crate) fn len(&self) -> usize
        ensures count { result ≡ length self.now }
        ensures few { result ≤ LAST_CLIENT }
    {
        self.clients.len()
    }

    /// The index of a client's account.
    #[inline(always)]
    pub(crate) fn find(&self, client: ClientId) -> Option<usize>
        ensures within { IfSome result (λ i. i < length self.now) }
        ensures found { IfSome result
            (λ i. find (λ a. client == a.client) self.now ≡ slice_get self.now i) }
        ensures none { IfNone result (find (λ a. client == a.client) self.now ≡ None) }
    {
        if self.is_at(self.near, client) {
            return Some(self.near);
        }
        self.clients.get_index_of(&client)
    }

    /// Whether the account with this index is seen to be the client's: where it isn't, the map is
    /// asked.
    #[inline(always)]
    fn is_at(&self, index: usize, client: ClientId) -> bool
        ensures within { IsTrue result → index < length self.now }
        ensures found { IsTrue result
            → find (λ a. client == a.client) self.now ≡ slice_get self.now index }
    {
        match self.clients.get_index(index) {
            Some((found, _)) => found.get() == client.get(),
            None => false,
        }
    }

    /// Goes to a client's account. It is for speed alone: the calls for the client that follow need
    /// no search for it.
    pub(crate) fn go_to(&mut self, client: ClientId)
        ensures unchanged { self.new ≡ self.old }
    {
        if let Some(index) = self.find(client) {
            self.near = index;
        }
    }

    /// What is kept at this index, the leases apart.
    pub(crate) fn standing(&self, index: usize) -> &Standing
        requires { index < length self.now }
        ensures { option_map standing_of (slice_get self.now index) ≡ Some result.now }
    {
        &self.clients[index]
    }

    /// Puts this in place of what is kept at the index, the leases apart.
    pub(crate) fn write(&mut self, index: usize, standing: Standing)
        requires { index < length self.old }
        ensures { self.new ≡ update_at self.old index (with_standing standing) }
    {
        self.clients[index] = standing;
    }

    /// The allocator of all that is kept.
    pub(crate) fn allocator(&self) -> Global {
        *self.leases.allocator()
    }

    /// Keeps and gives what a request was settled with.
    pub(crate) fn keep(
        &mut self,
        index: usize,
        id: RequestId,
        reply: KeptReply,
        terms: Option<Terms>,
    ) -> Kept
        requires within { index < length self.old }
        requires fresh { IfSome (slice_get self.old index)
            (λ a. IsOpen (standing_of a) id.number) }
        requires earned { IsEarned reply terms }
        ensures value { result ≡ record { number = id.number; reply = reply; terms = terms } }
        ensures accounts { self.new ≡ update_at self.old index (with_settled result) }
    {
        let kept = Kept::new(id.number, reply, terms);
        self.clients[index].add(&kept);
        kept
    }

    /// Adds the account of a new client.
    pub(crate) fn open(&mut self, client: ClientId, standing: Standing) -> Result<(), AllocError>
        requires { find (λ a. client == a.client) self.old ≡ None }
        ensures ok { OnOk result (self.new ≡ self.old ++ account_with client standing [] ∷ []) }
        ensures unchanged { OnErr result (self.new ≡ self.old) }
    {
        // For its clause: the client is in its range.
        let _ = client.get();
        self.leases.reserve(1)?;
        self.clients.reserve(1)?;
        let leases = Leases::new(*self.leases.allocator());
        match self.clients.insert(client, standing) {
            Ok(_) => {}
            Err(_) => unreachable!(),
        }
        self.leases.push_reserved(leases);
        Ok(())
    }

    /// The leases of the client whose account has this index.
    pub(crate) fn leases(&self, index: usize) -> &Leases<D>
        requires { index < length self.now }
        ensures leases { IfSome (slice_get self.now index) (λ a. a.leases ≡ result.now) }
        ensures limited { length result.now ≤ MOST_LEASES }
    {
        &self.leases[index]
    }

    /// Adds a lease. `Err` is out of memory.
    pub(crate) fn lease(&mut self, index: usize, held: Held<D>) -> Result<(), Segment<D>>
        requires within { index < length self.old }
        requires room { IfSome (slice_get self.old index) (λ a. length a.leases < MOST_LEASES) }
        ensures ok { OnOk result (self.new ≡ update_at self.old index
            (with_leases (λ ls. ls ++ held ∷ []))) }
        ensures unchanged { OnErr result (self.new ≡ self.old) }
        ensures handed_back { IfErr result (λ s. s ≡ held.segment) }
    {
        let (arena, units) = held.arena_and_units();
        let Ok(()) = self.totals.add(arena, units) else {
            return Err(held.into_segment());
        };
        self.empty = self.empty.min(index);
        match self.leases[index].add(held) {
            Ok(()) => Ok(()),
            Err(segment) => {
                self.totals.subtract(arena, units);
                Err(segment)
            }
        }
    }

    /// Takes the first lease out that is asked for.
    #[inline(always)]
    pub(crate) fn take(&mut self, index: usize, which: Which) -> Option<Held<D>>
        requires { index < length self.old }
        ensures lease { IfSome (slice_get self.old index)
            (λ a. find (is_asked which) a.leases ≡ result) }
        ensures rest { self.new ≡ update_at self.old index
            (with_leases (without_first (is_asked which))) }
        ensures unchanged { IfNone result (self.new ≡ self.old) }
    {
        let held = self.leases[index].take(which)?;
        let (arena, units) = held.arena_and_units();
        self.totals.subtract(arena, units);
        Some(held)
    }

    /// The index of a client that has a lease. The search goes on where the one before ended.
    pub(crate) fn first_leased(&mut self) -> Option<usize>
        ensures unchanged { self.new ≡ self.old }
        ensures within { IfSome result (λ i. i < length self.old) }
        ensures found { IfSome result
            (λ i. IfSome (slice_get self.old i) (λ a. 0 < length a.leases)) }
        ensures own { IfSome result (λ i. IfSome (slice_get self.old i)
            (λ a. find (λ b. a.client == b.client) self.old ≡ Some a)) }
        ensures some { IfSome result (λ _. segments_of_accounts self.old ≢ []) }
        ensures none { IfNone result (segments_of_accounts self.old ≡ []) }
    {
        let index = first_leased(&self.leases, self.empty)?;
        self.empty = index;
        Some(index)
    }

    /// The client whose account has this index.
    pub(crate) fn client(&self, index: usize) -> ClientId
        requires { index < length self.now }
        ensures { option_map (λ a. a.client) (slice_get self.now index) ≡ Some result }
    {
        match self.clients.get_index(index) {
            Some((client, _)) => *client,
            None => unreachable!(),
        }
    }

    /// What is told of the client at this index.
    pub(crate) fn report(&self, index: usize) -> Option<ClientReport>
        ensures { result ≡ option_map report_of (slice_get self.now index) }
    {
        let (client, standing) = self.clients.get_index(index)?;
        Some(ClientReport {
            client: *client,
            incarnation: standing.incarnation(),
            last: standing.last(),
            leases: self.leases[index].len(),
        })
    }

    /// Appends what is told of each lease of the client at this index.
    pub(crate) fn tell_leases(&self, index: usize, out: &mut Vec<LeaseReport>)
        requires { vec_len out.old + MOST_LEASES ≤ vec_capacity out.old }
        ensures leases { out.new.items
            ≡ out.old.items ++ lease_reports (slice_get self.now index) }
        ensures capacity { vec_capacity out.new ≡ vec_capacity out.old }
    {
        if index < self.len() {
            self.leases(index).tell(out);
        }
    }

    /// The units of the arena that are leased.
    pub(crate) fn units(&self, arena: u32) -> u128
        ensures { result ≡ sum_by (units_of_arena arena) (segments_of_accounts self.now) }
    {
        self.totals.of(arena)
    }

    /// Ends accounts that have no leases.
    pub(crate) fn close(self)
        requires { segments_of_accounts self ≡ [] }
    {
        let Accounts {
            clients: _clients,
            leases,
            empty: _empty,
            near: _near,
            totals: _totals,
        } = self;
        close_all(leases);
    }
}

/// The first that has a lease, where those before an index have none.
fn first_leased<D: Deed>(leases: &[Leases<D>], empty: usize) -> Option<usize>
    requires { IsEmptyBefore empty leases.now }
    ensures value { result ≡ position (λ l. nat_lt 0 (length l)) leases.now }
    ensures before { IfSome result (λ i. IsEmptyBefore i leases.now) }
{
    for index in empty..leases.len() {
        if 0 < leases[index].len() {
            return Some(index);
        }
    }
    None
}

/// Ends lists of leases that are all empty.
fn close_all<D: Deed>(mut leases: Vec<Leases<D>>)
    requires { All (λ l. l ≡ []) leases.items }
{
    while let Some(one) = leases.pop() {
        one.close();
    }
    leases.destroy_empty();
}
