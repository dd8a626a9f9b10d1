//! The leases of one client, in order of grant.
ghost use Rattle.std.specs.Prelude.{◌≡◌, ◌<◌, ◌≤◌, [], ◌∷◌, ◌++◌, length, OnOk, OnErr};
ghost use Rattle.std.specs.Prelude.{IfErr, IfNone, All, ◌+◌, map, vec_len, vec_capacity};
ghost use Rattle.std.specs.List.{find, list_any};
ghost use Rattle.deed_core.specs.Extent.{IsRange};
ghost use Rattle.lease_book.specs.Account.{Lease, is_lease, is_older, lease_of};
ghost use Rattle.lease_book.specs.Account.{granted_request, without_first};
ghost use Rattle.lease_book.specs.Places.{is_asked, leases_in};
ghost use Rattle.lease_book.specs.Reports.{lease_report};
ghost use Rattle.lease_book.specs.declared.books.TheConstants.{MOST_LEASES};

use crate::lease_list::LeaseList;
use crate::places::Places;
use crate::reports::LeaseReport;
use deed_core::{Deed, Segment};
use lease_terms::{ClientId, Ordinal, Quantity, RequestId};
use std::alloc::Global;
use std::marker::Model;

/// A leased segment, and the incarnation and number of the client's request that was granted it.
pub(crate) struct Held<D: Deed> {
    incarnation: Ordinal,
    number: Ordinal,
    segment: Segment<D>,
}

impl<D: Deed> Model for Held<D> {
    ghost use Rattle.lease_book.specs.Account.{Lease};

    ghost Value = { Lease };

    ghost view = { λ h. record {
      incarnation = h.incarnation;
      number = h.number;
      segment = h.segment;
    } };
}

impl<D: Deed> Held<D> {
    /// A segment that a request is granted.
    pub(crate) fn new(id: RequestId, segment: Segment<D>) -> Held<D>
        ensures { result ≡ lease_of id segment }
    {
        Held {
            incarnation: id.incarnation,
            number: id.number,
            segment,
        }
    }

    /// Where its segment begins.
    pub(crate) fn base(&self) -> u64
        ensures { result ≡ self.now.segment.holding.range.base }
    {
        self.segment.range().base()
    }

    /// Whether it is of the request's incarnation with this arena and base.
    pub(crate) fn is_lease(&self, id: RequestId, arena: u32, base: Quantity) -> bool
        ensures { result ≡ is_lease id.incarnation arena base self.now }
    {
        id.incarnation.get() == self.incarnation.get()
            && arena == self.segment.arena()
            && base.get() == self.base()
    }

    /// Whether it is of an incarnation before this one.
    pub(crate) fn is_older(&self, incarnation: Ordinal) -> bool
        ensures { result ≡ is_older incarnation self.now }
    {
        self.incarnation.get() < incarnation.get()
    }

    /// The segment alone.
    pub(crate) fn into_segment(self) -> Segment<D>
        ensures { result ≡ self.segment }
    {
        let Held {
            incarnation: _,
            number: _,
            segment,
        } = self;
        segment
    }

    /// The client's request that was granted it, and the segment.
    pub(crate) fn ended(self, client: ClientId) -> (RequestId, Segment<D>)
        ensures { result ≡ (granted_request client self, self.segment) }
    {
        let Held {
            incarnation,
            number,
            segment,
        } = self;
        let id = RequestId {
            client,
            incarnation,
            number,
        };
        (id, segment)
    }

    /// What is told of it.
    pub(crate) fn report(&self) -> LeaseReport
        ensures { result ≡ lease_report self.now }
    {
        let range = self.segment.range();
        LeaseReport {
            incarnation: self.incarnation,
            number: self.number,
            arena: self.segment.arena(),
            base: range.base(),
            units: range.len(),
        }
    }

    /// Its arena, and how many units of it are leased.
    pub(crate) fn arena_and_units(&self) -> (u32, u64)
        ensures arena { result.0 ≡ self.now.segment.arena }
        ensures units { result.1 ≡ self.now.segment.holding.range.len }
        ensures range { IsRange self.now.segment.holding.range }
    {
        (self.segment.arena(), self.segment.range().len())
    }
}

/// Which of a client's leases is asked for.
#[derive(Clone, Copy, Debug)]
pub(crate) enum Which {
    /// The one of the request's incarnation with an arena and a base.
    At(RequestId, u32, Quantity),
    /// One of an incarnation before this one.
    Before(Ordinal),
    /// Whichever.
    Any,
}

/// So many leases of a client stand in a list at most. (Our own choice: with 32 a list is faster.)
const FEW_LEASES: usize = 64;

/// The leases of one client: in a list until they are too many for it, then in places until none
/// is left there. Those in the list were granted before those in places. None is of an incarnation
/// before `least`: so whether one is older needs no search while the client goes on in one
/// incarnation.
pub(crate) struct Leases<D: Deed> {
    few: LeaseList<D>,
    places: Places<D>,
    count: usize,
    least: u64,
}

impl<D: Deed> Model for Leases<D> {
    ghost use Rattle.std.specs.Prelude.{◌≡◌, ◌++◌, List, length};
    ghost use Rattle.lease_book.specs.Account.{Lease};
    ghost use Rattle.lease_book.specs.Places.{leases_in};
    ghost use Rattle.lease_book.specs.Shelf.{NoneBefore};

    ghost Value = { List Lease };

    ghost view = { λ l. l.few ++ leases_in l.places.places };

    ghost invariant = { λ l. (l.count ≡ length (l.few ++ leases_in l.places.places))
        × NoneBefore l.least (l.few ++ leases_in l.places.places) };
}

impl<D: Deed> Leases<D> {
    /// No leases.
    pub(crate) fn new(alloc: Global) -> Leases<D>
        ensures { result ≡ [] }
    {
        Leases {
            few: LeaseList::new(alloc),
            places: Places::new(alloc),
            count: 0,
            least: 0,
        }
    }

    /// How many leases there are.
    pub(crate) fn len(&self) -> usize
        ensures { result ≡ length self.now }
    {
        self.count
    }

    /// Adds a lease. `Err` is out of memory.
    pub(crate) fn add(&mut self, held: Held<D>) -> Result<(), Segment<D>>
        requires { length self.old < MOST_LEASES }
        ensures ok { OnOk result (self.new ≡ self.old ++ held ∷ []) }
        ensures unchanged { OnErr result (self.new ≡ self.old) }
        ensures handed_back { IfErr result (λ s. s ≡ held.segment) }
    {
        let least = self.least_with(held.incarnation);
        put_in(&mut self.few, &mut self.places, self.count, held)?;
        self.least = least;
        self.count += 1;
        Ok(())
    }

    /// Takes the first lease out that is asked for.
    pub(crate) fn take(&mut self, which: Which) -> Option<Held<D>>
        ensures lease { find (is_asked which) self.old ≡ result }
        ensures rest { self.new ≡ without_first (is_asked which) self.old }
        ensures unchanged { IfNone result (self.new ≡ self.old) }
    {
        let held = take_out(&mut self.few, &mut self.places, self.count, &which)?;
        self.count -= 1;
        Some(held)
    }

    /// Appends what is told of each.
    pub(crate) fn tell(&self, out: &mut Vec<LeaseReport>)
        requires { vec_len out.old + length self.now ≤ vec_capacity out.old }
        ensures leases { out.new.items ≡ out.old.items ++ map lease_report self.now }
        ensures capacity { vec_capacity out.new ≡ vec_capacity out.old }
    {
        self.few.tell(out);
        self.places.tell(out);
    }

    /// Whether there is one of an incarnation before this one.
    pub(crate) fn has_older(&self, incarnation: Ordinal) -> bool
        ensures { result ≡ list_any (is_older incarnation) self.now }
    {
        self.least < incarnation.get() && self.any_older(incarnation)
    }

    /// The same, by a look at each.
    fn any_older(&self, incarnation: Ordinal) -> bool
        ensures { result ≡ list_any (is_older incarnation) self.now }
    {
        self.few.has_older(incarnation) || self.places.has_older(incarnation)
    }

    /// What no lease's incarnation is below, nor this one.
    fn least_with(&self, incarnation: Ordinal) -> u64
        ensures own { result ≤ incarnation }
        ensures others { All (λ (l : Lease). result ≤ l.incarnation) self.now }
    {
        if incarnation.get() <= self.least {
            return incarnation.get();
        }
        if self.any_older(incarnation) {
            return self.least;
        }
        incarnation.get()
    }

    /// Ends an empty list.
    pub(crate) fn close(self)
        requires { self ≡ [] }
    {
        let Leases {
            few,
            places,
            count: _count,
            least: _least,
        } = self;
        few.close();
        places.close();
    }
}

/// Adds a lease to few in a list, or to many in places. `Err` is out of memory.
fn put_in<D: Deed>(
    few: &mut LeaseList<D>,
    places: &mut Places<D>,
    count: usize,
    held: Held<D>,
) -> Result<(), Segment<D>>
    requires count { count ≡ length (few.old ++ leases_in places.old.places) }
    requires room { count < MOST_LEASES }
    ensures ok { OnOk result (few.new ++ leases_in places.new.places
        ≡ (few.old ++ leases_in places.old.places) ++ held ∷ []) }
    ensures unchanged { OnErr result ((few.new ≡ few.old) × (places.new ≡ places.old)) }
    ensures handed_back { IfErr result (λ s. s ≡ held.segment) }
{
    if count < FEW_LEASES && count == few.len() {
        return few.add(held);
    }
    if places.is_full() {
        let Ok(()) = places.renew(few, count) else {
            return Err(held.into_segment());
        };
    }
    places.push(held);
    Ok(())
}

/// Takes the first lease out that is asked for. When none is left in places, these are let go.
fn take_out<D: Deed>(
    few: &mut LeaseList<D>,
    places: &mut Places<D>,
    count: usize,
    which: &Which,
) -> Option<Held<D>>
    requires { count ≡ length (few.old ++ leases_in places.old.places) }
    ensures lease { let leases = few.old ++ leases_in places.old.places in
        find (is_asked which.now) leases ≡ result }
    ensures rest { let leases = few.old ++ leases_in places.old.places in
        few.new ++ leases_in places.new.places ≡ without_first (is_asked which.now) leases }
    ensures unchanged { IfNone result ((few.new ≡ few.old) × (places.new ≡ places.old)) }
{
    if let Some(held) = few.take(which) {
        return Some(held);
    }
    let held = places.take(which)?;
    if count - few.len() > 1 {
        return Some(held);
    }
    places.clear();
    Some(held)
}
