//! The places of a client's leases, in order of grant. A place stays empty when its lease is
//! taken out, until all leases get new places. So neither does a search by a base look at each
//! lease, nor are those behind one that is taken out moved. Such a search goes along the places
//! of a chain, the last of them first (chained hashing; which lease goes on which chain is our
//! own choice).
ghost use Rattle.std.specs.Prelude.{◌≡◌, ◌+◌, ◌*◌, ◌/◌, ◌<◌, ◌≤◌, [], ◌∷◌, ◌++◌, length};
ghost use Rattle.std.specs.Prelude.{Some, None, IfOk, OnOk, OnErr, IfNone, position};
ghost use Rattle.std.specs.Prelude.{is_some, nat_le, map, vec_len, vec_capacity};
ghost use Rattle.std.specs.List.{find, list_any};
ghost use Rattle.lease_book.specs.Account.{is_lease, is_older, without_first};
ghost use Rattle.lease_book.specs.Places.{leases_in, is_asked, holds, chain_of, EmptyBefore};
ghost use Rattle.lease_book.specs.Reports.{lease_report};
ghost use Rattle.lease_book.specs.declared.books.TheConstants.{MOST_LEASES};
ghost use Rattle.lease_book.specs.declared.places.TheConstants.{CHAINS_EACH, MOST_PLACES};

use crate::books::MOST_LEASES;
use crate::lease_list::LeaseList;
use crate::leases::{Held, Which};
use crate::reports::LeaseReport;
use deed_core::Deed;
use lease_terms::{Ordinal, Quantity, RequestId};
use std::alloc::{AllocError, Global};
use std::marker::Model;
use std::mem;

/// An odd number whose products spread (2 ^ 64 by the golden ratio: Knuth's multiplicative
/// hashing).
const SPREAD: u64 = 0x9E37_79B9_7F4A_7C15;

/// How many chains there are for each place that there is room for. (Our own choice.)
const CHAINS_EACH: usize = 3;

/// So many places there are at most: what `with_room` makes for as many leases as a client may
/// have.
const MOST_PLACES: usize = MOST_LEASES + MOST_LEASES / 2 + 4;

/// The place of a lease, or of one that was taken out.
struct Place<D: Deed> {
    held: Option<Held<D>>,
    /// The number of its chain.
    chain: u16,
    /// An index that the leases before it on its chain stand before.
    before: u16,
}

impl<D: Deed> Model for Place<D> {
    ghost use Rattle.lease_book.specs.Places.{PlaceState};

    ghost Value = { PlaceState };

    ghost view = { λ p. record { lease = p.held; chain = p.chain; before = p.before } };
}

impl<D: Deed> Place<D> {
    /// Whether the lease in it, if any, is of the request's incarnation with this arena and base.
    fn is_lease(&self, id: RequestId, arena: u32, base: Quantity) -> bool
        ensures { result ≡ holds (is_lease id.incarnation arena base) self.now.lease }
    {
        match &self.held {
            Some(held) => held.is_lease(id, arena, base),
            None => false,
        }
    }

    /// Whether the lease in it, if any, is of an incarnation before this one.
    fn is_older(&self, incarnation: Ordinal) -> bool
        ensures { result ≡ holds (is_older incarnation) self.now.lease }
    {
        match &self.held {
            Some(held) => held.is_older(incarnation),
            None => false,
        }
    }

    /// The lease in it, if any.
    fn into_held(self) -> Option<Held<D>>
        ensures { result ≡ self.lease }
    {
        let Place {
            held,
            chain: _,
            before: _,
        } = self;
        held
    }
}

/// Places in order of grant, with their chains. The first `empty` places are empty: so leases that
/// are taken out from the first one on are found at once.
pub(crate) struct Places<D: Deed> {
    places: Vec<Place<D>>,
    ends: Vec<u16>,
    empty: usize,
}

impl<D: Deed> Model for Places<D> {
    ghost use Rattle.std.specs.Prelude.{◌*◌, ◌≤◌, length, vec_capacity};
    ghost use Rattle.lease_book.specs.Places.{PlacesState, IsChained, EmptyBefore};
    ghost use Rattle.lease_book.specs.declared.places.TheConstants.{CHAINS_EACH, MOST_PLACES};

    ghost Value = { PlacesState };

    ghost view = { λ p. record { places = p.places.items; ends = p.ends.items } };

    ghost invariant = { λ p.
        IsChained (record { places = p.places.items; ends = p.ends.items })
        × (p.empty ≤ length p.places.items)
        × EmptyBefore p.empty p.places.items
        × (length p.ends.items ≤ CHAINS_EACH * MOST_PLACES)
        × (length p.ends.items ≤ CHAINS_EACH * vec_capacity p.places) };
}

impl<D: Deed> Places<D> {
    /// No place, nor room for one.
    pub(crate) fn new(alloc: Global) -> Places<D>
        ensures { result ≡ record { places = []; ends = [] } }
    {
        Places {
            places: Vec::new(alloc),
            ends: Vec::new(alloc),
            empty: 0,
        }
    }

    /// No place yet, with room for so many leases and half as many again. (Our own choice: room for
    /// as many again is used up half as often, but lies on a third more memory.)
    fn with_room(alloc: Global, count: usize) -> Result<Places<D>, AllocError>
        requires { count ≤ MOST_LEASES }
        ensures places { IfOk result (λ p. p.places ≡ []) }
        ensures chains { IfOk result (λ p.
            length p.ends ≡ CHAINS_EACH * (count + count / 2 + 4)) }
    {
        let room = count + count / 2 + 4;
        let mut ends = Vec::new(alloc);
        ends.resize(CHAINS_EACH * room, 0)?;
        let places = Vec::with_capacity(alloc, room)?;
        Ok(Places {
            places,
            ends,
            empty: 0,
        })
    }

    /// Whether there is no room for another.
    pub(crate) fn is_full(&self) -> bool
        ensures { result ≡ nat_le (length self.now.ends / CHAINS_EACH) (length self.now.places) }
    {
        self.ends.len() / CHAINS_EACH <= self.places.len()
    }

    /// Puts the leases of a list, and those in places behind them, in new places with room for
    /// more. Out of memory, all stays as it is.
    pub(crate) fn renew(&mut self, few: &mut LeaseList<D>, count: usize) -> Result<(), AllocError>
        requires count { count ≡ length few.old + length (leases_in self.old.places) }
        requires at_most { count ≤ MOST_LEASES }
        ensures list { OnOk result (few.new ≡ []) }
        ensures leases { OnOk result
            (leases_in self.new.places ≡ few.old ++ leases_in self.old.places) }
        ensures room { OnOk result (CHAINS_EACH * length self.new.places < length self.new.ends) }
        ensures unchanged { OnErr result ((self.new ≡ self.old) × (few.new ≡ few.old)) }
    {
        let mut fresh = Places::with_room(*self.places.allocator(), count)?;
        let list = mem::replace(few, LeaseList::new(*self.places.allocator()));
        list.move_to(&mut fresh);
        let Places {
            places,
            ends: _,
            empty: _,
        } = mem::replace(self, fresh);
        self.move_in(places);
        Ok(())
    }

    /// Moves the leases out of places into new ones.
    fn move_in(&mut self, places: Vec<Place<D>>)
        requires { CHAINS_EACH * (length self.old.places + length (leases_in places.items))
            < length self.old.ends }
        ensures leases { leases_in self.new.places
            ≡ leases_in self.old.places ++ leases_in places.items }
        ensures room { CHAINS_EACH * length self.new.places < length self.new.ends }
    {
        let mut rest = places.into_iter();
        while let Some(place) = rest.next() {
            if let Some(held) = place.into_held() {
                self.push(held);
            }
        }
        rest.destroy_empty();
    }

    /// Adds a lease.
    pub(crate) fn push(&mut self, held: Held<D>)
        requires { CHAINS_EACH * length self.old.places < length self.old.ends }
        ensures leases { leases_in self.new.places ≡ leases_in self.old.places ++ held ∷ [] }
        ensures places { length self.new.places ≡ length self.old.places + 1 }
        ensures chains { length self.new.ends ≡ length self.old.ends }
    {
        let chain = chain_of(held.base(), self.ends.len());
        self.places.push_reserved(Place {
            held: Some(held),
            chain: chain as u16,
            before: self.ends[chain],
        });
        self.ends[chain] = self.places.len() as u16;
    }

    /// Takes the first lease out that is asked for.
    pub(crate) fn take(&mut self, which: &Which) -> Option<Held<D>>
        ensures lease { find (is_asked which.now) (leases_in self.old.places) ≡ result }
        ensures rest { leases_in self.new.places
            ≡ without_first (is_asked which.now) (leases_in self.old.places) }
        ensures unchanged { IfNone result (self.new ≡ self.old) }
    {
        let at = self.place_of(which)?;
        let place = &mut self.places[at];
        let held = place.held.take();
        let before = place.before;
        // The place leaves its chain, where it is the last on it.
        let end = &mut self.ends[place.chain as usize];
        if *end as usize == at + 1 {
            *end = before.min(*end - 1);
        }
        held
    }

    /// Lets empty places go.
    pub(crate) fn clear(&mut self)
        requires { leases_in self.old.places ≡ [] }
        ensures { leases_in self.new.places ≡ [] }
    {
        let fresh = Places::new(*self.places.allocator());
        mem::replace(self, fresh).close();
    }

    /// Where the first lease stands that is asked for.
    fn place_of(&mut self, which: &Which) -> Option<usize>
        ensures value { result
            ≡ position (λ p. holds (is_asked which.now) p.lease) self.old.places }
        ensures unchanged { self.new ≡ self.old }
    {
        match *which {
            Which::At(id, arena, base) => self.position(id, arena, base),
            Which::Before(incarnation) => {
                // The search begins at the first lease.
                let _ = self.first_held();
                first_older(&self.places, self.empty, incarnation)
            }
            Which::Any => self.first_held(),
        }
    }

    /// Where the first lease stands. The next search for it, or for an older one, begins there.
    fn first_held(&mut self) -> Option<usize>
        ensures value { result ≡ position (λ p. is_some p.lease) self.old.places }
        ensures unchanged { self.new ≡ self.old }
    {
        let at = first_held(&self.places, self.empty)?;
        self.empty = at;
        Some(at)
    }

    /// Where the first lease of the request's incarnation with this arena and base stands.
    fn position(&self, id: RequestId, arena: u32, base: Quantity) -> Option<usize>
        ensures { result ≡ position (λ p. holds (is_lease id.incarnation arena base) p.lease)
            self.now.places }
    {
        let chain = chain_of(base.get(), self.ends.len());
        let mut end = *self.ends.get(chain)? as usize;
        let mut found = None;
        while 0 < end {
            let at = end - 1;
            let place = &self.places[at];
            if place.is_lease(id, arena, base) {
                found = Some(at);
            }
            end = if place.chain as usize == chain {
                at.min(place.before as usize)
            } else {
                at
            };
        }
        found
    }

    /// Appends what is told of each lease.
    pub(crate) fn tell(&self, out: &mut Vec<LeaseReport>)
        requires { vec_len out.old + length (leases_in self.now.places) ≤ vec_capacity out.old }
        ensures leases { out.new.items
            ≡ out.old.items ++ map lease_report (leases_in self.now.places) }
        ensures capacity { vec_capacity out.new ≡ vec_capacity out.old }
    {
        for place in &self.places {
            if let Some(held) = &place.held {
                out.push_reserved(held.report());
            }
        }
    }

    /// Whether a lease of an incarnation before this one stands there.
    pub(crate) fn has_older(&self, incarnation: Ordinal) -> bool
        ensures { result ≡ list_any (is_older incarnation) (leases_in self.now.places) }
    {
        first_older(&self.places, self.empty, incarnation).is_some()
    }

    /// Ends places without leases.
    pub(crate) fn close(self)
        requires { leases_in self.places ≡ [] }
    {
        let Places {
            places,
            ends: _,
            empty: _,
        } = self;
        let mut rest = places.into_iter();
        while let Some(place) = rest.next() {
            match place.into_held() {
                None => {}
                Some(_) => unreachable!(),
            }
        }
        rest.destroy_empty();
    }
}

/// Where the first lease of an incarnation before this one stands: not among the first `empty`.
fn first_older<D: Deed>(places: &[Place<D>], empty: usize, incarnation: Ordinal) -> Option<usize>
    requires within { empty ≤ length places.now }
    requires empty { EmptyBefore empty places.now }
    ensures { result ≡ position (λ p. holds (is_older incarnation) p.lease) places.now }
{
    let mut rest = places[empty..].iter();
    Some(empty + rest.position(|one| one.is_older(incarnation))?)
}

/// Where the first lease stands: not among the first `empty`.
fn first_held<D: Deed>(places: &[Place<D>], empty: usize) -> Option<usize>
    requires within { empty ≤ length places.now }
    requires empty { EmptyBefore empty places.now }
    ensures { result ≡ position (λ p. is_some p.lease) places.now }
{
    let mut rest = places[empty..].iter();
    Some(empty + rest.position(|one| one.held.is_some())?)
}

/// The chain of the leases at a base, of so many, by the upper bits of a product.
fn chain_of(base: u64, chains: usize) -> usize
    requires { chains ≤ CHAINS_EACH * MOST_PLACES }
    ensures value { result ≡ chain_of base chains }
    ensures within { 0 < chains → result < chains }
{
    let spread = base.wrapping_mul(SPREAD) >> 32;
    ((spread * chains as u64) >> 32) as usize
}
