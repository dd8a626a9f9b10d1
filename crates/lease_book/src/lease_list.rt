//! Some leases of a client in a list, in order of grant. A search reads through it, so it is for
//! few.
ghost use Rattle.std.specs.Prelude.{◌≡◌, ◌+◌, ◌*◌, ◌<◌, ◌≤◌, [], ◌∷◌, ◌++◌, length, OnOk, OnErr};
ghost use Rattle.std.specs.Prelude.{IfOk, IfErr, IfNone, true, position, map, vec_len, vec_capacity};
ghost use Rattle.std.specs.List.{find, list_any};
ghost use Rattle.lease_book.specs.Account.{is_lease, is_older, without_first};
ghost use Rattle.lease_book.specs.Places.{is_asked, leases_in};
ghost use Rattle.lease_book.specs.Reports.{lease_report};
ghost use Rattle.lease_book.specs.declared.places.TheConstants.{CHAINS_EACH};

use crate::leases::{Held, Which};
use crate::places::Places;
use crate::reports::LeaseReport;
use deed_core::{Deed, Segment};
use lease_terms::{Ordinal, Quantity, RequestId};
use std::alloc::Global;
use std::marker::Model;

/// A lease in a box, so that in a list those after one that is taken out move down by a few bytes
/// each. Beside the box stands the base: a search for a lease reads the bases, which lie close
/// together, and looks into a box only where its base is the one that is asked for.
struct BoxedLease<D: Deed> {
    base: u64,
    held: Box<Held<D>>,
}

impl<D: Deed> Model for BoxedLease<D> {
    ghost use Rattle.std.specs.Prelude.{◌≡◌, box_value};
    ghost use Rattle.lease_book.specs.Account.{Lease};

    ghost Value = { Lease };

    ghost view = { λ b. box_value b.held };

    ghost invariant = { λ b. b.base ≡ (box_value b.held).segment.holding.range.base };
}

impl<D: Deed> BoxedLease<D> {
    /// `Err` is out of memory.
    fn new(alloc: Global, held: Held<D>) -> Result<BoxedLease<D>, Segment<D>>
        ensures value { IfOk result (λ boxed. boxed ≡ held) }
        ensures handed_back { IfErr result (λ s. s ≡ held.segment) }
    {
        let base = held.base();
        match Box::new(alloc, held) {
            Ok(held) => Ok(BoxedLease { base, held }),
            Err(failed) => Err(failed.value.into_segment()),
        }
    }

    /// Whether it is of the request's incarnation with this arena and base.
    fn is_lease(&self, id: RequestId, arena: u32, base: Quantity) -> bool
        ensures { result ≡ is_lease id.incarnation arena base self.now }
    {
        self.base == base.get() && self.held.is_lease(id, arena, base)
    }

    /// Whether it is of an incarnation before this one.
    fn is_older(&self, incarnation: Ordinal) -> bool
        ensures { result ≡ is_older incarnation self.now }
    {
        self.held.is_older(incarnation)
    }

    /// The lease out of its box.
    fn into_held(self) -> Held<D>
        ensures { result ≡ self }
    {
        let BoxedLease { base: _, held } = self;
        Box::into_inner(held)
    }
}

/// Leases in order of grant.
pub(crate) struct LeaseList<D: Deed> {
    held: Vec<BoxedLease<D>>,
}

impl<D: Deed> Model for LeaseList<D> {
    ghost use Rattle.std.specs.Prelude.{List};
    ghost use Rattle.lease_book.specs.Account.{Lease};

    ghost Value = { List Lease };

    ghost view = { λ l. l.held.items };
}

impl<D: Deed> LeaseList<D> {
    /// An empty list.
    pub(crate) fn new(alloc: Global) -> LeaseList<D>
        ensures { result ≡ [] }
    {
        LeaseList {
            held: Vec::new(alloc),
        }
    }

    /// How many leases there are.
    pub(crate) fn len(&self) -> usize
        ensures { result ≡ length self.now }
    {
        self.held.len()
    }

    /// Adds a lease. `Err` is out of memory.
    pub(crate) fn add(&mut self, held: Held<D>) -> Result<(), Segment<D>>
        ensures ok { OnOk result (self.new ≡ self.old ++ held ∷ []) }
        ensures unchanged { OnErr result (self.new ≡ self.old) }
        ensures handed_back { IfErr result (λ s. s ≡ held.segment) }
    {
        let Ok(()) = self.held.reserve(1) else {
            return Err(held.into_segment());
        };
        let boxed = BoxedLease::new(*self.held.allocator(), held)?;
        self.held.push_reserved(boxed);
        Ok(())
    }

    /// Takes the first lease out that is asked for.
    pub(crate) fn take(&mut self, which: &Which) -> Option<Held<D>>
        ensures lease { find (is_asked which.now) self.old ≡ result }
        ensures rest { self.new ≡ without_first (is_asked which.now) self.old }
        ensures unchanged { IfNone result (self.new ≡ self.old) }
    {
        let index = self.index_of(which)?;
        Some(self.held.remove(index).into_held())
    }

    /// Where the first lease stands that is asked for.
    fn index_of(&self, which: &Which) -> Option<usize>
        ensures { result ≡ position (is_asked which.now) self.now }
    {
        match *which {
            Which::At(id, arena, base) => first_lease(&self.held, id, arena, base),
            Which::Before(incarnation) => first_older(&self.held, incarnation),
            Which::Any => first(&self.held),
        }
    }

    /// Whether there is one of an incarnation before this one.
    pub(crate) fn has_older(&self, incarnation: Ordinal) -> bool
        ensures { result ≡ list_any (is_older incarnation) self.now }
    {
        first_older(&self.held, incarnation).is_some()
    }

    /// Appends what is told of each.
    pub(crate) fn tell(&self, out: &mut Vec<LeaseReport>)
        requires { vec_len out.old + length self.now ≤ vec_capacity out.old }
        ensures leases { out.new.items ≡ out.old.items ++ map lease_report self.now }
        ensures capacity { vec_capacity out.new ≡ vec_capacity out.old }
    {
        for boxed in &self.held {
            out.push_reserved(boxed.held.report());
        }
    }

    /// Moves all leases to places that have room for them.
    pub(crate) fn move_to(self, places: &mut Places<D>)
        requires { CHAINS_EACH * (length places.old.places + length self)
            < length places.old.ends }
        ensures leases { leases_in places.new.places ≡ leases_in places.old.places ++ self }
        ensures count { length places.new.places ≡ length places.old.places + length self }
        ensures chains { length places.new.ends ≡ length places.old.ends }
    {
        let LeaseList { held } = self;
        let mut rest = held.into_iter();
        while let Some(boxed) = rest.next() {
            places.push(boxed.into_held());
        }
        rest.destroy_empty();
    }

    /// Ends an empty list.
    pub(crate) fn close(self)
        requires { self ≡ [] }
    {
        let LeaseList { held } = self;
        held.destroy_empty();
    }
}

/// Where the first of the request's incarnation with this arena and base stands.
fn first_lease<D: Deed>(
    held: &[BoxedLease<D>],
    id: RequestId,
    arena: u32,
    base: Quantity,
) -> Option<usize>
    ensures { result ≡ position (is_lease id.incarnation arena base) held.now }
{
    held.iter().position(|one| one.is_lease(id, arena, base))
}

/// Where the first of an incarnation before this one stands.
fn first_older<D: Deed>(held: &[BoxedLease<D>], incarnation: Ordinal) -> Option<usize>
    ensures { result ≡ position (is_older incarnation) held.now }
{
    held.iter().position(|one| one.is_older(incarnation))
}

/// Where the first of all stands.
fn first<D: Deed>(held: &[BoxedLease<D>]) -> Option<usize>
    ensures { result ≡ position (λ _. true) held.now }
{
    held.iter().position(|_| true)
}
