//! What those who watch a running system are told of it.
ghost use Rattle.std.specs.Prelude.{◌≡◌, ◌+◌, ◌≤◌, ◌↔◌, ◌++◌, length, IsNone, IfSome};
ghost use Rattle.std.specs.Prelude.{slice_get, vec_len, vec_capacity};
ghost use Rattle.std.specs.Option.{option_map};
ghost use Rattle.lease_book.specs.Reports.{lease_reports, report_of};
ghost use Rattle.lease_book.specs.declared.books.TheConstants.{MOST_LEASES};
ghost use Rattle.shared_book.specs.Sums.{AreBookSums, OfSomeBook};
ghost use Rattle.lease_threads.specs.Sums.{AreSumsOf};

use crate::systems::System;
use deed_table::Name;
use lease_book::{ClientReport, LeaseReport};
use shared_book::BookSums;
use std::sync::Wait;

/// The units of an arena, by where they were found. Each part is looked at under its own lock, one
/// after another, so that these are sums of different moments: a segment that moves meanwhile may
/// be told twice or not at all.
#[derive(Clone, Copy, PartialEq, Eq, Debug)]
pub struct SystemSums {
    /// Those that a carve may still take.
    pub free: u128,
    /// Those of the segments that are out of the arena: in its slabs, magazines and children,
    /// leased, or in hands.
    pub allocated: u128,
    /// In slabs: idle chunks, colour gaps and tails.
    pub slab: u128,
    /// In magazines of depots, or 2^128 - 1 where they are more. A CPU tells its own
    /// (`Cpu::units`).
    pub magazine: u128,
    /// Leased.
    pub leased: u128,
}

impl<N: Name> System<N> {
    /// How many clients and leases there are. The book's lock is taken once for each 256 clients,
    /// and let go between, so that no request waits for more; a lease of a client that was counted
    /// before isn't told any more.
    pub fn book_sums<R: Wait>(&self, rt: &R) -> BookSums
        ensures { AreBookSums result }
    {
        self.book.sums(rt)
    }

    /// The client that stands at an index in order of first hello, if there is one: as it is under
    /// one look at the book, in constant time.
    pub fn client_at<R: Wait>(&self, rt: &R, index: usize) -> Option<ClientReport>
        ensures { OfSomeBook (λ b. result ≡ option_map report_of (slice_get b.accounts index)) }
    {
        self.book.client_at(rt, index)
    }

    /// The same, and each of its leases behind others, in order of grant: all as they are under one
    /// look at the book, which takes no memory and is over after 1,024 leases at most.
    pub fn leases_at<R: Wait>(
        &self,
        rt: &R,
        index: usize,
        out: &mut Vec<LeaseReport>,
    ) -> Option<ClientReport>
        requires { vec_len out.old + MOST_LEASES ≤ vec_capacity out.old }
        ensures told { OfSomeBook (λ b. (result ≡ option_map report_of (slice_get b.accounts index))
            × (out.new.items ≡ out.old.items ++ lease_reports (slice_get b.accounts index))) }
        ensures capacity { vec_capacity out.new ≡ vec_capacity out.old }
    {
        self.book.leases_at(rt, index, out)
    }

    /// The sums of the arena with this number, if there is one. The arena's lock is taken first,
    /// then that of the slabs of each of its caches, one after another, and of each depot, and the
    /// book's. Each takes constant time, and nothing stops for it. Each part tells what it has
    /// while its own lock is held, so that the sums are of different moments.
    pub fn sums<R: Wait>(&self, rt: &R, arena: u32) -> Option<SystemSums>
        ensures exactly { IsNone result ↔ (length self.now.arenas ≤ arena) }
        ensures told { IfSome result (AreSumsOf self.now.arenas arena) }
    {
        if arena as usize >= self.tree().len() {
            return None;
        }
        let parts = self.parts.sums(rt, arena);
        let leased = self.book.units(rt, arena);
        Some(SystemSums {
            free: parts.free,
            allocated: parts.allocated,
            slab: parts.slab,
            magazine: parts.magazine,
            leased,
        })
    }
}
