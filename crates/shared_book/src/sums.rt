//! What those who watch a running system are told of its book.
ghost use Rattle.std.specs.Prelude.{◌≡◌, ◌+◌, ◌≤◌, ◌++◌, length};
ghost use Rattle.std.specs.Prelude.{slice_get, sum_by, vec_len, vec_capacity};
ghost use Rattle.std.specs.Option.{option_map};
ghost use Rattle.lease_book.specs.BookState.{leased_segments, units_of_arena};
ghost use Rattle.lease_book.specs.Reports.{lease_reports, report_of};
ghost use Rattle.lease_book.specs.declared.books.TheConstants.{MOST_LEASES};
ghost use Rattle.lease_terms.specs.declared.values.TheConstants.{LAST_CLIENT};
ghost use Rattle.shared_book.specs.Sums.{AreBookSums, LookTells, OfSomeBook};

use crate::shared_books::SharedBook;
use deed_table::Name;
use lease_book::{ClientReport, LeaseReport};
use std::sync::Wait;

/// What a book has, as looks under its lock found it.
#[derive(Clone, Copy, PartialEq, Eq, Debug)]
pub struct BookSums {
    /// Clients that ever said hello.
    pub clients: usize,
    /// Leases.
    pub leases: usize,
}

/// How many clients' leases are counted under one look.
const CLIENTS_A_LOOK: usize = 256;

impl<N: Name> SharedBook<N> {
    /// How many clients and leases there are. The book's lock is taken once for each 256 clients,
    /// and let go between, so that no request waits for more; a lease of a client that was counted
    /// before isn't told any more.
    pub fn sums<R: Wait>(&self, rt: &R) -> BookSums
        ensures { AreBookSums result }
    {
        let clients = self.clients(rt);
        let mut leases: usize = 0;
        for look in 0..(clients + (CLIENTS_A_LOOK - 1)) / CLIENTS_A_LOOK {
            let some = self.leases(rt, look);
            leases = leases.saturating_add(some);
        }
        BookSums { clients, leases }
    }

    /// How many clients ever said hello.
    fn clients<R: Wait>(&self, rt: &R) -> usize
        ensures count { OfSomeBook (λ b. result ≡ length b.accounts) }
        ensures few { result ≤ LAST_CLIENT }
    {
        let book = self.book.lock(rt);
        book.check();
        book.clients()
    }

    /// How many leases the clients of the look with this number have.
    fn leases<R: Wait>(&self, rt: &R, look: usize) -> usize
        requires { look ≤ LAST_CLIENT }
        ensures { LookTells look result }
    {
        let book = self.book.lock(rt);
        book.check();
        book.leases(look * CLIENTS_A_LOOK, CLIENTS_A_LOOK)
    }

    /// The client that stands at an index in order of first hello, if there is one: as it is under
    /// one look at the book, in constant time.
    pub fn client_at<R: Wait>(&self, rt: &R, index: usize) -> Option<ClientReport>
        ensures { OfSomeBook (λ b. result ≡ option_map report_of (slice_get b.accounts index)) }
    {
        let book = self.book.lock(rt);
        book.check();
        book.client_at(index)
    }

    /// The same, and each of its leases behind others, in order of grant: all as they are under one
    /// look at the book, which takes no memory and is over after 1,024 leases at most.
    pub fn leases_at<R: Wait>(
        &self,
        rt: &R,
        index: usize,
        out: &mut Vec<LeaseReport>,
    ) -> Option<ClientReport>
        requires { vec_len out.old + MOST_LEASES ≤ vec_capacity out.old }
        ensures told { OfSomeBook (λ b. (result ≡ option_map report_of (slice_get b.accounts index))
            × (out.new.items ≡ out.old.items ++ lease_reports (slice_get b.accounts index))) }
        ensures capacity { vec_capacity out.new ≡ vec_capacity out.old }
    {
        let book = self.book.lock(rt);
        book.check();
        book.leases_at(index, out)
    }

    /// The units of the arena with this number that are leased.
    pub fn units<R: Wait>(&self, rt: &R, arena: u32) -> u128
        ensures { OfSomeBook (λ b. result ≡ sum_by (units_of_arena arena) (leased_segments b)) }
    {
        let book = self.book.lock(rt);
        book.check();
        book.units(arena)
    }
}
