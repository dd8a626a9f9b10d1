//! The book of a running system: the leases that its threads share, under one lock.
//!
//! `SharedBook` (shared_books) is a `lease_book::Book` under a lock of its own, with the root of
//! its mark. `lease_threads` asks a CPU's gate, and then makes the call that the line's list of
//! steps has: each takes the lock once, and is one event of the book. What lies under the lock is a
//! `MarkedBook` (marked_books): only its calls reach the book, so no other code settles what the
//! book itself has to find, for example that a lease isn't the client's. Those who watch a system
//! get how many clients and leases the book has, and one client's leases, under the same lock
//! (sums). `told_outcome` and `greeted` (replies) turn what a list of steps ended with into the
//! reply to its line. Each reply carries a receipt of the book, or the book's word, or it says that
//! the line may be sent again.
//!
//! No contract says what the book holds. By `specs/Calls.antt` a call says that some book which
//! entries give, with a mark of the system's root, answered so. `Replying.antt` has what a line may
//! be answered, `Settling.antt` what may settle it, `Words.antt` which receipt or word a reply
//! rests on, `Outcomes.antt` what a list of steps may end with, and the reply to that, `Sums.antt`
//! what watchers get. `proofs/Receipts.antt` has lemmas on such a book's receipts for
//! `lease_threads`.
//!
//! A call costs its lock and the book's own call. `sums` takes the lock once, and then once for
//! each 256 clients. `leases_at` goes over the leases of one client, at most 1,024.
#![tactic(auto)]

mod marked_books;
mod replies;
mod shared_books;
mod sums;

pub use marked_books::{LeaseStands, NoLease};
pub use replies::{BookWord, HelloTold, LineAnswer, Told, again, greeted, told_outcome, unsettled};
pub use shared_books::SharedBook;
pub use sums::BookSums;
