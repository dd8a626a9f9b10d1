//! The book of leases: which client holds which segment, and how each numbered request was
//! answered.
//!
//! A client says hello with an incarnation, and greater ones after it restarts. In an incarnation
//! its requests have the numbers 1, 2 and so on, and come one after the other, or by the second
//! protocol up to eight at once, in any order. The book settles each number once, by a grant, a
//! release or a refusal, and keeps the replies of as many numbers, so that a request that comes
//! again gets the same one. Leases of an incarnation that has passed stay until they are swept.
//!
//! What it answers comes as values that only a book makes: a receipt of what is settled (receipts),
//! else a number that it has, a hello that it took, and a welcome (words). Who has one asked a book
//! of these deeds.
//!
//! Begin with [`Book`]. What its contracts see, and what is read off the list of what happened to
//! it, is in `specs/History.antt` and `specs/BookState.antt`; how it answers is in
//! `specs/Answers.antt` and `specs/Calls.antt`. What the crates above may cite of the proofs is in
//! `proofs/LawProofs.antt`.
//!
//! What holds of every book, for the crates above, is in `specs/Laws.antt` (an entry, an account),
//! `specs/NumberLaws.antt` (requests and their outcomes) and `specs/ClientLaws.antt` (all clients
//! together, ranges of numbers).
//!
//! What it costs: a look-up of a client takes the same time however many there are, and so does a
//! refusal. A release reads through its client's leases while these never were more than 64; from
//! then on, until none of them is left, it goes along one chain, mostly of one or two. A grant
//! takes the same time too, but that now and then all leases of its client get new places: two are
//! moved for each grant, on average; and that the first after a greater hello looks at each. A
//! sweep, and `can_sweep` after a greater hello, look at a client's places from where the last
//! sweep found a lease on, at most at half as many again as `MOST_LEASES` and four. `units` looks
//! at the totals of the arenas that ever had a lease, and so does each grant and each end of a
//! lease, which change one of them. Ending all leases one by one looks at each client once. A
//! request by the second protocol looks at the kept replies, some ten times at most. A book keeps a
//! few words for each client that ever said hello, and room for eight replies for one of the second
//! protocol. A lease takes some 80 bytes while its client has few, and 70 to 110 and more in
//! places, which stay until all are renewed or the last lease in them ends.
#![tactic(auto)]

mod accounts;
mod answers;
mod books;
mod laws;
mod lease_list;
mod leases;
mod places;
mod receipts;
mod recent;
mod reports;
mod standings;
mod totals;
mod words;

pub use answers::{Answer, HelloFault, Look, NotLeased};
pub use books::{Book, MOST_LEASES};
pub use laws::{
    account_law, bound_law, client_laws, entry_laws, lease_laws, lease_limit_law, number_law,
    outcome_laws,
};
pub use receipts::{KeptReply, Receipt, Terms};
pub use reports::{ClientReport, LeaseReport};
pub use words::{BookNumber, Current, Greatest, Low, SweepEnd, Taken, Welcomed};
