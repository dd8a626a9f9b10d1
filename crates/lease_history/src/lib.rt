//! What a book of leases and its clients know of each other, whatever becomes of the messages
//! between them: what a client holds is leased to it in its present incarnation.
//!
//! It has no code. `specs/Known.antt` says what the entries of a book and a client know of each
//! other, `specs/Told.antt` which reply an answer of a book is, and which replies it may give. The
//! laws say that both stay so: each entry, each move of a client and each reply that a client gets
//! keeps them, in whatever order requests and replies are delivered, and however often. A model of
//! a whole service, with arenas and messages, stands on these laws and needn't look into a book or
//! a client.
#![tactic(auto)]

mod laws;

pub use laws::{entry_laws, held_laws, move_laws, reply_laws};
