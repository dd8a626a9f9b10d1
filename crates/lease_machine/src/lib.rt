//! The lease machine: what each line of the lease protocol may be answered, and what may change
//! with it.
//!
//! It has no code. `specs/Rules.antt` has the rules of leases on a page, as a law that each step
//! keeps: who is answered what, when, and what becomes of all leases (`rule_laws`).
//! `specs/Machine.antt` says all of a step, by cases on a line and its answer: what that means for
//! the book and for what is seen of the arenas (`specs/Picture.antt`). `specs/Serving.antt` says
//! what a request for a lease can be served with, `specs/Moves.antt` and `specs/Chunks.antt` how
//! segments come and go back, and `specs/Operators.antt` what operators are answered. That a
//! client's line, by the lists of steps of `lease_call`, is a step is a law too
//! (`specs/Conversations.antt`).
//! The other laws say what follows for each picture and for each run of lines (`specs/Laws.antt`,
//! `specs/LeaseLaws.antt`, `specs/GrantLaws.antt`, `specs/AnswerLaws.antt`, `specs/RoomLaws.antt`,
//! `specs/GrowLaws.antt`, `specs/EmptyingLaws.antt`), and which lines have an answer in each
//! picture (`specs/StepLaws.antt`).
#![tactic(auto)]

mod laws;

pub use laws::{
    audit_laws, cache_laws, call_laws, conversation_laws, depot_laws, emptying_laws, grant_laws,
    grow_laws, home_laws, lease_laws, no_fit_laws, picture_laws, reap_laws, repeat_laws, rule_laws,
    step_laws,
};
