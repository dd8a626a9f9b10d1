//! The answer to a release.
ghost use Rattle.std.specs.Prelude.{◌≡◌};
ghost use Rattle.arena_tree.specs.Trees.{nodes_of};
ghost use Rattle.lease_call.specs.CallPlans.{CallRan};
ghost use Rattle.lease_call.specs.CallTags.{tag_end};
ghost use Rattle.lease_book.specs.Calls.{IsSystemRefusal};
ghost use Rattle.lease_call.specs.Releasing.{refuse_plan, release_plan, release_steps};

use crate::books::Books;
use crate::call_faults::{CallFault, NotReleased};
use crate::outcomes::Outcome;
use crate::placing::place;
use arena_tree::{Parts, Tree};
use deed_core::Held;
use lease_proto::ReleaseLine;
use lease_terms::{Quantity, Refusal, RequestId};

/// Settles a request by a refusal that the book didn't find.
pub(crate) fn refuse<S: Held, D, P: Parts<S>, B: Books<S, D, P>>(
    parts: &mut P,
    book: &mut B,
    id: RequestId,
    why: Refusal,
) -> Result<Outcome<D>, CallFault<S>>
    requires { IsSystemRefusal why }
    ensures ran { CallRan P.step P.tree P.count P.rounds B.step (refuse_plan id why)
        book.old parts.old book.new parts.new (tag_end S.tag result) }
    ensures tree { P.tree parts.new ≡ P.tree parts.old }
{
    match book.refuse(parts, id, why) {
        Ok(answer) => Ok(Outcome::Answered(answer)),
        Err(_) => Err(CallFault::Stopped(None)),
    }
}

/// Answers a release: the lease ends in the book, and its segment goes back.
pub(crate) fn release<S: Held, D, P: Parts<S>, B: Books<S, D, P>>(
    parts: &mut P,
    book: &mut B,
    tree: &Tree,
    id: RequestId,
    line: &ReleaseLine,
) -> Result<Outcome<D>, CallFault<S>>
    requires { P.tree parts.old ≡ nodes_of tree.now }
    ensures ran { CallRan P.step P.tree P.count P.rounds B.step (release_plan tree.now id line.now)
        book.old parts.old book.new parts.new (tag_end S.tag result) }
    ensures tree { P.tree parts.new ≡ P.tree parts.old }
{
    match tree.find(&line.arena) {
        Some(arena) => release_in(parts, book, tree, id, arena, line.base),
        None => refuse(parts, book, id, Refusal::NoArena),
    }
}

/// Answers a release of a lease in the arena.
#[tactic(auto, using(crate::proofs::CallPaths::goes_on))]
fn release_in<S: Held, D, P: Parts<S>, B: Books<S, D, P>>(
    parts: &mut P,
    book: &mut B,
    tree: &Tree,
    id: RequestId,
    arena: u32,
    base: Quantity,
) -> Result<Outcome<D>, CallFault<S>>
    requires { P.tree parts.old ≡ nodes_of tree.now }
    ensures ran { CallRan P.step P.tree P.count P.rounds B.step
        (release_steps tree.now id arena base)
        book.old parts.old book.new parts.new (tag_end S.tag result) }
    ensures tree { P.tree parts.new ≡ P.tree parts.old }
{
    match book.release(parts, id, arena, base) {
        Ok((receipt, segment)) => {
            place(parts, tree, segment)?;
            Ok(Outcome::Settled(receipt))
        }
        Err(NotReleased::Answered(answer)) => Ok(Outcome::Answered(answer)),
        Err(NotReleased::Stopped) => Err(CallFault::Stopped(None)),
    }
}
