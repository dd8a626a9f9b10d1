//! The answer to a request.
ghost use Rattle.std.specs.Prelude.{◌≡◌};
ghost use Rattle.arena_tree.specs.Tags.{tag_option};
ghost use Rattle.arena_tree.specs.Trees.{nodes_of};
ghost use Rattle.lease_call.specs.CallPlans.{CallRan};
ghost use Rattle.lease_call.specs.CallTags.{tag_end};
ghost use Rattle.lease_call.specs.Requesting.{op_plan, request_plan};

use crate::books::Books;
use crate::call_faults::CallFault;
use crate::leasing::lease;
use crate::outcomes::Outcome;
use crate::placing::place;
use crate::releasing::release;
use arena_tree::{Parts, Tree};
use deed_core::Held;
use lease_proto::Op;
use lease_terms::RequestId;

/// Answers a request: the segment in the hand goes back, and then what the request asks is done.
#[tactic(auto, using(crate::proofs::CallPaths::goes_on))]
pub fn request<S: Held, D, P: Parts<S>, B: Books<S, D, P>>(
    parts: &mut P,
    book: &mut B,
    tree: &Tree,
    hand: Option<S>,
    id: RequestId,
    op: &Op,
) -> Result<Outcome<D>, CallFault<S>>
    requires { P.tree parts.old ≡ nodes_of tree.now }
    ensures ran { CallRan P.step P.tree P.count P.rounds B.step
        (request_plan tree.now (tag_option S.tag hand) id op.now)
        book.old parts.old book.new parts.new (tag_end S.tag result) }
    ensures tree { P.tree parts.new ≡ P.tree parts.old }
{
    match hand {
        None => serve(parts, book, tree, id, op),
        Some(segment) => {
            place(parts, tree, segment)?;
            serve(parts, book, tree, id, op)
        }
    }
}

/// Answers a request with nothing in the hand.
fn serve<S: Held, D, P: Parts<S>, B: Books<S, D, P>>(
    parts: &mut P,
    book: &mut B,
    tree: &Tree,
    id: RequestId,
    op: &Op,
) -> Result<Outcome<D>, CallFault<S>>
    requires { P.tree parts.old ≡ nodes_of tree.now }
    ensures ran { CallRan P.step P.tree P.count P.rounds B.step (op_plan tree.now id op.now)
        book.old parts.old book.new parts.new (tag_end S.tag result) }
    ensures tree { P.tree parts.new ≡ P.tree parts.old }
{
    match op {
        Op::Lease(line) => lease(parts, book, tree, id, line),
        Op::Release(line) => release(parts, book, tree, id, line),
    }
}
