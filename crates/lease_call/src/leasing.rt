//! The answer to a lease.
ghost use Rattle.std.specs.Prelude.{◌≡◌, ◌<◌, length, IfOk};
ghost use Rattle.deed_core.specs.Request.{Fits};
ghost use Rattle.arena_tree.specs.Chains.{quantum_in};
ghost use Rattle.arena_tree.specs.Plans.{Ran};
ghost use Rattle.arena_tree.specs.Tags.{tag_climb};
ghost use Rattle.arena_tree.specs.Trees.{nodes_of};
ghost use Rattle.lease_call.specs.CallPlans.{CallRan};
ghost use Rattle.lease_call.specs.CallTags.{tag_end};
ghost use Rattle.lease_call.specs.Leasing.{take_plan, grant_plan, lease_steps, lease_plan};

use crate::books::Books;
use crate::call_faults::{CallFault, NotSettled};
use crate::outcomes::Outcome;
use crate::placing::place;
use crate::releasing::refuse;
use arena_tree::{ClimbFault, PartFault, Parts, Tree};
use deed_core::{Held, Request};
use lease_book::NotLeased;
use lease_proto::LeaseLine;
use lease_terms::{Refusal, RequestId};
use quantum_cache::{alloc, xalloc};
use tag_arena::ArenaFault;

/// Gives a segment of the arena for the request: by its caches and its sources where that is
/// unconstrained, else by one carve.
#[tactic(auto, using(crate::proofs::CallPaths::parts_go_on))]
fn take<S: Held, P: Parts<S>>(
    parts: &mut P,
    tree: &Tree,
    arena: u32,
    request: &Request,
) -> Result<S, ClimbFault<S>>
    requires tree { P.tree parts.old ≡ nodes_of tree.now }
    requires within { arena < length tree.now }
    ensures ran { Ran P.step P.tree P.count P.rounds (take_plan tree.now arena request.now)
        parts.old parts.new (tag_climb S.tag result) }
    ensures fits { IfOk result (λ s. Fits (quantum_in (nodes_of tree.now) arena) request.now
        (S.tag s).holding.range.base (S.tag s).holding.range.len) }
    ensures tree { P.tree parts.new ≡ P.tree parts.old }
{
    if !request.is_constrained() {
        return alloc(parts, tree.chain(arena), request.size);
    }
    match xalloc(parts, arena, request) {
        Ok(segment) => Ok(segment),
        Err(PartFault::Refused(fault)) => Err(ClimbFault::Refused(fault)),
        Err(PartFault::Stopped) => Err(ClimbFault::Stopped(None)),
    }
}

/// Leases a segment that was taken for a request, or puts it back again.
#[tactic(auto, using(crate::proofs::CallPaths::goes_on))]
fn grant<S: Held, D, P: Parts<S>, B: Books<S, D, P>>(
    parts: &mut P,
    book: &mut B,
    tree: &Tree,
    id: RequestId,
    arena: u32,
    request: &Request,
    segment: S,
) -> Result<Outcome<D>, CallFault<S>>
    requires tree { P.tree parts.old ≡ nodes_of tree.now }
    requires within { arena < length tree.now }
    requires fits { Fits (quantum_in (nodes_of tree.now) arena) request.now
        (S.tag segment).holding.range.base (S.tag segment).holding.range.len }
    ensures ran { CallRan P.step P.tree P.count P.rounds B.step
        (grant_plan tree.now id arena request.now (S.tag segment))
        book.old parts.old book.new parts.new (tag_end S.tag result) }
    ensures tree { P.tree parts.new ≡ P.tree parts.old }
{
    let quantum = tree.quantum(arena);
    match book.settle(parts, id, quantum, request, segment) {
        Ok(receipt) => Ok(Outcome::Settled(receipt)),
        Err(NotSettled::NotLeased(NotLeased { segment, answer })) => {
            place(parts, tree, segment)?;
            Ok(Outcome::Answered(answer))
        }
        Err(NotSettled::Stopped(same)) => Err(CallFault::Stopped(Some(same))),
    }
}

/// Answers a new request for a lease of the arena.
#[tactic(auto, using(crate::proofs::CallPaths::goes_on))]
fn lease_in<S: Held, D, P: Parts<S>, B: Books<S, D, P>>(
    parts: &mut P,
    book: &mut B,
    tree: &Tree,
    id: RequestId,
    arena: u32,
    request: &Request,
) -> Result<Outcome<D>, CallFault<S>>
    requires tree { P.tree parts.old ≡ nodes_of tree.now }
    requires within { arena < length tree.now }
    ensures ran { CallRan P.step P.tree P.count P.rounds B.step
        (lease_steps tree.now id arena request.now)
        book.old parts.old book.new parts.new (tag_end S.tag result) }
    ensures tree { P.tree parts.new ≡ P.tree parts.old }
{
    match take(parts, tree, arena, request) {
        Ok(segment) => grant(parts, book, tree, id, arena, request, segment),
        Err(ClimbFault::Refused(ArenaFault::BadRequest)) => refuse(
            parts,
            book,
            id,
            Refusal::BadRequest,
        ),
        Err(ClimbFault::Refused(ArenaFault::NoFit)) => refuse(parts, book, id, Refusal::NoFit),
        Err(ClimbFault::Refused(ArenaFault::NoMemory)) => Ok(Outcome::Again),
        Err(ClimbFault::Stuck(same)) => Err(CallFault::Stuck(same)),
        Err(ClimbFault::Stopped(hand)) => Err(CallFault::Stopped(hand)),
    }
}

/// Answers a lease: where its number is new, a segment is taken for it and leased.
#[tactic(auto, using(crate::proofs::CallPaths::goes_on))]
pub(crate) fn lease<S: Held, D, P: Parts<S>, B: Books<S, D, P>>(
    parts: &mut P,
    book: &mut B,
    tree: &Tree,
    id: RequestId,
    line: &LeaseLine,
) -> Result<Outcome<D>, CallFault<S>>
    requires { P.tree parts.old ≡ nodes_of tree.now }
    ensures ran { CallRan P.step P.tree P.count P.rounds B.step (lease_plan tree.now id line.now)
        book.old parts.old book.new parts.new (tag_end S.tag result) }
    ensures tree { P.tree parts.new ≡ P.tree parts.old }
{
    match book.look(parts, id) {
        Ok(None) => {}
        Ok(Some(answer)) => return Ok(Outcome::Answered(answer)),
        Err(_) => return Err(CallFault::Stopped(None)),
    }
    match tree.find(&line.arena) {
        Some(arena) => lease_in(parts, book, tree, id, arena, &line.demand()),
        None => refuse(parts, book, id, Refusal::NoArena),
    }
}
