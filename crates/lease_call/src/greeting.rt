//! The answer to a hello.
ghost use Rattle.std.specs.Prelude.{◌≡◌};
ghost use Rattle.arena_tree.specs.Tags.{tag_option};
ghost use Rattle.arena_tree.specs.Trees.{nodes_of};
ghost use Rattle.lease_call.specs.CallPlans.{CallRan};
ghost use Rattle.lease_call.specs.CallTags.{tag_end};
ghost use Rattle.lease_call.specs.Greeting.{hello_plan, greet_plan, sweep_plan};

use crate::books::Books;
use crate::call_faults::{CallFault, NotGreeted};
use crate::outcomes::Greeting;
use crate::placing::place;
use arena_tree::{Parts, Tree};
use deed_core::Held;
use lease_book::{SweepEnd, Taken};
use lease_proto::HelloLine;

/// Answers a hello: the segment in the hand goes back, the book takes the hello, and then leases
/// of the client's older incarnations end, one at a time, until a sweep finds none. Of so many
/// sweeps at most: one for each lease that a client may have, and one more, are enough.
#[tactic(auto, using(crate::proofs::CallPaths::goes_on))]
pub fn hello<S: Held, D, P: Parts<S>, B: Books<S, D, P>>(
    parts: &mut P,
    book: &mut B,
    tree: &Tree,
    hand: Option<S>,
    line: &HelloLine,
    turns: u64,
) -> Result<Greeting<D>, CallFault<S>>
    requires { P.tree parts.old ≡ nodes_of tree.now }
    ensures ran { CallRan P.step P.tree P.count P.rounds B.step
        (hello_plan tree.now (tag_option S.tag hand) line.now turns)
        book.old parts.old book.new parts.new (tag_end S.tag result) }
    ensures tree { P.tree parts.new ≡ P.tree parts.old }
{
    match hand {
        None => greet(parts, book, tree, line, turns),
        Some(segment) => {
            place(parts, tree, segment)?;
            greet(parts, book, tree, line, turns)
        }
    }
}

/// Answers a hello with nothing in the hand.
#[tactic(auto, using(crate::proofs::CallPaths::goes_on))]
fn greet<S: Held, D, P: Parts<S>, B: Books<S, D, P>>(
    parts: &mut P,
    book: &mut B,
    tree: &Tree,
    line: &HelloLine,
    turns: u64,
) -> Result<Greeting<D>, CallFault<S>>
    requires { P.tree parts.old ≡ nodes_of tree.now }
    ensures ran { CallRan P.step P.tree P.count P.rounds B.step
        (greet_plan tree.now line.now turns)
        book.old parts.old book.new parts.new (tag_end S.tag result) }
    ensures tree { P.tree parts.new ≡ P.tree parts.old }
{
    match book.hello(parts, line.client, line.incarnation, line.protocol) {
        Ok(taken) => sweep_all(parts, book, tree, &taken, turns),
        Err(NotGreeted::Late(fault)) => Ok(Greeting::Late(fault)),
        Err(NotGreeted::Stopped) => Err(CallFault::Stopped(None)),
    }
}

/// Ends leases of older incarnations of the client whose hello was taken, until a sweep finds none;
/// then it is welcome.
fn sweep_all<S: Held, D, P: Parts<S>, B: Books<S, D, P>>(
    parts: &mut P,
    book: &mut B,
    tree: &Tree,
    taken: &Taken<D>,
    turns: u64,
) -> Result<Greeting<D>, CallFault<S>>
    requires { P.tree parts.old ≡ nodes_of tree.now }
    ensures ran { CallRan P.step P.tree P.count P.rounds B.step
        (sweep_plan tree.now taken.now turns)
        book.old parts.old book.new parts.new (tag_end S.tag result) }
    ensures tree { P.tree parts.new ≡ P.tree parts.old }
{
    let mut left = turns;
    'sweeps: while left > 0 {
        left -= 1;
        match book.sweep(parts, taken) {
            Ok(SweepEnd::Welcome(welcomed)) => return Ok(Greeting::Welcome(welcomed)),
            Ok(SweepEnd::Ended(_, segment)) => place(parts, tree, segment)?,
            Err(_) => return Err(CallFault::Stopped(None)),
        }
    }
    Ok(Greeting::Unswept)
}
