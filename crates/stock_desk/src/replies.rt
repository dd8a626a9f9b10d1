//! Replies to requests and hellos.
ghost use Rattle.std.specs.Prelude.{◌≡◌, length};
ghost use Rattle.lease_history.specs.Told.{IsTellable, reply_to, reply_to_answer};
ghost use Rattle.lease_call.specs.Greeting.{hello_refusal, reply_of_greeting};
ghost use Rattle.lease_machine.specs.Conversations.{CanName, CanTell, reply_of_outcome};
ghost use Rattle.arena_tree.specs.Trees.{arena_named};

use arena_tree::Tree;
use deed_core::PlainDeed;
use lease_book::{Answer, HelloFault, KeptReply};
use lease_call::{Greeting, Outcome};
use lease_proto::{Granted, HelloLine, Old, OutOfTurn, RefusedRequest, Reply, Welcome};
use lease_terms::RequestId;

/// The reply to what a hello came to.
pub(crate) fn greeted(hello: &HelloLine, greeting: Greeting<PlainDeed>) -> Reply
    ensures { result ≡ reply_of_greeting hello.now greeting }
{
    match greeting {
        Greeting::Welcome(welcomed) => Reply::Welcome(Welcome {
            client: hello.client,
            incarnation: hello.incarnation,
            protocol: welcomed.protocol(),
        }),
        Greeting::Late(fault) => refused(hello, &fault),
        Greeting::Unswept => Reply::hello_again(hello),
    }
}

/// The reply to a hello that isn't taken.
fn refused(hello: &HelloLine, fault: &HelloFault<PlainDeed>) -> Reply
    ensures { result ≡ hello_refusal hello.now fault.now }
{
    match fault {
        HelloFault::Old(current) => Reply::Old(Old {
            client: hello.client,
            current: current.number(),
        }),
        HelloFault::NoMemory => Reply::hello_again(hello),
    }
}

/// The reply that was settled for the request.
fn settled(tree: &Tree, id: RequestId, reply: KeptReply) -> Reply
    requires { IsTellable (length tree.now) reply }
    ensures { result ≡ reply_to (arena_named tree.now) id reply }
{
    match reply {
        KeptReply::Granted { arena, base, len } => {
            let found = tree.arena(arena);
            Reply::Granted(Granted {
                id,
                arena: found.name,
                base,
                len,
            })
        }
        KeptReply::Released { .. } => Reply::Released(id),
        KeptReply::Refused(refusal) => Reply::Refused(RefusedRequest { id, refusal }),
    }
}

/// The reply that the book's answer is. (It is inlined, so that a line that the book doesn't answer
/// lays out no answer in memory.)
#[inline(always)]
fn answered(tree: &Tree, id: RequestId, answer: &Answer<PlainDeed>) -> Reply
    requires { CanName tree.now answer.now }
    ensures { result ≡ reply_to_answer (arena_named tree.now) id answer.now }
{
    match answer {
        Answer::Kept(receipt) => settled(tree, id, receipt.reply()),
        Answer::Refused(receipt) => settled(tree, id, receipt.reply()),
        Answer::Old(current) => Reply::Old(Old {
            client: id.client,
            current: current.number(),
        }),
        Answer::Stale(greatest) => {
            let last = greatest.number();
            Reply::Stale(OutOfTurn { id, last })
        }
        Answer::Gap(low) => {
            let last = low.number();
            Reply::Gap(OutOfTurn { id, last })
        }
        Answer::Again => Reply::again(id),
    }
}

/// The reply to what a request came to.
pub(crate) fn told(tree: &Tree, id: RequestId, outcome: &Outcome<PlainDeed>) -> Reply
    requires { CanTell tree.now outcome.now }
    ensures { result ≡ reply_of_outcome tree.now id outcome.now }
{
    match outcome {
        Outcome::Settled(receipt) => settled(tree, id, receipt.reply()),
        Outcome::Answered(answer) => answered(tree, id, answer),
        Outcome::Again => Reply::again(id),
    }
}
