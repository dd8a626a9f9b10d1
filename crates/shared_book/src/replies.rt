//! The replies to a client's lines.
ghost use Rattle.std.specs.Prelude.{◌≡◌, ◌↔◌, None, Some, IfNone, IfSome, IsTrue, false};
ghost use Rattle.lease_book.specs.Receipts.{IsEarned};
ghost use Rattle.shared_book.specs.Replying.{TellsSettled, IsUnsettledTo, IsReplyTo, IsToldAs};
ghost use Rattle.shared_book.specs.Replying.{TellsAnswer, IsForeign};
ghost use Rattle.shared_book.specs.Words.{IsBacked};
ghost use Rattle.lease_proto.specs.Requests.{again_of};
ghost use Rattle.lease_call.specs.Greeting.{hello_refusal, reply_of_greeting};
ghost use Rattle.shared_book.specs.Replying.{IsByQuantum, IsLateHello};
ghost use Rattle.shared_book.specs.Replying.{IsReceiptOf, IsBookAnswerTo, IsGreeting, IsAgain};
ghost use Rattle.shared_book.specs.Settling.{TellsNew, new_receipt};
ghost use Rattle.shared_book.specs.Outcomes.{IsOutcomeOf, TellsOutcome, outcome_receipt};
ghost use Rattle.shared_book.specs.Outcomes.{IsGreetedSo};

use arena_tree::Tree;
use deed_table::{Name, SeatDeed};
use lease_book::{
    Answer, BookNumber, Current, Greatest, HelloFault, KeptReply, Low, Receipt, Terms, Welcomed,
};
use lease_call::{Greeting, Outcome};
use lease_proto::{Granted, HelloLine, Old, OutOfTurn, RefusedRequest, Reply, Welcome};
use lease_terms::RequestId;

/// What the book says of a line that it doesn't settle.
#[derive_where(Clone, Copy, PartialEq, Eq, Debug)]
pub enum BookWord<D> {
    /// The hello is taken, and no lease of an older incarnation is left.
    Welcome(Welcomed<D>),
    /// The incarnation isn't this, the current one.
    Old(BookNumber<Current, D>),
    /// The number is below this, the greatest settled one, by the window or more.
    Stale(BookNumber<Greatest, D>),
    /// The number is above this, up to which all are settled, by more than the window.
    Gap(BookNumber<Low, D>),
}

/// What a line is answered, with the book's receipt where it is settled, and else with the book's
/// word; only that a line may be sent again needs neither.
#[derive(Clone, Copy, PartialEq, Eq, Debug)]
pub struct LineAnswer<V, W> {
    pub reply: Reply,
    pub receipt: Option<V>,
    pub word: Option<W>,
    /// Whether the line was settled just now, by this receipt. A request that comes again gets what
    /// it was settled by before, which is of the line that came first.
    pub is_new: bool,
}

/// What a line is answered, with a receipt or a word of a running system's book.
pub type Told<N> = LineAnswer<Receipt<SeatDeed<N>>, BookWord<SeatDeed<N>>>;

/// What a hello is answered, with the book's word.
pub type HelloTold<N> = (Reply, Option<BookWord<SeatDeed<N>>>);

/// The reply to what a hello comes to.
pub fn greeted<N: Name>(hello: &HelloLine, greeting: Greeting<SeatDeed<N>>) -> HelloTold<N>
    requires { IsGreetedSo hello.now greeting }
    ensures greeting { IsGreeting hello.now result.0 }
    ensures exactly { result.0 ≡ reply_of_greeting hello.now greeting }
    ensures backed { IsBacked result.0 None result.1 }
{
    match greeting {
        Greeting::Welcome(welcomed) => {
            let reply = Reply::Welcome(Welcome {
                client: hello.client,
                incarnation: hello.incarnation,
                protocol: welcomed.protocol(),
            });
            (reply, Some(BookWord::Welcome(welcomed)))
        }
        Greeting::Late(fault) => not_welcome(hello, fault),
        Greeting::Unswept => (Reply::hello_again(hello), None),
    }
}

/// The reply to a hello that the book didn't take.
fn not_welcome<N: Name>(hello: &HelloLine, fault: HelloFault<SeatDeed<N>>) -> HelloTold<N>
    requires { IsLateHello hello.now.incarnation fault }
    ensures greeting { IsGreeting hello.now result.0 }
    ensures exactly { result.0 ≡ hello_refusal hello.now fault }
    ensures backed { IsBacked result.0 None result.1 }
{
    match fault {
        HelloFault::Old(current) => {
            let reply = Reply::Old(Old {
                client: hello.client,
                current: current.number(),
            });
            (reply, Some(BookWord::Old(current)))
        }
        HelloFault::NoMemory => (Reply::hello_again(hello), None),
    }
}

/// The reply that was settled; None where no arena has the number and the quantum.
fn settled(tree: &Tree, id: RequestId, kept: KeptReply, terms: Option<Terms>) -> Option<Reply>
    requires { IsEarned kept terms }
    ensures tells { IfSome result (TellsSettled tree.now id kept) }
    ensures quantum { IfSome result (λ _. IsByQuantum tree.now kept terms) }
    ensures none { IfNone result (IsForeign tree.now kept terms) }
{
    match kept {
        KeptReply::Granted { arena, base, len } => {
            if arena as usize >= tree.len() || terms_quantum(terms) != tree.quantum(arena) {
                return None;
            }
            let arena = tree.arena(arena).name;
            Some(Reply::Granted(Granted {
                id,
                arena,
                base,
                len,
            }))
        }
        KeptReply::Released { .. } => Some(Reply::Released(id)),
        KeptReply::Refused(refusal) => Some(Reply::Refused(RefusedRequest { id, refusal })),
    }
}

/// The quantum of these terms; 0, which is no arena's, where there are none.
fn terms_quantum(terms: Option<Terms>) -> u64
    ensures { IfSome terms (λ t. result ≡ t.quantum) }
{
    match terms {
        Some(terms) => terms.quantum,
        None => 0,
    }
}

/// What a line is answered by this reply where nothing was settled: there is no receipt, and the
/// book's word, if the reply rests on one.
pub fn unsettled<N: Name>(reply: Reply, word: Option<BookWord<SeatDeed<N>>>) -> Told<N>
    ensures reply { result.reply ≡ reply }
    ensures receipt { result.receipt ≡ None }
    ensures word { result.word ≡ word }
    ensures old { result.is_new ≡ false }
{
    LineAnswer {
        reply,
        receipt: None,
        word,
        is_new: false,
    }
}

/// What a request is answered that may be sent once more: nothing was settled.
pub fn again<N: Name>(id: RequestId) -> Told<N>
    ensures unsettled { IsUnsettledTo id result.reply }
    ensures receipt { result.receipt ≡ None }
    ensures again { IsAgain result.reply }
    ensures exactly { result.reply ≡ again_of id }
    ensures backed { IsBacked result.reply result.receipt result.word }
    ensures old { result.is_new ≡ false }
{
    unsettled(Reply::again(id), None)
}

/// The reply of a receipt, by which the request was settled now, or before.
fn told<N: Name>(tree: &Tree, id: RequestId, receipt: Receipt<SeatDeed<N>>, is_new: bool) -> Told<N>
    requires { IsReceiptOf id receipt }
    ensures told { IsReplyTo tree.now id result.reply result.receipt }
    ensures exactly { IsToldAs tree.now id receipt result.reply result.receipt }
    ensures backed { IsBacked result.reply result.receipt result.word }
    ensures new { IsTrue result.is_new ↔ IsTrue is_new × (result.receipt ≡ Some receipt) }
{
    match settled(tree, id, receipt.reply(), receipt.terms()) {
        Some(reply) => LineAnswer {
            reply,
            receipt: Some(receipt),
            word: None,
            is_new,
        },
        None => again(id),
    }
}

/// The reply that the book's answer is.
fn answered<N: Name>(tree: &Tree, id: RequestId, answer: Answer<SeatDeed<N>>) -> Told<N>
    requires { IsBookAnswerTo id answer }
    ensures told { IsReplyTo tree.now id result.reply result.receipt }
    ensures exactly { TellsAnswer tree.now id answer result.reply result.receipt }
    ensures backed { IsBacked result.reply result.receipt result.word }
    ensures new { IsTrue result.is_new ↔ TellsNew (new_receipt answer) result.receipt }
{
    match answer {
        Answer::Kept(receipt) => told(tree, id, receipt, false),
        Answer::Refused(receipt) => told(tree, id, receipt, true),
        Answer::Old(current) => {
            let reply = Reply::Old(Old {
                client: id.client,
                current: current.number(),
            });
            unsettled(reply, Some(BookWord::Old(current)))
        }
        Answer::Stale(greatest) => {
            let last = greatest.number();
            let reply = Reply::Stale(OutOfTurn { id, last });
            unsettled(reply, Some(BookWord::Stale(greatest)))
        }
        Answer::Gap(low) => {
            let last = low.number();
            let reply = Reply::Gap(OutOfTurn { id, last });
            unsettled(reply, Some(BookWord::Gap(low)))
        }
        Answer::Again => again(id),
    }
}

/// The reply to what a request comes to.
pub fn told_outcome<N: Name>(tree: &Tree, id: RequestId, outcome: Outcome<SeatDeed<N>>) -> Told<N>
    requires { IsOutcomeOf id outcome }
    ensures exactly { TellsOutcome tree.now id outcome result.reply result.receipt }
    ensures told { IsReplyTo tree.now id result.reply result.receipt }
    ensures backed { IsBacked result.reply result.receipt result.word }
    ensures new { IsTrue result.is_new ↔ TellsNew (outcome_receipt outcome) result.receipt }
{
    match outcome {
        Outcome::Settled(receipt) => told(tree, id, receipt, true),
        Outcome::Answered(answer) => answered(tree, id, answer),
        Outcome::Again => again(id),
    }
}
