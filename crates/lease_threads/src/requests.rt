//! Answering one line: its list of steps is gone through, and what that comes to is told.
ghost use Rattle.std.specs.Prelude.{◌≡◌, ◌↔◌, None, Some, true, IfOk, IfSome, IsTrue};
ghost use Rattle.std.specs.Prelude.{OnOk, OnErr};
ghost use Rattle.deed_table.specs.declared.deeds.SeatDeed.{SeatDeed};
ghost use Rattle.lease_call.specs.Kept.{call_left};
ghost use Rattle.lease_call.specs.Requesting.{request_plan};
ghost use Rattle.locked_parts.specs.Gates.{MayStop};
ghost use Rattle.locked_parts.specs.Kinds.{AreForSame};
ghost use Rattle.lease_threads.specs.Calling.{AnswersNewly, GreetsBy, RunsLine};
ghost use Rattle.lease_threads.specs.Calling.{WentThrough, greeting_plan};
ghost use Rattle.lease_threads.specs.Calling.{StopsIn, StopsLine, StopsOrEnds};
ghost use Rattle.shared_book.specs.Outcomes.{IsGreetedSo, IsOutcomeOf, TellsEnd};
ghost use Rattle.shared_book.specs.Outcomes.{greeting_end, end_receipt};
ghost use Rattle.shared_book.specs.Replying.{IsAnswerTo, IsReplyTo, IsGreeting, IsAgain};
ghost use Rattle.shared_book.specs.Settling.{IsSettledAsAsked, Settles, TellsNew};
ghost use Rattle.shared_book.specs.Words.{IsBacked};
ghost use Rattle.lease_book.specs.Receipts.{ReceiptState};

use crate::cpus::Cpu;
use crate::gated_books::GatedBook;
use crate::systems::System;
use arena_tree::Tree;
use deed_core::Segment;
use deed_table::{Name, SeatDeed};
use lease_book::{MOST_LEASES, Receipt};
use lease_call::{CallFault, Greeting, Outcome};
use lease_proto::{HelloLine, Line, Op, Reply};
use lease_terms::RequestId;
use locked_parts::{Gate, RequestStopped, Running};
use shared_book::{HelloTold, Told, again, greeted, told_outcome, unsettled};
use std::sync::Wait;

/// What the list of steps of a line ended with.
pub(crate) type Ended<N, T> = Result<T, CallFault<Segment<SeatDeed<N>>>>;

impl<N: Name> System<N> {
    /// Answers one line of a client, and tells whether the line was settled by that. Then a grant
    /// is of the arena that the line names, by that one's quantum, and for what it asks; what is
    /// released is the lease of the arena and the base that it names; and a refusal's word may be
    /// so. What is settled neither now nor before is answered by the book's word, or `again`. The
    /// gate is asked before each step, as one of this CPU's; where it says Stop the request ends
    /// there, and the CPU keeps what that left in its hand, and its magazines. A segment that can't
    /// be placed stays in the hand: each request tries to place it first, and is answered `again`
    /// while it can't.
    pub fn request<R: Wait, G: Gate>(
        &self,
        rt: &R,
        cpu: &mut Cpu<N>,
        gate: &G,
        line: &Line,
    ) -> Result<Told<N>, RequestStopped>
        ensures runs { IfOk result (λ r.
            RunsLine (SeatDeed N) self.now.arenas (G.passed gate.now) cpu.old.number
            cpu.old.hand line.now cpu.new.hand r.reply r.receipt r.is_new) }
        ensures answers { IfOk result (λ r.
            IsAnswerTo self.now.arenas line.now r.reply r.receipt) }
        ensures backed { IfOk result (λ r. IsBacked r.reply r.receipt r.word) }
        ensures new { IfOk result (λ r. r.is_new ≡ true
            → IsSettledAsAsked self.now.arenas line.now r.receipt) }
        ensures number { cpu.new.number ≡ cpu.old.number }
        ensures magazines { AreForSame cpu.old.caches cpu.new.caches }
        ensures held { IfOk result (λ r. IfSome cpu.new.hand (λ _. IsAgain r.reply)) }
        ensures stopped { OnErr result (MayStop G.may_stop gate.now) }
        ensures left { OnErr result
            (StopsLine (SeatDeed N) self.now.arenas (G.may_stop gate.now) (G.passed gate.now)
            cpu.old.number cpu.old.hand line.now cpu.new.hand) }
    {
        match line {
            Line::Hello(hello) => {
                let (reply, word) = self.greet(rt, cpu, gate, hello)?;
                Ok(unsettled(reply, word))
            }
            Line::Request(id, op) => self.serve(rt, cpu, gate, *id, op),
        }
    }

    /// Answers a hello.
    fn greet<R: Wait, G: Gate>(
        &self,
        rt: &R,
        cpu: &mut Cpu<N>,
        gate: &G,
        hello: &HelloLine,
    ) -> Result<HelloTold<N>, RequestStopped>
        ensures runs { IfOk result (λ r. GreetsBy (SeatDeed N) self.now.arenas
            (G.passed gate.now) cpu.old.number hello.now
            (greeting_plan (SeatDeed N) self.now.arenas cpu.old.hand hello.now) cpu.new.hand r.0) }
        ensures greeting { IfOk result (λ r. IsGreeting hello.now r.0) }
        ensures backed { IfOk result (λ r. IsBacked r.0 None r.1) }
        ensures number { cpu.new.number ≡ cpu.old.number }
        ensures magazines { AreForSame cpu.old.caches cpu.new.caches }
        ensures held { IfOk result (λ r. IfSome cpu.new.hand (λ _. IsAgain r.0)) }
        ensures stopped { OnErr result (MayStop G.may_stop gate.now) }
        ensures left { OnErr result (StopsIn self.now.arenas
            (G.may_stop gate.now) (G.passed gate.now) cpu.old.number
            (greeting_plan (SeatDeed N) self.now.arenas cpu.old.hand hello.now) cpu.new.hand) }
    {
        let ended = self.run_hello(rt, cpu, gate, hello)?;
        Ok(tell_hello(cpu, hello, ended))
    }

    /// Answers a request.
    fn serve<R: Wait, G: Gate>(
        &self,
        rt: &R,
        cpu: &mut Cpu<N>,
        gate: &G,
        id: RequestId,
        op: &Op,
    ) -> Result<Told<N>, RequestStopped>
        ensures runs { IfOk result (λ r. AnswersNewly {D = SeatDeed N} self.now.arenas
            (G.passed gate.now) cpu.old.number id
            (request_plan self.now.arenas cpu.old.hand id op.now) cpu.new.hand
            r.reply r.receipt r.is_new) }
        ensures told { IfOk result (λ r. IsReplyTo self.now.arenas id r.reply r.receipt) }
        ensures backed { IfOk result (λ r. IsBacked r.reply r.receipt r.word) }
        ensures new { IfOk result (λ r. r.is_new ≡ true → (v : ReceiptState)
            × (r.receipt ≡ Some v) × Settles self.now.arenas op.now v) }
        ensures number { cpu.new.number ≡ cpu.old.number }
        ensures magazines { AreForSame cpu.old.caches cpu.new.caches }
        ensures held { IfOk result (λ r. IfSome cpu.new.hand (λ _. IsAgain r.reply)) }
        ensures stopped { OnErr result (MayStop G.may_stop gate.now) }
        ensures left { OnErr result (StopsIn {D = SeatDeed N} self.now.arenas
            (G.may_stop gate.now) (G.passed gate.now) cpu.old.number
            (request_plan self.now.arenas cpu.old.hand id op.now) cpu.new.hand) }
    {
        let ended = self.run_request(rt, cpu, gate, id, op)?;
        // For its clause: it is a tree.
        let _ = self.tree().len();
        Ok(tell(self.tree(), cpu, id, ended))
    }

    /// Goes through the list of steps of a request.
    fn run_request<R: Wait, G: Gate>(
        &self,
        rt: &R,
        cpu: &mut Cpu<N>,
        gate: &G,
        id: RequestId,
        op: &Op,
    ) -> Result<Ended<N, Outcome<SeatDeed<N>>>, RequestStopped>
        ensures went { IfOk result (WentThrough self.now.arenas
            (G.passed gate.now) cpu.old.number
            (request_plan self.now.arenas cpu.old.hand id op.now)) }
        ensures number { cpu.new.number ≡ cpu.old.number }
        ensures magazines { AreForSame cpu.old.caches cpu.new.caches }
        ensures hand { OnOk result (cpu.new.hand ≡ None) }
        ensures stopped { OnErr result (MayStop G.may_stop gate.now) }
        ensures left { OnErr result (StopsIn {D = SeatDeed N} self.now.arenas
            (G.may_stop gate.now) (G.passed gate.now) cpu.old.number
            (request_plan self.now.arenas cpu.old.hand id op.now) cpu.new.hand) }
    {
        let hand = cpu.hand.take();
        let number = cpu.number();
        let mut running = Running::new(&self.parts, rt, gate, number, &mut cpu.caches);
        let mut book = GatedBook { book: &self.book };
        let tree = self.parts.tree();
        let ended = lease_call::request(&mut running, &mut book, tree, hand, id, op);
        unless_stopped(cpu, ended)
    }

    /// Goes through the list of steps of a hello.
    fn run_hello<R: Wait, G: Gate>(
        &self,
        rt: &R,
        cpu: &mut Cpu<N>,
        gate: &G,
        hello: &HelloLine,
    ) -> Result<Ended<N, Greeting<SeatDeed<N>>>, RequestStopped>
        ensures went { IfOk result (WentThrough self.now.arenas
            (G.passed gate.now) cpu.old.number
            (greeting_plan (SeatDeed N) self.now.arenas cpu.old.hand hello.now)) }
        ensures number { cpu.new.number ≡ cpu.old.number }
        ensures magazines { AreForSame cpu.old.caches cpu.new.caches }
        ensures hand { OnOk result (cpu.new.hand ≡ None) }
        ensures stopped { OnErr result (MayStop G.may_stop gate.now) }
        ensures left { OnErr result (StopsIn self.now.arenas
            (G.may_stop gate.now) (G.passed gate.now) cpu.old.number
            (greeting_plan (SeatDeed N) self.now.arenas cpu.old.hand hello.now) cpu.new.hand) }
    {
        let hand = cpu.hand.take();
        let number = cpu.number();
        let mut running = Running::new(&self.parts, rt, gate, number, &mut cpu.caches);
        let mut book = GatedBook { book: &self.book };
        let turns = MOST_LEASES as u64 + 1;
        let tree = self.parts.tree();
        let ended = lease_call::hello(&mut running, &mut book, tree, hand, hello, turns);
        unless_stopped(cpu, ended)
    }
}

/// Tells on what a list of steps ended with, unless it was stopped. What a stop left goes into the
/// empty hand.
fn unless_stopped<N: Name, T>(
    cpu: &mut Cpu<N>,
    ended: Ended<N, T>,
) -> Result<Ended<N, T>, RequestStopped>
    requires hand { cpu.old.hand ≡ None }
    ensures told { StopsOrEnds ended result cpu.new.hand }
    ensures number { cpu.new.number ≡ cpu.old.number }
    ensures magazines { cpu.new.caches ≡ cpu.old.caches }
{
    match ended {
        Ok(end) => Ok(Ok(end)),
        Err(CallFault::Stuck(segment)) => Ok(Err(CallFault::Stuck(segment))),
        Err(CallFault::Stopped(left)) => {
            cpu.hold_left(left);
            Err(RequestStopped)
        }
    }
}

/// Tells what a hello's list of steps ended with. A segment that it left goes into the empty hand.
fn tell_hello<N: Name>(
    cpu: &mut Cpu<N>,
    hello: &HelloLine,
    ended: Ended<N, Greeting<SeatDeed<N>>>,
) -> HelloTold<N>
    requires hand { cpu.old.hand ≡ None }
    requires greeting { IfOk ended (IsGreetedSo hello.now) }
    ensures exactly { result.0 ≡ greeting_end hello.now ended }
    ensures left { cpu.new.hand ≡ call_left ended }
    ensures greeting { IsGreeting hello.now result.0 }
    ensures backed { IsBacked result.0 None result.1 }
    ensures number { cpu.new.number ≡ cpu.old.number }
    ensures magazines { AreForSame cpu.old.caches cpu.new.caches }
    ensures held { IfSome cpu.new.hand (λ _. IsAgain result.0) }
{
    match ended {
        Ok(greeting) => greeted(hello, greeting),
        Err(fault) => {
            cpu.hold_left(fault.left());
            (Reply::hello_again(hello), None)
        }
    }
}

/// Tells what a request's list of steps ended with. A segment that it left goes into the empty
/// hand.
fn tell<N: Name>(
    tree: &Tree,
    cpu: &mut Cpu<N>,
    id: RequestId,
    ended: Ended<N, Outcome<SeatDeed<N>>>,
) -> Told<N>
    requires hand { cpu.old.hand ≡ None }
    requires outcome { IfOk ended (IsOutcomeOf id) }
    ensures exactly { TellsEnd tree.now id ended result.reply result.receipt }
    ensures left { cpu.new.hand ≡ call_left ended }
    ensures told { IsReplyTo tree.now id result.reply result.receipt }
    ensures backed { IsBacked result.reply result.receipt result.word }
    ensures new { IsTrue result.is_new ↔ TellsNew (end_receipt ended) result.receipt }
    ensures number { cpu.new.number ≡ cpu.old.number }
    ensures magazines { AreForSame cpu.old.caches cpu.new.caches }
    ensures held { IfSome cpu.new.hand (λ _. IsAgain result.reply) }
{
    match ended {
        Ok(outcome) => told_outcome(tree, id, outcome),
        Err(fault) => {
            cpu.hold_left(fault.left());
            again(id)
        }
    }
}
