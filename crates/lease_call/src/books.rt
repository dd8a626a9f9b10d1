//! The book of leases, as one CPU reaches it.
ghost use Rattle.std.specs.Prelude.{◌≡◌, IfOk};
ghost use Rattle.deed_core.specs.Request.{Fits};
ghost use Rattle.lease_call.specs.Calls.{BookCall, AnswerOf, Look, Settle, Refuse, Release};
ghost use Rattle.lease_book.specs.Calls.{IsSystemRefusal};
ghost use Rattle.lease_call.specs.Calls.{Hello, Sweep, IsWelcomeOf};
ghost use Rattle.lease_call.specs.CallPlans.{BookStep};
ghost use Rattle.lease_call.specs.CallTags.{tag_released, tag_settled, tag_swept};

use crate::call_faults::{NotGreeted, NotReleased, NotSettled};
use arena_tree::{Parts, Stopped};
use deed_core::{Held, Request};
use lease_book::{Answer, Receipt, SweepEnd, Taken};
use lease_terms::{ClientId, Ordinal, Protocol, Quantity, Refusal, RequestId};

/// The book of leases as one CPU reaches it, beside its parts. Each call is one event of the book;
/// where the CPU is to stop it answers Stopped, and nothing is done. What lets a CPU go on, it has
/// with its parts: each call is passed these, and changes no arena, no count and no round of them.
/// `D` is the type of the book's deeds.
pub trait Books<S: Held, D, P: Parts<S>> {
    // what is known of a call: the book and the parts before it, the call, its answer, and both
    // after it
    ghost step: { Self → P → (c : BookCall) → AnswerOf D c → Self → P → Type 0 };

    /// What the book has on a request's number. None: it is new.
    fn look(&mut self, parts: &mut P, id: RequestId) -> Result<Option<Answer<D>>, Stopped>
        ensures { BookStep step P.tree P.count P.rounds self.old parts.old
            (Look id) result self.new parts.new };

    /// Settles a new request by a refusal that the book didn't find.
    fn refuse(&mut self, parts: &mut P, id: RequestId, why: Refusal) -> Result<Answer<D>, Stopped>
        requires { IsSystemRefusal why }
        ensures { BookStep step P.tree P.count P.rounds self.old parts.old
            (Refuse id why) result self.new parts.new };

    /// Settles a new request by a grant of the segment.
    fn settle(
        &mut self,
        parts: &mut P,
        id: RequestId,
        quantum: u64,
        request: &Request,
        segment: S,
    ) -> Result<Receipt<D>, NotSettled<S, D>>
        requires fits { Fits quantum request.now (S.tag segment).holding.range.base
            (S.tag segment).holding.range.len }
        ensures { BookStep step P.tree P.count P.rounds self.old parts.old
            (Settle id (S.tag segment) (record { quantum = quantum; request = request.now }))
            (tag_settled S.tag result) self.new parts.new };

    /// Settles a new request by a release.
    fn release(
        &mut self,
        parts: &mut P,
        id: RequestId,
        arena: u32,
        base: Quantity,
    ) -> Result<(Receipt<D>, S), NotReleased<D>>
        ensures { BookStep step P.tree P.count P.rounds self.old parts.old
            (Release id arena base) (tag_released S.tag result) self.new parts.new };

    /// Takes a hello that asks for a protocol, and tells the one that stands for its incarnation.
    fn hello(
        &mut self,
        parts: &mut P,
        client: ClientId,
        incarnation: Ordinal,
        protocol: Protocol,
    ) -> Result<Taken<D>, NotGreeted<D>>
        ensures { BookStep step P.tree P.count P.rounds self.old parts.old
            (Hello client incarnation protocol) result self.new parts.new };

    /// Ends a lease of an older incarnation of the client whose hello was taken, and gives its
    /// segment with the request that was granted it. Where no such lease is left, the client is
    /// welcome.
    fn sweep(&mut self, parts: &mut P, taken: &Taken<D>) -> Result<SweepEnd<S, D>, Stopped>
        ensures step { BookStep step P.tree P.count P.rounds self.old parts.old
            (Sweep taken.now.client) (tag_swept S.tag result) self.new parts.new }
        ensures welcome { IfOk result (IsWelcomeOf taken.now) };
}
