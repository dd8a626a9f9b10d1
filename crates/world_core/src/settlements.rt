//! What CPUs do with the book.
ghost use Rattle.std.specs.Prelude.{◌⊎◌, ◌↔◌, ◌<◌, IfSome, IfNone, IsTrue};
ghost use Rattle.std.specs.Prelude.{Some, None};
ghost use Rattle.lease_terms.specs.Requests.{RequestId};
ghost use Rattle.lease_book.specs.BookState.{account_in};
ghost use Rattle.lease_book.specs.Answers.{IsAnswer, IsNew};
ghost use Rattle.lease_proto.specs.declared.lines.Op.{Op};
ghost use Rattle.lease_history.specs.Told.{IsKnownReply};
ghost use Rattle.world_core.specs.IsWorld.{IsWorld};
ghost use Rattle.world_core.specs.Moves.{HasTask, TaskAnswered, TaskGivenUp};
ghost use Rattle.world_core.specs.Moves.{TaskRefused, TaskGranted, HasAllLeases};
ghost use Rattle.world_core.specs.Events.{EndsAs, Tries, CanGrant, MayDecline, HasOldLease};
ghost use Rattle.world_core.specs.Events.{IsReady};
ghost use Rattle.world_core.specs.WorldState.{arena_name};

use crate::events::{Outcome, WorldEvent};
use crate::hands::{put, take};
use crate::logs::{Label, Logged};
use crate::names::reply_to;
use crate::parts::WorldParts;
use crate::tasks::Task;
use deed_core::Deed;
use lease_book::{Answer, Book, NotLeased, Terms};
use lease_proto::{LeaseLine, Old, Op, OutOfTurn, RefusedRequest, Reply};
use lease_terms::{ClientId, Refusal, RequestId};

/// The answer by a request's number, where it isn't new.
pub(crate) fn number_answer<D: Deed>(book: &Book<D>, id: RequestId) -> Option<Answer<D>>
    ensures new { IfNone result (IsNew (account_in id.client book.now) id) }
    ensures answer { IfSome result (IsAnswer book.now book.now id (λ _. ⊥) ⊥) }
{
    book.look(id).answer()
}

/// Whether a CPU may decline a request for this. The others are the book's to find.
fn may_decline(refusal: Refusal) -> bool
    ensures { IsTrue result ↔ MayDecline refusal }
{
    match refusal {
        Refusal::NoFit => true,
        Refusal::BadRequest => true,
        Refusal::NoArena => true,
        Refusal::NotYours => false,
        Refusal::Leases => false,
    }
}

/// What a CPU may lease.
#[derive(Clone, Copy)]
pub(crate) struct Grant {
    id: RequestId,
    lease: LeaseLine,
    segment: Label,
    quantum: u64,
}

impl<D: Deed> WorldParts<D> {
    /// What the CPU may lease: its hand's segment, where that is of the arena that the lease names
    /// and fits it.
    fn grantable(&self, cpu: usize) -> Option<Grant>
        requires world { IsWorld self.now }
        ensures some { IfSome result
            (λ g. CanGrant self.now cpu g.id g.lease g.segment g.quantum) }
        ensures none { IfNone result (¬ IsReady (WorldEvent.Settles cpu) self.now) }
    {
        let (id, lease) = self.lease_task(cpu)?;
        let segment = self.in_hand(cpu)?;
        let arena = segment.arena() as usize;
        if arena >= self.names.len() {
            return None;
        }
        if self.names[arena].as_slice() != lease.arena.as_slice() {
            return None;
        }
        let quantum = self.quantum(arena);
        if !lease.demand().fits(quantum, &segment.range()) {
            return None;
        }
        Some(Grant {
            id,
            lease,
            segment: Label::of(segment),
            quantum,
        })
    }

    /// The reply to a request whose number isn't new.
    pub(crate) fn answered(&self, id: RequestId, answer: Answer<D>) -> Reply
        requires world { IsWorld self.now }
        requires answer { IsAnswer self.now.book self.now.book id (λ _. ⊥) ⊥ answer }
        ensures { IsKnownReply (arena_name self.now.names) self.now.book id result }
    {
        match answer {
            Answer::Kept(receipt) => reply_to(&self.names, id, receipt.reply()),
            Answer::Old(current) => Reply::Old(Old {
                client: id.client,
                current: current.number(),
            }),
            Answer::Stale(greatest) => {
                let last = greatest.number();
                Reply::Stale(OutOfTurn { id, last })
            }
            Answer::Gap(low) => {
                let last = low.number();
                Reply::Gap(OutOfTurn { id, last })
            }
            Answer::Refused(_) => unreachable!(),
            Answer::Again => unreachable!(),
        }
    }

    /// The request that the CPU serves ends unsettled, with this reply.
    pub(crate) fn end(&mut self, cpu: usize, task: Task, reply: Reply) -> Outcome
        requires task { HasTask self.old cpu task.id task.op }
        requires answered { IsKnownReply (arena_name self.old.names) self.old.book task.id reply }
        ensures { Tries (TaskAnswered cpu) result self.old self.new }
    {
        let Ok(()) = self.replies.reserve(1) else {
            return Outcome::NoMemory;
        };
        self.tasks[cpu] = None;
        self.replies.push_reserved(reply);
        Outcome::Done
    }

    /// A CPU refuses the request that it serves.
    pub(crate) fn decline(&mut self, cpu: usize, refusal: Refusal) -> Outcome
        requires world { IsWorld self.old }
        ensures { EndsAs (WorldEvent.Declines cpu refusal) result self.old self.new }
    {
        if !may_decline(refusal) {
            return Outcome::NotEnabled;
        }
        let Some(task) = self.task(cpu) else {
            return Outcome::NotEnabled;
        };
        match number_answer(&self.book, task.id) {
            Some(answer) => {
                let reply = self.answered(task.id, answer);
                return self.end(cpu, task, reply);
            }
            None => return self.refuse(cpu, task, refusal),
        }
    }

    /// A new request is settled by a refusal.
    fn refuse(&mut self, cpu: usize, task: Task, refusal: Refusal) -> Outcome
        requires task { HasTask self.old cpu task.id task.op }
        requires fresh { IsNew (account_in task.id.client self.old.book) task.id }
        ensures { Tries (TaskRefused cpu refusal) result self.old self.new }
    {
        let Ok(()) = self.log.reserve(1) else {
            return Outcome::NoMemory;
        };
        let Ok(()) = self.replies.reserve(1) else {
            return Outcome::NoMemory;
        };
        let id = task.id;
        match self.book.refuse(id, refusal) {
            Answer::Refused(_) => {
                self.tasks[cpu] = None;
                self.log.push_reserved(Logged::Refused { id, refusal });
                self.replies
                    .push_reserved(Reply::Refused(RefusedRequest { id, refusal }));
                return Outcome::Done;
            }
            _ => unreachable!(),
        }
    }

    /// A CPU gives the request that it serves up: out of memory.
    pub(crate) fn give_up(&mut self, cpu: usize) -> Outcome
        ensures { EndsAs (WorldEvent.GivesUp cpu) result self.old self.new }
    {
        let Some(task) = self.task(cpu) else {
            return Outcome::NotEnabled;
        };
        self.abandon(cpu, task)
    }

    /// The request that the CPU serves ends unsettled: it is told to come again.
    fn abandon(&mut self, cpu: usize, task: Task) -> Outcome
        requires task { HasTask self.old cpu task.id task.op }
        ensures { Tries (TaskGivenUp cpu) result self.old self.new }
    {
        let Ok(()) = self.replies.reserve(1) else {
            return Outcome::NoMemory;
        };
        let again = Reply::again(task.id);
        self.tasks[cpu] = None;
        self.replies.push_reserved(again);
        Outcome::Done
    }

    /// A CPU leases its hand's segment to the request that it serves.
    pub(crate) fn settle(&mut self, cpu: usize) -> Outcome
        requires world { IsWorld self.old }
        ensures { EndsAs (WorldEvent.Settles cpu) result self.old self.new }
    {
        let Some(grant) = self.grantable(cpu) else {
            return Outcome::NotEnabled;
        };
        match number_answer(&self.book, grant.id) {
            Some(answer) => {
                let reply = self.answered(grant.id, answer);
                let (id, op) = (grant.id, Op::Lease(grant.lease));
                return self.end(cpu, Task { id, op }, reply);
            }
            None => return self.grant(cpu, &grant),
        }
    }

    /// A new request is granted the segment, or refused where its client has as many leases as one
    /// may.
    fn grant(&mut self, cpu: usize, grant: &Grant) -> Outcome
        requires can { CanGrant self.old cpu
            grant.now.id grant.now.lease grant.now.segment grant.now.quantum }
        requires fresh { IsNew (account_in grant.now.id.client self.old.book) grant.now.id }
        ensures { Tries (λ old new. TaskGranted cpu old new
            ⊎ (TaskRefused cpu Refusal.Leases old new × HasAllLeases old cpu))
            result self.old self.new }
    {
        let Ok(()) = self.log.reserve(1) else {
            return Outcome::NoMemory;
        };
        let Ok(()) = self.replies.reserve(1) else {
            return Outcome::NoMemory;
        };
        let id = grant.id;
        let request = grant.lease.demand();
        let segment = take(&mut self.hands, cpu);
        let arena = segment.arena();
        match self
            .book
            .settle(id, arena, grant.quantum, &request, segment)
        {
            Ok(receipt) => {
                self.tasks[cpu] = None;
                self.log.push_reserved(Logged::Granted {
                    id,
                    segment: grant.segment,
                    terms: Terms {
                        quantum: grant.quantum,
                        request,
                    },
                });
                self.replies
                    .push_reserved(reply_to(&self.names, id, receipt.reply()));
                return Outcome::Done;
            }
            Err(not_leased) => {
                let NotLeased { segment, answer } = not_leased;
                put(&mut self.hands, cpu, segment);
                match answer {
                    Answer::Refused(_) => {
                        self.tasks[cpu] = None;
                        self.log.push_reserved(Logged::Refused {
                            id,
                            refusal: Refusal::Leases,
                        });
                        self.replies.push_reserved(Reply::Refused(RefusedRequest {
                            id,
                            refusal: Refusal::Leases,
                        }));
                        return Outcome::Done;
                    }
                    Answer::Again => return Outcome::NoMemory,
                    _ => unreachable!(),
                }
            }
        }
    }

    /// A CPU with an empty hand takes a lease of an incarnation that has passed.
    pub(crate) fn sweep(&mut self, cpu: usize, client: ClientId) -> Outcome
        ensures { EndsAs (WorldEvent.Sweeps cpu client) result self.old self.new }
    {
        if !self.has_empty_hand(cpu) || !self.has_old_lease(client) {
            return Outcome::NotEnabled;
        }
        let Ok(()) = self.log.reserve(1) else {
            return Outcome::NoMemory;
        };
        match self.book.sweep(client) {
            Some(swept) => {
                let (id, segment) = swept;
                let (arena, base) = (segment.arena(), segment.range().base());
                self.log.push_reserved(Logged::Swept {
                    client: id.client,
                    incarnation: id.incarnation,
                    arena,
                    base,
                });
                put(&mut self.hands, cpu, segment);
                return Outcome::Done;
            }
            None => unreachable!(),
        }
    }

    /// Whether a lease of an incarnation of the client that has passed stands.
    fn has_old_lease(&self, client: ClientId) -> bool
        ensures { IsTrue result ↔ HasOldLease self.now client }
    {
        self.book.can_sweep(client)
    }
}
