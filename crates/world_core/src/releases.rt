//! What CPUs release.
ghost use Rattle.std.specs.Prelude.{◌⊎◌, IfSome, IfNone};
ghost use Rattle.lease_book.specs.BookState.{account_in};
ghost use Rattle.lease_book.specs.Answers.{IsNew};
ghost use Rattle.world_core.specs.IsWorld.{IsWorld};
ghost use Rattle.world_core.specs.Moves.{TaskReleased, TaskRefused, HasNoSuchLease};
ghost use Rattle.world_core.specs.Events.{EndsAs, Tries, CanRelease, IsReady};

use crate::events::{Outcome, WorldEvent};
use crate::hands::put;
use crate::logs::Logged;
use crate::names::index_of;
use crate::parts::WorldParts;
use crate::settlements::number_answer;
use crate::tasks::Task;
use deed_core::Deed;
use lease_book::Answer;
use lease_proto::{Op, RefusedRequest, ReleaseLine, Reply};
use lease_terms::{Refusal, RequestId};

/// What a CPU may release.
#[derive(Clone, Copy)]
pub(crate) struct Release {
    id: RequestId,
    line: ReleaseLine,
    arena: u32,
}

impl<D: Deed> WorldParts<D> {
    /// What the CPU may release, where its hand is empty and the arena has a name here.
    fn releasable(&self, cpu: usize) -> Option<Release>
        requires world { IsWorld self.now }
        ensures some { IfSome result (λ r. CanRelease self.now cpu r.id r.line r.arena) }
        ensures none { IfNone result (¬ IsReady (WorldEvent.Releases cpu) self.now) }
    {
        if !self.has_empty_hand(cpu) {
            return None;
        }
        let (id, line) = self.release_task(cpu)?;
        let index = index_of(&self.names, &line.arena)?;
        Some(Release {
            id,
            line,
            arena: index as u32,
        })
    }

    /// A CPU takes the lease into its hand that the release names that it serves.
    pub(crate) fn release(&mut self, cpu: usize) -> Outcome
        requires world { IsWorld self.old }
        ensures { EndsAs (WorldEvent.Releases cpu) result self.old self.new }
    {
        let Some(release) = self.releasable(cpu) else {
            return Outcome::NotEnabled;
        };
        match number_answer(&self.book, release.id) {
            Some(answer) => {
                let reply = self.answered(release.id, answer);
                let (id, op) = (release.id, Op::Release(release.line));
                return self.end(cpu, Task { id, op }, reply);
            }
            None => return self.give_back(cpu, &release),
        }
    }

    /// A new request gives its lease back, or is refused where it names none.
    fn give_back(&mut self, cpu: usize, release: &Release) -> Outcome
        requires world { IsWorld self.old }
        requires can { CanRelease self.old cpu
            release.now.id release.now.line release.now.arena }
        requires fresh { IsNew (account_in release.now.id.client self.old.book) release.now.id }
        ensures { Tries (λ old new. TaskReleased cpu old new
            ⊎ (TaskRefused cpu Refusal.NotYours old new × HasNoSuchLease old cpu))
            result self.old self.new }
    {
        let Ok(()) = self.log.reserve(1) else {
            return Outcome::NoMemory;
        };
        let Ok(()) = self.replies.reserve(1) else {
            return Outcome::NoMemory;
        };
        let (id, arena, base) = (release.id, release.arena, release.line.base);
        match self.book.release(id, arena, base) {
            Ok(released) => {
                let (_receipt, segment) = released;
                put(&mut self.hands, cpu, segment);
                self.tasks[cpu] = None;
                self.log.push_reserved(Logged::Released { id, arena, base });
                self.replies.push_reserved(Reply::Released(id));
                return Outcome::Done;
            }
            Err(answer) => match answer {
                Answer::Refused(_) => {
                    let refusal = Refusal::NotYours;
                    self.tasks[cpu] = None;
                    self.log.push_reserved(Logged::Refused { id, refusal });
                    self.replies
                        .push_reserved(Reply::Refused(RefusedRequest { id, refusal }));
                    return Outcome::Done;
                }
                _ => unreachable!(),
            },
        }
    }
}
