//! Lines that come to CPUs.
ghost use Rattle.std.specs.Prelude.{◌≡◌, ◌⊎◌, Some, slice_get};
ghost use Rattle.lease_proto.specs.declared.lines.Line.{Line};
ghost use Rattle.lease_book.specs.BookState.{account_in};
ghost use Rattle.lease_book.specs.Answers.{IsNew};
ghost use Rattle.world_core.specs.IsWorld.{IsWorld};
ghost use Rattle.world_core.specs.Moves.{HelloTaken, HelloRefused, AnsweredAtOnce, TaskTaken};
ghost use Rattle.world_core.specs.Events.{EndsAs, Tries, IsIdle};

use crate::events::{Outcome, WorldEvent};
use crate::logs::Logged;
use crate::parts::WorldParts;
use crate::settlements::number_answer;
use crate::tasks::Task;
use deed_core::Deed;
use lease_book::HelloFault;
use lease_proto::{HelloLine, Line, Old, Reply, Welcome};

impl<D: Deed> WorldParts<D> {
    /// A line comes to an idle CPU.
    pub(crate) fn look(&mut self, cpu: usize, which: usize) -> Outcome
        requires world { IsWorld self.old }
        ensures { EndsAs (WorldEvent.Looks cpu which) result self.old self.new }
    {
        if which >= self.requests.len() {
            return Outcome::NotEnabled;
        }
        if !self.is_idle(cpu) {
            return Outcome::NotEnabled;
        }
        match self.requests[which] {
            Line::Hello(hello) => return self.greet(which, hello),
            Line::Request(id, op) => return self.serve(cpu, which, Task { id, op }),
        }
    }

    /// A hello is taken, and told the protocol that stands, or is told the incarnation that it is
    /// behind.
    fn greet(&mut self, which: usize, hello: HelloLine) -> Outcome
        requires sent { slice_get self.old.requests which ≡ Some (Line.Hello hello) }
        ensures { Tries (λ old new. HelloTaken which old new ⊎ HelloRefused which old new)
            result self.old self.new }
    {
        let Ok(()) = self.log.reserve(1) else {
            return Outcome::NoMemory;
        };
        let Ok(()) = self.replies.reserve(1) else {
            return Outcome::NoMemory;
        };
        let (client, incarnation) = (hello.client, hello.incarnation);
        match self.book.hello(client, incarnation, hello.protocol) {
            Ok(taken) => {
                let protocol = taken.protocol();
                self.log.push_reserved(Logged::Hello {
                    client,
                    incarnation,
                    protocol: hello.protocol,
                });
                self.replies.push_reserved(Reply::Welcome(Welcome {
                    client,
                    incarnation,
                    protocol,
                }));
                return Outcome::Done;
            }
            Err(fault) => match fault {
                HelloFault::Old(word) => {
                    let current = word.number();
                    self.replies
                        .push_reserved(Reply::Old(Old { client, current }));
                    return Outcome::Done;
                }
                HelloFault::NoMemory => return Outcome::NoMemory,
            },
        }
    }

    /// A request is answered by its number, or served by the CPU where that is new.
    fn serve(&mut self, cpu: usize, which: usize, task: Task) -> Outcome
        requires world { IsWorld self.old }
        requires idle { IsIdle self.old cpu }
        requires sent { slice_get self.old.requests which ≡ Some (Line.Request task.id task.op) }
        ensures done { Tries (λ old new. AnsweredAtOnce which old new
            ⊎ TaskTaken cpu which old new) result self.old self.new }
        ensures memory { result ≡ Outcome.NoMemory
            → ¬ IsNew (account_in task.id.client self.old.book) task.id }
    {
        match number_answer(&self.book, task.id) {
            Some(answer) => {
                let reply = self.answered(task.id, answer);
                let Ok(()) = self.replies.reserve(1) else {
                    return Outcome::NoMemory;
                };
                self.replies.push_reserved(reply);
                return Outcome::Done;
            }
            None => {
                self.tasks[cpu] = Some(task);
                return Outcome::Done;
            }
        }
    }
}
