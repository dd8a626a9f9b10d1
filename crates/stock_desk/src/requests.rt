//! The answer to a request.
ghost use Rattle.lease_call.specs.Requesting.{op_plan};
ghost use Rattle.local_calls.specs.Runs.{IsLocalOf};
ghost use Rattle.lease_machine.specs.Conversations.{RunsCall, AnswersRequest};
ghost use Rattle.lease_machine.specs.Machine.{RequestStep};
ghost use Rattle.lease_machine.specs.Picture.{IsPicture, SameSetup};
ghost use Rattle.stock_desk.specs.Supplies.{picture_with, local_of};

use crate::own_books::OwnBook;
use crate::replies::told;
use crate::supplies::Supply;
use arena_tree::Tree;
use deed_core::{PlainDeed, Segment};
use lease_book::Book;
use lease_call::{CallFault, Outcome, request};
use lease_proto::{Op, Reply};
use lease_terms::RequestId;
use local_parts::{CpuCaches, Local};
use std::alloc::Global;
use stock::Stock;

/// What a request's list of steps ended with.
type Ended = Result<Outcome<PlainDeed>, CallFault<Segment<PlainDeed>>>;

impl Supply {
    /// Answers a request.
    pub(crate) fn answer(&mut self, book: &mut Book<PlainDeed>, id: RequestId, op: &Op) -> Reply
        requires picture { IsPicture (picture_with book.old self.old) }
        ensures picture { IsPicture (picture_with book.new self.new) }
        ensures setup { SameSetup (picture_with book.old self.old)
            (picture_with book.new self.new) }
        ensures step { RequestStep id op.now
            (picture_with book.old self.old) (picture_with book.new self.new) result }
    {
        match self.ask(book, id, op) {
            Ok(outcome) => told(&self.tree, id, &outcome),
            Err(_) => unreachable!(),
        }
    }

    /// Goes through the request's list of steps, over the selected CPU's parts and the book.
    fn ask(&mut self, book: &mut Book<PlainDeed>, id: RequestId, op: &Op) -> Ended
        requires { IsPicture (picture_with book.old self.old) }
        ensures { AnswersRequest id op.now (picture_with book.old self.old)
            (picture_with book.new self.new) result }
    {
        let index = self.selected_index();
        let cpu = &mut self.cpus[index];
        request_with(
            self.alloc,
            &self.tree,
            &mut self.stock,
            &mut cpu.caches,
            book,
            id,
            op,
        )
    }
}

/// Goes through the request's list of steps, over these parts and the book.
fn request_with(
    alloc: Global,
    tree: &Tree,
    stock: &mut Stock<PlainDeed>,
    cpu: &mut CpuCaches<PlainDeed>,
    book: &mut Book<PlainDeed>,
    id: RequestId,
    op: &Op,
) -> Ended
    requires local { IsLocalOf tree.now (local_of stock.old cpu.old) }
    ensures ran { RunsCall tree.now (op_plan tree.now id op.now)
        book.old (local_of stock.old cpu.old) book.new (local_of stock.new cpu.new) result }
{
    let mut parts = Local {
        stock: &mut *stock,
        cpu: &mut *cpu,
        tree,
        alloc,
        steps: 0,
    };
    let mut own = OwnBook { book: &mut *book };
    request(&mut parts, &mut own, tree, None, id, op)
}
