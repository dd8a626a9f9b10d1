//! The answer to a hello.
ghost use Rattle.lease_call.specs.Greeting.{greet_plan};
ghost use Rattle.local_calls.specs.Runs.{IsLocalOf};
ghost use Rattle.lease_machine.specs.Conversations.{RunsCall, AnswersHello};
ghost use Rattle.lease_machine.specs.Machine.{HelloStep};
ghost use Rattle.lease_machine.specs.Picture.{IsPicture, SameSetup};
ghost use Rattle.stock_desk.specs.Supplies.{picture_with, local_of};

use crate::own_books::OwnBook;
use crate::replies::greeted;
use crate::supplies::Supply;
use arena_tree::Tree;
use deed_core::{PlainDeed, Segment};
use lease_book::{Book, MOST_LEASES};
use lease_call::{CallFault, Greeting, hello};
use lease_proto::{HelloLine, Reply};
use local_parts::{CpuCaches, Local};
use std::alloc::Global;
use stock::Stock;

/// What a hello's list of steps ended with.
type Greeted = Result<Greeting<PlainDeed>, CallFault<Segment<PlainDeed>>>;

impl Supply {
    /// Answers a hello.
    pub(crate) fn greet(&mut self, book: &mut Book<PlainDeed>, line: &HelloLine) -> Reply
        requires picture { IsPicture (picture_with book.old self.old) }
        ensures picture { IsPicture (picture_with book.new self.new) }
        ensures setup { SameSetup (picture_with book.old self.old)
            (picture_with book.new self.new) }
        ensures step { HelloStep line.now
            (picture_with book.old self.old) (picture_with book.new self.new) result }
    {
        match self.hear(book, line) {
            Ok(greeting) => greeted(line, greeting),
            Err(_) => unreachable!(),
        }
    }

    /// Goes through the hello's list of steps, over the selected CPU's parts and the book.
    fn hear(&mut self, book: &mut Book<PlainDeed>, line: &HelloLine) -> Greeted
        requires { IsPicture (picture_with book.old self.old) }
        ensures { AnswersHello line.now (picture_with book.old self.old)
            (picture_with book.new self.new) result }
    {
        // As many sweeps as find each lease that a client may have, and then none.
        let turns = MOST_LEASES as u64 + 1;
        let index = self.selected_index();
        let cpu = &mut self.cpus[index];
        hello_with(
            self.alloc,
            &self.tree,
            &mut self.stock,
            &mut cpu.caches,
            book,
            line,
            turns,
        )
    }
}

/// Goes through the hello's list of steps with so many sweeps, over these parts and the book.
fn hello_with(
    alloc: Global,
    tree: &Tree,
    stock: &mut Stock<PlainDeed>,
    cpu: &mut CpuCaches<PlainDeed>,
    book: &mut Book<PlainDeed>,
    line: &HelloLine,
    turns: u64,
) -> Greeted
    requires local { IsLocalOf tree.now (local_of stock.old cpu.old) }
    ensures ran { RunsCall {D = PlainDeed} tree.now (greet_plan tree.now line.now turns)
        book.old (local_of stock.old cpu.old) book.new (local_of stock.new cpu.new) result }
{
    let mut parts = Local {
        stock: &mut *stock,
        cpu: &mut *cpu,
        tree,
        alloc,
        steps: 0,
    };
    let mut own = OwnBook { book: &mut *book };
    hello(&mut parts, &mut own, tree, None, line, turns)
}
