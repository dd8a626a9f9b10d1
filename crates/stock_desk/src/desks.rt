//! The desk, as what answers the lines that a server reads.
ghost use Rattle.std.specs.Prelude.{◌≡◌, ◌++◌, ◌+◌, ◌≤◌, ℕ, List, IfOk, OnOk, OnErr, IsErr};
ghost use Rattle.std.specs.Prelude.{vec_len};
ghost use Rattle.std.specs.Vec.{vec_capacity};
ghost use Rattle.arena_tree.specs.declared.limits.TheConstants.{MOST_ROOTS};
ghost use Rattle.lease_proto.specs.Grammar.{line_of};
ghost use Rattle.lease_proto.specs.declared.limits.TheConstants.{LINE_ROOM};
ghost use Rattle.lease_proto.specs.declared.operators.ServedLine.TheVariants as served;
ghost use Rattle.lease_machine.specs.Machine.{LeaseStep, ServedStep, ClientStep};
ghost use Rattle.lease_machine.specs.Picture.{IsPicture, SameSetup};
ghost use Rattle.stock_desk.specs.Openings.{IsOpenedFrom};
ghost use Rattle.stock_desk.specs.Supplies.{picture_with};
ghost use Rattle.stock_desk.specs.Operators.{StaysPicture, KeepsPicture};

use crate::endings::{empty_all, end_leases};
use crate::openings::open_supply;
use crate::operators::tell;
use crate::supplies::Supply;
use arena_tree::{MOST_ROOTS, Setup};
use deed_core::{PlainDeed, Range};
use lease_book::Book;
use lease_proto::{LINE_ROOM, Line, OperatorLine, Reply, ServedLine, served_law};
use lease_server::Responder;
use std::alloc::{AllocError, Global};
use std::marker::Model;
use stock::close_plain_stock;

/// Arenas with their caches, CPUs, and the book of their leases.
pub struct Desk {
    supply: Supply,
    book: Book<PlainDeed>,
}

impl Model for Desk {
    ghost use Rattle.std.specs.Coded.{codes, coded_ℕ};
    ghost use Rattle.std.specs.Ordering.{nat_cmp};
    ghost use Rattle.std.specs.FinMap as finmap;
    ghost use Rattle.deed_core.specs.Holding.{Holding};
    ghost use Rattle.lease_machine.specs.Picture.{Picture, IsPicture};
    ghost use Rattle.stock_desk.specs.Supplies.{picture_with};

    ghost Value = { Picture };

    ghost coded = { Prim.hlevel
        (codes, finmap.code {X = Holding} {R = nat_cmp} coded_ℕ (Prim.hlevel codes)) };

    ghost view = { λ d. picture_with d.book d.supply };

    ghost invariant = { λ d. IsPicture (picture_with d.book d.supply) };
}

impl Desk {
    /// A desk with the arenas, caches and spans of a setup, all free, one CPU, and no client.
    /// It fails only when out of memory, and then nothing was opened.
    pub fn open(alloc: Global, setup: Setup) -> Result<Desk, AllocError>
        ensures opened { IfOk result (IsOpenedFrom setup) }
        ensures picture { IfOk result IsPicture }
        ensures mark { IfOk result (λ desk. desk.book.mark.root ≡ MOST_ROOTS) }
    {
        let supply = open_supply(alloc, setup)?;
        let mark = PlainDeed::new(MOST_ROOTS, Range::new(0, 1).unwrap());
        Ok(Desk {
            supply,
            book: Book::new(alloc, mark),
        })
    }

    /// Answers one line, which is given without its line feed: appends its reply lines. Room for a
    /// reply is made before the line is served, so that a refused answer takes no effect.
    pub fn answer(&mut self, line: &[u8], out: &mut Vec<u8>) -> Result<(), AllocError>
        ensures ok { OnOk result ((reply : List ℕ) × (out.new.items ≡ out.old.items ++ reply)
            × LeaseStep self.old line.now reply self.new) }
        ensures unwritten { OnErr result (out.new.items ≡ out.old.items) }
        ensures unchanged { OnErr result (self.new ≡ self.old) }
    {
        out.reserve(LINE_ROOM)?;
        // For its clause: what is a client's line is served as one.
        served_law();
        // For speed alone: the line is served where it was read, and isn't moved.
        let read = Line::read(line);
        match &read {
            Ok(line) => self.serve_client(line, out),
            Err(_) => self.answer_other(line, out),
        }
    }

    /// Answers a line that is no client's: an operator's, or none.
    fn answer_other(&mut self, line: &[u8], out: &mut Vec<u8>) -> Result<(), AllocError>
        requires room { vec_len out.old + LINE_ROOM ≤ vec_capacity out.old }
        requires other { IsErr (line_of line.now) }
        ensures ok { OnOk result ((reply : List ℕ) × (out.new.items ≡ out.old.items ++ reply)
            × LeaseStep self.old line.now reply self.new) }
        ensures unwritten { OnErr result (out.new.items ≡ out.old.items) }
        ensures unchanged { OnErr result (self.new ≡ self.old) }
    {
        // For its clause: a client's line would have been read as one.
        served_law();
        match ServedLine::read(line) {
            Ok(ServedLine::Operator(line)) => self.serve_operator(line, out),
            Ok(ServedLine::Client(_)) => unreachable!(),
            Err(fault) => {
                // For its clause: the type keeps a picture.
                let _ = &self.book;
                out.extend_from_slice(fault.line())
            }
        }
    }

    /// Answers an operator's line for which there is room.
    fn serve_operator(&mut self, line: OperatorLine, out: &mut Vec<u8>) -> Result<(), AllocError>
        requires room { vec_len out.old + LINE_ROOM ≤ vec_capacity out.old }
        ensures ok { OnOk result ((reply : List ℕ) × (out.new.items ≡ out.old.items ++ reply)
            × ServedStep (served.Operator line) self.old reply self.new) }
        ensures unwritten { OnErr result (out.new.items ≡ out.old.items) }
        ensures unchanged { OnErr result (self.new ≡ self.old) }
        ensures kept { KeepsPicture line self.old self.new }
    {
        tell(&mut self.supply, &self.book, line, out)
    }

    /// Answers a client's line for which there is room.
    fn serve_client(&mut self, line: &Line, out: &mut Vec<u8>) -> Result<(), AllocError>
        requires room { vec_len out.old + LINE_ROOM ≤ vec_capacity out.old }
        ensures ok { OnOk result ((reply : List ℕ) × (out.new.items ≡ out.old.items ++ reply)
            × ServedStep (served.Client line.now) self.old reply self.new) }
        ensures unwritten { OnErr result (out.new.items ≡ out.old.items) }
        ensures unchanged { OnErr result (self.new ≡ self.old) }
        ensures kept { StaysPicture self.old self.new }
    {
        // For speed alone: the book looks the client up once, and then has it at hand.
        self.book.go_to(line.client());
        reply(&mut self.supply, &mut self.book, line).write(out)
    }

    /// Ends the desk: frees all leases, empties all CPUs and caches, takes out all spans, and
    /// closes their deeds and the book's mark. It takes no memory.
    pub fn close(self) {
        let Desk { supply, mut book } = self;
        let Supply {
            alloc,
            tree,
            mut stock,
            cpus,
            selected: _,
        } = supply;
        end_leases(&mut stock, &mut book);
        match book.close() {
            Ok(mark) => {
                let _ = mark.close();
            }
            Err(_) => unreachable!(),
        }
        empty_all(alloc, &tree, &mut stock, cpus);
        close_plain_stock(stock);
    }
}

/// Replies to the line of a client. (It is inlined, so that the reply is made where it is written.)
#[inline(always)]
fn reply(supply: &mut Supply, book: &mut Book<PlainDeed>, line: &Line) -> Reply
    requires picture { IsPicture (picture_with book.old supply.old) }
    ensures picture { IsPicture (picture_with book.new supply.new) }
    ensures setup { SameSetup (picture_with book.old supply.old)
        (picture_with book.new supply.new) }
    ensures step { ClientStep line.now
        (picture_with book.old supply.old) (picture_with book.new supply.new) result }
{
    match line {
        Line::Hello(hello) => supply.greet(book, hello),
        Line::Request(id, op) => supply.answer(book, *id, op),
    }
}

impl Responder for Desk {
    ghost use Rattle.lease_machine.specs.Machine.{LeaseStep};

    ghost may_answer = { LeaseStep };

    fn answer(&mut self, line: &[u8], out: &mut Vec<u8>) -> Result<(), AllocError> {
        Desk::answer(self, line, out)
    }
}
