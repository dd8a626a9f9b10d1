//! The answers to an operator's lines.
ghost use Rattle.std.specs.Prelude.{◌≡◌, ◌⊎◌, ◌++◌, ◌+◌, ◌≤◌, ℕ, List, length};
ghost use Rattle.std.specs.Prelude.{OnOk, OnErr, vec_len};
ghost use Rattle.std.specs.Io.{StartsWith};
ghost use Rattle.std.specs.Vec.{vec_capacity};
ghost use Rattle.lease_book.specs.BookState.{BookState};
ghost use Rattle.lease_proto.specs.declared.limits.TheConstants.{LINE_ROOM};
ghost use Rattle.lease_proto.specs.declared.operators.OperatorLine.TheVariants as operator;
ghost use Rattle.lease_machine.specs.Operators.{LeavesOff, OperatorStep};
ghost use Rattle.lease_machine.specs.Picture.{IsPicture};
ghost use Rattle.stock_desk.specs.Operators.{StaysPicture, KeepsPicture, IsPerformed};
ghost use Rattle.stock_desk.specs.Supplies.{picture_with};

use crate::cpus::select;
use crate::depots::{resize, tick};
use crate::growing::grow;
use crate::reports::{audit, clients};
use crate::supplies::Supply;
use deed_core::PlainDeed;
use lease_book::Book;
use lease_proto::{
    CpuNumber, ErrorWord, GrowLine, OperatorLine, ReapedLine, ResizeLine, ok_line, outcome_line,
};
use std::alloc::AllocError;

/// Does what an operator asks for. Where its lines find no room, the answer is one that says so.
pub(crate) fn tell(
    supply: &mut Supply,
    book: &Book<PlainDeed>,
    line: OperatorLine,
    out: &mut Vec<u8>,
) -> Result<(), AllocError>
    requires picture { IsPicture (picture_with book.now supply.old) }
    requires room { vec_len out.old + LINE_ROOM ≤ vec_capacity out.old }
    ensures ok { OnOk result ((reply : List ℕ) × (out.new.items ≡ out.old.items ++ reply)
        × OperatorStep line (picture_with book.now supply.old) reply
        (picture_with book.now supply.new)) }
    ensures unwritten { OnErr result (out.new.items ≡ out.old.items) }
    ensures unchanged { OnErr result (supply.new ≡ supply.old) }
    ensures kept { KeepsPicture line (picture_with book.now supply.old)
        (picture_with book.now supply.new) }
{
    let begin = out.len();
    match tell_all(supply, book, line, out) {
        Ok(()) => Ok(()),
        Err(_) => {
            out.truncate(begin);
            out.extend_from_slice(ErrorWord::Memory.line())
        }
    }
}

/// The same, but where its lines find no room some of them may have been appended. It then changed
/// nothing, or left the room that there was.
fn tell_all(
    supply: &mut Supply,
    book: &Book<PlainDeed>,
    line: OperatorLine,
    out: &mut Vec<u8>,
) -> Result<(), AllocError>
    requires picture { IsPicture (picture_with book.now supply.old) }
    requires room { vec_len out.old + LINE_ROOM ≤ vec_capacity out.old }
    ensures ok { OnOk result ((reply : List ℕ) × (out.new.items ≡ out.old.items ++ reply)
        × IsPerformed line (picture_with book.now supply.old) reply
        (picture_with book.now supply.new)) }
    ensures begun { OnErr result (StartsWith out.new.items out.old.items) }
    ensures left { OnErr result (LeavesOff line
        (picture_with book.now supply.old) (picture_with book.now supply.new)) }
    ensures room { OnErr result ((supply.new ≡ supply.old)
        ⊎ (vec_capacity out.old ≤ vec_capacity out.new)) }
    ensures kept { KeepsPicture line (picture_with book.now supply.old)
        (picture_with book.now supply.new) }
{
    match line {
        OperatorLine::Cpu(number) => tell_cpu(supply, number, out),
        OperatorLine::Offline(number) => tell_offline(supply, number, out),
        OperatorLine::Tick => {
            tell_tick(supply, out);
            Ok(())
        }
        OperatorLine::Resize(line) => {
            tell_resize(supply, &line, out);
            Ok(())
        }
        OperatorLine::Grow(line) => {
            tell_grow(supply, &line, out);
            Ok(())
        }
        OperatorLine::Reap => tell_reap(supply, out),
        OperatorLine::Audit => audit(
            &supply.tree,
            &supply.stock,
            supply.cpus.as_slice(),
            book,
            out,
        ),
        OperatorLine::Clients => clients(book, out),
    }
}

/// Selects a CPU, which is made if it is new: only then memory is asked for. Out of it changes
/// nothing.
fn tell_cpu(supply: &mut Supply, number: CpuNumber, out: &mut Vec<u8>) -> Result<(), AllocError>
    requires room { vec_len out.old + LINE_ROOM ≤ vec_capacity out.old }
    ensures ok { OnOk result ((reply : List ℕ) × (out.new.items ≡ out.old.items ++ reply)
        × ((b : BookState) → IsPicture (picture_with b supply.old)
        → IsPerformed (operator.Cpu number)
        (picture_with b supply.old) reply (picture_with b supply.new))) }
    ensures unwritten { OnErr result (out.new.items ≡ out.old.items) }
    ensures left { OnErr result ((b : BookState) → LeavesOff (operator.Cpu number)
        (picture_with b supply.old) (picture_with b supply.new)) }
    ensures unchanged { OnErr result (supply.new ≡ supply.old) }
{
    // For its clause: which CPUs there may be.
    let _ = number.get();
    select(supply.alloc, &supply.stock, &mut supply.cpus, number)?;
    supply.selected = number;
    say(ok_line(), out);
    Ok(())
}

/// Puts all rounds of a CPU into their slabs. Out of memory changes nothing.
fn tell_offline(supply: &mut Supply, number: CpuNumber, out: &mut Vec<u8>) -> Result<(), AllocError>
    requires held { (b : BookState) × IsPicture (picture_with b supply.old) }
    requires room { vec_len out.old + LINE_ROOM ≤ vec_capacity out.old }
    ensures ok { OnOk result ((reply : List ℕ) × (out.new.items ≡ out.old.items ++ reply)
        × ((b : BookState) → IsPicture (picture_with b supply.old)
        → IsPerformed (operator.Offline number)
        (picture_with b supply.old) reply (picture_with b supply.new))) }
    ensures unwritten { OnErr result (out.new.items ≡ out.old.items) }
    ensures left { OnErr result ((b : BookState) → LeavesOff (operator.Offline number)
        (picture_with b supply.old) (picture_with b supply.new)) }
    ensures unchanged { OnErr result (supply.new ≡ supply.old) }
{
    supply.offline(number)?;
    say(ok_line(), out);
    Ok(())
}

/// Begins an interval in each depot.
fn tell_tick(supply: &mut Supply, out: &mut Vec<u8>)
    requires room { vec_len out.old + LINE_ROOM ≤ vec_capacity out.old }
    ensures { (reply : List ℕ) × (out.new.items ≡ out.old.items ++ reply)
        × ((b : BookState) → IsPicture (picture_with b supply.old) → IsPerformed operator.Tick
        (picture_with b supply.old) reply (picture_with b supply.new)) }
{
    tick(&mut supply.stock);
    say(ok_line(), out);
}

/// Has the depots of an arena keep greater magazines.
fn tell_resize(supply: &mut Supply, line: &ResizeLine, out: &mut Vec<u8>)
    requires held { (b : BookState) × IsPicture (picture_with b supply.old) }
    requires room { vec_len out.old + LINE_ROOM ≤ vec_capacity out.old }
    ensures { (reply : List ℕ) × (out.new.items ≡ out.old.items ++ reply)
        × ((b : BookState) → IsPicture (picture_with b supply.old)
        → IsPerformed (operator.Resize line.now)
        (picture_with b supply.old) reply (picture_with b supply.new)) }
{
    let outcome = resize(&mut supply.stock, &supply.tree, line);
    say(outcome_line(outcome), out);
}

/// Gives a root a further range. Out of memory changes nothing, and is told in the room that there
/// is.
fn tell_grow(supply: &mut Supply, line: &GrowLine, out: &mut Vec<u8>)
    requires held { (b : BookState) × IsPicture (picture_with b supply.old) }
    requires room { vec_len out.old + LINE_ROOM ≤ vec_capacity out.old }
    ensures { (reply : List ℕ) × (out.new.items ≡ out.old.items ++ reply)
        × ((b : BookState) → IsPicture (picture_with b supply.old)
        → IsPerformed (operator.Grow line.now)
        (picture_with b supply.old) reply (picture_with b supply.new)) }
{
    let outcome = grow(&mut supply.stock, &supply.tree, line);
    say(outcome_line(outcome), out);
}

/// Puts back what depots and slabs no longer need. What went back stays there where the line that
/// tells of it finds no room.
fn tell_reap(supply: &mut Supply, out: &mut Vec<u8>) -> Result<(), AllocError>
    requires held { (b : BookState) × IsPicture (picture_with b supply.old) }
    ensures ok { OnOk result ((reply : List ℕ) × (out.new.items ≡ out.old.items ++ reply)
        × ((b : BookState) → IsPicture (picture_with b supply.old) → IsPerformed operator.Reap
        (picture_with b supply.old) reply (picture_with b supply.new))) }
    ensures unchanged { OnErr result (out.new.items ≡ out.old.items) }
    ensures left { OnErr result ((b : BookState) → IsPicture (picture_with b supply.old)
        → LeavesOff operator.Reap (picture_with b supply.old) (picture_with b supply.new)) }
    ensures room { OnErr result (vec_capacity out.old ≤ vec_capacity out.new) }
    ensures kept { (b : BookState) → IsPicture (picture_with b supply.old)
        → StaysPicture (picture_with b supply.old) (picture_with b supply.new) }
{
    let units = supply.reap();
    // Made whole first, so that the answer keeps its room where there is none for the line.
    let mut line = Vec::new(supply.alloc);
    ReapedLine { units }.write(&mut line)?;
    out.extend_from_slice(line.as_slice())
}

/// Appends a line for which there is room.
fn say(line: &[u8], out: &mut Vec<u8>)
    requires { vec_len out.old + length line.now ≤ vec_capacity out.old }
    ensures { out.new.items ≡ out.old.items ++ line.now }
{
    match out.extend_from_slice(line) {
        Ok(()) => {}
        Err(_) => unreachable!(),
    }
}
