//! The server over any reader and writer.
ghost use Rattle.std.specs.Prelude.{◌≡◌, ◌⊎◌, ◌≤◌, ◌∷◌, [], ◌+◌, ◌-◌, ◌^◌, min, true, false};
ghost use Rattle.std.specs.Prelude.{OnOk, OnErr, IfErr, IsErrOf};
ghost use Rattle.std.specs.Io.KnownBytes.{IsAtEnd};
ghost use Rattle.lease_proto.specs.Frames.{frame_of, frames_of_rest};
ghost use Rattle.lease_server.specs.Intakes.{begun_at, frames_at};
ghost use Rattle.lease_server.specs.Serving.{SameFront, Answers, AnswersBefore, HasAnswered};
ghost use Rattle.lease_server.specs.Serving.{Writes, WritesBefore, Stops, ServesAll, ServeFails};
ghost use Rattle.lease_server.specs.Watching.{inner_of, has_failed, reads_of, streams_of};
ghost use Rattle.lease_server.specs.declared.intakes.TheConstants.{MOST_READS};

use crate::faults::ServeFault;
use crate::intakes::Intake;
use crate::output::deliver;
use crate::responders::Responder;
use crate::watching::Watched;
use lease_proto::{LONGEST_LINE, LineFault, fault_at_end};
use std::alloc::{AllocError, Global};
use std::io::{Read, Write};

/// Serves the lines of a stream to its end: those at hand, and those that the reader gives. A line
/// that is too long, and a last one without its line feed, is answered by its error line, and the
/// responder never sees it. The answers to the lines of one read are written together and flushed
/// before the next read, so that none waits while the input pauses. There are never more
/// than `MOST_READS` of one intake.
pub fn serve<R: Read, W: Write, P: Responder>(
    alloc: Global,
    input: &mut Intake,
    reader: &mut Watched<R>,
    writer: &mut Watched<W>,
    responder: &mut P,
) -> Result<(), ServeFault>
    requires works { (has_failed reader.old ≡ false) × (has_failed writer.old ≡ false) }
    requires ended { input.old.ended ≡ true → IsAtEnd (R.remaining (inner_of reader.old)) }
    ensures ok { OnOk result (ServesAll P.may_answer input.old.hand
        (streams_of R.remaining W.contents reader.old writer.old)
        (streams_of R.remaining W.contents reader.new writer.new) responder.old responder.new) }
    ensures err { IfErr result (ServeFails P.may_answer input.old
        (streams_of R.remaining W.contents reader.old writer.old)
        (streams_of R.remaining W.contents reader.new writer.new) responder.old responder.new) }
    ensures answered { HasAnswered P.may_answer responder.old responder.new }
    ensures bound { (input.old.reads ≤ input.new.reads) × (input.new.reads ≤ MOST_READS) }
    ensures counted { reads_of reader.new
        ≡ min (reads_of reader.old + (input.new.reads - input.old.reads)) (2 ^ 64 - 1) }
{
    // For its clause: reads are at most 2^64 - 1.
    let _ = reader.reads();
    let mut out = Vec::new(alloc);
    loop {
        serve_held(input, &mut out, writer, responder)?;
        if !input.read_on(reader)? {
            return serve_rest(input, writer, responder);
        }
    }
}

/// Serves the whole lines at hand: their answers are written together. Out of memory, those of
/// the lines before it are.
#[tactic(auto, using(crate::proofs::ServingLemmas::has_answered))]
fn serve_held<W: Write, P: Responder>(
    input: &mut Intake,
    out: &mut Vec<u8>,
    writer: &mut Watched<W>,
    responder: &mut P,
) -> Result<(), ServeFault>
    requires { out.old.items ≡ [] }
    ensures served { OnOk result (Writes P.may_answer responder.old (frames_at input.old.hand)
        (W.contents (inner_of writer.old)) (W.contents (inner_of writer.new)) responder.new) }
    ensures begun { OnOk result ((input.new.hand.whole ≡ false)
        × SameFront input.new.hand.line (begun_at input.old.hand) × (out.new.items ≡ [])) }
    ensures kept { (input.new.reads ≡ input.old.reads) × (input.new.ended ≡ input.old.ended)
        × (input.new.reads ≤ MOST_READS) }
    ensures err { OnErr result (Stops P.may_answer responder.old (frames_at input.old.hand)
        (W.contents (inner_of writer.old)) (W.contents (inner_of writer.new))) }
    ensures memory { IsErrOf result ServeFault.Memory
        → WritesBefore P.may_answer responder.old (frames_at input.old.hand)
        (W.contents (inner_of writer.old)) (W.contents (inner_of writer.new)) responder.new
        × (has_failed writer.new ≡ has_failed writer.old) }
    ensures answered { HasAnswered P.may_answer responder.old responder.new }
    ensures fault { OnErr result (IsErrOf result ServeFault.Write
        ⊎ IsErrOf result ServeFault.Memory) }
    ensures works { OnOk result (has_failed writer.new ≡ has_failed writer.old) }
    ensures failed { IsErrOf result ServeFault.Write → has_failed writer.new ≡ true }
{
    let answered = answer_held(input, out, responder);
    deliver(writer, out.as_slice())?;
    out.clear();
    match answered {
        Ok(()) => Ok(()),
        Err(_) => Err(ServeFault::Memory),
    }
}

/// Appends the answers to the whole lines at hand.
fn answer_held<P: Responder>(
    input: &mut Intake,
    out: &mut Vec<u8>,
    responder: &mut P,
) -> Result<(), AllocError>
    ensures ok { OnOk result (Answers P.may_answer responder.old (frames_at input.old.hand)
        out.old.items out.new.items responder.new) }
    ensures begun { OnOk result ((input.new.hand.whole ≡ false)
        × SameFront input.new.hand.line (begun_at input.old.hand)) }
    ensures kept { (input.new.reads ≡ input.old.reads) × (input.new.ended ≡ input.old.ended)
        × (input.new.reads ≤ MOST_READS) }
    ensures err { OnErr result (AnswersBefore P.may_answer responder.old (frames_at input.old.hand)
        out.old.items out.new.items responder.new) }
{
    while let Some(line) = input.first_line() {
        answer_line(line, out, responder)?;
        input.pass();
    }
    Ok(())
}

/// Appends the answer to a whole line, given by its first `LINE_ROOM` bytes.
fn answer_line<P: Responder>(
    line: &[u8],
    out: &mut Vec<u8>,
    responder: &mut P,
) -> Result<(), AllocError>
    ensures ok { OnOk result (Answers P.may_answer responder.old (frame_of line.now ∷ [])
        out.old.items out.new.items responder.new) }
    ensures unwritten { OnErr result (out.new.items ≡ out.old.items) }
    ensures unchanged { OnErr result (responder.new ≡ responder.old) }
{
    if line.len() <= LONGEST_LINE {
        responder.answer(line, out)
    } else {
        out.extend_from_slice(LineFault::TooLong.line())
    }
}

/// Writes the answer to a rest that no line feed ends.
fn serve_rest<W: Write, P: Responder>(
    input: &Intake,
    writer: &mut Watched<W>,
    responder: &mut P,
) -> Result<(), ServeFault>
    requires { input.now.hand.whole ≡ false }
    ensures ok { OnOk result (Writes P.may_answer responder.old (frames_of_rest input.now.hand.line)
        (W.contents (inner_of writer.old)) (W.contents (inner_of writer.new)) responder.new) }
    ensures unasked { responder.new ≡ responder.old }
    ensures err { OnErr result (Stops P.may_answer responder.old
        (frames_of_rest input.now.hand.line)
        (W.contents (inner_of writer.old)) (W.contents (inner_of writer.new))) }
    ensures fault { OnErr result (IsErrOf result ServeFault.Write) }
    ensures works { OnOk result (has_failed writer.new ≡ has_failed writer.old) }
    ensures failed { OnErr result (has_failed writer.new ≡ true) }
{
    match fault_at_end(input.begun()) {
        None => Ok(()),
        Some(fault) => deliver(writer, fault.line()),
    }
}
