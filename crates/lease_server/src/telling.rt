//! The server over any reader and writer, by texts that are always there.
ghost use Rattle.std.specs.Prelude.{◌≡◌, ◌≤◌, ◌∷◌, [], ◌+◌, ◌-◌, ◌^◌, min, true, false};
ghost use Rattle.std.specs.Prelude.{OnOk, OnErr, IfErr, IsErrOf};
ghost use Rattle.std.specs.Io.KnownBytes.{IsAtEnd};
ghost use Rattle.lease_proto.specs.Frames.{frame_of, frames_of_rest};
ghost use Rattle.lease_proto.specs.Serving.{ServesLines};
ghost use Rattle.lease_server.specs.Intakes.{begun_at, frames_at};
ghost use Rattle.lease_server.specs.Serving.{SameFront, Writes, Stops, TellsAll, TellFails};
ghost use Rattle.lease_server.specs.Watching.{inner_of, has_failed, reads_of, streams_of};
ghost use Rattle.lease_server.specs.declared.intakes.TheConstants.{MOST_READS};

use crate::faults::ServeFault;
use crate::intakes::Intake;
use crate::output::deliver;
use crate::responders::Teller;
use crate::watching::Watched;
use lease_proto::{LONGEST_LINE, LineFault, fault_at_end};
use std::io::{Read, Write};

/// Serves the lines of a stream to its end, as `serve` does, but each answer is written and flushed
/// before the next line is looked at. It takes no memory, so that it never ends by `Memory`.
pub fn tell<R: Read, W: Write, T: Teller>(
    input: &mut Intake,
    reader: &mut Watched<R>,
    writer: &mut Watched<W>,
    teller: &mut T,
) -> Result<(), ServeFault>
    requires works { (has_failed reader.old ≡ false) × (has_failed writer.old ≡ false) }
    requires ended { input.old.ended ≡ true → IsAtEnd (R.remaining (inner_of reader.old)) }
    ensures ok { OnOk result (TellsAll T.may_answer input.old.hand
        (streams_of R.remaining W.contents reader.old writer.old)
        (streams_of R.remaining W.contents reader.new writer.new) teller.old teller.new) }
    ensures err { IfErr result (TellFails T.may_answer input.old
        (streams_of R.remaining W.contents reader.old writer.old)
        (streams_of R.remaining W.contents reader.new writer.new) teller.old teller.new) }
    ensures bound { (input.old.reads ≤ input.new.reads) × (input.new.reads ≤ MOST_READS) }
    ensures counted { reads_of reader.new
        ≡ min (reads_of reader.old + (input.new.reads - input.old.reads)) (2 ^ 64 - 1) }
{
    // For its clause: reads are at most 2^64 - 1.
    let _ = reader.reads();
    loop {
        tell_held(input, writer, teller)?;
        if !input.read_on(reader)? {
            return tell_rest(input, writer, teller);
        }
    }
}

/// Answers the whole lines at hand.
fn tell_held<W: Write, T: Teller>(
    input: &mut Intake,
    writer: &mut Watched<W>,
    teller: &mut T,
) -> Result<(), ServeFault>
    ensures served { OnOk result (Writes T.may_answer teller.old (frames_at input.old.hand)
        (W.contents (inner_of writer.old)) (W.contents (inner_of writer.new)) teller.new) }
    ensures begun { OnOk result ((input.new.hand.whole ≡ false)
        × SameFront input.new.hand.line (begun_at input.old.hand)) }
    ensures kept { (input.new.reads ≡ input.old.reads) × (input.new.ended ≡ input.old.ended)
        × (input.new.reads ≤ MOST_READS) }
    ensures err { OnErr result (Stops T.may_answer teller.old (frames_at input.old.hand)
        (W.contents (inner_of writer.old)) (W.contents (inner_of writer.new))) }
    ensures fault { OnErr result (IsErrOf result ServeFault.Write) }
    ensures works { OnOk result (has_failed writer.new ≡ has_failed writer.old) }
    ensures failed { OnErr result (has_failed writer.new ≡ true) }
{
    while let Some(line) = input.first_line() {
        tell_line(line, writer, teller)?;
        input.pass();
    }
    Ok(())
}

/// Answers a whole line, given by its first `LINE_ROOM` bytes.
fn tell_line<W: Write, T: Teller>(
    line: &[u8],
    writer: &mut Watched<W>,
    teller: &mut T,
) -> Result<(), ServeFault>
    ensures ok { OnOk result (Writes T.may_answer teller.old (frame_of line.now ∷ [])
        (W.contents (inner_of writer.old)) (W.contents (inner_of writer.new)) teller.new) }
    ensures err { OnErr result (Stops T.may_answer teller.old (frame_of line.now ∷ [])
        (W.contents (inner_of writer.old)) (W.contents (inner_of writer.new))) }
    ensures fault { OnErr result (IsErrOf result ServeFault.Write) }
    ensures works { OnOk result (has_failed writer.new ≡ has_failed writer.old) }
    ensures failed { OnErr result (has_failed writer.new ≡ true) }
{
    deliver(writer, text_for(line, teller))
}

/// The answer to a whole line, given by its first `LINE_ROOM` bytes.
fn text_for<T: Teller>(line: &[u8], teller: &mut T) -> &'static [u8]
    ensures { ServesLines T.may_answer teller.old (frame_of line.now ∷ []) result.now teller.new }
{
    if line.len() <= LONGEST_LINE {
        teller.tell(line)
    } else {
        LineFault::TooLong.line()
    }
}

/// Answers a rest that no line feed ends.
fn tell_rest<W: Write, T: Teller>(
    input: &Intake,
    writer: &mut Watched<W>,
    teller: &T,
) -> Result<(), ServeFault>
    requires { input.now.hand.whole ≡ false }
    ensures ok { OnOk result (Writes T.may_answer teller.now (frames_of_rest input.now.hand.line)
        (W.contents (inner_of writer.old)) (W.contents (inner_of writer.new)) teller.now) }
    ensures err { OnErr result (Stops T.may_answer teller.now
        (frames_of_rest input.now.hand.line)
        (W.contents (inner_of writer.old)) (W.contents (inner_of writer.new))) }
    ensures fault { OnErr result (IsErrOf result ServeFault.Write) }
    ensures works { OnOk result (has_failed writer.new ≡ has_failed writer.old) }
    ensures failed { OnErr result (has_failed writer.new ≡ true) }
{
    match fault_at_end(input.begun()) {
        None => Ok(()),
        Some(fault) => deliver(writer, fault.line()),
    }
}
