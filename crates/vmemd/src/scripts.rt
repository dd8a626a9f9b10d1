//! A script: setup lines, and then the lines that the desk of their setup answers.
ghost use Rattle.std.specs.Prelude.{◌≡◌, ◌≤◌, ◌+◌, ◌^◌, OnOk, IfErr, IfSome, false};
ghost use Rattle.lease_server.specs.Watching.{inner_of, has_failed, reads_of};
ghost use Rattle.lease_server.specs.declared.intakes.TheConstants.{MOST_READS};
ghost use Rattle.vmemd.specs.Scripts.{Blames};
ghost use Rattle.vmemd.specs.Desks.{ScriptEnds, ScriptFails};

use arena_tree::Setup;
use lease_server::{Watched, serve};
use std::alloc::Global;
use std::io::{Read, Write};
use stock_desk::Desk;
use vmemd_setup::{ScriptFault, take_setup};

/// Runs a script: setup lines and then the lines of clients and operators, from the reader to the
/// writer, by one thread. Units are numbers and have no owner elsewhere. At its end, and at any
/// fault, all leases are freed, all CPUs and caches emptied, all spans taken out and their deeds
/// closed, which takes no memory.
pub fn run_script<R: Read, W: Write>(
    alloc: Global,
    reader: &mut Watched<R>,
    writer: &mut Watched<W>,
) -> Result<(), ScriptFault>
    requires reader { has_failed reader.old ≡ false }
    requires writer { has_failed writer.old ≡ false }
    ensures ok { OnOk result (IfSome (R.remaining (inner_of reader.old))
        (λ input. ScriptEnds input (W.contents (inner_of writer.old))
        (W.contents (inner_of writer.new)))) }
    ensures err { IfErr result (ScriptFails (R.remaining (inner_of reader.old))
        (R.remaining (inner_of reader.new)) (W.contents (inner_of writer.old))
        (W.contents (inner_of writer.new))) }
    // A fault is told of what failed.
    ensures works { OnOk result ((has_failed reader.new ≡ false)
        × (has_failed writer.new ≡ false)) }
    ensures blames { IfErr result (Blames (has_failed reader.new) (reads_of reader.old)
        (reads_of reader.new) (has_failed writer.new)) }
    // The input isn't read without end.
    ensures bound { reads_of reader.new ≤ reads_of reader.old + MOST_READS }
{
    let mut setup = Setup::new(alloc);
    let mut input = take_setup(reader, &mut setup)?;
    let mut desk = Desk::open(alloc, setup)?;
    let served = serve(alloc, &mut input, reader, writer, &mut desk);
    desk.close();
    served?;
    Ok(())
}
