//! What a server reads and writes beside its connections.
ghost use Rattle.std.specs.Prelude.{◌≡◌, [], Err, OnOk, IfErr, true, false};
ghost use Rattle.std.specs.Io.KnownBytes.{IsAtEnd};
ghost use Rattle.lease_server.specs.Watching.{has_failed, inner_of, streams_of};
ghost use Rattle.vmemd.specs.Running.{AnswersBehind, Attends, BothWork, console_streams};

use crate::operators::RunningRoots;
use crate::running::{Console, Site};
use deed_table::Name;
use lease_server::{Intake, ServeFault, Watched, deliver, tell};
use std::io::{Read, Write};
use std::sync::Wait;
use vmemd_setup::RunFault;

/// How a server's threads ended.
#[derive(Drop)]
pub(crate) struct Attended<I, W> {
    pub(crate) ended: Result<(), RunFault>,
    pub(crate) console: Console<I, W>,
}

impl<I, W> Attended<I, W> {
    /// Out of memory before anything was told.
    pub(crate) fn unserved(console: Console<I, W>) -> Attended<I, W>
        ensures ended { result.ended ≡ Err RunFault.Memory }
        ensures console { result.console ≡ console }
    {
        Attended {
            ended: Err(RunFault::Memory),
            console,
        }
    }
}

/// Tells the address, and answers the lines of the input until it ends.
pub(crate) fn attend<N: Name, R: Wait, I: Read, W: Write>(
    rt: &R,
    site: &Site<'_, N>,
    console: Console<I, W>,
) -> Attended<I, W>
    requires works { BothWork (console_streams I.remaining W.contents console) }
    ensures attends { Attends site.now.system.now.arenas
        (console_streams I.remaining W.contents console)
        (console_streams I.remaining W.contents result.console) result.ended }
    ensures told { AnswersBehind site.now.system.now.arenas site.now.listener.now
        (console_streams I.remaining W.contents console)
        (console_streams I.remaining W.contents result.console) result.ended }
{
    let Console { mut input, mut out } = console;
    let mut roots = RunningRoots::new(rt, site.system);
    let ended = match deliver(&mut out, site.listener.line()) {
        Ok(()) => answer_input(rt, &mut input, &mut out, &mut roots),
        Err(_) => Err(RunFault::Write),
    };
    Attended {
        ended,
        console: Console { input, out },
    }
}

/// Answers the lines of the input until it ends. Where an answer can't be written, no further line
/// is answered, and the rest of the input is passed over.
fn answer_input<N: Name, R: Wait, I: Read, W: Write>(
    rt: &R,
    input: &mut Watched<I>,
    out: &mut Watched<W>,
    roots: &mut RunningRoots<'_, N, R>,
) -> Result<(), RunFault>
    requires works { (has_failed input.old ≡ false) × (has_failed out.old ≡ false) }
    ensures { AnswersBehind roots.old [] (streams_of I.remaining W.contents input.old out.old)
        (streams_of I.remaining W.contents input.new out.new) result }
{
    match tell(&mut Intake::new(), input, out, roots) {
        Ok(()) => Ok(()),
        Err(ServeFault::Write) => {
            let _ = pass_over(rt, input);
            Err(RunFault::Write)
        }
        Err(ServeFault::Read | ServeFault::Turns) => Err(RunFault::Read),
        Err(ServeFault::Memory) => unreachable!(),
    }
}

/// Reads the input to its end.
fn pass_over<R: Wait, I: Read>(rt: &R, input: &mut Watched<I>) -> Result<(), ServeFault>
    ensures end { OnOk result (IsAtEnd (I.remaining (inner_of input.new))) }
    ensures failed { IfErr result (λ fault. has_failed input.new ≡ true) }
{
    let mut buffer = [0u8; 4096];
    for _ in rt.forever() {
        if input.read(&mut buffer)? == 0 {
            return Ok(());
        }
    }
    unreachable!()
}
