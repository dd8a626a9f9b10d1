//! How the program ends: what it says then, and its exit status.
ghost use Rattle.std.specs.Prelude.{◌≡◌, false};
ghost use Rattle.std.specs.Process.{exit_status};
ghost use Rattle.lease_server.specs.Watching.{inner_of, has_failed};
ghost use Rattle.vmemd_setup.specs.Commands.{EndsWords};
ghost use Rattle.vmemd_setup.specs.Endings.{exit_of, run_status, status_of};

use crate::commands::WordsFault;
use crate::faults::{RunFault, ScriptFault};
use lease_server::{Watched, deliver};
use std::fmt::Display;
use std::io::Write;
use std::process::ExitCode;

/// The exit status of each fault of a server.
const RUN_FAULT: u8 = 1;

/// The exit status where the words are a mistake.
const USAGE: u8 = 2;

/// Ends a script. A fault is told on standard error.
pub fn end_script<R: Eprint>(rt: &R, ran: Result<(), ScriptFault>) -> ExitCode
    ensures { exit_status result ≡ status_of ran }
{
    match ran {
        Ok(()) => ExitCode::SUCCESS,
        Err(fault) => fail(rt, fault),
    }
}

/// Ends a program whose words are for no part of it: what was asked for is written, and what is
/// wrong is told on standard error.
pub fn end_words<R: Eprint, W: Write>(
    rt: &R,
    writer: &mut Watched<W>,
    fault: &WordsFault,
) -> ExitCode
    requires { has_failed writer.old ≡ false }
    ensures { EndsWords fault.now (W.contents (inner_of writer.old))
        (W.contents (inner_of writer.new)) (has_failed writer.new) (exit_status result) }
{
    match fault {
        WordsFault::Asked(text) => match deliver(writer, text.as_bytes()) {
            Ok(()) => ExitCode::SUCCESS,
            Err(_) => fail(rt, ScriptFault::Write),
        },
        WordsFault::Mistaken(text) => {
            let _ = eprint!(rt; "{text}");
            ExitCode::from(USAGE)
        }
        WordsFault::NotText => {
            tell_fault(rt, "an argument isn't text");
            ExitCode::from(USAGE)
        }
        WordsFault::Memory => fail(rt, ScriptFault::Memory),
    }
}

/// Ends a server. A fault is told on standard error, but for `Shut`, which was told when it was
/// found.
pub fn end_run<R: Eprint>(rt: &R, ran: Result<(), RunFault>) -> ExitCode
    ensures { exit_status result ≡ run_status ran }
{
    match ran {
        Ok(()) => ExitCode::SUCCESS,
        Err(RunFault::Shut) => ExitCode::from(RUN_FAULT),
        Err(fault) => {
            tell_fault(rt, fault);
            ExitCode::from(RUN_FAULT)
        }
    }
}

/// Tells a fault, and gives its status.
fn fail<R: Eprint>(rt: &R, fault: ScriptFault) -> ExitCode
    ensures { exit_status result ≡ exit_of fault }
{
    tell_fault(rt, fault);
    ExitCode::from(fault.exit())
}

/// Writes a fault to standard error, as the line `vmemd: FAULT`. If it can't be written there, only
/// the exit status reports the fault.
pub fn tell_fault<R: Eprint, F: Display + Drop>(rt: &R, fault: F) {
    let _ = eprintln!(rt; "vmemd: {fault}");
}
