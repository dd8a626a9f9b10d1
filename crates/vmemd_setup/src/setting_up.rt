//! Taking the setup lines that an input begins with.
ghost use Rattle.std.specs.Prelude.{◌≡◌, ◌≤◌, ◌<◌, ◌⊎◌, ◌+◌, ◌^◌, ◌-◌, ◌∷◌, [], Err, length, min};
ghost use Rattle.std.specs.Prelude.{OnOk, OnErr, IfErr, IfOk, IsErrOf, true, false};
ghost use Rattle.lease_proto.specs.Frames.{frames_of_rest};
ghost use Rattle.lease_proto.specs.SetupLines as spec;
ghost use Rattle.lease_proto.specs.SetupLines.{setup_of};
ghost use Rattle.lease_server.specs.Watching.{inner_of, has_failed, reads_of};
ghost use Rattle.lease_proto.specs.declared.limits.TheConstants.{LONGEST_LINE};
ghost use Rattle.lease_server.specs.declared.intakes.TheConstants.{MOST_READS};
ghost use Rattle.vmemd_setup.specs.Setups.{RefusedBy, IsSpent};
ghost use Rattle.vmemd_setup.specs.Setups.{TakesLine, LineFails, TakesSetup, SetupFails};

use crate::faults::{ConfigFault, ScriptFault, SettingFault};
use lease_proto::{LONGEST_LINE, LineFault, SetupLine, fault_at_end, is_setup_word};
use lease_server::{Intake, Watched};
use memchr::memchr2;
use std::io::Read;

/// What is built of setup lines, one after another.
pub trait SetupBuilder {
    ghost use Rattle.lease_proto.specs.declared.setup_lines.SetupLine.{SetupLine};
    ghost use Rattle.vmemd_setup.specs.declared.faults.ConfigFault.{ConfigFault};

    // what takes a setup line, and what it is then
    ghost takes: { Self → SetupLine → Self → Type 0 };

    // what refuses a setup line, and why
    ghost refuses: { Self → SetupLine → ConfigFault → Type 0 };

    // what can take a setup line: nothing speaks against it, and memory is asked for only then
    ghost can: { Self → SetupLine → Type 0 };

    /// Takes a setup line, or says why not and stays as it was.
    fn set_up(&mut self, line: &SetupLine) -> Result<(), SettingFault>
        ensures taken { OnOk result (takes self.old line.now self.new) }
        ensures refused { IfErr result (RefusedBy (refuses self.old line.now)
            (can self.old line.now)) }
        ensures unchanged { OnErr result (self.new ≡ self.old) };
}

/// Reads the setup lines that an input begins with into a setup, and returns what it has read
/// behind them. If a line is refused, the setup is what the lines before it made. A setup line that
/// is too long is refused as soon as enough of it is read to show that.
pub fn take_setup<R: Read, S: SetupBuilder>(
    reader: &mut Watched<R>,
    setup: &mut S,
) -> Result<Intake, ScriptFault>
    ensures ok { IfOk result (TakesSetup S.takes setup.old (R.remaining (inner_of reader.old))
        (R.remaining (inner_of reader.new)) setup.new) }
    ensures err { IfErr result (SetupFails S.takes S.refuses S.can setup.old
        (R.remaining (inner_of reader.old)) (R.remaining (inner_of reader.new)) setup.new) }
    ensures works { OnOk result (has_failed reader.new ≡ has_failed reader.old) }
    ensures failed { IsErrOf result ScriptFault.Read
        → IsSpent (has_failed reader.new) (reads_of reader.old) (reads_of reader.new) }
    ensures blames { IfErr result (λ fault. (fault ≡ ScriptFault.Read)
        ⊎ (has_failed reader.new ≡ has_failed reader.old)) }
    ensures counted { IfOk result (λ input. (input.reads ≤ MOST_READS)
        × (reads_of reader.new ≡ min (reads_of reader.old + input.reads) (2 ^ 64 - 1))) }
    ensures bound { reads_of reader.new ≤ reads_of reader.old + MOST_READS }
{
    // For its clause: reads are at most 2^64 - 1.
    let _ = reader.reads();
    let mut input = Intake::new();
    let mut number = 1u64;
    loop {
        match input.first_line() {
            Some(line) if begins_setup(line) => {
                take_line(line, number, setup)?;
                input.pass();
                number += 1;
            }
            Some(_) => return Ok(input),
            None => {
                refuse_long(input.begun(), number)?;
                if !input.read_on(reader)? {
                    refuse_rest(input.begun(), number)?;
                    return Ok(input);
                }
            }
        }
    }
}

/// Whether a line is meant as a setup line, by its first word; or whether a line begun is so far.
fn begins_setup(line: &[u8]) -> bool
    ensures { result ≡ spec.begins_setup line.now }
{
    match memchr2(b' ', b'\n', line) {
        Some(end) => is_setup_word(&line[..end]),
        None => is_setup_word(line),
    }
}

/// Refuses a setup line begun that is too long already.
fn refuse_long(begun: &[u8], number: u64) -> Result<(), ScriptFault>
    ensures { IfErr result (λ fault. (fault ≡ ScriptFault.Setup number
        (ConfigFault.Line LineFault.TooLong)) × (LONGEST_LINE < length begun.now)
        × (spec.begins_setup begun.now ≡ true)) }
{
    if begun.len() > LONGEST_LINE && begins_setup(begun) {
        return Err(refusal(number, LineFault::TooLong));
    }
    Ok(())
}

/// Refuses a setup line that the input ends in: it has no line feed.
fn refuse_rest(rest: &[u8], number: u64) -> Result<(), ScriptFault>
    ensures ok { OnOk result (spec.begins_setup rest.now ≡ false) }
    ensures err { IfErr result (λ fault. (word : LineFault)
        × (fault ≡ ScriptFault.Setup number (ConfigFault.Line word))
        × (frames_of_rest rest.now ≡ Err word ∷ []) × (spec.begins_setup rest.now ≡ true)) }
{
    match fault_at_end(rest) {
        Some(fault) if begins_setup(rest) => Err(refusal(number, fault)),
        Some(_) | None => Ok(()),
    }
}

/// Lets a setup take the line of this number, given without its line feed.
pub(crate) fn take_line<S: SetupBuilder>(
    line: &[u8],
    number: u64,
    setup: &mut S,
) -> Result<(), ScriptFault>
    ensures ok { OnOk result (TakesLine S.takes setup.old line.now setup.new) }
    ensures err { IfErr result (LineFails S.refuses S.can setup.old number
        (setup_of line.now)) }
    ensures unchanged { OnErr result (setup.new ≡ setup.old) }
{
    let setting = match SetupLine::read(line) {
        Ok(setting) => setting,
        Err(fault) => return Err(refusal(number, fault)),
    };
    match setup.set_up(&setting) {
        Ok(()) => Ok(()),
        Err(SettingFault::Refused(word)) => Err(ScriptFault::Setup { line: number, word }),
        Err(SettingFault::Memory) => Err(ScriptFault::Memory),
    }
}

/// The refusal of bytes that are no setup line.
pub(crate) fn refusal(number: u64, fault: LineFault) -> ScriptFault
    ensures { result ≡ ScriptFault.Setup number (ConfigFault.Line fault) }
{
    ScriptFault::Setup {
        line: number,
        word: ConfigFault::Line(fault),
    }
}
