//! CONFIG: a file of setup lines alone, which a server is set up by.
ghost use Rattle.std.specs.Prelude.{◌≡◌, ◌≤◌, ◌+◌, ◌⊎◌, ◌∷◌, [], Err, OnOk, IfOk, IfErr, IsErrOf};
ghost use Rattle.lease_proto.specs.Frames.{frames_of_rest};
ghost use Rattle.lease_server.specs.Watching.{inner_of, has_failed, reads_of};
ghost use Rattle.lease_server.specs.declared.intakes.TheConstants.{MOST_READS};
ghost use Rattle.vmemd_setup.specs.Setups.{IsSpent};
ghost use Rattle.vmemd_setup.specs.Configs.{MakesAll, ConfigFails, ConfigMakes, ConfigRefuses};

use crate::faults::{ConfigFault, ScriptFault};
use crate::setting_up::{SetupBuilder, refusal, take_line};
use arena_tree::Setup;
use lease_proto::{LineFault, fault_at_end};
use lease_server::{Intake, Watched};
use std::alloc::Global;
use std::io::Read;

/// The setup that the lines of CONFIG make. Each of them is a setup line, ended by a line feed; no
/// line at all is a setup of no arena.
pub fn read_config<R: Read>(alloc: Global, reader: &mut Watched<R>) -> Result<Setup, ScriptFault>
    ensures ok { IfOk result (ConfigMakes (R.remaining (inner_of reader.old))) }
    ensures err { IfErr result (ConfigRefuses (R.remaining (inner_of reader.old))
        (R.remaining (inner_of reader.new))) }
    ensures failed { IsErrOf result ScriptFault.Read
        → IsSpent (has_failed reader.new) (reads_of reader.old) (reads_of reader.new) }
    ensures blames { IfErr result (λ fault. (fault ≡ ScriptFault.Read)
        ⊎ (has_failed reader.new ≡ has_failed reader.old)) }
    ensures works { OnOk result (has_failed reader.new ≡ has_failed reader.old) }
    ensures bound { reads_of reader.new ≤ reads_of reader.old + MOST_READS }
{
    let mut setup = Setup::new(alloc);
    take_all(reader, &mut setup)?;
    Ok(setup)
}

/// Takes all lines of an input. At a refused line the setup is what the lines before it made.
fn take_all<R: Read, S: SetupBuilder>(
    reader: &mut Watched<R>,
    setup: &mut S,
) -> Result<(), ScriptFault>
    ensures ok { OnOk result (MakesAll S.takes setup.old (R.remaining (inner_of reader.old))
        setup.new) }
    ensures err { IfErr result (ConfigFails S.takes S.refuses S.can setup.old
        (R.remaining (inner_of reader.old)) (R.remaining (inner_of reader.new)) setup.new) }
    ensures failed { IsErrOf result ScriptFault.Read
        → IsSpent (has_failed reader.new) (reads_of reader.old) (reads_of reader.new) }
    ensures blames { IfErr result (λ fault. (fault ≡ ScriptFault.Read)
        ⊎ (has_failed reader.new ≡ has_failed reader.old)) }
    ensures works { OnOk result (has_failed reader.new ≡ has_failed reader.old) }
    ensures bound { reads_of reader.new ≤ reads_of reader.old + MOST_READS }
{
    // For its clause: reads are at most 2^64 - 1.
    let _ = reader.reads();
    let mut input = Intake::new();
    let mut number = 1u64;
    loop {
        match input.first_line() {
            Some(line) => {
                take_line(line, number, setup)?;
                input.pass();
                number += 1;
            }
            None => {
                if !input.read_on(reader)? {
                    return refuse_unended(input.begun(), number);
                }
            }
        }
    }
}

/// Refuses a line that the input ends in: it has no line feed.
fn refuse_unended(rest: &[u8], number: u64) -> Result<(), ScriptFault>
    ensures ok { OnOk result (rest.now ≡ []) }
    ensures err { IfErr result (λ fault. (word : LineFault)
        × (fault ≡ ScriptFault.Setup number (ConfigFault.Line word))
        × (frames_of_rest rest.now ≡ Err word ∷ [])) }
{
    match fault_at_end(rest) {
        Some(fault) => Err(refusal(number, fault)),
        None => Ok(()),
    }
}
