//! Setup lines, as a setup takes and refuses them.
ghost use Rattle.std.specs.Prelude.{◌≡◌};
ghost use Rattle.vmemd_setup.specs.Settings as spec;

use crate::faults::{ConfigFault, SettingFault};
use crate::setting_up::SetupBuilder;
use arena_tree::{NewChild, NewRoot, NewSpan, Setting, Setup, SetupFault};
use lease_proto::{ChildLine, PolicyWord, RootLine, SetupLine, SpanLine};
use tag_arena::Policy;

impl From<SetupFault> for SettingFault {
    ghost use Rattle.std.specs.Prelude.{◌≡◌};
    ghost use Rattle.vmemd_setup.specs.Settings.{setting_fault};

    ghost from_gives = { λ cause fault. fault ≡ setting_fault cause };

    fn from(fault: SetupFault) -> SettingFault {
        let word = match fault {
            SetupFault::NameTaken => ConfigFault::NameTaken,
            SetupFault::TooMany => ConfigFault::TooMany,
            SetupFault::NoArena => ConfigFault::NoArena,
            SetupFault::ChainTooLong => ConfigFault::ChainTooLong,
            SetupFault::BadQuantum => ConfigFault::BadQuantum,
            SetupFault::BadCache => ConfigFault::BadCache,
            SetupFault::BadRange => ConfigFault::BadRange,
            SetupFault::NoMemory => return SettingFault::Memory,
        };
        SettingFault::Refused(word)
    }
}

impl SetupBuilder for Setup {
    ghost use Rattle.vmemd_setup.specs.Settings.{TakesSetupLine, RefusesSetupLine};
    ghost use Rattle.vmemd_setup.specs.Settings.{CanTakeSetupLine};

    ghost takes = { TakesSetupLine };

    ghost refuses = { RefusesSetupLine };

    ghost can = { CanTakeSetupLine };

    fn set_up(&mut self, line: &SetupLine) -> Result<(), SettingFault> {
        self.add(&setting_asked(line))?;
        Ok(())
    }
}

/// What a line asks for.
fn setting_asked(line: &SetupLine) -> Setting
    ensures { result ≡ spec.setting_asked line.now }
{
    match line {
        SetupLine::Root(line) => Setting::Root(root_asked(line)),
        SetupLine::Child(line) => Setting::Child(child_asked(line)),
        SetupLine::Span(line) => Setting::Span(span_asked(line)),
    }
}

/// The root that a line asks for.
fn root_asked(line: &RootLine) -> NewRoot
    ensures { result ≡ spec.root_asked line.now }
{
    NewRoot {
        name: line.name,
        base: line.base.get(),
        len: line.len.get(),
        quantum: line.quantum.get(),
        policy: policy_of(line.policy),
        qcache_max: line.qcache_max.get(),
    }
}

/// The child that a line asks for.
fn child_asked(line: &ChildLine) -> NewChild
    ensures { result ≡ spec.child_asked line.now }
{
    NewChild {
        name: line.name,
        source: line.source,
        quantum: line.quantum.get(),
        policy: policy_of(line.policy),
        qcache_max: line.qcache_max.get(),
        import_min: line.import_min.get(),
    }
}

/// The span that a line asks for.
fn span_asked(line: &SpanLine) -> NewSpan
    ensures { result ≡ spec.span_asked line.now }
{
    NewSpan {
        name: line.name,
        base: line.base.get(),
        len: line.len.get(),
    }
}

/// The policy that a setup line's word names.
fn policy_of(word: PolicyWord) -> Policy
    ensures { result ≡ spec.policy_of word }
{
    match word {
        PolicyWord::Instant => Policy::Instant,
        PolicyWord::Best => Policy::Best,
        PolicyWord::Next => Policy::Next,
    }
}
