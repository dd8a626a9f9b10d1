//! Samples in the text format of Prometheus.
ghost use Rattle.std.specs.Prelude.{◌≡◌, ◌++◌, decimal, OnOk};
ghost use Rattle.lease_watch.specs.Samples as spec;

use crate::families::{Family, Home};
use crate::words::Word;
use lease_terms::ArenaName;
use std::alloc::AllocError;

/// A number.
pub(crate) fn push_number(out: &mut Vec<u8>, number: u128) -> Result<(), AllocError>
    ensures { OnOk result (out.new.items ≡ out.old.items ++ decimal number) }
{
    let alloc = *out.allocator();
    let text = format!(in alloc; "{number}")?;
    out.extend_from_slice(text.as_bytes())
}

/// The line of help of a family.
#[tactic(auto, unfolding(crate::specs::Samples::help_line))]
fn push_help(out: &mut Vec<u8>, family: Family) -> Result<(), AllocError>
    ensures { OnOk result (out.new.items ≡ out.old.items ++ spec.help_line family) }
{
    out.extend_from_slice(b"# HELP ")?;
    out.extend_from_slice(family.name())?;
    out.extend_from_slice(b" ")?;
    out.extend_from_slice(family.help())?;
    out.extend_from_slice(b"\n")
}

/// The line of its kind.
#[tactic(auto, unfolding(crate::specs::Samples::kind_line))]
fn push_kind(out: &mut Vec<u8>, family: Family) -> Result<(), AllocError>
    ensures { OnOk result (out.new.items ≡ out.old.items ++ spec.kind_line family) }
{
    out.extend_from_slice(b"# TYPE ")?;
    out.extend_from_slice(family.name())?;
    out.extend_from_slice(b" ")?;
    out.extend_from_slice(family.kind())?;
    out.extend_from_slice(b"\n")
}

/// What a family is: its help and its kind.
#[tactic(auto, unfolding(crate::specs::Samples::head))]
pub(crate) fn push_head(out: &mut Vec<u8>, family: Family) -> Result<(), AllocError>
    ensures { OnOk result (out.new.items ≡ out.old.items ++ spec.head family) }
{
    push_help(out, family)?;
    push_kind(out, family)
}

/// The end of a sample: its value.
#[tactic(auto, unfolding(crate::specs::Samples::value_text))]
fn push_value(out: &mut Vec<u8>, value: u128) -> Result<(), AllocError>
    ensures { OnOk result (out.new.items ≡ out.old.items ++ spec.value_text value) }
{
    out.extend_from_slice(b" ")?;
    push_number(out, value)?;
    out.extend_from_slice(b"\n")
}

/// A family of one sample with no label.
#[tactic(auto, unfolding(crate::specs::Samples::plain))]
pub(crate) fn push_plain(out: &mut Vec<u8>, family: Family, value: u64) -> Result<(), AllocError>
    ensures { OnOk result (out.new.items ≡ out.old.items ++ spec.plain family value) }
{
    push_head(out, family)?;
    out.extend_from_slice(family.name())?;
    push_value(out, u128::from(value))
}

/// A label.
#[tactic(auto, unfolding(crate::specs::Samples::label))]
pub(crate) fn push_label(out: &mut Vec<u8>, key: &[u8], value: &[u8]) -> Result<(), AllocError>
    ensures { OnOk result (out.new.items ≡ out.old.items ++ spec.label key.now value.now) }
{
    out.extend_from_slice(key)?;
    out.extend_from_slice(b"=\"")?;
    out.extend_from_slice(value)?;
    out.extend_from_slice(b"\"")
}

/// A label with a number.
#[tactic(auto, unfolding(crate::specs::Samples::label))]
pub(crate) fn push_number_label(
    out: &mut Vec<u8>,
    key: &[u8],
    number: u64,
) -> Result<(), AllocError>
    ensures { OnOk result (out.new.items ≡ out.old.items ++ spec.label key.now (decimal number)) }
{
    out.extend_from_slice(key)?;
    out.extend_from_slice(b"=\"")?;
    push_number(out, u128::from(number))?;
    out.extend_from_slice(b"\"")
}

/// The beginning of a sample that has labels.
#[tactic(auto, unfolding(crate::specs::Samples::opening))]
pub(crate) fn push_opening(out: &mut Vec<u8>, family: Family) -> Result<(), AllocError>
    ensures { OnOk result (out.new.items ≡ out.old.items ++ spec.opening family) }
{
    out.extend_from_slice(family.name())?;
    out.extend_from_slice(b"{")
}

/// The end of a sample that has labels.
#[tactic(auto, unfolding(crate::specs::Samples::closing))]
pub(crate) fn push_closing(out: &mut Vec<u8>, value: u128) -> Result<(), AllocError>
    ensures { OnOk result (out.new.items ≡ out.old.items ++ spec.closing value) }
{
    out.extend_from_slice(b"}")?;
    push_value(out, value)
}

/// What names a sample of a family whose samples have a word each.
#[tactic(auto, unfolding(crate::specs::Samples::word_key))]
pub(crate) fn push_word_key(out: &mut Vec<u8>, family: Family, word: Word) -> Result<(), AllocError>
    ensures { OnOk result (out.new.items ≡ out.old.items ++ spec.word_key family word) }
{
    push_opening(out, family)?;
    push_label(out, b"word", word.text())?;
    out.extend_from_slice(b"}")
}

/// Such a sample.
#[tactic(auto, unfolding(crate::specs::Samples::word_sample))]
pub(crate) fn push_word(
    out: &mut Vec<u8>,
    family: Family,
    word: Word,
    value: u64,
) -> Result<(), AllocError>
    ensures { OnOk result
        (out.new.items ≡ out.old.items ++ spec.word_sample family word value) }
{
    push_word_key(out, family, word)?;
    push_value(out, u128::from(value))
}

/// The labels of a home of an arena's units.
#[tactic(auto, unfolding(crate::specs::Samples::place_text))]
fn push_place(out: &mut Vec<u8>, arena: &ArenaName, home: Home) -> Result<(), AllocError>
    ensures { OnOk result (out.new.items ≡ out.old.items ++ spec.place_text arena.now home) }
{
    push_label(out, b"arena", arena.as_slice())?;
    out.extend_from_slice(b",")?;
    push_label(out, b"home", home.text())
}

/// What names the sample of the units of an arena that have this home.
#[tactic(auto, unfolding(crate::specs::Samples::home_key))]
pub(crate) fn push_home_key(
    out: &mut Vec<u8>,
    arena: &ArenaName,
    home: Home,
) -> Result<(), AllocError>
    ensures { OnOk result (out.new.items ≡ out.old.items ++ spec.home_key arena.now home) }
{
    push_opening(out, Family::Units)?;
    push_place(out, arena, home)?;
    out.extend_from_slice(b"}")
}

/// Such a sample.
#[tactic(auto, unfolding(crate::specs::Samples::home_sample))]
pub(crate) fn push_home(
    out: &mut Vec<u8>,
    arena: &ArenaName,
    home: Home,
    units: u128,
) -> Result<(), AllocError>
    ensures { OnOk result
        (out.new.items ≡ out.old.items ++ spec.home_sample arena.now home units) }
{
    push_home_key(out, arena, home)?;
    push_value(out, units)
}
