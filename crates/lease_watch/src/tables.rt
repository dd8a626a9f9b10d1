//! The tables of the page.
ghost use Rattle.std.specs.Prelude.{◌≡◌, ◌++◌, OnOk};
ghost use Rattle.std.specs.List.{flat_map};
ghost use Rattle.lease_watch.specs.Families.{name_of};
ghost use Rattle.lease_watch.specs.Markup.{markup_of};
ghost use Rattle.lease_watch.specs.Pages as spec;
ghost use Rattle.lease_watch.specs.Samples.{word_key, home_key};

use crate::families::{Family, Home};
use crate::markup::Markup;
use crate::metrics::plain_values;
use crate::samples::{push_home_key, push_number, push_word_key};
use crate::seen::Seen;
use crate::words::{Word, WordCounts, count_of};
use lease_terms::ArenaName;
use std::alloc::AllocError;

/// A fixed text.
pub(crate) fn put(out: &mut Vec<u8>, markup: Markup) -> Result<(), AllocError>
    ensures { OnOk result (out.new.items ≡ out.old.items ++ markup_of markup) }
{
    out.extend_from_slice(markup.text())
}

/// The value of a family of one sample.
#[tactic(auto, unfolding(crate::specs::Pages::cell))]
fn push_plain_cell(out: &mut Vec<u8>, family: Family, value: u64) -> Result<(), AllocError>
    ensures { OnOk result (out.new.items ≡ out.old.items ++ spec.cell (name_of family) value) }
{
    put(out, Markup::CellStart)?;
    out.extend_from_slice(family.name())?;
    put(out, Markup::CellValue)?;
    push_number(out, u128::from(value))?;
    put(out, Markup::CellEnd)
}

/// The value of a sample that has a word.
#[tactic(auto, unfolding(crate::specs::Pages::cell))]
fn push_word_cell(
    out: &mut Vec<u8>,
    family: Family,
    word: Word,
    value: u64,
) -> Result<(), AllocError>
    ensures { OnOk result (out.new.items ≡ out.old.items ++ spec.cell (word_key family word) value) }
{
    put(out, Markup::CellStart)?;
    push_word_key(out, family, word)?;
    put(out, Markup::CellValue)?;
    push_number(out, u128::from(value))?;
    put(out, Markup::CellEnd)
}

/// How many units of an arena have this home.
#[tactic(auto, unfolding(crate::specs::Pages::cell))]
pub(crate) fn push_home_cell(
    out: &mut Vec<u8>,
    arena: &ArenaName,
    home: Home,
    units: u128,
) -> Result<(), AllocError>
    ensures { OnOk result (out.new.items ≡ out.old.items ++ spec.cell (home_key arena.now home) units) }
{
    put(out, Markup::CellStart)?;
    push_home_key(out, arena, home)?;
    put(out, Markup::CellValue)?;
    push_number(out, units)?;
    put(out, Markup::CellEnd)
}

/// A row: what is counted, and its value.
#[tactic(auto, unfolding(crate::specs::Pages::plain_row, crate::specs::Pages::row))]
fn push_plain_row(out: &mut Vec<u8>, family: Family, value: u64) -> Result<(), AllocError>
    ensures { OnOk result (out.new.items ≡ out.old.items ++ spec.plain_row family value) }
{
    put(out, Markup::RowStart)?;
    out.extend_from_slice(family.help())?;
    put(out, Markup::RowValue)?;
    push_plain_cell(out, family, value)?;
    put(out, Markup::RowEnd)
}

/// A row: a word, and its value.
#[tactic(auto, unfolding(crate::specs::Pages::word_row, crate::specs::Pages::row))]
fn push_word_row(
    out: &mut Vec<u8>,
    family: Family,
    word: Word,
    value: u64,
) -> Result<(), AllocError>
    ensures { OnOk result (out.new.items ≡ out.old.items ++ spec.word_row family word value) }
{
    put(out, Markup::RowStart)?;
    out.extend_from_slice(word.text())?;
    put(out, Markup::RowValue)?;
    push_word_cell(out, family, word, value)?;
    put(out, Markup::RowEnd)
}

/// The begin of a table.
#[tactic(auto, unfolding(crate::specs::Pages::caption))]
fn push_caption(out: &mut Vec<u8>, title: &[u8]) -> Result<(), AllocError>
    ensures { OnOk result (out.new.items ≡ out.old.items ++ spec.caption title.now) }
{
    put(out, Markup::TableStart)?;
    out.extend_from_slice(title)?;
    put(out, Markup::CaptionEnd)
}

/// A table of a family whose samples have a word each.
#[tactic(auto, unfolding(crate::specs::Pages::words_table))]
fn push_words_table(
    out: &mut Vec<u8>,
    family: Family,
    counts: &WordCounts,
) -> Result<(), AllocError>
    ensures { OnOk result (out.new.items ≡ out.old.items ++ spec.words_table family counts.now) }
{
    push_caption(out, family.help())?;
    push_word_rows(out, family, family.words(), counts)?;
    put(out, Markup::TableEnd)
}

/// A row for each of these words.
fn push_word_rows(
    out: &mut Vec<u8>,
    family: Family,
    words: &[Word],
    counts: &WordCounts,
) -> Result<(), AllocError>
    ensures { OnOk result (out.new.items
        ≡ out.old.items ++ flat_map (spec.counted_row family counts.now) words.now) }
{
    for word in words {
        push_word_row(out, family, *word, count_of(counts, *word))?;
    }
    Ok(())
}

/// The rows of families of one sample.
fn push_value_rows(out: &mut Vec<u8>, values: &[(Family, u64)]) -> Result<(), AllocError>
    ensures { OnOk result (out.new.items ≡ out.old.items ++ flat_map spec.value_row values.now) }
{
    for value in values {
        push_plain_row(out, value.0, value.1)?;
    }
    Ok(())
}

/// The table of what the server is at.
#[tactic(auto, unfolding(crate::specs::Pages::state_table))]
fn push_state(out: &mut Vec<u8>, seen: &Seen) -> Result<(), AllocError>
    ensures { OnOk result (out.new.items ≡ out.old.items ++ spec.state_table seen.now) }
{
    push_caption(out, Markup::StateTitle.text())?;
    push_value_rows(out, &plain_values(seen))?;
    put(out, Markup::TableEnd)
}

/// All tables.
#[tactic(auto, unfolding(crate::specs::Pages::tables))]
pub(crate) fn push_tables(out: &mut Vec<u8>, seen: &Seen) -> Result<(), AllocError>
    ensures { OnOk result (out.new.items ≡ out.old.items ++ spec.tables seen.now) }
{
    push_state(out, seen)?;
    push_words_table(out, Family::Lines, &seen.counts)?;
    push_words_table(out, Family::Replies, &seen.counts)?;
    push_words_table(out, Family::Refusals, &seen.counts)
}
