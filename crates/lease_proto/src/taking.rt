//! A line as its words, and the options among them.
ghost use Rattle.std.specs.Prelude.{◌≡◌};
ghost use Rattle.std.specs.Option.{option_copied};
ghost use Rattle.lease_proto.specs.Values.{words_of, short_parts, first_reason};
ghost use Rattle.lease_proto.specs.Grammar.{option_at, quantity_or};

use crate::faults::LineFault;
use crate::limits::LONGEST_LINE;
use crate::numbers::quantity;
use crate::sentences::{Words, is_sentence};
use lease_terms::Quantity;

/// The words of a line, given without its line feed: `TooLong` above `LONGEST_LINE` bytes, and
/// `BadLine` where it is anything but words with one space between them.
pub(crate) fn words(line: &[u8]) -> Result<Words<'_>, LineFault>
    ensures { result ≡ words_of line.now }
{
    let parts = parts(line)?;
    if !is_sentence(line) {
        return Err(LineFault::BadLine);
    }
    Ok(parts)
}

/// The parts of a line between its spaces, be they words or not: `TooLong` above `LONGEST_LINE`
/// bytes.
pub(crate) fn parts(line: &[u8]) -> Result<Words<'_>, LineFault>
    ensures { result ≡ short_parts line.now }
{
    if line.len() > LONGEST_LINE {
        return Err(LineFault::TooLong);
    }
    Ok(Words::new(line))
}

/// The first reason to refuse a line whose parts are refused for this one: it may be no words with
/// one space between them.
pub(crate) fn first_fault(line: &[u8], fault: LineFault) -> LineFault
    ensures { result ≡ first_reason line.now fault }
{
    if is_sentence(line) {
        fault
    } else {
        LineFault::BadLine
    }
}

/// The value of an option, where it is the next.
pub(crate) fn option<'a>(words: &mut Words<'a>, key: &[u8]) -> Option<&'a [u8]>
    ensures { option_at key.now words.old ≡ (option_copied result, words.new) }
{
    let mut ahead = words.ahead();
    if ahead.next()? != key {
        return None;
    }
    let value = ahead.next()?;
    *words = ahead;
    Some(value)
}

/// The quantity that a word writes, or the default where there is none.
pub(crate) fn quantity_or_default(
    default: Quantity,
    word: Option<&[u8]>,
) -> Result<Quantity, LineFault>
    ensures { result ≡ quantity_or default (option_copied word.entry) }
{
    match word {
        Some(word) => quantity(word),
        None => Ok(default),
    }
}
