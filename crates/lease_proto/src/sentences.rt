//! Words, and lines as words with one space between them.
ghost use Rattle.std.specs.Prelude.{◌≡◌, ◌==◌, ℕ, List, [], ◌∷◌, Ok, Err, MatchOption, MatchResult};
ghost use Rattle.std.specs.Prelude.{position};
ghost use Rattle.lease_proto.specs.Grammar.{word_at, end_at};
ghost use Rattle.lease_proto.specs.Values.{name_in};
ghost use Rattle.lease_proto.specs.Words.{words_left, parts_of};
ghost use Rattle.lease_proto.specs.Words as spec;

use crate::faults::LineFault;
use lease_terms::{ArenaName, is_word_byte};
use std::marker::Model;

/// The name that a word is, or `BadLine` where it is none.
pub(crate) fn name(word: &[u8]) -> Result<ArenaName, LineFault>
    ensures { result ≡ name_in word.now }
{
    match ArenaName::new(word) {
        Some(name) => Ok(name),
        None => Err(LineFault::BadLine),
    }
}

/// The words of a line that are left to read. A contract sees them as a list. Each is cut when it
/// is taken: what is left of the line isn't cut yet.
#[derive(Drop)]
pub(crate) struct Words<'a> {
    /// The bytes from the next word on; `None` once the last is taken.
    rest: Option<&'a [u8]>,
}

impl<'a> Model for Words<'a> {
    ghost Value = { List (List ℕ) };

    ghost view = { λ w. words_left w.rest };
}

impl<'a> Words<'a> {
    /// The parts of a line between its spaces.
    pub(crate) fn new(line: &'a [u8]) -> Self
        ensures { result ≡ parts_of line.now }
    {
        Words { rest: Some(line) }
    }

    /// The same words again, to look ahead or to hand on.
    pub(crate) fn ahead(&self) -> Words<'a>
        ensures { result ≡ self.now }
    {
        Words { rest: self.rest }
    }

    /// The next word.
    pub(crate) fn next(&mut self) -> Option<&'a [u8]>
        ensures { MatchOption result
            ((self.old ≡ []) × (self.new ≡ []))
            (λ word. self.old ≡ word.now ∷ self.new) }
    {
        let rest = self.rest?;
        match first_space(rest) {
            Some(i) => {
                self.rest = Some(&rest[i + 1..]);
                Some(&rest[..i])
            }
            None => {
                self.rest = None;
                Some(rest)
            }
        }
    }

    /// The next word, where the line has to have one: `BadLine` where it has none left.
    pub(crate) fn take(&mut self) -> Result<&'a [u8], LineFault>
        ensures { MatchResult result
            (λ word. word_at self.old ≡ Ok (word.now, self.new))
            (λ fault. (word_at self.old ≡ Err fault) × (self.new ≡ self.old)) }
    {
        self.next().ok_or(LineFault::BadLine)
    }

    /// Whether the line ends here, where it has to: `BadLine` where a word is left.
    pub(crate) fn end(&self) -> Result<(), LineFault>
        ensures { result ≡ end_at self.now }
    {
        match self.rest {
            Some(_) => Err(LineFault::BadLine),
            None => Ok(()),
        }
    }
}

/// Where the first space stands. Words are short, so that a byte after the other is looked at.
fn first_space(line: &[u8]) -> Option<usize>
    ensures { result ≡ position (λ byte. byte == 32) line.now }
{
    line.iter().position(|byte| *byte == b' ')
}

/// Whether a line is words with one space between them. It looks at its bytes alone: the words are
/// found when they are cut.
pub(crate) fn is_sentence(line: &[u8]) -> bool
    ensures { result ≡ spec.is_sentence line.now }
{
    let mut inside = false;
    for byte in line {
        if is_word_byte(*byte) {
            inside = true;
        } else if inside && *byte == b' ' {
            inside = false;
        } else {
            return false;
        }
    }
    inside
}
