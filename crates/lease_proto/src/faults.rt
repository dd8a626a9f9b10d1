//! Why a line is refused, and what an `error` line says.

use thiserror::Error;

/// Why a line is refused, by the protocol's word for it. They stand in the order in which they are
/// looked for, but for a `BadLine` in the words after the first, which comes between `Word` and
/// `Number`.
#[derive(Clone, Copy, Debug, PartialEq, Eq, Error)]
pub enum LineFault {
    /// More than `LONGEST_LINE` bytes before the line feed, or before the end of the input.
    #[error("toolong")]
    TooLong,
    /// No line feed, no words with one space between them, the wrong number of words, an option
    /// that is unknown, repeated or out of order, or a word that is no name where a name stands.
    #[error("badline")]
    BadLine,
    /// The first word is none that may stand here.
    #[error("word")]
    Word,
    /// A word in a number's place is no number, or is out of its range.
    #[error("number")]
    Number,
}

impl LineFault {
    ghost use Rattle.std.specs.Prelude.{◌≡◌, ◌≤◌, length};
    ghost use Rattle.lease_proto.specs.Faults.{error_line, fault_word};

    /// The protocol's word.
    pub fn word(self) -> &'static [u8]
        ensures text { result.now ≡ fault_word self }
        ensures short { length result.now ≤ 7 }
    {
        match self {
            LineFault::TooLong => b"toolong",
            LineFault::BadLine => b"badline",
            LineFault::Word => b"word",
            LineFault::Number => b"number",
        }
    }

    /// The line that answers a refused line, with its line feed.
    pub fn line(self) -> &'static [u8]
        ensures { result.now ≡ error_line self }
    {
        match self {
            LineFault::TooLong => b"error toolong\n",
            LineFault::BadLine => b"error badline\n",
            LineFault::Word => b"error word\n",
            LineFault::Number => b"error number\n",
        }
    }
}

/// What an `error` line says.
#[derive(Clone, Copy, Debug, PartialEq, Eq)]
pub enum ErrorWord {
    /// The line was none that may stand there.
    Line(LineFault),
    /// Nothing came of an operator's line: out of memory.
    Memory,
    /// No arena has the name that an operator's line has.
    NoArena,
    /// An operator's line has a size that the arena can't be given.
    Size,
    /// An operator's line has a base and a length that are no range, or none that the arena may be
    /// given.
    Range,
    /// The arena of an operator's line has as many owned spans as it may have.
    Many,
    /// The arena of an operator's line wasn't found where it was set up: a fault of the program.
    Misplaced,
    /// A server has as many connections as it serves at a time.
    Busy,
}

impl ErrorWord {
    ghost use Rattle.std.specs.Prelude.{◌≡◌, ◌≤◌, length};
    ghost use Rattle.lease_proto.specs.Faults.{error_word, error_text, error_word_in};

    /// What the word of an `error` line says. Another word makes the line a bad one.
    pub(crate) fn read(word: &[u8]) -> Result<Self, LineFault>
        ensures { result ≡ error_word_in word.now }
    {
        if word == b"toolong".as_slice() {
            Ok(ErrorWord::Line(LineFault::TooLong))
        } else if word == b"badline".as_slice() {
            Ok(ErrorWord::Line(LineFault::BadLine))
        } else if word == b"word".as_slice() {
            Ok(ErrorWord::Line(LineFault::Word))
        } else if word == b"number".as_slice() {
            Ok(ErrorWord::Line(LineFault::Number))
        } else if word == b"memory".as_slice() {
            Ok(ErrorWord::Memory)
        } else if word == b"noarena".as_slice() {
            Ok(ErrorWord::NoArena)
        } else if word == b"size".as_slice() {
            Ok(ErrorWord::Size)
        } else if word == b"range".as_slice() {
            Ok(ErrorWord::Range)
        } else if word == b"many".as_slice() {
            Ok(ErrorWord::Many)
        } else if word == b"misplaced".as_slice() {
            Ok(ErrorWord::Misplaced)
        } else if word == b"busy".as_slice() {
            Ok(ErrorWord::Busy)
        } else {
            Err(LineFault::BadLine)
        }
    }

    /// The protocol's word.
    pub fn word(self) -> &'static [u8]
        ensures text { result.now ≡ error_word self }
        ensures short { length result.now ≤ 9 }
    {
        match self {
            ErrorWord::Line(fault) => fault.word(),
            ErrorWord::Memory => b"memory",
            ErrorWord::NoArena => b"noarena",
            ErrorWord::Size => b"size",
            ErrorWord::Range => b"range",
            ErrorWord::Many => b"many",
            ErrorWord::Misplaced => b"misplaced",
            ErrorWord::Busy => b"busy",
        }
    }

    /// The whole line, with its line feed.
    pub fn line(self) -> &'static [u8]
        ensures { result.now ≡ error_text self }
    {
        match self {
            ErrorWord::Line(fault) => fault.line(),
            ErrorWord::Memory => b"error memory\n",
            ErrorWord::NoArena => b"error noarena\n",
            ErrorWord::Size => b"error size\n",
            ErrorWord::Range => b"error range\n",
            ErrorWord::Many => b"error many\n",
            ErrorWord::Misplaced => b"error misplaced\n",
            ErrorWord::Busy => b"error busy\n",
        }
    }
}
