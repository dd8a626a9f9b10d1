//! The lines of an operator, and what may be served after a setup.
ghost use Rattle.std.specs.Prelude.{◌≡◌};
ghost use Rattle.lease_proto.specs.Operators.{cpu_line_in, resize_in, grow_in, size_in};
ghost use Rattle.lease_proto.specs.Operators.{operator_in, served_in, served_of, rounds_named};
ghost use Rattle.lease_proto.specs.Operators.{grow_line_in, grow_of};
ghost use Rattle.lease_proto.specs.Operators.{ClientsAreServed, OperatorsAreServed};
ghost use Rattle.lease_proto.specs.Operators as spec;

use crate::cpus::{CpuNumber, cpu};
use crate::faults::LineFault;
use crate::lines::Line;
use crate::numbers::quantity;
use crate::sentences::{Words, name};
use crate::taking::{first_fault, parts, words};
use lease_terms::{ArenaName, Quantity};

/// How many rounds a magazine takes, by the word of a line.
#[derive(Clone, Copy, Debug, PartialEq, Eq)]
pub enum MagazineSize {
    Three,
    Seven,
    Fifteen,
    ThirtyOne,
}

impl MagazineSize {
    /// That many.
    pub fn rounds(self) -> usize
        ensures { result ≡ rounds_named self }
    {
        match self {
            MagazineSize::Three => 3,
            MagazineSize::Seven => 7,
            MagazineSize::Fifteen => 15,
            MagazineSize::ThirtyOne => 31,
        }
    }

    /// The size that a word names. Another word is no number that may stand there.
    fn read(word: &[u8]) -> Result<Self, LineFault>
        ensures { result ≡ size_in word.now }
    {
        if word == b"3".as_slice() {
            Ok(MagazineSize::Three)
        } else if word == b"7".as_slice() {
            Ok(MagazineSize::Seven)
        } else if word == b"15".as_slice() {
            Ok(MagazineSize::Fifteen)
        } else if word == b"31".as_slice() {
            Ok(MagazineSize::ThirtyOne)
        } else {
            Err(LineFault::Number)
        }
    }
}

/// `resize NAME M`: the depots of an arena keep magazines of a greater size from here on.
#[derive(Clone, Copy, Debug, PartialEq, Eq)]
pub struct ResizeLine {
    pub arena: ArenaName,
    pub size: MagazineSize,
}

impl ResizeLine {
    /// The line of the words after `resize`.
    #[tactic(auto, unfolding(crate::specs::Operators::resize_in))]
    fn read(words: &mut Words<'_>) -> Result<OperatorLine, LineFault>
        ensures { result ≡ resize_in words.old }
    {
        let arena = name(words.take()?)?;
        let size = words.take()?;
        words.end()?;
        Ok(OperatorLine::Resize(ResizeLine {
            arena,
            size: MagazineSize::read(size)?,
        }))
    }
}

/// `grow NAME BASE LEN`: a further owned span of a root, in units, while it is in use. Whether the
/// two are a range that the root may have is not said by the line.
#[derive(Clone, Copy, Debug, PartialEq, Eq)]
pub struct GrowLine {
    pub arena: ArenaName,
    pub base: Quantity,
    pub len: Quantity,
}

impl GrowLine {
    /// The line that these bytes are, or the first reason why they are none, where no other line is
    /// taken: each other first word is `Word`. They are given without the line feed. It takes no
    /// memory.
    #[tactic(auto, unfolding(crate::specs::Operators::grow_of))]
    pub fn read(bytes: &[u8]) -> Result<GrowLine, LineFault>
        ensures { result ≡ grow_of bytes.now }
    {
        GrowLine::of_line(words(bytes)?)
    }

    /// The line of these words.
    #[tactic(auto, unfolding(crate::specs::Operators::grow_line_in))]
    fn of_line(mut words: Words<'_>) -> Result<GrowLine, LineFault>
        ensures { result ≡ grow_line_in words.entry }
    {
        let Some(first) = words.next() else {
            return Err(LineFault::Word);
        };
        if first == b"grow".as_slice() {
            GrowLine::of_words(&mut words)
        } else {
            Err(LineFault::Word)
        }
    }

    /// The line of the words after the first.
    #[tactic(auto, unfolding(crate::specs::Operators::grow_in))]
    fn of_words(words: &mut Words<'_>) -> Result<GrowLine, LineFault>
        ensures { result ≡ grow_in words.old }
    {
        let arena = name(words.take()?)?;
        let base = words.take()?;
        let len = words.take()?;
        words.end()?;
        Ok(GrowLine {
            arena,
            base: quantity(base)?,
            len: quantity(len)?,
        })
    }
}

/// A line of an operator.
#[derive(Clone, Copy, Debug, PartialEq, Eq)]
pub enum OperatorLine {
    /// `cpu N`: selects a CPU, which is made if it is new.
    Cpu(CpuNumber),
    /// `offline N`: all rounds of a CPU go to their slabs.
    Offline(CpuNumber),
    /// `tick`: an interval begins in each depot.
    Tick,
    Resize(ResizeLine),
    Grow(GrowLine),
    /// `reap`: what depots and slabs no longer need goes back.
    Reap,
    /// `audit`: the units of each arena, by where they are.
    Audit,
    /// `clients`: the clients, with their incarnations, greatest settled numbers and leases.
    Clients,
}

impl OperatorLine {
    /// The line of this first word and the words after it.
    #[tactic(auto, unfolding(crate::specs::Operators::operator_in))]
    fn of_words(first: &[u8], words: &mut Words<'_>) -> Result<OperatorLine, LineFault>
        ensures { result ≡ operator_in first.now words.old }
    {
        if first == b"cpu".as_slice() {
            Ok(OperatorLine::Cpu(cpu_word(words)?))
        } else if first == b"offline".as_slice() {
            Ok(OperatorLine::Offline(cpu_word(words)?))
        } else if first == b"resize".as_slice() {
            ResizeLine::read(words)
        } else if first == b"grow".as_slice() {
            Ok(OperatorLine::Grow(GrowLine::of_words(words)?))
        } else {
            OperatorLine::of_word(first, words)
        }
    }

    /// The line that is this word alone.
    fn of_word(first: &[u8], words: &mut Words<'_>) -> Result<OperatorLine, LineFault>
        ensures { result ≡ spec.alone_in first.now words.old }
    {
        if first == b"tick".as_slice() {
            words.end()?;
            Ok(OperatorLine::Tick)
        } else if first == b"reap".as_slice() {
            words.end()?;
            Ok(OperatorLine::Reap)
        } else if first == b"audit".as_slice() {
            words.end()?;
            Ok(OperatorLine::Audit)
        } else if first == b"clients".as_slice() {
            words.end()?;
            Ok(OperatorLine::Clients)
        } else {
            Err(LineFault::Word)
        }
    }
}

/// The CPU that the words say, which are one.
#[tactic(auto, unfolding(crate::specs::Operators::cpu_line_in))]
fn cpu_word(words: &mut Words<'_>) -> Result<CpuNumber, LineFault>
    ensures { result ≡ cpu_line_in words.old }
{
    let number = words.take()?;
    words.end()?;
    cpu(number)
}

/// Whether an operator's line may begin with this word.
pub fn is_operator_word(word: &[u8]) -> bool
    ensures { result ≡ spec.is_operator_word word.now }
{
    word == b"cpu".as_slice()
        || word == b"offline".as_slice()
        || word == b"tick".as_slice()
        || word == b"resize".as_slice()
        || word == b"grow".as_slice()
        || word == b"reap".as_slice()
        || word == b"audit".as_slice()
        || word == b"clients".as_slice()
}

/// A line that may be served: a client's or an operator's.
#[derive(Clone, Copy, Debug, PartialEq, Eq)]
pub enum ServedLine {
    Client(Line),
    Operator(OperatorLine),
}

impl ServedLine {
    /// The line that these bytes are, or the first reason why they are none. They are given without
    /// the line feed. As with `Line::read`, whether they are words with one space between them is
    /// looked at only where the line is refused. It takes no memory.
    pub fn read(bytes: &[u8]) -> Result<ServedLine, LineFault>
        ensures { result ≡ served_of bytes.now }
    {
        let line = ServedLine::of_words(parts(bytes)?);
        if let Err(fault) = line {
            return Err(first_fault(bytes, fault));
        }
        line
    }

    /// The line of these parts, be they words or not; the first says whether it is an operator's.
    #[tactic(auto, unfolding(crate::specs::Operators::served_in))]
    fn of_words(mut words: Words<'_>) -> Result<ServedLine, LineFault>
        ensures { result ≡ served_in words.entry }
    {
        let Some(first) = words.next() else {
            return Err(LineFault::Word);
        };
        if is_operator_word(first) {
            Ok(ServedLine::Operator(OperatorLine::of_words(first, &mut words)?))
        } else {
            Ok(ServedLine::Client(Line::of_words(first, words)?))
        }
    }
}

/// Which bytes are served: those of a client's line, and the texts of the operators' lines.
pub fn served_law()
    ensures clients { ClientsAreServed }
    ensures operators { OperatorsAreServed }
{}
