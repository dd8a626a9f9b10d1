//! The lines of a setup: which arenas there are.
ghost use Rattle.std.specs.Prelude.{◌≡◌};
ghost use Rattle.lease_proto.specs.SetupLines.{policy_in, root_in, child_in, span_in, setup_in};
ghost use Rattle.lease_proto.specs.SetupLines.{setup_of};
ghost use Rattle.lease_proto.specs.SetupTexts.{SetupsAreTexts};
ghost use Rattle.lease_proto.specs.SetupLines as spec;

use crate::faults::LineFault;
use crate::numbers::quantity;
use crate::sentences::{Words, name};
use crate::taking::words;
use lease_terms::{ArenaName, Quantity};

/// How an arena chooses among its free units, by its word in a setup line.
#[derive(Clone, Copy, Debug, PartialEq, Eq)]
pub enum PolicyWord {
    Instant,
    Best,
    Next,
}

/// `root NAME BASE LEN QUANTUM POLICY QMAX`: an arena with one owned span. The base and the lengths
/// are in units; QMAX is the greatest size that has a cache, or 0 for none.
#[derive(Clone, Copy, Debug, PartialEq, Eq)]
pub struct RootLine {
    pub name: ArenaName,
    pub base: Quantity,
    pub len: Quantity,
    pub quantum: Quantity,
    pub policy: PolicyWord,
    pub qcache_max: Quantity,
}

impl RootLine {
    /// The line of the words after `root`.
    #[tactic(auto, unfolding(crate::specs::SetupLines::root_in))]
    fn read(words: &mut Words<'_>) -> Result<Self, LineFault>
        ensures { result ≡ root_in words.old }
    {
        let name = name(words.take()?)?;
        let base = words.take()?;
        let len = words.take()?;
        let quantum = words.take()?;
        let policy = policy(words.take()?)?;
        let most = words.take()?;
        words.end()?;
        Ok(RootLine {
            name,
            base: quantity(base)?,
            len: quantity(len)?,
            quantum: quantity(quantum)?,
            policy,
            qcache_max: quantity(most)?,
        })
    }
}

/// `child NAME SOURCE QUANTUM POLICY QMAX IMPORTMIN`: an arena that imports its spans from a
/// source, at least IMPORTMIN units at a time.
#[derive(Clone, Copy, Debug, PartialEq, Eq)]
pub struct ChildLine {
    pub name: ArenaName,
    pub source: ArenaName,
    pub quantum: Quantity,
    pub policy: PolicyWord,
    pub qcache_max: Quantity,
    pub import_min: Quantity,
}

impl ChildLine {
    /// The line of the words after `child`.
    #[tactic(auto, unfolding(crate::specs::SetupLines::child_in))]
    fn read(words: &mut Words<'_>) -> Result<Self, LineFault>
        ensures { result ≡ child_in words.old }
    {
        let own = name(words.take()?)?;
        let source = name(words.take()?)?;
        let quantum = words.take()?;
        let policy = policy(words.take()?)?;
        let most = words.take()?;
        let least = words.take()?;
        words.end()?;
        Ok(ChildLine {
            name: own,
            source,
            quantum: quantity(quantum)?,
            policy,
            qcache_max: quantity(most)?,
            import_min: quantity(least)?,
        })
    }
}

/// `span NAME BASE LEN`: a further owned span of a root.
#[derive(Clone, Copy, Debug, PartialEq, Eq)]
pub struct SpanLine {
    pub name: ArenaName,
    pub base: Quantity,
    pub len: Quantity,
}

impl SpanLine {
    /// The line of the words after `span`.
    #[tactic(auto, unfolding(crate::specs::SetupLines::span_in))]
    fn read(words: &mut Words<'_>) -> Result<Self, LineFault>
        ensures { result ≡ span_in words.old }
    {
        let name = name(words.take()?)?;
        let base = words.take()?;
        let len = words.take()?;
        words.end()?;
        Ok(SpanLine {
            name,
            base: quantity(base)?,
            len: quantity(len)?,
        })
    }
}

/// A setup line.
#[derive(Clone, Copy, Debug, PartialEq, Eq)]
pub enum SetupLine {
    Root(RootLine),
    Child(ChildLine),
    Span(SpanLine),
}

impl SetupLine {
    /// The setup line that these bytes are, or the first reason why they are none. They are given
    /// without the line feed. It takes no memory.
    #[tactic(auto, unfolding(crate::specs::SetupLines::setup_of))]
    pub fn read(bytes: &[u8]) -> Result<SetupLine, LineFault>
        ensures { result ≡ setup_of bytes.now }
    {
        SetupLine::of_words(&mut words(bytes)?)
    }

    /// The setup line of these words.
    #[tactic(auto, unfolding(crate::specs::SetupLines::setup_in))]
    fn of_words(words: &mut Words<'_>) -> Result<SetupLine, LineFault>
        ensures { result ≡ setup_in words.old }
    {
        let Some(first) = words.next() else {
            return Err(LineFault::Word);
        };
        if first == b"root".as_slice() {
            Ok(SetupLine::Root(RootLine::read(words)?))
        } else if first == b"child".as_slice() {
            Ok(SetupLine::Child(ChildLine::read(words)?))
        } else if first == b"span".as_slice() {
            Ok(SetupLine::Span(SpanLine::read(words)?))
        } else {
            Err(LineFault::Word)
        }
    }
}

/// The policy that a word names. Another word makes the line a bad one.
fn policy(word: &[u8]) -> Result<PolicyWord, LineFault>
    ensures { result ≡ policy_in word.now }
{
    if word == b"instant".as_slice() {
        Ok(PolicyWord::Instant)
    } else if word == b"best".as_slice() {
        Ok(PolicyWord::Best)
    } else if word == b"next".as_slice() {
        Ok(PolicyWord::Next)
    } else {
        Err(LineFault::BadLine)
    }
}

/// Whether a setup line may begin with this word.
pub fn is_setup_word(word: &[u8]) -> bool
    ensures { result ≡ spec.is_setup_word word.now }
{
    word == b"root".as_slice() || word == b"child".as_slice() || word == b"span".as_slice()
}

/// Bytes are a setup line just where they are its words with one space between them.
pub fn setup_law()
    ensures { SetupsAreTexts }
{}
