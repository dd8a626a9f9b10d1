//! The lines of a client.
ghost use Rattle.std.specs.Prelude.{◌≡◌, ◌++◌, IsOk, OnOk, OnErr, [], ◌+◌, ◌*◌, ◌≤◌};
ghost use Rattle.std.specs.Prelude.{Some, vec_len};
ghost use Rattle.lease_proto.specs.Frames.{with_line_feed};
ghost use Rattle.lease_proto.specs.Grammar.{line_in, line_of, line_of_first, hello_in};
ghost use Rattle.lease_proto.specs.Grammar.{lease_in, lease_after, release_in};
ghost use Rattle.lease_proto.specs.Requests.{client_of, incarnation_of, request_of, op_of};
ghost use Rattle.lease_proto.specs.Requests.{demand_of};
ghost use Rattle.lease_proto.specs.declared.lines.TheConstants.{OPTIONS_ROOM};
ghost use Rattle.lease_proto.specs.declared.writing.TheConstants.{NUMBER_ROOM, NAME_ROOM};
ghost use Rattle.lease_proto.specs.declared.protocols.TheConstants.{HELLO_ROOM};
ghost use Rattle.lease_proto.specs.Texts.{text_of, first_word, op_word, hello_words, lease_words};
ghost use Rattle.lease_proto.specs.Texts.{options_words, release_words, spaced_text, LinesAreTexts};
ghost use Rattle.lease_proto.specs.Texts.{LineIsRead, WrittenLineIsWhole, AreOptions, IsOp, IsLine};
ghost use Rattle.std.specs.Vec.{vec_capacity};
ghost use Rattle.lease_proto.specs.declared.limits.TheConstants.{LINE_ROOM};

use crate::faults::LineFault;
use crate::ids::IdWords;
use crate::limits::LINE_ROOM;
use crate::numbers::{client, ordinal, quantity};
use crate::protocols::{HELLO_ROOM, protocol, push_protocol};
use crate::sentences::{Words, name};
use crate::taking::{first_fault, option, parts, quantity_or_default};
use crate::writing::{NUMBER_ROOM, push_id, push_name, push_number, push_option, push_text};
use deed_core::Request;
use lease_terms::{ArenaName, ClientId, Ordinal, Protocol, Quantity, RequestId};
use std::alloc::AllocError;

/// Room for all options: five spaces, the 23 letters of their keys, and five numbers.
const OPTIONS_ROOM: usize = 28 + 5 * NUMBER_ROOM;

/// What a lease asks for beside its size; `none` asks for nothing. Units and numbers of units.
#[derive(Clone, Copy, Debug, PartialEq, Eq)]
pub struct LeaseOptions {
    pub align: Quantity,
    pub phase: Quantity,
    pub nocross: Quantity,
    pub min: Quantity,
    pub max: Quantity,
}

impl LeaseOptions {
    /// No constraint: what a line without options has.
    pub fn none() -> LeaseOptions
        ensures { options_words result ≡ [] }
    {
        LeaseOptions {
            align: Quantity::ZERO,
            phase: Quantity::ZERO,
            nocross: Quantity::ZERO,
            min: Quantity::ZERO,
            max: Quantity::MOST,
        }
    }

    /// Each of its values is in its range. This does nothing: it is called for its clause.
    fn check(&self)
        ensures { AreOptions self.now }
    {
        let _ = self.align.get();
        let _ = self.phase.get();
        let _ = self.nocross.get();
        let _ = self.min.get();
        let _ = self.max.get();
    }

    /// Appends the options that differ from no constraint, each as its keyword and its number.
    fn push(&self, out: &mut Vec<u8>)
        requires { vec_len out.old + OPTIONS_ROOM ≤ vec_capacity out.old }
        ensures text { out.new.items ≡ out.old.items ++ spaced_text (options_words self.now) }
        ensures len { vec_len out.new ≤ vec_len out.old + OPTIONS_ROOM }
        ensures capacity { vec_capacity out.old ≤ vec_capacity out.new }
    {
        push_option(out, b"align", Quantity::ZERO, self.align);
        push_option(out, b"phase", Quantity::ZERO, self.phase);
        push_option(out, b"nocross", Quantity::ZERO, self.nocross);
        push_option(out, b"min", Quantity::ZERO, self.min);
        push_option(out, b"max", Quantity::MOST, self.max);
    }
}

/// `hello C I`, or `hello C I 2` for the second protocol: the client begins, or begins anew.
#[derive(Clone, Copy, Debug, PartialEq, Eq)]
pub struct HelloLine {
    pub client: ClientId,
    pub incarnation: Ordinal,
    pub protocol: Protocol,
}

impl HelloLine {
    /// The line of the words after `hello`.
    #[tactic(auto, unfolding(crate::specs::Grammar::hello_in))]
    fn read(words: &mut Words<'_>) -> Result<Line, LineFault>
        ensures { result ≡ hello_in words.old }
    {
        let client_word = words.take()?;
        let incarnation = words.take()?;
        let protocol = protocol(words)?;
        Ok(Line::Hello(HelloLine {
            client: client(client_word)?,
            incarnation: ordinal(incarnation)?,
            protocol,
        }))
    }

    /// Appends the words after `hello`, a space before each; the first protocol has no word.
    fn push(&self, out: &mut Vec<u8>)
        requires { vec_len out.old + HELLO_ROOM ≤ vec_capacity out.old }
        ensures text { out.new.items ≡ out.old.items ++ spaced_text (hello_words self.now) }
        ensures len { vec_len out.new ≤ vec_len out.old + HELLO_ROOM }
        ensures capacity { vec_capacity out.old ≤ vec_capacity out.new }
    {
        push_number(out, u64::from(self.client.get()));
        push_number(out, self.incarnation.get());
        push_protocol(out, self.protocol);
    }
}

/// What `lease C I N NAME SIZE` and its options ask for: a segment of an arena.
#[derive(Clone, Copy, Debug, PartialEq, Eq)]
pub struct LeaseLine {
    pub arena: ArenaName,
    pub size: Quantity,
    pub options: LeaseOptions,
}

impl LeaseLine {
    /// What it asks of its arena.
    pub fn demand(&self) -> Request
        ensures { result ≡ demand_of self.now }
    {
        Request {
            size: self.size.get(),
            align: self.options.align.get(),
            phase: self.options.phase.get(),
            nocross: self.options.nocross.get(),
            min: self.options.min.get(),
            max: self.options.max.get(),
        }
    }

    /// The line of the words after `lease`.
    #[tactic(auto, unfolding(crate::specs::Grammar::lease_in))]
    fn read(words: &mut Words<'_>) -> Result<Line, LineFault>
        ensures { result ≡ lease_in words.old }
    {
        let id = IdWords::take(words)?;
        let arena = name(words.take()?)?;
        let size = words.take()?;
        if words.end().is_err() {
            return LeaseLine::with_options(id, arena, size, words.ahead());
        }
        let id = id.read()?;
        let lease = LeaseLine {
            arena,
            size: quantity(size)?,
            options: LeaseOptions::none(),
        };
        Ok(Line::Request(id, Op::Lease(lease)))
    }

    /// The lease of the words up to its size, and of those after it. Most leases have none of these
    /// and are read without it.
    #[tactic(auto, unfolding(crate::specs::Grammar::lease_after))]
    fn with_options(
        id: IdWords<'_>,
        arena: ArenaName,
        size: &[u8],
        mut words: Words<'_>,
    ) -> Result<Line, LineFault>
        ensures { result ≡ lease_after id.entry arena size.now words.entry }
    {
        let align = option(&mut words, b"align");
        let phase = option(&mut words, b"phase");
        let nocross = option(&mut words, b"nocross");
        let min = option(&mut words, b"min");
        let max = option(&mut words, b"max");
        words.end()?;
        let id = id.read()?;
        let lease = LeaseLine {
            arena,
            size: quantity(size)?,
            options: LeaseOptions {
                align: quantity_or_default(Quantity::ZERO, align)?,
                phase: quantity_or_default(Quantity::ZERO, phase)?,
                nocross: quantity_or_default(Quantity::ZERO, nocross)?,
                min: quantity_or_default(Quantity::ZERO, min)?,
                max: quantity_or_default(Quantity::MOST, max)?,
            },
        };
        Ok(Line::Request(id, Op::Lease(lease)))
    }

    /// Appends the words after the id, a space before each.
    fn push(&self, out: &mut Vec<u8>)
        requires { vec_len out.old + (NAME_ROOM + NUMBER_ROOM + OPTIONS_ROOM)
            ≤ vec_capacity out.old }
        ensures text { out.new.items ≡ out.old.items ++ spaced_text (lease_words self.now) }
        ensures len { vec_len out.new ≤ vec_len out.old + (NAME_ROOM + NUMBER_ROOM + OPTIONS_ROOM) }
        ensures capacity { vec_capacity out.old ≤ vec_capacity out.new }
    {
        push_name(out, &self.arena);
        push_number(out, self.size.get());
        self.options.push(out);
    }
}

/// What `release C I N NAME BASE` asks for: to end the lease of that arena and base.
#[derive(Clone, Copy, Debug, PartialEq, Eq)]
pub struct ReleaseLine {
    pub arena: ArenaName,
    pub base: Quantity,
}

impl ReleaseLine {
    /// The line of the words after `release`.
    #[tactic(auto, unfolding(crate::specs::Grammar::release_in))]
    fn read(words: &mut Words<'_>) -> Result<Line, LineFault>
        ensures { result ≡ release_in words.old }
    {
        let id = IdWords::take(words)?;
        let arena = name(words.take()?)?;
        let base = words.take()?;
        words.end()?;
        let id = id.read()?;
        let release = ReleaseLine {
            arena,
            base: quantity(base)?,
        };
        Ok(Line::Request(id, Op::Release(release)))
    }

    /// Appends the words after the id, a space before each.
    fn push(&self, out: &mut Vec<u8>)
        requires { vec_len out.old + (NAME_ROOM + NUMBER_ROOM) ≤ vec_capacity out.old }
        ensures text { out.new.items ≡ out.old.items ++ spaced_text (release_words self.now) }
        ensures len { vec_len out.new ≤ vec_len out.old + (NAME_ROOM + NUMBER_ROOM) }
        ensures capacity { vec_capacity out.old ≤ vec_capacity out.new }
    {
        push_name(out, &self.arena);
        push_number(out, self.base.get());
    }
}

/// What a request asks for, without its id.
#[derive(Clone, Copy, Debug, PartialEq, Eq)]
pub enum Op {
    Lease(LeaseLine),
    Release(ReleaseLine),
}

impl Op {
    /// Each of its values is in its range. This does nothing: it is called for its clause.
    pub fn check(&self)
        ensures { IsOp self.now }
    {
        match self {
            Op::Lease(lease) => {
                let _ = lease.arena.as_slice();
                let _ = lease.size.get();
                lease.options.check();
            }
            Op::Release(release) => {
                let _ = release.arena.as_slice();
                let _ = release.base.get();
            }
        }
    }

    /// The word that says what is asked for, before the id.
    fn keyword(&self) -> &'static [u8]
        ensures { result.now ≡ op_word self.now }
    {
        match self {
            Op::Lease(_) => b"lease",
            Op::Release(_) => b"release",
        }
    }
}

/// A line of a client: a hello, or a request with its id.
#[derive(Clone, Copy, Debug, PartialEq, Eq)]
pub enum Line {
    Hello(HelloLine),
    Request(RequestId, Op),
}

impl Line {
    /// The line that these bytes are, or the first reason why they are none. They are given without
    /// the line feed. A line that is read is words with one space between them, so whether these
    /// are is looked at only where they are refused. It takes no memory.
    pub fn read(bytes: &[u8]) -> Result<Line, LineFault>
        ensures { result ≡ line_of bytes.now }
    {
        let mut line = Line::of_parts(parts(bytes)?);
        if let Err(fault) = &mut line {
            *fault = first_fault(bytes, *fault);
        }
        line
    }

    /// The line of these parts, be they words or not.
    #[tactic(auto, unfolding(crate::specs::Grammar::line_in))]
    fn of_parts(mut words: Words<'_>) -> Result<Line, LineFault>
        ensures { result ≡ line_in words.entry }
    {
        match words.next() {
            Some(first) => Line::of_words(first, words),
            None => Err(LineFault::Word),
        }
    }

    /// The line of this first word and the words after it.
    #[tactic(auto, unfolding(crate::specs::Grammar::line_of_first))]
    pub(crate) fn of_words(first: &[u8], mut words: Words<'_>) -> Result<Line, LineFault>
        ensures { result ≡ line_of_first first.now words.entry }
    {
        if first == b"hello".as_slice() {
            HelloLine::read(&mut words)
        } else if first == b"lease".as_slice() {
            LeaseLine::read(&mut words)
        } else if first == b"release".as_slice() {
            ReleaseLine::read(&mut words)
        } else {
            Err(LineFault::Word)
        }
    }

    /// Appends the line and a line feed. An option of no constraint is left out. It fails only when
    /// out of memory, and never where there is room for `LINE_ROOM` bytes more.
    pub fn write(&self, out: &mut Vec<u8>) -> Result<(), AllocError>
        ensures ok { OnOk result
            (out.new.items ≡ out.old.items ++ with_line_feed (text_of self.now)) }
        ensures unchanged { OnErr result (out.new.items ≡ out.old.items) }
        ensures succeeds { vec_len out.old + LINE_ROOM ≤ vec_capacity out.old → IsOk result }
        ensures capacity { vec_capacity out.old ≤ vec_capacity out.new }
    {
        out.reserve(LINE_ROOM)?;
        push_text(out, self.keyword());
        match self {
            Line::Hello(hello) => hello.push(out),
            Line::Request(id, Op::Lease(lease)) => {
                push_id(out, *id);
                lease.push(out);
            }
            Line::Request(id, Op::Release(release)) => {
                push_id(out, *id);
                release.push(out);
            }
        }
        out.push_reserved(b'\n');
        Ok(())
    }

    /// The first word of the line.
    fn keyword(&self) -> &'static [u8]
        ensures { result.now ≡ first_word self.now }
    {
        match self {
            Line::Hello(_) => b"hello",
            Line::Request(_, op) => op.keyword(),
        }
    }

    /// Each of its values is in its range. This does nothing: it is called for its clause.
    pub fn check(&self)
        ensures { IsLine self.now }
    {
        match self {
            Line::Hello(hello) => {
                let _ = hello.client.get();
                let _ = hello.incarnation.get();
            }
            Line::Request(id, op) => {
                id.check();
                op.check();
            }
        }
    }

    /// The client that sends it.
    pub fn client(&self) -> ClientId
        ensures { result ≡ client_of self.now }
    {
        match self {
            Line::Hello(hello) => hello.client,
            Line::Request(id, _) => id.client,
        }
    }

    /// The incarnation of the client that sends it.
    pub fn incarnation(&self) -> Ordinal
        ensures { result ≡ incarnation_of self.now }
    {
        match self {
            Line::Hello(hello) => hello.incarnation,
            Line::Request(id, _) => id.incarnation,
        }
    }

    /// The id of a request; a hello has none.
    pub fn request(&self) -> Option<RequestId>
        ensures { result ≡ request_of self.now }
    {
        match self {
            Line::Hello(_) => None,
            Line::Request(id, _) => Some(*id),
        }
    }

    /// What a request asks for; a hello asks for nothing.
    pub fn op(&self) -> Option<Op>
        ensures { result ≡ op_of self.now }
    {
        match self {
            Line::Hello(_) => None,
            Line::Request(_, op) => Some(*op),
        }
    }
}

/// Which bytes are a line: its words with one space between them, and among them what is written of
/// it, which is one line of a stream.
pub fn line_law()
    ensures exact { LinesAreTexts }
    ensures written { LineIsRead }
    ensures whole { WrittenLineIsWhole }
{}
