//! What was read of a stream, given out line by line.
ghost use Rattle.std.specs.Prelude.{◌≡◌, ◌⊎◌, ◌≤◌, ◌+◌, ◌-◌, ◌^◌, [], min, length, take, drop};
ghost use Rattle.std.specs.Prelude.{true, false, IfOk, IfErr, IfSome, IfNone};
ghost use Rattle.std.specs.Io.KnownBytes.{IsAtEnd};
ghost use Rattle.lease_server.specs.Intakes.{IntakeState, hand_in, hand_of, ReadsOn, StopsReading};
ghost use Rattle.lease_server.specs.Intakes.{HandTells, HandIsWhole, HandIsBegun, HandGoesOn};
ghost use Rattle.lease_server.specs.Watching.{inner_of, has_failed, reads_of};
ghost use Rattle.lease_proto.specs.declared.limits.TheConstants.{LINE_ROOM};
ghost use Rattle.lease_server.specs.declared.intakes.TheConstants.{MOST_READS, PIECE};

use crate::faults::ServeFault;
use crate::watching::Watched;
use lease_proto::{LINE_ROOM, LineReader};
use memchr::memchr;
use std::io::Read;
use std::marker::Model;

/// How many times a stream is read at most.
pub const MOST_READS: u64 = 1 << 40;

/// The limit as the rules have it: who changes it changes it here, too.
pub fn read_limit_law()
    ensures { MOST_READS ≡ 2 ^ 40 }
{}

/// How many bytes are read at once.
const PIECE: usize = 16_384;

/// The bytes of a stream that were read and not passed yet. A line that lies whole in what one read
/// gave stays where it was read; one that goes over its end is put together. It takes no memory.
#[derive(Drop)]
pub struct Intake {
    /// The line begun before the piece.
    framing: LineReader,
    buffer: [u8; PIECE],
    /// The piece, as far as it isn't passed: the bytes of the buffer from here ..
    start: usize,
    /// .. to here.
    end: usize,
    /// How often its stream was read.
    reads: u64,
    /// Whether the stream has ended.
    ended: bool,
}

impl Model for Intake {
    ghost Value = { IntakeState };

    ghost view = { λ i. record {
      hand = hand_of i.framing (take (i.end - i.start) (drop i.start i.buffer));
      reads = i.reads;
      ended = i.ended;
    } };

    ghost invariant = { λ i. (i.start ≤ i.end) × (i.end ≤ PIECE) × (i.reads ≤ MOST_READS)
        × (length i.framing.line ≤ LINE_ROOM)
        × ((i.framing.line ≡ []) ⊎ (i.framing.whole ≡ true) ⊎ (i.start ≡ i.end)) };
}

impl Intake {
    /// Before anything is read.
    pub fn new() -> Intake
        ensures { result ≡ record { hand = hand_in [] []; reads = 0; ended = false } }
    {
        Intake {
            framing: LineReader::new(),
            buffer: [0u8; PIECE],
            start: 0,
            end: 0,
            reads: 0,
            ended: false,
        }
    }

    /// The first line, where its line feed has come: without it, and at most the first `LINE_ROOM`
    /// bytes. One of so many bytes is too long.
    pub fn first_line(&self) -> Option<&[u8]>
        ensures none { IfNone result (self.now.hand.whole ≡ false) }
        ensures some { IfSome result (λ line. (self.now.hand.whole ≡ true)
            × (line.now ≡ self.now.hand.line)) }
        ensures bound { self.now.reads ≤ MOST_READS }
    {
        if self.framing.is_whole() {
            return Some(self.framing.line());
        }
        let piece = &self.buffer[self.start..self.end];
        match memchr(b'\n', piece) {
            Some(end) => Some(&piece[..end.min(LINE_ROOM)]),
            None => None,
        }
    }

    /// Passes the first line.
    pub fn pass(&mut self)
        requires { self.old.hand.whole ≡ true }
        ensures { self.new ≡ record {
          hand = hand_in [] self.old.hand.rest;
          reads = self.old.reads;
          ended = self.old.ended;
        } }
    {
        if self.framing.is_whole() {
            let _ = self.framing.next();
        } else if let Some(end) = memchr(b'\n', &self.buffer[self.start..self.end]) {
            self.start += end + 1;
        }
    }

    /// The line begun, whose line feed hasn't come: at most its first `LINE_ROOM` bytes.
    pub fn begun(&self) -> &[u8]
        requires { self.now.hand.whole ≡ false }
        ensures { result.now ≡ self.now.hand.line }
    {
        if self.start == self.end {
            return self.framing.line();
        }
        let piece = &self.buffer[self.start..self.end];
        &piece[..piece.len().min(LINE_ROOM)]
    }

    /// Reads on where no line is whole, and says whether more came. After the end the reader isn't
    /// asked again. `Turns` comes after `MOST_READS`, each of which gave bytes.
    pub fn read_on<R: Read>(&mut self, reader: &mut Watched<R>) -> Result<bool, ServeFault>
        requires whole { self.old.hand.whole ≡ false }
        requires ended { self.old.ended ≡ true → IsAtEnd (R.remaining (inner_of reader.old)) }
        ensures ok { IfOk result (ReadsOn self.old self.new (R.remaining (inner_of reader.old))
            (R.remaining (inner_of reader.new))) }
        ensures works { IfOk result (λ more. has_failed reader.new ≡ has_failed reader.old) }
        ensures err { IfErr result (StopsReading self.old (R.remaining (inner_of reader.old))
            (R.remaining (inner_of reader.new)) (has_failed reader.old) (has_failed reader.new)) }
        ensures bound { (self.old.reads ≤ self.new.reads) × (self.new.reads ≤ MOST_READS) }
        ensures counted { reads_of reader.new
            ≡ min (reads_of reader.old + (self.new.reads - self.old.reads)) (2 ^ 64 - 1) }
    {
        if self.ended {
            return Ok(false);
        }
        if self.reads == MOST_READS {
            return Err(ServeFault::Turns);
        }
        hold_rest(&mut self.framing, &self.buffer, self.start, self.end);
        self.start = self.end;
        self.reads += 1;
        let n = reader.read(&mut self.buffer)?;
        self.start = go_on(&mut self.framing, &self.buffer[..n]);
        self.end = n;
        self.ended = n == 0;
        Ok(n > 0)
    }
}

/// Keeps a part of a buffer in which no line ends.
fn hold_rest(framing: &mut LineReader, buffer: &[u8], start: usize, end: usize)
    requires part { (start ≤ end) × (end ≤ length buffer.now) }
    requires unended { (hand_of framing.old (take (end - start) (drop start buffer.now))).whole
        ≡ false }
    requires short { length framing.old.line ≤ LINE_ROOM }
    ensures held { framing.new ≡ record {
      line = (hand_of framing.old (take (end - start) (drop start buffer.now))).line;
      whole = false;
    } }
    ensures short { length framing.new.line ≤ LINE_ROOM }
{
    if start < end {
        framing.feed(&buffer[start..end]);
    }
}

/// Puts a line begun together with its end, and says how much of what was read is used up.
fn go_on(framing: &mut LineReader, piece: &[u8]) -> usize
    requires begun { framing.old.whole ≡ false }
    requires short { length framing.old.line ≤ LINE_ROOM }
    ensures within { result ≤ length piece.now }
    ensures hand { hand_of framing.new (drop result piece.now)
        ≡ hand_in framing.old.line piece.now }
    ensures short { length framing.new.line ≤ LINE_ROOM }
    ensures used { (framing.new.line ≡ []) ⊎ (framing.new.whole ≡ true)
        ⊎ (result ≡ length piece.now) }
{
    if framing.line().is_empty() {
        return 0;
    }
    framing.feed(piece)
}

/// What is at hand of a stream tells its frames as all of its bytes do; which bytes of it are a
/// whole line, and which a line begun; and that these go on as if all had come at once.
pub fn hand_law()
    ensures tells { HandTells }
    ensures whole { HandIsWhole }
    ensures begun { HandIsBegun }
    ensures goes_on { HandGoesOn }
{}
