//! Lines out of a stream of bytes that comes in any pieces.
ghost use Rattle.std.specs.Prelude.{◌≡◌, ◌≤◌, ◌<◌, ℕ, List, [], ◌∷◌, ◌++◌, length, take, true};
ghost use Rattle.std.specs.Prelude.{false};
ghost use Rattle.std.specs.Prelude.{if◌then◌else◌, IfSome, IfNone};
ghost use Rattle.lease_proto.specs.declared.limits.TheConstants.{LINE_ROOM};
ghost use Rattle.lease_proto.specs.Frames.{LineReaderState, IsOneLine, with_line_feed, frame_of};
ghost use Rattle.lease_proto.specs.Frames.{frames_of_rest};
ghost use Rattle.lease_proto.specs.Frames.{frames_in, rest_in, frame_view, faults_of};
ghost use Rattle.lease_proto.specs.Frames.{FramesAreLines};
ghost use Rattle.lease_proto.specs.Frames.{InputIsLines, PiecesAreOne, FrontIsEnough, TextGoesOn};
ghost use Rattle.lease_proto.specs.Frames.{TextEndsNoLine, LineFeedEndsLine, NoPlaceIsLineFeed};

use crate::faults::LineFault;
use crate::limits::{LINE_ROOM, LONGEST_LINE};
use arrayvec::ArrayVec;
use memchr::memchr;
use std::marker::Model;
use std::mem;

/// The bytes of a line, without its line feed: at most `LONGEST_LINE` where `next` gives them. A
/// byte more shows that a line is too long.
pub type FramedLine = ArrayVec<u8, LINE_ROOM>;

/// Cuts a stream into lines. A contract sees the first `LINE_ROOM` bytes of the line that has
/// begun, and whether its line feed has come. It takes no memory, and looks at each byte that it is
/// fed once, or twice where it keeps it.
#[derive(Drop)]
pub struct LineReader {
    /// The line that has begun, cut after `LINE_ROOM` bytes.
    front: FramedLine,
    /// Whether the line feed has come.
    ended: bool,
}

impl Model for LineReader {
    ghost Value = { LineReaderState };

    ghost view = { λ r. record { line = r.front.items; whole = r.ended } };
}

impl LineReader {
    /// A reader at the beginning of a line.
    pub fn new() -> Self
        ensures { result ≡ record { line = []; whole = false } }
    {
        LineReader {
            front: ArrayVec::new(),
            ended: false,
        }
    }

    /// Takes bytes from the front of a piece, up to its first line feed or all, and says how many.
    /// Where the line feed has come, `next` has the line, and the rest of the piece is fed after
    /// it.
    pub fn feed(&mut self, piece: &[u8]) -> usize
        requires { self.old.whole ≡ false }
        ensures within { result ≤ length piece.now }
        ensures part { self.new.whole ≡ false → (result ≡ length piece.now)
            × (frames_in self.old.line piece.now ≡ [])
            × (self.new.line ≡ take LINE_ROOM (rest_in self.old.line piece.now)) }
        ensures whole { self.new.whole ≡ true → (0 < result)
            × (frames_in self.old.line (take result piece.now) ≡ frame_of self.new.line ∷ [])
            × (rest_in self.old.line (take result piece.now) ≡ []) }
        ensures text { (text : List ℕ) × IsOneLine text
            × (take result piece.now ≡ (if self.new.whole then with_line_feed text else text))
            × (self.new.line ≡ take LINE_ROOM (self.old.line ++ text)) }
    {
        match memchr(b'\n', piece) {
            Some(i) => {
                hold(&mut self.front, &piece[..i]);
                self.ended = true;
                i + 1
            }
            None => {
                hold(&mut self.front, piece);
                self.ended = false;
                piece.len()
            }
        }
    }

    /// The first `LINE_ROOM` bytes of the line that has begun, without its line feed.
    pub fn line(&self) -> &[u8]
        ensures { result.now ≡ self.now.line }
    {
        self.front.as_slice()
    }

    /// Whether its line feed has come.
    pub fn is_whole(&self) -> bool
        ensures { result ≡ self.now.whole }
    {
        self.ended
    }

    /// The line that the last `feed` ended, or `TooLong`. The next line then begins.
    pub fn next(&mut self) -> Option<Result<FramedLine, LineFault>>
        ensures none { IfNone result ((self.old.whole ≡ false) × (self.new ≡ self.old)) }
        ensures some { IfSome result (λ frame. (self.old.whole ≡ true)
            × (frame_view frame ≡ frame_of self.old.line)
            × (self.new ≡ record { line = []; whole = false })) }
    {
        if !self.ended {
            return None;
        }
        self.ended = false;
        let line = mem::replace(&mut self.front, ArrayVec::new());
        if line.len() <= LONGEST_LINE {
            Some(Ok(line))
        } else {
            Some(Err(LineFault::TooLong))
        }
    }

    /// At the end of the input, why the rest is refused: it has no line feed. An empty rest is no
    /// line.
    pub fn at_end(&self) -> Option<LineFault>
        requires { self.now.whole ≡ false }
        ensures { faults_of result ≡ frames_of_rest self.now.line }
    {
        fault_at_end(self.front.as_slice())
    }
}

/// Why the rest of an input is refused that no line feed ends, by its first `LINE_ROOM` bytes. An
/// empty one is no line.
pub fn fault_at_end(rest: &[u8]) -> Option<LineFault>
    ensures { faults_of result ≡ frames_of_rest rest.now }
{
    if rest.is_empty() {
        None
    } else if rest.len() <= LONGEST_LINE {
        Some(LineFault::BadLine)
    } else {
        Some(LineFault::TooLong)
    }
}

/// Appends as much of a text as there is room for.
fn hold(front: &mut FramedLine, text: &[u8])
    ensures { front.new.items ≡ take LINE_ROOM (front.old.items ++ text.now) }
{
    let room = (LINE_ROOM - front.len()).min(text.len());
    front.try_extend_from_slice(&text[..room]).unwrap();
}

/// What the lines of an input are: it is lines with their line feeds and a rest, in one way, and
/// its frames are those of these lines and the rest, however it was cut into pieces. Of a line that
/// has begun, the first `LINE_ROOM` bytes tell all.
pub fn framing_law()
    ensures framed { FramesAreLines }
    ensures each { InputIsLines }
    ensures pieces { PiecesAreOne }
    ensures front { FrontIsEnough }
{}

/// What a line feed does to the line that has begun, and what text without one does. That text has
/// none is told by its places.
pub fn line_feed_law()
    ensures text { TextGoesOn }
    ensures unended { TextEndsNoLine }
    ensures ended { LineFeedEndsLine }
    ensures places { NoPlaceIsLineFeed }
{}
