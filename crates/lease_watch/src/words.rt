//! The words by which lines and replies are counted.
ghost use Rattle.std.specs.Prelude.{◌≡◌, ◌<◌};
ghost use Rattle.lease_watch.specs.Words as spec;
ghost use Rattle.lease_watch.specs.declared.words.TheConstants.{WORDS};

use lease_proto::{Line, Op, Reply};
use lease_terms::Refusal;

/// The first word of a line or of a reply, or a reason of refusal.
#[derive(Clone, Copy, Debug, PartialEq, Eq)]
pub enum Word {
    Hello,
    Lease,
    Release,
    Welcome,
    Granted,
    Released,
    Refused,
    Old,
    Stale,
    Gap,
    Again,
    Error,
    NoFit,
    BadRequest,
    NoArena,
    NotYours,
    Leases,
}

/// How many words there are.
pub const WORDS: usize = 17;

/// How often each word was counted, at its place.
pub type WordCounts = [u64; WORDS];

impl Word {
    /// Where its count stands.
    pub fn place(self) -> usize
        ensures value { result ≡ spec.place_of self }
        ensures within { result < WORDS }
    {
        self as usize
    }

    /// The word that a line is counted by.
    pub fn of_line(line: &Line) -> Word
        ensures { result ≡ spec.line_word line.now }
    {
        match line {
            Line::Hello(_) => Word::Hello,
            Line::Request(_, Op::Lease(_)) => Word::Lease,
            Line::Request(_, Op::Release(_)) => Word::Release,
        }
    }

    /// The word that a reply is counted by.
    pub fn of_reply(reply: &Reply) -> Word
        ensures { result ≡ spec.reply_word reply.now }
    {
        match reply {
            Reply::Welcome(_) => Word::Welcome,
            Reply::Granted(_) => Word::Granted,
            Reply::Released(_) => Word::Released,
            Reply::Refused(_) => Word::Refused,
            Reply::Old(_) => Word::Old,
            Reply::Stale(_) => Word::Stale,
            Reply::Gap(_) => Word::Gap,
            Reply::Again(_) => Word::Again,
            Reply::Error(_) => Word::Error,
        }
    }

    /// The word that a refusal is counted by beside, for its reason; None for another reply.
    pub fn of_reason(reply: &Reply) -> Option<Word>
        ensures { result ≡ spec.reason_word reply.now }
    {
        match reply {
            Reply::Refused(refused) => Some(of_refusal(refused.refusal)),
            _ => None,
        }
    }

    /// Its text.
    #[tactic(auto, unfolding(crate::specs::Words::text_of))]
    pub(crate) fn text(self) -> &'static [u8]
        ensures { result.now ≡ spec.text_of self }
    {
        match self {
            Word::Hello => b"hello",
            Word::Lease => b"lease",
            Word::Release => b"release",
            Word::Welcome => b"welcome",
            Word::Granted => b"granted",
            Word::Released => b"released",
            Word::Refused => b"refused",
            Word::Old => b"old",
            Word::Stale => b"stale",
            Word::Gap => b"gap",
            Word::Again => b"again",
            Word::Error => b"error",
            Word::NoFit => b"nofit",
            Word::BadRequest => b"badrequest",
            Word::NoArena => b"noarena",
            Word::NotYours => b"notyours",
            Word::Leases => b"leases",
        }
    }
}

/// The word that a refusal is counted by.
fn of_refusal(refusal: Refusal) -> Word
    ensures { result ≡ spec.refusal_word refusal }
{
    match refusal {
        Refusal::NoFit => Word::NoFit,
        Refusal::BadRequest => Word::BadRequest,
        Refusal::NoArena => Word::NoArena,
        Refusal::NotYours => Word::NotYours,
        Refusal::Leases => Word::Leases,
    }
}

/// How often a word was counted.
pub fn count_of(counts: &WordCounts, word: Word) -> u64
    ensures { result ≡ spec.count_of counts.now word }
{
    counts[word.place()]
}
