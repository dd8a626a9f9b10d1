//! The replies to a client's lines.
ghost use Rattle.std.specs.Prelude.{◌≡◌, ◌++◌, IsOk, OnOk, OnErr, ◌+◌, ◌*◌, ◌≤◌};
ghost use Rattle.std.specs.Prelude.{vec_len};
ghost use Rattle.lease_proto.specs.Frames.{with_line_feed};
ghost use Rattle.lease_proto.specs.Replies.{reply_of, reply_text, first_reply_word, welcome_in};
ghost use Rattle.lease_proto.specs.Replies.{granted_in, released_in, refused_in, old_in};
ghost use Rattle.lease_proto.specs.Replies.{out_of_turn_in, again_in, error_in, welcome_words};
ghost use Rattle.lease_proto.specs.Replies.{granted_words, refused_words, old_words};
ghost use Rattle.lease_proto.specs.Replies.{out_of_turn_words, again_words, IsReply};
ghost use Rattle.lease_proto.specs.Replies.{RepliesAreTexts, WrittenReplyIsWhole};
ghost use Rattle.lease_proto.specs.Requests.{client_named, incarnation_named, request_named};
ghost use Rattle.lease_proto.specs.Requests.{again_request, again_of, hello_again_of};
ghost use Rattle.std.specs.Vec.{vec_capacity};
ghost use Rattle.lease_proto.specs.declared.limits.TheConstants.{LINE_ROOM};
ghost use Rattle.lease_proto.specs.declared.writing.TheConstants.{NUMBER_ROOM, ID_ROOM, NAME_ROOM};
ghost use Rattle.lease_proto.specs.declared.protocols.TheConstants.{HELLO_ROOM};
ghost use Rattle.lease_proto.specs.Texts.{spaced_text};

use crate::faults::{ErrorWord, LineFault};
use crate::ids::IdWords;
use crate::limits::LINE_ROOM;
use crate::lines::HelloLine;
use crate::numbers::{client, ordinal, quantity};
use crate::protocols::{HELLO_ROOM, protocol, push_protocol};
use crate::refusals::{refusal, word_of};
use crate::sentences::{Words, name};
use crate::taking::words;
use crate::writing::{push_id, push_name, push_number, push_text, push_word};
use lease_terms::{ArenaName, ClientId, Ordinal, Protocol, Quantity, Refusal, RequestId};
use std::alloc::AllocError;

/// `welcome C I`, or `welcome C I 2`: the client's incarnation is this one, and it speaks the first
/// protocol, or the second.
#[derive(Clone, Copy, Debug, PartialEq, Eq)]
pub struct Welcome {
    pub client: ClientId,
    pub incarnation: Ordinal,
    pub protocol: Protocol,
}

impl Welcome {
    /// The reply of the words after `welcome`.
    #[tactic(auto, unfolding(crate::specs::Replies::welcome_in))]
    fn read(words: &mut Words<'_>) -> Result<Self, LineFault>
        ensures { result ≡ welcome_in words.old }
    {
        let client_word = words.take()?;
        let incarnation = words.take()?;
        let protocol = protocol(words)?;
        Ok(Welcome {
            client: client(client_word)?,
            incarnation: ordinal(incarnation)?,
            protocol,
        })
    }

    /// Appends the words after `welcome`, a space before each; the first protocol has no word.
    fn push(&self, out: &mut Vec<u8>)
        requires { vec_len out.old + HELLO_ROOM ≤ vec_capacity out.old }
        ensures text { out.new.items ≡ out.old.items ++ spaced_text (welcome_words self.now) }
        ensures len { vec_len out.new ≤ vec_len out.old + HELLO_ROOM }
        ensures capacity { vec_capacity out.old ≤ vec_capacity out.new }
    {
        push_number(out, u64::from(self.client.get()));
        push_number(out, self.incarnation.get());
        push_protocol(out, self.protocol);
    }
}

/// `granted C I N NAME BASE LEN`: `len` units from `base` on are leased.
#[derive(Clone, Copy, Debug, PartialEq, Eq)]
pub struct Granted {
    pub id: RequestId,
    pub arena: ArenaName,
    pub base: Quantity,
    pub len: Quantity,
}

impl Granted {
    /// The reply of the words after `granted`.
    #[tactic(auto, unfolding(crate::specs::Replies::granted_in))]
    fn read(words: &mut Words<'_>) -> Result<Self, LineFault>
        ensures { result ≡ granted_in words.old }
    {
        let id = IdWords::take(words)?;
        let arena = name(words.take()?)?;
        let base = words.take()?;
        let len = words.take()?;
        words.end()?;
        Ok(Granted {
            id: id.read()?,
            arena,
            base: quantity(base)?,
            len: quantity(len)?,
        })
    }

    /// Appends the words after `granted`, a space before each.
    fn push(&self, out: &mut Vec<u8>)
        requires { vec_len out.old + (ID_ROOM + NAME_ROOM + 2 * NUMBER_ROOM)
            ≤ vec_capacity out.old }
        ensures text { out.new.items ≡ out.old.items ++ spaced_text (granted_words self.now) }
        ensures len { vec_len out.new ≤ vec_len out.old + (ID_ROOM + NAME_ROOM + 2 * NUMBER_ROOM) }
        ensures capacity { vec_capacity out.old ≤ vec_capacity out.new }
    {
        push_id(out, self.id);
        push_name(out, &self.arena);
        push_number(out, self.base.get());
        push_number(out, self.len.get());
    }
}

/// `refused C I N WORD`, with the refusal's word.
#[derive(Clone, Copy, Debug, PartialEq, Eq)]
pub struct RefusedRequest {
    pub id: RequestId,
    pub refusal: Refusal,
}

impl RefusedRequest {
    /// The reply of the words after `refused`.
    #[tactic(auto, unfolding(crate::specs::Replies::refused_in))]
    fn read(words: &mut Words<'_>) -> Result<Self, LineFault>
        ensures { result ≡ refused_in words.old }
    {
        let id = IdWords::take(words)?;
        let refusal = refusal(words.take()?)?;
        words.end()?;
        Ok(RefusedRequest {
            id: id.read()?,
            refusal,
        })
    }

    /// Appends the words after `refused`, a space before each.
    fn push(&self, out: &mut Vec<u8>)
        requires { vec_len out.old + (ID_ROOM + 11) ≤ vec_capacity out.old }
        ensures text { out.new.items ≡ out.old.items ++ spaced_text (refused_words self.now) }
        ensures len { vec_len out.new ≤ vec_len out.old + (ID_ROOM + 11) }
        ensures capacity { vec_capacity out.old ≤ vec_capacity out.new }
    {
        push_id(out, self.id);
        push_word(out, word_of(self.refusal));
    }
}

/// `old C V`: the client's incarnation is V, or 0 for a client that never said hello.
#[derive(Clone, Copy, Debug, PartialEq, Eq)]
pub struct Old {
    pub client: ClientId,
    pub current: Quantity,
}

impl Old {
    /// The reply of the words after `old`.
    #[tactic(auto, unfolding(crate::specs::Replies::old_in))]
    fn read(words: &mut Words<'_>) -> Result<Self, LineFault>
        ensures { result ≡ old_in words.old }
    {
        let client_word = words.take()?;
        let current = words.take()?;
        words.end()?;
        Ok(Old {
            client: client(client_word)?,
            current: quantity(current)?,
        })
    }

    /// Appends the words after `old`, a space before each.
    fn push(&self, out: &mut Vec<u8>)
        requires { vec_len out.old + 2 * NUMBER_ROOM ≤ vec_capacity out.old }
        ensures text { out.new.items ≡ out.old.items ++ spaced_text (old_words self.now) }
        ensures len { vec_len out.new ≤ vec_len out.old + 2 * NUMBER_ROOM }
        ensures capacity { vec_capacity out.old ≤ vec_capacity out.new }
    {
        push_number(out, u64::from(self.client.get()));
        push_number(out, self.current.get());
    }
}

/// The number lies outside of the client's window. It is far below V, the greatest settled one, so
/// that its reply isn't kept (`stale C I N V`), or far above V, up to which all are settled
/// (`gap C I N V`). V is 0 where none is. How far is the protocol's to say.
#[derive(Clone, Copy, Debug, PartialEq, Eq)]
pub struct OutOfTurn {
    pub id: RequestId,
    /// V.
    pub last: Quantity,
}

impl OutOfTurn {
    /// What the words after `stale` or `gap` say.
    #[tactic(auto, unfolding(crate::specs::Replies::out_of_turn_in))]
    fn read(words: &mut Words<'_>) -> Result<Self, LineFault>
        ensures { result ≡ out_of_turn_in words.old }
    {
        let id = IdWords::take(words)?;
        let last = words.take()?;
        words.end()?;
        Ok(OutOfTurn {
            id: id.read()?,
            last: quantity(last)?,
        })
    }

    /// Appends the words after `stale` or `gap`, a space before each.
    fn push(&self, out: &mut Vec<u8>)
        requires { vec_len out.old + (ID_ROOM + NUMBER_ROOM) ≤ vec_capacity out.old }
        ensures text { out.new.items ≡ out.old.items ++ spaced_text (out_of_turn_words self.now) }
        ensures len { vec_len out.new ≤ vec_len out.old + (ID_ROOM + NUMBER_ROOM) }
        ensures capacity { vec_capacity out.old ≤ vec_capacity out.new }
    {
        push_id(out, self.id);
        push_number(out, self.last.get());
    }
}

/// `again C I N`: nothing came of the line, out of memory. N is 0 for a hello.
#[derive(Clone, Copy, Debug, PartialEq, Eq)]
pub struct Again {
    pub client: ClientId,
    pub incarnation: Ordinal,
    pub number: Quantity,
}

impl Again {
    /// The reply of the words after `again`.
    #[tactic(auto, unfolding(crate::specs::Replies::again_in))]
    fn read(words: &mut Words<'_>) -> Result<Self, LineFault>
        ensures { result ≡ again_in words.old }
    {
        let client_word = words.take()?;
        let incarnation = words.take()?;
        let number = words.take()?;
        words.end()?;
        Ok(Again {
            client: client(client_word)?,
            incarnation: ordinal(incarnation)?,
            number: quantity(number)?,
        })
    }

    /// Appends the words after `again`, a space before each.
    fn push(&self, out: &mut Vec<u8>)
        requires { vec_len out.old + 3 * NUMBER_ROOM ≤ vec_capacity out.old }
        ensures text { out.new.items ≡ out.old.items ++ spaced_text (again_words self.now) }
        ensures len { vec_len out.new ≤ vec_len out.old + 3 * NUMBER_ROOM }
        ensures capacity { vec_capacity out.old ≤ vec_capacity out.new }
    {
        push_number(out, u64::from(self.client.get()));
        push_number(out, self.incarnation.get());
        push_number(out, self.number.get());
    }

    /// The request that it answers; none where that was a hello.
    fn request(&self) -> Option<RequestId>
        ensures { result ≡ again_request self.now }
    {
        let number = Ordinal::new(self.number.get())?;
        Some(RequestId {
            client: self.client,
            incarnation: self.incarnation,
            number,
        })
    }
}

/// A reply.
#[derive(Clone, Copy, Debug, PartialEq, Eq)]
pub enum Reply {
    Welcome(Welcome),
    Granted(Granted),
    /// `released C I N`: the lease has ended.
    Released(RequestId),
    Refused(RefusedRequest),
    Old(Old),
    Stale(OutOfTurn),
    Gap(OutOfTurn),
    Again(Again),
    /// `error WORD`: the line was none that may stand there, or an operator's that failed.
    Error(ErrorWord),
}

impl Reply {
    /// The reply that these bytes are, or the first reason why they are none, in the order of a
    /// line's reasons. They are given without the line feed. It takes no memory.
    #[tactic(auto, unfolding(crate::specs::Replies::reply_of, crate::specs::Replies::reply_in))]
    pub fn read(bytes: &[u8]) -> Result<Reply, LineFault>
        ensures { result ≡ reply_of bytes.now }
    {
        let mut words = words(bytes)?;
        let Some(first) = words.next() else {
            return Err(LineFault::Word);
        };
        if first == b"welcome".as_slice() {
            Ok(Reply::Welcome(Welcome::read(&mut words)?))
        } else if first == b"granted".as_slice() {
            Ok(Reply::Granted(Granted::read(&mut words)?))
        } else if first == b"released".as_slice() {
            Ok(Reply::Released(released(&mut words)?))
        } else if first == b"refused".as_slice() {
            Ok(Reply::Refused(RefusedRequest::read(&mut words)?))
        } else if first == b"old".as_slice() {
            Ok(Reply::Old(Old::read(&mut words)?))
        } else if first == b"stale".as_slice() {
            Ok(Reply::Stale(OutOfTurn::read(&mut words)?))
        } else if first == b"gap".as_slice() {
            Ok(Reply::Gap(OutOfTurn::read(&mut words)?))
        } else if first == b"again".as_slice() {
            Ok(Reply::Again(Again::read(&mut words)?))
        } else if first == b"error".as_slice() {
            Ok(Reply::Error(error(&mut words)?))
        } else {
            Err(LineFault::Word)
        }
    }

    /// Appends the reply and a line feed. It fails only when out of memory, and never where there
    /// is room for `LINE_ROOM` bytes more.
    pub fn write(&self, out: &mut Vec<u8>) -> Result<(), AllocError>
        ensures ok { OnOk result
            (out.new.items ≡ out.old.items ++ with_line_feed (reply_text self.now)) }
        ensures unchanged { OnErr result (out.new.items ≡ out.old.items) }
        ensures succeeds { vec_len out.old + LINE_ROOM ≤ vec_capacity out.old → IsOk result }
        ensures capacity { vec_capacity out.old ≤ vec_capacity out.new }
    {
        out.reserve(LINE_ROOM)?;
        push_text(out, self.keyword());
        match self {
            Reply::Welcome(welcome) => welcome.push(out),
            Reply::Granted(granted) => granted.push(out),
            Reply::Released(id) => push_id(out, *id),
            Reply::Refused(refused) => refused.push(out),
            Reply::Old(old) => old.push(out),
            Reply::Stale(stale) => stale.push(out),
            Reply::Gap(gap) => gap.push(out),
            Reply::Again(again) => again.push(out),
            Reply::Error(error) => push_word(out, error.word()),
        }
        out.push_reserved(b'\n');
        Ok(())
    }

    /// The first word of the reply.
    fn keyword(&self) -> &'static [u8]
        ensures { result.now ≡ first_reply_word self.now }
    {
        match self {
            Reply::Welcome(_) => b"welcome",
            Reply::Granted(_) => b"granted",
            Reply::Released(_) => b"released",
            Reply::Refused(_) => b"refused",
            Reply::Old(_) => b"old",
            Reply::Stale(_) => b"stale",
            Reply::Gap(_) => b"gap",
            Reply::Again(_) => b"again",
            Reply::Error(_) => b"error",
        }
    }

    /// Nothing came of the request: it may be sent once more.
    pub fn again(id: RequestId) -> Reply
        ensures { result ≡ again_of id }
    {
        Reply::Again(Again {
            client: id.client,
            incarnation: id.incarnation,
            number: id.number.quantity(),
        })
    }

    /// Nothing came of the hello: it may be sent once more.
    pub fn hello_again(hello: &HelloLine) -> Reply
        ensures { result ≡ hello_again_of hello.now }
    {
        Reply::Again(Again {
            client: hello.client,
            incarnation: hello.incarnation,
            number: Quantity::ZERO,
        })
    }

    /// Each of its values is in its range. This does nothing: it is called for its clause.
    pub fn check(&self)
        ensures { IsReply self.now }
    {
        match self {
            Reply::Welcome(welcome) => {
                let _ = welcome.client.get();
                let _ = welcome.incarnation.get();
            }
            Reply::Granted(granted) => {
                granted.id.check();
                let _ = granted.arena.as_slice();
                let _ = granted.base.get();
                let _ = granted.len.get();
            }
            Reply::Released(id) => id.check(),
            Reply::Refused(refused) => refused.id.check(),
            Reply::Old(old) => {
                let _ = old.client.get();
                let _ = old.current.get();
            }
            Reply::Stale(turn) | Reply::Gap(turn) => {
                turn.id.check();
                let _ = turn.last.get();
            }
            Reply::Again(again) => {
                let _ = again.client.get();
                let _ = again.incarnation.get();
                let _ = again.number.get();
            }
            Reply::Error(_) => {}
        }
    }

    /// The client that it names; an `error` names none.
    pub fn client(&self) -> Option<ClientId>
        ensures { result ≡ client_named self.now }
    {
        match self {
            Reply::Welcome(welcome) => Some(welcome.client),
            Reply::Granted(granted) => Some(granted.id.client),
            Reply::Released(id) => Some(id.client),
            Reply::Refused(refused) => Some(refused.id.client),
            Reply::Old(old) => Some(old.client),
            Reply::Stale(turn) | Reply::Gap(turn) => Some(turn.id.client),
            Reply::Again(again) => Some(again.client),
            Reply::Error(_) => None,
        }
    }

    /// The incarnation of the line that it answers; an `old` or `error` names none.
    pub fn incarnation(&self) -> Option<Ordinal>
        ensures { result ≡ incarnation_named self.now }
    {
        match self {
            Reply::Welcome(welcome) => Some(welcome.incarnation),
            Reply::Again(again) => Some(again.incarnation),
            Reply::Granted(granted) => Some(granted.id.incarnation),
            Reply::Released(id) => Some(id.incarnation),
            Reply::Refused(refused) => Some(refused.id.incarnation),
            Reply::Stale(turn) | Reply::Gap(turn) => Some(turn.id.incarnation),
            Reply::Old(_) | Reply::Error(_) => None,
        }
    }

    /// The id of the request that it answers; a reply to a hello, an `old` and an `error` have
    /// none.
    pub fn request(&self) -> Option<RequestId>
        ensures { result ≡ request_named self.now }
    {
        match self {
            Reply::Granted(granted) => Some(granted.id),
            Reply::Released(id) => Some(*id),
            Reply::Refused(refused) => Some(refused.id),
            Reply::Stale(turn) | Reply::Gap(turn) => Some(turn.id),
            Reply::Again(again) => again.request(),
            Reply::Welcome(_) | Reply::Old(_) | Reply::Error(_) => None,
        }
    }
}

/// The request that the words after `released` name.
#[tactic(auto, unfolding(crate::specs::Replies::released_in))]
fn released(words: &mut Words<'_>) -> Result<RequestId, LineFault>
    ensures { result ≡ released_in words.old }
{
    let id = IdWords::take(words)?;
    words.end()?;
    id.read()
}

/// What the one word after `error` says.
#[tactic(auto, unfolding(crate::specs::Replies::error_in))]
fn error(words: &mut Words<'_>) -> Result<ErrorWord, LineFault>
    ensures { result ≡ error_in words.old }
{
    let error = ErrorWord::read(words.take()?)?;
    words.end()?;
    Ok(error)
}

/// What is written of a reply is read as the same reply, and nothing else is. It is one line of a
/// stream.
pub fn reply_law()
    ensures exact { RepliesAreTexts }
    ensures whole { WrittenReplyIsWhole }
{}
