//! The word that tells of a protocol.
ghost use Rattle.std.specs.Prelude.{◌≡◌, ◌≤◌, ◌+◌, ◌*◌, ◌++◌, vec_len};
ghost use Rattle.std.specs.Vec.{vec_capacity};
ghost use Rattle.lease_proto.specs.Grammar.{protocol_in};
ghost use Rattle.lease_proto.specs.Texts.{protocol_words, spaced_text};
ghost use Rattle.lease_proto.specs.declared.protocols.TheConstants.{PROTOCOL_ROOM};

use crate::faults::LineFault;
use crate::sentences::Words;
use crate::writing::{NUMBER_ROOM, push_word};
use lease_terms::Protocol;

/// Room for a space and the word of a protocol.
const PROTOCOL_ROOM: usize = 2;

/// Room for the words of a hello after the first, and for those of a welcome.
pub(crate) const HELLO_ROOM: usize = 2 * NUMBER_ROOM + PROTOCOL_ROOM;

/// The protocol that the words left say, which are the last: none is the first protocol, and `2`
/// the second. `Number` where it is another word, and `BadLine` where they are more.
pub(crate) fn protocol(words: &mut Words<'_>) -> Result<Protocol, LineFault>
    ensures { result ≡ protocol_in words.old }
{
    let Some(word) = words.next() else {
        return Ok(Protocol::One);
    };
    words.end()?;
    if word == b"2".as_slice() {
        Ok(Protocol::Two)
    } else {
        Err(LineFault::Number)
    }
}

/// The word of a protocol with a space before it, where it has one.
pub(crate) fn push_protocol(out: &mut Vec<u8>, protocol: Protocol)
    requires { vec_len out.old + PROTOCOL_ROOM ≤ vec_capacity out.old }
    ensures text { out.new.items ≡ out.old.items ++ spaced_text (protocol_words protocol) }
    ensures len { vec_len out.new ≤ vec_len out.old + PROTOCOL_ROOM }
    ensures capacity { vec_capacity out.old ≤ vec_capacity out.new }
{
    match protocol {
        Protocol::One => {}
        Protocol::Two => push_word(out, b"2"),
    }
}
