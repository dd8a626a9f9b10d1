//! Writing words into a buffer that has room for them.
ghost use Rattle.std.specs.Prelude.{◌≡◌, ◌≤◌, ◌+◌, ◌∷◌, ◌++◌, length, decimal, vec_len};
ghost use Rattle.std.specs.List.{flat_map};
ghost use Rattle.std.specs.Vec.{vec_capacity};
ghost use Rattle.lease_proto.specs.declared.writing.TheConstants.{NUMBER_ROOM, ID_ROOM, NAME_ROOM};
ghost use Rattle.lease_proto.specs.Texts.{option_words, id_words, spaced_text};

use itoa::Buffer;
use lease_terms::{ArenaName, LONGEST_NAME, Quantity, RequestId};

/// Room for a space and a number.
pub(crate) const NUMBER_ROOM: usize = 21;

/// Room for the id of a request.
pub(crate) const ID_ROOM: usize = 3 * NUMBER_ROOM;

/// Room for a space and a name.
pub(crate) const NAME_ROOM: usize = LONGEST_NAME + 1;

/// Text, as it is.
pub(crate) fn push_text(out: &mut Vec<u8>, text: &[u8])
    requires { vec_len out.old + length text.now ≤ vec_capacity out.old }
    ensures text { out.new.items ≡ out.old.items ++ text.now }
    ensures len { vec_len out.new ≡ vec_len out.old + length text.now }
    ensures capacity { vec_capacity out.old ≤ vec_capacity out.new }
{
    match out.extend_from_slice(text) {
        Ok(()) => {}
        Err(_) => unreachable!(),
    }
}

/// A space and a word.
#[inline(always)]
pub(crate) fn push_word(out: &mut Vec<u8>, word: &[u8])
    requires { vec_len out.old + (length word.now + 1) ≤ vec_capacity out.old }
    ensures text { out.new.items ≡ out.old.items ++ (32 ∷ word.now) }
    ensures len { vec_len out.new ≡ vec_len out.old + (length word.now + 1) }
    ensures capacity { vec_capacity out.old ≤ vec_capacity out.new }
{
    out.push_reserved(b' ');
    push_text(out, word);
}

/// A space and a name.
pub(crate) fn push_name(out: &mut Vec<u8>, name: &ArenaName)
    requires { vec_len out.old + NAME_ROOM ≤ vec_capacity out.old }
    ensures text { out.new.items ≡ out.old.items ++ (32 ∷ name.now) }
    ensures len { vec_len out.new ≤ vec_len out.old + NAME_ROOM }
    ensures capacity { vec_capacity out.old ≤ vec_capacity out.new }
{
    push_word(out, name.as_slice());
}

/// A space and a number. One digit needs no buffer.
#[tactic(auto, using(crate::proofs::WordLemmas::one_digit))]
pub(crate) fn push_number(out: &mut Vec<u8>, number: u64)
    requires { vec_len out.old + NUMBER_ROOM ≤ vec_capacity out.old }
    ensures text { out.new.items ≡ out.old.items ++ (32 ∷ decimal number) }
    ensures len { vec_len out.new ≤ vec_len out.old + NUMBER_ROOM }
    ensures capacity { vec_capacity out.old ≤ vec_capacity out.new }
{
    if number < 10 {
        out.push_reserved(b' ');
        out.push_reserved(b'0' + number as u8);
    } else {
        let mut buffer = Buffer::new();
        push_word(out, buffer.format(number).as_bytes());
    }
}

/// A request's id: a space and a number, three times.
pub(crate) fn push_id(out: &mut Vec<u8>, id: RequestId)
    requires { vec_len out.old + ID_ROOM ≤ vec_capacity out.old }
    ensures text { out.new.items ≡ out.old.items ++ spaced_text (id_words id) }
    ensures len { vec_len out.new ≤ vec_len out.old + ID_ROOM }
    ensures capacity { vec_capacity out.old ≤ vec_capacity out.new }
{
    push_number(out, u64::from(id.client.get()));
    push_number(out, id.incarnation.get());
    push_number(out, id.number.get());
}

/// An option, which is left out at the value of no constraint.
pub(crate) fn push_option(out: &mut Vec<u8>, key: &[u8], default: Quantity, value: Quantity)
    requires { vec_len out.old + (length key.now + 1 + NUMBER_ROOM) ≤ vec_capacity out.old }
    ensures text { out.new.items
        ≡ out.old.items ++ flat_map (λ word. 32 ∷ word) (option_words key.now default value) }
    ensures len { vec_len out.new ≤ vec_len out.old + (length key.now + 1 + NUMBER_ROOM) }
    ensures capacity { vec_capacity out.old ≤ vec_capacity out.new }
{
    if value.get() != default.get() {
        push_word(out, key);
        push_number(out, value.get());
    }
}
