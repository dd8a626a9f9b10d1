//! The names of arenas.
ghost use Rattle.lease_terms.specs.declared.names.TheConstants.{LONGEST_NAME};
ghost use Rattle.std.specs.Prelude.{◌≡◌, true};
ghost use Rattle.std.specs.Option.{SomeIff};
ghost use Rattle.lease_terms.specs.Names as spec;

use std::marker::Model;

/// The longest name, in bytes.
pub const LONGEST_NAME: usize = 16;

/// That length as the rules have it: who changes it changes it here, and nowhere else.
pub fn name_law()
    ensures { LONGEST_NAME ≡ 16 }
{}

/// The name of an arena: 1 to `LONGEST_NAME` of the letters a to z and the digits, the first a
/// letter.
#[derive(Clone, Copy, Debug, PartialEq, Eq)]
pub struct ArenaName {
    // The bytes past the name's are 0.
    bytes: [u8; LONGEST_NAME],
    len: usize,
}

impl Model for ArenaName {
    ghost use Rattle.std.specs.Prelude.{ℕ, List};

    ghost Value = { List ℕ };

    ghost use Rattle.lease_terms.specs.Padding.{name_text, IsPadded, inside_of};
    ghost use Rattle.lease_terms.specs.Padding.{inside_of-name_text};

    ghost view = { name_text };

    ghost invariant = { IsPadded };

    ghost inverse = { inside_of };

    ghost inverse_ok = { inside_of-name_text };
}

impl ArenaName {
    /// The name of this text, or `None` where it is no name.
    pub fn new(text: &[u8]) -> Option<Self>
        ensures { SomeIff result (spec.is_name text.now ≡ true) text.now }
    {
        if !is_name(text) {
            return None;
        }
        let mut bytes = [0; LONGEST_NAME];
        let len = text.len();
        bytes[..len].copy_from_slice(text);
        Some(ArenaName { bytes, len })
    }

    /// Its text, 1 to `LONGEST_NAME` bytes.
    pub fn as_slice(&self) -> &[u8]
        ensures value { result.now ≡ self.now }
        ensures name { spec.is_name self.now ≡ true }
    {
        &self.bytes[..self.len]
    }
}

/// Whether these bytes are a name.
pub fn is_name(text: &[u8]) -> bool
    ensures { result ≡ spec.is_name text.now }
{
    is_word(text) && is_letter(text[0]) && text.len() <= LONGEST_NAME
}

/// Whether these bytes are a word: one or more of the letters a to z and the digits.
fn is_word(text: &[u8]) -> bool
    ensures { result ≡ spec.is_word text.now }
{
    for byte in text {
        if !is_word_byte(*byte) {
            return false;
        }
    }
    !text.is_empty()
}

/// Whether a byte is one of the letters a to z, with which a name begins.
fn is_letter(byte: u8) -> bool
    ensures { result ≡ spec.is_letter byte }
{
    byte.is_ascii_lowercase()
}

/// Whether a byte may stand in a word.
pub fn is_word_byte(byte: u8) -> bool
    ensures { result ≡ spec.is_word_byte byte }
{
    is_letter(byte) || byte.is_ascii_digit()
}
