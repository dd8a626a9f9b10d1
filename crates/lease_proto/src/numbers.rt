//! Numbers: decimal digits without a leading zero, at most 2^62.
ghost use Rattle.std.specs.Prelude.{◌≡◌, ◌≤◌, IfSome, IfOk};
ghost use Rattle.lease_terms.specs.declared.values.TheConstants.{LARGEST};
ghost use Rattle.lease_proto.specs.Words.{number_in, NumbersAreDecimal};
ghost use Rattle.lease_proto.specs.Values.{client_in, ordinal_in, quantity_in};

use crate::faults::LineFault;
use lease_terms::{ClientId, LARGEST, Ordinal, Quantity};

/// The number that a word writes, 0 to 2^62, or `Number` where it writes none.
pub(crate) fn number(word: &[u8]) -> Result<u64, LineFault>
    ensures value { result ≡ quantity_in word.now }
    ensures fits { IfOk result (λ n. n ≤ LARGEST) }
{
    match value_of(word) {
        Some(value) => Ok(value),
        None => Err(LineFault::Number),
    }
}

/// The number that a word writes, 0 to 2^62, or `None` where it writes none.
pub fn value_of(word: &[u8]) -> Option<u64>
    ensures value { result ≡ number_in word.now }
    ensures fits { IfSome result (λ n. n ≤ LARGEST) }
{
    if word.is_empty() || (word.len() > 1 && word[0] == b'0') {
        return None;
    }
    let mut value = 0u64;
    for digit in word {
        if !digit.is_ascii_digit() {
            return None;
        }
        if value > LARGEST / 10 {
            return None;
        }
        value = value * 10 + u64::from(*digit - b'0');
    }
    if value <= LARGEST { Some(value) } else { None }
}

/// The client that a word writes, 1 to `LAST_CLIENT`, or `Number` where it writes none.
pub(crate) fn client(word: &[u8]) -> Result<ClientId, LineFault>
    ensures { result ≡ client_in word.now }
{
    let value = number(word)?;
    match u32::try_from(value).ok().and_then(ClientId::new) {
        Some(client) => Ok(client),
        None => Err(LineFault::Number),
    }
}

/// The incarnation, or the number of a request, that a word writes: 1 to 2^62, or `Number` where it
/// writes none.
pub(crate) fn ordinal(word: &[u8]) -> Result<Ordinal, LineFault>
    ensures { result ≡ ordinal_in word.now }
{
    match Ordinal::new(number(word)?) {
        Some(ordinal) => Ok(ordinal),
        None => Err(LineFault::Number),
    }
}

/// The quantity that a word writes, 0 to 2^62, or `Number` where it writes none.
pub(crate) fn quantity(word: &[u8]) -> Result<Quantity, LineFault>
    ensures { result ≡ quantity_in word.now }
{
    match Quantity::new(number(word)?) {
        Some(quantity) => Ok(quantity),
        None => Err(LineFault::Number),
    }
}

/// A word writes a number just where it is that number's decimal digits.
pub fn number_law()
    ensures { NumbersAreDecimal }
{}
