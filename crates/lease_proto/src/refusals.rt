//! The words of refusals.
ghost use Rattle.std.specs.Prelude.{◌≡◌, ◌≤◌, length};
ghost use Rattle.lease_proto.specs.Replies.{refusal_in, refusal_word};

use crate::faults::LineFault;
use lease_terms::Refusal;

/// The refusal that a word is: `BadLine` where it is none.
pub(crate) fn refusal(word: &[u8]) -> Result<Refusal, LineFault>
    ensures { result ≡ refusal_in word.now }
{
    if word == b"nofit".as_slice() {
        Ok(Refusal::NoFit)
    } else if word == b"badrequest".as_slice() {
        Ok(Refusal::BadRequest)
    } else if word == b"noarena".as_slice() {
        Ok(Refusal::NoArena)
    } else if word == b"notyours".as_slice() {
        Ok(Refusal::NotYours)
    } else if word == b"leases".as_slice() {
        Ok(Refusal::Leases)
    } else {
        Err(LineFault::BadLine)
    }
}

/// The protocol's word for a refusal.
pub(crate) fn word_of(refusal: Refusal) -> &'static [u8]
    ensures text { result.now ≡ refusal_word refusal }
    ensures short { length result.now ≤ 10 }
{
    match refusal {
        Refusal::NoFit => b"nofit",
        Refusal::BadRequest => b"badrequest",
        Refusal::NoArena => b"noarena",
        Refusal::NotYours => b"notyours",
        Refusal::Leases => b"leases",
    }
}
