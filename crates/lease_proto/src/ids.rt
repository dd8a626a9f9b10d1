//! The id of a request among the words of a line.
ghost use Rattle.std.specs.Prelude.{◌≡◌, ℕ, List, Ok, Err, MatchResult};
ghost use Rattle.lease_proto.specs.Values.{id_in};
ghost use Rattle.lease_proto.specs.Grammar.{id_at};

use crate::faults::LineFault;
use crate::numbers::{client, ordinal};
use crate::sentences::Words;
use lease_terms::RequestId;
use std::marker::Model;

/// The three words `C I N` of an id, not yet looked at: a line's shape is refused before any
/// number.
#[derive(Drop)]
pub(crate) struct IdWords<'a> {
    client: &'a [u8],
    incarnation: &'a [u8],
    number: &'a [u8],
}

impl<'a> Model for IdWords<'a> {
    ghost Value = { List ℕ × List ℕ × List ℕ };

    ghost view = { λ w. (w.client.now, w.incarnation.now, w.number.now) };
}

impl<'a> IdWords<'a> {
    /// The next three words: `BadLine` where the line has fewer left.
    #[tactic(auto, unfolding(crate::specs::Grammar::id_at))]
    pub(crate) fn take(words: &mut Words<'a>) -> Result<IdWords<'a>, LineFault>
        ensures { MatchResult result
            (λ id. id_at words.old ≡ Ok (id, words.new))
            (λ fault. id_at words.old ≡ Err fault) }
    {
        Ok(IdWords {
            client: words.take()?,
            incarnation: words.take()?,
            number: words.take()?,
        })
    }

    /// The id that they write: `Number` where one of them writes no number in its range.
    #[tactic(auto, unfolding(crate::specs::Values::id_in))]
    pub(crate) fn read(self) -> Result<RequestId, LineFault>
        ensures { result ≡ id_in self.entry }
    {
        Ok(RequestId {
            client: client(self.client)?,
            incarnation: ordinal(self.incarnation)?,
            number: ordinal(self.number)?,
        })
    }
}
