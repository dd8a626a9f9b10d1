//! Replies that are kept, and receipts for them.
ghost use Rattle.std.specs.Prelude.{◌≡◌};

use deed_core::{Range, Request};
use lease_terms::{Ordinal, Quantity, Refusal, RequestId};
use std::marker::{Model, PhantomData};

/// The answer to a number that is settled. Bases and lengths are in units.
#[derive(Clone, Copy, PartialEq, Eq, Debug)]
pub enum KeptReply {
    Granted {
        arena: u32,
        base: Quantity,
        len: Quantity,
    },
    /// The lease of the arena with this base was given back.
    Released {
        arena: u32,
        base: Quantity,
    },
    Refused(Refusal),
}

impl KeptReply {
    /// The reply to a request that was granted this range of the arena.
    pub(crate) fn granted(arena: u32, range: &Range) -> KeptReply
        ensures { result ≡ KeptReply.Granted arena range.now.base range.now.len }
    {
        let (base, len) = (range.base(), range.len());
        match (Quantity::new(base), Quantity::new(len)) {
            (Some(base), Some(len)) => KeptReply::Granted { arena, base, len },
            _ => unreachable!(),
        }
    }
}

/// What a grant was made for.
#[derive(Clone, Copy, PartialEq, Eq, Debug)]
pub struct Terms {
    /// The quantum of the arena, in units.
    pub quantum: u64,
    pub request: Request,
}

/// A settled number, with its reply, and for a grant its terms, which it meets.
#[derive(Clone, Copy, PartialEq, Eq, Debug)]
pub(crate) struct Kept {
    number: Ordinal,
    reply: KeptReply,
    terms: Option<Terms>,
}

impl Model for Kept {
    ghost use Rattle.lease_book.specs.Receipts.{Kept, IsEarned};

    ghost Value = { Kept };

    ghost view = { λ k. record { number = k.number; reply = k.reply; terms = k.terms } };

    ghost invariant = { λ k. IsEarned k.reply k.terms };

    ghost inverse = { λ k. record { number = k.number; reply = k.reply; terms = k.terms } };
}

impl Kept {
    ghost use Rattle.lease_book.specs.Receipts.{IsEarned};

    /// A number with what it was settled with: for a grant its terms.
    pub(crate) fn new(number: Ordinal, reply: KeptReply, terms: Option<Terms>) -> Kept
        requires { IsEarned reply terms }
        ensures { result ≡ record { number = number; reply = reply; terms = terms } }
    {
        Kept {
            number,
            reply,
            terms,
        }
    }

    /// The number of the request.
    pub(crate) fn number(&self) -> Ordinal
        ensures { result ≡ self.now.number }
    {
        self.number
    }
}

/// How a book settled a request. Only a book makes one. `D` is the type of its deeds.
#[derive_where(Clone, Copy, PartialEq, Eq, Debug)]
pub struct Receipt<D> {
    book: u32,
    id: RequestId,
    reply: KeptReply,
    terms: Option<Terms>,
    of: PhantomData<D>,
}

impl<D> Model for Receipt<D> {
    ghost use Rattle.lease_book.specs.Receipts.{ReceiptState, IsEarned};

    ghost Value = { ReceiptState };

    ghost view = { λ r. record { book = r.book; id = r.id; reply = r.reply; terms = r.terms } };

    ghost invariant = { λ r. IsEarned r.reply r.terms };

    ghost inverse = { λ s. record {
      book = s.book;
      id = s.id;
      reply = s.reply;
      terms = s.terms;
      of = record {};
    } };
}

impl<D> Receipt<D> {
    ghost use Rattle.lease_book.specs.Receipts.{IsEarned};
    ghost use Rattle.lease_terms.specs.Requests.{IsRequestId};

    /// The receipt for a request, by what is kept of its number.
    pub(crate) fn new(book: u32, id: RequestId, kept: Kept) -> Receipt<D>
        ensures value { result ≡ record {
          book = book;
          id = id;
          reply = kept.reply;
          terms = kept.terms;
        } }
        ensures earned { IsEarned kept.reply kept.terms }
    {
        Receipt {
            book,
            id,
            reply: kept.reply,
            terms: kept.terms,
            of: PhantomData,
        }
    }

    /// The number of the root of the book's mark.
    pub fn book(&self) -> u32
        ensures { result ≡ self.now.book }
    {
        self.book
    }

    /// The request that was settled.
    pub fn id(&self) -> RequestId
        ensures value { result ≡ self.now.id }
        ensures range { IsRequestId result }
    {
        self.id.check();
        self.id
    }

    /// The reply, which a request that comes again gets too.
    pub fn reply(&self) -> KeptReply
        ensures value { result ≡ self.now.reply }
        ensures earned { IsEarned result self.now.terms }
    {
        self.reply
    }

    /// What a grant was made for; nothing for another reply.
    pub fn terms(&self) -> Option<Terms>
        ensures value { result ≡ self.now.terms }
        ensures earned { IsEarned self.now.reply result }
    {
        self.terms
    }
}
