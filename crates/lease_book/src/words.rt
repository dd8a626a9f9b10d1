//! What a book says that no receipt tells. Only a book makes these values: who has one has asked a
//! book. `D` is the type of its deeds.
ghost use Rattle.std.specs.Prelude.{◌≡◌};

use lease_terms::{ClientId, Ordinal, Protocol, Quantity, RequestId};
use std::marker::{Model, PhantomData};

/// Says of a number that it is a client's current incarnation, or 0 where it never said hello.
pub struct Current;

/// Says of a number that it is the greatest settled one of an incarnation.
pub struct Greatest;

/// Says of a number that it is the one of an incarnation up to which all are settled.
pub struct Low;

/// A number that a book has on a client; `W` says which.
#[derive_where(Clone, Copy, PartialEq, Eq, Debug)]
pub struct BookNumber<W, D> {
    number: Quantity,
    of: PhantomData<(W, D)>,
}

impl<W, D> Model for BookNumber<W, D> {
    ghost use Rattle.std.specs.Prelude.{ℕ};

    ghost Value = { ℕ };

    ghost view = { λ n. n.number };

    ghost inverse = { λ n. record { number = n; of = record {} } };
}

impl<W, D> BookNumber<W, D> {
    /// The number, as a book has it.
    pub(crate) fn told(number: Quantity) -> BookNumber<W, D>
        ensures { result ≡ number }
    {
        BookNumber {
            number,
            of: PhantomData,
        }
    }

    /// The number alone.
    pub fn number(&self) -> Quantity
        ensures { result ≡ self.now }
    {
        self.number
    }
}

/// A hello that a book took, and the protocol that stands for its incarnation.
#[derive_where(Clone, Copy, PartialEq, Eq, Debug)]
pub struct Taken<D> {
    client: ClientId,
    incarnation: Ordinal,
    protocol: Protocol,
    of: PhantomData<D>,
}

impl<D> Model for Taken<D> {
    ghost use Rattle.lease_book.specs.Words.{Greeted};

    ghost Value = { Greeted };

    ghost view = { λ t. record {
      client = t.client;
      incarnation = t.incarnation;
      protocol = t.protocol;
    } };

    ghost inverse = { λ g. record {
      client = g.client;
      incarnation = g.incarnation;
      protocol = g.protocol;
      of = record {};
    } };
}

impl<D> Taken<D> {
    /// The client's hello with this incarnation, where this protocol stands.
    pub(crate) fn by(client: ClientId, incarnation: Ordinal, protocol: Protocol) -> Taken<D>
        ensures { result ≡ record {
          client = client;
          incarnation = incarnation;
          protocol = protocol;
        } }
    {
        Taken {
            client,
            incarnation,
            protocol,
            of: PhantomData,
        }
    }

    /// Whose hello it is.
    pub fn client(&self) -> ClientId
        ensures { result ≡ self.now.client }
    {
        self.client
    }

    /// The protocol that stands.
    pub fn protocol(&self) -> Protocol
        ensures { result ≡ self.now.protocol }
    {
        self.protocol
    }
}

/// A hello that a book took, and after which a sweep of its client found no lease of an older
/// incarnation.
#[derive_where(Clone, Copy, PartialEq, Eq, Debug)]
pub struct Welcomed<D> {
    taken: Taken<D>,
}

impl<D> Model for Welcomed<D> {
    ghost use Rattle.lease_book.specs.Words.{Greeted};

    ghost Value = { Greeted };

    ghost view = { λ w. w.taken };

    ghost inverse = { λ g. record { taken = g } };
}

impl<D> Welcomed<D> {
    /// By the hello, after which none was found.
    pub(crate) fn after(taken: &Taken<D>) -> Welcomed<D>
        ensures { result ≡ taken.now }
    {
        Welcomed {
            taken: Taken::by(taken.client, taken.incarnation, taken.protocol),
        }
    }

    /// The protocol that stands.
    pub fn protocol(&self) -> Protocol
        ensures { result ≡ self.now.protocol }
    {
        self.taken.protocol()
    }
}

/// What a sweep after a client's hello comes to.
pub enum SweepEnd<S, D> {
    /// A lease of an older incarnation ended, which this request was granted.
    Ended(RequestId, S),
    /// None is left: the client is welcome.
    Welcome(Welcomed<D>),
}
