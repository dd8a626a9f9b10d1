//! What happened to a book, as a world stores it.
ghost use Rattle.std.specs.Prelude.{◌≡◌};

use deed_core::{Deed, Route, Segment};
use lease_book::Terms;
use lease_terms::{ClientId, Ordinal, Protocol, Quantity, Refusal, RequestId};
use std::marker::Model;

/// What is seen of a segment, which itself is elsewhere.
#[derive(Clone, Copy)]
pub struct Label {
    arena: u32,
    route: Route,
    root: u32,
    base: u64,
    len: u64,
}

impl Model for Label {
    ghost use Rattle.deed_core.specs.Tag.{Tag};

    ghost Value = { Tag };

    ghost view = { λ l. record {
      arena = l.arena;
      route = l.route;
      holding = record { root = l.root; range = record { base = l.base; len = l.len } };
    } };

    ghost inverse = { λ t. record {
      arena = t.arena;
      route = t.route;
      root = t.holding.root;
      base = t.holding.range.base;
      len = t.holding.range.len;
    } };
}

impl Label {
    /// What is seen of this segment.
    pub fn of<D: Deed>(segment: &Segment<D>) -> Label
        ensures { result ≡ segment.now }
    {
        let range = segment.range();
        Label {
            arena: segment.arena(),
            route: segment.route(),
            root: segment.root(),
            base: range.base(),
            len: range.len(),
        }
    }

    /// The number of its arena.
    pub fn arena(&self) -> u32
        ensures { result ≡ self.now.arena }
    {
        self.arena
    }

    /// Where it came from.
    pub fn route(&self) -> Route
        ensures { result ≡ self.now.route }
    {
        self.route
    }

    /// How many units it has.
    pub fn len(&self) -> u64
        ensures { result ≡ self.now.holding.range.len }
    {
        self.len
    }
}

/// An entry.
#[derive(Clone, Copy)]
pub enum Logged {
    Hello {
        client: ClientId,
        incarnation: Ordinal,
        protocol: Protocol,
    },
    Granted {
        id: RequestId,
        segment: Label,
        terms: Terms,
    },
    Released {
        id: RequestId,
        arena: u32,
        base: Quantity,
    },
    Refused {
        id: RequestId,
        refusal: Refusal,
    },
    Swept {
        client: ClientId,
        incarnation: Ordinal,
        arena: u32,
        base: u64,
    },
}
