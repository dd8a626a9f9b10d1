//! Numbers with a range. A value out of its range can't be made.
ghost use Rattle.lease_terms.specs.declared.values.TheConstants.{LARGEST, LAST_CLIENT};
ghost use Rattle.std.specs.Prelude.{◌≡◌, ◌≤◌, ◌^◌, ℕ};
ghost use Rattle.std.specs.Option.{SomeIff};
ghost use Rattle.lease_terms.specs.Ranges.{IsClient, IsOrdinal, IsQuantity};

use std::marker::Model;

/// The greatest number that a line may have: 2^62.
pub const LARGEST: u64 = 1 << 62;

/// The greatest client: 2^16.
pub const LAST_CLIENT: u32 = 65536;

/// The two as the rules have them: who changes one changes it here, and nowhere else.
pub fn range_law()
    ensures numbers { LARGEST ≡ 2 ^ 62 }
    ensures clients { LAST_CLIENT ≡ 65536 }
{}

/// A client, 1 to `LAST_CLIENT`.
#[derive(Clone, Copy, Debug, PartialEq, Eq, PartialOrd, Ord, Hash)]
pub struct ClientId {
    id: u32,
}

impl Model for ClientId {
    ghost use Rattle.std.specs.Prelude.{ℕ};
    ghost use Rattle.lease_terms.specs.Ranges.{IsClient};

    ghost Value = { ℕ };

    ghost view = { λ c. c.id };

    ghost invariant = { λ c. IsClient c.id };

    ghost inverse = { λ n. record { id = n } };
}

impl ClientId {
    /// `None` outside 1 to `LAST_CLIENT`.
    pub fn new(value: u32) -> Option<Self>
        ensures { SomeIff result (IsClient value) value }
    {
        if 1 <= value && value <= LAST_CLIENT {
            Some(ClientId { id: value })
        } else {
            None
        }
    }

    /// Its number.
    pub fn get(self) -> u32
        ensures value { result ≡ self }
        ensures range { IsClient self }
    {
        self.id
    }
}

/// An incarnation of a client, or the number of one of its requests: 1 to `LARGEST`.
#[derive(Clone, Copy, Debug, PartialEq, Eq, PartialOrd, Ord)]
pub struct Ordinal {
    number: u64,
}

impl Model for Ordinal {
    ghost use Rattle.std.specs.Prelude.{ℕ};
    ghost use Rattle.lease_terms.specs.Ranges.{IsOrdinal};

    ghost Value = { ℕ };

    ghost view = { λ c. c.number };

    ghost invariant = { λ c. IsOrdinal c.number };

    ghost inverse = { λ n. record { number = n } };
}

impl Ordinal {
    /// `None` outside 1 to `LARGEST`.
    pub fn new(value: u64) -> Option<Self>
        ensures { SomeIff result (IsOrdinal value) value }
    {
        if 1 <= value && value <= LARGEST {
            Some(Ordinal { number: value })
        } else {
            None
        }
    }

    /// Its number.
    pub fn get(self) -> u64
        ensures value { result ≡ self }
        ensures range { IsOrdinal self }
    {
        self.number
    }

    /// The same number, where 0 may stand too.
    pub fn quantity(self) -> Quantity
        ensures { result ≡ self }
    {
        Quantity { units: self.number }
    }
}

/// A unit, a number of units or a bound on them, in units; or the last incarnation or number, with
/// 0 where there was none. 0 to `LARGEST`.
#[derive(Clone, Copy, Debug, PartialEq, Eq, PartialOrd, Ord)]
pub struct Quantity {
    units: u64,
}

impl Model for Quantity {
    ghost use Rattle.std.specs.Prelude.{ℕ};
    ghost use Rattle.lease_terms.specs.Ranges.{IsQuantity};

    ghost Value = { ℕ };

    ghost view = { λ c. c.units };

    ghost invariant = { λ c. IsQuantity c.units };

    ghost inverse = { λ n. record { units = n } };
}

impl Quantity {
    /// No unit.
    pub const ZERO: Quantity = Quantity { units: 0 };

    /// `LARGEST` units: as a bound, none.
    pub const MOST: Quantity = Quantity { units: LARGEST };

    /// `None` above `LARGEST`.
    pub fn new(value: u64) -> Option<Self>
        ensures { SomeIff result (IsQuantity value) value }
    {
        if value <= LARGEST {
            Some(Quantity { units: value })
        } else {
            None
        }
    }

    /// How many units, or which one.
    pub fn get(self) -> u64
        ensures value { result ≡ self }
        ensures range { IsQuantity self }
    {
        self.units
    }
}
