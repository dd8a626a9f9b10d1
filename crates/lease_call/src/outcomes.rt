//! What a line comes to.
use lease_book::{Answer, HelloFault, Receipt, Welcomed};

/// What a request comes to.
#[derive(Drop)]
pub enum Outcome<D> {
    /// It was settled as it asks: by a grant, or by a release.
    Settled(Receipt<D>),
    /// The book answers otherwise.
    Answered(Answer<D>),
    /// Out of memory: nothing is settled.
    Again,
}

/// What a hello comes to.
#[derive(Drop)]
pub enum Greeting<D> {
    /// It was taken, and no lease of an older incarnation of its client is left.
    Welcome(Welcomed<D>),
    /// It wasn't taken.
    Late(HelloFault<D>),
    /// It was taken, and leases of older incarnations may be left.
    Unswept,
}
