//! Why a call is refused. `S` is the segment, which comes back as it was.

/// Why a segment can't come back to a cache.
pub enum PutFault<S> {
    /// It is no chunk of a slab that is here.
    NotMine(S),
    /// It is a chunk that is at home.
    AtHome(S),
}

/// Why a span can't become a slab.
pub enum AddFault<S> {
    /// Its length isn't the slab size.
    WrongSize(S),
    /// It has a unit in common with a slab that is here. Roots aren't looked at, since no two spans
    /// of an arena overlap.
    Overlaps(S),
    /// Out of memory.
    NoMemory(S),
}
