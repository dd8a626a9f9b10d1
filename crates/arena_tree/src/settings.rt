//! What a setup is asked for. Bases, lengths and sizes are in units.
use lease_terms::ArenaName;
use tag_arena::Policy;

/// An arena with one owned span.
#[derive(Clone, Copy, Debug, PartialEq, Eq)]
pub struct NewRoot {
    pub name: ArenaName,
    pub base: u64,
    pub len: u64,
    pub quantum: u64,
    pub policy: Policy,
    /// The greatest size that has a cache, or 0 for none.
    pub qcache_max: u64,
}

/// An arena that imports its spans from a source.
#[derive(Clone, Copy, Debug, PartialEq, Eq)]
pub struct NewChild {
    pub name: ArenaName,
    pub source: ArenaName,
    pub quantum: u64,
    pub policy: Policy,
    /// As of a root.
    pub qcache_max: u64,
    /// The least that it imports at a time; it may be 0.
    pub import_min: u64,
}

/// A further owned span of a root.
#[derive(Clone, Copy, Debug, PartialEq, Eq)]
pub struct NewSpan {
    /// The root's name.
    pub name: ArenaName,
    pub base: u64,
    pub len: u64,
}

/// What a line of a setup asks for.
#[derive(Clone, Copy, Debug, PartialEq, Eq)]
pub enum Setting {
    Root(NewRoot),
    Child(NewChild),
    Span(NewSpan),
}
