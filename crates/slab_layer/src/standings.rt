//! How a slab stands.
ghost use Rattle.std.specs.Prelude.{◌≡◌};
ghost use Rattle.slab_layer.specs.Standings.{lists_partial, lists_complete};

/// Whether none, some or all of a slab's chunks are at home.
#[derive(Clone, Copy, Debug)]
pub(crate) enum Standing {
    AllOut,
    Partial,
    Complete,
}

impl Standing {
    /// Whether a slab that stands so is listed as partial.
    pub(crate) fn is_partial(self) -> bool
        ensures { result ≡ lists_partial self }
    {
        matches!(self, Standing::Partial)
    }

    /// Whether a slab that stands so is listed as complete.
    pub(crate) fn is_complete(self) -> bool
        ensures { result ≡ lists_complete self }
    {
        matches!(self, Standing::Complete)
    }
}
