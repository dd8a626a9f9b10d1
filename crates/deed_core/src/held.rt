//! Segments known by their tags.
ghost use Rattle.std.specs.Prelude.{◌≡◌};
ghost use Rattle.deed_core.specs.Extent.{IsRange};
ghost use Rattle.deed_core.specs.Tag.{Tag};

use crate::deeds::Deed;
use crate::ranges::Range;
use crate::segments::{Route, Segment};

/// A segment, known by its tag. Code that passes segments on, and neither splits nor joins them, is
/// generic over this: its contracts then speak of tags alone, whatever the deeds are.
pub trait Held {
    /// The arena, the route, and what the deed covers.
    ghost tag: { Self → Tag };

    /// The number of the arena.
    fn arena(&self) -> u32
        ensures { result ≡ (tag self.now).arena };

    /// The way it was made.
    fn route(&self) -> Route
        ensures { result ≡ (tag self.now).route };

    /// The units that it covers.
    fn range(&self) -> Range
        ensures value { result ≡ (tag self.now).holding.range }
        ensures range { IsRange result };
}

impl<D: Deed> Held for Segment<D> {
    ghost tag = { λ s. s };

    fn arena(&self) -> u32 {
        self.arena()
    }

    fn route(&self) -> Route {
        self.route()
    }

    fn range(&self) -> Range {
        self.range()
    }
}
