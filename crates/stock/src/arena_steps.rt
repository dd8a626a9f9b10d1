//! The events on an arena: carve, free, add_carve.
ghost use Rattle.std.specs.Prelude.{◌≡◌, ◌<◌, List, [], ◌∷◌, length, slice_get, Some, IsOk};
ghost use Rattle.deed_core.specs.Tag.{Tag};
ghost use Rattle.tag_arena.specs.Outcomes.{CarveOf, ImportOf};
ghost use Rattle.stock.specs.Spaces.{SpaceState, plans_of};
ghost use Rattle.stock.specs.Accounts.{Accounts, Frames};
ghost use Rattle.stock.specs.Steps.{OnArena, FreeIn, CanImport};
ghost use Rattle.stock.specs.Answers.{hand_after_carve, hand_after_free, hand_after_import};
ghost use Rattle.stock.specs.Answers.{OnlyForMemory};

use crate::stocks::Stock;
use deed_core::{Deed, Request, Route, Segment};
use tag_arena::{ArenaFault, SpanFault};

impl<D: Deed> Stock<D> {
    /// Carves what the policy of the arena at the index chooses for the request.
    pub fn carve(&mut self, arena: usize, request: &Request) -> Result<Segment<D>, ArenaFault>
        requires within { arena < length self.old }
        ensures carved { OnArena arena (λ a b. CarveOf a request.now result b) self.old self.new }
        ensures frame { Frames self.old [] self.new (hand_after_carve result) }
        ensures fixed { plans_of self.new ≡ plans_of self.old }
    {
        let space = &mut self.spaces[arena];
        space.arena.xalloc(request)
    }

    /// Goes to the allocated range of an arena at a base. It is for speed alone.
    pub fn go_to(&mut self, arena: usize, base: u64)
        requires within { arena < length self.old }
        ensures unchanged { self.new ≡ self.old }
    {
        self.spaces[arena].arena.go_to(base);
    }

    /// Frees a segment in the arena that it names. An imported span that became whole comes out, to
    /// be freed in its source. It takes no memory, and refuses no Direct segment that is out.
    pub fn free(&mut self, segment: Segment<D>) -> Result<Option<Segment<D>>, Segment<D>>
        ensures freed { FreeIn self.old segment result self.new }
        ensures frame { Frames self.old (segment ∷ []) self.new (hand_after_free result) }
        ensures fixed { plans_of self.new ≡ plans_of self.old }
        ensures never { segment.route ≡ Route.Direct → (rest : List Tag)
            → Accounts self.old (segment ∷ rest) → IsOk result }
    {
        let index = segment.arena() as usize;
        if index >= self.spaces.len() {
            return Err(segment);
        }
        let space = &mut self.spaces[index];
        space.arena.free(segment)
    }

    /// Adds a span of its source to the arena at the index, and carves its first units for the
    /// request. A span that is out is refused only where it is out of memory.
    pub fn add_carve(
        &mut self,
        child: usize,
        span: Segment<D>,
        request: &Request,
    ) -> Result<Segment<D>, SpanFault<Segment<D>>>
        requires within { child < length self.old }
        requires can { (s : SpaceState) → slice_get self.old child ≡ Some s
            → CanImport request.now span s }
        ensures carved { OnArena child (λ a b. ImportOf a span request.now result b)
            self.old self.new }
        ensures frame { Frames self.old (span ∷ []) self.new (hand_after_import result) }
        ensures fixed { plans_of self.new ≡ plans_of self.old }
        ensures never { (rest : List Tag) → Accounts self.old (span ∷ rest)
            → OnlyForMemory result }
    {
        let space = &mut self.spaces[child];
        space.arena.add_span_and_carve(span, request)
    }
}
