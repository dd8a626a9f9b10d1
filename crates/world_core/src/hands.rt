//! What a CPU has in its hand.
ghost use Rattle.std.specs.Prelude.{◌≡◌, Option, Some, None, IfSome, IfNone, set, slice_get};
ghost use Rattle.deed_core.specs.Tag.{Tag};
ghost use Rattle.world_core.specs.Events.{HasInHand};

use crate::logs::Label;
use crate::parts::WorldParts;
use deed_core::{Deed, Route, Segment};
use std::mem;

/// Puts the segment into the CPU's empty hand.
pub(crate) fn put<D: Deed>(hands: &mut Vec<Option<Segment<D>>>, cpu: usize, segment: Segment<D>)
    requires empty { slice_get hands.old.items cpu ≡ Some None }
    ensures { hands.new.items ≡ set hands.old.items cpu (Some segment) }
{
    match mem::replace(&mut hands[cpu], Some(segment)) {
        None => {}
        Some(_) => unreachable!(),
    }
}

/// Puts what a part answered, if it did, into the CPU's empty hand.
pub(crate) fn put_answer<D: Deed>(
    hands: &mut Vec<Option<Segment<D>>>,
    cpu: usize,
    answer: Option<Segment<D>>,
)
    requires empty { slice_get hands.old.items cpu ≡ Some None }
    ensures { hands.new.items ≡ set hands.old.items cpu answer }
{
    match mem::replace(&mut hands[cpu], answer) {
        None => {}
        Some(_) => unreachable!(),
    }
}

/// Takes the segment out of the CPU's hand, which has one.
pub(crate) fn take<D: Deed>(hands: &mut Vec<Option<Segment<D>>>, cpu: usize) -> Segment<D>
    requires held { (t : Tag) × (slice_get hands.old.items cpu ≡ Some (Some t)) }
    ensures emptied { hands.new.items ≡ set hands.old.items cpu None }
    ensures held { slice_get hands.old.items cpu ≡ Some (Some result) }
{
    match mem::replace(&mut hands[cpu], None) {
        Some(segment) => segment,
        None => unreachable!(),
    }
}

impl<D: Deed> WorldParts<D> {
    /// What is seen of the segment in the CPU's hand.
    pub(crate) fn seen_in_hand(&self, cpu: usize) -> Option<Label>
        ensures some { IfSome result (λ t. HasInHand self.now cpu (Some t)) }
        ensures none { IfNone result ((t : Tag) → ¬ HasInHand self.now cpu (Some t)) }
    {
        let segment = self.in_hand(cpu)?;
        Some(Label::of(segment))
    }

    /// The same where it came direct from its arena.
    pub(crate) fn direct_in_hand(&self, cpu: usize) -> Option<Label>
        ensures some { IfSome result
            (λ t. HasInHand self.now cpu (Some t) × (t.route ≡ Route.Direct)) }
        ensures none { IfNone result ((t : Tag)
            → HasInHand self.now cpu (Some t) → ¬ (t.route ≡ Route.Direct)) }
    {
        let segment = self.seen_in_hand(cpu)?;
        match segment.route() {
            Route::Direct => return Some(segment),
            Route::Cached(_) => return None,
        }
    }
}
