//! Edits of a depot's lists.
ghost use Rattle.std.specs.Prelude.{◌≡◌, ◌+◌, ◌-◌, ◌<◌, ◌≤◌, [], ◌∷◌, drop, All, OnOk};
ghost use Rattle.std.specs.VecDeque.{deque_capacity, deque_len};

use crate::full_magazines::FullMagazine;
use crate::magazines::{Magazine, discard_empty};
use deed_core::{Deed, Segment};
use std::alloc::AllocError;
use std::collections::VecDeque;
use std::mem;

/// Ends the first `count` magazines of a list, none of which has a round.
pub(crate) fn discard_oldest<D: Deed>(empty: &mut VecDeque<Magazine<D>>, count: usize)
    requires none { All (λ m. m.rounds ≡ []) empty.old.items }
    requires count { count ≤ deque_len empty.old }
    ensures items { empty.new.items ≡ drop count empty.old.items }
    ensures len { deque_len empty.new ≡ deque_len empty.old - count }
    ensures capacity { deque_capacity empty.new ≡ deque_capacity empty.old }
{
    for done in 0..count {
        discard_empty(take_first(empty));
    }
}

/// Takes the first of a list, without a move of the others.
pub(crate) fn take_first<T>(items: &mut VecDeque<T>) -> T
    requires { 0 < deque_len items.old }
    ensures items { items.old.items ≡ result ∷ items.new.items }
    ensures len { deque_len items.new + 1 ≡ deque_len items.old }
    ensures capacity { deque_capacity items.new ≡ deque_capacity items.old }
{
    items.pop_front().unwrap()
}

/// Has a full magazine drained.
pub(crate) fn drain<D: Deed>(draining: &mut Vec<Segment<D>>, magazine: FullMagazine<D>)
    requires { draining.old.items ≡ [] }
    ensures { draining.new.items ≡ magazine }
{
    let rounds = magazine.into_magazine().into_rounds();
    let drained = mem::replace(draining, rounds);
    drained.destroy_empty();
}

/// Makes room for one more full magazine, wherever it goes later.
pub(crate) fn reserve_one<D: Deed>(
    full: &mut VecDeque<FullMagazine<D>>,
    empty: &mut VecDeque<Magazine<D>>,
    old_full: &mut VecDeque<FullMagazine<D>>,
) -> Result<(), AllocError>
    requires { deque_len full.old + deque_len empty.old ≤ deque_capacity full.old }
    ensures full_items { full.new.items ≡ full.old.items }
    ensures full_len { deque_len full.new ≡ deque_len full.old }
    ensures full_room { OnOk result
        (deque_len full.old + deque_len empty.old + 1 ≤ deque_capacity full.new) }
    ensures full_keeps { deque_capacity full.old ≤ deque_capacity full.new }
    ensures empty_items { empty.new.items ≡ empty.old.items }
    ensures empty_len { deque_len empty.new ≡ deque_len empty.old }
    ensures empty_room { OnOk result
        (deque_len full.old + deque_len empty.old + 1 ≤ deque_capacity empty.new) }
    ensures empty_keeps { deque_capacity empty.old ≤ deque_capacity empty.new }
    ensures old_items { old_full.new.items ≡ old_full.old.items }
    ensures old_len { deque_len old_full.new ≡ deque_len old_full.old }
    ensures old_room { OnOk result
        (deque_len old_full.old + (deque_len full.old + deque_len empty.old + 1)
        ≤ deque_capacity old_full.new) }
    ensures old_keeps { deque_capacity old_full.old ≤ deque_capacity old_full.new }
{
    let count = full.len() + empty.len() + 1;
    full.reserve(empty.len() + 1)?;
    empty.reserve(full.len() + 1)?;
    old_full.reserve(count)?;
    Ok(())
}
