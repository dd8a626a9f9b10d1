//! The choice from power-of-two lists.
ghost use Rattle.std.specs.Prelude.{◌≡◌, ℕ, ◌+◌, ◌*◌, ◌%◌, ◌^◌, ◌<◌, length, All};
ghost use Rattle.std.specs.Prelude.{MatchOption, IfSome};
ghost use Rattle.std.specs.Int.{IsPowerOfTwo};
ghost use Rattle.deed_core.specs.Extent.{IsRange};
ghost use Rattle.deed_core.specs.Request.{IsGood};
ghost use Rattle.tag_arena.specs.Choice.{IsInstantChoice, OnList};
ghost use Rattle.plain_arena.specs.Found.{NewestSoFar, IsPlaced, base_of};

use crate::choices::{Found, best};
use crate::held_ranges::{HeldRange, held_range_at};
use deed_core::{Deed, Request, Stored};

/// An index in the list of free ranges, the range there, and the number of its power-of-two list.
#[derive(Clone, Copy)]
pub(crate) struct Listed {
    pub at: usize,
    pub range: HeldRange,
    pub list: u32,
}

/// The power-of-two list that the range is on.
fn list_of(range: &HeldRange, quantum: u64) -> Option<u32>
    requires { 0 < quantum }
    ensures { MatchOption result ((i : ℕ) → OnList quantum range.now i → ⊥)
        (λ list. (list < 64) × (2 ^ list * quantum < 2 ^ 64) × OnList quantum range.now list
        × ((i : ℕ) → OnList quantum range.now i → i ≡ list)) }
{
    let quanta = range.len() / quantum;
    if quanta == 0 {
        None
    } else {
        Some(quanta.ilog2())
    }
}

/// The newest of one range more than `newest` is the newest of.
fn newer<D: Deed>(
    free: &[Stored<D>],
    quantum: u64,
    len: u64,
    at: usize,
    newest: Option<Listed>,
) -> Option<Listed>
    requires quantum { 0 < quantum }
    requires at { at < length free.now }
    requires newest { NewestSoFar quantum len free.now at newest }
    ensures { NewestSoFar quantum len free.now (at + 1) result }
{
    let range = held_range_at(free, at);
    let Some(list) = list_of(&range, quantum) else {
        return newest;
    };
    if (1u64 << list) * quantum < len {
        return newest;
    }
    let found = Listed { at, range, list };
    let Some(other) = newest else {
        return Some(found);
    };
    if other.list < list {
        Some(other)
    } else {
        Some(found)
    }
}

/// The newest range on the least list whose every member has room for `len` units.
pub(crate) fn newest<D: Deed>(free: &[Stored<D>], quantum: u64, len: u64) -> Option<Listed>
    requires quantum { 0 < quantum }
    ensures { NewestSoFar quantum len free.now (length free.now) result }
{
    let mut newest = None;
    for at in 0..free.len() {
        newest = newer(free, quantum, len, at, newest);
    }
    newest
}

/// The newest range on the least list whose every member serves, else the best choice.
pub(crate) fn instant<D: Deed>(free: &[Stored<D>], quantum: u64, request: &Request) -> Option<Found>
    requires quantum { IsPowerOfTwo quantum }
    requires good { IsGood quantum request.now }
    requires below { All (λ r. IsRange r.range) free.now }
    requires aligned { All (λ r. r.range.base % quantum ≡ 0) free.now }
    ensures choice { IsInstantChoice quantum request.now free.now (base_of result) }
    ensures placed { IfSome result (IsPlaced quantum request.now free.now) }
{
    if request.is_constrained() {
        return best(free, quantum, request);
    }
    let Some(len) = request.units(quantum) else {
        return best(free, quantum, request);
    };
    let Some(listed) = newest(free, quantum, len) else {
        return best(free, quantum, request);
    };
    Some(Found {
        at: listed.at,
        range: listed.range,
        base: listed.range.base(),
    })
}
