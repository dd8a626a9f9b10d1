//! An arena all of whose units are free, with a root of each span that it owns beside it.
ghost use Rattle.std.specs.Prelude.{◌≡◌, ◌+◌, ◌-◌, ◌<◌, ◌≤◌, ◌++◌, [], ◌∷◌, Contains, OnOk, length};
ghost use Rattle.std.specs.Prelude.{HoldsAt};
ghost use Rattle.arena_tree.specs.Settings.{span_count};
ghost use Rattle.tag_arena.specs.Outcomes.{KeepsSetup};
ghost use Rattle.locked_parts.specs.News.{AreWhole, numbered_from, ranges_owned};

use crate::end_rooms::EndRoom;
use arena_tree::OwnedSpan;
use deed_core::{Deed, Range};
use deed_table::{Name, Opener, Root, SeatDeed, close};
use std::alloc::AllocError;
use tag_arena::{Arena, SpanFault};

/// Opens each of these spans that the arena with this number owns as a root of its own, adds its
/// deed to the arena, and makes room for the end of all. Where it fails, those opened so far stand.
pub(crate) fn own_each<N: Name>(
    id: u32,
    spans: &[OwnedSpan],
    opener: &mut Opener<N>,
    arena: &mut Arena<SeatDeed<N>>,
    roots: &mut Vec<Root<N>>,
    room: &mut EndRoom<N>,
) -> Result<(), AllocError>
    requires none { AreWhole arena.old roots.old.items × (roots.old.items ≡ []) }
    requires few { span_count id spans.now ≤ opener.old.left }
    ensures whole { AreWhole arena.new roots.new.items }
    ensures kept { KeepsSetup arena.old arena.new }
    ensures roots { OnOk result (roots.new.items
        ≡ numbered_from opener.old.first (ranges_owned id spans.now)) }
    ensures first { OnOk result
        (opener.new.first ≡ opener.old.first + length roots.new.items) }
    ensures left { OnOk result
        (opener.new.left + length roots.new.items ≡ opener.old.left) }
    ensures room { OnOk result (length roots.new.items ≤ room.new) }
{
    for span in spans {
        if span.arena == id {
            own(span.range, opener, arena, roots)?;
        }
    }
    room.make(roots.len())?;
    Ok(())
}

/// The same of one of its spans.
fn own<N: Name>(
    range: Range,
    opener: &mut Opener<N>,
    arena: &mut Arena<SeatDeed<N>>,
    roots: &mut Vec<Root<N>>,
) -> Result<(), AllocError>
    requires whole { AreWhole arena.old roots.old.items }
    requires left { 0 < opener.old.left }
    ensures whole { AreWhole arena.new roots.new.items }
    ensures kept { KeepsSetup arena.old arena.new }
    ensures roots { OnOk result (roots.new.items
        ≡ roots.old.items ++ record { root = opener.old.first; range = range } ∷ []) }
    ensures opener { OnOk result (opener.new
        ≡ record { first = opener.old.first + 1; left = opener.old.left - 1 }) }
{
    roots.reserve(1)?;
    let (root, deed) = opener.open_root(range)?;
    match arena.add_span(deed) {
        Ok(()) => {
            roots.push_reserved(root);
            Ok(())
        }
        Err(SpanFault::Overlaps(it) | SpanFault::NotAligned(it) | SpanFault::NoMemory(it)) => {
            end_root(root, it);
            Err(AllocError)
        }
    }
}

/// Closes a root by the deed of the whole.
fn end_root<N: Name>(root: Root<N>, deed: SeatDeed<N>)
    requires { deed ≡ root }
{
    match close(root, deed) {
        Ok(_) => {}
        Err(_) => unreachable!(),
    }
}

/// Ends the arena, and closes its roots.
pub(crate) fn end_whole<N: Name>(mut arena: Arena<SeatDeed<N>>, mut roots: Vec<Root<N>>)
    requires { AreWhole arena roots.items }
{
    // For its clause: what is always so of an arena.
    let _ = arena.id();
    while let Some(deed) = arena.remove_owned() {
        let index = index_of(&roots, &deed);
        end_root(roots.remove(index), deed);
    }
    roots.destroy_empty();
    match arena.close() {
        Ok(()) => {}
        Err(_) => unreachable!(),
    }
}

/// Where the root of this deed stands.
fn index_of<N: Name>(roots: &[Root<N>], deed: &SeatDeed<N>) -> usize
    requires { Contains roots.now deed.now }
    ensures within { result < length roots.now }
    ensures here { HoldsAt (λ root. root ≡ deed.now) roots.now result }
{
    for index in 0..roots.len() {
        let root = &roots[index];
        if root.number() == deed.root() && root.range() == deed.range() {
            return index;
        }
    }
    unreachable!()
}
