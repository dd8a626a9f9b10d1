//! What an operator does with all depots, or with those of an arena.
ghost use Rattle.std.specs.Prelude.{◌≡◌, ◌<◌, length, map, set, slice_get, Some};
ghost use Rattle.magazine_layer.specs.Depots.{after_tick};
ghost use Rattle.magazine_layer.specs.Magazines.{IsSize};
ghost use Rattle.stock.specs.Setups.{plans_for};
ghost use Rattle.stock.specs.Spaces.{SpaceState, plans_of};
ghost use Rattle.lease_proto.specs.Operators.{rounds_named};
ghost use Rattle.lease_proto.specs.Reports.{outcome_text};
ghost use Rattle.lease_machine.specs.Operators.{Resizes, with_depots_by};
ghost use Rattle.lease_machine.specs.Picture.{Picture};
ghost use Rattle.stock_desk.specs.Depots.{ResizesAt};

use arena_tree::Tree;
use deed_core::PlainDeed;
use lease_proto::{ErrorWord, ResizeLine};
use stock::Stock;

/// Begins an interval in each depot of a stock.
pub(crate) fn tick(stock: &mut Stock<PlainDeed>)
    ensures ticked { stock.new ≡ map (with_depots_by after_tick) stock.old }
{
    for arena in 0..stock.count() {
        tick_arena(stock, arena);
    }
}

/// Begins one in the depots of an arena.
fn tick_arena(stock: &mut Stock<PlainDeed>, arena: usize)
    requires within { arena < length stock.old }
    ensures ticked { (s : SpaceState) → slice_get stock.old arena ≡ Some s
        → stock.new ≡ set stock.old arena (with_depots_by after_tick s) }
{
    for cache in 0..stock.caches(arena) {
        stock.tick(arena, cache);
    }
}

/// Has the depots of the arena of this name keep greater magazines; or says that no arena has the
/// name, or that none of its depots, if it has some, has smaller ones.
pub(crate) fn resize(
    stock: &mut Stock<PlainDeed>,
    tree: &Tree,
    line: &ResizeLine,
) -> Result<(), ErrorWord>
    requires setup { plans_of stock.old ≡ plans_for tree.now }
    ensures { (d : Picture) → d.tree ≡ tree.now → d.spaces ≡ stock.old
        → Resizes line.now.arena (rounds_named line.now.size) d (outcome_text result)
        (record d { spaces = stock.new }) }
{
    match tree.find(&line.arena) {
        Some(arena) => resize_arena(stock, arena as usize, line.size.rounds()),
        None => Err(ErrorWord::NoArena),
    }
}

/// Has the depots of an arena keep magazines of so many rounds, if one has smaller ones.
fn resize_arena(stock: &mut Stock<PlainDeed>, arena: usize, rounds: usize) -> Result<(), ErrorWord>
    requires within { arena < length stock.old }
    requires size { IsSize rounds }
    ensures { ResizesAt arena rounds stock.old result stock.new }
{
    let mut rose = false;
    for cache in 0..stock.caches(arena) {
        match stock.resize(arena, cache, rounds) {
            Ok(()) => rose = true,
            Err(_) => {}
        }
    }
    if rose { Ok(()) } else { Err(ErrorWord::Size) }
}
