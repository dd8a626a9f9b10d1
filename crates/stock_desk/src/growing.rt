//! A root that gets a further range while it is in use.
ghost use Rattle.std.specs.Prelude.{◌≡◌, []};
ghost use Rattle.stock.specs.Setups.{plans_for};
ghost use Rattle.stock.specs.Spaces.{plans_of};
ghost use Rattle.stock_audit.specs.Keeping.{IsStep};
ghost use Rattle.lease_call.specs.Growing.{TellsGrowth};
ghost use Rattle.lease_machine.specs.Operators.{GrowsAt};
ghost use Rattle.lease_machine.specs.Picture.{Picture};

use arena_tree::Tree;
use deed_core::PlainDeed;
use lease_call::{grow_outcome, growth_asked};
use lease_proto::{ErrorWord, GrowLine};
use stock::Stock;

/// Gives the root of the line's name its range, as a span of its own; or says which of what the line
/// asks for there isn't, or why the root doesn't get it.
pub(crate) fn grow(
    stock: &mut Stock<PlainDeed>,
    tree: &Tree,
    line: &GrowLine,
) -> Result<(), ErrorWord>
    requires setup { plans_of stock.old ≡ plans_for tree.now }
    ensures told { (d : Picture) → d.tree ≡ tree.now → d.spaces ≡ stock.old
        → TellsGrowth GrowsAt d.tree line.now d result (record d { spaces = stock.new }) }
    ensures step { IsStep stock.old [] stock.new [] }
{
    // For its clause: what is always so of a tree and of a stock.
    let _ = tree.len();
    let _ = stock.count();
    let growth = growth_asked(tree, line)?;
    grow_outcome(stock.grow_by(growth.arena as usize, growth.range))
}
