//! Cells on their chains.
ghost use Rattle.std.specs.Prelude.{◌≡◌, ℕ, IfSome, MatchOption};
ghost use Rattle.tag_arena.specs.Cells.{IsAt, SameCells};

use crate::cells::Cells;
use crate::chains::Chains;
use crate::short_indexes::ShortIndex;
use std::alloc::{AllocError, Global};

/// The cell where a range is allocated at a base, if it is on the chain that begins with a cell.
pub(crate) fn on_chain(cells: &Cells, first: ShortIndex, base: u64) -> Option<usize>
    ensures { IfSome result (λ k. IsAt base k cells.now) }
{
    let mut link = first;
    for _ in 0..cells.len() {
        let at = link.get()?;
        if cells.begins_at(at, base) {
            return Some(at);
        }
        link = cells.next(at);
    }
    None
}

/// The cell where a range is allocated at a base, by a look at each.
fn by_each(cells: &Cells, base: u64) -> Option<usize>
    ensures { MatchOption result ((k : ℕ) → ¬ IsAt base k cells.now)
        (λ k. IsAt base k cells.now) }
{
    for at in 0..cells.len() {
        if cells.begins_at(at, base) {
            return Some(at);
        }
    }
    None
}

/// The cell where a range is allocated at a base: the one that is likely, or the one on its chain,
/// or else by a look at each.
pub(crate) fn cell_at(cells: &Cells, chains: &Chains, likely: usize, base: u64) -> Option<usize>
    ensures { MatchOption result ((k : ℕ) → ¬ IsAt base k cells.now)
        (λ k. IsAt base k cells.now) }
{
    if cells.begins_at(likely, base) {
        return Some(likely);
    }
    if let Some(at) = on_chain(cells, chains.head(base), base) {
        return Some(at);
    }
    by_each(cells, base)
}

/// Puts a cell on its chain.
pub(crate) fn put_on(cells: &mut Cells, chains: &mut Chains, at: usize, base: u64)
    ensures same { SameCells cells.old cells.new }
{
    cells.set_next(at, chains.head(base));
    chains.set_head(base, ShortIndex::to(Some(at)));
}

/// Takes a cell off its chain.
pub(crate) fn take_off(cells: &mut Cells, chains: &mut Chains, at: usize, base: u64)
    ensures same { SameCells cells.old cells.new }
{
    let mut link = chains.head(base);
    if link.get() == Some(at) {
        chains.set_head(base, cells.next(at));
        return;
    }
    for _ in 0..cells.len() {
        let Some(before) = link.get() else {
            return;
        };
        link = cells.next(before);
        if link.get() == Some(at) {
            cells.set_next(before, cells.next(at));
            return;
        }
    }
}

/// Makes room for one more range, with a rest behind it: two cells, and one more on the chains.
/// Where there are half as many cells on them as chains, these are doubled, and each cell comes to
/// its own anew. Out of memory, no range is lost, and none found more slowly.
pub(crate) fn widen(
    alloc: Global,
    cells: &mut Cells,
    chains: &mut Chains,
    count: usize,
) -> Result<(), AllocError>
    ensures same { SameCells cells.old cells.new }
{
    cells.reserve()?;
    if count < chains.len() / 2 {
        return Ok(());
    }
    chains.double(alloc)?;
    for at in 0..cells.len() {
        if let Some(range) = cells.peek(at) {
            put_on(cells, chains, at, range.base());
        }
    }
    Ok(())
}
