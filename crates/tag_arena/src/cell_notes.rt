//! What an arena tells its cells and its free ranges of each other. It is for speed alone.
ghost use Rattle.std.specs.Prelude.{◌≡◌, ◌+◌, ◌^◌, ◌<◌};

use crate::cells::{Origin, Sides};
use crate::free_index::FreeIndex;
use crate::searches::Fit;
use crate::tags::Tags;
use deed_core::Deed;

/// Where a piece is carved from what was found, which has this cell.
pub(crate) fn origin_in(found: Fit, len: u64, cell: Option<usize>) -> Origin
    requires { found.base + len < 2 ^ 64 }
{
    Origin {
        cell,
        rests: Sides {
            left: found.range.base() < found.base,
            right: found.base + len < found.range.end(),
        },
    }
}

/// Tells the free range in a slot its cell, and the cell the slot, where there are both. It is for
/// speed alone.
pub(crate) fn tell<D: Deed>(
    free: &mut FreeIndex<D>,
    tags: &mut Tags,
    cell: Option<usize>,
    slot: Option<usize>,
)
    ensures free { free.new ≡ free.old }
    ensures tags { tags.new ≡ tags.old }
{
    if let Some(slot) = slot {
        free.set_cell(slot, cell);
        tags.set_free(cell, slot);
    }
}
