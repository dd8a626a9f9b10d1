//! Room for what an arena allocates, to become free again.
ghost use Rattle.std.specs.Prelude.{◌≡◌, ◌+◌, ◌^◌, ◌≤◌, ◌<◌, OnOk, length};
ghost use Rattle.std.specs.FinMap as finmap;

use crate::free_index::FreeIndex;
use crate::spans::Spans;
use crate::tags::Tags;
use deed_core::Deed;
use std::alloc::{AllocError, Global};

/// Makes room for `more` free ranges, and for each allocated range to become free again.
pub(crate) fn reserve_free<D: Deed>(
    alloc: Global,
    free: &mut FreeIndex<D>,
    tags: &Tags,
    more: usize,
) -> Result<(), AllocError>
    ensures room { OnOk result
        (length free.new.ranges + finmap.len tags.now + more ≤ free.new.room) }
    ensures ticks { OnOk result (finmap.len tags.now + more < free.new.ticks) }
    ensures bound { OnOk result (finmap.len tags.now + more < 2 ^ 64) }
    ensures rest { free.new ≡ record free.old { room = free.new.room; ticks = free.new.ticks } }
    ensures grows { (free.old.room ≤ free.new.room) × (free.old.ticks ≤ free.new.ticks) }
{
    let Some(back) = tags.len().checked_add(more) else {
        return Err(AllocError);
    };
    let Some(room) = free.len().checked_add(back) else {
        return Err(AllocError);
    };
    let Some(ticks) = back.checked_add(1) else {
        return Err(AllocError);
    };
    free.reserve(alloc, room, ticks)
}

/// Makes room for one more of these spans, which is wholly free, and takes a cell for it.
pub(crate) fn room_for_span<D: Deed>(
    alloc: Global,
    spans: &mut Spans,
    free: &mut FreeIndex<D>,
    tags: &mut Tags,
) -> Result<Option<usize>, AllocError>
    ensures more { OnOk result (0 < spans.new.more) }
    ensures spans { spans.new.items ≡ spans.old.items }
    ensures room { OnOk result
        (length free.new.ranges + finmap.len tags.old + 1 ≤ free.new.room) }
    ensures ticks { OnOk result (finmap.len tags.old + 1 < free.new.ticks) }
    ensures rest { free.new ≡ record free.old { room = free.new.room; ticks = free.new.ticks } }
    ensures grows { (free.old.room ≤ free.new.room) × (free.old.ticks ≤ free.new.ticks) }
    ensures tags { tags.new ≡ tags.old }
{
    spans.reserve(alloc)?;
    reserve_free(alloc, free, tags, 1)?;
    tags.open()
}
