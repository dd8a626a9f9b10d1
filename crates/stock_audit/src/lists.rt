//! The units of an arena in lists of what is out.
ghost use Rattle.std.specs.Prelude.{◌≡◌, ◌-◌, ◌^◌, min};
ghost use Rattle.stock.specs.OwnCaches.{all_own_rounds};
ghost use Rattle.stock_audit.specs.Audits.{units_of_arena_in};

use deed_core::{Deed, Segment};
use stock::OwnCache;

/// The units of those of the segments that are of this arena.
pub fn units_of<D: Deed>(segments: &[Segment<D>], arena: usize) -> u128
    ensures { result ≡ units_of_arena_in arena segments.now }
{
    // For its clause: there are fewer than 2^64.
    let _ = segments.len();
    let mut units: u128 = 0;
    for segment in segments {
        if segment.arena() as usize == arena {
            units += u128::from(segment.range().len());
        }
    }
    units
}

/// The units of the rounds of this arena in the caches of CPUs, or 2^128 - 1 where they are more.
pub fn rounds_units<D: Deed>(cpus: &[OwnCache<D>], arena: usize) -> u128
    ensures { result ≡ min (units_of_arena_in arena (all_own_rounds cpus.now)) (2 ^ 128 - 1) }
{
    let mut units: u128 = 0;
    for cache in cpus {
        if cache.indexes().0 == arena {
            units = units.saturating_add(cache.units());
        }
    }
    units
}
