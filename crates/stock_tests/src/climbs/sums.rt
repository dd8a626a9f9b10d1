//! How many units of an arena are where.
use super::arrangements::Walk;
use deed_core::Deed;
use std::process::Abort;

pub(super) fn free_units<D: Deed>(rt: &impl Abort, walk: &Walk<D>, arena: usize) -> u128 {
    assert!(rt; arena < walk.stock.count());
    walk.stock.arena_report(arena).free
}

/// In its slabs: idle chunks, colour gaps and tails.
pub(super) fn slab_units<D: Deed>(walk: &Walk<D>, arena: u32) -> u128 {
    let mut units: u128 = 0;
    for cache in 1..17 {
        if let Some(index) = walk.stock.cache_at(arena, cache) {
            let report = walk.stock.slab_report(arena as usize, index);
            units = units.saturating_add(u128::from(report.idle));
            units = units.saturating_add(u128::from(report.gap));
            units = units.saturating_add(u128::from(report.tail));
        }
    }
    units
}

/// In the depot of one of its caches.
pub(super) fn depot_units<D: Deed>(walk: &Walk<D>, arena: u32, cache: u8) -> u128 {
    match walk.stock.cache_at(arena, cache) {
        Some(index) => walk.stock.depot_units(arena as usize, index),
        None => 0,
    }
}

/// In magazines: the depots' and both CPUs'.
pub(super) fn magazine_units<D: Deed>(walk: &Walk<D>, arena: u32) -> u128 {
    let index = arena as usize;
    let mut units = walk
        .cpu
        .units(index)
        .saturating_add(walk.other.units(index));
    for cache in 1..17 {
        units = units.saturating_add(depot_units(walk, arena, cache));
    }
    units
}
