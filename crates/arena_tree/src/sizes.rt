//! What sizes and ranges an arena may have.
ghost use Rattle.std.specs.Prelude.{◌≡◌, ◌<◌, IfSome, IfNone};
ghost use Rattle.arena_tree.specs.Trees.{IsWholeRange, HasCaches, CanCache, caches_up_to};

use crate::limits::MOST_CACHES;
use deed_core::{LIMIT, Range};

/// The greatest size that can have a cache: three times this and one more is at most 2^62.
const MOST_CACHED: u64 = (LIMIT - 1) / 3;

/// The size of the slabs of an arena that caches sizes up to this one, where it may; 0 for no
/// caches.
pub(crate) fn slab_size(quantum: u64, qcache_max: u64) -> Option<u64>
    requires { 0 < quantum }
    ensures size { IfSome result (HasCaches quantum qcache_max) }
    ensures none { IfNone result (¬ CanCache quantum qcache_max) }
{
    if qcache_max % quantum != 0 {
        return None;
    }
    if u128::from(qcache_max) > u128::from(MOST_CACHES) * u128::from(quantum) {
        return None;
    }
    if qcache_max == 0 {
        return Some(0);
    }
    if qcache_max > MOST_CACHED {
        return None;
    }
    Some((3 * qcache_max + 1).next_power_of_two())
}

/// How many quantum caches an arena has that caches sizes up to this one. They are numbered from 1
/// on.
pub fn cache_count(quantum: u64, qcache_max: u64) -> u8
    requires { 0 < quantum }
    ensures value { result ≡ caches_up_to quantum qcache_max }
{
    (qcache_max / quantum).min(255) as u8
}

/// The range, where it is one, in whole quanta.
pub(crate) fn whole_range(base: u64, len: u64, quantum: u64) -> Option<Range>
    requires { 0 < quantum }
    ensures value { IfSome result (λ r. (r ≡ record { base = base; len = len })
        × IsWholeRange quantum r) }
    ensures none { IfNone result (¬ IsWholeRange quantum (record { base = base; len = len })) }
{
    if base % quantum != 0 {
        return None;
    }
    if len % quantum != 0 {
        return None;
    }
    Range::new(base, len)
}
