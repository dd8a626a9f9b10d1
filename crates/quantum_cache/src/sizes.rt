//! Which cache serves a size.
ghost use Rattle.std.specs.Prelude.{◌≡◌, ◌<◌};
ghost use Rattle.quantum_cache.specs.Sizes.{cache_for};

use arena_tree::Level;
use deed_core::Request;

/// The number of the arena's cache for a size, if there is one.
pub(crate) fn cache_of(level: &Level, size: u64) -> Option<u8>
    requires { 0 < level.now.quantum }
    ensures { result ≡ cache_for level.now size }
{
    let Level {
        quantum,
        qcache_max,
        ..
    } = *level;
    let units = Request::plain(size).units(quantum)?;
    if units == 0 || units > qcache_max {
        return None;
    }
    u8::try_from(units / quantum).ok()
}
