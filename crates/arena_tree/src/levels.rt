//! The arenas of a chain.
ghost use Rattle.std.specs.Prelude.{◌≡◌, ◌-◌, ◌<◌, ◌^◌, All, min};
ghost use Rattle.deed_core.specs.Request.{rounding_of};
ghost use Rattle.arena_tree.specs.Chains.{amount_of};

use deed_core::Request;

/// An arena of a chain, as much as lists of steps need to know of it. All but `id` count units.
#[derive(Clone, Copy, PartialEq, Eq, Debug)]
pub struct Level {
    /// Its number.
    pub id: u32,
    pub quantum: u64,
    /// The least that it imports at a time.
    pub import_min: u64,
    /// The greatest size that has a cache, or 0 for none.
    pub qcache_max: u64,
    /// The size of each slab of its caches, or 0 where it has none.
    pub slab_size: u64,
}

/// What an arena asks of its source, the first of those above it, where none of its own free ranges
/// serves `size` units; 0 where there is no source.
pub(crate) fn import_amount(level: &Level, up: &[Level], size: u64) -> u64
    requires quantum { 0 < level.now.quantum }
    requires quanta { All (λ l. 0 < l.quantum) up.now }
    ensures { result ≡ amount_of level.now up.now size }
{
    let Some(source) = up.first() else {
        return 0;
    };
    let least = rounded_up(size, level.quantum).max(level.import_min);
    rounded_up(least, source.quantum)
}

/// The size in whole quanta, or the greatest number of 64 bits, for which no arena has room.
fn rounded_up(size: u64, quantum: u64) -> u64
    requires { 0 < quantum }
    ensures { result ≡ min (rounding_of quantum size) (2 ^ 64 - 1) }
{
    Request::plain(size).units(quantum).unwrap_or(u64::MAX)
}
