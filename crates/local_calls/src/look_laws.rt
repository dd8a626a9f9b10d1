//! Laws of how far a reaping comes.
ghost use Rattle.local_calls.specs.ArenaReaps.{ReapArenaAlwaysDone, ReapArenaLeavesNothing};
ghost use Rattle.local_calls.specs.ArenaReaps.{ReapArenaBringsNothing, ReapArenaTakesFewLooks};
ghost use Rattle.local_calls.specs.Looks.{ReapTakesFewLooks, ReapWithoutLimit};

/// A reaping takes at most one look for each round of a depot and each slab, and two for each
/// cache; so one that may take more has looks left, and leaves nothing that could be reaped.
pub fn reap_limit_laws()
    ensures few { ReapTakesFewLooks }
    ensures nothing { ReapWithoutLimit }
{}

/// A reaping of one arena by its chain is always done. Where it has looks left, the arena's caches
/// have nothing that could be reaped; whatever its limit, a cache of any arena that had nothing has
/// nothing after it. It takes at most one look for each round of a depot and each slab that goes,
/// and two for each cache, as many as an arena may have.
pub fn reap_arena_laws()
    ensures done { ReapArenaAlwaysDone }
    ensures nothing { ReapArenaLeavesNothing }
    ensures others { ReapArenaBringsNothing }
    ensures few { ReapArenaTakesFewLooks }
{}
