//! Laws of the lists of steps, for the proofs of the layers above. The functions do nothing: their
//! contracts are the laws, and proofs/LawProofs.antt hands them on.
ghost use Rattle.quantum_cache.specs.Laws.{AllocHandles, XallocHandles, FreeHandles, DrainHandles};
ghost use Rattle.quantum_cache.specs.Laws.{ReapArenaHandles, ReapHandles, AllocIsShort};
ghost use Rattle.quantum_cache.specs.Laws.{FreeIsShort, ReapArenaIsShort, ReapIsShort};
ghost use Rattle.quantum_cache.specs.Looks.{DrainTells, ReapArenaTells, ReapTells};
ghost use Rattle.quantum_cache.specs.Told.{AllocTells, FreeTells};

/// What each call leaves in the hand: no segment is lost.
pub fn hand_laws()
    ensures alloc { AllocHandles }
    ensures xalloc { XallocHandles }
    ensures free { FreeHandles }
    ensures drain { DrainHandles }
    ensures reap_arena { ReapArenaHandles }
    ensures reap { ReapHandles }
{}

/// What each end tells of the way: when a request is refused, when a segment comes back, and that a
/// drain and a reaping that end by themselves have found nothing at their last looks.
pub fn told_laws()
    ensures alloc { AllocTells }
    ensures free { FreeTells }
    ensures drain { DrainTells }
    ensures reap_arena { ReapArenaTells }
    ensures reap { ReapTells }
{}

/// How many locks each call takes; a drain's are paid by rounds, as its clause says.
pub fn lock_laws()
    ensures alloc { AllocIsShort }
    ensures free { FreeIsShort }
    ensures reap_arena { ReapArenaIsShort }
    ensures reap { ReapIsShort }
{}
