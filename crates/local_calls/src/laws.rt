//! Laws of the calls of quantum caches over one thread's parts. The functions do nothing: their
//! contracts are the laws, and proofs/LawProofs.antt has them for the proofs of the crates above,
//! with `run_seen`, by which a call's clause is a list of steps over states.
ghost use Rattle.local_calls.specs.Laws.{AllocNeverStuck, XallocNeverStops, FreeAlwaysDone};
ghost use Rattle.local_calls.specs.Laws.{DrainAlwaysDone, ReapAlwaysDone, NoFitIsRight};
ghost use Rattle.local_calls.specs.Laws.{XallocNoFitIsRight, DrainEmptiesCpu, DrainWithTurns};
ghost use Rattle.local_calls.specs.Laws.{ReapLeavesNothing};

/// Nothing is stuck and nothing stops: what is out can always be freed, and an allocation is
/// refused with an empty hand.
pub fn never_stuck_laws()
    ensures alloc { AllocNeverStuck }
    ensures xalloc { XallocNeverStops }
    ensures free { FreeAlwaysDone }
    ensures drain { DrainAlwaysDone }
    ensures reap { ReapAlwaysDone }
{}

/// What NoFit says, of the parts as they were before the call: the cache for the size has no chunk
/// to give, and no address serves, neither in the arena nor in a source for what would be imported.
/// The stock is unchanged.
pub fn no_fit_laws()
    ensures alloc { NoFitIsRight }
    ensures xalloc { XallocNoFitIsRight }
{}

/// What a call leaves: a drain no round of the CPU, so that its caches can be closed; more turns
/// than the CPU has rounds are enough. A reaping that has looks left leaves no round and no empty
/// magazine that may go, and no complete slab.
pub fn emptied_laws()
    ensures drain { DrainEmptiesCpu }
    ensures turns { DrainWithTurns }
    ensures reap { ReapLeavesNothing }
{}
