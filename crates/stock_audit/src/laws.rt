//! What follows where a stock is accounted for. The functions do nothing: their contracts are the
//! laws, and proofs/LawProofs.antt has them for the proofs of the crates above.
ghost use Rattle.stock_audit.specs.Laws.{AuditAddsUp, UnitAddsUp, UnitsWeigh};
ghost use Rattle.stock_audit.specs.Laws.{FreshIsAccounted, AccountedBalances};
ghost use Rattle.stock_audit.specs.Laws.{HandStepsKeep, SwapsKeep, PopsKeep, PushesKeep};
ghost use Rattle.stock_audit.specs.Laws.{ChangesKeep, LeasesKeep, ReleasesKeep, CpusKeep};
ghost use Rattle.stock_audit.specs.Laws.{ChildIsExported, ExportedIsChildren, AllocatedIsOut};
ghost use Rattle.stock_audit.specs.Laws.{SpansAreOfSource, OutNeverOverlaps};
ghost use Rattle.stock_audit.specs.Laws.{UnderTopUnitAddsUp, UnderTopAddsUp, TopsStand};
ghost use Rattle.stock_audit.specs.Laws.{FreeIsNotOut, ReachableIsNotHeld};
ghost use Rattle.stock_audit.specs.Laws.{FreeAboveIsFree, GivenWasReachable, GivenFittedIn};
ghost use Rattle.stock_audit.specs.Laws.{NoStepOffChain, OffChainThen};
ghost use Rattle.stock_audit.specs.Laws.{ArenaStepOffChain, CacheStepOffChain};

/// The six sums of an arena add up to its spans, by units and unit by unit.
pub fn sum_laws()
    ensures lengths { AuditAddsUp }
    ensures home { UnitAddsUp }
    ensures weigh { UnitsWeigh }
{}

/// A new stock with nothing out is accounted for, and what is accounted for balances.
pub fn accounted_laws()
    ensures fresh { FreshIsAccounted }
    ensures balances { AccountedBalances }
{}

/// Each call of a stock keeps it accounted for, whatever its answer.
pub fn step_laws()
    ensures hands { HandStepsKeep }
    ensures swaps { SwapsKeep }
{}

/// So does what changes no part: what is private to a CPU, what a book does with a hand, and that
/// CPUs come and go.
pub fn move_laws()
    ensures pops { PopsKeep }
    ensures pushes { PushesKeep }
    ensures changes { ChangesKeep }
    ensures leases { LeasesKeep }
    ensures releases { ReleasesKeep }
    ensures cpus { CpusKeep }
{}

/// Up a chain of sources, of any length: spans are their sources' exports, and what is out never
/// overlaps.
pub fn chain_laws()
    ensures exported { ChildIsExported }
    ensures children { ExportedIsChildren }
    ensures allocated { AllocatedIsOut }
    ensures spans { SpansAreOfSource }
    ensures apart { OutNeverOverlaps }
{}

/// Over a top arena and all that import from it, directly or not: each unit is in one home of one
/// arena, and what an arena may serve a request with is nowhere else.
pub fn chain_sum_laws()
    ensures tops { TopsStand }
    ensures home { UnderTopUnitAddsUp }
    ensures lengths { UnderTopAddsUp }
    ensures free { FreeIsNotOut }
    ensures reachable { ReachableIsNotHeld }
{}

/// What an arena gives was reachable: it was free in the arena, in its caches or in the CPUs'
/// rounds of it, or free up its chain. What is free up the chain is what it may import.
pub fn reach_laws()
    ensures above { FreeAboveIsFree }
    ensures given { GivenWasReachable }
    ensures fitted { GivenFittedIn }
{}

/// Which steps stay off all but a chain and its first arena's caches, so that what they give was
/// reachable.
pub fn off_chain_laws()
    ensures none { NoStepOffChain }
    ensures then { OffChainThen }
    ensures arena { ArenaStepOffChain }
    ensures cache { CacheStepOffChain }
{}
