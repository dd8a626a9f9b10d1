//! What follows of every list of steps over one thread's parts, of empty magazines, and of a pop.
//! The functions do nothing: their contracts are the laws, the first's over all that a list of
//! steps may end with, and proofs/LawProofs.antt has them for the proofs of the crates above.
ghost use Rattle.local_parts.specs.Laws.{PlanConserves, PlanKeepsSetup, PlanInOneHome};
ghost use Rattle.local_parts.specs.Laws.{EmptyHasNoRounds, PopTakesRound};

/// Every list of steps conserves units, leaves the setup alone, and leaves each unit in one home.
pub fn local_laws<A>()
    ensures conserves { PlanConserves A }
    ensures setup { PlanKeepsSetup A }
    ensures home { PlanInOneHome A }
{}

/// A CPU's caches can be closed just where they hold nothing that is out of the stock.
pub fn empty_cpu_law()
    ensures none { EmptyHasNoRounds }
{}

/// How many rounds a CPU has after a pop, by its answer.
pub fn pop_law()
    ensures takes { PopTakesRound }
{}
