//! Laws of the definitions, for the proofs of the layers above. The functions do nothing: their
//! contracts are the laws, and proofs/LawProofs.antt hands them on.
ghost use Rattle.tag_arena.specs.Laws.{BestIsOne, NextIsOne, InstantIsOne, CarveIsOne, NoneServes};
ghost use Rattle.tag_arena.specs.Laws.{ChoiceServes, CarvesExactly, FreeAreLongestRuns, SpansOnce};
ghost use Rattle.tag_arena.specs.Laws.{UnitsAddUp, TagsWeigh, AllocatedStand, AllocatedCount};
ghost use Rattle.tag_arena.specs.Laws.{GoesEmpty};

/// Two choices by one rule are the same: a relation that names a choice is as good as a function.
/// So which segment is carved, and what the arena is then, is settled before the call.
pub fn one_choice_laws()
    ensures best { BestIsOne }
    ensures next { NextIsOne }
    ensures instant { InstantIsOne }
    ensures carve { CarveIsOne }
{}

/// None is chosen only where no address serves, and an address that is chosen serves. So a carve
/// of a good request is refused for its place exactly where no address serves.
pub fn serving_laws()
    ensures none { NoneServes }
    ensures some { ChoiceServes }
    ensures exact { CarvesExactly }
{}

/// What is always so of an arena: its free ranges are the longest runs, no unit is in two of its
/// spans, its spans have as many units as are free and allocated together, and once nothing of it
/// is allocated it has no imported span, so that it can be closed when its owned spans are gone.
pub fn arena_laws()
    ensures longest { FreeAreLongestRuns }
    ensures once { SpansOnce }
    ensures units { UnitsAddUp }
    ensures empty { GoesEmpty }
{}

/// What is allocated, as segments: they weigh as their ranges do, and are those that `free` takes.
pub fn allocated_laws()
    ensures weigh { TagsWeigh }
    ensures stand { AllocatedStand }
    ensures count { AllocatedCount }
{}
