//! Laws of setups and of the lists of steps, for the proofs of the layers above. The functions do
//! nothing: their contracts are the laws, and proofs/LawProofs.antt hands them on.
ghost use Rattle.arena_tree.specs.Laws.{ClimbHandles, ReturnHandles, ClimbIsShort, ReturnIsShort};
ghost use Rattle.arena_tree.specs.Laws.{OneRefusal, OwnName, NodeIsRead, ArenaIsRead, ChainIsRead};
ghost use Rattle.arena_tree.specs.Laws.{ClimbGives, ClimbTells, ReturnTells, NoFitIsTold};

/// What a climb and a hand back leave in the hand, how many locks they take, what a climb gives,
/// and what each end tells of the way.
pub fn climb_laws()
    ensures climb { ClimbHandles }
    ensures back { ReturnHandles }
    ensures climb_short { ClimbIsShort }
    ensures back_short { ReturnIsShort }
    ensures gives { ClimbGives }
    ensures tells { ClimbTells }
    ensures back_tells { ReturnTells }
    ensures no_fit { NoFitIsTold }
{}

/// What is asked for is refused for one reason, and an arena is found by its name.
pub fn setup_laws()
    ensures one { OneRefusal }
    ensures name { OwnName }
{}

/// What a tree says of an arena by its number.
pub fn tree_laws()
    ensures node { NodeIsRead }
    ensures arena { ArenaIsRead }
    ensures chain { ChainIsRead }
{}
