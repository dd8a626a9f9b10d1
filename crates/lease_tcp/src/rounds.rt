//! Rounds that are gone by time.
ghost use Rattle.lease_tcp.specs.Rounds.{KeepsRounds, TakesTurn};

use std::sync::Wait;

/// Who goes round each time that it is due, until all is over.
pub trait Rounds {
    ghost use Rattle.std.specs.Prelude.{Bool};

    // whether it may be found to be over
    ghost may_end: { Self → Bool → Type 0 };

    // before and after, what may come of a rest
    ghost may_rest: { Self → Self → Type 0 };

    // whether a round may be found due
    ghost may_be_due: { Self → Bool → Type 0 };

    // and of a round
    ghost may_go: { Self → Self → Type 0 };

    /// Whether no further round is to be gone.
    fn is_over(&self) -> bool
        ensures { may_end self.now result };

    /// Rests before it is looked again.
    fn rest(&mut self)
        ensures { may_rest self.old self.new };

    /// Whether a round is due.
    fn is_due(&self) -> bool
        ensures { may_be_due self.now result };

    /// Goes round.
    fn go(&mut self)
        ensures { may_go self.old self.new };
}

/// That rounds were gone until all was found over: `keep_rounds` alone makes one.
#[derive(PartialEq, Eq, Debug, Drop)]
pub struct Kept(());

/// Goes round each time that it is due, until all is over.
pub fn keep_rounds<R: Wait, K: Rounds>(rt: &R, rounds: &mut K) -> Kept
    ensures { KeepsRounds K.may_end K.may_rest K.may_be_due K.may_go rounds.old rounds.new }
{
    for _ in rt.forever() {
        if rounds.is_over() {
            return Kept(());
        }
        take_turn(rounds);
    }
    unreachable!()
}

/// Rests, and goes round if that is due then.
fn take_turn<K: Rounds>(rounds: &mut K)
    ensures { TakesTurn K.may_rest K.may_be_due K.may_go rounds.old rounds.new }
{
    rounds.rest();
    if rounds.is_due() {
        rounds.go();
    }
}
