//! What is put back at an end, for as long as it takes.
ghost use Rattle.vmemd.specs.Retrying.{PutsBack, TellsStuck};

use std::sync::Wait;

/// What something is told of that can't be put back at once.
pub trait Alarm {
    ghost use Rattle.std.specs.Prelude.{Bool};

    // before and after, whether it may be the first time
    ghost may_note: { Self → Bool → Self → Type 0 };

    // what it may be once a user was told
    ghost may_tell: { Self → Self → Type 0 };

    // whether it may be found noted
    ghost may_find: { Self → Bool → Type 0 };

    /// Something can't be put back at once. Says whether it is the first time.
    fn note(&mut self) -> bool
        ensures { may_note self.old result self.new };

    /// Tells it.
    fn tell(&mut self)
        ensures { may_tell self.old self.new };

    /// Whether there ever was such a thing.
    fn is_noted(&self) -> bool
        ensures { may_find self.now result };
}

/// What is left at an end.
pub trait Rest: Sized {
    ghost use Rattle.std.specs.Prelude.{Result};

    /// What there is once nothing is left.
    type Done;

    // what may come of another try
    ghost may_end: { Self → Result Self.Done Self → Type 0 };

    /// Waits before it is tried again.
    fn pause(&self);

    /// Tries again.
    fn again(self) -> Result<Self::Done, Self>
        ensures { may_end self result };
}

/// Notes that something can't be put back at once, and tells it the first time.
pub fn tell_stuck<A: Alarm>(alarm: &mut A)
    ensures { TellsStuck A.may_note A.may_tell alarm.old alarm.new }
{
    if alarm.note() {
        alarm.tell();
    }
}

/// Tries until nothing is left. It tells of each try that left something, and pauses before the
/// next.
pub fn put_back<R: Wait, T: Rest, A: Alarm>(
    rt: &R,
    first: Result<T::Done, T>,
    alarm: &mut A,
) -> T::Done
    ensures { PutsBack T.may_end A.may_note A.may_tell first alarm.old result alarm.new }
{
    let mut tried = first;
    for _ in rt.forever() {
        match tried {
            Ok(done) => return done,
            Err(rest) => {
                tell_stuck(alarm);
                rest.pause();
                tried = rest.again();
            }
        }
    }
    unreachable!()
}
