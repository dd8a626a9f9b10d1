//! Parts that aren't found where they were set up. That what lies under a lock stays what was put
//! there no type can say: so it is looked at, and the first that isn't the part that was sought is
//! kept for those who run the system.
ghost use Rattle.std.specs.Prelude.{◌≡◌};
ghost use Rattle.locked_parts.specs.Missing.{IsFoundFor, cause_of};
ghost use Rattle.locked_parts.specs.Saying.{IsMisplaced};

use crate::gates::NextStep;
use crate::locked_arenas::OtherArenaUnder;
use crate::locked_caches::{OtherDepotUnder, OtherSlabsUnder};
use crate::parts::LockedParts;
use deed_table::Name;
use std::marker::Model;
use std::sync::{Mutex, Wait};
use thiserror::Error;

/// A part of the arena of this number: what the arena itself keeps, or the slabs or the depot of
/// its quantum cache of the second number.
#[derive(Clone, Copy, PartialEq, Eq, Debug, Error)]
pub enum PartName {
    #[error("arena number {0}")]
    Arena(u32),
    #[error("the slabs of cache {1} of arena number {0}")]
    Slabs(u32, u8),
    #[error("the depot of cache {1} of arena number {0}")]
    Depot(u32, u8),
}

/// Why a part isn't found: none stands there, or another lies under its lock.
#[derive(Clone, Copy, PartialEq, Eq, Debug, Error)]
pub enum Cause {
    #[error("none stands there")]
    None,
    #[error("another lies there")]
    Other,
}

/// What was found where a part was sought. Of another part the value is made under that lock alone,
/// of what that part said of itself.
#[derive(PartialEq, Eq, Debug, Drop)]
pub(crate) enum Found {
    None,
    OtherArena(OtherArenaUnder),
    OtherSlabs(OtherSlabsUnder),
    OtherDepot(OtherDepotUnder),
}

/// That this part isn't where it was set up, why, and for which step it was sought, if for one.
/// Only `LockedParts::missed` makes one.
#[derive(Clone, Copy, PartialEq, Eq, Debug, Error)]
#[error("misplaced: {part}: {cause}")]
pub struct Misplaced {
    part: PartName,
    cause: Cause,
    step: Option<NextStep>,
}

impl Model for Misplaced {
    ghost use Rattle.locked_parts.specs.Words.{MisplacedState};

    ghost Value = { MisplacedState };

    ghost view = { λ m. record { part = m.part; cause = m.cause; step = m.step } };

    ghost inverse = { λ m. record { part = m.part; cause = m.cause; step = m.step } };
}

impl Misplaced {
    /// Which part it is.
    pub fn part(&self) -> PartName
        ensures { result ≡ self.now.part }
    {
        self.part
    }

    /// Why it isn't there.
    pub fn cause(&self) -> Cause
        ensures { result ≡ self.now.cause }
    {
        self.cause
    }
}

/// That no part was missed. Only an `Alarm` that keeps none makes one.
#[derive(PartialEq, Eq, Debug, Drop)]
pub struct NoneMissed(());

/// Keeps the first part that wasn't found.
#[derive(Drop)]
pub(crate) struct Alarm {
    first: Mutex<Option<Misplaced>>,
}

impl Alarm {
    /// None yet.
    pub(crate) fn new() -> Alarm {
        Alarm {
            first: Mutex::new(None),
        }
    }

    /// The first one, if there was any.
    pub(crate) fn first<R: Wait>(&self, rt: &R) -> Result<NoneMissed, Misplaced> {
        let first = *self.first.lock(rt);
        match first {
            Some(misplaced) => Err(misplaced),
            None => Ok(NoneMissed(())),
        }
    }
}

impl<N: Name> LockedParts<N> {
    /// This was found where a part was sought, for this step, if for one.
    #[tactic(auto, using(crate::proofs::Came::none_found))]
    pub(crate) fn missed<R: Wait>(
        &self,
        rt: &R,
        step: Option<NextStep>,
        part: PartName,
        found: Found,
    ) -> Misplaced
        requires { IsFoundFor self.now part found }
        ensures missing { IsMisplaced self.now step part result }
        ensures cause { result.cause ≡ cause_of found }
    {
        let cause = match found {
            Found::None => Cause::None,
            Found::OtherArena(_) | Found::OtherSlabs(_) | Found::OtherDepot(_) => Cause::Other,
        };
        let misplaced = Misplaced { part, cause, step };
        let mut first = self.alarm.first.lock(rt);
        if first.is_none() {
            *first = Some(misplaced);
        }
        misplaced
    }
}
