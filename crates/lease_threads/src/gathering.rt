//! How all roots of a system are brought together and their ranges told.
ghost use Rattle.std.specs.Prelude.{◌≡◌, ◌+◌, ◌<◌, IfErr, IfOk, OnOk, length};
ghost use Rattle.lease_threads.specs.Ends.{AreRangesFor, AreRangesOf, AreRootsFor, AreRootsIn};
ghost use Rattle.lease_threads.specs.Ends.{AreInTurn, InTurn, IsUngatheredAt, TellsArena};

use crate::closing::put_in_turn;
use crate::systems::System;
use crate::telling::{Misnumbered, tell};
use crate::told_rooms::{NoRoom, take_room};
use deed_core::Range;
use deed_table::{Name, Root};
use locked_parts::{LockedParts, NotHandedOver};
use std::sync::Wait;

/// Why the roots of a system aren't brought together. What each has is made where it was found, and
/// nowhere else. By the rules of `System` none is.
#[derive(PartialEq, Eq, Debug, Drop)]
pub(crate) enum NotGathered {
    /// The room for what is told was given away.
    NoRoom(NoRoom),
    /// An arena kept its roots.
    NotHandedOver(NotHandedOver),
    /// The numbers of an arena's roots aren't its own, or one stands twice.
    Misnumbered(Misnumbered),
}

/// Takes the roots that `grow` opened from behind the locks, tells the ranges of all by arena, and
/// puts the roots of each in the turn in which they are closed. Room for that was made before.
/// Where an arena keeps its roots all the same, those that were taken so far stand with the others,
/// and the room is gone.
pub(crate) fn gather<N: Name, R: Wait>(
    rt: &R,
    system: &mut System<N>,
) -> Result<Vec<Vec<Range>>, NotGathered>
    ensures arenas { system.new.arenas ≡ system.old.arenas }
    ensures roots { AreRootsIn system.old system.new.roots }
    ensures told { IfOk result (λ told. AreRangesOf system.old told.items) }
    ensures turn { OnOk result (AreInTurn (length system.new.arenas) system.new.roots) }
{
    let mut told = match take_room(&mut system.told) {
        Ok(told) => told,
        Err(none) => return Err(NotGathered::NoRoom(none)),
    };
    let count = system.tree().len();
    for id in 0..count as u32 {
        let ranges = gather_at(rt, id, system)?;
        told.push_reserved(ranges);
    }
    Ok(told)
}

/// The same of the arena of this number.
fn gather_at<N: Name, R: Wait>(
    rt: &R,
    id: u32,
    system: &mut System<N>,
) -> Result<Vec<Range>, NotGathered>
    requires within { id < length system.old.arenas }
    ensures arenas { system.new.arenas ≡ system.old.arenas }
    ensures roots { AreRootsIn system.old system.new.roots }
    ensures told { IfOk result (λ told. TellsArena system.old id told.items) }
    ensures turn { OnOk result
        (AreInTurn id system.old.roots → AreInTurn (id + 1) system.new.roots) }
{
    gather_roots(rt, &system.parts, id, &mut system.roots[id as usize])
}

/// The same of these roots of it.
fn gather_roots<N: Name, R: Wait>(
    rt: &R,
    parts: &LockedParts<N>,
    id: u32,
    roots: &mut Vec<Root<N>>,
) -> Result<Vec<Range>, NotGathered>
    ensures roots { AreRootsFor id roots.old.items roots.new.items }
    ensures told { IfOk result (λ told. AreRangesFor id roots.old.items told.items) }
    ensures asked { IfErr result (IsUngatheredAt parts.now id) }
    ensures turn { OnOk result (InTurn roots.new.items) }
{
    let handed = match parts.hand_over(rt, id, roots) {
        Ok(handed) => handed,
        Err(why) => return Err(NotGathered::NotHandedOver(why)),
    };
    roots.sort_unstable_by_key(|root| root.number());
    match tell(id, handed, roots) {
        Ok(told) => {
            put_in_turn(roots);
            Ok(told)
        }
        Err(found) => Err(NotGathered::Misnumbered(found)),
    }
}
