//! How the roots of a system are closed.
ghost use Rattle.std.specs.Prelude.{◌≡◌, ◌+◌, ◌<◌, [], length, None, IfErr, IfSome, OnOk};
ghost use Rattle.std.specs.List.Sorted.{IsPermutation};
ghost use Rattle.lease_threads.specs.Ends as ends;

use crate::cpus::Cpu;
use crate::matching::{OddDeed, close_by};
use crate::systems::System;
use deed_core::{Route, Segment};
use deed_table::{Name, Root};
use locked_parts::{LockedParts, NotTaken};
use std::sync::Wait;

/// Puts the roots of an arena in the turn in which they are closed, the last first. An arena gives
/// its lowest span first: so none is looked for.
pub(crate) fn put_in_turn<N: Name>(roots: &mut Vec<Root<N>>)
    ensures same { IsPermutation roots.old.items roots.new.items }
    ensures turn { ends.InTurn roots.new.items }
{
    roots.sort_unstable_by_key(|root| turn_of(root));
}

/// What rises by roots of an arena that come before others, the higher ones. So the last is closed
/// first.
fn turn_of<N: Name>(root: &Root<N>) -> u64
    ensures { result ≡ ends.turn_of root.now }
{
    u64::MAX - root.range().base()
}

/// Why a root stays open. What each has is made where it was found, and nowhere else.
#[derive(PartialEq, Eq, Debug, Drop)]
pub(crate) enum Open {
    /// No span of its arena is wholly free.
    NotTaken(NotTaken),
    /// What was taken out of its arena is of no root.
    Odd(OddDeed),
}

/// Takes the spans of the roots out of their arenas, one arena after another, and closes each root
/// by its deed, up to one that stays open. A deed that isn't the whole of a root's is in the hand.
pub(crate) fn close_each<N: Name, R: Wait>(
    rt: &R,
    system: &mut System<N>,
    cpu: &mut Cpu<N>,
) -> Result<(), Open>
    requires hand { cpu.old.hand ≡ None }
    ensures arenas { system.new.arenas ≡ system.old.arenas }
    ensures all { OnOk result (ends.AreClosed system.new.roots × (cpu.new.hand ≡ None)) }
{
    // For its clause: there are roots for each arena.
    system.check();
    for id in 0..system.tree().len() as u32 {
        close_at(rt, id, system, cpu)?;
    }
    Ok(())
}

/// The same with the roots of the arena of this number.
fn close_at<N: Name, R: Wait>(
    rt: &R,
    id: u32,
    system: &mut System<N>,
    cpu: &mut Cpu<N>,
) -> Result<(), Open>
    requires within { id < length system.old.arenas }
    requires hand { cpu.old.hand ≡ None }
    ensures arenas { system.new.arenas ≡ system.old.arenas }
    ensures closed { OnOk result ((cpu.new.hand ≡ None)
        × (ends.AreClosedBelow id system.old.roots
        → ends.AreClosedBelow (id + 1) system.new.roots)) }
    ensures count { length system.new.roots ≡ length system.old.roots }
{
    close_all(rt, &system.parts, id, &mut system.roots[id as usize], cpu)
}

/// The same with these roots of it, the last first.
fn close_all<N: Name, R: Wait>(
    rt: &R,
    parts: &LockedParts<N>,
    id: u32,
    roots: &mut Vec<Root<N>>,
    cpu: &mut Cpu<N>,
) -> Result<(), Open>
    requires hand { cpu.old.hand ≡ None }
    ensures closed { OnOk result ((cpu.new.hand ≡ None) × (roots.new.items ≡ [])) }
    ensures asked { IfErr result (ends.IsOpenAt parts.now id) }
{
    'roots: while !roots.is_empty() {
        close_one(rt, parts, id, roots, cpu)?;
    }
    Ok(())
}

/// The same with one of them.
fn close_one<N: Name, R: Wait>(
    rt: &R,
    parts: &LockedParts<N>,
    id: u32,
    roots: &mut Vec<Root<N>>,
    cpu: &mut Cpu<N>,
) -> Result<(), Open>
    requires hand { cpu.old.hand ≡ None }
    ensures closed { OnOk result ((cpu.new.hand ≡ None)
        × (length roots.new.items + 1 ≡ length roots.old.items)) }
    ensures asked { IfErr result (ends.IsOpenAt parts.now id) }
{
    let taken = match parts.remove_owned(rt, id) {
        Ok(taken) => taken,
        Err(why) => return Err(Open::NotTaken(why)),
    };
    match close_by(roots, taken.into_deed()) {
        Ok(()) => Ok(()),
        Err((deed, odd)) => {
            cpu.hold(Segment::new(id, Route::Direct, deed));
            Err(Open::Odd(odd))
        }
    }
}

/// Where the first arena stands that has a root.
pub(crate) fn first_open<N: Name>(roots: &[Vec<Root<N>>]) -> Option<usize>
    ensures first { result ≡ ends.first_open roots.now }
    ensures within { IfSome result (λ index. index < length roots.now) }
{
    roots.iter().position(|roots| roots.len() > 0)
}
