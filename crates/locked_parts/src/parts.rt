//! The parts of a system, each under its lock.
ghost use Rattle.std.specs.Prelude.{◌≡◌, ◌+◌, ◌<◌, ◌↔◌, IfErr, IfOk, IfSome, IsSome, OnErr, OnSome};
ghost use Rattle.std.specs.Prelude.{Some, length, slice_get, true};
ghost use Rattle.locked_parts.specs.Kinds.{count_of_caches, caches_before, AreCachesBefore};
ghost use Rattle.locked_parts.specs.GrowAnswers.{AnswersGrow, IsMissed, grow_fault};
ghost use Rattle.locked_parts.specs.Growing.{HasRootsMore};
ghost use Rattle.locked_parts.specs.Handing.{IsHandedOver, IsNotHandedOver, IsNotTaken};
ghost use Rattle.locked_parts.specs.News.{StandAsSet};
ghost use Rattle.locked_parts.specs.States.{StandsInPlace};
ghost use Rattle.locked_parts.specs.Walks.{IsResizedFor};
ghost use Rattle.magazine_layer.specs.Magazines.{IsSize};

use crate::arena_parts::{Grown, GrowthRefused, HandedOver, NoneWhole, NotCounted, Taken};
use crate::depot_walks::{Interval, Resized, resize_each, tick_each};
use crate::kinds::cache_count;
use crate::locked_arenas::LockedArena;
use crate::locked_depots::LockedDepots;
use crate::misplaced::{Alarm, Misplaced, NoneMissed};
use arena_tree::{GrowFault, MOST_ARENAS, Tree};
use deed_core::Range;
use deed_table::{Name, Root};
use std::alloc::Global;
use std::marker::Model;
use std::sync::Wait;

/// Arenas with their quantum caches, each part under a lock of its own. A contract sees the arenas
/// as they were set up, and those that stand, which are the first ones.
pub struct LockedParts<N: Name> {
    pub(crate) alloc: Global,
    pub(crate) tree: Tree,
    /// How many quantum caches the arenas before each have.
    pub(crate) caches_before: [usize; MOST_ARENAS],
    pub(crate) arenas: Vec<LockedArena<N>>,
    pub(crate) alarm: Alarm,
}

impl<N: Name> Model for LockedParts<N> {
    ghost use Rattle.std.specs.Prelude.{◌≤◌, length, vec_len};
    ghost use Rattle.locked_parts.specs.Kinds.{AreCachesBefore};
    ghost use Rattle.locked_parts.specs.States.{AreInPlace, LockedPartsState};

    ghost Value = { LockedPartsState };

    ghost view = { λ p.
        record { arenas = p.tree; standing = vec_len p.arenas; stand = p.arenas.items } };

    ghost invariant = { λ p. AreCachesBefore p.tree p.caches_before
        × AreInPlace p.tree p.arenas.items × (vec_len p.arenas ≤ length p.tree) };
}

impl<N: Name> LockedParts<N> {
    /// The arenas of a tree, in their order, under their locks.
    #[tactic(auto, using(crate::proofs::Stands::set_in_place))]
    pub fn new(alloc: Global, tree: Tree, arenas: Vec<LockedArena<N>>) -> LockedParts<N>
        requires { StandAsSet tree arenas.items }
        ensures arenas { result.arenas ≡ tree }
        ensures standing { result.standing ≡ length arenas.items }
        ensures stand { result.stand ≡ arenas.items }
    {
        let caches_before = all_caches_before(&tree);
        LockedParts {
            alloc,
            tree,
            caches_before,
            arenas,
            alarm: Alarm::new(),
        }
    }

    /// What new magazines are made with.
    pub fn alloc(&self) -> Global {
        self.alloc
    }

    /// The arenas as they were set up.
    pub fn tree(&self) -> &Tree
        ensures { result.now ≡ self.now.arenas }
    {
        &self.tree
    }

    /// Where a CPU keeps its magazines for a quantum cache: after those for the caches of the
    /// arenas before, and for the lesser ones of the arena.
    pub(crate) fn own_index(&self, arena: u32, number: u8) -> usize
        ensures { arena < length self.now.arenas → 0 < number
            → result + 1 ≡ caches_before self.now.arenas arena + number }
    {
        if arena as usize >= self.tree.len() {
            return usize::MAX;
        }
        let before = self.caches_before[arena as usize];
        before.saturating_add((number as usize).saturating_sub(1))
    }

    /// Begins an interval in each depot, one after another, and tells in how many arenas.
    pub fn tick<R: Wait>(&self, rt: &R) -> Interval
        ensures { result ≡ length self.now.arenas }
    {
        let mut depots = LockedDepots::new(self, rt);
        tick_each(&mut depots, &self.tree)
    }

    /// Has the depots of the arena keep magazines of this size from here on, and tells whether one
    /// of them kept smaller ones before. An arena that isn't there has none.
    pub fn resize<R: Wait>(&self, rt: &R, arena: u32, size: usize) -> Resized
        requires { IsSize size }
        ensures asked { IsResizedFor self.now.arenas arena size result }
        ensures rose { result.rose ≡ true
            → (3 < size) × (0 < count_of_caches self.now.arenas arena) }
    {
        let mut depots = LockedDepots::new(self, rt);
        resize_each(&mut depots, &self.tree, arena, size)
    }

    /// Opens a further root of this range for the arena with this number, and adds its deed, under
    /// the arena's lock and no other. The arena refuses it as `Overlaps` where the range has a unit
    /// in common with a span of the arena, `NotAligned` where it isn't in whole quanta, `TooMany`
    /// where it has no root number left, `NoMemory` else, in this order. A root that is opened is
    /// always added, and there is room for its end. Its number is the least of the arena's numbers
    /// that wasn't used.
    pub fn grow<R: Wait>(&self, rt: &R, arena: u32, range: Range) -> Result<Grown, NotGrown>
        ensures answers { AnswersGrow self.now.arenas arena range result }
        ensures missing { IfErr result (IsMissed self.now arena) }
    {
        if arena as usize >= self.tree.len() {
            return Err(NotGrown::NoArena);
        }
        if self.tree.arena(arena).source.is_some() {
            return Err(NotGrown::NotRoot);
        }
        match self.reach_arena(rt, None, arena) {
            Ok(mut part) => match part.grow(range) {
                Ok(grown) => Ok(grown),
                Err(refused) => Err(NotGrown::Refused(refused)),
            },
            Err(misplaced) => Err(NotGrown::Misplaced(misplaced)),
        }
    }

    /// Moves the further roots of the arena with this number behind those that it was made with, in
    /// order of opening, and gives a list that has room for the ranges of all. It takes no memory.
    /// Nothing is done where more roots are given than it counts beside its lock.
    pub fn hand_over<R: Wait>(
        &self,
        rt: &R,
        arena: u32,
        to: &mut Vec<Root<N>>,
    ) -> Result<HandedOver, NotHandedOver>
        ensures more { HasRootsMore arena to.old.items to.new.items }
        ensures room { IfOk result (IsHandedOver arena to.new) }
        ensures refused { IfErr result (IsNotHandedOver self.now arena) }
        ensures unchanged { OnErr result (to.new.items ≡ to.old.items) }
    {
        match self.reach_arena(rt, None, arena) {
            Ok(mut part) => match part.hand_over(self.alloc, to) {
                Ok(handed) => Ok(handed),
                Err(asked) => Err(NotHandedOver::NotCounted(asked)),
            },
            Err(misplaced) => Err(NotHandedOver::Misplaced(misplaced)),
        }
    }

    /// Takes the lowest owned span that is wholly free out of the arena with this number.
    pub fn remove_owned<R: Wait>(&self, rt: &R, arena: u32) -> Result<Taken<N>, NotTaken>
        ensures taken { IfOk result (λ t. (arena < self.now.standing) × (t.arena ≡ arena)) }
        ensures asked { IfErr result (IsNotTaken self.now arena) }
    {
        match self.reach_arena(rt, None, arena) {
            Ok(mut part) => match part.remove_owned() {
                Ok(taken) => Ok(taken),
                Err(asked) => Err(NotTaken::NoneWhole(asked)),
            },
            Err(misplaced) => Err(NotTaken::Misplaced(misplaced)),
        }
    }

    /// Looks for each part once, under its lock, one after another. It gives the first that wasn't
    /// where it was set up, now or when a call looked for it before.
    pub fn look<R: Wait>(&self, rt: &R) -> Result<NoneMissed, Misplaced> {
        for arena in 0..self.tree().len() as u32 {
            // It takes each lock of the arena and looks what lies under it.
            let _ = self.sums(rt, arena);
        }
        self.alarm.first(rt)
    }

    /// The arena with this number, if it stands.
    pub(crate) fn standing(&self, arena: u32) -> Option<&LockedArena<N>>
        ensures exactly { IsSome result ↔ (arena < self.now.standing) }
        ensures within { OnSome result (arena < length self.now.arenas) }
        ensures at { IfSome result (λ locked.
            slice_get self.now.stand arena ≡ Some locked.now) }
        ensures here { IfSome result (λ locked.
            StandsInPlace self.now.arenas arena locked.now) }
    {
        self.arenas.get(arena as usize)
    }
}

/// Why an arena didn't grow.
#[derive(PartialEq, Eq, Debug, Drop)]
pub enum NotGrown {
    /// No arena has the number.
    NoArena,
    /// The arena has a source.
    NotRoot,
    /// The arena itself refused it.
    Refused(GrowthRefused),
    /// The arena isn't where it was set up.
    Misplaced(Misplaced),
}

impl NotGrown {
    /// The fault that it is; none where the arena isn't where it was set up.
    pub fn fault(&self) -> Option<GrowFault>
        ensures { result ≡ grow_fault self.now }
    {
        match self {
            NotGrown::NoArena => Some(GrowFault::NoArena),
            NotGrown::NotRoot => Some(GrowFault::NotRoot),
            NotGrown::Refused(refused) => Some(refused.fault()),
            NotGrown::Misplaced(_) => None,
        }
    }
}

/// Why no root was handed over by an arena.
#[derive(PartialEq, Eq, Debug, Drop)]
pub enum NotHandedOver {
    Misplaced(Misplaced),
    NotCounted(NotCounted),
}

/// Why no span was taken out of an arena.
#[derive(PartialEq, Eq, Debug, Drop)]
pub enum NotTaken {
    Misplaced(Misplaced),
    NoneWhole(NoneWhole),
}

/// How many quantum caches the arenas before each have.
fn all_caches_before(tree: &Tree) -> [usize; MOST_ARENAS]
    ensures { AreCachesBefore tree.now result }
{
    let mut counts = [0; MOST_ARENAS];
    let mut before: usize = 0;
    for id in 0..tree.len() {
        counts[id] = before;
        before += cache_count(tree, id as u32) as usize;
    }
    counts
}
