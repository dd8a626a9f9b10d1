//! Arenas as they are made, before they are put under their locks.
ghost use Rattle.std.specs.Prelude.{◌≡◌, ◌+◌, ◌-◌, ◌*◌, ◌<◌, ◌≤◌, IfOk, OnOk, length};
ghost use Rattle.arena_tree.specs.Settings.{span_count};
ghost use Rattle.arena_tree.specs.declared.limits.TheConstants.{MOST_SPANS};
ghost use Rattle.locked_parts.specs.News.{IsMadeAsSet, locked_of, numbered_from, ranges_owned};

use crate::arena_parts::ArenaPart;
use crate::end_rooms::EndRoom;
use crate::kinds::cache_count;
use crate::locked_arenas::LockedArena;
use crate::locked_caches::LockedCache;
use crate::new_caches::{NewCache, add_caches, end_caches, lock_caches};
use crate::owned_spans::{end_whole, own_each};
use arena_tree::{MOST_SPANS, OwnedSpan, Tree, TreeArena};
use deed_table::{Name, Opener, Root, Roots};
use std::alloc::{AllocError, Global};
use std::marker::Model;
use tag_arena::Arena;

/// An arena all of whose units are free, with a root of each span that it owns, its new caches, and
/// room for as many under their locks. A contract sees what it is set up with, and its roots.
pub struct NewArena<N: Name> {
    part: ArenaPart<N>,
    roots: Vec<Root<N>>,
    caches: Vec<NewCache<N>>,
    locked: Vec<LockedCache<N>>,
}

impl<N: Name> Model for NewArena<N> {
    ghost use Rattle.std.specs.Prelude.{◌≡◌, ◌≤◌, [], vec_len, vec_capacity};
    ghost use Rattle.locked_parts.specs.News.{AreWhole, NewArenaState};

    ghost Value = { NewArenaState };

    ghost view = { λ a. record {
      id = a.part.arena.id;
      quantum = a.part.arena.quantum;
      policy = a.part.arena.policy;
      source = a.part.source;
      caches = a.caches.items;
      roots = a.roots.items;
    } };

    ghost invariant = { λ a. AreWhole a.part.arena a.roots.items
        × (a.part.roots.roots ≡ [])
        × (vec_len a.caches ≤ vec_capacity a.locked) × (vec_len a.locked ≡ 0)
        × (a.part.beside ≡ vec_len a.roots) };
}

impl<N: Name> NewArena<N> {
    /// Opens the arena of this number, with a root of its own for each of these spans that it owns,
    /// in their order. It takes as many numbers as an arena may own spans: the first ones are the
    /// roots', the others are for further roots.
    pub fn open(
        alloc: Global,
        tree: &Tree,
        id: u32,
        spans: &[OwnedSpan],
        numbers: &mut Opener<N>,
    ) -> Result<NewArena<N>, AllocError>
        requires within { id < length tree.now }
        requires few { span_count id spans.now ≤ MOST_SPANS }
        requires first { numbers.old.first ≡ MOST_SPANS * id }
        requires left { MOST_SPANS ≤ numbers.old.left }
        ensures roots { IfOk result (λ a. a.roots
            ≡ numbered_from (MOST_SPANS * id) (ranges_owned id spans.now)) }
        ensures set_up { IfOk result (IsMadeAsSet tree.now id) }
        ensures first { OnOk result (numbers.new.first ≡ numbers.old.first + MOST_SPANS) }
        ensures left { OnOk result (numbers.new.left ≡ numbers.old.left - MOST_SPANS) }
    {
        let mut opener = numbers.share(MOST_SPANS as u64)?;
        let count = cache_count(tree, id);
        let locked = Vec::with_capacity(alloc, count as usize)?;
        let Ok(mut caches) = Vec::with_capacity(alloc, count as usize) else {
            locked.destroy_empty();
            return Err(AllocError);
        };
        let TreeArena {
            source,
            quantum,
            policy,
            ..
        } = *tree.arena(id);
        let mut arena = Arena::new(alloc, id, quantum, policy);
        let mut roots = Vec::new(alloc);
        let mut room = EndRoom::none(alloc);
        let Ok(()) = own_each(id, spans, &mut opener, &mut arena, &mut roots, &mut room) else {
            end_whole(arena, roots);
            room.end();
            locked.destroy_empty();
            caches.destroy_empty();
            return Err(AllocError);
        };
        add_caches(alloc, tree, id, count, &mut caches);
        let part = ArenaPart {
            source,
            arena,
            roots: Roots::new(alloc, opener),
            beside: roots.len(),
            room,
        };
        Ok(NewArena {
            part,
            roots,
            caches,
            locked,
        })
    }

    /// Puts it and its caches under their locks, and hands out its roots.
    pub fn lock(self) -> (LockedArena<N>, Vec<Root<N>>)
        ensures arena { result.0 ≡ locked_of self }
        ensures roots { result.1.items ≡ self.roots }
    {
        let NewArena {
            part,
            roots,
            caches,
            mut locked,
        } = self;
        lock_caches(caches, &mut locked);
        (LockedArena::new(part, locked), roots)
    }

    /// Ends it, and closes its roots.
    pub fn end(self) {
        let NewArena {
            part,
            roots,
            caches,
            locked,
        } = self;
        let ArenaPart {
            source: _,
            arena,
            roots: further,
            beside: _,
            room,
        } = part;
        further.end();
        room.end();
        locked.destroy_empty();
        end_caches(caches);
        end_whole(arena, roots);
    }
}
