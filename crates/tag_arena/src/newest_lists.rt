//! Power-of-two lists of free ranges, each linked from the newest to the oldest through the slots
//! of its ranges. So a range comes and goes without a search.
ghost use Rattle.std.specs.Prelude.{◌≡◌, ◌<◌, ◌≤◌, ℕ, List, [], Option, None, Some, OnOk, true};
ghost use Rattle.tag_arena.specs.FreeTags.{FreeTag, tag_at, SlotBecomes, IsTimed, ArePowers};
ghost use Rattle.tag_arena.specs.Linked.{IsLinked, IsNewestFrom, lists_room};

use crate::short_indexes::{MOST_INDEXES, ShortIndex};
use crate::slots::SlotTag;
use std::alloc::{AllocError, Global};
use std::marker::Model;

/// How many lists there are: one for each bit of a length.
const LISTS: usize = 64;

/// The slots beside a slot on its list.
#[derive(Clone, Copy, Debug)]
pub(crate) struct Link {
    pub newer: ShortIndex,
    pub older: ShortIndex,
}

/// The lists, with nothing on them where they aren't kept.
#[derive(Drop)]
pub(crate) struct NewestLists {
    kept: bool,
    /// The slot of the newest of each list.
    newest: [Option<usize>; LISTS],
    /// A link for each slot that there may be.
    links: Vec<Link>,
}

impl Model for NewestLists {
    ghost use Rattle.std.specs.Prelude.{◌≡◌, ◌≤◌, length};
    ghost use Rattle.tag_arena.specs.declared.short_indexes.TheConstants.{MOST_INDEXES};
    ghost use Rattle.tag_arena.specs.Linked.{ListsState};

    ghost Value = { ListsState };

    ghost view = { λ l. record { kept = l.kept; newest = l.newest; links = l.links.items } };

    ghost invariant = { λ l. (length l.newest ≡ 64) × (length l.links.items ≤ MOST_INDEXES) };
}

impl NewestLists {
    /// Lists with nothing on them.
    pub(crate) fn new(alloc: Global, kept: bool) -> NewestLists
        ensures is_kept { result.kept ≡ kept }
        ensures linked { IsLinked result [] }
    {
        let newest = [None; LISTS];
        let links = Vec::new(alloc);
        NewestLists {
            kept,
            newest,
            links,
        }
    }

    /// Makes room for links of the slots below `room`, where the lists are kept. Where there are
    /// more than `MOST_INDEXES`, that is refused.
    pub(crate) fn reserve(&mut self, room: usize) -> Result<(), AllocError>
        ensures ok { OnOk result (self.old.kept ≡ true → room ≤ lists_room self.new) }
        ensures linked { (tags : List (Option FreeTag)) → IsLinked self.old tags
            → IsLinked self.new tags }
        ensures is_kept { self.new.kept ≡ self.old.kept }
        ensures grows { lists_room self.old ≤ lists_room self.new }
    {
        if !self.kept || room <= self.links.len() {
            return Ok(());
        }
        if room > MOST_INDEXES {
            return Err(AllocError);
        }
        let alone = Link {
            newer: ShortIndex::none(),
            older: ShortIndex::none(),
        };
        self.links.resize(room, alone)
    }

    /// The range in a slot becomes the newest of its list, where the lists are kept.
    pub(crate) fn enter(&mut self, slot: usize, tag: SlotTag)
        requires power { tag.power < 64 }
        requires room { self.old.kept ≡ true → slot < lists_room self.old }
        requires linked { self.old.kept ≡ true
            → (tags : List (Option FreeTag)) × IsLinked self.old tags }
        ensures linked { self.old.kept ≡ true → (old new : List (Option FreeTag))
            → IsLinked self.old old → IsTimed old → tag_at old slot ≡ None
            → ((k : ℕ) (t : FreeTag) → tag_at old k ≡ Some t → t.since < tag.since)
            → SlotBecomes old new slot (Some tag) → IsLinked self.new new }
        ensures is_kept { self.new.kept ≡ self.old.kept }
        ensures room { lists_room self.new ≡ lists_room self.old }
    {
        if !self.kept {
            return;
        }
        let list = tag.power() as usize;
        let newest = self.newest[list];
        self.links[slot] = Link {
            newer: ShortIndex::none(),
            older: ShortIndex::to(newest),
        };
        if let Some(older) = newest {
            self.links[older].newer = ShortIndex::to(Some(slot));
        }
        self.newest[list] = Some(slot);
    }

    /// The range in a slot leaves its list, where the lists are kept.
    pub(crate) fn strike(&mut self, slot: usize, tag: SlotTag)
        requires power { tag.power < 64 }
        requires linked { self.old.kept ≡ true → (tags : List (Option FreeTag))
            × IsLinked self.old tags × (tag_at tags slot ≡ Some tag) }
        ensures linked { self.old.kept ≡ true → (old new : List (Option FreeTag))
            → IsLinked self.old old → IsTimed old → tag_at old slot ≡ Some tag
            → SlotBecomes old new slot None → IsLinked self.new new }
        ensures is_kept { self.new.kept ≡ self.old.kept }
        ensures room { lists_room self.new ≡ lists_room self.old }
    {
        if !self.kept {
            return;
        }
        let Link { newer, older } = self.links[slot];
        match newer.get() {
            Some(newer) => self.links[newer].older = older,
            None => self.newest[tag.power() as usize] = older.get(),
        }
        if let Some(older) = older.get() {
            self.links[older].newer = newer;
        }
    }

    /// The slot of the newest range of the first list, from a list on, that has one.
    pub(crate) fn newest_from(&self, list: u32) -> Option<usize>
        ensures { (tags : List (Option FreeTag)) → IsLinked self.now tags → ArePowers tags
            → IsNewestFrom list tags result }
    {
        for at in list as usize..LISTS {
            if let Some(slot) = self.newest[at] {
                return Some(slot);
            }
        }
        None
    }
}
