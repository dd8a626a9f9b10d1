//! The sums of an arena, as its stock knows them.
ghost use Rattle.std.specs.Prelude.{◌≡◌, ◌+◌, ◌^◌, ◌<◌, ◌≤◌, List, length, slice_get, Some};
ghost use Rattle.std.specs.Prelude.{flat_map, replicate, set, take};
ghost use Rattle.arena_tree.specs.declared.limits.TheConstants.{MOST_ARENAS};
ghost use Rattle.deed_core.specs.Tag.{Tag};
ghost use Rattle.deed_core.specs.Covering.{units_held};
ghost use Rattle.slab_layer.specs.Cache.{deeds_of};
ghost use Rattle.magazine_layer.specs.Depots.{depot_rounds};
ghost use Rattle.tag_arena.specs.Spanned.{holdings_of};
ghost use Rattle.stock.specs.Spaces.{SpaceState};
ghost use Rattle.stock.specs.Accounts.{Accounts};
ghost use Rattle.stock.specs.Sums.{TellEach, TellsSums, as_leased, held_of, no_sums};

use crate::stocks::Stock;
use arena_tree::MOST_ARENAS;
use deed_core::Deed;
use std::marker::Model;

/// The units of one arena, by where they are.
#[derive(Clone, Copy, PartialEq, Eq, Debug)]
pub struct ArenaSums {
    /// Those that a carve may still take.
    pub free: u128,
    /// In slabs: idle chunks, colour gaps and tails.
    pub slab: u128,
    /// In magazines, of depots and of CPUs.
    pub magazine: u128,
    /// In the spans of the arenas that import from it.
    pub exported: u128,
    /// Leased.
    pub leased: u128,
    /// In hands.
    pub hand: u128,
}

/// Room for the sums of as many arenas as a setup may have.
#[derive(Drop)]
pub struct SumsRoom {
    told: [ArenaSums; MOST_ARENAS],
}

impl Model for SumsRoom {
    ghost use Rattle.std.specs.Prelude.{List};
    ghost use Rattle.stock.specs.declared.sums.ArenaSums.{ArenaSums};

    ghost Value = { List ArenaSums };

    ghost view = { λ r. r.told };
}

impl SumsRoom {
    /// No arena has a unit in it yet.
    pub fn new() -> SumsRoom
        ensures { result ≡ replicate MOST_ARENAS no_sums }
    {
        let none = ArenaSums {
            free: 0,
            slab: 0,
            magazine: 0,
            exported: 0,
            leased: 0,
            hand: 0,
        };
        SumsRoom {
            told: [none; MOST_ARENAS],
        }
    }

    /// These are the sums of the arena at the index from here on.
    pub fn tell(&mut self, arena: usize, sums: ArenaSums)
        requires { arena < MOST_ARENAS }
        ensures { self.new ≡ set self.old arena sums }
    {
        self.told[arena] = sums;
    }

    /// The sums of so many arenas, the first ones.
    pub fn first(&self, count: usize) -> &[ArenaSums]
        requires { count ≤ MOST_ARENAS }
        ensures value { result.now ≡ take count self.now }
        ensures all { length result.now ≡ count }
    {
        &self.told[..count]
    }
}

impl<D: Deed> Stock<D> {
    /// The sums of each arena, in order of setup, lent in the caller's room. A stock doesn't know
    /// who has what is out of it, so all of that counts as leased, the rounds of CPUs too. It takes
    /// no memory, and goes over the slabs and the depots of all caches and, for each arena, over the
    /// arenas, in constant time each.
    pub fn sums<'a>(&self, room: &'a mut SumsRoom) -> &'a [ArenaSums]
        requires balanced { (out : List Tag) × Accounts self.now out }
        ensures { (out : List Tag) → Accounts self.now out
            → TellEach self.now (as_leased out) result.now }
    {
        let count = self.count();
        for arena in 0..count {
            room.tell(arena, self.arena_sums(arena));
        }
        room.first(count)
    }

    /// The sums of the arena at the index: those that `sums` tells of it.
    pub fn arena_sums(&self, arena: usize) -> ArenaSums
        requires within { arena < length self.now }
        requires balanced { (out : List Tag) × Accounts self.now out }
        ensures { (out : List Tag) → Accounts self.now out
            → TellsSums self.now arena (as_leased out) result }
    {
        // For its clause, here and below: what is always so of a stock.
        let _ = self.count();
        let _ = self.arena_report(arena);
        let magazine = self.depots_units(arena);
        self.sums_with(arena, magazine)
    }

    /// The same, counted by parts: one round of the depots after another.
    pub fn sums_by_parts(&self, arena: usize) -> ArenaSums
        requires within { arena < length self.now }
        requires balanced { (out : List Tag) × Accounts self.now out }
        ensures { (out : List Tag) → Accounts self.now out
            → TellsSums self.now arena (as_leased out) result }
    {
        let _ = self.count();
        let _ = self.arena_report(arena);
        let magazine = self.units_by_rounds(arena);
        self.sums_with(arena, magazine)
    }

    /// The sums of the arena at the index, of whose depots these are the units.
    fn sums_with(&self, arena: usize, magazine: u128) -> ArenaSums
        requires within { arena < length self.now }
        requires balanced { (out : List Tag) × Accounts self.now out }
        requires depots { (s : SpaceState) → slice_get self.now arena ≡ Some s
            → magazine ≡ units_held (flat_map (λ c. holdings_of (depot_rounds c.depot)) s.caches) }
        ensures { (out : List Tag) → Accounts self.now out
            → TellsSums self.now arena (as_leased out) result }
    {
        let _ = self.count();
        let report = self.arena_report(arena);
        let slab = self.slab_units(arena);
        let exported = self.exported_units(arena);
        let elsewhere = slab + magazine + exported;
        ArenaSums {
            free: report.free,
            slab,
            magazine,
            exported,
            leased: report.allocated - elsewhere,
            hand: 0,
        }
    }

    /// The units that lie in the slabs of the arena's caches.
    fn slab_units(&self, arena: usize) -> u128
        requires within { arena < length self.now }
        requires fits { (s : SpaceState) → slice_get self.now arena ≡ Some s
            → units_held (flat_map (λ c. deeds_of c.slab) s.caches) < 2 ^ 128 }
        ensures { (s : SpaceState) → slice_get self.now arena ≡ Some s
            → result ≡ units_held (flat_map (λ c. deeds_of c.slab) s.caches) }
    {
        let mut units: u128 = 0;
        for cache in 0..self.caches(arena) {
            let report = self.slab_report(arena, cache);
            units += u128::from(report.idle) + u128::from(report.gap) + u128::from(report.tail);
        }
        units
    }

    /// The units of the rounds in its depots.
    fn depots_units(&self, arena: usize) -> u128
        requires within { arena < length self.now }
        requires fits { (s : SpaceState) → slice_get self.now arena ≡ Some s
            → units_held (flat_map (λ c. holdings_of (depot_rounds c.depot)) s.caches) < 2 ^ 128 }
        ensures { (s : SpaceState) → slice_get self.now arena ≡ Some s
            → result ≡ units_held (flat_map (λ c. holdings_of (depot_rounds c.depot)) s.caches) }
    {
        let mut units: u128 = 0;
        for cache in 0..self.caches(arena) {
            units += self.depot_units(arena, cache);
        }
        units
    }

    /// The same, counted one round after another.
    fn units_by_rounds(&self, arena: usize) -> u128
        requires within { arena < length self.now }
        requires fits { (s : SpaceState) → slice_get self.now arena ≡ Some s
            → units_held (flat_map (λ c. holdings_of (depot_rounds c.depot)) s.caches) < 2 ^ 128 }
        ensures { (s : SpaceState) → slice_get self.now arena ≡ Some s
            → result ≡ units_held (flat_map (λ c. holdings_of (depot_rounds c.depot)) s.caches) }
    {
        let mut units: u128 = 0;
        for cache in 0..self.caches(arena) {
            units += self.depot_units_by_rounds(arena, cache);
        }
        units
    }

    /// The units of what the other arenas imported from it.
    fn exported_units(&self, arena: usize) -> u128
        requires fits { units_held (flat_map (λ x. held_of arena x.arena.imported) self.now)
            < 2 ^ 128 }
        ensures { result ≡ units_held (flat_map (λ x. held_of arena x.arena.imported) self.now) }
    {
        let mut units: u128 = 0;
        for child in 0..self.count() {
            units += self.imported_units(child, arena);
        }
        units
    }

    /// The units of what the first of two arenas imported from the second.
    fn imported_units(&self, child: usize, arena: usize) -> u128
        requires within { child < length self.now }
        ensures { (x : SpaceState) → slice_get self.now child ≡ Some x
            → result ≡ units_held (held_of arena x.arena.imported) }
    {
        // For its clause: what is always so of a stock.
        let _ = self.count();
        match self.source(child) {
            Some(source) if source as usize == arena => self.arena_report(child).span,
            _ => 0,
        }
    }
}
