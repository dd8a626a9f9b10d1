//! How a stock is made of a setup and the deeds of its spans: whole, or not at all.
ghost use Rattle.std.specs.Prelude.{◌≡◌, ℕ, ◌+◌, ◌<◌, ◌≤◌, [], All, IfOk, IfErr, OnOk, OnErr};
ghost use Rattle.std.specs.Prelude.{length, map, reverse, slice_get, sum_by, Some, None};
ghost use Rattle.std.specs.Prelude.{vec_len, vec_capacity};
ghost use Rattle.deed_core.specs.Holding.{Holding};
ghost use Rattle.deed_core.specs.Weights.{WeighSame};
ghost use Rattle.magazine_layer.specs.Magazines.{IsSize};
ghost use Rattle.tag_arena.specs.ArenaState.{OnQuantum};
ghost use Rattle.tag_arena.specs.Calls.{IsClear, after_add};
ghost use Rattle.stock.specs.Spaces.{SpaceState, plans_of};
ghost use Rattle.stock.specs.Accounts.{Accounts, Frames};
ghost use Rattle.stock.specs.Steps.{OnArena};
ghost use Rattle.stock.specs.Endings.{IsReaped, IsTakenOutAt, OthersAreSame};
ghost use Rattle.stock.specs.Setups.{AreDeedsOf, IsSetUpFrom, IsNewSpace, plans_for};
ghost use Rattle.stock.specs.Owning.{weight_owned, AreOwnedOrLeft};

use crate::setups::StockSetup;
use crate::stocks::Stock;
use arena_tree::Setup;
use deed_core::Deed;
use std::alloc::{AllocError, Global};
use tag_arena::SpanFault;

impl<D: Deed> Stock<D> {
    /// The stock of a setup: all its arenas with their quantum caches, and all its owned spans, of
    /// which these are the deeds, in the setup's order. Its magazines take `rounds` rounds. It has
    /// no names; an arena's index is its number in the setup. It fails only when out of memory: no
    /// span of a setup overlaps another of its arena or is off its grid. All deeds come back then,
    /// in any order, since those that were spans already are taken out again, the lowest first.
    pub fn of(
        alloc: Global,
        setup: &Setup,
        rounds: usize,
        deeds: Vec<D>,
    ) -> Result<Stock<D>, Vec<D>>
        requires rounds { IsSize rounds }
        requires deeds { AreDeedsOf setup.now.spans (map D.holding deeds.items) }
        ensures set_up { IfOk result (IsSetUpFrom setup.now (map D.holding deeds.items) rounds) }
        ensures nothing_out { IfOk result (λ spaces. Accounts spaces []) }
        ensures handed_back { IfErr result
            (λ same. WeighSame (map D.holding deeds.items) (map D.holding same.items)) }
    {
        let mut deeds = deeds;
        let Ok(mut stock) = StockSetup::of_tree(alloc, setup.tree(), rounds) else {
            return Err(deeds);
        };
        deeds.reverse();
        match stock.own_all(setup, &mut deeds) {
            Ok(()) => {
                deeds.destroy_empty();
                Ok(stock.finish())
            }
            Err(_) => {
                stock.give_back(&mut deeds);
                Err(deeds)
            }
        }
    }
}

impl<D: Deed> StockSetup<D> {
    /// Adds the spans of a setup, of which these are the deeds, the last first. Out of memory, the
    /// deeds that aren't spans yet are left.
    fn own_all(&mut self, setup: &Setup, deeds: &mut Vec<D>) -> Result<(), AllocError>
        requires planned { plans_of self.old ≡ plans_for setup.now.arenas }
        requires unused { (rounds : ℕ) × All (IsNewSpace rounds) self.old }
        requires deeds { AreDeedsOf setup.now.spans (map D.holding (reverse deeds.old.items)) }
        ensures set_up { OnOk result ((rounds : ℕ) → All (IsNewSpace rounds) self.old
            → IsSetUpFrom setup.now (map D.holding (reverse deeds.old.items)) rounds self.new) }
        ensures none { OnOk result (vec_len deeds.new ≡ 0) }
        ensures bare { All IsReaped self.new }
        ensures deeds { AreOwnedOrLeft (map D.holding deeds.old.items) self.new
            (map D.holding deeds.new.items) }
        ensures room { vec_capacity deeds.new ≡ vec_capacity deeds.old }
    {
        // For its clause: what is always so of a stock.
        let _ = self.count();
        for span in setup.spans() {
            let deed = deeds.pop().unwrap();
            if let Err(deed) = self.own(span.arena as usize, deed) {
                deeds.push_reserved(deed);
                return Err(AllocError);
            }
        }
        Ok(())
    }

    /// Adds a span, of which this is the deed. Out of memory, the deed is handed back.
    fn own(&mut self, arena: usize, deed: D) -> Result<(), D>
        requires within { arena < length self.old }
        requires root { (s : SpaceState) → slice_get self.old arena ≡ Some s → s.source ≡ None }
        requires clear { (s : SpaceState) → slice_get self.old arena ≡ Some s
            → IsClear s.arena (D.holding deed).range }
        requires grid { (s : SpaceState) → slice_get self.old arena ≡ Some s
            → OnQuantum s.arena.quantum (D.holding deed).range }
        ensures added { OnOk result (OnArena arena (λ a b. b ≡ after_add a (D.holding deed))
            self.old self.new) }
        ensures fixed { plans_of self.new ≡ plans_of self.old }
        ensures unchanged { OnErr result (self.new ≡ self.old) }
        ensures handed_back { IfErr result (λ same. same ≡ deed) }
    {
        match self.add_span(arena, deed) {
            Ok(()) => Ok(()),
            Err(SpanFault::NoMemory(deed)) => Err(deed),
            Err(_) => unreachable!(),
        }
    }

    /// Ends what has only spans, all of them free, and gives their deeds.
    fn give_back(self, deeds: &mut Vec<D>)
        requires bare { All IsReaped self }
        requires room { sum_by (weight_owned (λ h. 1)) self + vec_len deeds.old
            ≤ vec_capacity deeds.old }
        ensures deeds { AreOwnedOrLeft (map D.holding deeds.new.items) self
            (map D.holding deeds.old.items) }
    {
        let mut stock = self.finish();
        for arena in 0..stock.count() {
            stock.take_out(arena, deeds);
        }
        match stock.close() {
            Ok(()) => {}
            Err(_) => unreachable!(),
        }
    }
}

impl<D: Deed> Stock<D> {
    /// Takes all owned spans of an arena out that are wholly free, and gives their deeds.
    fn take_out(&mut self, arena: usize, deeds: &mut Vec<D>)
        requires within { arena < length self.old }
        requires room { sum_by (weight_owned (λ h. 1)) self.old + vec_len deeds.old
            ≤ vec_capacity deeds.old }
        ensures taken { IsTakenOutAt self.new arena }
        ensures others { OthersAreSame arena self.old self.new }
        ensures reaped { All IsReaped self.old → All IsReaped self.new }
        ensures deeds { (f : Holding → ℕ) → sum_by (weight_owned f) self.old
            + sum_by f (map D.holding deeds.old.items) ≡ sum_by (weight_owned f) self.new
            + sum_by f (map D.holding deeds.new.items) }
        ensures frame { Frames self.old [] self.new [] }
        ensures fixed { plans_of self.new ≡ plans_of self.old }
        ensures room { vec_capacity deeds.new ≡ vec_capacity deeds.old }
    {
        while let Some(deed) = self.remove_owned(arena) {
            deeds.push_reserved(deed);
        }
    }
}
