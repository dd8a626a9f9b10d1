//! The world.
ghost use Rattle.std.specs.Prelude.{◌≡◌, IfOk, OnErr};
ghost use Rattle.world_core.specs.Events.{HappensAs, HappensTo};
ghost use Rattle.world_core.specs.Safe.{Safe};

use crate::events::{Outcome, WorldEvent};
use crate::parts::WorldParts;
use deed_core::{Deed, Numbered};
use std::alloc::{AllocError, Global};
use std::marker::Model;

/// A stock, CPUs, a book and its clients, with all lines and replies that were ever sent.
pub struct World<D: Deed> {
    pub(crate) parts: WorldParts<D>,
}

impl<D: Deed> Model for World<D> {
    ghost use Rattle.std.specs.Coded.{codes, coded_ℕ};
    ghost use Rattle.std.specs.Ordering.{nat_cmp};
    ghost use Rattle.std.specs.FinMap as finmap;
    ghost use Rattle.deed_core.specs.Holding.{Holding};
    ghost use Rattle.world_core.specs.WorldState.{WorldState};
    ghost use Rattle.world_core.specs.IsWorld.{IsWorld};

    ghost Value = { WorldState };

    ghost coded = { Prim.hlevel
        (codes, finmap.code {X = Holding} {R = nat_cmp} coded_ℕ (Prim.hlevel codes)) };

    ghost view = { λ w. w.parts };

    ghost invariant = { λ w. IsWorld w.parts };
}

impl<D: Numbered> World<D> {
    /// Lets an event happen.
    pub fn step(&mut self, event: WorldEvent) -> Outcome
        ensures ended { HappensAs event result self.old self.new }
        ensures safe { Safe self.new }
    {
        self.parts.step(event)
    }

    /// Lets events happen, one after the other, and tells what became of each. Where it is out of
    /// memory for that list, nothing happens.
    pub fn run(&mut self, alloc: Global, events: &[WorldEvent]) -> Result<Vec<Outcome>, AllocError>
        ensures happened { IfOk result
            (λ outcomes. HappensTo events.now outcomes.items self.old self.new) }
        ensures unchanged { OnErr result (self.new ≡ self.old) }
        ensures safe { Safe self.new }
    {
        // For its clause: a world is safe.
        self.check();
        let mut outcomes = Vec::with_capacity(alloc, events.len())?;
        for event in events {
            outcomes.push_reserved(self.step(*event));
        }
        self.check();
        Ok(outcomes)
    }

    /// What is true of every world. This does nothing: it is called for its clause.
    fn check(&self)
        ensures { Safe self.now }
    {
        let _ = &self.parts;
    }
}
