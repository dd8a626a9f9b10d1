//! What a request or another call left in a CPU's hand goes back.
ghost use Rattle.std.specs.Prelude.{◌≡◌, ◌≢◌, None, IfSome, OnOk, OnErr};
ghost use Rattle.locked_parts.specs.Kinds.{AreForSame};
ghost use Rattle.lease_threads.specs.Retiring.{IsUnplaced};

use crate::cpus::Cpu;
use crate::systems::System;
use arena_tree::ReturnFault;
use deed_table::Name;
use lease_call::place;
use locked_parts::{OpenGate, Running};
use std::sync::Wait;

/// That a hand wasn't placed. Only `System::place_hand` makes one, where it tried.
#[derive(PartialEq, Eq, Debug, Drop)]
pub(crate) struct Unplaced(());

impl<N: Name> System<N> {
    /// Frees the hand, if it holds a segment.
    pub(crate) fn place_hand<R: Wait>(&self, rt: &R, cpu: &mut Cpu<N>) -> Result<(), Unplaced>
        ensures number { cpu.new.number ≡ cpu.old.number }
        ensures magazines { AreForSame cpu.old.caches cpu.new.caches }
        ensures empty { OnOk result (cpu.new.hand ≡ None) }
        ensures held_on { OnErr result ((cpu.old.hand ≢ None) × (cpu.new.hand ≢ None)) }
        ensures unplaced { OnErr result
            (IfSome cpu.new.hand (IsUnplaced self.now.arenas cpu.old.hand)) }
    {
        let Some(segment) = cpu.hand.take() else {
            return Ok(());
        };
        let tree = self.parts.tree();
        // For its clause: it is a tree.
        let _ = tree.len();
        let number = cpu.number();
        let mut running = Running::new(&self.parts, rt, &OpenGate, number, &mut cpu.caches);
        match place(&mut running, tree, segment) {
            Ok(()) => Ok(()),
            Err(ReturnFault::Stuck(segment)) => {
                cpu.hold(segment);
                Err(Unplaced(()))
            }
            Err(ReturnFault::Stopped(segment)) => {
                cpu.hold(segment);
                Err(Unplaced(()))
            }
        }
    }
}
