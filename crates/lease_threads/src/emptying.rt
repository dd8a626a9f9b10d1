//! What a system does with all that lies in its parts when it ends: leases are ended, depots and
//! slabs are emptied, and what comes of them goes back to its arena and up the chain.
ghost use Rattle.std.specs.Prelude.{◌≡◌, ◌≢◌, None, OnErr, OnOk, length};

use crate::cpus::Cpu;
use crate::hands::Unplaced;
use crate::systems::System;
use deed_table::Name;
use locked_parts::Interval;
use shared_book::NoLease;
use std::sync::Wait;

impl<N: Name> System<N> {
    /// Ends all leases, and empties all depots and slabs. Where a segment can't be placed it ends
    /// there, and the segment is in the CPU's hand.
    pub(crate) fn empty_parts<R: Wait>(&self, rt: &R, cpu: &mut Cpu<N>) -> Result<(), Unplaced>
        ensures placed { OnOk result (cpu.new.hand ≡ None) }
        ensures stuck { OnErr result (cpu.new.hand ≢ None) }
    {
        let none = self.end_leases(rt, cpu)?;
        let begun = self.tick(rt);
        self.reap_all(rt, cpu, none, begun)
    }

    /// Ends all leases, one after another, until none stands, or one isn't placed.
    fn end_leases<R: Wait>(&self, rt: &R, cpu: &mut Cpu<N>) -> Result<NoLease, Unplaced>
        ensures placed { OnOk result (cpu.new.hand ≡ None) }
        ensures stuck { OnErr result (cpu.new.hand ≢ None) }
    {
        self.place_hand(rt, cpu)?;
        for _ in rt.forever() {
            match self.book.take_lease(rt) {
                Ok(segment) => cpu.hold(segment),
                Err(none) => return Ok(none),
            }
            self.place_hand(rt, cpu)?;
        }
        unreachable!()
    }

    /// Empties all depots and slabs, the last arena first, once no lease stands and an interval
    /// began in each depot, up to a segment that isn't placed.
    fn reap_all<R: Wait>(
        &self,
        rt: &R,
        cpu: &mut Cpu<N>,
        _none: NoLease,
        _begun: Interval,
    ) -> Result<(), Unplaced>
        requires hand { cpu.old.hand ≡ None }
        requires begun { _begun ≡ length self.now.arenas }
        ensures placed { OnOk result (cpu.new.hand ≡ None) }
        ensures stuck { OnErr result (cpu.new.hand ≢ None) }
    {
        for arena in (0..self.parts.tree().len() as u32).rev() {
            let _ = self.reap(rt, cpu, arena, u64::MAX);
            // What a part refused is offered once more.
            self.place_hand(rt, cpu)?;
        }
        Ok(())
    }
}
