//! CPUs that go offline.
ghost use Rattle.std.specs.Prelude.{◌≡◌, ◌≢◌, [], None, OnOk, OnErr};
ghost use Rattle.std.specs.List.{find};
ghost use Rattle.lease_book.specs.BookState.{BookState};
ghost use Rattle.lease_machine.specs.Picture.{is_cpu, IsHeld};
ghost use Rattle.stock_desk.specs.Operators.{IsOffline};
ghost use Rattle.stock_desk.specs.Supplies.{picture_with};

use crate::cpus::{FIRST_ROUNDS, index_of};
use crate::endings::empty;
use crate::supplies::Supply;
use lease_proto::CpuNumber;
use local_parts::CpuCaches;
use std::alloc::AllocError;
use std::mem;

impl Supply {
    /// Puts all rounds of the CPU of this number into their slabs, and has it begin anew; nothing
    /// where it was never made. Out of memory, for its new magazines, changes nothing.
    pub(crate) fn offline(&mut self, number: CpuNumber) -> Result<(), AllocError>
        requires held { (b : BookState) × IsHeld [] (picture_with b self.old) }
        ensures ok { OnOk result ((b : BookState) → IsHeld [] (picture_with b self.old)
            → IsOffline number (picture_with b self.old) (picture_with b self.new)) }
        ensures err { OnErr result (find (is_cpu number) self.old.cpus ≢ None) }
        ensures unchanged { OnErr result (self.new ≡ self.old) }
    {
        let Some(index) = index_of(self.cpus.as_slice(), number) else {
            return Ok(());
        };
        let fresh = CpuCaches::new(self.alloc, &self.stock, FIRST_ROUNDS)?;
        let cpu = &mut self.cpus[index];
        let old = mem::replace(&mut cpu.caches, fresh);
        empty(self.alloc, &self.tree, &mut self.stock, old);
        Ok(())
    }
}
