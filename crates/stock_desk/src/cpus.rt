//! The CPUs that an operator's lines name, in order of making.
ghost use Rattle.std.specs.Prelude.{◌≡◌, position, slice_get, Some, false, IfOk, OnOk, OnErr};
ghost use Rattle.std.specs.List.{list_any};
ghost use Rattle.lease_machine.specs.Operators.{with_cpu};
ghost use Rattle.lease_machine.specs.Picture.{NumberedCpu, Picture, is_cpu};

use deed_core::PlainDeed;
use lease_proto::CpuNumber;
use local_parts::CpuCaches;
use std::alloc::{AllocError, Global};
use std::marker::Model;
use stock::Stock;

/// How many rounds the magazines of a new CPU take.
pub(crate) const FIRST_ROUNDS: usize = 3;

/// A CPU by its number, with its caches of each arena. It is never copied or dropped.
pub(crate) struct Cpu {
    pub number: CpuNumber,
    pub caches: CpuCaches<PlainDeed>,
}

impl Model for Cpu {
    ghost use Rattle.lease_machine.specs.Picture.{NumberedCpu};

    ghost Value = { NumberedCpu };

    ghost view = { λ c. record { number = c.number; caches = c.caches } };
}

/// The index of the CPU of this number, which is made if it is new. Out of memory changes nothing.
pub(crate) fn select(
    alloc: Global,
    stock: &Stock<PlainDeed>,
    cpus: &mut Vec<Cpu>,
    number: CpuNumber,
) -> Result<usize, AllocError>
    ensures index { IfOk result
        (λ index. (c : NumberedCpu) × (slice_get cpus.new.items index ≡ Some c)
        × (c.number ≡ number)) }
    ensures ok { OnOk result ((d : Picture) → d.cpus ≡ cpus.old.items → d.spaces ≡ stock.now
        → cpus.new.items ≡ with_cpu number d) }
    ensures unchanged { OnErr result (cpus.new.items ≡ cpus.old.items) }
    ensures lacked { OnErr result (list_any (is_cpu number) cpus.old.items ≡ false) }
{
    if let Some(index) = index_of(cpus.as_slice(), number) {
        return Ok(index);
    }
    cpus.reserve(1)?;
    let caches = CpuCaches::new(alloc, stock, FIRST_ROUNDS)?;
    let index = cpus.len();
    cpus.push_reserved(Cpu { number, caches });
    Ok(index)
}

/// Where the CPU of this number stands.
pub(crate) fn index_of(cpus: &[Cpu], number: CpuNumber) -> Option<usize>
    ensures { result ≡ position (is_cpu number) cpus.now }
{
    cpus.iter().position(|cpu| cpu.number.get() == number.get())
}
