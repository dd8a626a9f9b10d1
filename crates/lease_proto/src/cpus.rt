//! The numbers of CPUs.
ghost use Rattle.std.specs.Prelude.{◌≡◌};
ghost use Rattle.std.specs.Option.{SomeIff};
ghost use Rattle.lease_proto.specs.Cpus.{IsCpu, cpu_in};

use crate::faults::LineFault;
use crate::limits::LAST_CPU;
use crate::numbers::number;
use std::marker::Model;

/// A CPU's number, 0 to `LAST_CPU`.
#[derive(Clone, Copy, Debug, PartialEq, Eq)]
pub struct CpuNumber {
    number: u32,
}

impl Model for CpuNumber {
    ghost use Rattle.std.specs.Prelude.{ℕ};
    ghost use Rattle.lease_proto.specs.Cpus.{IsCpu};

    ghost Value = { ℕ };

    ghost view = { λ c. c.number };

    ghost invariant = { λ c. IsCpu c.number };

    ghost inverse = { λ n. record { number = n } };
}

impl CpuNumber {
    /// The first CPU, which is there from the start.
    pub const FIRST: CpuNumber = CpuNumber { number: 0 };

    /// `None` above `LAST_CPU`.
    pub fn new(value: u32) -> Option<Self>
        ensures { SomeIff result (IsCpu value) value }
    {
        if value <= LAST_CPU {
            Some(CpuNumber { number: value })
        } else {
            None
        }
    }

    /// Its number.
    pub fn get(self) -> u32
        ensures value { result ≡ self }
        ensures range { IsCpu self }
    {
        self.number
    }
}

/// The CPU that a word writes, or `Number` where it writes none.
pub(crate) fn cpu(word: &[u8]) -> Result<CpuNumber, LineFault>
    ensures { result ≡ cpu_in word.now }
{
    let value = number(word)?;
    match u32::try_from(value).ok().and_then(CpuNumber::new) {
        Some(cpu) => Ok(cpu),
        None => Err(LineFault::Number),
    }
}
