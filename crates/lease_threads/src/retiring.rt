//! The end of a CPU.
ghost use Rattle.std.specs.Prelude.{◌≡◌, None, IfErr};
ghost use Rattle.lease_threads.specs.Systems.{HoldsNothing};
ghost use Rattle.locked_parts.specs.Kinds.{AreForSame};
ghost use Rattle.lease_threads.specs.Retiring.{DrainsSoundly, RetiresSoundly, IsDrained, IsStuck};

use crate::cpus::Cpu;
use crate::systems::System;
use deed_table::Name;
use locked_parts::{OpenGate, Running};
use quantum_cache::{EmptyingFault, drain};
use std::sync::Wait;

impl<N: Name> System<N> {
    /// Places the hand and all rounds of a CPU, which then ends. Where a part refuses one of them,
    /// the CPU comes back with what it still has, and this may be tried again.
    pub fn retire<R: Wait>(&self, rt: &R, cpu: Cpu<N>) -> Result<(), Cpu<N>>
        ensures number { IfErr result (λ rest. rest.number ≡ cpu.number) }
        ensures magazines { IfErr result (λ rest. AreForSame cpu.caches rest.caches) }
        ensures rest { IfErr result (λ rest. ¬ HoldsNothing rest) }
        ensures left { IfErr result (λ rest. RetiresSoundly self.now.arenas cpu.hand rest.hand) }
        ensures stuck { IfErr result (IsStuck self.now.arenas) }
    {
        let mut cpu = cpu;
        self.drain(rt, &mut cpu);
        match cpu.end() {
            Ok(()) => Ok(()),
            Err((cpu, _)) => Err(cpu),
        }
    }

    /// The same for a CPU that a gate stopped, whoever has it now.
    pub fn drain_failed<R: Wait>(&self, rt: &R, cpu: Cpu<N>) -> Result<(), Cpu<N>>
        ensures number { IfErr result (λ rest. rest.number ≡ cpu.number) }
        ensures magazines { IfErr result (λ rest. AreForSame cpu.caches rest.caches) }
        ensures rest { IfErr result (λ rest. ¬ HoldsNothing rest) }
        ensures left { IfErr result (λ rest. RetiresSoundly self.now.arenas cpu.hand rest.hand) }
        ensures stuck { IfErr result (IsStuck self.now.arenas) }
    {
        self.retire(rt, cpu)
    }

    /// Places the hand, and then all rounds of the CPU, as far as that goes: one that a part
    /// refuses is the hand then.
    pub fn drain<R: Wait>(&self, rt: &R, cpu: &mut Cpu<N>)
        ensures number { cpu.new.number ≡ cpu.old.number }
        ensures magazines { AreForSame cpu.old.caches cpu.new.caches }
        ensures left { RetiresSoundly self.now.arenas cpu.old.hand cpu.new.hand }
        ensures drained { IsDrained self.now.arenas cpu.new }
    {
        if self.place_hand(rt, cpu).is_ok() {
            self.drain_rounds(rt, cpu);
        }
    }

    /// Places all rounds, as far as that goes.
    fn drain_rounds<R: Wait>(&self, rt: &R, cpu: &mut Cpu<N>)
        requires { cpu.old.hand ≡ None }
        ensures number { cpu.new.number ≡ cpu.old.number }
        ensures magazines { AreForSame cpu.old.caches cpu.new.caches }
        ensures left { DrainsSoundly self.now.arenas cpu.new.hand }
        ensures drained { IsDrained self.now.arenas cpu.new }
    {
        let number = cpu.number();
        let mut running = Running::new(&self.parts, rt, &OpenGate, number, &mut cpu.caches);
        match drain(&mut running, self.parts.tree()) {
            Ok(()) => {}
            Err(EmptyingFault::Stuck(segment)) => cpu.hold(segment),
            Err(EmptyingFault::Stopped(Some(segment))) => cpu.hold(segment),
            Err(EmptyingFault::Stopped(None)) => {}
        }
    }
}
