//! Workers that gather.
ghost use Rattle.std.specs.Prelude.{◌≡◌, ◌≤◌, true, false};
ghost use Rattle.vmemd.specs.Musters.{AreReady};

use std::sync::Wait;

/// Workers that are to have their CPUs before anyone is told of a server.
pub trait Muster {
    ghost use Rattle.std.specs.Prelude.{ℕ, Bool};

    // whether one may be found that has no memory for its CPU
    ghost may_starve: { Self → Bool → Type 0 };

    // how many may be found to have their CPUs
    ghost may_count: { Self → ℕ → Type 0 };

    /// Whether one had no memory for its CPU.
    fn is_starved(&self) -> bool
        ensures { may_starve self.now result };

    /// How many have their CPUs.
    fn ready(&self) -> u64
        ensures { may_count self.now result };

    /// Waits before it is looked again.
    fn pause(&mut self);
}

/// Waits until each worker has its CPU, and says whether they have.
pub fn are_ready<R: Wait, M: Muster>(rt: &R, muster: &mut M, workers: u32) -> bool
    ensures ready { result ≡ true → AreReady M.may_count muster.new workers }
    ensures starved { result ≡ false → M.may_starve muster.new true }
{
    for _ in rt.forever() {
        if muster.is_starved() {
            return false;
        }
        if muster.ready() >= u64::from(workers) {
            return true;
        }
        muster.pause();
    }
    unreachable!()
}
