//! What holds after every list of events. The functions do nothing: their contracts are the laws.
ghost use Rattle.world_core.specs.Safe.{AlwaysSafe};
ghost use Rattle.world_core.specs.Drains.{AdoptsWhatIsThere, LosesByAdopting, DrainsAll};

/// Whatever happens to a world, it is one, and it is safe.
pub fn always_safe()
    ensures { AlwaysSafe }
{}

/// What a CPU has that fails goes to others, all of it. A CPU that hasn't failed, with an empty
/// hand, adopts a segment of another just where that has one. Whatever else happens, what a failed
/// CPU has goes by adopting alone. And one CPU alone can take over all that another has, and bring
/// it home.
pub fn drain_laws()
    ensures adopts { AdoptsWhatIsThere }
    ensures loses { LosesByAdopting }
    ensures drains { DrainsAll }
{}
