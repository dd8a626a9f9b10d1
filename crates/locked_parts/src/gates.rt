//! Gates: who lets a request go on.
ghost use Rattle.std.specs.Prelude.{◌≡◌, ◌⊎◌, true, false};
ghost use Rattle.locked_parts.specs.Gates.{AsksGate, MayStop, step_after};

/// What may happen next: one call on one part under its lock, or one change of the CPU's own
/// magazines (`Pop`, `Push`, `Change`).
#[derive(Clone, Copy, PartialEq, Eq, Debug)]
pub enum EventName {
    /// The book is told of a hello, or asked what a request's number is.
    Look,
    Settle,
    Release,
    Sweep,
    Carve,
    Free,
    AddCarve,
    SlabTake,
    SlabPut,
    SlabAdd,
    SlabReap,
    Pop,
    Push,
    SwapFull,
    SwapEmpty,
    Change,
    DepotReap,
}

/// The next step of a request.
#[derive(Clone, Copy, PartialEq, Eq, Debug)]
pub struct NextStep {
    /// The number of the worker's CPU.
    pub cpu: u32,
    /// How many steps of this request came before.
    pub turn: u64,
    pub event: EventName,
}

/// Whether the request goes on.
#[derive(Clone, Copy, PartialEq, Eq, Debug)]
pub enum Pass {
    Go,
    Stop,
}

/// Is asked before each step of a request, and may wait. No lock is held meanwhile.
pub trait Gate {
    ghost use Rattle.std.specs.Prelude.{◌≡◌};
    ghost use Rattle.locked_parts.specs.declared.gates.NextStep.{NextStep};

    // it may say Stop before this step
    ghost may_stop: { Self → NextStep → Type 0 };

    // it was asked about this step, and let it come
    ghost passed: { Self → NextStep → Type 0 };

    /// Lets the step come, or ends the request before it.
    fn pass(&self, step: &NextStep) -> Pass
        ensures stop { result ≡ Pass.Stop → may_stop self.now step.now }
        ensures go { result ≡ Pass.Go → passed self.now step.now };
}

/// The gate that never stops a request.
#[derive(Clone, Copy, Drop)]
pub struct OpenGate;

impl Gate for OpenGate {
    ghost may_stop = { λ _ _. ⊥ };

    ghost passed = { λ _ _. Unit {0} };

    fn pass(&self, _step: &NextStep) -> Pass {
        Pass::Go
    }
}

/// The gate said Stop. The CPU keeps its hand and its magazines.
#[derive(Clone, Copy, PartialEq, Eq, Debug)]
pub struct RequestStopped;

/// The steps of one request, counted.
#[derive(Drop)]
pub struct StepCount {
    /// The number of the worker's CPU.
    pub cpu: u32,
    /// How many steps the gate was asked about; it stays at the greatest number.
    pub turn: u64,
    /// Whether the gate said Stop.
    pub noted: bool,
}

impl StepCount {
    /// No step yet, by the CPU with this number.
    pub fn new(cpu: u32) -> StepCount
        ensures { result ≡ record { cpu = cpu; turn = 0; noted = false } }
    {
        StepCount {
            cpu,
            turn: 0,
            noted: false,
        }
    }

    /// The next step, of this name.
    pub fn next(&self, event: EventName) -> NextStep
        ensures { result ≡ step_after self.now event }
    {
        NextStep {
            cpu: self.cpu,
            turn: self.turn,
            event,
        }
    }

    /// Asks the gate before the next step, and notes a Stop.
    pub fn stops<G: Gate>(&mut self, gate: &G, event: EventName) -> bool
        ensures asks { AsksGate G.may_stop G.passed gate.now event result self.old self.new }
        ensures noted { self.new.noted ≡ true
            → (self.old.noted ≡ true) ⊎ MayStop G.may_stop gate.now }
        ensures told { result ≡ true → self.new.noted ≡ true }
        ensures same { result ≡ false → self.new.noted ≡ self.old.noted }
        ensures kept { self.old.noted ≡ true → self.new.noted ≡ true }
    {
        let step = self.next(event);
        self.turn = self.turn.saturating_add(1);
        match gate.pass(&step) {
            Pass::Go => false,
            Pass::Stop => {
                self.noted = true;
                true
            }
        }
    }
}
