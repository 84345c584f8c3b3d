//! The gate that processors pass before they look at the ready queue.

ghost use Rattle.std.specs.Prelude.{◌≡◌, ℕ, Bool, true, false, IfOk, IfErr};
ghost use Rattle.fak_run.specs.Gates.{IsOfGate, look_behind};

use crate::fault::Fault;

/// The gate that a processor passes before each look at the ready queue. An implementation has two methods. The ghost
/// members are for proofs only and have defaults: a gate that may refuse, and that may return anything.
pub trait Gate {
    /// Whether the gate may ever refuse a processor. A gate that never refuses sets this member to false, as `FreeGate`
    /// does.
    ghost refuses: { Self → Bool } = { λ _. true };

    /// What `pass` may return to the processor of this number at its look of this number.
    ghost answers: { Self → ℕ → ℕ → Bool → Type 0 } = { λ _ _ _ _. Unit {0} };

    /// Whether `pass` may return false.
    fn may_refuse(&self) -> bool
        ensures { result ≡ refuses self.now };

    /// Lets the processor of this number take the look of this number, counted from 0. After 2^64 - 1 looks the number
    /// no longer changes. False is a refusal, and ends the run.
    fn pass(&self, processor: u64, step: u64) -> bool
        ensures free { refuses self.now ≡ false → result ≡ true }
        ensures answer { answers self.now processor step result };
}

/// A gate that never refuses.
#[derive(Clone, Copy, Debug, PartialEq, Eq, Drop)]
pub struct FreeGate;

impl Gate for FreeGate {
    ghost refuses = { λ _. false };

    fn may_refuse(&self) -> bool {
        false
    }

    fn pass(&self, _processor: u64, _step: u64) -> bool {
        true
    }
}

/// The looks of a processor at the ready queue.
#[derive(Debug, Drop)]
pub struct Looks {
    processor: u64,
    made: u64,
}

impl Looks {
    /// The looks of the processor of this number, before the first one.
    pub fn new(processor: u64) -> Looks
        ensures { result ≡ record { processor = processor; made = 0 } }
    {
        Looks { processor, made: 0 }
    }

    /// Passes the gate before the next look.
    ///
    /// # Errors
    ///
    /// `Gate`, if the gate may refuse and did.
    pub fn pass<G: Gate>(&mut self, gate: &G) -> Result<(), Fault>
        ensures next { self.new ≡ record self.old { made = look_behind self.old.made } }
        ensures passed { IfOk result (λ _. G.answers gate.now self.old.processor self.old.made true) }
        ensures gate { IfErr result (λ fault. IsOfGate (G.refuses gate.now) fault) }
        ensures refused { IfErr result (λ _. G.answers gate.now self.old.processor self.old.made false) }
    {
        let step = self.made;
        self.made = step.saturating_add(1);
        if gate.pass(self.processor, step) {
            return Ok(());
        }
        Err(Fault::Gate)
    }
}
