//! The law of a gate's refusal.

ghost use Rattle.std.specs.Prelude.{◌≡◌, ◌⊎◌, ℕ, true, false};
ghost use Rattle.fak_run.specs.Gates.{IsRefused};

/// A processor is refused at a look only after all its earlier looks passed.
pub fn a_refusal_follows_looks_that_passed()
    ensures first { IsRefused (λ look passes. (look ≡ 0) × (passes ≡ false)) }
    ensures second { IsRefused (λ look passes. ((look ≡ 0) × (passes ≡ true)) ⊎ ((look ≡ 1) × (passes ≡ false))) }
    ensures unasked { IsRefused (λ look passes. (look ≡ 1) × (passes ≡ false)) → ⊥ }
    ensures passed { IsRefused (λ look passes. passes ≡ true) → ⊥ }
{}
