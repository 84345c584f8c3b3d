//! Conclusions about gates.

ghost use Rattle.std.specs.Prelude.{◌≡◌, ℕ, Bool, true, false};
ghost use Rattle.fak_run.specs.Gates.{IsRefused};

use fak_run::laws::gates::a_refusal_follows_looks_that_passed;

/// A gate that refuses the first look refuses a processor, and so does one that passes the first look and refuses the
/// second. A gate refuses nobody if it passes every look. Nor does it if only its second look is made, and refused.
pub fn a_gate_refuses_after_its_passes()
    ensures first { (passes : ℕ → Bool) → passes 0 ≡ false → IsRefused (λ look found. passes look ≡ found) }
    ensures second { (passes : ℕ → Bool) → passes 0 ≡ true → passes 1 ≡ false
        → IsRefused (λ look found. passes look ≡ found) }
    ensures unasked { (passes looks : ℕ → Bool) → ((k : ℕ) → looks k ≡ true → k ≡ 1) → passes 1 ≡ false
        → IsRefused (λ look found. (looks look ≡ true) × (passes look ≡ found)) → ⊥ }
    ensures passed { (passes : ℕ → Bool) → ((k : ℕ) → passes k ≡ true)
        → IsRefused (λ look found. passes look ≡ found) → ⊥ }
{
    a_refusal_follows_looks_that_passed();
}
