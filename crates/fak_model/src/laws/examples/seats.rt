//! Which lists of names are distinct.

ghost use Rattle.std.specs.Prelude.{[], ◌∷◌};
ghost use Rattle.fak_model.specs.Seats.{AreApart};

/// A list in which a name occurs twice is not distinct, wherever the name is in it.
pub fn names_that_are_apart_are_judged()
    ensures apart { AreApart (0 ∷ 1 ∷ 2 ∷ []) }
    ensures first { AreApart (0 ∷ 1 ∷ 0 ∷ []) → ⊥ }
    ensures later { AreApart (0 ∷ 1 ∷ 1 ∷ []) → ⊥ }
{}
