//! What may and may not come next in a file table's history, on both sides of each part of the definition.

ghost use Rattle.std.specs.Prelude.{[], ◌∷◌};
ghost use Rattle.fak_model.specs.declared.file.FileField.TheVariants.{Inode, Uses};
ghost use Rattle.fak_model.specs.declared.file.FileKind.TheVariants.{Take, Over, Back, No, Set, Give};
ghost use Rattle.fak_model.specs.File.{IsFileHistory};
ghost use Rattle.fak_model.specs.Examples.{Parts, file_by};

/// The marks of a seat are whole calls; the last call may be cut short.
pub fn the_calls_of_a_file_table_are_judged()
    ensures back { Parts (IsFileHistory 2) (file_by 0 (Take 2) ∷ []) (file_by 1 (Over 1) ∷ file_by 1 (Back 1) ∷ [])
        (file_by 1 (Back 1) ∷ []) }
    ensures back_amount { Parts (IsFileHistory 2) (file_by 0 (Take 2) ∷ file_by 1 (Over 1) ∷ [])
        (file_by 1 (Back 1) ∷ []) (file_by 1 (Back 2) ∷ []) }
    ensures give { Parts (IsFileHistory 2) [] (file_by 0 (Take 1) ∷ file_by 0 Give ∷ []) (file_by 0 Give ∷ []) }
    ensures give_again { Parts (IsFileHistory 2) (file_by 0 (Take 1) ∷ file_by 0 Give ∷ [])
        (file_by 0 (Take 1) ∷ file_by 0 Give ∷ []) (file_by 0 Give ∷ []) }
    ensures take { Parts (IsFileHistory 2) (file_by 0 (Take 1) ∷ []) (file_by 1 (Take 1) ∷ [])
        (file_by 0 (Take 1) ∷ []) }
    ensures no { Parts (IsFileHistory 2) (file_by 0 (Take 2) ∷ []) (file_by 1 (No 1) ∷ []) (file_by 0 (No 1) ∷ []) }
    ensures set { Parts (IsFileHistory 0) [] (file_by 0 (Take 0) ∷ file_by 0 (Set 0 Inode 7) ∷ [])
        (file_by 0 (Set 0 Inode 7) ∷ []) }
    ensures set_after_give { Parts (IsFileHistory 0) (file_by 0 (Take 0) ∷ [])
        (file_by 0 (Set 0 Uses 1) ∷ file_by 0 Give ∷ []) (file_by 0 Give ∷ file_by 0 (Set 0 Uses 1) ∷ []) }
{}

/// A hold has the amount 1 or the number of seats. It is granted if the count has that much, and refused if the count
/// has less. Only a writer sets a field.
pub fn the_answers_of_a_file_table_are_judged()
    ensures take { Parts (IsFileHistory 2) (file_by 0 (Take 1) ∷ []) (file_by 1 (Take 1) ∷ [])
        (file_by 1 (Take 2) ∷ []) }
    ensures take_amount { Parts (IsFileHistory 3) [] (file_by 0 (Take 3) ∷ []) (file_by 0 (Take 2) ∷ []) }
    ensures no { Parts (IsFileHistory 2) (file_by 0 (Take 1) ∷ []) (file_by 1 (No 2) ∷ []) (file_by 1 (No 1) ∷ []) }
    ensures no_amount { Parts (IsFileHistory 3) (file_by 0 (Take 3) ∷ []) (file_by 1 (No 1) ∷ [])
        (file_by 1 (No 2) ∷ []) }
    ensures over { Parts (IsFileHistory 2) (file_by 0 (Take 1) ∷ []) (file_by 1 (Over 2) ∷ [])
        (file_by 1 (Over 1) ∷ []) }
    ensures over_amount { Parts (IsFileHistory 3) (file_by 0 (Take 3) ∷ []) (file_by 1 (Over 3) ∷ [])
        (file_by 1 (Over 2) ∷ []) }
    ensures set { Parts (IsFileHistory 2) [] (file_by 0 (Take 2) ∷ file_by 0 (Set 0 Inode 7) ∷ [])
        (file_by 0 (Take 1) ∷ file_by 0 (Set 0 Inode 7) ∷ []) }
    ensures count_over { Parts (IsFileHistory 2) (file_by 0 (Take 1) ∷ file_by 1 (Over 2) ∷ file_by 0 Give ∷ [])
        (file_by 0 (No 1) ∷ []) (file_by 1 (Back 2) ∷ file_by 0 (No 1) ∷ []) }
    ensures count_give { Parts (IsFileHistory 2) (file_by 0 (Take 2) ∷ []) (file_by 1 (No 2) ∷ [])
        (file_by 0 Give ∷ file_by 1 (No 2) ∷ []) }
{}
