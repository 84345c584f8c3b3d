//! What may and may not come next in a room's history, on both sides of each part of the definition.

ghost use Rattle.std.specs.Prelude.{[], ◌∷◌};
ghost use Rattle.fak_model.specs.declared.room.RoomKind.TheVariants.{Up, Over, Back, No, Release};
ghost use Rattle.fak_model.specs.Room.{IsRoomHistory};
ghost use Rattle.fak_model.specs.Examples.{Parts, room_by};

/// The marks of a seat are whole calls; the last call may be cut short.
pub fn the_calls_of_a_room_are_judged()
    ensures back { Parts (IsRoomHistory 2) (room_by 0 (Up 2) ∷ []) (room_by 1 (Over 1) ∷ room_by 1 (Back 1) ∷ [])
        (room_by 1 (Back 1) ∷ []) }
    ensures back_amount { Parts (IsRoomHistory 2) (room_by 0 (Up 2) ∷ room_by 1 (Over 1) ∷ []) (room_by 1 (Back 1) ∷ [])
        (room_by 1 (Back 2) ∷ []) }
    ensures begun_again { Parts (IsRoomHistory 2) (room_by 0 (Up 2) ∷ room_by 1 (Over 1) ∷ [])
        (room_by 1 (Back 1) ∷ room_by 1 (No 1) ∷ []) (room_by 1 (No 1) ∷ []) }
    ensures others { Parts (IsRoomHistory 2) (room_by 0 (Up 2) ∷ room_by 1 (Over 1) ∷ []) (room_by 0 (No 1) ∷ [])
        (room_by 1 (Over 1) ∷ []) }
{}

/// A claim is granted if its amount plus the value is at most the bound, and refused if it is more. No seat gives back
/// more than it holds.
pub fn the_answers_of_a_room_are_judged()
    ensures up { Parts (IsRoomHistory 2) (room_by 0 (Up 1) ∷ []) (room_by 1 (Up 1) ∷ []) (room_by 1 (Up 2) ∷ []) }
    ensures no { Parts (IsRoomHistory 2) (room_by 0 (Up 1) ∷ []) (room_by 1 (No 2) ∷ []) (room_by 1 (No 1) ∷ []) }
    ensures over { Parts (IsRoomHistory 2) (room_by 0 (Up 1) ∷ []) (room_by 1 (Over 2) ∷ []) (room_by 1 (Over 1) ∷ []) }
    ensures release { Parts (IsRoomHistory 2) (room_by 0 (Up 1) ∷ []) (room_by 0 (Release 1) ∷ [])
        (room_by 0 (Release 2) ∷ []) }
    ensures release_twice { Parts (IsRoomHistory 2) (room_by 0 (Up 1) ∷ room_by 1 (Up 1) ∷ room_by 0 (Release 1) ∷ [])
        (room_by 1 (Release 1) ∷ []) (room_by 0 (Release 1) ∷ []) }
    ensures value_over { Parts (IsRoomHistory 2) (room_by 0 (Up 2) ∷ room_by 1 (Over 1) ∷ room_by 0 (Release 2) ∷ [])
        (room_by 2 (No 2) ∷ []) (room_by 1 (Back 1) ∷ room_by 2 (No 2) ∷ []) }
    ensures value_release { Parts (IsRoomHistory 2) (room_by 0 (Up 2) ∷ []) (room_by 1 (No 1) ∷ [])
        (room_by 0 (Release 1) ∷ room_by 1 (No 1) ∷ []) }
{}
