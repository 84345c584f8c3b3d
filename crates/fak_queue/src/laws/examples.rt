//! Known cases on either side of what the rule states of a queue's seats, and of their accounts.

ghost use Rattle.std.specs.Prelude.{◌≡◌, ℕ, [], ◌∷◌};
ghost use Rattle.fak_model.specs.declared.note.NoteKind.TheVariants.{AsReceiver, AsSender};
ghost use Rattle.fak_model.specs.declared.note.Sign.TheVariants.{FallsAsleep, IsWoken, Registers, WakesEnd};
ghost use Rattle.fak_model.specs.Calls.{ObjectId};
ghost use Rattle.fak_channel_core.specs.SleeperSides.{Asleep, Awake, Woken};
ghost use Rattle.fak_core.specs.QueueSchedule.{Inserts, reached};
ghost use Rattle.fak_queue.specs.Queues.{kinds_in};
ghost use Rattle.fak_queue.specs.Shown.{IsReachedBy};
ghost use Rattle.fak_queue.specs.SleeperSeats.{account_of_seat, lone_sleeper};

/// A queue of two seats may show a state in which the second has begun an insertion. A queue of one seat may not.
pub fn the_seats_of_a_queue_are_judged()
    ensures among { IsReachedBy {T = ℕ} 1 2 (reached 1 (Inserts 1 10 ∷ [])) }
    ensures beyond { IsReachedBy {T = ℕ} 1 1 (reached 1 (Inserts 1 10 ∷ [])) → ⊥ }
{}

/// The account of a seat, by its marks and notes. An insertion owes a look for a receiver. A wake that is noted after it pays
/// this look, one that is noted before it does not. A sender that has fallen asleep and was woken is awake once it inserts, and
/// is still woken if it has inserted before.
pub fn the_accounts_of_seats_are_judged()
    ensures owes { (o : ObjectId) → (account_of_seat (lone_sleeper {T = ℕ} o (kinds_in 0 10) [])).receiver.looks ≡ 1 }
    ensures pays { (o : ObjectId) → (account_of_seat (lone_sleeper {T = ℕ} o (kinds_in 0 10)
        (record { kind = AsReceiver (WakesEnd 1); after = 4 } ∷ []))).receiver.looks ≡ 0 }
    ensures early { (o : ObjectId) → (account_of_seat (lone_sleeper {T = ℕ} o (kinds_in 0 10)
        (record { kind = AsReceiver (WakesEnd 1); after = 0 } ∷ []))).receiver.looks ≡ 1 }
    ensures once { (o : ObjectId) → (account_of_seat (lone_sleeper {T = ℕ} o (kinds_in 0 10)
        (record { kind = AsSender IsWoken; after = 0 } ∷ []))).receiver.looks ≡ 1 }
    ensures asleep { (o : ObjectId) → (account_of_seat (lone_sleeper {T = ℕ} o []
        (record { kind = AsSender FallsAsleep; after = 0 } ∷ record { kind = AsSender Registers; after = 0 } ∷ []))).sender.stage
        ≡ Asleep }
    ensures tried { (o : ObjectId) → (account_of_seat (lone_sleeper {T = ℕ} o (kinds_in 0 10)
        (record { kind = AsSender IsWoken; after = 0 } ∷ []))).sender.stage ≡ Awake }
    ensures woken { (o : ObjectId) → (account_of_seat (lone_sleeper {T = ℕ} o (kinds_in 0 10)
        (record { kind = AsSender IsWoken; after = 4 } ∷ []))).sender.stage ≡ Woken }
{}
