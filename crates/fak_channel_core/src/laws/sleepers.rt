//! The laws of a channel whose sleepers are bits, for every number of ends, every size and every schedule.

ghost use Rattle.std.specs.Prelude.{◌*◌, ◌+◌, ◌≡◌, ◌≢◌, ◌≤◌, ℕ, ◌<◌, Bool, List, [], length, map, min, false};
ghost use Rattle.std.specs.List.{All};
ghost use Rattle.fak_model.specs.Queue.{contents};
ghost use Rattle.fak_core.specs.declared.queue.phase.Phase.TheVariants.{Idle};
ghost use Rattle.fak_core.specs.QueueMoves.{history_of};
ghost use Rattle.fak_core.specs.QueueProgress.{IsRound, SomeSeatMoves};
ghost use Rattle.fak_core.specs.QueueSchedule.{QueueEvent, happens, reached};
ghost use Rattle.fak_channel_core.specs.SleeperMoves.{SleeperState, account_by, queue_event};
ghost use Rattle.fak_channel_core.specs.SleeperProgress.{ComesOn, EndsCallWithin, steps_to_rest};
ghost use Rattle.fak_channel_core.specs.SleeperSchedule.{AllEndsRest, IsResting, ReceiverSigns, ReceiverSleeps, SenderSigns, SenderSleeps, SleeperEvent, end_of, marks_in, queue_events, sleeper_happens, sleeper_reached};
ghost use Rattle.fak_model.specs.declared.note.Sign.TheVariants.{FindsBit, FindsWord, IsWoken};
ghost use Rattle.fak_channel_core.specs.SleeperSides.{Asleep, Woken, shows_bits};

/// No wake-up is lost. If all ends rest, a receiver sleeps only if the channel is empty and open; a sender sleeps only if
/// it is full and open.
pub fn nobody_sleeps_beside_work<T>()
    ensures receiver { (n size e : ℕ) (schedule : List (SleeperEvent T)) → 0 < size
        → AllEndsRest n (sleeper_reached n size schedule) → ReceiverSleeps (sleeper_reached n size schedule) e
        → (contents (history_of (sleeper_reached n size schedule).queue) ≡ [])
        × ((sleeper_reached n size schedule).queue.shut ≡ false) }
    ensures sender { (n size e : ℕ) (schedule : List (SleeperEvent T)) → 0 < size
        → AllEndsRest n (sleeper_reached n size schedule) → SenderSleeps (sleeper_reached n size schedule) e
        → (length (contents (history_of (sleeper_reached n size schedule).queue)) ≡ size)
        × ((sleeper_reached n size schedule).queue.shut ≡ false) }
{}

/// The queue of a channel is the one that its own events lead to: a reached state of the queue core, so its laws apply.
pub fn the_queue_of_a_channel_is_reached<T>()
    ensures { (n size : ℕ) (schedule : List (SleeperEvent T))
        → (sleeper_reached n size schedule).queue ≡ reached size (queue_events n schedule) }
{}

/// In any state an event of the queue does to it what it does without sleepers.
pub fn a_queue_goes_its_own_way<T>()
    ensures { (n size : ℕ) (s : SleeperState T) (v : QueueEvent T)
        → (queue_event n size s v).queue ≡ happens size s.queue v }
{}

/// An end knows what it owes: its deeds alone tell its account, and no event of another end changes it. The marks among
/// all deeds are those of the queue.
pub fn an_end_knows_what_it_owes<T>()
    ensures told { (n size e : ℕ) (schedule : List (SleeperEvent T))
        → (sleeper_reached n size schedule).accounts e ≡ account_by n e (sleeper_reached n size schedule).log }
    ensures own { (n size e : ℕ) (s : SleeperState T) (v : SleeperEvent T) → e ≢ end_of v
        → (sleeper_happens n size s v).accounts e ≡ s.accounts e }
    ensures marks { (n size : ℕ) (schedule : List (SleeperEvent T))
        → marks_in (sleeper_reached n size schedule).log ≡ (sleeper_reached n size schedule).queue.past }
{}

/// A channel never locks up. While a call on its queue is open, some end's next step moves that end's call forward. An end
/// that has no such call open, and does not rest, can always take a step that leaves it less to do. There is nothing left
/// to do exactly if it rests.
pub fn a_channel_never_locks_up<T>()
    ensures call { (n size e : ℕ) (schedule : List (SleeperEvent T)) → 0 < size
        → (sleeper_reached n size schedule).queue.phase e ≢ Idle
        → SomeSeatMoves size n (sleeper_reached n size schedule).queue }
    ensures end { (n size e : ℕ) (schedule : List (SleeperEvent T)) → 0 < size → e < n
        → (sleeper_reached n size schedule).queue.phase e ≡ Idle
        → (IsResting (sleeper_reached n size schedule) e → ⊥) → ComesOn n size (sleeper_reached n size schedule) e }
    ensures rests { (n e : ℕ) (s : SleeperState T) → IsResting s e → steps_to_rest n s e ≡ 0 }
    ensures done { (n e : ℕ) (s : SleeperState T) → s.queue.phase e ≡ Idle → steps_to_rest n s e ≡ 0 → IsResting s e }
{}

/// A woken end goes on: a load of its own bit ends its sleep, in any state.
pub fn a_woken_end_goes_on<T>()
    ensures sender { (n size e : ℕ) (s : SleeperState T) → e < n → s.queue.phase e ≡ Idle
        → (s.accounts e).sender.stage ≡ Asleep → s.senders e ≡ false
        → ((sleeper_happens n size s (SenderSigns e IsWoken)).accounts e).sender.stage ≡ Woken }
    ensures receiver { (n size e : ℕ) (s : SleeperState T) → e < n → s.queue.phase e ≡ Idle
        → (s.accounts e).receiver.stage ≡ Asleep → s.receivers e ≡ false
        → ((sleeper_happens n size s (ReceiverSigns e IsWoken)).accounts e).receiver.stage ≡ Woken }
{}

/// A note of a bit is true: an end that would note anything else changes nothing, in any state. The same holds of a word of
/// bits.
pub fn a_note_of_a_bit_is_true<T>()
    ensures sender { (n size e k : ℕ) (b : Bool) (s : SleeperState T) → s.senders k ≢ b
        → sleeper_happens n size s (SenderSigns e (FindsBit k b)) ≡ s }
    ensures receiver { (n size e k : ℕ) (b : Bool) (s : SleeperState T) → s.receivers k ≢ b
        → sleeper_happens n size s (ReceiverSigns e (FindsBit k b)) ≡ s }
    ensures senders { (n size e w found : ℕ) (s : SleeperState T) → shows_bits s.senders w found ≡ false
        → sleeper_happens n size s (SenderSigns e (FindsWord w found)) ≡ s }
    ensures receivers { (n size e w found : ℕ) (s : SleeperState T) → shows_bits s.receivers w found ≡ false
        → sleeper_happens n size s (ReceiverSigns e (FindsWord w found)) ≡ s }
{}

/// Each call on the queue ends, even while new calls begin and ends sleep and look for sleepers. In a round each of the n
/// ends takes a step of its call on the queue at least once, in any order. After 3 min(size, n) + 4 such rounds each
/// insertion, deletion or shut that was open has ended.
pub fn every_call_of_a_channel_ends<T>()
    ensures { (n size e : ℕ) (schedule : List (SleeperEvent T)) (rounds : List (List (SleeperEvent T))) → 0 < size
        → All (IsRound n) (map (queue_events n) rounds) → 3 * min size n + 4 ≤ length rounds
        → EndsCallWithin n size rounds (sleeper_reached n size schedule) e }
{}
