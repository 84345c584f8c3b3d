//! How the steps and the calls of a seat that can sleep change its account: its stage in each role, the looks that it owes,
//! and whether it owes a check.

ghost use Rattle.std.specs.Prelude.{◌≡◌, ◌≢◌, ◌⊎◌, ℕ, ℤ, ◌+◌, ◌*◌, ◌<◌, ◌≤◌, true, Bool, []};
ghost use Rattle.fak_model.specs.declared.note.Sign.{Sign};
ghost use Rattle.fak_model.specs.declared.note.Sign.TheVariants.{PassesWord, WakesEnd};
ghost use Rattle.fak_channel_core.specs.SleeperMoves.{Account, after_note};
ghost use Rattle.fak_channel_core.specs.SleeperSides.{Duty, after_sign, less};
ghost use Rattle.fak_queue.specs.declared.role.Role.{Role};
ghost use Rattle.fak_queue.specs.CallAccounts.{owes_check, owes_receiver, owes_sender, tries_in, tries_out};
ghost use Rattle.fak_queue.specs.Queues.{ClaimsIn, ClaimsOut, Fills, IsWorn, Makes, RefusesClosed, RefusesEmpty, RefusesFull, ShutsAs, Takes};
ghost use Rattle.fak_queue.specs.SleeperSeats.{KeepsNotes, SleeperInfo, account_of_seat};
ghost use Rattle.fak_queue.specs.Sleepers.{as_role, duty_as};

/// A step in one role changes the duty of this role, by its sign, and nothing else.
pub fn a_step_changes_its_own_role()
    ensures own { (n : ℕ) (role : Role) (v : Sign) (g : Account)
        → duty_as role (after_note n (as_role role v) g) ≡ after_sign n v (duty_as role g) }
    ensures other { (n : ℕ) (role other : Role) (v : Sign) (g : Account) → role ≢ other
        → duty_as other (after_note n (as_role role v) g) ≡ duty_as other g }
    ensures checks { (n : ℕ) (role : Role) (v : Sign) (g : Account) → (after_note n (as_role role v) g).checks ≡ g.checks }
{}

/// A look that wakes an end pays one look. A look over all words of bits in which no bit is set pays all looks: 64 seats share
/// a word.
pub fn a_look_pays()
    ensures wakes { (n k : ℕ) (g : Duty) → ((after_sign n (WakesEnd k) g).looks ≡ less g.looks)
        × ((after_sign n (WakesEnd k) g).stage ≡ g.stage) }
    ensures passes { (n w : ℕ) (g : Duty) → ((v : ℕ) → v < w → g.passed v ≡ true) → n ≤ 64 * (w + 1)
        → (after_sign n (PassesWord w) g).looks ≡ 0 }
    ensures passed { (n w : ℕ) (g : Duty) → (after_sign n (PassesWord w) g).passed w ≡ true }
    ensures still { (n w v : ℕ) (g : Duty) → g.passed v ≡ true → (after_sign n (PassesWord w) g).passed v ≡ true }
    ensures part { (n w : ℕ) (g : Duty) → ((after_sign n (PassesWord w) g).looks ≡ g.looks)
        ⊎ ((after_sign n (PassesWord w) g).looks ≡ 0) }
    ensures stage { (n w : ℕ) (g : Duty) → (after_sign n (PassesWord w) g).stage ≡ g.stage }
{}

/// What an insertion adds to the account. A woken sender has tried again. A withdrawal, and a refusal since the queue is shut,
/// owe a look for a sender; the end of an insertion owes one for a receiver.
pub fn an_insertion_changes_the_account<T>()
    ensures claims { (size k : ℕ) (x : T) (old new : SleeperInfo T) → KeepsNotes size old new
        → ClaimsIn size k x old.seat new.seat → account_of_seat new ≡ tries_in (account_of_seat old) }
    ensures full { (size : ℕ) (upper : ℤ) (old new : SleeperInfo T) → KeepsNotes size old new
        → RefusesFull size upper old.seat new.seat → (account_of_seat new ≡ tries_in (account_of_seat old))
        ⊎ (account_of_seat new ≡ owes_check (owes_sender (tries_in (account_of_seat old)))) }
    ensures closed { (size : ℕ) (old new : SleeperInfo T) → KeepsNotes size old new → RefusesClosed size old.seat new.seat
        → (account_of_seat new ≡ owes_sender (tries_in (account_of_seat old)))
        ⊎ (account_of_seat new ≡ owes_check (owes_sender (tries_in (account_of_seat old)))) }
    ensures fills { (size k : ℕ) (old new : SleeperInfo T) → KeepsNotes size old new → Fills size k old.seat new.seat
        → account_of_seat new ≡ owes_receiver (account_of_seat old) }
{}

/// What a deletion adds to the account. A woken receiver has tried again. A withdrawal owes a look for a receiver. The end of a
/// deletion owes one for a sender, and a check. A refusal by its first test owes a check.
pub fn a_deletion_changes_the_account<T>()
    ensures claims { (size k : ℕ) (old new : SleeperInfo T) → KeepsNotes size old new → ClaimsOut size k old.seat new.seat
        → account_of_seat new ≡ tries_out (account_of_seat old) }
    ensures empty { (size : ℕ) (lower : ℤ) (old new : SleeperInfo T) → KeepsNotes size old new
        → RefusesEmpty size lower old.seat new.seat → (account_of_seat new ≡ owes_check (tries_out (account_of_seat old)))
        ⊎ (account_of_seat new ≡ owes_receiver (tries_out (account_of_seat old))) }
    ensures takes { (size k : ℕ) (x : T) (old new : SleeperInfo T) → KeepsNotes size old new
        → Takes size k x old.seat new.seat → account_of_seat new ≡ owes_check (owes_sender (account_of_seat old)) }
{}

/// What the other calls add to the account: a shut owes a look for a sender and a check. A call that leaves no mark adds nothing,
/// nor does one of a worn seat.
pub fn other_calls_change_the_account<T>()
    ensures shuts { (size : ℕ) (first : Bool) (old new : SleeperInfo T) → KeepsNotes size old new
        → ShutsAs size first old.seat new.seat → account_of_seat new ≡ owes_check (owes_sender (account_of_seat old)) }
    ensures observes { (size : ℕ) (old new : SleeperInfo T) → KeepsNotes size old new → Makes size [] old.seat new.seat
        → account_of_seat new ≡ account_of_seat old }
    ensures worn { (size : ℕ) (old new : SleeperInfo T) → KeepsNotes size old new → IsWorn old.seat new.seat
        → account_of_seat new ≡ account_of_seat old }
{}
