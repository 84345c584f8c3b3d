//! The atomic steps on the bits of sleepers, and the tests that belong to a sleep. Each comes between two calls of the
//! seat on the queue, and leaves no mark.

ghost use Rattle.std.specs.Prelude.{◌≡◌, ◌+◌, ◌%◌, ◌/◌, ◌<◌, ◌≤◌, ◌∷◌, [], true};
ghost use Rattle.fak_model.specs.Limits.{large_seats, large_size};
ghost use Rattle.fak_channel_core.specs.SleeperSides.{Awake, PastLower, Registered, Woken, relies_on_bit, has_bit};
ghost use Rattle.fak_core.specs.declared.queue.phase.Phase.TheVariants.{Idle};
ghost use Rattle.fak_queue.specs.BitSteps.{CheckedDrained, Cleared, GaveUp, Looked, SawBit, SetBit, TestedDrainedAgain, TestedItemAgain, TestedRoomAgain, TookBack, is_drained, mask_of};
ghost use Rattle.fak_queue.specs.SeatAccounts.{HasAccount};
ghost use Rattle.fak_queue.specs.Sleepers.{duty_as, first_bits};
ghost use Rattle.fak_queue.specs.StepTokens.{IsTokenOf, StandsAt, Tells};

use crate::found::NoRoom;
use crate::in_use::InUse;
use crate::role::Role;
use crate::steps::bit_plays::{
    CheckDrainedPlay, ClearPlay, GiveUpPlay, LookPlay, OfBits, SeeBitPlay, SetBitPlay,
    TakeBackPlay, TestDrainedAgainPlay, TestItemAgainPlay, TestRoomAgainPlay,
};
use crate::steps::{QueueToken, QueueWords};
use crate::words::{LOWER, TURNS, UPPER, read_in_use, read_lower, read_upper};

/// The word of this end's bit, in the table of a queue of this size.
fn word_of(role: Role, size: u64, name: u64) -> usize
    requires { (size ≤ large_size) × (name < large_seats) }
    ensures { result ≡ first_bits role size + name / 64 }
{
    let word = name as usize / 64;
    match role {
        Role::Sender => word,
        Role::Receiver => TURNS + size as usize + word,
    }
}

/// This end's bit in its word.
fn mask(name: u64) -> u64
    ensures { result ≡ mask_of name }
{
    1 << (name % 64)
}

/// Whether this end's bit is set in its word.
fn is_set(found: u64, name: u64) -> bool
    ensures { result ≡ has_bit found (name % 64) }
{
    (found >> (name % 64)) & 1 == 1
}

/// Sets the own bit. It comes before the second test: who makes room or an item from here on finds the bit.
pub(crate) fn set_bit<T, J: OfBits>(
    words: &QueueWords<T>,
    token: &mut QueueToken<T>,
    role: Role,
    size: u64,
    name: u64,
)
    requires token { IsTokenOf words.now.table_id words.now.key J.seats (StandsAt Idle) token.old }
    requires size { (size ≡ words.now.table_id.slots) × (size ≤ large_size) }
    requires name { (token.old.me.0.names ≡ name ∷ []) × (name < large_seats) }
    requires role { J.role ≡ role }
    requires account { HasAccount J.seats (λ g. (duty_as role g).stage ≡ Awake) token.old.me }
    ensures { Tells token.old token.new (λ n after. SetBit words.now.table_id.slots J.seats n role token.old.me after) }
{
    words.fetch_or::<SetBitPlay<J>>(token, word_of(role, size, name), mask(name));
}

/// Loads the own bit: whether it is still set. If it is not, another end has woken this one.
pub(crate) fn see_bit<T, J: OfBits>(
    words: &QueueWords<T>,
    token: &mut QueueToken<T>,
    role: Role,
    size: u64,
    name: u64,
) -> bool
    requires token { IsTokenOf words.now.table_id words.now.key J.seats (StandsAt Idle) token.old }
    requires size { (size ≡ words.now.table_id.slots) × (size ≤ large_size) }
    requires name { (token.old.me.0.names ≡ name ∷ []) × (name < large_seats) }
    requires role { J.role ≡ role }
    requires account { HasAccount J.seats (λ g. relies_on_bit (duty_as role g).stage ≡ true) token.old.me }
    ensures { Tells token.old token.new (λ n after. SawBit words.now.table_id.slots J.seats n role result token.old.me
        after) }
{
    let found = words.load::<SeeBitPlay<J>>(token, word_of(role, size, name));
    is_set(found, name)
}

/// Clears the own bit: whether it was set. If it was not, another end has woken this one. It follows a second test that
/// found what the end waits for, or a deadline.
pub(crate) fn take_back<T, J: OfBits>(
    words: &QueueWords<T>,
    token: &mut QueueToken<T>,
    role: Role,
    size: u64,
    name: u64,
) -> bool
    requires token { IsTokenOf words.now.table_id words.now.key J.seats (StandsAt Idle) token.old }
    requires size { (size ≡ words.now.table_id.slots) × (size ≤ large_size) }
    requires name { (token.old.me.0.names ≡ name ∷ []) × (name < large_seats) }
    requires role { J.role ≡ role }
    requires account { HasAccount J.seats (λ g. relies_on_bit (duty_as role g).stage ≡ true) token.old.me }
    ensures { Tells token.old token.new (λ n after. TookBack words.now.table_id.slots J.seats n role result token.old.me
        after) }
{
    let found = words.fetch_and::<TakeBackPlay<J>>(token, word_of(role, size, name), !mask(name));
    is_set(found, name)
}

/// Notes that a woken end does not try again, so that it owes a look. The load has no other use.
pub(crate) fn give_up<T, J: OfBits>(
    words: &QueueWords<T>,
    token: &mut QueueToken<T>,
    role: Role,
    size: u64,
    name: u64,
)
    requires token { IsTokenOf words.now.table_id words.now.key J.seats (StandsAt Idle) token.old }
    requires size { (size ≡ words.now.table_id.slots) × (size ≤ large_size) }
    requires name { (token.old.me.0.names ≡ name ∷ []) × (name < large_seats) }
    requires role { J.role ≡ role }
    requires account { HasAccount J.seats (λ g. (duty_as role g).stage ≡ Woken) token.old.me }
    ensures { Tells token.old token.new (λ n after. GaveUp words.now.table_id.slots J.seats n role token.old.me after) }
{
    words.load::<GiveUpPlay<J>>(token, word_of(role, size, name));
}

/// Loads a word of bits, for a look. If no bit is set, the look has passed the word.
pub(crate) fn look<T, J: OfBits>(
    words: &QueueWords<T>,
    token: &mut QueueToken<T>,
    role: Role,
    size: u64,
    word: u64,
) -> u64
    requires token { IsTokenOf words.now.table_id words.now.key J.seats (StandsAt Idle) token.old }
    requires size { (size ≡ words.now.table_id.slots) × (size ≤ large_size) }
    requires word { (J.number ≡ word) × (word < 16) }
    requires role { J.role ≡ role }
    ensures { Tells token.old token.new (λ n after. Looked words.now.table_id.slots J.seats n role word result
        token.old.me after) }
{
    words.load::<LookPlay<J>>(token, word_of(role, size, 64 * word))
}

/// Clears the bit of another end: whether it was set. If it was, this has woken that end, and its thread is to be woken.
pub(crate) fn clear<T, J: OfBits>(
    words: &QueueWords<T>,
    token: &mut QueueToken<T>,
    role: Role,
    size: u64,
    other: u64,
) -> bool
    requires token { IsTokenOf words.now.table_id words.now.key J.seats (StandsAt Idle) token.old }
    requires size { (size ≡ words.now.table_id.slots) × (size ≤ large_size) }
    requires other { (J.number ≡ other) × (other < large_seats) }
    requires role { J.role ≡ role }
    ensures { Tells token.old token.new (λ n after. Cleared words.now.table_id.slots J.seats n role other result
        token.old.me after) }
{
    let found = words.fetch_and::<ClearPlay<J>>(token, word_of(role, size, other), !mask(other));
    is_set(found, other)
}

/// The second test of a sender, that has set its bit: whether there is room, or why not. If the queue is full and open, the
/// sender falls asleep.
pub(crate) fn test_room_again<T, J: OfBits>(
    words: &QueueWords<T>,
    token: &mut QueueToken<T>,
    size: u64,
) -> Result<(), NoRoom>
    requires token { IsTokenOf words.now.table_id words.now.key J.seats (StandsAt Idle) token.old }
    requires size { (size ≡ words.now.table_id.slots) × (size ≤ large_size) }
    requires account { HasAccount J.seats (λ g. g.sender.stage ≡ Registered) token.old.me }
    ensures { Tells token.old token.new (λ n after. TestedRoomAgain words.now.table_id.slots J.seats n result
        token.old.me after) }
{
    let found = words.load::<TestRoomAgainPlay<J>>(token, UPPER);
    read_upper(found, size)
}

/// The second test of a receiver, that has set its bit: whether there is an item, or the lower count.
pub(crate) fn test_item_again<T, J: OfBits>(
    words: &QueueWords<T>,
    token: &mut QueueToken<T>,
) -> Result<(), i64>
    requires token { IsTokenOf words.now.table_id words.now.key J.seats (StandsAt Idle) token.old }
    requires account { HasAccount J.seats (λ g. g.receiver.stage ≡ Registered) token.old.me }
    ensures { Tells token.old token.new (λ n after. TestedItemAgain words.now.table_id.slots J.seats n result
        token.old.me after) }
{
    let found = words.load::<TestItemAgainPlay<J>>(token, LOWER);
    read_lower(found)
}

/// The rest of that test, which follows one that found no item: whether the channel is drained. If it is not, the receiver
/// falls asleep.
pub(crate) fn test_drained_again<T, J: OfBits>(
    words: &QueueWords<T>,
    token: &mut QueueToken<T>,
) -> bool
    requires token { IsTokenOf words.now.table_id words.now.key J.seats (StandsAt Idle) token.old }
    requires account { HasAccount J.seats (λ g. g.receiver.stage ≡ PastLower) token.old.me }
    ensures { Tells token.old token.new (λ n after. TestedDrainedAgain words.now.table_id.slots J.seats n result
        token.old.me after) }
{
    let found = words.load::<TestDrainedAgainPlay<J>>(token, UPPER);
    drained(read_in_use(found))
}

/// Checks whether the channel is drained. It follows a call that may have drained it; if it has, the end owes a look for
/// a receiver.
pub(crate) fn check_drained<T, J: OfBits>(words: &QueueWords<T>, token: &mut QueueToken<T>) -> bool
    requires { IsTokenOf words.now.table_id words.now.key J.seats (StandsAt Idle) token.old }
    ensures { Tells token.old token.new (λ n after. CheckedDrained words.now.table_id.slots J.seats n result
        token.old.me after) }
{
    let found = words.load::<CheckDrainedPlay<J>>(token, UPPER);
    drained(read_in_use(found))
}

/// Whether a shut queue has no item and no open insertion.
fn drained(used: InUse) -> bool
    ensures { result ≡ is_drained used }
{
    used.is_shut && used.count <= 0
}
