//! Gates that hold a processor until another one has come to some look, and refuse it if that one does not come.

use fak_kernel::{Gate, MOST_PROCESSORS};
use std::hint::spin_loop;
use std::sync::atomic::{AtomicBool, AtomicU64, Ordering};

/// Many more looks of a processor than a run needs if the others leave.
const MOST_LOOKS: u64 = 1_000_000;

/// The turns of a wait after a refusal: many milliseconds, in which the refused processor rings the alarm even
/// if the machine has much else to do.
const WAIT_FOR_THE_ALARM: u64 = 2_000_000;

/// A flag that one processor sets and another waits for, this many turns at most.
#[derive(Drop)]
pub(super) struct Flag {
    turns: u64,
    is_set: AtomicBool,
}

impl Flag {
    fn new(turns: u64) -> Flag {
        Flag {
            turns,
            is_set: AtomicBool::new(false),
        }
    }

    fn set(&self) {
        self.is_set.store(true, Ordering::SeqCst);
    }

    pub(super) fn is_set(&self) -> bool {
        self.is_set.load(Ordering::SeqCst)
    }

    /// Waits until it is set. Returns false if it was not.
    fn wait(&self) -> bool {
        for _ in 0..self.turns {
            if self.is_set() {
                return true;
            }
            spin_loop();
        }
        false
    }
}

/// Holds the first pass of each processor below 3 until this many have come to theirs.
#[derive(Drop)]
pub(super) struct Meeting {
    processors: u64,
    first: Flag,
    second: Flag,
    third: Flag,
}

impl Meeting {
    /// The meeting of two or three processors.
    pub(super) fn new(processors: u64, turns: u64) -> Meeting {
        Meeting {
            processors,
            first: Flag::new(turns),
            second: Flag::new(turns),
            third: Flag::new(turns),
        }
    }
}

impl Gate for Meeting {
    fn may_refuse(&self) -> bool {
        true
    }

    fn pass(&self, processor: u64, step: u64) -> bool {
        if step > 0 {
            return true;
        }
        match processor {
            0 => self.first.set(),
            1 => self.second.set(),
            _ => self.third.set(),
        }
        self.first.wait() && self.second.wait() && (self.processors < 3 || self.third.wait())
    }
}

/// Holds the first pass of one processor until another one comes to its pass with step 7, and refuses its second.
#[derive(Drop)]
pub(super) struct Holding {
    held: u64,
    is_far: Flag,
}

impl Holding {
    pub(super) fn new(held: u64, turns: u64) -> Holding {
        Holding {
            held,
            is_far: Flag::new(turns),
        }
    }
}

impl Gate for Holding {
    fn may_refuse(&self) -> bool {
        true
    }

    fn pass(&self, processor: u64, step: u64) -> bool {
        if processor == self.held {
            return step == 0 && self.is_far.wait();
        }
        if step == 7 {
            self.is_far.set();
        }
        true
    }
}

/// Refuses the first pass of one processor.
#[derive(Drop)]
pub(super) struct Refusing {
    refused: u64,
}

impl Refusing {
    pub(super) fn new(refused: u64) -> Refusing {
        Refusing { refused }
    }
}

impl Gate for Refusing {
    fn may_refuse(&self) -> bool {
        true
    }

    fn pass(&self, processor: u64, step: u64) -> bool {
        processor != self.refused || step > 0
    }
}

/// Refuses the first pass of one processor once another one has come to its own; that one waits for it. Refuses each
/// processor that looks so often that the others must have left it behind. If no processor has the number, nobody waits.
#[derive(Drop)]
pub(super) struct Late {
    refused: u64,
    has_come: Flag,
    has_begun: Flag,
    /// Set if a processor went on looking after it should have left.
    pub(super) is_left_behind: Flag,
}

impl Late {
    pub(super) fn new(refused: u64, turns: u64) -> Late {
        let is_anybody_refused = refused < MOST_PROCESSORS;
        Late {
            refused,
            has_come: Flag::new(if is_anybody_refused { turns } else { 0 }),
            has_begun: Flag::new(turns),
            is_left_behind: Flag::new(0),
        }
    }
}

impl Gate for Late {
    fn may_refuse(&self) -> bool {
        true
    }

    fn pass(&self, processor: u64, step: u64) -> bool {
        if processor == self.refused {
            self.has_come.set();
            self.has_begun.wait();
            return false;
        }
        if step == 0 {
            self.has_come.wait();
        }
        self.has_begun.set();
        if step < MOST_LOOKS {
            return true;
        }
        self.is_left_behind.set();
        false
    }
}

/// Holds the first pass of processor 0 until another one has come to its own and had time for its look.
#[derive(Drop)]
pub(super) struct Slow {
    turns: u64,
    has_begun: Flag,
}

impl Slow {
    pub(super) fn new(turns: u64) -> Slow {
        Slow {
            turns,
            has_begun: Flag::new(turns),
        }
    }
}

impl Gate for Slow {
    fn may_refuse(&self) -> bool {
        true
    }

    fn pass(&self, processor: u64, step: u64) -> bool {
        if processor > 0 {
            self.has_begun.set();
            return true;
        }
        if step == 0 && self.has_begun.wait() {
            for _ in 0..self.turns / 100 {
                spin_loop();
            }
        }
        true
    }
}

/// Lets only one processor work: holds the first pass of each other until that one has come to its own and had time for
/// its look. Refuses each that looks so often that the others must have left it behind.
#[derive(Drop)]
pub(super) struct Chosen {
    chosen: u64,
    turns: u64,
    has_begun: Flag,
    /// Set if a processor went on looking after it should have left.
    pub(super) is_left_behind: Flag,
}

impl Chosen {
    pub(super) fn new(chosen: u64, turns: u64) -> Chosen {
        Chosen {
            chosen,
            turns,
            has_begun: Flag::new(turns),
            is_left_behind: Flag::new(0),
        }
    }

    /// Waits until the chosen one has begun, and a while longer.
    fn hold(&self) {
        if self.has_begun.wait() {
            for _ in 0..self.turns / 100 {
                spin_loop();
            }
        }
    }
}

impl Gate for Chosen {
    fn may_refuse(&self) -> bool {
        true
    }

    fn pass(&self, processor: u64, step: u64) -> bool {
        if processor == self.chosen {
            self.has_begun.set();
        } else if step == 0 {
            self.hold();
        }
        if step < MOST_LOOKS {
            return true;
        }
        self.is_left_behind.set();
        false
    }
}

/// Lets each processor make one look. The second look of one processor waits for the others to come to theirs, and from
/// then on only that processor works, as `Chosen` has it.
#[derive(Drop)]
pub(super) struct Second {
    others: u64,
    come: AtomicU64,
    have_come: Flag,
    pub(super) chosen: Chosen,
}

impl Second {
    /// Lets the processor of number `chosen` work, among this many.
    pub(super) fn new(chosen: u64, processors: u64, turns: u64) -> Second {
        Second {
            others: processors.saturating_sub(1),
            come: AtomicU64::new(0),
            have_come: Flag::new(turns),
            chosen: Chosen::new(chosen, turns),
        }
    }

    /// The chosen one waits for the others, and the last of these lets it go on.
    fn meet(&self, processor: u64) {
        if processor == self.chosen.chosen {
            self.have_come.wait();
            return;
        }
        let before = self.come.fetch_add(1, Ordering::SeqCst);
        if before.saturating_add(1) == self.others {
            self.have_come.set();
        }
    }
}

impl Gate for Second {
    fn may_refuse(&self) -> bool {
        true
    }

    fn pass(&self, processor: u64, step: u64) -> bool {
        if step == 0 {
            return true;
        }
        if step == 1 {
            self.meet(processor);
        }
        self.chosen.pass(processor, step.saturating_sub(1))
    }
}

/// Refuses the first pass of one processor. Each other waits for that in its own first pass, and then so long that the
/// alarm has rung. So it must leave before its next look.
#[derive(Drop)]
pub(super) struct Slowing {
    refused: u64,
    is_refused: Flag,
    /// Set if a processor went on looking after it should have left.
    pub(super) is_left_behind: Flag,
}

impl Slowing {
    pub(super) fn new(refused: u64, turns: u64) -> Slowing {
        Slowing {
            refused,
            is_refused: Flag::new(turns),
            is_left_behind: Flag::new(0),
        }
    }
}

impl Gate for Slowing {
    fn may_refuse(&self) -> bool {
        true
    }

    fn pass(&self, processor: u64, step: u64) -> bool {
        if processor == self.refused {
            self.is_refused.set();
            return false;
        }
        if step > 0 {
            self.is_left_behind.set();
        } else if self.is_refused.wait() {
            for _ in 0..WAIT_FOR_THE_ALARM {
                spin_loop();
            }
        }
        true
    }
}

/// Lets only one processor work, and counts its looks: holds the first pass of each other until that one comes to its look
/// of number `last`.
#[derive(Drop)]
pub(super) struct Alone {
    chosen: u64,
    last: u64,
    looks: AtomicU64,
    is_done: Flag,
}

impl Alone {
    pub(super) fn new(chosen: u64, last: u64, turns: u64) -> Alone {
        Alone {
            chosen,
            last,
            looks: AtomicU64::new(0),
            is_done: Flag::new(turns),
        }
    }

    /// How often the chosen one has asked.
    pub(super) fn looks(&self) -> u64 {
        self.looks.load(Ordering::SeqCst)
    }
}

impl Gate for Alone {
    fn may_refuse(&self) -> bool {
        true
    }

    fn pass(&self, processor: u64, step: u64) -> bool {
        if processor == self.chosen {
            let looks = self.looks();
            self.looks.store(looks.saturating_add(1), Ordering::SeqCst);
            if step >= self.last {
                self.is_done.set();
            }
        } else if step == 0 {
            self.is_done.wait();
        }
        true
    }
}
