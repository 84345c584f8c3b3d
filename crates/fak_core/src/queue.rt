//! The queue core: a bounded queue of cells with turns, after Gottlieb, Lubachevsky and Rudolph (TOPLAS 5(2), 1983),
//! one atomic step at a time.

ghost use Rattle.std.specs.Prelude.{◌≡◌, ◌⊎◌, ◌↔◌, ◌≤◌, ◌<◌, Err, IfErr, IfOk, IsErrOf, OnErr, OnOk, Some};
ghost use Rattle.fak_model.specs.Queue.{IsQueueHistory};
ghost use Rattle.fak_core.specs.declared.fault.CoreFault.TheVariants.{BadSize, BadSeats, Memory};
ghost use Rattle.fak_core.specs.declared.line.CoreMove.TheVariants.{LoadItem};
ghost use Rattle.fak_core.specs.QueueFields.{IsBegun, IsStep, LeavesMark, LoadsPut, begin_of, history_of, opening_fields, phase_begin, queue_state, step_of};
ghost use Rattle.fak_core.specs.QueueSchedule.{opening};

mod lines;
mod marks;
mod moves;
pub mod phase;
pub mod step;
mod words;

use crate::call::QueueCall;
use crate::fault::CoreFault;
use crate::line::Line;
use fak_model::{LARGEST_SIZE, MOST_SEATS, Mark};
use lines::line_of;
use marks::{item_put, keep_mark};
use phase::Phase;
use std::alloc::Global;
use std::marker::Model;
use step::QueueMove;
use words::QueueWords;

/// A bounded queue of numbers over plain data.
///
/// Its value in contracts is the record of its fields, with the marks so far newest first; `queue_state` is the state
/// that the fields show. The items put are kept by ticket, in addition to the marks that have them.
#[derive(Debug, Drop)]
pub struct QueueCore {
    words: QueueWords,
    items: Vec<u64>,
    phases: Vec<Phase<u64>>,
    marks: Vec<Mark<u64>>,
}

impl Model for QueueCore {
    ghost use Rattle.std.specs.Prelude.{reverse};
    ghost use Rattle.fak_core.specs.QueueFields.{IsSoundWith, QueueFields};

    ghost Value = { QueueFields };

    ghost use Rattle.fak_core.specs.QueueWords.{fields_of};

    ghost view = { λ c. record (fields_of c.words) { phases = c.phases.items; past = reverse c.marks.items } };

    ghost invariant = { λ c. IsSoundWith (record
        (fields_of c.words) { phases = c.phases.items; past = reverse c.marks.items }) c.items.items };
}

// Two queues with the same marks have the same items.
impl PartialEq for QueueCore {
    ghost use Rattle.std.specs.Cmp.{partial_equiv_from_equiv};
    ghost use Rattle.fak_core.specs.Equality.{same_queue, same_queue_laws};

    ghost eq = { same_queue };

    ghost laws = { partial_equiv_from_equiv same_queue_laws };

    fn eq(&self, other: &QueueCore) -> bool {
        self.words == other.words && self.phases == other.phases && self.marks == other.marks
    }
}

impl Eq for QueueCore {
    ghost use Rattle.fak_core.specs.Equality.{same_queue_laws};

    ghost laws = { same_queue_laws };
}

/// The first phase of a call that begins in this phase of its seat.
fn phase_begin(at: Phase<u64>, call: QueueCall) -> Result<Phase<u64>, CoreFault>
    ensures { result ≡ phase_begin (Some at) call }
{
    match at {
        Phase::Idle => {
            match call {
                QueueCall::Insert(item) => Ok(Phase::TestUp(item)),
                QueueCall::Delete => Ok(Phase::TestLow),
                QueueCall::Shut => Ok(Phase::SetShut),
            }
        }
        _ => Err(CoreFault::MidCall),
    }
}

impl QueueCore {
    /// An open and empty queue of this size, 1 to 4,096, with this number of seats, 1 to 64, all idle.
    ///
    /// # Errors
    ///
    /// `BadSize`, `BadSeats` or `Memory`, in this order.
    pub fn new(alloc: Global, size: u64, seats: u64) -> Result<QueueCore, CoreFault>
        ensures ok { IfOk result (λ core. core ≡ opening_fields size seats) }
        ensures opens { IfOk result (λ core. queue_state core ≡ opening) }

        // The refusals, in their order.
        ensures size { IsErrOf result CoreFault.BadSize ↔ ((size ≡ 0) ⊎ (4096 < size)) }
        ensures seats { IsErrOf result CoreFault.BadSeats
            ↔ ((1 ≤ size) × (size ≤ 4096) × ((seats ≡ 0) ⊎ (64 < seats))) }
        ensures fault { IfErr result (λ fault. (fault ≡ BadSize) ⊎ (fault ≡ BadSeats) ⊎ (fault ≡ Memory)) }
    {
        if size == 0 || size > LARGEST_SIZE {
            return Err(CoreFault::BadSize);
        }
        if seats == 0 || seats > MOST_SEATS {
            return Err(CoreFault::BadSeats);
        }
        let words = QueueWords::new(alloc, size)?;
        let Ok(phases) = vec![in alloc; Phase::Idle; seats as usize] else {
            return Err(CoreFault::Memory);
        };
        Ok(QueueCore {
            words,
            items: Vec::new(alloc),
            phases,
            marks: Vec::new(alloc),
        })
    }

    /// The marks so far, oldest first.
    pub fn marks(&self) -> &[Mark<u64>]
        ensures marks { result.now ≡ history_of self.now }
        ensures legal { IsQueueHistory self.now.size result.now }
    {
        &self.marks
    }

    /// Begins a call of a seat.
    ///
    /// # Errors
    ///
    /// `NoSuchSeat` or `MidCall`, in this order.
    pub fn begin(&mut self, seat: u64, call: QueueCall) -> Result<(), CoreFault>
        ensures ok { OnOk result (IsBegun self.old seat call self.new) }
        ensures err { OnErr result (self.new ≡ self.old) }
        ensures fault { IfErr result (λ fault. begin_of self.old seat call ≡ Err fault) }
    {
        if seat >= self.phases.len() as u64 {
            return Err(CoreFault::NoSuchSeat);
        }
        let phase = phase_begin(self.phases[seat as usize], call)?;
        self.phases[seat as usize] = phase;
        Ok(())
    }

    /// Takes one atomic step of the open call of a seat.
    ///
    /// # Errors
    ///
    /// `NoSuchSeat`, `IdleSeat` or `Memory`, in this order. `Memory` is possible only at a step that leaves a mark; the
    /// seat's next step is then still the same.
    pub fn advance(&mut self, _alloc: Global, seat: u64) -> Result<Line, CoreFault>
        ensures ok { IfOk result (λ line. IsStep self.old seat line self.new) }

        // A deletion hands out the item of the Put with its own ticket.
        ensures loads { IfOk result (λ line. line.step ≡ LoadItem → LoadsPut self.old seat line.found) }

        ensures err { OnErr result (self.new ≡ self.old) }
        ensures fault { IfErr result (λ fault. (step_of self.old seat ≡ Err fault)
            ⊎ ((fault ≡ Memory) × LeavesMark (step_of self.old seat))) }
    {
        let step = self.step_of(seat)?;
        if let Err(fault) = keep_mark(&mut self.marks, &mut self.items, seat, step.mark) {
            return Err(fault);
        }
        self.words.write(step.write);
        self.phases[seat as usize] = step.phase;
        Ok(line_of(seat, step))
    }

    /// The next step of a seat.
    fn step_of(&self, seat: u64) -> Result<QueueMove<u64>, CoreFault>
        ensures { result ≡ step_of self.now seat }
    {
        if seat >= self.phases.len() as u64 {
            return Err(CoreFault::NoSuchSeat);
        }
        // The slice shows that there are fewer than 2^63 marks, and so tickets: the steps can count them.
        let _marks = self.marks.as_slice();
        let phase = self.phases[seat as usize];
        let drawn = item_put(&self.items, self.words.draws_out);
        let Some(step) = self.words.move_by(drawn, phase) else {
            return Err(CoreFault::IdleSeat);
        };
        Ok(step)
    }
}
