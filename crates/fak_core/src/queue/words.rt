//! The words and the cells of a queue.

ghost use Rattle.std.specs.Prelude.{◌≡◌, ◌%◌, ◌≤◌, ◌<◌, ◌^◌, IfErr, IfOk, slice_index_or, length};
ghost use Rattle.fak_core.specs.declared.fault.CoreFault.TheVariants.{Memory};
ghost use Rattle.fak_core.specs.QueueFields.{HasTicketBelow, IsSmall, IsWithin, opening_fields, queue_state, written_fields};
ghost use Rattle.fak_core.specs.QueueMoves.{move_by};

use crate::fault::CoreFault;
use crate::queue::moves;
use crate::queue::phase::Phase;
use crate::queue::step::{QueueMove, Write};
use fak_model::cell_of;
use std::alloc::Global;

/// The counts, the ticket counters, the shut bit, and for each cell a turn and a content.
#[derive(Debug, PartialEq, Eq, Drop)]
pub struct QueueWords {
    pub size: u64,
    pub upper: i64,
    pub lower: i64,
    pub draws_in: u64,
    pub draws_out: u64,
    pub shut: bool,
    pub turns: Vec<u64>,
    pub cells: Vec<Option<u64>>,
}

impl QueueWords {
    ghost use Rattle.fak_core.specs.QueueWords.{fields_of};

    /// The words of a queue of this size in which no call has begun.
    pub fn new(alloc: Global, size: u64) -> Result<QueueWords, CoreFault>
        ensures ok { IfOk result (λ words. fields_of words ≡ opening_fields size 0) }
        ensures fault { IfErr result (λ fault. fault ≡ Memory) }
    {
        let Ok(turns) = vec![in alloc; 0; size as usize] else {
            return Err(CoreFault::Memory);
        };
        let Ok(cells) = vec![in alloc; None; size as usize] else {
            return Err(CoreFault::Memory);
        };
        Ok(QueueWords {
            size,
            upper: 0,
            lower: 0,
            draws_in: 0,
            draws_out: 0,
            shut: false,
            turns,
            cells,
        })
    }

    /// The next step of a seat in this phase; `drawn` is the item of the next deletion's ticket. None if the seat is
    /// idle.
    pub fn move_by(&self, drawn: Option<u64>, phase: Phase<u64>) -> Option<QueueMove<u64>>
        requires size { (1 ≤ self.now.size) × (self.now.size ≤ 4096) }
        requires upper { IsSmall self.now.upper }
        requires lower { IsSmall self.now.lower }
        requires draws { (self.now.draws_in < 2 ^ 63) × (self.now.draws_out < 2 ^ 63) }
        requires turns { length self.now.turns.items ≡ self.now.size }
        requires cells { length self.now.cells.items ≡ self.now.size }
        requires ticket { HasTicketBelow (2 ^ 63) phase }
        ensures { result ≡ move_by self.now.size (queue_state (fields_of self.now)) drawn phase }
    {
        let size = self.size;
        let found = match phase {
            Phase::Idle => return None,
            Phase::TestUp(x) => moves::test_up(size, self.shut, self.upper, x),
            Phase::AddUp(x) => moves::add_up(size, self.shut, self.upper, x),
            Phase::BackUp(_) => moves::back_up(self.upper),
            Phase::TicketIn(x) => moves::ticket_in(self.draws_in, x),
            Phase::TurnIn(k, x) => moves::turn_in(size, self.turn(k), k, x),
            Phase::StoreItem(k, x) => moves::store_item(size, k, x),
            Phase::SetFull(k, _) => moves::set_full(size, k),
            Phase::EndInsert(_) => moves::end_in(self.lower),
            Phase::TestLow => moves::test_low(self.lower),
            Phase::SubLow => moves::sub_low(self.lower),
            Phase::BackLow => moves::back_low(self.lower),
            Phase::TicketOut => moves::ticket_out(self.draws_out, drawn),
            Phase::TurnOut(k) => moves::turn_out(size, self.turn(k), k),
            Phase::LoadItem(k) => moves::load_item(self.content(k), k),
            Phase::SetFree(k) => moves::set_free(size, k),
            Phase::EndDelete(_) => moves::end_out(self.upper),
            Phase::SetShut => moves::set_shut(self.upper),
        };
        Some(found)
    }

    /// The turn word of a ticket's cell.
    fn turn(&self, ticket: u64) -> u64
        requires size { 1 ≤ self.now.size }
        requires turns { length self.now.turns.items ≡ self.now.size }
        ensures { result ≡ slice_index_or self.now.turns.items (ticket % self.now.size) 0 }
    {
        self.turns[cell_of(ticket, self.size) as usize]
    }

    /// The content of a ticket's cell.
    fn content(&self, ticket: u64) -> Option<u64>
        requires size { 1 ≤ self.now.size }
        requires cells { length self.now.cells.items ≡ self.now.size }
        ensures { result ≡ slice_index_or self.now.cells.items (ticket % self.now.size) None }
    {
        self.cells[cell_of(ticket, self.size) as usize]
    }

    /// Performs the write of a step.
    pub fn write(&mut self, write: Write<u64>)
        requires turns { length self.old.turns.items ≡ self.old.size }
        requires cells { length self.old.cells.items ≡ self.old.size }
        requires within { IsWithin self.old.size write }
        ensures { fields_of self.new ≡ written_fields (fields_of self.old) write }
    {
        match write {
            Write::Nothing => {}
            Write::Upper(n) => self.upper = n,
            Write::Lower(n) => self.lower = n,
            Write::DrawsIn(n) => self.draws_in = n,
            Write::DrawsOut(n) => self.draws_out = n,
            Write::Turn(cell, n) => self.turns[cell as usize] = n,
            Write::Cell(cell, x) => self.cells[cell as usize] = Some(x),
            Write::Shut => self.shut = true,
        }
    }
}
