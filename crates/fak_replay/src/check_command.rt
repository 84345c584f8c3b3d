//! The command `check`: whether a recorded history of a queue is legal.

ghost use Rattle.fak_replay.specs.Answers.{GivesAnswer, IsReply, RefusesLong};
ghost use Rattle.fak_replay.specs.declared.command.Command.TheVariants.{Check};

use crate::answer::Answer;
use crate::fault::MainFault;
use fak_model::first_fault;
use fak_text::read_history;
use std::alloc::Global;

/// Judges the history that the input is: `legal` with status 0, or `fault at I` with status 3. I is the index of
/// the first mark with which the history stops being legal.
///
/// # Errors
///
/// The input's first fault, or `Memory`. For more than 1,048,576 bytes it is `Range(Field::Input)`, even if memory runs out.
pub fn check(alloc: Global, input: &[u8]) -> Result<Answer, MainFault>
    ensures gives { GivesAnswer (IsReply Check input.now) result }
    ensures long { RefusesLong input.now result }
{
    let history = read_history(alloc, input)?;
    match first_fault(history.size, &history.marks) {
        None => Ok(Answer {
            status: 0,
            text: format!(in alloc; "legal\n")?.into_bytes(),
        }),
        Some(index) => Ok(Answer {
            status: 3,
            text: format!(in alloc; "fault at {index}\n")?.into_bytes(),
        }),
    }
}
