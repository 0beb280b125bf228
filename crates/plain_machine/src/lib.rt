// The plain machine: board, list and events, and no wire (document 01, "Clock steps").
#![tactic(auto)]

mod transact;

ghost use Rattle.std.specs.Prelude.{◌≡◌, ℕ, List, length};
ghost use Rattle.verdict.specs.Refusal.{said};
ghost use Rattle.board.specs.Outcome.{told};
ghost use Rattle.plain_machine.specs.Plain.{planning, Planned};

use board::{Board, Outcome, check, check_events};
use frame::{Answer, Frame, check_list};
use verdict::{Fault, Refusal};

// The checks of a list without a wire, in order, where the output has this many bytes. Ok says how many of them the answers take. A run's
// checks go in the same order, but what is asked, the last clock and the size differ in each line: as one function that takes all three they
// would be no plainer.
// List and events stay two parameters, as the C interface has them: a struct of both would be made only to be taken apart in each call.
fn check_plan(board: Board, list: &[u8], events: &[u8], room: usize) -> Result<usize, Refusal>
    ensures { (answers : List ℕ) → length answers ≡ room → said result ≡ planning board list.now events.now answers }
{
    check(board)?;
    let count = check_list(list)?;
    check_events(board, events, count * Frame::CLOCKS)?;
    let size = count * Answer::BYTES;
    if room < size {
        return Err(Fault::NoRoom.at(0));
    }
    Ok(size)
}

// Writes the answers to a list to the start of `answers`, and hands the board back as the list and the events leave it.
pub fn plain(mut board: Board, list: &[u8], events: &[u8], answers: &mut [u8]) -> Outcome
    ensures { Planned board list.now events.now answers.old (told result) answers.new }
{
    let verdict = check_plan(board, list, events, answers.len());
    if verdict.is_ok() {
        transact::transact_all(&mut board, list, events, answers);
    }
    Outcome { verdict, board }
}
