// Demand 3: the machine on the wire and the plain machine agree. Here are its statements and proofs, and the calls that
// they speak of: a list sent over the wire, and its answers heard there.
#![tactic(auto)]

ghost use Rattle.std.specs.Prelude.{◌≡◌};
ghost use Rattle.board.specs.Outcome.{told};
ghost use Rattle.agreement.specs.Exchange.{Sent, Exchanged};

use board::{Board, Outcome, check};
use frame::{Frame, Steps, decode, translate};
use verdict::zeroed;
use wire_machine::run;

// Room for the log of the longest list.
pub const LOG: usize = Steps::MOST * Frame::LOG_RECORD;

// Sends a list over the wire: translates it, runs its steps with the events between clocks, and writes the log of the run to
// the start of `log`. The board comes back as the run leaves it.
pub fn send(board: Board, list: &[u8], events: &[u8], log: &mut [u8]) -> Outcome
    ensures { Sent board list.now events.now log.old (told result) log.new }
{
    // 12 comes before what is wrong with the list.
    let sound = check(board);
    let Ok(_) = sound else {
        return Outcome::of(sound, board);
    };
    let mut steps = zeroed::<{ Steps::MOST }>();
    let translated = translate(list, &mut steps);
    let Ok(clocks) = translated else {
        return Outcome::of(translated, board);
    };
    run(board, &steps[..clocks], events, log)
}

// Sends a list over the wire, and writes the answers that the log holds to the start of `answers`.
pub fn exchange(board: Board, list: &[u8], events: &[u8], answers: &mut [u8]) -> Outcome
    ensures { Exchanged board list.now events.now answers.old (told result) answers.new }
{
    let mut log = zeroed::<LOG>();
    let sent = send(board, list, events, &mut log);
    let Ok(size) = sent.verdict else {
        return Outcome::of(sent.verdict, board);
    };
    let decoded = decode(list, &log[..size], answers);
    let Ok(_) = decoded else {
        return Outcome::of(decoded, board);
    };
    Outcome::of(decoded, sent.board)
}
