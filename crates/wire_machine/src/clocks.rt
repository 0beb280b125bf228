// The wire machine: every clock, all parties drive, then all sample the level (document 01, "Clock steps").
ghost use Rattle.std.specs.Prelude.{◌≡◌, ◌*◌, ℕ, List, length};
ghost use Rattle.board.specs.Outcome.{told};
ghost use Rattle.verdict.specs.Refusal.{Done, said};
ghost use Rattle.frame.specs.Frame.{log_record};
ghost use Rattle.wire_machine.specs.Run.{steps_verdict, running, Ran};
ghost use Rattle.wire_machine.specs.Clocks.{Clocked};

use crate::common::Common;
use crate::hear::{hear, station_drive};
use crate::line::{Line, join_all, lines_of, place_in};
use between::is_due;
use board::{Board, Outcome, address_of, check, check_events, code_of};
use frame::{Frame, Steps};
use verdict::{Fault, Refusal, check_bytes_for};

// The steps' checks: not too many, and each one of four.
fn check_steps(steps: &[u8]) -> Result<usize, Refusal>
    ensures { said result ≡ steps_verdict steps.now }
{
    check_bytes_for(steps, Steps::MOST, Steps::LARGEST, Fault::WrongStep)
}

// All clocks of a run that is not refused. A turn is an event that is due, which acts on its PHY where that stands, or else a
// clock. Where the followers of all PHYs are alike and none acts, a clock moves the common one; else it goes over the lines. A whole
// PHY is touched only where it may act or has an event, and an event changes nothing in its line.
fn clock_by_clock(board: &mut Board, steps: &[u8], events: &[u8], log: &mut [u8])
    requires { running board.old steps.now events.now log.old ≡ Done (length steps.now * log_record) }
    ensures { Clocked board.old steps.now events.now log.old board.new log.new }
{
    let mut places = lines_of(board);
    let lines = &mut places[..board.count];
    let mut common = Common::APART;
    let mut next: usize = 0;
    let mut c: usize = 0;
    // A turn counts up one of the two. A `for` over the clocks would need a loop over the events inside it that counts by hand all the
    // same, and would have to go once past the last step.
    loop {
        if is_due(events, next, c) {
            if let Some(i) = place_in(lines, address_of(events, next)) {
                board.phys[i] = board.phys[i].event(code_of(events, next));
            }
            next += 1;
            continue;
        }
        if steps.len() <= c {
            join_all(board, lines, common);
            return;
        }
        let heard = hear(lines, common, station_drive(steps[c]));
        let at = c * Frame::LOG_RECORD;
        heard.put(&mut log[at..at + Frame::LOG_RECORD]);
        let level = heard.level;
        c += 1;
        if common.moves_alike(level) {
            common = common.follows(level);
            continue;
        }
        for (i, line) in lines.iter_mut().enumerate() {
            let stands = common.stands(*line);
            if stands.acts() {
                let phy = stands.onto(board.phys[i]).clock(level);
                board.phys[i] = phy;
                *line = Line::from(phy);
            } else {
                *line = stands.follows(level);
            }
        }
        common = Common::of(lines);
    }
}

// The checks of a run, in order, where the log has this many bytes. The plain machine's go in the same order, each with another number. Ok says how many of them the run writes.
fn check_run(board: Board, steps: &[u8], events: &[u8], room: usize) -> Result<usize, Refusal>
    ensures { (log : List ℕ) → length log ≡ room → said result ≡ running board steps.now events.now log }
{
    check(board)?;
    let count = check_steps(steps)?;
    check_events(board, events, count)?;
    let size = count * Frame::LOG_RECORD;
    if room < size {
        return Err(Fault::NoRoom.at(0));
    }
    Ok(size)
}

// Runs the steps on a board, with the events between clocks, and writes a record of each clock to the log's start.
pub fn run(mut board: Board, steps: &[u8], events: &[u8], log: &mut [u8]) -> Outcome
    ensures { Ran board steps.now events.now log.old (told result) log.new }
{
    let verdict = check_run(board, steps, events, log.len());
    if verdict.is_ok() {
        clock_by_clock(&mut board, steps, events, log);
    }
    Outcome { verdict, board }
}
