// The event file (document 01, "Records": "Events, 4 bytes, 0 to 256: clock number (2 bytes), PHY address, code").
ghost use Rattle.std.specs.Prelude.{◌≡◌, false, ℕ, ◌+◌, ◌*◌, ◌<◌, length, get_or, eqb};
ghost use Rattle.verdict.specs.File.{byte_at};
ghost use Rattle.verdict.specs.Refusal.{said, judged, judged_by};
ghost use Rattle.phy.specs.Record.{any};
ghost use Rattle.board.specs.Record.{addresses_of};
ghost use Rattle.board.specs.Events.{event_record, event_clock, event_address, event_code, clock_before, event_fault_as, events_verdict};

use crate::Board;
use phy::Event;
use verdict::{Fault, Refusal, count_records};

// A byte of the event record at index k; past the file's end a byte reads 0.
fn byte_of(events: &[u8], k: usize, offset: usize) -> u8
    requires { offset < 4 }
    ensures { result ≡ byte_at events.now (k * event_record + offset) }
{
    if events.len() / Board::EVENT_RECORD < k {
        return 0;
    }
    verdict::byte_at(events, k * Board::EVENT_RECORD + offset)
}

// The clock, the address and the code of the event record at index k. File and index stay two: a struct of them would be made anew for each
// record.
pub fn clock_of(events: &[u8], k: usize) -> u16
    ensures { result ≡ event_clock events.now k }
{
    u16::from_be_bytes([byte_of(events, k, 0), byte_of(events, k, 1)])
}

pub fn address_of(events: &[u8], k: usize) -> u8
    ensures { result ≡ event_address events.now k }
{
    byte_of(events, k, 2)
}

pub fn code_of(events: &[u8], k: usize) -> u8
    ensures { result ≡ event_code events.now k }
{
    byte_of(events, k, 3)
}

// The address at each place: a few bytes to look through in place of a whole board. The board is passed and not lent: lending it to a
// closure was tried, and cost the stack of a second board.
#[tactic(auto, unfolding(verdict::specs::Output::tabulate))]
fn addresses_of(board: Board) -> [u8; 32]
    ensures { result ≡ addresses_of board.phys }
{
    let mut addresses = [0; 32];
    for (i, address) in addresses.iter_mut().enumerate() {
        *address = board.phys[i].own.address;
    }
    addresses
}

// Which addresses are among these: a table to ask for each event, in place of a walk.
#[tactic(auto, using(crate::proofs::Taken::taken_none))]
fn table_of(addresses: &[u8]) -> [bool; 256]
    ensures { (address : ℕ) → address < 256 → get_or result address false ≡ any (length addresses.now) (λ i. eqb (get_or addresses.now i 0) address) }
{
    let mut there = [false; 256];
    for address in addresses {
        there[*address as usize] = true;
    }
    there
}

// Checks 8 and 9 of the event record at index k, where `there` is whether its address is on the board and `before` the clock of
// the record before it. A good record's event comes after this clock. `|` asks both sides and makes no branch.
fn judge_event(there: bool, events: &[u8], last: usize, k: usize, before: u16) -> Result<u16, Fault>
    requires { before ≡ clock_before events.now k }
    ensures { judged result ≡ judged_by (event_fault_as there events.now last k) (event_clock events.now k) }
{
    let clock = clock_of(events, k);
    let unknown = Event::try_from(code_of(events, k)).is_err();
    if unknown | !there {
        return Err(Fault::WrongEvent);
    }
    if (clock < before) | (last < clock as usize) {
        return Err(Fault::WrongClock);
    }
    Ok(clock)
}

// The event file's checks on a board, where `last` is the last clock.
pub fn check_events(board: Board, events: &[u8], last: usize) -> Result<usize, Refusal>
    ensures { said result ≡ events_verdict board events.now last }
{
    let count = count_records(events, Board::EVENT_RECORD, Board::MOST_EVENTS)?;
    let addresses = addresses_of(board);
    let there = table_of(&addresses[..board.count.min(Board::PLACES)]);
    let mut before: u16 = 0;
    for k in 0..count {
        let address = address_of(events, k) as usize;
        let event = judge_event(there[address], events, last, k, before);
        let Ok(clock) = event else {
            return Err(event.unwrap_err().at(k));
        };
        before = clock;
    }
    Ok(count)
}
