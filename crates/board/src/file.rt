// The board file (document 01, "Records": "Board, 134 bytes per PHY, 0 to 32").
ghost use Rattle.std.specs.Prelude.{◌≡◌, ◌+◌, ◌*◌, ◌≤◌, length, replicate};
ghost use Rattle.phy.specs.Sound.{blank};
ghost use Rattle.verdict.specs.Refusal.{number_of};
ghost use Rattle.board.specs.Check.{places};
ghost use Rattle.board.specs.Load.{own_at, words_at, board_record, record_at, refused_load, loaded};
ghost use Rattle.board.specs.Outcome.{told};
ghost use Rattle.board.specs.Record.{record_in};

use crate::record::Record;
use crate::{Board, Outcome, register, sound};
use phy::{Own, Phy};
use verdict::{Refusal, count_records};

// The 32 words from a place of the file on, high byte first.
#[tactic(auto, unfolding(crate::specs::Load::words_at, verdict::specs::Output::tabulate))]
fn words_at(file: &[u8], start: usize) -> [u16; 32]
    requires { start + 64 ≤ length file.now }
    ensures { result ≡ words_at file.now start }
{
    let mut words = [0u16; 32];
    for (r, word) in words.iter_mut().enumerate() {
        let at = start + r * 2;
        *word = u16::from_be_bytes([file[at], file[at + 1]]);
    }
    words
}

// Address and implemented mask of the record at index k.
fn own_at(file: &[u8], k: usize) -> Own
    requires { (k + 1) * board_record ≤ length file.now }
    ensures { result ≡ own_at file.now k }
{
    let at = k * Board::RECORD;
    Own {
        address: file[at],
        implemented: u32::from_be_bytes([file[at + 2], file[at + 3], file[at + 4], file[at + 5]]),
    }
}

impl Record {
    // The record at index k, its zero byte apart.
    fn at(file: &[u8], k: usize) -> Record
        requires { (k + 1) * board_record ≤ length file.now }
        ensures { record_in result ≡ record_at file.now k }
    {
        let at = k * Board::RECORD;
        Record {
            own: own_at(file, k),
            defaults: words_at(file, at + 6),
            masks: words_at(file, at + 70),
        }
    }
}

// A refused load hands back the board of no PHYs, made of the load's own blank places: a second board would double its stack.
#[tactic(auto, unfolding(crate::specs::Load::board_of, verdict::specs::Output::tabulate))]
fn refused(refusal: Refusal, phys: [Phy; 32]) -> Outcome
    requires { phys ≡ replicate places blank }
    ensures { told result ≡ refused_load (number_of refusal.fault) refusal.index }
{
    Outcome {
        verdict: Err(refusal),
        board: Board { count: 0, phys },
    }
}

// The board that a board file says.
#[tactic(auto, unfolding(crate::specs::Load::loaded))]
pub fn load(file: &[u8]) -> Outcome
    ensures { told result ≡ loaded file.now }
{
    let blank = sound::blank();
    let mut phys = [blank; 32];
    let count = match count_records(file, Board::RECORD, Board::PLACES) {
        Ok(count) => count,
        Err(refusal) => return refused(refusal, phys),
    };
    // Which addresses the records before have.
    let mut taken = [false; 256];
    for k in 0..count {
        let record = Record::at(file, k);
        let address = record.own.address as usize;
        let checked = record.check(file[k * Board::RECORD + 1], taken[address]);
        let Ok(()) = checked else {
            phys = [blank; 32];
            return refused(checked.unwrap_err().at(k), phys);
        };
        phys[k] = Phy::fresh(record.own, record.defaults, record.masks);
        taken[address] = true;
    }
    Outcome {
        verdict: Ok(count),
        board: Board { count, phys },
    }
}
