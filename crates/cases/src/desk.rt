// What a case works on: a board, and the buffers, as each case finds them. The words that write into them are in `writes`. All
// cases work at one desk, each once it is clear: a new one for each would be copied, which takes longer.
ghost use Rattle.std.specs.Prelude.{◌≡◌, length, replicate};

use crate::calls::Call;
use crate::changes::Change;
use crate::script::Word;
use crate::show::Show;
use crate::writes::Write;
use board::Board;
use frame::{Answer, Frame, Steps, Transaction};
use std::io;
use verdict::zeroed;
use waveform::Waveform;

// The inputs have room for one record more than is allowed.
const FILE: usize = (Board::PLACES + 1) * Board::RECORD;

const LIST: usize = (Transaction::MOST + 1) * Transaction::BYTES;

const EVENTS: usize = (Board::MOST_EVENTS + 1) * Board::EVENT_RECORD;

// The outputs have it too, and a byte behind it; the text has room for the longest, and that byte.
const STEPS: usize = (Transaction::MOST + 1) * Frame::CLOCKS + 1;

const LOG: usize = (Steps::MOST + 1) * Frame::LOG_RECORD + 1;

const ANSWERS: usize = (Transaction::MOST + 1) * Answer::BYTES + 1;

const TEXT: usize = Waveform::LONGEST + 1;

#[derive(Drop)]
pub(crate) struct Desk {
    pub(crate) board: Board,
    pub(crate) file: [u8; FILE],
    pub(crate) list: [u8; LIST],
    pub(crate) events: [u8; EVENTS],
    pub(crate) steps: [u8; STEPS],
    pub(crate) log: [u8; LOG],
    pub(crate) answers: [u8; ANSWERS],
    pub(crate) text: [u8; TEXT],
}

// 33 board records like board P's, with the addresses 0 to 32.
fn file() -> [u8; FILE] {
    let mut file = zeroed::<FILE>();
    for (address, record) in (0u8..).zip(file.chunks_exact_mut(Board::RECORD)) {
        record[0] = address;
        record[5] = 0x0F;
        record[6] = 0x30;
        record[8] = 0x78;
        record[9] = 0x49;
    }
    file
}

// 65 reads of the status of PHY 1.
fn list() -> [u8; LIST] {
    let mut list = zeroed::<LIST>();
    for record in list.chunks_exact_mut(Transaction::BYTES) {
        record[0] = Transaction::READ;
        record[1] = 1;
        record[2] = 1;
    }
    list
}

// 257 events: event k at clock k, its addresses 0 to 31 and its codes 1 to 7 in turn.
fn events() -> [u8; EVENTS] {
    let mut events = zeroed::<EVENTS>();
    for (k, record) in (0u16..).zip(events.chunks_exact_mut(Board::EVENT_RECORD)) {
        let [high, low] = k.to_be_bytes();
        record[0] = high;
        record[1] = low;
        record[2] = (k % 32) as u8;
        record[3] = (k % 7 + 1) as u8;
    }
    events
}

// What stands in the outputs: a byte that no log has for its flags, and no text anywhere; as flags it says that no signal is 1.
const UNWRITTEN: u8 = 8;

impl Desk {
    // A desk with nothing on it. Each case clears it first.
    pub(crate) fn new() -> Desk {
        Desk {
            board: board::load(b"").board,
            file: [0; FILE],
            list: [0; LIST],
            events: [0; EVENTS],
            steps: [0; STEPS],
            log: [0; LOG],
            answers: [0; ANSWERS],
            text: [0; TEXT],
        }
    }

    // The desk becomes as each case finds it.
    pub(crate) fn clear(&mut self)
        ensures steps { self.new.steps ≡ replicate (length self.old.steps) 8 }
        ensures log { self.new.log ≡ replicate (length self.old.log) 8 }
        ensures answers { self.new.answers ≡ replicate (length self.old.answers) 8 }
        ensures text { self.new.text ≡ replicate (length self.old.text) 8 }
    {
        self.board = board::load(b"").board;
        self.file = file();
        self.list = list();
        self.events = events();
        self.steps.fill(UNWRITTEN);
        self.log.fill(UNWRITTEN);
        self.answers.fill(UNWRITTEN);
        self.text.fill(UNWRITTEN);
    }

    // What a word of a case does. A misspelt one shows as a question mark.
    pub(crate) fn obey(&mut self, rt: &impl Print, word: Word) -> io::Result<()> {
        if let Ok(write) = Write::try_from(word.letter) {
            self.write(write, word);
        } else if let Ok(change) = Change::try_from(word.letter) {
            self.change(change, word);
        } else if let Ok(call) = Call::try_from(word.letter) {
            self.call(rt, call, word)?;
        } else if let Ok(show) = Show::try_from(word.letter) {
            self.show(rt, show, word)?;
        } else {
            rt.write_all(b" ?")?;
        }
        Ok(())
    }
}
