// The words that write into the buffers:
//
//     file R B V      byte B of board record R becomes V
//     list R B V      byte B of list record R becomes V
//     event R B V     byte B of event record R becomes V
//     occurs R C N    event record R becomes code N at clock C, for address 1
//     steps A B V     the steps from place A up to B become V
//     turn A B V      the flags of log records A up to B become V and 0 in turn
ghost use Rattle.std.specs.Prelude.{◌<◌};

use crate::desk::Desk;
use crate::script::{UnknownLetter, Word};
use board::Board;
use frame::{Frame, Transaction};

#[derive(Clone, Copy)]
pub(crate) enum Write {
    File,
    List,
    Event,
    Occurs,
    Steps,
    Turn,
}

impl TryFrom<u8> for Write {
    type Error = UnknownLetter;

    fn try_from(letter: u8) -> Result<Write, UnknownLetter> {
        match letter {
            b'f' => Ok(Write::File),
            b'l' => Ok(Write::List),
            b'e' => Ok(Write::Event),
            b'o' => Ok(Write::Occurs),
            b's' => Ok(Write::Steps),
            b't' => Ok(Write::Turn),
            _ => Err(UnknownLetter),
        }
    }
}

fn low_byte(value: u32) -> u8 {
    (value % 256) as u8
}

// A byte of a buffer; past its end nothing.
fn put(buffer: &mut [u8], at: usize, value: u8) {
    if let Some(byte) = buffer.get_mut(at) {
        *byte = value;
    }
}

// The low byte of a word's third number, to the record and the byte in it that its first two name.
fn put_in_record(file: &mut [u8], size: usize, word: Word)
    requires { size < 256 }
{
    put(
        file,
        word.a as usize * size + word.b as usize,
        low_byte(word.c),
    );
}

// An event of address 1.
fn put_event(events: &mut [u8], word: Word) {
    let at = word.a as usize * Board::EVENT_RECORD;
    put(events, at, low_byte(word.b / 256));
    put(events, at + 1, low_byte(word.b));
    put(events, at + 2, 1);
    put(events, at + 3, low_byte(word.c));
}

fn fill(steps: &mut [u8], word: Word) {
    let end = steps.len().min(word.b as usize);
    if let Some(part) = steps.get_mut(word.a as usize..end) {
        part.fill(low_byte(word.c));
    }
}

fn turn(log: &mut [u8], word: Word) {
    for k in word.a..word.b {
        let flags = if (k - word.a) % 2 == 0 { word.c } else { 0 };
        put(log, k as usize * Frame::LOG_RECORD, low_byte(flags));
    }
}

impl Desk {
    pub(crate) fn write(&mut self, write: Write, word: Word) {
        match write {
            Write::File => put_in_record(&mut self.file, Board::RECORD, word),
            Write::List => put_in_record(&mut self.list, Transaction::BYTES, word),
            Write::Event => put_in_record(&mut self.events, Board::EVENT_RECORD, word),
            Write::Occurs => put_event(&mut self.events, word),
            Write::Steps => fill(&mut self.steps, word),
            Write::Turn => turn(&mut self.log, word),
        }
    }
}
