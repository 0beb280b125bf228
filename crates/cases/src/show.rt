// The words that print what stands somewhere:
//
//     ,            a comma
//     Answer K     the status of answer K, from 0, and its data
//     Heard K      the flags of log record K, from 0, and the low half of its mask
//     Word P R     register R of the PHY at place P
//     Step I       byte I of the steps
//     Given I      byte I of the answers
//     Flag I       byte I of the log
//     Output I     byte I of the text
use crate::desk::Desk;
use crate::script::{UnknownLetter, Word};
use frame::{Answer, Frame};
use std::io;
use verdict::{byte_at, word_at};

#[derive(Clone, Copy)]
pub(crate) enum Show {
    Comma,
    Answer,
    Heard,
    Word,
    Step,
    Given,
    Flag,
    Output,
}

impl TryFrom<u8> for Show {
    type Error = UnknownLetter;

    fn try_from(letter: u8) -> Result<Show, UnknownLetter> {
        match letter {
            b',' => Ok(Show::Comma),
            b'A' => Ok(Show::Answer),
            b'H' => Ok(Show::Heard),
            b'W' => Ok(Show::Word),
            b'S' => Ok(Show::Step),
            b'G' => Ok(Show::Given),
            b'F' => Ok(Show::Flag),
            b'O' => Ok(Show::Output),
            _ => Err(UnknownLetter),
        }
    }
}

// A byte, decimal, and the word that a place has, in four hexadecimal digits.
fn byte_and_word(rt: &impl Print, buffer: &[u8], at: usize, place: usize) -> io::Result<()> {
    let byte = byte_at(buffer, at);
    let word = word_at(buffer, place);
    print!(rt; " {byte} {word:04X}")
}

fn byte(rt: &impl Print, buffer: &[u8], at: u32) -> io::Result<()> {
    print!(rt; " {}", byte_at(buffer, at as usize))
}

impl Desk {
    pub(crate) fn show(&self, rt: &impl Print, show: Show, word: Word) -> io::Result<()> {
        match show {
            Show::Comma => rt.write_all(b","),
            Show::Answer => {
                let at = word.a as usize * Answer::BYTES;
                byte_and_word(rt, &self.answers, at, at + 4)
            }
            Show::Heard => {
                let at = word.a as usize * Frame::LOG_RECORD;
                byte_and_word(rt, &self.log, at, at + 3)
            }
            Show::Word => self.register(rt, word),
            Show::Step => byte(rt, &self.steps, word.a),
            Show::Given => byte(rt, &self.answers, word.a),
            Show::Flag => byte(rt, &self.log, word.a),
            Show::Output => byte(rt, &self.text, word.a),
        }
    }

    fn register(&self, rt: &impl Print, word: Word) -> io::Result<()> {
        match self.board.phys.get(word.a as usize) {
            Some(phy) => print!(rt; " {:04X}", phy.word((word.b % 256) as u8)),
            None => Ok(()),
        }
    }
}
