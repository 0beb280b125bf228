// The words that make a board and change it, also to values that no load gives:
//
//     phys N              the board of the board file's first N records
//     number N            the number of PHYs becomes N
//     address P V         the address of the PHY at place P becomes V
//     implemented P V     the mask of its implemented registers
//     default P R V       the default of its register R
//     mask P R V          the write mask of its register R
//     register P R V      its register R
//     up P V              its link: 0 down, 1 up
//     hunting P N         it hunts with N ones
//     within P N V        it is inside a frame with N bits seen, V
//     captured P V        its captured word
use crate::desk::Desk;
use crate::script::{UnknownLetter, Word};
use board::Board;
use phy::Phy;
use wire::Follower;

#[derive(Clone, Copy)]
pub(crate) enum Change {
    Phys,
    Number,
    Address,
    Implemented,
    Default,
    Mask,
    Register,
    Up,
    Hunting,
    Within,
    Captured,
}

impl TryFrom<u8> for Change {
    type Error = UnknownLetter;

    fn try_from(letter: u8) -> Result<Change, UnknownLetter> {
        match letter {
            b'p' => Ok(Change::Phys),
            b'n' => Ok(Change::Number),
            b'a' => Ok(Change::Address),
            b'i' => Ok(Change::Implemented),
            b'd' => Ok(Change::Default),
            b'm' => Ok(Change::Mask),
            b'r' => Ok(Change::Register),
            b'u' => Ok(Change::Up),
            b'h' => Ok(Change::Hunting),
            b'w' => Ok(Change::Within),
            b'c' => Ok(Change::Captured),
            _ => Err(UnknownLetter),
        }
    }
}

// The board of the board file's first n records; where it has not so many, that of none.
fn loaded(file: &[u8], n: u32) -> Board {
    let records = file.get(..n as usize * Board::RECORD);
    board::load(records.unwrap_or(b"")).board
}

// The PHY with a field or a word changed.
fn changed(mut phy: Phy, change: Change, word: Word) -> Phy {
    let r = (word.b % 32) as usize;
    let value = (word.c % 0x1_0000) as u16;
    let byte = (word.b % 256) as u8;
    match change {
        Change::Phys | Change::Number => {}
        Change::Address => phy.own.address = byte,
        Change::Implemented => phy.own.implemented = word.b,
        Change::Default => phy.defaults[r] = value,
        Change::Mask => phy.masks[r] = value,
        Change::Register => phy.registers[r] = value,
        Change::Up => phy.link = word.b == 1,
        Change::Hunting => phy.follower = Follower::Hunting(byte),
        Change::Within => phy.follower = Follower::Inside(byte, word.c),
        Change::Captured => phy.captured = (word.b % 0x1_0000) as u16,
    }
    phy
}

impl Desk {
    pub(crate) fn change(&mut self, change: Change, word: Word) {
        let n = word.a as usize;
        match change {
            Change::Phys => self.board = loaded(&self.file, word.a),
            Change::Number => self.board.count = n,
            _ => {
                if n < Board::PLACES {
                    self.board.phys[n] = changed(self.board.phys[n], change, word);
                }
            }
        }
    }
}
