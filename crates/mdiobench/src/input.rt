// The program's inputs, of any length, each read into a buffer of one record more than the documents allow. A read that fails
// fills no more of its buffer, as the end of a file does.
#![tactic(auto, using(crate::proofs::Lengths::counts, crate::proofs::Lengths::stand_in_fits))]

ghost use Rattle.std.specs.Prelude.{◌≡◌, ◌+◌, ◌%◌, ◌≤◌, ◌<◌, length};
ghost use Rattle.mdiobench.specs.Input.{IsPrefixLen, stand_in};

use board::Board;
use frame::Transaction;
use listener::Capture;
use std::fs;
use std::io::Read;
use std::rt::Files;
use verdict::{read_full, zeroed};

// The buffers: 33 board records, 65 transactions, 257 events, 4,161 levels.
pub(crate) const BOARD: usize = (Board::PLACES + 1) * Board::RECORD;

pub(crate) const LIST: usize = (Transaction::MOST + 1) * Transaction::BYTES;

pub(crate) const EVENTS: usize = (Board::MOST_EVENTS + 1) * Board::EVENT_RECORD;

pub(crate) const CAPTURE: usize = Capture::MOST + 1;

// What follows a buffer's bytes is read in chunks and let go.
const CHUNK: usize = 65536;

// How many bytes of a full buffer stand for an input that goes on after it: as many as are refused by the same number.
#[tactic(auto, unfolding(crate::specs::Input::stand_in))]
fn stand_in(room: usize, size: usize, past: usize) -> usize
    requires { (size ≤ room) × (past < size) }
    ensures { result ≡ stand_in room size past }
{
    if past == 0 { room } else { room - size + past }
}

// The records of an input, by their size in bytes.
#[derive(Clone, Copy)]
pub(crate) struct Records {
    pub(crate) size: usize,
    ghost in_range: { (0 < size) × (size ≤ 134) },
}

impl Records {
    // How far `rest` bytes and `more` go past the last whole record; the sum itself need not fit.
    #[tactic(auto, using(crate::proofs::Lengths::sum_of_rests))]
    fn past(self, rest: usize, more: usize) -> usize
        ensures { result ≡ (rest + more) % self.size }
    {
        (rest % self.size + more % self.size) % self.size
    }

    // How far the rest of an input goes past its last whole record. It is read to its end, or for as many reads as a u64
    // counts, which no input lives to see.
    fn rest_of<R: Read>(self, reader: &mut R) -> usize
        ensures { result < self.size }
    {
        let mut chunk = zeroed::<CHUNK>();
        let mut rest = 0;
        for _ in 0..u64::MAX {
            let more = read_full(reader, &mut chunk).len();
            if more == 0 {
                break;
            }
            rest = self.past(rest, more);
        }
        rest
    }

    // Reads an input, and hands back the part of the buffer that stands for it.
    pub(crate) fn read<'a, R: Read>(self, reader: &mut R, buffer: &'a mut [u8]) -> &'a [u8]
        requires { self.size ≤ length buffer.old }
        ensures { IsPrefixLen (length result.now) buffer.old }
    {
        let room = buffer.len();
        let kept = read_full(reader, buffer);
        if kept.len() < room {
            return kept;
        }
        &kept[..stand_in(room, self.size, self.rest_of(reader))]
    }

    // The same for a file of the folder; one that can't be opened counts as empty.
    pub(crate) fn read_file<'a, R: Files>(
        self,
        rt: &R,
        name: &str,
        buffer: &'a mut [u8],
    ) -> &'a [u8]
        requires { self.size ≤ length buffer.old }
        ensures { IsPrefixLen (length result.now) buffer.old }
    {
        let Ok(mut file) = fs::open(rt, name) else {
            return &[];
        };
        self.read(&mut file, buffer)
    }
}
