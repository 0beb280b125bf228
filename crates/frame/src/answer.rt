// The decoder: what a list's log answers (document 01, "Records").
ghost use Rattle.std.specs.Prelude.{◌≡◌, ◌≤◌, ◌<◌, ◌+◌};
ghost use Rattle.verdict.specs.Refusal.{said};
ghost use Rattle.frame.specs.Log.{level_at, log_part};
ghost use Rattle.frame.specs.Answers.{word_in, is_answered, answer_to, read_answer, answer_in, answer_bytes, put_in, Decoded};

use crate::Frame;
use crate::list::{Transaction, check_list};
use crate::log::log_part;
use crate::parts::put_each;
use verdict::{Fault, Refusal, byte_at};

// The status is a byte of a file that C reads, and `Transaction::answer` promises its answer for every byte (`answer_to`).
#[derive(Clone, Copy)]
pub struct Answer {
    pub status: u8,
    pub op: u8,
    pub address: u8,
    pub register: u8,
    pub data: u16,
}

impl Answer {
    // A write was sent, whether or not a PHY took it.
    pub const SENT: u8 = 0;
    // A read was answered.
    pub const ANSWERED: u8 = 1;
    // A read was met with silence; its data is 0.
    pub const SILENT: u8 = 2;

    pub const BYTES: usize = 6;

    // The answer's record, its data high byte first.
    fn record(self) -> [u8; Answer::BYTES]
        ensures { result ≡ answer_bytes self }
    {
        let [high, low] = self.data.to_be_bytes();
        [self.status, self.op, self.address, self.register, high, low]
    }

    // Writes the answer's record to the start of a part of the output; where it does not fit nothing is written.
    #[tactic(auto, unfolding(crate::specs::Answers::put_in))]
    pub fn put(self, part: &mut [u8])
        ensures { part.new ≡ put_in part.old self }
    {
        if part.len() >= Answer::BYTES {
            part[..Answer::BYTES].copy_from_slice(&self.record());
        }
    }
}

// The level at a clock of a transaction's part, from 1; past the part's end it reads 0. It is a number and no bool: `level_at` promises it,
// and a word is made of such numbers.
#[tactic(auto, unfolding(crate::specs::Log::level_at))]
fn level(part: &[u8], clock: usize) -> u8
    requires { (1 ≤ clock) × (clock ≤ 65) }
    ensures { result ≡ level_at part.now clock }
{
    byte_at(part, (clock - 1) * Frame::LOG_RECORD) % 2
}

// What is learned of a read's turnaround: the level at its second clock, the 48th.
#[derive(Clone, Copy)]
pub struct Turnaround {
    pub second: u8,
}

impl Turnaround {
    fn answered(self) -> bool
        ensures { result ≡ is_answered self }
    {
        self.second == 0
    }
}

// The word that the levels of clocks 49 to 64 say, high bit first.
fn word_in(part: &[u8]) -> u16
    ensures { result ≡ word_in part.now }
{
    let mut word: u16 = 0;
    for i in 0..Frame::DATA_BITS {
        word = word * 2 + level(part, Frame::DATA + i) as u16;
    }
    word
}

impl Transaction {
    pub fn answer(self, status: u8, data: u16) -> Answer
        ensures { result ≡ answer_to self status «data» }
    {
        Answer {
            status,
            op: self.op,
            address: self.address,
            register: self.register,
            data,
        }
    }

    // The decoder's rule: what a read's turnaround and the word behind it answer.
    pub fn read_answer(self, turnaround: Turnaround, word: u16) -> Answer
        ensures { result ≡ read_answer self turnaround word }
    {
        if turnaround.answered() {
            self.answer(Answer::ANSWERED, word)
        } else {
            self.answer(Answer::SILENT, 0)
        }
    }

    // The answer in the transaction's part of the log.
    #[tactic(auto, unfolding(crate::specs::Answers::answer_in))]
    fn answer_in(self, part: &[u8]) -> Answer
        ensures { result ≡ answer_in self part.now }
    {
        if self.op != Transaction::READ {
            return self.answer(Answer::SENT, self.data);
        }
        let second = level(part, Frame::TURNAROUND_SECOND);
        self.read_answer(Turnaround { second }, word_in(part))
    }
}

// Writes the answers that a list's log holds to the start of `answers`. It looks at the log where it lies.
pub fn decode(list: &[u8], log: &[u8], answers: &mut [u8]) -> Result<usize, Refusal>
    ensures { Decoded list.now log.now answers.old (said result) answers.new }
{
    let count = check_list(list)?;
    if log.len() != count * Frame::LOG_PART {
        return Err(Fault::WrongLogLength.at(0));
    }
    put_each(
        list,
        count,
        Answer::BYTES,
        answers,
        |transaction, k, part| { transaction.answer_in(log_part(log, k + 1)).put(part) },
    )
}
