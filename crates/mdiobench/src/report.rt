// What the program prints (document 01: "Ordinal, W or R, address, register (two decimal digits each), status, data (four
// hex digits, capitals), one space between").
ghost use Rattle.std.specs.Prelude.{◌≡◌, ◌<◌, Some};
ghost use Rattle.verdict.specs.File.{records};
ghost use Rattle.frame.specs.Answers.{answer_record};
ghost use Rattle.mdiobench.specs.Line.{letter_of, answer_at, after_ordinal};

use frame::{Answer, Transaction};
use listener::Capture;
use std::{fmt, io};
use verdict::{Refusal, byte_at, word_at};

// Room for as many answers as a capture can give, one more than the longest list has.
pub(crate) const ANSWERS: usize = Capture::MOST_RECORDS * Answer::BYTES;

// The answer at an index of the output.
fn answer_at(answers: &[u8], k: usize) -> Answer
    requires { k < records answer_record answers.now }
    ensures { result ≡ answer_at answers.now k }
{
    let at = k * Answer::BYTES;
    Answer {
        status: byte_at(answers, at),
        op: byte_at(answers, at + 1),
        address: byte_at(answers, at + 2),
        register: byte_at(answers, at + 3),
        data: word_at(answers, at + 4),
    }
}

#[tactic(auto, unfolding(crate::specs::Line::letter_of))]
fn letter(op: u8) -> char
    ensures { result ≡ letter_of op }
{
    if op == Transaction::READ { 'R' } else { 'W' }
}

// An answer's line after its ordinal.
#[derive(Drop)]
struct AfterOrdinal(Answer);

impl fmt::Display for AfterOrdinal {
    ghost output = { λ line. Some (after_ordinal line.0) };

    fn fmt<W: fmt::Write>(&self, f: &mut fmt::Formatter<W>) -> fmt::Result {
        let answer = self.0;
        let letter = letter(answer.op);
        let address = answer.address % 100;
        let register = answer.register % 100;
        let status = answer.status % 10;
        let data = answer.data;
        write!(
            f,
            " {letter} {address:02} {register:02} {status} {data:04X}\n"
        )
    }
}

// The lines of these answers.
pub(crate) fn answers(rt: &impl Print, records: &[u8]) -> io::Result<()> {
    for k in 0..records.len() / Answer::BYTES {
        let line = AfterOrdinal(answer_at(records, k));
        print!(rt; "{}{line}", k + 1)?;
    }
    Ok(())
}

// `refused N FILE INDEX`.
pub(crate) fn refusal(rt: &impl Print, refusal: Refusal, file: &str) -> io::Result<()> {
    println!(rt;
        "refused {} {file} {}",
        u8::from(refusal.fault),
        refusal.index
    )
}
