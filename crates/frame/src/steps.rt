// The translator: 65 clock steps for each transaction (document 01, "Clock steps").
ghost use Rattle.std.specs.Prelude.{◌≡◌, ◌<◌, ◌+◌, length};
ghost use Rattle.verdict.specs.Bits.{bit};
ghost use Rattle.verdict.specs.Refusal.{said};
ghost use Rattle.verdict.specs.Output.{tabulate};
ghost use Rattle.frame.specs.Steps.{step_at, Translated};

use crate::Frame;
use crate::list::{Transaction, check_list};
use crate::parts::put_each;
use verdict::Refusal;

// A clock step is a byte of a file that C reads and writes: `Transaction::step` promises that byte (`step_at`).
#[derive(Clone, Copy)]
pub struct Step;

impl Step {
    pub const DRIVE_ZERO: u8 = 0;

    pub const DRIVE_ONE: u8 = 1;

    pub const RELEASE: u8 = 2;

    pub const RELEASE_AND_SAMPLE: u8 = 3;
}

// Steps one after the other, one for each clock.
#[derive(Clone, Copy)]
pub struct Steps;

impl Steps {
    // As many as the longest list has, and the largest that there is.
    pub const MOST: usize = Transaction::MOST * Frame::CLOCKS;

    pub const LARGEST: u8 = Step::RELEASE_AND_SAMPLE;
}

// Bit `place` of a word, as the step that drives it.
fn drive_bit(word: u16, place: usize) -> u8
    requires { place < 16 }
    ensures { result ≡ bit place word }
{
    ((word >> place) % 2) as u8
}

impl Transaction {
    // The station's step at a clock position from 1.
    #[tactic(auto, using(crate::proofs::Positions::table))]
    pub fn step(self, position: usize) -> u8
        ensures { result ≡ step_at self position }
    {
        let read = self.op == Transaction::READ;
        match position {
            1..=Frame::PREAMBLE => Step::DRIVE_ONE,
            Frame::START..=Frame::START_LAST => drive_bit(
                Frame::START_BITS,
                Frame::START_LAST - position,
            ),
            Frame::OP..=Frame::OP_LAST => {
                let bits = if read {
                    Frame::READ_BITS
                } else {
                    Frame::WRITE_BITS
                };
                drive_bit(bits, Frame::OP_LAST - position)
            }
            Frame::ADDRESS..=Frame::ADDRESS_LAST => drive_bit(
                self.address as u16,
                Frame::ADDRESS_LAST - position,
            ),
            Frame::REGISTER..=Frame::READ_ACTS => drive_bit(
                self.register as u16,
                Frame::READ_ACTS - position,
            ),
            Frame::TURNAROUND_FIRST => if read { Step::RELEASE } else { Step::DRIVE_ONE },
            Frame::TURNAROUND_SECOND => if read {
                Step::RELEASE_AND_SAMPLE
            } else {
                Step::DRIVE_ZERO
            },
            Frame::DATA..=Frame::WRITE_ACTS => if read {
                Step::RELEASE_AND_SAMPLE
            } else {
                drive_bit(self.data, Frame::WRITE_ACTS - position)
            },
            Frame::CLOCKS => Step::RELEASE,
            _ => Step::RELEASE,
        }
    }

    // Fills a part of the output with the steps from position 1 on.
    fn send(self, part: &mut [u8])
        ensures { part.new ≡ tabulate (length part.old) (λ i. step_at self (i + 1)) }
    {
        for (i, step) in part.iter_mut().enumerate() {
            *step = self.step(i + 1);
        }
    }
}

// Writes the steps of a list to the start of `steps`.
pub fn translate(list: &[u8], steps: &mut [u8]) -> Result<usize, Refusal>
    ensures { Translated list.now steps.old (said result) steps.new }
{
    let count = check_list(list)?;
    put_each(
        list,
        count,
        Frame::CLOCKS,
        steps,
        |transaction, _, part| transaction.send(part),
    )
}
