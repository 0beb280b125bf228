// The listener: what an analyser saved of the wire, one byte per clock, read back as answer records (document 02, E1).
#![tactic(auto)]

ghost use Rattle.std.specs.Prelude.{◌≡◌, []};
ghost use Rattle.std.specs.Option.{option_map_or};
ghost use Rattle.std.specs.Iterator.{YieldsFirst, item_count};
ghost use Rattle.verdict.specs.Refusal.{said};
ghost use Rattle.listener.specs.Records.{transaction_in, turnaround_in, records_of, records_given};
ghost use Rattle.listener.specs.Listening.{Listened};
ghost use Rattle.listener.specs.Parts.{frames_in, frames_started, frame_of};

use frame::{Answer, Frame, Steps, Transaction, Turnaround};
use verdict::{Fault, Refusal, check_bytes_for};
use wire::{Follower, Header};

// What is saved: as many bytes as the longest run has clocks, each a level.
#[derive(Clone, Copy)]
pub struct Capture;

impl Capture {
    pub const MOST: usize = Steps::MOST;

    const LARGEST: u8 = 1;
    // A record takes its preamble and its frame at least; the next may follow without an idle clock. So no capture has more
    // records than this.
    const CLOCKS_EACH: usize = Frame::PREAMBLE + Frame::BITS;

    pub const MOST_RECORDS: usize = Capture::MOST / Capture::CLOCKS_EACH;
}

// What a frame of 32 bits says. Not a `From`: the frame is a plain number here, and `Transaction` another crate's.
fn transaction_in(frame: u32) -> Transaction
    ensures { result ≡ transaction_in frame }
{
    let header = Header::from(frame / Frame::TAIL_VALUES);
    Transaction {
        op: header.op,
        address: header.address,
        register: header.register,
        data: (frame % Frame::DATA_VALUES) as u16,
    }
}

// What is learned of its turnaround. Not a `From` either: `Turnaround` is another crate's.
fn turnaround_in(frame: u32) -> Turnaround
    ensures { result ≡ turnaround_in frame }
{
    Turnaround {
        second: (frame / Frame::DATA_VALUES % 2) as u8,
    }
}

// The record of a frame that was heard whole, where it is a write or a read of ours.
fn given_by_frame(frame: u32) -> Option<Answer>
    ensures { records_given result ≡ records_of frame }
{
    if Header::from(frame / Frame::TAIL_VALUES).start != Header::OUR_START {
        return None;
    }
    let seen = transaction_in(frame);
    match seen.op {
        Transaction::WRITE => Some(seen.answer(Answer::SENT, seen.data)),
        Transaction::READ => Some(seen.read_answer(turnaround_in(frame), seen.data)),
        _ => None,
    }
}

// What is left of a capture behind the 0 that starts its next frame, for a listener that hunts with 0 ones.
fn behind_start(levels: &[u8]) -> Option<&[u8]>
    ensures { frames_in levels.now ≡ option_map_or (λ rest. frames_started rest.now) result [] }
{
    let mut follower = Follower::Hunting(0);
    for (i, level) in levels.iter().enumerate() {
        follower = follower.follow(Follower::MOST_ONES, *level == 1);
        if let Follower::Inside(_, _) = follower {
            return Some(&levels[i + 1..]);
        }
    }
    None
}

// The number that the bits of a frame behind its first 0 say.
fn frame_of(levels: &[u8]) -> u32
    ensures { result ≡ frame_of levels.now }
{
    levels
        .iter()
        .fold(0, |bits, level| Follower::one_more(bits, *level == 1))
}

// A listener with what is left of its capture. It gives the frames that it hears whole, each as the number that its 32 bits say.
#[derive(Drop)]
struct Listener<'a> {
    levels: &'a [u8],
}

impl<'a> Iterator for Listener<'a> {
    type Item = u32;

    ghost next_gives = { YieldsFirst (λ s. frames_in s.levels.now) };

    ghost remaining = { item_count (λ s. frames_in s.levels.now) };

    // Behind the 0 of its start a frame has 31 bits. One that is cut off at the capture's end has fewer, and gives nothing.
    #[tactic(auto, using(crate::proofs::Whole::cut_off, crate::proofs::Whole::whole))]
    fn next(&mut self) -> Option<u32> {
        let started = behind_start(self.levels)?;
        let (bits, behind) = started.split_at_checked(Frame::BITS - 1)?;
        self.levels = behind;
        Some(frame_of(bits))
    }
}

// Writes the records of the frames in a capture to the start of `answers`. Nothing is written before it is known that all
// records fit: by the clocks that each takes, or else by a pass that counts them.
pub fn listen(levels: &[u8], answers: &mut [u8]) -> Result<usize, Refusal>
    ensures { Listened levels.now answers.old (said result) answers.new }
{
    check_bytes_for(levels, Capture::MOST, Capture::LARGEST, Fault::WrongLevel)?;
    let room = answers.len() / Answer::BYTES;
    if room < levels.len() / Capture::CLOCKS_EACH
        && room < (Listener { levels }).filter_map(given_by_frame).count()
    {
        return Err(Fault::NoRoom.at(0));
    }
    // Where the next record goes, and in the end how much was written.
    let mut done = 0;
    for answer in (Listener { levels }).filter_map(given_by_frame) {
        let end = done + Answer::BYTES;
        answer.put(&mut answers[done..end]);
        done = end;
    }
    Ok(done)
}
