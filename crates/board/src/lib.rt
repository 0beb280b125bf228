// Up to 32 PHYs: the board file, what makes a board sound, and the event file (document 01, "Records" and "A sound
// board").
#![tactic(auto)]

mod events;
mod file;
mod record;
mod register;
mod sound;

ghost use Rattle.std.specs.Prelude.{◌≡◌};
ghost use Rattle.verdict.specs.Refusal.{said};
ghost use Rattle.board.specs.Check.{checked};
ghost use Rattle.board.specs.Outcome.{outcome_of};

pub use events::{address_of, check_events, clock_of, code_of};
pub use file::load;
use phy::Phy;
use verdict::{Fault, Refusal};

#[derive(Clone, Copy)]
pub struct Board {
    // How many PHYs there are; they stand in the first places. It is kept beside fixed places, since there is no heap.
    pub count: usize,
    pub phys: [Phy; 32],
}

impl Board {
    pub const PLACES: usize = 32;

    pub const LAST_ADDRESS: u8 = 31;
    // The sizes of a board record and of an event record, and the most events.
    pub const RECORD: usize = 134;

    pub const EVENT_RECORD: usize = 4;

    pub const MOST_EVENTS: usize = 256;
}

// What a call that loads or changes a board answers, and the board that it hands back. A refusal hands one back too, as document 01
// has it: the board that was given, and of a load the board of no PHYs. So the board stands beside the answer, and not in it.
// What refuses is a `Refusal`, or what a caller of another crate has in its place.
#[derive(Clone, Copy)]
pub struct Outcome<E = Refusal> {
    pub verdict: Result<usize, E>,
    pub board: Board,
}

impl<E: Drop> Outcome<E> {
    pub fn of(verdict: Result<usize, E>, board: Board) -> Outcome<E>
        ensures { result ≡ outcome_of verdict board }
    {
        Outcome { verdict, board }
    }
}

// Whether a board is sound: Ok with the number of PHYs, or refusal 12 at the lowest place at fault.
#[tactic(auto, using(crate::proofs::Taken::taken_none), unfolding(crate::specs::Check::checked))]
pub fn check(board: Board) -> Result<usize, Refusal>
    ensures { said result ≡ checked board }
{
    let count = board.count;
    if Board::PLACES < count {
        return Err(Fault::NotSound.at(Board::PLACES));
    }
    // Which addresses the places before have.
    let mut taken = [false; 256];
    for (k, phy) in board.phys[..count].iter().enumerate() {
        let address = phy.own.address as usize;
        let passes = sound::record_passes(*phy, taken[address]);
        if !(passes & sound::phy_sound(*phy)) {
            return Err(Fault::NotSound.at(k));
        }
        taken[address] = true;
    }
    match sound::first_used(&board.phys[count..]) {
        Some(k) => Err(Fault::NotSound.at(count + k)),
        None => Ok(count),
    }
}
