// What the wire needs of a PHY at every clock, in a few bytes, so that a clock touches no whole PHY unless one acts.
ghost use Rattle.std.specs.Prelude.{◌≡◌, ◌≤◌, length, map};
ghost use Rattle.phy.specs.Fields.{with_line};
ghost use Rattle.between.specs.Happened.{found_at};
ghost use Rattle.wire_machine.specs.Common.{standing};
ghost use Rattle.wire_machine.specs.Lines.{line_of, place_in, line_with, line_drives, line_acts, captures, line_follows, joined_board};

use crate::common::Common;
use board::Board;
use frame::{Frame, Transaction};
use phy::{Own, Phy};
use std::array;
use wire::{Drive, Follower, Header};

#[derive(Clone, Copy)]
pub(crate) struct Line {
    pub(crate) own: Own,
    pub(crate) enough: u8,
    pub(crate) follower: Follower,
    pub(crate) captured: u16,
}

impl From<Phy> for Line {
    ghost from_gives = { λ phy line. line ≡ line_of phy };

    fn from(phy: Phy) -> Line {
        Line {
            own: phy.own,
            enough: phy.enough(),
            follower: phy.follower,
            captured: phy.captured,
        }
    }
}

impl Line {
    // The PHY with this line's follower and captured word.
    pub(crate) fn onto(self, phy: Phy) -> Phy
        ensures { result ≡ with_line self.follower self.captured phy }
    {
        phy.with_line(self.follower, self.captured)
    }

    // What the PHY drives in the next clock.
    pub(crate) fn drives(self) -> Drive
        ensures { result ≡ line_drives self }
    {
        self.own.drives(self.follower, self.captured)
    }

    // Whether the next bit may end the header of an own read, or ends an own write: the whole PHY acts then.
    #[tactic(auto, unfolding(crate::specs::Lines::acts_in))]
    pub(crate) fn acts(self) -> bool
        ensures { result ≡ line_acts self }
    {
        match self.follower {
            Follower::Inside(Phy::BEFORE_HEADER, bits) => {
                let header = Header::from(Follower::one_more(bits, false));
                self.own.is_own(Transaction::READ, header)
            }
            Follower::Inside(Follower::MOST_SEEN, bits) => {
                let header = Header::from(Follower::one_more(bits, false) / Frame::TAIL_VALUES);
                self.own.is_own(Transaction::WRITE, header)
            }
            _ => false,
        }
    }

    // The captured word after a clock in which the PHY does not act: a frame's end captures nothing any more.
    fn captures(self) -> u16
        ensures { result ≡ captures self.follower self.captured }
    {
        match self.follower {
            Follower::Inside(Follower::MOST_SEEN, _) => 0,
            _ => self.captured,
        }
    }

    // The line after a clock in which its PHY does not act.
    #[tactic(auto, unfolding(crate::specs::Lines::line_follows))]
    pub(crate) fn follows(self, level: bool) -> Line
        ensures { result ≡ line_follows level self }
    {
        Line {
            follower: self.follower.follow(self.enough, level),
            captured: self.captures(),
            ..self
        }
    }
}

// The line of each place.
pub(crate) fn lines_of(board: &Board) -> [Line; 32]
    ensures { result ≡ map line_of board.now.phys }
{
    array::from_fn(|i| Line::from(board.phys[i]))
}

// The place of the PHY that has an address, where one of the lines has it.
pub(crate) fn place_in(lines: &[Line], address: u8) -> Option<usize>
    ensures { result ≡ found_at (place_in lines.now address) lines.now }
{
    lines.iter().position(|line| address == line.own.address)
}

// Puts lines back into their board, as they stand.
pub(crate) fn join_all(board: &mut Board, lines: &[Line], common: Common)
    requires { (length lines.now ≡ board.old.count) × (board.old.count ≤ 32) }
    ensures { board.new ≡ joined_board (standing common lines.now) board.old }
{
    for (i, line) in lines.iter().enumerate() {
        board.phys[i] = common.stands(*line).onto(board.phys[i]);
    }
}
