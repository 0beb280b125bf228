// What every party on the wire has in common: what it may drive in a clock, and how it follows frames by the levels
// alone (document 01, "Clock steps" and "The PHY's follower").
#![tactic(auto)]

ghost use Rattle.std.specs.Prelude.{◌≡◌};
ghost use Rattle.wire.specs.Follower.{one_more, follow, header_of};
ghost use Rattle.wire.specs.Machines.{header_for};

use frame::{Frame, Transaction};

// What one party does to the wire in a clock. An `Option<bool>` would be no plainer: `Some(false)` does not say that the party
// pulls the wire to 0.
#[derive(Clone, Copy)]
pub enum Drive {
    Released,
    Driven(bool),
}

// What a party knows of the frames on the wire.
#[derive(Clone, Copy, Debug, PartialEq, Eq)]
pub enum Follower {
    // Hunting for a frame, with the ones seen, at most 32.
    Hunting(u8),
    // Inside a frame, with the number of bits seen, 1 to 31, and the bits, high bit first.
    Inside(u8, u32),
}

// The first 14 bits of a frame: start, op, address, register. Start and op are two bits each, whatever they say, and no enums: `header_of`
// promises them of all bits.
#[derive(Clone, Copy, Debug, PartialEq, Eq)]
pub struct Header {
    pub start: u8,
    pub op: u8,
    pub address: u8,
    pub register: u8,
}

impl Header {
    // Every frame of ours starts 01.
    pub const OUR_START: u8 = Frame::START_BITS as u8;
}

// The header that 14 bits say.
impl From<u32> for Header {
    ghost from_gives = { λ bits header. header ≡ header_of bits };

    #[tactic(auto, unfolding(crate::specs::Follower::header_of))]
    fn from(bits: u32) -> Header {
        Header {
            start: (bits / 4096 % 4) as u8,
            op: (bits / 1024 % 4) as u8,
            address: (bits / 32 % 32) as u8,
            register: (bits % 32) as u8,
        }
    }
}

// The header of the frame that sends a transaction.
impl From<Transaction> for Header {
    ghost from_gives = { λ transaction header. header ≡ header_for transaction };

    fn from(transaction: Transaction) -> Header {
        Header {
            start: Header::OUR_START,
            op: transaction.op,
            address: transaction.address,
            register: transaction.register,
        }
    }
}

impl Follower {
    // The ones of a whole preamble: more are not counted.
    pub const MOST_ONES: u8 = Frame::PREAMBLE as u8;
    // Inside a frame at most this many bits were seen: the next one ends it.
    pub const MOST_SEEN: u8 = (Frame::BITS - 1) as u8;
    // How many values a frame has without its last bit: the bits seen, below this, have room for one more.
    pub const HALF_FRAME_VALUES: u32 = 0x8000_0000;

    // The bits of a frame with one more behind them, of which the last 32 are kept.
    pub fn one_more(bits: u32, level: bool) -> u32
        ensures { result ≡ one_more bits level }
    {
        bits % Follower::HALF_FRAME_VALUES * 2 + u32::from(level)
    }

    // What the follower is after a clock at this level, where `enough` ones let a 0 start a frame. A frame is followed to its
    // end whatever it says, also where it starts 00 and is not ours.
    #[tactic(auto, unfolding(crate::specs::Follower::follow))]
    pub fn follow(self, enough: u8, level: bool) -> Follower
        ensures { result ≡ follow enough level self }
    {
        match self {
            Follower::Hunting(ones) if level => {
                Follower::Hunting(ones.saturating_add(1).min(Follower::MOST_ONES))
            }
            Follower::Hunting(ones) if ones < enough => Follower::Hunting(0),
            Follower::Hunting(_) => Follower::Inside(1, 0),
            Follower::Inside(seen, bits) if seen < Follower::MOST_SEEN => {
                Follower::Inside(seen + 1, Follower::one_more(bits, level))
            }
            Follower::Inside(_, _) => Follower::Hunting(0),
        }
    }
}
