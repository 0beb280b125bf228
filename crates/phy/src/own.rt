// Who a frame is for, and so what is driven in it (document 01, "The PHY's follower"): what a PHY knows of itself that
// tells an own read and an own write.
ghost use Rattle.std.specs.Prelude.{◌≡◌, ◌≤◌};
ghost use Rattle.wire.specs.Follower.{answering};
ghost use Rattle.phy.specs.Own.{takes, is_own, implements, answers, stores, drives_in};

use crate::Phy;
use frame::Transaction;
use wire::{Drive, Follower, Header};

#[derive(Clone, Copy, PartialEq, Eq)]
pub struct Own {
    pub address: u8,
    // Bit r for register r.
    pub implemented: u32,
}

impl Own {
    // Whether frames to an address are for this PHY.
    #[tactic(auto, unfolding(crate::specs::Own::takes))]
    pub fn takes(self, address: u8) -> bool
        ensures { result ≡ takes address self }
    {
        address == self.address
    }

    // Whether a header is an own one with this op: of a frame of ours, to an address that this PHY takes.
    pub fn is_own(self, op: u8, header: Header) -> bool
        ensures { result ≡ is_own op header self }
    {
        header.start == Header::OUR_START && header.op == op && self.takes(header.address)
    }

    // Whether the PHY has a register.
    #[tactic(auto, unfolding(crate::specs::Own::implements))]
    pub fn implements(self, register: u8) -> bool
        ensures { result ≡ implements register self }
    {
        register < Phy::REGISTERS && (self.implemented >> register) % 2 == 1
    }

    // Whether a header is an own read of an implemented register.
    #[tactic(auto, unfolding(crate::specs::Own::answers))]
    pub fn answers(self, header: Header) -> bool
        ensures { result ≡ answers header self }
    {
        self.is_own(Transaction::READ, header) && self.implements(header.register)
    }

    // Whether a header is an own write.
    #[tactic(auto, unfolding(crate::specs::Own::stores))]
    pub fn stores(self, header: Header) -> bool
        ensures { result ≡ stores header self }
    {
        self.is_own(Transaction::WRITE, header)
    }

    // What an answer drives after this many frame bits: 0 for bit 16, then the captured word.
    #[tactic(auto, unfolding(wire::specs::Follower::answering))]
    fn answer_bit(seen: u8, captured: u16) -> Drive
        requires { (15 ≤ seen) × (seen ≤ 31) }
        ensures { result ≡ answering seen captured }
    {
        if seen == Phy::BEFORE_ANSWER {
            Drive::Driven(false)
        } else {
            Drive::Driven((captured >> (Follower::MOST_SEEN - seen)) % 2 == 1)
        }
    }

    // What is driven in the next clock, by the PHY's follower and its captured word.
    #[tactic(auto, unfolding(crate::specs::Own::drives_in, wire::specs::Follower::answering))]
    pub fn drives(self, follower: Follower, captured: u16) -> Drive
        ensures { result ≡ drives_in follower captured self }
    {
        let Follower::Inside(seen, bits) = follower else {
            return Drive::Released;
        };
        match seen {
            Phy::BEFORE_ANSWER..=Follower::MOST_SEEN
                if self.answers(Header::from(bits >> (seen - Phy::HEADER))) => {
                Own::answer_bit(seen, captured)
            }
            _ => Drive::Released,
        }
    }
}
