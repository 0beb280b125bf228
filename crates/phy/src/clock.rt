// A PHY in a clock: what it drives, and what it is after it sampled the level.
ghost use Rattle.std.specs.Prelude.{◌≡◌};
ghost use Rattle.phy.specs.Fields.{with_line};
ghost use Rattle.phy.specs.Clock.{fresh, enough, after_header, after_frame, drives, at_header, acts, clock};

use crate::Phy;
use crate::own::Own;
use crate::status::Status;
use frame::Frame;
use wire::{Drive, Follower, Header};

impl Phy {
    // The ones that a PHY which accepts suppressed preambles needs before a frame.
    pub const SUPPRESSED_ONES: u8 = 1;
    // Of a frame's bits, those of the header, and those seen before its last one.
    pub const HEADER: u8 = Frame::HEADER_BITS as u8;

    pub const BEFORE_HEADER: u8 = Phy::HEADER - 1;
    // The bits seen before the clock in which an answer starts: it drives 0 in the second turnaround clock, for bit 16.
    pub const BEFORE_ANSWER: u8 = (Frame::TURNAROUND_SECOND - Frame::START) as u8;

    // As a load leaves it: hunting with 0 ones, link down, registers at default.
    pub fn fresh(own: Own, defaults: [u16; 32], masks: [u16; 32]) -> Phy
        ensures { result ≡ fresh own defaults masks }
    {
        Phy {
            own,
            defaults,
            masks,
            registers: defaults,
            link: false,
            follower: Follower::Hunting(0),
            captured: 0,
        }
    }

    // The ones that let a 0 start a frame.
    pub fn enough(self) -> u8
        ensures { result ≡ enough self }
    {
        if self.registers[1] & Status::PREAMBLE_SUPPRESSION != 0 {
            Phy::SUPPRESSED_ONES
        } else {
            Follower::MOST_ONES
        }
    }

    // The PHY with another line: what the wire knows of it apart, its follower and its captured word.
    pub fn with_line(mut self, follower: Follower, captured: u16) -> Phy
        ensures { result ≡ with_line follower captured self }
    {
        self.follower = follower;
        self.captured = captured;
        self
    }

    // The effect of a header at the 14th frame bit, and of a frame at its 32nd.
    #[tactic(auto, unfolding(crate::specs::Clock::after_header))]
    pub fn after_header(self, header: Header) -> Phy
        ensures { result ≡ after_header header self }
    {
        if self.own.answers(header) {
            self.after_read(header.register)
        } else {
            self
        }
    }

    #[tactic(auto, unfolding(crate::specs::Clock::after_frame))]
    pub fn after_frame(self, header: Header, word: u16) -> Phy
        ensures { result ≡ after_frame header word self }
    {
        if self.own.stores(header) {
            self.after_write(header.register, word)
        } else {
            self
        }
    }

    // What the PHY drives in the next clock.
    pub fn drives(self) -> Drive
        ensures { result ≡ drives self }
    {
        self.own.drives(self.follower, self.captured)
    }

    // The 14th frame bit: an own read captures its word and has its effect.
    #[tactic(auto, unfolding(crate::specs::Clock::at_header))]
    fn at_header(mut self, header: Header) -> Phy
        ensures { result ≡ at_header header self }
    {
        if self.own.answers(header) {
            let word = self.word(header.register);
            self = self.after_header(header);
            self.captured = word;
        }
        self
    }

    // What a clock does beside the follower's move, by the bits seen before it and the bits with its own.
    #[tactic(auto, unfolding(crate::specs::Clock::acts))]
    fn acts(self, seen: u8, bits: u32) -> Phy
        ensures { result ≡ acts seen bits self }
    {
        match seen {
            Phy::BEFORE_HEADER => self.at_header(Header::from(bits)),
            Follower::MOST_SEEN => {
                let header = Header::from(bits / Frame::TAIL_VALUES);
                let word = (bits % Frame::DATA_VALUES) as u16;
                let mut after = self.after_frame(header, word);
                after.captured = 0;
                after
            }
            _ => self,
        }
    }

    // The PHY after a clock at a level.
    #[tactic(auto, unfolding(crate::specs::Clock::clock))]
    pub fn clock(mut self, level: bool) -> Phy
        ensures { result ≡ clock level self }
    {
        let next = self.follower.follow(self.enough(), level);
        if let Follower::Inside(seen, bits) = self.follower {
            self = self.acts(seen, Follower::one_more(bits, level));
        }
        self.follower = next;
        self
    }
}
