// What a PHY is able to do, as registers 1 and 15 say it.
ghost use Rattle.std.specs.Prelude.{◌≡◌};
ghost use Rattle.phy.specs.Abilities.{able10, able100, able1000, able_full, able_half};

use crate::status::{ExtendedStatus, Status};

// The words of both registers, status and extended status.
#[derive(Clone, Copy)]
pub struct Abilities {
    pub status: u16,
    pub extended: u16,
}

impl Abilities {
    // Each speed, in Mb/s, and each duplex below. They differ in a mask, and each has its name in document 01: one function that takes the
    // mask would be no plainer where it is called.
    pub fn ten(self) -> bool
        ensures { result ≡ able10 self.status self.extended }
    {
        self.status & Status::TEN != 0
    }

    pub fn hundred(self) -> bool
        ensures { result ≡ able100 self.status self.extended }
    {
        self.status & Status::HUNDRED != 0
    }

    pub fn thousand(self) -> bool
        ensures { result ≡ able1000 self.status self.extended }
    {
        self.extended & ExtendedStatus::THOUSAND != 0
    }

    pub fn full(self) -> bool
        ensures { result ≡ able_full self.status self.extended }
    {
        self.status & Status::FULL != 0 || self.extended & ExtendedStatus::FULL != 0
    }

    pub fn half(self) -> bool
        ensures { result ≡ able_half self.status self.extended }
    {
        self.status & Status::HALF != 0 || self.extended & ExtendedStatus::HALF != 0
    }
}
