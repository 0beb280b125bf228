// Register 1, status, and register 15, extended status: the bits, and what a read of the status does.
ghost use Rattle.std.specs.Prelude.{◌≡◌};
ghost use Rattle.phy.specs.Registers.{held_after};

#[derive(Clone, Copy)]
pub struct Status;

#[derive(Clone, Copy)]
pub struct ExtendedStatus;

impl Status {
    pub const REGISTER: u8 = 1;

    pub const HUNDRED_T4: u16 = 0x8000;

    pub const HUNDRED_X_FULL: u16 = 0x4000;

    pub const HUNDRED_X_HALF: u16 = 0x2000;

    pub const TEN_FULL: u16 = 0x1000;

    pub const TEN_HALF: u16 = 0x0800;

    pub const HUNDRED_T2_FULL: u16 = 0x0400;

    pub const HUNDRED_T2_HALF: u16 = 0x0200;

    pub const EXTENDED_STATUS: u16 = 0x0100;

    pub const UNIDIRECTIONAL_ABILITY: u16 = 0x0080;

    pub const PREAMBLE_SUPPRESSION: u16 = 0x0040;

    pub const AUTO_NEGOTIATION_COMPLETE: u16 = 0x0020;

    pub const REMOTE_FAULT: u16 = 0x0010;

    pub const AUTO_NEGOTIATION_ABILITY: u16 = 0x0008;

    pub const LINK_STATUS: u16 = 0x0004;

    pub const JABBER_DETECT: u16 = 0x0002;

    pub const EXTENDED_CAPABILITY: u16 = 0x0001;

    // The bits that change; the others stand at their default.
    pub const HELD: u16 = Status::AUTO_NEGOTIATION_COMPLETE
        | Status::REMOTE_FAULT
        | Status::LINK_STATUS
        | Status::JABBER_DETECT;

    // The bits that say an ability: of each speed, and of each duplex.
    pub const TEN: u16 = Status::TEN_FULL | Status::TEN_HALF;

    pub const HUNDRED: u16 = Status::HUNDRED_T4
        | Status::HUNDRED_X_FULL
        | Status::HUNDRED_X_HALF
        | Status::HUNDRED_T2_FULL
        | Status::HUNDRED_T2_HALF;

    pub const FULL: u16 = Status::HUNDRED_X_FULL | Status::TEN_FULL | Status::HUNDRED_T2_FULL;

    pub const HALF: u16 = Status::HUNDRED_T4
        | Status::HUNDRED_X_HALF
        | Status::TEN_HALF
        | Status::HUNDRED_T2_HALF;

    // The status after it was read: the latches of remote fault and jabber clear, and the held link is the link.
    pub fn read(status: u16, link: bool) -> u16
        ensures { result ≡ held_after link status }
    {
        let cleared = status & !Status::REMOTE_FAULT & !Status::JABBER_DETECT;
        if link {
            cleared | Status::LINK_STATUS
        } else {
            cleared & !Status::LINK_STATUS
        }
    }
}

impl ExtendedStatus {
    pub const REGISTER: u8 = 15;

    pub const THOUSAND_X_FULL: u16 = 0x8000;

    pub const THOUSAND_X_HALF: u16 = 0x4000;

    pub const THOUSAND_T_FULL: u16 = 0x2000;

    pub const THOUSAND_T_HALF: u16 = 0x1000;

    pub const RESERVED: u16 = 0x0FFF;

    pub const THOUSAND: u16 = ExtendedStatus::FULL | ExtendedStatus::HALF;

    pub const FULL: u16 = ExtendedStatus::THOUSAND_X_FULL | ExtendedStatus::THOUSAND_T_FULL;

    pub const HALF: u16 = ExtendedStatus::THOUSAND_X_HALF | ExtendedStatus::THOUSAND_T_HALF;
}
