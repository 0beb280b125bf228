// Register 0, control: the bits, and what a write that does not reset leaves in it.
ghost use Rattle.std.specs.Prelude.{◌≡◌, ◌+◌, ◌*◌, ◌^◌, cond, eqb};
ghost use Rattle.std.specs.Int.Bits.{bit_and};
ghost use Rattle.verdict.specs.Bits.{bit};
ghost use Rattle.phy.specs.Abilities.{one};
ghost use Rattle.phy.specs.Control.{speed_able, speed_from, new_bit12, new_bit9, new_bit8, new_bit5, new_control, new_status};

use crate::abilities::Abilities;
use crate::status::Status;

#[derive(Clone, Copy)]
pub struct Control;

impl Control {
    pub const REGISTER: u8 = 0;

    pub const RESET: u16 = 0x8000;

    pub const LOOPBACK: u16 = 0x4000;

    pub const SPEED_LSB: u16 = 0x2000;

    pub const AUTO_NEGOTIATION_ENABLE: u16 = 0x1000;

    pub const POWER_DOWN: u16 = 0x0800;

    pub const ISOLATE: u16 = 0x0400;

    pub const RESTART_AUTO_NEGOTIATION: u16 = 0x0200;

    pub const FULL_DUPLEX: u16 = 0x0100;

    pub const COLLISION_TEST: u16 = 0x0080;

    pub const SPEED_MSB: u16 = 0x0040;

    pub const UNIDIRECTIONAL_ENABLE: u16 = 0x0020;

    pub const RESERVED: u16 = 0x001F;

    // The bits that a write stores as they come.
    pub const STORED: u16 = Control::LOOPBACK
        | Control::POWER_DOWN
        | Control::ISOLATE
        | Control::COLLISION_TEST;

    // The bits of the speed, and each speed's value there.
    pub const SPEED: u16 = Control::SPEED_LSB | Control::SPEED_MSB;

    pub const TEN: u16 = 0;

    pub const HUNDRED: u16 = Control::SPEED_LSB;

    pub const THOUSAND: u16 = Control::SPEED_MSB;

    // What is able and the word go to each rule as the document has them, "bit 8: fixed if only one duplex is able, else stored": a struct of both
    // would be made once and taken apart in each.

    // Whether the speed that a word asks for is able.
    pub fn speed_able(able: Abilities, word: u16) -> bool
        ensures { result ≡ speed_able able.status able.extended (one 6 word) (one 13 word) }
    {
        match word & Control::SPEED {
            Control::TEN => able.ten(),
            Control::HUNDRED => able.hundred(),
            Control::THOUSAND => able.thousand(),
            _ => false,
        }
    }

    // The speed's bits after a write: the old ones where the speed asked for is not able.
    fn speed(able: Abilities, old: u16, word: u16) -> u16
        ensures { result ≡ bit 13 (speed_from able.status able.extended old word) * 2 ^ 13 + bit 6 (speed_from able.status able.extended old word) * 2 ^ 6 }
    {
        if Control::speed_able(able, word) {
            word & Control::SPEED
        } else {
            old & Control::SPEED
        }
    }

    // A bit after a write that is as written where the status says an ability, else zero.
    fn where_able(able: Abilities, ability: u16, bit: u16, word: u16) -> u16
        ensures { result ≡ cond (eqb (bit_and able.status ability) 0) 0 (bit_and word bit) }
    {
        if able.status & ability != 0 {
            word & bit
        } else {
            0
        }
    }

    // Bit 12 after a write.
    fn enable(able: Abilities, word: u16) -> u16
        ensures { result ≡ new_bit12 able.status word * 2 ^ 12 }
    {
        Control::where_able(
            able,
            Status::AUTO_NEGOTIATION_ABILITY,
            Control::AUTO_NEGOTIATION_ENABLE,
            word,
        )
    }

    // Bit 9 after a write, judged by the new bit 12.
    #[tactic(auto, unfolding(crate::specs::Control::new_bit9))]
    fn restart(able: Abilities, old: u16, word: u16) -> u16
        ensures { result ≡ new_bit9 able.status old word * 2 ^ 9 }
    {
        if Control::enable(able, word) == 0 {
            0
        } else if word & Control::RESTART_AUTO_NEGOTIATION != 0 {
            Control::RESTART_AUTO_NEGOTIATION
        } else {
            old & Control::RESTART_AUTO_NEGOTIATION
        }
    }

    // Bit 8 after a write: as written, but fixed where one duplex alone is able.
    #[tactic(auto, unfolding(crate::specs::Control::new_bit8))]
    fn duplex(able: Abilities, word: u16) -> u16
        ensures { result ≡ new_bit8 able.status able.extended word * 2 ^ 8 }
    {
        match (able.full(), able.half()) {
            (true, false) => Control::FULL_DUPLEX,
            (false, true) => 0,
            _ => word & Control::FULL_DUPLEX,
        }
    }

    // Bit 5 after a write.
    fn unidirectional(able: Abilities, word: u16) -> u16
        ensures { result ≡ new_bit5 able.status word * 2 ^ 5 }
    {
        Control::where_able(
            able,
            Status::UNIDIRECTIONAL_ABILITY,
            Control::UNIDIRECTIONAL_ENABLE,
            word,
        )
    }

    // Register 0 after a write that does not reset.
    #[tactic(auto, using(crate::proofs::NewBits::control_parts))]
    pub fn written(able: Abilities, old: u16, word: u16) -> u16
        ensures { result ≡ new_control able.status able.extended old word }
    {
        (word & Control::STORED)
            + Control::speed(able, old, word)
            + Control::enable(able, word)
            + Control::restart(able, old, word)
            + Control::duplex(able, word)
            + Control::unidirectional(able, word)
    }

    // Register 1 after such a write of register 0: negotiation is not complete where it is off or starts anew.
    pub fn status_after(able: Abilities, word: u16) -> u16
        ensures { result ≡ new_status able.status word }
    {
        let enabled = Control::enable(able, word) != 0;
        let restarted = word & Control::RESTART_AUTO_NEGOTIATION != 0;
        if enabled && !restarted {
            able.status
        } else {
            able.status & !Status::AUTO_NEGOTIATION_COMPLETE
        }
    }
}
