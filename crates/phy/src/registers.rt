// The registers of a PHY: which there are, and what a read and a write do to them.
ghost use Rattle.std.specs.Prelude.{◌≡◌, ◌<◌};
ghost use Rattle.phy.specs.Fields.{register_of};
ghost use Rattle.phy.specs.Control.{reset, write_control};
ghost use Rattle.phy.specs.Registers.{in_reset, masked, write_ordinary, after_read, after_write};

use crate::Phy;
use crate::abilities::Abilities;
use crate::control::Control;
use crate::status::Status;

impl Phy {
    pub const REGISTERS: u8 = 32;

    // What a read of a register returns.
    pub fn word(self, register: u8) -> u16
        ensures { result ≡ register_of register self }
    {
        self.registers
            .get(usize::from(register))
            .copied()
            .unwrap_or(0)
    }

    #[tactic(auto, unfolding(crate::specs::Registers::in_reset))]
    pub fn in_reset(self) -> bool
        ensures { result ≡ in_reset self }
    {
        self.registers[0] & Control::RESET != 0
    }

    // The effect of a read: a status read clears the latches and takes the link over.
    #[tactic(auto, unfolding(crate::specs::Registers::after_read, crate::specs::Registers::read_status))]
    pub fn after_read(mut self, register: u8) -> Phy
        ensures { result ≡ after_read register self }
    {
        if register == Status::REGISTER {
            self.registers[1] = Status::read(self.registers[1], self.link);
        }
        self
    }

    // All registers to default, link down, the reset bit one.
    fn reset(mut self) -> Phy
        ensures { result ≡ reset self }
    {
        self.registers = self.defaults;
        self.registers[0] |= Control::RESET;
        self.link = false;
        self
    }

    #[tactic(auto, unfolding(crate::specs::Control::write_control))]
    fn write_control(mut self, word: u16) -> Phy
        ensures { result ≡ write_control word self }
    {
        if word & Control::RESET != 0 {
            return self.reset();
        }
        let able = Abilities {
            status: self.registers[1],
            extended: self.registers[15],
        };
        self.registers[0] = Control::written(able, self.registers[0], word);
        self.registers[1] = Control::status_after(able, word);
        self
    }

    // Masked bits take the word's, others stay.
    #[tactic(auto, using(crate::proofs::Words::merge_word), unfolding(crate::specs::Registers::masked))]
    fn merged(mask: u16, old: u16, word: u16) -> u16
        ensures { result ≡ masked mask old word }
    {
        old & !mask | word & mask
    }

    #[tactic(auto, unfolding(crate::specs::Registers::write_ordinary))]
    fn write_ordinary(mut self, register: u8, word: u16) -> Phy
        requires { register < 32 }
        ensures { result ≡ write_ordinary register word self }
    {
        let r = usize::from(register);
        self.registers[r] = Phy::merged(self.masks[r], self.registers[r], word);
        self
    }

    // The effect of a write: none in reset, none on a register that the PHY does not have.
    #[tactic(auto, using(crate::proofs::Implemented::implemented_below), unfolding(crate::specs::Registers::after_write, crate::specs::Registers::write_by))]
    pub fn after_write(self, register: u8, word: u16) -> Phy
        ensures { result ≡ after_write register word self }
    {
        if self.in_reset() || !self.own.implements(register) {
            return self;
        }
        match register {
            Control::REGISTER => self.write_control(word),
            Status::REGISTER => self,
            _ => self.write_ordinary(register, word),
        }
    }
}
