// One board record: checks 3 to 6 (document 01, "Board checks"). Tests of words are joined by `&` and `|`, which ask both sides and
// make no branch.
ghost use Rattle.std.specs.Prelude.{◌≡◌, ◌<◌};
ghost use Rattle.phy.specs.Abilities.{one};
ghost use Rattle.phy.specs.Record.{register_count, others_implemented, register_set_right, unimplemented_zero, fastest, derived_control, words_right, defaults_right};
ghost use Rattle.phy.specs.Fields.{record_of};
ghost use Rattle.verdict.specs.Refusal.{finding};
ghost use Rattle.board.specs.Record.{fault_of, record_in};

use crate::{Board, register};
use phy::{Abilities, Control, ExtendedStatus, Own, Phy, Status};
use verdict::Fault;

// What a record of the board file says of its PHY.
#[derive(Clone, Copy)]
pub(crate) struct Record {
    pub(crate) own: Own,
    pub(crate) defaults: [u16; 32],
    pub(crate) masks: [u16; 32],
}

// Whether an implemented mask has a register.
fn has(implemented: u32, register: usize) -> bool
    requires { register < register_count }
    ensures { result ≡ one register implemented }
{
    implemented & (1u32 << register) != 0
}

// Whether any register beside 0, 1 and 13 to 15 is implemented.
fn others_implemented(implemented: u32) -> bool
    ensures { result ≡ others_implemented implemented }
{
    implemented & register::OTHERS != 0
}

// The fastest speed that is able, as bits 6 and 13 of register 0.
fn fastest(able: Abilities) -> u16
    ensures { result ≡ fastest able.status able.extended }
{
    if able.thousand() {
        Control::THOUSAND
    } else if able.hundred() {
        Control::HUNDRED
    } else {
        Control::TEN
    }
}

// The default of register 0, bit 10 apart.
fn derived_control(able: Abilities) -> u16
    ensures { result ≡ derived_control able.status able.extended }
{
    let negotiation = if able.status & Status::AUTO_NEGOTIATION_ABILITY != 0 {
        Control::AUTO_NEGOTIATION_ENABLE
    } else {
        0
    };
    let duplex = if able.half() { 0 } else { Control::FULL_DUPLEX };
    fastest(able) + negotiation + duplex
}

// Check 6 on the defaults of registers 0, 1 and 15.
fn words_right(control: u16, able: Abilities) -> bool
    ensures { result ≡ words_right control able.status able.extended }
{
    let derived = derived_control(able) + (control & Control::ISOLATE);
    (able.status & Status::HELD == 0)
        & (able.extended & ExtendedStatus::RESERVED == 0)
        & (able.ten() | able.hundred() | able.thousand())
        & (control == derived)
}

impl From<Phy> for Record {
    ghost from_gives = { λ phy r. record_in r ≡ record_of phy };

    fn from(phy: Phy) -> Record {
        let Phy {
            own,
            defaults,
            masks,
            ..
        } = phy;
        Record {
            own,
            defaults,
            masks,
        }
    }
}

impl Record {
    // Check 5.
    fn register_set_right(self) -> bool
        ensures { result ≡ register_set_right self.own.implemented self.defaults }
    {
        let implemented = self.own.implemented;
        let status = self.defaults[register::STATUS];
        let extended_status = has(implemented, register::EXTENDED_STATUS)
            == (status & Status::EXTENDED_STATUS != 0);
        let extended = (status & Status::EXTENDED_CAPABILITY != 0)
            == others_implemented(implemented);
        has(implemented, register::CONTROL)
            & has(implemented, register::STATUS)
            & !has(implemented, register::MMD_CONTROL)
            & !has(implemented, register::MMD_DATA)
            & extended_status
            & extended
    }

    // Check 6 on registers that are not implemented.
    fn unimplemented_zero(self) -> bool
        ensures { result ≡ unimplemented_zero self.own.implemented self.defaults self.masks }
    {
        register::every(|r| {
            has(self.own.implemented, r) | ((self.defaults[r] == 0) & (self.masks[r] == 0))
        })
    }

    // Check 6.
    #[tactic(auto, unfolding(phy::specs::Record::defaults_right))]
    fn defaults_right(self) -> bool
        ensures { result ≡ defaults_right self.own.implemented self.defaults self.masks }
    {
        let able = Abilities {
            status: self.defaults[register::STATUS],
            extended: self.defaults[register::EXTENDED_STATUS],
        };
        self.unimplemented_zero()
            & (self.masks[register::CONTROL] == 0)
            & (self.masks[register::STATUS] == 0)
            & (self.masks[register::IDENTIFIER_HIGH] == 0)
            & (self.masks[register::IDENTIFIER_LOW] == 0)
            & (self.masks[register::EXTENDED_STATUS] == 0)
            & words_right(self.defaults[register::CONTROL], able)
    }

    // Checks 3 to 6, where `used` is whether an earlier record has the address.
    #[tactic(auto, unfolding(crate::specs::Record::fault_of))]
    pub(crate) fn check(self, zero: u8, used: bool) -> Result<(), Fault>
        ensures { finding result ≡ fault_of zero used (record_in self) }
    {
        if (Board::LAST_ADDRESS < self.own.address) | (zero != 0) {
            return Err(Fault::WrongField);
        }
        if used {
            return Err(Fault::AddressUsed);
        }
        if !self.register_set_right() {
            return Err(Fault::WrongRegisterSet);
        }
        if !self.defaults_right() {
            return Err(Fault::WrongDefault);
        }
        Ok(())
    }
}
