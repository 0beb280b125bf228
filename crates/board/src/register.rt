// The registers by name, as places in a PHY's arrays, and tests of them all.
ghost use Rattle.std.specs.Prelude.{◌≡◌, ℕ, Bool};
ghost use Rattle.phy.specs.Record.{every, register_count};
ghost use Rattle.board.specs.Registers.{AtEach, Finds};

use phy::{Control, ExtendedStatus, Phy, Status};

pub(crate) const COUNT: usize = Phy::REGISTERS as usize;

pub(crate) const CONTROL: usize = Control::REGISTER as usize;

pub(crate) const STATUS: usize = Status::REGISTER as usize;

pub(crate) const IDENTIFIER_HIGH: usize = 2;

pub(crate) const IDENTIFIER_LOW: usize = 3;
// The two that lead to Clause 45's registers, which no PHY of the bench has.
pub(crate) const MMD_CONTROL: usize = 13;

pub(crate) const MMD_DATA: usize = 14;

pub(crate) const EXTENDED_STATUS: usize = ExtendedStatus::REGISTER as usize;
// Those beside 0, 1 and 13 to 15, as a mask.
pub(crate) const OTHERS: u32 = 0xFFFF_1FFC;

// Whether every register passes a test. `all` would stop at the first that fails: this gathers the tests and stops at none, so that
// it is compiled to tests of eight registers at a time.
pub(crate) fn every<F: Fn(usize) -> bool>(passes: F) -> bool
    requires { AtEach (F.pre passes) }
    ensures { (test : ℕ → Bool) → Finds (F.post passes) test → result ≡ every register_count test }
{
    let mut all = true;
    for r in 0..COUNT {
        all &= passes(r);
    }
    all
}
