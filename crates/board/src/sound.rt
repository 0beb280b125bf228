// What makes a PHY sound beside its record, and a place blank (document 01, "A sound board"). Tests of words are joined by `&` and
// `|`, which ask both sides and make no branch.
ghost use Rattle.std.specs.Prelude.{◌≡◌, not, position};
ghost use Rattle.board.specs.Check.{passes_as};
ghost use Rattle.phy.specs.Sound.{stands_outside, control_right, registers_stand, others_at_default, reset_stands, follower_sound, in_own_read, phy_sound, is_blank, blank};

use crate::record::Record;
use crate::register;
use phy::{Abilities, Control, Own, Phy, Status};
use wire::{Follower, Header};

// Whether the bits outside a mask stand as in another word.
fn stands_outside(mask: u16, value: u16, default: u16) -> bool
    ensures { result ≡ stands_outside mask value default }
{
    ((value ^ default) | mask) == mask
}

// Bits outside masks stand at default in registers above 1.
fn registers_stand(phy: Phy) -> bool
    ensures { result ≡ registers_stand phy }
{
    register::every(|r| {
        (r <= register::STATUS) | stands_outside(phy.masks[r], phy.registers[r], phy.defaults[r])
    })
}

// What register 0 is asked, by its word and those of registers 1 and 15.
fn control_right(control: u16, able: Abilities) -> bool
    ensures { result ≡ control_right control able.status able.extended }
{
    let speed = Control::speed_able(able, control);
    let full = able.full();
    let half = able.half();
    let enabled = control & Control::AUTO_NEGOTIATION_ENABLE != 0;
    let negotiation = !enabled | (able.status & Status::AUTO_NEGOTIATION_ABILITY != 0);
    let restart = (control & Control::RESTART_AUTO_NEGOTIATION == 0) | enabled;
    let duplex = ((control & Control::FULL_DUPLEX != 0) | half | !full)
        & ((control & Control::FULL_DUPLEX == 0) | full | !half);
    let unidirection = (control & Control::UNIDIRECTIONAL_ENABLE == 0)
        | (able.status & Status::UNIDIRECTIONAL_ABILITY != 0);
    let reserved = control & Control::RESERVED == 0;
    speed & negotiation & restart & duplex & unidirection & reserved
}

// All registers but 0 stand at default.
fn others_at_default(phy: Phy) -> bool
    ensures { result ≡ others_at_default phy }
{
    phy.registers[1..] == phy.defaults[1..]
}

// In reset all else stands at default with the link down.
#[tactic(auto, unfolding(phy::specs::Registers::in_reset))]
fn reset_stands(phy: Phy) -> bool
    ensures { result ≡ reset_stands phy }
{
    if !phy.in_reset() {
        return true;
    }
    let stands = stands_outside(
        Control::RESET,
        phy.registers[register::CONTROL],
        phy.defaults[register::CONTROL],
    );
    stands & others_at_default(phy) & !phy.link
}

// Hunting with 0 to 32 ones, or inside a frame with 1 to 31 bits, the first 0.
#[tactic(auto, unfolding(phy::specs::Sound::follower_sound))]
fn follower_sound(follower: Follower) -> bool
    ensures { result ≡ follower_sound follower }
{
    match follower {
        Follower::Hunting(ones) => ones <= Follower::MOST_ONES,
        Follower::Inside(seen @ 1..=Follower::MOST_SEEN, bits) => bits >> (seen - 1) == 0,
        Follower::Inside(_, _) => false,
    }
}

// Whether a PHY is in an own read of an implemented register, from the 14th bit on.
#[tactic(auto, unfolding(phy::specs::Sound::in_own_read))]
fn in_own_read(own: Own, follower: Follower) -> bool
    ensures { result ≡ in_own_read own follower }
{
    match follower {
        Follower::Hunting(_) => false,
        Follower::Inside(seen @ Phy::HEADER..=Follower::MOST_SEEN, bits) => {
            own.answers(Header::from(bits >> (seen - Phy::HEADER)))
        }
        Follower::Inside(_, _) => false,
    }
}

// All that is asked of one PHY beside its record.
pub(crate) fn phy_sound(phy: Phy) -> bool
    ensures { result ≡ phy_sound phy }
{
    let control = phy.registers[register::CONTROL];
    let status = phy.registers[register::STATUS];
    let able = Abilities {
        status,
        extended: phy.registers[register::EXTENDED_STATUS],
    };
    let complete = (status & Status::AUTO_NEGOTIATION_COMPLETE == 0)
        | ((control & Control::AUTO_NEGOTIATION_ENABLE != 0)
            & (control & Control::RESTART_AUTO_NEGOTIATION == 0));
    let link = (status & Status::LINK_STATUS == 0) | phy.link;
    let captured = in_own_read(phy.own, phy.follower) | (phy.captured == 0);
    registers_stand(phy)
        & stands_outside(Status::HELD, status, phy.defaults[register::STATUS])
        & control_right(control, able)
        & reset_stands(phy)
        & complete
        & link
        & follower_sound(phy.follower)
        & captured
}

// The numbers of a blank place.
const NOBODY: Own = Own {
    address: 0,
    implemented: 0,
};

// A place with no PHY.
#[tactic(auto, unfolding(phy::specs::Sound::blank))]
pub(crate) fn blank() -> Phy
    ensures { result ≡ blank }
{
    let words = [0; 32];
    Phy::fresh(NOBODY, words, words)
}

// Whether a place is blank: numbers zero, hunting with 0 ones, link down. Part by part, since `== blank()` takes twice as long or more.
fn is_blank(phy: Phy) -> bool
    ensures { result ≡ is_blank phy }
{
    let zeros = [0; 32];
    (phy.own == NOBODY)
        & (phy.defaults == zeros)
        & (phy.masks == zeros)
        & (phy.registers == zeros)
        & !phy.link
        & (phy.follower == Follower::Hunting(0))
        & (phy.captured == 0)
}

// The first place that is not blank.
pub(crate) fn first_used(places: &[Phy]) -> Option<usize>
    ensures { result ≡ position (λ phy. not (is_blank phy)) places.now }
{
    places.iter().position(|phy| !is_blank(*phy))
}

// Whether a PHY's record passes checks 3 to 6. `used` is whether its address is, by an earlier place.
pub(crate) fn record_passes(phy: Phy, used: bool) -> bool
    ensures { result ≡ passes_as used phy }
{
    Record::from(phy).check(0, used).is_ok()
}
