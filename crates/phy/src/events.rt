// What happens to a PHY from outside, each event by its number.
ghost use Rattle.std.specs.Prelude.{◌≡◌, ◌-◌, ◌<◌};
ghost use Rattle.std.specs.Int.Bits.{bit_and, bit_or};
ghost use Rattle.phy.specs.Fields.{register_of, with_register, with_link};
ghost use Rattle.phy.specs.Events.{code_of, Decodes, completes, happening, event};

use crate::Phy;
use crate::control::Control;
use crate::status::Status;

// As a number each is the one of document 01.
#[derive(Clone, Copy, Debug, PartialEq, Eq)]
pub enum Event {
    LinkUp = 1,
    LinkDown = 2,
    RemoteFault = 3,
    Jabber = 4,
    NegotiationComplete = 5,
    RestartDone = 6,
    ResetDone = 7,
}

// A number that is no event's.
#[derive(Clone, Copy, Debug, PartialEq, Eq)]
pub struct UnknownEvent(pub u8);

impl TryFrom<u8> for Event {
    type Error = UnknownEvent;

    ghost try_from_gives = { Decodes };

    fn try_from(code: u8) -> Result<Self, UnknownEvent> {
        match code {
            1 => Ok(Event::LinkUp),
            2 => Ok(Event::LinkDown),
            3 => Ok(Event::RemoteFault),
            4 => Ok(Event::Jabber),
            5 => Ok(Event::NegotiationComplete),
            6 => Ok(Event::RestartDone),
            7 => Ok(Event::ResetDone),
            _ => Err(UnknownEvent(code)),
        }
    }
}

impl Phy {
    fn with_link(mut self, link: bool) -> Phy
        ensures { result ≡ with_link link self }
    {
        self.link = link;
        self
    }

    // Bits of register 1 set.
    fn set_status(mut self, bits: u16) -> Phy
        ensures { result ≡ with_register 1 (bit_or (register_of 1 self) bits) self }
    {
        self.registers[1] |= bits;
        self
    }

    // A register's bits cleared.
    #[tactic(auto, using(crate::proofs::Words::and_rest))]
    fn clear(mut self, register: usize, bits: u16) -> Phy
        requires { register < 32 }
        ensures { result ≡ with_register register (register_of register self - bit_and (register_of register self) bits) self }
    {
        self.registers[register] &= !bits;
        self
    }

    // Negotiation completes only where it is enabled and not restarting.
    fn complete(self) -> Phy
        ensures { result ≡ completes self }
    {
        let control = self.registers[0];
        let enabled = control & Control::AUTO_NEGOTIATION_ENABLE != 0;
        let restarting = control & Control::RESTART_AUTO_NEGOTIATION != 0;
        if enabled && !restarting {
            self.set_status(Status::AUTO_NEGOTIATION_COMPLETE)
        } else {
            self
        }
    }

    // What an event does outside reset.
    #[tactic(auto, unfolding(crate::specs::Events::happening))]
    fn happening(self, event: Event) -> Phy
        ensures { result ≡ happening (code_of event) self }
    {
        match event {
            Event::LinkUp => self.with_link(true),
            Event::LinkDown => self.clear(1, Status::LINK_STATUS).with_link(false),
            Event::RemoteFault => self.set_status(Status::REMOTE_FAULT),
            Event::Jabber => self.set_status(Status::JABBER_DETECT),
            Event::NegotiationComplete => self.complete(),
            Event::RestartDone => self.clear(0, Control::RESTART_AUTO_NEGOTIATION),
            Event::ResetDone => self.clear(0, Control::RESET),
        }
    }

    // The PHY after the event with a number: an unknown one changes nothing, and in reset only the reset's end acts.
    #[tactic(auto, using(crate::proofs::Held::unknown_event), unfolding(crate::specs::Events::event))]
    pub fn event(mut self, code: u8) -> Phy
        ensures { result ≡ event code self }
    {
        let Ok(event) = Event::try_from(code) else {
            return self;
        };
        if self.in_reset() && event != Event::ResetDone {
            return self;
        }
        self = self.happening(event);
        self
    }
}
