// What is heard in a clock: the level, and who drives.
ghost use Rattle.std.specs.Prelude.{◌≡◌, ◌<◌, length};
ghost use Rattle.wire.specs.Wire.{station_drive};
ghost use Rattle.verdict.specs.Lists.{All};
ghost use Rattle.wire_machine.specs.Common.{standing};
ghost use Rattle.wire_machine.specs.Lines.{heard_station, hears_drive, heard_from, record_of};

use crate::common::Common;
use crate::line::Line;
use frame::Step;
use wire::Drive;

#[derive(Clone, Copy)]
pub(crate) struct Heard {
    pub(crate) level: bool,
    // Whether the station drives, whether any party does, and whether two or more do.
    station: bool,
    some: bool,
    several: bool,
    // Bit a where the PHY at address a drives.
    mask: u32,
}

// What the station does in a step. No `From`: a step is a byte, and `Drive` another crate's.
pub(crate) fn station_drive(step: u8) -> Drive
    ensures { result ≡ station_drive step }
{
    match step {
        Step::DRIVE_ZERO => Drive::Driven(false),
        Step::DRIVE_ONE => Drive::Driven(true),
        _ => Drive::Released,
    }
}

impl Heard {
    const LEVEL: u8 = 1;

    const STATION: u8 = 2;

    const SEVERAL: u8 = 4;

    // The station alone.
    fn station(drive: Drive) -> Heard
        ensures { result ≡ heard_station drive }
    {
        match drive {
            Drive::Released => Heard {
                level: true,
                station: false,
                some: false,
                several: false,
                mask: 0,
            },
            Drive::Driven(level) => Heard {
                level,
                station: true,
                some: true,
                several: false,
                mask: 0,
            },
        }
    }

    // One PHY more: its address, and what it drives.
    #[tactic(auto, using(crate::proofs::Lines::mark_set), unfolding(crate::specs::Lines::hears_drive))]
    fn with(self, address: u8, drive: Drive) -> Heard
        requires { address < 32 }
        ensures { result ≡ hears_drive address drive self }
    {
        match drive {
            Drive::Released => self,
            Drive::Driven(level) => Heard {
                level: self.level & level,
                some: true,
                several: self.several | self.some,
                mask: self.mask | (1 << address),
                ..self
            },
        }
    }

    // Writes the clock's record to a part of the log.
    #[tactic(auto, unfolding(crate::specs::Lines::record_of))]
    pub(crate) fn put(self, part: &mut [u8])
        requires { 5 ≡ length part.old }
        ensures { part.new ≡ record_of self }
    {
        let flags = u8::from(self.level) * Heard::LEVEL
            + u8::from(self.station) * Heard::STATION
            + u8::from(self.several) * Heard::SEVERAL;
        let [high, mid_high, mid_low, low] = self.mask.to_be_bytes();
        part.copy_from_slice(&[flags, high, mid_high, mid_low, low]);
    }
}

// What is heard of the station and of all lines, as they stand.
pub(crate) fn hear(lines: &[Line], common: Common, drive: Drive) -> Heard
    requires { All (λ line. line.own.address < 32) (standing common lines.now) }
    ensures { result ≡ heard_from (heard_station drive) (standing common lines.now) }
{
    let mut heard = Heard::station(drive);
    if common.is_silent() {
        return heard;
    }
    for line in lines {
        heard = heard.with(line.own.address, common.stands(*line).drives());
    }
    heard
}
