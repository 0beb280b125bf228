// The header of the text, and its time lines.
ghost use Rattle.std.specs.Prelude.{◌≡◌, ◌<◌};
ghost use Rattle.waveform.specs.Text.{digit_of, places, time_line};
ghost use Rattle.waveform.specs.Waveform.{header as header_text};

use crate::Waveform;

// The text before the first clock: it names the signals, under one scope.
pub(crate) fn header() -> [u8; Waveform::HEADER]
    ensures { result ≡ header_text }
{
    *b"$version Taksherub $end\n\
       $comment MDIO wire, one time unit for each clock $end\n\
       $timescale 1 us $end\n\
       $scope module mdio $end\n\
       $var wire 1 L level $end\n\
       $var wire 1 E enable $end\n\
       $var wire 1 C contention $end\n\
       $upscope $end\n\
       $enddefinitions $end\n"
}

pub(crate) fn digit(value: usize) -> u8
    requires { value < 10 }
    ensures { result ≡ digit_of value }
{
    b'0' + value as u8
}

// How many digits a clock's number has.
pub(crate) fn places(clock: usize) -> usize
    ensures { result ≡ places clock }
{
    match clock {
        0..=9 => 1,
        10..=99 => 2,
        100..=999 => 3,
        _ => 4,
    }
}

// The line of a time, of as many bytes as the clock's number asks for, at the end of the room that is lent for it. Its digits are made here, one
// by one as `digits` in specs/ says them, and not by `write!`: so they are an array at once, with no formatter between.
pub(crate) fn time_line(clock: usize, room: &mut [u8; Waveform::LONGEST_TIME]) -> &[u8]
    ensures { result.now ≡ time_line clock }
{
    *room = [
        0,
        digit(clock / 1000 % 10),
        digit(clock / 100 % 10),
        digit(clock / 10 % 10),
        digit(clock % 10),
        b'\n',
    ];
    let start = 4 - places(clock);
    room[start] = b'#';
    &room[start..]
}
