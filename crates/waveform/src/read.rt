// From our own text back to the flags of its clocks.
ghost use Rattle.std.specs.Prelude.{◌≡◌, ◌<◌};
ghost use Rattle.verdict.specs.Refusal.{said};
ghost use Rattle.waveform.specs.Text.{time_line as time_text};
ghost use Rattle.waveform.specs.Waveform.{ReadBack};
ghost use Rattle.waveform.specs.Passes.{IsBehind, seen_by, seen_in, shown_in, least, IsNext, next_in, GoneOver};

use crate::Waveform;
use crate::lines::{digit, header, places, time_line};
use crate::signals::{Signal, Signals};
use verdict::{Fault, Refusal, zeroed};

// What the text says of a signal in a clock, or of all three, and the text behind its lines.
#[derive(Clone, Copy)]
struct Seen<'a, T> {
    value: T,
    rest: &'a [u8],
}

// A signal keeps its value where no line says another. At clock 1 a line that says the same counts too.
fn see<'a>(text: &'a [u8], signal: Signal, old: bool, first: bool) -> Seen<'a, bool>
    ensures { seen_by result ≡ seen_in text.now signal old first }
{
    if let Some(rest) = text.strip_prefix(&signal.line(!old)) {
        return Seen { value: !old, rest };
    }
    if first {
        if let Some(rest) = text.strip_prefix(&signal.line(old)) {
            return Seen { value: old, rest };
        }
    }
    Seen {
        value: old,
        rest: text,
    }
}

// The signals are fields, and their order is the text's, so that three calls are plainer than a loop.
fn see_all<'a>(text: &'a [u8], old: Signals, first: bool) -> Seen<'a, Signals>
    ensures { seen_by result ≡ shown_in text.now old first }
{
    let level = see(text, Signal::Level, old.level, first);
    let enable = see(level.rest, Signal::Enable, old.enable, first);
    let contention = see(enable.rest, Signal::Contention, old.contention, first);
    Seen {
        value: Signals {
            level: level.value,
            enable: enable.value,
            contention: contention.value,
        },
        rest: contention.rest,
    }
}

// How many bytes a time line needs behind it: three value lines at clock 1, later one at least.
fn least(first: bool) -> usize
    ensures { result ≡ least first }
{
    if first {
        3 * Signal::LINE
    } else {
        Signal::LINE
    }
}

// What stands behind a clock's time line, where the text starts with it. The byte in the place of its last digit is asked for before the
// line is made: so nine of ten clocks in which nothing changed cost no line.
fn behind_time(text: &[u8], clock: usize) -> Option<&[u8]>
    ensures { IsBehind (time_text clock) text.now result }
{
    if text.get(places(clock)) != Some(&digit(clock % 10)) {
        return None;
    }
    let mut room = [0; Waveform::LONGEST_TIME];
    let time = time_line(clock, &mut room);
    text.strip_prefix(time)
}

// What comes next in the text: another clock, or none at the closing time. Of a clock in which nothing changed the text says
// nothing.
fn what_follows<'a>(
    text: &'a [u8],
    clock: usize,
    old: Signals,
) -> Result<Option<Seen<'a, Signals>>, Refusal>
    ensures { IsNext (next_in text.now clock old) result }
{
    let first = clock == 1;
    let Some(values) = behind_time(text, clock) else {
        if first {
            return Err(Fault::WrongText.at(0));
        }
        return Ok(Some(Seen {
            value: old,
            rest: text,
        }));
    };
    if values.is_empty() {
        return Ok(None);
    }
    let shown = see_all(values, old, first);
    if values.len() < least(first) + shown.rest.len() {
        return Err(Fault::WrongText.at(0));
    }
    Ok(Some(shown))
}

// Reads the flags of the text's clocks, and answers how many there are: no text of ours has more of them than there are places,
// and behind so many only the closing time stands.
fn read_clocks(text: &[u8], flags: &mut [u8; Waveform::MOST]) -> Result<usize, Refusal>
    ensures { GoneOver text.now (said result) flags.new }
{
    let Some(lines) = text.strip_prefix(&header()) else {
        return Err(Fault::WrongText.at(0));
    };
    let mut rest = lines;
    let mut old = Signals::from(0);
    for (i, place) in flags.iter_mut().enumerate() {
        let Some(shown) = what_follows(rest, i + 1, old)? else {
            return Ok(i);
        };
        *place = u8::from(shown.value);
        old = shown.value;
        rest = shown.rest;
    }
    let mut room = [0; Waveform::LONGEST_TIME];
    if rest == time_line(Waveform::MOST + 1, &mut room) {
        Ok(Waveform::MOST)
    } else {
        Err(Fault::WrongText.at(0))
    }
}

// Writes a byte for each clock of our own text to the start of `flags`. Nothing is written before the whole text is known to
// be ours.
pub fn read_vcd(text: &[u8], flags: &mut [u8]) -> Result<usize, Refusal>
    ensures { ReadBack text.now flags.old (said result) flags.new }
{
    let mut room: [u8; Waveform::MOST] = zeroed();
    let count = read_clocks(text, &mut room)?;
    if flags.len() < count {
        return Err(Fault::NoRoom.at(0));
    }
    flags[..count].copy_from_slice(&room[..count]);
    Ok(count)
}
