// From a log to its text.
ghost use Rattle.std.specs.Prelude.{◌≡◌, ◌<◌, length};
ghost use Rattle.verdict.specs.Refusal.{said};
ghost use Rattle.verdict.specs.File.{records};
ghost use Rattle.frame.specs.Frame.{log_record};
ghost use Rattle.waveform.specs.Text.{time_line};
ghost use Rattle.waveform.specs.Signals.{value_line};
ghost use Rattle.waveform.specs.Waveform.{clock_lines, waveform, Written};
ghost use Rattle.waveform.specs.Passes.{HasRoom, Puts, Accepted, clock_at, shown_at};

use crate::Waveform;
use crate::lines::{header, places, time_line};
use crate::signals::{Signal, Signals};
use frame::Frame;
use verdict::{Fault, Refusal, count_records};

// A clock of a log: its number, and the signals of the clock before it and its own.
#[derive(Clone, Copy)]
struct Clock {
    number: usize,
    old: Signals,
    new: Signals,
}

impl Clock {
    // The clock of record i of a log; before clock 1 no signal is on.
    fn at(log: &[u8], i: usize) -> Clock
        requires { i < records log_record log.now }
        ensures { result ≡ clock_at log.now i }
    {
        let old = if i == 0 {
            0
        } else {
            log[(i - 1) * Frame::LOG_RECORD]
        };
        Clock {
            number: i + 1,
            old: Signals::from(old),
            new: Signals::from(log[i * Frame::LOG_RECORD]),
        }
    }

    // The signals that it shows: all at clock 1, later those that change.
    fn shown(self) -> Signals
        ensures { result ≡ shown_at self.number self.old self.new }
    {
        let first = self.number == 1;
        Signals {
            level: first | (self.old.level != self.new.level),
            enable: first | (self.old.enable != self.new.enable),
            contention: first | (self.old.contention != self.new.contention),
        }
    }

    // How many bytes its lines take.
    fn size(self) -> usize
        ensures { result ≡ length (clock_lines self.number self.old self.new) }
    {
        let shown = self.shown();
        if shown.any() {
            let values = shown.level as usize + shown.enable as usize + shown.contention as usize;
            time_size(self.number) + values * Signal::LINE
        } else {
            0
        }
    }
}

// How many bytes the line of a time takes.
fn time_size(number: usize) -> usize
    ensures { result ≡ length (time_line number) }
{
    2 + places(number)
}

// A text to write to, and the place behind what is put there so far. It is a place and not the rest of the slice, since what is promised
// speaks of the whole text.
#[derive(Drop)]
struct Output<'a> {
    text: &'a mut [u8],
    at: usize,
}

impl Output<'_> {
    // Puts a line behind what is there.
    fn put(&mut self, line: &[u8])
        requires { HasRoom self.old line.now }
        ensures { Puts self.old line.now self.new }
    {
        let behind = self.at + line.len();
        self.text[self.at..behind].copy_from_slice(line);
        self.at = behind;
    }

    // The line of a time, of four digits at most.
    fn put_time(&mut self, number: usize)
        requires { HasRoom self.old (time_line number) }
        ensures { Puts self.old (time_line number) self.new }
    {
        let mut room = [0; Waveform::LONGEST_TIME];
        self.put(time_line(number, &mut room));
    }

    // The line of a signal, where the clock shows it.
    fn put_value(&mut self, signal: Signal, shown: bool, value: bool)
        requires { HasRoom self.old (value_line signal shown value) }
        ensures { Puts self.old (value_line signal shown value) self.new }
    {
        if shown {
            self.put(&signal.line(value));
        }
    }

    // The lines of a clock; no line where it shows no signal. The signals are fields, and their order is the text's, so that three
    // calls are plainer than a loop.
    fn put_clock(&mut self, clock: Clock)
        requires { HasRoom self.old (clock_lines clock.number clock.old clock.new) }
        ensures { Puts self.old (clock_lines clock.number clock.old clock.new) self.new }
    {
        let shown = clock.shown();
        if shown.any() {
            self.put_time(clock.number);
            self.put_value(Signal::Level, shown.level, clock.new.level);
            self.put_value(Signal::Enable, shown.enable, clock.new.enable);
            self.put_value(Signal::Contention, shown.contention, clock.new.contention);
        }
    }

    // The text of a log.
    fn put_all(&mut self, log: &[u8])
        requires accepted { Accepted log.now }
        requires has_room { HasRoom self.old (waveform log.now) }
        ensures { Puts self.old (waveform log.now) self.new }
    {
        self.put(&header());
        let count = log.len() / Frame::LOG_RECORD;
        for i in 0..count {
            self.put_clock(Clock::at(log, i));
        }
        self.put_time(count + 1);
    }
}

// How many bytes the text of a log takes. It has a loop of its own, since a text that is only measured is not lent.
fn text_size(log: &[u8]) -> usize
    requires { Accepted log.now }
    ensures { result ≡ length (waveform log.now) }
{
    let mut size = Waveform::HEADER;
    let count = log.len() / Frame::LOG_RECORD;
    for i in 0..count {
        size += Clock::at(log, i).size();
    }
    size + time_size(count + 1)
}

// Writes the text of a log to the start of `text`. Nothing is written before it is known that all of it fits: by the longest
// that there is, or else by its own size.
pub fn write_vcd(log: &[u8], text: &mut [u8]) -> Result<usize, Refusal>
    ensures { Written log.now text.old (said result) text.new }
{
    count_records(log, Frame::LOG_RECORD, Waveform::MOST)?;
    let room = text.len();
    if room < Waveform::LONGEST && room < text_size(log) {
        return Err(Fault::NoRoom.at(0));
    }
    let mut out = Output { text, at: 0 };
    out.put_all(log);
    Ok(out.at)
}
