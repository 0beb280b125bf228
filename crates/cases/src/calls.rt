// The words that call what is tried and print its answer:
//
//     Translate L N     the list's first L bytes into the first N of the steps
//     Decode L G N      the list's first L bytes and the log's first G into the first N of the answers
//     Back C N          the first C steps as a capture, read back into the first N of the answers
//     Measure G K       how long part K of the log's first G bytes is
//     Vcd G N           the log's first G bytes as a waveform, into the first N of the text
//     Interpret T N     the text's first T bytes read back, into the first N of the steps
//     Load N            the board file's first N bytes
//     Check             the board
//     Events N C        check the events' first N bytes on the board, where the last clock is C
//     Run S G N         the first S steps and the events' first N bytes, into the log's first G
//     Plain L A N       the list's first L bytes and the events' first N, into the first A of the answers
//
// Where an output has fewer bytes, nothing is called.
use crate::desk::Desk;
use crate::script::{UnknownLetter, Word};
use board::{check, check_events, load};
use frame::{decode, log_part, translate};
use listener::listen;
use plain_machine::plain;
use std::io;
use verdict::Refusal;
use waveform::{read_vcd, write_vcd};

#[derive(Clone, Copy)]
pub(crate) enum Call {
    Translate,
    Decode,
    Back,
    Measure,
    Vcd,
    Interpret,
    Load,
    Check,
    Events,
    Run,
    Plain,
}

impl TryFrom<u8> for Call {
    type Error = UnknownLetter;

    fn try_from(letter: u8) -> Result<Call, UnknownLetter> {
        match letter {
            b'T' => Ok(Call::Translate),
            b'D' => Ok(Call::Decode),
            b'B' => Ok(Call::Back),
            b'M' => Ok(Call::Measure),
            b'V' => Ok(Call::Vcd),
            b'I' => Ok(Call::Interpret),
            b'L' => Ok(Call::Load),
            b'C' => Ok(Call::Check),
            b'E' => Ok(Call::Events),
            b'R' => Ok(Call::Run),
            b'P' => Ok(Call::Plain),
            _ => Err(UnknownLetter),
        }
    }
}

// The first bytes of a buffer; all of it where it has fewer.
fn first(buffer: &[u8], n: u32) -> &[u8] {
    buffer.get(..n as usize).unwrap_or(buffer)
}

// An answer: `done N` or `refused N at INDEX`.
fn told(rt: &impl Print, answer: Result<usize, Refusal>) -> io::Result<()> {
    match answer {
        Ok(n) => print!(rt; " done {n}"),
        Err(refusal) => {
            let number = u8::from(refusal.fault);
            print!(rt; " refused {number} at {}", refusal.index)
        }
    }
}

// What a call answers that writes to an output's first bytes.
fn into<F: FnOnce(&mut [u8]) -> Result<usize, Refusal>>(
    rt: &impl Print,
    output: &mut [u8],
    n: u32,
    call: F,
) -> io::Result<()>
    requires { F.IsAlwaysCallable call }
{
    match output.get_mut(..n as usize) {
        Some(part) => told(rt, call(part)),
        None => Ok(()),
    }
}

impl Desk {
    pub(crate) fn call(&mut self, rt: &impl Print, call: Call, word: Word) -> io::Result<()> {
        let Word { a, b, c, .. } = word;
        let list = first(&self.list, a);
        match call {
            Call::Translate => into(rt, &mut self.steps, b, |steps| translate(list, steps)),
            Call::Decode => {
                let log = first(&self.log, b);
                into(
                    rt,
                    &mut self.answers,
                    c,
                    |answers| decode(list, log, answers),
                )
            }
            // A capture has a byte for each clock as the steps do, so it is made in their buffer.
            Call::Back => {
                let levels = first(&self.steps, a);
                into(rt, &mut self.answers, b, |answers| listen(levels, answers))
            }
            Call::Measure => print!(rt; " {}", log_part(first(&self.log, a), b as usize).len()),
            Call::Vcd => {
                let log = first(&self.log, a);
                into(rt, &mut self.text, b, |text| write_vcd(log, text))
            }
            // A text read back gives a byte for each clock as the steps have, so it goes to their buffer.
            Call::Interpret => {
                let text = first(&self.text, a);
                into(rt, &mut self.steps, b, |flags| read_vcd(text, flags))
            }
            Call::Load => told(rt, load(first(&self.file, a)).verdict),
            Call::Check => told(rt, check(self.board)),
            Call::Events => told(
                rt,
                check_events(self.board, first(&self.events, a), b as usize),
            ),
            Call::Run => self.run(rt, word),
            Call::Plain => self.plain(rt, word),
        }
    }

    // The board that a machine hands back stays on the desk.
    fn run(&mut self, rt: &impl Print, word: Word) -> io::Result<()> {
        let events = first(&self.events, word.c);
        let Some(log) = self.log.get_mut(..word.b as usize) else {
            return Ok(());
        };
        let outcome = wire_machine::run(self.board, first(&self.steps, word.a), events, log);
        self.board = outcome.board;
        told(rt, outcome.verdict)
    }

    fn plain(&mut self, rt: &impl Print, word: Word) -> io::Result<()> {
        let events = first(&self.events, word.c);
        let Some(answers) = self.answers.get_mut(..word.b as usize) else {
            return Ok(());
        };
        let outcome = plain(self.board, first(&self.list, word.a), events, answers);
        self.board = outcome.board;
        told(rt, outcome.verdict)
    }
}
