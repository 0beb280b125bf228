// The bench's calls for C and Rust: numbers and byte slices. Each answers 0 when done, else number * 65536 + index; a
// refusal writes nothing.
#![tactic(auto)]

ghost use Rattle.std.specs.Prelude.{◌≡◌};
ghost use Rattle.verdict.specs.Refusal.{said};
ghost use Rattle.door.specs.Door.{code_of, OpensTranslate, OpensDecode, OpensRun, OpensPlain, OpensListen, OpensWriteVcd, OpensReadVcd};

use board::load;
use frame::{decode, translate};
use listener::listen;
use plain_machine::plain;
use verdict::Refusal;
use waveform::{read_vcd, write_vcd};
use wire_machine::run;

fn code(answer: Result<usize, Refusal>) -> u64
    ensures { result ≡ code_of (said answer) }
{
    match answer {
        Ok(_) => 0,
        Err(refusal) => u64::from(u8::from(refusal.fault)) * 65536 + (refusal.index % 65536) as u64,
    }
}

#[unsafe(no_mangle)]
pub extern "C" fn taksherub_translate(list: &[u8], steps: &mut [u8]) -> u64
    ensures { OpensTranslate list.now steps.old result steps.new }
{
    code(translate(list, steps))
}

// This one and `taksherub_plain` are alike but for the machine: C calls each by its name, and a closure for the machine's call would be no
// shorter than the call.
#[unsafe(no_mangle)]
pub extern "C" fn taksherub_run(board: &[u8], steps: &[u8], events: &[u8], log: &mut [u8]) -> u64
    ensures { OpensRun board.now steps.now events.now log.old result log.new }
{
    let loaded = load(board);
    let Ok(_) = loaded.verdict else {
        return code(loaded.verdict);
    };
    code(run(loaded.board, steps, events, log).verdict)
}

#[unsafe(no_mangle)]
pub extern "C" fn taksherub_decode(list: &[u8], log: &[u8], answers: &mut [u8]) -> u64
    ensures { OpensDecode list.now log.now answers.old result answers.new }
{
    code(decode(list, log, answers))
}

#[unsafe(no_mangle)]
pub extern "C" fn taksherub_plain(
    board: &[u8],
    list: &[u8],
    events: &[u8],
    answers: &mut [u8],
) -> u64
    ensures { OpensPlain board.now list.now events.now answers.old result answers.new }
{
    let loaded = load(board);
    let Ok(_) = loaded.verdict else {
        return code(loaded.verdict);
    };
    code(plain(loaded.board, list, events, answers).verdict)
}

#[unsafe(no_mangle)]
pub extern "C" fn taksherub_listen(levels: &[u8], answers: &mut [u8]) -> u64
    ensures { OpensListen levels.now answers.old result answers.new }
{
    code(listen(levels, answers))
}

#[unsafe(no_mangle)]
pub extern "C" fn taksherub_write_vcd(log: &[u8], text: &mut [u8]) -> u64
    ensures { OpensWriteVcd log.now text.old result text.new }
{
    code(write_vcd(log, text))
}

#[unsafe(no_mangle)]
pub extern "C" fn taksherub_read_vcd(text: &[u8], flags: &mut [u8]) -> u64
    ensures { OpensReadVcd text.now flags.old result flags.new }
{
    code(read_vcd(text, flags))
}
