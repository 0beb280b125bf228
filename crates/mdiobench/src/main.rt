// The bench's program. Started without arguments it sends a list over the wire, and prints an answer a line, or one refusal;
// with `vcd` it prints the waveform of that run, and with `listen` it reads a capture back.
#![tactic(auto)]

mod capture;
mod input;
mod report;
mod wave;

ghost use Rattle.mdiobench.specs.Tray.{Passed};

use agreement::exchange;
use board::{Board, load};
use frame::{Transaction, check_list};
use input::Records;
use std::env::FillError;
use std::io;
use std::rt::{Env, Files};
use verdict::zeroed;

// A board and a list that have passed.
#[derive(Drop)]
pub(crate) struct Accepted<'a> {
    pub(crate) board: Board,
    pub(crate) list: &'a [u8],
    ghost passed: { ∥ Passed board list.now ∥₁ },
}

// There is room for every answer, so that only the events can be refused (`only-events`).
fn answer(rt: &impl Print, tray: Accepted, events: &[u8]) -> io::Result<()> {
    let mut answers = zeroed::<{ report::ANSWERS }>();
    match exchange(tray.board, tray.list, events, &mut answers).verdict {
        Ok(size) => report::answers(rt, &answers[..size]),
        Err(refusal) => report::refusal(rt, refusal, "events"),
    }
}

// The files are checked in the order board, list, events.
fn bench<S: Fn(Accepted, &[u8]) -> io::Result<()>>(
    rt: &impl Print,
    board_file: &[u8],
    list: &[u8],
    events: &[u8],
    send: S,
) -> io::Result<()>
    requires { S.IsAlwaysCallable send }
{
    let loaded = load(board_file);
    if let Err(refusal) = loaded.verdict {
        return report::refusal(rt, refusal, "board");
    }
    if let Err(refusal) = check_list(list) {
        return report::refusal(rt, refusal, "list");
    }
    let tray = Accepted {
        board: loaded.board,
        list,
    };
    send(tray, events)
}

// Document 01: "The program takes the list on standard input, and `board.rec` and `events.rec` from its directory". What passes
// is sent as asked: for its answers, or for its waveform.
// It is never inlined: its buffers would lie on the stack of a capture's run too.
#[inline(never)]
fn tray<S: Fn(Accepted, &[u8]) -> io::Result<()>>(
    rt: &(impl Files + Input + Print),
    send: S,
) -> io::Result<()>
    requires { S.IsAlwaysCallable send }
{
    let mut board = zeroed::<{ input::BOARD }>();
    let board = Records {
        size: Board::RECORD,
    }
    .read_file(rt, "board.rec", &mut board);
    let mut list = zeroed::<{ input::LIST }>();
    let list = Records {
        size: Transaction::BYTES,
    }
    .read(&mut rt.reader(), &mut list);
    let mut events = zeroed::<{ input::EVENTS }>();
    let events = Records {
        size: Board::EVENT_RECORD,
    }
    .read_file(rt, "events.rec", &mut events);
    bench(rt, board, list, events, send)
}

// Whether there is an argument at an index; the program's name stands at 0.
fn has_argument(rt: &impl Env, index: usize) -> bool {
    !matches!(rt.arg(index, &mut []), Err(FillError::NotPresent))
}

// Whether the first argument is this word; one that is longer than any of them is none of them.
fn says(rt: &impl Env, word: &[u8]) -> bool {
    let mut first = [0u8; 6];
    match rt.arg(1, &mut first) {
        Ok(size) => &first[..size] == word,
        Err(_) => false,
    }
}

fn main(rt: HostRuntime) -> io::Result<()> {
    if !has_argument(&rt, 1) {
        return tray(&rt, |tray, events| answer(&rt, tray, events));
    }
    if !has_argument(&rt, 2) {
        if says(&rt, b"vcd") {
            return tray(&rt, |tray, events| wave::show(&rt, tray, events));
        }
        if says(&rt, b"listen") {
            return capture::run(&rt);
        }
    }
    rt.eprintln("usage: mdiobench [listen | vcd]")
}
