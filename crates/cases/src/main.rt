// Bench cases and limits of document 01 that are run and compared. A case is a line of the standard input: what is
// tried, a colon, and the words that try it. The answers that must come are in the file stdout, written from document
// 01. The cases are data and not code, so that a case more costs nothing to prove.
#![tactic(auto)]

mod calls;
mod changes;
mod desk;
mod script;
mod show;
mod writes;

use desk::Desk;
use std::io;
use verdict::{read_full, zeroed};

// Every case starts at a clear desk.
fn try_words(rt: &impl Print, desk: &mut Desk, words: &[u8]) -> io::Result<()> {
    desk.clear();
    let mut rest = words;
    while let Some((word, behind)) = script::next_word(rest) {
        desk.obey(rt, word)?;
        rest = behind;
    }
    Ok(())
}

// A line without a colon is no case.
fn try_line(rt: &impl Print, desk: &mut Desk, line: &[u8]) -> io::Result<()> {
    let Some(colon) = line.iter().position(|byte| *byte == b':') else {
        return Ok(());
    };
    let (tried, words) = line.split_at(colon + 1);
    rt.write_all(tried)?;
    try_words(rt, desk, words)?;
    rt.write_all(b"\n")
}

// More bytes than the cases have.
const INPUT: usize = 65536;

fn main(rt: HostRuntime) -> io::Result<()> {
    let mut input = zeroed::<INPUT>();
    let cases = read_full(&mut rt.reader(), &mut input);
    let mut desk = Desk::new();
    for line in cases.split(|byte| *byte == b'\n') {
        try_line(&rt, &mut desk, line)?;
    }
    Ok(())
}
