// The program as a listener (document 02, E1: "Our analyser saves one byte per clock, 0 or 1. We want a listener that turns up
// to 4,160 such bytes into answer records"). It takes such a capture on standard input, and prints a record a line, or one
// refusal.
use crate::input::Records;
use crate::{input, report};
use listener::listen;
use std::io;
use verdict::zeroed;

// There is room for every record, so that only the capture itself can be refused (`only-capture`).
fn read_back(rt: &impl Print, levels: &[u8]) -> io::Result<()> {
    let mut answers = zeroed::<{ report::ANSWERS }>();
    match listen(levels, &mut answers) {
        Ok(size) => report::answers(rt, &answers[..size]),
        Err(refusal) => report::refusal(rt, refusal, "capture"),
    }
}

pub(crate) fn run(rt: &(impl Input + Print)) -> io::Result<()> {
    let mut levels = zeroed::<{ input::CAPTURE }>();
    let byte = Records { size: 1 };
    read_back(rt, byte.read(&mut rt.reader(), &mut levels))
}
