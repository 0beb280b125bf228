// The program for the students' viewers (document 02, E3: "Write a log as such text"). It sends the list over the wire as ever,
// and where it would print the answers it prints the waveform of the run.
ghost use Rattle.verdict.specs.Refusal.{said};
ghost use Rattle.mdiobench.specs.Drawing.{Drawn};

use crate::{Accepted, report};
use agreement::{LOG, send};
use board::Board;
use std::io;
use verdict::{Refusal, zeroed};
use waveform::{Waveform, write_vcd};

// Writes the waveform of a list's run to the start of `text`.
fn draw(board: Board, list: &[u8], events: &[u8], text: &mut [u8]) -> Result<usize, Refusal>
    ensures { Drawn board list.now events.now text.old (said result) text.new }
{
    let mut log = zeroed::<LOG>();
    let size = send(board, list, events, &mut log).verdict?;
    write_vcd(&log[..size], text)
}

// There is room for every text, so that only the events can be refused (`only-events-drawn`).
pub(crate) fn show(rt: &impl Print, tray: Accepted, events: &[u8]) -> io::Result<()> {
    let mut text = zeroed::<{ Waveform::LONGEST }>();
    match draw(tray.board, tray.list, events, &mut text) {
        Ok(size) => rt.write_all(&text[..size]),
        Err(refusal) => report::refusal(rt, refusal, "events"),
    }
}
