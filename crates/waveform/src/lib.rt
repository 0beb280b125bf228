// Waveforms for the students: a log as the text of a Value Change Dump (IEEE 1364), which free viewers open, and our own text
// read back (document 02, E3).
#![tactic(auto)]

mod lines;
mod read;
mod signals;
mod write;

use frame::Steps;
pub use read::read_vcd;
pub use write::write_vcd;

#[derive(Clone, Copy)]
pub struct Waveform;

impl Waveform {
    // As many clocks as the longest run has.
    pub const MOST: usize = Steps::MOST;
    // The bytes of the longest text: the header, and that many clocks of which each shows all three signals.
    pub const LONGEST: usize = Waveform::HEADER + Waveform::LONGEST_LINES;
    // The bytes of the header.
    pub(crate) const HEADER: usize = 239;
    // The bytes of the longest time line: of a number of four digits.
    pub(crate) const LONGEST_TIME: usize = 6;
    // The bytes of its time lines, of clocks 1 to 9, 10 to 99, 100 to 999 and 1000 to the closing time, and of its value lines.
    const LONGEST_LINES: usize = 9 * 3 + 90 * 4 + 900 * 5 + 3162 * 6 + 9 * Waveform::MOST;
}
