// The Clause 22 frame: a list of transactions, the clock steps that send it, and the answers that a log of them holds
// (document 01, "Records" and "Clock steps").
#![tactic(auto)]

mod answer;
mod list;
mod log;
mod parts;
mod steps;

pub use answer::{Answer, Turnaround, decode};
pub use list::{Transaction, check_list, parsed_at, transaction_at};
pub use log::log_part;
pub use steps::{Step, Steps, translate};

// The shared numbers of a frame. Clocks are positions from 1, and each follows from the preamble's length.
#[derive(Clone, Copy)]
pub struct Frame;

impl Frame {
    pub const PREAMBLE: usize = 32;
    // Of a frame's 32 bits the header is the first 14: start, op, address, register.
    pub const HEADER_BITS: usize = 14;

    pub const BITS: usize = 32;
    // How many values the 18 bits behind a header have, and the last 16, the data.
    pub const TAIL_VALUES: u32 = 0x4_0000;

    pub const DATA_VALUES: u32 = 0x1_0000;

    // The bits of a start, and of a write's and a read's op.
    pub const START_BITS: u16 = 1;

    pub const WRITE_BITS: u16 = 1;

    pub const READ_BITS: u16 = 2;

    pub const START: usize = Frame::PREAMBLE + 1;

    pub const START_LAST: usize = Frame::PREAMBLE + 2;

    pub const OP: usize = Frame::PREAMBLE + 3;

    pub const OP_LAST: usize = Frame::PREAMBLE + 4;

    pub const ADDRESS: usize = Frame::PREAMBLE + 5;

    pub const ADDRESS_LAST: usize = Frame::PREAMBLE + 9;

    pub const REGISTER: usize = Frame::PREAMBLE + 10;
    // A read acts at its 46th clock, the register's last bit.
    pub const READ_ACTS: usize = Frame::PREAMBLE + Frame::HEADER_BITS;

    pub const TURNAROUND_FIRST: usize = Frame::PREAMBLE + 15;

    pub const TURNAROUND_SECOND: usize = Frame::PREAMBLE + 16;

    pub const DATA: usize = Frame::PREAMBLE + 17;

    pub const DATA_BITS: usize = 16;
    // A write acts at its 64th clock, the last data bit.
    pub const WRITE_ACTS: usize = Frame::PREAMBLE + Frame::BITS;
    // The idle clock ends the transaction.
    pub const CLOCKS: usize = Frame::WRITE_ACTS + 1;

    pub const LOG_RECORD: usize = 5;

    pub const LOG_PART: usize = Frame::CLOCKS * Frame::LOG_RECORD;
}
