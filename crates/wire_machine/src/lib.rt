// The machine on the wire: `run`, clock by clock (document 01, "Clock steps").
#![tactic(auto)]

mod clocks;
mod common;
mod hear;
mod line;

pub use clocks::run;
