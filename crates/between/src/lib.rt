// What happens between clocks: which event record comes next, and the place of the PHY that an event or a frame is for (document 01,
// "Records").
#![tactic(auto)]

mod events;
mod owners;

pub use events::is_due;
pub use owners::{owns_of, place_of, taker_of};
