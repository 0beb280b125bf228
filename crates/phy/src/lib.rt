// One transceiver (document 01, "The PHY's follower" and "Registers"). It goes by value: each method hands the next PHY
// back.
#![tactic(auto)]

mod abilities;
mod clock;
mod control;
mod events;
mod own;
mod registers;
mod status;

pub use abilities::Abilities;
pub use control::Control;
pub use events::{Event, UnknownEvent};
pub use own::Own;
pub use status::{ExtendedStatus, Status};
use wire::Follower;

#[derive(Clone, Copy)]
pub struct Phy {
    pub own: Own,
    // Three arrays, and not one of structs: a reset copies all defaults at once, a check of a board goes over eight registers at a time, and
    // theorems speak of each (`register_of`, `with_registers`).
    pub defaults: [u16; 32],
    // The bits of each register that a write stores.
    pub masks: [u16; 32],
    pub registers: [u16; 32],
    // Whether the link is up now; 1.2 is what is held of it.
    pub link: bool,
    pub follower: Follower,
    // The word captured for an own read under way, else 0. It is a number and no Option: `check` promises 12 for any other word outside
    // such a read.
    pub captured: u16,
}
