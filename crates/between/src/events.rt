// The events between clocks, in file order (document 01, "Records": "Clock c means after clock c and before c+1"). A machine
// lets each record that is due act on its PHY.
ghost use Rattle.std.specs.Prelude.{◌≡◌};
ghost use Rattle.between.specs.Happened.{is_due};

use board::{Board, clock_of};

// Whether the event record at index `next` comes up to a clock.
pub fn is_due(events: &[u8], next: usize, clock: usize) -> bool
    ensures { result ≡ is_due events.now next clock }
{
    next < events.len() / Board::EVENT_RECORD && clock_of(events, next) as usize <= clock
}
