// Which place of a board an event is for, and which takes a frame. Both are looked for among a few bytes of each PHY in place of
// the whole board.
ghost use Rattle.std.specs.Prelude.{◌≡◌};
ghost use Rattle.between.specs.Outcome.{owns_of};
ghost use Rattle.between.specs.Happened.{place_of, taker_of, found_at};

use board::Board;
use phy::Own;

// Who frames are for, place by place. A call reads the caller's board where it lies. It is never inlined, so that no compiler copies the
// board for it first: the plain machine would then need the stack of one board more.
#[inline(never)]
pub fn owns_of(board: Board) -> [Own; 32]
    ensures { result ≡ owns_of board.phys }
{
    let mut owns = [board.phys[0].own; 32];
    for i in 0..Board::PLACES {
        owns[i] = board.phys[i].own;
    }
    owns
}

// The place of the PHY that has an address, where one has it. Beside the next one it looks needless: they part as soon as a PHY takes
// frames to another address than its own (document 02, E5).
pub fn place_of(owns: &[Own], address: u8) -> Option<usize>
    ensures { result ≡ found_at (place_of owns.now address) owns.now }
{
    owns.iter().position(|own| address == own.address)
}

// The place of the first PHY that takes frames to an address, where one does.
pub fn taker_of(owns: &[Own], address: u8) -> Option<usize>
    ensures { result ≡ found_at (taker_of owns.now address) owns.now }
{
    owns.iter().position(|own| own.takes(address))
}
