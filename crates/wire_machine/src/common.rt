// What all lines have in common. In most clocks every PHY's follower is the same and moves by the level alone: then one
// follower tells for all lines.
ghost use Rattle.std.specs.Prelude.{◌≡◌};
ghost use Rattle.wire_machine.specs.Common.{common_of, stands, asks_to_read, silent_in, is_silent, moves_alike_in, moves_alike, common_follows};

use crate::line::Line;
use frame::Transaction;
use phy::Phy;
use wire::{Follower, Header};

#[derive(Clone, Copy)]
pub(crate) struct Common {
    // The follower of every line, where all have the same. What a line itself says of its follower is then out of date.
    follower: Option<Follower>,
}

// Whether a header of ours asks a PHY to read. Here and below `&` and `|` ask both sides and make no branch.
fn asks_to_read(header: Header) -> bool
    ensures { result ≡ asks_to_read header }
{
    (header.start == Header::OUR_START) & (header.op == Transaction::READ)
}

// Whether no PHY with this follower drives in the next clock: no answer has started, or none was asked for.
#[tactic(auto, unfolding(crate::specs::Common::silent_in))]
fn silent_in(follower: Follower) -> bool
    ensures { result ≡ silent_in follower }
{
    match follower {
        Follower::Hunting(_) => true,
        Follower::Inside(seen, bits) => {
            seen < Phy::BEFORE_ANSWER
                || (seen <= Follower::MOST_SEEN
                    && !asks_to_read(Header::from(bits >> (seen - Phy::HEADER))))
        }
    }
}

// Whether a clock at this level moves every PHY with this follower alike, and none acts in it.
#[tactic(auto, unfolding(crate::specs::Common::moves_alike_in))]
fn moves_alike_in(level: bool, follower: Follower) -> bool
    ensures { result ≡ moves_alike_in level follower }
{
    match follower {
        Follower::Hunting(ones) => level | (Follower::MOST_ONES <= ones),
        Follower::Inside(Phy::BEFORE_HEADER, bits) => {
            let header = Header::from(Follower::one_more(bits, false));
            !asks_to_read(header)
        }
        Follower::Inside(seen, _) => seen != Follower::MOST_SEEN,
    }
}

impl Common {
    // Nothing: each line has its own follower.
    pub(crate) const APART: Common = Common { follower: None };

    // What lines have in common by what each says of itself.
    #[tactic(auto, unfolding(crate::specs::Common::common_of))]
    pub(crate) fn of(lines: &[Line]) -> Common
        ensures { result ≡ common_of lines.now }
    {
        let Some(first) = lines.first() else {
            return Common::APART;
        };
        if lines.iter().all(|line| line.follower == first.follower) {
            Common {
                follower: Some(first.follower),
            }
        } else {
            Common::APART
        }
    }

    // A line as it stands.
    #[tactic(auto, unfolding(crate::specs::Common::stands))]
    pub(crate) fn stands(self, line: Line) -> Line
        ensures { result ≡ stands self line }
    {
        Line {
            follower: self.follower.unwrap_or(line.follower),
            ..line
        }
    }

    // Whether it is known that no PHY drives in the next clock.
    pub(crate) fn is_silent(self) -> bool
        ensures { result ≡ is_silent self }
    {
        self.follower.is_some_and(silent_in)
    }

    // Whether it is known that a clock at this level moves every follower alike and that no PHY acts in it.
    pub(crate) fn moves_alike(self, level: bool) -> bool
        ensures { result ≡ moves_alike level self }
    {
        self.follower
            .is_some_and(|follower| moves_alike_in(level, follower))
    }

    // What is common after such a clock.
    #[tactic(auto, unfolding(crate::specs::Common::common_follows))]
    pub(crate) fn follows(self, level: bool) -> Common
        ensures { result ≡ common_follows level self }
    {
        Common {
            follower: self
                .follower
                .map(|follower| follower.follow(Follower::MOST_ONES, level)),
        }
    }
}
