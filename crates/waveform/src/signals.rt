// What a waveform shows of a clock: the flags of its log record (document 01, "Records").
ghost use Rattle.std.specs.Prelude.{◌≡◌, ◌||◌};
ghost use Rattle.waveform.specs.Signals.{signals_of, flags_of, line_of};

#[derive(Clone, Copy, Debug, PartialEq, Eq)]
pub(crate) struct Signals {
    pub(crate) level: bool,
    pub(crate) enable: bool,
    pub(crate) contention: bool,
}

impl Signals {
    // Whether any of them is on.
    pub(crate) fn any(self) -> bool
        ensures { result ≡ (self.level || self.enable || self.contention) }
    {
        self.level | self.enable | self.contention
    }
}

// The signals that a record's flags say; its other bits do not matter.
impl From<u8> for Signals {
    ghost from_gives = { λ flags signals. signals ≡ signals_of flags };

    fn from(flags: u8) -> Signals {
        Signals {
            level: flags % 2 == 1,
            enable: flags / 2 % 2 == 1,
            contention: flags / 4 % 2 == 1,
        }
    }
}

impl From<Signals> for u8 {
    ghost from_gives = { λ signals flags. flags ≡ flags_of signals };

    fn from(signals: Signals) -> u8 {
        signals.level as u8 + signals.enable as u8 * 2 + signals.contention as u8 * 4
    }
}

// A signal of the header.
#[derive(Clone, Copy, Debug, PartialEq, Eq)]
pub(crate) enum Signal {
    Level,
    Enable,
    Contention,
}

impl Signal {
    // The bytes of a value line.
    pub(crate) const LINE: usize = 3;

    // The line that says a signal's value, by the signal's identifier in the header: fixed byte strings, as document 01 wants them.
    #[tactic(auto, unfolding(crate::specs::Signals::line_of))]
    pub(crate) fn line(self, value: bool) -> [u8; Signal::LINE]
        ensures { result ≡ line_of self value }
    {
        match self {
            Signal::Level => if value { *b"1L\n" } else { *b"0L\n" },
            Signal::Enable => if value { *b"1E\n" } else { *b"0E\n" },
            Signal::Contention => if value { *b"1C\n" } else { *b"0C\n" },
        }
    }
}
