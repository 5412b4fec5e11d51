// The modes, and what a match starts from.
ghost use Rattle.std.specs.Prelude.{◌≡◌, ◌<◌};

#[derive(Clone, Copy, PartialEq, Eq)]
pub enum Mode {
    Normal,
    Hex,
    Jump,
}

impl Mode {
    ghost use Rattle.tokens.specs.Modes.{number};

    // Which 256 entries of the table of classes are the mode's.
    pub fn number(self) -> usize
        ensures value { result ≡ number self }
        ensures low { result < 3 }
    {
        match self {
            Mode::Normal => 0,
            Mode::Hex => 1,
            Mode::Jump => 2,
        }
    }
}

// A state of the table, and the mode in which it is read on from it.
#[derive(Clone, Copy)]
pub struct Start {
    pub state: usize,
    pub mode: Mode,
    pub ghost low: { state < 88 },
}

// The expressions of a mode start from a state of their own; so does, in normal mode, the one for what nothing matches.
impl Start {
    pub const NORMAL: Start = Start {
        state: 1,
        mode: Mode::Normal,
    };

    pub const HEX: Start = Start {
        state: 2,
        mode: Mode::Hex,
    };

    pub const JUMP: Start = Start {
        state: 3,
        mode: Mode::Jump,
    };

    pub const UNKNOWN: Start = Start {
        state: 4,
        mode: Mode::Normal,
    };
}
