ghost use Rattle.std.specs.Prelude.{◌≡◌, eqb, not};

// How a reader's state stands: in good order, failed, out of fuel, or too deep, for which every number from 3 on stands. It is a number of 16 bits, and no enum
// of a byte, so that the state that every step copies has no gap (crate `steps`).
#[derive(Clone, Copy, PartialEq, Eq)]
pub struct Mode {
    pub number: u16,
}

impl Mode {
    pub const FINE: Mode = Mode { number: 0 };

    pub const FAILED: Mode = Mode { number: 1 };

    pub const SPENT: Mode = Mode { number: 2 };

    pub const DEEP: Mode = Mode { number: 3 };

    // `==` and `!=` by value. The derived ones borrow the mode inside a state, and the compiler then copies the whole state more often: docs/SPEED.md.
    pub fn is(self, other: Mode) -> bool
        ensures { result ≡ eqb self.number other.number }
    {
        self.number == other.number
    }

    pub fn isnt(self, other: Mode) -> bool
        ensures { result ≡ not (eqb self.number other.number) }
    {
        self.number != other.number
    }
}
