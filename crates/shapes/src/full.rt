ghost use Rattle.std.specs.Prelude.{◌≡◌, eqb, not};

// Which room was exceeded first, by the number of its refusal: 7 for events, 8 for error records; 0 for none. A number of 16 bits, as a mode is.
#[derive(Clone, Copy, PartialEq, Eq)]
pub struct Full {
    pub number: u16,
}

impl Full {
    pub const NONE: Full = Full { number: 0 };

    pub const EVENTS: Full = Full { number: 7 };

    pub const ERRORS: Full = Full { number: 8 };

    // `==` and `!=` by value, as for a mode.
    pub fn is(self, other: Full) -> bool
        ensures { result ≡ eqb self.number other.number }
    {
        self.number == other.number
    }

    pub fn isnt(self, other: Full) -> bool
        ensures { result ≡ not (eqb self.number other.number) }
    {
        self.number != other.number
    }
}
