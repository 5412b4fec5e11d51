// "Outcome 0 is done, 1 out of fuel, 2 too deep."
ghost use Rattle.std.specs.Prelude.{◌≡◌};
ghost use Rattle.shapes.specs.Outcome.{number, Decodes};

#[derive(Clone, Copy, PartialEq, Eq)]
pub enum Outcome {
    Done,
    Spent,
    Deep,
}

impl From<Outcome> for u32 {
    ghost from_gives = { λ outcome n. n ≡ number outcome };

    fn from(outcome: Outcome) -> u32 {
        match outcome {
            Outcome::Done => 0,
            Outcome::Spent => 1,
            Outcome::Deep => 2,
        }
    }
}

// A number that no outcome has.
#[derive(Clone, Copy, PartialEq, Eq)]
pub struct UnknownOutcome(pub u32);

impl TryFrom<u32> for Outcome {
    type Error = UnknownOutcome;

    ghost try_from_gives = { Decodes };

    fn try_from(number: u32) -> Result<Self, UnknownOutcome> {
        match number {
            0 => Ok(Outcome::Done),
            1 => Ok(Outcome::Spent),
            2 => Ok(Outcome::Deep),
            _ => Err(UnknownOutcome(number)),
        }
    }
}
