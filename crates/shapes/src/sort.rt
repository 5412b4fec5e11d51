// "sort (1 begin, 2 token, 3 end, 4 error)".
ghost use Rattle.std.specs.Prelude.{◌≡◌};
ghost use Rattle.shapes.specs.Sort.{number, Decodes};

#[derive(Clone, Copy, PartialEq, Eq)]
pub enum Sort {
    Begin = 1,
    Token,
    End,
    Error,
}

impl From<Sort> for u32 {
    ghost from_gives = { λ sort n. n ≡ number sort };

    fn from(sort: Sort) -> u32 {
        match sort {
            Sort::Begin => 1,
            Sort::Token => 2,
            Sort::End => 3,
            Sort::Error => 4,
        }
    }
}

// A number that no sort has.
#[derive(Clone, Copy, PartialEq, Eq)]
pub struct UnknownSort(pub u32);

impl TryFrom<u32> for Sort {
    type Error = UnknownSort;

    ghost try_from_gives = { Decodes };

    fn try_from(number: u32) -> Result<Self, UnknownSort> {
        match number {
            1 => Ok(Sort::Begin),
            2 => Ok(Sort::Token),
            3 => Ok(Sort::End),
            4 => Ok(Sort::Error),
            _ => Err(UnknownSort(number)),
        }
    }
}
