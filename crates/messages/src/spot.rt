// Lines and columns.
ghost use Rattle.std.specs.Prelude.{◌≡◌};
ghost use Rattle.messages.specs.Spot.{spot_of};

// A line and a column, both from 1.
#[derive(Clone, Copy, PartialEq, Eq)]
pub struct Spot {
    pub line: usize,
    pub column: usize,
}

// Where a place of the source stands; one past its end stands at its end.
pub fn spot_of(source: &[u8], at: usize) -> Spot
    ensures { result ≡ spot_of source.now at }
{
    let end = at.min(source.len());
    let mut line = 1;
    let mut column = 1;
    for byte in &source[..end] {
        if *byte == b'\n' {
            line += 1;
            column = 1;
        } else {
            column += 1;
        }
    }
    Spot { line, column }
}
