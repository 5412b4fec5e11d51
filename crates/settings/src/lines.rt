// Reading settings text: one pass over its lines.
ghost use Rattle.std.specs.Prelude.{◌≡◌, Some, cond, eqb};
ghost use Rattle.listing.specs.Numbers.{number};
ghost use Rattle.listing.specs.Lines.{parted};
ghost use Rattle.settings.specs.Settings.{in_range, edition_of, line_of, settings_of, choice};
ghost use Rattle.settings.specs.Answer.{reply_of, scan_of};
ghost use Rattle.settings.specs.declared.lines.ChooseError.TheVariants as choose_error;

use listing::read_number;

// What an edition sets.
#[derive(Clone, Copy, PartialEq, Eq)]
pub struct Values {
    pub fuel: u32,
    // How many nodes may be open besides SOURCE_FILE.
    pub depth: u32,
    // The length above which found text is left out.
    pub quote: u32,
    // 1 where entrypoint is a term, 0 where it is not. No `bool`: `add` is asked with other numbers too, and refuses them.
    pub entrypoint: u32,
}

// Refusal 19, with the number of the line, from 1.
#[derive(Clone, Copy, PartialEq, Eq)]
pub struct BadLine(pub u32);

// Why no edition is chosen.
#[derive(Clone, Copy, PartialEq, Eq)]
pub enum ChooseError {
    // Refusal 19, with the number of the line, from 1.
    BadLine(u32),
    // Refusal 18.
    Unknown,
}

impl From<BadLine> for ChooseError {
    ghost from_gives = { λ bad error. error ≡ choose_error.BadLine bad.0 };

    fn from(bad: BadLine) -> ChooseError {
        ChooseError::BadLine(bad.0)
    }
}

// The depth and the length of edition 1.
const DEPTH: u32 = 1024;

const QUOTE: u32 = 15;

// Entrypoint is a term in edition 1, and where a line has no fourth value.
const ENTRYPOINT: u32 = 1;

pub fn allowed(values: Values) -> bool
    ensures { result ≡ in_range values }
{
    1 <= values.depth && values.depth <= 1024 && values.quote <= 255 && values.entrypoint <= 1
}

// The line of four fields and its last value.
fn fields(
    edition: &[u8],
    fuel: &[u8],
    depth: &[u8],
    quote: &[u8],
    entrypoint: u32,
) -> Option<(u32, Values)>
    ensures { result ≡ edition_of (number edition.now) (number fuel.now) (number depth.now) (number quote.now)
        (Some entrypoint) }
{
    let edition = read_number(edition)?;
    let values = Values {
        fuel: read_number(fuel)?,
        depth: read_number(depth)?,
        quote: read_number(quote)?,
        entrypoint,
    };
    allowed(values).then_some((edition, values))
}

// The edition of a line and its values, if it reads; its line feed is no part of it.
fn read_line(line: &[u8]) -> Option<(u32, Values)>
    ensures { result ≡ line_of (parted 9 line.now) }
{
    let mut parts = line.split(|b| *b == b'\t');
    let edition = parts.next()?;
    let fuel = parts.next()?;
    let depth = parts.next()?;
    let quote = parts.next()?;
    let Some(fourth) = parts.next() else {
        return fields(edition, fuel, depth, quote, ENTRYPOINT);
    };
    let None = parts.next() else {
        return None;
    };
    fields(edition, fuel, depth, quote, read_number(fourth)?)
}

// The values of a line, where it is the edition's that is asked for.
fn later(number: u32, edition: u32, read: Values, values: Values) -> Values
    ensures { result ≡ cond (eqb number edition) read values }
{
    if number == edition { read } else { values }
}

// What all lines read to: the last edition, and the values of the edition that is asked for. The line behind edition `last` has that number too, as lines
// count from 1 and editions from 2.
pub fn read_all(text: &[u8], edition: u32, first: Values) -> Result<(u32, Values), BadLine>
    ensures { result ≡ scan_of edition first (settings_of text.now) }
{
    let mut values = first;
    let mut last: u32 = 1;
    for part in text.split_inclusive(|b| *b == b'\n') {
        let Some(line) = part.strip_suffix(b"\n") else {
            return Err(BadLine(last));
        };
        let Some((number, read)) = read_line(line) else {
            return Err(BadLine(last));
        };
        if number as u64 != last as u64 + 1 {
            return Err(BadLine(last));
        }
        values = later(number, edition, read, values);
        last = number;
    }
    Ok((last, values))
}

// The values of the named edition; those of edition 1 have the fuel that the call is given.
pub fn choose(text: &[u8], edition: u32, fuel: u32) -> Result<Values, ChooseError>
    ensures { reply_of result ≡ choice text.now edition fuel }
{
    let first = Values {
        fuel,
        depth: DEPTH,
        quote: QUOTE,
        entrypoint: ENTRYPOINT,
    };
    let (last, values) = read_all(text, edition, first)?;
    if edition == 0 || last < edition {
        return Err(ChooseError::Unknown);
    }
    Ok(values)
}
