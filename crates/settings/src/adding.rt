// A new edition at the end of settings text, in lent room.
ghost use Rattle.std.specs.Prelude.{◌≡◌, ◌+◌, ◌-◌, ◌≤◌, ◌++◌, length, replicate};
ghost use Rattle.kinds.specs.Spelling.{Spelled};
ghost use Rattle.settings.specs.Settings.{written, added_at, added};
ghost use Rattle.settings.specs.Answer.{grown_of};
ghost use Rattle.settings.specs.declared.adding.AddError.TheVariants as add_error;

use crate::lines::{BadLine, Values, allowed, read_all};
use listing::Writer;

// Why no edition is added.
#[derive(Clone, Copy, PartialEq, Eq)]
pub enum AddError {
    // Refusal 19, with the number of the line, from 1.
    BadLine(u32),
    // Refusal 12.
    Full,
}

impl From<BadLine> for AddError {
    ghost from_gives = { λ bad error. error ≡ add_error.BadLine bad.0 };

    fn from(bad: BadLine) -> AddError {
        AddError::BadLine(bad.0)
    }
}

// Five numbers of at most 20 digits, each with a tab or the line feed behind it.
fn write_line(edition: u32, values: Values, room: &mut [u8; 128]) -> usize
    ensures { Spelled (written edition values) room.old room.new result }
{
    let mut line = Writer { room, at: 0 };
    line.put_decimal(edition as u64);
    line.put_numbers(&[
        values.fuel as u64,
        values.depth as u64,
        values.quote as u64,
        values.entrypoint as u64,
    ]);
    line.put_byte(b'\n');
    line.at
}

// The text and a line behind it, and zeros past them.
fn put_both(text: &[u8], line: &[u8], room: &mut [u8]) -> usize
    requires { length text.now + length line.now ≤ length room.old }
    ensures count { result ≡ length text.now + length line.now }
    ensures cells { room.new ≡ text.now ++ line.now ++ replicate (length room.old - result) 0 }
{
    let (front, rest) = room.split_at_mut(text.len());
    let (middle, behind) = rest.split_at_mut(line.len());
    front.copy_from_slice(text);
    middle.copy_from_slice(line);
    behind.fill(0);
    text.len() + line.len()
}

// As line `last`, with the edition behind it. An edition is a 32-bit number.
fn add_line(text: &[u8], last: u32, values: Values, room: &mut [u8]) -> Result<usize, AddError>
    ensures { grown_of result room.new ≡ added_at last text.now values room.old }
{
    if last == u32::MAX || !allowed(values) {
        return Err(AddError::BadLine(last));
    }
    let mut line = [0u8; 128];
    let n = write_line(last + 1, values, &mut line);
    if room.len() < n || room.len() - n < text.len() {
        return Err(AddError::Full);
    }
    Ok(put_both(text, &line[..n], room))
}

// The text with a new edition behind it, and zeros past it; on a refusal the room is as lent.
pub fn add(text: &[u8], values: Values, room: &mut [u8]) -> Result<usize, AddError>
    ensures { grown_of result room.new ≡ added text.now values room.old }
{
    let (last, _) = read_all(text, 0, values)?;
    add_line(text, last, values, room)
}
