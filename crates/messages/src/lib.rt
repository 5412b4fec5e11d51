// Messages of error records (document 02, request (i)): "The text is built of pieces, and a piece is a part of the source or a part of the
// name text, never a copy."
#![tactic(auto)]

mod answer;
mod reading;
mod record;
mod spot;
mod text;
mod writing;

ghost use Rattle.std.specs.Prelude.{◌≤◌, ◌<◌, ◌≡◌, leb, length, get_or};
ghost use Rattle.messages.specs.Record.{start, names, part};
ghost use Rattle.messages.specs.Spot.{spot_of};
ghost use Rattle.messages.specs.Message.{messaging};
ghost use Rattle.messages.specs.Pieces.{told, content, listed, opening, closing, pieces, piece_at, whole};
ghost use Rattle.messages.specs.Answer.{returning};
ghost use Rattle.messages.specs.Written.{Put};

use crate::reading::reads;
use crate::record::number_at;
use crate::writing::put;
pub use answer::Part;
use cells::fill;
pub use record::size;
use shapes::record::{COUNT, END, FORM, HEAD, START};
use shapes::refusal::Refusal;
pub use spot::{Spot, spot_of};
pub use text::{TEXT, begins};

// Numbers of joints in the name text; a form from 4 on has its own words, with number SENTENCES + form. They stay numbers, as places of one table whose
// first 85 are the names.
const COMMA: usize = 85;

const OR: usize = 86;

const FOUND: usize = 87;

const QUOTE: usize = 88;

const FOUND_END: usize = 89;

const EXPECTING: usize = 90;

const SENTENCES: usize = 87;

// A part of the name text by its number.
fn told(n: usize) -> Part
    requires { n < 8589934592 }
    ensures { result ≡ told n }
{
    let from = begins(n);
    let to = begins(n + 1);
    Part::Text(from, to)
}

// A form stays the number that the record has: `place` promises a piece for any record, with a form that is none too.
fn opening(form: u32) -> Part
    ensures { result ≡ told (opening form) }
{
    if form < 4 {
        told(EXPECTING)
    } else {
        told(SENTENCES + form as usize)
    }
}

// How many names the record has.
fn count_of(numbers: &[u32]) -> usize
    ensures value { result ≡ length (names numbers.now) }
    ensures upper_bound { result < 4294967296 }
{
    let count = number_at(numbers, COUNT) as usize;
    count.min(numbers.len().saturating_sub(HEAD))
}

// How many pieces the names make: a description each, with a joint between two.
#[tactic(auto, using(crate::proofs::Listed::listed_length))]
fn spread(numbers: &[u32]) -> usize
    ensures value { result ≡ length (listed (names numbers.now)) }
    ensures upper_bound { result < 8589934592 }
{
    let count = count_of(numbers);
    (2 * count).saturating_sub(1)
}

// One of the pieces that the names make.
#[tactic(auto, using(crate::proofs::Listed::is_name, crate::proofs::Listed::is_comma, crate::proofs::Listed::is_or))]
fn name_piece(numbers: &[u32], j: usize) -> Part
    requires { j < length (listed (names numbers.now)) }
    ensures { result ≡ get_or (listed (names numbers.now)) j (Part.Text 0 0) }
{
    let i = j / 2;
    if j % 2 == 0 {
        told(number_at(numbers, HEAD + i) as usize)
    } else if i + 2 < count_of(numbers) {
        told(COMMA)
    } else {
        told(OR)
    }
}

fn closing(form: u32, start: usize, end: usize, j: usize) -> Part
    ensures { result ≡ get_or (closing form start end) j (Part.Text 0 0) }
{
    match (form, j) {
        (1, 0) => told(FOUND),
        (1, 1) | (4, 0) => Part::Source(start, end),
        (1, 2) | (4, 1) => told(QUOTE),
        (3, 0) => told(FOUND_END),
        _ => Part::Text(0, 0),
    }
}

fn closing_count(form: u32) -> usize
    ensures value { result ≡ length (closing form 0 0) }
    ensures upper_bound { result < 4 }
{
    match form {
        1 => 3,
        4 => 2,
        3 => 1,
        _ => 0,
    }
}

// Which part the piece with the given number, from 0, is; past the last it is the empty part of the name text (`piece_at`), so that there is always one.
#[tactic(auto, using(crate::proofs::Listed::at_first, crate::proofs::Listed::at_name, crate::proofs::Listed::at_closed))]
pub fn place(numbers: &[u32], k: usize) -> Part
    ensures { result ≡ piece_at numbers.now k }
{
    let form = number_at(numbers, FORM);
    if k == 0 {
        return opening(form);
    }
    let j = k - 1;
    let n = spread(numbers);
    if j < n {
        return name_piece(numbers, j);
    }
    let start = number_at(numbers, START) as usize;
    let end = number_at(numbers, END) as usize;
    closing(form, start, end, j - n)
}

// How many pieces the message has.
#[tactic(auto, using(crate::proofs::Listed::pieces_length))]
pub fn piece_count(numbers: &[u32]) -> usize
    ensures { result ≡ length (pieces numbers.now) }
{
    let n = spread(numbers);
    1 + n + closing_count(number_at(numbers, FORM))
}

// A part of a slice, cut short where the slice ends.
fn cut(s: &[u8], from: usize, to: usize) -> &[u8]
    ensures { result.now ≡ part s.now from to }
{
    s.get(from..to.min(s.len())).unwrap_or(&[])
}

// The next piece of the message, after k of them: a part of the source or a part of the name text, of which both are lent.
pub fn piece<'a>(source: &'a [u8], text: &'a [u8], numbers: &[u32], k: usize) -> &'a [u8]
    ensures { result.now ≡ content source.now text.now (piece_at numbers.now k) }
{
    match place(numbers, k) {
        Part::Source(from, to) => cut(source, from, to),
        Part::Text(from, to) => cut(text, from, to),
    }
}

// The pieces joined fit the room.
fn fits(source: &[u8], text: &[u8], numbers: &[u32], room: usize) -> bool
    ensures { result ≡ leb (length (whole source.now text.now (pieces numbers.now))) room }
{
    let mut left = room;
    for k in 0..piece_count(numbers) {
        let size = piece(source, text, numbers, k).len();
        if left < size {
            return false;
        }
        left -= size;
    }
    true
}

// Writes the pieces one behind the other.
fn write(source: &[u8], text: &[u8], numbers: &[u32], room: &mut [u8]) -> usize
    requires { length (whole source.now text.now (pieces numbers.now)) ≤ length room.old }
    ensures { Put (whole source.now text.now (pieces numbers.now)) 0 room.old room.new result }
{
    let mut end = 0;
    for k in 0..piece_count(numbers) {
        end = put(piece(source, text, numbers, k), room, end);
    }
    end
}

// Writes the message of the record that the numbers begin with at the front of the room, and zeros behind it; or refuses, with the room as lent.
#[tactic(auto, using(crate::proofs::Answers::unread, crate::proofs::Answers::full, crate::proofs::Answers::done))]
pub fn message(source: &[u8], numbers: &[u32], room: &mut [u8]) -> Result<usize, Refusal>
    ensures { returning result room.new ≡ messaging source.now numbers.now room.old }
{
    if !reads(source, numbers) {
        return Err(Refusal::Record);
    }
    if !fits(source, &TEXT, numbers, room.len()) {
        return Err(Refusal::Text);
    }
    let end = write(source, &TEXT, numbers, room);
    fill(&mut room[end..], 0);
    Ok(end)
}

// Where the record's span begins.
pub fn record_spot(source: &[u8], numbers: &[u32]) -> Spot
    ensures { result ≡ spot_of source.now (start numbers.now) }
{
    spot_of(source, number_at(numbers, START) as usize)
}
