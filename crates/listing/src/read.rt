// What the lines of the program's input read to.
ghost use Rattle.std.specs.Prelude.{◌≡◌, ◌≤◌, ◌==◌, length, drop, position};
ghost use Rattle.listing.specs.Numbers.{number};
ghost use Rattle.listing.specs.Lines.{line_of, source_of, row_of, row_from, next_of, parted, Piece};

#[derive(Clone, Copy, PartialEq, Eq)]
pub enum Line {
    // The file name is the part of the line from `from` to `to`.
    Source { from: usize, to: usize, fuel: u32 },
    Row { id: u32, start: u32, end: u32 },
}

// What stands in the bytes from a place on.
#[derive(Clone, Copy, PartialEq, Eq)]
pub enum Next {
    // A line up to `to`, and the place of the line behind it.
    Whole { to: usize, next: usize },
    // A line whose end is not there.
    Partial,
    Nothing,
}

// The longest line that reads. A buffer that holds more always shows the end of such a line.
pub const LONGEST: usize = 8192;

fn first_mark(text: &[u8], mark: u8) -> Option<usize>
    ensures { result ≡ position (λ b. b == mark) text.now }
{
    text.iter().position(|b| *b == mark)
}

// Where the piece ends that begins at the given place: at the first mark, or with the text.
pub fn piece_end(text: &[u8], from: usize, mark: u8) -> usize
    requires { from ≤ length text.now }
    ensures { Piece mark text.now from result }
{
    match first_mark(&text[from..], mark) {
        Some(n) => from + n,
        None => text.len(),
    }
}

pub fn read_number(text: &[u8]) -> Option<u32>
    ensures { result ≡ number text.now }
{
    if text.is_empty() {
        return None;
    }
    let mut n: u64 = 0;
    for b in text {
        if !b.is_ascii_digit() {
            return None;
        }
        n = n * 10 + u64::from(*b - b'0');
        if 0xffff_ffff < n {
            return None;
        }
    }
    Some(n as u32)
}

// The fields behind the letter of a source line: the file name, and the fuel.
fn source(line: &[u8]) -> Option<Line>
    requires { 2 ≤ length line.now }
    ensures { result ≡ source_of (parted 9 (drop 2 line.now)) }
{
    let to = piece_end(line, 2, b'\t');
    if to == line.len() {
        return None;
    }
    let from = to + 1;
    let last = piece_end(line, from, b'\t');
    if last < line.len() {
        return None;
    }
    let fuel = read_number(&line[from..last])?;
    Some(Line::Source { from: 2, to, fuel })
}

fn numbers(id: &[u8], start: &[u8], end: &[u8]) -> Option<Line>
    ensures { result ≡ row_from (number id.now) (number start.now) (number end.now) }
{
    let id = read_number(id)?;
    let start = read_number(start)?;
    let end = read_number(end)?;
    Some(Line::Row { id, start, end })
}

// The fields behind the letter of a row: id, start and end.
fn row(line: &[u8]) -> Option<Line>
    requires { 2 ≤ length line.now }
    ensures { result ≡ row_of (parted 9 (drop 2 line.now)) }
{
    let id = piece_end(line, 2, b'\t');
    if id == line.len() {
        return None;
    }
    let second = id + 1;
    let start = piece_end(line, second, b'\t');
    if start == line.len() {
        return None;
    }
    let third = start + 1;
    let end = piece_end(line, third, b'\t');
    if end < line.len() {
        return None;
    }
    numbers(&line[2..id], &line[second..start], &line[third..end])
}

// What a line reads to, if it reads; its line feed is no part of it.
pub fn read_line(line: &[u8]) -> Option<Line>
    ensures { result ≡ line_of line.now }
{
    if LONGEST < line.len() {
        return None;
    }
    if piece_end(line, 0, b'\r') < line.len() {
        return None;
    }
    if piece_end(line, 0, b'\t') != 1 {
        return None;
    }
    if line.len() < 2 {
        return None;
    }
    match line[0] {
        b'S' => source(line),
        b'T' => row(line),
        _ => None,
    }
}

// The line that begins at the given place of the bytes.
pub fn next_line(bytes: &[u8], at: usize) -> Next
    ensures { result ≡ next_of bytes.now at }
{
    if bytes.len() <= at {
        return Next::Nothing;
    }
    let to = piece_end(bytes, at, b'\n');
    if to == bytes.len() {
        return Next::Partial;
    }
    Next::Whole { to, next: to + 1 }
}
