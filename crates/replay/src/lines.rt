// The lines of a day, and the lines that a replay writes.
ghost use Rattle.std.specs.Prelude.{◌≡◌, [], ◌∷◌, ◌+◌, ◌≤◌, ◌<◌, IfSome, length, leb};
ghost use Rattle.kinds.specs.Spelling.{Spelled};
ghost use Rattle.listing.specs.Lines.{parted};
ghost use Rattle.listing.specs.Listing.{led};
ghost use Rattle.listing.specs.Written.{Wrote};
ghost use Rattle.replay.specs.Day.{shown_of, fate_shown, fields_of, entry_of, ended_of, refused_of, answer_of};
ghost use Rattle.replay.specs.Day.{writable, written, file_line, totals_line, bad_line};
ghost use Rattle.replay.specs.Answer.{meant, read_as, first_of, first_as, putting, recording, showing};

use crate::tally::{Answer, Fate, File, Tally, is_marked};
use listing::{Writer, numbers_line, piece_end, read_number};
use shapes::outcome::Outcome;
use shapes::refusal::Refusal;

// What one line of a day records of a file.
#[derive(Clone, Copy, Drop)]
pub struct Entry<'a> {
    pub name: &'a [u8],
    pub size: u32,
    pub edition: u32,
    pub answer: Answer,
}

// Why a line is not written.
#[derive(Clone, Copy, PartialEq, Eq)]
pub enum Unwritten {
    // The name has a tab or a line feed.
    Name,
    Full,
}

// Refusal 20, with the number of the line, from 1, and the totals of the lines before it.
#[derive(Clone, Copy, PartialEq, Eq)]
pub struct BadLine {
    pub number: u64,
    pub tally: Tally,
}

// An answer as a line shows it.
#[derive(Clone, Copy)]
pub struct Shown {
    pub letter: u8,
    pub number: u32,
    pub errors: u32,
}

fn ended(number: u32, errors: u32) -> Option<Answer>
    ensures { result ≡ ended_of number errors }
{
    match Outcome::try_from(number) {
        Ok(Outcome::Done) => Some(Answer::Done(errors)),
        Ok(Outcome::Spent) => Some(Answer::Spent(errors)),
        Ok(Outcome::Deep) => Some(Answer::Deep(errors)),
        Err(_) => None,
    }
}

// A refused file has no error records.
fn refused(number: u32, errors: u32) -> Option<Answer>
    ensures { result ≡ refused_of number errors }
{
    (errors == 0).then_some(Answer::Refused(number))
}

fn read_answer(letter: &[u8], number: u32, errors: u32) -> Option<Answer>
    ensures { result ≡ answer_of letter.now number errors }
{
    match letter {
        [b'R'] => ended(number, errors),
        [b'F'] => refused(number, errors),
        _ => None,
    }
}

// The line of six fields.
fn fields_entry<'a>(
    name: &'a [u8],
    size: &[u8],
    edition: &[u8],
    letter: &[u8],
    number: &[u8],
    errors: &[u8],
) -> Option<Entry<'a>>
    ensures { read_as result ≡ entry_of (name.now ∷ size.now ∷ edition.now ∷ letter.now ∷ number.now ∷ errors.now ∷ []) }
{
    let size = read_number(size)?;
    let edition = read_number(edition)?;
    let number = read_number(number)?;
    let errors = read_number(errors)?;
    let answer = read_answer(letter, number, errors)?;
    Some(Entry {
        name,
        size,
        edition,
        answer,
    })
}

// What a line records, if it reads; its line feed is no part of it.
pub fn read_line(line: &[u8]) -> Option<Entry<'_>>
    ensures { read_as result ≡ entry_of (parted 9 line.now) }
{
    let mut fields = line.split(|b| *b == b'\t');
    let name = fields.next()?;
    let size = fields.next()?;
    let edition = fields.next()?;
    let letter = fields.next()?;
    let number = fields.next()?;
    let errors = fields.next()?;
    let None = fields.next() else {
        return None;
    };
    fields_entry(name, size, edition, letter, number, errors)
}

// What the text's first line records, and the text behind that line; nothing where the line is not ended or does not read.
pub fn next_entry(text: &[u8]) -> Option<(Entry<'_>, &[u8])>
    ensures first { first_as result ≡ first_of (parted 10 text.now) }
    ensures shorter { IfSome result (λ p. length p.1.now < length text.now) }
{
    let end = piece_end(text, 0, b'\n');
    if end == text.len() {
        return None;
    }
    let entry = read_line(&text[..end])?;
    Some((entry, &text[end + 1..]))
}

impl From<Answer> for Shown {
    ghost from_gives = { λ answer shown. shown ≡ shown_of answer };

    fn from(answer: Answer) -> Shown {
        let (letter, number, errors) = match answer {
            Answer::Done(errors) => (b'R', Outcome::Done.into(), errors),
            Answer::Spent(errors) => (b'R', Outcome::Spent.into(), errors),
            Answer::Deep(errors) => (b'R', Outcome::Deep.into(), errors),
            Answer::Refused(number) => (b'F', number, 0),
        };
        Shown {
            letter,
            number,
            errors,
        }
    }
}

impl From<Fate> for Shown {
    ghost from_gives = { λ fate shown. shown ≡ fate_shown fate };

    fn from(fate: Fate) -> Shown {
        let letter = match fate {
            Fate::Read(answer) => return Shown::from(answer),
            Fate::Missing => b'M',
            Fate::Changed => b'C',
        };
        Shown {
            letter,
            number: 0,
            errors: 0,
        }
    }
}

fn put_shown(line: &mut Writer<'_>, s: Shown)
    requires { line.old.at + 44 ≤ length line.old.room.now }
    ensures put { Wrote (led 9 (fields_of s)) line.old line.new }
    ensures upper_bound { line.new.at ≤ line.old.at + 44 }
{
    line.put_byte(b'\t');
    line.put_byte(s.letter);
    line.put_numbers(&[s.number as u64, s.errors as u64]);
}

// Whether a name can stand in a line.
pub fn is_writable(name: &[u8]) -> bool
    ensures { result ≡ writable name.now }
{
    if piece_end(name, 0, b'\t') < name.len() {
        return false;
    }
    piece_end(name, 0, b'\n') == name.len()
}

// Whether a room holds so many bytes more than the name.
fn holds(room: &[u8], name: &[u8], more: usize) -> bool
    ensures { result ≡ leb (length name.now + more) (length room.now) }
{
    more <= room.len() && name.len() <= room.len() - more
}

fn put_entry(e: Entry<'_>, room: &mut [u8]) -> usize
    requires { length e.name.now + 87 ≤ length room.old }
    ensures { Spelled (written (meant e.entry)) room.old room.new result }
{
    let mut line = Writer { room, at: 0 };
    line.put(e.name);
    line.put_numbers(&[e.size as u64, e.edition as u64]);
    put_shown(&mut line, Shown::from(e.answer));
    line.put_byte(b'\n');
    line.at
}

// The line of a file that was read.
pub fn entry_line(e: Entry<'_>, room: &mut [u8]) -> Result<usize, Unwritten>
    ensures { putting result room.new ≡ recording (meant e.entry) room.old }
{
    if !is_writable(e.name) {
        return Err(Unwritten::Name);
    }
    if !holds(room, e.name, 87) {
        return Err(Unwritten::Full);
    }
    Ok(put_entry(e, room))
}

fn put_file(name: &[u8], file: File, room: &mut [u8]) -> usize
    requires { length name.now + 112 ≤ length room.old }
    ensures { Spelled (file_line name.now file) room.old room.new result }
{
    let mut line = Writer { room, at: 0 };
    line.put_byte(b'D');
    line.put_byte(b'\t');
    line.put(name);
    put_shown(&mut line, Shown::from(file.recorded));
    put_shown(&mut line, Shown::from(file.fate));
    line.put_numbers(&[u64::from(is_marked(file))]);
    line.put_byte(b'\n');
    line.at
}

// The line of a file that was replayed.
pub fn file_line(name: &[u8], file: File, room: &mut [u8]) -> Result<usize, Unwritten>
    ensures { putting result room.new ≡ showing name.now file room.old }
{
    if !holds(room, name, 112) {
        return Err(Unwritten::Full);
    }
    Ok(put_file(name, file, room))
}

// The line of the totals. Seven numbers of at most 20 digits, each with a tab, fit the room.
pub fn totals_line(t: Tally, room: &mut [u8; 256]) -> usize
    ensures { Spelled (totals_line t) room.old room.new result }
{
    let numbers = [
        t.files, t.done, t.spent, t.deep, t.refused, t.differ, t.apart,
    ];
    numbers_line(b'T', &numbers, room)
}

// The line of refusal 20.
pub fn bad_line(number: u64, room: &mut [u8; 256]) -> usize
    ensures { Spelled (bad_line number) room.old room.new result }
{
    numbers_line(b'F', &[u64::from(u32::from(Refusal::Day)), number], room)
}
