// Puts stored questions to the reader and holds it to the Rust's answers (docs/COMPARED.md says how they were made). A line of vectors.txt is a vector:
// decimal numbers parted by single spaces. Eight come first: fuel; counts of source bytes and of rows; the Rust's outcome, rows covered, fuel left, and
// counts of events and of error records. Behind them stand the source's bytes, the rows' ids, the bounds of the rows (0, then each row's end), the events
// and the error records; an event has four numbers there and a record no item, since the Rust tells neither depth nor item. The program writes the number
// of each line that differs or does not read, then how many vectors there are and how many agree.
#![tactic(auto)]

ghost use Rattle.std.specs.Prelude.{◌+◌, ◌≤◌, length, IfSome};
ghost use Rattle.shapes.specs.Shapes.{EVENT};

use desk::read::Answered;
use kinds::Kind;
use listing::Next;
use shapes::event::{EVENT, KIND};
use shapes::record::{ITEM, next_record};
use shapes::sort::Sort;
use std::fs;
use std::fs::File;
use std::os::unix::fs::FileExt;

// How many numbers of an event the Rust tells: all but its depth.
const TOLD: usize = 4;

// The file is read no further. It is far shorter, but a proved loop has to end.
const MOST_FILE: usize = 0x1000_0000;

#[derive(Clone, Copy, Default)]
struct Tally {
    lines: u64,
    agree: u64,
}

// What is asked of the reader, and what the Rust answered. The source's bytes are numbers here, and the bounds of the rows are one more than these.
#[derive(Clone, Copy)]
struct Vector<'a> {
    fuel: u32,
    source: &'a [u32],
    ids: &'a [u32],
    bounds: &'a [u32],
    answer: Answer<'a>,
}

// What the Rust answered, with its lists.
#[derive(Clone, Copy)]
struct Answer<'a> {
    outcome: u32,
    covered: u32,
    left: u32,
    count: u32,
    errors: u32,
    events: &'a [u32],
    records: &'a [u32],
}

// How many numbers a line has, which the cells then begin with, where it reads and they have room.
fn numbers(line: &[u8], cells: &mut [u32]) -> Option<usize>
    ensures { IfSome result (λ n. n ≤ length cells.old) }
{
    let mut n = 0;
    for field in line.split(|&b| b == b' ') {
        let value = listing::read_number(field)?;
        *cells.get_mut(n)? = value;
        n += 1;
    }
    Some(n)
}

// The vector in these numbers, where they are as many as it needs.
fn read_vector(numbers: &[u32]) -> Option<Vector<'_>> {
    let (&[fuel, size, rows, outcome, covered, left, count, errors], lists) =
        numbers.split_first_chunk::<8>()?;
    let (source, lists) = lists.split_at_checked(size as usize)?;
    let (ids, lists) = lists.split_at_checked(rows as usize)?;
    let (bounds, lists) = lists.split_at_checked(rows as usize + 1)?;
    let (events, records) = lists.split_at_checked(TOLD * count as usize)?;
    Some(Vector {
        fuel,
        source,
        ids,
        bounds,
        answer: Answer {
            outcome,
            covered,
            left,
            count,
            errors,
            events,
            records,
        },
    })
}

// The numbers as bytes, which the room then begins with, where each is one and they have room.
fn take_bytes<'a>(numbers: &[u32], room: &'a mut [u8]) -> Option<&'a [u8]> {
    let room = room.get_mut(..numbers.len())?;
    for (byte, &n) in room.iter_mut().zip(numbers) {
        *byte = u8::try_from(n).ok()?;
    }
    Some(room)
}

// Whether an ERROR event of that sort stands at a place.
fn is_error(list: &[u32], at: usize, sort: Sort) -> bool
    requires { at + 2 ≤ length list.now }
{
    list[at] == u32::from(sort) && list[at + KIND] == Kind::Error as u32
}

// The event at the first place joins, without its depth, the list that ends at the second, or, where it closes an empty ERROR node, takes that node's begin
// event out of the list. The answer is where the list ends then.
fn keep(list: &mut [u32], at: usize, to: usize) -> usize
    requires { (to ≤ at) × (at + EVENT ≤ length list.old) }
    ensures { result ≤ to + 4 }
{
    if TOLD <= to && is_error(list, at, Sort::End) && is_error(list, to - TOLD, Sort::Begin) {
        return to - TOLD;
    }
    list.copy_within(at..at + TOLD, to);
    to + TOLD
}

// Takes the depths out, which the Rust does not tell, and empty ERROR nodes, inside out, since the Rust writes none (docs/DIFFERENCES.md, row 1), and
// answers how many events are gone. Behind the list stand zeros, as before.
fn strip(list: &mut [u32]) -> usize
    ensures { result ≤ length list.old }
{
    let mut to = 0;
    let mut dropped = 0;
    for i in 0..list.len() / EVENT {
        let next = keep(list, i * EVENT, to);
        if next < to {
            // An empty node has two events.
            dropped += 2;
        }
        to = next;
    }
    list[to..].fill(0);
    dropped
}

// Takes the items out of error records, which the Rust does not tell. Behind the list stand zeros, as before.
fn unnumber(list: &mut [u32]) {
    let mut to = 0;
    let mut item = ITEM;
    for at in 0..list.len() {
        if at == item {
            item = next_record(list, at - ITEM) + ITEM;
        } else {
            list[to] = list[at];
            to += 1;
        }
    }
    list[to..].fill(0);
}

// Whether the room holds the stored list, and behind it zeros.
fn holds(room: &[u32], stored: &[u32]) -> bool {
    let Some((front, rest)) = room.split_at_checked(stored.len()) else {
        return false;
    };
    front == stored && rest.iter().all(|&n| n == 0)
}

fn same_figures(answered: Answered, dropped: usize, stored: Answer) -> bool
    requires { dropped ≤ 16384 }
{
    let Answered {
        outcome,
        covered,
        events,
        errors,
        left,
    } = answered;
    u32::from(outcome) == stored.outcome
        && covered == stored.covered as usize
        && left == stored.left
        && events == stored.count as usize + dropped
        && errors == stored.errors
}

// Whether the reader's answer is the stored one. 257 words of scratch are what 8,192 rows ask for.
fn same_answer(
    source: &[u8],
    ids: &[u32],
    starts: &[u32],
    ends: &[u32],
    fuel: u32,
    stored: Answer,
) -> bool {
    let mut scratch = [0u64; 257];
    let mut list = [0u32; 16384];
    let mut notes = [0u32; 16384];
    let Ok(answered) = desk::read::read(
        source,
        ids,
        starts,
        ends,
        fuel,
        desk::read::base(),
        &mut scratch,
        &mut list,
        &mut notes,
    ) else {
        return false;
    };
    let dropped = strip(&mut list);
    unnumber(&mut notes);
    same_figures(answered, dropped, stored)
        && holds(&list, stored.events)
        && holds(&notes, stored.records)
}

// Whether the reader gives the answer of the vector in a line, where there is one in it. The starts of the rows are the bounds but the last, their ends the
// bounds but the first.
fn line_agrees(line: &[u8]) -> Option<bool> {
    let mut cells = [0u32; 8192];
    let n = numbers(line, &mut cells)?;
    let v = read_vector(&cells[..n])?;
    let mut room = [0u8; 8192];
    let source = take_bytes(v.source, &mut room)?;
    let (_, starts) = v.bounds.split_last()?;
    let (_, ends) = v.bounds.split_first()?;
    Some(same_answer(source, v.ids, starts, ends, v.fuel, v.answer))
}

impl Tally {
    // One line more, and whether it agrees. No file has so many lines that a count wraps.
    fn count(&mut self, rt: &impl Print, agrees: bool) {
        self.lines = self.lines.wrapping_add(1);
        if agrees {
            self.agree = self.agree.wrapping_add(1);
        } else {
            let _ = println!(rt; "line {}", self.lines);
        }
    }

    // Counts the lines whose ends are in the bytes, and answers where the next line begins.
    fn count_lines(&mut self, rt: &impl Print, bytes: &[u8]) -> usize
        ensures { result ≤ length bytes.now }
    {
        let mut at = 0;
        // Not a `for`: a line that is not ended is no line yet, and where it begins is the answer.
        while let Next::Whole { to, next } = listing::next_line(bytes, at) {
            self.count(rt, line_agrees(&bytes[at..to]).unwrap_or(false));
            at = next;
        }
        at
    }
}

// The file in pieces, each from the first line on that did not end in the piece before. A line that lacks its end, or has no place in the buffer, does not
// read, and is the last.
fn take_file(rt: &impl Print, file: &File) -> Tally {
    let mut tally = Tally::default();
    let mut buffer = [0u8; 16384];
    let mut from = 0;
    // Not a `for`: a piece has as many whole lines as it will.
    while from < MOST_FILE {
        let n = file.read_at(&mut buffer, from as u64).unwrap_or(0);
        if n == 0 {
            break;
        }
        let taken = tally.count_lines(rt, &buffer[..n]);
        if taken == 0 {
            tally.count(rt, false);
            break;
        }
        from += taken;
    }
    tally
}

fn main(rt: HostRuntime) {
    let mut tally = Tally::default();
    if let Ok(file) = fs::open(&rt, "vectors.txt") {
        tally = take_file(&rt, &file);
    }
    let _ = println!(rt; "{} vectors, {} agree", tally.lines, tally.agree);
}
