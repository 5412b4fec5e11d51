// Reads the rows of one file from standard input, and writes what the reader and the merger make of them (document 01, "Small files"), by edition 1 or by
// the edition that the arguments name: --settings FILE --edition N. The listing is of edition 1, or of the edition that --listing names, 1 or 2.
#![tactic(auto)]

ghost use Rattle.std.specs.Prelude.{◌≤◌, length, IfOk};

use console::{argument, read_file, write};
use desk::read::Answered;
use listing::{Event, Line, Next};
use reading::Unread;
use settings::ChooseError;
use shapes::event::EVENT;
use shapes::refusal::Refusal;
use std::env::Env;
use std::io::Read;
use std::rt::Files;

// "It takes 65,536 bytes and 4,096 rows (more is refusal 1)".
const MOST_BYTES: usize = 65536;

const MOST_ROWS: usize = 4096;

// The number of the line that does not read.
#[derive(Clone, Copy)]
struct UnreadLine(u64);

// How far the lines were taken. One row and one byte too many are counted, and no more, since that is all that refusal 1 asks.
#[derive(Drop)]
struct Taken {
    // How many lines have read.
    lines: u64,
    fuel: u32,
    size: usize,
    rows: usize,
    source: [u8; 65537],
    ids: [u32; 4096],
    starts: [u32; 4096],
    ends: [u32; 4096],
}

// The settings edition by which the file is read, how long the settings text is, and the edition of the listing.
#[derive(Clone, Copy)]
struct Edition {
    number: u32,
    size: usize,
    listing: u32,
    ghost within: { size ≤ 65537 },
}

// An argument that is none, or a settings file that cannot be read or is too long.
#[derive(Clone, Copy)]
struct Wrong;

impl Taken {
    fn nothing() -> Taken {
        Taken {
            lines: 0,
            fuel: 0,
            size: 0,
            rows: 0,
            source: [0; 65537],
            ids: [0; 4096],
            starts: [0; 4096],
            ends: [0; 4096],
        }
    }

    // The number, from 1, of the line behind those that have read. No run has so many lines that it wraps.
    fn next_number(&self) -> u64 {
        self.lines.wrapping_add(1)
    }

    // The first line. The file is read at once, since one that cannot be opened or read counts as this line, whatever lines follow.
    fn take_source(&mut self, rt: &impl Files, line: &[u8]) -> Result<(), UnreadLine> {
        let Some(Line::Source { from, to, fuel }) = listing::read_line(line) else {
            return Err(UnreadLine(1));
        };
        self.size = read_file(rt, &line[from..to], &mut self.source).ok_or(UnreadLine(1))?;
        self.fuel = fuel;
        self.lines = 1;
        Ok(())
    }

    // A line behind the first. Rows past the most still have to read, and are not kept.
    fn take_row(&mut self, line: &[u8]) -> Result<(), UnreadLine> {
        let Some(Line::Row { id, start, end }) = listing::read_line(line) else {
            return Err(UnreadLine(self.next_number()));
        };
        self.lines = self.next_number();
        let n = self.rows;
        if n < MOST_ROWS {
            self.ids[n] = id;
            self.starts[n] = start;
            self.ends[n] = end;
            self.rows = n + 1;
        } else {
            self.rows = MOST_ROWS + 1;
        }
        Ok(())
    }

    fn take_line(&mut self, rt: &impl Files, line: &[u8]) -> Result<(), UnreadLine> {
        if self.lines == 0 {
            self.take_source(rt, line)
        } else {
            self.take_row(line)
        }
    }

    // The lines whose ends are in the bytes, and where the next line begins.
    fn take_lines(&mut self, rt: &impl Files, bytes: &[u8]) -> Result<usize, UnreadLine>
        ensures { IfOk result (λ n. n ≤ length bytes.now) }
    {
        let mut at = 0;
        // Not a `for`: a line that is not ended is no line yet, and where it begins is the answer.
        while let Next::Whole { to, next } = listing::next_line(bytes, at) {
            self.take_line(rt, &bytes[at..to])?;
            at = next;
        }
        Ok(at)
    }

    // What stands behind the last line feed, if anything does: the last line may lack its own. "Empty input .. counts as line 1."
    fn take_last(&mut self, rt: &impl Files, line: &[u8]) -> Result<(), UnreadLine> {
        if !line.is_empty() {
            return self.take_line(rt, line);
        }
        if self.lines == 0 {
            return Err(UnreadLine(1));
        }
        Ok(())
    }

    // The whole input, in pieces. The buffer has place for more than the longest line that reads: where it is full of one line, nothing more can come, and
    // that line, taken as the last, does not read. A proved loop has to end, so this one counts to a number that no run uses up.
    fn take_input(
        &mut self,
        rt: &impl Files,
        input: &mut impl Read,
        buffer: &mut [u8],
    ) -> Result<(), UnreadLine> {
        let mut held = 0;
        for _ in 0..u64::MAX {
            let more = input.read(&mut buffer[held..]).unwrap_or(0);
            if more == 0 {
                return self.take_last(rt, &buffer[..held]);
            }
            let end = held + more;
            let at = self.take_lines(rt, &buffer[..end])?;
            buffer.copy_within(at..end, 0);
            held = end - at;
        }
        Err(UnreadLine(self.next_number()))
    }
}

// A line of the listing, as that function spells it into a room.
fn write_line<F: FnOnce(&mut [u8; 4096]) -> usize>(rt: &impl Print, spell: F)
    requires { F.IsAlwaysCallable spell }
{
    let mut room = [0u8; 4096];
    let k = spell(&mut room);
    write(rt, room.get(..k).unwrap_or(&[]));
}

fn write_refusal(rt: &impl Print, refusal: Refusal) {
    write_line(rt, |room| listing::refusal_line(u32::from(refusal), room));
}

// 19 comes before the file is judged; its line is told beside the listing, which has no place for it.
fn write_bad_line(rt: &impl Print, err: &impl Print, line: u32) {
    write_refusal(rt, Refusal::Settings);
    let _ = println!(err; "intake: the settings text does not read, line {line}");
}

// An event's numbers stand in the order that the line has them.
fn write_events(rt: &impl Print, edition: u32, events: &[u32], errors: &[u32]) {
    for event in events.chunks_exact(EVENT) {
        if let &[sort, second, start, end, depth] = event {
            let event = Event {
                sort,
                second,
                start,
                end,
                depth,
            };
            write_line(rt, |room| listing::event_line(edition, event, errors, room));
        }
    }
}

// The first events of a list. Neither the reader nor the merger counts more than its room has.
fn first_events(list: &[u32], count: usize) -> &[u32] {
    list.get(..count.saturating_mul(EVENT)).unwrap_or(list)
}

// The reader's list is merged and written, and behind it the result. Rows covered are rows that were read, so that every count of them fits.
fn write_answer(rt: &impl Print, edition: u32, answered: Answered, events: &[u32], errors: &[u32]) {
    let Answered {
        outcome,
        covered,
        events: count,
        errors: _,
        left,
    } = answered;
    let mut room = [0u32; 16384];
    match merger::merge(first_events(events, count), &mut room) {
        Err(refusal) => write_refusal(rt, refusal),
        Ok(n) => {
            write_events(rt, edition, first_events(&room, n), errors);
            let outcome = u32::from(outcome);
            let rows = covered.min(MOST_ROWS) as u32;
            write_line(rt, |room| listing::result_line(outcome, rows, left, room));
        }
    }
}

// "It .. has room for 4,096 events and 16,384 numbers of error records." 129 words of scratch are what 4,096 rows ask for.
fn answer_within(rt: &impl Print, err: &impl Print, t: &Taken, text: &[u8], edition: Edition) {
    let size = t.size;
    let rows = t.rows;
    if MOST_BYTES < size || MOST_ROWS < rows {
        write_refusal(rt, Refusal::Long);
        return;
    }
    let mut scratch = [0u64; 129];
    let mut events = [0u32; 16384];
    let mut errors = [0u32; 16384];
    let answer = reading::read(
        text,
        edition.number,
        &t.source[..size],
        &t.ids[..rows],
        &t.starts[..rows],
        &t.ends[..rows],
        t.fuel,
        &mut scratch,
        &mut events,
        &mut errors,
    );
    match answer {
        Ok(answered) => write_answer(rt, edition.listing, answered, &events, &errors),
        Err(Unread::Refused(refusal)) => write_refusal(rt, refusal),
        Err(Unread::BadLine(line)) => write_bad_line(rt, err, line),
    }
}

fn answer(rt: &impl Print, err: &impl Print, t: &Taken, text: &[u8], edition: Edition) {
    match settings::choose(text, edition.number, t.fuel) {
        Err(ChooseError::BadLine(line)) => write_bad_line(rt, err, line),
        Ok(_) | Err(ChooseError::Unknown) => answer_within(rt, err, t, text, edition),
    }
}

impl Edition {
    fn take_settings(
        &mut self,
        rt: &impl Files,
        name: &[u8],
        room: &mut [u8; 65537],
    ) -> Result<(), Wrong> {
        let size = read_file(rt, name, room).ok_or(Wrong)?;
        if MOST_BYTES < size {
            return Err(Wrong);
        }
        self.size = size;
        Ok(())
    }

    fn take_number(&mut self, digits: &[u8]) -> Result<(), Wrong> {
        self.number = listing::read_number(digits).ok_or(Wrong)?;
        Ok(())
    }

    // The edition of the listing: there are two.
    fn take_listing(&mut self, word: &[u8]) -> Result<(), Wrong> {
        self.listing = match word {
            b"1" => 1,
            b"2" => 2,
            _ => return Err(Wrong),
        };
        Ok(())
    }

    // A word and its value, where they are there.
    fn take_pair(
        &mut self,
        rt: &(impl Files + Env),
        at: usize,
        next: usize,
        room: &mut [u8; 65537],
    ) -> Result<(), Wrong> {
        let mut word = [0u8; 4096];
        let n = argument(rt, at, &mut word);
        if n == 0 {
            return Ok(());
        }
        let mut value = [0u8; 4096];
        let m = argument(rt, next, &mut value);
        match &word[..n] {
            b"--settings" => self.take_settings(rt, &value[..m], room),
            b"--edition" => self.take_number(&value[..m]),
            b"--listing" => self.take_listing(&value[..m]),
            _ => Err(Wrong),
        }
    }
}

// Up to three arguments with their values, in any order.
fn take_arguments(rt: &(impl Files + Env), room: &mut [u8; 65537]) -> Result<Edition, Wrong> {
    let mut edition = Edition {
        number: 1,
        size: 0,
        listing: 1,
    };
    for (at, next) in [(1, 2), (3, 4), (5, 6)] {
        edition.take_pair(rt, at, next, room)?;
    }
    Ok(edition)
}

fn main(rt: HostRuntime) {
    let err = rt.stderr();
    let mut room = [0u8; 65537];
    let Ok(edition) = take_arguments(&rt, &mut room) else {
        let _ = println!(err;
            "intake: the arguments are --settings FILE, --edition N and --listing 1 or 2"
        );
        return;
    };
    write_line(&rt, |room| listing::head_line(edition.listing, room));
    let mut buffer = [0u8; 16384];
    let mut taken = Taken::nothing();
    match taken.take_input(&rt, &mut rt.reader(), &mut buffer) {
        Ok(()) => answer(&rt, &err, &taken, &room[..edition.size], edition),
        Err(UnreadLine(number)) => write_line(&rt, |room| listing::unread_line(number, room)),
    }
}
