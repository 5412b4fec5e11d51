// Records rule files as the lines of a day, and replays a day (document 02, request (xii)):
//
//     day record SETTINGS EDITION FUEL FILE..    a line for each file
//     day replay SETTINGS EDITION FUEL           the day from standard input: a line for each file, the totals, and refusal 20 where a line does not read
//
// SETTINGS is the name of a file of settings text, `-` where there is none; the fuel is that of edition 1. A file is read with the limits and rooms of
// `intake`, so that its answer is the desk's. What keeps it from that it says on standard error.
#![tactic(auto)]

ghost use Rattle.std.specs.Prelude.{◌≤◌, IfSome};
ghost use Rattle.replay.specs.Answer.{Again};

use console::{argument, open, read_full, read_room, write};
use desk::read::Answered;
use reading::Unread;
use replay::{Answer, BadLine, Entry, Fate, File, Tally, Unwritten};
use settings::ChooseError;
use shapes::outcome::Outcome;
use shapes::refusal::Refusal;
use std::env::{Env, FillError};
use std::io::{Input, Read};
use std::rt::Files;

// "It takes 65,536 bytes and 4,096 rows (more is refusal 1)".
const MOST_BYTES: usize = 65536;

const MOST_ROWS: usize = 4096;

// A day of so many bytes has two thousand files with names of 100 bytes.
const MOST_OF_DAY: usize = 262144;

// A longer file is not read to its end.
const MOST_SIZE: u32 = 4294963200;

// What a file holds: how many of its bytes the room has, and how long it is.
#[derive(Clone, Copy)]
struct Source {
    kept: usize,
    size: u32,
}

// What is asked of every file: by which edition of which settings text it is read, with that fuel.
#[derive(Clone, Copy)]
struct Asked<'a> {
    settings: &'a [u8],
    edition: u32,
    fuel: u32,
}

// How long a file is of which so many bytes are read. Those that come next are not wanted.
fn whole_size(file: &mut impl Read, read: usize) -> Option<u32>
    requires { read ≤ 65537 }
{
    let mut bytes = [0u8; 4096];
    let mut size = read as u32;
    // Not a `for`: a read brings as many bytes as it will.
    while size < MOST_SIZE {
        let n = file.read(&mut bytes).ok()?;
        if n == 0 {
            return Some(size);
        }
        size += n as u32;
    }
    None
}

// A file that can be read to its end; the room begins with what it has place for.
fn open_source(rt: &impl Files, name: &[u8], room: &mut [u8; 65537]) -> Option<Source>
    ensures { IfSome result (λ s. s.kept ≤ 65537) }
{
    let mut file = open(rt, name)?;
    let kept = read_room(&mut file, room).ok()?;
    let size = whole_size(&mut file, kept)?;
    Some(Source { kept, size })
}

fn refused(refusal: Refusal) -> Answer {
    Answer::Refused(u32::from(refusal))
}

fn ended(answered: Answered) -> Answer {
    let Answered {
        outcome,
        errors,
        ..
    } = answered;
    match outcome {
        Outcome::Done => Answer::Done(errors),
        Outcome::Spent => Answer::Spent(errors),
        Outcome::Deep => Answer::Deep(errors),
    }
}

// The rooms are those of `intake`, and the scratch what its rows ask for.
fn read_rows(source: &[u8], ids: &[u32], starts: &[u32], ends: &[u32], asked: Asked) -> Answer {
    let mut scratch = [0u64; 129];
    let mut events = [0u32; 16384];
    let mut errors = [0u32; 16384];
    let answer = reading::read(
        asked.settings,
        asked.edition,
        source,
        ids,
        starts,
        ends,
        asked.fuel,
        &mut scratch,
        &mut events,
        &mut errors,
    );
    match answer {
        Ok(answered) => ended(answered),
        Err(Unread::Refused(refusal)) => refused(refusal),
        Err(Unread::BadLine(_)) => refused(Refusal::Settings),
    }
}

// The answer to a rule text under an edition. Refusal 18 stands behind 1 to 6, of which rows that were cut can only have 1.
fn answer_to(source: &[u8], asked: Asked) -> Answer {
    if MOST_BYTES < source.len() {
        return refused(Refusal::Long);
    }
    let mut ids = [0u32; 4096];
    let mut starts = [0u32; 4096];
    let mut ends = [0u32; 4096];
    match cutter::cut(source, &mut ids, &mut starts, &mut ends) {
        Err(_) => refused(Refusal::Long),
        Ok(count) => {
            let n = count as usize;
            if MOST_ROWS < n {
                return refused(Refusal::Long);
            }
            read_rows(source, &ids[..n], &starts[..n], &ends[..n], asked)
        }
    }
}

// A name with a tab or a line feed cannot be recorded. No path is longer than 4,096 bytes, so a line has room.
fn write_entry(rt: &impl Print, err: &impl Print, entry: Entry) {
    let mut room = [0u8; 8192];
    match replay::entry_line(entry, &mut room) {
        Ok(n) => write(rt, room.get(..n).unwrap_or(&room)),
        Err(Unwritten::Name) => {
            let _ = println!(err; "day: a name with a tab or a line feed cannot be recorded");
        }
        Err(Unwritten::Full) => {
            let _ = println!(err; "day: a name is too long");
        }
    }
}

fn record_file(rt: &(impl Files + Print), err: &impl Print, name: &[u8], asked: Asked) {
    let mut source = [0u8; 65537];
    let Some(Source { kept, size }) = open_source(rt, name, &mut source) else {
        write(err, b"day: cannot be read: ");
        write(err, name);
        write(err, b"\n");
        return;
    };
    let entry = Entry {
        name,
        size,
        edition: asked.edition,
        answer: answer_to(&source[..kept], asked),
    };
    write_entry(rt, err, entry);
}

// The files are the arguments from the sixth word on.
fn record(rt: &(impl Files + Env + Print), err: &impl Print, asked: Asked) {
    for i in 5..usize::MAX {
        let mut name = [0u8; 4096];
        match rt.arg(i, &mut name) {
            Ok(n) => record_file(rt, err, &name[..n], asked),
            Err(FillError::TooLong) => record_file(rt, err, b"", asked),
            Err(FillError::NotPresent) => return,
        }
    }
}

// A file that cannot be read counts as missing.
fn fate_of(rt: &impl Files, name: &[u8], size: u32, asked: Asked) -> Fate {
    let mut room = [0u8; 65537];
    match open_source(rt, name, &mut room) {
        None => Fate::Missing,
        Some(source) if source.size != size => Fate::Changed,
        Some(source) => Fate::Read(answer_to(&room[..source.kept], asked)),
    }
}

fn write_file(rt: &impl Print, err: &impl Print, name: &[u8], file: File) {
    let mut room = [0u8; 8192];
    match replay::file_line(name, file, &mut room) {
        Ok(n) => write(rt, room.get(..n).unwrap_or(&room)),
        Err(Unwritten::Name) => (),
        Err(Unwritten::Full) => {
            let _ = println!(err; "day: a name is too long to be shown");
        }
    }
}

// "Replay reads the day with another edition named": for what became of its files, the totals of the day.
fn replay_day(
    rt: &(impl Files + Print),
    err: &impl Print,
    text: &[u8],
    asked: Asked,
) -> Result<Tally, BadLine>
    ensures { Again text.now result }
{
    let mut tally = replay::none();
    let mut number: u64 = 1;
    let mut rest = text;
    // No `for`: over `split_inclusive`, in a function with a type parameter, the check refuses its own statement.
    while !rest.is_empty() {
        let Some((entry, behind)) = replay::next_entry(rest) else {
            return Err(BadLine { number, tally });
        };
        let file = File {
            recorded: entry.answer,
            fate: fate_of(rt, entry.name, entry.size, asked),
        };
        write_file(rt, err, entry.name, file);
        tally = replay::with_file(tally, file);
        number += 1;
        rest = behind;
    }
    Ok(tally)
}

fn write_tally(rt: &impl Print, t: Tally) {
    let mut room = [0u8; 256];
    let n = replay::totals_line(t, &mut room);
    write(rt, &room[..n]);
}

fn write_refusal(rt: &impl Print, line: u64) {
    let mut room = [0u8; 256];
    let n = replay::bad_line(line, &mut room);
    write(rt, &room[..n]);
}

fn write_totals(rt: &impl Print, replayed: Result<Tally, BadLine>) {
    match replayed {
        Ok(tally) => write_tally(rt, tally),
        Err(bad) => {
            write_tally(rt, bad.tally);
            write_refusal(rt, bad.number);
        }
    }
}

fn replay_input(rt: &(impl Files + Input + Print), err: &impl Print, asked: Asked) {
    let mut text = [0u8; 262145];
    let n = read_full(&mut rt.reader(), &mut text);
    if MOST_OF_DAY < n {
        let _ = println!(err; "day: the day has more than 262,144 bytes");
        return;
    }
    write_totals(rt, replay_day(rt, err, &text[..n], asked));
}

// A line of the settings that does not read is told before any file is.
fn run<F: FnOnce(Asked)>(err: &impl Print, asked: Asked, work: F)
    requires { F.IsAlwaysCallable work }
{
    if let Err(ChooseError::BadLine(line)) = settings::choose(
        asked.settings,
        asked.edition,
        asked.fuel,
    ) {
        let _ = println!(err; "day: refusal 19, settings line {line}");
        return;
    }
    work(asked);
}

// The number that an argument is.
fn number(rt: &impl Env, i: usize) -> Option<u32> {
    let mut text = [0u8; 32];
    let n = argument(rt, i, &mut text);
    listing::read_number(&text[..n])
}

// The edition and the fuel, with no settings yet.
fn numbers(rt: &impl Env) -> Option<Asked<'static>> {
    let edition = number(rt, 3)?;
    let fuel = number(rt, 4)?;
    Some(Asked {
        settings: b"",
        edition,
        fuel,
    })
}

// Does the work with the settings text that the argument names.
fn with_settings<F: FnOnce(Asked)>(rt: &(impl Files + Env), err: &impl Print, asked: Asked, work: F)
    requires { F.IsAlwaysCallable work }
{
    let mut name = [0u8; 4096];
    let n = argument(rt, 2, &mut name);
    let name = &name[..n];
    if name == b"-".as_slice() {
        run(err, asked, work);
        return;
    }
    let mut text = [0u8; 65537];
    match open_source(rt, name, &mut text) {
        None => {
            let _ = println!(err; "day: the settings cannot be read");
        }
        Some(source) if MOST_BYTES < source.kept => {
            let _ = println!(err; "day: the settings have more than 65,536 bytes");
        }
        Some(source) => {
            let settings = &text[..source.kept];
            run(err, Asked { settings, ..asked }, work);
        }
    }
}

fn main(rt: HostRuntime) {
    let err = rt.stderr();
    let mut command = [0u8; 8];
    let n = argument(&rt, 1, &mut command);
    let Some(asked) = numbers(&rt) else {
        let _ = println!(err;
            "day: give record or replay, a settings file or -, the edition and the fuel, and behind record the files"
        );
        return;
    };
    match &command[..n] {
        b"record" => with_settings(&rt, &err, asked, |asked| record(&rt, &err, asked)),
        b"replay" => with_settings(&rt, &err, asked, |asked| replay_input(&rt, &err, asked)),
        _ => {
            let _ = println!(err; "day: record or replay");
        }
    }
}
