// Reads a rule file from standard input and writes the messages of its errors, a line each: line and column from 1, and what is wrong. Its arguments are the
// name to put before each line and the fuel. It takes what `intake` takes, and has the same rooms.
#![tactic(auto)]

use console::{argument, read_full, write};
use desk::read::Answered;
use shapes::outcome::Outcome;
use shapes::refusal::Refusal;

const MOST_BYTES: usize = 65536;

const MOST_ROWS: usize = 4096;

// A room of 4,096 bytes has any message: 85 descriptions of at most 18 bytes with their joints, and a found text of at most 15. A record that the reader wrote
// is never refused.
fn write_message(rt: &impl Print, name: &[u8], source: &[u8], numbers: &[u32]) {
    let mut room = [0u8; 4096];
    let Ok(n) = messages::message(source, numbers, &mut room) else {
        return;
    };
    let spot = messages::record_spot(source, numbers);
    write(rt, name);
    let _ = print!(rt; ":{}:{}: ", spot.line, spot.column);
    write(rt, room.get(..n).unwrap_or(&[]));
    write(rt, b"\n");
}

fn write_messages(rt: &impl Print, name: &[u8], source: &[u8], errors: &[u32], count: u32) {
    let mut rest = errors;
    for _ in 0..count {
        write_message(rt, name, source, rest);
        let Some(behind) = rest.get(messages::size(rest)..) else {
            return;
        };
        rest = behind;
    }
}

// A reading that was stopped has not seen the rest of the file, whether it has errors or not.
fn write_stop(rt: &impl Print, name: &[u8], outcome: Outcome) {
    let stop: &[u8] = match outcome {
        Outcome::Done => return,
        Outcome::Spent => b": out of fuel\n",
        Outcome::Deep => b": too deep\n",
    };
    write(rt, name);
    write(rt, stop);
}

fn refused(err: &impl Print, refusal: Refusal) {
    let _ = println!(err; "tell: the file is refused, number {}", u32::from(refusal));
}

fn read_rows(
    rt: &impl Print,
    err: &impl Print,
    name: &[u8],
    source: &[u8],
    ids: &[u32],
    starts: &[u32],
    ends: &[u32],
    fuel: u32,
) {
    let mut scratch = [0u64; 129];
    let mut events = [0u32; 16384];
    let mut errors = [0u32; 16384];
    let reading = desk::read::read(
        source,
        ids,
        starts,
        ends,
        fuel,
        desk::read::base(),
        &mut scratch,
        &mut events,
        &mut errors,
    );
    match reading {
        Err(refusal) => refused(err, refusal),
        Ok(
            Answered {
                outcome,
                errors: count,
                ..
            },
        ) => {
            write_messages(rt, name, source, &errors, count);
            write_stop(rt, name, outcome);
        }
    }
}

// More rows than there is room for are refused as `intake` refuses them.
fn cut_source(rt: &impl Print, err: &impl Print, name: &[u8], source: &[u8], fuel: u32) {
    let mut ids = [0u32; 4096];
    let mut starts = [0u32; 4096];
    let mut ends = [0u32; 4096];
    match cutter::cut(source, &mut ids, &mut starts, &mut ends) {
        Err(_) => refused(err, Refusal::Long),
        Ok(count) => {
            let n = count as usize;
            if n <= MOST_ROWS {
                read_rows(
                    rt,
                    err,
                    name,
                    source,
                    &ids[..n],
                    &starts[..n],
                    &ends[..n],
                    fuel,
                );
            }
        }
    }
}

fn main(rt: HostRuntime) {
    let err = rt.stderr();
    let mut name = [0u8; 4096];
    let length = argument(&rt, 1, &mut name);
    let mut text = [0u8; 32];
    let digits = argument(&rt, 2, &mut text);
    let Some(fuel) = listing::read_number(&text[..digits]) else {
        let _ = println!(err; "tell: give a name and the fuel, a number of 32 bits");
        return;
    };
    let mut source = [0u8; 65537];
    let size = read_full(&mut rt.reader(), &mut source);
    if MOST_BYTES < size {
        refused(&err, Refusal::Long);
        return;
    }
    cut_source(&rt, &err, &name[..length], &source[..size], fuel);
}
