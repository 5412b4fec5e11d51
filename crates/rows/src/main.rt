// Cuts a rule file into rows, and writes the lines that `intake` reads: `S` with the file's name and the fuel, then a `T` line for each row. Both are its
// arguments. What keeps it from that it says on standard error, and then writes no line.
#![tactic(auto)]

use console::{argument, read_file, write};
use std::env::Env;
use std::rt::Files;

// As many as `intake` takes. There is at most one row a byte, so lists of this length have room for all rows.
const MOST_BYTES: usize = 65536;

fn write_rows(
    rt: &impl Print,
    ids: &[u32; 65536],
    starts: &[u32; 65536],
    ends: &[u32; 65536],
    count: u32,
) {
    for (&id, (&start, &end)) in ids.iter().zip(starts.iter().zip(ends)).take(count as usize) {
        let _ = println!(rt; "T\t{id}\t{start}\t{end}");
    }
}

// A line's fields are parted by tabs and its end is a line feed, and a line with a carriage return does not read.
fn is_writable(name: &[u8]) -> bool {
    !name.iter().any(|b| matches!(*b, b'\t' | b'\n' | b'\r'))
}

fn cut_source(rt: &impl Print, err: &impl Print, name: &[u8], fuel: u32, source: &[u8]) {
    let mut ids = [0u32; 65536];
    let mut starts = [0u32; 65536];
    let mut ends = [0u32; 65536];
    let Ok(count) = cutter::cut(source, &mut ids, &mut starts, &mut ends) else {
        let _ = println!(err; "rows: the rows have no room");
        return;
    };
    write(rt, b"S\t");
    write(rt, name);
    let _ = println!(rt; "\t{fuel}");
    write_rows(rt, &ids, &starts, &ends, count);
}

fn cut_file(rt: &(impl Files + Print), err: &impl Print, name: &[u8], fuel: u32) {
    if !is_writable(name) {
        let _ = println!(err; "rows: a name with a tab or a line's end cannot stand in a line");
        return;
    }
    let mut room = [0u8; 65537];
    let Some(size) = read_file(rt, name, &mut room) else {
        let _ = println!(err; "rows: the file cannot be read");
        return;
    };
    if MOST_BYTES < size {
        let _ = println!(err; "rows: the file has more than 65,536 bytes");
        return;
    }
    cut_source(rt, err, name, fuel, &room[..size]);
}

fn main(rt: HostRuntime) {
    let err = rt.stderr();
    let mut name = [0u8; 4096];
    let Ok(length) = rt.arg(1, &mut name) else {
        let _ = println!(err; "rows: give a rule file's name and the fuel");
        return;
    };
    let mut text = [0u8; 32];
    let digits = argument(&rt, 2, &mut text);
    let Some(fuel) = listing::read_number(&text[..digits]) else {
        let _ = println!(err; "rows: behind the name give the fuel, a number of 32 bits");
        return;
    };
    cut_file(&rt, &err, &name[..length], fuel);
}
