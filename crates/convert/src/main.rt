// Reads a listing from standard input and writes it in the edition that the argument asks for, 1 or 2, to standard output. What keeps it from that it says
// on standard error, and then writes no listing.
#![tactic(auto)]

ghost use Rattle.std.specs.Prelude.{◌≤◌, length};

use console::{argument, write};
use editions::Unconverted;
use std::io::{Input, Read};

// What `intake` writes in edition 2 has at most 4,096 events of 55 bytes each, and in its error lines at most 16,384 names of 17: less than this. A field
// more is at most 7 bytes to a line of at least 9, so that twice as much holds every listing that is taken.
const MOST_BYTES: usize = 524288;

fn say(err: &impl Print, text: &[u8]) {
    write(err, text);
}

fn say_stray(err: &impl Print, line: usize, edition: &[u8]) {
    let _ = print!(err; "convert: line {line}: not a listing of edition ");
    say(err, edition);
    say(err, b"\n");
}

// All that the room has place for, where it can be read. A turn is a read, and no index counts up.
fn read_listing(input: &mut impl Read, room: &mut [u8]) -> Option<usize> {
    let mut size = 0;
    while size < room.len() {
        let n = input.read(&mut room[size..]).ok()?;
        if n == 0 {
            return Some(size);
        }
        size += n;
    }
    Some(size)
}

fn write_front(rt: &impl Print, room: &[u8], count: usize) {
    if count <= room.len() {
        write(rt, &room[..count]);
    }
}

fn answer(
    rt: &impl Print,
    err: &impl Print,
    converted: Result<usize, Unconverted>,
    room: &[u8],
    edition: &[u8],
) {
    match converted {
        Err(Unconverted::Stray(line)) => say_stray(err, line, edition),
        Err(Unconverted::Full) => say(err, b"convert: the listing has no room\n"),
        Ok(count) => write_front(rt, room, count),
    }
}

fn convert_up(rt: &impl Print, err: &impl Print, text: &[u8], room: &mut [u8]) {
    let converted = editions::up(text, room);
    answer(rt, err, converted, room, b"1");
}

fn convert_down(rt: &impl Print, err: &impl Print, text: &[u8], room: &mut [u8]) {
    let converted = editions::down(text, room);
    answer(rt, err, converted, room, b"2");
}

fn convert_within(
    rt: &impl Print,
    err: &impl Print,
    up: bool,
    size: usize,
    text: &[u8],
    room: &mut [u8],
)
    requires { 524288 ≤ length text.now }
{
    if MOST_BYTES < size {
        say(err, b"convert: the listing has more than 524,288 bytes\n");
        return;
    }
    if up {
        convert_up(rt, err, &text[..size], room);
        return;
    }
    convert_down(rt, err, &text[..size], room);
}

// As arrays, so that their lengths are known from their types.
fn read_text(input: &mut impl Read, text: &mut [u8; 524289]) -> Option<usize> {
    read_listing(input, text)
}

fn convert_taken(
    rt: &impl Print,
    err: &impl Print,
    up: bool,
    size: usize,
    text: &[u8; 524289],
    room: &mut [u8; 1048576],
) {
    convert_within(rt, err, up, size, text, room);
}

fn convert_input(rt: &(impl Input + Print), err: &impl Print, up: bool) {
    let mut text = [0u8; 524289];
    let mut room = [0u8; 1048576];
    match read_text(&mut rt.reader(), &mut text) {
        None => say(err, b"convert: standard input cannot be read\n"),
        Some(size) => convert_taken(rt, err, up, size, &text, &mut room),
    }
}

fn main(rt: HostRuntime) {
    let err = rt.stderr();
    let mut word = [0u8; 2];
    let length = argument(&rt, 1, &mut word);
    match &word[..length] {
        b"2" => convert_input(&rt, &err, true),
        b"1" => convert_input(&rt, &err, false),
        _ => say(&err, b"convert: give the edition asked for, 1 or 2\n"),
    }
}
