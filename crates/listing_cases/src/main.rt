// Runs the reading of lines and the writing of listings; `stdout` has what document 01 and docs/DECISIONS.md ask for.
#![tactic(auto)]

use console::write;
use kinds::{Kind, name};
use listing::{Event, Line, Next};

fn tell_line(rt: &impl Print, line: &[u8]) {
    let _ = match listing::read_line(line) {
        Some(Line::Source { from, to, fuel }) => println!(rt; "source {from} {to} {fuel}"),
        Some(Line::Row { id, start, end }) => println!(rt; "row {id} {start} {end}"),
        None => println!(rt; "unread {}", line.len()),
    };
}

fn tell_next(rt: &impl Print, bytes: &[u8], at: usize) {
    let _ = match listing::next_line(bytes, at) {
        Next::Whole { to, next } => println!(rt; "whole {to} {next}"),
        Next::Partial => println!(rt; "partial"),
        Next::Nothing => println!(rt; "nothing"),
    };
}

fn tell_lines(rt: &impl Print) {
    let lines = [
        "S\trules.yar\t5",
        "S\ta b\t0",
        "S\t\t5",
        "T\t37\t0\t4",
        "T\t81\t4294967295\t4294967295",
        "T\t0\t0\t4294967296",
        "T\t000000000000000000037\t00\t0004",
        "T\t0\t0\t99999999999999999999999999",
    ];
    for line in lines {
        tell_line(rt, line.as_bytes());
    }
}

fn tell_bad_lines(rt: &impl Print) {
    let lines = [
        "",
        "S",
        "S\t",
        "S\ta",
        "S\ta\t",
        "S\ta\t5\t",
        "S\ta\t5\r",
        "S\ta\rb\t5",
        "S\ta\t-5",
        "S\ta\t+5",
        "S\ta\t5 ",
        "s\ta\t5",
        "SS\ta\t5",
        "\tS\ta\t5",
        "T",
        "T\t1\t2",
        "T\t1\t2\t",
        "T\t\t2\t3",
        "T\t1\t\t3",
        "T\t1\t2\t3\t4",
        "T\t1\t2\t3\t",
        "T\tRULE_KW\t0\t4",
        "T\t1\t2\t0x3",
        "T 1 2 3",
        "R\t1\t2\t3",
    ];
    for line in lines {
        tell_line(rt, line.as_bytes());
    }
}

fn tell_long_lines(rt: &impl Print) {
    let mut line = [b'0'; 8193];
    line[0] = b'T';
    line[1] = b'\t';
    line[3] = b'\t';
    line[5] = b'\t';
    tell_line(rt, &line[..8192]);
    tell_line(rt, &line);
}

fn tell_nexts(rt: &impl Print) {
    for at in 0..7 {
        tell_next(rt, b"ab\n\nc", at);
    }
    tell_next(rt, b"", 0);
}

fn write_event(rt: &impl Print, edition: u32, event: Event, errors: &[u32]) {
    let mut room = [0u8; 4096];
    let k = listing::event_line(edition, event, errors, &mut room);
    write(rt, &room[..k]);
}

fn write_node(rt: &impl Print, edition: u32, numbers: [u32; 5]) {
    let [sort, second, start, end, depth] = numbers;
    let event = Event {
        sort,
        second,
        start,
        end,
        depth,
    };
    write_event(rt, edition, event, &[]);
}

fn write_head(rt: &impl Print, edition: u32) {
    let mut room = [0u8; 4096];
    let k = listing::head_line(edition, &mut room);
    write(rt, &room[..k]);
}

fn write_result(rt: &impl Print, outcome: u32, rows: u32, fuel: u32) {
    let mut room = [0u8; 4096];
    let k = listing::result_line(outcome, rows, fuel, &mut room);
    write(rt, &room[..k]);
}

fn write_refusal(rt: &impl Print, n: u32) {
    let mut room = [0u8; 4096];
    let k = listing::refusal_line(n, &mut room);
    write(rt, &room[..k]);
}

fn write_unread(rt: &impl Print, n: u64) {
    let mut room = [0u8; 4096];
    let k = listing::unread_line(n, &mut room);
    write(rt, &room[..k]);
}

// P4 of document 01.
fn write_stopped(rt: &impl Print, edition: u32) {
    write_head(rt, edition);
    let nodes = [
        [1, Kind::SourceFile as u32, 0, 22, 0],
        [1, Kind::Error as u32, 0, 0, 1],
        [1, Kind::Error as u32, 0, 0, 2],
        [3, Kind::Error as u32, 0, 0, 2],
        [3, Kind::Error as u32, 0, 0, 1],
        [3, Kind::SourceFile as u32, 0, 22, 0],
    ];
    for node in nodes {
        write_node(rt, edition, node);
    }
    write_result(rt, 1, 0, 0);
}

// Tokens, and a kind and sorts that are none.
fn write_others(rt: &impl Print, edition: u32) {
    let others = [
        [2, Kind::RuleKw as u32, 0, 4, 2],
        [2, Kind::Whitespace as u32, 4, 5, 4294967295],
        [2, Kind::PatternIdentTuple as u32, 4294967295, 10, 10],
        [1, 122, 1, 2, 3],
        [0, Kind::RuleKw as u32, 1, 2, 3],
        [5, Kind::RuleKw as u32, 1, 2, 3],
    ];
    for node in others {
        write_node(rt, edition, node);
    }
}

fn write_error(rt: &impl Print, edition: u32, number: u32) {
    let errors = [
        7,
        16,
        1,
        1,
        2,
        Kind::MetaKw as u32,
        Kind::StringsKw as u32,
        40,
        41,
        10,
        2,
        0,
        4,
        7,
        9,
        3,
        0,
        5,
        21,
        21,
        3,
        3,
        2,
        name::OPERATOR,
        Kind::RBrace as u32,
        9,
        99,
        2,
        900,
        4,
        name::EXPRESSION,
        name::MODIFIER,
        85,
        Kind::BitwiseAnd as u32,
    ];
    let event = Event {
        sort: 4,
        second: number,
        start: 0,
        end: 0,
        depth: 1,
    };
    write_event(rt, edition, event, &errors);
}

// Records with names and without, with a place, with a name that is none, and a record that is not there. Edition 1 does not show their items.
fn write_errors(rt: &impl Print, edition: u32) {
    for number in 0..6 {
        write_error(rt, edition, number);
    }
}

fn write_edition(rt: &impl Print, edition: u32) {
    write_stopped(rt, edition);
    write_others(rt, edition);
    write_errors(rt, edition);
}

fn main(rt: HostRuntime) {
    tell_lines(&rt);
    tell_bad_lines(&rt);
    tell_long_lines(&rt);
    tell_nexts(&rt);
    write_edition(&rt, 1);
    write_refusal(&rt, 1);
    write_refusal(&rt, 10);
    write_unread(&rt, 1);
    write_unread(&rt, 18446744073709551615);
    write_result(&rt, 0, 65536, 4294967295);
    write_edition(&rt, 2);
}
