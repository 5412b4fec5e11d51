// Runs the merger on small lists and on two long ones. A line has the case, the refusal's number or 0, the count of events, and the room after. Each
// room is lent full of fives. 87 is ERROR and 88 SOURCE_FILE in docs/KINDS.md.
#![tactic(auto)]

use console::{print_decimal, write};
use shapes::event::EVENT;
use shapes::refusal::Refusal;

fn number(rt: &impl Print, n: u64) {
    write(rt, b" ");
    print_decimal(rt, n);
}

fn line_end(rt: &impl Print) {
    write(rt, b"\n");
}

fn answer(rt: &impl Print, name: &[u8], r: Result<usize, Refusal>) {
    write(rt, name);
    let (refusal, events) = match r {
        Ok(n) => (0, n),
        Err(refusal) => (u32::from(refusal), 0),
    };
    number(rt, u64::from(refusal));
    number(rt, events as u64);
    write(rt, b" :");
}

fn numbers(rt: &impl Print, l: &[u32]) {
    for n in l {
        number(rt, u64::from(*n));
    }
    line_end(rt);
}

fn show(rt: &impl Print, name: &[u8], events: &[u32], room: &mut [u32]) {
    answer(rt, name, merger::merge(events, room));
    numbers(rt, room);
}

fn line(rt: &impl Print, name: &[u8], events: &[u32], size: usize) {
    let mut room = [5u32; 40];
    if size <= 40 {
        show(rt, name, events, &mut room[..size]);
    }
}

fn put(events: &mut [u32], n: usize, event: [u32; EVENT]) {
    if n < events.len() / EVENT {
        events[EVENT * n..EVENT * n + EVENT].copy_from_slice(&event);
    }
}

// P9 with just enough room, with more, and with five numbers less and one less; the empty list.
fn rooms(rt: &impl Print) {
    let events = [
        1u32, 87, 0, 1, 0, 3, 87, 0, 1, 0, 1, 87, 1, 3, 0, 3, 87, 1, 3, 0,
    ];
    line(rt, b"P9", &events, 10);
    line(rt, b"more", &events, 16);
    line(rt, b"five less", &events, 5);
    line(rt, b"one less", &events, 9);
    line(rt, b"empty", &events[..0], 3);
    line(rt, b"nothing", &events[..0], 0);
}

// Lists that are no event lists; 9 is given before 10 and 7.
fn malformed(rt: &impl Print) {
    let events = [1u32, 87, 0, 1, 0, 3, 87, 0, 1, 0];
    line(rt, b"length 1", &events[..1], 5);
    line(rt, b"length 8", &events[..8], 5);
    line(rt, b"length 9", &events[..9], 5);
    let zero = [1u32, 87, 0, 1, 0, 0, 87, 0, 1, 1];
    line(rt, b"sort 0", &zero, 10);
    let five = [1u32, 87, 0, 1, 0, 5, 87, 0, 1, 1];
    line(rt, b"sort 5", &five, 5);
}

// Depths that are not the counted ones: of a begin, a token, an error event and an end.
fn depths(rt: &impl Print) {
    let begin = [1u32, 87, 0, 1, 1, 3, 87, 0, 1, 1];
    line(rt, b"begin at 1", &begin, 10);
    let token = [1u32, 88, 0, 1, 0, 2, 4, 0, 1, 0, 3, 88, 0, 1, 0];
    line(rt, b"token at 0", &token, 15);
    let error = [1u32, 88, 0, 1, 0, 4, 0, 0, 1, 2, 3, 88, 0, 1, 0];
    line(rt, b"error at 2", &error, 15);
    let end = [1u32, 88, 0, 1, 0, 3, 88, 0, 1, 1];
    line(rt, b"end at 1", &end, 10);
}

// Ends with none open, at depth 0 and at the greatest that a cell holds.
fn ends(rt: &impl Print) {
    let first = [3u32, 88, 0, 1, 0, 1, 88, 1, 2, 0];
    line(rt, b"end first", &first, 10);
    let greatest = [3u32, 88, 0, 1, 4294967295, 1, 88, 1, 2, 0];
    line(rt, b"greatest", &greatest, 10);
    let many = [1u32, 88, 0, 1, 0, 3, 88, 0, 1, 0, 3, 88, 0, 1, 0];
    line(rt, b"end too many", &many, 15);
}

// ERROR nodes that do not pair; 10 is given before 7. Other nodes need not pair.
fn unpaired(rt: &impl Print) {
    let end = [1u32, 88, 0, 1, 0, 3, 87, 0, 1, 0];
    line(rt, b"none open", &end, 10);
    let begin = [1u32, 87, 0, 1, 0, 2, 4, 0, 1, 1];
    line(rt, b"never closed", &begin, 10);
    let twice = [
        1u32, 88, 0, 1, 0, 1, 87, 0, 1, 1, 3, 87, 0, 1, 1, 3, 87, 0, 1, 0,
    ];
    line(rt, b"closed twice", &twice, 5);
    let other = [1u32, 88, 0, 1, 0, 3, 89, 0, 1, 0, 1, 88, 2, 3, 0];
    line(rt, b"other nodes", &other, 15);
}

// One pass leaves the inner pair.
fn inner(rt: &impl Print) {
    let mut events = [0u32; 50];
    put(&mut events, 0, [1, 87, 0, 1, 0]);
    put(&mut events, 1, [1, 87, 0, 1, 1]);
    put(&mut events, 2, [2, 4, 0, 1, 2]);
    put(&mut events, 3, [3, 87, 0, 1, 1]);
    put(&mut events, 4, [3, 87, 0, 1, 0]);
    put(&mut events, 5, [1, 87, 1, 2, 0]);
    put(&mut events, 6, [1, 87, 1, 2, 1]);
    put(&mut events, 7, [2, 6, 1, 2, 2]);
    put(&mut events, 8, [3, 87, 1, 2, 1]);
    put(&mut events, 9, [3, 87, 1, 2, 0]);
    line(rt, b"[[a]] [[b]]", &events, 40);
}

// The least start and the greatest end, whatever the ends had.
fn spans(rt: &impl Print) {
    let mut events = [0u32; 30];
    put(&mut events, 0, [1, 87, 5, 6, 0]);
    put(&mut events, 1, [3, 87, 0, 0, 0]);
    put(&mut events, 2, [1, 87, 1, 9, 0]);
    put(&mut events, 3, [3, 87, 0, 0, 0]);
    put(&mut events, 4, [1, 87, 4294967295, 2, 0]);
    put(&mut events, 5, [3, 87, 4294967295, 0, 0]);
    line(rt, b"any spans", &events, 10);
}

// What is joined inside leaves the span around it.
fn outer(rt: &impl Print) {
    let mut events = [0u32; 35];
    put(&mut events, 0, [1, 87, 3, 4, 0]);
    put(&mut events, 1, [1, 87, 1, 2, 1]);
    put(&mut events, 2, [3, 87, 1, 2, 1]);
    put(&mut events, 3, [1, 87, 2, 9, 1]);
    put(&mut events, 4, [3, 87, 2, 9, 1]);
    put(&mut events, 5, [2, 4, 9, 10, 1]);
    put(&mut events, 6, [3, 87, 3, 4, 0]);
    line(rt, b"[[a][b] c]", &events, 25);
}

// An error event or a token that bears 87 is no ERROR node, and an ERROR end gets the span of its begin.
fn leaves(rt: &impl Print) {
    let end = [1u32, 87, 2, 7, 0, 3, 87, 0, 0, 0];
    line(rt, b"end", &end, 10);
    let mut events = [0u32; 30];
    put(&mut events, 0, [1, 87, 0, 1, 0]);
    put(&mut events, 1, [3, 87, 0, 1, 0]);
    put(&mut events, 2, [4, 87, 0, 1, 0]);
    put(&mut events, 3, [1, 87, 1, 2, 0]);
    put(&mut events, 4, [2, 87, 1, 2, 1]);
    put(&mut events, 5, [3, 87, 1, 2, 0]);
    line(rt, b"leaves", &events, 30);
}

// P4, in which nothing is joined.
fn small_file(rt: &impl Print) {
    let mut events = [0u32; 30];
    put(&mut events, 0, [1, 88, 0, 22, 0]);
    put(&mut events, 1, [1, 87, 0, 0, 1]);
    put(&mut events, 2, [1, 87, 0, 0, 2]);
    put(&mut events, 3, [3, 87, 0, 0, 2]);
    put(&mut events, 4, [3, 87, 0, 0, 1]);
    put(&mut events, 5, [3, 88, 0, 22, 0]);
    line(rt, b"P4", &events, 30);
}

// ERROR nodes, each in the one before, whose ends have no span yet.
fn nest(events: &mut [u32]) {
    for n in 0..500 {
        let depth = n as u32;
        put(events, n, [1, 87, depth, 1000 - depth, depth]);
        put(events, 999 - n, [3, 87, 0, 0, depth]);
    }
}

// ERROR nodes in a row, each wider than the one before, in an ERROR node.
fn row(events: &mut [u32]) {
    put(events, 0, [1, 87, 1500, 1500, 0]);
    for n in 0..499 {
        let begin = 2 * n + 1;
        put(
            events,
            begin,
            [1, 87, 1000 - begin as u32, 1000 + begin as u32, 1],
        );
        put(events, begin + 1, [3, 87, 0, 0, 1]);
    }
    put(events, 999, [3, 87, 0, 0, 0]);
}

// Of the deep nest's finished list the two outermost nodes and the two innermost are shown.
fn long(rt: &impl Print) {
    let mut events = [0u32; 5000];
    let mut room = [5u32; 5000];
    nest(&mut events);
    answer(rt, b"deep", merger::merge(&events, &mut room));
    numbers(rt, &room[0..10]);
    numbers(rt, &room[2490..2510]);
    numbers(rt, &room[4990..]);
    row(&mut events);
    line(rt, b"row", &events, 20);
}

fn main(rt: HostRuntime) {
    rooms(&rt);
    malformed(&rt);
    depths(&rt);
    ends(&rt);
    unpaired(&rt);
    inner(&rt);
    spans(&rt);
    outer(&rt);
    leaves(&rt);
    small_file(&rt);
    long(&rt);
}
