// Writes messages. A line has the refusal's number or 0, the message's length, and the room after: zeros as `_`, and as it was lent `.`.
// `stdout` was written by hand from the crate's wording and the page of requests. Names are numbers of docs/KINDS.md: 67 is R_BRACE, 74 IDENT,
// 82 "expression", 83 "operator". A record's item, behind its form, is not looked at.
#![tactic(auto)]

use console::{print_decimal, write};
use shapes::refusal::Refusal;

fn number(rt: &impl Print, n: u64) {
    print_decimal(rt, n);
    write(rt, b" ");
}

fn answer(rt: &impl Print, r: Result<usize, Refusal>) {
    match r {
        Ok(n) => {
            number(rt, 0);
            number(rt, n as u64);
        }
        Err(refusal) => number(rt, u64::from(u32::from(refusal))),
    }
}

fn tell(rt: &impl Print, room: &[u8]) {
    for byte in room {
        if *byte == 0 {
            write(rt, b"_");
        } else {
            write(rt, &[*byte]);
        }
    }
    write(rt, b"\n");
}

fn show(rt: &impl Print, source: &[u8], numbers: &[u32], room: &mut [u8]) {
    answer(rt, messages::message(source, numbers, room));
    tell(rt, room);
}

// The room lent is so many dots.
fn line(rt: &impl Print, source: &[u8], numbers: &[u32], size: usize) {
    let mut room = [b'.'; 96];
    if size <= 96 {
        show(rt, source, numbers, &mut room[..size]);
    }
}

// The ten forms; one, two, three and four names, two of them descriptions.
fn forms(rt: &impl Print) {
    let s = b"rule a{condition:true rule b{condition:true}";
    line(rt, s, &[22, 26, 1, 1, 1, 67], 48);
    line(rt, s, &[22, 26, 1, 1, 2, 83, 67], 48);
    line(rt, s, &[7, 16, 1, 1, 3, 30, 39, 74], 64);
    line(rt, s, &[22, 26, 1, 1, 4, 82, 57, 81, 67], 64);
    line(rt, s, &[0, 44, 2, 1, 3, 72, 74, 84], 56);
    line(rt, s, &[44, 44, 3, 1, 2, 83, 67], 48);
    line(rt, s, &[5, 6, 4, 1, 0], 24);
    line(rt, s, &[44, 44, 5, 1, 0], 24);
    line(rt, s, &[0, 4, 6, 1, 0], 24);
    line(rt, s, &[0, 4, 7, 1, 0], 24);
    line(rt, s, &[0, 4, 8, 1, 0], 32);
    line(rt, s, &[0, 4, 9, 1, 0, 2], 24);
    line(rt, s, &[0, 4, 10, 1, 0], 48);
}

// A found text of 15 bytes, and one of 16, which the reader gives form 2; characters of more than one byte.
fn found(rt: &impl Print) {
    let s = b"abcdefghijklmnop\xC3\xA9\xF0\x9F\x99\x82";
    line(rt, s, &[0, 15, 1, 1, 1, 74], 48);
    line(rt, s, &[0, 16, 2, 900, 1, 74], 24);
    line(rt, s, &[0, 16, 1, 1, 1, 74], 48);
    line(rt, s, &[16, 22, 4, 1, 0], 19);
}

// Records that do not read: cut short, spans, forms, counts, names, and what is quoted; then two that do, of which the first has numbers behind it that
// are not looked at, and the second a form that quotes nothing.
fn unread(rt: &impl Print) {
    let s = b"a\xC2b";
    line(rt, s, &[], 8);
    line(rt, s, &[0, 1, 4, 1], 8);
    line(rt, s, &[0, 1, 1, 1, 2, 7], 8);
    line(rt, s, &[0, 2, 9, 1, 0], 8);
    line(rt, s, &[1, 0, 4, 1, 0], 8);
    line(rt, s, &[0, 4, 4, 1, 0], 8);
    line(rt, s, &[0, 1, 0, 1, 0], 8);
    line(rt, s, &[0, 1, 11, 1, 0], 8);
    line(rt, s, &[0, 1, 1, 1, 0], 8);
    line(rt, s, &[0, 1, 2, 1, 0], 8);
    line(rt, s, &[3, 3, 3, 1, 0], 8);
    line(rt, s, &[0, 1, 5, 1, 1, 7], 8);
    line(rt, s, &[0, 1, 10, 1, 1, 7], 8);
    line(rt, s, &[0, 1, 1, 1, 1, 85], 8);
    line(rt, s, &[0, 1, 1, 1, 3, 7, 8, 7], 8);
    line(rt, s, &[1, 1, 4, 1, 0], 8);
    line(rt, s, &[0, 2, 4, 1, 0], 8);
    line(rt, s, &[0, 2, 1, 1, 1, 7], 8);
    line(rt, s, &[0, 1, 3, 1, 1, 7], 8);
    line(rt, s, &[2, 3, 4, 1, 0, 99, 99], 16);
    line(rt, s, &[0, 2, 2, 1, 1, 55], 16);
}

// Just enough room, and one byte less; 11 stands before 12.
fn rooms(rt: &impl Print) {
    line(rt, b"x", &[0, 1, 4, 1, 0], 14);
    line(rt, b"x", &[0, 1, 4, 1, 0], 13);
    line(rt, b"x", &[0, 1, 4, 1, 0], 0);
    line(rt, b"x", &[0, 1, 4, 1, 1, 7], 0);
}

fn spot(rt: &impl Print, source: &[u8], at: usize) {
    let spot = messages::spot_of(source, at);
    number(rt, spot.line as u64);
    number(rt, spot.column as u64);
}

// Lines and columns: a line feed stands at the end of its line, and what lies past the end stands there.
fn spots(rt: &impl Print) {
    let s = b"ab\n\nc";
    spot(rt, s, 0);
    spot(rt, s, 2);
    spot(rt, s, 3);
    spot(rt, s, 4);
    spot(rt, s, 5);
    spot(rt, s, 9);
    write(rt, b"\n");
}

fn main(rt: HostRuntime) {
    forms(&rt);
    found(&rt);
    unread(&rt);
    rooms(&rt);
    spots(&rt);
}
