// Runs the reading of settings text and the adding of editions; `stdout` has what document 02 and docs/DECISIONS.md ask for, written by hand.
#![tactic(auto)]

use console::{print_decimal, write};
use settings::{AddError, ChooseError, Values};

fn field(rt: &impl Print, n: u64) {
    write(rt, b" ");
    print_decimal(rt, n);
}

fn values(fuel: u32, depth: u32, quote: u32, entrypoint: u32) -> Values {
    Values {
        fuel,
        depth,
        quote,
        entrypoint,
    }
}

// The fuel given to the call is always 7.
fn ask(rt: &impl Print, text: &[u8], edition: u32) {
    match settings::choose(text, edition, 7) {
        Err(ChooseError::BadLine(line)) => {
            write(rt, b"19 line");
            field(rt, line as u64);
        }
        Err(ChooseError::Unknown) => write(rt, b"18"),
        Ok(v) => {
            write(rt, b"fuel, depth, quote, entrypoint");
            for n in [v.fuel, v.depth, v.quote, v.entrypoint] {
                field(rt, n as u64);
            }
        }
    }
    write(rt, b"\n");
}

// The room's bytes, zeros as dots.
fn show(rt: &impl Print, room: &[u8]) {
    for b in room {
        write(rt, &[if *b == 0 { b'.' } else { *b }]);
    }
    write(rt, b"|\n");
}

fn grow(rt: &impl Print, text: &[u8], v: Values, room: &mut [u8]) {
    match settings::add(text, v, room) {
        Err(AddError::BadLine(line)) => {
            write(rt, b"19 line");
            field(rt, line as u64);
        }
        Err(AddError::Full) => write(rt, b"12"),
        Ok(count) => {
            write(rt, b"text");
            field(rt, count as u64);
        }
    }
    write(rt, b"\n");
    show(rt, room);
}

fn ask_editions(rt: &impl Print) {
    ask(rt, b"", 1);
    ask(rt, b"", 0);
    ask(rt, b"", 2);
    let two = b"2\t100\t1\t0\n3\t4294967295\t1024\t255\n";
    ask(rt, two, 0);
    ask(rt, two, 1);
    ask(rt, two, 2);
    ask(rt, two, 3);
    ask(rt, two, 4);
    ask(rt, two, 4294967295);
    ask(rt, b"02\t0005\t09\t00\n", 2);
}

fn ask_values(rt: &impl Print) {
    ask(rt, b"2\t5\t0\t15\n", 1);
    ask(rt, b"2\t5\t1025\t15\n", 1);
    ask(rt, b"2\t5\t1024\t256\n", 1);
    ask(rt, b"2\t4294967296\t1024\t15\n", 1);
    ask(rt, b"2\t99999999999999999999999\t1024\t15\n", 1);
    ask(rt, b"2\t5\t4294967297\t15\n", 1);
}

// The fourth value: 0, 1, none behind a line that has one, and what is neither.
fn ask_fourth(rt: &impl Print) {
    ask(rt, b"2\t5\t9\t9\t0\n", 2);
    ask(rt, b"2\t5\t9\t9\t1\n", 2);
    let two = b"2\t5\t9\t9\t0\n3\t6\t8\t7\n";
    ask(rt, two, 2);
    ask(rt, two, 3);
    ask(rt, b"2\t5\t9\t9\t2\n", 2);
    ask(rt, b"2\t5\t9\t9\n3\t6\t8\t7\t2\n", 2);
    ask(rt, b"2\t5\t9\t9\tx\n", 2);
}

fn ask_lines(rt: &impl Print) {
    // Numbers out of turn: a gap, a repeated edition, a first that is not 2.
    ask(rt, b"2\t5\t9\t9\n4\t5\t9\t9\n", 2);
    ask(rt, b"2\t5\t9\t9\n2\t5\t9\t9\n", 2);
    ask(rt, b"1\t5\t9\t9\n", 1);
    ask(rt, b"3\t5\t9\t9\n", 3);
    // A field too many, too few, an empty one.
    ask(rt, b"2\t5\t9\t9\t1\t1\n", 2);
    ask(rt, b"2\t5\t9\n", 2);
    ask(rt, b"2\t\t9\t9\n", 2);
    ask(rt, b"2\t5\t9\t9\t\n", 2);
    // Lines that are not ended, empty, or have other bytes than digits.
    ask(rt, b"2\t5\t9\t9", 2);
    ask(rt, b"2\t5\t9\t9\n3\t5\t9\t9", 2);
    ask(rt, b"\n", 1);
    ask(rt, b"2\t5\t9\t9\n\n", 2);
    ask(rt, b"2\t5\t9\t9\r\n", 2);
    ask(rt, b"2\t+5\t9\t9\n", 2);
    ask(rt, b"2 5 9 9\n", 2);
    // A line that does not read comes before an edition that is not there.
    ask(rt, b"2\t5\t9\t9\n3\t5\t0\t9\n", 0);
    ask(rt, b"2\t5\t9\t9\n3\t5\t0\t9\n", 7);
}

fn add_editions(rt: &impl Print) {
    let mut exact = [120u8; 10];
    grow(rt, b"", values(5, 9, 9, 1), &mut exact);
    let mut short = [120u8; 9];
    grow(rt, b"", values(5, 9, 9, 1), &mut short);
    let one = b"2\t5\t9\t9\n";
    let mut more = [120u8; 35];
    grow(rt, one, values(4294967295, 1024, 255, 0), &mut more);
    let mut all = [120u8; 32];
    grow(rt, one, values(4294967295, 1024, 255, 0), &mut all);
    ask(rt, &all, 2);
    ask(rt, &all, 3);
    let mut less = [120u8; 31];
    grow(rt, one, values(4294967295, 1024, 255, 0), &mut less);
    let mut tenth = [120u8; 76];
    grow(
        rt,
        b"2\t0\t1\t0\n3\t0\t1\t0\n4\t0\t1\t0\n5\t0\t1\t0\n6\t0\t1\t0\n7\t0\t1\t0\n8\t0\t1\t0\n9\t0\t1\t0\n",
        values(1, 1, 0, 1),
        &mut tenth,
    );
}

fn add_refused(rt: &impl Print) {
    let one = b"2\t5\t9\t9\n";
    let mut room = [120u8; 3];
    grow(rt, one, values(5, 0, 9, 1), &mut room);
    grow(rt, one, values(5, 1025, 9, 1), &mut room);
    grow(rt, one, values(5, 9, 256, 1), &mut room);
    grow(rt, one, values(5, 9, 9, 2), &mut room);
    grow(rt, b"2\t5\t9\t9", values(5, 9, 9, 1), &mut room);
    grow(
        rt,
        b"2\t5\t9\t9\n3\t5\t9\t256\n",
        values(5, 9, 9, 1),
        &mut room,
    );
    grow(rt, one, values(5, 9, 9, 1), &mut room);
}

fn main(rt: HostRuntime) {
    ask_editions(&rt);
    ask_values(&rt);
    ask_fourth(&rt);
    ask_lines(&rt);
    add_editions(&rt);
    add_refused(&rt);
}
