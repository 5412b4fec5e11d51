// Runs the cutter at its edges. `stdout` was written by hand from the expressions of the crate's tokenizer and from the rules of docs/CUTTING.md: a line a
// text, with id, start and end of each row; then, for each mode, the id of the row that each of the 256 bytes is when it stands there alone.
#![tactic(auto)]

ghost use Rattle.std.specs.Prelude.{◌≤◌};

use console::{print_decimal, write};
use shapes::refusal::Refusal;

// What the cells hold that are lent: no id.
const LENT: u32 = 777;

fn write_number(rt: &impl Print, n: u32) {
    write(rt, b" ");
    print_decimal(rt, n as u64);
}

fn write_rows(rt: &impl Print, ids: &[u32; 32], starts: &[u32; 32], ends: &[u32; 32], count: u32) {
    for (id, (start, end)) in ids.iter().zip(starts.iter().zip(ends)).take(count as usize) {
        write_number(rt, *id);
        write_number(rt, *start);
        write_number(rt, *end);
        write(rt, b",");
    }
}

fn write_answer(
    rt: &impl Print,
    done: Result<u32, Refusal>,
    ids: &[u32; 32],
    starts: &[u32; 32],
    ends: &[u32; 32],
) {
    match done {
        Ok(count) => write_rows(rt, ids, starts, ends, count),
        Err(refusal) => {
            write(rt, b" refused");
            write_number(rt, u32::from(refusal));
            write_number(rt, ids[0]);
        }
    }
    write(rt, b"\n");
}

fn tell(rt: &impl Print, label: &[u8], source: &[u8]) {
    let mut ids = [LENT; 32];
    let mut starts = [LENT; 32];
    let mut ends = [LENT; 32];
    write(rt, label);
    write(rt, b" :");
    let done = cutter::cut(source, &mut ids, &mut starts, &mut ends);
    write_answer(rt, done, &ids, &starts, &ends);
}

fn show(rt: &impl Print, text: &[u8]) {
    tell(rt, text, text);
}

// The three rows of `a b` into rooms of so many cells.
fn tell_room(rt: &impl Print, first: usize, second: usize, third: usize)
    requires { (first ≤ 32) × (second ≤ 32) × (third ≤ 32) }
{
    let mut ids = [LENT; 32];
    let mut starts = [LENT; 32];
    let mut ends = [LENT; 32];
    write(rt, b"room");
    write_number(rt, first as u32);
    write_number(rt, second as u32);
    write_number(rt, third as u32);
    write(rt, b" :");
    let done = cutter::cut(
        b"a b",
        &mut ids[..first],
        &mut starts[..second],
        &mut ends[..third],
    );
    write_answer(rt, done, &ids, &starts, &ends);
}

fn tell_most(rt: &impl Print, source: &[u8; 1048576]) {
    tell(rt, b"1048576 spaces", source);
}

fn tell_more(rt: &impl Print, source: &[u8; 1048577]) {
    tell(rt, b"1048577 spaces", source);
}

fn long(rt: &impl Print) {
    let most = [b' '; 1048576];
    tell_most(rt, &most);
    let more = [b' '; 1048577];
    tell_more(rt, &more);
}

// The mode that cuts a lone byte.
#[derive(Clone, Copy)]
enum Mode {
    Normal,
    Hex,
    Jump,
}

// The id of the last of so many rows, where that is all there are.
fn lone(rt: &impl Print, source: &[u8], rows: usize) {
    let mut ids = [LENT; 32];
    let mut starts = [LENT; 32];
    let mut ends = [LENT; 32];
    let done = cutter::cut(source, &mut ids, &mut starts, &mut ends);
    let Ok(count) = done else {
        write(rt, b" refused");
        return;
    };
    if count as usize != rows {
        write(rt, b" ?");
        return;
    }
    if 0 < rows && rows <= 32 {
        write_number(rt, ids[rows - 1]);
    }
}

fn lone_byte(rt: &impl Print, b: u8, mode: Mode) {
    match mode {
        Mode::Normal => lone(rt, &[b], 1),
        Mode::Hex => lone(rt, &[b'$', b'a', b'=', b'{', b], 4),
        Mode::Jump => lone(rt, &[b'$', b'a', b'=', b'{', b'[', b], 5),
    }
}

fn lone_bytes(rt: &impl Print, mode: Mode) {
    for b in 0..=255u8 {
        lone_byte(rt, b, mode);
        if b % 16 == 15 {
            write(rt, b"\n");
        }
    }
}

fn numbers(rt: &impl Print) {
    show(rt, b"0x");
    show(rt, b"0x1_F");
    show(rt, b"0o");
    show(rt, b"0o78");
    show(rt, b"1.");
    show(rt, b"1.._");
    show(rt, b"1._");
    show(rt, b"1_KB");
    show(rt, b"2KBs");
    show(rt, b"_1");
}

fn words(rt: &impl Print) {
    show(rt, b"rule");
    show(rt, b"ruled");
    show(rt, b"Rule");
    show(rt, b"base64wide");
    show(rt, b"$");
    show(rt, b"!=");
    show(rt, b"!a=");
    tell(rt, b"a and a digit of another script", b"a\xD9\xA3");
}

fn quoted(rt: &impl Print) {
    show(rt, b"\"\"\"");
    show(rt, b"\"\"\"\"\"\"");
    show(rt, b"\"a\\\"b\"");
    show(rt, b"\"ab cd");
    tell(rt, b"a string over two lines", b"\"a\nb\"");
    tell(rt, b"three quotes over two lines", b"\"\"\"a\nb\"\"\"");
    show(rt, b"/*/");
    show(rt, b"/**/");
    show(rt, b"/*a*/*");
    show(rt, b"//a");
    show(rt, b"/a/isx");
    show(rt, b"/a");
    show(rt, b"/");
}

fn spaces(rt: &impl Print) {
    tell(rt, b"CR LF", b"\r\n");
    tell(rt, b"CR CR LF LF", b"\r\r\n\n");
    tell(rt, b"tab and space", b"\t a");
    tell(rt, b"U+00A0", b"\xC2\xA0");
    tell(rt, b"U+3000", b"\xE3\x80\x80");
    tell(rt, b"ED A0 80", b"\xED\xA0\x80");
    tell(rt, b"U+FFFF", b"\xEF\xBF\xBF");
    tell(rt, b"C3 and a", b"\xC3a");
}

fn modes(rt: &impl Print) {
    show(rt, b"$a={4?}4?");
    show(rt, b"$a /*c*/ = {?? [1-0x2] }");
    show(rt, b"$a={[1_]}");
    show(rt, b"$a={0a[");
    show(rt, b"$a={(~00|12)}");
    show(rt, b"$a=x{00");
    show(rt, b"$ = {rule 00");
    show(rt, b"$a={//c");
    show(rt, b"$={[/**/-][-]00}00");
    show(rt, b"$={-}[1_");
    tell(
        rt,
        b"a comment with an invalid byte in hex mode",
        b"$a={/*\xFF*/",
    );
}

fn main(rt: HostRuntime) {
    show(&rt, b"");
    long(&rt);
    tell_room(&rt, 3, 3, 3);
    tell_room(&rt, 2, 3, 3);
    tell_room(&rt, 3, 2, 3);
    tell_room(&rt, 3, 3, 2);
    numbers(&rt);
    words(&rt);
    quoted(&rt);
    spaces(&rt);
    modes(&rt);
    lone_bytes(&rt, Mode::Normal);
    lone_bytes(&rt, Mode::Hex);
    lone_bytes(&rt, Mode::Jump);
}
