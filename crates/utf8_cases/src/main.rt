// Runs the UTF-8 test; `stdout` has the answers that follow from the Unicode Standard's table: yes or
// no for each vector, and after a no the place of the bad byte; then how many of the 256 bytes may
// stand at a place of a character.
#![tactic(auto)]

ghost use Rattle.std.specs.Prelude.{◌<◌, length};

use console::{print_decimal, write};

fn write_byte(rt: &impl Print, b: u8) {
    write(rt, b" ");
    let _ = print!(rt; "{b:02x}");
}

fn write_bytes(rt: &impl Print, s: &[u8]) {
    for b in s {
        write_byte(rt, *b);
    }
}

fn tell(rt: &impl Print, s: &[u8]) {
    if utf8::valid(s) {
        write(rt, b"yes");
        write_bytes(rt, s);
    } else {
        write(rt, b"no");
        write_bytes(rt, s);
        write(rt, b" at ");
        print_decimal(rt, utf8::bad_byte(s) as u64);
    }
    write(rt, b"\n");
}

// The vectors of n bytes each stand in s one after the other.
fn tell_each(rt: &impl Print, s: &[u8], n: usize)
    requires { 0 < n }
{
    for vector in s.chunks_exact(n) {
        tell(rt, vector);
    }
}

// How many bytes, put at a place of s, leave it whole characters.
fn fitting(s: &mut [u8], at: usize) -> u64
    requires { at < length s.old }
{
    let mut found = 0;
    for b in 0..=255u8 {
        s[at] = b;
        if utf8::valid(s) {
            found += 1;
        }
    }
    found
}

fn count(rt: &impl Print, s: &mut [u8], at: usize)
    requires { at < length s.old }
{
    write(rt, b"at ");
    print_decimal(rt, at as u64);
    write(rt, b" of");
    write_bytes(rt, s);
    write(rt, b": ");
    print_decimal(rt, fitting(s, at));
    write(rt, b"\n");
}

// Each row of the table: the limits of each byte, one below and one above.
fn rows(rt: &impl Print) {
    tell_each(rt, b"\x00\x7F\x80\xBF\xC0\xC1\xC2\xDF\xE0\xE1", 1);
    tell_each(rt, b"\xEC\xED\xEE\xEF\xF0\xF1\xF3\xF4\xF5\xFF", 1);
    tell_each(rt, b"\xC1\x80\xC2\x7F\xC2\x80\xC2\xBF\xC2\xC0", 2);
    tell_each(rt, b"\xDF\x7F\xDF\x80\xDF\xBF\xDF\xC0", 2);
    tell_each(rt, b"\xE0\x9F\x80\xE0\xA0\x80\xE0\xBF\xBF\xE0\xC0\x80", 3);
    tell_each(rt, b"\xE0\xA0\x7F\xE0\xBF\xC0", 3);
    tell_each(rt, b"\xE1\x7F\x80\xE1\x80\x80\xE1\xBF\xBF\xE1\xC0\x80", 3);
    tell_each(rt, b"\xEC\x7F\x80\xEC\x80\x80\xEC\xBF\xBF\xEC\xC0\x80", 3);
    tell_each(rt, b"\xE1\x80\x7F\xEC\xBF\xC0", 3);
    tell_each(rt, b"\xED\x7F\x80\xED\x80\x80\xED\x9F\xBF\xED\xA0\x80", 3);
    tell_each(rt, b"\xED\xBF\xBF\xED\x80\x7F\xED\x9F\xC0", 3);
    tell_each(rt, b"\xEE\x7F\x80\xEE\x80\x80\xEE\xBF\xBF\xEE\xC0\x80", 3);
    tell_each(rt, b"\xEF\x7F\x80\xEF\x80\x80\xEF\xBF\xBF\xEF\xC0\x80", 3);
    tell_each(rt, b"\xEE\x80\x7F\xEF\xBF\xC0", 3);
    tell_each(
        rt,
        b"\xF0\x8F\x80\x80\xF0\x90\x80\x80\xF0\xBF\xBF\xBF\xF0\xC0\x80\x80",
        4,
    );
    tell_each(
        rt,
        b"\xF0\x90\x7F\x80\xF0\xBF\xC0\x80\xF0\x90\x80\x7F\xF0\xBF\xBF\xC0",
        4,
    );
    tell_each(
        rt,
        b"\xF1\x7F\x80\x80\xF1\x80\x80\x80\xF1\xBF\xBF\xBF\xF1\xC0\x80\x80",
        4,
    );
    tell_each(
        rt,
        b"\xF3\x7F\x80\x80\xF3\x80\x80\x80\xF3\xBF\xBF\xBF\xF3\xC0\x80\x80",
        4,
    );
    tell_each(
        rt,
        b"\xF1\x80\x7F\x80\xF3\xBF\xC0\x80\xF1\x80\x80\x7F\xF3\xBF\xBF\xC0",
        4,
    );
    tell_each(
        rt,
        b"\xF4\x7F\x80\x80\xF4\x80\x80\x80\xF4\x8F\xBF\xBF\xF4\x90\x80\x80",
        4,
    );
    tell_each(
        rt,
        b"\xF4\x80\x7F\x80\xF4\x8F\xC0\x80\xF4\x80\x80\x7F\xF4\x8F\xBF\xC0",
        4,
    );
    tell_each(rt, b"\xF4\xBF\xBF\xBF\xF5\x80\x80\x80", 4);
}

// Characters that are cut short, followed by a byte too many, or stand beside others.
fn texts(rt: &impl Print) {
    tell(rt, b"");
    tell_each(rt, b"\xE2\x82\x41\x80\xC2\x41\xE0\xA0\xC0\x80", 2);
    tell_each(rt, b"\xC2\x80\x80\xF0\x90\x80\xE2\x82\x41", 3);
    tell_each(rt, b"\xE1\x80\x80\x80\xC2\x80\xDF\xBF", 4);
    tell(rt, b"a\xC3\xA9\xE2\x82\xAC\xF0\x9F\x98\x80\n");
    tell(rt, b"a\xC3\xA9\xE2\x82\xAC\xF0\x9F\x98");
    tell(rt, b"a\xC3\xE2\x82\xAC");
    tell(rt, b"a\xED\xA0\x80\xED\xB0\x80");
    tell(rt, b"a\x80");
    tell(rt, b"\xF4\x8F\xBF\xBF\xE2\x82");
    tell_each(rt, b"\xE1\x41\xE1\x80\xF0\x90", 2);
    tell_each(rt, b"\xE1\x80\x41\xF0\x90\x41\xF0\x90\xE1", 3);
    tell_each(rt, b"\xC2\x80\x41\xE1\xE1\x80\x80\xC2\xF0\x90\x80\xF0", 4);
    tell(rt, b"\xE2\x82\xAC\xE2\x82");
}

fn counts(rt: &impl Print) {
    count(rt, &mut [0], 0);
    count(rt, &mut [0, 0x80], 0);
    count(rt, &mut [0, 0x80, 0x80], 0);
    count(rt, &mut [0, 0xA0, 0x80], 0);
    count(rt, &mut [0, 0x80, 0x80, 0x80], 0);
    count(rt, &mut [0, 0x90, 0x80, 0x80], 0);
    count(rt, &mut [0xC2, 0], 1);
    count(rt, &mut [0xE0, 0, 0x80], 1);
    count(rt, &mut [0xE1, 0, 0x80], 1);
    count(rt, &mut [0xED, 0, 0x80], 1);
    count(rt, &mut [0xEE, 0, 0x80], 1);
    count(rt, &mut [0xF0, 0, 0x80, 0x80], 1);
    count(rt, &mut [0xF1, 0, 0x80, 0x80], 1);
    count(rt, &mut [0xF4, 0, 0x80, 0x80], 1);
    count(rt, &mut [0xE0, 0xA0, 0], 2);
    count(rt, &mut [0xED, 0x9F, 0], 2);
    count(rt, &mut [0xF0, 0x90, 0, 0x80], 2);
    count(rt, &mut [0xF4, 0x8F, 0, 0x80], 2);
    count(rt, &mut [0xF0, 0x90, 0x80, 0], 3);
    count(rt, &mut [0xF4, 0x8F, 0x80, 0], 3);
}

fn main(rt: HostRuntime) {
    rows(&rt);
    texts(&rt);
    counts(&rt);
}
