// What the programs share: bytes and numbers written to a stream, arguments, files by name, and input as far as a room takes it.
#![tactic(auto)]

ghost use Rattle.std.specs.Prelude.{◌≤◌, ◌∷◌, length, flat_map, decimal, IfErr, IfOk, IfSome, Some};

use std::env::Env;
use std::io::Read;
use std::rt::Files;
use std::{fmt, fs};

// A write that fails is passed over.
pub fn write(to: &impl Print, text: &[u8]) {
    let _ = to.write_all(text);
}

pub fn print_decimal(to: &impl Print, n: u64) {
    let _ = to.print(n);
}

// Numbers, each printed behind a space.
#[derive(Clone, Copy)]
pub struct Numbers<'a>(pub &'a [u32]);

impl fmt::Display for Numbers<'_> {
    ghost output = { λ l. Some (flat_map (λ n. 32 ∷ decimal n) l.0.now) };

    fn fmt<W: fmt::Write>(&self, f: &mut fmt::Formatter<W>) -> fmt::Result {
        for n in self.0 {
            write!(f, " {n}")?;
        }
        Ok(())
    }
}

// How many bytes the argument has, which the room then begins with; 0 where it is missing or too long.
pub fn argument(rt: &impl Env, i: usize, room: &mut [u8]) -> usize
    ensures { result ≤ length room.new }
{
    rt.arg(i, room).unwrap_or(0)
}

// The file, to be read, where it opens. A name that is no UTF-8 text opens none.
pub fn open<R: Files>(rt: &R, name: &[u8]) -> Option<R::File> {
    let name = str::from_utf8(name).ok()?;
    fs::open(rt, name).ok()
}

// A read failed behind so many bytes.
#[derive(Clone, Copy)]
pub struct ReadFailed {
    pub behind: usize,
}

// How many bytes come before the input ends or the room is full.
pub fn read_room(from: &mut impl Read, room: &mut [u8]) -> Result<usize, ReadFailed>
    ensures ok { IfOk result (λ n. n ≤ length room.new) }
    ensures err { IfErr result (λ e. e.behind ≤ length room.new) }
{
    let mut size = 0;
    // Not a `for`: a read brings as many bytes as it will.
    while size < room.len() {
        let Ok(n) = from.read(&mut room[size..]) else {
            return Err(ReadFailed { behind: size });
        };
        if n == 0 {
            break;
        }
        size += n;
    }
    Ok(size)
}

// How many bytes come before the input ends, a read fails or the room is full.
pub fn read_full(from: &mut impl Read, room: &mut [u8]) -> usize
    ensures { result ≤ length room.new }
{
    match read_room(from, room) {
        Ok(size) => size,
        Err(failed) => failed.behind,
    }
}

// How many bytes of the file come before its end or the room is full; none where it cannot be opened or read.
pub fn read_file(rt: &impl Files, name: &[u8], room: &mut [u8]) -> Option<usize>
    ensures { IfSome result (λ n. n ≤ length room.new) }
{
    let mut file = open(rt, name)?;
    read_room(&mut file, room).ok()
}
