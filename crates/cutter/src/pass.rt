// Passes over the whole source.
ghost use Rattle.std.specs.Prelude.{◌≡◌, ◌≤◌, leb, length};
ghost use Rattle.cutter.specs.Rows.{cutting};
ghost use Rattle.cutter.specs.Made.{Room, Filled};

use crate::memo::nothing;
use crate::place::Place;
use crate::turn::next_row;

// Neither pass is a `for` over the bytes: a row may have many, and the next row begins where it ends.

// How many rows the source has.
fn count(source: &[u8]) -> usize
    ensures { (result ≡ length (cutting source.now)) × (result ≤ length source.now) }
{
    let mut place = Place::Elsewhere;
    let mut memo = nothing();
    let mut at: usize = 0;
    let mut n: usize = 0;
    while at < source.len() {
        let r = next_row(source, at, place, memo);
        place = r.place;
        memo = r.memo;
        at += r.len;
        n += 1;
    }
    n
}

// Whether the rows fit into the room. There is at most one row a byte: only where there is less room than bytes do they have to be counted.
pub fn fits(source: &[u8], room: usize) -> bool
    ensures { result ≡ leb (length (cutting source.now)) room }
{
    source.len() <= room || count(source) <= room
}

// Writes the rows, for which there is room, and answers how many they are.
pub fn fill(source: &[u8], ids: &mut [u32], starts: &mut [u32], ends: &mut [u32]) -> usize
    requires { (length source.now ≤ 1048576) × Room source.now ids.old starts.old ends.old }
    ensures { (result ≡ length (cutting source.now)) × (result ≤ length source.now)
        × Filled source.now ids.old starts.old ends.old
        ids.new starts.new ends.new }
{
    let mut place = Place::Elsewhere;
    let mut memo = nothing();
    let mut at: usize = 0;
    let mut n: usize = 0;
    while at < source.len() {
        let r = next_row(source, at, place, memo);
        place = r.place;
        memo = r.memo;
        ids[n] = r.id;
        starts[n] = at as u32;
        at += r.len;
        ends[n] = at as u32;
        n += 1;
    }
    n
}
