// One row after another: a row is cut by what the memo knows, and the memo goes on behind it.
ghost use Rattle.std.specs.Prelude.{◌≡◌, ◌+◌, ◌≤◌, ◌<◌, length, drop};
ghost use Rattle.cutter.specs.Rows.{row};
ghost use Rattle.cutter.specs.Made.{Stands, turn_of};

use crate::memo::{Memo, kept, looked};
use crate::place::Place;
use crate::row::row_at;

// A row, and the memo behind it.
#[derive(Drop)]
pub struct Turn {
    pub memo: Memo,
    pub len: usize,
    pub id: u32,
    pub place: Place,
}

// The next row of the cutting, and what is known behind it.
pub fn next_row(source: &[u8], at: usize, place: Place, memo: Memo) -> Turn
    requires at_in_bounds { at < length source.now }
    requires stands { Stands memo at source.now }
    ensures result_value { (turn_of result ≡ row place (drop at source.now)) × (0 < result.len) × (at + result.len ≤ length source.now) }
    ensures stands_2 { Stands result.memo at source.now }
{
    let seen = looked(source, at, memo);
    let r = row_at(&source[at..], place, seen.misses);
    Turn {
        memo: kept(source, at, seen.memo, r.misses),
        len: r.len,
        id: r.id,
        place: r.place,
    }
}
