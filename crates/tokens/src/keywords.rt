// The keywords, as the table has them: 12 bytes for each, its length and its letters, and behind them the slots. Only here is the table read; a static of
// texts would hold a pointer and a length for each, and no other function would be shorter for it.
ghost use Rattle.std.specs.Prelude.{◌≡◌, ◌+◌, ◌*◌, ◌<◌, get_or, take, drop};
ghost use Rattle.tokens.specs.Table.{key_table};

use crate::table::KEYS;

// How many bytes of the table a keyword has, and where the slots begin.
const STRIDE: usize = 12;

const SLOTS: usize = 480;

fn key_at(place: usize) -> usize
    requires { place < 608 }
    ensures { result ≡ get_or key_table place 0 }
{
    KEYS[place] as usize
}

// The letters of a keyword, by its number.
pub fn keyword_of(j: usize) -> &'static [u8]
    requires { j < 40 }
    ensures { result.now ≡ take (get_or key_table (j * 12) 0) (drop (j * 12 + 1) key_table) }
{
    let base = j * STRIDE;
    let len = key_at(base);
    &KEYS[base + 1..base + 1 + len]
}

// The keyword in a slot.
pub fn slot_at(place: usize) -> usize
    requires { place < 128 }
    ensures value { result ≡ get_or key_table (480 + place) 0 }
    ensures low { result < 40 }
{
    key_at(SLOTS + place)
}
