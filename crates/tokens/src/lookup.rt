// What stands in the tables of classes and states, by the definitions. No other function reads them.
ghost use Rattle.std.specs.Prelude.{◌≡◌, ◌+◌, ◌*◌, ◌<◌, get_or};
ghost use Rattle.tokens.specs.Classes.{class_in, wide_class};
ghost use Rattle.tokens.specs.Decoded.{flat};
ghost use Rattle.tokens.specs.Expr.{has};
ghost use Rattle.tokens.specs.Table.{end_table, pairs};
ghost use Rattle.tokens.specs.States.{to, ended};
ghost use Rattle.tokens.specs.Modes.{number, entry};

use crate::mode::Mode;
use crate::table::{CLASSES, FINALS, NEXT, PAIRS, WIDES};

// How many classes a state's row of the table has.
pub const COLUMNS: usize = 45;

// Stands for the id of a state in which no row may end.
pub const NONE: u32 = 255;

// The class of a byte in a mode.
pub fn class_of(mode: Mode, b: u8) -> usize
    ensures { result ≡ entry (number mode) b }
{
    CLASSES[mode.number() * 256 + b as usize] as usize
}

// The class of the first range that has the number.
fn class_in(ranges: &[(u32, u32, usize)], x: u32) -> usize
    ensures { result ≡ class_in (flat ranges.now) x }
{
    for (low, high, class) in ranges {
        if *low <= x && x <= *high {
            return *class;
        }
    }
    0
}

// The class of a character past ASCII.
pub fn wide_class_of(x: u32) -> usize
    ensures { result ≡ wide_class x }
{
    class_in(&WIDES, x)
}

// Where a state goes by a class.
pub fn next_of(state: usize, class: usize) -> usize
    requires state_low { state < 88 }
    requires class_low { class < 45 }
    ensures value { result ≡ to state class }
    ensures low { result < 88 }
{
    NEXT[state * COLUMNS + class] as usize
}

// The id of a row that may end in a state.
pub fn end_of(state: usize) -> Option<u32>
    requires { state < 88 }
    ensures { result ≡ ended (get_or end_table state 0) }
{
    let id = FINALS[state] as u32;
    if id == NONE { None } else { Some(id) }
}

// Whether a pair of states is listed: a failed match in the first covers a fresh one in the second.
pub fn is_pair(a: usize, b: usize) -> bool
    requires a_low { a < 88 }
    requires b_low { b < 88 }
    ensures { result ≡ has pairs (a * 88 + b) }
{
    PAIRS.contains(&((a * 88 + b) as u32))
}
