// A match that failed, followed on, so that the same failure is not tried again from each later place.
ghost use Rattle.std.specs.Prelude.{◌≡◌, ◌≤◌, ◌<◌, true, length, drop, None};
ghost use Rattle.tokens.specs.Expr.{longest};
ghost use Rattle.tokens.specs.Modes.{number, mode, tokens};
ghost use Rattle.tokens.specs.States.{label, Run, quiet, covers};

use crate::glyph::glyph_at;
use crate::lookup::{end_of, is_pair, next_of};
use crate::mode::{Mode, Start};

// A match that failed, followed on: behind `skip` bytes its state ends no row. State 0 is one of the table, which nothing more is matched from.
#[derive(Clone, Copy)]
pub struct Runner {
    pub state: usize,
    pub skip: usize,
}

// The next state, or 0 where a row may end.
fn quietly(state: usize, class: usize) -> usize
    requires { (state < 88) × (class < 45) }
    ensures { (result ≡ quiet state class) × (result < 88) }
{
    let next = next_of(state, class);
    match end_of(next) {
        Some(_) => 0,
        None => next,
    }
}

// Whether a state that ends no row covers another: then that one ends none either.
fn covering(a: usize, b: usize) -> bool
    requires { (a < 88) × (b < 88) }
    ensures { result ≡ covers a b }
{
    a == b || is_pair(a, b)
}

// Whether the match that is followed covers a fresh one, after two characters of both.
pub fn covered_at(s: &[u8], old: Runner, start: Start) -> bool
    requires { Run (mode start) old s.now }
    ensures { result ≡ true → longest (mode start) (tokens start) s.now ≡ None }
{
    if old.state == 0 || old.skip != 0 || s.len() == 0 {
        return false;
    }
    let g = glyph_at(s, start.mode);
    let a = quietly(old.state, g.class);
    let b = quietly(start.state, g.class);
    if b == 0 || s.len() <= g.width {
        return false;
    }
    let h = glyph_at(&s[g.width..], start.mode);
    let c = quietly(a, h.class);
    let d = quietly(b, h.class);
    d != 0 && covering(c, d)
}

// Follows a match over the bytes of a row.
pub fn follow(s: &[u8], old: Runner, len: usize, mode: Mode) -> Runner
    requires { (len ≤ length s.now) × Run (number mode) old s.now }
    ensures { Run (number mode) result (drop len s.now) }
{
    if old.state == 0 {
        return Runner { state: 0, skip: 0 };
    }
    let mut state = old.state;
    let mut at = old.skip;
    // Not a `for`: a character may have several bytes.
    while at < len {
        let g = glyph_at(&s[at..], mode);
        state = quietly(state, g.class);
        at += g.width;
    }
    Runner {
        state,
        skip: at - len,
    }
}

// A match that failed here is followed from now on.
pub fn renewed(s: &[u8], old: Runner, fresh: bool, start: usize, mode: usize) -> Runner
    requires { (start < 88) × Run mode old s.now × (fresh ≡ true → longest mode (label start) s.now ≡ None) }
    ensures { Run mode result s.now }
{
    if fresh {
        return Runner {
            state: start,
            skip: 0,
        };
    }
    old
}
