// The longest match of a mode's expressions, by the table of states.
ghost use Rattle.std.specs.Prelude.{◌≡◌, true, length, None};
ghost use Rattle.tokens.specs.Expr.{longest};
ghost use Rattle.tokens.specs.Modes.{mode, tokens};
ghost use Rattle.tokens.specs.States.{Inside};

use crate::glyph::glyph_at;
pub use crate::lookup::{COLUMNS, NONE};
use crate::lookup::{end_of, next_of};
use crate::mode::Start;

// The longest match of a start's expressions: the row's id and its length.
pub fn longest_from(s: &[u8], start: Start) -> Option<(u32, usize)>
    ensures { (result ≡ longest (mode start) (tokens start) s.now) × Inside result (length s.now) }
{
    let mut state = start.state;
    let mut best = None;
    let mut i: usize = 0;
    // Not a `for`: a character may have several bytes.
    while i < s.len() {
        let g = glyph_at(&s[i..], start.mode);
        state = next_of(state, g.class);
        if state == 0 {
            return best;
        }
        i += g.width;
        if let Some(id) = end_of(state) {
            best = Some((id, i));
        }
    }
    best
}

// The same, unless it is known already that nothing matches.
pub fn tried(s: &[u8], known: bool, start: Start) -> Option<(u32, usize)>
    requires { known ≡ true → longest (mode start) (tokens start) s.now ≡ None }
    ensures { (result ≡ longest (mode start) (tokens start) s.now) × Inside result (length s.now) }
{
    if known {
        return None;
    }
    longest_from(s, start)
}
