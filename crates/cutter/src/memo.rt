// The failures that are followed at one time. Only where a string, a regexp or a comment may begin are they asked, and only there do they go on to that place:
// all other rows leave the memo as it is.
ghost use Rattle.std.specs.Prelude.{◌≡◌, ℕ, ◌≤◌, List, true, length, drop, None};
ghost use Rattle.tokens.specs.Expr.{longest};
ghost use Rattle.tokens.specs.Modes.{mode, tokens};
ghost use Rattle.tokens.specs.States.{Run};
ghost use Rattle.cutter.specs.Made.{Holds, Stands, Known, Lost};

use tokens::mode::{Mode, Start};
use tokens::runner::{Runner, covered_at, follow, renewed};

// The last string, regexp and block comment that failed in normal mode, and the last comment in hex mode: text such as `/* /* /* ..` would otherwise be
// read to its end again from each place that begins one. They stand at the byte `from` of the source.
#[derive(Clone, Copy)]
pub struct Memo {
    pub quote: Runner,
    pub slash: Runner,
    pub star: Runner,
    pub hex: Runner,
    pub from: usize,
}

// Whether it is known of a place that normal mode matches nothing there, and that hex mode does not.
#[derive(Clone, Copy)]
pub struct Misses {
    pub normal: bool,
    pub hex: bool,
}

impl Misses {
    pub const NONE: Misses = Misses {
        normal: false,
        hex: false,
    };
}

// What the memo tells of a place, and the memo from then on.
#[derive(Drop)]
pub struct Seen {
    pub memo: Memo,
    pub misses: Misses,
}

// What a match that may fail after many bytes begins with: a quote a string, a slash a regexp, a slash and a star a block comment.
#[derive(Clone, Copy)]
enum Opening {
    Quote,
    Slash,
    Star,
}

// Nothing is followed.
pub fn nothing() -> Memo
    ensures { (result.from ≡ 0) × ((s : List ℕ) → Holds result s) }
{
    let idle = Runner { state: 0, skip: 0 };
    Memo {
        quote: idle,
        slash: idle,
        star: idle,
        hex: idle,
        from: 0,
    }
}

fn opening_of(s: &[u8]) -> Option<Opening> {
    match s {
        [b'"', ..] => Some(Opening::Quote),
        [b'/', b'*', ..] => Some(Opening::Star),
        [b'/', ..] => Some(Opening::Slash),
        _ => None,
    }
}

// All that is followed goes on over the first bytes, up to a place of the source.
fn gone_on(s: &[u8], memo: Memo, len: usize, at: usize) -> Memo
    requires { (len ≤ length s.now) × Holds memo s.now }
    ensures { (result.from ≡ at) × Holds result (drop len s.now) }
{
    Memo {
        quote: follow(s, memo.quote, len, Mode::Normal),
        slash: follow(s, memo.slash, len, Mode::Normal),
        star: follow(s, memo.star, len, Mode::Normal),
        hex: follow(s, memo.hex, len, Mode::Hex),
        from: at,
    }
}

// A match that failed here is followed from the start that it had.
fn renewed_from(s: &[u8], old: Runner, fresh: bool, start: Start) -> Runner
    requires { Run (mode start) old s.now × (fresh ≡ true → longest (mode start) (tokens start) s.now ≡ None) }
    ensures { Run (mode start) result s.now }
{
    renewed(s, old, fresh, start.state, start.mode.number())
}

// What failed here is followed from now on.
fn begun(s: &[u8], mut memo: Memo, misses: Misses) -> Memo
    requires { Holds memo s.now × Known misses s.now }
    ensures { (result.from ≡ memo.from) × Holds result s.now }
{
    match opening_of(s) {
        Some(Opening::Quote) => {
            memo.quote = renewed_from(s, memo.quote, misses.normal, Start::NORMAL);
        }
        Some(Opening::Slash) => {
            memo.slash = renewed_from(s, memo.slash, misses.normal, Start::NORMAL);
        }
        Some(Opening::Star) => {
            memo.star = renewed_from(s, memo.star, misses.normal, Start::NORMAL);
            memo.hex = renewed_from(s, memo.hex, misses.hex, Start::HEX);
        }
        None => {}
    }
    memo
}

// Whether the memo tells that normal mode matches nothing here: a failure covers only a match that begins as it did.
fn lost_at(s: &[u8], memo: Memo, opening: Opening) -> bool
    requires { Holds memo s.now }
    ensures { result ≡ true → Lost s.now }
{
    match opening {
        Opening::Quote => covered_at(s, memo.quote, Start::NORMAL),
        Opening::Slash => covered_at(s, memo.slash, Start::NORMAL),
        Opening::Star => covered_at(s, memo.star, Start::NORMAL),
    }
}

// A fresh match is not tried where one that is followed covers it.
fn asked(s: &[u8], memo: Memo, opening: Opening) -> Misses
    requires { Holds memo s.now }
    ensures { Known result s.now }
{
    Misses {
        normal: lost_at(s, memo, opening),
        hex: covered_at(s, memo.hex, Start::HEX),
    }
}

// What the memo tells of a place of the source, once it has gone on to that place.
pub fn looked(source: &[u8], at: usize, memo: Memo) -> Seen
    requires { (at ≤ length source.now) × Stands memo at source.now }
    ensures { Stands result.memo at source.now × Known result.misses (drop at source.now) }
{
    let Some(opening) = opening_of(&source[at..]) else {
        return Seen {
            memo,
            misses: Misses::NONE,
        };
    };
    let memo = gone_on(&source[memo.from..], memo, at - memo.from, at);
    Seen {
        memo,
        misses: asked(&source[at..], memo, opening),
    }
}

// The memo behind a row. Where it does not stand at the row's first byte, the row is none that can fail after many bytes.
pub fn kept(source: &[u8], at: usize, memo: Memo, misses: Misses) -> Memo
    requires { (at ≤ length source.now) × Stands memo at source.now × Known misses (drop at source.now) }
    ensures { Stands result at source.now }
{
    if memo.from != at {
        return memo;
    }
    begun(&source[at..], memo, misses)
}
