// What `of` speaks of: all patterns, or those of a tuple.
ghost use Rattle.std.specs.Prelude.{◌<◌};
ghost use Rattle.kinds.specs.Kinds as k;
ghost use Rattle.definition.specs.Prog.{opt, then, ◌⨟◌, node};
ghost use Rattle.definition.specs.Prog as G;
ghost use Rattle.definition.specs.Grammar.{one, them};
ghost use Rattle.notes.specs.Reading.{SameLists};
ghost use Rattle.parts.specs.Reads.{Asks, Reads};
ghost use Rattle.parts.specs.Parts.{pattern_idents, optionally};

use crate::part::{self, Part};
use kinds::{Kind, set};
use notes::reading::{Given, Lent};
use shapes::mode::Mode;
use steps::state::State;

// THEM_KW / PATTERN_IDENT_TUPLE
pub fn them(mut s: State, d: usize, may: bool, x: &Given<'_>, lent: &mut Lent<'_>) -> State
    requires { Asks x.now s lent.old }
    ensures read { Reads d may them x.now s lent.old result lent.new }
    ensures lists { SameLists lent.old lent.new }
{
    if s.mode.isnt(Mode::FINE) {
        return s;
    }
    let m = s.mark();
    s = s.trivia(&x.rows, lent.events);
    s = s.expect(set::THEM_KW, set::THEM_KW, &x.rows, lent);
    if s.mode.isnt(Mode::FAILED) {
        return s;
    }
    s = s.rewind(m);
    s.mode = Mode::FINE;
    s = pattern_ident_tuple(s, d, true, x, lent);
    if s.mode.isnt(Mode::FAILED) {
        return s;
    }
    s = s.rewind(m);
    s
}

// PATTERN_IDENT_TUPLE <- L_PAREN PATTERN_IDENT ASTERISK? (COMMA PATTERN_IDENT ASTERISK?)* R_PAREN
fn pattern_ident_tuple(
    mut s: State,
    d: usize,
    may: bool,
    x: &Given<'_>,
    lent: &mut Lent<'_>,
) -> State
    requires { Asks x.now s lent.old }
    ensures read { Reads d may (then (node G.PATTERN_IDENT_TUPLE)) x.now s lent.old result lent.new }
    ensures lists { SameLists lent.old lent.new }
{
    if s.mode.isnt(Mode::FINE) {
        return s;
    }
    s = s.trivia(&x.rows, lent.events);
    s = s.begin(d, &x.rows, lent.events);
    let from = s.pos;
    let at = s.ev;
    if d == 0 {
        return s.end(Kind::PatternIdentTuple as u32, from, at, may, x, lent);
    }
    let below = d - 1;
    s = s.expect(set::L_PAREN, set::L_PAREN, &x.rows, lent);
    s = s.expect(set::PATTERN_IDENT, set::PATTERN_IDENT, &x.rows, lent);
    s = maybe(set::ASTERISK, s, below, may, x, lent);
    s = pattern_idents(s, below, may, x, lent);
    s = s.expect(set::R_PAREN, set::R_PAREN, &x.rows, lent);
    s.end(Kind::PatternIdentTuple as u32, from, at, may, x, lent)
}

// (COMMA PATTERN_IDENT ASTERISK?)*
fn pattern_idents(s: State, d: usize, may: bool, x: &Given<'_>, lent: &mut Lent<'_>) -> State
    requires { Asks x.now s lent.old }
    ensures read { Reads d may pattern_idents x.now s lent.old result lent.new }
    ensures lists { SameLists lent.old lent.new }
{
    part::many::<NextIdent>(s, d, may, x, lent)
}

// COMMA PATTERN_IDENT ASTERISK?, as a part that is repeated.
struct NextIdent;

impl Part for NextIdent {
    ghost prog = { one k.COMMA ⨟ one k.PATTERN_IDENT ⨟ opt (one k.ASTERISK) };

    fn read(mut s: State, d: usize, may: bool, x: &Given<'_>, lent: &mut Lent<'_>) -> State {
        s = s.expect(set::COMMA, set::COMMA, &x.rows, lent);
        s = s.expect(set::PATTERN_IDENT, set::PATTERN_IDENT, &x.rows, lent);
        maybe(set::ASTERISK, s, d, may, x, lent)
    }
}

// A row of the set, or none.
pub fn maybe(
    set: usize,
    mut s: State,
    d: usize,
    may: bool,
    x: &Given<'_>,
    lent: &mut Lent<'_>,
) -> State
    requires { Asks x.now s lent.old × (set < 58) }
    ensures read { Reads d may (optionally set) x.now s lent.old result lent.new }
    ensures lists { SameLists lent.old lent.new }
{
    if s.mode.isnt(Mode::FINE) {
        return s;
    }
    let m = s.mark();
    s = s.trivia(&x.rows, lent.events);
    s = s.expect(set, set, &x.rows, lent);
    if s.mode.isnt(Mode::FAILED) {
        return s;
    }
    s = s.rewind(m);
    s.mode = Mode::FINE;
    s
}
