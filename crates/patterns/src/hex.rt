// Hex patterns.
ghost use Rattle.definition.specs.Prog.{then, node};
ghost use Rattle.definition.specs.Prog as G;
ghost use Rattle.definition.specs.Grammar.{hex_unit};
ghost use Rattle.notes.specs.Reading.{SameLists};
ghost use Rattle.parts.specs.Reads.{Asks, Reads};
ghost use Rattle.patterns.specs.Parts.{hex_units, hex_choices, hex_jumps, jump_range};

use kinds::{Kind, set};
use notes::reading::{Given, Lent};
use parts::part::{self, Part};
use parts::tuples::maybe;
use shapes::mode::Mode;
use steps::state::State;

// HEX_PATTERN <- L_BRACE HEX_SUB_PATTERN R_BRACE
pub fn hex_pattern(mut s: State, d: usize, may: bool, x: &Given<'_>, lent: &mut Lent<'_>) -> State
    requires { Asks x.now s lent.old }
    ensures read { Reads d may (node G.HEX_PATTERN) x.now s lent.old result lent.new }
    ensures lists { SameLists lent.old lent.new }
{
    s = s.begin(d, &x.rows, lent.events);
    let from = s.pos;
    let at = s.ev;
    if d == 0 {
        return s.end(Kind::HexPattern as u32, from, at, may, x, lent);
    }
    let below = d - 1;
    s = s.expect(set::L_BRACE, set::L_BRACE, &x.rows, lent);
    s = hex_sub_pattern(s, below, may, x, lent);
    s = s.expect(set::R_BRACE, set::R_BRACE, &x.rows, lent);
    s.end(Kind::HexPattern as u32, from, at, may, x, lent)
}

// HEX_SUB_PATTERN <- (HEX_BYTE / HEX_ALTERNATIVE) (HEX_JUMP* (HEX_BYTE / HEX_ALTERNATIVE))*
#[cycle(hexes)]
fn hex_sub_pattern(mut s: State, d: usize, may: bool, x: &Given<'_>, lent: &mut Lent<'_>) -> State
    requires { Asks x.now s lent.old }
    ensures read { Reads d may (then (node G.HEX_SUB_PATTERN)) x.now s lent.old result lent.new }
    ensures lists { SameLists lent.old lent.new }
{
    if s.mode.isnt(Mode::FINE) {
        return s;
    }
    s = s.trivia(&x.rows, lent.events);
    s = s.begin(d, &x.rows, lent.events);
    let from = s.pos;
    let at = s.ev;
    if d == 0 {
        return s.end(Kind::HexSubPattern as u32, from, at, may, x, lent);
    }
    let below = d - 1;
    s = hex_unit(s, below, may, x, lent);
    s = hex_units(s, below, may, x, lent);
    s.end(Kind::HexSubPattern as u32, from, at, may, x, lent)
}

// HEX_BYTE / HEX_ALTERNATIVE
#[cycle(hexes)]
fn hex_unit(mut s: State, d: usize, may: bool, x: &Given<'_>, lent: &mut Lent<'_>) -> State
    requires { Asks x.now s lent.old }
    ensures read { Reads d may hex_unit x.now s lent.old result lent.new }
    ensures lists { SameLists lent.old lent.new }
{
    if s.mode.isnt(Mode::FINE) {
        return s;
    }
    let m = s.mark();
    s = s.trivia(&x.rows, lent.events);
    s = s.expect(set::HEX_BYTE, set::HEX_BYTE, &x.rows, lent);
    if s.mode.isnt(Mode::FAILED) {
        return s;
    }
    s = s.rewind(m);
    s.mode = Mode::FINE;
    s = s.trivia(&x.rows, lent.events);
    s = hex_alternative(s, d, true, x, lent);
    if s.mode.isnt(Mode::FAILED) {
        return s;
    }
    s = s.rewind(m);
    s
}

// (HEX_JUMP* (HEX_BYTE / HEX_ALTERNATIVE))*
#[cycle(hexes)]
fn hex_units(mut s: State, d: usize, may: bool, x: &Given<'_>, lent: &mut Lent<'_>) -> State
    requires { Asks x.now s lent.old }
    ensures read { Reads d may hex_units x.now s lent.old result lent.new }
    ensures lists { SameLists lent.old lent.new }
{
    if s.mode.isnt(Mode::FINE) {
        return s;
    }
    let turns = x.rows.ids.len() - s.pos + 1;
    for turn in 0..turns {
        let m = s.mark();
        s = s.trivia(&x.rows, lent.events);
        s = hex_jumps(s, d, true, x, lent);
        s = hex_unit(s, d, true, x, lent);
        if s.mode.isnt(Mode::FINE) {
            return s.undone(m);
        }
    }
    s
}

// HEX_ALTERNATIVE <- L_PAREN HEX_SUB_PATTERN (PIPE HEX_SUB_PATTERN)* R_PAREN
#[cycle(hexes)]
fn hex_alternative(mut s: State, d: usize, may: bool, x: &Given<'_>, lent: &mut Lent<'_>) -> State
    requires { Asks x.now s lent.old }
    ensures read { Reads d may (node G.HEX_ALTERNATIVE) x.now s lent.old result lent.new }
    ensures lists { SameLists lent.old lent.new }
{
    s = s.begin(d, &x.rows, lent.events);
    let from = s.pos;
    let at = s.ev;
    if d == 0 {
        return s.end(Kind::HexAlternative as u32, from, at, may, x, lent);
    }
    let below = d - 1;
    s = s.expect(set::L_PAREN, set::L_PAREN, &x.rows, lent);
    s = hex_sub_pattern(s, below, may, x, lent);
    s = hex_choices(s, below, may, x, lent);
    s = s.expect(set::R_PAREN, set::R_PAREN, &x.rows, lent);
    s.end(Kind::HexAlternative as u32, from, at, may, x, lent)
}

// (PIPE HEX_SUB_PATTERN)*
#[cycle(hexes)]
fn hex_choices(mut s: State, d: usize, may: bool, x: &Given<'_>, lent: &mut Lent<'_>) -> State
    requires { Asks x.now s lent.old }
    ensures read { Reads d may hex_choices x.now s lent.old result lent.new }
    ensures lists { SameLists lent.old lent.new }
{
    if s.mode.isnt(Mode::FINE) {
        return s;
    }
    let turns = x.rows.ids.len() - s.pos + 1;
    for turn in 0..turns {
        let m = s.mark();
        s = s.trivia(&x.rows, lent.events);
        s = s.expect(set::PIPE, set::PIPE, &x.rows, lent);
        s = hex_sub_pattern(s, d, true, x, lent);
        if s.mode.isnt(Mode::FINE) {
            return s.undone(m);
        }
    }
    s
}

// HEX_JUMP*
fn hex_jumps(s: State, d: usize, may: bool, x: &Given<'_>, lent: &mut Lent<'_>) -> State
    requires { Asks x.now s lent.old }
    ensures read { Reads d may hex_jumps x.now s lent.old result lent.new }
    ensures lists { SameLists lent.old lent.new }
{
    part::many::<HexJump>(s, d, may, x, lent)
}

// HEX_JUMP as a part that is repeated.
struct HexJump;

impl Part for HexJump {
    ghost prog = { node G.HEX_JUMP };

    fn read(s: State, d: usize, may: bool, x: &Given<'_>, lent: &mut Lent<'_>) -> State {
        hex_jump(s, d, may, x, lent)
    }
}

// HEX_JUMP <- L_BRACKET (INTEGER_LIT? HYPHEN INTEGER_LIT? / INTEGER_LIT) R_BRACKET
fn hex_jump(mut s: State, d: usize, may: bool, x: &Given<'_>, lent: &mut Lent<'_>) -> State
    requires { Asks x.now s lent.old }
    ensures read { Reads d may (node G.HEX_JUMP) x.now s lent.old result lent.new }
    ensures lists { SameLists lent.old lent.new }
{
    s = s.begin(d, &x.rows, lent.events);
    let from = s.pos;
    let at = s.ev;
    if d == 0 {
        return s.end(Kind::HexJump as u32, from, at, may, x, lent);
    }
    let below = d - 1;
    s = s.expect(set::L_BRACKET, set::L_BRACKET, &x.rows, lent);
    s = jump_range(s, below, may, x, lent);
    s = s.expect(set::R_BRACKET, set::R_BRACKET, &x.rows, lent);
    s.end(Kind::HexJump as u32, from, at, may, x, lent)
}

// INTEGER_LIT? HYPHEN INTEGER_LIT? / INTEGER_LIT
fn jump_range(mut s: State, d: usize, may: bool, x: &Given<'_>, lent: &mut Lent<'_>) -> State
    requires { Asks x.now s lent.old }
    ensures read { Reads d may jump_range x.now s lent.old result lent.new }
    ensures lists { SameLists lent.old lent.new }
{
    if s.mode.isnt(Mode::FINE) {
        return s;
    }
    let m = s.mark();
    s = s.trivia(&x.rows, lent.events);
    s = maybe(set::INTEGER_LIT, s, d, true, x, lent);
    s = s.expect(set::HYPHEN, set::HYPHEN, &x.rows, lent);
    s = maybe(set::INTEGER_LIT, s, d, true, x, lent);
    if s.mode.isnt(Mode::FAILED) {
        return s;
    }
    s = s.rewind(m);
    s.mode = Mode::FINE;
    s = s.trivia(&x.rows, lent.events);
    s = s.expect(set::INTEGER_LIT, set::INTEGER_LIT, &x.rows, lent);
    if s.mode.isnt(Mode::FAILED) {
        return s;
    }
    s = s.rewind(m);
    s
}
