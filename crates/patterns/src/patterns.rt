// Patterns and their modifiers.
ghost use Rattle.definition.specs.Prog.{node};
ghost use Rattle.definition.specs.Prog as G;
ghost use Rattle.definition.specs.Grammar.{grammar};
ghost use Rattle.notes.specs.Reading.{SameLists};
ghost use Rattle.parts.specs.Reads.{Asks, Reads};
ghost use Rattle.patterns.specs.Parts.{pattern_defs, pattern_value, any_mods, some_mods, alphabet, xor_range, xor_end};

use crate::hex::hex_pattern;
use kinds::{Kind, set};
use notes::reading::{Given, Lent};
use parts::part::{self, Part};
use shapes::mode::Mode;
use steps::state::State;

// The code of the name "pattern modifier".
const MODIFIER: usize = 57;

// PATTERNS_BLK <- STRINGS_KW COLON PATTERN_DEF PATTERN_DEF*
pub fn patterns_blk(mut s: State, d: usize, may: bool, x: &Given<'_>, lent: &mut Lent<'_>) -> State
    requires { Asks x.now s lent.old }
    ensures read { Reads d may (node G.PATTERNS_BLK) x.now s lent.old result lent.new }
    ensures lists { SameLists lent.old lent.new }
{
    s = s.begin(d, &x.rows, lent.events);
    let from = s.pos;
    let at = s.ev;
    if d == 0 {
        return s.end(Kind::PatternsBlk as u32, from, at, may, x, lent);
    }
    let below = d - 1;
    s = s.expect(set::STRINGS_KW, set::STRINGS_KW, &x.rows, lent);
    s = s.expect(set::COLON, set::COLON, &x.rows, lent);
    s = pattern_defs(s, below, may, x, lent);
    s.end(Kind::PatternsBlk as u32, from, at, may, x, lent)
}

// PATTERN_DEF PATTERN_DEF*
fn pattern_defs(s: State, d: usize, may: bool, x: &Given<'_>, lent: &mut Lent<'_>) -> State
    requires { Asks x.now s lent.old }
    ensures read { Reads d may pattern_defs x.now s lent.old result lent.new }
    ensures lists { SameLists lent.old lent.new }
{
    part::some::<PatternDef>(s, d, may, x, lent)
}

// PATTERN_DEF as a part that is repeated.
struct PatternDef;

impl Part for PatternDef {
    ghost prog = { node G.PATTERN_DEF };

    fn read(s: State, d: usize, may: bool, x: &Given<'_>, lent: &mut Lent<'_>) -> State {
        pattern_def(s, d, may, x, lent)
    }
}

// PATTERN_DEF <- PATTERN_IDENT EQUAL (STRING_LIT / REGEXP / HEX_PATTERN) PATTERN_MODS?
fn pattern_def(mut s: State, d: usize, may: bool, x: &Given<'_>, lent: &mut Lent<'_>) -> State
    requires { Asks x.now s lent.old }
    ensures read { Reads d may (node G.PATTERN_DEF) x.now s lent.old result lent.new }
    ensures lists { SameLists lent.old lent.new }
{
    s = s.begin(d, &x.rows, lent.events);
    let from = s.pos;
    let at = s.ev;
    if d == 0 {
        return s.end(Kind::PatternDef as u32, from, at, may, x, lent);
    }
    let below = d - 1;
    s = s.expect(set::PATTERN_IDENT, set::PATTERN_IDENT, &x.rows, lent);
    s = s.expect(set::EQUAL, set::EQUAL, &x.rows, lent);
    s = pattern_value(s, below, may, x, lent);
    s = any_mods(s, below, may, x, lent);
    s.end(Kind::PatternDef as u32, from, at, may, x, lent)
}

// STRING_LIT / REGEXP / HEX_PATTERN
fn pattern_value(mut s: State, d: usize, may: bool, x: &Given<'_>, lent: &mut Lent<'_>) -> State
    requires { Asks x.now s lent.old }
    ensures read { Reads d may pattern_value x.now s lent.old result lent.new }
    ensures lists { SameLists lent.old lent.new }
{
    if s.mode.isnt(Mode::FINE) {
        return s;
    }
    let m = s.mark();
    s = s.trivia(&x.rows, lent.events);
    s = s.expect(set::STRING_LIT, set::STRING_LIT, &x.rows, lent);
    if s.mode.isnt(Mode::FAILED) {
        return s;
    }
    s = s.rewind(m);
    s.mode = Mode::FINE;
    s = s.trivia(&x.rows, lent.events);
    s = s.expect(set::REGEXP, set::REGEXP, &x.rows, lent);
    if s.mode.isnt(Mode::FAILED) {
        return s;
    }
    s = s.rewind(m);
    s.mode = Mode::FINE;
    s = s.trivia(&x.rows, lent.events);
    s = hex_pattern(s, d, true, x, lent);
    if s.mode.isnt(Mode::FAILED) {
        return s;
    }
    s = s.rewind(m);
    s
}

// PATTERN_MODS?
fn any_mods(s: State, d: usize, may: bool, x: &Given<'_>, lent: &mut Lent<'_>) -> State
    requires { Asks x.now s lent.old }
    ensures read { Reads d may any_mods x.now s lent.old result lent.new }
    ensures lists { SameLists lent.old lent.new }
{
    part::opt::<PatternMods>(s, d, may, x, lent)
}

// PATTERN_MODS as a part that may be left out.
struct PatternMods;

impl Part for PatternMods {
    ghost prog = { node G.PATTERN_MODS };

    fn read(s: State, d: usize, may: bool, x: &Given<'_>, lent: &mut Lent<'_>) -> State {
        pattern_mods(s, d, may, x, lent)
    }
}

// PATTERN_MODS <- PATTERN_MOD PATTERN_MOD*
fn pattern_mods(mut s: State, d: usize, may: bool, x: &Given<'_>, lent: &mut Lent<'_>) -> State
    requires { Asks x.now s lent.old }
    ensures read { Reads d may (node G.PATTERN_MODS) x.now s lent.old result lent.new }
    ensures lists { SameLists lent.old lent.new }
{
    s = s.begin(d, &x.rows, lent.events);
    let from = s.pos;
    let at = s.ev;
    if d == 0 {
        return s.end(Kind::PatternMods as u32, from, at, may, x, lent);
    }
    let below = d - 1;
    s = some_mods(s, below, may, x, lent);
    s.end(Kind::PatternMods as u32, from, at, may, x, lent)
}

// PATTERN_MOD PATTERN_MOD*
fn some_mods(s: State, d: usize, may: bool, x: &Given<'_>, lent: &mut Lent<'_>) -> State
    requires { Asks x.now s lent.old }
    ensures read { Reads d may some_mods x.now s lent.old result lent.new }
    ensures lists { SameLists lent.old lent.new }
{
    part::some::<PatternMod>(s, d, may, x, lent)
}

// PATTERN_MOD as a part that is repeated.
struct PatternMod;

impl Part for PatternMod {
    ghost prog = { node G.PATTERN_MOD };

    fn read(s: State, d: usize, may: bool, x: &Given<'_>, lent: &mut Lent<'_>) -> State {
        pattern_mod(s, d, may, x, lent)
    }
}

// PATTERN_MOD <- (ASCII_KW | WIDE_KW | NOCASE_KW | PRIVATE_KW | FULLWORD_KW) / (BASE64_KW | BASE64WIDE_KW) if L_PAREN (L_PAREN (STRING_LIT R_PAREN)) /
// XOR_KW if L_PAREN (L_PAREN (INTEGER_LIT if HYPHEN (HYPHEN INTEGER_LIT) R_PAREN))
fn pattern_mod(mut s: State, d: usize, may: bool, x: &Given<'_>, lent: &mut Lent<'_>) -> State
    requires { Asks x.now s lent.old }
    ensures read { Reads d may (node G.PATTERN_MOD) x.now s lent.old result lent.new }
    ensures lists { SameLists lent.old lent.new }
{
    s = s.begin(d, &x.rows, lent.events);
    let from = s.pos;
    let at = s.ev;
    if d == 0 {
        return s.end(Kind::PatternMod as u32, from, at, may, x, lent);
    }
    let below = d - 1;
    s = modifier(s, below, may, x, lent);
    s.end(Kind::PatternMod as u32, from, at, may, x, lent)
}

// The alternatives of PATTERN_MOD.
fn modifier(mut s: State, d: usize, may: bool, x: &Given<'_>, lent: &mut Lent<'_>) -> State
    requires { Asks x.now s lent.old }
    ensures read { Reads d may (grammar x.now.entrypoint G.PATTERN_MOD) x.now s lent.old result lent.new }
    ensures lists { SameLists lent.old lent.new }
{
    if s.mode.isnt(Mode::FINE) {
        return s;
    }
    let m = s.mark();
    s = s.trivia(&x.rows, lent.events);
    s = s.expect(set::PLAIN_MODIFIER, MODIFIER, &x.rows, lent);
    if s.mode.isnt(Mode::FAILED) {
        return s;
    }
    s = s.rewind(m);
    s.mode = Mode::FINE;
    s = s.trivia(&x.rows, lent.events);
    s = s.expect(set::BASE64, MODIFIER, &x.rows, lent);
    s = alphabet(s, d, true, x, lent);
    if s.mode.isnt(Mode::FAILED) {
        return s;
    }
    s = s.rewind(m);
    s.mode = Mode::FINE;
    s = s.trivia(&x.rows, lent.events);
    s = s.expect(set::XOR_KW, MODIFIER, &x.rows, lent);
    s = xor_range(s, d, true, x, lent);
    if s.mode.isnt(Mode::FAILED) {
        return s;
    }
    s = s.rewind(m);
    s
}

// if L_PAREN (L_PAREN (STRING_LIT R_PAREN))
fn alphabet(mut s: State, d: usize, may: bool, x: &Given<'_>, lent: &mut Lent<'_>) -> State
    requires { Asks x.now s lent.old }
    ensures read { Reads d may alphabet x.now s lent.old result lent.new }
    ensures lists { SameLists lent.old lent.new }
{
    if !s.sees(set::L_PAREN, &x.rows) {
        s.pass(set::L_PAREN, &x.rows, &mut lent.notes);
        return s;
    }
    s = s.trivia(&x.rows, lent.events);
    s = s.expect(set::L_PAREN, set::L_PAREN, &x.rows, lent);
    if s.mode.isnt(Mode::FINE) {
        return s;
    }
    s = s.trivia(&x.rows, lent.events);
    s = s.expect(set::STRING_LIT, set::STRING_LIT, &x.rows, lent);
    s = s.expect(set::R_PAREN, set::R_PAREN, &x.rows, lent);
    s
}

// if L_PAREN (L_PAREN (INTEGER_LIT if HYPHEN (HYPHEN INTEGER_LIT) R_PAREN))
fn xor_range(mut s: State, d: usize, may: bool, x: &Given<'_>, lent: &mut Lent<'_>) -> State
    requires { Asks x.now s lent.old }
    ensures read { Reads d may xor_range x.now s lent.old result lent.new }
    ensures lists { SameLists lent.old lent.new }
{
    if !s.sees(set::L_PAREN, &x.rows) {
        s.pass(set::L_PAREN, &x.rows, &mut lent.notes);
        return s;
    }
    s = s.trivia(&x.rows, lent.events);
    s = s.expect(set::L_PAREN, set::L_PAREN, &x.rows, lent);
    if s.mode.isnt(Mode::FINE) {
        return s;
    }
    s = s.trivia(&x.rows, lent.events);
    s = s.expect(set::INTEGER_LIT, set::INTEGER_LIT, &x.rows, lent);
    s = xor_end(s, d, may, x, lent);
    s = s.expect(set::R_PAREN, set::R_PAREN, &x.rows, lent);
    s
}

// if HYPHEN (HYPHEN INTEGER_LIT)
fn xor_end(mut s: State, d: usize, may: bool, x: &Given<'_>, lent: &mut Lent<'_>) -> State
    requires { Asks x.now s lent.old }
    ensures read { Reads d may xor_end x.now s lent.old result lent.new }
    ensures lists { SameLists lent.old lent.new }
{
    if !s.sees(set::HYPHEN, &x.rows) {
        s.pass(set::HYPHEN, &x.rows, &mut lent.notes);
        return s;
    }
    s = s.trivia(&x.rows, lent.events);
    s = s.expect(set::HYPHEN, set::HYPHEN, &x.rows, lent);
    if s.mode.isnt(Mode::FINE) {
        return s;
    }
    s = s.trivia(&x.rows, lent.events);
    s = s.expect(set::INTEGER_LIT, set::INTEGER_LIT, &x.rows, lent);
    s
}
