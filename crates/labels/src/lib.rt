// What tells of a rule and is not searched for: its modifiers, its tags and its meta. What the functions are handed is told in crate `parts`.
#![tactic(auto)]

ghost use Rattle.kinds.specs.Kinds as k;
ghost use Rattle.definition.specs.Prog.{node};
ghost use Rattle.definition.specs.Prog as G;
ghost use Rattle.definition.specs.Grammar.{grammar, one};
ghost use Rattle.notes.specs.Reading.{SameLists};
ghost use Rattle.parts.specs.Reads.{Asks, Reads};
ghost use Rattle.labels.specs.Parts.{any_rule_mods, tags, idents, metas, meta_defs, meta_value};

use kinds::{Kind, set};
use notes::reading::{Given, Lent};
use parts::part::{self, Part};
use parts::tuples::maybe;
use shapes::mode::Mode;
use steps::state::State;

// RULE_MODS?
pub fn any_rule_mods(s: State, d: usize, may: bool, x: &Given<'_>, lent: &mut Lent<'_>) -> State
    requires { Asks x.now s lent.old }
    ensures read { Reads d may any_rule_mods x.now s lent.old result lent.new }
    ensures lists { SameLists lent.old lent.new }
{
    part::opt::<RuleMods>(s, d, may, x, lent)
}

// RULE_MODS as a part that may be left out.
struct RuleMods;

impl Part for RuleMods {
    ghost prog = { node G.RULE_MODS };

    fn read(s: State, d: usize, may: bool, x: &Given<'_>, lent: &mut Lent<'_>) -> State {
        rule_mods(s, d, may, x, lent)
    }
}

// RULE_MODS <- PRIVATE_KW GLOBAL_KW? / GLOBAL_KW PRIVATE_KW?
fn rule_mods(mut s: State, d: usize, may: bool, x: &Given<'_>, lent: &mut Lent<'_>) -> State
    requires { Asks x.now s lent.old }
    ensures read { Reads d may (node G.RULE_MODS) x.now s lent.old result lent.new }
    ensures lists { SameLists lent.old lent.new }
{
    s = s.begin(d, &x.rows, lent.events);
    let from = s.pos;
    let at = s.ev;
    if d == 0 {
        return s.end(Kind::RuleMods as u32, from, at, may, x, lent);
    }
    let below = d - 1;
    s = modifiers(s, below, may, x, lent);
    s.end(Kind::RuleMods as u32, from, at, may, x, lent)
}

// The alternatives of RULE_MODS.
fn modifiers(mut s: State, d: usize, may: bool, x: &Given<'_>, lent: &mut Lent<'_>) -> State
    requires { Asks x.now s lent.old }
    ensures read { Reads d may (grammar x.now.entrypoint G.RULE_MODS) x.now s lent.old result lent.new }
    ensures lists { SameLists lent.old lent.new }
{
    if s.mode.isnt(Mode::FINE) {
        return s;
    }
    let m = s.mark();
    s = s.trivia(&x.rows, lent.events);
    s = s.expect(set::PRIVATE_KW, set::PRIVATE_KW, &x.rows, lent);
    s = maybe(set::GLOBAL_KW, s, d, true, x, lent);
    if s.mode.isnt(Mode::FAILED) {
        return s;
    }
    s = s.rewind(m);
    s.mode = Mode::FINE;
    s = s.trivia(&x.rows, lent.events);
    s = s.expect(set::GLOBAL_KW, set::GLOBAL_KW, &x.rows, lent);
    s = maybe(set::PRIVATE_KW, s, d, true, x, lent);
    if s.mode.isnt(Mode::FAILED) {
        return s;
    }
    s = s.rewind(m);
    s
}

// if COLON (RULE_TAGS recover L_BRACE)
pub fn tags(mut s: State, d: usize, may: bool, x: &Given<'_>, lent: &mut Lent<'_>) -> State
    requires { Asks x.now s lent.old }
    ensures read { Reads d may tags x.now s lent.old result lent.new }
    ensures lists { SameLists lent.old lent.new }
{
    if !s.sees(set::COLON, &x.rows) {
        s.pass(set::COLON, &x.rows, &mut lent.notes);
        return s;
    }
    s = s.trivia(&x.rows, lent.events);
    s = rule_tags(s, d, may, x, lent);
    s = s.recover(d, may, set::L_BRACE, x, lent);
    s
}

// RULE_TAGS <- COLON IDENT IDENT*
fn rule_tags(mut s: State, d: usize, may: bool, x: &Given<'_>, lent: &mut Lent<'_>) -> State
    requires { Asks x.now s lent.old }
    ensures read { Reads d may (node G.RULE_TAGS) x.now s lent.old result lent.new }
    ensures lists { SameLists lent.old lent.new }
{
    s = s.begin(d, &x.rows, lent.events);
    let from = s.pos;
    let at = s.ev;
    if d == 0 {
        return s.end(Kind::RuleTags as u32, from, at, may, x, lent);
    }
    let below = d - 1;
    s = s.expect(set::COLON, set::COLON, &x.rows, lent);
    s = idents(s, below, may, x, lent);
    s.end(Kind::RuleTags as u32, from, at, may, x, lent)
}

// IDENT IDENT*
fn idents(s: State, d: usize, may: bool, x: &Given<'_>, lent: &mut Lent<'_>) -> State
    requires { Asks x.now s lent.old }
    ensures read { Reads d may idents x.now s lent.old result lent.new }
    ensures lists { SameLists lent.old lent.new }
{
    part::some::<Ident>(s, d, may, x, lent)
}

// IDENT as a part that is repeated.
struct Ident;

impl Part for Ident {
    ghost prog = { one k.IDENT };

    fn read(s: State, d: usize, may: bool, x: &Given<'_>, lent: &mut Lent<'_>) -> State {
        s.expect(set::IDENT, set::IDENT, &x.rows, lent)
    }
}

// if META_KW (META_BLK recover (STRINGS_KW | CONDITION_KW))
pub fn metas(mut s: State, d: usize, may: bool, x: &Given<'_>, lent: &mut Lent<'_>) -> State
    requires { Asks x.now s lent.old }
    ensures read { Reads d may metas x.now s lent.old result lent.new }
    ensures lists { SameLists lent.old lent.new }
{
    if !s.sees(set::META_KW, &x.rows) {
        s.pass(set::META_KW, &x.rows, &mut lent.notes);
        return s;
    }
    s = s.trivia(&x.rows, lent.events);
    s = meta_blk(s, d, may, x, lent);
    s = s.recover(d, may, set::STRINGS_OR_CONDITION, x, lent);
    s
}

// META_BLK <- META_KW COLON META_DEF META_DEF*
fn meta_blk(mut s: State, d: usize, may: bool, x: &Given<'_>, lent: &mut Lent<'_>) -> State
    requires { Asks x.now s lent.old }
    ensures read { Reads d may (node G.META_BLK) x.now s lent.old result lent.new }
    ensures lists { SameLists lent.old lent.new }
{
    s = s.begin(d, &x.rows, lent.events);
    let from = s.pos;
    let at = s.ev;
    if d == 0 {
        return s.end(Kind::MetaBlk as u32, from, at, may, x, lent);
    }
    let below = d - 1;
    s = s.expect(set::META_KW, set::META_KW, &x.rows, lent);
    s = s.expect(set::COLON, set::COLON, &x.rows, lent);
    s = meta_defs(s, below, may, x, lent);
    s.end(Kind::MetaBlk as u32, from, at, may, x, lent)
}

// META_DEF META_DEF*
fn meta_defs(s: State, d: usize, may: bool, x: &Given<'_>, lent: &mut Lent<'_>) -> State
    requires { Asks x.now s lent.old }
    ensures read { Reads d may meta_defs x.now s lent.old result lent.new }
    ensures lists { SameLists lent.old lent.new }
{
    part::some::<MetaDef>(s, d, may, x, lent)
}

// META_DEF as a part that is repeated.
struct MetaDef;

impl Part for MetaDef {
    ghost prog = { node G.META_DEF };

    fn read(s: State, d: usize, may: bool, x: &Given<'_>, lent: &mut Lent<'_>) -> State {
        meta_def(s, d, may, x, lent)
    }
}

// META_DEF <- IDENT EQUAL (MINUS? (INTEGER_LIT | FLOAT_LIT) / (STRING_LIT | TRUE_KW | FALSE_KW))
fn meta_def(mut s: State, d: usize, may: bool, x: &Given<'_>, lent: &mut Lent<'_>) -> State
    requires { Asks x.now s lent.old }
    ensures read { Reads d may (node G.META_DEF) x.now s lent.old result lent.new }
    ensures lists { SameLists lent.old lent.new }
{
    s = s.begin(d, &x.rows, lent.events);
    let from = s.pos;
    let at = s.ev;
    if d == 0 {
        return s.end(Kind::MetaDef as u32, from, at, may, x, lent);
    }
    let below = d - 1;
    s = s.expect(set::IDENT, set::IDENT, &x.rows, lent);
    s = s.expect(set::EQUAL, set::EQUAL, &x.rows, lent);
    s = meta_value(s, below, may, x, lent);
    s.end(Kind::MetaDef as u32, from, at, may, x, lent)
}

// MINUS? (INTEGER_LIT | FLOAT_LIT) / (STRING_LIT | TRUE_KW | FALSE_KW)
fn meta_value(mut s: State, d: usize, may: bool, x: &Given<'_>, lent: &mut Lent<'_>) -> State
    requires { Asks x.now s lent.old }
    ensures read { Reads d may meta_value x.now s lent.old result lent.new }
    ensures lists { SameLists lent.old lent.new }
{
    if s.mode.isnt(Mode::FINE) {
        return s;
    }
    let m = s.mark();
    s = s.trivia(&x.rows, lent.events);
    s = maybe(set::MINUS, s, d, true, x, lent);
    s = s.expect(set::NUMBER, set::NUMBER, &x.rows, lent);
    if s.mode.isnt(Mode::FAILED) {
        return s;
    }
    s = s.rewind(m);
    s.mode = Mode::FINE;
    s = s.trivia(&x.rows, lent.events);
    s = s.expect(set::META_VALUE, set::META_VALUE, &x.rows, lent);
    if s.mode.isnt(Mode::FAILED) {
        return s;
    }
    s = s.rewind(m);
    s
}
