// Rules, and an item of a file.
ghost use Rattle.std.specs.Prelude.{◌≡◌};
ghost use Rattle.definition.specs.Prog.{node};
ghost use Rattle.definition.specs.Prog as G;
ghost use Rattle.definition.specs.Run as P;
ghost use Rattle.notes.specs.Did.{Did};
ghost use Rattle.steps.specs.Steps.{whole};
ghost use Rattle.definition.specs.Grammar.{item_of};
ghost use Rattle.notes.specs.Reading.{source_of, bufs_of, SameLists};
ghost use Rattle.parts.specs.Reads.{Asks, Reads};
ghost use Rattle.grammar.specs.Parts.{reach, head, sections, patterns, condition, boolean};

use expr::bool_expr;
use kinds::{Kind, set};
use labels::{any_rule_mods, metas, tags};
use notes::reading::{Given, Lent};
use patterns::patterns::patterns_blk;
use shapes::mode::Mode;
use statements::{import_stmt, include_stmt};
use steps::state::State;

// RULE_DECL <- RULE_MODS? RULE_KW IDENT if COLON (RULE_TAGS recover L_BRACE) L_BRACE if META_KW (META_BLK recover (STRINGS_KW | CONDITION_KW)) if
// STRINGS_KW (PATTERNS_BLK recover CONDITION_KW) (CONDITION_BLK recover R_BRACE) R_BRACE
fn rule_decl(mut s: State, d: usize, may: bool, x: &Given<'_>, lent: &mut Lent<'_>) -> State
    requires { Asks x.now s lent.old }
    ensures read { Reads d may (node G.RULE_DECL) x.now s lent.old result lent.new }
    ensures lists { SameLists lent.old lent.new }
{
    s = s.begin(d, &x.rows, lent.events);
    let from = s.pos;
    let at = s.ev;
    if d == 0 {
        return s.end(Kind::RuleDecl as u32, from, at, may, x, lent);
    }
    let below = d - 1;
    s = head(s, below, may, x, lent);
    s = sections(s, below, may, x, lent);
    s.end(Kind::RuleDecl as u32, from, at, may, x, lent)
}

// RULE_MODS? RULE_KW IDENT if COLON (RULE_TAGS recover L_BRACE) L_BRACE
fn head(mut s: State, d: usize, may: bool, x: &Given<'_>, lent: &mut Lent<'_>) -> State
    requires { Asks x.now s lent.old }
    ensures read { Reads d may head x.now s lent.old result lent.new }
    ensures lists { SameLists lent.old lent.new }
{
    s = any_rule_mods(s, d, may, x, lent);
    s = s.expect(set::RULE_KW, set::RULE_KW, &x.rows, lent);
    s = s.expect(set::IDENT, set::IDENT, &x.rows, lent);
    s = tags(s, d, may, x, lent);
    s = s.expect(set::L_BRACE, set::L_BRACE, &x.rows, lent);
    s
}

// if META_KW (META_BLK recover (STRINGS_KW | CONDITION_KW)) if STRINGS_KW (PATTERNS_BLK recover CONDITION_KW) (CONDITION_BLK recover R_BRACE) R_BRACE
fn sections(mut s: State, d: usize, may: bool, x: &Given<'_>, lent: &mut Lent<'_>) -> State
    requires { Asks x.now s lent.old }
    ensures read { Reads d may sections x.now s lent.old result lent.new }
    ensures lists { SameLists lent.old lent.new }
{
    s = metas(s, d, may, x, lent);
    s = patterns(s, d, may, x, lent);
    s = condition(s, d, may, x, lent);
    s = s.expect(set::R_BRACE, set::R_BRACE, &x.rows, lent);
    s
}

// if STRINGS_KW (PATTERNS_BLK recover CONDITION_KW)
fn patterns(mut s: State, d: usize, may: bool, x: &Given<'_>, lent: &mut Lent<'_>) -> State
    requires { Asks x.now s lent.old }
    ensures read { Reads d may patterns x.now s lent.old result lent.new }
    ensures lists { SameLists lent.old lent.new }
{
    if !s.sees(set::STRINGS_KW, &x.rows) {
        s.pass(set::STRINGS_KW, &x.rows, &mut lent.notes);
        return s;
    }
    s = s.trivia(&x.rows, lent.events);
    s = patterns_blk(s, d, may, x, lent);
    s = s.recover(d, may, set::CONDITION_KW, x, lent);
    s
}

// CONDITION_BLK recover R_BRACE
fn condition(mut s: State, d: usize, may: bool, x: &Given<'_>, lent: &mut Lent<'_>) -> State
    requires { Asks x.now s lent.old }
    ensures read { Reads d may condition x.now s lent.old result lent.new }
    ensures lists { SameLists lent.old lent.new }
{
    if s.mode.isnt(Mode::FINE) {
        return s;
    }
    s = s.trivia(&x.rows, lent.events);
    s = condition_blk(s, d, may, x, lent);
    s = s.recover(d, may, set::R_BRACE, x, lent);
    s
}

// CONDITION_BLK <- CONDITION_KW COLON (BOOLEAN_EXPR recover R_BRACE)
fn condition_blk(mut s: State, d: usize, may: bool, x: &Given<'_>, lent: &mut Lent<'_>) -> State
    requires { Asks x.now s lent.old }
    ensures read { Reads d may (node G.CONDITION_BLK) x.now s lent.old result lent.new }
    ensures lists { SameLists lent.old lent.new }
{
    s = s.begin(d, &x.rows, lent.events);
    let from = s.pos;
    let at = s.ev;
    if d == 0 {
        return s.end(Kind::ConditionBlk as u32, from, at, may, x, lent);
    }
    let below = d - 1;
    s = s.expect(set::CONDITION_KW, set::CONDITION_KW, &x.rows, lent);
    s = s.expect(set::COLON, set::COLON, &x.rows, lent);
    s = boolean(s, below, may, x, lent);
    s.end(Kind::ConditionBlk as u32, from, at, may, x, lent)
}

// BOOLEAN_EXPR recover R_BRACE
fn boolean(mut s: State, d: usize, may: bool, x: &Given<'_>, lent: &mut Lent<'_>) -> State
    requires { Asks x.now s lent.old }
    ensures read { Reads d may boolean x.now s lent.old result lent.new }
    ensures lists { SameLists lent.old lent.new }
{
    if s.mode.isnt(Mode::FINE) {
        return s;
    }
    s = bool_expr(s, d, may, x, lent);
    s = s.recover(d, may, set::R_BRACE, x, lent);
    s
}

// An item by the kind of its first row: an import or an include, behind which there is no recovery; else a rule and recovery behind it. `depth` nodes may
// be open besides SOURCE_FILE.
pub fn read_item(
    first: u32,
    mut s: State,
    depth: usize,
    x: &Given<'_>,
    lent: &mut Lent<'_>,
) -> State
    requires { Asks x.now s lent.old }
    ensures read { (L : P.Limits) → reach L ≡ (depth, x.now.entrypoint)
        → Did (P.read_item L (item_of first)) (source_of x.now) (whole s lent.old.notes)
        (whole result lent.new.notes) (bufs_of lent.old) (bufs_of lent.new) }
    ensures lists { SameLists lent.old lent.new }
{
    if first == Kind::ImportKw as u32 {
        return import_stmt(s, depth, false, x, lent);
    }
    if first == Kind::IncludeKw as u32 {
        return include_stmt(s, depth, false, x, lent);
    }
    s = rule_decl(s, depth, false, x, lent);
    s.recover(depth, false, set::RULE_OR_IMPORT, x, lent)
}
