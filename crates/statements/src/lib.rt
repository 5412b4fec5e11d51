// The two statements that are items: an import and an include. What they are handed is told in crate `parts`.
#![tactic(auto)]

ghost use Rattle.definition.specs.Prog.{node};
ghost use Rattle.definition.specs.Prog as G;
ghost use Rattle.notes.specs.Reading.{SameLists};
ghost use Rattle.parts.specs.Reads.{Asks, Reads};

use kinds::{Kind, set};
use notes::reading::{Given, Lent};
use steps::state::State;

// IMPORT_STMT <- IMPORT_KW STRING_LIT
pub fn import_stmt(mut s: State, d: usize, may: bool, x: &Given<'_>, lent: &mut Lent<'_>) -> State
    requires { Asks x.now s lent.old }
    ensures read { Reads d may (node G.IMPORT_STMT) x.now s lent.old result lent.new }
    ensures lists { SameLists lent.old lent.new }
{
    s = s.begin(d, &x.rows, lent.events);
    let from = s.pos;
    let at = s.ev;
    if d == 0 {
        return s.end(Kind::ImportStmt as u32, from, at, may, x, lent);
    }
    let below = d - 1;
    s = s.expect(set::IMPORT_KW, set::IMPORT_KW, &x.rows, lent);
    s = s.expect(set::STRING_LIT, set::STRING_LIT, &x.rows, lent);
    s.end(Kind::ImportStmt as u32, from, at, may, x, lent)
}

// INCLUDE_STMT <- INCLUDE_KW STRING_LIT
pub fn include_stmt(mut s: State, d: usize, may: bool, x: &Given<'_>, lent: &mut Lent<'_>) -> State
    requires { Asks x.now s lent.old }
    ensures read { Reads d may (node G.INCLUDE_STMT) x.now s lent.old result lent.new }
    ensures lists { SameLists lent.old lent.new }
{
    s = s.begin(d, &x.rows, lent.events);
    let from = s.pos;
    let at = s.ev;
    if d == 0 {
        return s.end(Kind::IncludeStmt as u32, from, at, may, x, lent);
    }
    let below = d - 1;
    s = s.expect(set::INCLUDE_KW, set::INCLUDE_KW, &x.rows, lent);
    s = s.expect(set::STRING_LIT, set::STRING_LIT, &x.rows, lent);
    s.end(Kind::IncludeStmt as u32, from, at, may, x, lent)
}
