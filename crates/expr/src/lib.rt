// The productions of expressions, each under its own name. They call one another: what falls is d, the nodes that may still be opened. What they are handed
// is told in crate `parts`.
#![tactic(auto)]

ghost use Rattle.std.specs.Prelude.{◌<◌, true};
ghost use Rattle.definition.specs.Prog.{then, node, memo};
ghost use Rattle.definition.specs.Prog as G;
ghost use Rattle.definition.specs.Grammar.{grammar};
ghost use Rattle.notes.specs.Reading.{SameLists};
ghost use Rattle.parts.specs.Reads.{Asks, Reads};
ghost use Rattle.expr.specs.Parts.{signed, dotted, in_range, index, args, quantified, compared, place, over, body, which, item_of, listed, more_decls};

use kinds::{Kind, set};
use notes::cache::remembers;
use notes::reading::{Given, Lent};
use parts::terms::literals;
use parts::tuples::them;
use shapes::mode::Mode;
use steps::state::State;

// The codes of the names "expression" and "operator".
const EXPRESSION: usize = 55;

const OPERATOR: usize = 56;

// What a repetition reads behind each separator.
#[derive(Clone, Copy)]
pub enum Item {
    Ident,
    Term,
    Expr,
    PrimaryExpr,
    BooleanTerm,
    BooleanExpr,
}

// EXPR, which is not read again where it failed before.
#[cycle(expressions)]
fn expr(mut s: State, d: usize, may: bool, x: &Given<'_>, lent: &mut Lent<'_>) -> State
    requires { Asks x.now s lent.old }
    ensures read { Reads d may (then (memo G.EXPR)) x.now s lent.old result lent.new }
    ensures lists { SameLists lent.old lent.new }
{
    if s.mode.isnt(Mode::FINE) {
        return s;
    }
    s = s.trivia(&x.rows, lent.events);
    let bit = 2 * s.pos;
    if lent.seen(bit) {
        s.mode = Mode::FAILED;
        return s;
    }
    s = sum(s, d, may, x, lent);
    if s.mode.isnt(Mode::FAILED) {
        return s;
    }
    remembers(bit, lent.scratch, &mut lent.notes);
    s
}

// EXPR <- TERM ((ADD | SUB | MUL | DIV | MOD | SHL | SHR | BITWISE_AND | BITWISE_OR | BITWISE_XOR) TERM)*
#[cycle(expressions)]
fn sum(mut s: State, d: usize, may: bool, x: &Given<'_>, lent: &mut Lent<'_>) -> State
    requires { Asks x.now s lent.old }
    ensures read { Reads d may (node G.EXPR) x.now s lent.old result lent.new }
    ensures lists { SameLists lent.old lent.new }
{
    s = s.begin(d, &x.rows, lent.events);
    let from = s.pos;
    let at = s.ev;
    if d == 0 {
        return s.end(Kind::Expr as u32, from, at, may, x, lent);
    }
    let below = d - 1;
    s = term(s, below, may, x, lent);
    s = more(set::ARITHMETIC, OPERATOR, Item::Term, s, below, x, lent);
    s.end(Kind::Expr as u32, from, at, may, x, lent)
}

// TERM, which is not read again where it failed before.
#[cycle(expressions)]
fn term(mut s: State, d: usize, may: bool, x: &Given<'_>, lent: &mut Lent<'_>) -> State
    requires { Asks x.now s lent.old }
    ensures read { Reads d may (then (memo G.TERM)) x.now s lent.old result lent.new }
    ensures lists { SameLists lent.old lent.new }
{
    if s.mode.isnt(Mode::FINE) {
        return s;
    }
    s = s.trivia(&x.rows, lent.events);
    let bit = 2 * s.pos + 1;
    if lent.seen(bit) {
        s.mode = Mode::FAILED;
        return s;
    }
    s = unit(s, d, may, x, lent);
    if s.mode.isnt(Mode::FAILED) {
        return s;
    }
    remembers(bit, lent.scratch, &mut lent.notes);
    s
}

// TERM <- (FLOAT_LIT | INTEGER_LIT | STRING_LIT | REGEXP | FILESIZE_KW | ENTRYPOINT_KW) / PATTERN_COUNT if IN_KW (IN_KW RANGE) / (PATTERN_OFFSET |
// PATTERN_LENGTH) if L_BRACKET (L_BRACKET (EXPR R_BRACKET)) / MINUS TERM / BITWISE_NOT TERM / L_PAREN EXPR R_PAREN / PRIMARY_EXPR (DOT PRIMARY_EXPR)*
#[cycle(expressions)]
fn unit(mut s: State, d: usize, may: bool, x: &Given<'_>, lent: &mut Lent<'_>) -> State
    requires { Asks x.now s lent.old }
    ensures read { Reads d may (node G.TERM) x.now s lent.old result lent.new }
    ensures lists { SameLists lent.old lent.new }
{
    s = s.begin(d, &x.rows, lent.events);
    let from = s.pos;
    let at = s.ev;
    if d == 0 {
        return s.end(Kind::Term as u32, from, at, may, x, lent);
    }
    let below = d - 1;
    s = lit(s, below, may, x, lent);
    s.end(Kind::Term as u32, from, at, may, x, lent)
}

// The alternatives of TERM.
#[cycle(expressions)]
fn lit(mut s: State, d: usize, may: bool, x: &Given<'_>, lent: &mut Lent<'_>) -> State
    requires { Asks x.now s lent.old }
    ensures read { Reads d may (grammar x.now.entrypoint G.TERM) x.now s lent.old result lent.new }
    ensures lists { SameLists lent.old lent.new }
{
    if s.mode.isnt(Mode::FINE) {
        return s;
    }
    let m = s.mark();
    s = s.trivia(&x.rows, lent.events);
    s = s.expect(literals(x.entrypoint), EXPRESSION, &x.rows, lent);
    if s.mode.isnt(Mode::FAILED) {
        return s;
    }
    s = s.rewind(m);
    s.mode = Mode::FINE;
    s = s.trivia(&x.rows, lent.events);
    s = s.expect(set::PATTERN_COUNT, EXPRESSION, &x.rows, lent);
    s = span(s, d, true, x, lent);
    if s.mode.isnt(Mode::FAILED) {
        return s;
    }
    s = s.rewind(m);
    s.mode = Mode::FINE;
    s = s.trivia(&x.rows, lent.events);
    s = s.expect(set::PATTERN_PLACE, EXPRESSION, &x.rows, lent);
    s = nth(s, d, true, x, lent);
    if s.mode.isnt(Mode::FAILED) {
        return s;
    }
    s = s.rewind(m);
    s.mode = Mode::FINE;
    sign(s, d, may, x, lent)
}

// MINUS TERM / BITWISE_NOT TERM / L_PAREN EXPR R_PAREN / PRIMARY_EXPR (DOT PRIMARY_EXPR)*
#[cycle(expressions)]
fn sign(mut s: State, d: usize, may: bool, x: &Given<'_>, lent: &mut Lent<'_>) -> State
    requires { Asks x.now s lent.old }
    ensures read { Reads d may signed x.now s lent.old result lent.new }
    ensures lists { SameLists lent.old lent.new }
{
    if s.mode.isnt(Mode::FINE) {
        return s;
    }
    let m = s.mark();
    s = s.trivia(&x.rows, lent.events);
    s = s.expect(set::MINUS, EXPRESSION, &x.rows, lent);
    s = term(s, d, true, x, lent);
    if s.mode.isnt(Mode::FAILED) {
        return s;
    }
    s = s.rewind(m);
    s.mode = Mode::FINE;
    s = s.trivia(&x.rows, lent.events);
    s = s.expect(set::BITWISE_NOT, EXPRESSION, &x.rows, lent);
    s = term(s, d, true, x, lent);
    if s.mode.isnt(Mode::FAILED) {
        return s;
    }
    s = s.rewind(m);
    s.mode = Mode::FINE;
    s = s.trivia(&x.rows, lent.events);
    s = s.expect(set::L_PAREN, EXPRESSION, &x.rows, lent);
    s = expr(s, d, true, x, lent);
    s = s.expect(set::R_PAREN, set::R_PAREN, &x.rows, lent);
    if s.mode.isnt(Mode::FAILED) {
        return s;
    }
    s = s.rewind(m);
    s.mode = Mode::FINE;
    dot(s, d, may, x, lent)
}

// PRIMARY_EXPR (DOT PRIMARY_EXPR)*
#[cycle(expressions)]
fn dot(mut s: State, d: usize, may: bool, x: &Given<'_>, lent: &mut Lent<'_>) -> State
    requires { Asks x.now s lent.old }
    ensures read { Reads d may dotted x.now s lent.old result lent.new }
    ensures lists { SameLists lent.old lent.new }
{
    if s.mode.isnt(Mode::FINE) {
        return s;
    }
    let m = s.mark();
    s = primary(s, d, true, x, lent);
    s = more(set::DOT, EXPRESSION, Item::PrimaryExpr, s, d, x, lent);
    if s.mode.isnt(Mode::FAILED) {
        return s;
    }
    s = s.rewind(m);
    s
}

// if IN_KW (IN_KW RANGE)
#[cycle(expressions)]
fn span(mut s: State, d: usize, may: bool, x: &Given<'_>, lent: &mut Lent<'_>) -> State
    requires { Asks x.now s lent.old }
    ensures read { Reads d may in_range x.now s lent.old result lent.new }
    ensures lists { SameLists lent.old lent.new }
{
    if !s.sees(set::IN_KW, &x.rows) {
        s.pass(set::IN_KW, &x.rows, &mut lent.notes);
        return s;
    }
    s = s.trivia(&x.rows, lent.events);
    s = s.expect(set::IN_KW, set::IN_KW, &x.rows, lent);
    s = range(s, d, may, x, lent);
    s
}

// if L_BRACKET (L_BRACKET (EXPR R_BRACKET))
#[cycle(expressions)]
fn nth(mut s: State, d: usize, may: bool, x: &Given<'_>, lent: &mut Lent<'_>) -> State
    requires { Asks x.now s lent.old }
    ensures read { Reads d may index x.now s lent.old result lent.new }
    ensures lists { SameLists lent.old lent.new }
{
    if !s.sees(set::L_BRACKET, &x.rows) {
        s.pass(set::L_BRACKET, &x.rows, &mut lent.notes);
        return s;
    }
    s = s.trivia(&x.rows, lent.events);
    s = s.expect(set::L_BRACKET, set::L_BRACKET, &x.rows, lent);
    s = expr(s, d, may, x, lent);
    s = s.expect(set::R_BRACKET, set::R_BRACKET, &x.rows, lent);
    s
}

// RANGE <- L_PAREN EXPR DOT DOT EXPR R_PAREN
#[cycle(expressions)]
fn range(mut s: State, d: usize, may: bool, x: &Given<'_>, lent: &mut Lent<'_>) -> State
    requires { Asks x.now s lent.old }
    ensures read { Reads d may (then (node G.RANGE)) x.now s lent.old result lent.new }
    ensures lists { SameLists lent.old lent.new }
{
    if s.mode.isnt(Mode::FINE) {
        return s;
    }
    s = s.trivia(&x.rows, lent.events);
    s = s.begin(d, &x.rows, lent.events);
    let from = s.pos;
    let at = s.ev;
    if d == 0 {
        return s.end(Kind::Range as u32, from, at, may, x, lent);
    }
    let below = d - 1;
    s = s.expect(set::L_PAREN, set::L_PAREN, &x.rows, lent);
    s = expr(s, below, may, x, lent);
    s = s.expect(set::DOT, set::DOT, &x.rows, lent);
    s = s.expect(set::DOT, set::DOT, &x.rows, lent);
    s = expr(s, below, may, x, lent);
    s = s.expect(set::R_PAREN, set::R_PAREN, &x.rows, lent);
    s.end(Kind::Range as u32, from, at, may, x, lent)
}

// PRIMARY_EXPR <- FUNC_CALL / IDENT L_BRACKET EXPR R_BRACKET / IDENT
#[cycle(expressions)]
fn primary(mut s: State, d: usize, may: bool, x: &Given<'_>, lent: &mut Lent<'_>) -> State
    requires { Asks x.now s lent.old }
    ensures read { Reads d may (then (node G.PRIMARY_EXPR)) x.now s lent.old result lent.new }
    ensures lists { SameLists lent.old lent.new }
{
    if s.mode.isnt(Mode::FINE) {
        return s;
    }
    s = s.trivia(&x.rows, lent.events);
    s = s.begin(d, &x.rows, lent.events);
    let from = s.pos;
    let at = s.ev;
    if d == 0 {
        return s.end(Kind::PrimaryExpr as u32, from, at, may, x, lent);
    }
    let below = d - 1;
    s = id(s, below, may, x, lent);
    s.end(Kind::PrimaryExpr as u32, from, at, may, x, lent)
}

// The alternatives of PRIMARY_EXPR.
#[cycle(expressions)]
fn id(mut s: State, d: usize, may: bool, x: &Given<'_>, lent: &mut Lent<'_>) -> State
    requires { Asks x.now s lent.old }
    ensures read { Reads d may (grammar x.now.entrypoint G.PRIMARY_EXPR) x.now s lent.old result lent.new }
    ensures lists { SameLists lent.old lent.new }
{
    if s.mode.isnt(Mode::FINE) {
        return s;
    }
    let m = s.mark();
    s = call(s, d, true, x, lent);
    if s.mode.isnt(Mode::FAILED) {
        return s;
    }
    s = s.rewind(m);
    s.mode = Mode::FINE;
    s = s.trivia(&x.rows, lent.events);
    s = s.expect(set::IDENT, set::IDENT, &x.rows, lent);
    s = s.expect(set::L_BRACKET, set::L_BRACKET, &x.rows, lent);
    s = expr(s, d, true, x, lent);
    s = s.expect(set::R_BRACKET, set::R_BRACKET, &x.rows, lent);
    if s.mode.isnt(Mode::FAILED) {
        return s;
    }
    s = s.rewind(m);
    s.mode = Mode::FINE;
    s = s.trivia(&x.rows, lent.events);
    s = s.expect(set::IDENT, set::IDENT, &x.rows, lent);
    if s.mode.isnt(Mode::FAILED) {
        return s;
    }
    s = s.rewind(m);
    s
}

// FUNC_CALL <- IDENT L_PAREN (BOOLEAN_EXPR (COMMA BOOLEAN_EXPR)*)? R_PAREN
#[cycle(expressions)]
fn call(mut s: State, d: usize, may: bool, x: &Given<'_>, lent: &mut Lent<'_>) -> State
    requires { Asks x.now s lent.old }
    ensures read { Reads d may (then (node G.FUNC_CALL)) x.now s lent.old result lent.new }
    ensures lists { SameLists lent.old lent.new }
{
    if s.mode.isnt(Mode::FINE) {
        return s;
    }
    s = s.trivia(&x.rows, lent.events);
    s = s.begin(d, &x.rows, lent.events);
    let from = s.pos;
    let at = s.ev;
    if d == 0 {
        return s.end(Kind::FuncCall as u32, from, at, may, x, lent);
    }
    let below = d - 1;
    s = s.expect(set::IDENT, set::IDENT, &x.rows, lent);
    s = s.expect(set::L_PAREN, set::L_PAREN, &x.rows, lent);
    if s.mode.isnt(Mode::FINE) {
        return s.end(Kind::FuncCall as u32, from, at, may, x, lent);
    }
    s = list(s, below, may, x, lent);
    s = s.expect(set::R_PAREN, set::R_PAREN, &x.rows, lent);
    s.end(Kind::FuncCall as u32, from, at, may, x, lent)
}

// (BOOLEAN_EXPR (COMMA BOOLEAN_EXPR)*)?
#[cycle(expressions)]
fn list(mut s: State, d: usize, may: bool, x: &Given<'_>, lent: &mut Lent<'_>) -> State
    requires { Asks x.now s lent.old }
    ensures read { Reads d may args x.now s lent.old result lent.new }
    ensures lists { SameLists lent.old lent.new }
{
    if s.mode.isnt(Mode::FINE) {
        return s;
    }
    let m = s.mark();
    s = bool_expr(s, d, true, x, lent);
    s = more(set::COMMA, set::COMMA, Item::BooleanExpr, s, d, x, lent);
    if s.mode.isnt(Mode::FAILED) {
        return s;
    }
    s = s.rewind(m);
    s.mode = Mode::FINE;
    s
}

// BOOLEAN_EXPR <- BOOLEAN_TERM ((AND_KW | OR_KW) BOOLEAN_TERM)*
#[cycle(expressions)]
pub fn bool_expr(mut s: State, d: usize, may: bool, x: &Given<'_>, lent: &mut Lent<'_>) -> State
    requires { Asks x.now s lent.old }
    ensures read { Reads d may (then (node G.BOOLEAN_EXPR)) x.now s lent.old result lent.new }
    ensures lists { SameLists lent.old lent.new }
{
    if s.mode.isnt(Mode::FINE) {
        return s;
    }
    s = s.trivia(&x.rows, lent.events);
    s = s.begin(d, &x.rows, lent.events);
    let from = s.pos;
    let at = s.ev;
    if d == 0 {
        return s.end(Kind::BooleanExpr as u32, from, at, may, x, lent);
    }
    let below = d - 1;
    s = bool_term(s, below, may, x, lent);
    s = more(set::AND_OR, OPERATOR, Item::BooleanTerm, s, below, x, lent);
    s.end(Kind::BooleanExpr as u32, from, at, may, x, lent)
}

// BOOLEAN_TERM <- PATTERN_IDENT if (AT_KW | IN_KW) (AT_KW EXPR / IN_KW RANGE) / (TRUE_KW | FALSE_KW) / (NOT_KW | DEFINED_KW) BOOLEAN_TERM / FOR_EXPR /
// OF_EXPR / WITH_EXPR / EXPR ((EQ | NE | LE | LT | GE | GT | CONTAINS_KW | ICONTAINS_KW | STARTSWITH_KW | ISTARTSWITH_KW | ENDSWITH_KW | IENDSWITH_KW |
// IEQUALS_KW | MATCHES_KW) EXPR)* / L_PAREN BOOLEAN_EXPR R_PAREN
#[cycle(expressions)]
fn bool_term(mut s: State, d: usize, may: bool, x: &Given<'_>, lent: &mut Lent<'_>) -> State
    requires { Asks x.now s lent.old }
    ensures read { Reads d may (then (node G.BOOLEAN_TERM)) x.now s lent.old result lent.new }
    ensures lists { SameLists lent.old lent.new }
{
    if s.mode.isnt(Mode::FINE) {
        return s;
    }
    s = s.trivia(&x.rows, lent.events);
    s = s.begin(d, &x.rows, lent.events);
    let from = s.pos;
    let at = s.ev;
    if d == 0 {
        return s.end(Kind::BooleanTerm as u32, from, at, may, x, lent);
    }
    let below = d - 1;
    s = fact(s, below, may, x, lent);
    s.end(Kind::BooleanTerm as u32, from, at, may, x, lent)
}

// The alternatives of BOOLEAN_TERM.
#[cycle(expressions)]
fn fact(mut s: State, d: usize, may: bool, x: &Given<'_>, lent: &mut Lent<'_>) -> State
    requires { Asks x.now s lent.old }
    ensures read { Reads d may (grammar x.now.entrypoint G.BOOLEAN_TERM) x.now s lent.old result lent.new }
    ensures lists { SameLists lent.old lent.new }
{
    if s.mode.isnt(Mode::FINE) {
        return s;
    }
    let m = s.mark();
    s = s.trivia(&x.rows, lent.events);
    s = s.expect(set::PATTERN_IDENT, EXPRESSION, &x.rows, lent);
    s = spot(s, d, true, x, lent);
    if s.mode.isnt(Mode::FAILED) {
        return s;
    }
    s = s.rewind(m);
    s.mode = Mode::FINE;
    s = s.trivia(&x.rows, lent.events);
    s = s.expect(set::TRUE_FALSE, EXPRESSION, &x.rows, lent);
    if s.mode.isnt(Mode::FAILED) {
        return s;
    }
    s = s.rewind(m);
    s.mode = Mode::FINE;
    s = s.trivia(&x.rows, lent.events);
    s = s.expect(set::NOT_DEFINED, EXPRESSION, &x.rows, lent);
    s = bool_term(s, d, true, x, lent);
    if s.mode.isnt(Mode::FAILED) {
        return s;
    }
    s = s.rewind(m);
    s.mode = Mode::FINE;
    all(s, d, may, x, lent)
}

// FOR_EXPR / OF_EXPR / WITH_EXPR / EXPR ((EQ | NE | LE | LT | GE | GT | CONTAINS_KW | ICONTAINS_KW | STARTSWITH_KW | ISTARTSWITH_KW | ENDSWITH_KW |
// IENDSWITH_KW | IEQUALS_KW | MATCHES_KW) EXPR)* / L_PAREN BOOLEAN_EXPR R_PAREN
#[cycle(expressions)]
fn all(mut s: State, d: usize, may: bool, x: &Given<'_>, lent: &mut Lent<'_>) -> State
    requires { Asks x.now s lent.old }
    ensures read { Reads d may quantified x.now s lent.old result lent.new }
    ensures lists { SameLists lent.old lent.new }
{
    if s.mode.isnt(Mode::FINE) {
        return s;
    }
    let m = s.mark();
    s = for_expr(s, d, true, x, lent);
    if s.mode.isnt(Mode::FAILED) {
        return s;
    }
    s = s.rewind(m);
    s.mode = Mode::FINE;
    s = of_expr(s, d, true, x, lent);
    if s.mode.isnt(Mode::FAILED) {
        return s;
    }
    s = s.rewind(m);
    s.mode = Mode::FINE;
    s = with_expr(s, d, true, x, lent);
    if s.mode.isnt(Mode::FAILED) {
        return s;
    }
    s = s.rewind(m);
    s.mode = Mode::FINE;
    test(s, d, may, x, lent)
}

// EXPR ((EQ | NE | LE | LT | GE | GT | CONTAINS_KW | ICONTAINS_KW | STARTSWITH_KW | ISTARTSWITH_KW | ENDSWITH_KW | IENDSWITH_KW | IEQUALS_KW |
// MATCHES_KW) EXPR)* / L_PAREN BOOLEAN_EXPR R_PAREN
#[cycle(expressions)]
fn test(mut s: State, d: usize, may: bool, x: &Given<'_>, lent: &mut Lent<'_>) -> State
    requires { Asks x.now s lent.old }
    ensures read { Reads d may compared x.now s lent.old result lent.new }
    ensures lists { SameLists lent.old lent.new }
{
    if s.mode.isnt(Mode::FINE) {
        return s;
    }
    let m = s.mark();
    s = expr(s, d, true, x, lent);
    s = more(set::COMPARISON, EXPRESSION, Item::Expr, s, d, x, lent);
    if s.mode.isnt(Mode::FAILED) {
        return s;
    }
    s = s.rewind(m);
    s.mode = Mode::FINE;
    s = s.trivia(&x.rows, lent.events);
    s = s.expect(set::L_PAREN, EXPRESSION, &x.rows, lent);
    s = bool_expr(s, d, true, x, lent);
    s = s.expect(set::R_PAREN, set::R_PAREN, &x.rows, lent);
    if s.mode.isnt(Mode::FAILED) {
        return s;
    }
    s = s.rewind(m);
    s
}

// if (AT_KW | IN_KW) (AT_KW EXPR / IN_KW RANGE)
#[cycle(expressions)]
fn spot(mut s: State, d: usize, may: bool, x: &Given<'_>, lent: &mut Lent<'_>) -> State
    requires { Asks x.now s lent.old }
    ensures read { Reads d may place x.now s lent.old result lent.new }
    ensures lists { SameLists lent.old lent.new }
{
    if !s.sees(set::AT_OR_IN, &x.rows) {
        s.pass(set::AT_OR_IN, &x.rows, &mut lent.notes);
        return s;
    }
    s = s.trivia(&x.rows, lent.events);
    let m = s.mark();
    s = s.trivia(&x.rows, lent.events);
    s = s.expect(set::AT_KW, set::AT_KW, &x.rows, lent);
    s = expr(s, d, true, x, lent);
    if s.mode.isnt(Mode::FAILED) {
        return s;
    }
    s = s.rewind(m);
    s.mode = Mode::FINE;
    s = s.trivia(&x.rows, lent.events);
    s = s.expect(set::IN_KW, set::IN_KW, &x.rows, lent);
    s = range(s, d, true, x, lent);
    if s.mode.isnt(Mode::FAILED) {
        return s;
    }
    s = s.rewind(m);
    s
}

// FOR_EXPR <- FOR_KW QUANTIFIER (OF_KW (THEM_KW / PATTERN_IDENT_TUPLE) / IDENT (COMMA IDENT)* IN_KW ITERABLE) COLON L_PAREN (BOOLEAN_EXPR recover
// R_PAREN) R_PAREN
#[cycle(expressions)]
fn for_expr(mut s: State, d: usize, may: bool, x: &Given<'_>, lent: &mut Lent<'_>) -> State
    requires { Asks x.now s lent.old }
    ensures read { Reads d may (then (node G.FOR_EXPR)) x.now s lent.old result lent.new }
    ensures lists { SameLists lent.old lent.new }
{
    if s.mode.isnt(Mode::FINE) {
        return s;
    }
    s = s.trivia(&x.rows, lent.events);
    s = s.begin(d, &x.rows, lent.events);
    let from = s.pos;
    let at = s.ev;
    if d == 0 {
        return s.end(Kind::ForExpr as u32, from, at, may, x, lent);
    }
    let below = d - 1;
    s = s.expect(set::FOR_KW, EXPRESSION, &x.rows, lent);
    if s.mode.isnt(Mode::FINE) {
        return s.end(Kind::ForExpr as u32, from, at, may, x, lent);
    }
    s = quant(s, below, may, x, lent);
    s = over(s, below, may, x, lent);
    s = body(s, below, may, x, lent);
    s.end(Kind::ForExpr as u32, from, at, may, x, lent)
}

// OF_KW (THEM_KW / PATTERN_IDENT_TUPLE) / IDENT (COMMA IDENT)* IN_KW ITERABLE
#[cycle(expressions)]
fn over(mut s: State, d: usize, may: bool, x: &Given<'_>, lent: &mut Lent<'_>) -> State
    requires { Asks x.now s lent.old }
    ensures read { Reads d may over x.now s lent.old result lent.new }
    ensures lists { SameLists lent.old lent.new }
{
    if s.mode.isnt(Mode::FINE) {
        return s;
    }
    let m = s.mark();
    s = s.trivia(&x.rows, lent.events);
    s = s.expect(set::OF_KW, set::OF_KW, &x.rows, lent);
    s = them(s, d, true, x, lent);
    if s.mode.isnt(Mode::FAILED) {
        return s;
    }
    s = s.rewind(m);
    s.mode = Mode::FINE;
    s = s.trivia(&x.rows, lent.events);
    s = s.expect(set::IDENT, set::IDENT, &x.rows, lent);
    s = more(set::COMMA, set::COMMA, Item::Ident, s, d, x, lent);
    s = s.expect(set::IN_KW, set::IN_KW, &x.rows, lent);
    s = iter(s, d, true, x, lent);
    if s.mode.isnt(Mode::FAILED) {
        return s;
    }
    s = s.rewind(m);
    s
}

// COLON L_PAREN (BOOLEAN_EXPR recover R_PAREN) R_PAREN
#[cycle(expressions)]
fn body(mut s: State, d: usize, may: bool, x: &Given<'_>, lent: &mut Lent<'_>) -> State
    requires { Asks x.now s lent.old }
    ensures read { Reads d may body x.now s lent.old result lent.new }
    ensures lists { SameLists lent.old lent.new }
{
    s = s.expect(set::COLON, set::COLON, &x.rows, lent);
    s = s.expect(set::L_PAREN, set::L_PAREN, &x.rows, lent);
    if s.mode.isnt(Mode::FINE) {
        return s;
    }
    s = bool_expr(s, d, may, x, lent);
    s = s.recover(d, may, set::R_PAREN, x, lent);
    s.expect(set::R_PAREN, set::R_PAREN, &x.rows, lent)
}

// OF_EXPR <- QUANTIFIER OF_KW ((THEM_KW / PATTERN_IDENT_TUPLE) if (AT_KW | IN_KW) (AT_KW EXPR / IN_KW RANGE) / BOOLEAN_EXPR_TUPLE !(AT_KW | IN_KW))
#[cycle(expressions)]
fn of_expr(mut s: State, d: usize, may: bool, x: &Given<'_>, lent: &mut Lent<'_>) -> State
    requires { Asks x.now s lent.old }
    ensures read { Reads d may (then (node G.OF_EXPR)) x.now s lent.old result lent.new }
    ensures lists { SameLists lent.old lent.new }
{
    if s.mode.isnt(Mode::FINE) {
        return s;
    }
    s = s.trivia(&x.rows, lent.events);
    s = s.begin(d, &x.rows, lent.events);
    let from = s.pos;
    let at = s.ev;
    if d == 0 {
        return s.end(Kind::OfExpr as u32, from, at, may, x, lent);
    }
    let below = d - 1;
    s = quant(s, below, may, x, lent);
    s = s.expect(set::OF_KW, set::OF_KW, &x.rows, lent);
    s = whom(s, below, may, x, lent);
    s.end(Kind::OfExpr as u32, from, at, may, x, lent)
}

// (THEM_KW / PATTERN_IDENT_TUPLE) if (AT_KW | IN_KW) (AT_KW EXPR / IN_KW RANGE) / BOOLEAN_EXPR_TUPLE !(AT_KW | IN_KW)
#[cycle(expressions)]
fn whom(mut s: State, d: usize, may: bool, x: &Given<'_>, lent: &mut Lent<'_>) -> State
    requires { Asks x.now s lent.old }
    ensures read { Reads d may which x.now s lent.old result lent.new }
    ensures lists { SameLists lent.old lent.new }
{
    if s.mode.isnt(Mode::FINE) {
        return s;
    }
    let m = s.mark();
    s = s.trivia(&x.rows, lent.events);
    s = them(s, d, true, x, lent);
    s = spot(s, d, true, x, lent);
    if s.mode.isnt(Mode::FAILED) {
        return s;
    }
    s = s.rewind(m);
    s.mode = Mode::FINE;
    s = bools(s, d, true, x, lent);
    s = s.unless(set::AT_OR_IN, &x.rows, lent);
    if s.mode.isnt(Mode::FAILED) {
        return s;
    }
    s = s.rewind(m);
    s
}

// WITH_EXPR <- WITH_KW (WITH_DECLS recover (COLON | L_PAREN)) COLON L_PAREN (BOOLEAN_EXPR recover R_PAREN) R_PAREN
#[cycle(expressions)]
fn with_expr(mut s: State, d: usize, may: bool, x: &Given<'_>, lent: &mut Lent<'_>) -> State
    requires { Asks x.now s lent.old }
    ensures read { Reads d may (then (node G.WITH_EXPR)) x.now s lent.old result lent.new }
    ensures lists { SameLists lent.old lent.new }
{
    if s.mode.isnt(Mode::FINE) {
        return s;
    }
    s = s.trivia(&x.rows, lent.events);
    s = s.begin(d, &x.rows, lent.events);
    let from = s.pos;
    let at = s.ev;
    if d == 0 {
        return s.end(Kind::WithExpr as u32, from, at, may, x, lent);
    }
    let below = d - 1;
    s = s.expect(set::WITH_KW, EXPRESSION, &x.rows, lent);
    if s.mode.isnt(Mode::FINE) {
        return s.end(Kind::WithExpr as u32, from, at, may, x, lent);
    }
    s = decls(s, below, may, x, lent);
    s = s.recover(below, may, set::COLON_OR_PAREN, x, lent);
    s = body(s, below, may, x, lent);
    s.end(Kind::WithExpr as u32, from, at, may, x, lent)
}

// WITH_DECLS <- WITH_DECL (COMMA WITH_DECL)*
#[cycle(expressions)]
fn decls(mut s: State, d: usize, may: bool, x: &Given<'_>, lent: &mut Lent<'_>) -> State
    requires { Asks x.now s lent.old }
    ensures read { Reads d may (then (node G.WITH_DECLS)) x.now s lent.old result lent.new }
    ensures lists { SameLists lent.old lent.new }
{
    if s.mode.isnt(Mode::FINE) {
        return s;
    }
    s = s.trivia(&x.rows, lent.events);
    s = s.begin(d, &x.rows, lent.events);
    let from = s.pos;
    let at = s.ev;
    if d == 0 {
        return s.end(Kind::WithDecls as u32, from, at, may, x, lent);
    }
    let below = d - 1;
    if s.mode.isnt(Mode::FINE) {
        return s.end(Kind::WithDecls as u32, from, at, may, x, lent);
    }
    s = s.trivia(&x.rows, lent.events);
    s = decl(s, below, may, x, lent);
    s = and(s, below, x, lent);
    s.end(Kind::WithDecls as u32, from, at, may, x, lent)
}

// (COMMA WITH_DECL)*
#[cycle(expressions)]
fn and(mut s: State, d: usize, x: &Given<'_>, lent: &mut Lent<'_>) -> State
    requires { Asks x.now s lent.old }
    ensures read { Reads d true more_decls x.now s lent.old result lent.new }
    ensures lists { SameLists lent.old lent.new }
{
    if s.mode.isnt(Mode::FINE) {
        return s;
    }
    let turns = x.rows.ids.len() - s.pos + 1;
    for turn in 0..turns {
        let m = s.mark();
        s = s.trivia(&x.rows, lent.events);
        s = s.expect(set::COMMA, set::COMMA, &x.rows, lent);
        s = decl(s, d, true, x, lent);
        if s.mode.isnt(Mode::FINE) {
            return s.undone(m);
        }
    }
    s
}

// WITH_DECL <- IDENT EQUAL EXPR
#[cycle(expressions)]
fn decl(mut s: State, d: usize, may: bool, x: &Given<'_>, lent: &mut Lent<'_>) -> State
    requires { Asks x.now s lent.old }
    ensures read { Reads d may (node G.WITH_DECL) x.now s lent.old result lent.new }
    ensures lists { SameLists lent.old lent.new }
{
    s = s.begin(d, &x.rows, lent.events);
    let from = s.pos;
    let at = s.ev;
    if d == 0 {
        return s.end(Kind::WithDecl as u32, from, at, may, x, lent);
    }
    let below = d - 1;
    s = s.expect(set::IDENT, set::IDENT, &x.rows, lent);
    s = s.expect(set::EQUAL, set::EQUAL, &x.rows, lent);
    s = expr(s, below, may, x, lent);
    s.end(Kind::WithDecl as u32, from, at, may, x, lent)
}

// QUANTIFIER <- (ALL_KW | NONE_KW | ANY_KW) / TERM PERCENT / EXPR !PERCENT
#[cycle(expressions)]
fn quant(mut s: State, d: usize, may: bool, x: &Given<'_>, lent: &mut Lent<'_>) -> State
    requires { Asks x.now s lent.old }
    ensures read { Reads d may (then (node G.QUANTIFIER)) x.now s lent.old result lent.new }
    ensures lists { SameLists lent.old lent.new }
{
    if s.mode.isnt(Mode::FINE) {
        return s;
    }
    s = s.trivia(&x.rows, lent.events);
    s = s.begin(d, &x.rows, lent.events);
    let from = s.pos;
    let at = s.ev;
    if d == 0 {
        return s.end(Kind::Quantifier as u32, from, at, may, x, lent);
    }
    let below = d - 1;
    s = how(s, below, may, x, lent);
    s.end(Kind::Quantifier as u32, from, at, may, x, lent)
}

// The alternatives of QUANTIFIER.
#[cycle(expressions)]
fn how(mut s: State, d: usize, may: bool, x: &Given<'_>, lent: &mut Lent<'_>) -> State
    requires { Asks x.now s lent.old }
    ensures read { Reads d may (grammar x.now.entrypoint G.QUANTIFIER) x.now s lent.old result lent.new }
    ensures lists { SameLists lent.old lent.new }
{
    if s.mode.isnt(Mode::FINE) {
        return s;
    }
    let m = s.mark();
    s = s.trivia(&x.rows, lent.events);
    s = s.expect(set::ALL_NONE_ANY, EXPRESSION, &x.rows, lent);
    if s.mode.isnt(Mode::FAILED) {
        return s;
    }
    s = s.rewind(m);
    s.mode = Mode::FINE;
    s = term(s, d, true, x, lent);
    s = s.expect(set::PERCENT, set::PERCENT, &x.rows, lent);
    if s.mode.isnt(Mode::FAILED) {
        return s;
    }
    s = s.rewind(m);
    s.mode = Mode::FINE;
    s = expr(s, d, true, x, lent);
    s = s.unless(set::PERCENT, &x.rows, lent);
    if s.mode.isnt(Mode::FAILED) {
        return s;
    }
    s = s.rewind(m);
    s
}

// ITERABLE <- RANGE / EXPR_TUPLE / EXPR
#[cycle(expressions)]
fn iter(mut s: State, d: usize, may: bool, x: &Given<'_>, lent: &mut Lent<'_>) -> State
    requires { Asks x.now s lent.old }
    ensures read { Reads d may (node G.ITERABLE) x.now s lent.old result lent.new }
    ensures lists { SameLists lent.old lent.new }
{
    s = s.begin(d, &x.rows, lent.events);
    let from = s.pos;
    let at = s.ev;
    if d == 0 {
        return s.end(Kind::Iterable as u32, from, at, may, x, lent);
    }
    let below = d - 1;
    s = vals(s, below, may, x, lent);
    s.end(Kind::Iterable as u32, from, at, may, x, lent)
}

// The alternatives of ITERABLE.
#[cycle(expressions)]
fn vals(mut s: State, d: usize, may: bool, x: &Given<'_>, lent: &mut Lent<'_>) -> State
    requires { Asks x.now s lent.old }
    ensures read { Reads d may (grammar x.now.entrypoint G.ITERABLE) x.now s lent.old result lent.new }
    ensures lists { SameLists lent.old lent.new }
{
    if s.mode.isnt(Mode::FINE) {
        return s;
    }
    let m = s.mark();
    s = range(s, d, true, x, lent);
    if s.mode.isnt(Mode::FAILED) {
        return s;
    }
    s = s.rewind(m);
    s.mode = Mode::FINE;
    s = exprs(s, d, true, x, lent);
    if s.mode.isnt(Mode::FAILED) {
        return s;
    }
    s = s.rewind(m);
    s.mode = Mode::FINE;
    s = expr(s, d, true, x, lent);
    if s.mode.isnt(Mode::FAILED) {
        return s;
    }
    s = s.rewind(m);
    s
}

// EXPR_TUPLE <- L_PAREN EXPR (COMMA EXPR)* R_PAREN
#[cycle(expressions)]
fn exprs(mut s: State, d: usize, may: bool, x: &Given<'_>, lent: &mut Lent<'_>) -> State
    requires { Asks x.now s lent.old }
    ensures read { Reads d may (then (node G.EXPR_TUPLE)) x.now s lent.old result lent.new }
    ensures lists { SameLists lent.old lent.new }
{
    if s.mode.isnt(Mode::FINE) {
        return s;
    }
    s = s.trivia(&x.rows, lent.events);
    s = s.begin(d, &x.rows, lent.events);
    let from = s.pos;
    let at = s.ev;
    if d == 0 {
        return s.end(Kind::ExprTuple as u32, from, at, may, x, lent);
    }
    let below = d - 1;
    s = s.expect(set::L_PAREN, set::L_PAREN, &x.rows, lent);
    s = expr(s, below, may, x, lent);
    s = more(set::COMMA, set::COMMA, Item::Expr, s, below, x, lent);
    s = s.expect(set::R_PAREN, set::R_PAREN, &x.rows, lent);
    s.end(Kind::ExprTuple as u32, from, at, may, x, lent)
}

// BOOLEAN_EXPR_TUPLE <- L_PAREN BOOLEAN_EXPR (COMMA BOOLEAN_EXPR)* R_PAREN
#[cycle(expressions)]
fn bools(mut s: State, d: usize, may: bool, x: &Given<'_>, lent: &mut Lent<'_>) -> State
    requires { Asks x.now s lent.old }
    ensures read { Reads d may (then (node G.BOOLEAN_EXPR_TUPLE)) x.now s lent.old result lent.new }
    ensures lists { SameLists lent.old lent.new }
{
    if s.mode.isnt(Mode::FINE) {
        return s;
    }
    s = s.trivia(&x.rows, lent.events);
    s = s.begin(d, &x.rows, lent.events);
    let from = s.pos;
    let at = s.ev;
    if d == 0 {
        return s.end(Kind::BooleanExprTuple as u32, from, at, may, x, lent);
    }
    let below = d - 1;
    s = s.expect(set::L_PAREN, set::L_PAREN, &x.rows, lent);
    s = bool_expr(s, below, may, x, lent);
    s = more(set::COMMA, set::COMMA, Item::BooleanExpr, s, below, x, lent);
    s = s.expect(set::R_PAREN, set::R_PAREN, &x.rows, lent);
    s.end(Kind::BooleanExprTuple as u32, from, at, may, x, lent)
}

// A repetition: a row of the set and an item behind it. Its rows are a bound that is never reached.
#[cycle(expressions)]
fn more(
    sep: usize,
    code: usize,
    item: Item,
    mut s: State,
    d: usize,
    x: &Given<'_>,
    lent: &mut Lent<'_>,
) -> State
    requires { Asks x.now s lent.old × (code < 58) }
    ensures read { Reads d true (listed sep code item) x.now s lent.old result lent.new }
    ensures lists { SameLists lent.old lent.new }
{
    if s.mode.isnt(Mode::FINE) {
        return s;
    }
    let turns = x.rows.ids.len() - s.pos + 1;
    for turn in 0..turns {
        let m = s.mark();
        s = s.trivia(&x.rows, lent.events);
        s = s.expect(sep, code, &x.rows, lent);
        if s.mode.isnt(Mode::FINE) {
            return s.undone(m);
        }
        s = each(item, s, d, x, lent);
        if s.mode.isnt(Mode::FINE) {
            return s.undone(m);
        }
    }
    s
}

// An item of a repetition.
#[cycle(expressions)]
fn each(item: Item, s: State, d: usize, x: &Given<'_>, lent: &mut Lent<'_>) -> State
    requires { Asks x.now s lent.old }
    ensures read { Reads d true (item_of item) x.now s lent.old result lent.new }
    ensures lists { SameLists lent.old lent.new }
{
    match item {
        Item::Ident => s.expect(set::IDENT, set::IDENT, &x.rows, lent),
        Item::Term => term(s, d, true, x, lent),
        Item::Expr => expr(s, d, true, x, lent),
        Item::PrimaryExpr => primary(s, d, true, x, lent),
        Item::BooleanTerm => bool_term(s, d, true, x, lent),
        Item::BooleanExpr => bool_expr(s, d, true, x, lent),
    }
}
