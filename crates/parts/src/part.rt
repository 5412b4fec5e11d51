// What repeats a part of a line or leaves it out, whichever part it is.
ghost use Rattle.definition.specs.Prog.{Prog, opt, many};
ghost use Rattle.definition.specs.Grammar.{some};
ghost use Rattle.notes.specs.Reading.{SameLists};
ghost use Rattle.parts.specs.Reads.{Asks, Reads};

use notes::reading::{Given, Lent};
use shapes::mode::Mode;
use steps::state::State;

// A part of a line that has a function of its own. A type without values stands for it.
pub trait Part {
    // What the definition's grammar has there.
    ghost prog: { Prog };

    fn read(s: State, d: usize, may: bool, x: &Given<'_>, lent: &mut Lent<'_>) -> State
        requires { Asks x.now s lent.old }
        ensures read { Reads d may prog x.now s lent.old result lent.new }
        ensures lists { SameLists lent.old lent.new };
}

// The part once and then as often as it is there.
pub fn some<P: Part>(mut s: State, d: usize, may: bool, x: &Given<'_>, lent: &mut Lent<'_>) -> State
    requires { Asks x.now s lent.old }
    ensures read { Reads d may (some P.prog) x.now s lent.old result lent.new }
    ensures lists { SameLists lent.old lent.new }
{
    if s.mode.isnt(Mode::FINE) {
        return s;
    }
    s = s.trivia(&x.rows, lent.events);
    s = P::read(s, d, may, x, lent);
    s = many::<P>(s, d, may, x, lent);
    s
}

// The part as often as it is there, which may be never.
pub fn many<P: Part>(mut s: State, d: usize, may: bool, x: &Given<'_>, lent: &mut Lent<'_>) -> State
    requires { Asks x.now s lent.old }
    ensures read { Reads d may (many P.prog) x.now s lent.old result lent.new }
    ensures lists { SameLists lent.old lent.new }
{
    if s.mode.isnt(Mode::FINE) {
        return s;
    }
    let turns = x.rows.ids.len() - s.pos + 1;
    for turn in 0..turns {
        let m = s.mark();
        s = s.trivia(&x.rows, lent.events);
        s = P::read(s, d, true, x, lent);
        if s.mode.isnt(Mode::FINE) {
            return s.undone(m);
        }
    }
    s
}

// The part, or nothing.
pub fn opt<P: Part>(mut s: State, d: usize, may: bool, x: &Given<'_>, lent: &mut Lent<'_>) -> State
    requires { Asks x.now s lent.old }
    ensures read { Reads d may (opt P.prog) x.now s lent.old result lent.new }
    ensures lists { SameLists lent.old lent.new }
{
    if s.mode.isnt(Mode::FINE) {
        return s;
    }
    let m = s.mark();
    s = s.trivia(&x.rows, lent.events);
    s = P::read(s, d, true, x, lent);
    if s.mode.isnt(Mode::FAILED) {
        return s;
    }
    s = s.rewind(m);
    s.mode = Mode::FINE;
    s
}
