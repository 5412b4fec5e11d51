// Rows that are expected, or must not stand there; rows that are skipped.
ghost use Rattle.std.specs.Prelude.{◌≡◌, false, List, ℕ, suc, ◌≤◌, ◌<◌, length, drop};
ghost use Rattle.kinds.specs.Sets.{set_of};
ghost use Rattle.shapes.specs.Mode.{number};
ghost use Rattle.definition.specs.Render.{Source};
ghost use Rattle.definition.specs.Run as P;
ghost use Rattle.notes.specs.Whole.{fresh};
ghost use Rattle.notes.specs.Means.{names_of};
ghost use Rattle.notes.specs.Means.{source, Lines};
ghost use Rattle.notes.specs.Reading.{SameLists};
ghost use Rattle.notes.specs.Did.{Ok, Coded, Plain, Peeked, ahead};
ghost use Rattle.steps.specs.Steps.{whole, Fits, Ready, Writes, Eats};

use crate::state::State;
use kinds::{has, is_trivia, kind_in};
use notes::names::Notes;
use notes::reading::{Lent, RowList};
use shapes::mode::Mode;
use shapes::sort::Sort;

impl State {
    // No row of the set stands at hand: names are entered, and the state fails.
    fn miss(mut self, code: usize, at: usize, notes: &mut Notes) -> Self
        requires { Coded notes.old × (code < 58) × (at ≤ 65536) }
        ensures { (x : Source) → Ok (length x.ids) (whole self notes.old) → Peeked x.ids self.pos at
            → Plain (λ a. P.turn P.failed (P.expected (names_of code) a)) x (whole self notes.old) (whole result notes.new) }
    {
        notes.expected(code, at);
        self.mode = Mode::FAILED;
        self
    }

    // A row of the set stands next past trivia, and is taken up; or the state fails, and the code's names are entered.
    pub fn expect(self, set: usize, code: usize, rows: &RowList<'_>, lent: &mut Lent<'_>) -> Self
        requires { Ready rows.now self lent.old × (code < 58) }
        ensures step { Eats (P.eats (set_of set) (names_of code)) rows.now self lent.old result lent.new }
        ensures lists { SameLists lent.old lent.new }
    {
        if self.mode.isnt(Mode::FINE) {
            return self;
        }
        let at = rows.peek(self.pos);
        if at >= rows.ids.len() {
            return self.miss(code, at, &mut lent.notes);
        }
        let id = rows.ids[at];
        if !has(set, id) {
            return self.miss(code, at, &mut lent.notes);
        }
        self.take(kind_in(set, id), at, rows, lent.events)
    }

    // Takes up trivia and the row behind them, in good order. It is drawn into what calls it: a call would copy the state twice more.
    #[inline(always)]
    fn take(mut self, kind: u32, at: usize, rows: &RowList<'_>, events: &mut [u32]) -> Self
        requires { Lines rows.now.ids.now rows.now.ends.now
            × Fits self events.old
            × (number self.mode ≡ 0)
            × Peeked rows.now.ids.now self.pos at
            × (at < length rows.now.ids.now) }
        ensures { (S N : List ℕ) → P.next S (drop self.pos rows.now.ids.now) ≡ P.Next.hit kind (drop (suc at) rows.now.ids.now)
            → Writes (P.eats S N) rows.now self result events.old events.new }
    {
        self = self.trivia(rows, events);
        let start = rows.start_of(at);
        let end = rows.ends[at];
        self = self.put(Sort::Token as u32, kind, start, end, events);
        self.pos = at + 1;
        self
    }

    // Whether the state is in good order and a row of the set stands next past trivia.
    pub fn sees(self, set: usize, rows: &RowList<'_>) -> bool
        requires { self.pos ≤ length rows.now.ids.now }
        ensures { result ≡ ahead (set_of set) rows.now.ids.now (whole self fresh) }
    {
        if self.mode.isnt(Mode::FINE) {
            return false;
        }
        let at = rows.peek(self.pos);
        if at >= rows.ids.len() {
            return false;
        }
        has(set, rows.ids[at])
    }

    // Goes on without a part that begins with a row of the set, which does not stand there: its names are entered.
    pub fn pass(self, set: usize, rows: &RowList<'_>, notes: &mut Notes)
        requires { (length rows.now.ids.now ≤ 65536) × (self.pos ≤ length rows.now.ids.now) × Coded notes.old × (set < 55) }
        ensures { (bytes ends : List ℕ) → Ok (length rows.now.ids.now) (whole self notes.old)
            → ahead (set_of set) rows.now.ids.now (whole self fresh) ≡ false
            → Plain (P.branches (set_of set) (λ a. a)) (source bytes rows.now.ids.now ends) (whole self notes.old)
            (whole self notes.new) }
    {
        if self.mode.isnt(Mode::FINE) {
            return;
        }
        let at = rows.peek(self.pos);
        if at >= rows.ids.len() {
            return;
        }
        notes.expected(set, at);
    }

    // Fails if a row of the set stands next past trivia. What is looked at is written, for the room that it takes, and taken back.
    pub fn unless(mut self, set: usize, rows: &RowList<'_>, lent: &mut Lent<'_>) -> Self
        requires { Ready rows.now self lent.old }
        ensures step { Eats (P.refuses (set_of set)) rows.now self lent.old result lent.new }
        ensures lists { SameLists lent.old lent.new }
    {
        if self.mode.isnt(Mode::FINE) {
            return self;
        }
        let m = self.mark();
        if !self.sees(set, rows) {
            self = self.trivia(rows, lent.events);
            return self.rewind(m);
        }
        let at = rows.peek(self.pos);
        self = self.take(kind_in(set, rows.ids[at]), at, rows, lent.events);
        self = self.rewind(m);
        lent.notes.unexpected(at);
        self.mode = Mode::FAILED;
        self
    }

    // Takes up rows until one of the set stands next past trivia, or nothing but trivia is left: in the form that document 01 names, an outer loop, an inner one
    // and a label.
    pub fn skip_to(mut self, set: usize, rows: &RowList<'_>, events: &mut [u32]) -> Self
        requires { Lines rows.now.ids.now rows.now.ends.now × Fits self events.old × (self.pos ≤ length rows.now.ids.now) }
        ensures { Writes (P.skip_to (set_of set)) rows.now self result events.old events.new }
    {
        let mut seen = self.pos;
        'rows: while self.pos < rows.ids.len() {
            loop {
                if seen >= rows.ids.len() {
                    break 'rows;
                }
                let id = rows.ids[seen];
                if !is_trivia(id) {
                    if has(set, id) {
                        break 'rows;
                    }
                    break;
                }
                seen += 1;
            }
            let at = self.pos;
            let id = rows.ids[at];
            let start = rows.start_of(at);
            let end = rows.ends[at];
            self = self.put(Sort::Token as u32, id, start, end, events);
            self.pos = at + 1;
            if seen < at + 1 {
                seen = at + 1;
            }
        }
        self
    }
}
