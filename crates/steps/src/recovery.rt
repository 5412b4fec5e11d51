// Nodes ended, errors chosen, recovery.
ghost use Rattle.std.specs.Prelude.{◌≡◌, ◌-◌, ◌≤◌, ◌<◌, eqb, length};
ghost use Rattle.kinds.specs.Kinds as k;
ghost use Rattle.kinds.specs.Sets.{set_of};
ghost use Rattle.shapes.specs.Mode.{number};
ghost use Rattle.shapes.specs.Shapes.{EVENT};
ghost use Rattle.definition.specs.Render.{Source};
ghost use Rattle.definition.specs.Run as P;
ghost use Rattle.notes.specs.Whole.{Whole, beside, exceeded};
ghost use Rattle.notes.specs.Bits.{ifb};
ghost use Rattle.notes.specs.Reading.{source_of, SameLists};
ghost use Rattle.notes.specs.Did.{Ok, Coded, Plain, Errors, Peeked};
ghost use Rattle.steps.specs.Steps.{whole, tells, Whence, Mends, Ends};

use crate::state::State;
use choice::choose;
use kinds::{Kind, has};
use notes::names::Notes;
use notes::reading::{Given, Lent};
use shapes::mode::Mode;

impl State {
    // Ends a node.
    pub fn end(
        mut self,
        kind: u32,
        from: usize,
        at: usize,
        optional: bool,
        x: &Given<'_>,
        lent: &mut Lent<'_>,
    ) -> Self
        requires { Whence x.now self lent.old
            × (from ≤ self.pos)
            × (exceeded self.full ≡ 0 → (EVENT ≤ at) × (at ≤ self.ev)) }
        ensures step { Ends (P.finish optional kind (length x.now.rows.ids.now - from)) at x.now self lent.old result lent.new }
        ensures lists { SameLists lent.old lent.new }
    {
        self = self.told(optional, x, lent.errors, &mut lent.notes);
        self.shut(shown(kind, self.mode), from, at, &x.rows, lent.events)
    }

    // Outside optional parts an error is chosen where a node did not go well.
    fn told(mut self, optional: bool, x: &Given<'_>, errors: &mut [u32], notes: &mut Notes) -> Self
        requires { Ok (length x.now.rows.ids.now) (whole self notes.old) × (notes.old.ercap ≤ length errors.old) }
        ensures { Errors (tells optional) (source_of x.now) (whole self notes.old)
            (whole result notes.new) errors.old errors.new
            × (result.mode ≡ self.mode) }
    {
        if self.mode.is(Mode::FINE) {
            return self;
        }
        if optional {
            return self;
        }
        self.full = choose(self.full, x, errors, notes);
        self
    }

    // An ERROR node around the rows up to one of the set.
    fn swallow(
        mut self,
        d: usize,
        optional: bool,
        set: usize,
        x: &Given<'_>,
        lent: &mut Lent<'_>,
    ) -> Self
        requires { Whence x.now self lent.old }
        ensures step { Mends (P.swallow d optional (set_of set)) x.now self lent.old result lent.new }
        ensures lists { SameLists lent.old lent.new }
    {
        self = self.begin(d, &x.rows, lent.events);
        let from = self.pos;
        let at = self.ev;
        self = self.skip_to(set, &x.rows, lent.events);
        self.end(Kind::Error as u32, from, at, optional, x, lent)
    }

    // Goes on at a row of the set, in good order; what stands before it goes into an ERROR node.
    pub fn recover(
        mut self,
        d: usize,
        optional: bool,
        set: usize,
        x: &Given<'_>,
        lent: &mut Lent<'_>,
    ) -> Self
        requires { Whence x.now self lent.old × (set < 55) }
        ensures step { Mends (P.recovery d optional (set_of set)) x.now self lent.old result lent.new }
        ensures lists { SameLists lent.old lent.new }
    {
        if self.is_stopped() {
            return self;
        }
        let mode = self.mode;
        self.mode = Mode::FINE;
        let at = x.rows.peek(self.pos);
        if at >= x.rows.ids.len() {
            return self;
        }
        if !has(set, x.rows.ids[at]) {
            first_names(set, at, &mut lent.notes);
            self.full = choose(self.full, x, lent.errors, &mut lent.notes);
            return self.swallow(d, optional, set, x, lent);
        }
        if mode.is(Mode::FINE) {
            return self;
        }
        self.full = choose(self.full, x, lent.errors, &mut lent.notes);
        self
    }
}

// The kind of a node's events: its own, or ERROR where it did not go well.
fn shown(kind: u32, mode: Mode) -> u32
    ensures { result ≡ ifb (eqb (number mode) 0) kind k.ERROR }
{
    if mode.is(Mode::FINE) {
        return kind;
    }
    Kind::Error as u32
}

// Where no error of the item is pending, the set's names are entered first.
fn first_names(set: usize, at: usize, notes: &mut Notes)
    requires { Coded notes.old × (set < 55) × (at ≤ 65536) }
    ensures { (x : Source) (s : Whole) → Ok (length x.ids) (beside notes.old s) → Peeked x.ids s.pos at
        → Plain (λ a. P.first_names a.chosen (set_of set) a) x (beside notes.old s) (beside notes.new s) }
{
    if notes.er == notes.item {
        notes.expected(set, at);
    }
}
