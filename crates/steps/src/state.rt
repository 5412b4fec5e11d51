// The state, and the steps that write events.
ghost use Rattle.std.specs.Prelude.{◌≡◌, List, ℕ, ◌+◌, ◌-◌, ◌≤◌, length};
ghost use Rattle.std.proofs.Math.Dec.{leb};
ghost use Rattle.shapes.specs.Shapes.{EVENT, event};
ghost use Rattle.shapes.specs.Mode.{number};
ghost use Rattle.definition.specs.Buffer.{cell, next_depth, placed};
ghost use Rattle.definition.specs.Render.{Source};
ghost use Rattle.definition.specs.Run as P;
ghost use Rattle.notes.specs.declared.names.Notes.{Notes};
ghost use Rattle.notes.specs.Whole.{exceeded};
ghost use Rattle.notes.specs.Change.{mark_of, gone, undone_to};
ghost use Rattle.notes.specs.Means.{source, bufs, Lines};
ghost use Rattle.notes.specs.Did.{Ok, Wf, Put, Plain, Began, Shuts, shut_a};
ghost use Rattle.steps.specs.Steps.{whole, Fits, Writes};

use kinds::is_trivia;
use notes::reading::RowList;
use shapes::event::{DEPTH, END, EVENT, KIND, START};
use shapes::full::Full;
use shapes::mode::Mode;
use shapes::sort::Sort;

// What is handed in and handed back at every step. What is looked at seldom is noted in what is lent (crate `notes`).
#[derive(Clone, Copy)]
pub struct State {
    // How many rows are covered.
    pub pos: usize,
    // How many numbers of events stand written, and how many may.
    pub ev: usize,
    pub evcap: usize,
    pub fuel: u32,
    pub mode: Mode,
    // The room that was exceeded first, for events or for records.
    pub full: Full,
}

// A place to come back to.
#[derive(Clone, Copy)]
pub struct Mark {
    pub pos: usize,
    pub ev: usize,
}

// One more, as a cell counts it.
fn deeper(depth: u32) -> u32
    ensures { result ≡ cell (depth + 1) }
{
    ((depth as u64 + 1) % 0x1_0000_0000) as u32
}

// How many nodes are open where the next event stands: the last event's depth, one more where it begins a node.
pub fn around(at: usize, events: &[u32]) -> u32
    requires { at ≤ length events.now }
    ensures { result ≡ next_depth events.now at }
{
    if at < EVENT {
        return 1;
    }
    let last = at - EVENT;
    let depth = events[last + DEPTH];
    if events[last] == u32::from(Sort::Begin) {
        return deeper(depth);
    }
    depth
}

impl State {
    // Whether fuel or depth has run out.
    pub fn is_stopped(self) -> bool
        ensures { result ≡ leb 2 (number self.mode) }
    {
        Mode::SPENT.number <= self.mode.number
    }

    // Writes an event that ends no node.
    pub fn put(self, sort: u32, kind: u32, start: u32, end: u32, events: &mut [u32]) -> Self
        requires { Fits self events.old }
        ensures { (n : Notes) → Put (placed sort kind start end events.old self.ev) (whole self n) (whole result n) events.old
            events.new }
    {
        let depth = around(self.ev, events);
        self.write(sort, kind, start, end, depth, events)
    }

    // Writes an event of a known depth; where there is no room, says so.
    pub fn write(
        mut self,
        sort: u32,
        kind: u32,
        start: u32,
        end: u32,
        depth: u32,
        events: &mut [u32],
    ) -> Self
        requires { Fits self events.old }
        ensures { (n : Notes) → Put (event sort kind start end depth) (whole self n) (whole result n) events.old events.new }
    {
        if self.full.isnt(Full::NONE) {
            return self;
        }
        let at = self.ev;
        if self.evcap - at < EVENT {
            self.full = Full::EVENTS;
            return self;
        }
        events[at] = sort;
        events[at + KIND] = kind;
        events[at + START] = start;
        events[at + END] = end;
        events[at + DEPTH] = depth;
        self.ev = at + EVENT;
        self
    }

    // Takes up trivia, in good order only. The loop counts by the state's own place.
    pub fn trivia(mut self, rows: &RowList<'_>, events: &mut [u32]) -> Self
        requires { Lines rows.now.ids.now rows.now.ends.now × Fits self events.old }
        ensures { Writes P.trivia rows.now self result events.old events.new × (result.mode ≡ self.mode) }
    {
        if self.mode.isnt(Mode::FINE) {
            return self;
        }
        while self.pos < rows.ids.len() {
            let at = self.pos;
            let id = rows.ids[at];
            if !is_trivia(id) {
                return self;
            }
            let start = rows.start_of(at);
            let end = rows.ends[at];
            self = self.put(Sort::Token as u32, id, start, end, events);
            self.pos = at + 1;
        }
        self
    }

    // Takes one fuel for a node, where d more may be open. The first stop stands.
    fn charge(mut self, d: usize) -> Self
        ensures { (x : Source) (n : Notes) → Ok (length x.ids) (whole self n) → Plain (λ a. P.charge d a.fuel a) x (whole self n) (whole result n) }
    {
        if self.fuel == 0 {
            if !self.is_stopped() {
                self.mode = Mode::SPENT;
                return self;
            }
            return self;
        }
        self.fuel -= 1;
        if d == 0 {
            if !self.is_stopped() {
                self.mode = Mode::DEEP;
                return self;
            }
            return self;
        }
        self
    }

    // Begins a node: its event is written, fuel or not.
    pub fn begin(mut self, d: usize, rows: &RowList<'_>, events: &mut [u32]) -> Self
        requires { Lines rows.now.ids.now rows.now.ends.now × Fits self events.old × (self.pos ≤ length rows.now.ids.now) }
        ensures { (bytes : List ℕ) (n : Notes) → Ok (length rows.now.ids.now) (whole self n)
            → Began d (source bytes rows.now.ids.now rows.now.ends.now) (whole self n) (whole result n) events.old events.new }
    {
        self = self.trivia(rows, events);
        self = self.charge(d);
        let start = rows.start_of(self.pos);
        self.put(Sort::Begin as u32, 0, start, start, events)
    }

    // Closes a node that began at row `from`, its event before `at`: that event gets kind and end, and the end event is written.
    pub fn shut(
        self,
        kind: u32,
        from: usize,
        at: usize,
        rows: &RowList<'_>,
        events: &mut [u32],
    ) -> Self
        requires { Fits self events.old × (self.pos ≤ length rows.now.ends.now) × (from ≤ self.pos) × (exceeded self.full ≡ 0 → (EVENT ≤ at) × (at ≤ self.ev)) }
        ensures { (n : Notes) (bytes ids er sc : List ℕ) → Lines ids rows.now.ends.now
            → Wf (source bytes ids rows.now.ends.now) (bufs events.old er sc) (whole self n)
            → Shuts (shut_a kind (length ids - from)) at (source bytes ids rows.now.ends.now) (whole self n) (whole result n)
            (bufs events.old er sc) (bufs events.new er sc) }
    {
        if self.full.isnt(Full::NONE) {
            return self;
        }
        let start = rows.start_of(from);
        let end = rows.start_of(self.pos);
        let begin = at - EVENT;
        let depth = events[begin + DEPTH];
        events[begin + KIND] = kind;
        events[begin + END] = end;
        self.write(Sort::End as u32, kind, start, end, depth, events)
    }

    pub fn mark(self) -> Mark
        ensures { (n : Notes) → (result.pos, result.ev) ≡ mark_of (whole self n) }
    {
        Mark {
            pos: self.pos,
            ev: self.ev,
        }
    }

    // Back to a mark; all but place and events stays.
    pub fn rewind(mut self, m: Mark) -> Self
        ensures { (n : Notes) → whole result n ≡ gone (m.pos, m.ev) (whole self n) }
    {
        self.pos = m.pos;
        self.ev = m.ev;
        self
    }

    // A repetition's last turn failed or stopped: back to its mark; a failure is no more.
    pub fn undone(mut self, m: Mark) -> Self
        ensures { (n : Notes) → whole result n ≡ undone_to (m.pos, m.ev) (whole self n) }
    {
        self.pos = m.pos;
        self.ev = m.ev;
        if self.mode.is(Mode::FAILED) {
            self.mode = Mode::FINE;
            return self;
        }
        self
    }
}
