// Items, one after another.
#![tactic(auto)]

ghost use Rattle.std.specs.Prelude.{◌≡◌, List, ℕ, ◌-◌, ◌*◌, ◌≤◌, ◌<◌, length, take, drop};
ghost use Rattle.definition.specs.Render.{Source};
ghost use Rattle.notes.specs.declared.names.Notes.{Notes};
ghost use Rattle.notes.specs.Whole.{exceeded, fresh};
ghost use Rattle.notes.specs.Bits.{Forgot};
ghost use Rattle.notes.specs.Means.{source, bufs, Lines};
ghost use Rattle.notes.specs.Reading.{source_of, bufs_of, SameLists};
ghost use Rattle.notes.specs.Did.{Wf, Coded};
ghost use Rattle.steps.specs.Steps.{whole, Fits, Ready, Writes};
ghost use Rattle.items.specs.Items as Items;
ghost use Rattle.items.specs.Items.{tally, Flushed, Tells, Strays, Hands, Goes, Settled, settled, junk_node};

use choice::record;
use grammar::rules::read_item;
use kinds::{Kind, has, set};
use notes::cache::forget;
use notes::names::Notes;
use notes::reading::{Given, Lent, RowList};
use shapes::full::Full;
use shapes::mode::Mode;
use shapes::record::{END, HEAD, next_record};
use shapes::sort::Sort;
use steps::state::{State, around};

// The state, and how many error events stand written.
#[derive(Drop)]
pub struct Desk {
    pub state: State,
    pub before: u32,
}

// Writes the events of an item's records, the first with index `before`. The index stays within its bits, whatever stands in the records. Records are not of
// one length, so each says where the next begins.
pub fn flush(mut s: State, before: u32, records: &[u32], events: &mut [u32]) -> Desk
    requires { Fits s events.old }
    ensures { (n : Notes) → Flushed records.now before (whole s n) (tally result n) events.old events.new }
{
    let depth = around(s.ev, events);
    let mut at = 0;
    let mut index = before;
    while at + HEAD <= records.len() {
        if index == 4294967295 {
            return Desk {
                state: s,
                before: index,
            };
        }
        let start = records[at];
        let end = records[at + END];
        s = s.write(Sort::Error as u32, index, start, end, depth, events);
        index += 1;
        at = next_record(records, at);
    }
    Desk {
        state: s,
        before: index,
    }
}

// Writes the events of the records that stand between two places of the list, which stays as it was.
fn pending(
    s: State,
    before: u32,
    from: usize,
    to: usize,
    errors: &mut [u32],
    events: &mut [u32],
) -> Desk
    requires { Fits s events.old × (from ≤ to) × (to ≤ length errors.old) }
    ensures { ((n : Notes) → Flushed (take (to - from) (drop from errors.old)) before (whole s n) (tally result n) events.old events.new)
        × (errors.new ≡ errors.old) }
{
    flush(s, before, &errors[from..to], events)
}

// Writes the pending errors as events; from then on they are no more pending.
pub fn tell(s: State, before: u32, lent: &mut Lent<'_>) -> Desk
    requires { Fits s lent.old.events.now
        × (lent.old.notes.item ≤ lent.old.notes.er)
        × (lent.old.notes.er ≤ length lent.old.errors.now) }
    ensures told { (x : Source) (sc : List ℕ) → Wf x (bufs lent.old.events.now lent.old.errors.now sc) (whole s lent.old.notes)
        → Tells x (whole s lent.old.notes) before (tally result lent.new.notes) (bufs lent.old.events.now lent.old.errors.now sc)
        (bufs lent.new.events.now lent.old.errors.now sc) }
    ensures errors { lent.new.errors.now ≡ lent.old.errors.now }
    ensures scratch { lent.new.scratch ≡ lent.old.scratch }
    ensures lists { SameLists lent.old lent.new }
{
    let item = lent.notes.item;
    let er = lent.notes.er;
    let d = pending(s, before, item, er, lent.errors, lent.events);
    lent.notes.item = er;
    d
}

// An ERROR node up to the next rule, without fuel.
pub fn junk(mut s: State, rows: &RowList<'_>, events: &mut [u32]) -> State
    requires { Lines rows.now.ids.now rows.now.ends.now × Fits s events.old × (s.pos ≤ length rows.now.ids.now) }
    ensures { Writes junk_node rows.now s result events.old events.new }
{
    let from = s.pos;
    let start = rows.start_of(from);
    s = s.put(Sort::Begin as u32, 0, start, start, events);
    let at = s.ev;
    s = s.skip_to(set::RULE_KEYWORDS, rows, events);
    s.shut(Kind::Error as u32, from, at, rows, events)
}

// A row that begins no item: error form 10 on it, its record before its event, and an ERROR node.
pub fn stray(mut s: State, before: u32, rows: &RowList<'_>, lent: &mut Lent<'_>) -> Desk
    requires { Ready rows.now s lent.old
        × (lent.old.notes.ercap ≤ length lent.old.errors.now)
        × (s.pos < length rows.now.ids.now)
        × (exceeded s.full ≡ 0) }
    ensures written { (bytes sc : List ℕ)
        → Wf (source bytes rows.now.ids.now rows.now.ends.now) (bufs lent.old.events.now lent.old.errors.now sc) (whole s lent.old.notes)
        → Strays (source bytes rows.now.ids.now rows.now.ends.now) (whole s lent.old.notes) before (tally result lent.new.notes)
        (bufs lent.old.events.now lent.old.errors.now sc)
        (bufs lent.new.events.now lent.new.errors.now sc) }
    ensures scratch { lent.new.scratch ≡ lent.old.scratch }
    ensures lists { SameLists lent.old lent.new }
{
    let at = s.pos;
    let start = rows.start_of(at);
    let end = rows.ends[at];
    s.full = record(start, end, 10, &[], lent.errors, &mut lent.notes);
    let d = tell(s, before, lent);
    Desk {
        state: junk(d.state, rows, lent.events),
        before: d.before,
    }
}

// By the row at hand: an item, or a row that begins none; or nothing is left.
pub fn at_hand(s: State, before: u32, depth: usize, x: &Given<'_>, lent: &mut Lent<'_>) -> Desk
    requires { Wf (source_of x.now) (bufs_of lent.old) (whole s lent.old.notes) }
    ensures read { Hands (depth, x.now.entrypoint) (source_of x.now) (whole s lent.old.notes) before
        (tally result lent.new.notes) (bufs_of lent.old) (bufs_of lent.new) }
    ensures lists { SameLists lent.old lent.new }
{
    if s.full.isnt(Full::NONE) {
        return Desk { state: s, before };
    }
    let at = s.pos;
    if at >= x.rows.ids.len() {
        return Desk { state: s, before };
    }
    let id = x.rows.ids[at];
    if has(set::RULE_OR_IMPORT, id) {
        return Desk {
            state: read_item(id, s, depth, x, lent),
            before,
        };
    }
    stray(s, before, &x.rows, lent)
}

// What an item leaves behind is given up, but for place, fuel and outputs.
pub fn settle(d: Desk, scratch: &mut [u64], notes: &mut Notes) -> Desk
    requires { (2 * notes.old.far ≤ 64 * length scratch.old) × Coded notes.old }
    ensures { (whole result.state notes.new ≡ settled (whole d.state notes.old))
        × (result.before ≡ d.before)
        × Forgot (notes.old.first) (notes.old.far) scratch.old scratch.new }
{
    let mut s = d.state;
    forget(notes.first, notes.far, scratch);
    notes.first = s.pos;
    notes.far = s.pos;
    notes.want = 0;
    notes.unwant = 0;
    if s.mode.is(Mode::FAILED) {
        s.mode = Mode::FINE;
    }
    Desk {
        state: s,
        before: d.before,
    }
}

// Whether no item is to be read: a room was exceeded, the reader stopped, or no row is left.
pub fn over(s: State, rows: &RowList<'_>) -> bool
    ensures { result ≡ Items.over (length rows.now.ids.now) (whole s fresh) }
{
    if s.full.isnt(Full::NONE) {
        return true;
    }
    if s.mode.isnt(Mode::FINE) {
        return true;
    }
    s.pos >= rows.ids.len()
}

// One item with its number, if the state is in good order and rows are left.
pub fn item(d: Desk, number: usize, depth: usize, x: &Given<'_>, lent: &mut Lent<'_>) -> Desk
    requires { Wf (source_of x.now) (bufs_of lent.old) (whole d.state lent.old.notes)
        × Settled (whole d.state lent.old.notes)
        × (number ≤ length x.now.rows.ids.now) }
    ensures read { Goes (depth, x.now.entrypoint) number 1 (source_of x.now) (tally d lent.old.notes)
        (tally result lent.new.notes) (bufs_of lent.old) (bufs_of lent.new) }
    ensures lists { SameLists lent.old lent.new }
{
    let s = d.state;
    if over(s, &x.rows) {
        return d;
    }
    lent.notes.number = number;
    let t = s.trivia(&x.rows, lent.events);
    let h = at_hand(t, d.before, depth, x, lent);
    let u = tell(h.state, h.before, lent);
    settle(u, lent.scratch, &mut lent.notes)
}

// All items, numbered from 1: each takes a row, so there are no more of them than rows.
pub fn items(mut d: Desk, depth: usize, x: &Given<'_>, lent: &mut Lent<'_>) -> Desk
    requires { Wf (source_of x.now) (bufs_of lent.old) (whole d.state lent.old.notes)
        × Settled (whole d.state lent.old.notes) }
    ensures read { Goes (depth, x.now.entrypoint) 1 (length x.now.rows.ids.now) (source_of x.now)
        (tally d lent.old.notes) (tally result lent.new.notes) (bufs_of lent.old) (bufs_of lent.new) }
    ensures lists { SameLists lent.old lent.new }
{
    for number in 0..x.rows.ids.len() {
        if over(d.state, &x.rows) {
            return d;
        }
        d = item(d, number + 1, depth, x, lent);
    }
    d
}
