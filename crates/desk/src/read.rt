// The public reader: the refusals in their order, the reading inside SOURCE_FILE, and zeros where they belong.
ghost use Rattle.std.specs.Prelude.{◌≡◌, ◌⊎◌, ◌+◌, ◌*◌, ◌≤◌, Ok, Err, length, replicate};
ghost use Rattle.shapes.specs.Shapes.{EVENT};
ghost use Rattle.shapes.specs.Refusal.{number};
ghost use Rattle.shapes.specs.Mode as modes;
ghost use Rattle.shapes.specs.Outcome as outcomes;
ghost use Rattle.definition.specs.Run as P;
ghost use Rattle.definition.specs.Answer.{refusing, after};
ghost use Rattle.refusals.specs.Judge.{desk};
ghost use Rattle.notes.specs.declared.names.Notes as names;
ghost use Rattle.notes.specs.Whole.{exceeded};
ghost use Rattle.notes.specs.Means.{bufs};
ghost use Rattle.notes.specs.Reading.{source_of};
ghost use Rattle.notes.specs.Did.{Wf};
ghost use Rattle.steps.specs.Steps as steps;
ghost use Rattle.items.specs.Items as Items;
ghost use Rattle.items.specs.Items.{tally, Goes, Settled};
ghost use Rattle.desk.specs.Framing.{limits_of, Framed, after_of, answering, outcome_of};

use cells::fill;
use items::{Desk, items};
use kinds::Kind;
use notes::names::Notes;
use notes::reading::{Given, Lent, RowList};
use refusals::judged;
use shapes::event::{DEPTH, END, EVENT, KIND, START};
use shapes::full::Full;
use shapes::mode::Mode;
use shapes::outcome::Outcome;
use shapes::refusal::Refusal;
use shapes::sort::Sort;
use steps::state::State;

// How many nodes may be open besides SOURCE_FILE, how long a found text may be to be quoted, and whether entrypoint is a term. Any values will do; each
// open node takes stack. A depth of 16 bits keeps every event's depth within its cell.
#[derive(Drop)]
pub struct Limits {
    pub depth: u16,
    pub quote: u8,
    pub entrypoint: bool,
}

// Document 01's limits.
pub fn base() -> Limits
    ensures { limits_of result ≡ P.base }
{
    Limits {
        depth: 1024,
        quote: 15,
        entrypoint: true,
    }
}

// Outcome, rows covered, counts of events and error records, fuel left.
#[derive(Clone, Copy, PartialEq, Eq)]
pub struct Answered {
    pub outcome: Outcome,
    pub covered: usize,
    pub events: usize,
    pub errors: u32,
    pub left: u32,
}

// What a whole reading leaves, and how many numbers of error records stand written.
#[derive(Drop)]
struct Ended {
    desk: Desk,
    er: usize,
}

// Before the first item.
fn blank(fuel: u32, evcap: usize) -> Desk
    ensures { result ≡ Items.blank fuel evcap }
{
    Desk {
        state: State {
            pos: 0,
            ev: 0,
            evcap,
            fuel,
            mode: Mode::FINE,
            full: Full::NONE,
        },
        before: 0,
    }
}

// "Outcome 0 is done, 1 out of fuel, 2 too deep."
fn outcome(mode: Mode) -> Outcome
    ensures { outcomes.number result ≡ outcome_of (modes.number mode) }
{
    if mode.number < Mode::SPENT.number {
        return Outcome::Done;
    }
    if mode.is(Mode::SPENT) {
        return Outcome::Spent;
    }
    Outcome::Deep
}

// All items, by what is noted and lent. They are lent here, where each list is whole: what was written into a part of one is not known behind such a loan.
fn all_items(
    d: Desk,
    depth: usize,
    notes: Notes,
    x: &Given<'_>,
    scratch: &mut [u64],
    events: &mut [u32],
    errors: &mut [u32],
) -> Ended
    requires { Wf (source_of x.now) (bufs events.old errors.old scratch.old) (steps.whole d.state notes)
        × Settled (steps.whole d.state notes) }
    ensures { (n : names.Notes) × (n.er ≡ result.er)
        × Goes (depth, x.now.entrypoint) 1 (length x.now.rows.ids.now) (source_of x.now) (tally d notes) (tally result.desk n)
        (bufs events.old errors.old scratch.old) (bufs events.new errors.new scratch.new) }
{
    let mut lent = Lent {
        events,
        errors,
        scratch,
        notes,
    };
    let desk = items(d, depth, x, &mut lent);
    Ended {
        desk,
        er: lent.notes.er,
    }
}

// SOURCE_FILE around all items, in events with room for its begin event, where scratch is all zero.
fn whole(
    x: &Given<'_>,
    fuel: u32,
    limits: Limits,
    scratch: &mut [u64],
    events: &mut [u32],
    errors: &mut [u32],
) -> Ended
    requires { (x.now.entrypoint ≡ limits.entrypoint)
        × (scratch.old ≡ replicate (length scratch.old) 0)
        × (2 * (length x.now.rows.ids.now + 1) ≤ 64 * length scratch.old)
        × (EVENT ≤ length events.old) }
    ensures { Framed (limits_of limits) (source_of x.now) fuel (length events.old)
        (length errors.old) result.desk result.er events.new errors.new }
{
    let size = x.src.len() as u32;
    events[0] = u32::from(Sort::Begin);
    events[KIND] = Kind::SourceFile as u32;
    events[START] = 0;
    events[END] = size;
    events[DEPTH] = 0;
    let d = blank(fuel, events.len() - EVENT);
    let mut notes = Notes::fresh();
    notes.ercap = errors.len();
    notes.quote = limits.quote as usize;
    let inner = &mut events[EVENT..];
    let r = all_items(d, limits.depth as usize, notes, x, scratch, inner, errors);
    let s = r.desk.state;
    let t = s.write(Sort::End as u32, Kind::SourceFile as u32, 0, size, 0, inner);
    Ended {
        desk: Desk {
            state: t,
            before: r.desk.before,
        },
        er: r.er,
    }
}

// Which room it was, where one was exceeded.
fn room_of(full: Full) -> Refusal
    requires { (exceeded full ≡ 7) ⊎ (exceeded full ≡ 8) }
    ensures { number result ≡ exceeded full }
{
    if full.is(Full::EVENTS) {
        return Refusal::Events;
    }
    Refusal::Errors
}

// A room was exceeded: everything is zero.
fn spoilt(room: Refusal, scratch: &mut [u64], events: &mut [u32], errors: &mut [u32]) -> Refusal
    ensures { after_of (Err result) events.new errors.new scratch.new
        ≡ refusing (number room) (replicate (length events.old) 0) (replicate (length errors.old) 0)
        (replicate (length scratch.old) 0) }
{
    fill(scratch, 0);
    fill(events, 0);
    fill(errors, 0);
    room
}

// The finished lists, with zeros behind them.
fn finished(
    d: Desk,
    er: usize,
    scratch: &mut [u64],
    events: &mut [u32],
    errors: &mut [u32],
) -> Answered
    requires { (d.state.ev + EVENT ≤ length events.old) × (er ≤ length errors.old) }
    ensures { after_of (Ok result) events.new errors.new scratch.new
        ≡ answering d er events.old errors.old scratch.old }
{
    let s = d.state;
    fill(scratch, 0);
    let to = s.ev + EVENT;
    fill(&mut events[to..], 0);
    fill(&mut errors[er..], 0);
    Answered {
        outcome: outcome(s.mode),
        covered: s.pos,
        events: to / EVENT,
        errors: d.before,
        left: s.fuel,
    }
}

// Reads rows into events and error records, both lists from the first cell on.
pub fn read(
    src: &[u8],
    ids: &[u32],
    starts: &[u32],
    ends: &[u32],
    fuel: u32,
    limits: Limits,
    scratch: &mut [u64],
    events: &mut [u32],
    errors: &mut [u32],
) -> Result<Answered, Refusal>
    ensures { after_of result events.new errors.new scratch.new
        ≡ after (limits_of limits)
        (desk src.now ids.now starts.now ends.now fuel
        scratch.old events.old errors.old) }
{
    judged(src, ids, starts, ends, scratch.len())?;
    if events.len() < EVENT {
        return Err(spoilt(Refusal::Events, scratch, events, errors));
    }
    fill(scratch, 0);
    let x = Given {
        src,
        rows: RowList { ids, ends },
        entrypoint: limits.entrypoint,
    };
    let ended = whole(&x, fuel, limits, scratch, events, errors);
    let full = ended.desk.state.full;
    if full.isnt(Full::NONE) {
        return Err(spoilt(room_of(full), scratch, events, errors));
    }
    Ok(finished(ended.desk, ended.er, scratch, events, errors))
}
