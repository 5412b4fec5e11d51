// What an event list is to the merger, one mark after the other.
ghost use Rattle.std.specs.Prelude.{◌≡◌, true, ◌+◌, ◌≤◌, length};
ghost use Rattle.shapes.specs.Sort as S;
ghost use Rattle.shapes.specs.Shapes.{EVENT};
ghost use Rattle.definition.specs.Merge.{error_of};
ghost use Rattle.events.specs.Events.{entry_of, entry_at};
ghost use Rattle.merger.specs.Events.{put_at, Reads};

use events::{Event, read};
use kinds::Kind;
use shapes::event::{DEPTH, END, EVENT, KIND, START};
use shapes::sort::Sort;

// Opens bears depth and span of an ERROR begin, Joins its span, Closes the depth of an ERROR end.
#[derive(Clone, Copy)]
pub enum Mark {
    Opens(u32, u32, u32),
    Joins(u32, u32),
    Closes(u32),
    Keeps(Event),
}

pub fn put(room: &mut [u32], at: usize, e: Event)
    requires { at + EVENT ≤ length room.old }
    ensures { room.new ≡ put_at room.old at (entry_of e) }
{
    room[at] = e.sort;
    room[at + KIND] = e.kind;
    room[at + START] = e.start;
    room[at + END] = e.end;
    room[at + DEPTH] = e.depth;
}

fn is_error(e: Event, sort: Sort) -> bool
    ensures { result ≡ error_of (S.number sort) (entry_of e) }
{
    e.sort == u32::from(sort) && e.kind == Kind::Error as u32
}

// An ERROR end takes the ERROR begin directly after it along.
fn ended(events: &[u32]) -> (Mark, &[u32])
    requires { (EVENT ≤ length events.now) × (error_of S.END (entry_at events.now 0) ≡ true) }
    ensures { Reads events.now result.0 result.1.now }
{
    let depth = events[DEPTH];
    let behind = &events[EVENT..];
    if behind.len() < EVENT {
        return (Mark::Closes(depth), behind);
    }
    let e = read(behind, 0);
    if is_error(e, Sort::Begin) {
        return (Mark::Joins(e.start, e.end), &behind[EVENT..]);
    }
    (Mark::Closes(depth), behind)
}

// The first mark of a list that has an event, and the list behind what the mark stands for.
pub fn first_mark(events: &[u32]) -> (Mark, &[u32])
    requires { EVENT ≤ length events.now }
    ensures { Reads events.now result.0 result.1.now }
{
    let e = read(events, 0);
    if is_error(e, Sort::Begin) {
        return (Mark::Opens(e.depth, e.start, e.end), &events[EVENT..]);
    }
    if is_error(e, Sort::End) {
        return ended(events);
    }
    (Mark::Keeps(e), &events[EVENT..])
}
