// A list of events that was lent: whether it is one (refusal 9), and an event at a place. The merger, the list of rules and the outline stand on it.
#![tactic(auto)]

ghost use Rattle.std.specs.Prelude.{◌≡◌, ◌+◌, ◌≤◌, length};
ghost use Rattle.shapes.specs.Shapes.{EVENT};
ghost use Rattle.definition.specs.Merge as D;
ghost use Rattle.events.specs.Events.{entry_of, entry_at};

use shapes::event::{DEPTH, END, EVENT, KIND, SORT, START};
use shapes::sort::Sort;

#[derive(Clone, Copy)]
pub struct Event {
    pub sort: u32,
    pub kind: u32,
    pub start: u32,
    pub end: u32,
    pub depth: u32,
}

pub fn read(l: &[u32], at: usize) -> Event
    requires { at + EVENT ≤ length l.now }
    ensures { entry_of result ≡ entry_at l.now at }
{
    Event {
        sort: l[at],
        kind: l[at + KIND],
        start: l[at + START],
        end: l[at + END],
        depth: l[at + DEPTH],
    }
}

// Whether the list is no case of refusal 9: one sweep, with a count of the nodes that are open.
pub fn well_formed(events: &[u32]) -> bool
    ensures { result ≡ D.well_formed events.now }
{
    if events.len() % EVENT != 0 {
        return false;
    }
    let mut nodes: usize = 0;
    for event in events.chunks_exact(EVENT) {
        let depth = event[DEPTH] as usize;
        let Ok(sort) = Sort::try_from(event[SORT]) else {
            return false;
        };
        // An end has the depth of its begin, so none is right where no node is open.
        match sort {
            Sort::Begin if depth == nodes => nodes += 1,
            Sort::End if depth + 1 == nodes => nodes = depth,
            Sort::Token | Sort::Error if depth == nodes => {}
            _ => return false,
        }
    }
    true
}
