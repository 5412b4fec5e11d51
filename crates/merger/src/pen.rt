// Writing the finished list. While an ERROR node is open, sort and kind of its begin event are known, so their cells hold a link instead: the place past
// the begin event of the ERROR node around it, in two halves of 32 bits, since a list may be longer than a cell can count. When the node closes, the
// link says at once which node is the innermost again, and sort and kind are written back.
ghost use Rattle.std.specs.Prelude.{◌≡◌, ◌*◌, length, take};
ghost use Rattle.shapes.specs.Shapes.{EVENT, flat};
ghost use Rattle.definition.specs.Merge as D;
ghost use Rattle.events.specs.Events.{entry_of};
ghost use Rattle.merger.specs.Events.{mark_of};
ghost use Rattle.merger.specs.Pen.{page, turn, Able, Writable};

use crate::marks::{Mark, first_mark, put};
use events::{Event, read};
use kinds::Kind;
use shapes::event::{EVENT, KIND};
use shapes::sort::Sort;

// What half a link can count.
const HALF: usize = 4294967296;

#[derive(Clone, Copy)]
pub struct Pen {
    // The place past the last event that is written.
    pub to: usize,
    // The place past the begin event of the innermost ERROR node that is open, or 0 where none is: a number, as in the link that cells hold.
    pub node: usize,
}

impl Pen {
    fn opens(self, depth: u32, start: u32, end: u32, room: &mut [u32]) -> Self
        requires { Able (D.opens depth (start, end)) (page room.old self) }
        ensures { page room.new result ≡ turn (D.opens depth (start, end)) (page room.old self) }
    {
        let to = self.to;
        let node = self.node;
        let e = Event {
            sort: (node % HALF) as u32,
            kind: (node / HALF) as u32,
            start,
            end,
            depth,
        };
        put(room, to, e);
        Pen {
            to: to + EVENT,
            node: to + EVENT,
        }
    }

    fn joins(self, start: u32, end: u32, room: &mut [u32]) -> Self
        requires { Able (D.joins (start, end)) (page room.old self) }
        ensures { page room.new result ≡ turn (D.joins (start, end)) (page room.old self) }
    {
        let begin = self.node - EVENT;
        let mut e = read(room, begin);
        e.start = e.start.min(start);
        e.end = e.end.max(end);
        put(room, begin, e);
        self
    }

    fn closes(self, depth: u32, room: &mut [u32]) -> Self
        requires { Able (D.closes depth) (page room.old self) }
        ensures { page room.new result ≡ turn (D.closes depth) (page room.old self) }
    {
        let begin = self.node - EVENT;
        let to = self.to;
        let mut e = read(room, begin);
        let node = e.sort as usize + e.kind as usize * HALF;
        e.sort = u32::from(Sort::Begin);
        e.kind = Kind::Error as u32;
        put(room, begin, e);
        e.sort = u32::from(Sort::End);
        e.depth = depth;
        put(room, to, e);
        Pen {
            to: to + EVENT,
            node,
        }
    }

    fn keeps(self, e: Event, room: &mut [u32]) -> Self
        requires { Able (D.keeps (entry_of e)) (page room.old self) }
        ensures { page room.new result ≡ turn (D.keeps (entry_of e)) (page room.old self) }
    {
        let to = self.to;
        put(room, to, e);
        Pen {
            to: to + EVENT,
            node: self.node,
        }
    }

    fn turn(self, m: Mark, room: &mut [u32]) -> Self
        requires { Able (mark_of m) (page room.old self) }
        ensures { page room.new result ≡ turn (mark_of m) (page room.old self) }
    {
        match m {
            Mark::Opens(depth, start, end) => self.opens(depth, start, end, room),
            Mark::Joins(start, end) => self.joins(start, end, room),
            Mark::Closes(depth) => self.closes(depth, room),
            Mark::Keeps(e) => self.keeps(e, room),
        }
    }
}

// Writes the finished list, for which there is room.
pub fn write(events: &[u32], room: &mut [u32])
    requires { Writable events.now room.old }
    ensures { take (EVENT * length (D.finished events.now)) room.new ≡ flat (D.finished events.now) }
{
    let mut rest = events;
    let mut pen = Pen { to: 0, node: 0 };
    while let Some((event, behind)) = rest.split_first_chunk::<EVENT>() {
        // As in `count`, only an event that may be an ERROR node's is read as a mark.
        if event[KIND] == Kind::Error as u32 {
            let (mark, unread) = first_mark(rest);
            rest = unread;
            pen = pen.turn(mark, room);
        } else {
            pen = pen.keeps(read(rest, 0), room);
            rest = behind;
        }
    }
}
