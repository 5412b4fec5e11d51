// Refusal 10, and the size of the finished list.
ghost use Rattle.std.specs.Prelude.{◌≡◌, ◌<◌, ◌^◌};
ghost use Rattle.shapes.specs.Shapes.{entries};
ghost use Rattle.definition.specs.Merge as D;
ghost use Rattle.merger.specs.Events.{mark_of};
ghost use Rattle.merger.specs.Count.{tallied, counted};

use crate::marks::{Mark, first_mark};
use kinds::Kind;
use shapes::event::{EVENT, KIND};

// Of the marks so far: how many ERROR nodes are open and how many events are left.
#[derive(Clone, Copy)]
pub struct Tally {
    pub nodes: usize,
    pub left: usize,
}

impl Tally {
    // A mark more, unless it is an ERROR end with none open.
    fn with(self, mark: Mark) -> Option<Self>
        requires { (self.nodes < 2 ^ 63) × (self.left < 2 ^ 63) }
        ensures { result ≡ tallied (mark_of mark) self.nodes self.left }
    {
        let Tally { nodes, left } = self;
        match mark {
            Mark::Opens(_, _, _) => Some(Tally {
                nodes: nodes + 1,
                left: left + 1,
            }),
            Mark::Joins(_, _) => if nodes == 0 { None } else { Some(self) },
            Mark::Closes(_) => Some(Tally {
                nodes: nodes.checked_sub(1)?,
                left: left + 1,
            }),
            Mark::Keeps(_) => Some(Tally {
                nodes,
                left: left + 1,
            }),
        }
    }
}

// How many events the finished list has; none for refusal 10.
pub fn count(events: &[u32]) -> Option<usize>
    ensures { result ≡ counted (D.marks (entries events.now)) }
{
    let mut rest = events;
    let mut tally = Tally { nodes: 0, left: 0 };
    while let Some((event, behind)) = rest.split_first_chunk::<EVENT>() {
        // What has another number where the kind stands is kept. What has this one may still be an error event, whose record stands there.
        if event[KIND] == Kind::Error as u32 {
            let (mark, unread) = first_mark(rest);
            rest = unread;
            tally = tally.with(mark)?;
        } else {
            rest = behind;
            tally.left += 1;
        }
    }
    if tally.nodes == 0 {
        Some(tally.left)
    } else {
        None
    }
}
