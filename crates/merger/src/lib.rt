// Joins neighbouring ERROR nodes of an event list (document 01, module 8). Nothing is written before all three refusals are judged.
#![tactic(auto)]

mod judge;
mod marks;
mod pen;

ghost use Rattle.std.specs.Prelude.{◌≡◌};
ghost use Rattle.definition.specs.Merge.{merging};
ghost use Rattle.merger.specs.Answer.{returning};

use crate::judge::count;
use crate::pen::write;
use cells::fill;
use events::well_formed;
use shapes::event::EVENT;
use shapes::refusal::Refusal;

// Either the refusal, with the room as lent, or how many events the finished list has, which then stands in the room with zeros past it.
pub fn merge(events: &[u32], room: &mut [u32]) -> Result<usize, Refusal>
    ensures { returning result room.new ≡ merging events.now room.old }
{
    if !well_formed(events) {
        return Err(Refusal::Malformed);
    }
    let n = count(events).ok_or(Refusal::Unpaired)?;
    if room.len() / EVENT < n {
        return Err(Refusal::Events);
    }
    write(events, room);
    fill(&mut room[n * EVENT..], 0);
    Ok(n)
}
