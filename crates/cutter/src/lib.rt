// Cuts rule text into rows (request (v)): the tokenizer's three modes, by a table of classes and a table of states.
#![tactic(auto)]

ghost use Rattle.std.specs.Prelude.{◌≡◌};
ghost use Rattle.cutter.specs.Rows.{cut, returning};

use crate::pass::{fill, fits};
use shapes::refusal::Refusal;

mod keyword;
mod memo;
mod pass;
mod place;
mod row;
mod turn;

const MOST_BYTES: usize = 1048576;

// The rows of a source, in the three lists, and how many they are; or a refusal, which leaves them as lent.
pub fn cut(
    source: &[u8],
    ids: &mut [u32],
    starts: &mut [u32],
    ends: &mut [u32],
) -> Result<u32, Refusal>
    ensures { returning result ids.new starts.new ends.new
        ≡ cut source.now ids.old starts.old ends.old }
{
    if MOST_BYTES < source.len() {
        return Err(Refusal::Long);
    }
    let room = ids.len().min(starts.len()).min(ends.len());
    if !fits(source, room) {
        return Err(Refusal::Rows);
    }
    Ok(fill(source, ids, starts, ends) as u32)
}
