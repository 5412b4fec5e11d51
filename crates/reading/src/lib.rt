// A reading that names its settings edition: the edition's fuel and limits, and then the reader.
#![tactic(auto)]

ghost use Rattle.std.specs.Prelude.{◌≡◌, List, ℕ, ◌≤◌, length};
ghost use Rattle.shapes.specs.Refusal.{number};
ghost use Rattle.definition.specs.Answer.{refusing};
ghost use Rattle.refusals.specs.Judge.{desk};
ghost use Rattle.desk.specs.Framing.{limits_of};
ghost use Rattle.reading.specs.declared.Unread.TheVariants as unread;
ghost use Rattle.reading.specs.Reading.{limits_in, unknown_to, reading, outcome_of};

use desk::read::{Answered, Limits};
use refusals::judged;
use settings::{ChooseError, Values};
use shapes::refusal::Refusal;

// Why nothing was read.
#[derive(Clone, Copy, PartialEq, Eq)]
pub enum Unread {
    // Refusal 19, with the number of the settings line, from 1; nothing was judged.
    BadLine(u32),
    Refused(Refusal),
}

impl From<Refusal> for Unread {
    ghost from_gives = { λ refusal error. error ≡ unread.Refused refusal };

    fn from(refusal: Refusal) -> Unread {
        Unread::Refused(refusal)
    }
}

fn limits(values: Values) -> Limits
    requires { (values.depth ≤ 1024) × (values.quote ≤ 255) }
    ensures { limits_of result ≡ limits_in values }
{
    Limits {
        depth: values.depth as u16,
        quote: values.quote as u8,
        entrypoint: values.entrypoint == 1,
    }
}

// An edition that is not there: 18, behind the refusals before it.
fn unknown(src: &[u8], ids: &[u32], starts: &[u32], ends: &[u32], scratch: usize) -> Refusal
    ensures { (fuel : ℕ) (sc ev er : List ℕ) → length sc ≡ scratch
        → refusing (number result) ev er sc ≡ unknown_to (desk src.now ids.now starts.now ends.now fuel sc ev er) }
{
    match judged(src, ids, starts, ends, scratch) {
        Err(refusal) => refusal,
        Ok(()) => Refusal::Edition,
    }
}

// Reads rows by the named edition of the settings text. Edition 1 has the fuel that the call is given, a later one its own.
pub fn read(
    text: &[u8],
    edition: u32,
    src: &[u8],
    ids: &[u32],
    starts: &[u32],
    ends: &[u32],
    fuel: u32,
    scratch: &mut [u64],
    events: &mut [u32],
    errors: &mut [u32],
) -> Result<Answered, Unread>
    ensures { outcome_of result events.new errors.new scratch.new
        ≡ reading text.now edition
        (desk src.now ids.now starts.now ends.now fuel
        scratch.old events.old errors.old) }
{
    match settings::choose(text, edition, fuel) {
        Err(ChooseError::BadLine(line)) => Err(Unread::BadLine(line)),
        Err(ChooseError::Unknown) => Err(unknown(src, ids, starts, ends, scratch.len()).into()),
        Ok(values) => {
            let limits = limits(values);
            let answered = desk::read::read(
                src,
                ids,
                starts,
                ends,
                values.fuel,
                limits,
                scratch,
                events,
                errors,
            )?;
            Ok(answered)
        }
    }
}
