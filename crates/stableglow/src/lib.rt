// The public face. Crate stableglow_c exports it: what C and Rust link.
#![tactic(auto)]

ghost use Rattle.std.specs.Prelude.{◌≡◌, ◌%◌, ◌^◌, ℕ, List};
ghost use Rattle.reading.specs.Reading.{reading, outcome_of};
ghost use Rattle.definition.specs.Merge.{merging};
ghost use Rattle.outline.specs.Rules.{ruling};
ghost use Rattle.outline.specs.Outline.{outlining};
ghost use Rattle.refusals.specs.Judge.{desk};
ghost use Rattle.cutter.specs.Rows.{cut};
ghost use Rattle.messages.specs.Message.{messaging};
ghost use Rattle.stableglow.specs.Face.{face, list_face, faced, message_face, told_of, read_face, read_faced, cut_face, cut_faced};

use desk::read::Answered;
use reading::Unread;
use shapes::refusal::Refusal;

// A count as a cell of 32 bits has it.
fn cell(n: usize) -> u32
    ensures { result ≡ n % 2 ^ 32 }
{
    (n % 4294967296) as u32
}

// The refusal's number, 0 for an answer, whose number stands in `count`.
fn told(answer: Result<u32, Refusal>, count: &mut [u32; 1]) -> u32
    ensures { (result, count.new) ≡ told_of answer }
{
    match answer {
        Ok(n) => {
            *count = [n];
            0
        }
        Err(refusal) => {
            *count = [0];
            u32::from(refusal)
        }
    }
}

// Cuts rule text into rows. Returns the refusal's number, 0 for an answer; the count of rows stands in `count`.
pub fn stableglow_cut(
    source: &[u8],
    ids: &mut [u32],
    starts: &mut [u32],
    ends: &mut [u32],
    count: &mut [u32; 1],
) -> u32
    ensures { cut_faced result count.new ids.new starts.new ends.new
        ≡ cut_face (cut source.now ids.old starts.old ends.old) }
{
    let cut = cutter::cut(source, ids, starts, ends);
    told(cut, count)
}

// A reading by its number, 0 for an answer, whose numbers stand in `answer`; on refusal 19 the settings line does.
fn tell(read: Result<Answered, Unread>, answer: &mut [u32; 5]) -> u32
    ensures { (ev er sc : List ℕ) → read_faced result answer.new ev er sc ≡ read_face (outcome_of read ev er sc) }
{
    match read {
        Ok(
            Answered {
                outcome,
                covered,
                events,
                errors,
                left,
            },
        ) => {
            *answer = [
                u32::from(outcome),
                cell(covered),
                cell(events),
                errors,
                left,
            ];
            0
        }
        Err(Unread::BadLine(line)) => {
            *answer = [line, 0, 0, 0, 0];
            u32::from(Refusal::Settings)
        }
        Err(Unread::Refused(refusal)) => {
            *answer = [0, 0, 0, 0, 0];
            u32::from(refusal)
        }
    }
}

// Reads rows into events and error records by the named edition of the settings text, which for edition 1 may be empty; the fuel is edition 1's. Returns
// the refusal's number, 0 for an answer; `answer` holds outcome, rows covered, counts of events and of error records, fuel left, and on refusal 19 the
// settings line.
pub fn stableglow_read(
    source: &[u8],
    ids: &[u32],
    starts: &[u32],
    ends: &[u32],
    settings: &[u8],
    edition: u32,
    fuel: u32,
    scratch: &mut [u64],
    events: &mut [u32],
    errors: &mut [u32],
    answer: &mut [u32; 5],
) -> u32
    ensures { read_faced result answer.new events.new errors.new scratch.new
        ≡ read_face (reading settings.now edition
        (desk source.now ids.now starts.now ends.now fuel scratch.old
        events.old errors.old)) }
{
    let read = reading::read(
        settings, edition, source, ids, starts, ends, fuel, scratch, events, errors,
    );
    tell(read, answer)
}

// Joins neighbouring ERROR nodes of an event list into the room. Returns the refusal's number, 0 for an answer; the count of events stands in `count`.
pub fn stableglow_merge(events: &[u32], room: &mut [u32], count: &mut [u32; 1]) -> u32
    ensures { faced result count.new room.new ≡ face (merging events.now room.old) }
{
    let merged = merger::merge(events, room);
    told(merged.map(cell), count)
}

// Writes the message of the error record that the numbers begin with into the room. Returns the refusal's number, 0 for an answer; the count of bytes
// stands in `length`.
pub fn stableglow_message(
    source: &[u8],
    numbers: &[u32],
    room: &mut [u8],
    length: &mut [u32; 1],
) -> u32
    ensures { faced result length.new room.new
        ≡ message_face (messaging source.now numbers.now room.old) }
{
    let written = messages::message(source, numbers, room);
    told(written.map(cell), length)
}

// Lists the rules of an event list in the room, eight numbers each. Returns the refusal's number, 0 for an answer; the count of rules stands in `count`.
pub fn stableglow_rules(events: &[u32], room: &mut [u32], count: &mut [u32; 1]) -> u32
    ensures { faced result count.new room.new ≡ list_face (ruling events.now room.old) }
{
    let rules = outline::rules(events, room);
    told(rules.map(cell), count)
}

// Lists the nodes below the one that the event at index `at` opens, to a depth, in the room, four numbers each. Returns the refusal's number, 0 for an
// answer; the count of nodes stands in `count`.
pub fn stableglow_outline(
    events: &[u32],
    at: usize,
    depth: u32,
    room: &mut [u32],
    count: &mut [u32; 1],
) -> u32
    ensures { faced result count.new room.new ≡ list_face (outlining events.now at depth room.old) }
{
    let nodes = outline::outline(events, at, depth, room);
    told(nodes.map(cell), count)
}
