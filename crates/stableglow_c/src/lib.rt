// What C and Rust link: each function of crate stableglow, by its name and with its contract.
#![tactic(auto)]

ghost use Rattle.std.specs.Prelude.{◌≡◌};
ghost use Rattle.reading.specs.Reading.{reading};
ghost use Rattle.definition.specs.Merge.{merging};
ghost use Rattle.outline.specs.Rules.{ruling};
ghost use Rattle.outline.specs.Outline.{outlining};
ghost use Rattle.refusals.specs.Judge.{desk};
ghost use Rattle.cutter.specs.Rows.{cut};
ghost use Rattle.messages.specs.Message.{messaging};
ghost use Rattle.stableglow.specs.Face.{face, list_face, faced, message_face, read_face, read_faced, cut_face, cut_faced};

// Cuts rule text into rows. Returns the refusal's number, 0 for an answer; the count of rows stands in `count`.
#[unsafe(no_mangle)]
pub extern "C" fn stableglow_cut(
    source: &[u8],
    ids: &mut [u32],
    starts: &mut [u32],
    ends: &mut [u32],
    count: &mut [u32; 1],
) -> u32
    ensures { cut_faced result count.new ids.new starts.new ends.new
        ≡ cut_face (cut source.now ids.old starts.old ends.old) }
{
    stableglow::stableglow_cut(source, ids, starts, ends, count)
}

// Reads rows into events and error records by the named edition of the settings text, which for edition 1 may be empty; the fuel is edition 1's. Returns
// the refusal's number, 0 for an answer; `answer` holds outcome, rows covered, counts of events and of error records, fuel left, and on refusal 19 the
// settings line.
#[unsafe(no_mangle)]
pub extern "C" fn stableglow_read(
    source: &[u8],
    ids: &[u32],
    starts: &[u32],
    ends: &[u32],
    settings: &[u8],
    edition: u32,
    fuel: u32,
    scratch: &mut [u64],
    events: &mut [u32],
    errors: &mut [u32],
    answer: &mut [u32; 5],
) -> u32
    ensures { read_faced result answer.new events.new errors.new scratch.new
        ≡ read_face (reading settings.now edition
        (desk source.now ids.now starts.now ends.now fuel scratch.old
        events.old errors.old)) }
{
    stableglow::stableglow_read(
        source, ids, starts, ends, settings, edition, fuel, scratch, events, errors, answer,
    )
}

// Joins neighbouring ERROR nodes of an event list into the room. Returns the refusal's number, 0 for an answer; the count of events stands in `count`.
#[unsafe(no_mangle)]
pub extern "C" fn stableglow_merge(events: &[u32], room: &mut [u32], count: &mut [u32; 1]) -> u32
    ensures { faced result count.new room.new ≡ face (merging events.now room.old) }
{
    stableglow::stableglow_merge(events, room, count)
}

// Writes the message of the error record that the numbers begin with into the room. Returns the refusal's number, 0 for an answer; the count of bytes
// stands in `length`.
#[unsafe(no_mangle)]
pub extern "C" fn stableglow_message(
    source: &[u8],
    numbers: &[u32],
    room: &mut [u8],
    length: &mut [u32; 1],
) -> u32
    ensures { faced result length.new room.new
        ≡ message_face (messaging source.now numbers.now room.old) }
{
    stableglow::stableglow_message(source, numbers, room, length)
}

// Lists the rules of an event list in the room, eight numbers each. Returns the refusal's number, 0 for an answer; the count of rules stands in `count`.
#[unsafe(no_mangle)]
pub extern "C" fn stableglow_rules(events: &[u32], room: &mut [u32], count: &mut [u32; 1]) -> u32
    ensures { faced result count.new room.new ≡ list_face (ruling events.now room.old) }
{
    stableglow::stableglow_rules(events, room, count)
}

// Lists the nodes below the one that the event at index `at` opens, to a depth, in the room, four numbers each. Returns the refusal's number, 0 for an
// answer; the count of nodes stands in `count`.
#[unsafe(no_mangle)]
pub extern "C" fn stableglow_outline(
    events: &[u32],
    at: usize,
    depth: u32,
    room: &mut [u32],
    count: &mut [u32; 1],
) -> u32
    ensures { faced result count.new room.new ≡ list_face (outlining events.now at depth room.old) }
{
    stableglow::stableglow_outline(events, at, depth, room, count)
}
