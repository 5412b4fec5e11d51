// Lists the rules of a rule file, which is its standard input: a line for each rule, in file order, with its name, the line and the column at which the
// name stands, both from 1, its counts of metadata, patterns and tags, and 1 where an ERROR lies inside it, else 0; tabs between. What keeps it from that it
// says on standard error. The list is not merged first, since a merged list has the same rules.
#![tactic(auto)]

use console::{read_room, write};
use desk::read::Answered;
use shapes::event::EVENT;
use shapes::outcome::Outcome;
use shapes::refusal::Refusal;

const MOST_BYTES: usize = 65536;

const FUEL: u32 = 1000000;

// How many numbers a rule is.
const RULE: usize = 8;

// Where a byte stands, and the line and column there, from 1.
#[derive(Clone, Copy)]
struct Place {
    at: usize,
    line: u64,
    column: u64,
}

impl Place {
    // The place of the byte at `to`, which is not before this one. No text is so long that a number wraps.
    fn moved(self, source: &[u8], to: usize) -> Place {
        let end = to.min(source.len());
        let mut line = self.line;
        let mut column = self.column;
        for b in source.get(self.at..end).unwrap_or(&[]) {
            column = column.wrapping_add(1);
            if *b == b'\n' {
                line = line.wrapping_add(1);
                column = 1;
            }
        }
        Place {
            at: self.at.max(end),
            line,
            column,
        }
    }
}

fn say_refusal(err: &impl Print, refusal: Refusal) {
    let _ = println!(err; "names: refusal {}", u32::from(refusal));
}

// The bytes from a place up to another; a name lies in the source.
fn text_of(source: &[u8], start: u32, end: u32) -> &[u8] {
    source.get(start as usize..end as usize).unwrap_or(source)
}

// A rule is eight numbers: its name's start and end, its own, its counts, and whether it is damaged.
fn write_rules(rt: &impl Print, source: &[u8], rules: &[u32], count: usize) {
    let mut place = Place {
        at: 0,
        line: 1,
        column: 1,
    };
    let (rules, _) = rules.as_chunks::<RULE>();
    for rule in rules.iter().take(count) {
        let [start, end, _, _, metas, patterns, tags, damaged] = *rule;
        place = place.moved(source, start as usize);
        write(rt, text_of(source, start, end));
        let _ = println!(rt;
            "\t{}\t{}\t{metas}\t{patterns}\t{tags}\t{damaged}",
            place.line, place.column
        );
    }
}

// The first events of a list. The reader counts no more than its room has.
fn first_events(list: &[u32], count: usize) -> &[u32] {
    count
        .checked_mul(EVENT)
        .and_then(|n| list.get(..n))
        .unwrap_or(list)
}

// A rule takes 19 bytes or more, so there is room for all of them.
fn list_rules(rt: &impl Print, err: &impl Print, source: &[u8], events: &[u32]) {
    let mut room = [0u32; 32768];
    match outline::rules(events, &mut room) {
        Ok(count) => write_rules(rt, source, &room, count),
        Err(refusal) => say_refusal(err, refusal),
    }
}

// As arrays, so that their lengths are known from their types. 2,049 words of scratch are what 65,536 rows ask for.
fn read_into(
    source: &[u8],
    ids: &[u32],
    starts: &[u32],
    ends: &[u32],
    scratch: &mut [u64; 2049],
    events: &mut [u32; 524288],
    errors: &mut [u32; 65536],
) -> Result<Answered, Refusal> {
    desk::read::read(
        source,
        ids,
        starts,
        ends,
        FUEL,
        desk::read::base(),
        scratch,
        events,
        errors,
    )
}

fn read_rows(
    rt: &impl Print,
    err: &impl Print,
    source: &[u8],
    ids: &[u32],
    starts: &[u32],
    ends: &[u32],
) {
    let mut scratch = [0u64; 2049];
    let mut events = [0u32; 524288];
    let mut errors = [0u32; 65536];
    match read_into(
        source,
        ids,
        starts,
        ends,
        &mut scratch,
        &mut events,
        &mut errors,
    ) {
        Err(refusal) => say_refusal(err, refusal),
        Ok(
            Answered {
                outcome,
                events: count,
                ..
            },
        ) => {
            list_rules(rt, err, source, first_events(&events, count));
            if outcome != Outcome::Done {
                let _ = println!(err; "names: the reading was stopped, so rules may be missing");
            }
        }
    }
}

fn read_within(
    rt: &impl Print,
    err: &impl Print,
    source: &[u8],
    ids: &[u32; 65536],
    starts: &[u32; 65536],
    ends: &[u32; 65536],
    count: usize,
) {
    if MOST_BYTES < count {
        say_refusal(err, Refusal::Rows);
        return;
    }
    read_rows(
        rt,
        err,
        source,
        &ids[..count],
        &starts[..count],
        &ends[..count],
    );
}

// There is at most one row a byte, so lists of this length have room for all rows.
fn cut_source(rt: &impl Print, err: &impl Print, source: &[u8]) {
    let mut ids = [0u32; 65536];
    let mut starts = [0u32; 65536];
    let mut ends = [0u32; 65536];
    match cutter::cut(source, &mut ids, &mut starts, &mut ends) {
        Ok(count) => read_within(rt, err, source, &ids, &starts, &ends, count as usize),
        Err(refusal) => say_refusal(err, refusal),
    }
}

fn main(rt: HostRuntime) {
    let err = rt.stderr();
    let mut room = [0u8; 65537];
    let Ok(size) = read_room(&mut rt.reader(), &mut room) else {
        let _ = println!(err; "names: the file cannot be read");
        return;
    };
    if MOST_BYTES < size {
        let _ = println!(err; "names: the file has more than 65,536 bytes");
        return;
    }
    cut_source(&rt, &err, &room[..size]);
}
