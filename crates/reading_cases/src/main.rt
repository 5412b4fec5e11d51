// Runs readings by settings editions over rule text; `stdout` has what document 02 and docs/DECISIONS.md ask for.
#![tactic(auto)]

use console::Numbers;
use desk::read::Answered;
use reading::Unread;
use shapes::record::next_record;
use shapes::refusal::Refusal;

// What a reading fills.
#[derive(Clone, Copy)]
struct Rooms {
    scratch: [u64; 3],
    events: [u32; 1024],
    errors: [u32; 64],
}

// By which edition of which settings text a file is read, with that fuel.
#[derive(Clone, Copy)]
struct Asked<'a> {
    text: &'a [u8],
    edition: u32,
    fuel: u32,
}

// The line of the record that begins there, and where the next one begins.
fn record(rt: &impl Print, errors: &[u32], at: usize) -> usize {
    let to = next_record(errors, at);
    let record = errors.get(at..to).unwrap_or(&[]);
    let _ = println!(rt; " error{}", Numbers(record));
    to
}

fn records(rt: &impl Print, errors: &[u32], count: u32) {
    let mut at = 0;
    for _ in 0..count {
        at = record(rt, errors, at);
    }
}

// A refusal with the first number of each list, which are 5 as they are lent.
fn refused(rt: &impl Print, refusal: Refusal, rooms: &Rooms) {
    let number = u32::from(refusal);
    let _ = println!(rt;
        " refused {number}, lists {} {} {}",
        rooms.scratch[0], rooms.events[0], rooms.errors[0]
    );
}

// Outcome, rows covered, counts of events and error records, fuel left.
fn tell(rt: &impl Print, answered: Answered, rooms: &Rooms) {
    let Answered {
        outcome,
        covered,
        events,
        errors,
        left,
    } = answered;
    let outcome = u32::from(outcome);
    let _ = println!(rt; " {outcome} {covered} {events} {errors} {left}");
    records(rt, &rooms.errors, errors);
}

fn read(rt: &impl Print, asked: Asked, src: &[u8], ids: &[u32], starts: &[u32], ends: &[u32]) {
    let mut rooms = Rooms {
        scratch: [5; 3],
        events: [5; 1024],
        errors: [5; 64],
    };
    let answer = reading::read(
        asked.text,
        asked.edition,
        src,
        ids,
        starts,
        ends,
        asked.fuel,
        &mut rooms.scratch,
        &mut rooms.events,
        &mut rooms.errors,
    );
    match answer {
        Ok(answered) => tell(rt, answered, &rooms),
        Err(Unread::Refused(refusal)) => refused(rt, refusal, &rooms),
        Err(Unread::BadLine(line)) => {
            refused(rt, Refusal::Settings, &rooms);
            let _ = println!(rt; " line {line}");
        }
    }
}

fn ask(rt: &impl Print, name: &str, text: &[u8], edition: u32, fuel: u32, src: &[u8]) {
    let asked = Asked {
        text,
        edition,
        fuel,
    };
    let mut ids = [0u32; 64];
    let mut starts = [0u32; 64];
    let mut ends = [0u32; 64];
    let _ = print!(rt; "{name}");
    match cutter::cut(src, &mut ids, &mut starts, &mut ends) {
        Err(refusal) => {
            let _ = print!(rt; " {}", u32::from(refusal));
        }
        Ok(count) => {
            let n = count as usize;
            if n <= 64 {
                read(rt, asked, src, &ids[..n], &starts[..n], &ends[..n]);
            }
        }
    }
}

fn ask_editions(rt: &impl Print, s: &[u8]) {
    let rule = b"rule a{condition:true}";
    ask(rt, "edition 1, no settings:", b"", 1, 5, rule);
    ask(rt, "edition 1, fuel 4:", s, 1, 4, rule);
    ask(rt, "edition 2, depth 1:", s, 2, 5, rule);
    ask(rt, "edition 7, its own fuel:", s, 7, 5, rule);
    ask(rt, "edition 0:", s, 0, 5, rule);
    ask(rt, "edition 8:", s, 8, 5, rule);
    ask(rt, "edition 2, no settings:", b"", 2, 5, rule);
    ask(
        rt,
        "edition 1, a gap:",
        b"2\t5\t9\t9\n4\t5\t9\t9\n",
        1,
        5,
        rule,
    );
    ask(
        rt,
        "edition 8, a fourth value of 2:",
        b"2\t5\t9\t9\t2\n",
        8,
        5,
        rule,
    );
}

// Rows that do not tile are refused before an edition that is not there, and behind a line that does not read.
fn ask_untiled(rt: &impl Print, name: &str, text: &[u8]) {
    let asked = Asked {
        text,
        edition: 9,
        fuel: 5,
    };
    let _ = print!(rt; "{name}");
    read(rt, asked, b"rule", &[37], &[1], &[4]);
}

fn ask_quoted(rt: &impl Print, s: &[u8]) {
    ask(rt, "1 byte, 15 quoted:", s, 1, 99, b"rule 7");
    ask(rt, "1 byte, none quoted:", s, 3, 1, b"rule 7");
    ask(
        rt,
        "16 bytes, 15 quoted:",
        s,
        1,
        99,
        b"rule 1234567890123456",
    );
    ask(
        rt,
        "16 bytes, 255 quoted:",
        s,
        4,
        1,
        b"rule 1234567890123456",
    );
}

fn ask_entrypoint(rt: &impl Print, s: &[u8]) {
    let term = b"rule a{condition:entrypoint}";
    ask(rt, "entrypoint, edition 1:", s, 1, 99, term);
    ask(rt, "entrypoint, edition 5:", s, 5, 1, term);
    ask(rt, "entrypoint, edition 6:", s, 6, 1, term);
    let within = b"rule a{condition:for any i in (entrypoint):(true)}";
    ask(rt, "in for, edition 1:", s, 1, 99, within);
    ask(rt, "in for, edition 5:", s, 5, 1, within);
    let behind = b"rule a{condition:with x=entrypoint:(true)}";
    ask(rt, "behind with, edition 1:", s, 1, 99, behind);
    ask(rt, "behind with, edition 5:", s, 5, 1, behind);
}

// Edition 2: one open node; 3 and 4: no text and 255 bytes are quoted; 5: no entrypoint; 6, a line of three values: entrypoint; 7: fuel 4.
fn main(rt: HostRuntime) {
    let s =
        b"2\t99\t1\t15\n3\t99\t1024\t0\n4\t99\t1024\t255\t1\n5\t99\t1024\t15\t0\n6\t99\t1024\t15\n7\t4\t1024\t15\n";
    ask_editions(&rt, s);
    ask_untiled(&rt, "edition 9, rows that do not tile:", b"");
    ask_untiled(&rt, "edition 9, no line either:", b"2");
    ask_quoted(&rt, s);
    ask_entrypoint(&rt, s);
}
