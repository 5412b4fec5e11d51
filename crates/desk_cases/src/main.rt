// Runs the public reader on the small files and at the edges of its refusals. A line has the case and the refusal's number. Where that is 0, outcome, rows
// covered, counts of events and of error records, and fuel left stand behind it; a line for each error record follows, and where they are asked for one
// for each event. Rooms and scratch are lent full of fives: the program looks whether a refusal of 1 to 6 left them as lent, 7 and 8 all zero, and an
// answer all zero behind its lists and in scratch. Ids, kinds and names have their numbers in docs/KINDS.md.
#![tactic(auto)]

use console::Numbers;
use desk::read::{Answered, Limits, base, read};
use shapes::event::EVENT;
use shapes::record::next_record;
use shapes::refusal::Refusal;

// A rule text and its rows.
#[derive(Clone, Copy)]
struct File<'a> {
    src: &'a [u8],
    ids: &'a [u32],
    starts: &'a [u32],
    ends: &'a [u32],
}

// What was lent, as the reader left it.
#[derive(Clone, Copy)]
struct Lent<'a> {
    scratch: &'a [u64],
    events: &'a [u32],
    errors: &'a [u32],
}

impl Lent<'_> {
    // Whether scratch is full of that number, and the rooms from these indices on.
    fn are_full(self, mark: u32, ev: usize, er: usize) -> bool {
        self.scratch.iter().all(|&n| n == u64::from(mark))
            && self.events.iter().skip(ev).all(|&n| n == mark)
            && self.errors.iter().skip(er).all(|&n| n == mark)
    }
}

fn event_lines(rt: &impl Print, events: &[u32], count: usize) {
    for event in events.chunks_exact(EVENT).take(count) {
        let _ = println!(rt; "{}", Numbers(event));
    }
}

// The line of the record that begins there, and where the next one begins.
fn record(rt: &impl Print, errors: &[u32], at: usize) -> usize {
    let to = next_record(errors, at);
    let record = errors.get(at..to).unwrap_or(&[]);
    let _ = println!(rt; " error{}", Numbers(record));
    to
}

fn records(rt: &impl Print, errors: &[u32], count: u32) -> usize {
    let mut at = 0;
    for _ in 0..count {
        at = record(rt, errors, at);
    }
    at
}

fn refused(rt: &impl Print, refusal: Refusal, rooms: Lent) {
    let n = u32::from(refusal);
    let (mark, good, bad) = if n < 7 {
        (5, "as lent", "changed")
    } else {
        (0, "zero", "not zero")
    };
    let found = if rooms.are_full(mark, 0, 0) {
        good
    } else {
        bad
    };
    let _ = println!(rt; " {n} {found}");
}

// The lists behind an answer's line.
fn lists(rt: &impl Print, count: usize, noted: u32, rooms: Lent, listed: bool) {
    let er = records(rt, rooms.errors, noted);
    if listed {
        event_lines(rt, rooms.events, count);
    }
    let ev = count.saturating_mul(EVENT);
    let rest = if rooms.are_full(0, ev, er) {
        "zero"
    } else {
        "not zero"
    };
    let _ = println!(rt; " rest {rest}");
}

fn tell(rt: &impl Print, name: &str, answer: Result<Answered, Refusal>, rooms: Lent, listed: bool) {
    let _ = print!(rt; "{name}:");
    match answer {
        Err(refusal) => refused(rt, refusal, rooms),
        Ok(
            Answered {
                outcome,
                covered,
                events,
                errors,
                left,
            },
        ) => {
            let outcome = u32::from(outcome);
            let _ = println!(rt; " 0 {outcome} {covered} {events} {errors} {left}");
            lists(rt, events, errors, rooms, listed)
        }
    }
}

fn show(
    rt: &impl Print,
    name: &str,
    file: File,
    fuel: u32,
    limits: Limits,
    scratch: &mut [u64],
    events: &mut [u32],
    errors: &mut [u32],
    listed: bool,
) {
    let answer = read(
        file.src,
        file.ids,
        file.starts,
        file.ends,
        fuel,
        limits,
        scratch,
        events,
        errors,
    );
    let rooms = Lent {
        scratch,
        events,
        errors,
    };
    tell(rt, name, answer, rooms, listed);
}

fn in_rooms(
    rt: &impl Print,
    name: &str,
    file: File,
    fuel: u32,
    words: usize,
    event_room: usize,
    error_room: usize,
    listed: bool,
) {
    let mut scratch = [5u64; 1];
    let mut events = [5u32; 160];
    let mut errors = [5u32; 32];
    if words <= 1 && event_room <= 160 && error_room <= 32 {
        show(
            rt,
            name,
            file,
            fuel,
            base(),
            &mut scratch[..words],
            &mut events[..event_room],
            &mut errors[..error_room],
            listed,
        );
    }
}

fn case(rt: &impl Print, name: &str, file: File, fuel: u32) {
    in_rooms(rt, name, file, fuel, 1, 160, 32, false);
}

// No row.
fn none(rt: &impl Print, name: &str, src: &[u8], words: usize, room: usize) {
    let file = File {
        src,
        ids: &[],
        starts: &[],
        ends: &[],
    };
    in_rooms(rt, name, file, 0, words, room, 0, false);
}

// R, with that fuel.
fn rule(
    rt: &impl Print,
    name: &str,
    fuel: u32,
    words: usize,
    event_room: usize,
    error_room: usize,
    listed: bool,
) {
    let file = File {
        src: b"rule a{condition:true}",
        ids: &[37, 0, 74, 66, 12, 58, 41, 67],
        starts: &[0, 4, 5, 6, 7, 16, 17, 21],
        ends: &[4, 5, 6, 7, 16, 17, 21, 22],
    };
    in_rooms(rt, name, file, fuel, words, event_room, error_room, listed);
}

fn p6(rt: &impl Print) {
    let file = File {
        src: b"rule a{condition:true",
        ids: &[37, 0, 74, 66, 12, 58, 41],
        starts: &[0, 4, 5, 6, 7, 16, 17],
        ends: &[4, 5, 6, 7, 16, 17, 21],
    };
    case(rt, "P6", file, 5);
}

fn p7(rt: &impl Print, name: &str, event_room: usize, error_room: usize) {
    let file = File {
        src: b"@ rule a{condition:true}",
        ids: &[3, 0, 37, 0, 74, 66, 12, 58, 41, 67],
        starts: &[0, 1, 2, 6, 7, 8, 9, 18, 19, 23],
        ends: &[1, 2, 6, 7, 8, 9, 18, 19, 23, 24],
    };
    in_rooms(rt, name, file, 5, 1, event_room, error_room, false);
}

fn p8(rt: &impl Print) {
    let file = File {
        src: b"rule a{condition:true rule b{condition:true}",
        ids: &[37, 0, 74, 66, 12, 58, 41, 0, 37, 0, 74, 66, 12, 58, 41, 67],
        starts: &[0, 4, 5, 6, 7, 16, 17, 21, 22, 26, 27, 28, 29, 38, 39, 43],
        ends: &[4, 5, 6, 7, 16, 17, 21, 22, 26, 27, 28, 29, 38, 39, 43, 44],
    };
    in_rooms(rt, "P8", file, 6, 1, 160, 32, true);
}

fn small_files(rt: &impl Print) {
    none(rt, "P1", b"", 1, 160);
    rule(rt, "P2", 5, 1, 160, 32, true);
    rule(rt, "P3", 4, 1, 160, 32, false);
    rule(rt, "P4", 1, 1, 160, 32, true);
    rule(rt, "P5", 0, 1, 160, 32, false);
    p6(rt);
    p7(rt, "P7", 160, 32);
    p8(rt);
}

// Each number is one more than the one before.
fn count_up(l: &mut [u32], from: u32) {
    for (n, place) in (from..).zip(l) {
        *place = n;
    }
}

fn in_words(rt: &impl Print, name: &str, file: File, words: usize) {
    let mut scratch = [5u64; 2049];
    let mut events = [5u32; 327700];
    let mut errors = [5u32; 4];
    if words <= 2049 {
        show(
            rt,
            name,
            file,
            9,
            base(),
            &mut scratch[..words],
            &mut events,
            &mut errors,
            false,
        );
    }
}

// Lists of these lengths, whose rows are a byte of white space each.
fn rows(rt: &impl Print, name: &str, a: usize, b: usize, c: usize, words: usize) {
    let src = [32u8; 65537];
    let ids = [0u32; 65537];
    let mut starts = [0u32; 65537];
    let mut ends = [0u32; 65537];
    count_up(&mut starts, 0);
    count_up(&mut ends, 1);
    if a <= 65537 && b <= 65537 && c <= 65537 {
        let file = File {
            src: &src[..c],
            ids: &ids[..a],
            starts: &starts[..b],
            ends: &ends[..c],
        };
        in_words(rt, name, file, words);
    }
}

// One row.
fn one(rt: &impl Print, name: &str, src: &[u8], id: u32, start: u32, end: u32) {
    let file = File {
        src,
        ids: &[id],
        starts: &[start],
        ends: &[end],
    };
    case(rt, name, file, 9);
}

// White space, all one row. It is passed as an array, since a proof at the slice unfolds so long a list.
fn white<const N: usize>(rt: &impl Print, name: &str, src: &[u8; N], end: u32) {
    one(rt, name, src, 0, 0, end);
}

fn sizes(rt: &impl Print) {
    white(rt, "source of 1048576", &[32; 1048576], 1048576);
    white(rt, "source of 1048577", &[32; 1048577], 1048577);
}

fn many_rows(rt: &impl Print) {
    rows(rt, "65536 rows", 65536, 65536, 65536, 2049);
    rows(rt, "65537 rows", 65537, 65537, 65537, 2049);
    rows(rt, "65537 ids", 65537, 65536, 65536, 2049);
    rows(rt, "65537 starts", 65536, 65537, 65536, 2049);
    rows(rt, "65537 ends", 65536, 65536, 65537, 2049);
    rows(rt, "65535 starts", 65536, 65535, 65536, 2049);
}

// Three rows over three bytes.
fn three(rt: &impl Print, name: &str, ids: &[u32], starts: &[u32], ends: &[u32]) {
    let file = File {
        src: b"a b",
        ids,
        starts,
        ends,
    };
    case(rt, name, file, 9);
}

fn lengths(rt: &impl Print) {
    let ids = [74, 0, 74];
    let wrong = [74, 82, 74];
    let starts = [0, 1, 2];
    let ends = [1, 2, 3];
    three(rt, "ids short", &ids[..2], &starts, &ends);
    three(rt, "starts short", &ids, &starts[..2], &ends);
    three(rt, "ends short", &ids, &starts, &ends[..2]);
    three(rt, "2 before 3", &wrong, &starts[..2], &ends);
}

// A row's id, judged before its place.
fn single_ids(rt: &impl Print) {
    one(rt, "id 81", b"a", 81, 0, 1);
    one(rt, "id 82", b"a", 82, 0, 1);
    one(rt, "id 4294967295", b"a", 4294967295, 0, 1);
    one(rt, "3 before 4", b"a", 82, 0, 0);
}

fn single(rt: &impl Print) {
    one(rt, "two bytes", b"ab", 74, 0, 2);
    one(rt, "first start 1", b"ab", 74, 1, 2);
    one(rt, "last end short", b"ab", 74, 0, 1);
    one(rt, "last end far", b"a", 74, 0, 2);
    none(rt, "no rows", b"a", 1, 160);
}

fn tiling(rt: &impl Print) {
    let ids = [74, 0, 74];
    let two = [74, 74];
    let empty_starts = [0, 1, 1];
    let empty_ends = [1, 1, 3];
    three(rt, "empty row", &ids, &empty_starts, &empty_ends);
    let back_starts = [0, 2, 1];
    let back_ends = [2, 1, 3];
    three(rt, "end before start", &ids, &back_starts, &back_ends);
    let gap_starts = [0, 2];
    let gap_ends = [1, 3];
    three(rt, "gap", &two, &gap_starts, &gap_ends);
    let over_starts = [0, 1];
    let over_ends = [2, 3];
    three(rt, "overlap", &two, &over_starts, &over_ends);
}

// An import alone, with that fuel.
fn import_alone(rt: &impl Print, name: &str, fuel: u32, listed: bool) {
    let file = File {
        src: b"import \"pe\"",
        ids: &[25, 0, 72],
        starts: &[0, 6, 7],
        ends: &[6, 7, 11],
    };
    in_rooms(rt, name, file, fuel, 1, 160, 32, listed);
}

// An import without its string, and R.
fn damaged_import(rt: &impl Print) {
    let file = File {
        src: b"import rule a{condition:true}",
        ids: &[25, 0, 37, 0, 74, 66, 12, 58, 41, 67],
        starts: &[0, 6, 7, 11, 12, 13, 14, 23, 24, 28],
        ends: &[6, 7, 11, 12, 13, 14, 23, 24, 28, 29],
    };
    case(rt, "import without string, rule", file, 6);
}

// Behind a row that begins no item.
fn swallowed_import(rt: &impl Print) {
    let file = File {
        src: b"@ import \"pe\" rule a{condition:true}",
        ids: &[3, 0, 25, 0, 72, 0, 37, 0, 74, 66, 12, 58, 41, 67],
        starts: &[0, 1, 2, 8, 9, 13, 14, 18, 19, 20, 21, 30, 31, 35],
        ends: &[1, 2, 8, 9, 13, 14, 18, 19, 20, 21, 30, 31, 35, 36],
    };
    case(rt, "import swallowed", file, 5);
}

fn include_first(rt: &impl Print) {
    let file = File {
        src: b"include \"pe\" rule a{condition:true}",
        ids: &[27, 0, 72, 0, 37, 0, 74, 66, 12, 58, 41, 67],
        starts: &[0, 7, 8, 12, 13, 17, 18, 19, 20, 29, 30, 34],
        ends: &[7, 8, 12, 13, 17, 18, 19, 20, 29, 30, 34, 35],
    };
    case(rt, "include, rule", file, 6);
}

// What is expected here and in `imports_and_rules` is the Rust's.
fn imports(rt: &impl Print) {
    one(rt, "import, end short", b"import", 25, 0, 5);
    one(rt, "import without string", b"import", 25, 0, 6);
    one(rt, "include without string", b"include", 27, 0, 7);
    let file = File {
        src: b"a b",
        ids: &[74, 0, 25],
        starts: &[0, 1, 2],
        ends: &[1, 2, 3],
    };
    case(rt, "import last", file, 9);
    in_rooms(rt, "import, no words", file, 9, 0, 160, 32, false);
}

fn imports_and_rules(rt: &impl Print) {
    import_alone(rt, "import, fuel 0", 0, false);
    import_alone(rt, "import, fuel 1", 1, true);
    damaged_import(rt);
    swallowed_import(rt);
    include_first(rt);
}

fn words(rt: &impl Print) {
    none(rt, "P1, no words", b"", 0, 160);
    rule(rt, "P2, no words", 5, 0, 160, 32, false);
    rule(rt, "6 before 7", 5, 0, 0, 32, false);
    rows(rt, "31 rows, 1 word", 31, 31, 31, 1);
    rows(rt, "32 rows, 1 word", 32, 32, 32, 1);
    rows(rt, "32 rows, 2 words", 32, 32, 32, 2);
    rows(rt, "65536 rows, 2048 words", 65536, 65536, 65536, 2048);
}

fn rooms(rt: &impl Print) {
    none(rt, "P1, room 10", b"", 1, 10);
    none(rt, "P1, room 5", b"", 1, 5);
    rule(rt, "P2, room 90", 5, 1, 90, 0, false);
    rule(rt, "P2, room 89", 5, 1, 89, 0, false);
    rule(rt, "P2, room 85", 5, 1, 85, 0, false);
    rule(rt, "P2, room 4", 5, 1, 4, 0, false);
    rule(rt, "P2, room 0", 5, 1, 0, 0, false);
}

fn error_rooms(rt: &impl Print) {
    rule(rt, "P3, rooms 85 7", 4, 1, 85, 7, false);
    rule(rt, "P3, rooms 80 7", 4, 1, 80, 7, false);
    rule(rt, "P3, rooms 85 6", 4, 1, 85, 6, false);
    rule(rt, "P3, rooms 85 4", 4, 1, 85, 4, false);
    rule(rt, "P3, rooms 85 0", 4, 1, 85, 0, false);
    rule(rt, "P3, rooms 55 6", 4, 1, 55, 6, false);
    rule(rt, "P3, rooms 50 6", 4, 1, 50, 6, false);
}

// Form 10's record comes before its event.
fn stray_rooms(rt: &impl Print) {
    p7(rt, "P7, rooms 115 5", 115, 5);
    p7(rt, "P7, rooms 110 5", 110, 5);
    p7(rt, "P7, rooms 115 4", 115, 4);
    p7(rt, "P7, rooms 5 4", 5, 4);
    p7(rt, "P7, rooms 5 5", 5, 5);
    p7(rt, "P7, rooms 4 4", 4, 4);
    p7(rt, "P7, rooms 0 0", 0, 0);
}

// A number stands where a rule's name is expected.
fn text(rt: &impl Print, name: &str, src: &[u8], end: u32) {
    let file = File {
        src,
        ids: &[37, 0, 80],
        starts: &[0, 4, 5],
        ends: &[4, 5, end],
    };
    case(rt, name, file, 9);
}

// The same by other limits than document 01's.
fn limited(rt: &impl Print, name: &str, src: &[u8], end: u32, depth: u16, quote: u8) {
    let file = File {
        src,
        ids: &[37, 0, 80],
        starts: &[0, 4, 5],
        ends: &[4, 5, end],
    };
    let limits = Limits {
        depth,
        quote,
        entrypoint: true,
    };
    let mut scratch = [5u64; 1];
    let mut events = [5u32; 160];
    let mut errors = [5u32; 32];
    show(
        rt,
        name,
        file,
        9,
        limits,
        &mut scratch,
        &mut events,
        &mut errors,
        false,
    );
}

fn texts(rt: &impl Print) {
    text(rt, "text of 15", b"rule 123456789012345", 20);
    text(rt, "text of 16", b"rule 1234567890123456", 21);
    limited(
        rt,
        "text of 15, 14 quoted",
        b"rule 123456789012345",
        20,
        9,
        14,
    );
    limited(
        rt,
        "text of 16, 16 quoted",
        b"rule 1234567890123456",
        21,
        9,
        16,
    );
    limited(
        rt,
        "no node may be open",
        b"rule 123456789012345",
        20,
        0,
        16,
    );
}

// Bytes that are no text stand where a rule's name is expected.
fn not_text(rt: &impl Print, name: &str, src: &[u8], end: u32, room: usize) {
    let file = File {
        src,
        ids: &[37, 0, 3],
        starts: &[0, 4, 5],
        ends: &[4, 5, end],
    };
    in_rooms(rt, name, file, 9, 1, 160, room, false);
}

// Two such in one rule.
fn not_text_twice(rt: &impl Print) {
    let file = File {
        src: b"rule a{strings:\xE1\x41condition:\xC0}",
        ids: &[37, 0, 74, 66, 39, 58, 3, 12, 58, 3, 67],
        starts: &[0, 4, 5, 6, 7, 14, 15, 17, 26, 27, 28],
        ends: &[4, 5, 6, 7, 14, 15, 17, 26, 27, 28, 29],
    };
    case(rt, "not text, twice", file, 99);
}

// Form 9's record has the place of the bad byte behind its count.
fn places(rt: &impl Print) {
    not_text(rt, "ED A0 80", b"rule \xED\xA0\x80", 8, 32);
    not_text(rt, "ED A0 80, room 6", b"rule \xED\xA0\x80", 8, 6);
    not_text(rt, "ED A0 80, room 5", b"rule \xED\xA0\x80", 8, 5);
    not_text(rt, "F4 90 80 80", b"rule \xF4\x90\x80\x80", 9, 32);
    not_text(rt, "E2 82", b"rule \xE2\x82", 7, 32);
}

// The same of bytes that begin no character, or one that is cut short.
fn more_places(rt: &impl Print) {
    not_text(rt, "E1 41", b"rule \xE1\x41", 7, 32);
    not_text(rt, "C0", b"rule \xC0", 6, 32);
    not_text(rt, "BF", b"rule \xBF", 6, 32);
    not_text(rt, "E2 82 AC C3", b"rule \xE2\x82\xAC\xC3", 9, 32);
    not_text_twice(rt);
}

fn deep(rt: &impl Print, name: &str, file: File) {
    let mut scratch = [5u64; 33];
    let mut events = [5u32; 15380];
    let mut errors = [5u32; 16];
    show(
        rt,
        name,
        file,
        10000,
        base(),
        &mut scratch,
        &mut events,
        &mut errors,
        false,
    );
}

// A rule whose condition is a 1 behind so many minus signs: 1,016 open 1,024 nodes.
fn signs(rt: &impl Print, name: &str, n: usize) {
    let mut src = [b'-'; 1036];
    let mut ids = [61u32; 1025];
    let mut starts = [0u32; 1025];
    let mut ends = [0u32; 1025];
    src[..17].copy_from_slice(b"rule a{condition:");
    ids[..6].copy_from_slice(&[37, 0, 74, 66, 12, 58]);
    starts[..6].copy_from_slice(&[0, 4, 5, 6, 7, 16]);
    count_up(&mut starts[6..], 17);
    ends[..6].copy_from_slice(&[4, 5, 6, 7, 16, 17]);
    count_up(&mut ends[6..], 18);
    if n <= 1017 {
        src[n + 17] = b'1';
        src[n + 18] = b'}';
        ids[n + 6] = 80;
        ids[n + 7] = 67;
        let many = n + 8;
        let file = File {
            src: &src[..n + 19],
            ids: &ids[..many],
            starts: &starts[..many],
            ends: &ends[..many],
        };
        deep(rt, name, file);
    }
}

// Junk is an item, and the rule behind it the second.
fn behind_junk(rt: &impl Print) {
    let file = File {
        src: b"@ rule a{",
        ids: &[3, 0, 37, 0, 74, 66],
        starts: &[0, 1, 2, 6, 7, 8],
        ends: &[1, 2, 6, 7, 8, 9],
    };
    case(rt, "junk, rule", file, 9);
}

// 900 rules of one row, a word each: each lacks its name, so that every record has an item of its own.
fn many_rules(rt: &impl Print) {
    let src = [b'r'; 900];
    let ids = [37u32; 900];
    let mut starts = [0u32; 900];
    let mut ends = [0u32; 900];
    count_up(&mut starts, 0);
    count_up(&mut ends, 1);
    let file = File {
        src: &src,
        ids: &ids,
        starts: &starts,
        ends: &ends,
    };
    let mut scratch = [5u64; 29];
    let mut events = [5u32; 18010];
    let mut errors = [5u32; 5400];
    show(
        rt,
        "900 rules",
        file,
        2000,
        base(),
        &mut scratch,
        &mut events,
        &mut errors,
        false,
    );
}

fn main(rt: HostRuntime) {
    small_files(&rt);
    sizes(&rt);
    many_rows(&rt);
    lengths(&rt);
    single_ids(&rt);
    single(&rt);
    tiling(&rt);
    imports(&rt);
    imports_and_rules(&rt);
    words(&rt);
    rooms(&rt);
    error_rooms(&rt);
    stray_rooms(&rt);
    texts(&rt);
    places(&rt);
    more_places(&rt);
    behind_junk(&rt);
    many_rules(&rt);
    signs(&rt, "1016 signs", 1016);
    signs(&rt, "1017 signs", 1017);
}
