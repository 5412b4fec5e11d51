// Runs the lines of a day and its replay on texts, with what becomes of each file given by a closure; `stdout` has what document 02 and
// docs/DECISIONS.md ask for, written by hand.
#![tactic(auto)]

ghost use Rattle.replay.specs.Answer.{Again};

use console::{print_decimal, write};
use replay::{Answer, BadLine, Entry, Fate, File, Tally, Unwritten};

fn field(rt: &impl Print, n: u64) {
    write(rt, b" ");
    print_decimal(rt, n);
}

// The first bytes, as many as there are.
fn first(bytes: &[u8], n: usize) -> &[u8] {
    &bytes[..n.min(bytes.len())]
}

fn show_answer(rt: &impl Print, a: Answer) {
    let (word, n): (&[u8], u32) = match a {
        Answer::Done(errors) => (b" done", errors),
        Answer::Spent(errors) => (b" spent", errors),
        Answer::Deep(errors) => (b" deep", errors),
        Answer::Refused(number) => (b" refused", number),
    };
    write(rt, word);
    field(rt, n as u64);
}

// What a line reads to: the length of its name, the file's size, the edition, and the answer.
fn read(rt: &impl Print, line: &[u8]) {
    match replay::read_line(line) {
        None => write(rt, b"unread"),
        Some(entry) => {
            write(rt, b"entry");
            field(rt, entry.name.len() as u64);
            field(rt, entry.size as u64);
            field(rt, entry.edition as u64);
            show_answer(rt, entry.answer);
        }
    }
    write(rt, b"\n");
}

fn show_written(rt: &impl Print, written: Result<usize, Unwritten>, room: &[u8]) {
    match written {
        Err(Unwritten::Name) => write(rt, b"unwritable\n"),
        Err(Unwritten::Full) => write(rt, b"full\n"),
        Ok(n) => write(rt, first(room, n)),
    }
}

fn enter(rt: &impl Print, name: &[u8], size: u32, edition: u32, answer: Answer, room: &mut [u8]) {
    let entry = Entry {
        name,
        size,
        edition,
        answer,
    };
    let written = replay::entry_line(entry, room);
    show_written(rt, written, room);
}

fn compare(rt: &impl Print, recorded: Answer, new: Answer) {
    if replay::differs(recorded, new) {
        write(rt, b"differ\n");
        return;
    }
    write(rt, b"same\n");
}

// What becomes of a file, by sevens of its line's number.
fn by_sevens(number: u64, _recorded: Answer) -> Fate {
    match number % 7 {
        0 => Fate::Missing,
        1 => Fate::Changed,
        2 => Fate::Read(Answer::Done(0)),
        3 => Fate::Read(Answer::Spent(0)),
        4 => Fate::Read(Answer::Deep(0)),
        5 => Fate::Read(Answer::Refused(7)),
        _ => Fate::Read(Answer::Done(1)),
    }
}

// The file is read as it was recorded.
fn as_recorded(_number: u64, recorded: Answer) -> Fate {
    Fate::Read(recorded)
}

fn show_file(rt: &impl Print, loud: bool, name: &[u8], file: File) {
    if loud {
        let mut room = [0u8; 256];
        let written = replay::file_line(name, file, &mut room);
        show_written(rt, written, &room);
    }
}

// The day again, where `fate` gives what becomes of a file by its line's number and the recorded answer.
fn replay_by<F: Fn(u64, Answer) -> Fate>(
    rt: &impl Print,
    fate: F,
    loud: bool,
    text: &[u8],
) -> Result<Tally, BadLine>
    requires { F.IsAlwaysCallable fate }
    ensures { Again text.now result }
{
    let mut tally = replay::none();
    let mut number: u64 = 1;
    let mut rest = text;
    // No `for`: over `split_inclusive`, in a function with a type parameter, the check refuses its own statement.
    while !rest.is_empty() {
        let Some((entry, behind)) = replay::next_entry(rest) else {
            return Err(BadLine { number, tally });
        };
        let file = File {
            recorded: entry.answer,
            fate: fate(number, entry.answer),
        };
        show_file(rt, loud, entry.name, file);
        tally = replay::with_file(tally, file);
        number += 1;
        rest = behind;
    }
    Ok(tally)
}

fn write_tally(rt: &impl Print, t: Tally) {
    let mut room = [0u8; 256];
    let n = replay::totals_line(t, &mut room);
    write(rt, &room[..n]);
}

fn write_refusal(rt: &impl Print, line: u64) {
    let mut room = [0u8; 256];
    let n = replay::bad_line(line, &mut room);
    write(rt, &room[..n]);
}

fn show<F: Fn(u64, Answer) -> Fate>(rt: &impl Print, fate: F, loud: bool, text: &[u8])
    requires { F.IsAlwaysCallable fate }
{
    match replay_by(rt, fate, loud, text) {
        Ok(tally) => write_tally(rt, tally),
        Err(bad) => {
            write_tally(rt, bad.tally);
            write_refusal(rt, bad.number);
        }
    }
}

fn read_lines(rt: &impl Print) {
    read(rt, b"a.yar\t22\t1\tR\t0\t0");
    read(rt, b"a.yar\t22\t1\tR\t1\t3");
    read(rt, b"a.yar\t22\t1\tR\t2\t3");
    read(rt, b"a.yar\t22\t2\tF\t7\t0");
    read(rt, b"a b\r.yar\t0022\t02\tR\t00\t001");
    read(rt, b"\t4294967295\t4294967295\tF\t4294967295\t0");
    // A tab in the name is a field too many; a field too few, an empty line.
    read(rt, b"a\tb.yar\t22\t1\tR\t0\t0");
    read(rt, b"a.yar\t22\t1\tR\t0");
    read(rt, b"");
    // No outcome, no letter, a refused file with errors.
    read(rt, b"a.yar\t22\t1\tR\t3\t0");
    read(rt, b"a.yar\t22\t1\tX\t0\t0");
    read(rt, b"a.yar\t22\t1\tRR\t0\t0");
    read(rt, b"a.yar\t22\t1\t\t0\t0");
    read(rt, b"a.yar\t22\t1\tF\t7\t1");
    // Numbers.
    read(rt, b"a.yar\t4294967296\t1\tR\t0\t0");
    read(rt, b"a.yar\t22\t-1\tR\t0\t0");
    read(rt, b"a.yar\t22\t\tR\t0\t0");
    read(rt, b"a.yar\t22\t1\tR\t0\t0\r");
    read(rt, b"a.yar\t22\t1\tR\t0\t0\t");
}

fn write_lines(rt: &impl Print) {
    let mut room = [0u8; 100];
    enter(rt, b"a.yar", 22, 1, Answer::Done(0), &mut room);
    enter(rt, b"a.yar", 0, 2, Answer::Spent(1), &mut room);
    enter(
        rt,
        b"",
        4294967295,
        4294967295,
        Answer::Deep(4294967295),
        &mut room,
    );
    enter(rt, b"a b\r.yar", 22, 1, Answer::Refused(20), &mut room);
    enter(rt, b"a\tb.yar", 22, 1, Answer::Done(0), &mut room);
    enter(rt, b"a\nb.yar", 22, 1, Answer::Done(0), &mut room);
    // Thirteen bytes of name and 87 more are just 100.
    enter(rt, b"0123456789abc", 22, 1, Answer::Done(0), &mut room);
    enter(rt, b"0123456789abcd", 22, 1, Answer::Done(0), &mut room);
}

fn compare_answers(rt: &impl Print) {
    compare(rt, Answer::Done(2), Answer::Done(2));
    compare(rt, Answer::Done(2), Answer::Done(3));
    compare(rt, Answer::Done(2), Answer::Spent(2));
    compare(rt, Answer::Spent(2), Answer::Deep(2));
    compare(rt, Answer::Deep(7), Answer::Refused(7));
    compare(rt, Answer::Refused(7), Answer::Refused(7));
    compare(rt, Answer::Refused(7), Answer::Refused(8));
}

fn replay_days(rt: &impl Print) {
    let day =
        b"a\t22\t1\tR\t0\t0\nb\t22\t1\tR\t0\t2\nc\t22\t1\tF\t1\t0\nd\t22\t1\tR\t1\t0\ne\t22\t1\tR\t2\t0\nf\t22\t1\tR\t0\t0\ng\t22\t1\tR\t0\t1\n";
    show(rt, as_recorded, true, b"");
    show(rt, as_recorded, true, day);
    // As many errors as the line's number.
    let counted = |number: u64, _: Answer| Fate::Read(Answer::Done((number % 1000) as u32));
    show(rt, counted, true, day);
    // Out of fuel from the fourth line on.
    let tired = |number: u64, recorded: Answer| {
        Fate::Read(if number < 4 {
            recorded
        } else {
            Answer::Spent(0)
        })
    };
    show(rt, tired, true, day);
    show(rt, |_, _| Fate::Read(Answer::Refused(18)), true, day);
    show(rt, by_sevens, true, day);
    // The third line has a tab in its name; the last line is not ended; the first line is empty.
    show(
        rt,
        as_recorded,
        true,
        b"a\t22\t1\tR\t0\t0\nb\t22\t1\tF\t4\t0\nc\tc\t22\t1\tR\t0\t0\nd\t22\t1\tR\t0\t0\n",
    );
    show(
        rt,
        as_recorded,
        true,
        b"a\t22\t1\tR\t0\t0\nb\t22\t1\tR\t0\t0",
    );
    show(rt, as_recorded, true, b"\na\t22\t1\tR\t0\t0\n");
}

// The lines of a thousand files.
fn fill(room: &mut [u8]) -> usize {
    let mut at = 0;
    for size in 0..1000 {
        let entry = Entry {
            name: b"f",
            size,
            edition: 1,
            answer: Answer::Done(0),
        };
        let rest = &mut room[at..];
        let Ok(n) = replay::entry_line(entry, rest) else {
            return at;
        };
        at += n.min(rest.len());
    }
    at
}

// A thousand files by sevens: 142 are missing, and 143 become of each other kind.
fn replay_thousand(rt: &impl Print) {
    let mut text = [0u8; 32768];
    let n = fill(&mut text);
    show(rt, by_sevens, false, first(&text, n));
}

fn main(rt: HostRuntime) {
    read_lines(&rt);
    write_lines(&rt);
    compare_answers(&rt);
    replay_days(&rt);
    replay_thousand(&rt);
}
