// What became of a day's files, counted: "The running tally is one record that each file's result changes in place."
ghost use Rattle.std.specs.Prelude.{◌≡◌, ◌-◌, []};
ghost use Rattle.replay.specs.Tally.{differ, marked, adding, replayed, Room};

// The answer to a file: the count of its error records by the outcome, or the refusal's number.
#[derive(Clone, Copy, PartialEq, Eq)]
pub enum Answer {
    Done(u32),
    Spent(u32),
    Deep(u32),
    // A line of a day may have any number here.
    Refused(u32),
}

// What became of a file: its new answer, or it is missing, or of another length than was recorded.
#[derive(Clone, Copy, PartialEq, Eq)]
pub enum Fate {
    Read(Answer),
    Missing,
    Changed,
}

// A file's result.
#[derive(Clone, Copy, PartialEq, Eq)]
pub struct File {
    pub recorded: Answer,
    pub fate: Fate,
}

// How many files were read; how many of them had each new outcome, how many were refused, how many differ; and how many were not read.
#[derive(Clone, Copy, PartialEq, Eq, Default)]
pub struct Tally {
    pub files: u64,
    pub done: u64,
    pub spent: u64,
    pub deep: u64,
    pub refused: u64,
    pub differ: u64,
    pub apart: u64,
}

// Whether the recorded and the new answer differ.
pub fn differs(recorded: Answer, new: Answer) -> bool
    ensures { result ≡ differ recorded new }
{
    recorded != new
}

// Whether a file has a mark: one that was not read is not compared.
pub fn is_marked(file: File) -> bool
    ensures { result ≡ marked file }
{
    match file.fate {
        Fate::Read(new) => differs(file.recorded, new),
        Fate::Missing | Fate::Changed => false,
    }
}

// Before the first file.
pub fn none() -> Tally
    ensures { result ≡ replayed [] }
{
    Tally::default()
}

// A file's result added to the tally, by value.
pub fn counted(t: Tally, file: File) -> Tally
    requires { Room t }
    ensures { result ≡ adding t file }
{
    let Fate::Read(new) = file.fate else {
        return Tally {
            apart: t.apart + 1,
            ..t
        };
    };
    let files = t.files + 1;
    let differ = t.differ + u64::from(is_marked(file));
    match new {
        Answer::Done(_) => Tally {
            files,
            done: t.done + 1,
            differ,
            ..t
        },
        Answer::Spent(_) => Tally {
            files,
            spent: t.spent + 1,
            differ,
            ..t
        },
        Answer::Deep(_) => Tally {
            files,
            deep: t.deep + 1,
            differ,
            ..t
        },
        Answer::Refused(_) => Tally {
            files,
            refused: t.refused + 1,
            differ,
            ..t
        },
    }
}

// The same in place, of a tally that is lent.
pub fn tallied(t: &mut Tally, file: File)
    requires { Room t.old }
    ensures { t.new ≡ adding t.old file }
{
    *t = counted(*t, file);
}

// Whoever holds the running tally lends it for each file's result.
pub fn with_file(tally: Tally, file: File) -> Tally
    requires { Room tally }
    ensures { result ≡ adding tally file }
{
    let mut running = tally;
    tallied(&mut running, file);
    running
}
