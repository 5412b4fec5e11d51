// What a reading is given and what it is lent.
ghost use Rattle.std.specs.Prelude.{◌≡◌, ◌∷◌, ◌≤◌, length, get_or};
ghost use Rattle.kinds.specs.Kinds as k;
ghost use Rattle.notes.specs.Means.{source, Rows};

use crate::names::Notes;
use kinds::{Kind, is_trivia};

// Rows by their ids and by where they end: a row begins where the one before it ends. A step is handed these alone, and asks of them what it needs.
#[derive(Drop)]
pub struct RowList<'a> {
    pub ids: &'a [u32],
    pub ends: &'a [u32],
}

// The source and its rows, which tile it.
#[derive(Drop)]
pub struct Given<'a> {
    pub src: &'a [u8],
    pub rows: RowList<'a>,
    // Whether entrypoint is a term.
    pub entrypoint: bool,
    ghost tiled: { Rows (source src.now rows.ids.now rows.ends.now) },
}

// Lists to write into, and what is noted beside them.
#[derive(Drop)]
pub struct Lent<'a> {
    pub events: &'a mut [u32],
    pub errors: &'a mut [u32],
    pub scratch: &'a mut [u64],
    pub notes: Notes,
}

impl RowList<'_> {
    ghost use Rattle.notes.specs.Did.{Peeked};

    // Where a row begins; behind the last one, where the source ends.
    pub fn start_of(&self, at: usize) -> u32
        requires { at ≤ length self.now.ends.now }
        ensures { result ≡ get_or (0 ∷ self.now.ends.now) at 0 }
    {
        if at == 0 {
            return 0;
        }
        self.ends[at - 1]
    }

    // Where a row ends; behind the last one, where the source ends.
    pub fn end_of(&self, at: usize) -> u32
        requires { at ≤ length self.now.ends.now }
        ensures { result ≡ get_or self.now.ends.now at (get_or (0 ∷ self.now.ends.now) at 0) }
    {
        if at < self.ends.len() {
            return self.ends[at];
        }
        self.start_of(at)
    }

    // The id of a row; behind the last one, UNKNOWN.
    pub fn id_at(&self, at: usize) -> u32
        ensures { result ≡ get_or self.now.ids.now at k.UNKNOWN }
    {
        self.ids.get(at).copied().unwrap_or(Kind::Unknown as u32)
    }

    // The index of the next row that is no trivia, or of the source's end.
    pub fn peek(&self, from: usize) -> usize
        requires { from ≤ length self.now.ids.now }
        ensures { Peeked self.now.ids.now from result }
    {
        for at in from..self.ids.len() {
            if !is_trivia(self.ids[at]) {
                return at;
            }
        }
        self.ids.len()
    }
}
