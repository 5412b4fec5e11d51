// A day read again (document 02, request (xii)): the lines of a day, the tally of its files, and what a replay writes.
#![tactic(auto)]

mod lines;
mod tally;

pub use lines::{
    BadLine, Entry, Unwritten, bad_line, entry_line, file_line, next_entry, read_line, totals_line,
};
pub use tally::{Answer, Fate, File, Tally, differs, none, with_file};
