// The program's input and its listing, line by line.
#![tactic(auto)]

mod read;
mod write;

pub use read::{LONGEST, Line, Next, next_line, piece_end, read_line, read_number};
pub use write::{
    Event, Writer, event_line, head_line, numbers_line, refusal_line, result_line, unread_line,
};
