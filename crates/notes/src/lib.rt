// What a reading is given, what it is lent, and what is noted beside the reader's state.
#![tactic(auto)]

pub mod cache;
pub mod names;
pub mod reading;
