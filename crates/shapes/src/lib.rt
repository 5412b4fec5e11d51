// The shapes of what the reader writes, and the numbers that document 01 gives names to. No other crate counts them out.
#![tactic(auto)]

pub mod event;
pub mod full;
pub mod mode;
pub mod outcome;
pub mod record;
pub mod refusal;
pub mod sort;
