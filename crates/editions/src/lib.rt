// A listing of one edition as one of the other (document 02, requests (ix) and (x)): over lent text, into lent room.
#![tactic(auto)]

mod convert;
mod fields;
mod sort;
mod step;
mod words;

pub use convert::{Unconverted, down, up};
