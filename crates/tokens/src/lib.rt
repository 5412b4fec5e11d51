// Tokens: characters and their classes, and the longest match of a mode's expressions, by a table of classes and a table of states.
#![tactic(auto)]

pub mod characters;
pub mod glyph;
pub mod keywords;
mod lookup;
pub mod matcher;
pub mod mode;
pub mod runner;
pub mod table;
