// The state that every step hands on, and the combinators' steps.
#![tactic(auto)]

mod expect;
mod recovery;
pub mod state;
