// The productions of patterns, their modifiers and hex patterns, each under its own name. What they are handed is told in crate `parts`.
#![tactic(auto)]

mod hex;
pub mod patterns;
