#![tactic(auto)]

// The crate is the definition and what follows from it that the code's proofs cite; it has no code.
