#![tactic(auto)]

// The crate is theorems about the definition that a reader of the demands relies on; it has no code.
