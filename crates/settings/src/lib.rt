// Settings with a history (document 02, request (xi)): one line an edition, from edition 2 on; edition 1 has no line.
#![tactic(auto)]

mod adding;
mod lines;

pub use adding::{AddError, add};
pub use lines::{BadLine, ChooseError, Values, choose};
