// The lines of vectors: what the fields stand for, and outcomes as text.
#![tactic(auto)]

pub mod forms;
pub mod shown;
pub mod text;
