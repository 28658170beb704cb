// A task and an answer as words of 64 bits, for callers in C and in Rust (docs/BOUNDARY.md): a task from its 668 words and
// back, and each answer into lent room.

#![tactic(auto)]

pub mod answer;
pub mod words;
