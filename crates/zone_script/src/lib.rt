//! What the program reads: the words of the command, and its script, of two zones, commits, a key and questions (docs/SCRIPT.md). What a line says by
//! itself (`lines`, `fields`) needs no zone; which line may stand where, and what the lines make together, is `script`'s.
#![tactic(auto)]

pub mod commits;
mod editing;
pub mod fields;
pub mod lines;
pub mod numbers;
mod opening;
mod reading;
pub mod script;
pub mod words;
