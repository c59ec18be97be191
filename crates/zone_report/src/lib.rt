//! What the programs print (docs/SCRIPT.md): the report of a transfer, of how it ended, a version's records and what it answers to questions; and the
//! status with which a run ends.
#![tactic(auto)]

mod answers;
mod counting;
mod numbers;
mod outcome_line;
mod reader_lines;
pub mod report;
mod status;
mod walk_lines;

pub use answers::append_answers;
pub use counting::{append_counts, append_same};
pub use numbers::append_number;
pub use reader_lines::ReaderNumbers;
pub use status::Status;
pub use walk_lines::append_walk;
