//! What a program meets outside of itself: sources and sinks of octets, and links, which carry messages. Any call of them may
//! fail, and raises a count of faults then; of those in memory a list says which calls fail.
#![tactic(auto)]

mod edited_queue;
pub mod examples;
pub mod failures;
pub mod links;
pub mod loop_link;
pub mod memory_link;
mod queue;
pub mod read_to_end;
pub mod reply_edits;
pub mod sinks;
pub mod sources;
