//! Tests of whole transfers, in which a client takes what a primary or a test replies, and of the program: each kind of call once, and
//! values from outside.
#![tactic(auto)]

#[cfg(test)]
mod client_example_tests;
#[cfg(test)]
mod common;
#[cfg(test)]
mod cut_mac_tests;
#[cfg(test)]
mod edited_reply_tests;
#[cfg(test)]
mod exchanges;
#[cfg(test)]
mod incremental_reply_tests;
#[cfg(test)]
mod incremental_tests;
#[cfg(test)]
mod incremental_vectors;
#[cfg(test)]
mod reader_thread_tests;
#[cfg(test)]
mod version_answer_tests;
#[cfg(test)]
mod zone_sync_tests;
#[cfg(test)]
mod zone_transfer_tests;
