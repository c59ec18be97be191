//! Courses of a transfer: from the octets that a link handed to an outcome and the versions that are made, and when an honest
//! transfer has to succeed. There is no code here: definitions, and laws that the crates above rest on.
#![tactic(auto)]

pub mod laws;
mod transfer_examples;
