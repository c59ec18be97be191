//! DNS messages over a stream of octets, each with its length before it in two octets, the high one first (RFC 1035, 4.2.2).
#![tactic(auto)]

pub mod examples;
pub mod laws;
pub mod reading;
pub mod writing;
