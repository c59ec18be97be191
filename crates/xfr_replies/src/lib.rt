//! The replies of one transfer, pulled one by one: its text in many messages (RFC 5936, 2.2; RFC 1995, 4).
//!
//! A `TransferText` says the text record by record: the whole zone, or the differences that lead to its version. It owns the version and the
//! differences, and a place in them: the key of a set, an index in it, and of a set of the zone that set, shared. So it can be kept while a message
//! is on its way, and never holds a list of the zone's records. Between two pulls `TransferReplies` keeps the text's place and the batcher with its
//! one open message, and no list of messages.
#![tactic(auto)]

mod examples;
mod laws;
mod lent_set;
mod of_difference;
mod of_zone;
mod place;
mod place_set;
mod sendable;
mod steps;
mod text;
mod transfer_replies;

pub use sendable::are_sendable;
pub use text::TransferText;
pub use transfer_replies::TransferReplies;
