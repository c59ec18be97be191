//! Differences between versions of a zone (RFC 1995): built of the RRsets that come and go, kept in order, and lent by index.
#![tactic(auto)]

mod builder;
mod diff;
mod errors;
mod examples;
mod laws;
mod rrsets;
mod sets;
mod traits;

pub use builder::{InMemoryZoneDiffBuilder, is_upto};
pub use diff::{EmptyZoneDiff, InMemoryZoneDiff};
pub use errors::ZoneDiffError;
pub use sets::{DiffSets, serial_of};
pub use traits::{ZoneDiff, ZoneDiffItem};
