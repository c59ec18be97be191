//! The keys that edits of a version touched, and what two versions differ in, looked for at these keys alone (RFC 1995, 4).
#![tactic(auto)]

mod changes;
mod closed;
mod draft;
mod examples;
mod laws;
mod touched;
mod tracked;

pub use changes::difference;
pub use draft::{ClosedDraft, Draft};
pub use touched::TouchedKeys;
