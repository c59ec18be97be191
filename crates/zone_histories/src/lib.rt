//! Values that are kept for each version of a zone: what was written last up to a version is its value there, and what later versions write or take
//! away changes no earlier one.
#![tactic(auto)]

mod examples;
mod laws;
mod versioned;

pub use versioned::{Version, Versioned};
