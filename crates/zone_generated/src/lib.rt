//! The zone that is made from two numbers: `example.` with so many hosts, whose names and addresses are drawn from a seed. It is a large zone
//! without a script, the same one for the same numbers.
#![tactic(auto)]

mod draws;
mod examples;
mod key;
mod laws;
mod records;
mod zone;

pub use key::generated_key;
pub use laws::{generated_texts_are_short, generated_zones_are_published};
pub use zone::{empty, generated};
