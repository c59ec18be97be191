//! A zone: its desk, at which one end writes and of which readers on other threads read, a session that writes the next version, and a builder that opens
//! it.
#![tactic(auto)]

mod apex;
mod builder;
mod desk;
mod edits;
mod node;
mod opening;
mod write;

pub use apex::ZoneApex;
pub use builder::ZoneBuilder;
pub use desk::{Desk, MOST_READERS};
pub use node::WriteNode;
pub use write::WriteZone;
pub use zone_values::{
    CommitError, InsertCnameError, InsertCutError, InsertError, NodeError, UpdateError,
};
pub use zone_versions::{EditError, NodeCount};
