//! What a zone's store and its read handles have in common, whatever keeps the zone: a store gives read handles, and a handle answers, walks and
//! compares the one version that it stands for (RFC 1034, 4.3.2 and 4.3.5). Steps of readers and of the one writer, made by their calls, lead through
//! the zone's history, whatever their order: a handle answers from the version at its position, and nothing that is dropped is seen.
#![tactic(auto)]

mod errors;
mod laws;
mod opening;
mod providing;
mod querying;
mod steps;
mod stores;
mod walking;
mod zone_edits;
mod zones;

pub use errors::{HandleError, QueryError};
pub use steps::{Step, ask, begin_again, make_step, make_steps};
pub use stores::ReadableZone;
pub use walking::walk;
pub use zone_edits::{NodeEdit, ZoneEdit};
pub use zones::{Zone, ZoneStore};
