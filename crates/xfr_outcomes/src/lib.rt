//! The words in which a transfer is told to the one that asked for it: the updates that its replies say (`ZoneUpdate`), why a message, a record or an
//! update isn't taken (`protocol`, `update`), and how the whole ends (`SyncOk`, `SyncError`).
#![tactic(auto)]

pub mod outcome;
pub mod protocol;
pub mod update;

pub use outcome::{SyncError, SyncOk};
pub use update::ZoneUpdate;
