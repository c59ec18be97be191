//! Providers, which a primary asks what it may send, and to whom (RFC 5936, 5): of one zone with the differences that lead to its version, for those who
//! sign with a granted key, and of all the zones of a server.
#![tactic(auto)]

mod kept_diffs;
mod laws;
pub mod providers;
pub mod stored_zones;

pub use laws::commits_may_be_pushed;
pub use providers::{HistoryProvider, XfrData, XfrDataProvider, XfrDataProviderError};
pub use stored_zones::{StoredZone, current_data};
