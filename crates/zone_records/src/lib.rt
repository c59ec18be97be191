//! The records of a zone file by kind: normal ones, those of zone cuts, CNAMEs, and those outside the origin, each refused with a named reason where it
//! can't stand beside those before it (RFC 1034, 4.2.1; RFC 2181, 10.1).
//!
//! A record stays of the kind that it was taken as, also where the origin is changed afterwards. What then makes no zone is told by `faults`.
#![tactic(auto)]

mod errors;
mod faults;
mod kinds;
mod laws;
mod opening_sets;
mod owners;
mod reading;
mod zonefile;

pub use errors::FileError;
pub use laws::zone_files_open;
pub use opening_sets::OwnerSets;
pub use owners::Owners;
pub use zonefile::Zonefile;
