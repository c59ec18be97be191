//! Zone files and the zones of a server: for programs that open zones from records, and that find the zone for a name.
//!
//! `Zonefile` takes records one by one, each of which stands beside those before it or is refused with a named reason (RFC 1034, 4.2.1), and tells
//! what then makes no zone. `ZoneBuilder` opens a zone of records, or of whole RRsets, zone cuts and aliases. A zone file becomes a builder by
//! `ZoneBuilder::try_from`, and a zone by `Zone::try_from` (`zone_store`). `ZoneTree` has the zones of a server by class and apex, and finds the
//! one that a name lies in (RFC 1034, 4.3.2, step 2). This crate only passes on: each item is proved in the crate that it comes from.
#![tactic(auto)]

pub use zone_records::{FileError, OwnerSets, Owners, Zonefile};
pub use zone_sessions::{InsertCnameError, InsertCutError, ZoneBuilder};
pub use zone_tree::{AtApex, Close, InsertZoneError, ZoneSetIter, ZoneTree};
