//! One version of a zone as its readers hold it: its number, its RRsets by owner and type, and its walk. A handle keeps its version, whatever is
//! committed meanwhile (`zone_sessions`). And the parts of a version: its names with their RRsets, the names below them and their zone cuts, and the
//! records of RRsets, lent or with memory of their own.
#![tactic(auto)]

mod child;
mod comparing;
mod cutting;
mod examples;
mod names;
mod owning;
mod parts;
mod read;
mod records;
mod rrsets;
mod sections;
mod special;

pub use child::child_name;
pub use comparing::is_same;
pub use names::exists;
pub use owning::{own_option, own_record, own_records, own_set};
pub use parts::{NodeChildren, NodeRrsets, ZoneNode};
pub use read::{ReadZone, Receipt, ZoneReader};
pub use records::{AnswerRecord, SetRecords};
pub use rrsets::NodeRrsetsIter;
pub use sections::{AnswerRecords, apex_soa};
pub use special::Special;
pub use zone_versions::{RrsetIter, WalkItem};
