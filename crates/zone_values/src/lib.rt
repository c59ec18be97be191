//! The values that a zone tree is made of: records and RRsets without their owner, where an RRset stands in a version (`SetKey`), zone cuts, names
//! relative to the apex; and the errors of zones: a refusal for each record that doesn't fit those before it, what a zone of records lacks, lists of
//! refusals by owner (RFC 1034, 3.6.2 and 4.2.1), and why a zone that stands isn't edited or committed. Nothing here reads or writes a zone: the
//! definitions of versions and transfers are those of `zone_model`, and a zone that can be read and written is `zone_sessions`'s.
#![tactic(auto)]

mod data_index;
mod data_key;
mod edit_errors;
mod error_list;
mod errors;
mod examples;
mod record_errors;
mod rel_name;
mod rr;
mod rrset;
mod rrset_edits;
mod set_key;
mod zone_cut;

pub use edit_errors::{
    CommitError, InsertCnameError, InsertCutError, InsertError, NodeError, UpdateError,
};
pub use error_list::ZoneErrors;
pub use errors::{CnameError, OutOfZone, WriteApexError, ZoneCutError, ZoneTreeModificationError};
pub use record_errors::{ContextError, RecordError};
pub use rel_name::{RelNameRevIter, rel_name_rev_iter};
pub use rr::SharedRr;
pub use rrset::{Rrset, SharedRrset};
pub use rrset_edits::PutError;
pub use set_key::SetKey;
pub use zone_cut::ZoneCut;
