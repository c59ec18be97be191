//! One version of a zone: its RRsets by owner and type, look-ups, the walk, and the edits that make the next one.
//!
//! A version is a tree of nodes, one for each name that exists in the zone (RFC 1034, 3.1; RFC 4592, 2.2.2), in pages that versions share: a
//! fork (`VersionTree`) shares all of them. An edit of an RRset builds the nodes of names that begin to exist, and its owner's anew: `NodeCount`
//! tells how many. An edit in place copies what other versions share on the way to the RRset. A walk gives the RRsets in order, and clearing a
//! name takes all at and below it out. Contracts see the version, a map of RRsets by owner and type, and nothing of pages. `zone_sessions`
//! shares versions between read handles and a session that writes the next.
#![tactic(auto)]

mod building;
mod clearing;
mod data_edits;
mod errors;
mod examples;
mod growing;
mod laws;
mod node;
mod node_map;
mod nodes;
mod places;
mod set_edit;
mod shrinking;
mod tree;
mod tree_walk;
mod types;
mod version;
mod walk;

pub use building::{make_alias, make_cut, replace_set};
pub use errors::EditError;
pub use laws::few_nodes_are_built;
pub use node::{NodeCount, ZoneNode};
pub use nodes::is_bad_alias;
pub use places::is_at_or_below;
pub use tree::VersionTree;
pub use tree_walk::{TreeSet, TreeSets};
pub use version::ZoneVersion;
pub use walk::{RrsetIter, VersionKeys, WalkItem};
pub use zone_values::SetKey;
