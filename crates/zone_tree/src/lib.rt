//! The zones of a server by class and apex, and the zone that a name lies in (RFC 1034, 4.3.2, step 2).
//!
//! What a tree holds is known by its class and the name of its apex, whatever else it is. A name is looked up at itself and at the names above it, in
//! as many ordered look-ups as it has labels, and the root: no look-up goes through all zones.
//! A tree of zones that are no `Drop` is ended by `close`, as each of them is (`Close`).
#![tactic(auto)]

mod at_apex;
mod close;
mod errors;
mod iter;
mod tree;
mod zone_key;

pub use at_apex::AtApex;
pub use close::Close;
pub use errors::InsertZoneError;
pub use iter::ZoneSetIter;
pub use tree::ZoneTree;
