//! The secondary's half of a zone transfer: an interpreter that turns the messages of a transfer into updates of a
//! zone (RFC 5936, 2.2; RFC 1995, 4), an updater that applies them to a writing session, and the client of a whole transfer (`XfrClient`), which
//! makes the signed request, and takes the replies one by one.
//!
//! A message is first tested as a whole; then its answer records are told one by one as updates. The updater keeps
//! no copy of the zone: each update is one edit of the session that it borrows.
#![tactic(auto)]

pub mod client;
mod exchange;
mod first_soa;
mod interpreter;
mod interpreter_state;
mod iterator;
pub mod laws;
mod section;
mod updater;
mod updater_state;

pub use client::XfrClient;
pub use exchange::MOST_REPLIES;
pub use interpreter::XfrResponseInterpreter;
pub use iterator::XfrZoneUpdateIterator;
pub use updater::ZoneUpdater;
pub use xfr_outcomes::update::ZoneUpdate;
pub use xfr_outcomes::{protocol, update};
