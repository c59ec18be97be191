//! The requests of a stream, answered one after another by a service (RFC 1035, 4.2.2; RFC 7766, 6.2): each is read as a frame, and each reply to it
//! is written as a frame before the next request is read. What answers is any `Service` of `xfr_services`, as a primary's stack.
//!
//! Inmost in such a stack, behind what checks and signs and what answers transfers (`xfr_signing`, `xfr_server`), stands `ZoneQueries`: it answers
//! questions for names of a zone from its current version (RFC 1034, 4.3.2 and 4.3.5), so that a secondary can ask for the SOA before it asks for
//! the zone.
#![tactic(auto)]

mod answering;
pub mod errors;
pub mod laws;
pub mod one_version;
pub mod query_laws;
pub mod serving;

pub use answering::ZoneQueries;
pub use errors::ServeError;
pub use one_version::OneVersion;
pub use serving::{MOST_REQUESTS, Served, serve_stream};
