//! The service that checks the signatures of requests and signs the replies (RFC 8945, 5.2 and 5.3).
//!
//! `TsigMiddlewareSvc` is a `Service` of `xfr_services`: it takes signatures off requests, hands these on to the next service, and puts
//! signatures on the replies that come back. A refused request gets the one reply that tells its TSIG error.
#![tactic(auto)]

mod examples;
mod laws;
pub mod refusing;
pub mod signing;

pub use signing::{PostprocessingState, TsigMiddlewareSvc, TsigStream};
