//! Requests, and the services that answer them with streams of replies.
//!
//! A `Service` is asked a `Request` and gives a stream of items: replies that can still be signed, and feedback. One service hands a
//! request on to the next and changes what that gives, as the one that checks and signs does (`xfr_signing`). `RefuseSvc` stands at the end.
#![tactic(auto)]

pub mod modes;
pub mod replies;
pub mod requests;
pub mod services;

pub use modes::XfrMode;
pub use requests::{Request, TransportSpecificContext};
pub use services::{
    CallResult, RefuseSvc, Replies, ReplyStream, Service, ServiceError, ServiceFeedback,
};
