//! What a primary answers: the transfer service, and the stack of services with it. What it may send, and to whom, it asks the providers of
//! `xfr_providers` (RFC 5936, 5). Requests and services stand in `xfr_services`, the one that checks and signs in `xfr_signing`, what puts records into
//! many messages in `xfr_batch`, a transfer's text and the stream of its messages in `xfr_replies`; all can be had here too.
#![tactic(auto)]

mod examples;
pub mod laws;
mod replies;
pub mod transfer;
mod transfer_message;

pub use transfer::{XfrMiddlewareStream, XfrMiddlewareSvc};
pub use xfr_batch::{
    BatchReadyError, CallbackBatcher, Callbacks, PushResult, ReadyMessages, ResourceRecordBatcher,
    XfrRrBatcher, start_batch,
};
pub use xfr_providers::{
    HistoryProvider, StoredZone, XfrData, XfrDataProvider, XfrDataProviderError,
    commits_may_be_pushed, current_data, providers, stored_zones,
};
pub use xfr_replies::{TransferReplies, TransferText, are_sendable};
pub use xfr_services::{
    CallResult, RefuseSvc, Replies, ReplyStream, Request, Service, ServiceError, ServiceFeedback,
    TransportSpecificContext, XfrMode, modes, requests, services,
};
pub use xfr_signing::{PostprocessingState, TsigMiddlewareSvc, TsigStream, signing};

/// The services of a primary: signatures, then transfers, then whatever answers other requests.
pub type PrimaryStack<N, X, KS> = TsigMiddlewareSvc<XfrMiddlewareSvc<N, X>, KS>;
