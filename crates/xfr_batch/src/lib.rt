//! Records put into messages one after another, as many into each as fit (RFC 5936, 2.2).
#![tactic(auto)]

mod batcher;
mod callback_batcher;
mod callbacks;
pub mod laws;
mod pushing;
mod ready;
mod xfr;

pub use batcher::{PushResult, ResourceRecordBatcher};
pub use callback_batcher::CallbackBatcher;
pub use callbacks::{Callbacks, start_batch};
pub use ready::ReadyMessages;
pub use xfr::{BatchReadyError, XfrRrBatcher};
