//! The data of a TSIG record (RFC 8945, 4.2), and the moments that they tell: read from a message, written, kept in memory of their own,
//! compared in two orders, printed. What is digested and checked is in `tsig_port`.
#![tactic(auto)]

pub mod examples;
pub mod laws;
mod rdata;
mod time;
mod tsig_canonical;
mod tsig_order;
mod tsig_text;

pub use rdata::{ReadTsig, SigningTsig, StoredTsig, Tsig, TsigRecord};
pub use time::Time48;
