//! The secondary's half of a transfer over a stream of octets each way, as a connection gives them: the signed request goes out, and the
//! replies come in, each message after its length in two octets (RFC 1035, 4.2.2; RFC 5936, 4.2).
#![tactic(auto)]

pub mod asking;
pub mod errors;
pub mod laws;
pub mod limits;
pub mod program;
pub mod retrying;
pub mod words;

pub use asking::ask_zone;
pub use errors::AskError;
pub use limits::{Limit, Limits};
pub use program::{RunEnd, run_secondary};
pub use retrying::transfer_zone;
pub use words::file_of;
