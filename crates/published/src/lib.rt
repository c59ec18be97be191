//! One end that publishes, and readers on any thread that take what is published and never wait. All of them share one history, and contracts say what
//! each has seen of it.
//!
//! [`open`] gives the first reader and the publishing end. A thread is given a reader of its own ([`Reader::another`]), and a [`Receipt`] takes word of a
//! commit from the publishing end to a reader ([`Reader::learn`]).
#![tactic(auto)]

mod any_reader;
mod book;
mod laws;
mod numbered;
mod pair;
mod publishing;
mod readers;
mod receipts;
mod stock;

pub use any_reader::AnyReader;
pub use laws::beginnings_are_no_later;
pub use numbered::Numbered;
pub use publishing::{Publisher, open, open_locked};
pub use readers::{Reader, ReaderError};
pub use receipts::Receipt;
