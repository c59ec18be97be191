//! An ordered map from strings of octets to values, in pages that its clones share.
//!
//! A clone shares all pages, and an edit copies the one page that it changes, unless no other clone has that. Contracts see the list of the entries in
//! order, and nothing of pages.
#![tactic(auto)]

mod edits;
mod iter;
mod leads;
mod map;
mod marks;
mod page;
mod reads;
mod spots;
mod writes;

pub use iter::Entries;
pub use map::PagedMap;
pub use marks::compare;
