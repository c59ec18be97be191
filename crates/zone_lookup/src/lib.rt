//! Questions to one version of a zone (RFC 1034, 4.3.2, step 3; RFC 4592): what it has for a name and a type, its sets lent
//! or in memory of the answer's own. No alias is followed, ANY has one RRset, and nothing is added but a referral's glue; the SOA record of a
//! negative answer has its own TTL, not the lower of that and its MINIMUM (RFC 2308, 3).
//!
//! `look_up` gives an answer whose records are lent; `Answer` owns its records, and makes the message that says them (RFC 1035, 4.1; RFC 2181, 9).
//!
//! A name is walked label by label, with one ordered look-up or two at each; that a name exists is a question for the first owner from it on,
//! since in canonical order the owners at or below a name stand together.
#![tactic(auto)]

mod answer;
mod answer_content;
mod answer_ref;
mod content;
mod laws;
mod look_up_steps;
mod owning;
mod parts;
mod queries;
mod question;
mod reply_laws;
mod sections;
mod sending;

pub use answer::Answer;
pub use answer_content::AnswerContent;
pub use answer_ref::AnswerRef;
pub use parts::{AnswerAdditional, AnswerAuthority};
pub use queries::{Queries, Query};
pub use question::look_up;
pub use zone_values::OutOfZone;
