// The content of an owned answer.
ghost use Rattle.std.specs.Prelude.{◌≡◌, IfOk};
ghost use Rattle.zone_lookup.specs.Replies.{first_of};

use std::alloc::AllocError;
use zone_values::{SharedRr, SharedRrset};

/// What an answer says of the name and type that were asked for (RFC 1034, 4.3.2).
#[derive(Drop)]
pub enum AnswerContent {
    /// A record set.
    Data(SharedRrset),
    /// The name's CNAME record.
    Cname(SharedRr),
    /// No record.
    NoData,
}

impl AnswerContent {
    /// The first record, if there is one.
    pub fn first(&self) -> Result<Option<SharedRr>, AllocError>
        ensures { IfOk result (λ r. r ≡ first_of self.now) }
    {
        match self {
            AnswerContent::Data(set) => set.as_rrset().first(),
            AnswerContent::Cname(record) => Ok(Some(record.clone()?)),
            AnswerContent::NoData => Ok(None),
        }
    }
}
