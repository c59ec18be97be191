// An answer that owns its records.
ghost use Rattle.std.specs.Prelude.{◌≡◌, Some, option_copied};
ghost use Rattle.zone_lookup.specs.Replies.{bare_reply, authority_reply};
ghost use Rattle.zone_lookup.specs.declared.answer_content.AnswerContent.TheVariants.{Data, Cname};

use crate::answer_content::AnswerContent;
use crate::parts::{AnswerAdditional, AnswerAuthority};
use dns_numbers::Rcode;
use std::marker::Model;
use std::mem;
use zone_values::{SharedRr, SharedRrset};

/// The answer of a zone to a question: its rcode, whether it is authoritative, and its records (RFC 1034, 4.3.2).
#[derive(Drop)]
pub struct Answer {
    rcode: Rcode,
    content: AnswerContent,
    additional: Option<AnswerAdditional>,
    authority: Option<AnswerAuthority>,
    authoritative: bool,
}

impl Model for Answer {
    ghost use Rattle.zone_lookup.specs.Replies.{Reply};

    ghost Value = { Reply };

    ghost view = { λ a. record { rcode = a.rcode; content = a.content; additional = a.additional; authority = a.authority; authoritative = a.authoritative } };
}

impl Answer {
    /// An answer without records that isn't authoritative.
    pub fn new(rcode: Rcode) -> Answer
        ensures { result ≡ bare_reply rcode }
    {
        Answer {
            rcode,
            content: AnswerContent::NoData,
            additional: None,
            authority: None,
            authoritative: false,
        }
    }

    /// An answer with these authority records alone that isn't authoritative.
    pub fn with_authority(rcode: Rcode, authority: AnswerAuthority) -> Answer
        ensures { result ≡ authority_reply rcode authority }
    {
        let mut answer = Answer::new(rcode);
        answer.set_authority(authority);
        answer
    }

    /// REFUSED, without records (RFC 1035, 4.1.1).
    pub fn refused() -> Answer
        ensures { result ≡ bare_reply 5 }
    {
        Answer::new(Rcode::REFUSED)
    }

    /// Makes a CNAME record the content.
    pub fn add_cname(&mut self, cname: SharedRr)
        ensures { self.new ≡ record self.old { content = Cname cname } }
    {
        drop(mem::replace(&mut self.content, AnswerContent::Cname(cname)));
    }

    /// Makes a record set the content.
    pub fn add_answer(&mut self, answer: SharedRrset)
        ensures { self.new ≡ record self.old { content = Data answer } }
    {
        drop(mem::replace(&mut self.content, AnswerContent::Data(answer)));
    }

    /// Puts these additional records in place of those there.
    pub fn set_additional(&mut self, additional: AnswerAdditional)
        ensures { self.new ≡ record self.old { additional = Some additional } }
    {
        drop(self.additional.replace(additional));
    }

    /// Puts these authority records in place of those there.
    pub fn set_authority(&mut self, authority: AnswerAuthority)
        ensures { self.new ≡ record self.old { authority = Some authority } }
    {
        drop(self.authority.replace(authority));
    }

    /// Says whether the answer is authoritative.
    pub fn set_authoritative(&mut self, authoritative: bool)
        ensures { self.new ≡ record self.old { authoritative = authoritative } }
    {
        self.authoritative = authoritative;
    }

    /// The rcode.
    pub fn rcode(&self) -> Rcode
        ensures { result ≡ self.now.rcode }
    {
        self.rcode
    }

    /// What is said of the name and type that were asked for.
    pub fn content(&self) -> &AnswerContent
        ensures { result.now ≡ self.now.content }
    {
        &self.content
    }

    /// The additional records.
    pub fn additional(&self) -> Option<&AnswerAdditional>
        ensures { option_copied result ≡ self.now.additional }
    {
        self.additional.as_ref()
    }

    /// The authority records.
    pub fn authority(&self) -> Option<&AnswerAuthority>
        ensures { option_copied result ≡ self.now.authority }
    {
        self.authority.as_ref()
    }

    /// Whether the answer is authoritative.
    pub fn authoritative(&self) -> bool
        ensures { result ≡ self.now.authoritative }
    {
        self.authoritative
    }
}
