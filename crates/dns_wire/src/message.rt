// Messages as they were received (RFC 1035, 4.1).

ghost use Rattle.std.specs.Prelude.{◌≡◌, ◌≢◌, ◌↔◌, ◌^◌, ◌<◌, ◌≤◌, ◌++◌, drop, length, IsTrue, IfOk, OnOk, OnErr, Some, None};
ghost use Rattle.dns_numbers.specs.Codes.{noerror};
ghost use Rattle.dns_wire.specs.Wire.{header_in, header_wire, qdcount_in, without_last_additional};
ghost use Rattle.dns_wire.specs.Numbers.{counts_in, with_number};
ghost use Rattle.dns_wire.specs.Reads.{ReadsAs};
ghost use Rattle.dns_wire.specs.Parse.{Parsed, parsed, question_at, readings, sole_question_in, qtype_in, answers_start, authority_start, additional_start, message_end, answer_readings, authority_readings, additional_readings};

use crate::header::{Header, HeaderCounts, counts_from, header_from, write_header};
use crate::numbers::{number_at, set_number};
use crate::question::Question;
use crate::sections::{QuestionSection, RecordSection, after_questions, after_records};
use dns_name::{ParseError, ParsedName};
use dns_numbers::{Rcode, Rtype};
use std::marker::Model;
use thiserror::Error;

/// Fewer than 12 octets, so no message (RFC 1035, 4.1.1).
#[derive(Clone, Copy, Debug, PartialEq, Eq, Drop, Error)]
#[error("fewer than 12 octets")]
pub struct ShortMessage;

/// A message in octets that someone else owns: at least its header of 12 octets, the rest as it came.
#[derive(Drop)]
pub struct Message<'m> {
    octets: &'m [u8],
}

impl<'m> Model for Message<'m> {
    ghost use Rattle.std.specs.Prelude.{ℕ, ◌≤◌, List, length};

    ghost Value = { List ℕ };

    ghost view = { λ m. m.octets.now };

    ghost invariant = { λ m. 12 ≤ length m.octets.now };
}

impl<'m> Message<'m> {
    /// The message of these octets, refused exactly where they are fewer than 12.
    pub fn from_octets(octets: &'m [u8]) -> Result<Message<'m>, ShortMessage>
        ensures found { IfOk result (λ message. message ≡ octets.now) }
        ensures whole { OnOk result (12 ≤ length octets.now) }
        ensures short { OnErr result (length octets.now < 12) }
    {
        if octets.len() < 12 {
            return Err(ShortMessage);
        }
        Ok(Message { octets })
    }

    /// The message of octets that are known to be a header at least; of others `from_octets` tells whether they are.
    pub fn from_whole(octets: &'m [u8]) -> Message<'m>
        requires { 12 ≤ length octets.now }
        ensures { result ≡ octets.now }
    {
        Message { octets }
    }

    /// All octets.
    pub fn as_slice(&self) -> &'m [u8]
        ensures value { result.now ≡ self.now }
        ensures header { 12 ≤ length result.now }
    {
        self.octets
    }

    /// Id and flags.
    pub fn header(&self) -> Header
        ensures { result ≡ header_in self.now }
    {
        header_from(self.octets)
    }

    /// Whether the rcode isn't NOERROR (RFC 1035, 4.1.1).
    pub fn is_error(&self) -> bool
        ensures { IsTrue result ↔ ((header_in self.now).rcode ≢ noerror) }
    {
        self.header().rcode != Rcode::NOERROR
    }

    /// How many items the sections are said to have.
    pub fn counts(&self) -> HeaderCounts
        ensures { result ≡ counts_in self.now }
    {
        counts_from(self.octets)
    }

    /// The questions.
    #[tactic(auto, using(crate::proofs::Items::few_readings))]
    pub fn question(&self) -> QuestionSection<'m>
        ensures value { result ≡ record { message = self.now; left = readings (question_at self.now) (qdcount_in self.now) 12 } }
        ensures few { length result.left < 2 ^ 16 }
    {
        QuestionSection::new(self.octets, 12, self.counts().qdcount)
    }

    /// The one question, refused where QDCOUNT isn't 1 or the question can't be read (RFC 1035, 4.1.2).
    pub fn sole_question(&self) -> Result<Question<ParsedName<'m>>, ParseError>
        ensures found { IfOk result (λ question. sole_question_in self.now ≡ Some question) }
        ensures none { OnErr result (sole_question_in self.now ≡ None) }
    {
        if self.counts().qdcount != 1 {
            return Err(ParseError);
        }
        let (question, _) = Question::parse(self.octets, 12)?;
        Ok(question)
    }

    /// The type of the first question, where there is one that can be read (RFC 1035, 4.1.2).
    pub fn qtype(&self) -> Option<Rtype>
        ensures { result ≡ qtype_in self.now }
    {
        if self.counts().qdcount == 0 {
            return None;
        }
        match Question::parse(self.octets, 12) {
            Ok((question, _)) => Some(question.qtype()),
            Err(_) => None,
        }
    }

    /// The answer records, refused where a question before them can't be read.
    pub fn answer(&self) -> Result<RecordSection<'m>, ParseError>
        ensures found { IfOk result (λ section. section ≡ record { message = self.now; left = answer_readings self.now }) }
        ensures begins { OnOk result (answers_start self.now ≢ None) }
        ensures none { OnErr result (answers_start self.now ≡ None) }
        ensures few { IfOk result (λ section. length section.left < 2 ^ 16) }
    {
        let pos = self.answers_place()?;
        Ok(RecordSection::new(self.octets, pos, self.counts().ancount))
    }

    /// The authority records, refused where an item before them can't be read.
    pub fn authority(&self) -> Result<RecordSection<'m>, ParseError>
        ensures found { IfOk result (λ section. section ≡ record { message = self.now; left = authority_readings self.now }) }
        ensures begins { OnOk result (authority_start self.now ≢ None) }
        ensures none { OnErr result (authority_start self.now ≡ None) }
        ensures few { IfOk result (λ section. length section.left < 2 ^ 16) }
    {
        let pos = self.authority_place()?;
        Ok(RecordSection::new(self.octets, pos, self.counts().nscount))
    }

    /// The additional records, refused where an item before them can't be read.
    pub fn additional(&self) -> Result<RecordSection<'m>, ParseError>
        ensures found { IfOk result (λ section. section ≡ record { message = self.now; left = additional_readings self.now }) }
        ensures begins { OnOk result (additional_start self.now ≢ None) }
        ensures none { OnErr result (additional_start self.now ≡ None) }
        ensures few { IfOk result (λ section. length section.left < 2 ^ 16) }
    {
        let pos = self.additional_place()?;
        Ok(RecordSection::new(self.octets, pos, self.counts().arcount))
    }

    /// The place after the last counted item, refused where a counted item can't be read. So this tells whether the message
    /// parses; octets after that place are not read.
    pub fn end(&self) -> Result<usize, ParseError>
        ensures found { IfOk result (λ place. message_end self.now ≡ Some place) }
        ensures none { OnErr result (message_end self.now ≡ None) }
        ensures reads { OnOk result ((p : Parsed) × ReadsAs self.now p) }
        ensures unread { OnErr result (parsed self.now ≡ None) }
    {
        let place = self.end_place()?;
        Ok(place)
    }

    /// The place after the last counted item.
    fn end_place(&self) -> Result<usize, ParseError>
        ensures found { IfOk result (λ place. message_end self.now ≡ Some place) }
        ensures none { OnErr result (message_end self.now ≡ None) }
        ensures header { 12 ≤ length self.now }
    {
        after_records(self.octets, self.counts().arcount, self.additional_place()?)
    }

    /// The place where the answer section begins, refused where a question can't be read (RFC 1035, 4.1).
    #[tactic(auto, using(crate::proofs::Places::answers_behind))]
    pub fn answers_place(&self) -> Result<usize, ParseError>
        ensures found { IfOk result (λ place. answers_start self.now ≡ Some place) }
        ensures none { OnErr result (answers_start self.now ≡ None) }
        ensures behind { IfOk result (λ place. 12 ≤ place) }
    {
        after_questions(self.octets, self.counts().qdcount, 12)
    }

    /// The place where the authority section begins, refused where an item before it can't be read (RFC 1035, 4.1).
    #[tactic(auto, using(crate::proofs::Places::authority_behind))]
    pub fn authority_place(&self) -> Result<usize, ParseError>
        ensures found { IfOk result (λ place. authority_start self.now ≡ Some place) }
        ensures none { OnErr result (authority_start self.now ≡ None) }
        ensures behind { IfOk result (λ place. 12 ≤ place) }
    {
        after_records(self.octets, self.counts().ancount, self.answers_place()?)
    }

    /// The place where the additional section begins, refused where an item before it can't be read (RFC 1035, 4.1).
    #[tactic(auto, using(crate::proofs::Places::additional_behind))]
    pub fn additional_place(&self) -> Result<usize, ParseError>
        ensures found { IfOk result (λ place. additional_start self.now ≡ Some place) }
        ensures none { OnErr result (additional_start self.now ≡ None) }
        ensures behind { IfOk result (λ place. 12 ≤ place) }
    {
        after_records(self.octets, self.counts().nscount, self.authority_place()?)
    }
}

/// A message that owns its octets: at least a header of 12, the rest as it came.
#[derive(Drop)]
pub struct MessageBuf {
    octets: Vec<u8>,
}

impl Model for MessageBuf {
    ghost use Rattle.std.specs.Prelude.{ℕ, ◌≤◌, List, length};

    ghost Value = { List ℕ };

    ghost view = { λ m. m.octets.items };

    ghost invariant = { λ m. 12 ≤ length m.octets.items };
}

impl MessageBuf {
    /// The message of these octets, refused exactly where they are fewer than 12.
    pub fn from_octets(octets: Vec<u8>) -> Result<MessageBuf, ShortMessage>
        ensures found { IfOk result (λ message. message ≡ octets.items) }
        ensures whole { OnOk result (12 ≤ length octets.items) }
        ensures short { OnErr result (length octets.items < 12) }
    {
        if octets.len() >= 12 {
            Ok(MessageBuf { octets })
        } else {
            Err(ShortMessage)
        }
    }

    /// The message of octets that are known to be a header at least; of others `from_octets` tells whether they are.
    pub fn from_whole(octets: Vec<u8>) -> MessageBuf
        requires { 12 ≤ length octets.items }
        ensures { result ≡ octets.items }
    {
        MessageBuf { octets }
    }

    /// The message lent, for reading.
    pub fn as_message(&self) -> Message<'_>
        ensures { result ≡ self.now }
    {
        Message::from_whole(self.octets.as_slice())
    }

    /// All octets.
    pub fn as_slice(&self) -> &[u8]
        ensures value { result.now ≡ self.now }
        ensures header { 12 ≤ length result.now }
    {
        self.octets.as_slice()
    }

    /// Id and flags.
    pub fn header(&self) -> Header
        ensures { result ≡ header_in self.now }
    {
        self.as_message().header()
    }

    /// Whether the rcode isn't NOERROR (RFC 1035, 4.1.1).
    pub fn is_error(&self) -> bool
        ensures { IsTrue result ↔ ((header_in self.now).rcode ≢ noerror) }
    {
        self.as_message().is_error()
    }

    /// How many items the sections are said to have.
    pub fn counts(&self) -> HeaderCounts
        ensures { result ≡ counts_in self.now }
    {
        self.as_message().counts()
    }

    /// The questions.
    pub fn question(&self) -> QuestionSection<'_>
        ensures value { result ≡ record { message = self.now; left = readings (question_at self.now) (qdcount_in self.now) 12 } }
        ensures few { length result.left < 2 ^ 16 }
    {
        self.as_message().question()
    }

    /// The one question, refused where QDCOUNT isn't 1 or the question can't be read (RFC 1035, 4.1.2).
    pub fn sole_question(&self) -> Result<Question<ParsedName<'_>>, ParseError>
        ensures found { IfOk result (λ question. sole_question_in self.now ≡ Some question) }
        ensures none { OnErr result (sole_question_in self.now ≡ None) }
    {
        self.as_message().sole_question()
    }

    /// The type of the first question, where there is one that can be read (RFC 1035, 4.1.2).
    pub fn qtype(&self) -> Option<Rtype>
        ensures { result ≡ qtype_in self.now }
    {
        self.as_message().qtype()
    }

    /// The answer records, refused where a question before them can't be read.
    pub fn answer(&self) -> Result<RecordSection<'_>, ParseError>
        ensures found { IfOk result (λ section. section ≡ record { message = self.now; left = answer_readings self.now }) }
        ensures begins { OnOk result (answers_start self.now ≢ None) }
        ensures none { OnErr result (answers_start self.now ≡ None) }
        ensures few { IfOk result (λ section. length section.left < 2 ^ 16) }
    {
        self.as_message().answer()
    }

    /// The authority records, refused where an item before them can't be read.
    pub fn authority(&self) -> Result<RecordSection<'_>, ParseError>
        ensures found { IfOk result (λ section. section ≡ record { message = self.now; left = authority_readings self.now }) }
        ensures begins { OnOk result (authority_start self.now ≢ None) }
        ensures none { OnErr result (authority_start self.now ≡ None) }
        ensures few { IfOk result (λ section. length section.left < 2 ^ 16) }
    {
        self.as_message().authority()
    }

    /// The additional records, refused where an item before them can't be read.
    pub fn additional(&self) -> Result<RecordSection<'_>, ParseError>
        ensures found { IfOk result (λ section. section ≡ record { message = self.now; left = additional_readings self.now }) }
        ensures begins { OnOk result (additional_start self.now ≢ None) }
        ensures none { OnErr result (additional_start self.now ≡ None) }
        ensures few { IfOk result (λ section. length section.left < 2 ^ 16) }
    {
        self.as_message().additional()
    }

    /// The place after the last counted item, refused where a counted item can't be read. So this tells whether the message
    /// parses; octets after that place are not read.
    pub fn end(&self) -> Result<usize, ParseError>
        ensures found { IfOk result (λ place. message_end self.now ≡ Some place) }
        ensures none { OnErr result (message_end self.now ≡ None) }
        ensures reads { OnOk result ((p : Parsed) × ReadsAs self.now p) }
        ensures unread { OnErr result (parsed self.now ≡ None) }
    {
        self.as_message().end()
    }

    /// Writes the id, the first two octets.
    pub fn set_id(&mut self, id: u16)
        ensures { self.new ≡ with_number 0 self.old id }
    {
        set_number(&mut self.octets, 0, id);
    }

    /// Writes id and flags, the first four octets; counts and items stay as they were.
    pub fn set_header(&mut self, header: Header)
        ensures after { self.new ≡ header_wire header ++ drop 4 self.old }
        ensures read { header_in self.new ≡ header }
    {
        write_header(&mut self.octets, header);
    }

    /// ARCOUNT one less, and nothing where it is 0. No octet is cut off: what stands after the last counted item isn't read.
    pub fn remove_last_additional(&mut self)
        ensures { self.new ≡ without_last_additional self.old }
    {
        let count = number_at(self.octets.as_slice(), 10);
        set_number(&mut self.octets, 10, count.saturating_sub(1));
    }

    /// All octets, handed over.
    pub fn into_octets(self) -> Vec<u8>
        ensures value { result.items ≡ self }
        ensures header { 12 ≤ length result.items }
    {
        self.octets
    }
}
