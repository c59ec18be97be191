// The sections of a message that is being built: items are added at its end, so no section comes after a later one.

ghost use Rattle.std.specs.Prelude.{◌≡◌, ◌<◌, ◌^◌, ◌++◌, List, [], ◌∷◌, length, OnOk};
ghost use Rattle.dns_wire.specs.Wire.{question_wire, message_wire, in_answer, in_authority, Header as HeaderOf, Question as QuestionOf, Message as MessageOf};
ghost use Rattle.dns_rdata.specs.Records.{Record};
ghost use Rattle.dns_wire.specs.Parse.{answers_start, authority_start, additional_start};
ghost use Rattle.dns_wire.specs.Written.{IsMessage};
ghost use Rattle.dns_wire.specs.Builds.{Adds, Pushes, cut_at, rewound};

use crate::builder::{PushError, SectionBuilder};
use crate::question::Question;
use dns_name::Labelled;
use dns_rdata::ComposeRecord;

/// Marks a message that is in none of its sections yet.
#[derive(Drop)]
pub struct Start;

/// Marks the question section.
#[derive(Drop)]
pub struct Questions;

/// Marks the answer section.
#[derive(Drop)]
pub struct Answers;

/// Marks the authority section.
#[derive(Drop)]
pub struct Authority;

/// Marks the additional section.
#[derive(Drop)]
pub struct Additional;

/// A section that stands before the section `T`, or the start of a message (RFC 1035, 4.1): a builder goes on from there to `T`.
pub trait Before<T> {}

impl Before<Questions> for Start {}

impl Before<Answers> for Start {}

impl Before<Answers> for Questions {}

impl Before<Authority> for Start {}

impl Before<Authority> for Questions {}

impl Before<Authority> for Answers {}

impl Before<Additional> for Start {}

impl Before<Additional> for Questions {}

impl Before<Additional> for Answers {}

impl Before<Additional> for Authority {}

impl<S> SectionBuilder<S> {
    /// On to the question section.
    pub fn question(self) -> QuestionBuilder
    where
        S: Before<Questions>,
        ensures { result ≡ self }
    {
        self.moved()
    }

    /// On to the answer section.
    pub fn answer(self) -> AnswerBuilder
    where
        S: Before<Answers>,
        ensures { result ≡ self }
    {
        self.moved()
    }

    /// On to the authority section.
    pub fn authority(self) -> AuthorityBuilder
    where
        S: Before<Authority>,
        ensures { result ≡ self }
    {
        self.moved()
    }

    /// On to the additional section.
    pub fn additional(self) -> AdditionalBuilder
    where
        S: Before<Additional>,
        ensures { result ≡ self }
    {
        self.moved()
    }
}

/// A message that is being built, in its question section.
pub type QuestionBuilder = SectionBuilder<Questions>;

impl QuestionBuilder {
    /// Adds a question at the end, or refuses it and leaves the message as it was.
    pub fn push<N: Labelled>(&mut self, question: &Question<N>) -> Result<(), PushError>
        ensures adds { Adds 4 (question_wire question.now) self.old result self.new }
        ensures listed { OnOk result ((header : HeaderOf) (questions : List QuestionOf)
            → length questions < 2 ^ 16
            → self.old.octets ≡ message_wire (in_answer header questions [])
            → self.new.octets ≡ message_wire (in_answer header (questions ++ question.now ∷ []) [])) }
    {
        self.push_question(question)
    }

    /// Takes the questions back: QDCOUNT is 0, and the octets end where the section began (RFC 1035, 4.1).
    pub fn rewind(&mut self)
        ensures after { self.new ≡ cut_at 4 12 self.old }
        ensures taken_back { (header : HeaderOf) (questions : List QuestionOf)
            → self.old.octets ≡ message_wire (in_answer header questions [])
            → self.new ≡ record self.old { octets = message_wire (in_answer header [] []) } }
    {
        self.cut(4, 12);
    }
}

/// A message that is being built, in its answer section.
pub type AnswerBuilder = SectionBuilder<Answers>;

impl AnswerBuilder {
    /// Adds a record at the end, or refuses it and leaves the message as it was.
    pub fn push<R: ComposeRecord>(&mut self, item: &R) -> Result<(), PushError>
        ensures adds { Pushes 6 (R.record_of item.now) self.old result self.new }
        ensures listed { OnOk result ((header : HeaderOf) (questions : List QuestionOf)
            (answers : List Record) → length answers < 2 ^ 16
            → self.old.octets ≡ message_wire (in_answer header questions answers)
            → self.new.octets
            ≡ message_wire (in_answer header questions (answers ++ R.record_of item.now ∷ []))) }
    {
        self.push_record(6, item)
    }

    /// Takes the answers back: ANCOUNT is 0, and the octets end where the section began (RFC 1035, 4.1).
    /// Nothing changes where an item before the section can't be read.
    pub fn rewind(&mut self)
        ensures after { self.new ≡ rewound 6 (answers_start self.old.octets) self.old }
        ensures taken_back { (header : HeaderOf) (questions : List QuestionOf) (answers : List Record)
            → IsMessage (in_answer header questions answers)
            → self.old.octets ≡ message_wire (in_answer header questions answers)
            → self.new ≡ record self.old { octets = message_wire (in_answer header questions []) } }
    {
        self.rewind_answers();
    }
}

/// A message that is being built, in its authority section.
pub type AuthorityBuilder = SectionBuilder<Authority>;

impl AuthorityBuilder {
    /// Adds a record at the end, or refuses it and leaves the message as it was.
    pub fn push<R: ComposeRecord>(&mut self, item: &R) -> Result<(), PushError>
        ensures adds { Pushes 8 (R.record_of item.now) self.old result self.new }
        ensures listed { OnOk result ((header : HeaderOf) (questions : List QuestionOf)
            (answers authority : List Record) → length authority < 2 ^ 16
            → self.old.octets ≡ message_wire (in_authority header questions answers authority)
            → self.new.octets
            ≡ message_wire (in_authority header questions answers (authority ++ R.record_of item.now ∷ []))) }
    {
        self.push_record(8, item)
    }

    /// Takes the authority records back: NSCOUNT is 0, and the octets end where the section began
    /// (RFC 1035, 4.1). Nothing changes where an item before the section can't be read.
    pub fn rewind(&mut self)
        ensures after { self.new ≡ rewound 8 (authority_start self.old.octets) self.old }
        ensures taken_back { (header : HeaderOf) (questions : List QuestionOf)
            (answers authority : List Record) → IsMessage (in_authority header questions answers authority)
            → self.old.octets ≡ message_wire (in_authority header questions answers authority)
            → self.new ≡ record self.old { octets = message_wire (in_answer header questions answers) } }
    {
        self.rewind_authority();
    }
}

/// A message that is being built, in its additional section.
pub type AdditionalBuilder = SectionBuilder<Additional>;

impl AdditionalBuilder {
    /// Adds a record at the end, or refuses it and leaves the message as it was.
    pub fn push<R: ComposeRecord>(&mut self, item: &R) -> Result<(), PushError>
        ensures adds { Pushes 10 (R.record_of item.now) self.old result self.new }
        ensures listed { OnOk result ((m : MessageOf) → length m.additional < 2 ^ 16
            → self.old.octets ≡ message_wire m
            → self.new.octets
            ≡ message_wire (record m { additional = m.additional ++ R.record_of item.now ∷ [] })) }
    {
        self.push_record(10, item)
    }

    /// Takes the additional records back: ARCOUNT is 0, and the octets end where the section began
    /// (RFC 1035, 4.1). Nothing changes where an item before the section can't be read.
    pub fn rewind(&mut self)
        ensures after { self.new ≡ rewound 10 (additional_start self.old.octets) self.old }
        ensures taken_back { (m : MessageOf) → IsMessage m → self.old.octets ≡ message_wire m
            → self.new ≡ record self.old { octets = message_wire (record m { additional = [] }) } }
    {
        self.rewind_additional();
    }
}
