// A message that is being built, and what its sections have in common.

ghost use Rattle.std.specs.Prelude.{◌≡◌, ◌+◌, ◌^◌, ◌<◌, ◌≤◌, ◌++◌, nat_le, min, true, [], length, take, drop, replicate, vec_len, flat_map, if◌then◌else◌, IfOk, Some};
ghost use Rattle.std.specs.List.{filter_map};
ghost use Rattle.dns_rdata.specs.Records.{record_wire};
ghost use Rattle.dns_wire.specs.Wire.{header_in, header_wire, header_number, question_wire, message_wire, in_answer, fits, Header as HeaderOf, Message as MessageOf};
ghost use Rattle.dns_wire.specs.Numbers.{counts_in};
ghost use Rattle.dns_wire.specs.Builds.{Adds, AddsFitting, AddsQuestions, Builds, HasRoom, cut_at, rewound, with_questions};
ghost use Rattle.dns_wire.specs.Reply.{answer_header, empty_answer, error_answer};
ghost use Rattle.dns_wire.specs.Parse.{parsed, questions_in, answers_start, authority_start, additional_start};
ghost use Rattle.dns_wire.specs.Written.{IsMessage, parsed_of};

use crate::header::{Header, HeaderCounts, write_header};
use crate::message::{Message, MessageBuf};
use crate::numbers::{number_at, set_number};
use crate::question::Question;
use crate::section_builders::{AnswerBuilder, Start};
use crate::sections::QuestionSection;
use dns_name::Labelled;
use dns_numbers::Rcode;
use dns_rdata::ComposeRecord;
use std::alloc::{AllocError, Global};
use std::marker::{Model, PhantomData};
use thiserror::Error;

/// The most octets that a message has: what its length before it on a stream can say (RFC 1035, 4.2.2).
const MAX_LEN: usize = 65535;

/// Why an item wasn't added. The message is then as it was before.
#[derive(Clone, Copy, Debug, PartialEq, Eq, Error)]
pub enum PushError {
    /// The message would have more octets than its push limit, or more than 65,535.
    #[error("no room in the message")]
    ShortBuf,
    /// The section has 65,535 items already.
    #[error("too many items in the section")]
    CountOverflow,
    /// There is no memory for it.
    #[error("out of memory")]
    Memory,
}

/// A message that is being built, of at most 65,535 octets: its header and the items so far. `S` marks the section
/// that it is in.
#[derive(Drop)]
pub struct SectionBuilder<S> {
    octets: Vec<u8>,
    limit: usize,
    section: PhantomData<S>,
}

/// A message that is being built: its header, and so far no item.
pub type MessageBuilder = SectionBuilder<Start>;

impl<S> Model for SectionBuilder<S> {
    ghost use Rattle.std.specs.Prelude.{◌≤◌, length};
    ghost use Rattle.dns_wire.specs.Wire.{Building};

    ghost Value = { Building };

    ghost view = { λ b. record { octets = b.octets.items; limit = b.limit } };

    ghost invariant = { λ b. (12 ≤ length b.octets.items) × (length b.octets.items ≤ 65535) };
}

impl<S> SectionBuilder<S> {
    /// The octets so far.
    pub fn as_slice(&self) -> &[u8]
        ensures value { result.now ≡ self.now.octets }
        ensures header { 12 ≤ length result.now }
        ensures most { length result.now ≤ 65535 }
    {
        self.octets.as_slice()
    }

    /// Id and flags.
    pub fn header(&self) -> Header
        ensures { result ≡ header_in self.now.octets }
    {
        self.as_message().header()
    }

    /// How many items the sections have so far.
    pub fn counts(&self) -> HeaderCounts
        ensures { result ≡ counts_in self.now.octets }
    {
        self.as_message().counts()
    }

    /// Writes id and flags, the first four octets.
    pub fn set_header(&mut self, header: Header)
        ensures after { self.new ≡ record self.old { octets = header_wire header ++ drop 4 self.old.octets } }
        ensures read { header_in self.new.octets ≡ header }
        ensures listed { (m : MessageOf) → self.old.octets ≡ message_wire m
            → self.new.octets ≡ message_wire (record m { header = header }) }
    {
        write_header(&mut self.octets, header);
    }

    /// From now on no item is added that would give the message more octets than `limit`, nor more than 65,535.
    pub fn set_push_limit(&mut self, limit: usize)
        ensures { self.new ≡ record self.old { limit = limit } }
    {
        self.limit = limit;
    }

    /// From now on the message may have 65,535 octets.
    pub fn clear_push_limit(&mut self)
        ensures { self.new ≡ record self.old { limit = 65535 } }
    {
        self.limit = MAX_LEN;
    }

    /// The push limit, 65,535 where none was set.
    pub fn push_limit(&self) -> usize
        ensures { result ≡ self.now.limit }
    {
        self.limit
    }

    /// Whether so many octets more are within the push limit.
    fn has_room(&self, len: usize) -> bool
        requires { length self.now.octets + len < 2 ^ 63 }
        ensures { result ≡ nat_le (length self.now.octets + len) (min self.now.limit 65535) }
    {
        self.octets.len() + len <= self.limit.min(MAX_LEN)
    }

    /// The count in the two octets at `place` of the header, where an item of `len` octets has room and can be counted there.
    fn count_for(&self, place: usize, len: usize) -> Result<u16, PushError>
        requires header { place + 2 ≤ 12 }
        requires item { length self.now.octets + len < 2 ^ 63 }
        ensures { HasRoom place len self.now result }
    {
        if !self.has_room(len) {
            return Err(PushError::ShortBuf);
        }
        let count = number_at(self.octets.as_slice(), place);
        if count == u16::MAX {
            return Err(PushError::CountOverflow);
        }
        Ok(count)
    }

    /// Adds a question at the end.
    pub(crate) fn push_question<N: Labelled>(
        &mut self,
        question: &Question<N>,
    ) -> Result<(), PushError>
        ensures { Adds 4 (question_wire question.now) self.old result self.new }
    {
        let len = usize::from(question.qname().compose_len()) + 4;
        let count = match self.count_for(4, len) {
            Ok(count) => count,
            Err(error) => return Err(error),
        };
        let Ok(()) = question.compose(&mut self.octets) else {
            return Err(PushError::Memory);
        };
        set_number(&mut self.octets, 4, count + 1);
        Ok(())
    }

    /// Adds a record at the end, counted in the two octets at `place` of the header.
    pub(crate) fn push_record<R: ComposeRecord>(
        &mut self,
        place: usize,
        item: &R,
    ) -> Result<(), PushError>
        requires { place + 2 ≤ 12 }
        ensures { Adds place (record_wire (R.record_of item.now)) self.old result self.new }
    {
        let count = match self.count_for(place, item.record_len() as usize) {
            Ok(count) => count,
            Err(error) => return Err(error),
        };
        let Ok(()) = item.compose_record(&mut self.octets) else {
            return Err(PushError::Memory);
        };
        set_number(&mut self.octets, place, count + 1);
        Ok(())
    }

    /// The message so far, lent for reading.
    fn as_message(&self) -> Message<'_>
        ensures { result ≡ self.now.octets }
    {
        Message::from_whole(self.octets.as_slice())
    }

    /// Takes back what stands from `start` on, and sets the count in the two octets at `place` of the header to 0.
    pub(crate) fn cut(&mut self, place: usize, start: usize)
        requires header { place + 2 ≤ 12 }
        requires behind { 12 ≤ start }
        ensures { self.new ≡ cut_at place start self.old }
    {
        self.octets.truncate(start);
        set_number(&mut self.octets, place, 0);
    }

    /// Takes the answers back, where the items before them can be read.
    pub(crate) fn rewind_answers(&mut self)
        ensures { self.new ≡ rewound 6 (answers_start self.old.octets) self.old }
    {
        let Ok(start) = self.as_message().answers_place() else {
            return;
        };
        self.cut(6, start);
    }

    /// Takes the authority records back, where the items before them can be read.
    pub(crate) fn rewind_authority(&mut self)
        ensures { self.new ≡ rewound 8 (authority_start self.old.octets) self.old }
    {
        let Ok(start) = self.as_message().authority_place() else {
            return;
        };
        self.cut(8, start);
    }

    /// Takes the additional records back, where the items before them can be read.
    pub(crate) fn rewind_additional(&mut self)
        ensures { self.new ≡ rewound 10 (additional_start self.old.octets) self.old }
    {
        let Ok(start) = self.as_message().additional_place() else {
            return;
        };
        self.cut(10, start);
    }

    /// On to a later section.
    pub(crate) fn moved<T>(self) -> SectionBuilder<T>
        ensures { result ≡ self }
    {
        let SectionBuilder { octets, limit, .. } = self;
        SectionBuilder {
            octets,
            limit,
            section: PhantomData,
        }
    }

    /// The message as it is now. It parses to the items that it was built of.
    pub fn finish(self) -> MessageBuf
        ensures value { result ≡ self.octets }
        ensures most { length result ≤ 65535 }
        ensures read_back { (m : MessageOf) → IsMessage m → self.octets ≡ message_wire m
            → parsed result ≡ Some (parsed_of m) }
    {
        MessageBuf::from_whole(self.octets)
    }
}

impl MessageBuilder {
    /// A header of 12 octets that are zero, and no push limit but 65,535.
    pub fn new(alloc: Global) -> Result<MessageBuilder, AllocError>
        ensures { IfOk result (λ b. b ≡ record { octets = replicate 12 0; limit = 65535 }) }
    {
        let octets = vec![in alloc; 0; 12]?;
        Ok(MessageBuilder {
            octets,
            limit: MAX_LEN,
            section: PhantomData,
        })
    }

    /// Adds the questions that are left, up to the first that can't be read. All of them have room and can be counted.
    fn push_questions(&mut self, mut questions: QuestionSection<'_>) -> Result<(), PushError>
        requires room { fits self.old.limit (with_questions self.old.octets (filter_map (λ q. q) questions.left)) ≡ true }
        requires header { 12 ≤ length self.old.octets }
        requires few { header_number 4 self.old.octets + length (filter_map (λ q. q) questions.left) < 2 ^ 16 }
        ensures { AddsQuestions (filter_map (λ q. q) questions.entry.left) self.old result self.new }
    {
        loop {
            match questions.next_question() {
                Some(Ok(question)) => self.push_question(&question)?,
                Some(Err(_)) => return Ok(()),
                None => return Ok(()),
            }
        }
    }

    /// Adds the questions that are left, up to the first that can't be read or has no room. Tells whether none was without room.
    /// All of them can be counted.
    fn push_fitting(&mut self, mut questions: QuestionSection<'_>) -> Result<bool, PushError>
        requires header { 12 ≤ length self.old.octets }
        requires few { header_number 4 self.old.octets + length (filter_map (λ q. q) questions.left) < 2 ^ 16 }
        ensures { AddsFitting (filter_map (λ q. q) questions.entry.left) self.old result self.new }
    {
        loop {
            match questions.next_question() {
                Some(Ok(question)) => match self.push_question(&question) {
                    Ok(()) => {}
                    Err(PushError::ShortBuf) => return Ok(false),
                    Err(error) => return Err(error),
                },
                Some(Err(_)) => return Ok(true),
                None => return Ok(true),
            }
        }
    }

    /// A message of this header and no item, with the same push limit. It takes no memory.
    fn restarted(self, header: Header) -> MessageBuilder
        ensures { result ≡ record { octets = header_wire header ++ replicate 8 0; limit = self.limit } }
    {
        let mut octets = self.octets;
        octets.truncate(12);
        octets.fill(0);
        write_header(&mut octets, header);
        MessageBuilder {
            octets,
            limit: self.limit,
            section: PhantomData,
        }
    }

    /// Starts over with an answer to a request: its id, opcode, RD and its questions up to the first that can't be read, QR
    /// set, that rcode, and no record (RFC 1035, 4.1.1). `ShortBuf` where that is more than the push limit; `Memory` only where it isn't.
    pub fn start_answer(
        self,
        request: &Message<'_>,
        rcode: Rcode,
    ) -> Result<AnswerBuilder, PushError>
        ensures { Builds (message_wire (empty_answer request.now rcode)) self.limit result }
    {
        let mut message = self.restarted(request.header().answer(rcode));
        if !message.has_room(questions_len(request.question())) {
            return Err(PushError::ShortBuf);
        }
        message.push_questions(request.question())?;
        Ok(message.answer())
    }

    /// Writes the header of an error answer to a request with that header: SERVFAIL where not all its questions had room.
    fn set_error_header(&mut self, asked: &Header, all: bool, rcode: Rcode)
        ensures { self.new ≡ record self.old { octets = header_wire (answer_header asked.now (if all then rcode else 2)) ++ drop 4 self.old.octets } }
    {
        let rcode = if all { rcode } else { Rcode::SERVFAIL };
        self.set_header(asked.answer(rcode));
    }

    /// Starts over with an error answer to a request: as `start_answer`, but the first question without room ends the questions,
    /// and the rcode is then SERVFAIL (RFC 1035, 4.1.1). `ShortBuf` where the header alone is more than the push limit; `Memory` only where it isn't.
    pub fn start_error(
        self,
        request: &Message<'_>,
        rcode: Rcode,
    ) -> Result<AnswerBuilder, PushError>
        ensures { Builds (message_wire (error_answer self.limit request.now rcode)) self.limit result }
    {
        let asked = request.header();
        let mut message = self.restarted(asked.answer(Rcode::NOERROR));
        if message.limit < message.octets.len() {
            return Err(PushError::ShortBuf);
        }
        let all = message.push_fitting(request.question())?;
        message.set_error_header(&asked, all, rcode);
        Ok(message.answer())
    }
}

/// How many octets the questions that are left have as they are sent, up to the first that can't be read.
fn questions_len(mut questions: QuestionSection<'_>) -> usize
    requires few { length questions.left < 2 ^ 16 }
    ensures len { result ≡ length (flat_map question_wire (filter_map (λ q. q) questions.entry.left)) }
    ensures bound { result < 2 ^ 26 }
{
    let mut len = 0;
    loop {
        match questions.next_question() {
            Some(Ok(question)) => len += usize::from(question.qname().compose_len()) + 4,
            Some(Err(_)) => return len,
            None => return len,
        }
    }
}

impl<'m> Message<'m> {
    /// How many octets an answer to this request has before any record: a header, and the questions up to the first that can't be read.
    pub fn answer_len(&self) -> usize
        ensures len { result ≡ 12 + length (flat_map question_wire (questions_in self.now)) }
        ensures bound { result < 2 ^ 27 }
    {
        12 + questions_len(self.question())
    }

    /// Whether that is within a push limit, and within 65,535.
    pub fn answer_fits(&self, limit: usize) -> bool
        ensures { (h : HeaderOf) → result ≡ fits limit (message_wire (in_answer h (questions_in self.now) [])) }
    {
        is_within(self.answer_len(), limit)
    }
}

/// Whether so many octets are within a push limit, and within 65,535.
fn is_within(len: usize, limit: usize) -> bool
    ensures { result ≡ nat_le len (min limit 65535) }
{
    len <= limit.min(MAX_LEN)
}
