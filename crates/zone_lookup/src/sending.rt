// The message that says an answer.
ghost use Rattle.std.specs.Prelude.{◌≡◌, ℕ, List, [], ◌++◌, IfOk, OnErr, map, not, if◌then◌else◌};
ghost use Rattle.dns_rdata.specs.Records.{Record};
ghost use Rattle.dns_wire.specs.Wire.{in_answer, in_authority, message_wire, Header as HeaderOf, Question as QuestionOf, Message as MessageOf};
ghost use Rattle.dns_wire.specs.Reply.{answer_with};
ghost use Rattle.dns_wire.specs.Builds.{Builds, BuildsBehind, building};
ghost use Rattle.zone_lookup.specs.Sending.{answers_of, required_of, discardable_of, additional_to, reply_to_extent, reply_with, replies_to, refusal, reply_message, authority_of, first_or_header, refusal_message, Stands, Reaches, Tries, QuestionFits, built_first};

use crate::answer::Answer;
use crate::sections::{push_content, push_records};
use dns_name::{Labelled, ParsedName};
use dns_numbers::Rcode;
use dns_rdata::StoredRecord;
use dns_wire::{
    AdditionalBuilder, AnswerBuilder, AuthorityBuilder, Message, MessageBuilder, PushError,
    Question,
};
use std::alloc::{AllocError, Global};

/// The parts of an answer that a reply has: the records of the answer and the authority section, the additional ones that the answer
/// needs, and those that may be left out. TC says where one that the answer needs is missing (RFC 2181, 9).
#[derive(Clone, Copy, Drop)]
pub(crate) struct Extent {
    answers: bool,
    authority: bool,
    required: bool,
    discardable: bool,
}

impl Extent {
    /// These parts.
    fn of(answers: bool, authority: bool, required: bool, discardable: bool) -> Extent
        ensures { result ≡ record { answers = answers; authority = authority; required = required; discardable = discardable } }
    {
        Extent {
            answers,
            authority,
            required,
            discardable,
        }
    }
}

impl Answer {
    /// The message that says this answer to a request, in at most `limit` octets, ready for more additional records (RFC 1035, 4.1).
    ///
    /// It has the request's id, opcode, RD and question, QR, the rcode and AA of the answer; the content at the name and in the class that were asked
    /// for; SOA, NS and DS at the authority's owner; and the additional records, the required ones first. Where not all has room, the additional
    /// records that may be left out are, all of them; where the others have no room either, the first section that isn't whole and those after
    /// it are empty, and TC says so (RFC 2181, 9). Where the question has no room, there is a header alone, with neither AA nor TC, also where that
    /// is above the limit.
    ///
    /// A request without one question that can be read has the reply NOTIMP where QDCOUNT isn't 1, else FORMERR, as by `start_error`.
    /// Refused only where memory runs out.
    pub fn to_message(
        &self,
        alloc: Global,
        request: &Message<'_>,
        limit: usize,
    ) -> Result<AdditionalBuilder, AllocError>
        ensures { IfOk result (λ reply. reply ≡ building (message_wire (reply_message limit request.now self.now)) limit) }
    {
        match request.sole_question() {
            Ok(question) => self.reply_to(alloc, request, &question, limit),
            Err(_) => refuse(alloc, request, limit),
        }
    }

    /// The message that says the answer to this question: the fullest within the limit, and a header alone where none is.
    fn reply_to(
        &self,
        alloc: Global,
        request: &Message<'_>,
        question: &Question<ParsedName<'_>>,
        limit: usize,
    ) -> Result<AdditionalBuilder, AllocError>
        ensures { IfOk result (λ reply. reply
            ≡ building (message_wire (first_or_header limit request.now self.now.rcode (replies_to request.now self.now question.now))) limit) }
    {
        match self.fullest(alloc, request, question, limit)? {
            Some(reply) => Ok(reply),
            None => header_alone(alloc, request, self.rcode(), limit),
        }
    }

    /// The fullest message that says the answer to this question within the limit, if one does (RFC 2181, 9). Want of memory is told only
    /// where one does.
    fn fullest(
        &self,
        alloc: Global,
        request: &Message<'_>,
        question: &Question<ParsedName<'_>>,
        limit: usize,
    ) -> Result<Option<AdditionalBuilder>, AllocError>
        ensures found { IfOk result (λ found. found ≡ built_first limit (replies_to request.now self.now question.now)) }
        ensures memory { OnErr result (QuestionFits limit request.now self.now) }
    {
        let fullest_first = [
            Extent::of(true, true, true, true),
            Extent::of(true, true, true, false),
            Extent::of(true, true, false, false),
            Extent::of(true, false, false, false),
            Extent::of(false, false, false, false),
        ];
        self.first_of(alloc, request, question, limit, &fullest_first)
    }

    /// The first message within the limit that has the answer to this question to one of these extents, if one does.
    fn first_of(
        &self,
        alloc: Global,
        request: &Message<'_>,
        question: &Question<ParsedName<'_>>,
        limit: usize,
        extents: &[Extent],
    ) -> Result<Option<AdditionalBuilder>, AllocError>
        ensures found { IfOk result (λ found. found ≡ built_first limit (map (reply_to_extent request.now self.now question.now) extents.now)) }
        ensures memory { OnErr result (QuestionFits limit request.now self.now) }
    {
        let mut rest = extents;
        'extents: while let Some((extent, behind)) = rest.split_first() {
            let tried = self.write(alloc, request, question, limit, *extent);
            if let Some(reply) = fitting(tried)? {
                return Ok(Some(reply));
            }
            rest = behind;
        }
        Ok(None)
    }

    /// The message that has the answer to this question to this extent.
    fn write(
        &self,
        alloc: Global,
        request: &Message<'_>,
        question: &Question<ParsedName<'_>>,
        limit: usize,
        extent: Extent,
    ) -> Result<AdditionalBuilder, PushError>
        ensures { BuildsBehind (message_wire (reply_with request.now self.now (not extent.required) [] [] []))
            (message_wire (reply_to_extent request.now self.now question.now extent)) limit result }
    {
        let mut answer_section = self.write_question(alloc, request, limit, !extent.required)?;
        self.push_answers(&mut answer_section, question, extent.answers)?;
        let mut authority_section = answer_section.authority();
        self.push_authority(&mut authority_section, question, extent.authority)?;
        let mut additional_section = authority_section.additional();
        self.push_additional(&mut additional_section, extent)?;
        Ok(additional_section)
    }

    /// The message with the question alone.
    fn write_question(
        &self,
        alloc: Global,
        request: &Message<'_>,
        limit: usize,
        cut: bool,
    ) -> Result<AnswerBuilder, PushError>
        ensures { Builds (message_wire (reply_with request.now self.now cut [] [] [])) limit result }
    {
        if !request.answer_fits(limit) {
            return Err(PushError::ShortBuf);
        }
        let Ok(mut builder) = MessageBuilder::new(alloc) else {
            return Err(PushError::Memory);
        };
        builder.set_push_limit(limit);
        let mut section = builder.start_answer(request, self.rcode())?;
        let mut header = request.header().answer(self.rcode());
        header.aa = self.authoritative();
        header.tc = cut;
        section.set_header(header);
        Ok(section)
    }

    /// Adds the content at the name that was asked for, where a reply is to have it.
    fn push_answers(
        &self,
        section: &mut AnswerBuilder,
        question: &Question<ParsedName<'_>>,
        said: bool,
    ) -> Result<(), PushError>
        ensures { (h : HeaderOf) (qs : List QuestionOf) → Stands (in_answer h qs []) section.old
            → Reaches (in_answer h qs (if said then answers_of question.now self.now else [])) section.old result section.new }
    {
        if !said {
            return Ok(());
        }
        let owner = question.qname().to_key_name();
        push_content(
            section,
            &owner.borrowed(),
            question.qclass(),
            self.content(),
        )
    }

    /// Adds the authority records, if there are any, where a reply is to have them.
    fn push_authority(
        &self,
        section: &mut AuthorityBuilder,
        question: &Question<ParsedName<'_>>,
        said: bool,
    ) -> Result<(), PushError>
        ensures { (h : HeaderOf) (qs : List QuestionOf) (answers : List Record) → Stands (in_authority h qs answers []) section.old
            → Reaches (in_authority h qs answers (if said then authority_of question.now self.now else [])) section.old result section.new }
    {
        if !said {
            return Ok(());
        }
        match self.authority() {
            Some(authority) => authority.push_into(section, question.qclass()),
            None => Ok(()),
        }
    }

    /// Adds the additional records that a reply of this extent has.
    fn push_additional(
        &self,
        section: &mut AdditionalBuilder,
        extent: Extent,
    ) -> Result<(), PushError>
        ensures { (m : MessageOf) → Stands m section.old
            → Reaches (record m { additional = m.additional ++ additional_to self.now extent }) section.old result section.new }
    {
        push_records(section, self.required(extent.required))?;
        push_records(section, self.discardable(extent.discardable))
    }

    /// The additional records that the answer needs, where a reply is to have them.
    fn required(&self, said: bool) -> &[StoredRecord]
        ensures { result.now ≡ (if said then required_of self.now else []) }
    {
        match self.additional() {
            Some(additional) if said => additional.required(),
            _ => &[],
        }
    }

    /// The additional records that may be left out, where a reply is to have them.
    fn discardable(&self, said: bool) -> &[StoredRecord]
        ensures { result.now ≡ (if said then discardable_of self.now else []) }
    {
        match self.additional() {
            Some(additional) if said => additional.discardable(),
            _ => &[],
        }
    }
}

/// What was built, if it had room.
fn fitting(
    tried: Result<AdditionalBuilder, PushError>,
) -> Result<Option<AdditionalBuilder>, AllocError>
    ensures { (front octets : List ℕ) (limit : ℕ) → BuildsBehind front octets limit tried → Tries front octets limit result }
{
    match tried {
        Ok(message) => Ok(Some(message)),
        Err(PushError::Memory) => Err(AllocError),
        Err(_) => Ok(None),
    }
}

/// The reply to a request without one question that can be read: NOTIMP where QDCOUNT isn't 1, else FORMERR (RFC 1035, 4.1.1).
fn refuse(
    alloc: Global,
    request: &Message<'_>,
    limit: usize,
) -> Result<AdditionalBuilder, AllocError>
    ensures { IfOk result (λ reply. reply ≡ building (message_wire (refusal_message limit request.now)) limit) }
{
    let rcode = refusal_code(request);
    let mut builder = MessageBuilder::new(alloc)?;
    builder.set_push_limit(limit);
    match builder.start_error(request, rcode) {
        Ok(section) => Ok(section.additional()),
        Err(PushError::ShortBuf) => header_alone(alloc, request, rcode, limit),
        Err(PushError::CountOverflow) => header_alone(alloc, request, rcode, limit),
        Err(PushError::Memory) => Err(AllocError),
    }
}

/// The rcode of that reply.
fn refusal_code(request: &Message<'_>) -> Rcode
    ensures { result ≡ refusal request.now }
{
    if request.counts().qdcount == 1 {
        Rcode::FORMERR
    } else {
        Rcode::NOTIMP
    }
}

/// The header of an answer to a request, and no item (RFC 1035, 4.1.1).
fn header_alone(
    alloc: Global,
    request: &Message<'_>,
    rcode: Rcode,
    limit: usize,
) -> Result<AdditionalBuilder, AllocError>
    ensures { IfOk result (λ reply. reply ≡ building (message_wire (answer_with request.now rcode [])) limit) }
{
    let mut builder = MessageBuilder::new(alloc)?;
    builder.set_header(request.header().answer(rcode));
    builder.set_push_limit(limit);
    Ok(builder.additional())
}
