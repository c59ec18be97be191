// Questions to a zone.
ghost use Rattle.std.specs.Prelude.{◌≡◌, true, false, Err, IfOk, OnOk, OnErr, Some};
ghost use Rattle.dns_name.specs.Names.{under};
ghost use Rattle.dns_wire.specs.Wire.{header_in};
ghost use Rattle.dns_wire.specs.Parse.{sole_question_in};
ghost use Rattle.xfr_services.specs.Items.{Makes, Calls, all_given, one_reply};
ghost use Rattle.xfr_services.specs.declared.services.ServiceError.TheVariants.{Memory};
ghost use Rattle.zone_serving.specs.ZoneReplies.{found_in, owned_of, query_replies, query_sends, replies_to_question, room, told_in};

use dns_name::{Labelled, ParsedName};
use dns_numbers::{Opcode, Rcode};
use dns_wire::{AdditionalBuilder, Message, MessageBuf, Question};
use std::alloc::{AllocError, Global};
use std::marker::Model;
use std::sync::Wait;
use xfr_providers::StoredZone;
use xfr_services::{Replies, Request, Service, ServiceError, TransportSpecificContext, replies};
use zone_lookup::{Answer, AnswerRef, OutOfZone, look_up};
use zone_reads::ReadZone;

/// The most octets of a message by UDP, where the requestor says nothing else (RFC 1035, 2.3.4).
const MAX_UDP_LEN: u16 = 512;

/// The most octets of a message by a stream (RFC 1035, 4.2.2).
const MAX_STREAM_LEN: u16 = 65535;

/// Answers questions for names of a zone from the version that is current when they are asked: with the SOA record where that is asked for, and so on
/// for each name and type (RFC 1034, 4.3.2, by `look_up` and `Answer::to_message`). A question for a name or in a class that isn't the zone's is
/// REFUSED, a query without one question that can be read is a FORMERR, and for another opcode there is NOTIMP (RFC 1035, 4.1.1). What is no query
/// but a response gets no reply. A reply leaves the octets free that the request reserves, for its signature; where the records have no room, it says so
/// by TC (RFC 2181, 9). Questions for a transfer are `XfrMiddlewareSvc`'s, and don't come here from there. Contracts see the zone.
#[derive(Drop)]
pub struct ZoneQueries<Z> {
    zone: Z,
}

impl<Z> Model for ZoneQueries<Z> {
    ghost Value = { Z };

    ghost view = { λ s. s.zone };
}

impl<Z> ZoneQueries<Z> {
    /// The service that answers from this zone.
    pub fn new(zone: Z) -> ZoneQueries<Z>
        ensures { result ≡ zone }
    {
        ZoneQueries { zone }
    }

    /// The zone.
    pub fn zone(&self) -> &Z
        ensures { result.now ≡ self.now }
    {
        &self.zone
    }
}

impl<M: Drop, Z: StoredZone> Service<M> for ZoneQueries<Z> {
    ghost use Rattle.std.specs.Prelude.{◌≡◌, false, Err};
    ghost use Rattle.dns_wire.specs.Wire.{header_in};
    ghost use Rattle.xfr_services.specs.Items.{Calls, all_given};
    ghost use Rattle.xfr_services.specs.LongReplies.{FailsOnlyWhereLong};
    ghost use Rattle.xfr_services.specs.declared.services.ServiceError.TheVariants.{Memory};
    ghost use Rattle.zone_serving.specs.ZoneReplies.{query_sends};

    type Stream = Replies;

    ghost Sends = { λ s request sent. sent ≡ query_sends (Z.current s) request };

    /// Want of memory is told only where there is a reply to make: a response has none.
    fn call<R: Wait>(
        &self,
        rt: &R,
        alloc: Global,
        request: Request<M>,
    ) -> Result<Replies, ServiceError>
        ensures calls { Calls (λ sent. sent ≡ query_sends (Z.current self.now) request) (λ s items. items ≡ all_given s) result }
        ensures failing { Calls (FailsOnlyWhereLong request.message) (λ s items. items ≡ all_given s) result }
        ensures memory { result ≡ Err Memory → (header_in request.message).qr ≡ false }
    {
        let limit = room(request.transport, request.reserved);
        answer(rt, alloc, &self.zone, &request.message, limit)
    }
}

/// The octets that a reply may have before it is signed.
fn room(transport: TransportSpecificContext, reserved: u16) -> usize
    ensures { result ≡ room transport reserved }
{
    let most = match transport {
        TransportSpecificContext::Udp(hint) => hint.unwrap_or(MAX_UDP_LEN),
        TransportSpecificContext::NonUdp => MAX_STREAM_LEN,
    };
    usize::from(most.saturating_sub(reserved))
}

/// The replies to a message.
fn answer<R: Wait, Z: StoredZone>(
    rt: &R,
    alloc: Global,
    zone: &Z,
    message: &MessageBuf,
    limit: usize,
) -> Result<Replies, ServiceError>
    ensures replies { Makes (query_replies (Z.current zone.now) limit message.now) result }
    ensures memory { result ≡ Err Memory → (header_in message.now).qr ≡ false }
{
    let header = message.header();
    if header.qr {
        return Ok(Replies::new(alloc));
    }
    if header.opcode != Opcode::QUERY {
        return replies::refuse(alloc, message, Rcode::NOTIMP);
    }
    match message.sole_question() {
        Ok(question) => answer_question(rt, alloc, zone, message, &question, limit),
        Err(_) => replies::refuse(alloc, message, Rcode::FORMERR),
    }
}

/// The reply to a request's one question: what the zone's current version has for it, or REFUSED.
fn answer_question<R: Wait, Z: StoredZone>(
    rt: &R,
    alloc: Global,
    zone: &Z,
    message: &MessageBuf,
    question: &Question<ParsedName<'_>>,
    limit: usize,
) -> Result<Replies, ServiceError>
    requires { sole_question_in message.now ≡ Some question.now }
    ensures { Makes (replies_to_question (Z.current zone.now) limit message.now question.now) result }
{
    // For the proof: a name is short, so there is a reply.
    let _len = question.qname().compose_len();
    let Ok(version) = zone.read_current(rt) else {
        return Err(ServiceError::Memory);
    };
    if question.qclass() != version.class() {
        return replies::refuse(alloc, message, Rcode::REFUSED);
    }
    match find(&version, question) {
        Ok(found) => say(alloc, &found, message, limit),
        Err(OutOfZone) => replies::refuse(alloc, message, Rcode::REFUSED),
    }
}

/// What a version has for a question.
#[tactic(auto, unfolding(crate::specs::ZoneReplies::found_in))]
fn find<'v>(
    zone: &'v ReadZone,
    question: &Question<ParsedName<'_>>,
) -> Result<AnswerRef<'v>, OutOfZone>
    ensures inside { OnOk result (under question.now.qname zone.now.version.apex ≡ true) }
    ensures outside { OnErr result (under question.now.qname zone.now.version.apex ≡ false) }
    ensures answer { IfOk result (λ a. a ≡ found_in zone.now.version question.now) }
{
    look_up(zone, question.qname(), question.qtype())
}

/// The reply that says what was found, and nothing else.
fn say(
    alloc: Global,
    found: &AnswerRef<'_>,
    message: &MessageBuf,
    limit: usize,
) -> Result<Replies, ServiceError>
    ensures { Makes (Some (one_reply (told_in limit message.now (owned_of found.now)))) result }
{
    let reply = message_of(alloc, found, message, limit)?;
    Ok(Replies::single(alloc, reply)?)
}

/// The message that says what was found, the fullest that has room.
fn message_of(
    alloc: Global,
    found: &AnswerRef<'_>,
    message: &MessageBuf,
    limit: usize,
) -> Result<AdditionalBuilder, AllocError>
    ensures { IfOk result (λ reply. reply ≡ told_in limit message.now (owned_of found.now)) }
{
    let answer = own(alloc, found)?;
    let reply = tell(alloc, &answer, &message.as_message(), limit);
    drop(answer);
    reply
}

/// The answer that was found, with records of its own.
#[tactic(auto, unfolding(crate::specs::ZoneReplies::owned_of))]
fn own(alloc: Global, found: &AnswerRef<'_>) -> Result<Answer, AllocError>
    ensures { IfOk result (λ a. a ≡ owned_of found.now) }
{
    found.to_answer(alloc)
}

/// The message that says an answer, the fullest that has room.
#[tactic(auto, unfolding(crate::specs::ZoneReplies::told_in))]
fn tell(
    alloc: Global,
    answer: &Answer,
    request: &Message<'_>,
    limit: usize,
) -> Result<AdditionalBuilder, AllocError>
    ensures { IfOk result (λ reply. reply ≡ told_in limit request.now answer.now) }
{
    answer.to_message(alloc, request, limit)
}
