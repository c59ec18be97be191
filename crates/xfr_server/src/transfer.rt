// The service that answers transfer requests (RFC 5936; RFC 1995).
ghost use Rattle.std.specs.Prelude.{◌≡◌, ◌&&◌, not, is_some, List, Option, option_map};
ghost use Rattle.dns_numbers.specs.Codes.{type_soa};
ghost use Rattle.dns_numbers.specs.Serial.{serial_upto};
ghost use Rattle.dns_rdata.specs.Heads.{readable};
ghost use Rattle.dns_rdata.specs.Soa as soas;
ghost use Rattle.dns_wire.specs.Parse.{sole_question_in};
ghost use Rattle.xfr_server.specs.Items.{Calls, Makes, all_given, one_reply};
ghost use Rattle.xfr_server.specs.Transfers as transfers;
ghost use Rattle.xfr_server.specs.Transfers.Choice.{Refuse};
ghost use Rattle.xfr_server.specs.Choosing.{Chooses, choice_shown, short_sent, is_no_news};
ghost use Rattle.xfr_server.specs.Streams.{items_left, TransferLeft};
ghost use Rattle.xfr_services.specs.declared.services.CallResult.{CallResult as Item};

use crate::transfer_message;
use dns_name::ToName;
use dns_numbers::{Opcode, Rcode, Rtype, Serial};
use dns_rdata::{ParsedRecord, ZoneRecordData};
use dns_wire::{Message, MessageBuf, PushError, RecordSection};
use std::alloc::Global;
use std::cmp::Ordering;
use std::marker::Model;
use std::sync::Wait;
use xfr_providers::{XfrData, XfrDataProvider, XfrDataProviderError};
use xfr_replies::{TransferReplies, TransferText, are_sendable};
use xfr_services::{
    CallResult, Replies, ReplyStream, Request, Service, ServiceError, TransportSpecificContext,
    XfrMode, replies,
};
use zone_reads::ReadZone;

/// The most octets of a message by UDP, where the requestor says nothing else (RFC 1035, 2.3.4).
const MAX_UDP_LEN: u16 = 512;

/// The most octets of a message by a stream (RFC 1035, 4.2.2).
const MAX_STREAM_LEN: u16 = 65535;

/// Answers transfer requests from a provider's zones, and hands others on. Contracts see the next service and the provider.
#[derive(Drop)]
pub struct XfrMiddlewareSvc<N, X> {
    next: N,
    provider: X,
}

impl<N, X> Model for XfrMiddlewareSvc<N, X> {
    ghost Value = { N × X };

    ghost view = { λ s. (s.next, s.provider) };
}

impl<N, X> XfrMiddlewareSvc<N, X> {
    /// The service that has other requests answered by the next one.
    pub fn new(next: N, provider: X) -> XfrMiddlewareSvc<N, X>
        ensures { result ≡ (next, provider) }
    {
        XfrMiddlewareSvc { next, provider }
    }

    /// The next service and the provider.
    pub fn into_parts(self) -> (N, X)
        ensures next { result.0 ≡ self.0 }
        ensures provider { result.1 ≡ self.1 }
    {
        let XfrMiddlewareSvc { next, provider } = self;
        (next, provider)
    }
}

/// The replies of the transfer service: one of its own, those of a transfer, or those of the next service.
#[derive(Drop)]
pub enum XfrMiddlewareStream<S: ReplyStream> {
    /// A refusal, or one message.
    Own(Replies),
    /// A text in as many messages as it needs.
    Transfer(TransferReplies),
    /// What the next service replies.
    Next(S),
}

impl<S: ReplyStream> ReplyStream for XfrMiddlewareStream<S> {
    ghost remaining = { items_left S.remaining };

    ghost LeftOf = { TransferLeft S.LeftOf };

    fn next_item(&mut self) -> Option<Result<CallResult, ServiceError>> {
        match self {
            XfrMiddlewareStream::Own(replies) => replies.next_item(),
            XfrMiddlewareStream::Transfer(replies) => replies.next_item(),
            XfrMiddlewareStream::Next(replies) => replies.next_item(),
        }
    }
}

impl<M: Default + Drop, N: Service<M>, X: XfrDataProvider<M>> Service<M>
    for XfrMiddlewareSvc<N, X> {
    ghost use Rattle.xfr_server.specs.Items.{Calls};
    ghost use Rattle.xfr_server.specs.Serving.{SendsTransfer};
    ghost use Rattle.xfr_services.specs.LongReplies.{FailsOnlyWhereLong};

    type Stream = XfrMiddlewareStream<N::Stream>;

    ghost Sends = { λ s. SendsTransfer M.is_default (N.Sends s.0) (X.told s.1) };

    #[tactic(auto, using(crate::proofs::LongRequests::answers_only))]
    fn call<R: Wait>(
        &self,
        rt: &R,
        alloc: Global,
        request: Request<M>,
    ) -> Result<XfrMiddlewareStream<N::Stream>, ServiceError>
        ensures calls { Calls (SendsTransfer M.is_default (N.Sends self.now.0) (X.told self.now.1) request) (TransferLeft N.Stream.LeftOf) result }
        ensures failing { Calls (FailsOnlyWhereLong request.message) (TransferLeft N.Stream.LeftOf) result }
    {
        match transfer_mode(&request.message.as_message()) {
            Some(mode) => answer_transfer(rt, alloc, &self.provider, request, mode),
            None => {
                let request = request.with_new_metadata(M::default());
                Ok(XfrMiddlewareStream::Next(self.next.call(rt, alloc, request)?))
            }
        }
    }
}

/// The mode of a request that asks for a transfer: a query with one readable question of type AXFR or IXFR.
fn transfer_mode(message: &Message<'_>) -> Option<XfrMode>
    ensures { result ≡ transfers.transfer_mode message.now }
{
    let header = message.header();
    if header.qr || header.opcode != Opcode::QUERY {
        return None;
    }
    match message.sole_question() {
        Ok(question) => XfrMode::from_rtype(question.qtype()),
        Err(_) => None,
    }
}

/// What is sent in answer without a text, in one message.
#[derive(Drop)]
enum Short {
    /// No record.
    Error(Rcode),
    /// The apex SOA alone: the requestor has caught up (RFC 1995, 2).
    SoaAlone(ReadZone),
}

/// What is sent in answer.
#[derive(Drop)]
enum Reply {
    /// No text.
    Short(Short),
    /// The whole zone or differences, and whether each message is to hold one record (RFC 5936, 2.2 and 7; RFC 1995, 4).
    Text(TransferText, bool),
}

impl Reply {
    /// No record.
    fn error(rcode: Rcode) -> Reply
        ensures { choice_shown result ≡ Refuse rcode }
    {
        Reply::Short(Short::Error(rcode))
    }
}

/// The replies to a transfer request.
fn answer_transfer<R: Wait, M: Drop, X: XfrDataProvider<M>, S: ReplyStream>(
    rt: &R,
    alloc: Global,
    provider: &X,
    request: Request<M>,
    mode: XfrMode,
) -> Result<XfrMiddlewareStream<S>, ServiceError>
    ensures { Calls (transfers.SendsAnswer (X.told provider.now request.message request.metadata) mode request.transport request.reserved request.message) (TransferLeft S.LeftOf) result }
{
    let limit = reply_limit(request.transport, request.reserved);
    let is_udp = request.transport.is_udp();
    let reply = choose_reply(rt, alloc, provider, &request, mode)?;
    send_reply(alloc, request.message, limit, is_udp, reply)
}

/// The replies to a request of which it is known what is sent in answer.
fn send_reply<S: ReplyStream>(
    alloc: Global,
    request: MessageBuf,
    limit: usize,
    is_udp: bool,
    reply: Reply,
) -> Result<XfrMiddlewareStream<S>, ServiceError>
    ensures { Calls (transfers.SendsChoice request limit is_udp (choice_shown reply)) (TransferLeft S.LeftOf) result }
{
    match reply {
        Reply::Short(short) => sent_once(short_reply(alloc, &request, limit, &short)),
        Reply::Text(text, _) if is_udp => sent_once(one_message(alloc, &request, limit, text)),
        Reply::Text(text, singles) => Ok(XfrMiddlewareStream::Transfer(TransferReplies::new(
            alloc, request, limit, singles, text,
        ))),
    }
}

/// A refusal, or the apex SOA alone.
fn short_reply(
    alloc: Global,
    request: &MessageBuf,
    limit: usize,
    short: &Short,
) -> Result<Replies, ServiceError>
    ensures { Makes (option_map one_reply (short_sent request.now limit short.now)) result }
{
    match short {
        Short::Error(rcode) => replies::refuse(alloc, request, *rcode),
        Short::SoaAlone(zone) => soa_alone(alloc, request, limit, zone),
    }
}

/// The service's own replies as its stream.
fn sent_once<S: ReplyStream>(
    made: Result<Replies, ServiceError>,
) -> Result<XfrMiddlewareStream<S>, ServiceError>
    ensures { (items : Option (List Item)) → Makes items made
        → Calls (λ sent. sent ≡ option_map all_given items) (TransferLeft S.LeftOf) result }
{
    Ok(XfrMiddlewareStream::Own(made?))
}

/// What is sent in answer, by the first test that applies.
fn choose_reply<R: Wait, M, X: XfrDataProvider<M>>(
    rt: &R,
    alloc: Global,
    provider: &X,
    request: &Request<M>,
    mode: XfrMode,
) -> Result<Reply, ServiceError>
    ensures { Chooses (X.told provider.now request.now.message request.now.metadata) mode (transfers.is_udp request.now.transport) request.now.message result }
{
    let message = request.message.as_message();
    let asked = asked_serial(&message);
    if lacks_serial(mode, &asked) {
        return Ok(Reply::error(Rcode::FORMERR));
    }
    match provider.request(rt, alloc, request, asked) {
        Ok(found) => {
            let is_udp = request.transport.is_udp();
            Ok(reply_with(alloc, &message, mode, is_udp, asked, found))
        }
        Err(XfrDataProviderError::Memory) => Err(ServiceError::Memory),
        Err(error) => Ok(Reply::error(rcode_of(error))),
    }
}

/// Whether an incremental request names no serial (RFC 1995, 3).
fn lacks_serial(mode: XfrMode, asked: &Option<Serial>) -> bool
    ensures { result ≡ (transfers.is_ixfr mode && not (is_some asked.now)) }
{
    mode.is_ixfr() && asked.is_none()
}

/// What is sent of what the provider gives.
fn reply_with(
    alloc: Global,
    message: &Message<'_>,
    mode: XfrMode,
    is_udp: bool,
    asked: Option<Serial>,
    found: XfrData,
) -> Reply
    ensures { choice_shown result ≡ transfers.choice_of mode is_udp (sole_question_in message.now) asked found }
{
    if !asks_for_apex(message, found.zone()) {
        return Reply::error(Rcode::SERVFAIL);
    }
    if !mode.is_ixfr() && is_udp {
        return Reply::error(Rcode::NOTIMP);
    }
    let Some(serial) = transfer_message::zone_serial(found.zone()) else {
        return Reply::error(Rcode::SERVFAIL);
    };
    if mode.is_ixfr() && is_caught_up(serial, asked) {
        return Reply::Short(Short::SoaAlone(found.into_zone()));
    }
    let with_changes = mode.is_ixfr() && has_changes(&found);
    text_reply(alloc, mode.is_ixfr(), with_changes, found)
}

/// Whether the differences can be sent: there are some, and each has its two SOA records (RFC 1995, 4).
fn has_changes(found: &XfrData) -> bool
    ensures { result ≡ transfers.has_changes found.now }
{
    !found.diffs().is_empty() && are_sendable(found.zone(), found.diffs())
}

/// The differences, or else the whole zone, of which each message may have to hold one record where the whole zone was asked for.
fn text_reply(alloc: Global, is_ixfr: bool, with_changes: bool, found: XfrData) -> Reply
    ensures { choice_shown result ≡ transfers.text_of_offer is_ixfr with_changes found }
{
    let (zone, diffs, compatibility_mode) = found.into_parts();
    if with_changes {
        return Reply::Text(TransferText::changes(zone, diffs), false);
    }
    drop(diffs);
    let singles = if is_ixfr { false } else { compatibility_mode };
    Reply::Text(TransferText::whole(alloc, zone), singles)
}

/// The rcode that tells why a provider gives nothing (RFC 5936, 2.2.1).
fn rcode_of(error: XfrDataProviderError) -> Rcode
    ensures { result ≡ transfers.rcode_of error }
{
    match error {
        XfrDataProviderError::ParseError => Rcode::FORMERR,
        XfrDataProviderError::UnknownZone => Rcode::NOTAUTH,
        XfrDataProviderError::Refused => Rcode::REFUSED,
        XfrDataProviderError::TemporarilyUnavailable | XfrDataProviderError::Memory => {
            Rcode::SERVFAIL
        }
    }
}

/// Whether the question's name is the zone's apex.
fn asks_for_apex(message: &Message<'_>, zone: &ReadZone) -> bool
    ensures { result ≡ transfers.asks_for_apex (sole_question_in message.now) zone.now.version }
{
    match message.sole_question() {
        Ok(question) => zone.apex_name().name_eq(question.qname()),
        Err(_) => false,
    }
}

/// The serial in the authority section's first SOA record; None without a readable one (RFC 1995, 3).
fn asked_serial(message: &Message<'_>) -> Option<Serial>
    ensures { result ≡ transfers.asked_serial message.now }
{
    match message.authority() {
        Ok(section) => first_serial(section),
        Err(_) => None,
    }
}

/// The same of the records that are left of a section.
fn first_serial(section: RecordSection<'_>) -> Option<Serial>
    ensures { result ≡ transfers.first_serial section.entry.message section.entry.left }
{
    let mut records = section;
    'records: while let Some(found) = records.next_record() {
        let Ok(head) = found else {
            return None;
        };
        if head.rtype() == Rtype::SOA {
            return serial_of(&head);
        }
    }
    None
}

/// The serial of an SOA record, if it is readable.
fn serial_of(head: &ParsedRecord<'_>) -> Option<Serial>
    requires { head.now.raw.rtype ≡ type_soa }
    ensures { result ≡ option_map (λ r. soas.serial_of r.fields) (readable head.now.message head.now.raw) }
{
    let Ok(found) = head.to_record() else {
        return None;
    };
    match found.data() {
        ZoneRecordData::Soa(data) => Some(data.serial()),
        _ => None,
    }
}

/// Whether the zone's serial is no news to one who has the other (RFC 1995, 2).
fn is_caught_up(serial: Serial, asked: Option<Serial>) -> bool
    ensures { result ≡ is_no_news serial asked }
{
    match asked {
        Some(asked) => is_upto(serial, asked),
        None => false,
    }
}

/// Whether a serial is the other, or before it (RFC 1982, 3.2).
fn is_upto(serial: Serial, other: Serial) -> bool
    ensures { result ≡ serial_upto serial other }
{
    match serial.partial_cmp(&other) {
        Some(Ordering::Less | Ordering::Equal) => true,
        Some(Ordering::Greater) => false,
        None => false,
    }
}

/// The octets that a reply may have before it is signed.
fn reply_limit(transport: TransportSpecificContext, reserved: u16) -> usize
    ensures { result ≡ transfers.reply_limit transport reserved }
{
    let most = match transport {
        TransportSpecificContext::Udp(hint) => hint.unwrap_or(MAX_UDP_LEN),
        TransportSpecificContext::NonUdp => MAX_STREAM_LEN,
    };
    usize::from(most.saturating_sub(reserved))
}

/// One reply, with the apex SOA alone; SERVFAIL where that can't be held.
fn soa_alone(
    alloc: Global,
    request: &MessageBuf,
    limit: usize,
    zone: &ReadZone,
) -> Result<Replies, ServiceError>
    ensures { Makes (option_map one_reply (transfers.soa_reply request.now limit zone.now.version)) result }
{
    match transfer_message::soa_message(alloc, request, limit, zone) {
        Ok(reply) => Ok(Replies::single(alloc, reply)?),
        Err(PushError::Memory) => Err(ServiceError::Memory),
        Err(PushError::ShortBuf | PushError::CountOverflow) => {
            replies::refuse(alloc, request, Rcode::SERVFAIL)
        }
    }
}

/// By UDP a text in one message. Where that can't be held, the SOA alone, which has the requestor ask again by a stream (RFC 1995, 2).
fn one_message(
    alloc: Global,
    request: &MessageBuf,
    limit: usize,
    text: TransferText,
) -> Result<Replies, ServiceError>
    ensures { Makes (option_map one_reply (transfers.udp_reply request.now limit text.zone.version text.records)) result }
{
    let mut text = text;
    match transfer_message::text_message(alloc, request, limit, &mut text) {
        Ok(reply) => Ok(Replies::single(alloc, reply)?),
        Err(PushError::Memory) => Err(ServiceError::Memory),
        Err(PushError::ShortBuf) => soa_alone(alloc, request, limit, text.zone()),
        Err(PushError::CountOverflow) => soa_alone(alloc, request, limit, text.zone()),
    }
}
