// The replies to refused requests (RFC 8945, 5.2 and 5.3.2).
ghost use Rattle.std.specs.Prelude.{◌≡◌, ℕ, List, [], length};
ghost use Rattle.dns_numbers.specs.Codes.{badtime, notauth};
ghost use Rattle.dns_name.specs.Octets.{u48_octets};
ghost use Rattle.dns_rdata.specs.Records.{record_wire};
ghost use Rattle.dns_wire.specs.Builds.{Builds};
ghost use Rattle.dns_wire.specs.Reply.{empty_answer};
ghost use Rattle.dns_wire.specs.Wire.{arcount_in, message_wire, with_additional};
ghost use Rattle.tsig_port.specs.HmacState.{HoldsHmac};
ghost use Rattle.tsig_port.specs.ServerCheck.{Begins, Verdict, reply_to, unsigned_error as unsigned_error_of, unsigned_error_by as unsigned_error_by_of};
ghost use Rattle.tsig_port.specs.States.{RefusalOf};
ghost use Rattle.tsig_port.specs.Tsig.{badtime_tsig as badtime_tsig_of, blank_tsig, signature_of, tsig_record, with_len};

use crate::server::ServerError;
use crate::signature::{SignedBy, signature, update_variables};
use crate::signing::{record_of, sent_mac};
use dns_name::Labelled;
use dns_numbers::{Rcode, TsigRcode};
use dns_wire::{AdditionalBuilder, ComposeRecord, Message, MessageBuilder, PushError};
use tsig_keys::{Hmac, Key, KeyRef, Mac};
use tsig_rdata::{SigningTsig, Time48, Tsig, TsigRecord};

impl<K: KeyRef> ServerError<K> {
    /// The reply to the refused request: its id, opcode, RD and questions, and no record but the TSIG. FORMERR has none. BADKEY,
    /// BADSIG and BADTRUNC are NOTAUTH with the request's TSIG, its MAC empty, the received id as original id, the error and no
    /// other octets, unsigned; SERVFAIL without a TSIG where `request` has none that can be read. BADTIME is NOTAUTH, signed as a
    /// first answer, with the time signed and the fudge of the request and the server's time as other octets (RFC 8945, 5.2 and
    /// 5.3.2, but that a BADTRUNC reply would there be signed). `request` is the message as it was refused, `message` is started over and
    /// keeps its push limit. `ShortBuf` where the reply is longer than that, `Memory` only where it isn't; `CountOverflow` never.
    pub fn build_message(
        self,
        request: &Message<'_>,
        message: MessageBuilder,
    ) -> Result<AdditionalBuilder, PushError>
        ensures { (found : Verdict) (received : List ℕ) (now : ℕ) → RefusalOf K.the_key found received now self → Builds (reply_to found received request.now now) message.limit result }
    {
        match self {
            ServerError::Formerr => empty_reply(request, message, Rcode::FORMERR),
            ServerError::Unsigned(error) => unsigned_error(request, message, error),
            ServerError::BadTime(key, context, time_signed, fudge, now) => {
                match start_refusal(request, message, badtime_len(key.key_ref())) {
                    Ok(reply) => {
                        badtime_reply(key.key_ref(), context, reply, time_signed, fudge, now)
                    }
                    Err(error) => Err(error),
                }
            }
        }
    }
}

/// The request's id, opcode, RD and questions, that rcode, and no record.
fn empty_reply(
    request: &Message<'_>,
    message: MessageBuilder,
    rcode: Rcode,
) -> Result<AdditionalBuilder, PushError>
    ensures { Builds (message_wire (empty_answer request.now rcode)) message.limit result }
{
    match message.start_answer(request, rcode) {
        Ok(answer) => Ok(answer.additional()),
        Err(error) => Err(error),
    }
}

/// NOTAUTH, before a TSIG record of so many octets is put on it: refused as the whole reply would be.
fn start_refusal(
    request: &Message<'_>,
    message: MessageBuilder,
    room: usize,
) -> Result<AdditionalBuilder, PushError>
    ensures { (item : List ℕ) → length item ≡ room → Begins (message_wire (empty_answer request.now notauth)) item message.limit result }
{
    let limit = message.push_limit();
    let most = limit.min(65535);
    if most < room {
        return Err(PushError::ShortBuf);
    }
    let mut message = message;
    message.set_push_limit(most - room);
    match empty_reply(request, message, Rcode::NOTAUTH) {
        Ok(mut reply) => {
            reply.set_push_limit(limit);
            Ok(reply)
        }
        Err(error) => Err(error),
    }
}

/// The reply with this TSIG record after it.
fn put_tsig(reply: AdditionalBuilder, tsig: TsigRecord) -> Result<AdditionalBuilder, PushError>
    ensures { arcount_in reply.octets ≡ 0 → Builds (with_additional reply.octets (tsig_record tsig.owner tsig.tsig)) reply.limit result }
{
    let mut reply = reply;
    match reply.push(&tsig) {
        Ok(()) => Ok(reply),
        Err(error) => Err(error),
    }
}

/// NOTAUTH with the request's TSIG and the error; SERVFAIL where the request has no TSIG.
fn unsigned_error(
    request: &Message<'_>,
    message: MessageBuilder,
    error: TsigRcode,
) -> Result<AdditionalBuilder, PushError>
    ensures { Builds (unsigned_error_by_of request.now error (signature_of request.now)) message.limit result }
{
    match signature(request) {
        Ok(Some(signed)) => unsigned_error_by(request, message, &signed, error),
        Ok(None) => empty_reply(request, message, Rcode::SERVFAIL),
        Err(_) => empty_reply(request, message, Rcode::SERVFAIL),
    }
}

/// NOTAUTH with this TSIG and the error, unsigned.
fn unsigned_error_by(
    request: &Message<'_>,
    message: MessageBuilder,
    signed: &SignedBy<'_>,
    error: TsigRcode,
) -> Result<AdditionalBuilder, PushError>
    ensures { Builds (unsigned_error_of request.now signed.now.owner signed.now.tsig error) message.limit result }
{
    let tsig = unsigned_record(signed, request.header().id, error);
    match start_refusal(request, message, tsig.record_len() as usize) {
        Ok(reply) => put_tsig(reply, tsig),
        Err(error) => {
            drop(tsig);
            Err(error)
        }
    }
}

/// The record of this TSIG with an empty MAC, the received id as original id, the error and no other octets.
fn unsigned_record(signed: &SignedBy<'_>, received_id: u16, error: TsigRcode) -> TsigRecord
    ensures owner { result.owner ≡ signed.now.owner }
    ensures tsig { result.tsig ≡ record signed.now.tsig { mac = []; original_id = received_id; error = error; other = [] } }
{
    let tsig = &signed.tsig;
    let unsigned = Tsig::signing(
        tsig.algorithm().to_key_name(),
        tsig.time_signed(),
        tsig.fudge(),
        Mac::from_octets(&[]),
        received_id,
        error.to_int(),
        Mac::from_octets(&[]),
    );
    TsigRecord::new(signed.owner.to_key_name(), unsigned)
}

/// How many octets the TSIG record of a BADTIME reply has: six are the server's time (RFC 8945, 4.2 and 5.2.3).
fn badtime_len(key: &Key) -> usize
    ensures { (request_mac message : List ℕ) (time_signed fudge now : ℕ)
        → length (record_wire (tsig_record key.now.name (badtime_tsig_of key.now request_mac message time_signed fudge now))) ≡ result }
{
    // For the proof: a MAC is as long as it is sent.
    let _ = key.signing_len();
    usize::from(key.compose_len()) + 6
}

/// The reply with the TSIG that signs a BADTIME answer.
fn badtime_reply(
    key: &Key,
    context: Hmac,
    reply: AdditionalBuilder,
    time_signed: Time48,
    fudge: u16,
    now: Time48,
) -> Result<AdditionalBuilder, PushError>
    ensures { (request_mac : List ℕ) → HoldsHmac context key.now.algorithm key.now.secret (with_len request_mac) → arcount_in reply.octets ≡ 0
        → Builds (with_additional reply.octets (tsig_record key.now.name (badtime_tsig_of key.now request_mac reply.octets time_signed fudge now))) reply.limit result }
{
    let tsig = badtime_tsig(key, context, &reply, time_signed, fudge, now);
    put_tsig(reply, record_of(key, tsig))
}

/// The TSIG that signs a BADTIME answer, where `context` has taken the request's MAC (RFC 8945, 5.2.3).
fn badtime_tsig(
    key: &Key,
    context: Hmac,
    reply: &AdditionalBuilder,
    time_signed: Time48,
    fudge: u16,
    now: Time48,
) -> SigningTsig
    ensures { (request_mac : List ℕ) → HoldsHmac context key.now.algorithm key.now.secret (with_len request_mac) → result ≡ badtime_tsig_of key.now request_mac reply.now.octets time_signed fudge now }
{
    let tsig = blank_badtime(key, reply.header().id, time_signed, fudge, now);
    let mut context = context;
    context.update(reply.as_slice());
    update_variables(&mut context, key.name(), &tsig);
    tsig.with_mac(sent_mac(key, context))
}

/// The same before it has its MAC.
fn blank_badtime(key: &Key, id: u16, time_signed: Time48, fudge: u16, now: Time48) -> SigningTsig
    ensures { result ≡ blank_tsig key.now time_signed fudge id badtime (u48_octets now) }
{
    Tsig::signing(
        key.algorithm().to_name(),
        time_signed,
        fudge,
        Mac::from_octets(&[]),
        id,
        TsigRcode::BADTIME.to_int(),
        Mac::from_octets(&now.into_octets()),
    )
}
