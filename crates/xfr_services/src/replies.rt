// Replies without records.
ghost use Rattle.dns_wire.specs.Wire.{message_wire};
ghost use Rattle.dns_wire.specs.Builds.{Builds};
ghost use Rattle.dns_wire.specs.Reply.{empty_answer};
ghost use Rattle.xfr_services.specs.Items.{Makes};
ghost use Rattle.xfr_services.specs.Replying.{error_reply, error_replies, truncated_reply};

use crate::services::{Replies, ServiceError};
use dns_numbers::Rcode;
use dns_wire::{AdditionalBuilder, AnswerBuilder, MessageBuf, MessageBuilder, PushError};
use std::alloc::Global;

/// The most octets of a message (RFC 1035, 4.2.2).
const MAX_LEN: usize = 65535;

/// An answer without records, of up to so many octets. `ShortBuf` where it has more, `Memory` only where it hasn't.
fn start_reply(
    alloc: Global,
    request: &MessageBuf,
    rcode: Rcode,
) -> Result<AnswerBuilder, PushError>
    ensures { Builds (message_wire (empty_answer request.now rcode)) 65535 result }
{
    let asked = request.as_message();
    if !asked.answer_fits(MAX_LEN) {
        return Err(PushError::ShortBuf);
    }
    let Ok(builder) = MessageBuilder::new(alloc) else {
        return Err(PushError::Memory);
    };
    builder.start_answer(&asked, rcode)
}

/// A reply without records: the request's id, opcode, RD and questions, and an rcode (RFC 1035, 4.1.1).
pub fn error_reply(
    alloc: Global,
    request: &MessageBuf,
    rcode: Rcode,
) -> Result<AdditionalBuilder, ServiceError>
    ensures { Makes (error_reply request.now rcode) result }
{
    let answer = start_reply(alloc, request, rcode)?;
    Ok(answer.additional())
}

/// One such reply and nothing else.
#[tactic(auto, using(crate::proofs::Making::some_replies))]
pub fn refuse(alloc: Global, request: &MessageBuf, rcode: Rcode) -> Result<Replies, ServiceError>
    ensures { Makes (error_replies request.now rcode) result }
{
    let reply = error_reply(alloc, request, rcode)?;
    Ok(Replies::single(alloc, reply)?)
}

/// A reply without records with NOERROR and TC, which says that the reply was cut (RFC 8945, 5.3).
#[tactic(auto, using(crate::proofs::Headers::as_truncated))]
pub fn truncated_reply(
    alloc: Global,
    request: &MessageBuf,
) -> Result<AdditionalBuilder, ServiceError>
    ensures { Makes (truncated_reply request.now) result }
{
    let mut answer = start_reply(alloc, request, Rcode::NOERROR)?;
    let mut header = request.header().answer(Rcode::NOERROR);
    header.tc = true;
    answer.set_header(header);
    Ok(answer.additional())
}
