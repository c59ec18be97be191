// The answer that a transfer begins with.
ghost use Rattle.std.specs.Prelude.{[]};
ghost use Rattle.dns_wire.specs.Wire.{message_wire};
ghost use Rattle.dns_wire.specs.Builds.{Builds};
ghost use Rattle.xfr_replies.specs.TransferPages.{page_answer};

use dns_numbers::{Opcode, Rcode};
use dns_wire::{AnswerBuilder, MessageBuf, MessageBuilder, PushError};
use std::alloc::Global;

/// An authoritative answer without records yet, of up to so many octets (RFC 5936, 2.2).
#[tactic(auto, using(crate::proofs::Headers::as_transfer))]
pub fn start_transfer(
    alloc: Global,
    request: &MessageBuf,
    limit: usize,
) -> Result<AnswerBuilder, PushError>
    ensures { Builds (message_wire (page_answer request.now [])) limit result }
{
    let asked = request.as_message();
    if !asked.answer_fits(limit) {
        return Err(PushError::ShortBuf);
    }
    let Ok(mut builder) = MessageBuilder::new(alloc) else {
        return Err(PushError::Memory);
    };
    builder.set_push_limit(limit);
    let mut answer = builder.start_answer(&asked, Rcode::NOERROR)?;
    let mut header = request.header().answer(Rcode::NOERROR);
    header.opcode = Opcode::QUERY;
    header.aa = true;
    answer.set_header(header);
    Ok(answer)
}
