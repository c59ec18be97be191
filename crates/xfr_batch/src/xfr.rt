// The batcher of a transfer's messages.
ghost use Rattle.std.specs.Prelude.{◌≡◌, [], List, None};
ghost use Rattle.dns_rdata.specs.Records.{Record};
ghost use Rattle.dns_wire.specs.Wire.{header_in, in_answer, message_wire};
ghost use Rattle.dns_wire.specs.Parse.{questions_in};
ghost use Rattle.dns_wire.specs.Builds.{Builds};
ghost use Rattle.xfr_batch.specs.Batches.{Batch, Stands};
ghost use Rattle.xfr_batch.specs.ReadyMessages.{Kept, none_ready};
ghost use Rattle.xfr_batch.specs.XfrBatches.{axfr_header, has_reached, transfer_begins, transfer_is_full, TakesReady};

use crate::callback_batcher::CallbackBatcher;
use crate::callbacks::Callbacks;
use crate::ready::ReadyMessages;
use dns_wire::{
    AdditionalBuilder, AnswerBuilder, Message, MessageBuf, MessageBuilder, Opcode, PushError, Rcode,
};
use std::alloc::Global;
use thiserror::Error;

/// Why a record isn't pushed, or a message isn't taken.
#[derive(Clone, Copy, Debug, PartialEq, Eq, Error)]
pub enum BatchReadyError {
    /// The request's question, or that and the record, has no room in a message of its own.
    #[error("PushError: {0}")]
    PushError(PushError),
    /// A message can't be sent. It never comes, since messages are kept.
    #[error("SendError")]
    SendError,
    /// A further message would be needed where one is all that may be sent (RFC 1995, 4).
    #[error("MustFitInSingleMessage")]
    MustFitInSingleMessage,
    /// Memory ran out.
    #[error("Memory")]
    Memory,
}

impl From<PushError> for BatchReadyError {
    ghost use Rattle.std.specs.Prelude.{◌≡◌};
    ghost use Rattle.xfr_batch.specs.XfrBatches.{batch_error_of};

    ghost from_gives = { λ e s. s ≡ batch_error_of e };

    fn from(error: PushError) -> BatchReadyError {
        match error {
            PushError::ShortBuf => BatchReadyError::PushError(PushError::ShortBuf),
            PushError::CountOverflow => BatchReadyError::PushError(PushError::CountOverflow),
            PushError::Memory => BatchReadyError::Memory,
        }
    }
}

/// What the messages of a transfer are made by: each is an authoritative answer to the request, with as many records as fit
/// (RFC 5936, 2.2), and is kept until it is taken.
#[derive(Drop)]
pub struct XfrRrBatcher;

impl XfrRrBatcher {
    /// A batcher of answers to this request. Each message may have `soft_byte_limit` octets, 65,535 where there is no such limit, and
    /// `hard_rr_limit` records, at least one; 1 is what servers want that read one record a message (RFC 5936, 7.1). With
    /// `must_fit_in_single_message` a push that would need a further message is refused (RFC 1995, 4).
    pub fn build(
        alloc: Global,
        request: MessageBuf,
        soft_byte_limit: Option<usize>,
        hard_rr_limit: Option<u16>,
        must_fit_in_single_message: bool,
    ) -> CallbackBatcher<XfrRrBatcher, ReadyMessages>
        ensures request { result.request ≡ request }
        ensures answer { result.answer ≡ None }
        ensures state { result.state ≡ none_ready soft_byte_limit hard_rr_limit must_fit_in_single_message }
        ensures stands { Stands transfer_begins transfer_is_full result [] [] }
    {
        let state = ReadyMessages::new(
            alloc,
            soft_byte_limit,
            hard_rr_limit,
            must_fit_in_single_message,
        );
        CallbackBatcher::<XfrRrBatcher, ReadyMessages>::new(alloc, request, state)
    }
}

/// An authoritative answer without records yet, of up to so many octets.
#[tactic(auto, using(crate::proofs::AxfrHeaders::as_axfr))]
fn start_transfer(
    alloc: Global,
    request: &Message<'_>,
    limit: usize,
) -> Result<AnswerBuilder, PushError>
    ensures { Builds (message_wire (in_answer (axfr_header (header_in request.now)) (questions_in request.now) []))
        limit result }
{
    if !request.answer_fits(limit) {
        return Err(PushError::ShortBuf);
    }
    let Ok(mut builder) = MessageBuilder::new(alloc) else {
        return Err(PushError::Memory);
    };
    builder.set_push_limit(limit);
    let mut answer = builder.start_answer(request, Rcode::NOERROR)?;
    let mut header = request.header().answer(Rcode::NOERROR);
    header.opcode = Opcode::QUERY;
    header.aa = true;
    answer.set_header(header);
    Ok(answer)
}

impl Callbacks<ReadyMessages> for XfrRrBatcher {
    ghost use Rattle.xfr_batch.specs.XfrBatches.{transfer_begins, transfer_is_full, TransferReadies};

    type Error = BatchReadyError;

    ghost begins = { transfer_begins };

    ghost is_full = { transfer_is_full };

    ghost Readies = { TransferReadies };

    fn batch_started(
        alloc: Global,
        state: &ReadyMessages,
        request: &Message<'_>,
    ) -> Result<AnswerBuilder, PushError> {
        start_transfer(alloc, request, state.push_limit())
    }

    fn record_pushed(state: &ReadyMessages, answer: &AnswerBuilder) -> bool {
        match state.hard_rr_limit() {
            Some(limit) => limit <= answer.counts().ancount,
            None => false,
        }
    }

    fn batch_ready(
        state: &mut ReadyMessages,
        answer: AnswerBuilder,
        finished: bool,
    ) -> Result<(), BatchReadyError> {
        if state.is_one_of_many(finished) {
            drop(answer);
            return Err(BatchReadyError::MustFitInSingleMessage);
        }
        match state.keep(answer.additional()) {
            Ok(()) => Ok(()),
            Err(_) => Err(BatchReadyError::Memory),
        }
    }
}

impl CallbackBatcher<XfrRrBatcher, ReadyMessages> {
    /// Takes out the first of the messages that are ready; None where none is. What was pushed and handed on stays so.
    pub fn take_ready(&mut self) -> Option<AdditionalBuilder>
        ensures taken { TakesReady self.old.state result self.new.state }
        ensures kept { self.new ≡ record self.old { state = self.new.state } }
        ensures stands { (pushed : List Record) (batches : List (Batch Kept))
            → Stands transfer_begins transfer_is_full self.old pushed batches
            → Stands transfer_begins transfer_is_full self.new pushed batches }
    {
        self.callback_state.take_ready()
    }
}
