// What a batcher of messages leaves to its user.
ghost use Rattle.std.specs.Prelude.{[]};
ghost use Rattle.dns_wire.specs.Reply.{empty_answer};
ghost use Rattle.dns_wire.specs.Wire.{message_wire};
ghost use Rattle.dns_wire.specs.Builds.{Builds};

use dns_wire::{AnswerBuilder, Message, MessageBuilder, PushError, Rcode};
use std::alloc::Global;

/// What a `CallbackBatcher` leaves to its user: how a message begins, when it is full, and what becomes of it. A state of the
/// user's own, `T`, is handed to each call.
pub trait Callbacks<T> {
    ghost use Rattle.std.specs.Prelude.{◌≡◌, ℕ, [], Bool, List, Result};
    ghost use Rattle.dns_wire.specs.Wire.{Building};
    ghost use Rattle.dns_wire.specs.Builds.{Builds};
    ghost use Rattle.xfr_batch.specs.Batches.{Beginning, message_with};

    /// Why a batch is refused, or a record can't be pushed.
    type Error: From<PushError>;

    /// What a message begins with in answer to a request.
    ghost begins: { T → List ℕ → Beginning };

    /// Whether a message is full.
    ghost is_full: { T → Building → Bool };

    /// What becomes of a message, which is the last one or isn't: the answer, and the state afterwards.
    ghost Readies: { T → Building → Bool → Result (Unit {0}) Self.Error → T → Type 0 };

    /// Begins a message, for the answers to a request. `ShortBuf` exactly where what it begins with isn't within its limit, `Memory` only
    /// where it is.
    fn batch_started(
        alloc: Global,
        state: &T,
        request: &Message<'_>,
    ) -> Result<AnswerBuilder, PushError>
        ensures { Builds (message_with (begins state.now request.now) []).octets
            (begins state.now request.now).limit result };

    /// Whether the message is full, after a record was pushed.
    fn record_pushed(state: &T, answer: &AnswerBuilder) -> bool
        ensures { result ≡ is_full state.now answer.now };

    /// Takes a message that has its records; `finished` where none comes after it. A message that is refused is lost.
    fn batch_ready(state: &mut T, answer: AnswerBuilder, finished: bool) -> Result<(), Self::Error>
        ensures { Readies state.old answer finished result state.new };
}

/// How a message begins where nothing else is wanted: an answer to the request with NOERROR and its questions, which may have
/// 65,535 octets. `ShortBuf` exactly where these pass that, `Memory` only where they don't.
pub fn start_batch(alloc: Global, request: &Message<'_>) -> Result<AnswerBuilder, PushError>
    ensures { Builds (message_wire (empty_answer request.now 0)) 65535 result }
{
    if !request.answer_fits(65535) {
        return Err(PushError::ShortBuf);
    }
    let Ok(builder) = MessageBuilder::new(alloc) else {
        return Err(PushError::Memory);
    };
    builder.start_answer(request, Rcode::NOERROR)
}
