// Batchers: what records are pushed to one after another, and what puts them into messages.
use dns_rdata::ComposeRecord;
use dns_wire::{AnswerBuilder, Message, PushError};

/// What became of a record that was pushed.
#[derive(Drop)]
pub enum PushResult {
    /// It was pushed, and more can be.
    PushedAndReadyForMore,
    /// It was pushed, and the message is full.
    PushedAndLimitReached(AnswerBuilder),
    /// It wasn't pushed, since the message has no room for it.
    NotPushedMessageFull(AnswerBuilder),
    /// It wasn't pushed, and may be once more.
    Retry,
}

/// What puts records into messages, many into each (RFC 5936, 2.2).
pub trait ResourceRecordBatcher {
    ghost use Rattle.std.specs.Prelude.{List, ℕ, []};
    ghost use Rattle.dns_rdata.specs.Records.{Record};
    ghost use Rattle.dns_wire.specs.Builds.{Builds};
    ghost use Rattle.xfr_batch.specs.Batches.{Beginning, message_with};
    ghost use Rattle.xfr_batch.specs.Batchers.{PushesOne, FinishesAll};

    /// Why a record can't be pushed, or a message isn't taken.
    type Error;

    /// The records pushed so far, and those of each message handed on so far.
    ghost StandsFor: { Self → List Record → List (List Record) → Type 0 };

    /// What a message begins with in answer to a request.
    ghost begins_with: { Self → List ℕ → Beginning };

    /// Pushes a record.
    fn push<R: ComposeRecord>(&mut self, item: &R) -> Result<PushResult, Self::Error>
        ensures { (pushed : List Record) (batches : List (List Record)) → StandsFor self.old pushed batches
            → PushesOne (StandsFor self.new) (R.record_of item.now) pushed batches result };

    /// Hands on the message that is begun. The records of the messages handed on so far, joined, are then those pushed, in order,
    /// and no message is without a record.
    fn finish(&mut self) -> Result<(), Self::Error>
        ensures { (pushed : List Record) (batches : List (List Record)) → StandsFor self.old pushed batches
            → FinishesAll (StandsFor self.new) pushed batches result };

    /// Begins a message, for the answers to a request.
    fn mk_answer_builder(&self, request: &Message<'_>) -> Result<AnswerBuilder, PushError>
        ensures { Builds (message_with (begins_with self.now request.now) []).octets
            (begins_with self.now request.now).limit result };
}
