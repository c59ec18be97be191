// The stream of one transfer's replies.
ghost use Rattle.std.specs.Prelude.{◌≡◌, ◌<◌, List, Some, None, if◌then◌else◌};
ghost use Rattle.xfr_services.specs.Items.{Sending, Gives, NextOf};
ghost use Rattle.xfr_replies.specs.PulledStreams.{Continues, PulledLeft, Pulls, PullsFewer, SendsText, NeedsMemory, OnNoMemory, messages_left, pulled_left};
ghost use Rattle.xfr_replies.specs.declared.transfer_replies.Stage.TheVariants.{Records};

use crate::text::TransferText;
use dns_numbers::Rcode;
use dns_wire::{AnswerBuilder, MessageBuf, PushError};
use std::alloc::Global;
use xfr_batch::{CallbackBatcher, PushResult, ReadyMessages, XfrRrBatcher};
use xfr_services::{CallResult, ReplyStream, ServiceError, ServiceFeedback, replies};

/// What a stream gives next.
#[derive(Clone, Copy, Debug, PartialEq, Eq)]
enum Stage {
    /// That the transfer begins.
    Begin,
    /// A message with records, or what comes after the last.
    Records,
    /// Nothing more.
    Ended,
}

/// What comes of the records that are left.
#[derive(Drop)]
enum Pulled {
    /// A message with as many of them as it can have.
    Page(AnswerBuilder),
    /// The next one has no room in a message of its own.
    TooLong,
    /// None is left.
    Nothing,
    /// Memory ran out.
    NoMemory,
}

/// The replies of one transfer, pulled one by one: that it begins, its text in as many messages as it needs, each filled before the next
/// begins, and that it has ended (RFC 5936, 2.2). A record that has no room in a message of its own gives a SERVFAIL reply in place of
/// what is left, and so does want of memory an error; both end the stream.
#[derive(Drop)]
pub struct TransferReplies {
    alloc: Global,
    batcher: CallbackBatcher<XfrRrBatcher, ReadyMessages>,
    text: TransferText,
    stage: Stage,
}

impl TransferReplies {
    /// The replies to this request with this text, in messages of up to `limit` octets, with `singles` of one record each (RFC 5936, 7.1).
    pub fn new(
        alloc: Global,
        request: MessageBuf,
        limit: usize,
        singles: bool,
        text: TransferText,
    ) -> TransferReplies
        ensures { Gives (SendsText request limit singles text.records) PulledLeft result }
    {
        let most = record_limit(singles);
        TransferReplies {
            alloc,
            batcher: XfrRrBatcher::build(alloc, request, Some(limit), most, false),
            text,
            stage: Stage::Begin,
        }
    }

    /// The next message, or what comes after the last. The end takes no memory, so want of it is told only where a message or SERVFAIL is next.
    /// That reply takes memory itself: SERVFAIL is what want of memory may hide, and nothing else.
    fn next_reply(&mut self) -> Result<CallResult, ServiceError>
        ensures item { self.old.stage ≡ Records → (items : List Sending) → PulledLeft self.old items
            → NextOf (PulledLeft self.new) items (Some result) }
        ensures progress { self.old.stage ≡ Records → pulled_left self.new < pulled_left self.old }
        ensures memory { self.old.stage ≡ Records → (items : List Sending) → PulledLeft self.old items
            → OnNoMemory (Some result) (NeedsMemory items) }
    {
        match pull(&mut self.batcher, &mut self.text) {
            Pulled::Page(answer) => Ok(CallResult::new(answer.additional())),
            Pulled::TooLong => {
                self.stage = Stage::Ended;
                let reply = replies::error_reply(
                    self.alloc,
                    self.batcher.request(),
                    Rcode::SERVFAIL,
                )?;
                Ok(CallResult::new(reply))
            }
            Pulled::Nothing => {
                self.stage = Stage::Ended;
                Ok(CallResult::feedback_only(ServiceFeedback::EndTransaction))
            }
            Pulled::NoMemory => {
                self.stage = Stage::Ended;
                Err(ServiceError::Memory)
            }
        }
    }
}

impl ReplyStream for TransferReplies {
    ghost use Rattle.std.specs.Prelude.{◌<◌, List, OnSome};
    ghost use Rattle.xfr_services.specs.Items.{Sending, NextOf};
    ghost use Rattle.xfr_replies.specs.PulledStreams.{pulled_left, PulledLeft, NeedsMemory, OnNoMemory};

    ghost remaining = { pulled_left };

    ghost LeftOf = { PulledLeft };

    /// As every stream's. Want of memory is told only where a message or SERVFAIL is next, which takes memory too and is all that it may hide: what
    /// tells of begin and end takes none.
    fn next_item(&mut self) -> Option<Result<CallResult, ServiceError>>
        ensures progress { OnSome result (pulled_left self.new < pulled_left self.old) }
        ensures item { (items : List Sending) → PulledLeft self.old items → NextOf (PulledLeft self.new) items result }
        ensures memory { (items : List Sending) → PulledLeft self.old items → OnNoMemory result (NeedsMemory items) }
    {
        match self.stage {
            Stage::Begin => {
                self.stage = Stage::Records;
                Some(Ok(CallResult::feedback_only(ServiceFeedback::BeginTransaction)))
            }
            Stage::Records => Some(self.next_reply()),
            Stage::Ended => None,
        }
    }
}

/// How many records a message may have.
fn record_limit(singles: bool) -> Option<u16>
    ensures { result ≡ (if singles then Some 1 else None) }
{
    if singles { Some(1) } else { None }
}

/// Pushes records of the text until a message is full or none is left.
fn pull(
    batcher: &mut CallbackBatcher<XfrRrBatcher, ReadyMessages>,
    text: &mut TransferText,
) -> Pulled
    ensures item { (items : List Sending) → Continues batcher.old text.old.records items → Pulls items result batcher.new text.new.records }
    ensures progress { PullsFewer (messages_left batcher.old text.old.records) result (messages_left batcher.new text.new.records) }
{
    'records: while let Some(record) = text.next() {
        match batcher.try_push(&record) {
            Ok(PushResult::PushedAndReadyForMore) => text.advance(),
            Ok(PushResult::PushedAndLimitReached(answer)) => {
                text.advance();
                return Pulled::Page(answer);
            }
            Ok(PushResult::NotPushedMessageFull(answer)) => return Pulled::Page(answer),
            // It never comes.
            Ok(PushResult::Retry) => return Pulled::NoMemory,
            Err(PushError::ShortBuf) => return Pulled::TooLong,
            Err(PushError::CountOverflow) => return Pulled::TooLong,
            Err(PushError::Memory) => return Pulled::NoMemory,
        }
    }
    match batcher.take_answer() {
        Some(answer) => Pulled::Page(answer),
        None => Pulled::Nothing,
    }
}
