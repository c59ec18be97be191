// Services, and the streams of their replies.
ghost use Rattle.std.specs.Prelude.{◌≡◌, ◌<◌, ◌++◌, ◌∷◌, [], ℕ, List, Some, None, IfOk, OnOk, OnErr, OnSome, length, option_copied};
ghost use Rattle.xfr_services.specs.Items.{one_reply};

use crate::replies;
use crate::requests::Request;
use dns_numbers::Rcode;
use dns_wire::{AdditionalBuilder, PushError};
use std::alloc::{AllocError, Global};
use std::collections::VecDeque;
use std::marker::Model;
use std::sync::Wait;
use thiserror::Error;

/// What a service tells the one that sends its replies.
#[derive(Clone, Copy, Debug, PartialEq, Eq)]
pub enum ServiceFeedback {
    /// The replies from here on belong together, as the messages of one transfer.
    BeginTransaction,
    /// The last of these was given.
    EndTransaction,
}

/// Why a service can't reply.
#[derive(Clone, Copy, Debug, PartialEq, Eq, Error)]
pub enum ServiceError {
    /// Even the request's questions and one signature may pass 65,535 octets.
    #[error("the reply can't be made")]
    InternalError,
    /// Memory ran out.
    #[error("out of memory")]
    Memory,
}

impl From<AllocError> for ServiceError {
    ghost use Rattle.std.specs.Prelude.{◌≡◌};
    ghost use Rattle.xfr_services.specs.declared.services.ServiceError.{ServiceError};

    ghost from_gives = { λ e s. s ≡ ServiceError.Memory };

    fn from(_error: AllocError) -> ServiceError {
        ServiceError::Memory
    }
}

impl From<PushError> for ServiceError {
    ghost use Rattle.std.specs.Prelude.{◌≡◌};
    ghost use Rattle.xfr_services.specs.Items.{service_error_of};

    ghost from_gives = { λ e s. s ≡ service_error_of e };

    fn from(error: PushError) -> ServiceError {
        match error {
            PushError::ShortBuf | PushError::CountOverflow => ServiceError::InternalError,
            PushError::Memory => ServiceError::Memory,
        }
    }
}

/// One item of a stream of replies: a reply that still can be signed, feedback, or both.
#[derive(Drop)]
pub struct CallResult {
    pub response: Option<AdditionalBuilder>,
    pub feedback: Option<ServiceFeedback>,
}

impl CallResult {
    /// A reply.
    pub fn new(response: AdditionalBuilder) -> CallResult
        ensures response { result.response ≡ Some response }
        ensures feedback { result.feedback ≡ None }
    {
        CallResult {
            response: Some(response),
            feedback: None,
        }
    }

    /// Feedback alone.
    pub fn feedback_only(feedback: ServiceFeedback) -> CallResult
        ensures response { result.response ≡ None }
        ensures feedback { result.feedback ≡ Some feedback }
    {
        CallResult {
            response: None,
            feedback: Some(feedback),
        }
    }

    /// The reply, if there is one.
    pub fn response(&self) -> Option<&AdditionalBuilder>
        ensures { option_copied result ≡ self.now.response }
    {
        self.response.as_ref()
    }

    /// The reply as a value of its own.
    pub fn into_response(self) -> Option<AdditionalBuilder>
        ensures { result ≡ self.response }
    {
        self.response
    }

    /// The feedback, if there is any.
    pub fn feedback(&self) -> Option<ServiceFeedback>
        ensures { result ≡ self.now.feedback }
    {
        self.feedback
    }
}

/// The replies to one request, pulled one by one. Each takes from what is left, so a loop that pulls them ends.
pub trait ReplyStream: Drop {
    ghost use Rattle.std.specs.Prelude.{ℕ, List};
    ghost use Rattle.xfr_services.specs.Items.{Sending, NextOf};

    /// At most so many items are left.
    ghost remaining: { Self → ℕ };

    /// These items are left.
    ghost LeftOf: { Self → List Sending → Type 0 };

    /// The next item; None once there is no more. Where memory runs out an item is lost, and the stream has ended: who is sent what came
    /// before never takes what comes later for what follows it.
    fn next_item(&mut self) -> Option<Result<CallResult, ServiceError>>
        ensures progress { OnSome result (remaining self.new < remaining self.old) }
        ensures item { (items : List Sending) → LeftOf self.old items → NextOf (LeftOf self.new) items result };
}

/// What answers requests.
pub trait Service<M> {
    ghost use Rattle.std.specs.Prelude.{Option, List};
    ghost use Rattle.xfr_services.specs.Items.{Sending, Calls};
    ghost use Rattle.xfr_services.specs.LongReplies.{FailsOnlyWhereLong};
    ghost use Rattle.xfr_services.specs.declared.requests.Request.{Request as RequestOf};

    /// The replies.
    type Stream: ReplyStream;

    /// What is sent in answer to a request: these items, or None where no reply can be made.
    ghost Sends: { Self → RequestOf M → Option (List Sending) → Type 0 };

    /// The replies to a request. `rt` is for what reads a zone on the way, as `Zone::read` takes it.
    fn call<R: Wait>(
        &self,
        rt: &R,
        alloc: Global,
        request: Request<M>,
    ) -> Result<Self::Stream, ServiceError>
        ensures calls { Calls (Sends self.now request) Self.Stream.LeftOf result }
        // No reply can be made, then or in the stream, only where even one with the request's questions, a TSIG and no other record may
        // pass 65,535 octets.
        ensures failing { Calls (FailsOnlyWhereLong request.message) Self.Stream.LeftOf result };
}

/// Replies that were made beforehand. Contracts see the items that are left.
#[derive(Drop)]
pub struct Replies {
    items: VecDeque<CallResult>,
}

impl Model for Replies {
    ghost use Rattle.std.specs.Prelude.{List};
    ghost use Rattle.xfr_services.specs.declared.services.CallResult.{CallResult};

    ghost Value = { List CallResult };

    ghost view = { λ s. s.items.items };
}

impl Replies {
    /// No item yet.
    pub fn new(alloc: Global) -> Replies
        ensures { result ≡ [] }
    {
        Replies {
            items: VecDeque::new(alloc),
        }
    }

    /// One reply and nothing else.
    pub fn single(alloc: Global, response: AdditionalBuilder) -> Result<Replies, AllocError>
        ensures { IfOk result (λ s. s ≡ one_reply response) }
    {
        let mut replies = Replies::new(alloc);
        replies.push(CallResult::new(response))?;
        Ok(replies)
    }

    /// One more item at the end.
    pub fn push(&mut self, item: CallResult) -> Result<(), AllocError>
        ensures ok { OnOk result (self.new ≡ self.old ++ item ∷ []) }
        ensures err { OnErr result (self.new ≡ self.old) }
    {
        self.items.push_back(item)?;
        Ok(())
    }
}

impl ReplyStream for Replies {
    ghost use Rattle.std.specs.Prelude.{◌≡◌, ◌<◌, List, OnSome, length};
    ghost use Rattle.xfr_services.specs.Items.{Sending, NextItem, NextOf, all_given};

    ghost remaining = { length };

    ghost LeftOf = { λ s items. items ≡ all_given s };

    fn next_item(&mut self) -> Option<Result<CallResult, ServiceError>>
        ensures progress { OnSome result (length self.new < length self.old) }
        ensures item { (items : List Sending) → items ≡ all_given self.old → NextOf (λ rest. rest ≡ all_given self.new) items result }
        ensures first { NextItem self.old result self.new }
    {
        match self.items.pop_front() {
            Some(item) => Some(Ok(item)),
            None => None,
        }
    }
}

/// Answers REFUSED to whatever it is asked.
#[derive(Clone, Copy, Debug)]
pub struct RefuseSvc;

impl<M: Drop> Service<M> for RefuseSvc {
    ghost use Rattle.std.specs.Prelude.{◌≡◌};
    ghost use Rattle.xfr_services.specs.Items.{Calls, all_given};
    ghost use Rattle.xfr_services.specs.LongReplies.{FailsOnlyWhereLong};
    ghost use Rattle.xfr_services.specs.Replying.{refused, error_sends};

    type Stream = Replies;

    ghost Sends = { λ s request sent. sent ≡ error_sends request.message refused };

    #[tactic(auto, using(crate::proofs::LongReplies::refusals_fail))]
    fn call<R: Wait>(
        &self,
        _rt: &R,
        alloc: Global,
        request: Request<M>,
    ) -> Result<Replies, ServiceError>
        ensures calls { Calls (λ sent. sent ≡ error_sends request.message refused) (λ s items. items ≡ all_given s) result }
        ensures failing { Calls (FailsOnlyWhereLong request.message) (λ s items. items ≡ all_given s) result }
    {
        replies::refuse(alloc, &request.message, Rcode::REFUSED)
    }
}
