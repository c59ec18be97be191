// The batcher that leaves its decisions to callbacks.
ghost use Rattle.std.specs.Prelude.{◌≡◌, [], List, None, IsOk};
ghost use Rattle.dns_rdata.specs.Records.{Record};
ghost use Rattle.dns_wire.specs.Builds.{Builds};
ghost use Rattle.xfr_batch.specs.Batches.{Batch, IsBegun, Stands, message_with};
ghost use Rattle.xfr_batch.specs.BatchSteps.{Tries, GivesBack};
ghost use Rattle.xfr_batch.specs.BatchCalls.{Pushes, Finishes};

use crate::batcher::{PushResult, ResourceRecordBatcher};
use crate::callbacks::Callbacks;
use crate::pushing::{hand_on_last, push_into, push_or_retry};
use dns_rdata::ComposeRecord;
use dns_wire::{AnswerBuilder, Message, MessageBuf, PushError};
use std::alloc::Global;
use std::marker::{Model, PhantomData};

/// A batcher whose callbacks `C` say how each message begins, when it is full and what becomes of it, over a state `T`. Contracts see
/// the request, the message that is begun and the state.
#[derive(Drop)]
pub struct CallbackBatcher<C, T> {
    callbacks: PhantomData<C>,
    alloc: Global,
    request: MessageBuf,
    answer: Option<AnswerBuilder>,
    pub(crate) callback_state: T,
}

impl<C, T> Model for CallbackBatcher<C, T> {
    ghost use Rattle.xfr_batch.specs.Batches.{Batching};

    ghost Value = { Batching T };

    ghost view = { λ b. record { request = b.request; answer = b.answer; state = b.callback_state } };
}

impl<C, T> CallbackBatcher<C, T> {
    /// The callbacks' state.
    pub fn callback_state(&self) -> &T
        ensures { result.now ≡ self.now.state }
    {
        &self.callback_state
    }

    /// The request that is answered.
    pub fn request(&self) -> &MessageBuf
        ensures { result.now ≡ self.now.request }
    {
        &self.request
    }

    /// The callbacks' state as a value of its own. A message that is begun is lost.
    pub fn into_callback_state(self) -> T
        ensures { result ≡ self.state }
    {
        let CallbackBatcher {
            answer,
            request,
            callback_state,
            ..
        } = self;
        drop(answer);
        drop(request);
        callback_state
    }
}

impl<T, C: Callbacks<T>> CallbackBatcher<C, T> {
    /// A batcher of answers to this request, to which no record was pushed yet.
    pub fn new(alloc: Global, request: MessageBuf, callback_state: T) -> CallbackBatcher<C, T>
        ensures value { result ≡ record { request = request; answer = None; state = callback_state } }
        ensures stands { Stands C.begins C.is_full result [] [] }
    {
        CallbackBatcher {
            callbacks: PhantomData,
            alloc,
            request,
            answer: None,
            callback_state,
        }
    }

    /// Adds a record to the message that is begun, or to a new one. A message that has no room for it is handed to `batch_ready`
    /// before, and one that `record_pushed` calls full with it afterwards; so one call may hand two on.
    ///
    /// A `PushError` tells that the record has no room in a message of its own, or that memory ran out; the record isn't pushed, and no
    /// other is lost. Where `batch_ready` refuses a message, its error is answered, and that message is lost with each of its
    /// records; the record that was pushed is among them only where it was in that message. No message is begun then, and the
    /// next record begins one.
    pub fn push<R: ComposeRecord>(&mut self, item: &R) -> Result<PushResult, C::Error>
        ensures { (pushed : List Record) (batches : List (Batch T))
            → Stands C.begins C.is_full self.old pushed batches
            → Pushes C.begins C.is_full C.Readies C.Error.from_gives (R.record_of item.now)
            self.old pushed batches result self.new }
    {
        push_or_retry::<T, C, R>(
            self.alloc,
            &self.request.as_message(),
            &mut self.answer,
            &mut self.callback_state,
            item,
        )
    }

    /// Tries once to add a record to the message that is begun, or to a new one, and hands nothing on: a message that is full is given back,
    /// with the record (`PushedAndLimitReached`) or, where it has no room for that, without (`NotPushedMessageFull`). None is begun then, and
    /// the record can be tried again. `Retry` never comes.
    ///
    /// `ShortBuf` tells that the record has no room in a message of its own. Without memory nothing has changed, and a message that is begun
    /// has room for the record. It is for a caller that keeps what is made itself, as a stream that is pulled.
    pub fn try_push<R: ComposeRecord>(&mut self, item: &R) -> Result<PushResult, PushError>
        ensures tries { (begun : List Record)
            → IsBegun (C.begins self.old.state self.old.request) (C.is_full self.old.state) begun self.old.answer
            → Tries (C.begins self.old.state self.old.request) (C.is_full self.old.state) (R.record_of item.now)
            begun self.old.answer result self.new.answer }
        ensures kept { self.new ≡ record self.old { answer = self.new.answer } }
        ensures given { GivesBack self.old.answer result self.new.answer }
    {
        push_into::<T, C, R>(
            self.alloc,
            &self.request.as_message(),
            &mut self.answer,
            &self.callback_state,
            item,
        )
    }

    /// Takes out the message that is begun, if there is one, and hands nothing on: the end for a caller that keeps what is made itself.
    pub fn take_answer(&mut self) -> Option<AnswerBuilder>
        ensures taken { result ≡ self.old.answer }
        ensures after { self.new ≡ record self.old { answer = None } }
    {
        self.answer.take()
    }

    /// Hands the message that is begun to `batch_ready`, as the last one. Nothing is called where none is begun. Where
    /// `batch_ready` refuses it, its error is answered, and the message is lost.
    pub fn finish(&mut self) -> Result<(), C::Error>
        ensures finishes { (pushed : List Record) (batches : List (Batch T))
            → Stands C.begins C.is_full self.old pushed batches
            → Finishes C.begins C.is_full C.Readies self.old pushed batches result self.new }
        ensures idle { self.old.answer ≡ None → IsOk result × (self.new ≡ self.old) }
    {
        hand_on_last::<T, C>(&mut self.answer, &mut self.callback_state)
    }

    /// Begins a message, for the answers to a request.
    pub fn mk_answer_builder(&self, request: &Message<'_>) -> Result<AnswerBuilder, PushError>
        ensures { Builds (message_with (C.begins self.now.state request.now) []).octets
            (C.begins self.now.state request.now).limit result }
    {
        C::batch_started(self.alloc, &self.callback_state, request)
    }
}

impl<C: Callbacks<T>, T> ResourceRecordBatcher for CallbackBatcher<C, T> {
    ghost use Rattle.xfr_batch.specs.Batchers.{StandsInLists};

    type Error = C::Error;

    ghost StandsFor = { StandsInLists C.begins C.is_full };

    ghost begins_with = { λ b request. C.begins b.state request };

    /// As above: it never asks for a retry, nor gives a message back.
    fn push<R: ComposeRecord>(&mut self, item: &R) -> Result<PushResult, C::Error>
        ensures { (pushed : List Record) (batches : List (Batch T))
            → Stands C.begins C.is_full self.old pushed batches
            → Pushes C.begins C.is_full C.Readies C.Error.from_gives (R.record_of item.now)
            self.old pushed batches result self.new }
    {
        CallbackBatcher::<C, T>::push(self, item)
    }

    fn finish(&mut self) -> Result<(), C::Error>
        ensures { (pushed : List Record) (batches : List (Batch T))
            → Stands C.begins C.is_full self.old pushed batches
            → Finishes C.begins C.is_full C.Readies self.old pushed batches result self.new }
    {
        CallbackBatcher::<C, T>::finish(self)
    }

    fn mk_answer_builder(&self, request: &Message<'_>) -> Result<AnswerBuilder, PushError> {
        CallbackBatcher::<C, T>::mk_answer_builder(self, request)
    }
}
