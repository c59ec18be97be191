// How a record gets into a message, step by step.
ghost use Rattle.std.specs.Prelude.{◌≡◌, ℕ, true, List, [], None, Ok, Err, IsOk};
ghost use Rattle.dns_rdata.specs.Records.{Record};
ghost use Rattle.dns_wire.specs.Builds.{Builds};
ghost use Rattle.xfr_batch.specs.Batches.{Beginning, Batch, Stands, IsBegun, message_with, has_room, batching};
ghost use Rattle.xfr_batch.specs.BatchCalls.{Pushes, Finishes};
ghost use Rattle.xfr_batch.specs.BatchSteps.{Settles, Joins, Opens, Tries, KeepsWhereFull, GivesBack, HandedOn, TriesOnce, TriesAgain};

use crate::batcher::PushResult;
use crate::callbacks::Callbacks;
use dns_rdata::ComposeRecord;
use dns_wire::{AnswerBuilder, Message, PushError};
use std::alloc::Global;

/// Keeps a message to which a record was added, or gives it back where it is full.
fn settle<T, C: Callbacks<T>>(
    kept: &mut Option<AnswerBuilder>,
    state: &T,
    answer: AnswerBuilder,
) -> PushResult
    ensures { Settles (C.is_full state.now) answer kept.old result kept.new }
{
    if C::record_pushed(state, &answer) {
        return PushResult::PushedAndLimitReached(answer);
    }
    *kept = Some(answer);
    PushResult::PushedAndReadyForMore
}

/// Adds a record to a message that was begun, or gives that back where it has no room for it.
fn push_next<T, C: Callbacks<T>, R: ComposeRecord>(
    kept: &mut Option<AnswerBuilder>,
    state: &T,
    answer: AnswerBuilder,
    item: &R,
) -> Result<PushResult, PushError>
    ensures joins { (b : Beginning) (begun : List Record) → answer ≡ message_with b begun → has_room b begun ≡ true
        → Joins b (C.is_full state.now) (R.record_of item.now) begun kept.old result kept.new }
    ensures keeps { KeepsWhereFull kept.old result kept.new }
{
    let mut answer = answer;
    match answer.push(item) {
        Ok(()) => Ok(settle::<T, C>(kept, state, answer)),
        Err(PushError::ShortBuf) => Ok(PushResult::NotPushedMessageFull(answer)),
        Err(PushError::CountOverflow) => Ok(PushResult::NotPushedMessageFull(answer)),
        Err(PushError::Memory) => {
            *kept = Some(answer);
            Err(PushError::Memory)
        }
    }
}

/// Adds the first record to a message.
fn push_alone<T, C: Callbacks<T>, R: ComposeRecord>(
    kept: &mut Option<AnswerBuilder>,
    state: &T,
    answer: AnswerBuilder,
    item: &R,
) -> Result<PushResult, PushError>
    ensures { (b : Beginning) → Builds (message_with b []).octets b.limit (Ok answer)
        → Opens b (C.is_full state.now) (R.record_of item.now) kept.old result kept.new }
{
    let mut answer = answer;
    match answer.push(item) {
        Ok(()) => Ok(settle::<T, C>(kept, state, answer)),
        Err(error) => give_up(kept, Some(answer), error),
    }
}

/// Leaves no message begun, also where one without a record was.
fn give_up(
    kept: &mut Option<AnswerBuilder>,
    begun: Option<AnswerBuilder>,
    error: PushError,
) -> Result<PushResult, PushError>
    ensures error { result ≡ Err error }
    ensures none { kept.new ≡ None }
{
    *kept = None;
    drop(begun);
    Err(error)
}

/// Begins a message with a record.
fn push_first<T, C: Callbacks<T>, R: ComposeRecord>(
    alloc: Global,
    request: &Message<'_>,
    kept: &mut Option<AnswerBuilder>,
    state: &T,
    item: &R,
) -> Result<PushResult, PushError>
    ensures { Opens (C.begins state.now request.now) (C.is_full state.now) (R.record_of item.now)
        kept.old result kept.new }
{
    match C::batch_started(alloc, state, request) {
        Ok(answer) => push_alone::<T, C, R>(kept, state, answer, item),
        Err(error) => give_up(kept, None, error),
    }
}

/// Adds a record to the message that is kept, or to a new one, and gives back a message that is full with it or has no room for it.
pub(crate) fn push_into<T, C: Callbacks<T>, R: ComposeRecord>(
    alloc: Global,
    request: &Message<'_>,
    kept: &mut Option<AnswerBuilder>,
    state: &T,
    item: &R,
) -> Result<PushResult, PushError>
    ensures tries { (begun : List Record)
        → IsBegun (C.begins state.now request.now) (C.is_full state.now) begun kept.old
        → Tries (C.begins state.now request.now) (C.is_full state.now) (R.record_of item.now)
        begun kept.old result kept.new }
    ensures given { GivesBack kept.old result kept.new }
{
    match kept.take() {
        Some(answer) => push_next::<T, C, R>(kept, state, answer, item),
        None => push_first::<T, C, R>(alloc, request, kept, state, item),
    }
}

/// Hands on a message that others follow, and tells whether the record was pushed.
fn hand_on<T, C: Callbacks<T>>(
    state: &mut T,
    answer: AnswerBuilder,
    pushed: bool,
) -> Result<bool, C::Error>
    ensures { HandedOn C.Readies state.old answer pushed result state.new }
{
    match C::batch_ready(state, answer, false) {
        Ok(()) => Ok(pushed),
        Err(error) => Err(error),
    }
}

/// The same, with that message handed on. Tells whether the record was pushed, or a message was handed on that had no room for it.
fn try_push<T, C: Callbacks<T>, R: ComposeRecord>(
    alloc: Global,
    request: &Message<'_>,
    kept: &mut Option<AnswerBuilder>,
    state: &mut T,
    item: &R,
) -> Result<bool, C::Error>
    ensures { (pushed : List Record) (batches : List (Batch T))
        → Stands C.begins C.is_full (batching request.now kept.old state.old) pushed batches
        → TriesOnce C.begins C.is_full C.Readies C.Error.from_gives (R.record_of item.now)
        (batching request.now kept.old state.old) pushed batches result
        (batching request.now kept.new state.new) }
{
    match push_into::<T, C, R>(alloc, request, kept, state, item) {
        Ok(PushResult::PushedAndReadyForMore) => Ok(true),
        Ok(PushResult::PushedAndLimitReached(answer)) => hand_on::<T, C>(state, answer, true),
        Ok(PushResult::NotPushedMessageFull(answer)) => hand_on::<T, C>(state, answer, false),
        Ok(PushResult::Retry) => Ok(false),
        Err(error) => Err(C::Error::from(error)),
    }
}

/// Pushes a record once more. `Retry` where it still isn't pushed.
fn push_again<T, C: Callbacks<T>, R: ComposeRecord>(
    alloc: Global,
    request: &Message<'_>,
    kept: &mut Option<AnswerBuilder>,
    state: &mut T,
    item: &R,
) -> Result<PushResult, C::Error>
    ensures { (pushed : List Record) (batches : List (Batch T))
        → Stands C.begins C.is_full (batching request.now kept.old state.old) pushed batches
        → TriesAgain C.begins C.is_full C.Readies C.Error.from_gives (R.record_of item.now)
        (batching request.now kept.old state.old) pushed batches result
        (batching request.now kept.new state.new) }
{
    match try_push::<T, C, R>(alloc, request, kept, state, item) {
        Ok(true) => Ok(PushResult::PushedAndReadyForMore),
        Ok(false) => Ok(PushResult::Retry),
        Err(error) => Err(error),
    }
}

/// Pushes a record, to a new message where the one that is kept has no room for it.
pub(crate) fn push_or_retry<T, C: Callbacks<T>, R: ComposeRecord>(
    alloc: Global,
    request: &Message<'_>,
    kept: &mut Option<AnswerBuilder>,
    state: &mut T,
    item: &R,
) -> Result<PushResult, C::Error>
    ensures { (pushed : List Record) (batches : List (Batch T))
        → Stands C.begins C.is_full (batching request.now kept.old state.old) pushed batches
        → Pushes C.begins C.is_full C.Readies C.Error.from_gives (R.record_of item.now)
        (batching request.now kept.old state.old) pushed batches result
        (batching request.now kept.new state.new) }
{
    match try_push::<T, C, R>(alloc, request, kept, state, item) {
        Ok(true) => Ok(PushResult::PushedAndReadyForMore),
        Ok(false) => push_again::<T, C, R>(alloc, request, kept, state, item),
        Err(error) => Err(error),
    }
}

/// Hands on the message that is kept, if there is one, as the last.
pub(crate) fn hand_on_last<T, C: Callbacks<T>>(
    kept: &mut Option<AnswerBuilder>,
    state: &mut T,
) -> Result<(), C::Error>
    ensures finishes { (request : List ℕ) (pushed : List Record) (batches : List (Batch T))
        → Stands C.begins C.is_full (batching request kept.old state.old) pushed batches
        → Finishes C.begins C.is_full C.Readies
        (batching request kept.old state.old) pushed batches result (batching request kept.new state.new) }
    ensures idle { kept.old ≡ None → IsOk result × ((kept.new ≡ None) × (state.new ≡ state.old)) }
{
    match kept.take() {
        Some(answer) => C::batch_ready(state, answer, true),
        None => Ok(()),
    }
}
