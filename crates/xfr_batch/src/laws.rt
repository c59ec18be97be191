// Laws of batches, each the contract of a function with an empty body.
ghost use Rattle.std.specs.Prelude.{◌≡◌, ◌≢◌, ◌≤◌, ℕ, true, false, List, [], ◌∷◌, ◌++◌, Some, None, All, Result, Err, flat_map, length, map};
ghost use Rattle.dns_rdata.specs.Records.{Record};
ghost use Rattle.xfr_batch.specs.Batches.{message_with, has_room, Batch, records_in, Batching, Stands};
ghost use Rattle.xfr_batch.specs.Batches.Ending.{Full, NoRoomFor};
ghost use Rattle.xfr_batch.specs.BatchCalls.{HandsOn, BeginsAlike, NotPushed, Pushes, Finishes};
ghost use Rattle.xfr_batch.specs.ReadyMessages.{Kept};
ghost use Rattle.xfr_batch.specs.XfrBatches.{transfer_begins, transfer_is_full, TransferReadies, batch_error_of, AnswersPush};
ghost use Rattle.xfr_batch.specs.declared.xfr.BatchReadyError.TheVariants.{Memory};

use crate::batcher::PushResult;
use crate::callbacks::Callbacks;
use crate::xfr::BatchReadyError;

/// Where no message is begun, as after a `finish`, and messages begin without a record, the records of the messages handed on are those
/// pushed, in order, and no message is without a record.
pub fn batches_join<T, C: Callbacks<T>>()
    ensures joined { (b : Batching T) (pushed : List Record) (batches : List (Batch T))
        → ((s : T) → (C.begins s b.request).answers ≡ []) → b.answer ≡ None
        → Stands C.begins C.is_full b pushed batches
        → flat_map (records_in C.begins b.request) batches ≡ pushed }
    ensures some { (b : Batching T) (pushed : List Record) (batches : List (Batch T))
        → Stands C.begins C.is_full b pushed batches
        → All (λ x. records_in C.begins b.request x ≢ []) batches }
{}

/// A message that ended before a `finish` was said to be full, or had no room for the record that was pushed next. Each is within its limit.
pub fn batches_are_full<T, C: Callbacks<T>>()
    ensures said { (b : Batching T) (pushed : List Record) (batches : List (Batch T))
        → Stands C.begins C.is_full b pushed batches
        → All (λ x. x.ending ≡ Full
        → C.is_full x.state (message_with (C.begins x.state b.request) x.records) ≡ true) batches }
    ensures no_room { (b : Batching T) (pushed : List Record) (batches : List (Batch T)) (r : Record)
        → Stands C.begins C.is_full b pushed batches
        → All (λ x. x.ending ≡ NoRoomFor r
        → has_room (C.begins x.state b.request) (x.records ++ r ∷ []) ≡ false) batches }
    ensures within { (b : Batching T) (pushed : List Record) (batches : List (Batch T))
        → Stands C.begins C.is_full b pushed batches
        → All (λ x. has_room (C.begins x.state b.request) x.records ≡ true) batches }
{}

/// Where each message begins alike, and one without a record has no room for the record that is pushed, the push is refused: for that,
/// for want of memory, or since a message was refused before.
pub fn records_without_room_are_refused<T, C: Callbacks<T>>()
    ensures { (old new : Batching T) (pushed : List Record) (batches : List (Batch T)) (r : Record)
        (result : Result PushResult C.Error)
        → BeginsAlike (λ s. C.begins s old.request) C.Readies
        → has_room (C.begins old.state old.request) (r ∷ []) ≡ false
        → Pushes C.begins C.is_full C.Readies C.Error.from_gives r old pushed batches result new
        → (e : C.Error) × ((result ≡ Err e)
        × NotPushed C.begins C.is_full C.Readies C.Error.from_gives r old pushed batches e new) }
{}

/// The messages that a transfer's batcher hands on are ready behind the others, in order.
pub fn ready_messages_are_the_batches()
    ensures { (request : List ℕ) (s t : Kept) (batches : List (Batch Kept))
        → HandsOn (λ x. transfer_begins x request) TransferReadies s batches t
        → t ≡ record s {
          ready = s.ready
              ++ map (λ b. message_with (transfer_begins s request) b.records) batches;
        } }
{}

/// No message of a transfer has more records than it may have.
pub fn messages_are_within_the_record_limit()
    ensures { (b : Batching Kept) (pushed : List Record) (batches : List (Batch Kept)) (n : ℕ) → 1 ≤ n
        → Stands transfer_begins transfer_is_full b pushed batches
        → All (λ x. x.state.hard_rr_limit ≡ Some n → length x.records ≤ n) batches }
{}

/// A push to a transfer's batcher answers a `PushError` where an empty message has no room for the record, and only there;
/// but memory may run out or a message be refused before. Where one message is all that may be sent, none is ready before the
/// end. A finish is refused for want of memory alone.
pub fn transfers_answer_by_room()
    ensures pushes { (old new : Batching Kept) (pushed : List Record) (batches : List (Batch Kept))
        (r : Record) (result : Result PushResult BatchReadyError)
        → Pushes transfer_begins transfer_is_full TransferReadies (λ e x. x ≡ batch_error_of e)
        r old pushed batches result new
        → AnswersPush (has_room (transfer_begins old.state old.request) (r ∷ [])) old.state.must_fit result }
    ensures single { (old new : Batching Kept) (pushed : List Record) (batches : List (Batch Kept))
        (r : Record) (result : Result PushResult BatchReadyError)
        → Pushes transfer_begins transfer_is_full TransferReadies (λ e x. x ≡ batch_error_of e)
        r old pushed batches result new
        → old.state.must_fit ≡ true → new.state ≡ old.state }
    ensures finishes { (old new : Batching Kept) (pushed : List Record) (batches : List (Batch Kept))
        (e : BatchReadyError)
        → Finishes transfer_begins transfer_is_full TransferReadies old pushed batches (Err e) new
        → e ≡ Memory }
{}
