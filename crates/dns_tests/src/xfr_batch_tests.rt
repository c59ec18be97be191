// Records put into messages: what is handed on after each call, and the messages of a transfer.

use crate::common::{is, name, prints};
use bytes::Bytes;
use dns_name::NameRef;
use dns_rdata::{Record, Txt};
use dns_wire::{
    AdditionalBuilder, AnswerBuilder, Class, Message, MessageBuf, MessageBuilder, PushError, Ttl,
};
use std::alloc::Global;
use std::process::Abort;
use xfr_batch::{
    BatchReadyError, CallbackBatcher, Callbacks, PushResult, ReadyMessages, XfrRrBatcher,
    start_batch,
};

/// How many messages were handed on, and how many records in them.
#[derive(Drop)]
struct Counts {
    records: u16,
    batches: u16,
}

/// Counts the messages that it is handed.
#[derive(Drop)]
struct Counting;

impl Callbacks<Counts> for Counting {
    ghost use Rattle.std.specs.Prelude.{[], false};
    ghost use Rattle.dns_wire.specs.Wire.{header_in};
    ghost use Rattle.dns_wire.specs.Parse.{questions_in};
    ghost use Rattle.dns_wire.specs.Reply.{answer_header};

    type Error = BatchReadyError;

    ghost begins = { λ s request. record { header = answer_header (header_in request) 0; questions = questions_in request; answers = []; limit = 65535 } };

    ghost is_full = { λ s m. false };

    ghost Readies = { λ s m last r t. Unit {0} };

    fn batch_started(
        alloc: Global,
        _state: &Counts,
        request: &Message<'_>,
    ) -> Result<AnswerBuilder, PushError> {
        start_batch(alloc, request)
    }

    fn record_pushed(_state: &Counts, _answer: &AnswerBuilder) -> bool {
        false
    }

    fn batch_ready(
        state: &mut Counts,
        answer: AnswerBuilder,
        _finished: bool,
    ) -> Result<(), BatchReadyError> {
        state.records = state.records.saturating_add(answer.counts().ancount);
        state.batches = state.batches.saturating_add(1);
        drop(answer);
        Ok(())
    }
}

type CountingBatcher = CallbackBatcher<Counting, Counts>;

type TransferBatcher = CallbackBatcher<XfrRrBatcher, ReadyMessages>;

/// A request without a question.
fn request<R: Abort>(rt: &R, alloc: Global) -> MessageBuf {
    let builder = MessageBuilder::new(alloc).expect(rt, "memory");
    builder.question().finish()
}

fn new_counter<R: Abort>(rt: &R, alloc: Global) -> CountingBatcher {
    let counts = Counts {
        records: 0,
        batches: 0,
    };
    CallbackBatcher::new(alloc, request(rt, alloc), counts)
}

fn transfer<R: Abort>(
    rt: &R,
    alloc: Global,
    octets: Option<usize>,
    records: Option<u16>,
    must_fit: bool,
) -> TransferBatcher {
    XfrRrBatcher::build(alloc, request(rt, alloc), octets, records, must_fit)
}

/// A TXT record of the root with so many octets of text.
fn text<'o, R: Abort>(rt: &R, alloc: Global, len: usize) -> Record<NameRef<'o>, Txt<Bytes>> {
    let octets = vec![in alloc; 7; len].expect(rt, "memory");
    let data = Txt::build_from_slice(alloc, octets.as_slice()).expect(rt, "memory");
    drop(octets);
    let root = name(rt, b"\0".as_slice());
    Record::new(root, Class::IN, Ttl::from_int(0), data)
}

/// Pushes such a record; the batcher is ready for more.
fn count_text<R: Abort>(rt: &R, alloc: Global, batcher: &mut CountingBatcher, len: usize) {
    let pushed = text(rt, alloc, len);
    let answered = batcher.push(&pushed).ok();
    drop(pushed);
    let ready = matches!(answered, Some(PushResult::PushedAndReadyForMore));
    drop(answered);
    is(rt, ready, true);
}

/// Asserts, after so many pushes, how many records the message that is begun has, and how many messages were handed on.
fn has_counted<R: Abort>(rt: &R, batcher: &CountingBatcher, pushed: u16, wanted: (u16, u16)) {
    let state = batcher.callback_state();
    let begun = pushed.saturating_sub(state.records);
    is(rt, (begun, state.batches), wanted);
}

#[test]
fn a_message_takes_what_fits(rt: HostRuntime) {
    let mut batcher = new_counter(&rt, rt.alloc());
    count_text(&rt, rt.alloc(), &mut batcher, 65000);
    has_counted(&rt, &batcher, 1, (1, 0));
    count_text(&rt, rt.alloc(), &mut batcher, 1000);
    has_counted(&rt, &batcher, 2, (1, 1));
    batcher.finish().expect(&rt, "a batch");
    has_counted(&rt, &batcher, 2, (0, 2));
    drop(batcher);
}

#[test]
fn a_finish_without_a_push_hands_nothing_on(rt: HostRuntime) {
    let mut batcher = new_counter(&rt, rt.alloc());
    batcher.finish().expect(&rt, "no batch");
    has_counted(&rt, &batcher, 0, (0, 0));
    drop(batcher);
}

#[test]
fn a_thousand_short_texts_are_one_message(rt: HostRuntime) {
    let mut batcher = new_counter(&rt, rt.alloc());
    for _ in 0..1000 {
        count_text(&rt, rt.alloc(), &mut batcher, 10);
    }
    has_counted(&rt, &batcher, 1000, (1000, 0));
    batcher.finish().expect(&rt, "a batch");
    has_counted(&rt, &batcher, 1000, (0, 1));
    drop(batcher);
}

/// Id 1000, opcode 0, RD, and two questions: for `a` and for `example`, each of type AXFR in class IN.
const TWO_QUESTIONS: &[u8] = b"\x03\xe8\x01\x00\x00\x02\x00\x00\x00\x00\x00\x00\
\x01a\x00\x00\xfc\x00\x01\x07example\x00\x00\xfc\x00\x01";

/// The same with QR.
const BEGUN: &[u8] = b"\x03\xe8\x81\x00\x00\x02\x00\x00\x00\x00\x00\x00\
\x01a\x00\x00\xfc\x00\x01\x07example\x00\x00\xfc\x00\x01";

#[test]
fn a_message_begins_with_its_request(rt: HostRuntime) {
    let batcher = new_counter(&rt, rt.alloc());
    let request = Message::from_octets(TWO_QUESTIONS).expect(&rt, "a header");
    let begun = batcher.mk_answer_builder(&request);
    let begun = begun.expect(&rt, "an answer");
    let header = begun.header();
    is(&rt, (header.id, header.qr), (1000, true));
    is(
        &rt,
        (begun.counts().qdcount, begun.counts().ancount),
        (2, 0),
    );
    is(&rt, begun.as_slice(), BEGUN);
    drop(begun);
    has_counted(&rt, &batcher, 0, (0, 0));
    drop(batcher);
}

/// Pushes such a record to a transfer's batcher, and tells what refused it.
fn refusal<R: Abort>(
    rt: &R,
    alloc: Global,
    batcher: &mut TransferBatcher,
    len: usize,
) -> Option<BatchReadyError> {
    let pushed = text(rt, alloc, len);
    let answered = batcher.push(&pushed);
    drop(pushed);
    answered.err()
}

/// Asserts how many records the next ready message has, and its flags; none where no message is ready.
fn next_message<R: Abort>(rt: &R, batcher: &mut TransferBatcher, wanted: Option<u16>) {
    let taken: Option<AdditionalBuilder> = batcher.take_ready();
    let found = match &taken {
        Some(message) => {
            let header = message.header();
            is(rt, (header.qr, header.aa), (true, true));
            Some(message.counts().ancount)
        }
        None => None,
    };
    drop(taken);
    is(rt, found, wanted);
}

#[test]
fn one_record_a_message(rt: HostRuntime) {
    let mut batcher = transfer(&rt, rt.alloc(), None, Some(1), false);
    for _ in 0..2 {
        let error = refusal(&rt, rt.alloc(), &mut batcher, 10);
        is(&rt, error, None);
    }
    batcher.finish().expect(&rt, "no batch");
    next_message(&rt, &mut batcher, Some(1));
    next_message(&rt, &mut batcher, Some(1));
    next_message(&rt, &mut batcher, None);
    drop(batcher);
}

#[test]
fn one_message_has_to_do(rt: HostRuntime) {
    let mut batcher = transfer(&rt, rt.alloc(), None, None, true);
    is(&rt, refusal(&rt, rt.alloc(), &mut batcher, 65000), None);
    let error = refusal(&rt, rt.alloc(), &mut batcher, 1000);
    is(&rt, error, Some(BatchReadyError::MustFitInSingleMessage));
    is(&rt, refusal(&rt, rt.alloc(), &mut batcher, 1000), None);
    batcher.finish().expect(&rt, "a batch");
    next_message(&rt, &mut batcher, Some(1));
    next_message(&rt, &mut batcher, None);
    drop(batcher);
}

#[test]
fn a_record_without_room_is_refused(rt: HostRuntime) {
    let mut batcher = transfer(&rt, rt.alloc(), Some(100), None, false);
    let error = refusal(&rt, rt.alloc(), &mut batcher, 100);
    is(
        &rt,
        error,
        Some(BatchReadyError::PushError(PushError::ShortBuf)),
    );
    is(&rt, refusal(&rt, rt.alloc(), &mut batcher, 10), None);
    is(&rt, batcher.callback_state().len(), 0);
    drop(batcher);
}

#[test]
fn refusals_print(rt: HostRuntime) {
    let short = BatchReadyError::PushError(PushError::ShortBuf);
    prints(&rt, rt.alloc(), &short, "PushError: no room in the message");
    let many = BatchReadyError::MustFitInSingleMessage;
    prints(&rt, rt.alloc(), &many, "MustFitInSingleMessage");
    prints(&rt, rt.alloc(), &BatchReadyError::SendError, "SendError");
    prints(&rt, rt.alloc(), &BatchReadyError::Memory, "Memory");
}
