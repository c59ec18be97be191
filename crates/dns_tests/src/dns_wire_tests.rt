// Messages built and read back; limits; answers to requests.

use crate::common::{composed, is, name, prints};
use dns_wire::{
    A, AnswerBuilder, Class, Header, Message, MessageBuf, MessageBuilder, Name, NameRef, PushError,
    Question, Rcode, Record, Rtype, Ttl, ZoneRecordData,
};
use std::alloc::Global;
use std::process::Abort;

const EXAMPLE: [u8; 9] = *b"\x07example\x00";

const AXFR_QUERY: [u8; 25] =
    *b"\x03\xe8\x00\x00\x00\x01\x00\x00\x00\x00\x00\x00\x07example\x00\x00\xfc\x00\x01";

fn builder<R: Abort>(rt: &R, alloc: Global) -> MessageBuilder {
    MessageBuilder::new(alloc).expect(rt, "memory")
}

fn axfr_question<'o, R: Abort>(rt: &R) -> Question<NameRef<'o>> {
    Question::new(name(rt, EXAMPLE.as_slice()), Rtype::AXFR, Class::IN)
}

fn axfr_query<R: Abort>(rt: &R, alloc: Global) -> MessageBuf {
    let mut message = builder(rt, alloc);
    message.set_header(Header::new(1000));
    let mut questions = message.question();
    questions.push(&axfr_question(rt)).expect(rt, "a question");
    questions.finish()
}

fn root_address<'a, R: Abort>(
    rt: &R,
) -> Record<NameRef<'a>, ZoneRecordData<&'a [u8], NameRef<'a>>> {
    let address = ZoneRecordData::A(A::new([192, 0, 2, 1]));
    Record::new(
        name(rt, b"\0".as_slice()),
        Class::IN,
        Ttl::from_int(3600),
        address,
    )
}

/// Adds the record to the answers.
fn push_address<R: Abort>(rt: &R, answers: &mut AnswerBuilder) {
    let address = root_address(rt);
    let added = answers.push(&address);
    drop(address);
    added.expect(rt, "an answer")
}

/// An answer to the query, with that rcode.
fn answer<R: Abort>(rt: &R, alloc: Global, rcode: Rcode) -> AnswerBuilder {
    let query = axfr_query(rt, alloc);
    let started = builder(rt, alloc).start_answer(&query.as_message(), rcode);
    drop(query);
    started.expect(rt, "an answer")
}

#[test]
fn query_reads_back(rt: HostRuntime) {
    let query = axfr_query(&rt, rt.alloc());
    is(&rt, query.as_slice(), AXFR_QUERY.as_slice());
    let question = query.sole_question().expect(&rt, "a question");
    let spelled = composed(&rt, rt.alloc(), question.qname());
    is(&rt, spelled.as_slice(), EXAMPLE.as_slice());
    let end = query.as_message().end().expect(&rt, "a message");
    let found = (
        query.header(),
        query.counts().qdcount,
        question.qtype(),
        question.qclass(),
        end,
    );
    let wanted = (Header::new(1000), 1, Rtype::AXFR, Class::IN, 25);
    is(&rt, found, wanted);
    drop(query);
}

/// Asserts of two pushes under limits that the first was refused for want of room and changed nothing, and that the second made the
/// message so long, with one item.
fn is_limited<R: Abort>(
    rt: &R,
    found: (
        Result<(), PushError>,
        bool,
        Result<(), PushError>,
        usize,
        u16,
    ),
    len: usize,
) {
    let wanted = (Err(PushError::ShortBuf), true, Ok(()), len, 1);
    is(rt, found, wanted);
}

#[test]
fn push_limit(rt: HostRuntime) {
    let mut answers = builder(&rt, rt.alloc()).answer();
    let address = root_address(&rt);
    answers.set_push_limit(26);
    let refused = answers.push(&address);
    let unchanged = answers.as_slice() == [0; 12].as_slice();
    answers.set_push_limit(27);
    let added = answers.push(&address);
    let (len, count) = (answers.as_slice().len(), answers.counts().ancount);
    is_limited(&rt, (refused, unchanged, added, len, count), 27);
    drop(address);
    drop(answers);
}

#[test]
fn push_limit_of_a_question(rt: HostRuntime) {
    let mut questions = builder(&rt, rt.alloc()).question();
    let question = axfr_question(&rt);
    questions.set_push_limit(24);
    let refused = questions.push(&question);
    let unchanged = questions.as_slice() == [0; 12].as_slice();
    questions.set_push_limit(25);
    let added = questions.push(&question);
    let (len, count) = (questions.as_slice().len(), questions.counts().qdcount);
    is_limited(&rt, (refused, unchanged, added, len, count), 25);
    drop(questions);
}

#[test]
fn push_limit_of_later_sections(rt: HostRuntime) {
    let address = root_address(&rt);
    let mut authority = builder(&rt, rt.alloc()).authority();
    authority.set_push_limit(26);
    let in_authority = authority.push(&address);
    let mut additional = authority.additional();
    let in_additional = additional.push(&address);
    let unchanged = additional.as_slice() == [0; 12].as_slice();
    let found = (in_authority, in_additional, unchanged);
    let wanted = (Err(PushError::ShortBuf), Err(PushError::ShortBuf), true);
    is(&rt, found, wanted);
    drop(address);
    drop(additional);
}

#[test]
fn errors_print(rt: HostRuntime) {
    let room = PushError::ShortBuf;
    prints(&rt, rt.alloc(), &room, "no room in the message");
    let count = PushError::CountOverflow;
    prints(&rt, rt.alloc(), &count, "too many items in the section");
    prints(&rt, rt.alloc(), &PushError::Memory, "out of memory");
}

#[test]
fn query_without_room(rt: HostRuntime) {
    let query = axfr_query(&rt, rt.alloc());
    let mut short = builder(&rt, rt.alloc());
    short.set_push_limit(24);
    let refused = short.start_answer(&query.as_message(), Rcode::REFUSED);
    is(&rt, refused.err(), Some(PushError::ShortBuf));
}

/// A request that announces one question, and ends within its name.
const HALF_A_QUESTION: &[u8] = b"\x03\xe8\x00\x00\x00\x01\x00\x00\x00\x00\x00\x00\x07exam";

#[test]
fn unreadable_question_is_left_out(rt: HostRuntime) {
    let request = Message::from_octets(HALF_A_QUESTION).expect(&rt, "a header");
    let started = builder(&rt, rt.alloc()).start_answer(&request, Rcode::FORMERR);
    let answers = started.expect(&rt, "an answer");
    let due = *b"\x03\xe8\x80\x01\x00\x00\x00\x00\x00\x00\x00\x00";
    is(&rt, answers.as_slice(), due.as_slice());
    let found = (answers.header().id, answers.counts().qdcount);
    is(&rt, found, (1000, 0));
    drop(answers);
}

/// The header with AA set.
fn authoritative(mut header: Header) -> Header {
    header.aa = true;
    header
}

#[test]
fn answer_to_a_query(rt: HostRuntime) {
    let mut answers = answer(&rt, rt.alloc(), Rcode::NOERROR);
    let begun = answers.header();
    assert!(rt; begun.qr);
    let header = authoritative(begun);
    answers.set_header(header);
    push_address(&rt, &mut answers);
    let mut additional = answers.additional();
    let address = root_address(&rt);
    let added = additional.push(&address);
    drop(address);
    let mut reply = additional.finish();
    is(&rt, reply.header(), header);
    let section = reply.answer();
    let in_answer = section.expect(&rt, "a section").next_record().is_some();
    let section = reply.authority();
    let in_authority = section.expect(&rt, "a section").next_record().is_some();
    reply.remove_last_additional();
    let section = reply.additional();
    let in_additional = section.expect(&rt, "a section").next_record().is_some();
    reply.set_id(7);
    let found = [in_answer, in_authority, in_additional];
    is(&rt, found, [true, false, false]);
    let found = (added, reply.header().id, reply.as_slice().len());
    is(&rt, found, (Ok(()), 7, 55));
    is(&rt, reply.into_octets().len(), 55);
}

#[test]
fn records_are_counted(rt: HostRuntime) {
    let mut answers = builder(&rt, rt.alloc()).answer();
    push_address(&rt, &mut answers);
    let message = answers.finish();
    let section = message.answer().expect(&rt, "a section");
    is(&rt, section.count(), 1);
    drop(message);
}

#[test]
fn questions_taken_back(rt: HostRuntime) {
    let mut questions = builder(&rt, rt.alloc()).question();
    questions
        .push(&axfr_question(&rt))
        .expect(&rt, "a question");
    questions.rewind();
    is(&rt, questions.as_slice(), [0; 12].as_slice());
}

#[test]
fn answers_taken_back(rt: HostRuntime) {
    let mut answers = answer(&rt, rt.alloc(), Rcode::NOERROR);
    push_address(&rt, &mut answers);
    answers.rewind();
    let found = (answers.as_slice().len(), answers.counts().ancount);
    is(&rt, found, (25, 0));
    drop(answers);
}

#[test]
fn later_sections_taken_back(rt: HostRuntime) {
    let address = root_address(&rt);
    let mut answers = builder(&rt, rt.alloc()).answer();
    push_address(&rt, &mut answers);
    let mut authority = answers.authority();
    authority.push(&address).expect(&rt, "an authority record");
    authority.rewind();
    let mut additional = authority.additional();
    additional
        .push(&address)
        .expect(&rt, "an additional record");
    additional.rewind();
    is(&rt, additional.as_slice().len(), 27);
    drop(address);
    drop(additional);
}

#[test]
fn type_and_error(rt: HostRuntime) {
    let query = axfr_query(&rt, rt.alloc());
    let refused = answer(&rt, rt.alloc(), Rcode::REFUSED).finish();
    let found = (query.qtype(), query.is_error(), refused.is_error());
    is(&rt, found, (Some(Rtype::AXFR), false, true));
    drop(refused);
    drop(query);
}

/// An error answer to a request, under a push limit.
fn error<R: Abort>(
    rt: &R,
    alloc: Global,
    request: &[u8],
    limit: usize,
    rcode: Rcode,
) -> Result<AnswerBuilder, PushError> {
    let request = Message::from_octets(request).expect(rt, "a header");
    let mut started = builder(rt, alloc);
    started.set_push_limit(limit);
    started.start_error(&request, rcode)
}

/// Asserts the octets of an error answer to a request, under a push limit.
fn answers<R: Abort>(
    rt: &R,
    alloc: Global,
    request: &[u8],
    limit: usize,
    rcode: Rcode,
    due: &[u8],
) {
    let started = error(rt, alloc, request, limit, rcode);
    let answers = started.expect(rt, "an answer");
    assert_eq!(rt; answers.as_slice(), due, "under {limit}");
    drop(answers);
}

/// Id 1000, QR, opcode 0, rcode REFUSED, one question, and the question.
const REFUSED: [u8; 25] =
    *b"\x03\xe8\x80\x05\x00\x01\x00\x00\x00\x00\x00\x00\x07example\x00\x00\xfc\x00\x01";

/// Id 1000, QR, opcode 0, rcode SERVFAIL, and no item.
const FAILED: [u8; 12] = *b"\x03\xe8\x80\x02\x00\x00\x00\x00\x00\x00\x00\x00";

#[test]
fn error_with_its_question(rt: HostRuntime) {
    answers(&rt, rt.alloc(), &AXFR_QUERY, 25, Rcode::REFUSED, &REFUSED);
    answers(&rt, rt.alloc(), &AXFR_QUERY, 24, Rcode::REFUSED, &FAILED);
    answers(&rt, rt.alloc(), &AXFR_QUERY, 12, Rcode::REFUSED, &FAILED);
    let started = error(&rt, rt.alloc(), &AXFR_QUERY, 11, Rcode::REFUSED);
    is(&rt, started.err(), Some(PushError::ShortBuf));
}

/// Two questions, for `a` and for `example`, each of type SOA in class IN.
const TWO_QUESTIONS: &[u8] = b"\x03\xe8\x00\x00\x00\x02\x00\x00\x00\x00\x00\x00\
\x01a\x00\x00\x06\x00\x01\x07example\x00\x00\x06\x00\x01";

/// QR, rcode REFUSED, and both questions.
const BOTH_REFUSED: &[u8] = b"\x03\xe8\x80\x05\x00\x02\x00\x00\x00\x00\x00\x00\
\x01a\x00\x00\x06\x00\x01\x07example\x00\x00\x06\x00\x01";

/// QR, rcode SERVFAIL, and the first question, which ends at 19; the second one would end at 32.
const FIRST_FAILED: &[u8] =
    b"\x03\xe8\x80\x02\x00\x01\x00\x00\x00\x00\x00\x00\x01a\x00\x00\x06\x00\x01";

#[test]
fn error_with_the_first_of_two_questions(rt: HostRuntime) {
    let refused = Rcode::REFUSED;
    answers(&rt, rt.alloc(), TWO_QUESTIONS, 18, refused, &FAILED);
    answers(&rt, rt.alloc(), TWO_QUESTIONS, 19, refused, FIRST_FAILED);
    answers(&rt, rt.alloc(), TWO_QUESTIONS, 31, refused, FIRST_FAILED);
    answers(&rt, rt.alloc(), TWO_QUESTIONS, 32, refused, BOTH_REFUSED);
}

/// Opcode 4 (NOTIFY), RD, and three questions: for `a`, for `example` and for the root, each of type SOA in class IN.
const THREE_QUESTIONS: &[u8] = b"\x03\xe8\x21\x00\x00\x03\x00\x00\x00\x00\x00\x00\
\x01a\x00\x00\x06\x00\x01\x07example\x00\x00\x06\x00\x01\x00\x00\x06\x00\x01";

#[test]
fn error_without_room_for_its_second_question(rt: HostRuntime) {
    let due = b"\x03\xe8\xa1\x02\x00\x01\x00\x00\x00\x00\x00\x00\x01a\x00\x00\x06\x00\x01";
    answers(&rt, rt.alloc(), THREE_QUESTIONS, 31, Rcode::NOTIMP, due);
}

#[test]
fn error_where_no_question_is_read(rt: HostRuntime) {
    let due = b"\x03\xe8\x80\x01\x00\x00\x00\x00\x00\x00\x00\x00";
    answers(&rt, rt.alloc(), HALF_A_QUESTION, 25, Rcode::FORMERR, due);
}

/// The example of the crate's documentation.
#[test]
fn documentation_example(rt: HostRuntime) {
    let name = Name::from_octets(b"\x07example\x00".as_slice()).expect(&rt, "a name");
    let mut query = MessageBuilder::new(rt.alloc()).expect(&rt, "memory");
    query.set_header(Header::new(1000));
    let mut questions = query.question();
    let question = Question::new(name, Rtype::A, Class::IN);
    questions.push(&question).expect(&rt, "room");
    let query = questions.finish();

    let mut builder = MessageBuilder::new(rt.alloc()).expect(&rt, "memory");
    builder.set_push_limit(512);
    let started = builder.start_answer(&query.as_message(), Rcode::NOERROR);
    let mut answers = started.expect(&rt, "room");
    let name = Name::from_octets(b"\x07example\x00".as_slice()).expect(&rt, "a name");
    let address = A::new([192, 0, 2, 1]);
    let record = Record::new(name, Class::IN, Ttl::from_int(3600), address);
    answers.push(&record).expect(&rt, "room");
    let reply = answers.finish();

    assert_eq!(rt; reply.header().id, 1000);
    assert_eq!(rt; reply.qtype(), Some(Rtype::A));
    let mut section = reply.answer().expect(&rt, "a section");
    let next = section.next_record().expect(&rt, "a record");
    let read = next.expect(&rt, "no error");
    assert_eq!(rt; read.rtype(), Rtype::A);
    assert_eq!(rt; read.rdata_octets(), [192, 0, 2, 1].as_slice());
    assert!(rt; section.next_record().is_none());
}
