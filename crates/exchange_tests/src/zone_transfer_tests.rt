//! Transfers whose replies are made here: what is committed, and the answer, as RFC 5936, 2.2 has it.
ghost use Rattle.std.specs.Prelude.{◌≡◌};
ghost use Rattle.xfr_server.specs.Items.{Calls, all_given};
ghost use Rattle.xfr_services.specs.LongReplies.{FailsOnlyWhereLong};

use crate::common::{append_set, empty_zone, is, line_of, octets_of, shared_key};
use dns_rdata::{StoredRecord, record_from_octets};
use dns_wire::{
    AdditionalBuilder, AnswerBuilder, Header, MessageBuilder, PushError, Question, ShortMessage,
};
use hex::FromHexError;
use std::alloc::Global;
use std::process::Abort;
use std::sync::Wait;
use tsig_port::{Key, ServerSequence, Time48, ValidationError};
use xfr_client::{protocol, update};
use xfr_server::laws::made_replies_do_not_fail;
use xfr_server::{
    CallResult, Replies, Request, Service, ServiceError, ServiceFeedback, TsigMiddlewareSvc,
};
use zone_store::{ReadZone, WriteZone};
use zone_sync::{MemoryLink, Moments, SyncError, SyncOk, XfrClient, XfrMode, sync_zone};

/// Words, and the octets that they stand for: the question for the whole of `example.`, none, and those of another name, type and class;
/// the numbers of versions, as they stand before their records; the zone's SOA records with serials 1 and 2, both names the root; the
/// addresses 192.0.2.1 and 192.0.2.2 of `host.example.`, and one of `another.`; two aliases of `host.example.`; records of `example.` of
/// each known type, as dnspython makes them, and one of an unknown type.
const WORDS: &str = "\
asked 076578616d706c650000fc0001
none \n\
other-name 07616e6f746865720000fc0001
other-type 076578616d706c650000fb0001
other-class 076578616d706c650000fc0003
version-0 76657273696f6e20303a
version-1 76657273696f6e20313a
version-2 76657273696f6e20323a
version-3 76657273696f6e20333a
soa 076578616d706c65000006000100000e10001600000000000100000000000000000000000000000000
next-soa 076578616d706c65000006000100000e10001600000000000200000000000000000000000000000000
first 04686f7374076578616d706c65000001000100000e100004c0000201
second 04686f7374076578616d706c65000001000100000e100004c0000202
outside 07616e6f74686572000001000100000e100004c0000201
alias 04686f7374076578616d706c65000005000100000e100009076578616d706c6500
other-alias 04686f7374076578616d706c65000005000100000e10000100
a 076578616d706c65000001000100000e100004c0000201
ns 076578616d706c65000002000100000e10000c026e73076578616d706c6500
md 076578616d706c65000003000100000e10000c026d64076578616d706c6500
mf 076578616d706c65000004000100000e10000c026d66076578616d706c6500
cname 076578616d706c65000005000100000e10000f05616c696173076578616d706c6500
mb 076578616d706c65000007000100000e10000c026d62076578616d706c6500
mg 076578616d706c65000008000100000e10000c026d67076578616d706c6500
mr 076578616d706c65000009000100000e10000c026d72076578616d706c6500
ptr 076578616d706c6500000c000100000e10000e04486f7374076558616d706c6500
minfo 076578616d706c6500000e000100000e10001f056f776e6572076578616d706c6500066572726f7273076578616d706c6500
mx 076578616d706c6500000f000100000e100010010a046d61696c076578616d706c6500
txt 076578616d706c65000010000100000e1000130a6f6e6520737472696e6707616e6f74686572
aaaa 076578616d706c6500001c000100000e10001020010db8000000000000000000000001
srv 076578616d706c65000021000100000e1000160201040314e906736572766572076578616d706c6500
ds 076578616d706c6500002b000100000e100018ec4505012bb183af5f22588179a53b0a98631fad1a292118
unknown 076578616d706c6500ff00000100000e1000040a00ff01";

/// What a secondary without records answers and commits. Each row has: what it shows; the replies of a primary with `|` between them, each
/// its question and its answers; the answer; and what is committed, each version's number and its records in the order of its walk.
const CASES: &str = "\
records between;asked soa first second soa;Ok(Updated);version-1 soa first second
nothing between;asked soa soa;Ok(Updated);version-1 soa
equal data are one (RFC 2181, 5);asked soa first first soa;Ok(Updated);version-1 soa first
two messages;asked soa first|asked second soa;Ok(Updated);version-1 soa first second
four messages, later ones without a question;asked soa|none first|none second|none soa;Ok(Updated);version-1 soa first second
a message behind the end isn't taken;asked soa first soa|other-name second;Ok(Updated);version-1 soa first
a record behind the end, in its message;asked soa first soa second;Err(Iteration(AlreadyFinished));version-1 soa first
no end;asked soa first;Err(Ended);
an SOA of another serial isn't the end;asked soa first next-soa;Err(Ended);
the first record is no SOA;asked first soa soa;Err(Xfr(NotValidXfrResponse));
no record;asked;Err(Xfr(NotValidXfrResponse));
a question of another name;other-name soa first soa;Err(OtherAnswer);
a question of another type;other-type soa first soa;Err(OtherAnswer);
a question of another class;other-class soa first soa;Err(OtherAnswer);
another name in a later message;asked soa first|other-name second soa;Err(OtherAnswer);
an owner outside the zone;asked soa first outside soa;Err(Update(OutOfZone));
every type, each read by its own grammar, and walked by type;\
asked soa unknown ds srv aaaa txt mx minfo ptr mr mg mb cname mf md ns a soa;Ok(Updated);\
version-1 a ns md mf cname soa mb mg mr ptr minfo mx txt aaaa srv ds unknown
one alias;asked soa alias soa;Ok(Updated);version-1 soa alias
two aliases of a name (RFC 2181, 10.1);asked soa alias other-alias soa;Err(Update(InvalidData));";

/// The same of a secondary that has the first SOA record and the first address as version 1, and asks for what is newer: its question has the type of
/// `other-type` (RFC 1995).
const NEWER: &str = "\
the SOA that was asked with says that nothing is newer;other-type soa;Ok(UpToDate);
another SOA alone is a retry signal;other-type next-soa;Err(Iteration(SingleSoaIxfrTcpRetrySignal));
a difference, before which the version is published once more;other-type next-soa soa first next-soa second next-soa;\
Ok(Updated);version-2 soa first version-3 next-soa second
a difference in three messages;other-type next-soa soa|none first next-soa|none second next-soa;Ok(Updated);\
version-2 soa first version-3 next-soa second
a whole zone;other-type next-soa second next-soa;Ok(Updated);version-2 next-soa second
an end in the middle of a batch;other-type next-soa soa first next-soa;Err(Ended);version-2 soa first
a record to delete that isn't there;other-type next-soa soa second next-soa next-soa;Err(Update(IncompatibleUpdate));version-2 soa first
a record to add that is there;other-type next-soa soa next-soa first next-soa;Err(Update(IncompatibleUpdate));version-2 soa first
a record behind the end;other-type next-soa soa next-soa next-soa first;Err(Iteration(AlreadyFinished));\
version-2 soa first version-3 next-soa first
a question for the whole zone;asked soa;Err(OtherAnswer);";

/// The number of the first of these cases.
const FIRST_NEWER: usize = 32;

/// A row of the cases.
#[derive(Clone, Copy)]
struct Case {
    title: &'static str,
    replies: &'static str,
    answer: &'static str,
    committed: &'static str,
}

/// The case of this number.
fn case_at(number: usize) -> Option<Case> {
    if number < FIRST_NEWER {
        row_of(CASES, number)
    } else {
        row_of(NEWER, number - FIRST_NEWER)
    }
}

/// The case in the row of this number, from 0.
fn row_of(rows: &'static str, number: usize) -> Option<Case> {
    let row = rows.split('\n').nth(number)?;
    let (title, row) = row.split_once(';')?;
    let (replies, row) = row.split_once(';')?;
    let (answer, committed) = row.split_once(';')?;
    Some(Case {
        title,
        replies,
        answer,
        committed,
    })
}

/// A primary that sends the replies of a case, whatever it is asked.
#[derive(Clone, Copy, Debug)]
struct Sender {
    case: usize,
}

impl Service<Option<Key>> for Sender {
    type Stream = Replies;

    ghost Sends = { λ s request sent. Unit {0} };

    fn call<R: Wait>(
        &self,
        _rt: &R,
        alloc: Global,
        request: Request<Option<Key>>,
    ) -> Result<Replies, ServiceError>
        ensures calls { Calls (λ sent. Unit {0}) (λ s items. items ≡ all_given s) result }
        ensures failing { Calls (FailsOnlyWhereLong request.message) (λ s items. items ≡ all_given s) result }
    {
        // For the proof: replies that are made don't fail.
        made_replies_do_not_fail();
        let id = request.message().header().id;
        drop(request);
        match replies_of(alloc, id, replies_in(self.case)) {
            Ok(replies) => Ok(replies),
            Err(_) => Err(ServiceError::Memory),
        }
    }
}

/// The replies of the case in this row.
fn replies_in(number: usize) -> &'static str {
    match case_at(number) {
        Some(case) => case.replies,
        None => "",
    }
}

/// Replies that aren't signed yet, as one transaction.
fn replies_of(alloc: Global, id: u16, list: &str) -> Result<Replies, ServiceError> {
    let mut replies = Replies::new(alloc);
    replies.push(CallResult::feedback_only(ServiceFeedback::BeginTransaction))?;
    for words in list.split('|') {
        push_reply(&mut replies, alloc, id, words)?;
    }
    Ok(replies)
}

fn push_reply(
    replies: &mut Replies,
    alloc: Global,
    id: u16,
    words: &str,
) -> Result<(), ServiceError> {
    let message = reply(alloc, id, words)?;
    replies.push(CallResult::new(message))?;
    Ok(())
}

/// One of them.
pub(crate) fn reply(
    alloc: Global,
    id: u16,
    words: &str,
) -> Result<AdditionalBuilder, ServiceError> {
    let (question, answers) = match words.split_once(' ') {
        Some(parts) => parts,
        None => (words, ""),
    };
    let mut section = asked(alloc, id, question)?;
    for word in answers.split_ascii_whitespace() {
        push_record(&mut section, alloc, word)?;
    }
    Ok(section.additional())
}

/// Header and question of a reply.
fn asked(alloc: Global, id: u16, word: &str) -> Result<AnswerBuilder, ServiceError> {
    let octets = spelt(alloc, word)?;
    let mut builder = MessageBuilder::new(alloc)?;
    let mut header = Header::new(id);
    header.qr = true;
    header.aa = true;
    builder.set_header(header);
    let mut questions = builder.question();
    if let Ok((question, _)) = Question::parse(octets.as_slice(), 0) {
        questions.push(&question)?;
    }
    Ok(questions.answer())
}

/// Pushes the record of a word.
fn push_record(section: &mut AnswerBuilder, alloc: Global, word: &str) -> Result<(), ServiceError> {
    let octets = spelt(alloc, word)?;
    let Ok(found) = record_from_octets(octets.as_slice()) else {
        return Err(ServiceError::InternalError);
    };
    section.push(&found)?;
    Ok(())
}

/// The octets of a word.
fn spelt(alloc: Global, word: &str) -> Result<Vec<u8>, ServiceError> {
    let Some(digits) = line_of(WORDS, word) else {
        return Err(ServiceError::InternalError);
    };
    match hex::decode(alloc, digits.as_bytes()) {
        Ok(octets) => Ok(octets),
        Err(FromHexError::OutOfMemory) => Err(ServiceError::Memory),
        Err(_) => Err(ServiceError::InternalError),
    }
}

/// Appends the octets of words, one after another.
fn append_words<R: Abort>(rt: &R, alloc: Global, all: &mut Vec<u8>, words: &str) {
    for word in words.split_ascii_whitespace() {
        let octets = spelt(alloc, word).expect(rt, "memory, or a word");
        let appended = all.extend_from_slice(octets.as_slice());
        drop(octets);
        appended.expect(rt, "memory");
    }
}

/// The numbers and the records of versions.
fn walks_of<R: Abort>(rt: &R, alloc: Global, versions: &[ReadZone]) -> Vec<u8> {
    let mut all = Vec::new(alloc);
    for version in versions {
        append_number(rt, alloc, &mut all, version.version_number());
        for stop in version.iter_rrsets() {
            append_set(rt, &mut all, version.class(), &stop);
        }
    }
    all
}

fn append_number<R: Abort>(rt: &R, alloc: Global, all: &mut Vec<u8>, number: u64) {
    let text = format!(in alloc; "version {number}:").expect(rt, "memory");
    all.extend_from_slice(text.as_bytes()).expect(rt, "memory");
    drop(text);
}

/// What a secondary without records answers to the replies of a case over a link that takes requests of up to so many octets; the
/// versions are added to `made`.
fn answer_to<R: Abort + Wait>(
    rt: &R,
    alloc: Global,
    case: usize,
    max_len: usize,
    made: &mut Vec<ReadZone>,
) -> Result<SyncOk, SyncError> {
    let mut zone = empty_zone(rt, alloc);
    let mut session = zone.write(alloc);
    let answer = answer_in(rt, alloc, case, XfrMode::Axfr, max_len, &mut session, made);
    drop(session);
    zone.close(rt);
    answer
}

/// The same of the secondary that a session is of.
fn answer_in<R: Abort + Wait>(
    rt: &R,
    alloc: Global,
    case: usize,
    mode: XfrMode,
    max_len: usize,
    session: &mut WriteZone<'_>,
    made: &mut Vec<ReadZone>,
) -> Result<SyncOk, SyncError> {
    let key = shared_key(rt);
    let primary = TsigMiddlewareSvc::new(Sender { case }, key.duplicate());
    let mut link = MemoryLink::new(alloc, max_len, Vec::new(alloc));
    let moments = Moments {
        at_primary: Time48::from_u64(1000),
        at_secondary: Time48::from_u64(1000),
    };
    let answer = sync_zone(
        rt, alloc, &primary, session, &key, mode, &mut link, moments, made,
    );
    drop(link);
    drop(primary);
    drop(key);
    answer
}

/// Asserts what a case says.
fn is_so<R: Abort + Wait>(rt: &R, alloc: Global, number: usize, case: Case) {
    let mut made = Vec::new(alloc);
    let answer = answer_to(rt, alloc, number, 65_535, &mut made);
    says(rt, alloc, answer, made, case);
}

/// The same of a secondary that asks for what is newer.
fn is_newer<R: Abort + Wait>(rt: &R, alloc: Global, number: usize, case: Case) {
    let mut zone = empty_zone(rt, alloc);
    let mut session = zone.write(alloc);
    let mut first = Vec::new(alloc);
    let filled = answer_in(
        rt,
        alloc,
        2,
        XfrMode::Axfr,
        65_535,
        &mut session,
        &mut first,
    );
    drop(first);
    is(rt, filled, Ok(SyncOk::Updated));
    let mut made = Vec::new(alloc);
    let answer = answer_in(
        rt,
        alloc,
        number,
        XfrMode::Ixfr,
        65_535,
        &mut session,
        &mut made,
    );
    drop(session);
    zone.close(rt);
    says(rt, alloc, answer, made, case);
}

/// Asserts the answer and the versions of a case.
fn says<R: Abort>(
    rt: &R,
    alloc: Global,
    answer: Result<SyncOk, SyncError>,
    made: Vec<ReadZone>,
    case: Case,
) {
    let answer = format!(in alloc; "{answer:?}").expect(rt, "memory");
    let told = answer.as_str();
    assert_eq!(rt; told, case.answer, "{}", case.title);
    drop(answer);
    let walks = walks_of(rt, alloc, made.as_slice());
    drop(made);
    let mut committed = Vec::new(alloc);
    append_words(rt, alloc, &mut committed, case.committed);
    assert_eq!(rt; walks, committed, "{}", case.title);
    drop(committed);
    drop(walks);
}

#[test]
fn what_is_committed_and_answered(rt: HostRuntime) {
    for number in 0..19usize {
        let case = case_at(number).expect(&rt, "a case");
        is_so(&rt, rt.alloc(), number, case);
    }
    let no_more = case_at(19).is_none();
    assert!(rt; no_more);
}

#[test]
fn what_is_committed_of_what_is_newer(rt: HostRuntime) {
    for number in FIRST_NEWER..42usize {
        let case = case_at(number).expect(&rt, "a case");
        is_newer(&rt, rt.alloc(), number, case);
    }
    let no_more = case_at(42).is_none();
    assert!(rt; no_more);
}

/// A zone without an SOA can't ask for what is newer, whatever the link has room for.
#[test]
fn nothing_to_ask_with(rt: HostRuntime) {
    let alloc = rt.alloc();
    let mut zone = empty_zone(&rt, alloc);
    let mut session = zone.write(alloc);
    let mut made = Vec::new(alloc);
    let answer = answer_in(
        &rt,
        alloc,
        FIRST_NEWER,
        XfrMode::Ixfr,
        0,
        &mut session,
        &mut made,
    );
    is(&rt, answer, Err(SyncError::NoSoa));
    let count = made.len();
    is(&rt, count, 0);
    drop(made);
    drop(session);
    zone.close(&rt);
}

/// A request of 101 octets over a link that takes 100 is too long, which isn't want of memory.
#[test]
fn a_request_that_the_link_has_no_room_for(rt: HostRuntime) {
    let alloc = rt.alloc();
    let mut made = Vec::new(alloc);
    let answer = answer_to(&rt, alloc, 0, 100, &mut made);
    is(&rt, answer, Err(SyncError::Request(PushError::ShortBuf)));
    let count = made.len();
    is(&rt, count, 0);
    let answer = answer_to(&rt, alloc, 0, 101, &mut made);
    is(&rt, answer, Ok(SyncOk::Updated));
    drop(made);
}

/// A reply of one SOA, which the server signs.
pub(crate) fn signed_soa<R: Abort>(
    rt: &R,
    alloc: Global,
    server: &mut ServerSequence<Key>,
    id: u16,
    now: Time48,
) -> Vec<u8> {
    let mut message = reply(alloc, id, "asked soa").expect(rt, "a reply");
    server.answer(&mut message, now).expect(rt, "room");
    message.finish().into_octets()
}

/// Asserts what a client says of a reply, and that it makes nothing.
fn makes_nothing<R: Abort + Wait>(
    rt: &R,
    alloc: Global,
    client: &mut XfrClient<'_, '_>,
    octets: Vec<u8>,
    wanted: Result<Option<SyncOk>, SyncError>,
) {
    let open = client.is_open();
    assert!(rt; open);
    let mut made = Vec::new(alloc);
    let taken = client.take(rt, octets, &mut made);
    is(rt, taken, wanted);
    is(rt, made.len(), 0);
    drop(made);
}

/// An SOA in a signed message, and the one that would end the zone in an unsigned one (RFC 8945, 5.3.1, would have it taken).
#[test]
fn an_unsigned_reply_after_a_signed_one(rt: HostRuntime) {
    let alloc = rt.alloc();
    let now = Time48::from_u64(1000);
    let key = shared_key(&rt);
    let mut zone = empty_zone(&rt, alloc);
    let mut session = zone.write(alloc);
    let mut client = XfrClient::new(alloc, &mut session, &key, XfrMode::Axfr, now);
    let asked = client.request(65_535);
    let mut request = asked.expect(&rt, "a request");
    let id = request.header().id;
    let checked = ServerSequence::request(&key, &mut request, now);
    drop(request);
    let found = checked.ok().expect(&rt, "accepted");
    let mut server = found.expect(&rt, "a TSIG");
    let signed = signed_soa(&rt, alloc, &mut server, id, now);
    drop(server);
    makes_nothing(&rt, alloc, &mut client, signed, Ok(None));
    let bare = reply(alloc, id, "asked soa").expect(&rt, "a reply");
    let octets = bare.finish().into_octets();
    let wanted = Err(SyncError::Tsig(ValidationError::TooManyUnsigned));
    makes_nothing(&rt, alloc, &mut client, octets, wanted);
    client.into_session();
    drop(session);
    zone.close(&rt);
    drop(key);
}

/// The versions of a zone without records that gets the first case, and after it the second.
const VERSIONS: &str = "\
version-0
version-1 soa first second
version-2 soa";

/// The versions from the first up to the second of these numbers.
fn versions<R: Abort>(rt: &R, alloc: Global, first: usize, last: usize) -> Vec<u8> {
    let mut all = Vec::new(alloc);
    for number in 0..3usize {
        if first <= number && number <= last {
            let words = VERSIONS.split('\n').nth(number).expect(rt, "a version");
            append_words(rt, alloc, &mut all, words);
        }
    }
    all
}

/// The answer to the replies of the first case, and where it is Ok to those of the second.
fn answers<R: Abort + Wait>(
    rt: &R,
    alloc: Global,
    session: &mut WriteZone<'_>,
    made: &mut Vec<ReadZone>,
) -> Result<SyncOk, SyncError> {
    match answer_in(rt, alloc, 0, XfrMode::Axfr, 65_535, session, made) {
        Ok(_) => answer_in(rt, alloc, 1, XfrMode::Axfr, 65_535, session, made),
        Err(error) => Err(error),
    }
}

/// The number and the records of the current version.
fn current_of<R: Abort>(rt: &R, alloc: Global, session: &mut WriteZone<'_>) -> Vec<u8> {
    let mut handles = Vec::new(alloc);
    let handle = session.handle().expect(rt, "memory");
    handles.push(handle).expect(rt, "memory");
    let walks = walks_of(rt, alloc, handles.as_slice());
    drop(handles);
    walks
}

/// A record, stored.
fn stored<R: Abort>(rt: &R, alloc: Global, digits: &str) -> StoredRecord {
    let octets = octets_of(rt, alloc, digits);
    let found = record_from_octets(octets.as_slice()).expect(rt, "a record");
    let record = found.flatten(alloc).expect(rt, "memory");
    drop(octets);
    record
}

/// With memory two versions are made. Where an allocation is refused (`tools/refused-memory`), a first part of them is, whose last one
/// is current, and nothing is pending.
#[test]
fn makes_a_first_part_in_want_of_memory(rt: HostRuntime) {
    let alloc = rt.alloc();
    let first = line_of(WORDS, "first").expect(&rt, "a word");
    let first = stored(&rt, alloc, first);
    let mut zone = empty_zone(&rt, alloc);
    let mut session = zone.write(alloc);
    let mut made = Vec::new(alloc);
    let answer = answers(&rt, alloc, &mut session, &mut made);
    let count = made.len();
    if answer != Err(SyncError::Memory) {
        is(&rt, answer, Ok(SyncOk::Updated));
        is(&rt, count, 2);
    }
    let walks = walks_of(&rt, alloc, made.as_slice());
    drop(made);
    let expected = versions(&rt, alloc, 1, count);
    is(&rt, walks, expected);
    let current = current_of(&rt, alloc, &mut session);
    let expected = versions(&rt, alloc, count, count);
    is(&rt, current, expected);
    let has_first = session.has_data(&first);
    is(&rt, has_first, count == 1);
    drop(session);
    zone.close(&rt);
    drop(first);
}

/// Asserts what errors print, each the line of its place.
fn print_so<R: Abort>(rt: &R, alloc: Global, errors: &[SyncError], texts: &str) {
    let mut lines = texts.split('\n');
    for error in errors {
        let line = lines.next().expect(rt, "a text");
        let text = format!(in alloc; "{error}").expect(rt, "memory");
        is(rt, text.as_str(), line);
        drop(text);
    }
    let are_all = lines.next().is_none();
    assert!(rt; are_all);
}

#[test]
fn what_errors_print(rt: HostRuntime) {
    let errors = [
        SyncError::NoSoa,
        SyncError::Request(PushError::ShortBuf),
        SyncError::LinkFault,
        SyncError::Ended,
        SyncError::Short(ShortMessage),
        SyncError::Primary(ServiceError::InternalError),
        SyncError::TooManyMessages,
        SyncError::Tsig(ValidationError::BadSig),
        SyncError::OtherAnswer,
        SyncError::Xfr(protocol::Error::Malformed),
        SyncError::Iteration(protocol::IterationError::ParseError),
        SyncError::Update(update::Error::OutOfZone),
        SyncError::VersionsExhausted,
        SyncError::Memory,
    ];
    let texts = "\
the zone has no SOA
the request is too long
the link failed
the link ended before the transfer
a message is too short
the primary failed
too many messages
the signature was refused
the reply answers another question
the reply isn't one of a transfer
a record can't be read where it stands
an update doesn't fit the zone
there is no further version number
out of memory";
    print_so(&rt, rt.alloc(), &errors, texts);
}
