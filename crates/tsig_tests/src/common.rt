// What several tests build: octets, names, a key, moments, messages and texts.
use dns_name::{KeyName, NameOctets};
use dns_numbers::{Class, Rtype};
use dns_wire::{AdditionalBuilder, Header, MessageBuf, MessageBuilder, Question};
use std::alloc::Global;
use std::fmt::{Debug, Display};
use std::process::Abort;
use tsig_port::{
    Algorithm, ClientSequence, Key, ServerError, ServerSequence, Time48, ValidationError,
};

/// Asserts that a value is the one that is wanted. A call of this is proved sooner than an `assert_eq!`.
pub(crate) fn is<R: Abort, T: PartialEq + Debug + Drop>(rt: &R, found: T, wanted: T) {
    assert_eq!(rt; found, wanted);
    drop(wanted);
    drop(found);
}

/// The same, at a place that is told where it isn't so.
pub(crate) fn is_at<R: Abort, T: PartialEq + Debug + Drop, P: Display>(
    rt: &R,
    found: T,
    wanted: T,
    place: &P,
) {
    assert_eq!(rt; found, wanted, "{place}");
    drop(wanted);
    drop(found);
}

/// The octets that pairs of hexadecimal digits say.
pub fn octets<R: Abort>(rt: &R, alloc: Global, digits: &str) -> Vec<u8> {
    let decoded = hex::decode(alloc, digits);
    decoded.ok().expect(rt, "pairs of digits, and memory")
}

/// The name of that wire form.
pub fn name<R: Abort>(rt: &R, wire: &[u8]) -> KeyName {
    let mut octets = NameOctets::new();
    octets.append(wire).expect(rt, "no more than 255 octets");
    KeyName::from_octets(octets).expect(rt, "a name")
}

/// A key of hmac-sha256 with whole MACs, under the name of that wire form.
pub fn key_of<R: Abort>(rt: &R, wire: &[u8], secret: &[u8]) -> Key {
    let made = Key::new(Algorithm::Sha256, secret, name(rt, wire), None, None);
    made.expect(rt, "a key")
}

/// The key `key.` of most tests.
pub fn key<R: Abort>(rt: &R) -> Key {
    key_of(rt, b"\x03key\0", &[0, 1, 2])
}

/// The moment so many seconds after the begin of 1970.
pub fn moment<R: Abort>(rt: &R, seconds: u64) -> Time48 {
    let fits = Time48::fits(seconds);
    assert!(rt; fits);
    Time48::from_u64(seconds)
}

/// A message with the question for the whole zone `example.`; a reply where `qr` is set.
pub fn message<R: Abort>(rt: &R, alloc: Global, qr: bool) -> AdditionalBuilder {
    let mut builder = MessageBuilder::new(alloc).expect(rt, "memory");
    let mut header = Header::new(1000);
    header.qr = qr;
    builder.set_header(header);
    let mut questions = builder.question();
    let question = Question::new(name(rt, b"\x07example\0"), Rtype::AXFR, Class::IN);
    questions.push(&question).expect(rt, "room");
    questions.answer().additional()
}

/// A message as it is received.
pub fn received<R: Abort>(rt: &R, octets: Vec<u8>) -> MessageBuf {
    MessageBuf::from_octets(octets).ok().expect(rt, "a header")
}

/// A client with that key that signs a request at the moment, and that request.
pub fn asked<R: Abort>(
    rt: &R,
    alloc: Global,
    key: Key,
    now: Time48,
) -> (ClientSequence<Key>, MessageBuf) {
    let mut request = message(rt, alloc, false);
    let signed = ClientSequence::request(key, &mut request, now);
    let client = signed.expect(rt, "signed");
    (client, request.finish())
}

/// A server with that key that takes the request at the moment.
pub fn accepted<R: Abort>(
    rt: &R,
    key: &Key,
    request: &mut MessageBuf,
    now: Time48,
) -> ServerSequence<Key> {
    let checked = ServerSequence::request(key, request, now);
    let found = checked.ok().expect(rt, "accepted");
    found.expect(rt, "a TSIG")
}

/// Why a server with that key refuses the request at the moment.
pub fn refused<R: Abort>(
    rt: &R,
    key: &Key,
    request: &mut MessageBuf,
    now: Time48,
) -> ServerError<Key> {
    let checked = ServerSequence::request(key, request, now);
    checked.err().expect(rt, "refused")
}

/// Asserts that this is what the client says of the answer at the moment.
pub fn says_of<R: Abort>(
    rt: &R,
    client: &mut ClientSequence<Key>,
    mut answer: MessageBuf,
    now: Time48,
    wanted: Result<(), ValidationError>,
) {
    let taken = client.answer(&mut answer, now);
    is(rt, taken, wanted);
    drop(answer);
}

/// Asserts that the client takes an answer that the server signs.
pub fn answers<R: Abort>(
    rt: &R,
    alloc: Global,
    server: &mut ServerSequence<Key>,
    client: &mut ClientSequence<Key>,
    now: Time48,
) {
    let mut reply = message(rt, alloc, true);
    server.answer(&mut reply, now).expect(rt, "room");
    says_of(rt, client, reply.finish(), now, Ok(()));
}

/// Asserts that the value's text is that.
pub fn says<R: Abort, D: Display>(rt: &R, alloc: Global, value: &D, wanted: &str) {
    let text = value.to_string(alloc).expect(rt, "memory");
    is(rt, text.as_str(), wanted);
    drop(text);
}
