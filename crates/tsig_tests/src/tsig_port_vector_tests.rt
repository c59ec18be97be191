// Messages that dnspython signed: what the server finds in them and answers, what the client asks and takes.

use crate::common::{
    accepted, asked, is, key_of, moment, name, octets, received, refused, says_of,
};
use dns_numbers::{Class, Rtype};
use dns_rdata::record_from_octets;
use dns_wire::{AdditionalBuilder, Header, MessageBuf, MessageBuilder, Question};
use std::alloc::Global;
use std::process::Abort;
use std::str::FromStr;
use tsig_port::{Algorithm, ClientSequence, Key, ServerSequence, ValidationError};

// What tools/signed_message_vectors.py prints.

/// The request for the whole zone `example.`, an answer with the zone's SOA, and one with an A record, all without a TSIG.
const UNSIGNED: &str = "\
03e800000001000000000000076578616d706c650000fc0001\n\
03e884000001000100000000076578616d706c650000fc0001076578616d706c65000006000100000e100034026e73076578616d706c65000a686f73746d6173746572076578616d706c65000000000100001c2000000e10001275000000012c\n\
03e884000001000100000000076578616d706c650000fc000103777777076578616d706c65000001000100000e100004c0000201\n\
";

/// In each line an algorithm, how many octets of each MAC are sent, and those messages signed, one second after the other from `TIME` on.
const EXCHANGES: &str = "\
hmac-sha1 14 03e800000001000000000001076578616d706c650000fc0001075866722d4b65790000fa00ff00000000002f09686d61632d7368613100000102030405012c0014c369d448b1eec7b1681b7b9dee5c0b6f8f5d37b803e800000000 03e884000001000100000001076578616d706c650000fc0001076578616d706c65000006000100000e100034026e73076578616d706c65000a686f73746d6173746572076578616d706c65000000000100001c2000000e10001275000000012c075866722d4b65790000fa00ff00000000002f09686d61632d7368613100000102030406012c0014edfa4d780ff560128fef7d82695481b94baaa21203e800000000 03e884000001000100000001076578616d706c650000fc000103777777076578616d706c65000001000100000e100004c0000201075866722d4b65790000fa00ff00000000002f09686d61632d7368613100000102030407012c001414bef87bd6d8f921fe5ea371c48d79e377019b8303e800000000\n\
hmac-sha1 0a 03e800000001000000000001076578616d706c650000fc0001075866722d4b65790000fa00ff00000000002509686d61632d7368613100000102030405012c000ac369d448b1eec7b1681b03e800000000 03e884000001000100000001076578616d706c650000fc0001076578616d706c65000006000100000e100034026e73076578616d706c65000a686f73746d6173746572076578616d706c65000000000100001c2000000e10001275000000012c075866722d4b65790000fa00ff00000000002509686d61632d7368613100000102030406012c000ae2071e63503f866a9aae03e800000000 03e884000001000100000001076578616d706c650000fc000103777777076578616d706c65000001000100000e100004c0000201075866722d4b65790000fa00ff00000000002509686d61632d7368613100000102030407012c000a70f5a8fa560e53b92d1d03e800000000\n\
hmac-sha256 20 03e800000001000000000001076578616d706c650000fc0001075866722d4b65790000fa00ff00000000003d0b686d61632d73686132353600000102030405012c00208ec2e4ba04c4918610f78b3fc2615d31f0abd8a88006b4a6503563671102fa6603e800000000 03e884000001000100000001076578616d706c650000fc0001076578616d706c65000006000100000e100034026e73076578616d706c65000a686f73746d6173746572076578616d706c65000000000100001c2000000e10001275000000012c075866722d4b65790000fa00ff00000000003d0b686d61632d73686132353600000102030406012c002020cd1959486a5ba1469814b86d384884c80c51c34da672f8cab0ae3f5e64464203e800000000 03e884000001000100000001076578616d706c650000fc000103777777076578616d706c65000001000100000e100004c0000201075866722d4b65790000fa00ff00000000003d0b686d61632d73686132353600000102030407012c0020497207906c86b0c524fe7e5cd98a5a4733fcdedd91639ea050d0e39cfb2e3dc503e800000000\n\
hmac-sha256 10 03e800000001000000000001076578616d706c650000fc0001075866722d4b65790000fa00ff00000000002d0b686d61632d73686132353600000102030405012c00108ec2e4ba04c4918610f78b3fc2615d3103e800000000 03e884000001000100000001076578616d706c650000fc0001076578616d706c65000006000100000e100034026e73076578616d706c65000a686f73746d6173746572076578616d706c65000000000100001c2000000e10001275000000012c075866722d4b65790000fa00ff00000000002d0b686d61632d73686132353600000102030406012c0010270df07eb254d010155b5782cb09a10203e800000000 03e884000001000100000001076578616d706c650000fc000103777777076578616d706c65000001000100000e100004c0000201075866722d4b65790000fa00ff00000000002d0b686d61632d73686132353600000102030407012c0010014b229735f1e13fe3a84d8bbc99813503e800000000\n\
hmac-sha384 30 03e800000001000000000001076578616d706c650000fc0001075866722d4b65790000fa00ff00000000004d0b686d61632d73686133383400000102030405012c0030dc792f6f08333e38ad6d7dc8b81e6b44a6bfca56792bf9750290a5835b95c463601a0368f024507c2ce6b2c09bf1f42603e800000000 03e884000001000100000001076578616d706c650000fc0001076578616d706c65000006000100000e100034026e73076578616d706c65000a686f73746d6173746572076578616d706c65000000000100001c2000000e10001275000000012c075866722d4b65790000fa00ff00000000004d0b686d61632d73686133383400000102030406012c0030d4b128caf3f09465a9a65b054e0d429cd9d2ff9cf0a23b4b69050733871004a970e5df400da84d6b768024f0abe2190503e800000000 03e884000001000100000001076578616d706c650000fc000103777777076578616d706c65000001000100000e100004c0000201075866722d4b65790000fa00ff00000000004d0b686d61632d73686133383400000102030407012c0030a1227cfaca90cb2adf9130e81cfb39be9617d312352eb150738257d70b943404d09ba792678da7b1cb2dc5034161a6b903e800000000\n\
hmac-sha384 18 03e800000001000000000001076578616d706c650000fc0001075866722d4b65790000fa00ff0000000000350b686d61632d73686133383400000102030405012c0018dc792f6f08333e38ad6d7dc8b81e6b44a6bfca56792bf97503e800000000 03e884000001000100000001076578616d706c650000fc0001076578616d706c65000006000100000e100034026e73076578616d706c65000a686f73746d6173746572076578616d706c65000000000100001c2000000e10001275000000012c075866722d4b65790000fa00ff0000000000350b686d61632d73686133383400000102030406012c0018b1628e265f319416ac744ef3ba867505358bf327d2a018ec03e800000000 03e884000001000100000001076578616d706c650000fc000103777777076578616d706c65000001000100000e100004c0000201075866722d4b65790000fa00ff0000000000350b686d61632d73686133383400000102030407012c0018455561e6764a5881e8cb0ada09fc9a386e635773bdd3834f03e800000000\n\
hmac-sha512 40 03e800000001000000000001076578616d706c650000fc0001075866722d4b65790000fa00ff00000000005d0b686d61632d73686135313200000102030405012c0040ae829d1ef892e389ee9d8e49cc9854c8d5284994202d0a73a246c4ef317314efac1a8536adaf6241c882008f5c7ab69906d6ab8734a64d31e4464e5f87d3c2a503e800000000 03e884000001000100000001076578616d706c650000fc0001076578616d706c65000006000100000e100034026e73076578616d706c65000a686f73746d6173746572076578616d706c65000000000100001c2000000e10001275000000012c075866722d4b65790000fa00ff00000000005d0b686d61632d73686135313200000102030406012c0040d4f294ab531380bf9d01337ef0efe5c3ba7aa129a82cdff859e3e00cafb291741897df46e5fbe6a7c41e34a37b801ec79c0e782e97bfb22d2c0256fc441994db03e800000000 03e884000001000100000001076578616d706c650000fc000103777777076578616d706c65000001000100000e100004c0000201075866722d4b65790000fa00ff00000000005d0b686d61632d73686135313200000102030407012c004008d04e3e0c7a7d747e6877acf09e449d987c577a081e6b226ca35aa8fe84dbe8a173a0cf17e168002727afb9ac7961b79624a759290b65c876870289a54c17aa03e800000000\n\
hmac-sha512 20 03e800000001000000000001076578616d706c650000fc0001075866722d4b65790000fa00ff00000000003d0b686d61632d73686135313200000102030405012c0020ae829d1ef892e389ee9d8e49cc9854c8d5284994202d0a73a246c4ef317314ef03e800000000 03e884000001000100000001076578616d706c650000fc0001076578616d706c65000006000100000e100034026e73076578616d706c65000a686f73746d6173746572076578616d706c65000000000100001c2000000e10001275000000012c075866722d4b65790000fa00ff00000000003d0b686d61632d73686135313200000102030406012c00200dec889cff069f5aa5887b724b5dced4f00a583708cde9ce21a8984f2117f54303e800000000 03e884000001000100000001076578616d706c650000fc000103777777076578616d706c65000001000100000e100004c0000201075866722d4b65790000fa00ff00000000003d0b686d61632d73686135313200000102030407012c0020e85b66d03de4b5752e40f7718b50329b807b6e4cf4739ba70c68c7eb0432798503e800000000\n\
";

/// In each line a TSIG error and the reply to the request by hmac-sha256 that says it.
const REFUSALS: &str = "\
0010 03e880090001000000000001076578616d706c650000fc0001075866722d4b65790000fa00ff00000000001d0b686d61632d73686132353600000102030405012c000003e800100000\n\
0011 03e880090001000000000001076578616d706c650000fc0001075866722d4b65790000fa00ff00000000001d0b686d61632d73686132353600000102030405012c000003e800110000\n\
0012 03e880090001000000000001076578616d706c650000fc0001075866722d4b65790000fa00ff0000000000430b686d61632d73686132353600000102030405012c002013a271e017783c2b234269017f0086ad68431bfc9248b827866e876a31226bd103e800120006000102030532\n\
";

/// Request and first answer by the key `Xfr-Key.example.`, whose owner is compressed.
const COMPRESSED: &str =
    "03e800000001000000000001076578616d706c650000fc0001075866722d4b6579c00c00fa00ff00000000003d0b686d61632d73686132353600000102030405012c0020122292284e54257707e122126b544575f3143a48e98605048a9055e4d0ed293e03e800000000 03e884000001000100000001076578616d706c650000fc0001c00c0006000100000e100026026e73c00c0a686f73746d6173746572c00c0000000100001c2000000e10001275000000012c075866722d4b6579c00c00fa00ff00000000003d0b686d61632d73686132353600000102030406012c0020473d9fd1f805516ef12010401a227eeb937661d55a5ee3d419d28de3f7f1540a03e800000000";

/// When the requests are signed, in seconds.
pub(crate) const TIME: u64 = 0x01_0203_0405;

const SECRET: &str = "0102030405060708090a0b0c0d0e0f101112131415161718191a1b1c1d1e1f20";

/// The word before the first space of a row, and what stands after that.
pub(crate) fn word<'a, R: Abort>(rt: &R, row: &'a str) -> (&'a str, &'a str) {
    row.split_once(' ').expect(rt, "a word")
}

/// The octets of that line of `UNSIGNED`.
fn unsigned<R: Abort>(rt: &R, alloc: Global, place: usize) -> Vec<u8> {
    let digits = UNSIGNED.lines().nth(place).expect(rt, "a line");
    octets(rt, alloc, digits)
}

/// The octets with the lowest bit of one of them flipped.
pub(crate) fn flipped<R: Abort>(rt: &R, alloc: Global, octets: &[u8], place: usize) -> Vec<u8> {
    let mut out = octets.to_vec(alloc).expect(rt, "memory");
    let octet = out.get_mut(place).expect(rt, "an octet");
    *octet = *octet ^ 1;
    out
}

/// The key of that algorithm and name, whose MACs have so many octets.
pub(crate) fn key_of_len<R: Abort>(
    rt: &R,
    alloc: Global,
    algorithm: Algorithm,
    len: usize,
    wire: &[u8],
) -> Key {
    let secret = octets(rt, alloc, SECRET);
    let name = name(rt, wire);
    let made = Key::new(algorithm, secret.as_slice(), name, Some(len), Some(len));
    drop(secret);
    made.expect(rt, "a key")
}

/// The key of the replies in `REFUSALS`.
fn sha256_key<R: Abort>(rt: &R, alloc: Global) -> Key {
    key_of_len(rt, alloc, Algorithm::Sha256, 32, b"\x07Xfr-Key\0")
}

/// Asserts that the message is that line of `UNSIGNED`, with octets after it that no section counts.
fn is_unsigned<R: Abort>(rt: &R, alloc: Global, message: &MessageBuf, place: usize) {
    let bare = unsigned(rt, alloc, place);
    let counted = message.as_slice().starts_with(bare.as_slice());
    assert!(rt; counted);
    drop(bare);
}

/// Asserts that the server finds that error in the octets at the moment and leaves them alone.
fn refuses<R: Abort>(rt: &R, alloc: Global, key: &Key, octets: &[u8], now: u64, error: u16) {
    let copy = octets.to_vec(alloc).expect(rt, "memory");
    let mut message = received(rt, copy);
    let refusal = refused(rt, key, &mut message, moment(rt, now));
    let found = refusal.error().to_int();
    is(rt, found, error);
    drop(refusal);
    is(rt, message.as_slice(), octets);
    drop(message);
}

/// The server that takes the octets at the moment. Asserts that it has the unsigned request.
fn takes_request<R: Abort>(
    rt: &R,
    alloc: Global,
    key: &Key,
    octets: &[u8],
    now: u64,
) -> ServerSequence<Key> {
    let copy = octets.to_vec(alloc).expect(rt, "memory");
    let mut message = received(rt, copy);
    let server = accepted(rt, key, &mut message, moment(rt, now));
    is_unsigned(rt, alloc, &message, 0);
    drop(message);
    server
}

/// Asserts that the server takes the request at each moment within the fudge, with another id too, and that it finds BADTIME at others.
fn finds_times<R: Abort>(rt: &R, alloc: Global, key: &Key, request: &[u8]) {
    for now in [TIME, TIME + 300, TIME - 300] {
        let server = takes_request(rt, alloc, key, request, now);
        drop(server);
    }
    for now in [TIME + 301, TIME - 301] {
        refuses(rt, alloc, key, request, now, 18);
    }
    let forwarded = flipped(rt, alloc, request, 1);
    let server = takes_request(rt, alloc, key, forwarded.as_slice(), TIME);
    drop(server);
    drop(forwarded);
}

/// Asserts that the server finds BADSIG where a bit is flipped: of the flags, of a letter in the question, of the MAC, of the original id.
fn finds_flips<R: Abort>(rt: &R, alloc: Global, key: &Key, request: &[u8]) {
    let mac = request.len().checked_sub(7).expect(rt, "a MAC");
    let id = request.len().checked_sub(5).expect(rt, "an original id");
    for place in [2, 13, mac, id] {
        let other = flipped(rt, alloc, request, place);
        refuses(rt, alloc, key, other.as_slice(), TIME, 16);
        drop(other);
    }
}

/// The answer in that line of `UNSIGNED`, as a builder has it.
fn answer_of<R: Abort>(rt: &R, alloc: Global, place: usize) -> AdditionalBuilder {
    let octets = unsigned(rt, alloc, place);
    let (_, record) = octets.split_at_checked(25).expect(rt, "a record");
    let record = record_from_octets(record).expect(rt, "a record");
    let mut builder = MessageBuilder::new(alloc).expect(rt, "memory");
    let mut header = Header::new(1000);
    header.qr = true;
    header.aa = true;
    builder.set_header(header);
    let mut questions = builder.question();
    let question = Question::new(name(rt, b"\x07example\0"), Rtype::AXFR, Class::IN);
    questions.push(&question).expect(rt, "room");
    let mut answers = questions.answer();
    answers.push(&record).expect(rt, "room");
    drop(record);
    drop(octets);
    answers.additional()
}

/// Asserts that the server signs the answer in that line of `UNSIGNED` so.
fn signs<R: Abort>(
    rt: &R,
    alloc: Global,
    server: &mut ServerSequence<Key>,
    answer: &[u8],
    place: usize,
    now: u64,
) {
    let mut reply = answer_of(rt, alloc, place);
    let signed = server.answer(&mut reply, moment(rt, now));
    is(rt, signed, Ok(()));
    is(rt, reply.as_slice(), answer);
    drop(reply);
}

/// Asserts that the client refuses the answer with a bit of its flags flipped, and then takes it, so many seconds after `TIME`, and has that line of
/// `UNSIGNED`.
fn takes<R: Abort>(
    rt: &R,
    alloc: Global,
    client: &mut ClientSequence<Key>,
    answer: &[u8],
    place: usize,
    now: u64,
) {
    let now = moment(rt, now);
    let other = received(rt, flipped(rt, alloc, answer, 2));
    says_of(rt, client, other, now, Err(ValidationError::BadSig));
    let copy = answer.to_vec(alloc).expect(rt, "memory");
    let mut message = received(rt, copy);
    let taken = client.answer(&mut message, now);
    is(rt, taken, Ok(()));
    is_unsigned(rt, alloc, &message, place);
    drop(message);
}

/// Asserts that the client with the key signs the request so, and takes the answers.
fn client_takes<R: Abort>(
    rt: &R,
    alloc: Global,
    key: Key,
    request: &[u8],
    first: &[u8],
    second: &[u8],
) {
    let (mut client, signed) = asked(rt, alloc, key, moment(rt, TIME));
    is(rt, signed.as_slice(), request);
    drop(signed);
    takes(rt, alloc, &mut client, first, 1, TIME + 1);
    takes(rt, alloc, &mut client, second, 2, TIME + 2);
    let done = client.done();
    is(rt, done, Ok(()));
}

/// Asserts that the server with the key takes the request, and signs the answers so.
fn server_signs<R: Abort>(
    rt: &R,
    alloc: Global,
    key: &Key,
    request: &[u8],
    first: &[u8],
    second: &[u8],
) {
    let mut server = takes_request(rt, alloc, key, request, TIME);
    signs(rt, alloc, &mut server, first, 1, TIME + 1);
    signs(rt, alloc, &mut server, second, 2, TIME + 2);
    drop(server);
}

/// Asserts what server and client find in a line of `EXCHANGES` and make of it.
fn exchanges<R: Abort>(rt: &R, alloc: Global, row: &str) {
    let (algorithm, rest) = word(rt, row);
    let (len, rest) = word(rt, rest);
    let (request, rest) = word(rt, rest);
    let (first, second) = word(rt, rest);
    let algorithm = Algorithm::from_str(algorithm).expect(rt, "an algorithm");
    let len = usize::from_str_radix(len, 16).ok().expect(rt, "a length");
    let key = key_of_len(rt, alloc, algorithm, len, b"\x07Xfr-Key\0");
    let request = octets(rt, alloc, request);
    let first = octets(rt, alloc, first);
    let second = octets(rt, alloc, second);
    finds_times(rt, alloc, &key, request.as_slice());
    finds_flips(rt, alloc, &key, request.as_slice());
    server_signs(
        rt,
        alloc,
        &key,
        request.as_slice(),
        first.as_slice(),
        second.as_slice(),
    );
    client_takes(
        rt,
        alloc,
        key,
        request.as_slice(),
        first.as_slice(),
        second.as_slice(),
    );
    drop(request);
    drop(first);
    drop(second);
}

/// Asserts that the server with that key refuses the request at the moment by that reply.
fn replies<R: Abort>(
    rt: &R,
    alloc: Global,
    known: &Key,
    mut request: MessageBuf,
    now: u64,
    reply: &[u8],
) {
    let refusal = refused(rt, known, &mut request, moment(rt, now));
    let builder = MessageBuilder::new(alloc).expect(rt, "memory");
    let built = refusal.build_message(&request.as_message(), builder);
    drop(request);
    let built = built.expect(rt, "room");
    is(rt, built.as_slice(), reply);
    drop(built);
}

/// Asserts that the server with that key refuses the request at the moment by the reply in that line of `REFUSALS`, and that the client then has
/// that refusal.
fn has_refusal<R: Abort>(
    rt: &R,
    alloc: Global,
    known: &Key,
    now: u64,
    place: usize,
    wanted: ValidationError,
) {
    let row = REFUSALS.lines().nth(place).expect(rt, "a line");
    let (_, reply) = word(rt, row);
    let reply = octets(rt, alloc, reply);
    let begin = moment(rt, TIME);
    let (mut client, request) = asked(rt, alloc, sha256_key(rt, alloc), begin);
    replies(rt, alloc, known, request, now, reply.as_slice());
    says_of(rt, &mut client, received(rt, reply), begin, Err(wanted));
    drop(client);
}

/// Asserts that server and client take the messages of `COMPRESSED`: the MAC is of the owner's whole name, which our client's request has.
fn compressed_owner<R: Abort>(rt: &R, alloc: Global) {
    let key = key_of_len(
        rt,
        alloc,
        Algorithm::Sha256,
        32,
        b"\x07Xfr-Key\x07example\0",
    );
    let (request, answer) = word(rt, COMPRESSED);
    let request = octets(rt, alloc, request);
    let server = takes_request(rt, alloc, &key, request.as_slice(), TIME);
    drop(server);
    drop(request);
    let (mut client, signed) = asked(rt, alloc, key, moment(rt, TIME));
    drop(signed);
    let answer = received(rt, octets(rt, alloc, answer));
    says_of(rt, &mut client, answer, moment(rt, TIME + 1), Ok(()));
    drop(client);
}

#[test]
fn messages_of_dnspython(rt: HostRuntime) {
    let alloc = rt.alloc();
    for row in EXCHANGES.lines() {
        exchanges(&rt, alloc, row);
    }
    let other = key_of(&rt, b"\x07Xfr-Key\0", &[0]);
    has_refusal(&rt, alloc, &other, TIME, 0, ValidationError::ServerBadSig);
    let other = key_of(&rt, b"\0", &[0]);
    has_refusal(&rt, alloc, &other, TIME, 1, ValidationError::ServerBadKey);
    let late = ValidationError::ServerBadTime {
        client: moment(&rt, TIME),
        server: moment(&rt, TIME + 301),
    };
    let key = sha256_key(&rt, alloc);
    has_refusal(&rt, alloc, &key, TIME + 301, 2, late);
    compressed_owner(&rt, alloc);
}
