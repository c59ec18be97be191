// Messages that say an answer: the octets by hand from RFC 1035, 4.1, and what is left out from RFC 2181, 9.

use crate::common::{name, octets, record, set_of};
use dns_numbers::Rcode;
use dns_rdata::StoredRecord;
use dns_wire::Message;
use std::alloc::Global;
use std::process::Abort;
use zone_types::{Answer, AnswerAdditional, AnswerAuthority, SharedRr, SharedRrset};

/// A request with id 1234 in hexadecimal digits, RD, and one question, A of `example.` in IN, that ends at octet 25.
const REQUEST: &str = "123401000001000000000000 076578616d706c650000010001";

/// An A record at the root, of 15 octets, and two more.
const ADDRESS: &str = "00000100010000003c0004c0000201";

const OTHERS: &str = "00000100010000003c0004c0000202\n00000100010000003c0004c0000203";

/// SOA, NS, DS and CNAME at the root, of 33, 14, 16 and 14 octets.
const SOA: &str = "00000600010000003c0016000000000007000000010000000100000001\
00000001";

const NS: &str = "00000200010000003c0003016100";

const DS: &str = "00002b00010000003c000500010802aa";

const CNAME: &str = "00000500010000003c0003016100";

/// What answers `REQUEST` with one required and two discardable additional records: in each line the limit in octets, the header, the question, and the
/// records. All are 25 + 45 octets, and those without the discardable ones 25 + 15. TC is 0200 in the flags, AA 0400.
const SENT_OF_THREE: &str = "\
0046 123485000001000000000003 076578616d706c650000010001 00000100010000003c0004c0000201 00000100010000003c0004c0000202 00000100010000003c0004c0000203\n\
0045 123485000001000000000001 076578616d706c650000010001 00000100010000003c0004c0000201\n\
0036 123485000001000000000001 076578616d706c650000010001 00000100010000003c0004c0000201\n\
0028 123485000001000000000001 076578616d706c650000010001 00000100010000003c0004c0000201\n\
0027 123487000001000000000000 076578616d706c650000010001\n\
0019 123487000001000000000000 076578616d706c650000010001\n\
0018 123481000000000000000000\n\
";

/// The same with an address as the answer, 23 octets at `example.`, NS at the root, 14, and a required additional record, 15: the first section that
/// isn't whole and those after it are left out.
const SENT_OF_SECTIONS: &str = "\
004d 123481000001000100010001 076578616d706c650000010001 076578616d706c650000010001 0000003c0004c0000201 00000200010000003c0003016100 00000100010000003c0004c0000201\n\
004c 123483000001000100010000 076578616d706c650000010001 076578616d706c650000010001 0000003c0004c0000201 00000200010000003c0003016100\n\
003e 123483000001000100010000 076578616d706c650000010001 076578616d706c650000010001 0000003c0004c0000201 00000200010000003c0003016100\n\
003d 123483000001000100000000 076578616d706c650000010001 076578616d706c650000010001 0000003c0004c0000201\n\
0030 123483000001000100000000 076578616d706c650000010001 076578616d706c650000010001 0000003c0004c0000201\n\
002f 123483000001000000000000 076578616d706c650000010001\n\
";

/// The same with SOA, NS and DS at the root and the rcode NXDOMAIN.
const SENT_OF_AUTHORITY: &str = "\
0058 123481030001000000030000 076578616d706c650000010001 00000600010000003c001600000000000700000001000000010000000100000001 00000200010000003c0003016100 00002b00010000003c000500010802aa\n\
0057 123483030001000000000000 076578616d706c650000010001\n\
";

/// The same with an alias: its owner is the name asked for.
const SENT_OF_ALIAS: &str = "\
0200 123481000001000100000000 076578616d706c650000010001 076578616d706c6500 000500010000003c0003016100\n\
";

/// The records of these lines.
fn records<R: Abort>(rt: &R, alloc: Global, rows: &str) -> Vec<StoredRecord> {
    let mut out = Vec::new(alloc);
    for row in rows.split('\n') {
        out.push(record(rt, alloc, row)).expect(rt, "memory");
    }
    out
}

/// The set of the record of this line.
fn set<R: Abort>(rt: &R, alloc: Global, row: &str) -> SharedRrset {
    set_of(rt, alloc, record(rt, alloc, row))
}

/// Asserts that the message that says the answer to a request in at most `limit` octets is this.
fn sends_octets<R: Abort>(
    rt: &R,
    alloc: Global,
    answer: &Answer,
    request: &str,
    limit: u16,
    wanted: &str,
) {
    let asked = octets(rt, alloc, request);
    let request = Message::from_octets(asked.as_slice()).expect(rt, "a header");
    let reply = answer
        .to_message(alloc, &request, usize::from(limit))
        .expect(rt, "memory");
    let reply = reply.finish();
    let due = octets(rt, alloc, wanted);
    assert_eq!(rt; reply.as_slice(), due.as_slice(), "{limit} {wanted}");
    drop(due);
    drop(reply);
    drop(asked);
}

/// Asserts that the answer to `REQUEST` is sent as in this line.
fn sends_row<R: Abort>(rt: &R, alloc: Global, answer: &Answer, row: &str) {
    let (limit, wanted) = row.split_once(' ').expect(rt, "a limit");
    let limit = u16::from_str_radix(limit, 16).ok().expect(rt, "a limit");
    sends_octets(rt, alloc, answer, REQUEST, limit, wanted);
}

/// Asserts that the answer to `REQUEST` is sent as in each line.
fn sends<R: Abort>(rt: &R, alloc: Global, answer: Answer, rows: &str) {
    for row in rows.trim_end().split('\n') {
        sends_row(rt, alloc, &answer, row);
    }
    drop(answer);
}

#[test]
fn discardable_records_go_first(rt: HostRuntime) {
    let alloc = rt.alloc();
    let mut additional = AnswerAdditional::new(alloc, records(&rt, alloc, ADDRESS));
    additional.push_discardable(records(&rt, alloc, OTHERS));
    let mut answer = Answer::new(Rcode::NOERROR);
    answer.set_authoritative(true);
    answer.set_additional(additional);
    sends(&rt, alloc, answer, SENT_OF_THREE);
}

#[test]
fn sections_are_left_out_whole(rt: HostRuntime) {
    let alloc = rt.alloc();
    let servers = set(&rt, alloc, NS);
    let root = name(&rt, alloc, b"\0");
    let authority = AnswerAuthority::new(root, None, Some(servers), None);
    let mut answer = Answer::with_authority(Rcode::NOERROR, authority);
    answer.add_answer(set(&rt, alloc, ADDRESS));
    answer.set_additional(AnswerAdditional::new(alloc, records(&rt, alloc, ADDRESS)));
    sends(&rt, alloc, answer, SENT_OF_SECTIONS);
}

#[test]
fn soa_then_ns_then_ds(rt: HostRuntime) {
    let alloc = rt.alloc();
    let soa = SharedRr::from(record(&rt, alloc, SOA));
    let servers = set(&rt, alloc, NS);
    let signer = set(&rt, alloc, DS);
    let root = name(&rt, alloc, b"\0");
    let authority = AnswerAuthority::new(root, Some(soa), Some(servers), Some(signer));
    let answer = Answer::with_authority(Rcode::NXDOMAIN, authority);
    sends(&rt, alloc, answer, SENT_OF_AUTHORITY);
}

#[test]
fn the_owner_is_the_name_asked_for(rt: HostRuntime) {
    let alloc = rt.alloc();
    let mut answer = Answer::new(Rcode::NOERROR);
    answer.add_cname(SharedRr::from(record(&rt, alloc, CNAME)));
    sends(&rt, alloc, answer, SENT_OF_ALIAS);
}

/// Asserts that the reply to a request without one question that can be read is this.
fn refuses<R: Abort>(rt: &R, alloc: Global, request: &str, limit: u16, wanted: &str) {
    let answer = Answer::refused();
    sends_octets(rt, alloc, &answer, request, limit, wanted);
    drop(answer);
}

/// QDCOUNT 0, and 2: NOTIMP, 4, with the questions that are there. Where the second has no room the rcode is SERVFAIL, 2.
#[test]
fn not_one_question(rt: HostRuntime) {
    let alloc = rt.alloc();
    let none = "123401000000000000000000";
    refuses(&rt, alloc, none, 512, "123481040000000000000000");
    let two = "123401000002000000000000 0000010001 0000010001";
    let both = "123481040002000000000000 0000010001 0000010001";
    refuses(&rt, alloc, two, 22, both);
    let one = "123481020001000000000000 0000010001";
    refuses(&rt, alloc, two, 21, one);
}

/// One question, whose name has a label of an unknown kind: FORMERR, 1, without a question.
#[test]
fn a_question_that_cannot_be_read(rt: HostRuntime) {
    let alloc = rt.alloc();
    let unreadable = "123401000001000000000000 4000010001";
    refuses(&rt, alloc, unreadable, 512, "123481010000000000000000");
}
