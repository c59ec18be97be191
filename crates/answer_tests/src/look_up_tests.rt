// Answers of the zone of RFC 4592 and of a referral with glue.

use crate::common::{is, name, octets, record};
use dns_name::Labelled;
use dns_numbers::{Class, Rtype};
use dns_rdata::ComposeRecord;
use dns_wire::{Message, MessageBuf};
use std::alloc::Global;
use std::process::Abort;
use std::sync::Wait;
use zone_store::{ReadZone, ZoneBuilder, look_up};
use zone_types::{AnswerRecords, OutOfZone};

/// The zone of RFC 4592, section 2.2.1, a record a line, with SOA data `ns.example.com. host.example. 1 2 3 4 5`, SRV data `0 0 22` and the
/// owner's host, and TXT data "this is a wildcard" and "this is not a wildcard".
const WILDCARDS: &str = "\
076578616d706c65000006000100000e100032026e73076578616d706c6503636f6d0004686f7374076578616d706c65000000000100000002000000030000000400000005\n\
076578616d706c65000002000100000e100010026e73076578616d706c6503636f6d00\n\
076578616d706c65000002000100000e100010026e73076578616d706c65036e657400\n\
012a076578616d706c65000010000100000e100013127468697320697320612077696c6463617264\n\
012a076578616d706c6500000f000100000e100011000a05686f737431076578616d706c6500\n\
03737562012a076578616d706c65000010000100000e1000171674686973206973206e6f7420612077696c6463617264\n\
05686f737431076578616d706c65000001000100000e100004c0000201\n\
045f737368045f74637005686f737431076578616d706c65000021000100000e10001500000000001605686f737431076578616d706c6500\n\
045f737368045f74637005686f737432076578616d706c65000021000100000e10001500000000001605686f737432076578616d706c6500\n\
0673756264656c076578616d706c65000002000100000e100010026e73076578616d706c6503636f6d00\n\
0673756264656c076578616d706c65000002000100000e100010026e73076578616d706c65036e657400\n\
";

/// Questions to it: in each line a name, a type, and what is answered: the rcode, the AA bit, and the records of the answer, authority and additional
/// sections, the number of each section's records after them. The first eight are those of RFC 4592, 2.2.1: MX and A of host3, TXT of foo.bar, MX of
/// host1 and of sub.*, SRV of _telnet._tcp.host1, A of host.subdel, MX of ghost.*. Then follow A of _tcp.host2, which has no record and a name below
/// it, A of a._tcp.host2, and MX of HOST3 in the zone Example.
const OF_WILDCARDS: &str = "\
05686f737433076578616d706c6500 000f 000105686f737433076578616d706c6500000f000100000e100011000a05686f737431076578616d706c6500010000\n\
05686f737433076578616d706c6500 0001 000100076578616d706c65000006000100000e100032026e73076578616d706c6503636f6d0004686f7374076578616d706c650000000001000000020000000300000004000000050100\n\
03666f6f03626172076578616d706c6500 0010 000103666f6f03626172076578616d706c65000010000100000e100013127468697320697320612077696c6463617264010000\n\
05686f737431076578616d706c6500 000f 000100076578616d706c65000006000100000e100032026e73076578616d706c6503636f6d0004686f7374076578616d706c650000000001000000020000000300000004000000050100\n\
03737562012a076578616d706c6500 000f 000100076578616d706c65000006000100000e100032026e73076578616d706c6503636f6d0004686f7374076578616d706c650000000001000000020000000300000004000000050100\n\
075f74656c6e6574045f74637005686f737431076578616d706c6500 0021 030100076578616d706c65000006000100000e100032026e73076578616d706c6503636f6d0004686f7374076578616d706c650000000001000000020000000300000004000000050100\n\
04686f73740673756264656c076578616d706c6500 0001 0000000673756264656c076578616d706c65000002000100000e100010026e73076578616d706c6503636f6d000673756264656c076578616d706c65000002000100000e100010026e73076578616d706c65036e6574000200\n\
0567686f7374012a076578616d706c6500 000f 030100076578616d706c65000006000100000e100032026e73076578616d706c6503636f6d0004686f7374076578616d706c650000000001000000020000000300000004000000050100\n\
045f74637005686f737432076578616d706c6500 0001 000100076578616d706c65000006000100000e100032026e73076578616d706c6503636f6d0004686f7374076578616d706c650000000001000000020000000300000004000000050100\n\
0161045f74637005686f737432076578616d706c6500 0001 030100076578616d706c65000006000100000e100032026e73076578616d706c6503636f6d0004686f7374076578616d706c650000000001000000020000000300000004000000050100\n\
05484f535433074578616d706c6500 000f 000105484f535433074578616d706c6500000f000100000e100011000a05686f737431076578616d706c6500010000\n\
";

/// A zone with the apex `Example.` and A there, and a cut at sub with NS `NS.sub.Example.`, `ns.other.`, `EXAMPLE.`, and DS. In it ns.sub has an AAAA
/// and two A records.
const CUT: &str = "\
074578616d706c65000006000100000e100032026e73076578616d706c6503636f6d0004686f7374076578616d706c65000000000100000002000000030000000400000005\n\
074578616d706c65000001000100000e100004c0000209\n\
03537562076578616d706c65000002000100000e100010024e5303737562074578616d706c6500\n\
03737562076578616d706c65000002000100000e10000a026e73056f7468657200\n\
03737562076578616d706c65000002000100000e100009074558414d504c4500\n\
03737562076578616d706c6500002b000100000e10001812340801aaaaaaaaaaaaaaaaaaaaaaaaaaaaaaaaaaaaaaaa\n\
026e7303737562076578616d706c6500001c000100000e10001020010db8000000000000000000000002\n\
024e7303737562076578616d706c65000001000100000e100004c0000202\n\
026e7303737562076578616d706c65000001000100000e100004c0000203\n\
";

/// Questions to it, as above: A of www.SUB, DS of SUB and of ns.sub, A and MX of eXample.
const OF_CUT: &str = "\
0377777703535542076578616d706c6500 0001 00000003737562076578616d706c65000002000100000e100010024e5303737562074578616d706c650003737562076578616d706c65000002000100000e10000a026e73056f746865720003737562076578616d706c65000002000100000e100009074558414d504c450003737562076578616d706c6500002b000100000e10001812340801aaaaaaaaaaaaaaaaaaaaaaaaaaaaaaaaaaaaaaaa04026e7303737562076578616d706c65000001000100000e100004c0000202026e7303737562076578616d706c65000001000100000e100004c0000203026e7303737562076578616d706c6500001c000100000e10001020010db8000000000000000000000002074578616d706c65000001000100000e100004c000020904\n\
03535542076578616d706c6500 002b 000103535542076578616d706c6500002b000100000e10001812340801aaaaaaaaaaaaaaaaaaaaaaaaaaaaaaaaaaaaaaaa010000\n\
026e7303737562076578616d706c6500 002b 00000003737562076578616d706c65000002000100000e100010024e5303737562074578616d706c650003737562076578616d706c65000002000100000e10000a026e73056f746865720003737562076578616d706c65000002000100000e100009074558414d504c450003737562076578616d706c6500002b000100000e10001812340801aaaaaaaaaaaaaaaaaaaaaaaaaaaaaaaaaaaaaaaa04026e7303737562076578616d706c65000001000100000e100004c0000202026e7303737562076578616d706c65000001000100000e100004c0000203026e7303737562076578616d706c6500001c000100000e10001020010db8000000000000000000000002074578616d706c65000001000100000e100004c000020904\n\
076558616d706c6500 0001 0001076558616d706c65000001000100000e100004c0000209010000\n\
076558616d706c6500 000f 000100074578616d706c65000006000100000e100032026e73076578616d706c6503636f6d0004686f7374076578616d706c650000000001000000020000000300000004000000050100\n\
";

/// Requests to the zone of `CUT` and the messages that answer them: in each line the limit in octets, the request, and the reply. A of www.SUB, with
/// and without room for the glue, DS of SUB, and MX of eXample.
const SENT_OF_CUT: &str = "\
0200 1234010000010000000000000377777703535542076578616d706c650000010001 1234810000010000000400040377777703535542076578616d706c65000001000103737562076578616d706c65000002000100000e100010024e5303737562074578616d706c650003737562076578616d706c65000002000100000e10000a026e73056f746865720003737562076578616d706c65000002000100000e100009074558414d504c450003737562076578616d706c6500002b000100000e10001812340801aaaaaaaaaaaaaaaaaaaaaaaaaaaaaaaaaaaaaaaa026e7303737562076578616d706c65000001000100000e100004c0000202026e7303737562076578616d706c65000001000100000e100004c0000203026e7303737562076578616d706c6500001c000100000e10001020010db8000000000000000000000002074578616d706c65000001000100000e100004c0000209\n\
0134 1234010000010000000000000377777703535542076578616d706c650000010001 1234830000010000000400000377777703535542076578616d706c65000001000103737562076578616d706c65000002000100000e100010024e5303737562074578616d706c650003737562076578616d706c65000002000100000e10000a026e73056f746865720003737562076578616d706c65000002000100000e100009074558414d504c450003737562076578616d706c6500002b000100000e10001812340801aaaaaaaaaaaaaaaaaaaaaaaaaaaaaaaaaaaaaaaa\n\
0200 12340100000100000000000003535542076578616d706c6500002b0001 12348500000100010000000003535542076578616d706c6500002b000103535542076578616d706c6500002b000100000e10001812340801aaaaaaaaaaaaaaaaaaaaaaaaaaaaaaaaaaaaaaaa\n\
0200 123401000001000000000000076558616d706c6500000f0001 123485000001000000010000076558616d706c6500000f0001074578616d706c65000006000100000e100032026e73076578616d706c6503636f6d0004686f7374076578616d706c65000000000100000002000000030000000400000005\n\
";

/// A zone with the apex `example.` and the alias www, whose CNAME is `Host.other.`.
const ALIAS: &str = "\
076578616d706c65000006000100000e100032026e73076578616d706c6503636f6d0004686f7374076578616d706c65000000000100000002000000030000000400000005\n\
03777777076578616d706c65000005000100000e10000c04486f7374056f7468657200\n\
";

/// Requests to it, as above: MX of WWW, and A of ftp, which doesn't exist.
const SENT_OF_ALIAS: &str = "\
0200 12340100000100000000000003575757076578616d706c6500000f0001 12348500000100010000000003575757076578616d706c6500000f000103575757076578616d706c65000005000100000e10000c04486f7374056f7468657200\n\
0200 12340100000100000000000003667470076578616d706c650000010001 12348503000100000001000003667470076578616d706c650000010001076578616d706c65000006000100000e100032026e73076578616d706c6503636f6d0004686f7374076578616d706c65000000000100000002000000030000000400000005\n\
";

/// A of `c.` and of `a.b.c.`.
const SPARSE: &str = "\
0163000001000100000e100004c0000201\n\
016101620163000001000100000e100004c0000202\n\
";

/// The zone of these lines.
fn opened<R: Abort + Wait>(rt: &R, alloc: Global, apex: &[u8], rows: &str) -> ReadZone {
    let apex = name(rt, alloc, apex);
    let mut builder = ZoneBuilder::new(alloc, apex, Class::IN);
    for row in rows.trim_end().split('\n') {
        let record = record(rt, alloc, row);
        builder.insert(record).expect(rt, "a record of the zone");
    }
    let zone = builder.build().expect(rt, "memory");
    let read = zone.read(rt).expect(rt, "memory");
    zone.close(rt);
    read
}

/// Adds the records of a section, and how many they are.
fn push_section<R: Abort>(rt: &R, out: &mut Vec<u8>, section: AnswerRecords<'_>) {
    let mut number = 0_u8;
    for record in section {
        record.compose_record(out).expect(rt, "memory");
        number = number.saturating_add(1);
        drop(record);
    }
    out.push(number).expect(rt, "memory");
}

/// An answer in octets, as in `OF_WILDCARDS`.
fn answered<R: Abort>(
    rt: &R,
    alloc: Global,
    zone: &ReadZone,
    qname: &[u8],
    qtype: Rtype,
) -> Vec<u8> {
    let qname = name(rt, alloc, qname);
    let answer = look_up(zone, &qname, qtype).expect(rt, "a name of the zone");
    let mut out = Vec::new(alloc);
    out.push(answer.rcode().to_int()).expect(rt, "memory");
    out.push(u8::from(answer.authoritative()))
        .expect(rt, "memory");
    push_section(rt, &mut out, answer.answer(&qname));
    push_section(rt, &mut out, answer.authority());
    push_section(rt, &mut out, answer.glue());
    drop(answer);
    drop(qname);
    out
}

/// Asserts that the question of a line has its answer.
fn answers_row<R: Abort>(rt: &R, alloc: Global, zone: &ReadZone, row: &str) {
    let (qname, rest) = row.split_once(' ').expect(rt, "a name");
    let (qtype, wanted) = rest.split_once(' ').expect(rt, "a type");
    let qname = octets(rt, alloc, qname);
    let qtype = u16::from_str_radix(qtype, 16).ok().expect(rt, "a type");
    let found = answered(rt, alloc, zone, qname.as_slice(), Rtype::from_int(qtype));
    let wanted = octets(rt, alloc, wanted);
    assert_eq!(rt; found.as_slice(), wanted.as_slice(), "{row}");
    drop(wanted);
    drop(found);
    drop(qname);
}

/// Asserts that each question has its answer.
fn answers<R: Abort>(rt: &R, alloc: Global, zone: &ReadZone, rows: &str) {
    for row in rows.trim_end().split('\n') {
        answers_row(rt, alloc, zone, row);
    }
}

#[test]
fn answers_from_wildcards(rt: HostRuntime) {
    let alloc = rt.alloc();
    let zone = opened(&rt, alloc, b"\x07example\0", WILDCARDS);
    answers(&rt, alloc, &zone, OF_WILDCARDS);
    drop(zone);
}

#[test]
fn refers_with_glue(rt: HostRuntime) {
    let alloc = rt.alloc();
    let zone = opened(&rt, alloc, b"\x07Example\0", CUT);
    answers(&rt, alloc, &zone, OF_CUT);
    let outside = name(&rt, alloc, b"\x08nexample\0");
    let refused = look_up(&zone, &outside, Rtype::A).err();
    is(&rt, refused, Some(OutOfZone));
    drop(outside);
    drop(zone);
}

/// What a zone replies to a request in at most `limit` octets.
fn replied<R: Abort>(
    rt: &R,
    alloc: Global,
    zone: &ReadZone,
    request: &[u8],
    limit: u16,
) -> MessageBuf {
    let request = Message::from_octets(request).expect(rt, "a header");
    let question = request.sole_question().expect(rt, "a question");
    let qname = question.qname().to_stored(alloc).expect(rt, "memory");
    let found = look_up(zone, &qname, question.qtype()).expect(rt, "a name of the zone");
    let answer = found.to_answer(alloc).expect(rt, "memory");
    drop(found);
    drop(qname);
    let reply = answer
        .to_message(alloc, &request, usize::from(limit))
        .expect(rt, "memory");
    drop(answer);
    reply.finish()
}

/// Asserts that the request of a line has its reply.
fn sends_row<R: Abort>(rt: &R, alloc: Global, zone: &ReadZone, row: &str) {
    let (limit, rest) = row.split_once(' ').expect(rt, "a limit");
    let (request, wanted) = rest.split_once(' ').expect(rt, "a request");
    let limit = u16::from_str_radix(limit, 16).ok().expect(rt, "a limit");
    let request = octets(rt, alloc, request);
    let reply = replied(rt, alloc, zone, request.as_slice(), limit);
    let wanted = octets(rt, alloc, wanted);
    assert_eq!(rt; reply.as_slice(), wanted.as_slice(), "{row}");
    drop(wanted);
    drop(reply);
    drop(request);
}

/// Asserts that each request has its reply.
fn sends<R: Abort>(rt: &R, alloc: Global, zone: ReadZone, rows: &str) {
    for row in rows.trim_end().split('\n') {
        sends_row(rt, alloc, &zone, row);
    }
    drop(zone);
}

#[test]
fn referrals_are_sent_with_glue(rt: HostRuntime) {
    let alloc = rt.alloc();
    let zone = opened(&rt, alloc, b"\x07Example\0", CUT);
    sends(&rt, alloc, zone, SENT_OF_CUT);
}

#[test]
fn aliases_and_name_errors_are_sent(rt: HostRuntime) {
    let alloc = rt.alloc();
    let zone = opened(&rt, alloc, b"\x07example\0", ALIAS);
    sends(&rt, alloc, zone, SENT_OF_ALIAS);
}

#[test]
fn walks_past_names_without_records(rt: HostRuntime) {
    let alloc = rt.alloc();
    let zone = opened(&rt, alloc, b"\x01c\0", SPARSE);
    let mut owners = Vec::new(alloc);
    for stop in zone.iter_rrsets() {
        stop.owner().compose(&mut owners).expect(&rt, "memory");
        drop(stop);
    }
    let wanted = b"\x01c\0\x01a\x01b\x01c\0";
    is(&rt, owners.as_slice(), wanted.as_slice());
    drop(owners);
    drop(zone);
}
