// Records as dnspython makes them, record data that are damaged, and records in their order.

use crate::common::{data_are_read, digits, is, is_record, octets, read, reads_back};
use dns_name::{Labelled, ParsedName};
use dns_numbers::Rtype;
use dns_rdata::{
    Ds, LongRecordData, ParsedRecord, ParsedRecordData, Txt, UnknownRecordData, ZoneRecordData,
    are_strings, is_known_type,
};
use std::alloc::Global;
use std::cmp::Ordering;
use std::process::Abort;

/// What tools/record_vectors.py prints: in each line a type, its number in hexadecimal digits, and a record of that type.
const RECORDS: &str = "\
A 0001 076578616d706c65000001000100000e100004c0000201\n\
NS 0002 076578616d706c65000002000100000e10000c026e73076578616d706c6500\n\
MD 0003 076578616d706c65000003000100000e10000c026d64076578616d706c6500\n\
MF 0004 076578616d706c65000004000100000e10000c026d66076578616d706c6500\n\
CNAME 0005 076578616d706c65000005000100000e10000f05616c696173076578616d706c6500\n\
SOA 0006 076578616d706c65000006000100000e100034026e73076578616d706c65000a686f73746d6173746572076578616d706c650078c406bd00001c2000000e11001275000000012b\n\
MB 0007 076578616d706c65000007000100000e10000c026d62076578616d706c6500\n\
MG 0008 076578616d706c65000008000100000e10000c026d67076578616d706c6500\n\
MR 0009 076578616d706c65000009000100000e10000c026d72076578616d706c6500\n\
PTR 000c 076578616d706c6500000c000100000e10000e04486f7374076558616d706c6500\n\
MINFO 000e 076578616d706c6500000e000100000e10001f056f776e6572076578616d706c6500066572726f7273076578616d706c6500\n\
MX 000f 076578616d706c6500000f000100000e100010010a046d61696c076578616d706c6500\n\
TXT 0010 076578616d706c65000010000100000e1000130a6f6e6520737472696e6707616e6f74686572\n\
AAAA 001c 076578616d706c6500001c000100000e10001020010db8000000000000000000000001\n\
SRV 0021 076578616d706c65000021000100000e1000160201040314e906736572766572076578616d706c6500\n\
DS 002b 076578616d706c6500002b000100000e100018ec4505012bb183af5f22588179a53b0a98631fad1a292118\n\
TYPE65280 ff00 076578616d706c6500ff00000100000e1000040a00ff01\n\
";

/// The fields of records in `RECORDS`, as the tool has them: in each line a type, then numbers in decimal digits, and octets and names in hexadecimal
/// digits.
const FIELDS: &str = "\
A 192 0 2 1\n\
AAAA 20010db8000000000000000000000001\n\
MX 266 046d61696c076578616d706c6500\n\
MINFO 056f776e6572076578616d706c6500 066572726f7273076578616d706c6500\n\
SOA 026e73076578616d706c6500 0a686f73746d6173746572076578616d706c6500 2026112701 7200 3601 1209600 299\n\
SRV 513 1027 5353 06736572766572076578616d706c6500\n\
DS 60485 5 1 2bb183af5f22588179a53b0a98631fad1a292118\n\
TXT 0a6f6e6520737472696e6707616e6f74686572\n\
";

/// Data: in each line types in hexadecimal digits, the octets, and whether they are read. `n` stands for a name, with which they are whole.
/// Most of those that are read are the shortest of their type.
const DATA: &str = "\
0001 0002 0003 0004 0005 0006 0007 0008 0009 000c 000e 000f 0010 001c 0021 002b::no\n\
0002 0003 0004 0005 0007 0008 0009 000c:n:name\n\
0001:00000000:yes\n\
0002:00:yes\n\
0006:0000:no\n\
0006:00000000000000000000000000000000000000000000:yes\n\
0006:n000000000000000000000000000000000000000000:name\n\
0006:00n0000000000000000000000000000000000000000:name\n\
000e:00:no\n\
000e:0000:yes\n\
000e:n00:name\n\
000e:00n:name\n\
000f:0000:no\n\
000f:000000:yes\n\
000f:0000n:name\n\
0010:01:no\n\
0010:ff:no\n\
0010:000161ff:no\n\
0010:0361:no\n\
0010:00:yes\n\
0010:0000:yes\n\
0010:0100:yes\n\
001c:00000000000000000000000000000000:yes\n\
0021:000000000000:no\n\
0021:00000000000000:yes\n\
0021:000000000000n:name\n\
002b:000000:no\n\
002b:00000000:yes\n\
ff00::yes\n\
";

/// Records in their order: by owner (the names of RFC 4034, 6.1), then by class, by type and by data.
const IN_ORDER: &str = "\
076578616d706c650000020001000000000004026e7300\n\
074558414d504c4500001000010000000000020161\n\
076578616d706c650000100001000000000003024161\n\
076578616d706c650000100001000000000003026161\n\
076578616d706c650000010003000000000004c0000201\n\
0161076578616d706c650000010001000000090004c0000202\n\
08796c6a6b6a6c6a6b0161076578616d706c650000010001000000000004c0000201\n\
015a0161076578616d706c650000010001000000000004c0000201\n\
047a4142430161074558414d504c450000010001000000000004c0000201\n\
017a076578616d706c650000010001000000000004c0000201\n\
0101017a076578616d706c650000010001000000000004c0000201\n\
012a017a076578616d706c650000010001000000000004c0000201\n\
01c8017a076578616d706c650000010001000000000004c0000201\n\
";

/// Sixty-one letters `a`.
const LETTERS: &str =
    "61616161616161616161616161616161616161616161616161616161616161616161616161616161616161616161616161616161616161616161616161";

/// The name `example`.
const OWNER: &str = "076578616d706c6500";

/// Class IN and the TTL 3600.
const CLASS_AND_TTL: &str = "000100000e10";

/// Asserts whether data are read in a message that goes on with `after`, and in a record alone.
fn reads<R: Abort>(
    rt: &R,
    alloc: Global,
    rtype: &str,
    data: &str,
    behind: &str,
    inside: bool,
    alone: bool,
) {
    let len = data.len() / 2;
    let record = format!(in alloc; "{OWNER}{rtype}{CLASS_AND_TTL}{len:04x}{data}");
    let record = record.expect(rt, "memory");
    let whole = octets(rt, alloc, record.as_str());
    let message = format!(in alloc; "{record}{behind}").expect(rt, "memory");
    let longer = octets(rt, alloc, message.as_str());
    let found = [
        data_are_read(rt, longer.as_slice()),
        is_record(whole.as_slice()),
    ];
    assert_eq!(rt; found, [inside, alone], "{message}");
}

/// Asserts that the record in a line of `RECORDS` is read, and written as it was.
fn row_reads_back<R: Abort>(rt: &R, alloc: Global, row: &str) {
    let (word, row) = row.split_once(' ').expect(rt, "a type");
    let (number, record) = row.split_once(' ').expect(rt, "a number");
    let spelled = octets(rt, alloc, record);
    reads_back(rt, alloc, spelled.as_slice());
    let read = read(rt, spelled.as_slice());
    let rtype = read.rtype();
    drop(read);
    let rtype = digits(rt, alloc, rtype.to_int().to_be_bytes().as_slice());
    assert_eq!(rt; rtype.as_str(), number, "{word}");
}

/// Asserts that the data in a line of `RECORDS` are read, and that they are refused with one octet less, and with an octet 1 more; where the type ends
/// with any octets, that they are read so too.
fn fills_rdlength<R: Abort>(rt: &R, alloc: Global, row: &str) {
    let (word, row) = row.split_once(' ').expect(rt, "a type");
    let (number, record) = row.split_once(' ').expect(rt, "a number");
    let spelled = octets(rt, alloc, record);
    let (head, _) = ParsedRecord::parse(spelled.as_slice(), 0).expect(rt, "a head");
    let data = head.rdata_octets();
    let (last, short) = data.split_last().expect(rt, "data");
    let last = digits(rt, alloc, &[*last]);
    let short = digits(rt, alloc, short);
    let data = digits(rt, alloc, data);
    let long = format!(in alloc; "{data}01").expect(rt, "memory");
    let any = word == "DS" || word == "TYPE65280";
    reads(rt, alloc, number, data.as_str(), "00", true, true);
    reads(rt, alloc, number, short.as_str(), last.as_str(), any, any);
    reads(rt, alloc, number, long.as_str(), "00", any, any);
}

/// The name in hexadecimal digits.
fn name_digits<R: Abort, N: Labelled>(rt: &R, alloc: Global, name: &N) -> String {
    digits(rt, alloc, name.to_key_name().as_slice())
}

/// The fields as a line of `FIELDS` has them.
fn fields<R: Abort>(rt: &R, alloc: Global, data: &ParsedRecordData<'_>) -> String {
    let text = match data {
        ZoneRecordData::A(data) => {
            let [a, b, c, d] = data.octets();
            format!(in alloc; "{a} {b} {c} {d}")
        }
        ZoneRecordData::Aaaa(data) => hex::encode(alloc, data.octets()),
        ZoneRecordData::Mx(data) => {
            let preference = data.preference();
            let exchange = name_digits(rt, alloc, data.exchange());
            format!(in alloc; "{preference} {exchange}")
        }
        ZoneRecordData::Minfo(data) => {
            let rmailbx = name_digits(rt, alloc, data.rmailbx());
            let emailbx = name_digits(rt, alloc, data.emailbx());
            format!(in alloc; "{rmailbx} {emailbx}")
        }
        ZoneRecordData::Soa(data) => {
            let mname = name_digits(rt, alloc, data.mname());
            let rname = name_digits(rt, alloc, data.rname());
            let serial = data.serial().into_int();
            let refresh = data.refresh().to_int();
            let retry = data.retry().to_int();
            let expire = data.expire().to_int();
            let minimum = data.minimum().to_int();
            format!(in alloc; "{mname} {rname} {serial} {refresh} {retry} {expire} {minimum}")
        }
        ZoneRecordData::Srv(data) => {
            let priority = data.priority();
            let weight = data.weight();
            let port = data.port();
            let target = name_digits(rt, alloc, data.target());
            format!(in alloc; "{priority} {weight} {port} {target}")
        }
        ZoneRecordData::Ds(data) => {
            let key_tag = data.key_tag();
            let algorithm = data.algorithm();
            let digest_type = data.digest_type();
            let digest = digits(rt, alloc, data.digest());
            format!(in alloc; "{key_tag} {algorithm} {digest_type} {digest}")
        }
        ZoneRecordData::Txt(data) => hex::encode(alloc, data.as_slice()),
        _ => format!(in alloc; "no line"),
    };
    text.expect(rt, "memory")
}

/// The record of that type in `RECORDS`, or nothing.
fn record_of<R: Abort>(rt: &R, alloc: Global, wanted: &str) -> Vec<u8> {
    for row in RECORDS.trim_end().split('\n') {
        let (word, row) = row.split_once(' ').expect(rt, "a type");
        let (_, record) = row.split_once(' ').expect(rt, "a number");
        if word == wanted {
            return octets(rt, alloc, record);
        }
    }
    Vec::new(alloc)
}

/// Asserts what a line of `FIELDS` says.
fn has_fields<R: Abort>(rt: &R, alloc: Global, row: &str) {
    let (word, wanted) = row.split_once(' ').expect(rt, "a type");
    let spelled = record_of(rt, alloc, word);
    let read = read(rt, spelled.as_slice());
    let found = fields(rt, alloc, read.data());
    assert_eq!(rt; found.as_str(), wanted, "{word}");
    drop(read);
}

/// Asserts whether data are read with that name between these octets, in a message and in a record alone.
fn reads_name<R: Abort>(
    rt: &R,
    alloc: Global,
    rtype: &str,
    ends: (&str, &str),
    name: &str,
    inside: bool,
    alone: bool,
) {
    let (front, back) = ends;
    let data = format!(in alloc; "{front}{name}{back}").expect(rt, "memory");
    reads(rt, alloc, rtype, data.as_str(), "00", inside, alone);
}

/// Asserts that a name between these octets is read with 63 octets in a label and 255 in all, and refused with one more.
fn reads_names<R: Abort>(rt: &R, alloc: Global, rtype: &str, ends: (&str, &str)) {
    let label = format!(in alloc; "3f{LETTERS}6161").expect(rt, "memory");
    let name = format!(in alloc; "{label}00").expect(rt, "memory");
    reads_name(rt, alloc, rtype, ends, name.as_str(), true, true);
    let name = format!(in alloc; "40{LETTERS}61616100").expect(rt, "memory");
    reads_name(rt, alloc, rtype, ends, name.as_str(), false, false);
    let name = format!(in alloc; "{label}{label}{label}3d{LETTERS}00").expect(rt, "memory");
    reads_name(rt, alloc, rtype, ends, name.as_str(), true, true);
    let name = format!(in alloc; "{label}{label}{label}3e{LETTERS}6100").expect(rt, "memory");
    reads_name(rt, alloc, rtype, ends, name.as_str(), false, false);
}

/// Asserts that of pointers between these octets the one to the owner is read in a message, and neither the one to itself nor the one to the name
/// after it; and that none is read in a record alone.
fn reads_pointers<R: Abort>(rt: &R, alloc: Global, rtype: &str, ends: (&str, &str)) {
    let (front, back) = ends;
    let here = front.len() / 2 + 19;
    let behind = here + 2;
    reads_name(rt, alloc, rtype, ends, "c000", true, false);
    let to_itself = format!(in alloc; "c0{here:02x}").expect(rt, "memory");
    reads_name(rt, alloc, rtype, ends, to_itself.as_str(), false, false);
    let forward = format!(in alloc; "c0{behind:02x}").expect(rt, "memory");
    reads_name(rt, alloc, rtype, ends, forward.as_str(), false, false);
    let message = format!(in alloc; "{OWNER}{rtype}{CLASS_AND_TTL}0000{front}{forward}{back}00");
    let message = octets(rt, alloc, message.expect(rt, "memory").as_str());
    let is_name = ParsedName::parse(message.as_slice(), behind).is_ok();
    assert!(rt; is_name, "a name behind the pointer: {front}n{back}");
}

/// Asserts whether data of a type are read; `name` where they are with a name in the place of the `n`.
fn reads_data<R: Abort>(rt: &R, alloc: Global, rtype: &str, data: &str, word: &str) {
    match data.split_once('n') {
        Some(ends) => {
            is(rt, word, "name");
            reads_names(rt, alloc, rtype, ends);
            reads_pointers(rt, alloc, rtype, ends);
        }
        None => {
            let wanted = word == "yes";
            assert!(rt; wanted || word == "no", "{rtype} {data}");
            reads(rt, alloc, rtype, data, "00", wanted, wanted);
        }
    }
}

/// Asserts what a line of `DATA` says.
fn reads_row<R: Abort>(rt: &R, alloc: Global, row: &str) {
    let (types, row) = row.split_once(':').expect(rt, "types");
    let (data, word) = row.split_once(':').expect(rt, "data");
    for rtype in types.split(' ') {
        reads_data(rt, alloc, rtype, data, word);
    }
}

/// Asserts how two records compare.
fn compares<R: Abort>(rt: &R, alloc: Global, first: &str, second: &str, wanted: Ordering) {
    let octets_of_first = octets(rt, alloc, first);
    let octets_of_second = octets(rt, alloc, second);
    let a = read(rt, octets_of_first.as_slice());
    let b = read(rt, octets_of_second.as_slice());
    let truths = [a.cmp(&b) == wanted, (a == b) == (wanted == Ordering::Equal)];
    drop(a);
    drop(b);
    assert_eq!(rt; truths, [true; 2], "{first} {second}");
}

/// Asserts whether data of so many octets are refused: empty strings of a text, octets of an unknown type, and a digest after four octets.
fn are_refused<R: Abort>(rt: &R, alloc: Global, len: usize, refusal: Option<LongRecordData>) {
    let octets = vec![in alloc; 0; len].expect(rt, "memory");
    let octets = octets.as_slice();
    let strings = are_strings(octets);
    assert!(rt; strings);
    let text = Txt::new(octets);
    is(rt, text.err(), refusal);
    let rtype = Rtype::from_int(65280);
    let known = is_known_type(rtype);
    assert!(rt; !known);
    let unknown = UnknownRecordData::new(rtype, octets);
    is(rt, unknown.err(), refusal);
    let digest = octets.get(4..).expect(rt, "four octets");
    let signer = Ds::new(1, 2, 3, digest);
    is(rt, signer.err(), refusal);
}

#[test]
fn records_are_read_back(rt: HostRuntime) {
    for row in RECORDS.trim_end().split('\n') {
        row_reads_back(&rt, rt.alloc(), row);
        fills_rdlength(&rt, rt.alloc(), row);
    }
}

#[test]
fn fields_of_records(rt: HostRuntime) {
    for row in FIELDS.trim_end().split('\n') {
        has_fields(&rt, rt.alloc(), row);
    }
}

#[test]
fn data_that_are_taken_or_refused(rt: HostRuntime) {
    for row in DATA.trim_end().split('\n') {
        reads_row(&rt, rt.alloc(), row);
    }
}

#[test]
fn records_are_ordered(rt: HostRuntime) {
    for (i, first) in IN_ORDER.trim_end().split('\n').enumerate() {
        for (j, second) in IN_ORDER.trim_end().split('\n').enumerate() {
            compares(&rt, rt.alloc(), first, second, i.cmp(&j));
        }
    }
}

#[test]
fn data_have_at_most_65535_octets(rt: HostRuntime) {
    are_refused(&rt, rt.alloc(), 65535, None);
    are_refused(&rt, rt.alloc(), 65536, Some(LongRecordData));
}
