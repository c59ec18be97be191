// Texts that are built, their strings, and what data and errors print.

use crate::common::{is, prints};
use dns_numbers::Rtype;
use dns_rdata::{Ds, LongRecordData, RecordData, Txt, TxtAppendError, UnknownRecordData};

#[test]
fn text_of_300_octets_has_two_strings(rt: HostRuntime) {
    let data = Txt::build_from_slice(rt.alloc(), &[7; 300]).expect(&rt, "memory");
    let mut strings = data.iter_charstrs();
    let first = strings.next().expect(&rt, "first string");
    let second = strings.next().expect(&rt, "second string");
    let end = strings.next().is_none();
    let found = (data.rdlen(), first.len(), second.len(), end);
    is(&rt, found, (302, 255, 45, true));
    drop(data);
}

#[test]
fn strings_are_taken_in_order(rt: HostRuntime) {
    let data = Txt::new(b"\x02hi\x00\x03all".as_slice()).expect(&rt, "short");
    let mut joined = Vec::new(rt.alloc());
    for string in data.iter_charstrs() {
        joined.extend_from_slice(string).expect(&rt, "memory");
        joined.push(b'/').expect(&rt, "memory");
    }
    is(&rt, joined.as_slice(), b"hi//all/".as_slice());
    drop(data);
}

#[test]
fn long_text_is_refused(rt: HostRuntime) {
    let error = Txt::build_from_slice(rt.alloc(), &[7; 65280]).err();
    is(&rt, error, Some(TxtAppendError::LongRecordData));
}

#[test]
fn data_print(rt: HostRuntime) {
    let text = Txt::new(b"\x02hi".as_slice()).expect(&rt, "short");
    let digest = Ds::new(1, 2, 3, b"d".as_slice()).expect(&rt, "short");
    let unknown = UnknownRecordData::new(Rtype::from_int(731), b"x".as_slice()).expect(
        &rt, "short",
    );
    let printed = format!(in rt.alloc(); "{text:?} {digest:?} {unknown:?}").expect(&rt, "memory");
    is(
        &rt,
        printed.as_str(),
        "Txt { octets: [2, 104, 105] } Ds { key_tag: 1, algorithm: 2, digest_type: 3, digest: [100] } UnknownRecordData { rtype: Rtype { value: 731 }, octets: [120] }",
    );
    drop(unknown);
    drop(digest);
    drop(text);
}

#[test]
fn errors_print(rt: HostRuntime) {
    prints(&rt, rt.alloc(), &LongRecordData, "record data too long");
    let long = TxtAppendError::LongRecordData;
    prints(&rt, rt.alloc(), &long, "record data too long");
    let memory = TxtAppendError::Memory;
    prints(&rt, rt.alloc(), &memory, "out of memory");
}
