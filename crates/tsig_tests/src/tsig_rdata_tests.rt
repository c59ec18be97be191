// TSIG data: text, equality, order, hash, memory of their own.
use crate::common::{is, name, says};
use dns_name::KeyName;
use std::cmp::Ordering;
use std::hash::{DefaultHasher, Hash, Hasher};
use std::process::Abort;
use tsig_port::{Time48, Tsig};

/// Fudge, original id and error of a request.
const REQUEST: [u16; 3] = [300, 7, 0];

/// Data by the algorithm of that wire form; the numbers are fudge, original id and error.
fn tsig<R: Abort>(
    rt: &R,
    algorithm: &[u8],
    time_signed: Time48,
    numbers: [u16; 3],
    mac: &'static [u8],
    other: &'static [u8],
) -> Tsig<&'static [u8], KeyName> {
    let name = name(rt, algorithm);
    let [fudge, original_id, error] = numbers;
    Tsig::new(name, time_signed, fudge, mac, original_id, error, other).expect(rt, "short data")
}

/// The hash of the data.
fn hash_of(tsig: &Tsig<&'static [u8], KeyName>) -> u64 {
    let mut state = DefaultHasher::new();
    tsig.hash(&mut state);
    state.finish()
}

/// Whether the first is lower, with another hash.
fn is_before(a: &Tsig<&'static [u8], KeyName>, b: &Tsig<&'static [u8], KeyName>) -> bool {
    a != b && a.cmp(b) == Ordering::Less && hash_of(a) != hash_of(b)
}

#[test]
fn text_of_data(rt: HostRuntime) {
    let alloc = rt.alloc();
    let time = Time48::from_u64(1000);
    let data = tsig(&rt, b"\x0bhmac-sha256\0", time, REQUEST, &[0, 1, 2], &[]);
    says(
        &rt,
        alloc,
        &data,
        "hmac-sha256. 1000 300 AAEC 7 NOERROR \"\"",
    );
    let data = tsig(&rt, b"\0", time, REQUEST, &[0], &[0, 0, 0, 0, 3, 0xe8]);
    says(&rt, alloc, &data, ". 1000 300 AA== 7 NOERROR \"AAAAAAPo\"");
    is(&rt, data.other_time(), Some(time));
}

#[test]
fn case_of_the_algorithm(rt: HostRuntime) {
    let time = Time48::from_u64(1000);
    let data = tsig(&rt, b"\x09hmac-sha1\0", time, REQUEST, &[1], &[2]);
    let upper = tsig(&rt, b"\x09HMAC-SHA1\0", time, REQUEST, &[1], &[2]);
    let same = data == upper;
    assert!(rt; same);
    let order = data.cmp(&upper);
    is(&rt, order, Ordering::Equal);
    let hash = hash_of(&data);
    let other = hash_of(&upper);
    is(&rt, hash, other);
    let canonical = data.canonical_cmp(&upper);
    is(&rt, canonical, Ordering::Greater);
    let itself = data.canonical_cmp(&data);
    is(&rt, itself, Ordering::Equal);
}

#[test]
fn octets_of_a_moment(rt: HostRuntime) {
    let mut octets = Vec::new(rt.alloc());
    let composed = Time48::from_u64(0x0102_0304_0506).compose(&mut octets);
    composed.expect(&rt, "memory");
    is(&rt, octets.as_slice(), [1, 2, 3, 4, 5, 6].as_slice());
    drop(octets);
}

/// The second, once it is asserted that the first is lower, with another hash.
fn higher<R: Abort>(
    rt: &R,
    low: Tsig<&'static [u8], KeyName>,
    high: Tsig<&'static [u8], KeyName>,
) -> Tsig<&'static [u8], KeyName> {
    let in_order = is_before(&low, &high);
    assert!(rt; in_order);
    high
}

#[test]
fn each_field_counts(rt: HostRuntime) {
    let time = Time48::from_u64(1000);
    let before = Time48::from_u64(0);
    let after = Time48::from_u64(1001);
    let sha1 = b"\x09hmac-sha1\0";
    let data = tsig(&rt, sha1, time, REQUEST, &[1], &[2]);
    let data = higher(&rt, data, tsig(&rt, sha1, time, REQUEST, &[1], &[2, 0]));
    let data = higher(&rt, data, tsig(&rt, sha1, time, [300, 7, 1], &[1], &[]));
    let data = higher(&rt, data, tsig(&rt, sha1, time, [300, 8, 0], &[1], &[]));
    let data = higher(&rt, data, tsig(&rt, sha1, time, REQUEST, &[2], &[]));
    let data = higher(&rt, data, tsig(&rt, sha1, time, [301, 0, 0], &[0], &[]));
    let data = higher(&rt, data, tsig(&rt, sha1, after, REQUEST, &[0], &[]));
    let stronger = tsig(&rt, b"\x0bhmac-sha256\0", before, REQUEST, &[0], &[]);
    let data = higher(&rt, data, stronger);
    drop(data);
}

#[test]
fn flattened_data(rt: HostRuntime) {
    let alloc = rt.alloc();
    let data = tsig(
        &rt,
        b"\x09hmac-sha1\0",
        Time48::from_u64(1000),
        REQUEST,
        &[1],
        &[2],
    );
    let stored = data.flatten(alloc).expect(&rt, "memory");
    let same = stored.data_eq(&data);
    assert!(rt; same);
    let order = stored.data_cmp(&data);
    is(&rt, order, Ordering::Equal);
    let len = stored.rdlen();
    is(&rt, len, 29);
    let mac = stored.into_mac();
    is(&rt, mac.as_slice(), [1].as_slice());
    drop(mac);
}
