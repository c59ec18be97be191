// Algorithms, keys made of a source, stores, and texts of errors.
use crate::common::{is, is_at, key, name, says};
use dns_name::KeyName;
use rand_core::SeedableRng;
use rand_pcg::Pcg32;
use std::alloc::Global;
use std::collections::HashMap;
use std::process::Abort;
use std::str::FromStr;
use std::sync::Arc;
use tsig_port::{
    Algorithm, AlgorithmError, FromRng, GenerateKeyError, Key, KeySource, KeyStore, Mac,
    MemoryKeySource, NewKeyError,
};

/// The octets from 0 on, so many of them.
fn counted<R: Abort>(rt: &R, alloc: Global, len: u8) -> Vec<u8> {
    let mut octets = Vec::new(alloc);
    for octet in 0..len {
        octets.push(octet).expect(rt, "memory");
    }
    octets
}

/// A source of octets from 0 on, so many of them, none of whose calls is to fail.
fn source<R: Abort>(rt: &R, alloc: Global, len: u8) -> MemoryKeySource {
    MemoryKeySource::new(counted(rt, alloc, len), Vec::new(alloc))
}

/// The refusal of lengths of a key of that algorithm, if there is one.
fn refusal<R: Abort>(
    rt: &R,
    algorithm: Algorithm,
    min_mac_len: Option<usize>,
    signing_len: Option<usize>,
) -> Option<NewKeyError> {
    let root = name(rt, b"\0");
    Key::new(algorithm, &[0], root, min_mac_len, signing_len).err()
}

/// The key under a name of these octets that is made of the next octets of the source, and the latter.
fn made<R: Abort, S: KeySource>(
    rt: &R,
    alloc: Global,
    algorithm: Algorithm,
    wire: &[u8],
    source: &mut S,
) -> (Key, Vec<u8>) {
    let made = Key::generate(alloc, algorithm, name(rt, wire), None, None, source);
    made.expect(rt, "a key")
}

/// Asserts that the octets are those from 0 on, so many of them.
fn are_counted<R: Abort>(rt: &R, alloc: Global, octets: &[u8], len: u8) {
    let wanted = counted(rt, alloc, len);
    is(rt, octets, wanted.as_slice());
    drop(wanted);
}

/// Asserts that the octets of the key that is made next are those from 0 on, so many of them.
fn makes<R: Abort>(
    rt: &R,
    alloc: Global,
    algorithm: Algorithm,
    source: &mut MemoryKeySource,
    len: u8,
) {
    let (_, octets) = made(rt, alloc, algorithm, b"\0", source);
    are_counted(rt, alloc, octets.as_slice(), len);
    drop(octets);
}

/// Why no key of these lengths is made of the source.
fn not_made<R: Abort>(
    rt: &R,
    alloc: Global,
    algorithm: Algorithm,
    min_mac_len: Option<usize>,
    signing_len: Option<usize>,
    source: &mut MemoryKeySource,
) -> Option<GenerateKeyError> {
    let root = name(rt, b"\0");
    let made = Key::generate(alloc, algorithm, root, min_mac_len, signing_len, source);
    made.err()
}

/// Asserts whether a MAC by a key of that algorithm may have so many octets, as the least length that is taken and as the one that is sent.
fn may_have<R: Abort>(rt: &R, algorithm: Algorithm, len: usize, wanted: bool) {
    let least = refusal(rt, algorithm, Some(len), None);
    is(rt, least.is_none(), wanted);
    let sent = refusal(rt, algorithm, None, Some(len));
    is(rt, sent.is_none(), wanted);
}

#[test]
fn lengths(rt: HostRuntime) {
    may_have(&rt, Algorithm::Sha1, 9, false);
    may_have(&rt, Algorithm::Sha1, 10, true);
    may_have(&rt, Algorithm::Sha1, 20, true);
    may_have(&rt, Algorithm::Sha1, 21, false);
    may_have(&rt, Algorithm::Sha256, 15, false);
    may_have(&rt, Algorithm::Sha256, 16, true);
    may_have(&rt, Algorithm::Sha256, 32, true);
    may_have(&rt, Algorithm::Sha256, 33, false);
    let both = refusal(&rt, Algorithm::Sha256, Some(15), Some(15));
    is(&rt, both, Some(NewKeyError::BadMinMacLen));
    let sent = refusal(&rt, Algorithm::Sha256, Some(16), Some(15));
    is(&rt, sent, Some(NewKeyError::BadSigningLen));
}

/// Asserts that the text names that algorithm, or none.
fn reads<R: Abort>(rt: &R, text: &str, wanted: Result<Algorithm, AlgorithmError>) {
    let read = Algorithm::from_str(text);
    is_at(rt, read, wanted, &text);
}

#[test]
fn texts_of_algorithms(rt: HostRuntime) {
    reads(&rt, "hmac-sha1", Ok(Algorithm::Sha1));
    reads(&rt, "hmac-sha256", Ok(Algorithm::Sha256));
    reads(&rt, "hmac-sha384", Ok(Algorithm::Sha384));
    reads(&rt, "hmac-sha512", Ok(Algorithm::Sha512));
    reads(&rt, "HMAC-SHA256", Err(AlgorithmError));
    reads(&rt, "hmac-sha256.", Err(AlgorithmError));
    reads(&rt, "hmac-sha25", Err(AlgorithmError));
    reads(&rt, "hmac-sha224", Err(AlgorithmError));
    reads(&rt, "", Err(AlgorithmError));
    says(&rt, rt.alloc(), &Algorithm::Sha384, "hmac-sha384");
}

/// The MAC of some data by the key.
fn mac_by(key: &Key) -> Mac {
    let mut mac = key.hmac();
    mac.update(b"text");
    mac.finish()
}

/// Asserts that the key is that of these octets.
fn is_key_of<R: Abort>(rt: &R, key: &Key, octets: &[u8]) {
    let root = name(rt, b"\0");
    let same = Key::new(Algorithm::Sha256, octets, root, None, None);
    let same = same.expect(rt, "a key");
    let mac = mac_by(key);
    let wanted = mac_by(&same);
    is(rt, mac.as_slice(), wanted.as_slice());
}

#[test]
fn keys_of_a_source(rt: HostRuntime) {
    let alloc = rt.alloc();
    let mut source = source(&rt, alloc, 70);
    let (key, octets) = made(&rt, alloc, Algorithm::Sha256, b"\x05first\0", &mut source);
    are_counted(&rt, alloc, octets.as_slice(), 32);
    is_key_of(&rt, &key, octets.as_slice());
    drop(octets);
    let (_, octets) = made(&rt, alloc, Algorithm::Sha256, b"\x06second\0", &mut source);
    is(&rt, octets.len(), 32);
    is(&rt, octets.first(), Some(&32));
    drop(octets);
    drop(source);
}

#[test]
fn failing_sources(rt: HostRuntime) {
    let alloc = rt.alloc();
    let mut short = source(&rt, alloc, 31);
    let refused = not_made(&rt, alloc, Algorithm::Sha256, None, None, &mut short);
    is(&rt, refused, Some(GenerateKeyError::GenerationFailed));
    makes(&rt, alloc, Algorithm::Sha1, &mut short, 20);
    drop(short);
    let mut none = source(&rt, alloc, 0);
    let refused = not_made(&rt, alloc, Algorithm::Sha1, Some(9), Some(9), &mut none);
    is(&rt, refused, Some(GenerateKeyError::BadMinMacLen));
    let refused = not_made(&rt, alloc, Algorithm::Sha1, None, Some(21), &mut none);
    is(&rt, refused, Some(GenerateKeyError::BadSigningLen));
    drop(none);
}

#[test]
fn failing_calls(rt: HostRuntime) {
    let alloc = rt.alloc();
    let mut failing = Vec::new(alloc);
    failing.push(1).expect(&rt, "memory");
    let mut source = MemoryKeySource::new(counted(&rt, alloc, 64), failing);
    let refused = not_made(&rt, alloc, Algorithm::Sha256, None, None, &mut source);
    is(&rt, refused, Some(GenerateKeyError::GenerationFailed));
    makes(&rt, alloc, Algorithm::Sha256, &mut source, 32);
    drop(source);
}

#[test]
fn keys_of_a_generator(rt: HostRuntime) {
    let alloc = rt.alloc();
    let mut octets = [0; 64];
    let mut same = FromRng::new(Pcg32::seed_from_u64(7));
    same.fill(&mut octets).ok().expect(&rt, "octets");
    let mut source = FromRng::new(Pcg32::seed_from_u64(7));
    let (_, made) = made(&rt, alloc, Algorithm::Sha512, b"\0", &mut source);
    is(&rt, made.as_slice(), octets.as_slice());
    drop(made);
}

/// A store that has the key under a name of these octets.
fn store<R: Abort>(rt: &R, alloc: Global, wire: &[u8]) -> HashMap<(KeyName, Algorithm), Key> {
    let mut store = HashMap::new(alloc);
    let put = store.insert((name(rt, wire), Algorithm::Sha256), key(rt));
    assert!(rt; put.is_ok());
    store
}

/// Whether the store has a key of that algorithm under a name of these octets.
fn has<R: Abort, S: KeyStore>(rt: &R, store: &S, wire: &[u8], algorithm: Algorithm) -> bool {
    let name = name(rt, wire);
    store.get_key(&name, algorithm).is_some()
}

#[test]
fn keys_of_a_map(rt: HostRuntime) {
    let store = store(&rt, rt.alloc(), b"\x03key\0");
    let found = has(&rt, &store, b"\x03KEY\0", Algorithm::Sha256);
    assert!(rt; found);
    let found = has(&rt, &store, b"\x03key\0", Algorithm::Sha384);
    assert!(rt; !found);
    let found = has(&rt, &store, b"\x03kez\0", Algorithm::Sha256);
    assert!(rt; !found);
    let shared = Arc::new(rt.alloc(), store).expect(&rt, "memory");
    let found = has(&rt, &shared, b"\x03key\0", Algorithm::Sha256);
    assert!(rt; found);
    drop(shared);
}

#[test]
fn a_key_under_another_name(rt: HostRuntime) {
    let store = store(&rt, rt.alloc(), b"\x05other\0");
    let found = has(&rt, &store, b"\x05other\0", Algorithm::Sha256);
    assert!(rt; !found);
    drop(store);
}

#[test]
fn texts_of_keys(rt: HostRuntime) {
    let alloc = rt.alloc();
    let key = key(&rt).clone().expect(&rt, "no memory");
    says(&rt, alloc, &key, "key");
    let text = format!(in alloc; "{key:?}").expect(&rt, "memory");
    is(
        &rt,
        text.as_str(),
        "Key { name: key, algorithm: hmac-sha256, .. }",
    );
    drop(text);
}

/// Each error of each kind.
#[test]
fn texts_of_errors(rt: HostRuntime) {
    let alloc = rt.alloc();
    let least = "minimum signature length out of bounds";
    let sent = "created signature length out of bounds";
    says(&rt, alloc, &AlgorithmError, "invalid algorithm");
    for (error, wanted) in [
        (NewKeyError::BadMinMacLen, least),
        (NewKeyError::BadSigningLen, sent),
    ] {
        says(&rt, alloc, &error, wanted);
    }
    for (error, wanted) in [
        (GenerateKeyError::BadMinMacLen, least),
        (GenerateKeyError::BadSigningLen, sent),
        (GenerateKeyError::GenerationFailed, "generating key failed"),
        (GenerateKeyError::Memory, "out of memory"),
    ] {
        says(&rt, alloc, &error, wanted);
    }
}
