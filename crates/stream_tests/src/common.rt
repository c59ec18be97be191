//! What these tests share: octets, and sources and sinks of them.

use message_frames::reading::read_frame;
use std::alloc::Global;
use std::fmt::Debug;
use std::process::Abort;
use tsig_port::Time48;
use zone_devices::sinks::MemorySink;
use zone_devices::sources::MemorySource;

/// Asserts that a value is the one that is wanted.
pub(crate) fn is<R: Abort, T: PartialEq + Debug + Drop>(rt: &R, found: T, wanted: T) {
    assert_eq!(rt; found, wanted);
    drop(wanted);
    drop(found);
}

/// The number of the one call that fails.
pub(crate) fn only<R: Abort>(rt: &R, alloc: Global, call: u64) -> Vec<u64> {
    vec![in alloc; call].expect(rt, "memory")
}

/// A source of the first octets of some.
pub(crate) fn source<R: Abort>(
    rt: &R,
    alloc: Global,
    octets: &[u8],
    most: usize,
    failing: Vec<u64>,
) -> MemorySource {
    let end = most.min(octets.len());
    let first = octets[..end].to_vec(alloc).expect(rt, "memory");
    MemorySource::new(first, failing)
}

/// A sink whose calls don't fail.
pub(crate) fn sink(alloc: Global) -> MemorySink {
    MemorySink::new(alloc, 7, Vec::new(alloc))
}

/// The words of a text, with one space between each two.
pub(crate) fn words_of<R: Abort>(rt: &R, alloc: Global, text: &str) -> Vec<String> {
    let mut words = Vec::new(alloc);
    for part in text.split(' ') {
        let word = String::from_str(alloc, part).expect(rt, "memory");
        words.push(word).expect(rt, "memory");
    }
    words
}

/// The moment of all requests and replies.
pub(crate) fn at() -> Time48 {
    Time48::from_u64(1000)
}

/// How many octets the next message of a source has; None where there is none.
pub(crate) fn next_len<R: Abort>(rt: &R, alloc: Global, src: &mut MemorySource) -> Option<usize> {
    let message = read_frame(alloc, src).ok().expect(rt, "whole frames")?;
    let len = message.len();
    drop(message);
    Some(len)
}
