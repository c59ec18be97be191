// Messages after their length in two octets (RFC 1035, 4.2.2), as sources give them and sinks take them.

use crate::common::{is, only, source};
use message_frames::reading::{FrameError, read_frame};
use message_frames::writing::{WriteFrameError, write_frame};
use std::alloc::Global;
use zone_devices::sinks::MemorySink;
use zone_devices::sources::MemorySource;

/// How many messages a source gives before its end or an error, how many octets they have in all, and that error.
fn read_all(alloc: Global, src: &mut MemorySource) -> (usize, usize, Option<FrameError>) {
    let (mut count, mut octets) = (0usize, 0usize);
    for _ in 0..9u8 {
        match read_frame(alloc, src) {
            Ok(Some(message)) => {
                count = count.saturating_add(1usize);
                octets = octets.saturating_add(message.len());
                drop(message);
            }
            Ok(None) => return (count, octets, None),
            Err(error) => return (count, octets, Some(error)),
        }
    }
    (count, octets, None)
}

const ROW: &[u8] = b"\0\x03abc\0\0\0\x01x";

#[test]
fn frames_are_cut_at_every_octet(rt: HostRuntime) {
    let alloc = rt.alloc();
    // The frames of ROW end behind 5, 7 and 10 octets.
    for most in 0..11usize {
        let mut src = source(&rt, alloc, ROW, most, Vec::new(alloc));
        let (count, octets, error) = read_all(alloc, &mut src);
        let wanted = if most < 5 {
            (0, 0)
        } else if most < 7 {
            (1, 3)
        } else if most < 10 {
            (2, 3)
        } else {
            (3, 4)
        };
        is(&rt, (count, octets), wanted);
        let whole = most == 0 || most == 5 || most == 7 || most == 10;
        is(&rt, error.is_none(), whole);
        is(&rt, error == Some(FrameError::Cut), !whole);
        drop(src);
    }
}

#[test]
fn messages_come_one_by_one(rt: HostRuntime) {
    let alloc = rt.alloc();
    let mut src = source(&rt, alloc, ROW, 10, Vec::new(alloc));
    for wanted in [b"abc".as_slice(), b"".as_slice(), b"x".as_slice()].iter() {
        let message = read_frame(alloc, &mut src)
            .ok()
            .expect(&rt, "a frame")
            .expect(&rt, "a message");
        is(&rt, message.as_slice(), *wanted);
        drop(message);
    }
    is(&rt, read_frame(alloc, &mut src).ok() == Some(None), true);
    drop(src);
}

#[test]
fn failing_reads_are_faults(rt: HostRuntime) {
    let alloc = rt.alloc();
    for failing in 1..5u64 {
        let mut src = source(&rt, alloc, ROW, 10, only(&rt, alloc, failing));
        let (count, _, error) = read_all(alloc, &mut src);
        // A frame with octets takes two reads, one without takes one.
        let wanted = if failing < 3 {
            0
        } else if failing < 4 {
            1
        } else {
            2
        };
        is(&rt, count, wanted);
        is(&rt, error, Some(FrameError::Fault));
        drop(src);
    }
}

#[test]
fn messages_are_written_behind_their_length(rt: HostRuntime) {
    let alloc = rt.alloc();
    let mut out = MemorySink::new(alloc, 3, Vec::new(alloc));
    is(&rt, write_frame(&mut out, b"abc"), Ok(()));
    is(&rt, write_frame(&mut out, b""), Ok(()));
    is(&rt, write_frame(&mut out, b"x"), Ok(()));
    is(&rt, out.as_slice(), ROW);
    drop(out);
}

#[test]
fn messages_may_be_as_long_as_two_octets_say(rt: HostRuntime) {
    let alloc = rt.alloc();
    let mut octets = Vec::new(alloc);
    octets.resize(65_536, 7).expect(&rt, "memory");
    let mut out = MemorySink::new(alloc, 100_000, Vec::new(alloc));
    is(
        &rt,
        write_frame(&mut out, octets.as_slice()),
        Err(WriteFrameError::TooLong),
    );
    is(&rt, out.as_slice().len(), 0);
    octets.truncate(65_535);
    is(&rt, write_frame(&mut out, octets.as_slice()), Ok(()));
    is(&rt, out.as_slice().len(), 65_537);
    is(&rt, out.as_slice().starts_with(b"\xff\xff\x07"), true);
    drop(octets);
    drop(out);
}
