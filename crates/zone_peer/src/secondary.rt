//! The secondary: reads a script in a file, brings the zone of its secondary up to date with a primary whose stream is on standard input and
//! output, and prints what the secondary holds on a sink, which is standard error.

use crate::host::{moment, opened};
use std::io;
use std::rt::Runtime;
use std::sync::Wait;
use zone_asking::{RunEnd, file_of, run_secondary};
use zone_devices::sinks::{Sink, StdSink};
use zone_devices::sources::{Source, StdSource};

/// Runs the secondary over the words after its name; in the place of a file that isn't opened stands nothing.
pub fn fetch_words<R: Runtime + AllocGlobal + Wait, E: Sink>(
    rt: &R,
    words: &[String],
    report: &mut E,
) -> u8 {
    let ended = match opened(rt, file_of(words)) {
        Some(file) => run_on(rt, words, true, &mut StdSource::new(file), report),
        None => run_on(rt, words, false, &mut StdSource::new(io::empty()), report),
    };
    ended.code()
}

/// Runs the secondary on a file, at the clock's moment, over standard input and output.
fn run_on<R: Runtime + AllocGlobal + Wait, F: Source, E: Sink>(
    rt: &R,
    words: &[String],
    opened: bool,
    file: &mut F,
    report: &mut E,
) -> RunEnd {
    run_secondary(
        rt,
        rt.alloc(),
        words,
        opened,
        file,
        moment(rt),
        &mut StdSource::new(rt.reader()),
        &mut StdSink::new(io::writer(rt)),
        report,
    )
}
