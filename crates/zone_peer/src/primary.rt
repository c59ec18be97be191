//! The primary: reads a script from the file that its one word names, and answers the requests of standard input on standard output from the
//! script's zone, at the clock's moment. What ends it otherwise than well is told on standard error, and by the exit status.

use crate::host::{moment, opened};
use std::io;
use std::rt::Runtime;
use std::sync::Wait;
use zone_devices::sinks::StdSink;
use zone_devices::sources::{Source, StdSource};
use zone_primary_run::{exit_status, file_of, run_words};

/// Runs the primary over the words after its name; in the place of a file that isn't opened stands nothing.
pub fn serve_words<R: Runtime + AllocGlobal + Wait>(rt: &R, words: &[String]) -> u8 {
    match opened(rt, file_of(words)) {
        Some(file) => serve(rt, words, true, &mut StdSource::new(file)),
        None => serve(rt, words, false, &mut StdSource::new(io::empty())),
    }
}

/// Serves the script of a file over standard input and output.
fn serve<R: Runtime + AllocGlobal + Wait, F: Source>(
    rt: &R,
    words: &[String],
    opened: bool,
    script: &mut F,
) -> u8 {
    let ended = run_words(
        rt,
        rt.alloc(),
        words,
        opened,
        script,
        moment(rt),
        &mut StdSource::new(rt.reader()),
        &mut StdSink::new(io::writer(rt)),
    );
    let status = exit_status(&ended);
    match ended {
        Ok(_) => status,
        Err(error) => {
            let _ = eprintln!(rt; "{error}");
            status
        }
    }
}
