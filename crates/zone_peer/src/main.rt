// The program `zone_peer`: one half of a zone transfer, whose other half is at the other end of standard input and output. The first word
// says which half: the primary that serves the zone of a script, or the secondary that brings the zone of a script up to date.
#![tactic(auto)]

mod host;
mod primary;
mod secondary;

use host::{tell, words_of};
use primary::serve_words;
use secondary::fetch_words;
use std::process::ExitCode;
use std::rt::Runtime;
use std::sync::Wait;
use zone_devices::sinks::{Sink, StdSink};
use zone_report::Status;

/// The usage line, where the first word names no half.
const USAGE: &str =
    "usage: zone_peer primary SCRIPT / secondary axfr FILE [LIMIT N].. / secondary ixfr FILE [LIMIT N]..";

/// Runs the half that the first word names over the words after it.
fn run_half<R: Runtime + AllocGlobal + Wait, E: Sink>(
    rt: &R,
    half: &str,
    words: &[String],
    report: &mut E,
) -> u8 {
    if half == "primary" {
        serve_words(rt, words)
    } else if half == "secondary" {
        fetch_words(rt, words, report)
    } else {
        tell(rt, USAGE, Status::Usage.code())
    }
}

/// Runs the program over its words.
fn run_words<R: Runtime + AllocGlobal + Wait, E: Sink>(
    rt: &R,
    words: &[String],
    report: &mut E,
) -> u8 {
    match words {
        [half, more @ ..] => run_half(rt, half.as_str(), more, report),
        _ => tell(rt, USAGE, Status::Usage.code()),
    }
}

fn main(rt: HostRuntime) -> ExitCode {
    let status = match words_of(&rt) {
        Ok(words) => run_words(&rt, words.as_slice(), &mut StdSink::new(rt.stderr())),
        Err(_) => Status::Memory.code(),
    };
    ExitCode::from(status)
}
