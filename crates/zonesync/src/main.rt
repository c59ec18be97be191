// The program `zonesync`: reads a script on standard input, transfers a zone, and prints what the secondary holds.
#![tactic(auto)]

use std::alloc::AllocError;
use std::process::ExitCode;
use std::sync::Wait;
use std::thread::Threads;
use std::{env, io};
use zone_sync::{LoopLink, Status, StdSink, StdSource, run_words};

/// The program's words, without its name; None where one isn't UTF-8.
fn words_of(rt: &HostRuntime) -> Result<Option<Vec<String>>, AllocError> {
    let mut words = Vec::new(rt.alloc());
    match env::args(rt) {
        Ok(all) => {
            for word in all.skip(1) {
                words.push(word)?;
            }
            Ok(Some(words))
        }
        Err(error) if error.kind() == io::ErrorKind::OutOfMemory => Err(AllocError),
        Err(_) => Ok(None),
    }
}

/// Runs the program over the words that were read.
fn run_on<R: AllocGlobal + Input + Print + Threads + Wait + Sync>(
    rt: &R,
    words: Option<&[String]>,
) -> Status {
    run_words(
        rt,
        rt.alloc(),
        words,
        &mut StdSource::new(rt.reader()),
        &mut StdSink::new(io::writer(rt)),
        &mut LoopLink::new(rt.alloc()),
    )
}

fn main(rt: HostRuntime) -> ExitCode {
    let status = match words_of(&rt) {
        Ok(Some(words)) => run_on(&rt, Some(words.as_slice())),
        Ok(None) => run_on(&rt, None),
        Err(_) => Status::Memory,
    };
    ExitCode::from(status.code())
}
