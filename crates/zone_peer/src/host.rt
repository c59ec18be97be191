//! What both halves take of the host: the words, a file, the clock's moment, and a line on standard error.

use std::alloc::AllocError;
use std::rt::{Clock, Files};
use std::time::{SystemTime, UNIX_EPOCH};
use std::{env, fs, io};
use tsig_port::Time48;

/// The program's words, without its name; none where one isn't UTF-8, since no form of words has it.
pub fn words_of(rt: &HostRuntime) -> Result<Vec<String>, AllocError> {
    let mut words = Vec::new(rt.alloc());
    match env::args(rt) {
        Ok(all) => {
            for word in all.skip(1) {
                words.push(word)?;
            }
        }
        Err(error) if error.kind() == io::ErrorKind::OutOfMemory => return Err(AllocError),
        Err(_) => {}
    }
    Ok(words)
}

/// The file of a name, if there is one and it can be opened.
pub fn opened<R: Files>(rt: &R, name: Option<&String>) -> Option<R::File> {
    match name {
        Some(name) => fs::open(rt, name.as_str()).ok(),
        None => None,
    }
}

/// The clock's moment; None where the clock can't be read, or stands outside of what 48 bits tell.
pub fn moment<R: Clock>(rt: &R) -> Option<Time48> {
    let now = SystemTime::now(rt).ok()?;
    let since = now.duration_since(UNIX_EPOCH).ok()?;
    let seconds = since.as_secs();
    if Time48::fits(seconds) {
        Some(Time48::from_u64(seconds))
    } else {
        None
    }
}

/// Tells a line on standard error, and gives the status on.
pub fn tell<R: Eprint>(rt: &R, text: &str, status: u8) -> u8 {
    let _ = eprintln!(rt; "{text}");
    status
}
