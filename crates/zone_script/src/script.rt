//! Scripts: a primary's zone and its commits, a secondary's zone, the key that both sides share, and questions.
ghost use Rattle.std.specs.Prelude.{◌≡◌, ◌⊎◌, ◌<◌, ◌+◌, ◌^◌, ℕ, length, Ok, Err, IfOk, IfErr, IfSome};
ghost use Rattle.tsig_port.specs.Tsig.{TsigKey};
ghost use Rattle.zone_script.specs.Script as scripts;
ghost use Rattle.zone_script.specs.Script.{script_lines};
ghost use Rattle.zone_script.specs.ScriptReaders.{wire_readers};
ghost use Rattle.zone_script.specs.Keeping as keeping;
ghost use Rattle.zone_script.specs.Keeping.{Gives};
ghost use Rattle.zone_script.specs.Causes.{line_in};

use crate::commits::Commits;
use crate::editing::{Editing, read_rest};
use crate::lines::next_line;
use crate::reading::{Opened, Reading};
use std::alloc::{AllocError, Global};
use std::sync::Wait;
use thiserror::Error;
use tsig_port::{Key, Time48};
use zone_lookup::Queries;
use zone_reads::ReadZone;
use zone_records::zone_files_open;
use zone_sessions::Desk;

/// What a script says.
#[derive(Drop)]
pub struct Script {
    /// The key of both sides, which is granted.
    pub key: Key,
    /// When the primary is asked.
    pub at_primary: Time48,
    /// When the secondary signs its request and checks the replies.
    pub at_secondary: Time48,
    /// The version with which the primary's zone opens.
    pub opening: ReadZone,
    /// The versions that the primary's zone gets after it.
    pub commits: Commits,
    /// The version with which the secondary's zone opens, of the same apex and class.
    pub secondary: ReadZone,
    /// The questions to the secondary's zone after the transfer.
    pub queries: Queries,
}

/// Why a script isn't taken.
#[derive(Clone, Copy, Debug, PartialEq, Eq, Error)]
pub enum ScriptError {
    /// The line of this number, counted from 1, isn't read or is refused; the number after the last line where the key is missing.
    #[error("line {0}")]
    Line(u64),
    /// Memory ran out.
    #[error("out of memory")]
    Memory,
}

impl From<AllocError> for ScriptError {
    ghost use Rattle.std.specs.Prelude.{◌≡◌};
    ghost use Rattle.zone_script.specs.declared.script.ScriptError.{ScriptError};

    ghost from_gives = { λ _ e. e ≡ ScriptError.Memory };

    fn from(_error: AllocError) -> ScriptError {
        ScriptError::Memory
    }
}

/// Reads a script, as docs/SCRIPT.md says. The answer `Line` has the number of its first bad line.
pub fn parse<R: Wait>(rt: &R, alloc: Global, text: &[u8]) -> Result<Script, ScriptError>
    // What is read is what the definition says.
    ensures ok { IfOk result (λ s. (t : scripts.Script TsigKey) × (scripts.script_of wire_readers text.now ≡ Ok t) × Gives t s) }
    // A line is named exactly where the definition names it, but for want of memory.
    ensures bad { IfErr result (λ e. IfSome (line_in e) (λ n. scripts.script_of wire_readers text.now ≡ Err n)) }
    ensures only_bad { (n : ℕ) → scripts.script_of wire_readers text.now ≡ Err n → (result ≡ Err (ScriptError.Line n)) ⊎ (result ≡ Err ScriptError.Memory) }
{
    // For the proof: what is held of a zone file takes, refuses and makes what the file does.
    zone_files_open();
    let mut reading = Reading::new();
    let mut rest = text;
    let mut number = 1u64;
    'opening: while let Some((line, behind)) = next_line(rest) {
        match reading.read(alloc, number, line) {
            Ok(()) => {}
            Err(error) => {
                drop(reading);
                return Err(error);
            }
        }
        if reading.is_over() {
            return finish(rt, alloc, reading, number, rest);
        }
        rest = behind;
        number += 1;
    }
    finish(rt, alloc, reading, number, &[])
}

/// Opens the zones, and reads the edits and questions, which begin at the line of this number.
fn finish<R: Wait>(
    rt: &R,
    alloc: Global,
    reading: Reading,
    number: u64,
    rest: &[u8],
) -> Result<Script, ScriptError>
    requires first { 0 < number }
    requires lines { number + length rest.now < 2 ^ 64 }
    ensures ok { IfOk result (λ s. keeping.finished reading number (script_lines rest.now) ≡ Ok s) }
    ensures bad { IfErr result (λ e. IfSome (line_in e) (λ n. keeping.finished reading number (script_lines rest.now) ≡ Err n)) }
{
    match reading.open(number) {
        Ok(opened) => read_on(rt, alloc, opened, number, rest),
        Err(error) => Err(error),
    }
}

/// Reads the edits and questions, which begin at the line of this number.
fn read_on<R: Wait>(
    rt: &R,
    alloc: Global,
    opened: Opened,
    number: u64,
    rest: &[u8],
) -> Result<Script, ScriptError>
    requires first { opened.primary.number < number }
    requires lines { number + length rest.now < 2 ^ 64 }
    ensures ok { IfOk result (λ s. keeping.read_on number (script_lines rest.now) (Ok opened) ≡ Ok s) }
    ensures bad { IfErr result (λ e. IfSome (line_in e) (λ n. keeping.read_on number (script_lines rest.now) (Ok opened) ≡ Err n)) }
{
    let Opened {
        key,
        at_primary,
        at_secondary,
        primary,
        secondary,
    } = opened;
    match read_edits(rt, alloc, primary, number, rest) {
        Ok((opening, editing)) => Ok(Script {
            key,
            at_primary,
            at_secondary,
            opening,
            commits: editing.commits,
            secondary,
            queries: editing.queries,
        }),
        Err(error) => {
            drop(secondary);
            drop(key);
            Err(error)
        }
    }
}

/// The opening version of the primary's zone, and what the edits and questions say, which begin at the line of this number.
fn read_edits<R: Wait>(
    rt: &R,
    alloc: Global,
    primary: ReadZone,
    number: u64,
    rest: &[u8],
) -> Result<(ReadZone, Editing), ScriptError>
    requires first { primary.number < number }
    requires lines { number + length rest.now < 2 ^ 64 }
    ensures opening { IfOk result (λ r. r.0 ≡ primary) }
    ensures ok { IfOk result (λ r. keeping.read_edits primary number (script_lines rest.now) ≡ Ok r.1) }
    ensures bad { IfErr result (λ e. IfSome (line_in e) (λ n. keeping.read_edits primary number (script_lines rest.now) ≡ Err n)) }
{
    let mut desk = opened(rt, alloc, primary)?;
    let told = edit_zone(rt, alloc, &mut desk, number, rest);
    desk.close(rt);
    told
}

/// The desk of a zone that opens with this version. Nobody reads it.
fn opened<R: Wait>(rt: &R, alloc: Global, first: ReadZone) -> Result<Desk, AllocError>
    ensures { IfOk result (λ d. d.last ≡ first) }
{
    let (reader, desk) = Desk::open(alloc, rt, first, 1)?;
    drop(reader);
    Ok(desk)
}

/// The same of a zone whose desk is lent.
fn edit_zone<R: Wait>(
    rt: &R,
    alloc: Global,
    desk: &mut Desk,
    number: u64,
    rest: &[u8],
) -> Result<(ReadZone, Editing), ScriptError>
    requires first { desk.old.last.number < number }
    requires lines { number + length rest.now < 2 ^ 64 }
    ensures opening { IfOk result (λ r. r.0 ≡ desk.old.last) }
    ensures ok { IfOk result (λ r. keeping.read_edits desk.old.last number (script_lines rest.now) ≡ Ok r.1) }
    ensures bad { IfErr result (λ e. IfSome (line_in e) (λ n. keeping.read_edits desk.old.last number (script_lines rest.now) ≡ Err n)) }
{
    let opening = desk.current().clone()?;
    let mut editing = Editing::new(alloc, desk.current().class());
    let mut session = desk.write(alloc);
    let read = read_rest(rt, alloc, &mut session, &mut editing, number, rest);
    drop(session);
    match read {
        Ok(()) => Ok((opening, editing)),
        Err(error) => {
            drop(editing);
            drop(opening);
            Err(error)
        }
    }
}
