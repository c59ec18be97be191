//! The primary's program over its words, its script's file, the moment and its streams.
ghost use Rattle.std.specs.Prelude.{◌≡◌, map, option_copied, option_map, string_bytes};
ghost use Rattle.zone_serving.specs.StreamServing.{request_at};
ghost use Rattle.zone_primary_run.specs.PrimaryFaults.{TellsFaults};
ghost use Rattle.zone_primary_run.specs.PrimaryRuns as runs;
ghost use Rattle.zone_primary_run.specs.PrimaryRuns.{RunsAt, RunsOpened, RunsWords, stream_of};

use crate::errors::PrimaryError;
use crate::making::Primary;
use crate::running::run_primary;
use std::alloc::Global;
use std::sync::Wait;
use tsig_port::Time48;
use xfr_services::Service;
use zone_devices::sinks::Sink;
use zone_devices::sources::Source;
use zone_serving::Served;

/// The name of the script's file in the program's words: the only one.
pub fn file_of(words: &[String]) -> Option<&String>
    ensures { option_map string_bytes (option_copied result) ≡ runs.file_of (map string_bytes words.now) }
{
    match words {
        [name] => Some(name),
        _ => None,
    }
}

/// Runs the program, as `run_primary`: its one word names the script's file, which was opened or wasn't, and the moment is known or isn't.
pub fn run_words<R: Wait, F: Source, S: Source, K: Sink>(
    rt: &R,
    alloc: Global,
    words: &[String],
    opened: bool,
    script: &mut F,
    at: Option<Time48>,
    src: &mut S,
    sink: &mut K,
) -> Result<Served, PrimaryError>
    // The script's primary serves the stream; or what lacks is told, and nothing is read or written.
    ensures runs { RunsWords
        (λ now p m. ⟦<Primary as Service<()>>⟧.Sends p (request_at m now)) (runs.file_of (map string_bytes words.now)) opened at
        (F.remaining script.old) (F.remaining script.new)
        (stream_of (S.remaining src.old) (S.remaining src.new) (K.taken sink.old) (K.taken sink.new)) result }
    // Which answers tell that a device failed.
    ensures faults { TellsFaults
        (F.faults script.old) (F.faults script.new) (S.faults src.old) (S.faults src.new) (K.faults sink.old) (K.faults sink.new) result }
{
    match file_of(words) {
        Some(_) => run_opened(rt, alloc, opened, script, at, src, sink),
        None => Err(PrimaryError::Words),
    }
}

/// The same where the words are one.
fn run_opened<R: Wait, F: Source, S: Source, K: Sink>(
    rt: &R,
    alloc: Global,
    opened: bool,
    script: &mut F,
    at: Option<Time48>,
    src: &mut S,
    sink: &mut K,
) -> Result<Served, PrimaryError>
    ensures runs { RunsOpened
        (λ now p m. ⟦<Primary as Service<()>>⟧.Sends p (request_at m now)) opened at (F.remaining script.old) (F.remaining script.new)
        (stream_of (S.remaining src.old) (S.remaining src.new) (K.taken sink.old) (K.taken sink.new)) result }
    ensures faults { TellsFaults
        (F.faults script.old) (F.faults script.new) (S.faults src.old) (S.faults src.new) (K.faults sink.old) (K.faults sink.new) result }
{
    if opened {
        run_at(rt, alloc, script, at, src, sink)
    } else {
        Err(PrimaryError::NotOpened)
    }
}

/// The same of a file that was opened.
fn run_at<R: Wait, F: Source, S: Source, K: Sink>(
    rt: &R,
    alloc: Global,
    script: &mut F,
    at: Option<Time48>,
    src: &mut S,
    sink: &mut K,
) -> Result<Served, PrimaryError>
    ensures runs { RunsAt
        (λ now p m. ⟦<Primary as Service<()>>⟧.Sends p (request_at m now)) at (F.remaining script.old) (F.remaining script.new)
        (stream_of (S.remaining src.old) (S.remaining src.new) (K.taken sink.old) (K.taken sink.new)) result }
    ensures faults { TellsFaults
        (F.faults script.old) (F.faults script.new) (S.faults src.old) (S.faults src.new) (K.faults sink.old) (K.faults sink.new) result }
{
    match at {
        Some(at) => run_primary(rt, alloc, script, at, src, sink),
        None => Err(PrimaryError::Clock),
    }
}
