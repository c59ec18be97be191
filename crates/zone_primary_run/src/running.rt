//! A script's primary, which serves a stream.
ghost use Rattle.std.specs.Prelude.{◌≡◌, ◌≢◌, ◌<◌, ◌≤◌, ℕ, List, length, Option, Some, IfSome, Err, IfOk};
ghost use Rattle.zone_devices.specs.Calls.{Rose};
ghost use Rattle.zone_serving.specs.StreamServing.{request_at};
ghost use Rattle.zone_primary_run.specs.ScriptPrimaries.{AreTold, primary_with, provider_of, versions_of};
ghost use Rattle.zone_primary_run.specs.PrimaryRuns.{IsRefusedAsLong, MakesPrimary, RunsPrimary, stream_of};

use crate::errors::PrimaryError;
use crate::making::{Primary, primary_of};
use std::alloc::{AllocError, Global};
use std::sync::Wait;
use tsig_port::Time48;
use xfr_services::Service;
use zone_devices::read_to_end::read_whole;
use zone_devices::sinks::Sink;
use zone_devices::sources::Source;
use zone_script::script::{Script, parse};
use zone_serving::{ServeError, Served, serve_stream};

/// Reads a script, and has its primary serve a stream of requests to its end, at this moment: of the script its zone, the history and the key count
/// (docs/SCRIPT.md); what concerns the secondary alone is read and left. It may wait where it reads a zone, and for the streams.
#[tactic(auto, using(crate::proofs::Runs::not_read, crate::proofs::Runs::refused_as_long))]
pub fn run_primary<R: Wait, F: Source, S: Source, K: Sink>(
    rt: &R,
    alloc: Global,
    script: &mut F,
    at: Time48,
    src: &mut S,
    sink: &mut K,
) -> Result<Served, PrimaryError>
    // What was served, by the answer: the stream by the script's primary; or nothing, where there is no such script.
    ensures runs { RunsPrimary (λ p m. ⟦<Primary as Service<()>>⟧.Sends p (request_at m at)) (F.remaining script.old)
        (stream_of (S.remaining src.old) (S.remaining src.new) (K.taken sink.old) (K.taken sink.new)) result }
    // A script that is too long.
    ensures too_long { (text : List ℕ) → F.remaining script.old ≡ Some text → 16777216 < length text → IsRefusedAsLong result }
    // The faults.
    ensures script_failed { result ≡ Err PrimaryError.ScriptFault → Rose (F.faults script.old) (F.faults script.new) }
    ensures script_steady { result ≢ Err PrimaryError.ScriptFault → F.faults script.new ≡ F.faults script.old }
    ensures source_failed { result ≡ Err (PrimaryError.Stream ServeError.SourceFault) → Rose (S.faults src.old) (S.faults src.new) }
    ensures source_steady { result ≢ Err (PrimaryError.Stream ServeError.SourceFault) → S.faults src.new ≡ S.faults src.old }
    ensures sink_failed { result ≡ Err (PrimaryError.Stream ServeError.SinkFault) → Rose (K.faults sink.old) (K.faults sink.new) }
    ensures sink_steady { result ≢ Err (PrimaryError.Stream ServeError.SinkFault) → K.faults sink.new ≡ K.faults sink.old }
{
    let text = read_whole(alloc, script)?;
    serve_text(rt, alloc, text, at, src, sink)
}

/// Has the primary of a text that is a script serve a stream.
fn serve_text<R: Wait, S: Source, K: Sink>(
    rt: &R,
    alloc: Global,
    text: Vec<u8>,
    at: Time48,
    src: &mut S,
    sink: &mut K,
) -> Result<Served, PrimaryError>
    ensures runs { (script : Option (List ℕ)) → IfSome script (λ octets. text.items ≡ octets) → length text.items ≤ 16777216
        → RunsPrimary (λ p m. ⟦<Primary as Service<()>>⟧.Sends p (request_at m at)) script
        (stream_of (S.remaining src.old) (S.remaining src.new) (K.taken sink.old) (K.taken sink.new)) result }
    ensures was_read { result ≢ Err PrimaryError.ScriptFault }
    ensures source_failed { result ≡ Err (PrimaryError.Stream ServeError.SourceFault) → Rose (S.faults src.old) (S.faults src.new) }
    ensures source_steady { result ≢ Err (PrimaryError.Stream ServeError.SourceFault) → S.faults src.new ≡ S.faults src.old }
    ensures sink_failed { result ≡ Err (PrimaryError.Stream ServeError.SinkFault) → Rose (K.faults sink.old) (K.faults sink.new) }
    ensures sink_steady { result ≢ Err (PrimaryError.Stream ServeError.SinkFault) → K.faults sink.new ≡ K.faults sink.old }
{
    let primary = read_primary(rt, alloc, text.as_slice())?;
    Ok(serve_stream(rt, alloc, &primary, at, src, sink)?)
}

/// The primary of a text that is a script.
fn read_primary<R: Wait>(rt: &R, alloc: Global, text: &[u8]) -> Result<Primary, PrimaryError>
    ensures { MakesPrimary text.now result }
{
    let script = parse(rt, alloc, text)?;
    Ok(make_primary(alloc, script)?)
}

/// The primary of a script that was read.
fn make_primary(alloc: Global, script: Script) -> Result<Primary, AllocError>
    requires { AreTold script.opening.version script.commits }
    ensures { IfOk result (λ p. p ≡ primary_with (provider_of script.opening.version (versions_of script.commits) script.key) script.key) }
{
    let Script {
        key,
        opening,
        commits,
        secondary,
        queries,
        ..
    } = script;
    drop(secondary);
    drop(queries);
    primary_of(alloc, opening, commits, &key)
}
