//! A zone is asked for again, whole, where what is newer alone isn't to be had.
ghost use Rattle.std.specs.Prelude.{◌≡◌, ◌≢◌, ◌%◌, ◌^◌, false, Err};
ghost use Rattle.zone_devices.specs.Calls.{Rose};
ghost use Rattle.xfr_outcomes.specs.Modes.{mode_of};
ghost use Rattle.zone_model.specs.TransferText.{Ixfr};
ghost use Rattle.xfr_client.specs.SoFar.{asks_with};
ghost use Rattle.xfr_client.specs.Handles.{KeepsHandles};
ghost use Rattle.xfr_client.specs.Growing.{Grows};
ghost use Rattle.zone_asking.specs.Exchanges.{crossing};
ghost use Rattle.zone_asking.specs.Retries.{asks_again, refuses_ixfr, next_moment, ExchangesByRule};

use crate::asking::{ask_passing_over, ask_zone};
use crate::errors::AskError;
use crate::limits::Limits;
use dns_numbers::Rcode;
use std::alloc::Global;
use std::sync::Wait;
use tsig_port::{Key, Time48};
use xfr_outcomes::protocol::IterationError;
use xfr_outcomes::{SyncError, SyncOk};
use xfr_services::XfrMode;
use zone_devices::sinks::Sink;
use zone_devices::sources::Source;
use zone_reads::ReadZone;
use zone_sessions::WriteZone;

/// Brings a zone up to date over a stream each way, as `ask_zone`. Where what is newer was asked for, and the primary answered by its SOA
/// record alone with another serial (RFC 1995, 4), or by FORMERR, NOTIMP or REFUSED in a signed reply, the whole zone is asked for
/// over the same streams, in a second exchange that begins with nothing pending. It is signed for the next moment, so that its request
/// has another id, and passes over what comes with the first one's. What the first one committed stays; each has the limits for itself.
pub fn transfer_zone<R: Wait, S: Source, K: Sink>(
    rt: &R,
    alloc: Global,
    session: &mut WriteZone<'_>,
    key: &Key,
    mode: XfrMode,
    at: Time48,
    limits: &Limits,
    src: &mut S,
    sink: &mut K,
    made: &mut Vec<ReadZone>,
) -> Result<SyncOk, AskError>
    // What is committed is what the replies of the one exchange spell, or of the two, one after the other; a second one is made exactly
    // where the rule says so.
    ensures exchanges { ExchangesByRule limits.now (asks_with key.now (mode_of mode) at session.old.current)
        (crossing (S.remaining src.old) (S.remaining src.new) (K.taken sink.old) (K.taken sink.new)) made.old.items made.new.items session.new result }
    // Nothing is pending, and no difference is wanted of the next commit.
    ensures settled { session.new.pending ≡ session.new.current.version }
    ensures wish { session.new.compares ≡ false }
    // The handles that were there stay, and answer each question as before (`look_up`); those that came have the next numbers.
    ensures handles { KeepsHandles session.old.current made.old.items made.new.items }
    // The zone's history gains their commits.
    ensures history { Grows session.old.past session.new.past made.old.items made.new.items }
    // The causes by the streams.
    ensures source_failed { result ≡ Err AskError.SourceFault → Rose (S.faults src.old) (S.faults src.new) }
    ensures source_steady { result ≢ Err AskError.SourceFault → S.faults src.new ≡ S.faults src.old }
    ensures sink_failed { result ≡ Err AskError.SinkFault → Rose (K.faults sink.old) (K.faults sink.new) }
    ensures sink_steady { result ≢ Err AskError.SinkFault → K.faults sink.new ≡ K.faults sink.old }
{
    let first = ask_zone(rt, alloc, session, key, mode, at, limits, src, sink, made);
    if asks_again(mode, &first) {
        let next = next_moment(at);
        let over = Some(id_at(at));
        return ask_passing_over(
            rt,
            alloc,
            session,
            key,
            XfrMode::Axfr,
            next,
            limits,
            over,
            src,
            sink,
            made,
        );
    }
    first
}

/// The moment of a second exchange: a second later, or a second earlier where 48 bits tell no later one.
fn next_moment(at: Time48) -> Time48
    ensures { result ≡ next_moment at }
{
    let seconds = u64::from(at);
    if seconds == (1 << 48) - 1 {
        return Time48::from_u64(seconds - 1);
    }
    Time48::from_u64(seconds + 1)
}

/// The id of a request that is signed for a moment.
fn id_at(at: Time48) -> u16
    ensures { result ≡ at % 2 ^ 16 }
{
    (u64::from(at) % 65_536) as u16
}

/// Whether the whole zone is to be asked for after an exchange that was answered so.
fn asks_again(mode: XfrMode, answer: &Result<SyncOk, AskError>) -> bool
    ensures { result ≡ asks_again (mode_of mode) answer.now }
{
    match mode {
        XfrMode::Axfr => false,
        XfrMode::Ixfr => is_answered_so(answer),
    }
}

/// The same of an exchange for what is newer.
fn is_answered_so(answer: &Result<SyncOk, AskError>) -> bool
    ensures { result ≡ asks_again Ixfr answer.now }
{
    match answer {
        Err(
            AskError::Transfer(SyncError::Iteration(IterationError::SingleSoaIxfrTcpRetrySignal)),
        ) => true,
        Err(AskError::Response(code)) => is_refused_so(*code),
        _ => false,
    }
}

/// FORMERR, NOTIMP or REFUSED.
fn is_refused_so(code: Rcode) -> bool
    ensures { result ≡ refuses_ixfr code }
{
    code == Rcode::FORMERR || code == Rcode::NOTIMP || code == Rcode::REFUSED
}
