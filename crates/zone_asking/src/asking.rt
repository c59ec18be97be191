//! One exchange over a source and a sink.
ghost use Rattle.std.specs.Prelude.{◌≡◌, ◌≢◌, ◌≤◌, ℕ, List, [], ◌∷◌, ◌++◌, false, take, length, Option, IsSome, IfOk, IfErr, IfSome, OnOk, OnErr, Ok, Err, None};
ghost use Rattle.zone_model.specs.Commits.{Commit};
ghost use Rattle.zone_reads.specs.Session.{rolled_back};
ghost use Rattle.zone_devices.specs.Calls.{Rose};
ghost use Rattle.zone_devices.specs.Streams.{with_more};
ghost use Rattle.message_frames.specs.Frames.{frame_of};
ghost use Rattle.xfr_outcomes.specs.Modes.{mode_of};
ghost use Rattle.xfr_client.specs.SoFar.{Asking, asks_with};
ghost use Rattle.xfr_client.specs.Standing.{asking_of, Stands};
ghost use Rattle.xfr_client.specs.Handles.{KeepsHandles};
ghost use Rattle.xfr_client.specs.Growing.{Grows};
ghost use Rattle.xfr_outcomes.specs.declared.outcome.SyncError.TheVariants.{Ended};
ghost use Rattle.zone_asking.specs.declared.limits.Limits.{Limits};
ghost use Rattle.zone_asking.specs.declared.errors.AskError.TheVariants.{Transfer};
ghost use Rattle.zone_asking.specs.Answers.{code_in, told_of};
ghost use Rattle.zone_asking.specs.Failures.{ComesOfReading};
ghost use Rattle.zone_asking.specs.Streams.{has_id, Reads, ReadSoFar};
ghost use Rattle.zone_asking.specs.Exchanges.{crossing, EndsSo, Exchanges};

use crate::errors::{AskError, refusal};
use crate::limits::Limits;
use dns_numbers::Rcode;
use dns_wire::Message;
use message_frames::laws::octets_are_cut_frame_by_frame;
use message_frames::reading::read_frame;
use message_frames::writing::{WriteFrameError, write_frame};
use std::alloc::Global;
use std::sync::Wait;
use tsig_port::{Key, Time48};
use xfr_client::{MOST_REPLIES, XfrClient};
use xfr_outcomes::{SyncError, SyncOk};
use xfr_services::XfrMode;
use zone_devices::sinks::Sink;
use zone_devices::sources::Source;
use zone_reads::ReadZone;
use zone_sessions::WriteZone;

/// How many octets a request has at most.
const MOST_OCTETS: usize = 65_535;

/// Brings a zone up to date over a stream each way (RFC 5936, 4.2): what was pending is dropped, the signed request goes to the sink
/// after its length, and replies are read of the source, each after its length, checked and applied before the next, until the
/// outcome is met, or a further one would pass a limit. `made` gains a handle of each version that is committed, as they come,
/// whatever the answer is; nothing is pending afterwards. It may wait where it commits, and for a source or a sink.
///
/// For what is newer alone the request has the first apex SOA of the current version; `Transfer(NoSoa)` where there is none, before
/// anything is written. `UpToDate` says that the primary has nothing newer. Which answer comes for what is told in docs/ERRORS.md.
pub fn ask_zone<R: Wait, S: Source, K: Sink>(
    rt: &R,
    alloc: Global,
    session: &mut WriteZone<'_>,
    key: &Key,
    mode: XfrMode,
    at: Time48,
    limits: &Limits,
    src: &mut S,
    sink: &mut K,
    made: &mut Vec<ReadZone>,
) -> Result<SyncOk, AskError>
    // Whatever octets the source gives, no limit is passed, exactly the versions that the checked text of its frames spells are
    // committed, in order, and the answer is the outcome. The sink takes the frame of the request, and nothing else.
    ensures exchanges { Exchanges limits.now None (asks_with key.now (mode_of mode) at session.old.current)
        (crossing (S.remaining src.old) (S.remaining src.new) (K.taken sink.old) (K.taken sink.new)) made.old.items made.new.items session.new result }
    // Nothing is pending, and no difference is wanted of the next commit.
    ensures settled { session.new.pending ≡ session.new.current.version }
    ensures wish { session.new.compares ≡ false }
    // The handles that were there stay, and answer each question as before (`look_up`); those that came have the next numbers.
    ensures handles { KeepsHandles session.old.current made.old.items made.new.items }
    // The zone's history gains their commits.
    ensures history { Grows session.old.past session.new.past made.old.items made.new.items }
    // The causes by the streams.
    ensures source_failed { result ≡ Err AskError.SourceFault → Rose (S.faults src.old) (S.faults src.new) }
    ensures source_steady { result ≢ Err AskError.SourceFault → S.faults src.new ≡ S.faults src.old }
    ensures sink_failed { result ≡ Err AskError.SinkFault → Rose (K.faults sink.old) (K.faults sink.new) }
    ensures sink_steady { result ≢ Err AskError.SinkFault → K.faults sink.new ≡ K.faults sink.old }
{
    ask_passing_over(
        rt, alloc, session, key, mode, at, limits, None, src, sink, made,
    )
}

/// The same, where replies with this id, of an exchange before, are passed over: they aren't checked, and nothing of them is taken.
/// They count for the limits.
pub(crate) fn ask_passing_over<R: Wait, S: Source, K: Sink>(
    rt: &R,
    alloc: Global,
    session: &mut WriteZone<'_>,
    key: &Key,
    mode: XfrMode,
    at: Time48,
    limits: &Limits,
    over: Option<u16>,
    src: &mut S,
    sink: &mut K,
    made: &mut Vec<ReadZone>,
) -> Result<SyncOk, AskError>
    ensures exchanges { Exchanges limits.now over (asks_with key.now (mode_of mode) at session.old.current)
        (crossing (S.remaining src.old) (S.remaining src.new) (K.taken sink.old) (K.taken sink.new)) made.old.items made.new.items session.new result }
    ensures settled { session.new.pending ≡ session.new.current.version }
    ensures wish { session.new.compares ≡ false }
    ensures handles { KeepsHandles session.old.current made.old.items made.new.items }
    ensures history { Grows session.old.past session.new.past made.old.items made.new.items }
    ensures source_failed { result ≡ Err AskError.SourceFault → Rose (S.faults src.old) (S.faults src.new) }
    ensures source_steady { result ≢ Err AskError.SourceFault → S.faults src.new ≡ S.faults src.old }
    ensures sink_failed { result ≡ Err AskError.SinkFault → Rose (K.faults sink.old) (K.faults sink.new) }
    ensures sink_steady { result ≢ Err AskError.SinkFault → K.faults sink.new ≡ K.faults sink.old }
{
    let mut told = Err(AskError::Cut);
    exchange_and_lend(
        rt, alloc, session, key, mode, at, limits, over, src, sink, made, &mut told,
    );
    told
}

/// The same: puts the answer into `told`, and lends the session back.
fn exchange_and_lend<'s, 'z, R: Wait, S: Source, K: Sink>(
    rt: &R,
    alloc: Global,
    session: &'s mut WriteZone<'z>,
    key: &Key,
    mode: XfrMode,
    at: Time48,
    limits: &Limits,
    over: Option<u16>,
    src: &mut S,
    sink: &mut K,
    made: &mut Vec<ReadZone>,
    told: &mut Result<SyncOk, AskError>,
) -> &'s mut WriteZone<'z>
    ensures same_borrow { result.ghost_name ≡ session.entry.ghost_name }
    ensures exchanges { Exchanges limits.now over (asks_with key.now (mode_of mode) at session.old.current)
        (crossing (S.remaining src.old) (S.remaining src.new) (K.taken sink.old) (K.taken sink.new)) made.old.items made.new.items result.now told.new }
    ensures settled { result.now.pending ≡ result.now.current.version }
    ensures wish { result.now.compares ≡ false }
    ensures handles { KeepsHandles session.old.current made.old.items made.new.items }
    ensures history { Grows session.old.past result.now.past made.old.items made.new.items }
    ensures source_failed { told.new ≡ Err AskError.SourceFault → Rose (S.faults src.old) (S.faults src.new) }
    ensures source_steady { told.new ≢ Err AskError.SourceFault → S.faults src.new ≡ S.faults src.old }
    ensures sink_failed { told.new ≡ Err AskError.SinkFault → Rose (K.faults sink.old) (K.faults sink.new) }
    ensures sink_steady { told.new ≢ Err AskError.SinkFault → K.faults sink.new ≡ K.faults sink.old }
{
    let mut client = client_within(alloc, session, key, mode, at, limits);
    *told = exchange(rt, alloc, &mut client, limits, over, src, sink, made);
    client.into_session()
}

/// A client that made no request yet, and bounds sets as the limits do.
fn client_within<'s, 'z>(
    alloc: Global,
    session: &'s mut WriteZone<'z>,
    key: &Key,
    mode: XfrMode,
    at: Time48,
    limits: &Limits,
) -> XfrClient<'s, 'z>
    ensures client { result.client ≡ record { key = key.now; mode = mode_of mode; at = at; exchange = None; most = limits.now.set_records; full = false } }
    ensures session { result.session ≡ session.old }
    ensures lender { result.lender ≡ session.entry.ghost_name }
{
    let mut client = XfrClient::new(alloc, session, key, mode, at);
    if let Some(most) = limits.set_records {
        client.limit_sets(most);
    }
    client
}

/// The request, and what the secondary makes of the replies.
fn exchange<R: Wait, S: Source, K: Sink>(
    rt: &R,
    alloc: Global,
    client: &mut XfrClient<'_, '_>,
    limits: &Limits,
    over: Option<u16>,
    src: &mut S,
    sink: &mut K,
    made: &mut Vec<ReadZone>,
) -> Result<SyncOk, AskError>
    requires { client.old.client.most ≡ limits.now.set_records }
    ensures exchanges { Exchanges limits.now over (asking_of client.old.client client.old.session.current)
        (crossing (S.remaining src.old) (S.remaining src.new) (K.taken sink.old) (K.taken sink.new)) made.old.items made.new.items client.new.session result }
    ensures history { Grows client.old.session.past client.new.session.past made.old.items made.new.items }
    ensures lender { client.new.lender ≡ client.old.lender }
    ensures source_failed { result ≡ Err AskError.SourceFault → Rose (S.faults src.old) (S.faults src.new) }
    ensures source_steady { result ≢ Err AskError.SourceFault → S.faults src.new ≡ S.faults src.old }
    ensures sink_failed { result ≡ Err AskError.SinkFault → Rose (K.faults sink.old) (K.faults sink.new) }
    ensures sink_steady { result ≢ Err AskError.SinkFault → K.faults sink.new ≡ K.faults sink.old }
{
    let request = client.request(MOST_OCTETS)?;
    send_request(sink, request.as_slice())?;
    take_replies(rt, alloc, client, limits, over, src, made)
}

/// Writes a request's frame.
fn send_request<K: Sink>(sink: &mut K, octets: &[u8]) -> Result<(), AskError>
    requires { length octets.now ≤ 65535 }
    ensures sent { OnOk result (K.taken sink.new ≡ with_more (frame_of octets.now) (K.taken sink.old)) }
    ensures part { (n : ℕ) × (K.taken sink.new ≡ with_more (take n (frame_of octets.now)) (K.taken sink.old)) }
    ensures fault { IfErr result (λ e. e ≡ AskError.SinkFault) }
    ensures failed { OnErr result (Rose (K.faults sink.old) (K.faults sink.new)) }
    ensures steady { OnOk result (K.faults sink.new ≡ K.faults sink.old) }
{
    match write_frame(sink, octets) {
        Ok(()) => Ok(()),
        Err(WriteFrameError::Fault) => Err(AskError::SinkFault),
        Err(WriteFrameError::TooLong) => unreachable!(),
    }
}

/// Takes replies until the outcome is met.
fn take_replies<R: Wait, S: Source>(
    rt: &R,
    alloc: Global,
    client: &mut XfrClient<'_, '_>,
    limits: &Limits,
    over: Option<u16>,
    src: &mut S,
    made: &mut Vec<ReadZone>,
) -> Result<SyncOk, AskError>
    requires under_way { IsSome client.old.client.exchange }
    requires most { client.old.client.most ≡ limits.now.set_records }
    ensures ends { (a : Asking) (before : List Commit) → Stands client.old.client client.old.session a [] before made.old.items
        → EndsSo limits.now over a (S.remaining src.old) (S.remaining src.new) before made.new.items client.new.session result }
    ensures history { Grows client.old.session.past client.new.session.past made.old.items made.new.items }
    ensures lender { client.new.lender ≡ client.old.lender }
    ensures failed { result ≡ Err AskError.SourceFault → Rose (S.faults src.old) (S.faults src.new) }
    ensures steady { result ≢ Err AskError.SourceFault → S.faults src.new ≡ S.faults src.old }
    ensures others { result ≢ Err AskError.SinkFault }
{
    let mut left = *limits;
    let mut count = 0u32;
    'taking: while count < MOST_REPLIES {
        count += 1;
        let Some(reply) = next_reply(alloc, src, over, &mut left)? else {
            return Err(AskError::Transfer(SyncError::Ended));
        };
        let code = rcode_of(reply.as_slice());
        match client.take(rt, reply, made) {
            Ok(None) => {}
            Ok(Some(outcome)) => return Ok(outcome),
            Err(error) => return Err(refused(client, error, code)),
        }
    }
    Err(AskError::Transfer(SyncError::TooManyMessages))
}

/// The error of a reply that a client refused.
fn refused(client: &XfrClient<'_, '_>, error: SyncError, code: Rcode) -> AskError
    ensures { result ≡ told_of client.now.client.full error code }
{
    if client.has_full_set() {
        return AskError::FullSet;
    }
    refusal(error, code)
}

/// The next reply of a source, behind messages that are passed over; none where the source is at its end. Each message is read within
/// what is left of the limits.
fn next_reply<S: Source>(
    alloc: Global,
    src: &mut S,
    over: Option<u16>,
    left: &mut Limits,
) -> Result<Option<Vec<u8>>, AskError>
    ensures reply { IfOk result (λ found. IfSome found (λ m. (limits : Limits) (replies : List (List ℕ)) (old : Option (List ℕ))
        → ReadSoFar limits over replies old (S.remaining src.old) left.old → ReadSoFar limits over (replies ++ m.items ∷ []) old (S.remaining src.new) left.new)) }
    ensures none { result ≡ Ok None → (limits : Limits) (replies : List (List ℕ)) (old : Option (List ℕ))
        → ReadSoFar limits over replies old (S.remaining src.old) left.old → Reads limits over replies old (S.remaining src.new) (Err (Transfer Ended)) }
    ensures error { IfErr result (λ e. ComesOfReading e × ((limits : Limits) (replies : List (List ℕ)) (old : Option (List ℕ))
        → ReadSoFar limits over replies old (S.remaining src.old) left.old → Reads limits over replies old (S.remaining src.new) (Err e))) }
    ensures failed { result ≡ Err AskError.SourceFault → Rose (S.faults src.old) (S.faults src.new) }
    ensures steady { result ≢ Err AskError.SourceFault → S.faults src.new ≡ S.faults src.old }
{
    // For the proof: a frame is cut off the front.
    octets_are_cut_frame_by_frame();
    'passing: loop {
        let Some(message) = read_frame(alloc, src)? else {
            return Ok(None);
        };
        *left = left.behind(message.as_slice())?;
        if !has_id(over, message.as_slice()) {
            return Ok(Some(message));
        }
    }
}

/// Whether a message has this id, where one is given; no octets that are no header do.
fn has_id(over: Option<u16>, octets: &[u8]) -> bool
    ensures { result ≡ has_id over octets.now }
{
    match (over, Message::from_octets(octets)) {
        (Some(id), Ok(message)) => message.header().id == id,
        _ => false,
    }
}

/// The response code of a message; NOERROR of octets that are no header.
fn rcode_of(octets: &[u8]) -> Rcode
    ensures { result ≡ code_in octets.now }
{
    match Message::from_octets(octets) {
        Ok(message) => message.header().rcode,
        Err(_) => Rcode::NOERROR,
    }
}
