//! A transfer whole: both halves, and the link between them.
ghost use Rattle.std.specs.Prelude.{◌≡◌, ◌≢◌, ◌⊎◌, [], ◌∷◌, ℕ, List, false, IsSome, IsOk, IfOk, OnOk, OnErr, option_map};
ghost use Rattle.zone_model.specs.Commits.{Commit};
ghost use Rattle.zone_devices.specs.Calls.{Rose};
ghost use Rattle.xfr_services.specs.LongReplies.{HasLongQuestions};
ghost use Rattle.xfr_services.specs.declared.services.ServiceError.{ServiceError as ErrorOf};
ghost use Rattle.xfr_outcomes.specs.Modes.{mode_of};
ghost use Rattle.xfr_client.specs.SoFar.{Asking, asks_with};
ghost use Rattle.xfr_client.specs.Standing.{asking_of, Stands};
ghost use Rattle.zone_sync.specs.LinkTransfers.{SyncSays, EndsSo, Serves, SendsItems};
ghost use Rattle.xfr_server.specs.Items.{Sending};
ghost use Rattle.zone_sync.specs.Serving.{request_at};
ghost use Rattle.zone_sync.specs.LongQuestions.{WasHandedLong};
ghost use Rattle.zone_sync.specs.Delivery.{Synchronizes};
ghost use Rattle.xfr_client.specs.Handles.{KeepsHandles};
ghost use Rattle.xfr_client.specs.Growing.{Grows};

use dns_wire::MessageBuf;
use std::alloc::Global;
use std::sync::Wait;
use tsig_port::{Key, Time48};
use xfr_client::{MOST_REPLIES, XfrClient};
use xfr_outcomes::{SyncError, SyncOk};
use xfr_server::{ReplyStream, Request, Service, TransportSpecificContext};
use xfr_services::XfrMode;
use zone_devices::links::Link;
use zone_reads::ReadZone;
use zone_sessions::WriteZone;

/// The two ends of a transfer, as both of them know it.
#[derive(Clone, Copy)]
pub struct Moments {
    /// When the primary is asked.
    pub at_primary: Time48,
    /// When the secondary signs its request and checks the replies.
    pub at_secondary: Time48,
}

/// Brings a secondary's zone up to date with a primary's, over a link: what was pending is dropped, the request goes to the
/// primary, and its replies come back, each checked and applied before the next. `made` gains a handle of each version
/// that is committed, as they come, whatever the answer is; nothing is pending afterwards. It may wait where the primary reads its zone, and where it commits.
///
/// For what is newer alone the request has the first apex SOA of the current version; `NoSoa` where there is none, before anything
/// is asked. `UpToDate` says that the primary has nothing newer. Which answer comes for what is told in docs/ERRORS.md.
pub fn sync_zone<R: Wait, P: Service<()>, L: Link>(
    rt: &R,
    alloc: Global,
    primary: &P,
    session: &mut WriteZone<'_>,
    key: &Key,
    mode: XfrMode,
    link: &mut L,
    moments: Moments,
    made: &mut Vec<ReadZone>,
) -> Result<SyncOk, SyncError>
    // Whatever octets the link hands back, exactly the versions that the checked text spells are committed, in order, and the
    // answer is the outcome. The primary is asked what the link hands it, and the link is given its replies. Nothing is pending
    // afterwards. Over an honest link to a primary that grants a version, the answer is Ok or want of memory, and after Ok that
    // version is current.
    ensures headline { Synchronizes (λ m. P.Sends primary.now (request_at m moments.at_primary)) (asks_with key.now (mode_of mode) moments.at_secondary session.old.current)
        moments.at_primary (L.longest link.old) (L.lists link.old) (L.lists link.new) (L.faults link.old) (L.faults link.new) made.old.items made.new.items session.new result }
    // The handles that were there stay, and answer each question as before (`look_up`); those that came have the next numbers.
    ensures handles { KeepsHandles session.old.current made.old.items made.new.items }
    // The zone's history gains their commits.
    ensures history { Grows session.old.past session.new.past made.old.items made.new.items }
    // No difference is wanted of the next commit.
    ensures wish { session.new.compares ≡ false }
    // The causes by the link.
    ensures failed { result ≡ Err SyncError.LinkFault → Rose (L.faults link.old) (L.faults link.new) }
    ensures steady { result ≢ Err SyncError.LinkFault → L.faults link.new ≡ L.faults link.old }
    // The primary fails, whichever service it is, only for the questions of the request that the link handed it.
    ensures long { (error : ErrorOf) → result ≡ Err (SyncError.Primary error)
        → WasHandedLong (L.lists link.old) (L.lists link.new) }
{
    let mut told = Err(SyncError::Ended);
    exchange_and_lend(
        rt, alloc, primary, session, key, mode, link, moments, made, &mut told,
    );
    told
}

/// The same: puts the answer into `told`, and lends the session back.
fn exchange_and_lend<'s, 'z, R: Wait, P: Service<()>, L: Link>(
    rt: &R,
    alloc: Global,
    primary: &P,
    session: &'s mut WriteZone<'z>,
    key: &Key,
    mode: XfrMode,
    link: &mut L,
    moments: Moments,
    made: &mut Vec<ReadZone>,
    told: &mut Result<SyncOk, SyncError>,
) -> &'s mut WriteZone<'z>
    ensures same_borrow { result.ghost_name ≡ session.entry.ghost_name }
    ensures headline { Synchronizes (λ m. P.Sends primary.now (request_at m moments.at_primary)) (asks_with key.now (mode_of mode) moments.at_secondary session.old.current)
        moments.at_primary (L.longest link.old) (L.lists link.old) (L.lists link.new) (L.faults link.old) (L.faults link.new) made.old.items made.new.items result.now told.new }
    ensures handles { KeepsHandles session.old.current made.old.items made.new.items }
    ensures history { Grows session.old.past result.now.past made.old.items made.new.items }
    ensures wish { result.now.compares ≡ false }
    ensures failed { told.new ≡ Err SyncError.LinkFault → Rose (L.faults link.old) (L.faults link.new) }
    ensures steady { told.new ≢ Err SyncError.LinkFault → L.faults link.new ≡ L.faults link.old }
    ensures long { (error : ErrorOf) → told.new ≡ Err (SyncError.Primary error)
        → WasHandedLong (L.lists link.old) (L.lists link.new) }
{
    let mut client = XfrClient::new(alloc, session, key, mode, moments.at_secondary);
    *told = exchange(
        rt,
        alloc,
        primary,
        &mut client,
        link,
        moments.at_primary,
        made,
    );
    client.into_session()
}

/// The request, the primary's replies, and what the secondary makes of them.
fn exchange<R: Wait, P: Service<()>, L: Link>(
    rt: &R,
    alloc: Global,
    primary: &P,
    client: &mut XfrClient<'_, '_>,
    link: &mut L,
    at_primary: Time48,
    made: &mut Vec<ReadZone>,
) -> Result<SyncOk, SyncError>
    ensures says { SyncSays (λ m. P.Sends primary.now (request_at m at_primary)) (asking_of client.old.client client.old.session.current)
        (L.longest link.old) (L.lists link.old) (L.lists link.new) made.old.items made.new.items client.new.session result }
    ensures history { Grows client.old.session.past client.new.session.past made.old.items made.new.items }
    ensures lender { client.new.lender ≡ client.old.lender }
    ensures failed { result ≡ Err SyncError.LinkFault → Rose (L.faults link.old) (L.faults link.new) }
    ensures steady { result ≢ Err SyncError.LinkFault → L.faults link.new ≡ L.faults link.old }
    ensures long { (error : ErrorOf) → result ≡ Err (SyncError.Primary error)
        → WasHandedLong (L.lists link.old) (L.lists link.new) }
{
    let request = client.request(link.max_len())?;
    let sent = link.send_request(request.as_slice());
    drop(request);
    sent?;
    let Some(asked) = link.take_request()? else {
        return Err(SyncError::Ended);
    };
    serve(
        rt,
        alloc,
        primary,
        MessageBuf::from_octets(asked)?,
        link,
        at_primary,
    )?;
    take_replies(rt, client, link, made)
}

/// Has a primary reply to a request, and gives its replies to the link.
fn serve<R: Wait, P: Service<()>, L: Link>(
    rt: &R,
    alloc: Global,
    primary: &P,
    message: MessageBuf,
    link: &mut L,
    at: Time48,
) -> Result<(), SyncError>
    ensures served { Serves (P.Sends primary.now (request_at message at)) (L.lists link.old) (L.lists link.new) result }
    ensures failed { result ≡ Err SyncError.LinkFault → Rose (L.faults link.old) (L.faults link.new) }
    ensures steady { result ≢ Err SyncError.LinkFault → L.faults link.new ≡ L.faults link.old }
    ensures long { (error : ErrorOf) → result ≡ Err (SyncError.Primary error) → HasLongQuestions message }
{
    let request = Request::new(message, TransportSpecificContext::NonUdp, at, ());
    let replies = primary.call(rt, alloc, request)?;
    send_replies(replies, link)
}

/// Gives all replies of a stream to a link.
fn send_replies<S: ReplyStream, L: Link>(replies: S, link: &mut L) -> Result<(), SyncError>
    ensures served { (items : List Sending) → S.LeftOf replies items → SendsItems items (L.lists link.old) (L.lists link.new) result }
    ensures failed { result ≡ Err SyncError.LinkFault → Rose (L.faults link.old) (L.faults link.new) }
    ensures steady { result ≢ Err SyncError.LinkFault → L.faults link.new ≡ L.faults link.old }
{
    let mut replies = replies;
    'replies: while let Some(item) = replies.next_item() {
        if let Some(reply) = item?.into_response() {
            link.send_reply(reply.finish().as_slice())?;
        }
    }
    Ok(())
}

/// Takes replies until the outcome is met.
fn take_replies<R: Wait, L: Link>(
    rt: &R,
    client: &mut XfrClient<'_, '_>,
    link: &mut L,
    made: &mut Vec<ReadZone>,
) -> Result<SyncOk, SyncError>
    requires { IsSome client.old.client.exchange }
    ensures ends { (a : Asking) (before : List Commit) → Stands client.old.client client.old.session a [] before made.old.items
        → EndsSo a (L.lists link.old) (L.lists link.new) before made.new.items client.new.session result }
    ensures history { Grows client.old.session.past client.new.session.past made.old.items made.new.items }
    ensures lender { client.new.lender ≡ client.old.lender }
    ensures failed { (a : Asking) (before : List Commit) → Stands client.old.client client.old.session a [] before made.old.items
        → result ≡ Err SyncError.LinkFault → Rose (L.faults link.old) (L.faults link.new) }
    ensures steady { result ≢ Err SyncError.LinkFault → L.faults link.new ≡ L.faults link.old }
{
    let mut count = 0u32;
    'taking: while count < MOST_REPLIES {
        count += 1;
        let Some(reply) = link.take_reply()? else {
            return Err(SyncError::Ended);
        };
        if let Some(outcome) = client.take(rt, reply, made)? {
            return Ok(outcome);
        }
    }
    Err(SyncError::TooManyMessages)
}
