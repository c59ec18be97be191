// Steps of readers and one writer, each made by the calls of the zone's session, its nodes and its read handles.
ghost use Rattle.std.specs.Prelude.{◌≡◌, ◌↔◌, ◌≤◌, ◌<◌, [], ◌∷◌, ◌++◌, List, length, take, slice_get, false, Some, Ok, Err, IfErr, IfSome, OnOk, OnErr, ◌-◌, ◌^◌};
ghost use Rattle.zone_model.specs.Version.{Version};
ghost use Rattle.zone_reads.specs.Session.{Session, new_session, opened_session, committed};
ghost use Rattle.zone_model.specs.Commits.{CommitList, Zone, Event, after_all, version_of};
ghost use Rattle.zone_handles.specs.Steps.{HandlesStand, Leads, Stays, Refuses, Exhausts, Answers, events_of, events_of_all, wish_after, wish_after_all};
ghost use Rattle.zone_handles.specs.declared.steps.Step.{Step};

use crate::errors::HandleError;
use crate::zone_edits::{ZoneEdit, make_edit};
use dns_name::ToName;
use dns_numbers::Rtype;
use std::alloc::{AllocError, Global};
use std::sync::Wait;
use zone_lookup::{AnswerRef, look_up};
use zone_reads::ReadZone;
use zone_sessions::{CommitError, WriteZone};

/// One step of a zone's history.
#[derive(Drop)]
pub enum Step {
    /// The writer edits what is pending.
    Edit(ZoneEdit),
    /// The writer opens what is pending at the apex, with `true` so that the next commit tells a difference.
    Open(bool),
    /// The writer commits, with `true` so that the SOA serial counts on.
    Commit(bool),
    /// The writer drops what is pending.
    Rollback,
    /// The writer's session ends with what is pending in it, and the next one begins.
    EndSession,
    /// A reader takes a handle of the current version, after the others.
    Read,
    /// A reader copies the handle at a place, after the others. Where there is none nothing happens.
    Copy(usize),
}

/// Makes a step. It is refused where memory or version numbers run out, and nothing has happened then. It may wait where it commits.
pub fn make_step<'z, R: Wait>(
    rt: &R,
    alloc: Global,
    session: WriteZone<'z>,
    handles: &mut Vec<ReadZone>,
    step: &Step,
) -> (WriteZone<'z>, Result<(), CommitError>)
    ensures made { OnOk result.1 (Leads (events_of step.now) session.entry handles.old.items result.0 handles.new.items) }
    ensures refused { OnErr result.1 (Stays session.entry handles.old.items result.0 handles.new.items) }
    ensures session_stays { OnErr result.1 (result.0 ≡ record session.entry { has_handle = result.0.has_handle }) }
    ensures handles_stay { OnErr result.1 (handles.new.items ≡ handles.old.items) }
    ensures wish { OnOk result.1 (result.0.compares ≡ wish_after step.now session.entry.compares) }
    ensures cause { IfErr result.1 (λ e. Refuses step.now session.entry handles.old.items e) }
    ensures exhausted { Exhausts step.now session.entry → result.1 ≡ Err CommitError.VersionsExhausted }
{
    let mut session = session;
    match step {
        Step::Edit(edit) => {
            let told = make_edit(alloc, &mut session, edit);
            (session, told)
        }
        Step::Open(create_diff) => {
            open(&mut session, *create_diff);
            (session, Ok(()))
        }
        Step::Commit(bumps) => {
            let told = commit(rt, &mut session, *bumps);
            (session, told)
        }
        Step::Rollback => {
            session.rollback();
            (session, Ok(()))
        }
        Step::EndSession => (begin_again(session, alloc), Ok(())),
        Step::Read => {
            let told = read(&mut session, handles);
            (session, told)
        }
        Step::Copy(handle) => {
            let told = copy(handles, *handle);
            (session, told)
        }
    }
}

/// Makes steps in turn, up to the first that is refused for want of memory or of version numbers, and tells how many were made.
pub fn make_steps<'z, R: Wait>(
    rt: &R,
    alloc: Global,
    session: WriteZone<'z>,
    handles: &mut Vec<ReadZone>,
    steps: &[Step],
) -> (WriteZone<'z>, usize, Result<(), CommitError>)
    ensures made { Leads (events_of_all (take result.1 steps.now)) session.entry handles.old.items result.0 handles.new.items }
    ensures wish { result.0.compares ≡ wish_after_all (take result.1 steps.now) session.entry.compares }
    ensures all { OnOk result.2 (result.1 ≡ length steps.now) }
    ensures refused { OnErr result.2 (result.1 < length steps.now) }
    ensures cause { IfErr result.2 (λ e. IfSome (slice_get steps.now result.1) (λ s. Refuses s result.0 handles.new.items e)) }
{
    let mut session = session;
    let mut made = 0_usize;
    'steps: for step in steps {
        let (next, told) = make_step(rt, alloc, session, handles, step);
        session = next;
        if let Err(error) = told {
            return (session, made, Err(error));
        }
        made += 1;
    }
    (session, made, Ok(()))
}

/// Asks the handle at a place. Whatever happened since the handle stood for a version, that version answers.
pub fn ask<'v, N: ToName>(
    handles: &'v [ReadZone],
    handle: usize,
    qname: &N,
    qtype: Rtype,
) -> Result<AnswerRef<'v>, HandleError>
    ensures answered { (z : Zone) (since : List Event) (v : Version) → HandlesStand handles.now (after_all since z) → version_of z handle ≡ Some v → Answers v (N.labels qname.now) qtype result }
    ensures lacking { (result ≡ Err HandleError.NoHandle) ↔ (length handles.now ≤ handle) }
{
    match handles.get(handle) {
        Some(zone) => match look_up(zone, qname, qtype) {
            Ok(found) => Ok(found),
            Err(_) => Err(HandleError::OutOfZone),
        },
        None => Err(HandleError::NoHandle),
    }
}

/// Ends a session and begins the next one of its zone. What was pending is dropped, and the law `sessions_stand` says that what stood for
/// the zone stands for it still, with these edits abandoned.
pub fn begin_again<'z>(session: WriteZone<'z>, alloc: Global) -> WriteZone<'z>
    ensures { result ≡ new_session session.entry.past }
{
    session.into_desk().write(alloc)
}

/// Opens what is pending.
fn open(session: &mut WriteZone<'_>, create_diff: bool)
    ensures { session.new ≡ opened_session session.old create_diff }
{
    open_and_lend(session, create_diff);
}

/// Opens what is pending, and lends the session back.
fn open_and_lend<'s, 'z>(session: &'s mut WriteZone<'z>, create_diff: bool) -> &'s mut WriteZone<'z>
    ensures same_borrow { result.ghost_name ≡ session.entry.ghost_name }
    ensures opened { result.now ≡ opened_session session.old create_diff }
{
    session.open(create_diff).into_session()
}

/// Commits.
fn commit<R: Wait>(rt: &R, session: &mut WriteZone<'_>, bumps: bool) -> Result<(), CommitError>
    ensures made { OnOk result ((handles : CommitList) → Leads (events_of (Step.Commit bumps)) session.old handles session.new handles) }
    ensures err { OnErr result (session.new ≡ session.old) }
    ensures wish { OnOk result (session.new.compares ≡ false) }
    ensures exhausted { (result ≡ Err CommitError.VersionsExhausted) ↔ (session.old.current.number ≡ 2 ^ 64 - 1) }
{
    publish(rt, session, bumps)?;
    Ok(())
}

/// Commits, and keeps no difference.
fn publish<R: Wait>(rt: &R, session: &mut WriteZone<'_>, bumps: bool) -> Result<(), CommitError>
    ensures ok { OnOk result (session.new ≡ committed session.old bumps) }
    ensures err { OnErr result (session.new ≡ session.old) }
    ensures exhausted { (result ≡ Err CommitError.VersionsExhausted) ↔ (session.old.current.number ≡ 2 ^ 64 - 1) }
{
    session.commit(rt, bumps)?;
    Ok(())
}

/// Takes a handle of the current version.
fn read(session: &mut WriteZone<'_>, handles: &mut Vec<ReadZone>) -> Result<(), CommitError>
    ensures made { OnOk result (Leads (events_of Step.Read) session.old handles.old.items session.new handles.new.items) }
    ensures session_stays { session.new ≡ record session.old { has_handle = session.new.has_handle } }
    ensures handles_stay { OnErr result (handles.new.items ≡ handles.old.items) }
    ensures memory { IfErr result (λ e. e ≡ CommitError.Memory) }
{
    let handle = session.handle()?;
    keep(handles, handle)?;
    Ok(())
}

/// Copies the handle at a place.
fn copy(handles: &mut Vec<ReadZone>, handle: usize) -> Result<(), CommitError>
    ensures made { OnOk result ((s : Session) → Leads (events_of (Step.Copy handle)) s handles.old.items s handles.new.items) }
    ensures handles_stay { OnErr result (handles.new.items ≡ handles.old.items) }
    ensures there { OnErr result (handle < length handles.old.items) }
    ensures memory { IfErr result (λ e. e ≡ CommitError.Memory) }
{
    let Some(found) = handles.get(handle) else {
        return Ok(());
    };
    let copied = found.clone()?;
    keep(handles, copied)?;
    Ok(())
}

/// Puts a handle after the others.
fn keep(handles: &mut Vec<ReadZone>, handle: ReadZone) -> Result<(), AllocError>
    ensures ok { OnOk result (handles.new.items ≡ handles.old.items ++ handle ∷ []) }
    ensures err { OnErr result (handles.new.items ≡ handles.old.items) }
{
    handles.push(handle)?;
    Ok(())
}
