// The updater of a zone.
ghost use Rattle.std.specs.Prelude.{◌≡◌, ◌++◌, true, false, List, IfOk, IfErr, IfSome, OnOk, OnErr, IsOk, None, Ok, Err};
ghost use Rattle.zone_model.specs.Version.{Version};
ghost use Rattle.zone_reads.specs.Session.{with_pending, with_commit, rolled_back};
ghost use Rattle.zone_model.specs.Updates.{apply_update, after_refusal};
ghost use Rattle.xfr_model.specs.Applying.{commits};
ghost use Rattle.xfr_outcomes.specs.declared.update.Error.TheVariants.{VersionsExhausted, Memory};
ghost use Rattle.xfr_outcomes.specs.ZoneUpdates.{update_of};
ghost use Rattle.xfr_client.specs.Causes.{update_fault_of, HidesEdit};
ghost use Rattle.xfr_client.specs.Updating.{Leaves, progress_of, new_version, next_commit, lacks_number, told_by, wants_after};

use crate::updater_state::UpdaterState;
use dns_name::Labelled;
use dns_rdata::{Record, ZoneRecordData};
use std::alloc::{AllocError, Global};
use std::convert::AsSlice;
use std::marker::Model;
use std::sync::Wait;
use xfr_outcomes::ZoneUpdate;
use xfr_outcomes::update::Error;
use zone_diffs::InMemoryZoneDiff;
use zone_reads::ReadZone;
use zone_sessions::WriteZone;

/// Applies the updates of one transfer to the writing session that it borrows (RFC 5936, 3; RFC 1995, 4).
///
/// It can't be let go: `into_session` ends it, and gives the session back without what was pending.
pub struct ZoneUpdater<'s, 'z> {
    session: &'s mut WriteZone<'z>,
    updater: UpdaterState,
}

impl<'s, 'z> Model for ZoneUpdater<'s, 'z> {
    ghost use Rattle.xfr_client.specs.Borrowing.{OpenUpdater};

    ghost Value = { OpenUpdater };

    ghost view = { λ u. record { updater = u.updater; session = u.session.now; lender = u.session.ghost_name } };
}

impl<'s, 'z> ZoneUpdater<'s, 'z> {
    /// An updater of a session. It goes on with what is pending there.
    pub fn new(alloc: Global, session: &'s mut WriteZone<'z>) -> ZoneUpdater<'s, 'z>
        ensures updater { result.updater ≡ record { replacing = false; finished = false } }
        ensures session { result.session ≡ session.old }
        ensures lender { result.lender ≡ session.entry.ghost_name }
    {
        ZoneUpdater {
            session,
            updater: UpdaterState::new(alloc),
        }
    }

    /// Ends the updates, and gives the session back. What is pending is dropped; what was committed stays.
    pub fn into_session(self) -> &'s mut WriteZone<'z>
        ensures session { result.now ≡ rolled_back self.entry.session }
        ensures same_borrow { result.ghost_name ≡ self.entry.lender }
    {
        let ZoneUpdater { session, updater } = self;
        drop(updater);
        session.rollback();
        session
    }

    /// Whether each further update is refused as `Finished`.
    pub fn is_finished(&self) -> bool
        ensures { result ≡ self.now.updater.finished }
    {
        self.updater.is_finished()
    }

    /// A read handle of the session's current version; after an update that committed it takes no memory.
    pub fn handle(&mut self) -> Result<ReadZone, AllocError>
        ensures current { IfOk result (λ z. z ≡ self.old.session.current) }
        ensures ready { self.old.session.has_handle ≡ true → IsOk result }
        ensures same { self.new ≡ record self.old { session = record self.old.session { has_handle = self.new.session.has_handle } } }
    {
        self.session.handle()
    }

    /// Applies one update of a record of any names and data. What it commits is published without a new serial, and the difference that the commit
    /// tells is told (RFC 1995, 4), where one was wanted of it: after `BeginBatchDelete` one is wanted of the next commit. None is told of an
    /// update that commits nothing; `ZoneUpdate::commits` says beforehand which does. It may wait where it commits.
    ///
    /// `Finished` comes after the end and after `IncompatibleUpdate`; after the other refusals the updater goes on.
    /// After `Memory` or `VersionsExhausted` the same update may be applied again; where it was `Finished` the new SOA
    /// may be pending already. An update that lacks both memory and a number is answered by either. Want of memory hides neither `Finished` nor
    /// `NotSoaRecord`; the data of a record are put in memory of their own first, so it may hide the other three.
    pub fn apply<R: Wait, O: AsSlice<u8> + Drop, N: Labelled + Drop>(
        &mut self,
        rt: &R,
        update: ZoneUpdate<Record<N, ZoneRecordData<O, N>>>,
    ) -> Result<Option<InMemoryZoneDiff>, Error>
        ensures ok { (before : List Version) → OnOk result (apply_update (progress_of self.old.updater self.old.session before) (update_of update)
            ≡ Ok (progress_of self.new.updater self.new.session (before ++ new_version (commits (update_of update)) self.new.session))) }
        ensures refused { (before : List Version) → IfErr result (λ e. IfSome (update_fault_of e) (λ why. (apply_update (progress_of self.old.updater self.old.session before) (update_of update) ≡ Err why)
            × (progress_of self.new.updater self.new.session before ≡ after_refusal (progress_of self.old.updater self.old.session before) why))) }
        ensures difference { IfOk result (λ told. told ≡ told_by self.old.session (update_of update)) }
        // A batch's begin leaves the wish for a difference, and the end leaves none.
        ensures wish { OnOk result (self.new.session.compares ≡ wants_after self.old.session.compares (update_of update)) }
        ensures current { OnOk result (self.new.session.current ≡ next_commit (commits (update_of update)) self.old.session.current self.new.session.current.version) }
        // A commit is added to the zone's history, and nothing else is.
        ensures history { OnOk result (commits (update_of update) ≡ true → self.new.session.past ≡ with_commit self.old.session.past self.new.session.current) }
        ensures ready { OnOk result (commits (update_of update) ≡ true → self.new.session.has_handle ≡ true) }
        ensures kept { OnOk result (commits (update_of update) ≡ false → self.new.session ≡ with_pending self.old.session self.new.session.pending) }
        ensures err { OnErr result (self.new.session ≡ with_pending self.old.session self.new.session.pending) }
        ensures left { OnErr result (Leaves (update_of update) self.old.session self.new.session) }
        // No commit goes past the greatest number.
        ensures numbered { OnOk result (lacks_number self.old.session.current.number (update_of update) ≡ false) }
        ensures exhausted { (before : List Version) → result ≡ Err VersionsExhausted → (lacks_number self.old.session.current.number (update_of update) ≡ true)
            × IsOk (apply_update (progress_of self.old.updater self.old.session before) (update_of update)) }
        // Want of memory hides neither the end nor another type of record.
        ensures memory { (before : List Version) → result ≡ Err Memory → HidesEdit (apply_update (progress_of self.old.updater self.old.session before) (update_of update)) }
        // Want of memory or of a number changes nothing of the updater.
        ensures unchanged { IfErr result (λ e. update_fault_of e ≡ None → self.new.updater ≡ self.old.updater) }
        ensures lender { self.new.lender ≡ self.old.lender }
    {
        self.updater.apply(rt, self.session, update)
    }
}
