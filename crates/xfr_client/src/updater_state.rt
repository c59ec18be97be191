// What an updater of a zone keeps beside its session, and what each update does.
ghost use Rattle.std.specs.Prelude.{◌≡◌, ◌↔◌, ◌++◌, ◌^◌, ◌-◌, [], true, false, List, IfOk, IfErr, IfSome, OnOk, OnErr, IsOk, Some, None, Ok, Err};
ghost use Rattle.zone_model.specs.TransferText.{is_soa};
ghost use Rattle.zone_model.specs.Version.{Version};
ghost use Rattle.zone_model.specs.Edits.{with_sets, set_soa};
ghost use Rattle.zone_reads.specs.Session.{with_pending, with_commit, committed, told_difference};
ghost use Rattle.zone_model.specs.Updates as updates;
ghost use Rattle.zone_model.specs.Updates.{UpdateFault, apply_update, after_refusal};
ghost use Rattle.xfr_model.specs.Applying.{commits};
ghost use Rattle.xfr_outcomes.specs.declared.update.Error.TheVariants.{VersionsExhausted, Memory};
ghost use Rattle.dns_rdata.specs.DataFields.{soa_fields};
ghost use Rattle.zone_versions.specs.Puts.{with_soa};
ghost use Rattle.xfr_outcomes.specs.ZoneUpdates.{update_of};
ghost use Rattle.xfr_client.specs.Causes.{update_fault_of, HidesEdit};
ghost use Rattle.xfr_client.specs.Updating.{Leaves, progress_of, new_version, next_commit, lacks_number, told_by, wants_after};

use dns_name::{Labelled, StoredName};
use dns_numbers::Ttl;
use dns_rdata::{Record, RecordData, Soa, ZoneRecordData};
use std::alloc::Global;
use std::convert::AsSlice;
use std::marker::Model;
use std::sync::Wait;
use xfr_outcomes::ZoneUpdate;
use xfr_outcomes::update::Error;
use zone_diffs::InMemoryZoneDiff;
use zone_sessions::{CommitError, EditError, WriteZone};

/// The two flags that an updater keeps beside its session, which it is handed with each update.
#[derive(Drop)]
pub(crate) struct UpdaterState {
    alloc: Global,
    // Equal data are passed over, from DeleteAllRecords to the next commit.
    is_replacing: bool,
    // The end came, or an update that didn't fit.
    is_finished: bool,
}

impl Model for UpdaterState {
    ghost use Rattle.xfr_client.specs.Updating.{Updating};

    ghost Value = { Updating };

    ghost view = { λ u. record { replacing = u.is_replacing; finished = u.is_finished } };
}

impl UpdaterState {
    /// The state before the first update.
    pub(crate) fn new(alloc: Global) -> UpdaterState
        ensures { result ≡ record { replacing = false; finished = false } }
    {
        UpdaterState {
            alloc,
            is_replacing: false,
            is_finished: false,
        }
    }

    /// Whether each further update is refused as `Finished`.
    pub(crate) fn is_finished(&self) -> bool
        ensures { result ≡ self.now.finished }
    {
        self.is_finished
    }

    /// Applies one update, as `ZoneUpdater::apply` says it.
    #[tactic(auto, using(crate::proofs::Hiding::hides_clear, crate::proofs::Hiding::hides_delete, crate::proofs::Hiding::hides_add, crate::proofs::Hiding::hides_begin, crate::proofs::Hiding::hides_soa, crate::proofs::Hiding::hides_end))]
    pub(crate) fn apply<R: Wait, O: AsSlice<u8> + Drop, N: Labelled + Drop>(
        &mut self,
        rt: &R,
        session: &mut WriteZone<'_>,
        update: ZoneUpdate<Record<N, ZoneRecordData<O, N>>>,
    ) -> Result<Option<InMemoryZoneDiff>, Error>
        ensures ok { (before : List Version) → OnOk result (apply_update (progress_of self.old session.old before) (update_of update) ≡ Ok (progress_of self.new session.new (before ++ new_version (commits (update_of update)) session.new))) }
        ensures refused { (before : List Version) → IfErr result (λ e. IfSome (update_fault_of e) (λ why. (apply_update (progress_of self.old session.old before) (update_of update) ≡ Err why) × (progress_of self.new session.new before ≡ after_refusal (progress_of self.old session.old before) why))) }
        ensures difference { IfOk result (λ told. told ≡ told_by session.old (update_of update)) }
        // A batch's begin leaves the wish for a difference, and the end leaves none.
        ensures wish { OnOk result (session.new.compares ≡ wants_after session.old.compares (update_of update)) }
        ensures current { OnOk result (session.new.current ≡ next_commit (commits (update_of update)) session.old.current session.new.current.version) }
        ensures history { OnOk result (commits (update_of update) ≡ true → session.new.past ≡ with_commit session.old.past session.new.current) }
        ensures ready { OnOk result (commits (update_of update) ≡ true → session.new.has_handle ≡ true) }
        ensures kept { OnOk result (commits (update_of update) ≡ false → session.new ≡ with_pending session.old session.new.pending) }
        ensures err { OnErr result (session.new ≡ with_pending session.old session.new.pending) }
        ensures left { OnErr result (Leaves (update_of update) session.old session.new) }
        // No commit goes past the greatest number.
        ensures numbered { OnOk result (lacks_number session.old.current.number (update_of update) ≡ false) }
        ensures exhausted { (before : List Version) → result ≡ Err VersionsExhausted → (lacks_number session.old.current.number (update_of update) ≡ true) × IsOk (apply_update (progress_of self.old session.old before) (update_of update)) }
        // Want of memory hides neither the end nor another type of record.
        ensures memory { (before : List Version) → result ≡ Err Memory → HidesEdit (apply_update (progress_of self.old session.old before) (update_of update)) }
        // Want of memory or of a number changes nothing of the updater.
        ensures unchanged { IfErr result (λ e. update_fault_of e ≡ None → self.new ≡ self.old) }
    {
        if self.is_finished {
            drop(update);
            return Err(Error::Finished);
        }
        match update {
            ZoneUpdate::DeleteAllRecords => {
                clear(session)?;
                self.is_replacing = true;
                Ok(None)
            }
            ZoneUpdate::DeleteRecord(deleted) => {
                let done = self.delete(session, &deleted);
                drop(deleted);
                done?;
                Ok(None)
            }
            ZoneUpdate::AddRecord(added) => {
                let done = self.add(session, &added);
                drop(added);
                done?;
                Ok(None)
            }
            ZoneUpdate::BeginBatchDelete(soa) => {
                drop(soa);
                let told = self.publish(rt, session)?;
                session.want_difference(true);
                Ok(told)
            }
            ZoneUpdate::BeginBatchAdd(soa) => {
                let put = put_soa(self.alloc, session, &soa);
                drop(soa);
                put?;
                Ok(None)
            }
            ZoneUpdate::Finished(soa) => {
                let put = put_soa(self.alloc, session, &soa);
                drop(soa);
                put?;
                let told = self.publish(rt, session)?;
                self.is_finished = true;
                Ok(told)
            }
        }
    }

    // What is pending is published, and told is what the commit tells.
    fn publish<R: Wait>(
        &mut self,
        rt: &R,
        session: &mut WriteZone<'_>,
    ) -> Result<Option<InMemoryZoneDiff>, Error>
        ensures ok { OnOk result ((self.new ≡ record { replacing = false; finished = self.old.finished }) × (session.new ≡ committed session.old false)) }
        ensures difference { IfOk result (λ told. told ≡ told_difference session.old false) }
        ensures err { IfErr result (λ e. (self.new ≡ self.old) × (session.new ≡ session.old) × (update_fault_of e ≡ None)) }
        ensures exhausted { (result ≡ Err VersionsExhausted) ↔ (session.old.current.number ≡ 2 ^ 64 - 1) }
    {
        let told = commit(rt, session)?;
        self.is_replacing = false;
        Ok(told)
    }

    // One record less.
    #[tactic(auto, using(crate::proofs::Deleting::update_deleted, crate::proofs::Deleting::update_not_deleted))]
    fn delete<O: AsSlice<u8> + Drop, N: Labelled + Drop>(
        &mut self,
        session: &mut WriteZone<'_>,
        deleted: &Record<N, ZoneRecordData<O, N>>,
    ) -> Result<(), Error>
        ensures ok { (before : List Version) → self.old.finished ≡ false → OnOk result (apply_update (progress_of self.old session.old before) (updates.DeleteRecord deleted.now) ≡ Ok (progress_of self.new session.new before)) }
        ensures refused { (before : List Version) → self.old.finished ≡ false → IfErr result (λ e. IfSome (update_fault_of e) (λ why. (apply_update (progress_of self.old session.old before) (updates.DeleteRecord deleted.now) ≡ Err why) × (progress_of self.new session.new before ≡ after_refusal (progress_of self.old session.old before) why))) }
        ensures numbered { result ≡ Err VersionsExhausted → ⊥ }
        ensures else_same { session.new ≡ with_pending session.old session.new.pending }
        ensures err { OnErr result (session.new ≡ session.old) }
        ensures unchanged { IfErr result (λ e. update_fault_of e ≡ None → self.new ≡ self.old) }
    {
        match session.delete_any(deleted) {
            Ok(()) => Ok(()),
            Err(EditError::Incompatible) => {
                self.is_finished = true;
                Err(Error::IncompatibleUpdate)
            }
            Err(EditError::OutOfZone) => Err(Error::OutOfZone),
            Err(EditError::InvalidData) => Err(Error::InvalidData),
            Err(EditError::Memory) => Err(Error::Memory),
        }
    }

    // One record more; data that the set has are passed over while the zone is replaced (RFC 5936, 2.2).
    #[tactic(auto, using(crate::proofs::Adding::update_added, crate::proofs::Adding::update_passed, crate::proofs::Adding::update_not_passed, crate::proofs::Adding::update_outside, crate::proofs::Adding::update_bad_data))]
    fn add<O: AsSlice<u8> + Drop, N: Labelled + Drop>(
        &mut self,
        session: &mut WriteZone<'_>,
        added: &Record<N, ZoneRecordData<O, N>>,
    ) -> Result<(), Error>
        ensures ok { (before : List Version) → self.old.finished ≡ false → OnOk result (apply_update (progress_of self.old session.old before) (updates.AddRecord added.now) ≡ Ok (progress_of self.new session.new before)) }
        ensures refused { (before : List Version) → self.old.finished ≡ false → IfErr result (λ e. IfSome (update_fault_of e) (λ why. (apply_update (progress_of self.old session.old before) (updates.AddRecord added.now) ≡ Err why) × (progress_of self.new session.new before ≡ after_refusal (progress_of self.old session.old before) why))) }
        ensures numbered { result ≡ Err VersionsExhausted → ⊥ }
        ensures else_same { session.new ≡ with_pending session.old session.new.pending }
        ensures err { OnErr result (session.new ≡ session.old) }
        ensures unchanged { IfErr result (λ e. update_fault_of e ≡ None → self.new ≡ self.old) }
    {
        match session.add_any(added) {
            Ok(()) => Ok(()),
            Err(EditError::Incompatible) => {
                if self.is_replacing {
                    return Ok(());
                }
                self.is_finished = true;
                Err(Error::IncompatibleUpdate)
            }
            Err(EditError::OutOfZone) => Err(Error::OutOfZone),
            Err(EditError::InvalidData) => Err(Error::InvalidData),
            Err(EditError::Memory) => Err(Error::Memory),
        }
    }
}

// No record is pending.
fn clear(session: &mut WriteZone<'_>) -> Result<(), Error>
    ensures ok { OnOk result (session.new ≡ with_pending session.old (with_sets session.old.pending [])) }
    ensures err { IfErr result (λ e. (session.new ≡ session.old) × (e ≡ Memory)) }
{
    match session.clear_all() {
        Ok(()) => Ok(()),
        Err(_) => Err(Error::Memory),
    }
}

// The apex SOA set is this one record, whatever its owner and class.
fn put_soa<O: AsSlice<u8> + Drop, N: Labelled + Drop>(
    alloc: Global,
    session: &mut WriteZone<'_>,
    soa: &Record<N, ZoneRecordData<O, N>>,
) -> Result<(), Error>
    ensures ok { OnOk result ((is_soa soa.now ≡ true) × (session.new ≡ with_pending session.old (set_soa session.old.pending soa.now))) }
    ensures err { OnErr result (session.new ≡ session.old) }
    ensures refused { IfErr result (λ e. IfSome (update_fault_of e) (λ why. (is_soa soa.now ≡ false) × (why ≡ updates.NotSoaRecord))) }
    ensures memory { result ≡ Err Memory → is_soa soa.now ≡ true }
    ensures numbered { result ≡ Err VersionsExhausted → ⊥ }
{
    match soa.data() {
        ZoneRecordData::Soa(data) => match data.flatten(alloc) {
            Ok(data) => put_data(session, soa.ttl(), data),
            Err(_) => Err(Error::Memory),
        },
        ZoneRecordData::Unknown(octets) => {
            // For the proof: octets of an unknown type aren't SOA data.
            let _ = octets.rdlen();
            Err(Error::NotSoaRecord)
        }
        _ => Err(Error::NotSoaRecord),
    }
}

// The apex SOA set is one record of these data.
fn put_data(session: &mut WriteZone<'_>, ttl: Ttl, data: Soa<StoredName>) -> Result<(), Error>
    ensures ok { OnOk result (session.new ≡ with_pending session.old (with_soa session.old.pending ttl (soa_fields (λ n. n) «data»))) }
    ensures err { IfErr result (λ e. (session.new ≡ session.old) × (e ≡ Memory)) }
{
    match session.set_soa(ttl, data) {
        Ok(()) => Ok(()),
        Err(_) => Err(Error::Memory),
    }
}

// What is pending is published, and told is what the commit tells.
fn commit<R: Wait>(rt: &R, session: &mut WriteZone<'_>) -> Result<Option<InMemoryZoneDiff>, Error>
    ensures ok { OnOk result (session.new ≡ committed session.old false) }
    ensures difference { IfOk result (λ told. told ≡ told_difference session.old false) }
    ensures err { IfErr result (λ e. (session.new ≡ session.old) × (update_fault_of e ≡ None)) }
    ensures exhausted { (result ≡ Err VersionsExhausted) ↔ (session.old.current.number ≡ 2 ^ 64 - 1) }
{
    match session.commit(rt, false) {
        Ok(told) => Ok(told),
        Err(CommitError::VersionsExhausted) => Err(Error::VersionsExhausted),
        Err(CommitError::Memory) => Err(Error::Memory),
    }
}
