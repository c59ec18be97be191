// A session that writes a zone's next versions.
ghost use Rattle.std.specs.Prelude.{◌≡◌, ◌↔◌, ◌+◌, ◌-◌, ◌^◌, [], Ok, Err, Some, IfOk, IfErr, IfSome, IfNone, OnOk, OnErr, IsOk, IsErr, IsTrue, true, false, option_copied, option_map};
ghost use Rattle.published.specs.Commits.{latest, IsNumbered};
ghost use Rattle.zone_model.specs.Commits.{Commit};
ghost use Rattle.zone_model.specs.Edits.{add, delete, with_sets};
ghost use Rattle.zone_model.specs.Edits as edits;
ghost use Rattle.zone_model.specs.Version.{set_at};
ghost use Rattle.zone_values.specs.TypedEntries.{typed};
ghost use Rattle.zone_reads.specs.Session.{opened_session, new_session, with_pending, closed, committed, rolled_back, told_difference};
ghost use Rattle.zone_versions.specs.Held.{counted};
ghost use Rattle.zone_versions.specs.Trees.{built};
ghost use Rattle.zone_versions.specs.Causes.{refusal_of};
ghost use Rattle.zone_versions.specs.Puts.{StandsAt, without, with_soa};
ghost use Rattle.dns_name.specs.Names.{fold};
ghost use Rattle.dns_rdata.specs.DataFields.{soa_fields};
ghost use Rattle.dns_rdata.specs.Records.{Record as RecordOf};
ghost use Rattle.dns_rdata.specs.ZoneData.{rtype_of, data_fields};
ghost use Rattle.zone_changes.specs.Drafts.{draft};
ghost use Rattle.zone_sessions.specs.Pending.{after_publication, told_of};

use crate::desk::Desk;
use dns_name::{Labelled, StoredName};
use dns_numbers::{Rtype, Ttl};
use dns_rdata::{Record, RecordData, Soa, StoredRecord, StoredRecordData, ZoneRecordData};
use std::alloc::{AllocError, Global};
use std::convert::AsSlice;
use std::marker::Model;
use std::sync::Wait;
use zone_changes::{ClosedDraft, Draft};
use zone_diffs::InMemoryZoneDiff;
use zone_reads::{ReadZone, Receipt};
use zone_values::{CommitError, Rrset, SetKey};
use zone_versions::{EditError, NodeCount, ZoneVersion};

/// The one session of a zone: it edits what is pending, and publishes it by `commit`. What is pending when it is dropped is gone.
#[derive(Drop)]
pub struct WriteZone<'z> {
    alloc: Global,
    desk: &'z mut Desk,
    pending: Option<Draft>,
    compares: bool,
    spare: Option<ReadZone>,
}

impl<'z> Model for WriteZone<'z> {
    ghost use Rattle.std.specs.Prelude.{◌≡◌, is_some, option_map, IfSome};
    ghost use Rattle.zone_reads.specs.Session.{Session};
    ghost use Rattle.zone_changes.specs.Drafts.{version_of};
    ghost use Rattle.zone_sessions.specs.Pending.{pending_of};

    ghost Value = { Session };

    ghost view = { λ s. record { past = s.desk.now; current = s.desk.now.last; pending = pending_of s.desk.now.last.version (option_map version_of s.pending); compares = s.compares; has_handle = is_some s.spare } };

    ghost invariant = { λ s. IfSome s.spare (λ z. z ≡ s.desk.now.last) × IfSome s.pending (λ d. d.base ≡ s.desk.now.last.version) };
}

/// What a commit publishes, one more handle of that, and the difference that it tells.
#[derive(Drop)]
struct Publication {
    next: ReadZone,
    spare: ReadZone,
    told: Option<InMemoryZoneDiff>,
}

impl<'z> WriteZone<'z> {
    /// A session of a zone with nothing edited.
    pub(crate) fn of(alloc: Global, desk: &'z mut Desk) -> WriteZone<'z>
        ensures { result ≡ new_session desk.old }
    {
        WriteZone {
            alloc,
            desk,
            pending: None,
            compares: false,
            spare: None,
        }
    }

    /// With `wanted` the next commit is to tell the difference, as `open` says it with a node.
    pub fn want_difference(&mut self, wanted: bool)
        ensures { self.new ≡ opened_session self.old wanted }
    {
        self.compares = self.compares || wanted;
    }

    /// What is pending, lent.
    pub(crate) fn shown(&self) -> &ZoneVersion
        ensures { result.now ≡ self.now.pending }
    {
        match &self.pending {
            Some(pending) => pending.shown(),
            None => self.desk.current().contents(),
        }
    }

    /// Whether a record's data stand in its pending set.
    pub fn has_data(&self, added: &StoredRecord) -> bool
        ensures { result ≡ edits.has_data self.now.pending added.now }
    {
        self.shown().has_data(added)
    }

    /// Whether `add_record` refuses a record. It takes no memory.
    #[tactic(auto, using(crate::proofs::Refused::refused_is_err, crate::proofs::Refused::taken_is_ok))]
    pub fn refuses(&self, added: &StoredRecord) -> bool
        ensures refused { result ≡ true → IsErr (add self.now.pending added.now) }
        ensures accepted { result ≡ false → IsOk (add self.now.pending added.now) }
    {
        match self.shown().refusal(added) {
            Some(_) => true,
            None => false,
        }
    }

    /// The pending set of an owner and type.
    pub fn rrset_at<N: Labelled>(&self, owner: &N, rtype: Rtype) -> Option<&Rrset>
        ensures { option_copied result ≡ option_map (typed rtype) (set_at self.now.pending (N.labels owner.now) rtype) }
    {
        self.shown().set_at(owner, rtype)
    }

    /// Takes what is pending out to be edited.
    pub(crate) fn take_pending(&mut self) -> Result<Draft, AllocError>
        ensures ok { IfOk result (λ d. d ≡ draft self.old.current.version self.old.pending) }
        ensures rest { OnOk result (self.new ≡ with_pending self.old self.old.current.version) }
        ensures err { OnErr result (self.new ≡ self.old) }
    {
        match self.take_edited() {
            Some(pending) => Ok(pending),
            None => Draft::of(self.alloc, self.desk.current().share()?),
        }
    }

    /// Takes what is pending out, where something was edited.
    fn take_edited(&mut self) -> Option<Draft>
        ensures some { IfSome result (λ d. d ≡ draft self.old.current.version self.old.pending) }
        ensures none { IfNone result (self.new ≡ self.old) }
        ensures rest { self.new ≡ with_pending self.old self.old.current.version }
    {
        self.pending.take()
    }

    /// Makes an edited version what is pending.
    pub(crate) fn keep(&mut self, pending: Draft)
        requires { pending.base ≡ self.old.current.version }
        ensures { self.new ≡ with_pending self.old pending.version }
    {
        drop(self.pending.replace(pending));
    }

    /// Where memory comes from.
    pub(crate) fn memory(&self) -> Global {
        self.alloc
    }

    /// Adds a record: its data come last, and its TTL becomes the set's. The class isn't looked at. Refused are, tested in this order, an
    /// owner outside the zone, data that the set has already (`Incompatible`), and a second CNAME below the apex (`InvalidData`).
    pub fn add_record(&mut self, added: StoredRecord) -> Result<(), EditError>
        ensures ok { OnOk result (add self.old.pending added ≡ Ok self.new.pending) }
        ensures refused { IfErr result (λ e. IfSome (refusal_of e) (λ why. add self.old.pending added ≡ Err why)) }
        ensures memory { (result ≡ Err EditError.Memory) → IsOk (add self.old.pending added) }
        ensures else_same { self.new ≡ with_pending self.old self.new.pending }
        ensures err { OnErr result (self.new ≡ self.old) }
    {
        let mut steps = NodeCount::new();
        self.add_record_counted(added, &mut steps)
    }

    /// Adds a record as `add_record` does, and counts the nodes which that builds. An edit that fails counts nothing.
    pub fn add_record_counted(
        &mut self,
        added: StoredRecord,
        steps: &mut NodeCount,
    ) -> Result<(), EditError>
        ensures ok { OnOk result (add self.old.pending added ≡ Ok self.new.pending) }
        ensures refused { IfErr result (λ e. IfSome (refusal_of e) (λ why. add self.old.pending added ≡ Err why)) }
        ensures memory { (result ≡ Err EditError.Memory) → IsOk (add self.old.pending added) }
        ensures else_same { self.new ≡ with_pending self.old self.new.pending }
        ensures err { OnErr result (self.new ≡ self.old) }
        ensures steps { OnOk result (steps.new ≡ counted steps.old (built self.old.pending self.new.pending added.owner added.rtype)) }
        ensures uncounted { OnErr result (steps.new ≡ steps.old) }
    {
        let (owner, _, ttl, item) = added.into_parts();
        let done = self.add_at(&owner, ttl, item, steps);
        drop(owner);
        done
    }

    /// Adds a record of any names and data, as `add_record` does. Its data are put in memory of their own first: want of memory for that may come
    /// in the place of a refusal.
    pub fn add_any<O: AsSlice<u8> + Drop, N: Labelled + Drop>(
        &mut self,
        added: &Record<N, ZoneRecordData<O, N>>,
    ) -> Result<(), EditError>
        ensures ok { OnOk result (add self.old.pending added.now ≡ Ok self.new.pending) }
        ensures refused { IfErr result (λ e. IfSome (refusal_of e) (λ why. add self.old.pending added.now ≡ Err why)) }
        ensures else_same { self.new ≡ with_pending self.old self.new.pending }
        ensures err { OnErr result (self.new ≡ self.old) }
    {
        let item = added.data().flatten(self.alloc)?;
        let mut steps = NodeCount::new();
        self.add_at(added.owner(), added.ttl(), item, &mut steps)
    }

    /// Adds the data of a record at its owner. Where nothing was edited, a record that is refused copies nothing.
    fn add_at<N: Labelled>(
        &mut self,
        owner: &N,
        ttl: Ttl,
        item: StoredRecordData,
        steps: &mut NodeCount,
    ) -> Result<(), EditError>
        ensures ok { (r : RecordOf) → StandsAt (fold (N.labels owner.now), rtype_of item) ttl (data_fields item) r → OnOk result (add self.old.pending r ≡ Ok self.new.pending) }
        ensures refused { (r : RecordOf) → StandsAt (fold (N.labels owner.now), rtype_of item) ttl (data_fields item) r → IfErr result (λ e. IfSome (refusal_of e) (λ why. add self.old.pending r ≡ Err why)) }
        ensures memory { (r : RecordOf) → StandsAt (fold (N.labels owner.now), rtype_of item) ttl (data_fields item) r → result ≡ Err EditError.Memory → IsOk (add self.old.pending r) }
        ensures else_same { self.new ≡ with_pending self.old self.new.pending }
        ensures err { OnErr result (self.new ≡ self.old) }
        ensures steps { OnOk result (steps.new ≡ counted steps.old (built self.old.pending self.new.pending (fold (N.labels owner.now)) (rtype_of item))) }
        ensures uncounted { OnErr result (steps.new ≡ steps.old) }
    {
        let key = SetKey::new(owner, item.rtype());
        match &mut self.pending {
            Some(pending) => return pending.add(self.alloc, key, ttl, item, steps),
            None => {}
        }
        self.add_first(key, ttl, item, steps)
    }

    /// Adds the data of a record, which are of the key's type, to the published version, which is copied only where they aren't refused.
    fn add_first(
        &mut self,
        key: SetKey,
        ttl: Ttl,
        item: StoredRecordData,
        steps: &mut NodeCount,
    ) -> Result<(), EditError>
        requires { rtype_of item ≡ key.1 }
        ensures ok { (r : RecordOf) → StandsAt key ttl (data_fields item) r → OnOk result (add self.old.pending r ≡ Ok self.new.pending) }
        ensures refused { (r : RecordOf) → StandsAt key ttl (data_fields item) r → IfErr result (λ e. IfSome (refusal_of e) (λ why. add self.old.pending r ≡ Err why)) }
        ensures memory { (r : RecordOf) → StandsAt key ttl (data_fields item) r → result ≡ Err EditError.Memory → IsOk (add self.old.pending r) }
        ensures else_same { self.new ≡ with_pending self.old self.new.pending }
        ensures err { OnErr result (self.new ≡ self.old) }
        ensures steps { OnOk result (steps.new ≡ counted steps.old (built self.old.pending self.new.pending key.0 key.1)) }
        ensures uncounted { OnErr result (steps.new ≡ steps.old) }
    {
        if let Some(error) = self.shown().refusal_at(&key, &item) {
            drop(item);
            return Err(error);
        }
        let mut pending = match self.take_pending() {
            Ok(pending) => pending,
            Err(_) => {
                drop(item);
                return Err(EditError::Memory);
            }
        };
        let added = pending.add(self.alloc, key, ttl, item, steps);
        self.keep(pending);
        added
    }

    /// Deletes a record: the data equal to its own, whatever the TTL. The data that stay get the TTL of the record, and a set without data is removed.
    /// The class isn't looked at. Refused are, tested in this order, an owner outside the zone and data that the set lacks (`Incompatible`).
    pub fn delete_record(&mut self, deleted: &StoredRecord) -> Result<(), EditError>
        ensures ok { OnOk result (delete self.old.pending deleted.now ≡ Ok self.new.pending) }
        ensures refused { IfErr result (λ e. IfSome (refusal_of e) (λ why. delete self.old.pending deleted.now ≡ Err why)) }
        ensures memory { (result ≡ Err EditError.Memory) → IsOk (delete self.old.pending deleted.now) }
        ensures else_same { self.new ≡ with_pending self.old self.new.pending }
        ensures err { OnErr result (self.new ≡ self.old) }
    {
        let mut steps = NodeCount::new();
        self.delete_record_counted(deleted, &mut steps)
    }

    /// Deletes a record as `delete_record` does, and counts the nodes which that builds. An edit that fails counts nothing.
    pub fn delete_record_counted(
        &mut self,
        deleted: &StoredRecord,
        steps: &mut NodeCount,
    ) -> Result<(), EditError>
        ensures ok { OnOk result (delete self.old.pending deleted.now ≡ Ok self.new.pending) }
        ensures refused { IfErr result (λ e. IfSome (refusal_of e) (λ why. delete self.old.pending deleted.now ≡ Err why)) }
        ensures memory { (result ≡ Err EditError.Memory) → IsOk (delete self.old.pending deleted.now) }
        ensures else_same { self.new ≡ with_pending self.old self.new.pending }
        ensures err { OnErr result (self.new ≡ self.old) }
        ensures steps { OnOk result (steps.new ≡ counted steps.old (built self.old.pending self.new.pending deleted.now.owner deleted.now.rtype)) }
        ensures uncounted { OnErr result (steps.new ≡ steps.old) }
    {
        if let Some(error) = self.shown().deletion_refusal(deleted) {
            return Err(error);
        }
        let mut pending = self.take_pending()?;
        let removed = pending.remove(deleted, steps);
        self.keep(pending);
        Ok(removed?)
    }

    /// Deletes a record of any names and data, as `delete_record` does. It is put in memory of its own first: want of memory for that may come
    /// in the place of a refusal.
    pub fn delete_any<O: AsSlice<u8> + Drop, N: Labelled + Drop>(
        &mut self,
        deleted: &Record<N, ZoneRecordData<O, N>>,
    ) -> Result<(), EditError>
        ensures ok { OnOk result (delete self.old.pending deleted.now ≡ Ok self.new.pending) }
        ensures refused { IfErr result (λ e. IfSome (refusal_of e) (λ why. delete self.old.pending deleted.now ≡ Err why)) }
        ensures else_same { self.new ≡ with_pending self.old self.new.pending }
        ensures err { OnErr result (self.new ≡ self.old) }
    {
        let stored = stored_of(self.alloc, deleted)?;
        let removed = self.delete_record(&stored);
        drop(stored);
        removed
    }

    /// Makes the apex SOA set this one record.
    pub fn set_soa(&mut self, ttl: Ttl, soa: Soa<StoredName>) -> Result<(), AllocError>
        ensures ok { OnOk result (self.new ≡ with_pending self.old (with_soa self.old.pending ttl (soa_fields (λ n. n) soa))) }
        ensures err { OnErr result (self.new ≡ self.old) }
    {
        let alloc = self.alloc;
        let mut pending = self.take_pending()?;
        let put = pending.set_soa(alloc, ttl, soa);
        self.keep(pending);
        put
    }

    /// Removes every set.
    pub fn clear_all(&mut self) -> Result<(), AllocError>
        ensures ok { OnOk result (self.new ≡ with_pending self.old (with_sets self.old.pending [])) }
        ensures err { OnErr result (self.new ≡ self.old) }
    {
        let alloc = self.alloc;
        let mut pending = self.take_pending()?;
        let cleared = pending.clear_all(alloc);
        self.keep(pending);
        cleared
    }

    /// Publishes what is pending, without DS sets below the apex that lack NS (RFC 4035, 2.4), as the zone's current version with the next number.
    /// With `bump_soa_serial` a pending SOA that is absent, or as published, becomes the published one with the next serial (RFC 1982, 3.1).
    /// Told is the difference to the version before (RFC 1995, 4), where it was asked for since the last commit or rollback (`open`), both
    /// versions have an SOA record at the apex, and the new serial is neither the old one nor before it.
    pub fn commit<R: Wait>(
        &mut self,
        rt: &R,
        bump_soa_serial: bool,
    ) -> Result<Option<InMemoryZoneDiff>, CommitError>
        ensures ok { OnOk result (self.new ≡ committed self.old bump_soa_serial) }
        ensures difference { IfOk result (λ told. told ≡ told_difference self.old bump_soa_serial) }
        ensures exhausted { (result ≡ Err CommitError.VersionsExhausted) ↔ (self.old.current.number ≡ 2 ^ 64 - 1) }
        ensures err { OnErr result (self.new ≡ self.old) }
    {
        let number = self.desk.current().version_number();
        if number == u64::MAX {
            return Err(CommitError::VersionsExhausted);
        }
        let closed = self.close_pending(bump_soa_serial)?;
        match self.publish(rt, number + 1, &closed) {
            Ok(told) => {
                drop(closed);
                Ok(told)
            }
            Err(error) => {
                self.keep(closed.into_draft());
                Err(CommitError::from(error))
            }
        }
    }

    /// Publishes what was pending until it was closed, under the next number, and tells the difference.
    fn publish<R: Wait>(
        &mut self,
        rt: &R,
        number: u64,
        closed: &ClosedDraft,
    ) -> Result<Option<InMemoryZoneDiff>, AllocError>
        requires { number ≡ self.old.current.number + 1 }
        ensures ok { OnOk result (self.new ≡ after_publication self.old closed.now.version) }
        ensures told { IfOk result (λ told. told ≡ told_of self.old.compares closed.now) }
        ensures err { OnErr result (self.new ≡ self.old) }
    {
        let Publication { next, spare, told } = self.publication(number, closed)?;
        match self.desk.publish(rt, next) {
            Ok(()) => {
                drop(self.pending.take());
                self.compares = false;
                drop(self.spare.replace(spare));
                Ok(told)
            }
            Err(error) => {
                drop(told);
                drop(spare);
                Err(error)
            }
        }
    }

    /// Takes what is pending out as a commit is to publish it.
    fn close_pending(&mut self, bumps: bool) -> Result<ClosedDraft, AllocError>
        ensures before { IfOk result (λ c. c.before ≡ draft self.old.current.version self.old.pending) }
        ensures version { IfOk result (λ c. c.version ≡ closed self.old bumps) }
        ensures rest { OnOk result (self.new ≡ with_pending self.old self.old.current.version) }
        ensures err { OnErr result (self.new ≡ self.old) }
    {
        match self.take_pending()?.into_closed(bumps) {
            Ok(closed) => Ok(closed),
            Err(pending) => {
                self.keep(pending);
                Err(AllocError)
            }
        }
    }

    /// What a commit with this number publishes, hands out and tells.
    fn publication(&self, number: u64, closed: &ClosedDraft) -> Result<Publication, AllocError>
        ensures next { IfOk result (λ p. p.next ≡ record { number = number; version = closed.now.version }) }
        ensures spare { IfOk result (λ p. p.spare ≡ record { number = number; version = closed.now.version }) }
        ensures told { IfOk result (λ p. p.told ≡ told_of self.now.compares closed.now) }
    {
        let next = ReadZone::of(number, closed.share()?);
        match next.clone() {
            Ok(spare) => self.publication_of(next, spare, closed),
            Err(error) => {
                drop(next);
                Err(error)
            }
        }
    }

    /// The publication of these two handles.
    fn publication_of(
        &self,
        next: ReadZone,
        spare: ReadZone,
        closed: &ClosedDraft,
    ) -> Result<Publication, AllocError>
        ensures next { IfOk result (λ p. p.next ≡ next) }
        ensures spare { IfOk result (λ p. p.spare ≡ spare) }
        ensures told { IfOk result (λ p. p.told ≡ told_of self.now.compares closed.now) }
    {
        match self.told(closed) {
            Ok(told) => Ok(Publication { next, spare, told }),
            Err(error) => {
                drop(spare);
                drop(next);
                Err(error)
            }
        }
    }

    /// What a commit of it tells.
    fn told(&self, closed: &ClosedDraft) -> Result<Option<InMemoryZoneDiff>, AllocError>
        ensures { IfOk result (λ d. d ≡ told_of self.now.compares closed.now) }
    {
        if !self.compares {
            return Ok(None);
        }
        closed.difference(self.alloc)
    }

    /// A copy of what is pending.
    pub(crate) fn copy(&self) -> Result<Draft, AllocError>
        ensures { IfOk result (λ d. d ≡ draft self.now.current.version self.now.pending) }
    {
        match &self.pending {
            Some(pending) => pending.clone(),
            None => Draft::of(self.alloc, self.desk.current().share()?),
        }
    }

    /// Drops what is pending.
    pub fn rollback(&mut self)
        ensures { self.new ≡ rolled_back self.old }
    {
        drop(self.pending.take());
        self.compares = false;
    }

    /// Ends the session and lends the desk back, at which it was all committed. What is pending is dropped.
    pub fn into_desk(self) -> &'z mut Desk
        ensures { result.now ≡ self.entry.past }
    {
        self.desk
    }

    /// Word of all that was committed so far, for a reader. Refused only where memory runs out.
    pub fn receipt(&mut self) -> Result<Receipt, AllocError>
        ensures told { IfOk result (λ r. r ≡ self.old.past) }
        ensures same { self.new ≡ record self.old { has_handle = self.new.has_handle } }
    {
        self.desk.receipt()
    }

    /// The history ends with the current version, and its numbers rise by one. It does nothing.
    pub fn standing(&self)
        ensures last { self.now.past.last ≡ self.now.current }
        ensures latest { latest self.now.past.list ≡ Some self.now.current }
        ensures numbered { IsNumbered (λ (c : Commit). c.number) self.now.past.list }
    {
        let _current = self.desk.current();
    }

    /// A read handle of the current version. The first one after a commit takes no memory and isn't refused.
    pub fn handle(&mut self) -> Result<ReadZone, AllocError>
        ensures current { IfOk result (λ z. z ≡ self.old.current) }
        ensures ready { IsTrue self.old.has_handle → IsOk result }
        ensures same { self.new ≡ record self.old { has_handle = self.new.has_handle } }
    {
        match self.spare.take() {
            Some(handle) => Ok(handle),
            None => self.desk.current().clone(),
        }
    }
}

/// The same record in memory of its own.
fn stored_of<O: AsSlice<u8> + Drop, N: Labelled + Drop>(
    alloc: Global,
    found: &Record<N, ZoneRecordData<O, N>>,
) -> Result<StoredRecord, AllocError>
    ensures { IfOk result (λ r. r ≡ found.now) }
{
    let owner = found.owner().to_stored(alloc)?;
    match found.data().flatten(alloc) {
        Ok(item) => Ok(Record::new(owner, found.class(), found.ttl(), item)),
        Err(error) => {
            drop(owner);
            Err(error)
        }
    }
}
