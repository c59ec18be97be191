// Versions that are edited.
ghost use Rattle.std.specs.Prelude.{◌≡◌, List, [], Ok, Err, Some, None, IfOk, IfErr, IfSome, IsOk, OnOk, OnErr, true, false, if◌then◌else◌};
ghost use Rattle.std.specs.Arc.{arc_value};
ghost use Rattle.dns_name.specs.Names.{under};
ghost use Rattle.dns_rdata.specs.DataFields.{soa_fields};
ghost use Rattle.dns_rdata.specs.Records.{Record};
ghost use Rattle.dns_rdata.specs.ZoneData.{rtype_of, data_fields};
ghost use Rattle.zone_model.specs.Version.{Key, Sets, IsValid, all_differ};
ghost use Rattle.zone_model.specs.Difference.{difference, diffable};
ghost use Rattle.zone_model.specs.Edits as edits;
ghost use Rattle.zone_model.specs.Edits.{add, delete, with_sets};
ghost use Rattle.zone_versions.specs.Held.{counted};
ghost use Rattle.zone_versions.specs.Trees.{built};
ghost use Rattle.zone_versions.specs.Causes.{refusal_of};
ghost use Rattle.zone_versions.specs.Puts.{StandsAt, without, with_soa};
ghost use Rattle.zone_changes.specs.Touched.{is_touched, Covers};
ghost use Rattle.zone_changes.specs.Drafts.{draft, with_version, without_special};

use crate::closed::closed;
use crate::tracked::TrackedKeys;
use dns_name::{KeyName, StoredName};
use dns_numbers::{Rtype, Ttl};
use dns_rdata::{Soa, StoredRecord, StoredRecordData};
use std::alloc::{AllocError, Global};
use std::marker::Model;
use std::sync::Arc;
use zone_diffs::InMemoryZoneDiff;
use zone_values::{Rrset, SetKey};
use zone_versions::{EditError, NodeCount, ZoneVersion};

/// A version that is edited, and the published one that it began as. They agree but at the tracked keys.
#[derive(Drop)]
pub struct Draft {
    alloc: Global,
    base: Arc<ZoneVersion>,
    version: Arc<ZoneVersion>,
    touched: TrackedKeys,
}

impl Model for Draft {
    ghost use Rattle.zone_changes.specs.Touched.{CoversIn};
    ghost use Rattle.zone_changes.specs.Drafts.{Drafted, draft, BeganAs};

    ghost Value = { Drafted };

    ghost view = { λ d. draft d.base.value d.version.value };

    ghost invariant = { λ d. CoversIn d.touched d.base.value.sets d.version.value.sets × BeganAs d.base.value d.version.value };
}

impl Draft {
    /// A published version before any edit.
    pub fn of(alloc: Global, base: Arc<ZoneVersion>) -> Result<Draft, AllocError>
        requires { IsValid base.value }
        ensures { IfOk result (λ d. d ≡ draft base.value base.value) }
    {
        Ok(Draft {
            alloc,
            version: base.clone()?,
            base,
            touched: TrackedKeys::new(alloc),
        })
    }

    /// The version as it is edited so far, lent.
    pub fn shown(&self) -> &ZoneVersion
        ensures { result.now ≡ self.now.version }
    {
        &self.version
    }

    /// The edited version.
    pub fn into_version(self) -> Arc<ZoneVersion>
        ensures { result.value ≡ self.version }
    {
        self.version
    }

    /// Puts a record's data, which are of the key's type, last in the RRset at its owner and type, whose TTL, in seconds, is then the record's. Refused
    /// are, tested in this order, an owner outside the zone, data that the RRset has already (`Incompatible`), and a second CNAME below the apex
    /// (`InvalidData`). Want of memory hides no refusal.
    #[tactic(auto, using(crate::proofs::Drafting::covers_added, crate::proofs::Drafting::began_apex))]
    pub fn add(
        &mut self,
        alloc: Global,
        key: SetKey,
        ttl: Ttl,
        item: StoredRecordData,
        steps: &mut NodeCount,
    ) -> Result<(), EditError>
        requires { rtype_of item ≡ key.1 }
        ensures ok { (r : Record) → StandsAt key ttl (data_fields item) r → OnOk result (add self.old.version r ≡ Ok self.new.version) }
        ensures refused { (r : Record) → StandsAt key ttl (data_fields item) r → IfErr result (λ e. IfSome (refusal_of e) (λ why. add self.old.version r ≡ Err why)) }
        ensures memory { (r : Record) → StandsAt key ttl (data_fields item) r → result ≡ Err EditError.Memory → IsOk (add self.old.version r) }
        ensures else_same { self.new ≡ with_version self.old self.new.version }
        ensures err { OnErr result (self.new ≡ self.old) }
        ensures steps { OnOk result (steps.new ≡ counted steps.old (built self.old.version self.new.version key.0 key.1)) }
        ensures uncounted { OnErr result (steps.new ≡ steps.old) }
    {
        match self.touched.note_copy(&key) {
            Ok(()) => add(&mut self.version, alloc, key, ttl, item, steps),
            Err(_) => Err(without_memory(&self.version, &key, item)),
        }
    }

    /// Takes the data of a record that isn't refused out of its RRset.
    pub fn remove(
        &mut self,
        deleted: &StoredRecord,
        steps: &mut NodeCount,
    ) -> Result<(), AllocError>
        requires { delete self.old.version deleted.now ≡ Ok (without self.old.version deleted.now) }
        ensures ok { OnOk result (self.new ≡ with_version self.old (without self.old.version deleted.now)) }
        ensures err { OnErr result (self.new ≡ self.old) }
        ensures steps { OnOk result (steps.new ≡ counted steps.old (built self.old.version self.new.version deleted.now.owner deleted.now.rtype)) }
        ensures uncounted { OnErr result (steps.new ≡ steps.old) }
    {
        self.touched
            .note(SetKey::new(deleted.owner(), deleted.rtype()))?;
        remove(&mut self.version, self.alloc, deleted, steps)
    }

    /// Makes the apex SOA RRset one record.
    pub fn set_soa(
        &mut self,
        alloc: Global,
        ttl: Ttl,
        soa: Soa<StoredName>,
    ) -> Result<(), AllocError>
        ensures ok { OnOk result (self.new ≡ with_version self.old (with_soa self.old.version ttl (soa_fields (λ n. n) soa))) }
        ensures err { OnErr result (self.new ≡ self.old) }
    {
        self.touched
            .note(SetKey::new(self.version.apex(), Rtype::SOA))?;
        set_soa(&mut self.version, alloc, ttl, soa)
    }

    /// Puts an RRset in place of the one of its owner and type; an empty one removes that.
    pub fn put_set(&mut self, owner: &KeyName, set: Rrset) -> Result<(), AllocError>
        requires zone { under owner.now self.old.version.apex ≡ true }
        requires differ { all_differ set.contents.items ≡ true }
        requires alias { edits.is_bad_alias self.old.version owner.now set.rtype set.contents ≡ false }
        ensures ok { OnOk result (self.new ≡ with_version self.old (edits.put_set self.old.version owner.now set.rtype set.contents)) }
        ensures err { OnErr result (self.new ≡ self.old) }
    {
        self.touched.note(SetKey::new(owner, set.rtype()))?;
        put_set(&mut self.version, self.alloc, owner, set)
    }

    /// Removes the RRset of an owner and type.
    pub fn remove_set(&mut self, owner: &KeyName, rtype: Rtype) -> Result<(), AllocError>
        ensures ok { OnOk result (self.new ≡ with_version self.old (edits.remove_set self.old.version owner.now rtype)) }
        ensures err { OnErr result (self.new ≡ self.old) }
    {
        self.touched.note(SetKey::new(owner, rtype))?;
        remove_set(&mut self.version, self.alloc, owner, rtype)
    }

    /// Removes the NS, DS and CNAME sets of an owner below the apex.
    pub fn make_plain(&mut self, owner: &KeyName) -> Result<(), AllocError>
        ensures ok { OnOk result (self.new ≡ with_version self.old (edits.make_plain self.old.version owner.now)) }
        ensures err { OnErr result (self.new ≡ self.old) }
    {
        if !self.version.is_below_apex(owner) {
            return Ok(());
        }
        self.touched.note(SetKey::new(owner, Rtype::NS))?;
        self.touched.note(SetKey::new(owner, Rtype::DS))?;
        self.touched.note(SetKey::new(owner, Rtype::CNAME))?;
        remove_special(&mut self.version, self.alloc, owner)
    }

    /// Puts an address in the zone last in its RRset, unless equal data are there; the lower TTL stays. Other records change nothing.
    pub fn add_glue(&mut self, alloc: Global, added: StoredRecord) -> Result<(), AllocError>
        ensures ok { OnOk result (self.new ≡ with_version self.old (edits.add_glue self.old.version added)) }
        ensures err { OnErr result (self.new ≡ self.old) }
    {
        let key = SetKey::new(added.owner(), added.rtype());
        match self.touched.note(key) {
            Ok(()) => add_glue(&mut self.version, alloc, added),
            Err(error) => {
                drop(added);
                Err(error)
            }
        }
    }

    /// Removes the sets of a name and of all names below it.
    pub fn clear(&mut self, name: &KeyName) -> Result<(), AllocError>
        ensures ok { OnOk result (self.new ≡ with_version self.old (edits.clear self.old.version name.now)) }
        ensures err { OnErr result (self.new ≡ self.old) }
    {
        self.touched.note_below(&self.version, name)?;
        clear(&mut self.version, self.alloc, name)
    }

    /// Removes every RRset.
    pub fn clear_all(&mut self, alloc: Global) -> Result<(), AllocError>
        ensures ok { OnOk result (self.new ≡ with_version self.old (with_sets self.old.version [])) }
        ensures err { OnErr result (self.new ≡ self.old) }
    {
        let cleared = Arc::new(alloc, self.version.emptied(alloc)?)?;
        self.touched.let_go();
        self.version = cleared;
        Ok(())
    }

    /// What a commit is to publish, with the draft that it is made of: without DS RRsets below the apex that lack NS (RFC 4035, 2.4), and with `bumps`
    /// under the serial after the published one's, where the SOA is absent or as it was (RFC 1982, 3.1). Without memory for that the draft comes back.
    pub fn into_closed(self, bumps: bool) -> Result<ClosedDraft, Draft>
        ensures before { IfOk result (λ c. c.before ≡ self) }
        ensures version { IfOk result (λ c. c.version ≡ edits.close (if bumps then edits.bump self.base self.version else self.version)) }
        ensures err { IfErr result (λ d. d ≡ self) }
    {
        let mut touched = self.touched;
        match closed(&mut touched, self.alloc, &self.base, &self.version, bumps) {
            Ok(version) => Ok(ClosedDraft {
                alloc: self.alloc,
                base: self.base,
                before: self.version,
                touched,
                version,
            }),
            Err(_) => Err(Draft {
                alloc: self.alloc,
                base: self.base,
                version: self.version,
                touched,
            }),
        }
    }
}

impl Clone for Draft {
    ghost is_clone = { λ d copy. copy ≡ d };

    fn clone(&self) -> Result<Draft, AllocError> {
        Ok(Draft {
            alloc: self.alloc,
            base: self.base.clone()?,
            version: self.version.clone()?,
            touched: self.touched.clone()?,
        })
    }
}

/// What a commit is to publish, and the draft that it was made of, which comes back where the commit isn't made. The tracked keys are those at which
/// either may differ from the version that the draft began as.
#[derive(Drop)]
pub struct ClosedDraft {
    alloc: Global,
    base: Arc<ZoneVersion>,
    before: Arc<ZoneVersion>,
    touched: TrackedKeys,
    version: Arc<ZoneVersion>,
}

impl Model for ClosedDraft {
    ghost use Rattle.zone_model.specs.Version.{IsValid};
    ghost use Rattle.zone_changes.specs.Touched.{CoversIn};
    ghost use Rattle.zone_changes.specs.Drafts.{Closed, draft, BeganAs};

    ghost Value = { Closed };

    ghost view = { λ c. record { before = draft c.base.value c.before.value; version = c.version.value } };

    ghost invariant = { λ c. CoversIn c.touched c.base.value.sets c.before.value.sets × CoversIn c.touched c.base.value.sets c.version.value.sets × BeganAs c.base.value c.before.value × IsValid c.version.value };
}

impl ClosedDraft {
    /// The draft as it was.
    pub fn into_draft(self) -> Draft
        ensures { result ≡ self.before }
    {
        Draft {
            alloc: self.alloc,
            base: self.base,
            version: self.before,
            touched: self.touched,
        }
    }

    /// What is to be published.
    pub fn share(&self) -> Result<Arc<ZoneVersion>, AllocError>
        ensures is { IfOk result (λ v. v.value ≡ self.now.version) }
        ensures valid { IfOk result (λ v. IsValid v.value) }
    {
        self.version.clone()
    }

    /// What that and the version that the draft began as differ in, where that may be told.
    pub fn difference(&self, alloc: Global) -> Result<Option<InMemoryZoneDiff>, AllocError>
        ensures { IfOk result (λ d. d ≡ (if diffable self.now.before.base self.now.version then Some (difference self.now.before.base self.now.version) else None)) }
    {
        self.touched.difference(alloc, &self.base, &self.version)
    }
}

/// Puts a record's data last in the RRset at its owner and type, unless they are refused.
fn add(
    pending: &mut Arc<ZoneVersion>,
    alloc: Global,
    key: SetKey,
    ttl: Ttl,
    item: StoredRecordData,
    steps: &mut NodeCount,
) -> Result<(), EditError>
    requires { rtype_of item ≡ key.1 }
    ensures ok { (r : Record) → StandsAt key ttl (data_fields item) r → OnOk result (add (arc_value pending.old) r ≡ Ok (arc_value pending.new)) }
    ensures refused { (r : Record) → StandsAt key ttl (data_fields item) r → IfErr result (λ e. IfSome (refusal_of e) (λ why. add (arc_value pending.old) r ≡ Err why)) }
    ensures memory { (r : Record) → StandsAt key ttl (data_fields item) r → result ≡ Err EditError.Memory → IsOk (add (arc_value pending.old) r) }
    ensures err { OnErr result (arc_value pending.new ≡ arc_value pending.old) }
    ensures apex { (arc_value pending.new).apex ≡ (arc_value pending.old).apex }
    ensures covered { (keys : List Key) (base : Sets) → is_touched keys key ≡ true → Covers keys base (arc_value pending.old).sets → Covers keys base (arc_value pending.new).sets }
    ensures steps { OnOk result (steps.new ≡ counted steps.old (built (arc_value pending.old) (arc_value pending.new) key.0 key.1)) }
    ensures uncounted { OnErr result (steps.new ≡ steps.old) }
{
    match Arc::make_mut(pending) {
        Ok(version) => version.add(alloc, key, ttl, item, steps),
        Err(_) => Err(without_memory(pending, &key, item)),
    }
}

/// What refuses a record's data for which memory lacks, and else the want of memory.
fn without_memory(version: &ZoneVersion, key: &SetKey, item: StoredRecordData) -> EditError
    ensures refused { (r : Record) → StandsAt key.now r.ttl (data_fields item) r → IfSome (refusal_of result) (λ why. add version.now r ≡ Err why) }
    ensures memory { (r : Record) → StandsAt key.now r.ttl (data_fields item) r → result ≡ EditError.Memory → IsOk (add version.now r) }
{
    let refusal = version.refusal_at(key, &item);
    drop(item);
    match refusal {
        Some(error) => error,
        None => EditError::Memory,
    }
}

/// Takes a record's data out of its RRset.
fn remove(
    pending: &mut Arc<ZoneVersion>,
    alloc: Global,
    deleted: &StoredRecord,
    steps: &mut NodeCount,
) -> Result<(), AllocError>
    requires { delete (arc_value pending.old) deleted.now ≡ Ok (without (arc_value pending.old) deleted.now) }
    ensures ok { OnOk result (arc_value pending.new ≡ without (arc_value pending.old) deleted.now) }
    ensures err { OnErr result (arc_value pending.new ≡ arc_value pending.old) }
    ensures steps { OnOk result (steps.new ≡ counted steps.old (built (arc_value pending.old) (arc_value pending.new) deleted.now.owner deleted.now.rtype)) }
    ensures uncounted { OnErr result (steps.new ≡ steps.old) }
{
    let version = Arc::make_mut(pending)?;
    version.remove(alloc, deleted, steps)
}

/// Makes the apex SOA RRset one record.
fn set_soa(
    pending: &mut Arc<ZoneVersion>,
    alloc: Global,
    ttl: Ttl,
    soa: Soa<StoredName>,
) -> Result<(), AllocError>
    ensures ok { OnOk result (arc_value pending.new ≡ with_soa (arc_value pending.old) ttl (soa_fields (λ n. n) soa)) }
    ensures err { OnErr result (arc_value pending.new ≡ arc_value pending.old) }
{
    let version = Arc::make_mut(pending)?;
    version.set_soa(alloc, ttl, soa)
}

/// Puts an RRset in place of the one of its owner and type.
fn put_set(
    pending: &mut Arc<ZoneVersion>,
    alloc: Global,
    owner: &KeyName,
    set: Rrset,
) -> Result<(), AllocError>
    requires zone { under owner.now (arc_value pending.old).apex ≡ true }
    requires differ { all_differ set.contents.items ≡ true }
    requires alias { edits.is_bad_alias (arc_value pending.old) owner.now set.rtype set.contents ≡ false }
    ensures ok { OnOk result (arc_value pending.new ≡ edits.put_set (arc_value pending.old) owner.now set.rtype set.contents) }
    ensures err { OnErr result (arc_value pending.new ≡ arc_value pending.old) }
{
    let version = Arc::make_mut(pending)?;
    version.put_set(alloc, owner, set)
}

/// Removes the RRset of an owner and type.
fn remove_set(
    pending: &mut Arc<ZoneVersion>,
    alloc: Global,
    owner: &KeyName,
    rtype: Rtype,
) -> Result<(), AllocError>
    ensures ok { OnOk result (arc_value pending.new ≡ edits.remove_set (arc_value pending.old) owner.now rtype) }
    ensures err { OnErr result (arc_value pending.new ≡ arc_value pending.old) }
{
    let version = Arc::make_mut(pending)?;
    version.remove_set(alloc, owner, rtype)
}

/// Removes the NS, DS and CNAME sets of an owner. So that all go or none, it is done on a copy, which shares what doesn't change.
fn remove_special(
    pending: &mut Arc<ZoneVersion>,
    alloc: Global,
    owner: &KeyName,
) -> Result<(), AllocError>
    ensures ok { OnOk result (arc_value pending.new ≡ without_special (arc_value pending.old) owner.now) }
    ensures err { OnErr result (arc_value pending.new ≡ arc_value pending.old) }
{
    *pending = Arc::new(alloc, plain(pending, alloc, owner)?)?;
    Ok(())
}

/// A version without the NS, DS and CNAME sets of an owner.
fn plain(version: &ZoneVersion, alloc: Global, owner: &KeyName) -> Result<ZoneVersion, AllocError>
    ensures { IfOk result (λ v. v ≡ without_special version.now owner.now) }
{
    let mut plain = version.clone()?;
    plain.remove_set(alloc, owner, Rtype::NS)?;
    plain.remove_set(alloc, owner, Rtype::DS)?;
    plain.remove_set(alloc, owner, Rtype::CNAME)?;
    Ok(plain)
}

/// Removes the sets of a name and of all names below it.
fn clear(pending: &mut Arc<ZoneVersion>, alloc: Global, name: &KeyName) -> Result<(), AllocError>
    ensures ok { OnOk result (arc_value pending.new ≡ edits.clear (arc_value pending.old) name.now) }
    ensures err { OnErr result (arc_value pending.new ≡ arc_value pending.old) }
{
    let version = Arc::make_mut(pending)?;
    version.clear(alloc, name)
}

/// Puts an address in the zone last in its RRset.
fn add_glue(
    pending: &mut Arc<ZoneVersion>,
    alloc: Global,
    added: StoredRecord,
) -> Result<(), AllocError>
    ensures ok { OnOk result (arc_value pending.new ≡ edits.add_glue (arc_value pending.old) added) }
    ensures err { OnErr result (arc_value pending.new ≡ arc_value pending.old) }
{
    match Arc::make_mut(pending) {
        Ok(version) => version.add_glue(alloc, added),
        Err(error) => {
            drop(added);
            Err(error)
        }
    }
}
