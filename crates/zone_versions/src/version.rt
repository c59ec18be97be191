// One version of a zone: look-ups, the walk, and edits.
ghost use Rattle.std.specs.Prelude.{◌≡◌, ◌==◌, ◌&&◌, true, false, not, IsOk, IsSome, [], Some, None, Ok, Err, IfOk, IfErr, IfSome, OnOk, OnErr, if◌then◌else◌, IfNone, IsSomeAnd, is_some, option_copied, option_map, map, find};
ghost use Rattle.std.specs.List.{list_any};
ghost use Rattle.dns_name.specs.Names.{fold, same_name, under};
ghost use Rattle.zone_model.specs.Version.{IsValid, key_cmp, set_in, set_at, below_apex, is_cut};
ghost use Rattle.zone_model.specs.Classify.{opened_with};
ghost use Rattle.zone_model.specs.Answer.{highest_cut};
ghost use Rattle.zone_model.specs.Walk.{next_stop};
ghost use Rattle.zone_versions.specs.Held.{told, counted};
ghost use Rattle.zone_versions.specs.Trees.{built};
ghost use Rattle.zone_versions.specs.Stops.{stop_of, first_stop, first_from, entry_told, key_told};
ghost use Rattle.zone_model.specs.Edits.{delete, with_sets};
ghost use Rattle.zone_model.specs.Edits as edits;
ghost use Rattle.zone_versions.specs.Causes.{refusal_of};
ghost use Rattle.zone_versions.specs.Sound.{IsSound};
ghost use Rattle.zone_versions.specs.Strays.{is_stray_at};
ghost use Rattle.zone_versions.specs.Puts.{StandsAt, adds_alias, appended, without, with_soa};
ghost use Rattle.zone_values.specs.TypedEntries.{typed, typed_set_in};
ghost use Rattle.zone_values.specs.PutCauses.{TellsPut};
ghost use Rattle.zone_values.specs.SetEdits.{put_with, last_set, opening_set};
ghost use Rattle.std.specs.Map.{keys_of};
ghost use Rattle.std.specs.Ordering.{is_lt};
ghost use Rattle.dns_numbers.specs.Codes.{type_cname};
ghost use Rattle.dns_rdata.specs.Records.{Record};
ghost use Rattle.dns_rdata.specs.DataFields.{soa_fields};
ghost use Rattle.dns_rdata.specs.ZoneData.{rtype_of, data_fields};

use crate::errors::EditError;
use crate::node::NodeCount;
use crate::places::is_at_or_below;
use crate::tree::VersionTree;
use crate::tree_walk::{TreeSet, TreeSets};
use crate::walk::{VersionKeys, WalkItem, key_of};
use dns_name::{KeyName, Labelled, NameRef, StoredName, ToName};
use dns_numbers::{Class, Rtype, Ttl};
use dns_rdata::{RecordData, Soa, StoredRecord, StoredRecordData, ZoneRecordData};
use std::alloc::{AllocError, Global};
use std::marker::Model;
use zone_values::{PutError, Rrset, SetKey};

/// One version of a zone (RFC 1034, 4.2): the apex as it was given, the class, and the RRsets, in a tree whose parts versions share.
#[derive(Drop)]
pub struct ZoneVersion {
    pub(crate) tree: VersionTree,
}

impl Model for ZoneVersion {
    ghost use Rattle.zone_model.specs.Version.{Version};
    ghost use Rattle.zone_versions.specs.Sound.{IsSound};

    ghost Value = { Version };

    ghost view = { λ v. v.tree };

    ghost invariant = { λ v. IsSound v.tree };
}

impl Clone for ZoneVersion {
    ghost is_clone = { λ v copy. copy ≡ v };

    /// The same version, which shares all nodes.
    fn clone(&self) -> Result<ZoneVersion, AllocError> {
        Ok(ZoneVersion {
            tree: self.tree.fork(&mut NodeCount::new())?,
        })
    }
}

impl ZoneVersion {
    /// A version without records.
    pub fn empty(alloc: Global, apex: &StoredName, class: Class) -> Result<ZoneVersion, AllocError>
        ensures is { IfOk result (λ v. v ≡ record { apex = apex.now; class = class; sets = [] }) }
        ensures valid { IfOk result (λ v. IsValid v) }
    {
        let mut steps = NodeCount::new();
        Ok(ZoneVersion {
            tree: VersionTree::new(alloc, apex, class, &mut steps)?,
        })
    }

    /// A version of RRsets in a tree that may stand together in one. Nothing is copied.
    pub fn of_tree(tree: VersionTree) -> ZoneVersion
        requires { IsSound tree }
        ensures { result ≡ tree }
    {
        ZoneVersion { tree }
    }

    /// The same RRsets in a version of another class, and of an apex that is the same name up to case. All nodes are shared.
    pub fn reopened(&self, apex: StoredName, class: Class) -> Result<ZoneVersion, AllocError>
        requires { same_name apex self.now.apex ≡ true }
        ensures { IfOk result (λ v. v ≡ record { apex = apex; class = class; sets = self.now.sets }) }
    {
        Ok(ZoneVersion {
            tree: self.tree.reopened(apex, class)?,
        })
    }

    /// A version of the same apex and class without records.
    pub fn emptied(&self, alloc: Global) -> Result<ZoneVersion, AllocError>
        ensures { IfOk result (λ v. v ≡ with_sets self.now []) }
    {
        ZoneVersion::empty(alloc, self.apex(), self.class())
    }

    /// The apex, as it was given.
    pub fn apex(&self) -> &StoredName
        ensures { result.now ≡ self.now.apex }
    {
        self.tree.apex()
    }

    /// The class.
    pub fn class(&self) -> Class
        ensures { result ≡ self.now.class }
    {
        self.tree.class()
    }

    /// The RRset at a key.
    fn set_in(&self, key: &SetKey) -> Option<&Rrset>
        ensures { option_copied result ≡ typed_set_in self.now.sets key.now }
    {
        // For the proof: the owner is in lower case.
        key.tell_folded();
        self.tree.get(key.owner(), key.rtype())
    }

    /// The RRset of an owner and type.
    pub fn set_at<N: Labelled>(&self, owner: &N, rtype: Rtype) -> Option<&Rrset>
        ensures { option_copied result ≡ option_map (typed rtype) (set_at self.now (N.labels owner.now) rtype) }
    {
        self.tree.get(owner, rtype)
    }

    /// Whether an owner has an RRset of a type.
    #[tactic(auto, using(crate::proofs::TypedStops::is_some_typed))]
    pub fn has_set<N: Labelled>(&self, owner: &N, rtype: Rtype) -> bool
        ensures { result ≡ is_some (set_at self.now (N.labels owner.now) rtype) }
    {
        self.set_at(owner, rtype).is_some()
    }

    /// Whether a name is below the apex.
    pub fn is_below_apex<N: ToName>(&self, name: &N) -> bool
        ensures { result ≡ below_apex self.now (N.labels name.now) }
    {
        // A name below another is longer.
        if name.compose_len() <= self.apex().compose_len() {
            return false;
        }
        is_at_or_below(&name.to_key_name(), self.apex())
    }

    /// Whether a zone cut stands at a name (RFC 1034, 4.2.1).
    pub fn is_cut<N: ToName>(&self, name: &N) -> bool
        ensures { result ≡ is_cut self.now (N.labels name.now) }
    {
        self.is_below_apex(name) && self.has_set(name, Rtype::NS)
    }

    /// The same of a name that is lent, which is not copied.
    fn is_cut_at(&self, name: &NameRef<'_>) -> bool
        ensures { result ≡ is_cut self.now name.now }
    {
        if name.compose_len() <= self.apex().compose_len() {
            return false;
        }
        is_at_or_below(name, self.apex()) && self.has_set(name, Rtype::NS)
    }

    /// Whether a zone cut stands at a name or above it.
    #[tactic(auto, using(crate::proofs::Cuts::any_cut, crate::proofs::Cuts::cut_above, crate::proofs::Cuts::no_cut, crate::proofs::Cuts::cut_here))]
    pub(crate) fn is_below_cut(&self, name: &KeyName) -> bool
        ensures { result ≡ is_some (highest_cut self.now name.now) }
    {
        let mut rest = name.borrowed();
        while !self.is_cut_at(&rest) {
            match rest.split_first() {
                Some((_, parent)) => rest = parent,
                None => return false,
            }
        }
        true
    }
}

// The walk.
impl ZoneVersion {
    /// The RRsets with their owners, in order.
    pub fn sets(&self) -> TreeSets<'_>
        ensures is { result ≡ map told self.now.sets }
        ensures sound { IsSound self.now }
    {
        self.tree.sets()
    }

    /// The keys of the RRsets, in order.
    pub fn keys(&self) -> VersionKeys<'_>
        ensures is { result ≡ keys_of self.now.sets }
        ensures sound { IsSound self.now }
    {
        VersionKeys::of(self.sets())
    }

    /// What a version keeps while it is edited: all that a published one keeps, but NS beside DS (RFC 2181, 5 and 10.1). It does nothing.
    pub fn soundness(&self)
        ensures { IsSound self.now }
    {
        let _class = self.tree.class();
    }

    /// Whether a name is the apex. Most others are told from it by their length.
    fn is_apex(&self, name: &KeyName) -> bool
        ensures { result ≡ same_name name.now self.now.apex }
    {
        if name.compose_len() != self.apex().compose_len() {
            return false;
        }
        name.name_eq(self.apex())
    }

    /// An RRset as a walk shows it: at the apex as it was given, at others in lower case.
    pub(crate) fn stop<'v>(&'v self, found: TreeSet<'v>) -> WalkItem<'v>
        ensures { result ≡ stop_of self.now (entry_told found.entry) }
    {
        let name = found.owner().to_name();
        if self.is_apex(&name) {
            return WalkItem::of(self, self.apex().to_key_name(), found);
        }
        WalkItem::of(self, name, found)
    }

    /// The first stop of the walk.
    pub fn first_stop(&self) -> Option<WalkItem<'_>>
        ensures { result ≡ first_stop self.now }
    {
        match self.sets().next() {
            Some(found) => Some(self.stop(found)),
            None => None,
        }
    }

    /// The first RRset whose owner isn't before a name in canonical order (RFC 4034, 6.1).
    pub fn first_from<N: Labelled>(&self, owner: &N) -> Option<TreeSet<'_>>
        ensures { result ≡ option_map told (first_from self.now (N.labels owner.now)) }
    {
        self.tree.first_from(owner)
    }

    /// The first RRset after an owner and type.
    fn first_after<N: Labelled>(&self, owner: &N, rtype: Rtype) -> Option<TreeSet<'_>>
        ensures { result ≡ option_map told (find (λ e. is_lt (key_cmp (fold (N.labels owner.now), rtype) e.0)) self.now.sets) }
    {
        self.tree.first_after(owner, rtype)
    }

    /// The first stop after an owner and type.
    pub fn next_stop<N: Labelled>(&self, owner: &N, rtype: Rtype) -> Option<WalkItem<'_>>
        ensures { result ≡ next_stop self.now (N.labels owner.now) rtype }
    {
        match self.first_after(owner, rtype) {
            Some(found) => Some(self.stop(found)),
            None => None,
        }
    }
}

// Edits.
impl ZoneVersion {
    /// Whether a record's data stand in its RRset.
    pub fn has_data(&self, added: &StoredRecord) -> bool
        ensures { result ≡ edits.has_data self.now added.now }
    {
        match self.set_at(added.owner(), added.rtype()) {
            Some(set) => set.contains(added.data()),
            None => false,
        }
    }

    /// Whether a record would be a second CNAME of a name below the apex (RFC 2181, 10.1).
    pub fn is_second_alias(&self, added: &StoredRecord) -> bool
        ensures { result ≡ edits.second_alias self.now added.now }
    {
        if added.rtype() != Rtype::CNAME {
            return false;
        }
        if !self.is_below_apex(added.owner()) {
            return false;
        }
        self.has_set(added.owner(), Rtype::CNAME)
    }

    /// Whether a record would be a second CNAME of a name below the apex, other than the one there (RFC 2181, 10.1).
    pub fn adds_alias(&self, added: &StoredRecord) -> bool
        ensures { result ≡ adds_alias self.now added.now }
    {
        self.is_second_alias(added) && !self.has_data(added)
    }

    /// Whether a record's owner is neither the apex nor below it.
    pub fn is_outside(&self, added: &StoredRecord) -> bool
        ensures { result ≡ not (under added.now.owner self.now.apex) }
    {
        !is_at_or_below(added.owner(), self.apex())
    }

    /// Whether a key's owner is the apex or below it.
    fn is_in_zone(&self, key: &SetKey) -> bool
        ensures { result ≡ under key.now.0 self.now.apex }
    {
        is_at_or_below(key.owner(), self.apex())
    }

    /// Whether data of a key's type stand alone: below the apex a name has one CNAME record at most (RFC 2181, 10.1).
    fn stands_alone(&self, key: &SetKey) -> bool
        ensures { result ≡ (below_apex self.now key.now.0 && (key.now.1 == type_cname)) }
    {
        if key.rtype() != Rtype::CNAME {
            return false;
        }
        self.is_below_apex(key.owner())
    }

    /// What refuses the data of a record at a key, whatever its TTL.
    pub fn refusal_at(&self, key: &SetKey, item: &StoredRecordData) -> Option<EditError>
        ensures refused { (r : Record) → StandsAt key.now r.ttl (data_fields item.now) r
            → IfSome result (λ e. IsSomeAnd (refusal_of e) (λ why. edits.add self.now r ≡ Err why)) }
        ensures accepted { (r : Record) → StandsAt key.now r.ttl (data_fields item.now) r → IfNone result (edits.add self.now r ≡ Ok (appended self.now r)) }
    {
        if !self.is_in_zone(key) {
            return Some(EditError::OutOfZone);
        }
        match self.set_in(key) {
            Some(set) => {
                if set.contains(item) {
                    Some(EditError::Incompatible)
                } else if self.stands_alone(key) {
                    Some(EditError::InvalidData)
                } else {
                    None
                }
            }
            None => None,
        }
    }

    /// What refuses a record.
    pub fn refusal(&self, added: &StoredRecord) -> Option<EditError>
        ensures refused { IfSome result (λ e. IsSomeAnd (refusal_of e) (λ why. edits.add self.now added.now ≡ Err why)) }
        ensures accepted { IfNone result (edits.add self.now added.now ≡ Ok (appended self.now added.now)) }
    {
        self.refusal_at(&SetKey::new(added.owner(), added.rtype()), added.data())
    }

    /// What refuses the deletion of a record.
    pub fn deletion_refusal(&self, deleted: &StoredRecord) -> Option<EditError>
        ensures refused { IfSome result (λ e. IsSomeAnd (refusal_of e) (λ why. delete self.now deleted.now ≡ Err why)) }
        ensures accepted { IfNone result (delete self.now deleted.now ≡ Ok (without self.now deleted.now)) }
    {
        if self.is_outside(deleted) {
            Some(EditError::OutOfZone)
        } else if !self.has_data(deleted) {
            Some(EditError::Incompatible)
        } else {
            None
        }
    }

    /// Puts the data of a record last in its RRset, whose TTL is then the record's, in seconds, unless the record is refused. One search of the
    /// RRsets. Want of memory is answered only for a record that isn't refused.
    pub fn add(
        &mut self,
        alloc: Global,
        key: SetKey,
        ttl: Ttl,
        item: StoredRecordData,
        steps: &mut NodeCount,
    ) -> Result<(), EditError>
        requires { rtype_of item ≡ key.1 }
        ensures ok { (r : Record) → StandsAt key ttl (data_fields item) r → OnOk result (edits.add self.old r ≡ Ok self.new) }
        ensures refused { (r : Record) → StandsAt key ttl (data_fields item) r
            → IfErr result (λ e. IfSome (refusal_of e) (λ why. edits.add self.old r ≡ Err why)) }
        ensures memory { (r : Record) → StandsAt key ttl (data_fields item) r → result ≡ Err EditError.Memory → IsOk (edits.add self.old r) }
        ensures err { OnErr result (self.new ≡ self.old) }
        ensures folded { OnOk result (fold key.0 ≡ key.0) }
        ensures steps { OnOk result (steps.new ≡ counted steps.old (built self.old self.new key.0 key.1)) }
        ensures uncounted { OnErr result (steps.new ≡ steps.old) }
    {
        if !self.is_in_zone(&key) {
            drop(item);
            drop(key);
            return Err(EditError::OutOfZone);
        }
        let alone = self.stands_alone(&key);
        match put_last(&mut self.tree, alloc, &key, ttl, item, alone, steps) {
            Ok(()) => Ok(()),
            Err(PutError::Equal) => Err(EditError::Incompatible),
            Err(PutError::Second) => Err(EditError::InvalidData),
            Err(PutError::Memory) => Err(EditError::Memory),
        }
    }

    /// Takes the data of a record that isn't refused out of its RRset, whose TTL is then the record's; an emptied RRset goes.
    pub fn remove(
        &mut self,
        alloc: Global,
        deleted: &StoredRecord,
        steps: &mut NodeCount,
    ) -> Result<(), AllocError>
        requires { delete self.old deleted.now ≡ Ok (without self.old deleted.now) }
        ensures ok { OnOk result (self.new ≡ without self.old deleted.now) }
        ensures err { OnErr result (self.new ≡ self.old) }
        ensures steps { OnOk result (steps.new ≡ counted steps.old (built self.old self.new deleted.now.owner deleted.now.rtype)) }
        ensures uncounted { OnErr result (steps.new ≡ steps.old) }
    {
        let (ttl, item) = (deleted.ttl(), deleted.data());
        self.tree.take_out(alloc, deleted.owner(), ttl, item, steps)
    }

    /// Puts a record that the zone opens with: data that the RRset has already are not put again, and the lower TTL stays.
    pub fn open_with(&mut self, alloc: Global, added: StoredRecord) -> Result<(), AllocError>
        requires zone { under added.owner self.old.apex ≡ true }
        requires no_alias { adds_alias self.old added ≡ false }
        ensures ok { OnOk result (self.new ≡ opened_with self.old added) }
        ensures err { OnErr result (self.new ≡ self.old) }
    {
        put_opening(&mut self.tree, alloc, added)
    }

    /// Makes the apex SOA RRset this one record. The TTL is in seconds.
    pub fn set_soa(
        &mut self,
        alloc: Global,
        ttl: Ttl,
        soa: Soa<StoredName>,
    ) -> Result<(), AllocError>
        ensures ok { OnOk result (self.new ≡ with_soa self.old ttl (soa_fields (λ n. n) soa)) }
        ensures err { OnErr result (self.new ≡ self.old) }
    {
        self.put_soa(alloc, ttl, ZoneRecordData::Soa(soa))
    }

    /// Whether a DS RRset at a key would be without NS beside it, below the apex (RFC 4035, 2.4).
    pub fn is_stray(&self, key: &SetKey) -> bool
        ensures { result ≡ is_stray_at self.now key.now }
    {
        if !self.is_below_apex(key.owner()) {
            return false;
        }
        if key.rtype() != Rtype::DS {
            return false;
        }
        !self.has_set(key.owner(), Rtype::NS)
    }

    /// Whether a commit leaves an RRset out.
    pub fn has_stray(&self) -> bool
        ensures is { result ≡ list_any (is_stray_at self.now) (keys_of self.now.sets) }
        ensures none { result ≡ false → IsValid self.now }
    {
        any_stray(self, self.sets())
    }

    /// What a commit publishes: the version without DS RRsets below the apex that lack NS.
    pub fn closed(&self, alloc: Global) -> Result<ZoneVersion, AllocError>
        ensures is { IfOk result (λ v. v ≡ edits.close self.now) }
        ensures valid { IfOk result (λ v. IsValid v) }
    {
        let mut copy = self.clone()?;
        for key in self.keys() {
            copy.drop_if(alloc, &key, self.is_stray(&key))?;
        }
        Ok(copy)
    }

    /// Takes the RRset at a key out, where that is wanted.
    fn drop_if(&mut self, alloc: Global, key: &SetKey, wanted: bool) -> Result<(), AllocError>
        ensures { OnOk result (self.new ≡ (if wanted then edits.remove_set self.old key.now.0 key.now.1 else self.old)) }
    {
        if !wanted {
            return Ok(());
        }
        self.remove_set(alloc, key.owner(), key.rtype())
    }

    /// The same of a version that isn't needed otherwise, which is copied only where an RRset goes.
    #[tactic(auto, using(crate::proofs::Closing::closed_is))]
    pub fn into_closed(self, alloc: Global) -> Result<ZoneVersion, AllocError>
        ensures is { IfOk result (λ v. v ≡ edits.close self) }
        ensures valid { IfOk result (λ v. IsValid v) }
    {
        if self.has_stray() {
            let closed = self.closed(alloc);
            drop(self);
            return closed;
        }
        Ok(self)
    }
}

/// Whether one of these RRsets of a version is a DS RRset that a commit leaves out.
fn any_stray(version: &ZoneVersion, sets: TreeSets<'_>) -> bool
    ensures { result ≡ list_any (λ s. is_stray_at version.now (key_told s)) sets.entry }
{
    let mut sets = sets;
    sets.any(|found| is_stray_set(version, &found))
}

/// Whether an RRset of a version is a DS RRset that a commit leaves out.
fn is_stray_set(version: &ZoneVersion, found: &TreeSet<'_>) -> bool
    ensures { result ≡ is_stray_at version.now (key_told found.now) }
{
    if found.rtype() != Rtype::DS {
        return false;
    }
    version.is_stray(&key_of(found))
}

/// Puts data of the key's type last in the RRset at the key in a tree, and this TTL, in seconds, in place of the RRset's, unless equal data stand
/// there, or the data stand alone and the RRset is there. The key's owner is in lower case.
fn put_last(
    tree: &mut VersionTree,
    alloc: Global,
    key: &SetKey,
    ttl: Ttl,
    item: StoredRecordData,
    alone: bool,
    steps: &mut NodeCount,
) -> Result<(), PutError>
    requires zone { under key.now.0 tree.old.apex ≡ true }
    requires item { rtype_of item ≡ key.now.1 }
    ensures ok { OnOk result (tree.new ≡ with_sets tree.old (put_with (last_set ttl (data_fields item)) key.now tree.old.sets)) }
    ensures cause { TellsPut (data_fields item) alone (set_in tree.old.sets key.now) result }
    ensures err { OnErr result (tree.new ≡ tree.old) }
    ensures folded { fold key.now.0 ≡ key.now.0 }
    ensures steps { OnOk result (steps.new ≡ counted steps.old (built tree.old tree.new key.now.0 key.now.1)) }
    ensures uncounted { OnErr result (steps.new ≡ steps.old) }
{
    key.tell_folded();
    tree.append(alloc, key.owner(), ttl, item, alone, steps)
}

/// Puts a record's data in their RRset in a tree, unless equal data are there; the RRset's TTL is the lower one.
pub(crate) fn put_opening(
    tree: &mut VersionTree,
    alloc: Global,
    added: StoredRecord,
) -> Result<(), AllocError>
    requires { under added.owner tree.old.apex ≡ true }
    ensures ok { OnOk result (tree.new ≡ edits.put_set tree.old added.owner added.rtype (opening_set added.ttl added.fields (set_at tree.old added.owner added.rtype))) }
    ensures err { OnErr result (tree.new ≡ tree.old) }
{
    let mut steps = NodeCount::new();
    let (owner, _, ttl, item) = added.into_parts();
    tree.open_with(alloc, &owner, ttl, item, &mut steps)
}
