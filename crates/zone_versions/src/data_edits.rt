// Edits of one record's data in a version.
ghost use Rattle.std.specs.Prelude.{◌≡◌, true, Some, [], ◌∷◌, not, filter, is_some, IfOk, IsSome, OnOk, OnErr};
ghost use Rattle.std.specs.List.{list_any};
ghost use Rattle.dns_name.specs.Names.{under};
ghost use Rattle.dns_rdata.specs.Records.{same_data};
ghost use Rattle.dns_rdata.specs.ZoneData.{rtype_of, data_fields};
ghost use Rattle.zone_model.specs.Version.{set_at, data_at};
ghost use Rattle.zone_model.specs.Edits as edits;
ghost use Rattle.zone_values.specs.TypedEntries.{typed};
ghost use Rattle.zone_values.specs.SetEdits.{last_set, opening_set};
ghost use Rattle.zone_values.specs.PutCauses.{TellsPut};
ghost use Rattle.zone_versions.specs.Held.{counted};
ghost use Rattle.zone_versions.specs.Trees.{node_of, built};
ghost use Rattle.zone_versions.specs.DataEdits.{thinned_set};

use crate::node::NodeCount;
use crate::set_edit::{Appending, Opening, Thinning};
use crate::tree::VersionTree;
use dns_name::Labelled;
use dns_numbers::Ttl;
use dns_rdata::{RecordData, StoredRecordData};
use name_keys::{KeyOctets, NameKeyRef};
use std::alloc::{AllocError, Global};
use zone_values::{PutError, Rrset, SharedRrset};

impl VersionTree {
    /// Puts data last in the RRset of their type at an owner, and this TTL, in seconds, in place of the RRset's, unless equal data stand there
    /// (RFC 2181, 5), or the data stand alone and the RRset is there (RFC 2181, 10.1). Want of memory hides neither, and leaves all as before.
    pub fn append<N: Labelled>(
        &mut self,
        alloc: Global,
        owner: &N,
        ttl: Ttl,
        item: StoredRecordData,
        alone: bool,
        steps: &mut NodeCount,
    ) -> Result<(), PutError>
        requires { under (N.labels owner.now) self.old.apex ≡ true }
        ensures ok { OnOk result (self.new ≡ edits.put_set self.old (N.labels owner.now) (rtype_of item) (last_set ttl (data_fields item) (set_at self.old (N.labels owner.now) (rtype_of item)))) }
        ensures cause { TellsPut (data_fields item) alone (set_at self.old (N.labels owner.now) (rtype_of item)) result }
        ensures err { OnErr result (self.new ≡ self.old) }
        ensures steps { OnOk result (steps.new ≡ counted steps.old (built self.old self.new (N.labels owner.now) (rtype_of item))) }
        ensures uncounted { OnErr result (steps.new ≡ steps.old) }
    {
        let mut octets = KeyOctets::new();
        let key = NameKeyRef::put_labels(&mut octets, owner);
        self.append_at(alloc, &key, ttl, item, alone, steps)
    }

    /// Puts data that a zone opens with in the RRset of their type at an owner: last, unless equal data stand there (RFC 2181, 5). The RRset's TTL is
    /// then the lower of this one, in seconds, and its own (RFC 2181, 5.2). Without memory all is as before.
    pub fn open_with<N: Labelled>(
        &mut self,
        alloc: Global,
        owner: &N,
        ttl: Ttl,
        item: StoredRecordData,
        steps: &mut NodeCount,
    ) -> Result<(), AllocError>
        requires { under (N.labels owner.now) self.old.apex ≡ true }
        ensures ok { OnOk result (self.new ≡ edits.put_set self.old (N.labels owner.now) (rtype_of item) (opening_set ttl (data_fields item) (set_at self.old (N.labels owner.now) (rtype_of item)))) }
        ensures err { OnErr result (self.new ≡ self.old) }
        ensures steps { OnOk result (steps.new ≡ counted steps.old (built self.old self.new (N.labels owner.now) (rtype_of item))) }
        ensures uncounted { OnErr result (steps.new ≡ steps.old) }
    {
        let mut octets = KeyOctets::new();
        let key = NameKeyRef::put_labels(&mut octets, owner);
        self.open_at(alloc, &key, ttl, item, steps)
    }

    /// Takes the data equal to these out of the RRset of their type at an owner, whose TTL is then this one, in seconds; an emptied RRset goes. Where
    /// there is none, nothing changes. Without memory all is as before.
    pub fn take_out<N: Labelled>(
        &mut self,
        alloc: Global,
        owner: &N,
        ttl: Ttl,
        item: &StoredRecordData,
        steps: &mut NodeCount,
    ) -> Result<(), AllocError>
        requires { under (N.labels owner.now) self.old.apex ≡ true }
        ensures ok { OnOk result (self.new ≡ edits.put_set self.old (N.labels owner.now) (rtype_of item.now)
            (record { ttl = ttl; items = filter (λ d. not (same_data (data_fields item.now) d)) (data_at self.old (N.labels owner.now) (rtype_of item.now)) })) }
        ensures err { OnErr result (self.new ≡ self.old) }
        ensures steps { OnOk result (steps.new ≡ counted steps.old (built self.old self.new (N.labels owner.now) (rtype_of item.now))) }
        ensures uncounted { OnErr result (steps.new ≡ steps.old) }
    {
        let mut octets = KeyOctets::new();
        let key = NameKeyRef::put_labels(&mut octets, owner);
        self.take_out_at(alloc, &key, ttl, item, steps)
    }
}

// The same by an owner's key, which is made once.
impl VersionTree {
    /// `append` by the owner's key.
    fn append_at(
        &mut self,
        alloc: Global,
        owner: &NameKeyRef<'_>,
        ttl: Ttl,
        item: StoredRecordData,
        alone: bool,
        steps: &mut NodeCount,
    ) -> Result<(), PutError>
        requires { under owner.now self.old.apex ≡ true }
        ensures ok { OnOk result (self.new ≡ edits.put_set self.old owner.now (rtype_of item) (last_set ttl (data_fields item) (set_at self.old owner.now (rtype_of item)))) }
        ensures cause { TellsPut (data_fields item) alone (set_at self.old owner.now (rtype_of item)) result }
        ensures err { OnErr result (self.new ≡ self.old) }
        ensures steps { OnOk result (steps.new ≡ counted steps.old (built self.old self.new owner.now (rtype_of item))) }
        ensures uncounted { OnErr result (steps.new ≡ steps.old) }
    {
        let rtype = item.rtype();
        let node = self.node_at(owner);
        let there = node.is_some();
        match self.set_in(owner, node, rtype) {
            Some(set) => match may_append(set, &item, alone) {
                Ok(()) => match self.append_in_place(alloc, owner, ttl, item, steps) {
                    Ok(()) => Ok(()),
                    Err(_) => Err(PutError::Memory),
                },
                Err(error) => {
                    drop(item);
                    Err(error)
                }
            },
            None => match self.put_first(alloc, owner, ttl, item, there, steps) {
                Ok(()) => Ok(()),
                Err(_) => Err(PutError::Memory),
            },
        }
    }

    /// `open_with` by the owner's key.
    fn open_at(
        &mut self,
        alloc: Global,
        owner: &NameKeyRef<'_>,
        ttl: Ttl,
        item: StoredRecordData,
        steps: &mut NodeCount,
    ) -> Result<(), AllocError>
        requires { under owner.now self.old.apex ≡ true }
        ensures ok { OnOk result (self.new ≡ edits.put_set self.old owner.now (rtype_of item) (opening_set ttl (data_fields item) (set_at self.old owner.now (rtype_of item)))) }
        ensures err { OnErr result (self.new ≡ self.old) }
        ensures steps { OnOk result (steps.new ≡ counted steps.old (built self.old self.new owner.now (rtype_of item))) }
        ensures uncounted { OnErr result (steps.new ≡ steps.old) }
    {
        let rtype = item.rtype();
        let node = self.node_at(owner);
        let there = node.is_some();
        match self.set_in(owner, node, rtype) {
            Some(_) => self.open_in_place(alloc, owner, ttl, item, steps),
            None => self.put_first(alloc, owner, ttl, item, there, steps),
        }
    }

    /// `take_out` by the owner's key.
    fn take_out_at(
        &mut self,
        alloc: Global,
        owner: &NameKeyRef<'_>,
        ttl: Ttl,
        item: &StoredRecordData,
        steps: &mut NodeCount,
    ) -> Result<(), AllocError>
        requires { under owner.now self.old.apex ≡ true }
        ensures ok { OnOk result (self.new ≡ edits.put_set self.old owner.now (rtype_of item.now)
            (record { ttl = ttl; items = filter (λ d. not (same_data (data_fields item.now) d)) (data_at self.old owner.now (rtype_of item.now)) })) }
        ensures err { OnErr result (self.new ≡ self.old) }
        ensures steps { OnOk result (steps.new ≡ counted steps.old (built self.old self.new owner.now (rtype_of item.now))) }
        ensures uncounted { OnErr result (steps.new ≡ steps.old) }
    {
        // For the proof: the count fits 64 bits.
        let _ = steps.get();
        let rtype = item.rtype();
        let Some(found) = self.set_at(owner, rtype) else {
            return Ok(());
        };
        if found.has_others(item) {
            return self.thin_in_place(alloc, owner, ttl, item, steps);
        }
        self.remove(alloc, owner, rtype, steps)
    }

    /// Puts data last in the RRset of their type at an owner, which stands there, and this TTL in place of the RRset's.
    fn append_in_place(
        &mut self,
        alloc: Global,
        owner: &NameKeyRef<'_>,
        ttl: Ttl,
        item: StoredRecordData,
        steps: &mut NodeCount,
    ) -> Result<(), AllocError>
        requires zone { under owner.now self.old.apex ≡ true }
        requires there { IsSome (set_at self.old owner.now (rtype_of item)) }
        ensures ok { OnOk result (self.new ≡ edits.put_set self.old owner.now (rtype_of item) (last_set ttl (data_fields item) (set_at self.old owner.now (rtype_of item)))) }
        ensures err { OnErr result (self.new ≡ self.old) }
        ensures steps { OnOk result (steps.new ≡ counted steps.old (built self.old self.new owner.now (rtype_of item))) }
        ensures uncounted { OnErr result (steps.new ≡ steps.old) }
    {
        let rtype = item.rtype();
        self.edit_in_place(alloc, owner, rtype, Appending { alloc, ttl, item }, steps)
    }

    /// Puts data that a zone opens with in the RRset of their type at an owner, which stands there.
    fn open_in_place(
        &mut self,
        alloc: Global,
        owner: &NameKeyRef<'_>,
        ttl: Ttl,
        item: StoredRecordData,
        steps: &mut NodeCount,
    ) -> Result<(), AllocError>
        requires zone { under owner.now self.old.apex ≡ true }
        requires there { IsSome (set_at self.old owner.now (rtype_of item)) }
        ensures ok { OnOk result (self.new ≡ edits.put_set self.old owner.now (rtype_of item) (opening_set ttl (data_fields item) (set_at self.old owner.now (rtype_of item)))) }
        ensures err { OnErr result (self.new ≡ self.old) }
        ensures steps { OnOk result (steps.new ≡ counted steps.old (built self.old self.new owner.now (rtype_of item))) }
        ensures uncounted { OnErr result (steps.new ≡ steps.old) }
    {
        let rtype = item.rtype();
        self.edit_in_place(alloc, owner, rtype, Opening { alloc, ttl, item }, steps)
    }

    /// Takes the data equal to these out of the RRset of their type at an owner, which has others, and puts this TTL in place of the RRset's.
    fn thin_in_place(
        &mut self,
        alloc: Global,
        owner: &NameKeyRef<'_>,
        ttl: Ttl,
        item: &StoredRecordData,
        steps: &mut NodeCount,
    ) -> Result<(), AllocError>
        requires zone { under owner.now self.old.apex ≡ true }
        requires others { list_any (λ d. not (same_data (data_fields item.now) d)) (data_at self.old owner.now (rtype_of item.now)) ≡ true }
        ensures ok { OnOk result (self.new ≡ edits.put_set self.old owner.now (rtype_of item.now) (thinned_set ttl (data_fields item.now) (set_at self.old owner.now (rtype_of item.now)))) }
        ensures err { OnErr result (self.new ≡ self.old) }
        ensures steps { OnOk result (steps.new ≡ counted steps.old (built self.old self.new owner.now (rtype_of item.now))) }
        ensures uncounted { OnErr result (steps.new ≡ steps.old) }
    {
        let rtype = item.rtype();
        self.edit_in_place(alloc, owner, rtype, Thinning { ttl, item }, steps)
    }

    /// Puts data in a new RRset of their type at an owner; `there` tells whether that has a node.
    fn put_first(
        &mut self,
        alloc: Global,
        owner: &NameKeyRef<'_>,
        ttl: Ttl,
        item: StoredRecordData,
        there: bool,
        steps: &mut NodeCount,
    ) -> Result<(), AllocError>
        requires zone { under owner.now self.old.apex ≡ true }
        requires there { there ≡ is_some (node_of self.old owner.now) }
        ensures ok { OnOk result (self.new ≡ edits.put_set self.old owner.now (rtype_of item) (record { ttl = ttl; items = data_fields item ∷ [] })) }
        ensures err { OnErr result (self.new ≡ self.old) }
        ensures steps { OnOk result (steps.new ≡ counted steps.old (built self.old self.new owner.now (rtype_of item))) }
        ensures uncounted { OnErr result (steps.new ≡ steps.old) }
    {
        let rtype = item.rtype();
        let set = first_of(alloc, ttl, item)?;
        if there {
            return self.put_full(alloc, owner, rtype, set, steps);
        }
        self.put_in_new(alloc, owner, rtype, set, steps)
    }
}

/// Whether data may be put in an RRset: equal data don't stand there, and they don't stand alone. Otherwise why not.
fn may_append(set: &Rrset, item: &StoredRecordData, alone: bool) -> Result<(), PutError>
    ensures { TellsPut (data_fields item.now) alone (Some set.now.contents) result }
{
    if set.contains(item) {
        return Err(PutError::Equal);
    }
    if alone {
        return Err(PutError::Second);
    }
    Ok(())
}

/// The RRset of one record's data.
fn first_of(alloc: Global, ttl: Ttl, item: StoredRecordData) -> Result<SharedRrset, AllocError>
    ensures { IfOk result (λ s. s ≡ typed (rtype_of item) (record { ttl = ttl; items = data_fields item ∷ [] })) }
{
    Rrset::of_one(alloc, ttl, item)?.into_shared(alloc)
}
