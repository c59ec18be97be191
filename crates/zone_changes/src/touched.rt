// The keys that edits touched.
ghost use Rattle.std.specs.Prelude.{◌≡◌, [], ◌==◌, ◌&&◌, ◌||◌, not, is_some, length, OnOk, OnErr, if◌then◌else◌};
ghost use Rattle.std.specs.List.{list_any};
ghost use Rattle.std.specs.List.Sorted.{IsStrictlySortedBy};
ghost use Rattle.dns_name.specs.Names.{under};
ghost use Rattle.dns_numbers.specs.Codes.{type_ns, type_ds};
ghost use Rattle.zone_model.specs.Version.{key_cmp, set_at, below_apex};
ghost use Rattle.zone_changes.specs.Touched.{noted, noted_all, keys_below, stray_keys, is_stray_beside, Keeps};

use dns_name::{KeyName, Labelled, ToName};
use dns_numbers::Rtype;
use std::alloc::{AllocError, Global};
use std::collections::BTreeSet;
use std::collections::btree_set::Iter;
use std::marker::Model;
use zone_versions::{SetKey, ZoneVersion};

/// Where edits touched a version: owners and types, in canonical order of the owners, each one's types ascending (RFC 4034, 6.1). Where a key
/// is noted before each edit at it, two versions between which only those edits lie agree at every other key.
#[derive(Drop)]
pub struct TouchedKeys {
    keys: BTreeSet<SetKey>,
}

impl Model for TouchedKeys {
    ghost use Rattle.std.specs.Prelude.{List};
    ghost use Rattle.zone_model.specs.Version.{Key};

    ghost Value = { List Key };

    ghost view = { λ t. t.keys.keys };
}

impl TouchedKeys {
    /// No keys.
    pub fn new(alloc: Global) -> TouchedKeys
        ensures { result ≡ [] }
    {
        TouchedKeys {
            keys: BTreeSet::new(alloc),
        }
    }

    /// How many keys were noted.
    pub fn len(&self) -> usize
        ensures len { result ≡ length self.now }
        ensures ordered { IsStrictlySortedBy key_cmp self.now }
    {
        self.keys.len()
    }

    /// Whether no key was noted.
    pub fn is_empty(&self) -> bool
        ensures { result ≡ (length self.now == 0) }
    {
        self.len() == 0
    }

    /// The keys, in order.
    pub fn iter(&self) -> Iter<'_, SetKey>
        ensures { result ≡ self.now }
    {
        self.keys.iter()
    }

    /// Notes a key.
    pub fn note(&mut self, key: SetKey) -> Result<(), AllocError>
        ensures ok { OnOk result (self.new ≡ noted self.old key) }
        ensures err { OnErr result (self.new ≡ self.old) }
    {
        self.keys.insert(key)?;
        Ok(())
    }

    /// Notes a key that is wanted.
    pub(crate) fn note_if(&mut self, key: &SetKey, wanted: bool) -> Result<(), AllocError>
        ensures ok { OnOk result (self.new ≡ (if wanted then noted self.old key.now else self.old)) }
        ensures err { OnErr result (self.new ≡ self.old) }
    {
        if !wanted {
            return Ok(());
        }
        self.note(key.clone()?)
    }

    /// Notes the keys of a version's RRsets at a name and below it. Without memory for that some of them may be noted.
    pub fn note_below<N: Labelled>(
        &mut self,
        version: &ZoneVersion,
        name: &N,
    ) -> Result<(), AllocError>
        ensures ok { OnOk result (self.new ≡ noted_all self.old (keys_below version.now (N.labels name.now))) }
        ensures err { OnErr result (Keeps self.old self.new) }
    {
        self.note_under(version, &name.to_key_name())
    }

    /// Notes the keys of a version's RRsets at a name and below it.
    fn note_under(&mut self, version: &ZoneVersion, name: &KeyName) -> Result<(), AllocError>
        ensures ok { OnOk result (self.new ≡ noted_all self.old (keys_below version.now name.now)) }
        ensures err { OnErr result (Keeps self.old self.new) }
    {
        for key in version.keys() {
            self.note_if(&key, key.owner().ends_with(name))?;
        }
        Ok(())
    }

    /// Notes the keys of the RRsets that a commit of the version leaves out: DS RRsets below the apex that lack NS (RFC 4035, 2.4). Without memory
    /// for that some of them may be noted.
    pub fn note_strays(&mut self, version: &ZoneVersion) -> Result<(), AllocError>
        ensures ok { OnOk result (self.new ≡ noted_all self.old (stray_keys version.now)) }
        ensures err { OnErr result (Keeps self.old self.new) }
    {
        for key in version.keys() {
            self.note_if(&key, version.is_stray(&key))?;
        }
        Ok(())
    }

    /// Whether a DS RRset of a version stands without NS below the apex, at the owner of a noted NS or DS key (RFC 4035, 2.4).
    pub fn has_stray(&self, version: &ZoneVersion) -> bool
        ensures { result ≡ list_any (is_stray_beside version.now) self.now }
    {
        let mut keys = self.keys.iter();
        keys.any(|key| is_stray_beside(version, key))
    }

    /// Forgets the keys.
    pub fn clear(&mut self)
        ensures { self.new ≡ [] }
    {
        self.keys.clear();
    }
}

impl Clone for TouchedKeys {
    ghost is_clone = { λ t copy. copy ≡ t };

    fn clone(&self) -> Result<TouchedKeys, AllocError> {
        Ok(TouchedKeys {
            keys: self.keys.clone()?,
        })
    }
}

/// Whether a DS RRset stands without NS at the owner of a key of either type, below the apex.
fn is_stray_beside(version: &ZoneVersion, key: &SetKey) -> bool
    ensures { result ≡ is_stray_beside version.now key.now }
{
    is_ns_or_ds(key.rtype()) && is_stray_owner(version, key.owner())
}

/// Whether a type is NS or DS.
fn is_ns_or_ds(rtype: Rtype) -> bool
    ensures { result ≡ ((rtype == type_ns) || (rtype == type_ds)) }
{
    rtype == Rtype::NS || rtype == Rtype::DS
}

/// Whether a DS RRset stands without NS at a name below the apex.
fn is_stray_owner(version: &ZoneVersion, owner: &KeyName) -> bool
    ensures { result ≡ (below_apex version.now owner.now && is_some (set_at version.now owner.now type_ds) && not (is_some (set_at version.now owner.now type_ns))) }
{
    version.is_below_apex(owner)
        && version.has_set(owner, Rtype::DS)
        && !version.has_set(owner, Rtype::NS)
}
