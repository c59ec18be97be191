// A walk of a version as an iterator.
ghost use Rattle.std.specs.Prelude.{◌≡◌, map, All};
ghost use Rattle.dns_rdata.specs.ZoneData.{rtype_of, data_fields};
ghost use Rattle.zone_model.specs.Walk.{walk};
ghost use Rattle.zone_values.specs.TypedEntries.{typed};
ghost use Rattle.zone_versions.specs.Stops.{stop_of, entry_told, key_told};

use crate::tree_walk::{TreeSet, TreeSets};
use crate::version::ZoneVersion;
use dns_name::KeyName;
use dns_numbers::{Rtype, Ttl};
use dns_rdata::StoredRecordData;
use std::marker::Model;
use zone_values::{SetKey, SharedRrset};

/// One stop of a walk: an RRset with its owner and type.
#[derive(Drop)]
pub struct WalkItem<'v> {
    version: &'v ZoneVersion,
    owner: KeyName,
    found: TreeSet<'v>,
}

impl<'v> Model for WalkItem<'v> {
    ghost use Rattle.std.specs.Prelude.{◌≡◌};
    ghost use Rattle.zone_model.specs.Walk.{Stop};
    ghost use Rattle.zone_versions.specs.Stops.{stop_of, entry_told};

    ghost Value = { Stop };

    ghost view = { λ w. stop_of w.version.now (entry_told w.found) };

    ghost invariant = { λ w. w.owner ≡ (stop_of w.version.now (entry_told w.found)).owner };
}

impl<'v> WalkItem<'v> {
    /// The stop of an RRset of a version, with its owner as it is shown.
    pub(crate) fn of(version: &'v ZoneVersion, owner: KeyName, found: TreeSet<'v>) -> WalkItem<'v>
        requires { owner ≡ (stop_of version.now (entry_told found)).owner }
        ensures { result ≡ stop_of version.now (entry_told found.entry) }
    {
        WalkItem {
            version,
            owner,
            found,
        }
    }

    /// The owner: the apex as it was given, others in lower case.
    pub fn owner(&self) -> &KeyName
        ensures { result.now ≡ self.now.owner }
    {
        &self.owner
    }

    /// The type.
    pub fn rtype(&self) -> Rtype
        ensures { result ≡ self.now.rtype }
    {
        self.found.rtype()
    }

    /// The TTL, in seconds.
    pub fn ttl(&self) -> Ttl
        ensures { result ≡ self.now.contents.ttl }
    {
        self.found.set().ttl()
    }

    /// The data of the records, in order.
    pub fn items(&self) -> &'v [StoredRecordData]
        ensures fields { map data_fields result.now ≡ self.now.contents.items }
        ensures types { All (λ d. rtype_of d ≡ self.now.rtype) result.now }
    {
        self.found.set().data()
    }

    /// The RRset as versions share it.
    pub fn shared(&self) -> &'v SharedRrset
        ensures { result.now ≡ typed self.now.rtype self.now.contents }
    {
        self.found.shared()
    }

    /// Whether a zone cut stands at the owner or above it (RFC 1034, 4.2.1). It is looked for here.
    pub fn below_cut(&self) -> bool
        ensures { result ≡ self.now.below_cut }
    {
        self.version.is_below_cut(&self.owner)
    }
}

/// The sets of a version in order, each once: owners in canonical order, types ascending (RFC 4034, 6.1).
#[derive(Drop)]
pub struct RrsetIter<'v> {
    version: &'v ZoneVersion,
    sets: TreeSets<'v>,
}

impl<'v> Model for RrsetIter<'v> {
    ghost use Rattle.std.specs.Prelude.{List, map};
    ghost use Rattle.zone_model.specs.Walk.{Stop};
    ghost use Rattle.zone_versions.specs.Stops.{stop_of, entry_told};

    ghost Value = { List Stop };

    ghost view = { λ w. map (stop_of w.version.now) (map entry_told w.sets) };
}

impl<'v> RrsetIter<'v> {
    /// The walk of a version.
    pub fn of(version: &'v ZoneVersion) -> RrsetIter<'v>
        ensures { result ≡ walk version.now }
    {
        RrsetIter {
            version,
            sets: version.sets(),
        }
    }
}

impl<'v> Iterator for RrsetIter<'v> {
    type Item = WalkItem<'v>;

    ghost use Rattle.std.specs.Iterator.{YieldsFirst, item_count};

    ghost next_gives = { YieldsFirst (λ w. w) };

    ghost remaining = { item_count (λ w. w) };

    fn next(&mut self) -> Option<WalkItem<'v>> {
        let version = self.version;
        match self.sets.next() {
            Some(found) => Some(version.stop(found)),
            None => None,
        }
    }
}

/// The keys of a version's RRsets in order.
#[derive(Drop)]
pub struct VersionKeys<'v> {
    sets: TreeSets<'v>,
}

impl<'v> Model for VersionKeys<'v> {
    ghost use Rattle.std.specs.Prelude.{List, map};
    ghost use Rattle.zone_model.specs.Version.{Key};
    ghost use Rattle.zone_versions.specs.Stops.{key_told};

    ghost Value = { List Key };

    ghost view = { λ k. map key_told k.sets };
}

impl<'v> VersionKeys<'v> {
    /// The keys of RRsets.
    pub(crate) fn of(sets: TreeSets<'v>) -> VersionKeys<'v>
        ensures { result ≡ map key_told sets.entry }
    {
        VersionKeys { sets }
    }
}

impl<'v> Iterator for VersionKeys<'v> {
    type Item = SetKey;

    ghost use Rattle.std.specs.Iterator.{YieldsFirst, item_count};

    ghost next_gives = { YieldsFirst (λ k. k) };

    ghost remaining = { item_count (λ k. k) };

    fn next(&mut self) -> Option<SetKey> {
        match self.sets.next() {
            Some(found) => Some(key_of(&found)),
            None => None,
        }
    }
}

/// Where an RRset of a walk stands.
pub(crate) fn key_of(found: &TreeSet<'_>) -> SetKey
    ensures { result ≡ key_told found.now }
{
    SetKey::new(&found.owner().to_name(), found.rtype())
}
