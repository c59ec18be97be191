// The sets that a version has and another lacks.
ghost use Rattle.std.specs.Prelude.{◌≡◌, ◌==◌, [], length, map, IsTrue, IsSome, IsOk, OnOk, OnErr, option_map, option_copied, slice_get, find};
ghost use Rattle.std.specs.List.{list_all};
ghost use Rattle.std.specs.List.Sorted.{IsStrictlySortedBy};
ghost use Rattle.std.specs.Map.{keys_of};
ghost use Rattle.std.specs.Map.Iter.{deref_pair};
ghost use Rattle.std.specs.Ordering.{is_lt};
ghost use Rattle.dns_rdata.specs.Soa.{serial_of};
ghost use Rattle.dns_rdata.specs.ZoneData.{data_fields};
ghost use Rattle.zone_model.specs.Version.{key_cmp, set_in};
ghost use Rattle.zone_values.specs.TypedEntries.{item_of, typed_set_in};
ghost use Rattle.zone_diffs.specs.Building.{put_at, first_serial, set_serial};
ghost use Rattle.zone_diffs.specs.Kept.{holds_data};

use dns_numbers::{Rtype, Serial};
use dns_rdata::{StoredRecordData, ZoneRecordData};
use std::alloc::{AllocError, Global};
use std::collections::BTreeMap;
use std::collections::btree_map::Iter;
use std::marker::Model;
use std::ops::Bound;
use zone_values::{Rrset, SetKey, SharedRrset};

/// RRsets by owner and type, none of them empty: owners in lower case and canonical order, each one's types ascending (RFC 4034, 6.1).
#[derive(Debug, Drop)]
pub struct DiffSets {
    entries: BTreeMap<SetKey, SharedRrset>,
}

impl Model for DiffSets {
    ghost use Rattle.std.specs.Prelude.{map, IsTrue};
    ghost use Rattle.std.specs.List.{list_all};
    ghost use Rattle.zone_model.specs.Version.{Sets};
    ghost use Rattle.zone_values.specs.TypedEntries.{entry_of};
    ghost use Rattle.zone_diffs.specs.Kept.{is_kept};

    ghost Value = { Sets };

    ghost view = { λ s. map entry_of s.entries.entries };

    ghost invariant = { λ s. IsTrue (list_all is_kept s.entries.entries) };
}

impl DiffSets {
    /// No RRsets.
    pub fn new(alloc: Global) -> DiffSets
        ensures { result ≡ [] }
    {
        DiffSets {
            entries: BTreeMap::new(alloc),
        }
    }

    /// How many RRsets there are.
    pub fn len(&self) -> usize
        ensures len { result ≡ length self.now }
        ensures ordered { IsStrictlySortedBy key_cmp (keys_of self.now) }
        ensures full { IsTrue (list_all holds_data self.now) }
    {
        self.entries.len()
    }

    /// Whether there is none.
    pub fn is_empty(&self) -> bool
        ensures { result ≡ (length self.now == 0) }
    {
        self.len() == 0
    }

    /// The RRset at a key.
    pub fn get(&self, key: &SetKey) -> Option<&SharedRrset>
        ensures { option_copied result ≡ typed_set_in self.now key.now }
    {
        self.entries.get(key)
    }

    /// The RRsets with their keys, in order.
    pub fn iter(&self) -> Iter<'_, SetKey, SharedRrset>
        ensures { result ≡ map item_of self.now }
    {
        self.entries.iter()
    }

    /// The RRset at an index from 0, with its key; None at an index from the length on. The time grows with the index.
    pub fn at(&self, index: usize) -> Option<(&SetKey, &SharedRrset)>
        ensures { option_map deref_pair result ≡ slice_get (map item_of self.now) index }
    {
        self.iter().nth(index)
    }

    /// The first RRset after a key, with its own key: one search of the map.
    pub fn first_behind(&self, key: &SetKey) -> Option<(&SetKey, &SharedRrset)>
        ensures { option_map deref_pair result ≡ option_map item_of (find (λ e. is_lt (key_cmp key.now e.0)) self.now) }
    {
        self.entries
            .range((Bound::Excluded(key), Bound::Unbounded))
            .next()
    }

    /// Puts an RRset of the key's type in place of the one at the key; an empty one removes that. Memory is only needed where there was none.
    pub fn put(&mut self, key: SetKey, set: SharedRrset) -> Result<(), AllocError>
        requires { set.rtype ≡ key.1 }
        ensures ok { OnOk result (self.new ≡ put_at self.old key set.contents) }
        ensures err { OnErr result (self.new ≡ self.old) }
        ensures ready { IsSome (set_in self.old key) → IsOk result }
    {
        if set.as_rrset().is_empty() {
            let _ = self.entries.remove(&key);
            return Ok(());
        }
        self.entries.insert(key, set)?;
        Ok(())
    }

    /// The serial of the first datum of the first SOA RRset in order, if there is one.
    pub fn first_serial(&self) -> Option<Serial>
        ensures { result ≡ first_serial self.now }
    {
        let mut items = self.iter();
        'items: while let Some((key, set)) = items.next() {
            if key.rtype() == Rtype::SOA {
                return Some(serial_in(set.as_rrset()));
            }
        }
        None
    }
}

/// The serial of an RRset's first datum, 0 where that is no SOA.
fn serial_in(set: &Rrset) -> Serial
    ensures { result ≡ set_serial set.now.contents }
{
    match set.data().first() {
        Some(item) => serial_of(item),
        None => Serial::from(0),
    }
}

/// The serial of SOA data, 0 of others (RFC 1035, 3.3.13).
pub fn serial_of(item: &StoredRecordData) -> Serial
    ensures { result ≡ serial_of (data_fields item.now) }
{
    match item {
        ZoneRecordData::Soa(soa) => soa.serial(),
        _ => Serial::from(0),
    }
}

impl Clone for DiffSets {
    ghost is_clone = { λ s copy. copy ≡ s };

    fn clone(&self) -> Result<DiffSets, AllocError> {
        Ok(DiffSets {
            entries: self.entries.clone()?,
        })
    }
}
