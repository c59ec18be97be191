// Edits of a record set in which no data stand twice.
ghost use Rattle.std.specs.Prelude.{◌≡◌, true, false, Ok, Some, ◌++◌, ◌∷◌, [], OnOk, OnErr, IfOk, map, min, not, filter, if◌then◌else◌, All};
ghost use Rattle.std.specs.List.{list_any};
ghost use Rattle.dns_rdata.specs.Records.{same_data};
ghost use Rattle.dns_rdata.specs.ZoneData.{rtype_of, data_fields};
ghost use Rattle.zone_model.specs.Version.{all_differ};
ghost use Rattle.zone_model.specs.Edits.{distinct_set};
ghost use Rattle.zone_values.specs.TypedSets.{set_of};
ghost use Rattle.zone_values.specs.TypedEntries.{typed};
ghost use Rattle.zone_values.specs.DataIndex.{Indexes, IsIndexed};
ghost use Rattle.zone_values.specs.PutCauses.{TellsPut};
ghost use Rattle.zone_values.specs.SetEdits.{last_set};

use crate::data_index::{FEW, forget, is_noted, note_last, note_new};
use crate::data_key::DataKey;
use crate::rrset::Rrset;
use dns_numbers::Ttl;
use dns_rdata::{RecordData, StoredRecordData};
use std::alloc::{AllocError, Global};
use std::collections::BTreeSet;

/// Why data are not put in an RRset. All is then as before.
#[derive(Clone, Copy, Debug, PartialEq, Eq, Drop)]
pub enum PutError {
    /// The RRset has equal data (RFC 2181, 5).
    Equal,
    /// The data stand alone, and the RRset has others (RFC 2181, 10.1).
    Second,
    /// Out of memory.
    Memory,
}

impl From<AllocError> for PutError {
    ghost use Rattle.std.specs.Prelude.{◌≡◌};
    ghost use Rattle.zone_values.specs.declared.rrset_edits.PutError.TheVariants.{Memory};

    ghost from_gives = { λ _ e. e ≡ Memory };

    fn from(_error: AllocError) -> PutError {
        PutError::Memory
    }
}

impl Rrset {
    /// Whether equal data stand in the RRset (RFC 2181, 5).
    #[tactic(auto, using(crate::proofs::Equality::list_any_map))]
    pub fn contains(&self, item: &StoredRecordData) -> bool
        ensures { result ≡ list_any (same_data (data_fields item.now)) self.now.contents.items }
    {
        match &self.seen {
            Some(keys) => match is_noted(keys, item) {
                Ok(found) => found,
                Err(_) => is_among(&self.items, item),
            },
            None => is_among(&self.items, item),
        }
    }

    /// Whether data other than these stand in the RRset.
    #[tactic(auto, using(crate::proofs::Equality::list_any_map))]
    pub fn has_others(&self, item: &StoredRecordData) -> bool
        ensures { result ≡ list_any (λ d. not (same_data (data_fields item.now) d)) self.now.contents.items }
    {
        has_others(&self.items, item)
    }

    /// Puts data of the RRset's type last, and this TTL in place of the RRset's.
    pub fn append(
        &mut self,
        alloc: Global,
        ttl: Ttl,
        item: StoredRecordData,
    ) -> Result<(), AllocError>
        requires { rtype_of item ≡ self.old.rtype }
        ensures ok { OnOk result (self.new ≡ set_of self.old.rtype ttl (self.old.contents.items ++ data_fields item ∷ [])) }
        ensures err { OnErr result (self.new ≡ self.old) }
    {
        push_noted(&mut self.items, &mut self.seen, alloc, item)?;
        self.ttl = ttl;
        Ok(())
    }

    /// Puts data of the RRset's type last, and this TTL, in seconds, in place of the RRset's, unless equal data stand in the RRset: then nothing
    /// changes (RFC 2181, 5). Tells whether they were put. Want of memory is answered only where no equal data stand there.
    pub fn append_new(
        &mut self,
        alloc: Global,
        ttl: Ttl,
        item: StoredRecordData,
    ) -> Result<bool, AllocError>
        requires { rtype_of item ≡ self.old.rtype }
        ensures told { IfOk result (λ told. told ≡ not (list_any (same_data (data_fields item)) self.old.contents.items)) }
        ensures put { result ≡ Ok true → self.new ≡ set_of self.old.rtype ttl (self.old.contents.items ++ data_fields item ∷ []) }
        ensures same { result ≡ Ok false → self.new ≡ self.old }
        ensures err { OnErr result (self.new ≡ self.old) }
        ensures fresh { OnErr result (list_any (same_data (data_fields item)) self.old.contents.items ≡ false) }
    {
        let put = push_unless_there(&mut self.items, &mut self.seen, alloc, item)?;
        if put {
            self.ttl = ttl;
        }
        Ok(put)
    }

    /// Takes the data equal to these out, and puts this TTL in place of the RRset's.
    #[tactic(auto, using(crate::proofs::Equality::filter_map))]
    pub fn remove(&mut self, ttl: Ttl, item: &StoredRecordData)
        ensures { self.new ≡ set_of self.old.rtype ttl (filter (λ d. not (same_data (data_fields item.now) d)) self.old.contents.items) }
    {
        drop_equal(&mut self.items, item);
        forget(&mut self.seen, item);
        self.ttl = ttl;
    }

    /// Puts the lower of this TTL, in seconds, and the RRset's, and data of the RRset's type last, unless the RRset has equal data (RFC 2181, 5).
    pub fn open_with(
        &mut self,
        alloc: Global,
        ttl: Ttl,
        item: StoredRecordData,
    ) -> Result<(), AllocError>
        requires { rtype_of item ≡ self.old.rtype }
        ensures ok { OnOk result (self.new ≡ set_of self.old.rtype (min self.old.contents.ttl ttl)
            (if list_any (same_data (data_fields item)) self.old.contents.items then self.old.contents.items else self.old.contents.items ++ data_fields item ∷ [])) }
        ensures err { OnErr result (self.new ≡ self.old) }
    {
        push_unless_there(&mut self.items, &mut self.seen, alloc, item)?;
        if ttl.to_int() < self.ttl.to_int() {
            self.ttl = ttl;
        }
        Ok(())
    }

    /// The RRset of the first of equal data of this one (RFC 2181, 5).
    pub fn to_distinct(&self, alloc: Global) -> Result<Rrset, AllocError>
        ensures is { IfOk result (λ s. s ≡ typed self.now.rtype (distinct_set self.now.contents)) }
        ensures differ { IfOk result (λ s. all_differ s.contents.items ≡ true) }
    {
        first_of_equal(alloc, self)
    }

    /// Puts data of the RRset's type last, and this TTL, in seconds, in place of the RRset's, unless equal data stand in the RRset (RFC 2181, 5) or
    /// the data stand alone (RFC 2181, 10.1).
    pub fn put_new(
        &mut self,
        alloc: Global,
        ttl: Ttl,
        item: StoredRecordData,
        alone: bool,
    ) -> Result<(), PutError>
        requires { rtype_of item ≡ self.old.rtype }
        ensures ok { OnOk result (self.new ≡ typed self.old.rtype (last_set ttl (data_fields item) (Some self.old.contents))) }
        ensures cause { TellsPut (data_fields item) alone (Some self.old.contents) result }
        ensures err { OnErr result (self.new ≡ self.old) }
    {
        if alone {
            let equal = self.contains(&item);
            drop(item);
            return Err(if equal {
                PutError::Equal
            } else {
                PutError::Second
            });
        }
        match self.append_new(alloc, ttl, item) {
            Ok(true) => Ok(()),
            Ok(false) => Err(PutError::Equal),
            Err(_) => Err(PutError::Memory),
        }
    }
}

/// Whether some of the data are equal to the others, by their fields.
#[tactic(auto, using(crate::proofs::Equality::list_any_map))]
fn has_equal(items: &[StoredRecordData], item: &StoredRecordData) -> bool
    ensures { result ≡ list_any (same_data (data_fields item.now)) (map data_fields items.now) }
{
    is_among(items, item)
}

/// Puts data last, and into the index, unless equal data are there. Tells whether they were put. Without memory both stay.
fn push_unless_there(
    items: &mut Vec<StoredRecordData>,
    seen: &mut Option<BTreeSet<DataKey>>,
    alloc: Global,
    item: StoredRecordData,
) -> Result<bool, AllocError>
    requires { IsIndexed (map data_fields items.old.items) seen.old }
    ensures told { IfOk result (λ told. told ≡ not (list_any (same_data (data_fields item)) (map data_fields items.old.items))) }
    ensures put { result ≡ Ok true → items.new.items ≡ items.old.items ++ item ∷ [] }
    ensures same { result ≡ Ok false → items.new.items ≡ items.old.items }
    ensures err { OnErr result (items.new.items ≡ items.old.items) }
    ensures fresh { OnErr result (list_any (same_data (data_fields item)) (map data_fields items.old.items) ≡ false) }
    ensures indexed { IsIndexed (map data_fields items.new.items) seen.new }
{
    match seen {
        Some(keys) => push_into_index(items, keys, item),
        None => {
            if has_equal(items, &item) {
                drop(item);
                return Ok(false);
            }
            push_noted(items, seen, alloc, item)?;
            Ok(true)
        }
    }
}

/// The same where there is an index.
fn push_into_index(
    items: &mut Vec<StoredRecordData>,
    keys: &mut BTreeSet<DataKey>,
    item: StoredRecordData,
) -> Result<bool, AllocError>
    requires { Indexes (map data_fields items.old.items) keys.old }
    ensures told { IfOk result (λ told. told ≡ not (list_any (same_data (data_fields item)) (map data_fields items.old.items))) }
    ensures put { result ≡ Ok true → items.new.items ≡ items.old.items ++ item ∷ [] }
    ensures same { result ≡ Ok false → items.new.items ≡ items.old.items }
    ensures err { OnErr result (items.new.items ≡ items.old.items) }
    ensures fresh { OnErr result (list_any (same_data (data_fields item)) (map data_fields items.old.items) ≡ false) }
    ensures indexed { Indexes (map data_fields items.new.items) keys.new }
{
    let key = match DataKey::of(&item) {
        Ok(key) => key,
        Err(error) => {
            let there = has_equal(items, &item);
            drop(item);
            return told_or(there, error);
        }
    };
    let len = items.len();
    match items.push(item) {
        Ok(()) => {}
        Err(error) => {
            let there = keys.contains(&key);
            drop(key);
            return told_or(there, error.into());
        }
    }
    let noted = note_new(keys, key);
    match noted {
        Ok(true) => {}
        _ => items.truncate(len),
    }
    noted
}

/// What is told without memory: that nothing was put, where equal data are there.
fn told_or(there: bool, error: AllocError) -> Result<bool, AllocError>
    ensures ok { IfOk result (λ told. told ≡ not there) }
    ensures no { OnOk result (there ≡ true) }
    ensures err { OnErr result (there ≡ false) }
{
    if there { Ok(false) } else { Err(error) }
}

/// Puts data last, and into the index, which is made where the data become many. Without memory both stay.
fn push_noted(
    items: &mut Vec<StoredRecordData>,
    seen: &mut Option<BTreeSet<DataKey>>,
    alloc: Global,
    item: StoredRecordData,
) -> Result<(), AllocError>
    ensures ok { OnOk result (items.new.items ≡ items.old.items ++ item ∷ []) }
    ensures err { OnErr result (items.new.items ≡ items.old.items) }
    ensures indexed { IsIndexed (map data_fields items.old.items) seen.old → IsIndexed (map data_fields items.new.items) seen.new }
{
    if seen.is_none() && items.len() < FEW {
        items.push(item)?;
        return Ok(());
    }
    let key = match DataKey::of(&item) {
        Ok(key) => key,
        Err(error) => {
            drop(item);
            return Err(error);
        }
    };
    let len = items.len();
    match items.push(item) {
        Ok(()) => {}
        Err(error) => {
            drop(key);
            return Err(error.into());
        }
    }
    let noted = note_last(seen, alloc, items, key);
    if noted.is_err() {
        items.truncate(len);
    }
    noted
}

/// Puts data last, and into the index where there is one. Without memory both stay.
pub(crate) fn push_last(
    items: &mut Vec<StoredRecordData>,
    seen: &mut Option<BTreeSet<DataKey>>,
    item: StoredRecordData,
) -> Result<(), AllocError>
    requires { IsIndexed (map data_fields items.old.items) seen.old }
    ensures ok { OnOk result (items.new.items ≡ items.old.items ++ item ∷ []) }
    ensures err { OnErr result (items.new.items ≡ items.old.items) }
    ensures indexed { IsIndexed (map data_fields items.new.items) seen.new }
{
    if seen.is_none() {
        items.push(item)?;
        return Ok(());
    }
    let alloc = *items.allocator();
    push_noted(items, seen, alloc, item)
}

/// Whether some of the data are equal to the others.
fn is_among(items: &[StoredRecordData], item: &StoredRecordData) -> bool
    ensures { result ≡ list_any (λ kept. same_data (data_fields item.now) (data_fields kept)) items.now }
{
    items.iter().any(|kept| is_same(item, kept))
}

/// Whether some of the data aren't equal to the others.
fn has_others(items: &[StoredRecordData], item: &StoredRecordData) -> bool
    ensures { result ≡ list_any (λ kept. not (same_data (data_fields item.now) (data_fields kept))) items.now }
{
    items.iter().any(|kept| !is_same(item, kept))
}

/// Takes the data out that are equal to the others.
fn drop_equal(items: &mut Vec<StoredRecordData>, item: &StoredRecordData)
    ensures { items.new.items ≡ filter (λ kept. not (same_data (data_fields item.now) (data_fields kept))) items.old.items }
{
    items.retain(|kept| !is_same(item, kept));
}

/// Whether two data are equal.
fn is_same(item: &StoredRecordData, kept: &StoredRecordData) -> bool
    ensures { result ≡ same_data (data_fields item.now) (data_fields kept.now) }
{
    item.fields_eq(kept)
}

/// The RRset of the first of equal data.
fn first_of_equal(alloc: Global, set: &Rrset) -> Result<Rrset, AllocError>
    ensures { IfOk result (λ s. s ≡ typed set.now.rtype (distinct_set set.now.contents)) }
{
    let mut first = Rrset::new(alloc, set.rtype(), set.ttl());
    for item in set.data() {
        push_new(&mut first, alloc, item)?;
    }
    Ok(first)
}

/// Puts data of the RRset's type last, unless equal data are in the RRset.
fn push_new(into: &mut Rrset, alloc: Global, item: &StoredRecordData) -> Result<(), AllocError>
    requires { rtype_of item.now ≡ into.old.rtype }
    ensures { OnOk result (into.new ≡ set_of into.old.rtype into.old.contents.ttl (if list_any (same_data (data_fields item.now)) into.old.contents.items then into.old.contents.items else into.old.contents.items ++ data_fields item.now ∷ [])) }
{
    if into.contains(item) {
        return Ok(());
    }
    let ttl = into.ttl();
    into.append(alloc, ttl, item.clone()?)
}
