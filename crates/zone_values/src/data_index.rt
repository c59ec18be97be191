// An index of a set's data: whether equal data are in the set, without a look at each.
ghost use Rattle.std.specs.Prelude.{◌≡◌, true, false, Ok, ◌++◌, ◌∷◌, [], OnOk, OnErr, IfOk, List, map, not, filter};
ghost use Rattle.std.specs.List.{list_any};
ghost use Rattle.dns_rdata.specs.Records.{Field, same_data};
ghost use Rattle.dns_rdata.specs.ZoneData.{data_fields};
ghost use Rattle.zone_values.specs.DataIndex.{Indexes, IsIndexed};

use crate::data_key::DataKey;
use dns_rdata::StoredRecordData;
use std::alloc::{AllocError, Global};
use std::collections::BTreeSet;

/// How many data may stand in an RRset without an index: so few are sooner looked through.
pub(crate) const FEW: usize = 8;

/// The index of data.
fn index_of(alloc: Global, items: &[StoredRecordData]) -> Result<BTreeSet<DataKey>, AllocError>
    ensures { IfOk result (λ keys. Indexes (map data_fields items.now) keys) }
{
    let mut keys = BTreeSet::new(alloc);
    for item in items {
        put_key(&mut keys, DataKey::of(item)?)?;
    }
    Ok(keys)
}

/// Puts a key into an index.
#[tactic(auto, using(crate::proofs::Indexing::kept, crate::proofs::Indexing::with_last))]
fn put_key(keys: &mut BTreeSet<DataKey>, key: DataKey) -> Result<(), AllocError>
    ensures ok { OnOk result ((items : List (List Field)) → Indexes items keys.old → Indexes (items ++ key ∷ []) keys.new) }
    ensures err { OnErr result ((items : List (List Field)) → Indexes items keys.old → Indexes items keys.new) }
{
    keys.insert(key)?;
    Ok(())
}

/// Puts a key into an index, unless equal data are there. Tells whether it was put.
pub(crate) fn note_new(keys: &mut BTreeSet<DataKey>, key: DataKey) -> Result<bool, AllocError>
    ensures told { IfOk result (λ told. (items : List (List Field)) → Indexes items keys.old → told ≡ not (list_any (same_data key) items)) }
    ensures put { result ≡ Ok true → (items : List (List Field)) → Indexes items keys.old → Indexes (items ++ key ∷ []) keys.new }
    ensures same { result ≡ Ok false → (items : List (List Field)) → Indexes items keys.old → Indexes items keys.new }
    ensures err { OnErr result ((items : List (List Field)) → Indexes items keys.old → Indexes items keys.new) }
    ensures fresh { OnErr result ((items : List (List Field)) → Indexes items keys.old → list_any (same_data key) items ≡ false) }
{
    Ok(keys.insert(key)?)
}

/// Takes the key of data out of an index.
fn drop_key(keys: &mut BTreeSet<DataKey>, item: &StoredRecordData) -> Result<(), AllocError>
    ensures { OnOk result ((items : List (List Field)) → Indexes items keys.old → Indexes (filter (λ d. not (same_data (data_fields item.now) d)) items) keys.new) }
{
    let key = DataKey::of(item)?;
    let _ = keys.remove(&key);
    drop(key);
    Ok(())
}

/// Puts the key of data that now stand last into the index, or makes one where there is none.
pub(crate) fn note_last(
    seen: &mut Option<BTreeSet<DataKey>>,
    alloc: Global,
    items: &[StoredRecordData],
    last: DataKey,
) -> Result<(), AllocError>
    ensures ok { OnOk result ((earlier : List (List Field)) → map data_fields items.now ≡ earlier ++ last ∷ [] → IsIndexed earlier seen.old
        → IsIndexed (map data_fields items.now) seen.new) }
    ensures err { OnErr result ((earlier : List (List Field)) → IsIndexed earlier seen.old → IsIndexed earlier seen.new) }
{
    match seen {
        Some(keys) => put_key(keys, last),
        None => {
            drop(last);
            *seen = Some(index_of(alloc, items)?);
            Ok(())
        }
    }
}

/// Takes the key of data out of the index, and without memory for that the whole index.
pub(crate) fn forget(seen: &mut Option<BTreeSet<DataKey>>, item: &StoredRecordData)
    ensures { (items : List (List Field)) → IsIndexed items seen.old → IsIndexed (filter (λ d. not (same_data (data_fields item.now) d)) items) seen.new }
{
    if let Some(keys) = seen {
        match drop_key(keys, item) {
            Ok(()) => {}
            Err(_) => *seen = None,
        }
    }
}

/// Whether equal data are in the index.
pub(crate) fn is_noted(
    keys: &BTreeSet<DataKey>,
    item: &StoredRecordData,
) -> Result<bool, AllocError>
    ensures { IfOk result (λ found. (items : List (List Field)) → Indexes items keys.now → found ≡ list_any (same_data (data_fields item.now)) items) }
{
    let key = DataKey::of(item)?;
    let found = keys.contains(&key);
    drop(key);
    Ok(found)
}
