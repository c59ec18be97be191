// Whether two versions have the same records.
ghost use Rattle.std.specs.Prelude.{◌≡◌, bytes_eq};
ghost use Rattle.std.specs.Cmp.Lexicographic.{pointwise};
ghost use Rattle.std.specs.List.{list_all, list_any};
ghost use Rattle.dns_rdata.specs.Records.{same_data};
ghost use Rattle.dns_rdata.specs.ZoneData.{data_fields};
ghost use Rattle.dns_name.specs.Names.{fold};
ghost use Rattle.zone_model.specs.Version.{same_items, same_version};
ghost use Rattle.zone_reads.specs.Stops.{same_told};

use crate::read::ReadZone;
use dns_rdata::StoredRecordData;
use name_keys::NameKeyRef;
use zone_values::Rrset;
use zone_versions::{TreeSet, TreeSets};

/// Whether two versions have sets of the same owners, types and TTLs with the same data, but for the order of a set's data and the case of
/// letters in names (RFC 2181, 5; RFC 4343). Apex and class aren't looked at. Two sets are compared datum by datum in their order; only where that
/// fails is each datum looked for in the other set, by its index where there are many.
#[tactic(auto, using(crate::proofs::Walks::same_sets))]
pub fn is_same(one: &ReadZone, other: &ReadZone) -> bool
    ensures { result ≡ same_version one.now.version other.now.version }
{
    are_same_sets(one.contents().sets(), other.contents().sets())
}

/// Whether the sets of two trees are the same with their owners and types, the first as the first, and so on.
fn are_same_sets(ones: TreeSets<'_>, others: TreeSets<'_>) -> bool
    ensures { result ≡ pointwise same_told ones.entry others.entry }
{
    let mut ones = ones;
    let mut others = others;
    while let Some(found) = ones.next() {
        let Some(beside) = others.next() else {
            return false;
        };
        if !is_same_set(&found, &beside) {
            return false;
        }
    }
    match others.next() {
        Some(_) => false,
        None => true,
    }
}

/// Whether two sets are the same with their owners and types.
fn is_same_set(found: &TreeSet<'_>, beside: &TreeSet<'_>) -> bool
    ensures { result ≡ same_told found.now beside.now }
{
    is_same_owner(found.owner(), beside.owner())
        && found.rtype() == beside.rtype()
        && found.set().ttl() == beside.set().ttl()
        && are_same(found.set(), beside.set())
}

/// Whether two owners in lower case are the same. Their keys are compared, so that no name is spelled out.
#[tactic(auto, using(crate::proofs::Walks::same_by_keys))]
fn is_same_owner(owner: &NameKeyRef<'_>, beside: &NameKeyRef<'_>) -> bool
    requires owner { fold owner.now ≡ owner.now }
    requires beside { fold beside.now ≡ beside.now }
    ensures { result ≡ pointwise bytes_eq owner.now beside.now }
{
    owner.as_slice() == beside.as_slice()
}

/// Whether each datum of each set has its equal in the other. Most often they stand in the same order.
fn are_same(one: &Rrset, other: &Rrset) -> bool
    ensures { result ≡ same_items one.now.contents.items other.now.contents.items }
{
    let items = one.data();
    let others = other.data();
    if are_alike(items, others) {
        return true;
    }
    let there = are_among(items, other);
    let back = are_among(others, one);
    there & back
}

/// Whether the data of two lists are equal, the first to the first, and so on.
fn are_alike(items: &[StoredRecordData], others: &[StoredRecordData]) -> bool
    ensures { result ≡ pointwise (λ x y. same_data (data_fields x) (data_fields y)) items.now others.now }
{
    let mut ones = items.iter();
    let mut others = others.iter();
    while let Some(item) = ones.next() {
        let Some(other) = others.next() else {
            return false;
        };
        if !item.fields_eq(other) {
            return false;
        }
    }
    others.next().is_none()
}

/// Whether each datum has its equal in a set, whose index is asked where it has one.
fn are_among(items: &[StoredRecordData], other: &Rrset) -> bool
    ensures { result ≡ list_all (λ x. list_any (same_data (data_fields x)) other.now.contents.items) items.now }
{
    items.iter().all(|item| other.contains(item))
}
