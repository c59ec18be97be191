// What two versions differ in, looked for at the touched keys.
ghost use Rattle.std.specs.Prelude.{◌≡◌, ◌++◌, ◌∷◌, [], Some, None, IfOk, OnOk, option_copied, option_map, if◌then◌else◌};
ghost use Rattle.dns_rdata.specs.Records.{same_data};
ghost use Rattle.dns_rdata.specs.Soa.{serial_of};
ghost use Rattle.dns_rdata.specs.ZoneData.{data_fields, rtype_of};
ghost use Rattle.zone_model.specs.Version.{apex_soa};
ghost use Rattle.zone_model.specs.Difference.{difference, diffable, without};
ghost use Rattle.zone_values.specs.TypedEntries.{typed, untyped};
ghost use Rattle.zone_values.specs.TypedSets.{set_of};
ghost use Rattle.zone_changes.specs.Touched.{Covers};
ghost use Rattle.zone_changes.specs.Changes.{folded, with_lacked, has_record, lacked_of};

use crate::touched::TouchedKeys;
use dns_numbers::{Rtype, Serial, Ttl};
use dns_rdata::StoredRecordData;
use std::alloc::{AllocError, Global};
use zone_diffs::{DiffSets, InMemoryZoneDiff, is_upto, serial_of};
use zone_values::Rrset;
use zone_versions::{SetKey, ZoneVersion};

/// The difference from one version of a zone to another (RFC 1995, 4), which is looked for at the touched keys alone. None where one of the two
/// lacks an apex SOA record, or where the new serial is the old one or before it (RFC 1995, 2; RFC 1982, 3.2).
pub fn difference(
    alloc: Global,
    old: &ZoneVersion,
    new: &ZoneVersion,
    touched: &TouchedKeys,
) -> Result<Option<InMemoryZoneDiff>, AllocError>
    requires { Covers touched.now old.now.sets new.now.sets }
    ensures { IfOk result (λ d. d ≡ (if diffable old.now new.now then Some (difference old.now new.now) else None)) }
{
    let Some(start_serial) = apex_serial(old) else {
        return Ok(None);
    };
    let Some(end_serial) = apex_serial(new) else {
        return Ok(None);
    };
    if is_upto(end_serial, start_serial) {
        return Ok(None);
    }
    let removed = lacking(alloc, old, new, touched)?;
    let added = lacking(alloc, new, old, touched)?;
    Ok(Some(InMemoryZoneDiff {
        start_serial,
        end_serial,
        added,
        removed,
    }))
}

/// The difference from one version of a zone to another, which is looked for at all their keys.
pub(crate) fn difference_anywhere(
    alloc: Global,
    old: &ZoneVersion,
    new: &ZoneVersion,
) -> Result<Option<InMemoryZoneDiff>, AllocError>
    ensures { IfOk result (λ d. d ≡ (if diffable old.now new.now then Some (difference old.now new.now) else None)) }
{
    // For the proof: the sets are sound.
    let _ = old.keys();
    let _ = new.keys();
    let mut touched = TouchedKeys::new(alloc);
    touched.note_below(old, old.apex())?;
    touched.note_below(new, new.apex())?;
    difference(alloc, old, new, &touched)
}

/// The serial of a version's apex SOA (RFC 1035, 3.3.13), if it has one.
fn apex_serial(version: &ZoneVersion) -> Option<Serial>
    ensures { result ≡ option_map serial_of (apex_soa version.now) }
{
    let found = version.set_at(version.apex(), Rtype::SOA)?;
    match found.data().first() {
        Some(item) => Some(serial_of(item)),
        None => None,
    }
}

/// The records of a version that another one lacks.
fn lacking(
    alloc: Global,
    version: &ZoneVersion,
    other: &ZoneVersion,
    touched: &TouchedKeys,
) -> Result<DiffSets, AllocError>
    requires { Covers touched.now version.now.sets other.now.sets }
    ensures { IfOk result (λ sets. sets ≡ without version.now.sets other.now.sets) }
{
    // For the proof: the sets are in order.
    let _ = version.keys();
    let mut sets = DiffSets::new(alloc);
    for key in touched.iter() {
        put_lacked(alloc, &mut sets, key, version, other)?;
    }
    Ok(sets)
}

/// Puts the records that a version has at a key and another one lacks.
fn put_lacked(
    alloc: Global,
    sets: &mut DiffSets,
    key: &SetKey,
    version: &ZoneVersion,
    other: &ZoneVersion,
) -> Result<(), AllocError>
    ensures { OnOk result (sets.new ≡ with_lacked version.now.sets other.now.sets sets.old (folded key.now)) }
{
    let (owner, rtype) = (key.owner(), key.rtype());
    let Some(set) = version.set_at(owner, rtype) else {
        return Ok(());
    };
    let left = lacked(alloc, set, other.set_at(owner, rtype))?;
    sets.put(SetKey::new(owner, rtype), left.into_shared(alloc)?)
}

/// The records of an RRset that another one of its type lacks, or all where there is no other. Records of another TTL are others (RFC 2181, 5.2).
fn lacked(alloc: Global, set: &Rrset, other: Option<&Rrset>) -> Result<Rrset, AllocError>
    ensures { IfOk result (λ r. r ≡ typed set.now.rtype (lacked_of (untyped (option_copied other.entry)) set.now.contents)) }
{
    let mut left = Rrset::new(alloc, set.rtype(), set.ttl());
    for item in set.data() {
        push_unless(&mut left, item, has_record(other, set.ttl(), item))?;
    }
    Ok(left)
}

/// Puts data of the RRset's type last, unless another RRset has them.
fn push_unless(left: &mut Rrset, item: &StoredRecordData, had: bool) -> Result<(), AllocError>
    requires { rtype_of item.now ≡ left.old.rtype }
    ensures { OnOk result (left.new ≡ set_of left.old.rtype left.old.contents.ttl (if had then left.old.contents.items else left.old.contents.items ++ data_fields item.now ∷ [])) }
{
    if had {
        return Ok(());
    }
    left.push_data(item.clone()?)
}

/// Whether an RRset, if there is one, has this TTL and equal data.
fn has_record(set: Option<&Rrset>, ttl: Ttl, item: &StoredRecordData) -> bool
    ensures { result ≡ has_record (untyped (option_copied set.entry)) ttl (data_fields item.now) }
{
    match set {
        Some(set) => set.ttl() == ttl && set.contains(item),
        None => false,
    }
}
