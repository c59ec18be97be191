// Places in the sides of differences.
ghost use Rattle.std.specs.Prelude.{◌≡◌, ◌==◌, ◌<◌, ◌∷◌, List, length, map, not, IsSome, option_copied, slice_get};
ghost use Rattle.std.specs.Arc.{arc_value};
ghost use Rattle.dns_numbers.specs.Codes.{type_soa};
ghost use Rattle.zone_model.specs.Version.{Sets};
ghost use Rattle.zone_model.specs.Difference.{Difference};
ghost use Rattle.zone_model.specs.Offer.{side_records, side_soas};
ghost use Rattle.zone_model.specs.Walk.{shown_owner};
ghost use Rattle.xfr_replies.specs.Places.{sides_text};
ghost use Rattle.xfr_replies.specs.Sides.{behind, side_text, sides_from};
ghost use Rattle.xfr_replies.specs.Steps.{FindsFrom, Heads, SkipsSoas};

use crate::place::{Part, Place, Side};
use dns_name::{KeyName, Labelled, ToName};
use dns_numbers::Rtype;
use std::sync::Arc;
use zone_diffs::{DiffSets, InMemoryZoneDiff};
use zone_reads::ReadZone;
use zone_values::SetKey;

/// The sets of a side; None from the last difference on.
pub(crate) fn side_sets(diffs: &[Arc<InMemoryZoneDiff>], side: Side) -> Option<&DiffSets>
    ensures value { option_copied result ≡ slice_get (sides_from (map arc_value diffs.now) side) 0 }
    ensures within { IsSome result → side.number < length diffs.now }
{
    let diff = diffs.get(side.number)?;
    if side.adds {
        Some(&diff.added)
    } else {
        Some(&diff.removed)
    }
}

/// The key of the first set.
pub(crate) fn first_key(sets: &DiffSets) -> Option<&SetKey>
    ensures { Heads sets.now sets.now (option_copied result) }
{
    // For the proof: the sets are in order, and none is empty.
    let _count = sets.len();
    match sets.at(0) {
        Some((key, _)) => Some(key),
        None => None,
    }
}

/// The key of the first set behind one.
pub(crate) fn key_behind<'d>(sets: &'d DiffSets, key: &SetKey) -> Option<&'d SetKey>
    ensures { Heads sets.now (behind key.now sets.now) (option_copied result) }
{
    // For the proof: the sets are in order, and none is empty.
    let _count = sets.len();
    match sets.first_behind(key) {
        Some((found, _)) => Some(found),
        None => None,
    }
}

/// Whether a set is one of SOA records.
fn is_soa_key(key: &SetKey) -> bool
    ensures { result ≡ (key.now.1 == type_soa) }
{
    key.rtype() == Rtype::SOA
}

/// The first of a key and those behind it that isn't of SOA records.
fn plain_key<'d>(sets: &'d DiffSets, first: Option<&'d SetKey>) -> Option<&'d SetKey>
    ensures { (rest : Sets) → Heads sets.now rest (option_copied first.entry) → SkipsSoas sets.now rest (option_copied result) }
{
    let mut next = first;
    'keys: while let Some(key) = next {
        if !is_soa_key(key) {
            return next;
        }
        next = key_behind(sets, key);
    }
    None
}

/// An owner as a transfer shows it: the apex as it was given.
fn shown_owner(zone: &ReadZone, owner: &KeyName) -> KeyName
    ensures { result ≡ shown_owner zone.now.version owner.now }
{
    if owner.name_eq(zone.apex_name()) {
        zone.apex_name().to_key_name()
    } else {
        owner.duplicate()
    }
}

/// The first record of a side from a key on that is no SOA record.
pub(crate) fn plain_place(
    zone: &ReadZone,
    sets: &DiffSets,
    side: Side,
    first: Option<&SetKey>,
) -> Option<Place>
    ensures { (ds : List Difference) (more : List Sets) (rest : Sets) → sides_from ds side ≡ sets.now ∷ more → Heads sets.now rest (option_copied first.entry)
        → FindsFrom zone.now.version ds (side_records zone.now.version rest) (sides_text zone.now.version more) result }
{
    match plain_key(sets, first) {
        Some(key) => {
            let owner = shown_owner(zone, key.owner());
            Some(Place::first_of(Part::SideSets(side), owner, key.rtype()))
        }
        None => None,
    }
}

/// Whether a side has an SOA record of the apex.
fn has_soas(zone: &ReadZone, sets: &DiffSets) -> bool
    ensures { result ≡ not (length (side_soas zone.now.version sets.now) == 0) }
{
    match sets.get(&SetKey::new(zone.apex_name(), Rtype::SOA)) {
        Some(set) => !set.as_rrset().is_empty(),
        None => false,
    }
}

/// The first record of a side.
pub(crate) fn side_place(zone: &ReadZone, sets: &DiffSets, side: Side) -> Option<Place>
    ensures { (ds : List Difference) (more : List Sets) → sides_from ds side ≡ sets.now ∷ more
        → FindsFrom zone.now.version ds (side_text zone.now.version sets.now) (sides_text zone.now.version more) result }
{
    if has_soas(zone, sets) {
        let apex = zone.apex_name().to_key_name();
        return Some(Place::first_of(Part::SideSoas(side), apex, Rtype::SOA));
    }
    plain_place(zone, sets, side, first_key(sets))
}
