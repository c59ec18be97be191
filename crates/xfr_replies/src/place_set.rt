// The set of a place.
ghost use Rattle.std.specs.Prelude.{◌≡◌, map, option_map};
ghost use Rattle.std.specs.Arc.{arc_value};
ghost use Rattle.dns_name.specs.Names.{fold};
ghost use Rattle.zone_model.specs.Version.{set_at, set_in};
ghost use Rattle.zone_model.specs.Answer.{first_only};
ghost use Rattle.zone_values.specs.TypedEntries.{typed};
ghost use Rattle.xfr_replies.specs.Places.{KeepsItsSet, set_in_part};
ghost use Rattle.xfr_replies.specs.Sides.{first_side, sides_from};

use crate::lent_set::LentSet;
use crate::of_difference::side_sets;
use crate::place::{Part, Place, Side};
use std::sync::Arc;
use zone_diffs::InMemoryZoneDiff;
use zone_reads::ReadZone;
use zone_values::SetKey;

/// The set of a place: the one that is kept, or else the one that a look-up finds.
pub(crate) fn set_of_place<'t>(
    zone: &'t ReadZone,
    diffs: &'t [Arc<InMemoryZoneDiff>],
    place: &'t Place,
) -> Option<LentSet<'t>>
    requires { KeepsItsSet zone.now.version (map arc_value diffs.now) place.now }
    ensures { result ≡ option_map (typed place.now.rtype) (set_in_part zone.now.version (map arc_value diffs.now) place.now.part place.now.owner place.now.rtype) }
{
    match &place.set {
        Some(kept) => Some(LentSet::of(kept.as_rrset())),
        None => set_at_place(zone, diffs, place),
    }
}

/// The set that a look-up finds at a place.
fn set_at_place<'t>(
    zone: &'t ReadZone,
    diffs: &'t [Arc<InMemoryZoneDiff>],
    place: &Place,
) -> Option<LentSet<'t>>
    ensures { result ≡ option_map (typed place.now.rtype) (set_in_part zone.now.version (map arc_value diffs.now) place.now.part place.now.owner place.now.rtype) }
{
    match place.part {
        Part::BeforeZone => soa_set(zone, place),
        Part::Zone => zone_set(zone, place),
        Part::BeforeChanges => soa_set(zone, place),
        Part::SideSoas(side) => side_set(diffs, side, place),
        Part::SideSets(side) => side_set(diffs, side, place),
        Part::Last => soa_set(zone, place),
    }
}

/// The set of the zone at a place's owner and type.
fn zone_set<'t>(zone: &'t ReadZone, place: &Place) -> Option<LentSet<'t>>
    ensures { result ≡ option_map (typed place.now.rtype) (set_at zone.now.version place.now.owner place.now.rtype) }
{
    match zone.rrset_at(&place.owner, place.rtype) {
        Some(set) => Some(LentSet::of(set)),
        None => None,
    }
}

/// The first record of that set alone.
fn soa_set<'t>(zone: &'t ReadZone, place: &Place) -> Option<LentSet<'t>>
    ensures { result ≡ option_map (typed place.now.rtype) (option_map first_only (set_at zone.now.version place.now.owner place.now.rtype)) }
{
    match zone_set(zone, place) {
        Some(set) => Some(set.first_only()),
        None => None,
    }
}

/// The set of a side at a place's owner and type.
fn side_set<'t>(
    diffs: &'t [Arc<InMemoryZoneDiff>],
    side: Side,
    place: &Place,
) -> Option<LentSet<'t>>
    ensures { result ≡ option_map (typed place.now.rtype) (set_in (first_side (sides_from (map arc_value diffs.now) side)) (fold place.now.owner, place.now.rtype)) }
{
    let sets = side_sets(diffs, side)?;
    match sets.get(&SetKey::new(&place.owner, place.rtype)) {
        Some(set) => Some(LentSet::of(set.as_rrset())),
        None => None,
    }
}
