// From place to place of a text.
ghost use Rattle.std.specs.Prelude.{◌≡◌, ◌++◌, ◌≤◌, ◌+◌, drop, length, map, Some};
ghost use Rattle.std.specs.Bool.{OnFalse, OnTrue};
ghost use Rattle.std.specs.Arc.{arc_value};
ghost use Rattle.zone_model.specs.Offer.{changes_text, side_records, whole_text};
ghost use Rattle.xfr_replies.specs.Places.{Begins, IsPlace, KeepsItsSet, place_records, sides_text, text_behind, text_from, text_left};
ghost use Rattle.xfr_replies.specs.Sides.{behind, first_side, sides_from};
ghost use Rattle.xfr_replies.specs.Steps.{soa_place};

use crate::of_difference::{first_key, key_behind, plain_place, side_place, side_sets};
use crate::of_zone::{first_stop, last_place, next_in_zone, soa_place, stop_behind, zone_place};
use crate::place::{Part, Place, Side};
use crate::place_set::set_of_place;
use std::sync::Arc;
use zone_diffs::InMemoryZoneDiff;
use zone_reads::ReadZone;
use zone_values::SetKey;

/// Where the whole text begins; None where it has no record.
pub(crate) fn whole_place(zone: &ReadZone) -> Option<Place>
    ensures { (ds : _) → Begins zone.now.version ds (whole_text zone.now.version) result }
{
    match soa_place(zone, Part::BeforeZone) {
        Some(place) => Some(place),
        None => zone_place(zone, first_stop(zone)),
    }
}

/// Where the text of changes begins; None where it has no record.
pub(crate) fn changes_place(zone: &ReadZone, diffs: &[Arc<InMemoryZoneDiff>]) -> Option<Place>
    ensures { Begins zone.now.version (map arc_value diffs.now) (changes_text zone.now.version (map arc_value diffs.now)) result }
{
    match soa_place(zone, Part::BeforeChanges) {
        Some(place) => Some(place),
        None => sides_place(zone, diffs, Side::first()),
    }
}

/// Goes to the next record of the text; None where nothing is left. Within a set, and to the zone's next set, the place is changed as it
/// stands: its owner takes 264 octets, and each move would copy them.
pub(crate) fn move_on(zone: &ReadZone, diffs: &[Arc<InMemoryZoneDiff>], place: &mut Option<Place>)
    requires { IsPlace zone.now.version (map arc_value diffs.now) place.old }
    ensures { Begins zone.now.version (map arc_value diffs.now)
        (drop 1 (text_left zone.now.version (map arc_value diffs.now) place.old)) place.new }
{
    let Some(here) = place else {
        return;
    };
    if goes_near(zone, diffs, here) {
        return;
    }
    *place = place_behind(zone, diffs, here);
}

/// Goes to the next record of a place's set, or to that of the zone's next set, and says whether it does.
fn goes_near(zone: &ReadZone, diffs: &[Arc<InMemoryZoneDiff>], place: &mut Place) -> bool
    requires { IsPlace zone.now.version (map arc_value diffs.now) (Some place.old) }
    ensures moves { OnTrue result (Begins zone.now.version (map arc_value diffs.now)
        (drop 1 (text_from zone.now.version (map arc_value diffs.now) place.old)) (Some place.new)) }
    ensures stays { OnFalse result (place.new ≡ place.old) }
    ensures last { OnFalse result
        (length (place_records zone.now.version (map arc_value diffs.now) place.old) ≤ place.old.index + 1) }
{
    let count = record_count(zone, diffs, place);
    let index = place.index + 1;
    if index < count {
        place.index = index;
        return true;
    }
    goes_to_next_set(zone, place)
}

/// Goes to the first record of the zone's next set, where the place is in the zone and that is found at once, and says whether it does.
fn goes_to_next_set(zone: &ReadZone, place: &mut Place) -> bool
    ensures moves { (ds : _) → OnTrue result (Begins zone.now.version ds
        (text_behind zone.now.version ds place.old.part place.old.owner place.old.rtype) (Some place.new)) }
    ensures stays { OnFalse result (place.new ≡ place.old) }
{
    match place.part {
        Part::Zone => next_in_zone(zone, place),
        _ => false,
    }
}

/// How many records a place's set has.
fn record_count(zone: &ReadZone, diffs: &[Arc<InMemoryZoneDiff>], place: &Place) -> usize
    requires { KeepsItsSet zone.now.version (map arc_value diffs.now) place.now }
    ensures { result ≡ length (place_records zone.now.version (map arc_value diffs.now) place.now) }
{
    match set_of_place(zone, diffs, place) {
        Some(set) => set.items().len(),
        None => 0,
    }
}

/// Where the text goes on behind a place's set.
fn place_behind(zone: &ReadZone, diffs: &[Arc<InMemoryZoneDiff>], place: &Place) -> Option<Place>
    ensures { Begins zone.now.version (map arc_value diffs.now) (text_behind zone.now.version (map arc_value diffs.now) place.now.part place.now.owner place.now.rtype) result }
{
    match place.part {
        Part::BeforeZone => zone_place(zone, first_stop(zone)),
        Part::Zone => zone_place(zone, stop_behind(zone, &place.owner, place.rtype)),
        Part::BeforeChanges => sides_place(zone, diffs, Side::first()),
        Part::SideSoas(side) => place_in_side(zone, diffs, side),
        Part::SideSets(side) => {
            place_in_side_behind(zone, diffs, side, &SetKey::new(&place.owner, place.rtype))
        }
        Part::Last => None,
    }
}

/// The first record of a side that is no SOA record, or of the sides behind it.
fn place_in_side(zone: &ReadZone, diffs: &[Arc<InMemoryZoneDiff>], side: Side) -> Option<Place>
    ensures { Begins zone.now.version (map arc_value diffs.now)
        (side_records zone.now.version (first_side (sides_from (map arc_value diffs.now) side)) ++ sides_text zone.now.version (drop 1 (sides_from (map arc_value diffs.now) side))) result }
{
    let Some(sets) = side_sets(diffs, side) else {
        return last_place(zone);
    };
    match plain_place(zone, sets, side, first_key(sets)) {
        Some(place) => Some(place),
        None => sides_place(zone, diffs, side.next()),
    }
}

/// The first record behind a key of a side that is no SOA record, or of the sides behind it.
fn place_in_side_behind(
    zone: &ReadZone,
    diffs: &[Arc<InMemoryZoneDiff>],
    side: Side,
    key: &SetKey,
) -> Option<Place>
    ensures { Begins zone.now.version (map arc_value diffs.now)
        (side_records zone.now.version (behind key.now (first_side (sides_from (map arc_value diffs.now) side))) ++ sides_text zone.now.version (drop 1 (sides_from (map arc_value diffs.now) side))) result }
{
    let Some(sets) = side_sets(diffs, side) else {
        return last_place(zone);
    };
    match plain_place(zone, sets, side, key_behind(sets, key)) {
        Some(place) => Some(place),
        None => sides_place(zone, diffs, side.next()),
    }
}

/// The first record of the sides from one on, or the SOA record that ends the text.
fn sides_place(zone: &ReadZone, diffs: &[Arc<InMemoryZoneDiff>], first: Side) -> Option<Place>
    ensures { Begins zone.now.version (map arc_value diffs.now) (sides_text zone.now.version (sides_from (map arc_value diffs.now) first)) result }
{
    let mut side = first;
    'sides: while let Some(sets) = side_sets(diffs, side) {
        if let Some(place) = side_place(zone, sets, side) {
            return Some(place);
        }
        side = side.next();
    }
    last_place(zone)
}
