// Places in the zone: its SOA record, and its sets in order.
ghost use Rattle.std.specs.Prelude.{◌≡◌, ◌++◌, IfSome, Some};
ghost use Rattle.std.specs.Bool.{OnFalse, OnTrue};
ghost use Rattle.dns_name.specs.Names.{fold};
ghost use Rattle.zone_model.specs.Version.{Sets};
ghost use Rattle.zone_model.specs.Answer.{apex_soa_record};
ghost use Rattle.zone_values.specs.TypedEntries.{typed};
ghost use Rattle.xfr_replies.specs.Places.{Begins};
ghost use Rattle.xfr_replies.specs.Sides.{behind, middle_of};
ghost use Rattle.xfr_replies.specs.Steps.{HeadsAt, SkipsApexSoa, is_soa_stop, soa_place};
ghost use Rattle.xfr_replies.specs.declared.place.Part.TheVariants.{Zone};

use crate::place::{Part, Place};
use dns_name::{KeyName, Labelled, ToName};
use dns_numbers::Rtype;
use zone_reads::{ReadZone, WalkItem};
use zone_values::SharedRrset;

/// The place of the apex SOA record in a part of the text, if there is one.
pub(crate) fn soa_place(zone: &ReadZone, part: Part) -> Option<Place>
    ensures { result ≡ soa_place zone.now.version part }
{
    let found = zone.rrset_at(zone.apex_name(), Rtype::SOA)?;
    if found.data().is_empty() {
        return None;
    }
    let apex = zone.apex_name().to_key_name();
    Some(Place::first_of(part, apex, Rtype::SOA))
}

/// The SOA record that ends the text.
pub(crate) fn last_place(zone: &ReadZone) -> Option<Place>
    ensures { (ds : _) → Begins zone.now.version ds (apex_soa_record zone.now.version) result }
{
    soa_place(zone, Part::Last)
}

/// The first set of the zone.
#[tactic(auto, using(crate::proofs::Stops::heads_at_first))]
pub(crate) fn first_stop(zone: &ReadZone) -> Option<WalkItem<'_>>
    ensures { HeadsAt zone.now.version zone.now.version.sets result }
{
    // For the proof: the version is valid.
    zone.validity();
    zone.first_rrset()
}

/// The first set of the zone behind an owner and type.
#[tactic(auto, using(crate::proofs::Stops::heads_at_next))]
pub(crate) fn stop_behind<'z>(
    zone: &'z ReadZone,
    owner: &KeyName,
    rtype: Rtype,
) -> Option<WalkItem<'z>>
    ensures { HeadsAt zone.now.version (behind (fold owner.now, rtype) zone.now.version.sets) result }
{
    // For the proof: the version is valid.
    zone.validity();
    zone.contents().next_stop(owner, rtype)
}

/// Whether a set is the apex SOA's.
fn is_soa_stop(zone: &ReadZone, stop: &WalkItem<'_>) -> bool
    ensures { result ≡ is_soa_stop zone.now.version stop.now }
{
    stop.rtype() == Rtype::SOA && stop.owner().name_eq(zone.apex_name())
}

/// The first of a set and those behind it that isn't the apex SOA's.
fn other_stop<'z>(zone: &'z ReadZone, first: Option<WalkItem<'z>>) -> Option<WalkItem<'z>>
    ensures { (rest : Sets) → HeadsAt zone.now.version rest first.entry → SkipsApexSoa zone.now.version rest result }
{
    let mut next = first;
    'stops: while let Some(stop) = next {
        if !is_soa_stop(zone, &stop) {
            return Some(stop);
        }
        next = stop_behind(zone, stop.owner(), stop.rtype());
    }
    None
}

/// The set of a stop, to be kept; None where it can't be shared once more.
fn kept_set(stop: &WalkItem<'_>) -> Option<SharedRrset>
    ensures { IfSome result (λ set. set ≡ typed stop.now.rtype stop.now.contents) }
{
    match stop.shared().clone() {
        Ok(set) => Some(set),
        Err(_) => None,
    }
}

/// The first record from a set of the zone on that isn't the apex SOA's, with that set, or the SOA record that ends the text.
pub(crate) fn zone_place(zone: &ReadZone, first: Option<WalkItem<'_>>) -> Option<Place>
    ensures { (rest : Sets) → HeadsAt zone.now.version rest first.entry
        → (ds : _) → Begins zone.now.version ds (middle_of zone.now.version rest ++ apex_soa_record zone.now.version) result }
{
    match other_stop(zone, first) {
        Some(stop) => Some(Place {
            part: Part::Zone,
            owner: stop.owner().duplicate(),
            rtype: stop.rtype(),
            index: 0,
            set: kept_set(&stop),
        }),
        None => last_place(zone),
    }
}

/// Goes to the first record of a set of the zone, and keeps that set.
fn go_to(place: &mut Place, stop: &WalkItem<'_>)
    ensures is { place.new ≡ record { part = Zone; owner = stop.now.owner; rtype = stop.now.rtype; index = 0; set = place.new.set } }
    ensures kept { IfSome place.new.set (λ set. set ≡ typed stop.now.rtype stop.now.contents) }
{
    place.part = Part::Zone;
    place.owner = stop.owner().duplicate();
    place.rtype = stop.rtype();
    place.index = 0;
    place.set = kept_set(stop);
}

/// Goes from a set of the zone to the first record of the next one. Where that is the apex SOA's, or there is none, it does nothing
/// and says so.
pub(crate) fn next_in_zone(zone: &ReadZone, place: &mut Place) -> bool
    ensures moves { (ds : _) → OnTrue result (Begins zone.now.version ds
        (middle_of zone.now.version (behind (fold place.old.owner, place.old.rtype) zone.now.version.sets)
        ++ apex_soa_record zone.now.version) (Some place.new)) }
    ensures stays { OnFalse result (place.new ≡ place.old) }
{
    let found = stop_behind(zone, &place.owner, place.rtype);
    match &found {
        Some(stop) => go_to_other(zone, place, stop),
        None => false,
    }
}

/// Goes to the first record of a set of the zone, unless that is the apex SOA's, and says whether it does.
fn go_to_other(zone: &ReadZone, place: &mut Place, stop: &WalkItem<'_>) -> bool
    ensures moves { (ds : _) (rest : Sets) → HeadsAt zone.now.version rest (Some stop.now) → OnTrue result
        (Begins zone.now.version ds (middle_of zone.now.version rest ++ apex_soa_record zone.now.version) (Some place.new)) }
    ensures stays { OnFalse result (place.new ≡ place.old) }
{
    if is_soa_stop(zone, stop) {
        return false;
    }
    go_to(place, stop);
    true
}
