// Which differences can be sent.
ghost use Rattle.std.specs.Prelude.{◌≡◌, ◌==◌, length, map};
ghost use Rattle.std.specs.Arc.{arc_value};
ghost use Rattle.std.specs.List.{list_all};
ghost use Rattle.zone_model.specs.Offer.{is_sendable, side_soas};

use dns_numbers::Rtype;
use std::sync::Arc;
use zone_diffs::{DiffSets, InMemoryZoneDiff};
use zone_reads::ReadZone;
use zone_values::SetKey;

/// Whether each difference removes exactly one SOA record of the zone's apex and adds exactly one, as a text of changes wants it (RFC 1995, 4).
pub fn are_sendable(zone: &ReadZone, diffs: &[Arc<InMemoryZoneDiff>]) -> bool
    ensures { result ≡ list_all (is_sendable zone.now.version) (map arc_value diffs.now) }
{
    all_sendable(zone, diffs)
}

/// The same of the differences as they are kept.
fn all_sendable(zone: &ReadZone, diffs: &[Arc<InMemoryZoneDiff>]) -> bool
    ensures { result ≡ list_all (λ diff. is_sendable zone.now.version (arc_value diff)) diffs.now }
{
    diffs.iter().all(|diff| is_sendable(zone, diff))
}

/// Whether a difference removes exactly one SOA record of the apex and adds exactly one.
fn is_sendable(zone: &ReadZone, diff: &InMemoryZoneDiff) -> bool
    ensures { result ≡ is_sendable zone.now.version diff.now }
{
    has_one_soa(zone, &diff.removed) && has_one_soa(zone, &diff.added)
}

/// Whether a side of a difference has exactly one SOA record of the apex.
fn has_one_soa(zone: &ReadZone, sets: &DiffSets) -> bool
    ensures { result ≡ (length (side_soas zone.now.version sets.now) == 1) }
{
    match sets.get(&SetKey::new(zone.apex_name(), Rtype::SOA)) {
        Some(set) => set.as_rrset().data().len() == 1,
        None => false,
    }
}
