// The text of one transfer, record by record.
ghost use Rattle.std.specs.Prelude.{◌≡◌, ◌==◌, drop, length, map, slice_get};
ghost use Rattle.std.specs.Arc.{arc_value};
ghost use Rattle.zone_model.specs.Offer.{changes_text, whole_text};

use crate::place::Place;
use crate::place_set::set_of_place;
use crate::steps::{changes_place, move_on, whole_place};
use dns_rdata::{LentRecord, Record};
use std::alloc::Global;
use std::marker::Model;
use std::sync::Arc;
use zone_diffs::InMemoryZoneDiff;
use zone_reads::ReadZone;

/// The text of one transfer from a place on. Contracts see the version that it tells of, and the records that are left.
#[derive(Drop)]
pub struct TransferText {
    zone: ReadZone,
    diffs: Vec<Arc<InMemoryZoneDiff>>,
    place: Option<Place>,
}

impl Model for TransferText {
    ghost use Rattle.std.specs.Prelude.{map};
    ghost use Rattle.std.specs.Arc.{arc_value};
    ghost use Rattle.xfr_replies.specs.Places.{TextLeft, IsPlace, text_left};

    ghost Value = { TextLeft };

    ghost view = { λ t. record { zone = t.zone; records = text_left t.zone.version (map arc_value t.diffs.items) t.place } };

    ghost invariant = { λ t. IsPlace t.zone.version (map arc_value t.diffs.items) t.place };
}

impl TransferText {
    /// The whole zone: its SOA record, all other records, owners in canonical order, each one's types ascending, and the SOA record again
    /// (RFC 5936, 2.2). Glue and all else below a cut is among them, each record once.
    pub fn whole(alloc: Global, zone: ReadZone) -> TransferText
        ensures { result ≡ record { zone = zone; records = whole_text zone.version } }
    {
        let place = whole_place(&zone);
        TransferText {
            zone,
            diffs: Vec::new(alloc),
            place,
        }
    }

    /// The differences that lead to the zone's version, oldest first: the zone's SOA record, of each difference the SOA record that it removes,
    /// the other records that it removes, the SOA record that it adds and the other records that it adds, and the zone's SOA record again
    /// (RFC 1995, 4). `are_sendable` tells whether each of them has those two SOA records.
    pub fn changes(zone: ReadZone, diffs: Vec<Arc<InMemoryZoneDiff>>) -> TransferText
        ensures { result ≡ record { zone = zone; records = changes_text zone.version (map arc_value diffs.items) } }
    {
        let place = changes_place(&zone, &diffs);
        TransferText { zone, diffs, place }
    }

    /// The first record that is left, lent from where it is kept; None where none is left. A set of the zone was found when the text came to it;
    /// for other records it is looked up.
    pub fn next(&self) -> Option<LentRecord<'_>>
        ensures { result ≡ slice_get self.now.records 0 }
    {
        let Some(place) = &self.place else {
            return None;
        };
        let set = set_of_place(&self.zone, &self.diffs, place)?;
        let rdata = set.items().get(place.index)?;
        let owner = place.owner.borrowed();
        Some(Record::new(owner, self.zone.class(), set.ttl(), rdata))
    }

    /// Goes past the first record that is left. Where none is left it does nothing.
    pub fn advance(&mut self)
        ensures { self.new ≡ record self.old { records = drop 1 self.old.records } }
    {
        move_on(&self.zone, &self.diffs, &mut self.place);
    }

    /// Whether no record is left.
    pub fn is_at_end(&self) -> bool
        ensures { result ≡ (length self.now.records == 0) }
    {
        self.place.is_none()
    }

    /// The version that the text tells of.
    pub fn zone(&self) -> &ReadZone
        ensures { result.now ≡ self.now.zone }
    {
        &self.zone
    }
}
