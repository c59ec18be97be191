// Differences that are kept in memory, and the empty one.
ghost use Rattle.std.specs.Prelude.{◌≡◌, length, map, option_map, option_copied, slice_get};
ghost use Rattle.std.specs.Map.Iter.{deref_pair};
ghost use Rattle.dns_name.specs.Names.{fold};
ghost use Rattle.zone_model.specs.Difference.{Difference};
ghost use Rattle.zone_values.specs.TypedEntries.{item_of, typed_set_in};
ghost use Rattle.zone_diffs.specs.Building.{no_difference};

use crate::sets::DiffSets;
use crate::traits::ZoneDiff;
use dns_name::Labelled;
use dns_numbers::{Rtype, Serial};
use std::alloc::AllocError;
use std::marker::Model;
use zone_values::{SetKey, SharedRrset};

/// The difference from one version of a zone to another: its serials, and the sets of records that one has and the other lacks (RFC 1995, 4).
#[derive(Debug, Drop)]
pub struct InMemoryZoneDiff {
    /// The serial that the difference leads from.
    pub start_serial: Serial,
    /// The serial that it leads to.
    pub end_serial: Serial,
    /// What is added.
    pub added: DiffSets,
    /// What is removed.
    pub removed: DiffSets,
}

impl Model for InMemoryZoneDiff {
    ghost use Rattle.zone_model.specs.Difference.{Difference};

    ghost Value = { Difference };

    ghost view = { λ d. record { start_serial = d.start_serial; end_serial = d.end_serial; removed = d.removed; added = d.added } };
}

impl Clone for InMemoryZoneDiff {
    ghost is_clone = { λ d copy. copy ≡ d };

    fn clone(&self) -> Result<InMemoryZoneDiff, AllocError> {
        Ok(InMemoryZoneDiff {
            start_serial: self.start_serial,
            end_serial: self.end_serial,
            added: self.added.clone()?,
            removed: self.removed.clone()?,
        })
    }
}

impl ZoneDiff for InMemoryZoneDiff {
    ghost told = { λ d. d };

    fn start_serial(&self) -> Serial {
        self.start_serial
    }

    fn end_serial(&self) -> Serial {
        self.end_serial
    }

    fn added_len(&self) -> usize {
        self.added.len()
    }

    fn added_at(&self, index: usize) -> Option<(&SetKey, &SharedRrset)> {
        self.added.at(index)
    }

    fn removed_len(&self) -> usize {
        self.removed.len()
    }

    fn removed_at(&self, index: usize) -> Option<(&SetKey, &SharedRrset)> {
        self.removed.at(index)
    }

    fn get_added<N: Labelled>(&self, owner: &N, rtype: Rtype) -> Option<&SharedRrset> {
        self.added.get(&SetKey::new(owner, rtype))
    }

    fn get_removed<N: Labelled>(&self, owner: &N, rtype: Rtype) -> Option<&SharedRrset> {
        self.removed.get(&SetKey::new(owner, rtype))
    }
}

/// No difference: serials 0, and nothing added or removed.
#[derive(Clone, Copy, Debug, Drop)]
pub struct EmptyZoneDiff;

impl ZoneDiff for EmptyZoneDiff {
    ghost use Rattle.zone_diffs.specs.Building.{no_difference};

    ghost told = { λ _. no_difference };

    fn start_serial(&self) -> Serial {
        Serial::from(0)
    }

    fn end_serial(&self) -> Serial {
        Serial::from(0)
    }

    fn added_len(&self) -> usize {
        0
    }

    fn added_at(&self, _index: usize) -> Option<(&SetKey, &SharedRrset)> {
        None
    }

    fn removed_len(&self) -> usize {
        0
    }

    fn removed_at(&self, _index: usize) -> Option<(&SetKey, &SharedRrset)> {
        None
    }

    fn get_added<N: Labelled>(&self, _owner: &N, _rtype: Rtype) -> Option<&SharedRrset> {
        None
    }

    fn get_removed<N: Labelled>(&self, _owner: &N, _rtype: Rtype) -> Option<&SharedRrset> {
        None
    }
}
