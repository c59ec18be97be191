// A difference while it is built.
ghost use Rattle.std.specs.Prelude.{◌≡◌, [], OnOk, OnErr};
ghost use Rattle.dns_name.specs.Names.{fold};
ghost use Rattle.dns_numbers.specs.Serial.{serial_upto};
ghost use Rattle.zone_diffs.specs.Building.{taken_from, put_behind, lacked_by, added_to, removed_from, built};

use crate::diff::InMemoryZoneDiff;
use crate::errors::ZoneDiffError;
use crate::rrsets::{lacked, merged};
use crate::sets::DiffSets;
use dns_name::StoredName;
use dns_numbers::{Rtype, Serial};
use std::alloc::{AllocError, Global};
use std::cmp::Ordering;
use std::marker::Model;
use zone_values::{Rrset, SetKey, SharedRrset};

/// Builds a difference of the RRsets that come and go. A record that comes and goes, of the same TTL and data, is in neither side.
/// A side's RRset keeps the TTL that it began with and has equal data once. Owners are compared ASCII case aside, and kept in lower case.
#[derive(Drop)]
pub struct InMemoryZoneDiffBuilder {
    alloc: Global,
    removed: DiffSets,
    added: DiffSets,
}

impl Model for InMemoryZoneDiffBuilder {
    ghost use Rattle.zone_diffs.specs.Building.{Sides};

    ghost Value = { Sides };

    ghost view = { λ b. record { removed = b.removed; added = b.added } };
}

impl InMemoryZoneDiffBuilder {
    /// A builder with nothing removed or added.
    pub fn new(alloc: Global) -> InMemoryZoneDiffBuilder
        ensures { result ≡ record { removed = []; added = [] } }
    {
        InMemoryZoneDiffBuilder {
            alloc,
            removed: DiffSets::new(alloc),
            added: DiffSets::new(alloc),
        }
    }

    /// Notes that the records of an RRset of this type came: those that the removed side has go there, the others are added.
    pub fn add(
        &mut self,
        owner: StoredName,
        rtype: Rtype,
        set: SharedRrset,
    ) -> Result<(), AllocError>
        requires { set.rtype ≡ rtype }
        ensures ok { OnOk result (self.new ≡ added_to self.old (fold owner, rtype) set.contents) }
        ensures err { OnErr result (self.new ≡ self.old) }
    {
        let key = SetKey::new(&owner, rtype);
        move_over(
            self.alloc,
            &mut self.removed,
            &mut self.added,
            key,
            set.as_rrset(),
        )
    }

    /// Notes that the records of an RRset of this type went: those that the added side has go there, the others are removed.
    pub fn remove(
        &mut self,
        owner: StoredName,
        rtype: Rtype,
        set: SharedRrset,
    ) -> Result<(), AllocError>
        requires { set.rtype ≡ rtype }
        ensures ok { OnOk result (self.new ≡ removed_from self.old (fold owner, rtype) set.contents) }
        ensures err { OnErr result (self.new ≡ self.old) }
    {
        let key = SetKey::new(&owner, rtype);
        move_over(
            self.alloc,
            &mut self.added,
            &mut self.removed,
            key,
            set.as_rrset(),
        )
    }

    /// The difference. Refused are, in this order, one that removes no SOA RRset (`MissingStartSoa`), one that adds none (`MissingEndSoa`), and
    /// one whose added serial is the removed one or before it (`InvalidSerialRange`; RFC 1982, 3.2).
    pub fn build(self) -> Result<InMemoryZoneDiff, ZoneDiffError>
        ensures { result ≡ built self }
    {
        let Some(start_serial) = self.removed.first_serial() else {
            return Err(ZoneDiffError::MissingStartSoa);
        };
        let Some(end_serial) = self.added.first_serial() else {
            return Err(ZoneDiffError::MissingEndSoa);
        };
        if is_upto(end_serial, start_serial) {
            return Err(ZoneDiffError::InvalidSerialRange);
        }
        Ok(InMemoryZoneDiff {
            start_serial,
            end_serial,
            added: self.added,
            removed: self.removed,
        })
    }
}

/// Whether a serial is the other, or before it (RFC 1982, 3.2).
pub fn is_upto(serial: Serial, other: Serial) -> bool
    ensures { result ≡ serial_upto serial other }
{
    match serial.partial_cmp(&other) {
        Some(Ordering::Less | Ordering::Equal) => true,
        Some(Ordering::Greater) => false,
        None => false,
    }
}

/// Takes the records of an RRset out of the one side, and puts those that were not there to the other.
fn move_over(
    alloc: Global,
    from: &mut DiffSets,
    into: &mut DiffSets,
    key: SetKey,
    set: &Rrset,
) -> Result<(), AllocError>
    requires { set.now.rtype ≡ key.1 }
    ensures from { OnOk result (from.new ≡ taken_from from.old key set.now.contents) }
    ensures into { OnOk result (into.new ≡ put_behind into.old key (lacked_by from.old key set.now.contents)) }
    ensures err_from { OnErr result (from.new ≡ from.old) }
    ensures err_into { OnErr result (into.new ≡ into.old) }
{
    let Some(held) = from.get(&key) else {
        return put_behind(alloc, into, key, set);
    };
    let kept = lacked(alloc, held.as_rrset(), set)?.into_shared(alloc)?;
    let rest = lacked(alloc, set, held.as_rrset())?;
    let place = key.clone()?;
    put_behind(alloc, into, place, &rest)?;
    from.put(key, kept)
}

/// Puts the records of an RRset after those of a side at its key.
fn put_behind(
    alloc: Global,
    side: &mut DiffSets,
    key: SetKey,
    set: &Rrset,
) -> Result<(), AllocError>
    requires { set.now.rtype ≡ key.1 }
    ensures ok { OnOk result (side.new ≡ put_behind side.old key set.now.contents) }
    ensures err { OnErr result (side.new ≡ side.old) }
{
    let first = set.to_distinct(alloc)?;
    let joined = match side.get(&key) {
        Some(held) => merged(held.as_rrset(), &first)?,
        None => first,
    };
    side.put(key, joined.into_shared(alloc)?)
}
