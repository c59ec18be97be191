// What keeps the records of a zone file from making a zone.
ghost use Rattle.std.specs.Prelude.{◌≡◌, ◌++◌, not, is_some, is_none, IfOk, OnOk};
ghost use Rattle.std.specs.List.{list_all};
ghost use Rattle.std.specs.Map.{keys_of};
ghost use Rattle.zone_records.specs.Parsed.{sets_for};
ghost use Rattle.dns_name.specs.Names.{fold, same_name, under};
ghost use Rattle.dns_numbers.specs.Codes.{type_ns};
ghost use Rattle.zone_model.specs.Version.{set_in};
ghost use Rattle.zone_model.specs.Classify.{Normal};
ghost use Rattle.zone_records.specs.Seen.{kind_seen};
ghost use Rattle.zone_versions.specs.Stops.{key_told};
ghost use Rattle.zone_records.specs.Faults.{is_whole, cut_fault, alias_fault, normal_fault, fault_at, with_fault, faults_of, faults};

use crate::kinds::RecordKind;
use crate::opening_sets::OwnerSets;
use crate::zonefile::Zonefile;
use dns_name::{KeyName, ToName};
use dns_numbers::Rtype;
use std::alloc::{AllocError, Global};
use zone_values::{CnameError, ContextError, ZoneCutError, ZoneErrors};
use zone_versions::TreeSet;

impl Zonefile {
    /// What keeps the records from making a zone, each under its owner in lower case and in canonical order: first at zone cuts, DS without NS
    /// (RFC 4035, 2.4), or a name that is the origin or outside it; then at such names CNAMEs; then normal RRsets outside the origin; and last all
    /// RRsets that were outside as they were taken.
    pub fn faults(&self, alloc: Global) -> Result<ZoneErrors<ContextError>, AllocError>
        ensures { IfOk result (λ found. found ≡ faults self.now) }
    {
        let mut found = ZoneErrors::new(alloc);
        self.add_faults(RecordKind::Cut, &mut found)?;
        self.add_faults(RecordKind::Alias, &mut found)?;
        self.add_normal_faults(&mut found)?;
        self.add_faults(RecordKind::Outside, &mut found)?;
        Ok(found)
    }

    /// Whether the records make a zone, so that `faults` tells none.
    #[tactic(auto, using(crate::proofs::Whole::whole_in_parts))]
    pub fn is_whole(&self) -> bool
        ensures { result ≡ is_whole self.now }
    {
        self.passes(RecordKind::Cut)
            && self.passes(RecordKind::Alias)
            && self.passes(RecordKind::Normal)
            && self.passes(RecordKind::Outside)
    }

    /// Whether there is no fault at the RRsets of one kind.
    fn passes(&self, kind: RecordKind) -> bool
        ensures { result ≡ list_all (λ k. is_none (fault_at self.now (kind_seen kind) k)) (keys_of (sets_for self.now (kind_seen kind))) }
    {
        self.all_pass(kind, self.owners(kind).iter())
    }

    /// Whether there is no fault at these RRsets of one kind.
    fn all_pass(&self, kind: RecordKind, sets: OwnerSets<'_>) -> bool
        ensures { result ≡ list_all (λ s. is_none (fault_at self.now (kind_seen kind) (key_told s))) sets.entry }
    {
        let mut sets = sets;
        sets.all(|set| self.passes_at(kind, &set))
    }

    /// Whether there is no fault at an RRset.
    fn passes_at(&self, kind: RecordKind, set: &TreeSet<'_>) -> bool
        ensures { result ≡ is_none (fault_at self.now (kind_seen kind) (key_told set.now)) }
    {
        self.fault_at(kind, &set.owner().to_name(), set.rtype())
            .is_none()
    }

    /// Adds the faults at normal RRsets. Where their tree is the zone's, none is looked for.
    fn add_normal_faults(&self, found: &mut ZoneErrors<ContextError>) -> Result<(), AllocError>
        ensures { OnOk result (found.new ≡ found.old ++ faults_of self.now Normal) }
    {
        if self.normal().is_within(self.origin()) {
            return Ok(());
        }
        self.add_faults(RecordKind::Normal, found)
    }

    /// Adds the faults at RRsets of one kind.
    fn add_faults(
        &self,
        kind: RecordKind,
        found: &mut ZoneErrors<ContextError>,
    ) -> Result<(), AllocError>
        ensures { OnOk result (found.new ≡ found.old ++ faults_of self.now (kind_seen kind)) }
    {
        for set in self.owners(kind).iter() {
            self.add_fault(kind, &set, found)?;
        }
        Ok(())
    }

    /// Adds the fault at an RRset, if there is one.
    #[tactic(auto, using(crate::proofs::Faulty::with_one, crate::proofs::Faulty::with_none))]
    fn add_fault(
        &self,
        kind: RecordKind,
        set: &TreeSet<'_>,
        found: &mut ZoneErrors<ContextError>,
    ) -> Result<(), AllocError>
        ensures { OnOk result (found.new ≡ with_fault found.old (key_told set.now) (fault_at self.now (kind_seen kind) (key_told set.now))) }
    {
        let owner = set.owner().to_name();
        match self.fault_at(kind, &owner, set.rtype()) {
            Some(why) => {
                found.add_error(&owner, why)?;
                Ok(())
            }
            None => Ok(()),
        }
    }

    /// The fault at an owner and type.
    fn fault_at(&self, kind: RecordKind, owner: &KeyName, rtype: Rtype) -> Option<ContextError>
        ensures { result ≡ fault_at self.now (kind_seen kind) (owner.now, rtype) }
    {
        match kind {
            RecordKind::Cut => self.cut_fault(owner, rtype),
            RecordKind::Alias => self.alias_fault(owner, rtype),
            RecordKind::Normal => self.normal_fault(owner, rtype),
            RecordKind::Outside => Some(ContextError::OutOfZone(rtype)),
        }
    }

    /// The fault at an RRset of a zone cut.
    fn cut_fault(&self, owner: &KeyName, rtype: Rtype) -> Option<ContextError>
        ensures { result ≡ cut_fault self.now (owner.now, rtype) }
    {
        if self.lacks_servers(owner) {
            Some(ContextError::MissingNs)
        } else if rtype == Rtype::DS {
            None
        } else if self.is_now_outside(owner) {
            Some(ContextError::InvalidZonecut(ZoneCutError::OutOfZone))
        } else if self.is_origin(owner) {
            Some(ContextError::InvalidZonecut(ZoneCutError::ZoneCutAtApex))
        } else {
            None
        }
    }

    /// The fault at a CNAME.
    fn alias_fault(&self, owner: &KeyName, rtype: Rtype) -> Option<ContextError>
        ensures { result ≡ alias_fault self.now (owner.now, rtype) }
    {
        if self.is_now_outside(owner) {
            Some(ContextError::InvalidCname(CnameError::OutOfZone))
        } else if self.is_origin(owner) {
            Some(ContextError::InvalidCname(CnameError::CnameAtApex))
        } else {
            None
        }
    }

    /// The fault at a normal RRset.
    fn normal_fault(&self, owner: &KeyName, rtype: Rtype) -> Option<ContextError>
        ensures { result ≡ normal_fault self.now (owner.now, rtype) }
    {
        if self.is_now_outside(owner) {
            Some(ContextError::OutOfZone(rtype))
        } else {
            None
        }
    }

    /// Whether a name has no NS RRset of a zone cut.
    fn lacks_servers(&self, owner: &KeyName) -> bool
        ensures { result ≡ not (is_some (set_in self.now.cuts (fold owner.now, type_ns))) }
    {
        !self.zone_cuts().has_set(owner, Rtype::NS)
    }

    /// Whether a name is neither the origin, as it is now, nor below it.
    fn is_now_outside(&self, owner: &KeyName) -> bool
        ensures { result ≡ not (under owner.now self.now.origin) }
    {
        !owner.ends_with(self.origin())
    }

    /// Whether a name is the origin.
    fn is_origin(&self, owner: &KeyName) -> bool
        ensures { result ≡ same_name owner.now self.now.origin }
    {
        owner.name_eq(self.origin())
    }
}
