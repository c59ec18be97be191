// RRsets by owner and type, to which records are put.
ghost use Rattle.std.specs.Prelude.{◌≡◌, ◌+◌, [], true, Some, None, OnOk, OnErr, IfOk, option_copied, option_map, is_some, map, if◌then◌else◌};
ghost use Rattle.std.specs.List.{list_all, list_any};
ghost use Rattle.std.specs.Map.{keys_of};
ghost use Rattle.dns_name.specs.Names.{fold, same_name, under};
ghost use Rattle.zone_model.specs.Version.{set_in};
ghost use Rattle.zone_values.specs.TypedEntries.{typed};
ghost use Rattle.zone_versions.specs.Held.{told};
ghost use Rattle.zone_records.specs.Parsed.{IsTidy};
ghost use Rattle.zone_records.specs.Taking.{least_in, no_glue_in, cut_in, put_to};
ghost use Rattle.zone_records.specs.TypeSteps.{type_from, past};

use crate::opening_sets::{OpeningSets, OwnerSets};
use dns_name::{Labelled, StoredName, ToName};
use dns_numbers::{Class, Rtype};
use dns_rdata::StoredRecord;
use std::alloc::{AllocError, Global};
use std::marker::Model;
use zone_values::Rrset;
use zone_versions::{TreeSet, VersionTree};

/// RRsets by owner and type: owners in lower case and canonical order, each one's types ascending (RFC 4034, 6.1). No RRset is empty, and no two of
/// its data are equal (RFC 2181, 5).
#[derive(Drop)]
pub struct Owners {
    sets: OpeningSets,
}

impl Model for Owners {
    ghost use Rattle.zone_model.specs.Version.{Sets};
    ghost use Rattle.zone_records.specs.Parsed.{IsTidy};

    ghost Value = { Sets };

    ghost view = { λ o. o.sets };

    ghost invariant = { λ o. IsTidy o.sets };
}

impl Owners {
    /// No RRsets.
    #[tactic(auto, using(crate::proofs::Tidy::none_tidy))]
    pub(crate) fn new() -> Owners
        ensures { result ≡ [] }
    {
        Owners {
            sets: OpeningSets::new(),
        }
    }

    /// The RRset of an owner and type.
    pub fn get<N: Labelled>(&self, name: &N, rtype: Rtype) -> Option<&Rrset>
        ensures { option_copied result ≡ option_map (typed rtype) (set_in self.now (fold (N.labels name.now), rtype)) }
    {
        self.sets.get(name, rtype)
    }

    /// Whether an owner has an RRset of a type.
    #[tactic(auto, using(crate::proofs::TypesIn::is_some_typed))]
    pub fn has_set<N: Labelled>(&self, name: &N, rtype: Rtype) -> bool
        ensures { result ≡ is_some (set_in self.now (fold (N.labels name.now), rtype)) }
    {
        self.get(name, rtype).is_some()
    }

    /// Whether an owner has RRsets.
    #[tactic(auto, using(crate::proofs::TypesIn::some_least))]
    pub fn contains<N: Labelled>(&self, name: &N) -> bool
        ensures { result ≡ list_any (λ e. same_name e.0.0 (N.labels name.now)) self.now }
    {
        self.sample_rtype(name).is_some()
    }

    /// The least type of an owner's RRsets.
    #[tactic(auto, using(crate::proofs::TypesIn::least_from))]
    pub fn sample_rtype<N: Labelled>(&self, name: &N) -> Option<Rtype>
        ensures { result ≡ least_in self.now (N.labels name.now) }
    {
        self.first_type(name)
    }

    /// The least type of an owner's RRsets but A and AAAA, the types of glue (RFC 1034, 4.2.1).
    pub fn first_non_glue<N: Labelled>(&self, name: &N) -> Option<Rtype>
        ensures { result ≡ no_glue_in self.now (N.labels name.now) }
    {
        let no_a = self.past(name, self.first_type(name), Rtype::A);
        self.past(name, no_a, Rtype::AAAA)
    }

    /// DS, if an owner has such an RRset, or else NS.
    #[tactic(auto, using(crate::proofs::TypesIn::with_ds, crate::proofs::TypesIn::with_ns, crate::proofs::TypesIn::without))]
    pub(crate) fn cut_type<N: Labelled>(&self, name: &N) -> Option<Rtype>
        ensures { result ≡ cut_in self.now (N.labels name.now) }
    {
        if self.has_set(name, Rtype::DS) {
            Some(Rtype::DS)
        } else if self.has_set(name, Rtype::NS) {
            Some(Rtype::NS)
        } else {
            None
        }
    }

    /// The type of an owner's first RRset.
    fn first_type<N: Labelled>(&self, name: &N) -> Option<Rtype>
        ensures { result ≡ type_from self.now (N.labels name.now) 0 }
    {
        match self.sets.first_from(name) {
            Some(found) => own_type(&found, name),
            None => None,
        }
    }

    /// The type of an owner's first RRset after a type.
    fn type_after<N: Labelled>(&self, name: &N, rtype: Rtype) -> Option<Rtype>
        ensures { result ≡ type_from self.now (N.labels name.now) (rtype + 1) }
    {
        match self.sets.first_after(name, rtype) {
            Some(found) => own_type(&found, name),
            None => None,
        }
    }

    /// The least type, unless it is one that is skipped: then the first after that.
    fn past<N: Labelled>(&self, name: &N, least: Option<Rtype>, skipped: Rtype) -> Option<Rtype>
        ensures { result ≡ past skipped least (type_from self.now (N.labels name.now) (skipped + 1)) }
    {
        match least {
            Some(rtype) => {
                if rtype == skipped {
                    self.type_after(name, skipped)
                } else {
                    Some(rtype)
                }
            }
            None => None,
        }
    }

    /// The RRsets in order.
    pub fn iter(&self) -> OwnerSets<'_>
        ensures is { result ≡ map told self.now }
        ensures tidy { IsTidy self.now }
    {
        self.sets.sets()
    }

    /// Whether all owners are known to be at or below a name, without a look at each.
    pub(crate) fn is_within(&self, apex: &StoredName) -> bool
        ensures { result ≡ true → list_all (λ k. under k.0 apex.now) (keys_of self.now) ≡ true }
    {
        self.sets.is_within(apex)
    }

    /// The tree of a version of this apex and class that has the RRsets, whose owners are all at or below the apex.
    pub(crate) fn into_tree(
        self,
        alloc: Global,
        apex: &StoredName,
        class: Class,
    ) -> Result<VersionTree, AllocError>
        requires { list_all (λ k. under k.0 apex.now) (keys_of self) ≡ true }
        ensures is { IfOk result (λ t. t ≡ record { apex = apex.now; class = class; sets = self }) }
        ensures tidy { IsTidy self }
    {
        self.sets.into_tree(alloc, apex, class)
    }

    /// Puts a record of a zone of this apex and class to the RRset of its owner and type: the lower TTL becomes the RRset's, and data that have an equal
    /// in it are not put again (RFC 2181, 5 and 5.2).
    pub(crate) fn put(
        &mut self,
        alloc: Global,
        apex: &StoredName,
        class: Class,
        found: StoredRecord,
    ) -> Result<(), AllocError>
        requires { under found.owner apex.now ≡ true }
        ensures ok { OnOk result (self.new ≡ put_to self.old found) }
        ensures err { OnErr result (self.new ≡ self.old) }
    {
        self.sets.put(alloc, apex, class, found)?;
        Ok(())
    }
}

/// The type of an RRset, if its owner has that name.
fn own_type<N: Labelled>(found: &TreeSet<'_>, name: &N) -> Option<Rtype>
    ensures { result ≡ (if same_name found.now.0 (N.labels name.now) then Some found.now.1.rtype else None) }
{
    if found.owner().to_name().name_eq(name) {
        Some(found.rtype())
    } else {
        None
    }
}
