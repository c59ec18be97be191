// The version that a zone opens with, before it has records and after.
ghost use Rattle.std.specs.Prelude.{◌≡◌, [], true, false, OnOk, OnErr, IfOk, IfSome, IfNone, option_map};
ghost use Rattle.dns_name.specs.Names.{under};
ghost use Rattle.dns_numbers.specs.Codes.{type_cname, type_ns, type_ds};
ghost use Rattle.zone_model.specs.Version.{IsValid};
ghost use Rattle.zone_model.specs.Classify.{opened_with};
ghost use Rattle.zone_model.specs.Edits as edits;
ghost use Rattle.zone_model.specs.Edits.{distinct_set};
ghost use Rattle.zone_values.specs.TypedSets.{TypedSet};
ghost use Rattle.zone_versions.specs.Puts.{adds_alias};
ghost use Rattle.zone_sessions.specs.Opening.{no_records};

use dns_name::{KeyName, StoredName};
use dns_numbers::Class;
use dns_rdata::StoredRecord;
use std::alloc::{AllocError, Global};
use std::marker::Model;
use zone_values::{Rrset, SharedRr, SharedRrset};
use zone_versions::{ZoneVersion, make_alias, make_cut, replace_set};

/// The version that a zone opens with. It takes no memory before the first record.
#[derive(Drop)]
pub(crate) struct Opening {
    apex: StoredName,
    class: Class,
    made: Option<ZoneVersion>,
}

impl Model for Opening {
    ghost use Rattle.zone_model.specs.Version.{Version};
    ghost use Rattle.zone_sessions.specs.Opening.{opening, IsOf};

    ghost Value = { Version };

    ghost view = { λ o. opening o.apex o.class o.made };

    ghost invariant = { λ o. IsOf o.apex o.class o.made };
}

impl Opening {
    /// A version without records.
    pub(crate) fn new(apex: StoredName, class: Class) -> Opening
        ensures { result ≡ no_records apex class }
    {
        Opening {
            apex,
            class,
            made: None,
        }
    }

    /// A version as it is.
    pub(crate) fn of(version: ZoneVersion) -> Result<Opening, AllocError>
        ensures { IfOk result (λ o. o ≡ version) }
    {
        Ok(Opening {
            apex: version.apex().clone()?,
            class: version.class(),
            made: Some(version),
        })
    }

    /// The apex, as it was given.
    pub(crate) fn apex(&self) -> &StoredName
        ensures { result.now ≡ self.now.apex }
    {
        &self.apex
    }

    /// The class.
    pub(crate) fn class(&self) -> Class
        ensures { result ≡ self.now.class }
    {
        self.class
    }

    /// Whether a record would be a second CNAME of a name below the apex, other than the one there (RFC 2181, 10.1).
    #[tactic(auto, using(crate::proofs::Unopened::adds_none))]
    pub(crate) fn adds_alias(&self, added: &StoredRecord) -> bool
        ensures { result ≡ adds_alias self.now added.now }
    {
        match &self.made {
            Some(version) => version.adds_alias(added),
            None => false,
        }
    }

    /// Takes the version out to be edited. What stays has no records.
    fn take(&mut self, alloc: Global) -> Result<ZoneVersion, AllocError>
        ensures ok { IfOk result (λ v. v ≡ self.old) }
        ensures rest { OnOk result (self.new ≡ no_records self.old.apex self.old.class) }
        ensures err { OnErr result (self.new ≡ self.old) }
    {
        match self.take_made() {
            Some(version) => Ok(version),
            None => ZoneVersion::empty(alloc, &self.apex, self.class),
        }
    }

    /// Takes the version out, where it has been made.
    fn take_made(&mut self) -> Option<ZoneVersion>
        ensures some { IfSome result (λ v. v ≡ self.old) }
        ensures none { IfNone result (self.new ≡ self.old) }
        ensures was { IfNone result (self.old ≡ no_records self.old.apex self.old.class) }
        ensures rest { self.new ≡ no_records self.old.apex self.old.class }
    {
        self.made.take()
    }

    /// Makes a version of the same apex and class the one that the zone opens with.
    fn keep(&mut self, version: ZoneVersion)
        requires apex { version.apex ≡ self.old.apex }
        requires class { version.class ≡ self.old.class }
        ensures { self.new ≡ version }
    {
        self.made = Some(version);
    }

    /// Puts a record that the zone opens with: data that the RRset has already are not put again, and the lower TTL stays.
    pub(crate) fn open_with(&mut self, alloc: Global, added: StoredRecord) -> Result<(), AllocError>
        requires zone { under added.owner self.old.apex ≡ true }
        requires no_alias { adds_alias self.old added ≡ false }
        ensures ok { OnOk result (self.new ≡ opened_with self.old added) }
        ensures err { OnErr result (self.new ≡ self.old) }
    {
        match self.take(alloc) {
            Ok(version) => {
                let mut version = version;
                let put = version.open_with(alloc, added);
                self.keep(version);
                put
            }
            Err(error) => {
                drop(added);
                Err(error)
            }
        }
    }

    /// Puts the first of equal data of an RRset in place of the old one; an empty one removes that.
    pub(crate) fn replace_set(
        &mut self,
        alloc: Global,
        owner: &KeyName,
        set: &Rrset,
    ) -> Result<(), AllocError>
        requires zone { under owner.now self.old.apex ≡ true }
        requires alias { edits.is_bad_alias self.old owner.now set.now.rtype set.now.contents ≡ false }
        ensures ok { OnOk result (self.new ≡ edits.put_set self.old owner.now set.now.rtype (distinct_set set.now.contents)) }
        ensures err { OnErr result (self.new ≡ self.old) }
    {
        let mut version = self.take(alloc)?;
        let put = replace_set(&mut version, alloc, owner, set);
        self.keep(version);
        put
    }

    /// Makes an owner an alias (RFC 1034, 3.6.2).
    pub(crate) fn make_alias(
        &mut self,
        alloc: Global,
        owner: &KeyName,
        alias: &SharedRr,
    ) -> Result<(), AllocError>
        requires zone { under owner.now self.old.apex ≡ true }
        requires rtype { alias.now.rtype ≡ type_cname }
        ensures ok { OnOk result (self.new ≡ edits.make_alias self.old owner.now alias.now.ttl alias.now.fields) }
        ensures err { OnErr result (self.new ≡ self.old) }
    {
        let mut version = self.take(alloc)?;
        let put = make_alias(&mut version, alloc, owner, alias);
        self.keep(version);
        put
    }

    /// Makes an owner a zone cut (RFC 1034, 4.2.1).
    pub(crate) fn make_cut(
        &mut self,
        alloc: Global,
        owner: &KeyName,
        ns: &SharedRrset,
        ds: &Option<SharedRrset>,
        glue: &[StoredRecord],
    ) -> Result<(), AllocError>
        requires zone { under owner.now self.old.apex ≡ true }
        requires ns { ns.now.rtype ≡ type_ns }
        requires ds { IfSome ds.now (λ s. s.rtype ≡ type_ds) }
        ensures ok { OnOk result (self.new ≡ edits.make_cut self.old owner.now ns.now.contents
            (option_map (λ (s : TypedSet). s.contents) ds.now) glue.now) }
        ensures err { OnErr result (self.new ≡ self.old) }
    {
        let mut version = self.take(alloc)?;
        let put = make_cut(&mut version, alloc, owner, ns, ds, glue);
        self.keep(version);
        put
    }

    /// What the zone opens with: the version without DS RRsets below the apex that lack NS (RFC 4035, 2.4).
    pub(crate) fn into_closed(self, alloc: Global) -> Result<ZoneVersion, AllocError>
        ensures is { IfOk result (λ v. v ≡ edits.close self) }
        ensures valid { IfOk result (λ v. IsValid v) }
    {
        let mut whole = self;
        let version = whole.take(alloc);
        drop(whole);
        version?.into_closed(alloc)
    }
}
