// How a zone opens.
ghost use Rattle.std.specs.Prelude.{◌≡◌, ◌↔◌, ◌==◌, ◌∷◌, [], true, false, length, Ok, Err, OnOk, OnErr, IfOk, IfSome, IsOk, option_map};
ghost use Rattle.dns_name.specs.Names.{under, same_name};
ghost use Rattle.dns_numbers.specs.Codes.{type_cname, type_ns, type_ds};
ghost use Rattle.zone_model.specs.Classify.{opened_with};
ghost use Rattle.zone_model.specs.Edits as edits;
ghost use Rattle.zone_values.specs.TypedSets.{TypedSet};
ghost use Rattle.zone_versions.specs.Puts.{adds_alias};

use crate::apex::ZoneApex;
use crate::desk::{Desk, MOST_READERS};
use crate::opening::Opening;
use dns_name::{KeyName, Labelled, StoredName, ToName};
use dns_numbers::Class;
use dns_rdata::StoredRecord;
use std::alloc::{AllocError, Global};
use std::marker::Model;
use std::sync::{Arc, Wait};
use zone_reads::{ReadZone, ZoneReader};
use zone_records::{FileError, Zonefile};
use zone_values::{
    ContextError, InsertCnameError, InsertCutError, InsertError, Rrset, SharedRr, SharedRrset,
};
use zone_versions::is_bad_alias;

/// The records that a zone opens with, put one by one. It is seen as the version that they make.
#[derive(Drop)]
pub struct ZoneBuilder {
    alloc: Global,
    version: Opening,
}

impl Model for ZoneBuilder {
    ghost use Rattle.zone_model.specs.Version.{Version};

    ghost Value = { Version };

    ghost view = { λ b. b.version };
}

impl ZoneBuilder {
    /// A zone of this apex and class without records.
    pub fn new(alloc: Global, apex: StoredName, class: Class) -> ZoneBuilder
        ensures { result ≡ record { apex = apex; class = class; sets = [] } }
    {
        ZoneBuilder {
            alloc,
            version: Opening::new(apex, class),
        }
    }

    /// The name of the apex, as it was given.
    pub fn apex(&self) -> &StoredName
        ensures { result.now ≡ self.now.apex }
    {
        self.version.apex()
    }

    /// The class.
    pub fn class(&self) -> Class
        ensures { result ≡ self.now.class }
    {
        self.version.class()
    }

    /// Puts a record: data that the set has already are not put again, and the lower TTL of set and record becomes the set's (RFC 2181, 5). The
    /// class isn't looked at. Refused are, tested in this order, an owner outside the zone, and a second CNAME below the apex (`InvalidData`).
    pub fn insert(&mut self, added: StoredRecord) -> Result<(), InsertError>
        ensures ok { OnOk result (self.new ≡ opened_with self.old added) }
        ensures outside { (result ≡ Err InsertError.OutOfZone) ↔ (under added.owner self.old.apex ≡ false) }
        ensures alias { (result ≡ Err InsertError.InvalidData) ↔ ((under added.owner self.old.apex ≡ true) × (adds_alias self.old added ≡ true)) }
        ensures err { OnErr result (self.new ≡ self.old) }
    {
        if !added.owner().ends_with(self.version.apex()) {
            drop(added);
            return Err(InsertError::OutOfZone);
        }
        if self.version.adds_alias(&added) {
            drop(added);
            return Err(InsertError::InvalidData);
        }
        self.version.open_with(self.alloc, added)?;
        Ok(())
    }

    /// Puts an RRset in place of the one of its owner and type, the first of equal data kept. An empty one changes nothing, wherever its owner is.
    /// Refused are, tested in this order, an owner outside the zone, and, as `InvalidData`, a CNAME RRset below the apex whose data aren't one value
    /// (RFC 2181, 10.1).
    pub fn insert_rrset<N: Labelled>(
        &mut self,
        owner: &N,
        set: SharedRrset,
    ) -> Result<(), InsertError>
        ensures empty { (length set.contents.items == 0) ≡ true → IsOk result × (self.new ≡ self.old) }
        ensures ok { (length set.contents.items == 0) ≡ false → OnOk result
            (edits.replace_set self.old (N.labels owner.now) set.rtype set.contents ≡ Ok self.new) }
        ensures outside { (result ≡ Err InsertError.OutOfZone)
            ↔ (((length set.contents.items == 0) ≡ false) × (under (N.labels owner.now) self.old.apex ≡ false)) }
        ensures alias { (result ≡ Err InsertError.InvalidData)
            ↔ (((length set.contents.items == 0) ≡ false) × (under (N.labels owner.now) self.old.apex ≡ true)
            × (edits.is_bad_alias self.old (N.labels owner.now) set.rtype set.contents ≡ true)) }
        ensures err { OnErr result (self.new ≡ self.old) }
    {
        let put = self.put_rrset(&owner.to_key_name(), set.as_rrset());
        drop(set);
        put
    }

    /// The same of an owner and an RRset that are lent.
    fn put_rrset(&mut self, owner: &KeyName, set: &Rrset) -> Result<(), InsertError>
        ensures empty { (length set.now.contents.items == 0) ≡ true
            → IsOk result × (self.new ≡ self.old) }
        ensures ok { (length set.now.contents.items == 0) ≡ false → OnOk result
            (edits.replace_set self.old owner.now set.now.rtype set.now.contents ≡ Ok self.new) }
        ensures outside { (result ≡ Err InsertError.OutOfZone)
            ↔ (((length set.now.contents.items == 0) ≡ false) × (under owner.now self.old.apex ≡ false)) }
        ensures alias { (result ≡ Err InsertError.InvalidData)
            ↔ (((length set.now.contents.items == 0) ≡ false) × (under owner.now self.old.apex ≡ true)
            × (edits.is_bad_alias self.old owner.now set.now.rtype set.now.contents ≡ true)) }
        ensures err { OnErr result (self.new ≡ self.old) }
    {
        if set.is_empty() {
            return Ok(());
        }
        if !owner.ends_with(self.version.apex()) {
            return Err(InsertError::OutOfZone);
        }
        if is_bad_alias(self.version.apex(), owner, set) {
            return Err(InsertError::InvalidData);
        }
        self.version.replace_set(self.alloc, owner, set)?;
        Ok(())
    }

    /// Makes a name below the apex a zone cut (RFC 1034, 4.2.1): its NS and DS RRsets are these, the first of equal data kept, without DS records none,
    /// and the addresses in the zone are put as glue. Other RRsets stay.
    pub fn insert_zone_cut<N: Labelled>(
        &mut self,
        name: &N,
        ns: SharedRrset,
        ds: Option<SharedRrset>,
        glue: Vec<StoredRecord>,
    ) -> Result<(), InsertCutError>
        requires ns { ns.rtype ≡ type_ns }
        requires ds { IfSome ds (λ s. s.rtype ≡ type_ds) }
        ensures ok { OnOk result (self.new ≡ edits.make_cut self.old (N.labels name.now) ns.contents
            (option_map (λ (s : TypedSet). s.contents) ds) glue.items) }
        ensures outside { (result ≡ Err InsertCutError.OutOfZone)
            ↔ (under (N.labels name.now) self.old.apex ≡ false) }
        ensures apex { (result ≡ Err InsertCutError.ZoneCutAtApex)
            ↔ (same_name (N.labels name.now) self.old.apex ≡ true) }
        ensures err { OnErr result (self.new ≡ self.old) }
    {
        let put = self.put_cut(&name.to_key_name(), &ns, &ds, &glue);
        drop(glue);
        drop(ds);
        drop(ns);
        put
    }

    /// The same of a zone cut that is lent.
    fn put_cut(
        &mut self,
        name: &KeyName,
        ns: &SharedRrset,
        ds: &Option<SharedRrset>,
        glue: &[StoredRecord],
    ) -> Result<(), InsertCutError>
        requires ns { ns.now.rtype ≡ type_ns }
        requires ds { IfSome ds.now (λ s. s.rtype ≡ type_ds) }
        ensures ok { OnOk result (self.new ≡ edits.make_cut self.old name.now ns.now.contents
            (option_map (λ (s : TypedSet). s.contents) ds.now) glue.now) }
        ensures outside { (result ≡ Err InsertCutError.OutOfZone)
            ↔ (under name.now self.old.apex ≡ false) }
        ensures apex { (result ≡ Err InsertCutError.ZoneCutAtApex)
            ↔ (same_name name.now self.old.apex ≡ true) }
        ensures err { OnErr result (self.new ≡ self.old) }
    {
        if name.name_eq(self.version.apex()) {
            return Err(InsertCutError::ZoneCutAtApex);
        }
        if !name.ends_with(self.version.apex()) {
            return Err(InsertCutError::OutOfZone);
        }
        self.version.make_cut(self.alloc, name, ns, ds, glue)?;
        Ok(())
    }

    /// Makes a name below the apex an alias (RFC 1034, 3.6.2): its CNAME RRset is this one record. Other RRsets stay.
    pub fn insert_cname<N: Labelled>(
        &mut self,
        name: &N,
        alias: SharedRr,
    ) -> Result<(), InsertCnameError>
        requires { alias.rtype ≡ type_cname }
        ensures ok { OnOk result
            (self.new ≡ edits.make_alias self.old (N.labels name.now) alias.ttl alias.fields) }
        ensures outside { (result ≡ Err InsertCnameError.OutOfZone)
            ↔ (under (N.labels name.now) self.old.apex ≡ false) }
        ensures apex { (result ≡ Err InsertCnameError.CnameAtApex)
            ↔ (same_name (N.labels name.now) self.old.apex ≡ true) }
        ensures err { OnErr result (self.new ≡ self.old) }
    {
        let put = self.put_cname(&name.to_key_name(), &alias);
        drop(alias);
        put
    }

    /// The same of an alias that is lent.
    fn put_cname(&mut self, name: &KeyName, alias: &SharedRr) -> Result<(), InsertCnameError>
        requires { alias.now.rtype ≡ type_cname }
        ensures ok { OnOk result
            (self.new ≡ edits.make_alias self.old name.now alias.now.ttl alias.now.fields) }
        ensures outside { (result ≡ Err InsertCnameError.OutOfZone)
            ↔ (under name.now self.old.apex ≡ false) }
        ensures apex { (result ≡ Err InsertCnameError.CnameAtApex)
            ↔ (same_name name.now self.old.apex ≡ true) }
        ensures err { OnErr result (self.new ≡ self.old) }
    {
        if name.name_eq(self.version.apex()) {
            return Err(InsertCnameError::CnameAtApex);
        }
        if !name.ends_with(self.version.apex()) {
            return Err(InsertCnameError::OutOfZone);
        }
        self.version.make_alias(self.alloc, name, alias)?;
        Ok(())
    }

    /// Opens the zone, its version numbered 0: the records without DS sets below the apex that lack NS.
    pub fn build(self) -> Result<ZoneApex, AllocError>
        ensures { IfOk result (λ z. z ≡ record { number = 0; version = edits.close self }) }
    {
        self.build_at(0)
    }

    /// Opens the zone, as `build` does, with another number for its version.
    pub fn build_at(self, number: u64) -> Result<ZoneApex, AllocError>
        ensures { IfOk result (λ z. z ≡ record { number = number; version = edits.close self }) }
    {
        let alloc = self.alloc;
        ZoneApex::of(alloc, self.into_read(number)?)
    }

    /// Opens the zone with this number for its version, as `build_at` does, for readers on other threads: its first reader and its desk. There are places
    /// for 17 readers at once.
    pub fn open_at<R: Wait>(self, rt: &R, number: u64) -> Result<(ZoneReader, Desk), AllocError>
        ensures pair { IfOk result (λ t. t.0.book ≡ t.1.book) }
        ensures lists { IfOk result (λ t. (t.0.list ≡ record { number = number; version = edits.close self } ∷ [])
            × (t.1.list ≡ record { number = number; version = edits.close self } ∷ [])) }
        ensures lasts { IfOk result (λ t. (t.0.last ≡ record { number = number; version = edits.close self })
            × (t.1.last ≡ record { number = number; version = edits.close self })) }
        ensures fresh { IfOk result (λ t. t.0.refused ≡ 0) }
    {
        let alloc = self.alloc;
        Desk::open(alloc, rt, self.into_read(number)?, MOST_READERS)
    }

    /// A handle of the version with which a zone of these records opens, under this number, and no zone: that without DS sets below the apex that lack NS.
    pub fn into_read(self, number: u64) -> Result<ReadZone, AllocError>
        ensures { IfOk result (λ z. z ≡ record { number = number; version = edits.close self }) }
    {
        let version = Arc::new(self.alloc, self.version.into_closed(self.alloc)?)?;
        Ok(ReadZone::of(number, version))
    }
}

/// A zone opens with the records of a zone file, moved and not copied. Where they make no zone, what keeps them from it is told (`faults`). The file
/// is gone either way.
impl TryFrom<Zonefile> for ZoneBuilder {
    ghost use Rattle.std.specs.Prelude.{◌≡◌, ◌<◌, [], length, IfOk, IfErr, IfSome};
    ghost use Rattle.zone_records.specs.Parsed.{version_of};
    ghost use Rattle.zone_records.specs.Faults.{faults};
    ghost use Rattle.zone_records.specs.Causes.{errors_in};

    type Error = FileError<ContextError>;

    ghost try_from_gives = { λ p r. IfOk r (λ b. (faults p ≡ []) × (b ≡ version_of p))
        × IfErr r (λ e. IfSome (errors_in e) (λ errors. (errors ≡ faults p) × (0 < length errors))) };

    fn try_from(file: Zonefile) -> Result<ZoneBuilder, FileError<ContextError>> {
        let alloc = file.memory();
        let version = Opening::of(file.into_version()?)?;
        Ok(ZoneBuilder { alloc, version })
    }
}
