// Edits of whole nodes, and the serial that a commit counts on.
ghost use Rattle.std.specs.Prelude.{◌≡◌, ◌+◌, ◌%◌, ◌^◌, ◌==◌, ◌||◌, ◌&&◌, not, true, false, map, length, filter, option_copied, option_map, IfOk, OnOk, OnErr};
ghost use Rattle.std.specs.List.{list_all};
ghost use Rattle.dns_name.specs.Names.{under, same_name};
ghost use Rattle.dns_numbers.specs.Codes.{type_a, type_cname, type_aaaa, type_soa};
ghost use Rattle.dns_rdata.specs.Records.{same_data};
ghost use Rattle.dns_rdata.specs.DataFields.{soa_fields};
ghost use Rattle.dns_rdata.specs.Soa.{serial_of, with_serial};
ghost use Rattle.dns_rdata.specs.ZoneData.{rtype_of, data_fields};
ghost use Rattle.zone_model.specs.Version.{Version, all_differ, set_at};
ghost use Rattle.zone_model.specs.Edits as edits;
ghost use Rattle.zone_model.specs.Edits.{distinct, first_record, first_soa, bump_from};
ghost use Rattle.zone_values.specs.TypedEntries.{typed};
ghost use Rattle.zone_versions.specs.Puts.{with_soa};
ghost use Rattle.zone_versions.specs.Nodes.{put_at, is_address_in, with_glue};

use crate::node::NodeCount;
use crate::tree::VersionTree;
use crate::version::{ZoneVersion, put_opening};
use dns_name::{KeyName, Labelled, StoredName, ToName};
use dns_numbers::{Rtype, Ttl};
use dns_rdata::{RecordData, Soa, StoredRecord, StoredRecordData, ZoneRecordData};
use std::alloc::{AllocError, Global};
use zone_values::Rrset;

impl ZoneVersion {
    /// Whether an RRset is refused at a node: a CNAME RRset below the apex whose data aren't one value (RFC 2181, 10.1).
    pub fn is_bad_alias(&self, owner: &KeyName, set: &Rrset) -> bool
        ensures { result ≡ edits.is_bad_alias self.now owner.now set.now.rtype set.now.contents }
    {
        is_bad_alias(self.apex(), owner, set)
    }

    /// Puts an RRset in place of the one of its owner and type; an empty one removes that.
    pub fn put_set(&mut self, alloc: Global, owner: &KeyName, set: Rrset) -> Result<(), AllocError>
        requires zone { under owner.now self.old.apex ≡ true }
        requires differ { all_differ set.contents.items ≡ true }
        requires alias { edits.is_bad_alias self.old owner.now set.rtype set.contents ≡ false }
        ensures ok { OnOk result (self.new ≡ edits.put_set self.old owner.now set.rtype set.contents) }
        ensures err { OnErr result (self.new ≡ self.old) }
    {
        let rtype = set.rtype();
        put_at(&mut self.tree, alloc, owner, rtype, set)
    }

    /// Removes the RRset of an owner and type.
    pub fn remove_set(
        &mut self,
        alloc: Global,
        owner: &KeyName,
        rtype: Rtype,
    ) -> Result<(), AllocError>
        ensures ok { OnOk result (self.new ≡ edits.remove_set self.old owner.now rtype) }
        ensures err { OnErr result (self.new ≡ self.old) }
    {
        // Only names at and below the apex have RRsets.
        if !owner.ends_with(self.apex()) {
            return Ok(());
        }
        let mut steps = NodeCount::new();
        self.tree.with_set(alloc, owner, rtype, None, &mut steps)
    }

    /// Removes the sets of a name and of all names below it.
    pub fn clear(&mut self, alloc: Global, name: &KeyName) -> Result<(), AllocError>
        ensures ok { OnOk result (self.new ≡ edits.clear self.old name.now) }
        ensures err { OnErr result (self.new ≡ self.old) }
    {
        let mut steps = NodeCount::new();
        self.tree.clear(alloc, name, &mut steps)
    }

    /// Puts an address at or below the apex last in its RRset, whose TTL is then the lower one, unless equal data are there (RFC 1034, 4.2.1).
    /// Other records change nothing.
    pub fn add_glue(&mut self, alloc: Global, added: StoredRecord) -> Result<(), AllocError>
        ensures ok { OnOk result (self.new ≡ edits.add_glue self.old added) }
        ensures err { OnErr result (self.new ≡ self.old) }
    {
        if self.is_passed_over(&added) {
            drop(added);
            return Ok(());
        }
        self.put_glue(alloc, added)
    }

    /// Whether a record is no address in the zone, or has equal data in its RRset.
    fn is_passed_over(&self, added: &StoredRecord) -> bool
        ensures { result ≡ (not (is_address_in self.now added.now) || edits.has_data self.now added.now) }
    {
        if self.is_outside(added) {
            return true;
        }
        if !is_address(added.rtype()) {
            return true;
        }
        self.has_data(added)
    }

    /// Puts an address in the zone last in its RRset, which lacks its data; the lower TTL becomes the RRset's.
    fn put_glue(&mut self, alloc: Global, added: StoredRecord) -> Result<(), AllocError>
        requires address { is_address_in self.old added ≡ true }
        requires fresh { edits.has_data self.old added ≡ false }
        ensures ok { OnOk result (self.new ≡ with_glue self.old added) }
        ensures err { OnErr result (self.new ≡ self.old) }
    {
        put_opening(&mut self.tree, alloc, added)
    }

    /// Makes the apex SOA RRset the first record of the published one with the next serial (RFC 1982, 3.1), unless its own first record is another.
    /// Without a published SOA nothing changes.
    pub fn bump(&mut self, alloc: Global, published: &ZoneVersion) -> Result<(), AllocError>
        ensures ok { OnOk result (self.new ≡ edits.bump published.now self.old) }
        ensures err { OnErr result (self.new ≡ self.old) }
    {
        match published.soa_set() {
            Some(set) => self.follow(alloc, set),
            None => Ok(()),
        }
    }

    /// The apex SOA RRset.
    fn soa_set(&self) -> Option<&Rrset>
        ensures { option_copied result ≡ option_map (typed type_soa) (set_at self.now self.now.apex type_soa) }
    {
        self.set_at(self.apex(), Rtype::SOA)
    }

    /// The same with the published SOA RRset.
    fn follow(&mut self, alloc: Global, published: &Rrset) -> Result<(), AllocError>
        requires { published.now.rtype ≡ type_soa }
        ensures ok { OnOk result (self.new ≡ bump_from self.old (first_record published.now.contents)) }
        ensures err { OnErr result (self.new ≡ self.old) }
    {
        match published.data().first() {
            Some(old) => self.count_on(alloc, published.ttl(), old),
            None => Ok(()),
        }
    }

    /// The same with the published record.
    fn count_on(
        &mut self,
        alloc: Global,
        ttl: Ttl,
        old: &StoredRecordData,
    ) -> Result<(), AllocError>
        requires { rtype_of old.now ≡ type_soa }
        ensures ok { OnOk result (self.new ≡ bump_from self.old (Some (ttl, data_fields old.now))) }
        ensures err { OnErr result (self.new ≡ self.old) }
    {
        if self.is_news(ttl, old) {
            return Ok(());
        }
        self.put_soa(alloc, ttl, next_soa(old)?)
    }

    /// Whether the first SOA record of the apex is there and another one than this.
    fn is_news(&self, ttl: Ttl, old: &StoredRecordData) -> bool
        ensures { result ≡ edits.is_news (first_soa self.now) (ttl, data_fields old.now) }
    {
        match self.soa_set() {
            Some(set) => is_news(set, ttl, old),
            None => false,
        }
    }

    /// Makes the apex SOA RRset this one record.
    pub(crate) fn put_soa(
        &mut self,
        alloc: Global,
        ttl: Ttl,
        item: StoredRecordData,
    ) -> Result<(), AllocError>
        requires { rtype_of item ≡ type_soa }
        ensures ok { OnOk result (self.new ≡ with_soa self.old ttl (data_fields item)) }
        ensures err { OnErr result (self.new ≡ self.old) }
    {
        let apex = self.apex().to_key_name();
        let set = Rrset::of_one(alloc, ttl, item)?;
        put_at(&mut self.tree, alloc, &apex, Rtype::SOA, set)
    }
}

/// Whether an RRset is refused at a name of the zone of an apex: a CNAME RRset below the apex whose data aren't one value (RFC 2181, 10.1).
pub fn is_bad_alias(apex: &StoredName, owner: &KeyName, set: &Rrset) -> bool
    ensures { (v : Version) → v.apex ≡ apex.now → result ≡ edits.is_bad_alias v owner.now set.now.rtype set.now.contents }
{
    is_bad_below(apex, owner, set)
}

/// Whether a name is below an apex.
fn is_below(apex: &StoredName, owner: &KeyName) -> bool
    ensures { result ≡ (under owner.now apex.now && not (same_name owner.now apex.now)) }
{
    owner.ends_with(apex) && !owner.name_eq(apex)
}

/// Whether an RRset is a CNAME RRset below an apex whose data aren't one value.
fn is_bad_below(apex: &StoredName, owner: &KeyName, set: &Rrset) -> bool
    ensures { result ≡ ((under owner.now apex.now && not (same_name owner.now apex.now)) && (set.now.rtype == type_cname) && not (length (distinct set.now.contents.items) == 1)) }
{
    if !is_below(apex, owner) {
        return false;
    }
    if set.rtype() != Rtype::CNAME {
        return false;
    }
    !has_one_value(set.data())
}

/// Whether data are there and all equal.
fn has_one_value(items: &[StoredRecordData]) -> bool
    ensures { result ≡ (length (distinct (map data_fields items.now)) == 1) }
{
    match items.first() {
        Some(first) => are_equal(items, first),
        None => false,
    }
}

/// Whether all data are equal to these.
fn are_equal(items: &[StoredRecordData], first: &StoredRecordData) -> bool
    ensures { result ≡ list_all (λ item. same_data (data_fields first.now) (data_fields item)) items.now }
{
    items.iter().all(|item| first.fields_eq(item))
}

/// Whether a type is that of addresses.
fn is_address(rtype: Rtype) -> bool
    ensures { result ≡ ((rtype == type_a) || (rtype == type_aaaa)) }
{
    rtype == Rtype::A || rtype == Rtype::AAAA
}

/// Puts an RRset of this type at an owner in a tree, or takes the one there away where it is empty.
fn put_at(
    tree: &mut VersionTree,
    alloc: Global,
    owner: &KeyName,
    rtype: Rtype,
    set: Rrset,
) -> Result<(), AllocError>
    requires zone { under owner.now tree.old.apex ≡ true }
    requires own { set.rtype ≡ rtype }
    ensures ok { OnOk result (tree.new ≡ edits.put_set tree.old owner.now rtype set.contents) }
    ensures err { OnErr result (tree.new ≡ tree.old) }
{
    let mut steps = NodeCount::new();
    let set = set.into_shared(alloc)?;
    tree.with_set(alloc, owner, rtype, Some(set), &mut steps)
}

/// Whether the first record of an RRset is there and another one than this.
fn is_news(set: &Rrset, ttl: Ttl, old: &StoredRecordData) -> bool
    ensures { result ≡ edits.is_news (first_record set.now.contents) (ttl, data_fields old.now) }
{
    match set.data().first() {
        Some(first) => !(set.ttl() == ttl && first.fields_eq(old)),
        None => false,
    }
}

/// SOA data with the next serial (RFC 1982, 3.1). Data that aren't read as SOA stay.
fn next_soa(old: &StoredRecordData) -> Result<StoredRecordData, AllocError>
    ensures rtype { IfOk result (λ d. rtype_of d ≡ rtype_of old.now) }
    ensures fields { IfOk result (λ d. data_fields d ≡ with_serial ((serial_of (data_fields old.now) + 1) % 2 ^ 32) (data_fields old.now)) }
{
    match old {
        ZoneRecordData::Soa(soa) => Ok(ZoneRecordData::Soa(with_next(soa)?)),
        _ => old.clone(),
    }
}

/// The same of data that are SOA.
fn with_next(soa: &Soa<StoredName>) -> Result<Soa<StoredName>, AllocError>
    ensures { IfOk result (λ next. soa_fields (λ n. n) next ≡ with_serial ((serial_of (soa_fields (λ n. n) soa.now) + 1) % 2 ^ 32) (soa_fields (λ n. n) soa.now)) }
{
    let mname = soa.mname().clone()?;
    let rname = soa.rname().clone()?;
    let serial = soa.serial().add(1);
    let (refresh, retry) = (soa.refresh(), soa.retry());
    let (expire, minimum) = (soa.expire(), soa.minimum());
    Ok(Soa::new(mname, rname, serial, refresh, retry, expire, minimum))
}
