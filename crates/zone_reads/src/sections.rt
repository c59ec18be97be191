// The sections of an answer.
ghost use Rattle.std.specs.Prelude.{◌≡◌, ◌++◌, [], map, flat_map, option_copied};
ghost use Rattle.std.specs.Iterator.{YieldsFirst};
ghost use Rattle.dns_rdata.specs.ZoneData.{data_fields};
ghost use Rattle.zone_model.specs.Answer.{addresses_of, apex_soa_record, kept_owner, records_of_option};
ghost use Rattle.zone_model.specs.Version.{set_at};
ghost use Rattle.zone_reads.specs.Glue.{addresses_at, sole_name};

use crate::records::{AnswerRecord, SetRecords};
use dns_name::{KeyName, Labelled, StoredName, ToName};
use dns_numbers::Rtype;
use dns_rdata::{StoredRecordData, ZoneRecordData};
use std::marker::Model;
use zone_versions::ZoneVersion;

/// The records of a section that are left, in order, lent by the version that was asked.
#[derive(Drop)]
pub struct AnswerRecords<'v> {
    version: &'v ZoneVersion,
    first: SetRecords<'v>,
    second: SetRecords<'v>,
    servers: &'v [StoredRecordData],
}

impl<'v> Model for AnswerRecords<'v> {
    ghost use Rattle.std.specs.Prelude.{List, ◌++◌, map, flat_map};
    ghost use Rattle.dns_rdata.specs.Records.{Record};
    ghost use Rattle.dns_rdata.specs.ZoneData.{data_fields};
    ghost use Rattle.zone_model.specs.Answer.{addresses_of};

    ghost Value = { List Record };

    ghost view = { λ r. (r.first ++ r.second) ++ flat_map (addresses_of r.version.now) (map data_fields r.servers.now) };
}

impl<'v> AnswerRecords<'v> {
    /// The records of two sets.
    #[tactic(auto, using(crate::proofs::JoinedRecords::append_none))]
    pub fn of_sets(
        version: &'v ZoneVersion,
        first: SetRecords<'v>,
        second: SetRecords<'v>,
    ) -> AnswerRecords<'v>
        ensures { result ≡ first.entry ++ second.entry }
    {
        AnswerRecords {
            version,
            first,
            second,
            servers: &[],
        }
    }

    /// The records of one set.
    #[tactic(auto, using(crate::proofs::JoinedRecords::append_none))]
    pub fn of_set(version: &'v ZoneVersion, only: SetRecords<'v>) -> AnswerRecords<'v>
        ensures { result ≡ only.entry }
    {
        AnswerRecords::of_sets(version, only, no_records(version))
    }

    /// The A then AAAA records of name servers, where their names are in the zone.
    pub fn of_servers(
        version: &'v ZoneVersion,
        servers: &'v [StoredRecordData],
    ) -> AnswerRecords<'v>
        ensures { result ≡ flat_map (addresses_of version.now) (map data_fields servers.now) }
    {
        AnswerRecords {
            version,
            first: no_records(version),
            second: no_records(version),
            servers,
        }
    }

    /// No record.
    pub fn none(version: &'v ZoneVersion) -> AnswerRecords<'v>
        ensures { result ≡ [] }
    {
        AnswerRecords::of_servers(version, &[])
    }

    /// The next record. None where none is left.
    pub fn next_record(&mut self) -> Option<AnswerRecord<'v>>
        ensures { YieldsFirst (λ r. r) self.old result self.new }
    {
        'records: loop {
            if let Some(record) = self.first.next_record() {
                return Some(record);
            }
            if let Some(record) = self.second.next_record() {
                return Some(record);
            }
            let servers = self.servers;
            match servers.split_first() {
                Some((server, behind)) => {
                    self.servers = behind;
                    let (first, second) = addresses_by_type(self.version, server);
                    self.first = first;
                    self.second = second;
                }
                None => return None,
            }
        }
    }
}

impl<'v> Iterator for AnswerRecords<'v> {
    type Item = AnswerRecord<'v>;

    ghost use Rattle.std.specs.Iterator.{YieldsFirst, item_count};

    ghost next_gives = { YieldsFirst (λ r. r) };

    ghost remaining = { item_count (λ r. r) };

    fn next(&mut self) -> Option<AnswerRecord<'v>> {
        self.next_record()
    }
}

/// No record.
fn no_records<'v>(version: &'v ZoneVersion) -> SetRecords<'v>
    ensures { result ≡ [] }
{
    SetRecords::of(KeyName::root(), Rtype::ANY, version.class(), None)
}

/// The first SOA record of the apex (RFC 2308, 3).
#[tactic(auto, using(crate::proofs::LentTypes::lent_set, crate::proofs::LentTypes::lent_type))]
pub fn apex_soa<'v>(version: &'v ZoneVersion) -> SetRecords<'v>
    ensures { result ≡ apex_soa_record version.now }
{
    let owner = version.apex().to_key_name();
    let contents = version.set_at(version.apex(), Rtype::SOA);
    SetRecords::first_of(owner, Rtype::SOA, version.class(), contents)
}

/// The A and the AAAA records of a name server, where its name is in the zone (RFC 1034, 4.2.1).
#[tactic(auto, using(crate::proofs::JoinedRecords::addresses_are))]
fn addresses_by_type<'v>(
    version: &'v ZoneVersion,
    server: &StoredRecordData,
) -> (SetRecords<'v>, SetRecords<'v>)
    ensures { result.0 ++ result.1 ≡ addresses_of version.now (data_fields server.now) }
{
    let first = addresses(version, server, Rtype::A);
    let second = addresses(version, server, Rtype::AAAA);
    (first, second)
}

/// The records of one type of a name server, where its name is in the zone (RFC 1034, 4.2.1).
fn addresses<'v>(
    version: &'v ZoneVersion,
    server: &StoredRecordData,
    rtype: Rtype,
) -> SetRecords<'v>
    ensures { result ≡ addresses_at version.now rtype (sole_name (data_fields server.now)) }
{
    match sole_name(server) {
        Some(target) => {
            if target.ends_with(version.apex()) {
                addresses_of(version, target, rtype)
            } else {
                no_records(version)
            }
        }
        None => no_records(version),
    }
}

/// The records of one type of a name, with the owner that the version keeps.
#[tactic(auto, using(crate::proofs::LentTypes::lent_set, crate::proofs::LentTypes::lent_type))]
fn addresses_of<'v>(version: &'v ZoneVersion, target: &StoredName, rtype: Rtype) -> SetRecords<'v>
    ensures { result ≡ records_of_option (kept_owner version.now target.now) rtype version.now.class (set_at version.now target.now rtype) }
{
    let owner = kept_owner(version, target);
    SetRecords::of(owner, rtype, version.class(), version.set_at(target, rtype))
}

/// A name as the version keeps it: the apex as it was given, others in lower case.
fn kept_owner(version: &ZoneVersion, name: &StoredName) -> KeyName
    ensures { result ≡ kept_owner version.now name.now }
{
    if name.name_eq(version.apex()) {
        version.apex().to_key_name()
    } else {
        name.to_canonical()
    }
}

/// The name that data consist of, if they are one name.
fn sole_name(item: &StoredRecordData) -> Option<&StoredName>
    ensures { option_copied result ≡ sole_name (data_fields item.now) }
{
    match item {
        ZoneRecordData::Ns(server) => Some(server.name()),
        ZoneRecordData::Md(host) => Some(host.name()),
        ZoneRecordData::Mf(host) => Some(host.name()),
        ZoneRecordData::Mb(host) => Some(host.name()),
        ZoneRecordData::Mg(mailbox) => Some(mailbox.name()),
        ZoneRecordData::Mr(mailbox) => Some(mailbox.name()),
        ZoneRecordData::Cname(target) => Some(target.name()),
        ZoneRecordData::Ptr(target) => Some(target.name()),
        _ => None,
    }
}
