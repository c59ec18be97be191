// The records of the zone.
ghost use Rattle.std.specs.Prelude.{◌≡◌, ◌<◌, ◌≤◌, ◌∷◌, IfOk, IsTrue, length};
ghost use Rattle.dns_name.specs.Names.{is_name, labels_in, name_wire};
ghost use Rattle.dns_rdata.specs.ZoneData.{rtype_of, data_fields};
ghost use Rattle.zone_generated.specs.Generated as generated;
ghost use Rattle.zone_generated.specs.Generated.{zone_name, server_name, soa_record, ns_record};

use crate::draws::{host_address, host_label};
use bytes::Bytes;
use dns_name::{NameRef, StoredName};
use dns_numbers::{Class, Serial, Ttl};
use dns_rdata::{A, Ns, Record, Soa, StoredRecord, StoredRecordData, ZoneRecordData};
use std::alloc::{AllocError, Global};

/// The TTL of every record, in seconds.
const SECONDS: u32 = 3600;

/// The name that the octets spell.
fn name_of(alloc: Global, octets: &[u8]) -> Result<StoredName, AllocError>
    requires name { IsTrue (is_name (labels_in octets.now)) }
    requires spelled { name_wire (labels_in octets.now) ≡ octets.now }
    ensures { IfOk result (λ n. n ≡ labels_in octets.now) }
{
    match NameRef::from_octets(octets) {
        Ok(name) => name.store(alloc),
        Err(_) => unreachable!(),
    }
}

/// The apex, `example.`.
pub(crate) fn apex(alloc: Global) -> Result<StoredName, AllocError>
    ensures { IfOk result (λ n. n ≡ zone_name) }
{
    name_of(alloc, b"\x07example\0")
}

/// The name server, `ns.example.`.
fn server(alloc: Global) -> Result<StoredName, AllocError>
    ensures { IfOk result (λ n. n ≡ server_name) }
{
    name_of(alloc, b"\x02ns\x07example\0")
}

/// The same of octets that the name keeps.
fn name_kept(octets: Vec<u8>) -> Result<StoredName, AllocError>
    requires name { IsTrue (is_name (labels_in octets.items)) }
    requires spelled { name_wire (labels_in octets.items) ≡ octets.items }
    ensures { IfOk result (λ n. n ≡ labels_in octets.items) }
{
    match StoredName::from_octets(Bytes::from_vec(octets)?) {
        Ok(name) => Ok(name),
        Err(_) => unreachable!(),
    }
}

/// The name of a label, which isn't the root's, below the apex.
fn below_apex(alloc: Global, label: &[u8]) -> Result<StoredName, AllocError>
    requires some { 0 < length label.now }
    requires short { length label.now ≤ 63 }
    ensures { IfOk result (λ n. n ≡ label.now ∷ zone_name) }
{
    let mut octets = Vec::with_capacity(alloc, label.len() + 10)?;
    octets.push(label.len() as u8)?;
    octets.extend_from_slice(label)?;
    octets.extend_from_slice(b"\x07example\0")?;
    name_kept(octets)
}

/// A record of class IN with the zone's TTL.
fn record_of(owner: StoredName, data: StoredRecordData) -> StoredRecord
    ensures { result ≡ generated.record_of owner (rtype_of «data») (data_fields «data») }
{
    Record::new(owner, Class::IN, Ttl::from_int(SECONDS), data)
}

/// The SOA record of the apex: its two names are the root, its serial is 1, and each of its times 0.
#[tactic(auto, unfolding(dns_rdata::specs::DataFields::soa_times))]
pub(crate) fn soa(alloc: Global) -> Result<StoredRecord, AllocError>
    ensures { IfOk result (λ r. r ≡ soa_record) }
{
    let owner = apex(alloc)?;
    let none = Ttl::from_int(0);
    let soa = Soa::new(
        StoredName::root(),
        StoredName::root(),
        Serial::from(1),
        none,
        none,
        none,
        none,
    );
    Ok(record_of(owner, ZoneRecordData::Soa(soa)))
}

/// The NS record of the apex.
pub(crate) fn ns(alloc: Global) -> Result<StoredRecord, AllocError>
    ensures { IfOk result (λ r. r ≡ ns_record) }
{
    let owner = apex(alloc)?;
    match server(alloc) {
        Ok(server) => Ok(record_of(owner, ZoneRecordData::Ns(Ns::new(server)))),
        Err(error) => {
            drop(owner);
            Err(error)
        }
    }
}

/// The A record of a draw's host, one of `count`.
pub(crate) fn host_record(alloc: Global, count: u32, draw: u64) -> Result<StoredRecord, AllocError>
    requires { 0 < count }
    ensures { IfOk result (λ r. r ≡ generated.host_record count draw) }
{
    let label = host_label(alloc, count, draw)?;
    let owner = below_apex(alloc, label.as_bytes());
    drop(label);
    let owner = owner?;
    let address = ZoneRecordData::A(A::new(host_address(draw)));
    Ok(record_of(owner, address))
}
