// The zone, record by record.
ghost use Rattle.std.specs.Prelude.{◌≡◌, ◌==◌, ◌<◌, ◌≤◌, ◌∷◌, map, fold, IfOk, OnOk, true, false};
ghost use Rattle.dns_name.specs.Names.{under};
ghost use Rattle.dns_numbers.specs.Codes.{type_cname};
ghost use Rattle.zone_model.specs.Classify.{opened_with};
ghost use Rattle.zone_model.specs.Edits.{close};
ghost use Rattle.zone_generated.specs.Generated as generated;
ghost use Rattle.zone_generated.specs.Generated.{zone_name, soa_record, ns_record};

use crate::draws::draws_by_owner;
use crate::records::{apex, host_record, ns, soa};
use dns_numbers::Class;
use dns_rdata::StoredRecord;
use std::alloc::{AllocError, Global};
use zone_reads::ReadZone;
use zone_sessions::{InsertError, ZoneBuilder};

/// Puts a record that the zone can't refuse: its owner is the apex or below it, and it is no alias.
fn put(builder: &mut ZoneBuilder, added: StoredRecord) -> Result<(), AllocError>
    requires apex { builder.old.apex ≡ zone_name }
    requires inside { under added.owner zone_name ≡ true }
    requires plain { (added.rtype == type_cname) ≡ false }
    ensures put { OnOk result (builder.new ≡ opened_with builder.old added) }
    ensures apex { OnOk result (builder.new.apex ≡ zone_name) }
{
    match builder.insert(added) {
        Ok(()) => Ok(()),
        Err(InsertError::Memory) => Err(AllocError),
        Err(InsertError::OutOfZone) => unreachable!(),
        Err(InsertError::InvalidData) => unreachable!(),
    }
}

/// Puts the hosts of these draws, each one of `count`.
fn put_hosts(
    alloc: Global,
    builder: &mut ZoneBuilder,
    count: u32,
    drawn: &[u64],
) -> Result<(), AllocError>
    requires some { 1 ≤ count }
    requires apex { builder.old.apex ≡ zone_name }
    ensures { OnOk result (builder.new ≡ fold opened_with builder.old (map (generated.host_record count) drawn.now)) }
{
    for draw in drawn.iter() {
        put(builder, host_record(alloc, count, *draw)?)?;
    }
    Ok(())
}

/// Puts the records of the apex, an SOA and an NS record, and those hosts.
fn put_all(
    alloc: Global,
    builder: &mut ZoneBuilder,
    count: u32,
    drawn: &[u64],
) -> Result<(), AllocError>
    requires some { 1 ≤ count }
    requires apex { builder.old.apex ≡ zone_name }
    ensures { OnOk result (builder.new ≡ fold opened_with builder.old (soa_record ∷ ns_record ∷ map (generated.host_record count) drawn.now)) }
{
    put(builder, soa(alloc)?)?;
    put(builder, ns(alloc)?)?;
    put_hosts(alloc, builder, count, drawn)
}

/// The version of those records.
fn zone_of(alloc: Global, count: u32, drawn: &[u64]) -> Result<ReadZone, AllocError>
    requires { 1 ≤ count }
    ensures { IfOk result (λ z. z ≡ record { number = 0; version = close (fold opened_with generated.empty (soa_record ∷ ns_record ∷ map (generated.host_record count) drawn.now)) }) }
{
    let mut builder = ZoneBuilder::new(alloc, apex(alloc)?, Class::IN);
    match put_all(alloc, &mut builder, count, drawn) {
        Ok(()) => builder.into_read(0),
        Err(error) => {
            drop(builder);
            Err(error)
        }
    }
}

/// The version of the zone `example.` of so many draws after the seed, numbered 0: an SOA and an NS record at the apex, and the A record of each draw's
/// host. Equal records count once. The hosts are put in the order of their owners.
pub fn generated(alloc: Global, count: u32, seed: u64) -> Result<ReadZone, AllocError>
    requires { 1 ≤ count }
    ensures { IfOk result (λ z. z ≡ record { number = 0; version = generated.generated count seed }) }
{
    let drawn = draws_by_owner(alloc, count, seed)?;
    let zone = zone_of(alloc, count, drawn.as_slice());
    drop(drawn);
    zone
}

/// The version of that zone before it has records, numbered 0.
pub fn empty(alloc: Global) -> Result<ReadZone, AllocError>
    ensures { IfOk result (λ z. z ≡ record { number = 0; version = generated.empty }) }
{
    ZoneBuilder::new(alloc, apex(alloc)?, Class::IN).into_read(0)
}
