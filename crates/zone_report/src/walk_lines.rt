//! The lines of a version's walk.
ghost use Rattle.std.specs.Prelude.{◌≡◌, ◌++◌, All, OnOk, flat_map, map};
ghost use Rattle.dns_rdata.specs.Records.{record_wire};
ghost use Rattle.dns_rdata.specs.ZoneData.{rtype_of, data_fields};
ghost use Rattle.zone_model.specs.Walk.{walk};
ghost use Rattle.zone_report.specs.Lines.{stop_lines, set_record, item_line};

use crate::numbers::append_hex;
use dns_numbers::Class;
use dns_rdata::{ComposeRecord, Record, StoredRecordData};
use std::alloc::{AllocError, Global};
use zone_reads::{ReadZone, WalkItem};

/// A line `rr F HEX` for each record of a version, owners in canonical order (RFC 4034, 6.1), types ascending; F is 1 at or below a
/// zone cut.
pub fn append_walk(alloc: Global, out: &mut Vec<u8>, zone: &ReadZone) -> Result<(), AllocError>
    ensures { OnOk result (out.new.items ≡ out.old.items ++ flat_map (stop_lines record_wire zone.now.version) (walk zone.now.version)) }
{
    // The octets of one record at a time.
    let mut wire = Vec::new(alloc);
    for stop in zone.iter_rrsets() {
        append_stop(&mut wire, out, zone, &stop)?;
    }
    Ok(())
}

/// A line for each record of a set.
#[tactic(auto, using(crate::proofs::WalkLines::stop_lines_of_items))]
fn append_stop(
    wire: &mut Vec<u8>,
    out: &mut Vec<u8>,
    zone: &ReadZone,
    stop: &WalkItem<'_>,
) -> Result<(), AllocError>
    ensures { OnOk result (out.new.items ≡ out.old.items ++ stop_lines record_wire zone.now.version stop.now) }
{
    append_items(wire, out, zone.class(), stop, stop.items())
}

/// A line for each of these data of a set.
fn append_items(
    wire: &mut Vec<u8>,
    out: &mut Vec<u8>,
    class: Class,
    stop: &WalkItem<'_>,
    items: &[StoredRecordData],
) -> Result<(), AllocError>
    requires { All (λ d. rtype_of d ≡ stop.now.rtype) items.now }
    ensures { OnOk result (out.new.items ≡ out.old.items ++ flat_map (item_line class stop.now) (map data_fields items.now)) }
{
    let mut rest = items;
    'lines: while let Some((item, behind)) = rest.split_first() {
        append_item(wire, out, class, stop, item)?;
        rest = behind;
    }
    Ok(())
}

/// The line of one record.
fn append_item(
    wire: &mut Vec<u8>,
    out: &mut Vec<u8>,
    class: Class,
    stop: &WalkItem<'_>,
    item: &StoredRecordData,
) -> Result<(), AllocError>
    requires { rtype_of item.now ≡ stop.now.rtype }
    ensures { OnOk result (out.new.items ≡ out.old.items ++ item_line class stop.now (data_fields item.now)) }
{
    write_record(wire, class, stop, item)?;
    if stop.below_cut() {
        out.extend_from_slice(b"rr 1 ")?;
    } else {
        out.extend_from_slice(b"rr 0 ")?;
    }
    append_hex(out, wire.as_slice())?;
    out.extend_from_slice(b"\n")
}

/// Writes a record in wire form (RFC 1035, 3.2.1), written out, in place of what `wire` held.
fn write_record(
    wire: &mut Vec<u8>,
    class: Class,
    stop: &WalkItem<'_>,
    item: &StoredRecordData,
) -> Result<(), AllocError>
    requires { rtype_of item.now ≡ stop.now.rtype }
    ensures { OnOk result (wire.new.items ≡ record_wire (set_record class stop.now (data_fields item.now))) }
{
    let record = Record::new(stop.owner().borrowed(), class, stop.ttl(), item);
    wire.clear();
    record.compose_record(wire)?;
    Ok(())
}
