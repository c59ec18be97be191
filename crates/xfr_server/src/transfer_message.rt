// Records written into one message.
ghost use Rattle.std.specs.Prelude.{◌≡◌, ◌↔◌, [], IfSome, IsSome, IsTrue};
ghost use Rattle.dns_rdata.specs.Soa.{serial_of};
ghost use Rattle.dns_rdata.specs.ZoneData.{data_fields};
ghost use Rattle.dns_wire.specs.Wire.{message_wire};
ghost use Rattle.dns_wire.specs.Builds.{BuildsBehind};
ghost use Rattle.zone_model.specs.Version.{has_one_apex_soa};
ghost use Rattle.zone_model.specs.Answer.{apex_soa_record};
ghost use Rattle.zone_model.specs.Difference.{zone_serial as serial_of_version};
ghost use Rattle.xfr_replies.specs.TransferPages.{page_answer};
ghost use Rattle.xfr_server.specs.TransferMessage.{AddsAnswers};

use crate::replies::start_transfer;
use dns_name::{Labelled, ToName};
use dns_numbers::{Rtype, Serial};
use dns_rdata::{Record, StoredRecordData, ZoneRecordData};
use dns_wire::{AdditionalBuilder, AnswerBuilder, MessageBuf, PushError};
use std::alloc::Global;
use xfr_replies::TransferText;
use zone_reads::ReadZone;

/// The serial of a zone; None where it doesn't have exactly one apex SOA record.
pub fn zone_serial(zone: &ReadZone) -> Option<Serial>
    ensures found { IfSome result (λ n. n ≡ serial_of_version zone.now.version) }
    ensures one { IsSome result ↔ IsTrue (has_one_apex_soa zone.now.version) }
{
    let found = zone.rrset_at(zone.apex_name(), Rtype::SOA)?;
    match found.data() {
        [rdata] => Some(serial_in(rdata)),
        _ => None,
    }
}

/// The serial of SOA data, 0 of others.
fn serial_in(rdata: &StoredRecordData) -> Serial
    ensures { result ≡ serial_of (data_fields rdata.now) }
{
    match rdata {
        ZoneRecordData::Soa(soa) => soa.serial(),
        _ => Serial::from(0),
    }
}

/// An answer with the apex SOA alone (RFC 1995, 2), of up to so many octets. `ShortBuf` where that doesn't fit; `Memory` may hide that the
/// record doesn't, never that header and question don't.
pub fn soa_message(
    alloc: Global,
    request: &MessageBuf,
    limit: usize,
    zone: &ReadZone,
) -> Result<AdditionalBuilder, PushError>
    ensures { BuildsBehind (message_wire (page_answer request.now []))
        (message_wire (page_answer request.now (apex_soa_record zone.now.version))) limit result }
{
    let mut answer = start_transfer(alloc, request, limit)?;
    push_soa(&mut answer, zone)?;
    Ok(answer.additional())
}

/// An answer with all that is left of a text (RFC 1995, 2 and 4), of up to so many octets. `ShortBuf` where that doesn't fit; `Memory` may
/// hide that the records don't, never that header and question don't.
pub fn text_message(
    alloc: Global,
    request: &MessageBuf,
    limit: usize,
    text: &mut TransferText,
) -> Result<AdditionalBuilder, PushError>
    ensures built { BuildsBehind (message_wire (page_answer request.now []))
        (message_wire (page_answer request.now text.old.records)) limit result }
    ensures zone { text.new.zone ≡ text.old.zone }
{
    let mut answer = start_transfer(alloc, request, limit)?;
    push_text(&mut answer, text)?;
    Ok(answer.additional())
}

/// All that is left of a text.
fn push_text(answer: &mut AnswerBuilder, text: &mut TransferText) -> Result<(), PushError>
    ensures added { AddsAnswers text.old.records answer.old result answer.new }
    ensures zone { text.new.zone ≡ text.old.zone }
{
    'records: while let Some(record) = text.next() {
        answer.push(&record)?;
        text.advance();
    }
    Ok(())
}

/// The first apex SOA record, if there is one.
fn push_soa(answer: &mut AnswerBuilder, zone: &ReadZone) -> Result<(), PushError>
    ensures { AddsAnswers (apex_soa_record zone.now.version) answer.old result answer.new }
{
    let Some(found) = zone.rrset_at(zone.apex_name(), Rtype::SOA) else {
        return Ok(());
    };
    let Some(rdata) = found.data().first() else {
        return Ok(());
    };
    let owner = zone.apex_name().borrowed();
    answer.push(&Record::new(owner, zone.class(), found.ttl(), rdata))
}
