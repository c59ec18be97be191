//! The answers to a script's questions.
ghost use Rattle.std.specs.Prelude.{◌≡◌, ◌++◌, ◌∷◌, [], OnOk, flat_map, codes, decimal};
ghost use Rattle.dns_rdata.specs.Records.{record_wire};
ghost use Rattle.zone_report.specs.Lines.{line, flag_word, record_line, answer_lines, query_lines};

use crate::numbers::{append_hex, append_number};
use dns_name::StoredName;
use dns_numbers::Rcode;
use dns_rdata::ComposeRecord;
use std::alloc::{AllocError, Global};
use zone_lookup::{AnswerRef, OutOfZone, Query, look_up};
use zone_reads::{AnswerRecord, AnswerRecords, ReadZone};

/// What a version answers to questions, in order: for each `answer RCODE AA`, AA 1 where the zone has authority, with a line `an HEX`,
/// `au HEX` or `ad HEX` for each record of the three sections; or `answer out-of-zone`.
pub fn append_answers(
    alloc: Global,
    out: &mut Vec<u8>,
    zone: &ReadZone,
    queries: &[Query],
) -> Result<(), AllocError>
    ensures { OnOk result (out.new.items ≡ out.old.items ++ flat_map (query_lines record_wire zone.now.version) queries.now) }
{
    let mut rest = queries;
    'queries: while let Some((query, behind)) = rest.split_first() {
        append_answer(alloc, out, zone, query)?;
        rest = behind;
    }
    Ok(())
}

/// What a version answers to one question.
fn append_answer(
    alloc: Global,
    out: &mut Vec<u8>,
    zone: &ReadZone,
    query: &Query,
) -> Result<(), AllocError>
    ensures { OnOk result (out.new.items ≡ out.old.items ++ query_lines record_wire zone.now.version query.now) }
{
    match look_up(zone, query.qname(), query.qtype()) {
        Ok(answer) => append_sections(alloc, out, &answer, query.qname()),
        Err(OutOfZone) => out.extend_from_slice(b"answer out-of-zone\n"),
    }
}

/// The lines of an answer in the zone.
fn append_sections(
    alloc: Global,
    out: &mut Vec<u8>,
    answer: &AnswerRef<'_>,
    qname: &StoredName,
) -> Result<(), AllocError>
    ensures { OnOk result (out.new.items ≡ out.old.items ++ answer_lines record_wire answer.now.version qname.now answer.now.answer) }
{
    append_head(alloc, out, answer.rcode(), answer.authoritative())?;
    append_records(alloc, out, b"an", &mut answer.answer(qname))?;
    append_records(alloc, out, b"au", &mut answer.authority())?;
    append_records(alloc, out, b"ad", &mut answer.glue())
}

/// The first line of an answer in the zone.
fn append_head(
    alloc: Global,
    out: &mut Vec<u8>,
    rcode: Rcode,
    authoritative: bool,
) -> Result<(), AllocError>
    ensures { OnOk result (out.new.items ≡ out.old.items ++ line (codes "answer" ∷ decimal rcode ∷ flag_word record_wire authoritative ∷ [])) }
{
    out.extend_from_slice(b"answer ")?;
    append_number(alloc, out, u64::from(rcode.to_int()))?;
    if authoritative {
        out.extend_from_slice(b" 1\n")
    } else {
        out.extend_from_slice(b" 0\n")
    }
}

/// A line for each record that is left of a section, which the word names.
fn append_records(
    alloc: Global,
    out: &mut Vec<u8>,
    word: &[u8],
    records: &mut AnswerRecords<'_>,
) -> Result<(), AllocError>
    ensures { OnOk result (out.new.items ≡ out.old.items ++ flat_map (record_line record_wire (word.now ∷ [])) records.old) }
{
    'records: while let Some(record) = records.next_record() {
        append_record(alloc, out, word, &record)?;
    }
    Ok(())
}

/// The line of one record, in wire form (RFC 1035, 3.2.1) with names written out.
fn append_record(
    alloc: Global,
    out: &mut Vec<u8>,
    word: &[u8],
    found: &AnswerRecord<'_>,
) -> Result<(), AllocError>
    ensures { OnOk result (out.new.items ≡ out.old.items ++ record_line record_wire (word.now ∷ []) found.now) }
{
    let mut wire = Vec::new(alloc);
    found.compose_record(&mut wire)?;
    out.extend_from_slice(word)?;
    out.extend_from_slice(b" ")?;
    append_hex(out, wire.as_slice())?;
    out.extend_from_slice(b"\n")
}
