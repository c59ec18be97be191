//! The report of a transfer.
ghost use Rattle.std.specs.Prelude.{◌≡◌, IfOk};
ghost use Rattle.dns_rdata.specs.Records.{record_wire};
ghost use Rattle.zone_report.specs.Report.{report, generated_report};

use crate::answers::append_answers;
use crate::counting::{append_counts, append_same};
use crate::outcome_line::append_outcome;
use crate::reader_lines::{ReaderNumbers, append_readers};
use crate::walk_lines::append_walk;
use std::alloc::{AllocError, Global};
use xfr_outcomes::{SyncError, SyncOk};
use zone_lookup::Query;
use zone_reads::ReadZone;

/// The report of a transfer: the answer's line, with the number of versions made where it ended well, and a line `rr F HEX` for
/// each record of a version, owners in canonical order, types ascending; F is 1 at or below a zone cut. Then what the version answers to the
/// questions, and last a line `reader I A C` for each reader, which are numbered from 1: the numbers of the versions that it read first and last.
pub fn report_octets(
    alloc: Global,
    outcome: &Result<SyncOk, SyncError>,
    made: usize,
    zone: &ReadZone,
    queries: &[Query],
    readers: &[ReaderNumbers],
) -> Result<Vec<u8>, AllocError>
    ensures { IfOk result (λ v. v.items ≡ report record_wire outcome.now made zone.now.version queries.now readers.now) }
{
    let mut out = Vec::new(alloc);
    append_outcome(alloc, &mut out, outcome, made)?;
    append_walk(alloc, &mut out, zone)?;
    append_answers(alloc, &mut out, zone, queries)?;
    append_readers(alloc, &mut out, readers)?;
    Ok(out)
}

/// The report of a transfer whose zone isn't printed: the answer's line, how many RRsets and records a version has, and whether they are those of
/// another.
pub fn counts_octets(
    alloc: Global,
    outcome: &Result<SyncOk, SyncError>,
    made: usize,
    zone: &ReadZone,
    other: &ReadZone,
) -> Result<Vec<u8>, AllocError>
    ensures { IfOk result (λ v. v.items ≡ generated_report outcome.now made zone.now.version other.now.version) }
{
    let mut out = Vec::new(alloc);
    append_outcome(alloc, &mut out, outcome, made)?;
    append_counts(alloc, &mut out, zone)?;
    append_same(&mut out, zone, other)?;
    Ok(out)
}
