//! Lines that tell how much a version has, and whether it is the same as another.
ghost use Rattle.std.specs.Prelude.{◌≡◌, ◌≤◌, ◌+◌, ◌^◌, ◌++◌, flat_map, length, IfOk, OnErr, OnOk};
ghost use Rattle.zone_model.specs.Walk.{walk, records_of_version};
ghost use Rattle.zone_report.specs.Lines.{count_lines, items_told, same_line};

use crate::numbers::append_number;
use std::alloc::{AllocError, Global};
use zone_reads::{ReadZone, is_same};
use zone_versions::{TreeSet, TreeSets};

/// The lines `sets N` and `records N` of a version.
pub fn append_counts(alloc: Global, out: &mut Vec<u8>, zone: &ReadZone) -> Result<(), AllocError>
    ensures { OnOk result (out.new.items ≡ out.old.items ++ count_lines zone.now.version) }
{
    let (sets, records) = counts_of(zone)?;
    out.extend_from_slice(b"sets ")?;
    append_number(alloc, out, sets)?;
    out.extend_from_slice(b"\nrecords ")?;
    append_number(alloc, out, records)?;
    out.extend_from_slice(b"\n")
}

/// How many RRsets and how many records a version has. A count that would pass 2^64 - 1 answers want of memory.
#[tactic(auto, using(crate::proofs::Counted::walk_length, crate::proofs::Counted::records_length))]
fn counts_of(zone: &ReadZone) -> Result<(u64, u64), AllocError>
    ensures sets { IfOk result (λ n. n.0 ≡ length (walk zone.now.version)) }
    ensures records { IfOk result (λ n. n.1 ≡ length (records_of_version zone.now.version)) }
{
    counts_in(zone.contents().sets())
}

/// How many sets a tree has, and how many records they have.
fn counts_in(sets: TreeSets<'_>) -> Result<(u64, u64), AllocError>
    ensures sets { IfOk result (λ n. n.0 ≡ length sets.entry) }
    ensures records { IfOk result (λ n. n.1 ≡ length (flat_map items_told sets.entry)) }
{
    let mut count = 0u64;
    let mut records = 0u64;
    for found in sets {
        count = sum(count, 1)?;
        records = with_records(records, &found)?;
    }
    Ok((count, records))
}

/// A count with that of a set's records.
fn with_records(count: u64, found: &TreeSet<'_>) -> Result<u64, AllocError>
    ensures { IfOk result (λ n. n ≡ count + length (items_told found.now)) }
{
    sum(count, found.set().data().len() as u64)
}

/// A sum of two counts, unless it passes 2^64 - 1.
fn sum(count: u64, more: u64) -> Result<u64, AllocError>
    ensures sum { IfOk result (λ n. n ≡ count + more) }
    ensures full { OnErr result (2 ^ 64 ≤ count + more) }
{
    match count.checked_add(more) {
        Some(sum) => Ok(sum),
        None => Err(AllocError),
    }
}

/// The line `same yes` where two versions have the same records, else `same no`.
pub fn append_same(out: &mut Vec<u8>, one: &ReadZone, other: &ReadZone) -> Result<(), AllocError>
    ensures { OnOk result (out.new.items ≡ out.old.items ++ same_line one.now.version other.now.version) }
{
    if is_same(one, other) {
        out.extend_from_slice(b"same yes\n")
    } else {
        out.extend_from_slice(b"same no\n")
    }
}
