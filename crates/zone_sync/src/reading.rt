//! Readers of the secondary's zone, each on a thread of its own.
ghost use Rattle.std.specs.Prelude.{◌≡◌, ◌≤◌, IfOk};
ghost use Rattle.zone_report.specs.ReportsWritten.{IsReader, AreReaders};

use crate::gate::Gate;
use published::{ReaderError, beginnings_are_no_later};
use std::alloc::{AllocError, Global};
use std::marker::Model;
use std::thread::{Threads, map_vec};
use zone_reads::{ReadZone, Receipt, ZoneReader};
use zone_report::ReaderNumbers;

/// How often a reader reads on its thread.
const READS: u32 = 64;

/// A reader that is to read on a thread, and its number.
#[derive(Drop)]
pub struct Seat {
    number: u64,
    reader: ZoneReader,
}

/// A reader that has read on a thread, and the number of the version that it read first. What it holds is no older.
#[derive(Drop)]
pub struct Seen {
    first: u64,
    reader: ZoneReader,
}

impl Model for Seen {
    ghost use Rattle.std.specs.Prelude.{ℕ, ◌≤◌};
    ghost use Rattle.published.specs.Store.{Reads};
    ghost use Rattle.zone_model.specs.Commits.{Commit};

    ghost Value = { ℕ × Reads Commit };

    ghost view = { λ s. (s.first, s.reader) };

    ghost invariant = { λ s. s.first ≤ s.reader.last.number };
}

/// Readers of the same zone, numbered from 1: so many, or fewer where there is no place.
pub(crate) fn seats(
    alloc: Global,
    reader: &mut ZoneReader,
    count: u64,
) -> Result<Vec<Seat>, AllocError> {
    let mut seats = Vec::new(alloc);
    for before in 0..count {
        match reader.another() {
            Ok(reader) => seats.push(Seat {
                number: before + 1,
                reader,
            })?,
            Err(ReaderError::NoPlace) => return Ok(seats),
            Err(ReaderError::Memory) => return Err(AllocError),
        }
    }
    Ok(seats)
}

/// Has each reader read, on a thread of its own where one can be made.
pub(crate) fn serve<R: Threads + Sync, G: Gate + Sync>(
    rt: &R,
    gate: &G,
    seats: Vec<Seat>,
) -> Result<Vec<Result<Seen, AllocError>>, AllocError> {
    map_vec(rt, seats, &|seat| read_often(gate, seat))
}

/// What a reader does on its thread.
fn read_often<G: Gate>(gate: &G, seat: Seat) -> Result<Seen, AllocError> {
    let Seat { number, mut reader } = seat;
    let first = read_number(gate, number, &mut reader)?;
    for _ in 1..READS {
        read_number(gate, number, &mut reader)?;
    }
    Ok(Seen { first, reader })
}

/// One read: the number of the version that the reader holds then.
fn read_number<G: Gate>(gate: &G, number: u64, reader: &mut ZoneReader) -> Result<u64, AllocError>
    ensures is { IfOk result (λ n. n ≡ reader.new.last.number) }
    ensures rises { IfOk result (λ _. reader.old.last.number ≤ reader.new.last.number) }
{
    gate.before_read(number);
    // For the proof: what is read goes on from what was held.
    let _held = reader.held();
    beginnings_are_no_later::<ReadZone>();
    reader.refresh()?;
    Ok(reader.held().version_number())
}

/// What the first reader reads for those that have no place, of `count` readers all but the first `served`, before the transfer.
pub(crate) fn read_before<G: Gate>(
    gate: &G,
    reader: &mut ZoneReader,
    served: u64,
    count: u64,
) -> Result<u64, AllocError>
    ensures { IfOk result (λ n. n ≡ reader.new.last.number) }
{
    for before in served..count {
        read_number(gate, before + 1, reader)?;
    }
    Ok(reader.held().version_number())
}

/// The numbers of `count` readers after the transfer, whose versions the receipt has: of those that read on threads, and for the others of the first reader,
/// which read `before` for them.
pub(crate) fn numbers_after<G: Gate>(
    alloc: Global,
    gate: &G,
    seen: Vec<Result<Seen, AllocError>>,
    reader: &mut ZoneReader,
    before: u64,
    count: u64,
    receipt: &Receipt,
) -> Result<Vec<ReaderNumbers>, AllocError>
    requires { before ≤ reader.old.last.number }
    ensures { IfOk result (λ v. AreReaders count receipt.now.last.number v.items) }
{
    let mut seen = seen.into_iter();
    let mut lines = Vec::new(alloc);
    for number in 0..count {
        lines.push(one_after(gate, number + 1, seen.next(), reader, before, receipt)?)?;
    }
    Ok(lines)
}

/// Those of one reader.
fn one_after<G: Gate>(
    gate: &G,
    number: u64,
    seen: Option<Result<Seen, AllocError>>,
    reader: &mut ZoneReader,
    before: u64,
    receipt: &Receipt,
) -> Result<ReaderNumbers, AllocError>
    requires { before ≤ reader.old.last.number }
    ensures is { IfOk result (IsReader receipt.now.last.number) }
    ensures rises { IfOk result (λ _. reader.old.last.number ≤ reader.new.last.number) }
{
    match seen {
        Some(seen) => {
            let Seen { first, mut reader } = seen?;
            read_last(gate, number, first, &mut reader, receipt)
        }
        None => read_last(gate, number, before, reader, receipt),
    }
}

/// The last read of a reader that first read this number.
fn read_last<G: Gate>(
    gate: &G,
    number: u64,
    first: u64,
    reader: &mut ZoneReader,
    receipt: &Receipt,
) -> Result<ReaderNumbers, AllocError>
    requires { first ≤ reader.old.last.number }
    ensures is { IfOk result (IsReader receipt.now.last.number) }
    ensures rises { IfOk result (λ _. reader.old.last.number ≤ reader.new.last.number) }
{
    gate.before_read(number);
    // For the proof: what is read goes on from what was held.
    let _held = reader.held();
    beginnings_are_no_later::<ReadZone>();
    let last = reader.read_after(receipt)?;
    let _held = reader.held();
    Ok(ReaderNumbers::new(first, last.version_number()))
}
