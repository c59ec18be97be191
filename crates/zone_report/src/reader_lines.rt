//! The lines of readers on threads.
ghost use Rattle.std.specs.Prelude.{◌≡◌, ◌++◌, ◌∷◌, [], OnOk, codes, decimal};
ghost use Rattle.dns_rdata.specs.Records.{record_wire};
ghost use Rattle.zone_report.specs.Report.{line, reader_lines};

use crate::numbers::append_number;
use std::alloc::{AllocError, Global};
use std::marker::Model;

/// What one reader saw while a transfer ran: the numbers of the versions that it read first and last.
#[derive(Drop)]
pub struct ReaderNumbers {
    first: u64,
    last: u64,
}

impl Model for ReaderNumbers {
    ghost use Rattle.zone_report.specs.Report.{ReaderLine};

    ghost Value = { ReaderLine };

    ghost view = { λ r. record { first = r.first; last = r.last } };
}

impl ReaderNumbers {
    /// These two numbers.
    pub fn new(first: u64, last: u64) -> ReaderNumbers
        ensures { result ≡ record { first = first; last = last } }
    {
        ReaderNumbers { first, last }
    }
}

/// A line `reader I A C` for each reader, numbered from 1.
pub(crate) fn append_readers(
    alloc: Global,
    out: &mut Vec<u8>,
    readers: &[ReaderNumbers],
) -> Result<(), AllocError>
    ensures { OnOk result (out.new.items ≡ out.old.items ++ reader_lines record_wire 1 readers.now) }
{
    let mut number = 0;
    let mut rest = readers;
    'readers: while let Some((reader, behind)) = rest.split_first() {
        number += 1;
        append_reader(alloc, out, number, reader)?;
        rest = behind;
    }
    Ok(())
}

/// The line of one reader.
fn append_reader(
    alloc: Global,
    out: &mut Vec<u8>,
    number: u64,
    reader: &ReaderNumbers,
) -> Result<(), AllocError>
    ensures { OnOk result (out.new.items ≡ out.old.items
        ++ line (codes "reader" ∷ decimal number ∷ decimal reader.now.first ∷ decimal reader.now.last ∷ [])) }
{
    out.extend_from_slice(b"reader ")?;
    append_number(alloc, out, number)?;
    out.extend_from_slice(b" ")?;
    append_number(alloc, out, reader.first)?;
    out.extend_from_slice(b" ")?;
    append_number(alloc, out, reader.last)?;
    out.extend_from_slice(b"\n")
}
