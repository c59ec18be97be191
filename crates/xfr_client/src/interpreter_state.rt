// Where a transfer's text stands after its first record, and what one more record says there
// (RFC 5936, 2.2; RFC 1995, 4).
ghost use Rattle.std.specs.Prelude.{◌≡◌};
ghost use Rattle.zone_model.specs.TransferText.{Mode, is_soa};
ghost use Rattle.xfr_model.specs.Machine.{step, end_or_batch, is_at_end};
ghost use Rattle.xfr_client.specs.declared.interpreter_state.Stage.TheVariants as stages;
ghost use Rattle.xfr_client.specs.Places.{place_of, is_at_second, first_serial};
ghost use Rattle.xfr_client.specs.Told.{run_of, EndsBefore};

use crate::first_soa::{FirstSoa, duplicate, is_same_soa, serial_of};
use dns_numbers::{Rtype, Serial};
use dns_rdata::ReadRecord;

/// How far a text was read.
#[derive(Clone, Copy)]
pub enum Stage {
    /// Up to the first record of an answer that may yet be of either form.
    AtSecond,
    /// Among the records of a whole zone.
    InWhole,
    /// Among the deletes of a batch.
    InDeletes,
    /// Among the adds of a batch.
    InAdds,
    /// Up to the last SOA record.
    AtEnd,
}

/// A place in the text, with the text's first SOA record, which is large and stays where it is.
#[derive(Drop)]
pub struct Place {
    pub stage: Stage,
    pub first: FirstSoa,
}

impl Place {
    /// A copy.
    pub fn duplicate(&self) -> Place
        ensures { result ≡ self.now }
    {
        Place {
            stage: self.stage,
            first: duplicate(&self.first),
        }
    }

    /// Whether only the first record was read, and the answer may be of either form.
    pub fn is_second(&self) -> bool
        ensures { result ≡ is_at_second (place_of self.now) }
    {
        match self.stage {
            Stage::AtSecond => true,
            _ => false,
        }
    }

    /// Whether the last SOA record was read.
    pub fn is_end(&self) -> bool
        ensures { result ≡ is_at_end (place_of self.now) }
    {
        match self.stage {
            Stage::AtEnd => true,
            _ => false,
        }
    }

    /// The serial of the first SOA record, up to the end.
    pub fn initial_serial(&self) -> Option<Serial>
        ensures { result ≡ first_serial (place_of self.now) }
    {
        match self.stage {
            Stage::AtEnd => None,
            _ => Some(serial_of(&self.first)),
        }
    }
}

/// What one record says.
#[derive(Clone, Copy)]
pub enum Told {
    /// It goes.
    Delete,
    /// It is added.
    Add,
    /// The records all go, and it is the first to be added.
    Whole,
    /// A batch begins with its deletes.
    BeginDeletes,
    /// A batch's adds begin.
    BeginAdds,
    /// The end.
    Finish,
    /// Nothing: it stands after the end.
    AfterEnd,
}

/// What one more record says; the place is then the one after it.
pub fn step(place: &mut Place, found: &ReadRecord<'_>) -> Told
    ensures says { (mode : Mode) → run_of place.new result found.now ≡ step mode (place_of place.old) found.now }
    ensures ends { EndsBefore place.new result }
{
    match place.stage {
        Stage::AtSecond => at_second(place, found),
        Stage::InWhole => in_whole(place, found),
        Stage::InDeletes => in_deletes(place, found),
        Stage::InAdds => in_adds(place, found),
        Stage::AtEnd => Told::AfterEnd,
    }
}

// The second record tells which form the answer has (RFC 1995, 4).
fn at_second(place: &mut Place, found: &ReadRecord<'_>) -> Told
    ensures says { place.old.stage ≡ stages.AtSecond → (mode : Mode) → run_of place.new result found.now ≡ step mode (place_of place.old) found.now }
    ensures ends { EndsBefore place.new result }
{
    if is_soa(found) {
        end_or_batch(place, found)
    } else {
        place.stage = Stage::InWhole;
        Told::Whole
    }
}

// A record of a whole zone is added, up to the first SOA's like (RFC 5936, 2.2).
fn in_whole(place: &mut Place, found: &ReadRecord<'_>) -> Told
    ensures says { place.old.stage ≡ stages.InWhole → (mode : Mode) → run_of place.new result found.now ≡ step mode (place_of place.old) found.now }
    ensures ends { EndsBefore place.new result }
{
    if is_same_soa(&place.first, found) {
        place.stage = Stage::AtEnd;
        Told::Finish
    } else {
        Told::Add
    }
}

// A record among deletes goes, up to the SOA before the adds (RFC 1995, 4).
fn in_deletes(place: &mut Place, found: &ReadRecord<'_>) -> Told
    ensures says { place.old.stage ≡ stages.InDeletes → (mode : Mode) → run_of place.new result found.now ≡ step mode (place_of place.old) found.now }
    ensures ends { EndsBefore place.new result }
{
    if is_soa(found) {
        place.stage = Stage::InAdds;
        Told::BeginAdds
    } else {
        Told::Delete
    }
}

// A record among adds comes in, up to the SOA that ends the batch (RFC 1995, 4).
fn in_adds(place: &mut Place, found: &ReadRecord<'_>) -> Told
    ensures says { place.old.stage ≡ stages.InAdds → (mode : Mode) → run_of place.new result found.now ≡ step mode (place_of place.old) found.now }
    ensures ends { EndsBefore place.new result }
{
    if is_soa(found) {
        end_or_batch(place, found)
    } else {
        Told::Add
    }
}

// Whether a record is an SOA.
fn is_soa(found: &ReadRecord<'_>) -> bool
    ensures { result ≡ is_soa found.now }
{
    found.rtype() == Rtype::SOA
}

// An SOA where deletes would begin: the end, or a batch.
fn end_or_batch(place: &mut Place, found: &ReadRecord<'_>) -> Told
    ensures says { run_of place.new result found.now ≡ end_or_batch place.old.first found.now }
    ensures ends { EndsBefore place.new result }
{
    if is_same_soa(&place.first, found) {
        place.stage = Stage::AtEnd;
        Told::Finish
    } else {
        place.stage = Stage::InDeletes;
        Told::BeginDeletes
    }
}
