//! One update of a zone, and why it isn't applied.

ghost use Rattle.std.specs.Prelude.{◌≡◌};
ghost use Rattle.xfr_model.specs.Applying.{commits};
ghost use Rattle.xfr_outcomes.specs.ZoneUpdates.{update_of};

use dns_rdata::ReadRecord;
use std::fmt;
use thiserror::Error;

/// One update of a zone, with records of any kind. Two are equal where kind and record are.
#[derive(Debug, PartialEq, Eq, Drop)]
pub enum ZoneUpdate<R> {
    /// The zone's records all go; a whole zone follows.
    DeleteAllRecords,
    /// This record goes.
    DeleteRecord(R),
    /// This record is added.
    AddRecord(R),
    /// A batch begins with its deletes; what was pending before it is committed, and the difference from there is wanted. The record is the
    /// old SOA.
    BeginBatchDelete(R),
    /// A batch's adds begin. The record is the new SOA.
    BeginBatchAdd(R),
    /// The end; what is pending is committed. The record is the zone's SOA.
    Finished(R),
}

impl<'m> ZoneUpdate<ReadRecord<'m>> {
    /// Whether it commits a version where it is applied: a batch's begin and the end do (RFC 1995, 4).
    pub fn commits(&self) -> bool
        ensures { result ≡ commits (update_of self.now) }
    {
        match self {
            ZoneUpdate::BeginBatchDelete(_) | ZoneUpdate::Finished(_) => true,
            ZoneUpdate::DeleteAllRecords
            | ZoneUpdate::DeleteRecord(_)
            | ZoneUpdate::AddRecord(_)
            | ZoneUpdate::BeginBatchAdd(_) => false,
        }
    }
}

impl<R> fmt::Display for ZoneUpdate<R> {
    ghost use Rattle.std.specs.Prelude.{Some};
    ghost use Rattle.xfr_outcomes.specs.UpdateTexts.{update_text};

    ghost output = { λ u. Some (update_text u) };

    /// The kind of the update, without its record.
    fn fmt<W: fmt::Write>(&self, f: &mut fmt::Formatter<W>) -> fmt::Result {
        match self {
            ZoneUpdate::DeleteAllRecords => write!(f, "DeleteAllRecords"),
            ZoneUpdate::DeleteRecord(_) => write!(f, "DeleteRecord"),
            ZoneUpdate::AddRecord(_) => write!(f, "AddRecord"),
            ZoneUpdate::BeginBatchDelete(_) => write!(f, "BeginBatchDelete"),
            ZoneUpdate::BeginBatchAdd(_) => write!(f, "BeginBatchAdd"),
            ZoneUpdate::Finished(_) => write!(f, "Finished"),
        }
    }
}

/// Why an update isn't applied. Each prints its variant's name.
#[derive(Clone, Copy, Debug, PartialEq, Eq, Error)]
pub enum Error {
    /// The owner isn't at or under the apex.
    #[error("OutOfZone")]
    OutOfZone,
    /// The record that a batch's adds or the end name is no SOA.
    #[error("NotSoaRecord")]
    NotSoaRecord,
    /// The record to add is there, or the record to delete isn't; every later update is refused.
    #[error("IncompatibleUpdate")]
    IncompatibleUpdate,
    /// The record may not stand beside those of its owner.
    #[error("InvalidData")]
    InvalidData,
    /// The version number is the greatest.
    #[error("VersionsExhausted")]
    VersionsExhausted,
    /// The end came before, or an update that didn't fit.
    #[error("Finished")]
    Finished,
    /// Want of memory.
    #[error("Memory")]
    Memory,
}
