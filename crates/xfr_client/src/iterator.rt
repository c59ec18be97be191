// What one message says, update by update.
ghost use Rattle.std.specs.Prelude.{◌≡◌, false};
ghost use Rattle.xfr_client.specs.Rest.{NextTold, rest_of};

use crate::interpreter_state::{Place, Told, step};
use crate::section::next_found;
use dns_rdata::ReadRecord;
use dns_wire::RecordSection;
use std::marker::Model;
use xfr_outcomes::ZoneUpdate;
use xfr_outcomes::protocol::IterationError;

/// The updates that one message says, in turn; an error, if there is one, is the last answer.
///
/// It holds a place of its own: an iterator that is dropped half way changes nothing for its interpreter.
#[derive(Drop)]
pub struct XfrZoneUpdateIterator<'m> {
    section: RecordSection<'m>,
    place: Place,
    in_hand: Option<ZoneUpdate<ReadRecord<'m>>>,
    // The message is a first one.
    is_first: bool,
    has_failed: bool,
}

impl<'m> Model for XfrZoneUpdateIterator<'m> {
    ghost use Rattle.xfr_client.specs.Rest.{Rest, rest_of};

    ghost Value = { Rest };

    ghost view = { λ i. rest_of i.section i.place i.in_hand i.is_first i.has_failed };
}

impl<'m> XfrZoneUpdateIterator<'m> {
    /// The updates of these records, read from a place on, after one in hand.
    pub(crate) fn new(
        section: RecordSection<'m>,
        place: Place,
        in_hand: Option<ZoneUpdate<ReadRecord<'m>>>,
        is_first: bool,
    ) -> XfrZoneUpdateIterator<'m>
        ensures { result ≡ rest_of section.entry place in_hand.entry is_first false }
    {
        XfrZoneUpdateIterator {
            section,
            place,
            in_hand,
            is_first,
            has_failed: false,
        }
    }

    /// The next update, or the error that ends the message's updates.
    pub fn next_update(&mut self) -> Option<Result<ZoneUpdate<ReadRecord<'m>>, IterationError>>
        ensures { NextTold self.old result self.new }
    {
        match self.in_hand.take() {
            Some(update) => return Some(Ok(update)),
            None => {}
        }
        if self.has_failed {
            return None;
        }
        let Some(next) = next_found(&mut self.section) else {
            if self.is_first && self.place.is_second() {
                self.has_failed = true;
                return Some(Err(IterationError::SingleSoaIxfrTcpRetrySignal));
            }
            return None;
        };
        let Ok(found) = next else {
            self.has_failed = true;
            return Some(Err(IterationError::ParseError));
        };
        match step(&mut self.place, &found) {
            Told::Delete => Some(Ok(ZoneUpdate::DeleteRecord(found))),
            Told::Add => Some(Ok(ZoneUpdate::AddRecord(found))),
            Told::Whole => {
                drop(self.in_hand.replace(ZoneUpdate::AddRecord(found)));
                Some(Ok(ZoneUpdate::DeleteAllRecords))
            }
            Told::BeginDeletes => Some(Ok(ZoneUpdate::BeginBatchDelete(found))),
            Told::BeginAdds => Some(Ok(ZoneUpdate::BeginBatchAdd(found))),
            Told::Finish => Some(Ok(ZoneUpdate::Finished(found))),
            Told::AfterEnd => {
                drop(found);
                self.has_failed = true;
                Some(Err(IterationError::AlreadyFinished))
            }
        }
    }
}
