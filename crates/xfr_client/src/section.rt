// The records of an answer section, read with their data.
ghost use Rattle.xfr_client.specs.Items.{NextItem, items_left};

use dns_name::ParseError;
use dns_rdata::ReadRecord;
use dns_wire::RecordSection;

/// The next record of the section, or what can't be read.
pub fn next_found<'m>(section: &mut RecordSection<'m>) -> Option<Result<ReadRecord<'m>, ParseError>>
    ensures { NextItem (items_left section.old) result (items_left section.new) }
{
    match section.next_record() {
        None => None,
        Some(Err(error)) => Some(Err(error)),
        Some(Ok(head)) => Some(head.to_record()),
    }
}
