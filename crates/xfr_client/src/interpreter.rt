// The interpreter of a transfer's messages.
ghost use Rattle.std.specs.Prelude.{◌≡◌, ◌==◌, ◌∷◌, ◌&&◌, not, if◌then◌else◌, true, false, List, Option, Some, None, Ok, Err, map, length, is_some, is_none, IsTrue, IsOkAnd, IfOk, IfErr, OnErr};
ghost use Rattle.dns_rdata.specs.Records.{Record};
ghost use Rattle.xfr_model.specs.Messages.{ReadMessage, message_of};
ghost use Rattle.zone_model.specs.TransferText.{Axfr, Ixfr};
ghost use Rattle.xfr_model.specs.Read.{first_fault, is_transfer_head, record_item};
ghost use Rattle.xfr_model.specs.Machine.{run_items, first_step, AtStart};
ghost use Rattle.xfr_outcomes.specs.declared.protocol.Error.TheVariants.{Finished, ParseError};
ghost use Rattle.dns_wire.specs.Parse.{answers_start};
ghost use Rattle.xfr_client.specs.Places.{place_at, place_of, is_at_second, first_serial};
ghost use Rattle.xfr_client.specs.Items.{items_left};
ghost use Rattle.xfr_client.specs.Rest.{updates_in_hand};
ghost use Rattle.xfr_client.specs.Interpreting.{Interprets, Refuses, interpreting_of, is_over, TakenOr, told_first, sections_here, IsReadAs, good_header, good_counts, good_head, unreached_fault, unreached, Asks, BeginsAt, IsPlaceAt};

use crate::first_soa::{first_soa, serial_of};
use crate::interpreter_state::{Place, Stage, step};
use crate::iterator::XfrZoneUpdateIterator;
use crate::section::next_found;
use dns_numbers::{Opcode, Rcode, Rtype, Serial};
use dns_rdata::ReadRecord;
use dns_wire::{Header, HeaderCounts, MessageBuf, RecordSection};
use std::marker::Model;
use xfr_outcomes::ZoneUpdate;
use xfr_outcomes::protocol::Error;

/// Reads the messages of one transfer in turn (RFC 5936, 2.2; RFC 1995, 4).
///
/// It keeps no message: only where it stands, and the first SOA record in place.
#[derive(Drop)]
pub struct XfrResponseInterpreter {
    // None before the first message.
    place: Option<Place>,
    // The first message asked for another way of transfer.
    has_signalled: bool,
}

impl Model for XfrResponseInterpreter {
    ghost use Rattle.xfr_client.specs.Interpreting.{Interpreting, interpreting_of};

    ghost Value = { Interpreting };

    ghost view = { λ i. interpreting_of i.place i.has_signalled };
}

impl Default for XfrResponseInterpreter {
    ghost use Rattle.std.specs.Prelude.{◌≡◌, false};
    ghost use Rattle.xfr_model.specs.Machine.{AtStart};

    ghost is_default = { λ i. i ≡ record { begun = false; place = AtStart; signalled = false } };

    /// One that has read nothing.
    fn default() -> XfrResponseInterpreter {
        XfrResponseInterpreter::new()
    }
}

impl XfrResponseInterpreter {
    /// An interpreter that has read nothing.
    pub fn new() -> XfrResponseInterpreter
        ensures { result ≡ record { begun = false; place = AtStart; signalled = false } }
    {
        XfrResponseInterpreter {
            place: None,
            has_signalled: false,
        }
    }

    /// Whether the end was read, or a first message asked for another way of transfer.
    pub fn is_finished(&self) -> bool
        ensures { result ≡ is_over self.now }
    {
        if self.has_signalled {
            return true;
        }
        match &self.place {
            None => false,
            Some(place) => place.is_end(),
        }
    }

    /// The serial of the transfer's first SOA record, up to the end.
    pub fn initial_serial(&self) -> Option<Serial>
        ensures { result ≡ first_serial self.now.place }
    {
        match &self.place {
            Some(place) => place.initial_serial(),
            None => None,
        }
    }

    /// Tests one message, moves over its answer records, and gives the updates that they say.
    ///
    /// Errors, in this order: `Finished` after the end; `NotValidXfrResponse` where header or counts aren't those of
    /// a transfer's reply; `ParseError` where the answer section can't be reached; for a first message `Malformed`
    /// where it asks for something else or its first record can't be read, and `NotValidXfrResponse` where that
    /// record is no SOA. The interpreter is then as before.
    pub fn interpret_response<'m>(
        &mut self,
        message: &'m MessageBuf,
    ) -> Result<XfrZoneUpdateIterator<'m>, Error>
        ensures ok { (m : ReadMessage) → message_of message.now ≡ Some m → IfOk result (λ rest. Interprets self.old m rest self.new) }
        ensures refused { (m : ReadMessage) → message_of message.now ≡ Some m → IfErr result (λ e. Refuses self.old m e) }
        // So it is with any octets whose answer section can be reached, whatever stands after that.
        ensures sections_ok { (answers_start message.now ≡ None → ⊥) → IfOk result (λ rest. Interprets self.old (sections_here message.now) rest self.new) }
        ensures sections_refused { (answers_start message.now ≡ None → ⊥) → IfErr result (λ e. Refuses self.old (sections_here message.now) e) }
        ensures unreached { answers_start message.now ≡ None → result ≡ Err (unreached self.old message.now) }
        ensures over { is_over self.old ≡ true → result ≡ Err Finished }
        ensures err { OnErr result (self.new ≡ self.old) }
    {
        if self.is_finished() {
            return Err(Error::Finished);
        }
        let (updates, behind, has_signalled) = taken(&self.place, message)?;
        self.has_signalled = has_signalled;
        self.place = Some(behind);
        Ok(updates)
    }
}

// A message: its updates, the place after it, and whether it asks for another way of transfer.
fn taken<'m>(
    place: &Option<Place>,
    message: &'m MessageBuf,
) -> Result<(XfrZoneUpdateIterator<'m>, Place, bool), Error>
    ensures read { (m : ReadMessage) → IsReadAs message.now m → TakenOr (is_none place.now) (interpreting_of place.now false).place m result }
    ensures unreached { answers_start message.now ≡ None → result ≡ Err (unreached_fault (is_none place.now) message.now) }
{
    match place {
        None => begin(message),
        Some(place) => go_on(place, message),
    }
}

// A first message.
fn begin<'m>(message: &'m MessageBuf) -> Result<(XfrZoneUpdateIterator<'m>, Place, bool), Error>
    ensures read { (m : ReadMessage) → IsReadAs message.now m → TakenOr true AtStart m result }
    ensures unreached { answers_start message.now ≡ None → result ≡ Err (unreached_fault true message.now) }
{
    let place = first_place(message)?;
    let ahead = behind_first(message)?;
    let (behind, has_bad) = run_over(place.duplicate(), ahead);
    let section = behind_first(message)?;
    let in_hand = first_told(&place);
    let has_signalled = asks_again(&behind, has_bad);
    let updates = XfrZoneUpdateIterator::new(section, place, in_hand, true);
    Ok((updates, behind, has_signalled))
}

// A later message.
fn go_on<'m>(
    place: &Place,
    message: &'m MessageBuf,
) -> Result<(XfrZoneUpdateIterator<'m>, Place, bool), Error>
    ensures read { (m : ReadMessage) → IsReadAs message.now m → TakenOr false (place_of place.now) m result }
    ensures unreached { answers_start message.now ≡ None → result ≡ Err (unreached_fault false message.now) }
{
    if !is_transfer_head(message, false) {
        return Err(Error::NotValidXfrResponse);
    }
    let ahead = answers(message)?;
    let (behind, _) = run_over(place.duplicate(), ahead);
    let section = answers(message)?;
    let updates = XfrZoneUpdateIterator::new(section, place.duplicate(), None, false);
    Ok((updates, behind, false))
}

// What the first record says: a whole zone begins by deleting all.
fn first_told<'m>(place: &Place) -> Option<ZoneUpdate<ReadRecord<'m>>>
    ensures { updates_in_hand result ≡ told_first (place_of place.now) }
{
    if place.is_second() {
        None
    } else {
        Some(ZoneUpdate::DeleteAllRecords)
    }
}

// Whether a first message that leads there asks for another way of transfer.
fn asks_again(behind: &Place, has_bad: bool) -> bool
    ensures { result ≡ (is_at_second (place_of behind.now) && not has_bad) }
{
    behind.is_second() && !has_bad
}

// The answer section.
#[tactic(auto, using(crate::proofs::Sections::items_begin, crate::proofs::Sections::items_are))]
fn answers(message: &MessageBuf) -> Result<RecordSection<'_>, Error>
    ensures read { (m : ReadMessage) → IsReadAs message.now m → IsOkAnd result (λ s. items_left s ≡ map record_item m.answers) }
    ensures unreached { answers_start message.now ≡ None → result ≡ Err ParseError }
{
    match message.answer() {
        Ok(section) => Ok(section),
        Err(_) => Err(Error::ParseError),
    }
}

// The answer section after its first record.
fn behind_first(message: &MessageBuf) -> Result<RecordSection<'_>, Error>
    ensures { (m : ReadMessage) (x : Option Record) (xs : List (Option Record)) → IsReadAs message.now m → m.answers ≡ x ∷ xs → IsOkAnd result (λ s. items_left s ≡ map record_item xs) }
{
    let mut section = answers(message)?;
    drop(next_found(&mut section));
    Ok(section)
}

// Whether a header is that of a good answer.
fn is_good_header(header: Header) -> bool
    ensures { result ≡ good_header header }
{
    header.qr && header.opcode == Opcode::QUERY && !header.tc && header.rcode == Rcode::NOERROR
}

// Whether the sections have as many items as those of a transfer's reply: a first one has one question, a later one
// at most one (RFC 5936, 2.2).
fn has_good_counts(counts: HeaderCounts, is_first: bool) -> bool
    ensures { result ≡ good_counts is_first counts.qdcount counts.ancount counts.nscount }
{
    counts.ancount != 0
        && counts.nscount == 0
        && if is_first {
            counts.qdcount == 1
        } else {
            counts.qdcount <= 1
        }
}

// Whether header and counts are those of a transfer's reply.
#[tactic(auto, using(crate::proofs::MessageParts::head_refused, crate::proofs::MessageParts::head_counted))]
fn is_transfer_head(message: &MessageBuf, is_first: bool) -> bool
    ensures read { (m : ReadMessage) → IsReadAs message.now m → result ≡ is_transfer_head is_first m }
    ensures octets { result ≡ good_head is_first message.now }
{
    if !is_good_header(message.header()) {
        return false;
    }
    has_good_counts(message.counts(), is_first)
}

// Where a first message stands after its first record.
fn first_place(message: &MessageBuf) -> Result<Place, Error>
    ensures read { (m : ReadMessage) → IsReadAs message.now m → BeginsAt m result }
    ensures unreached { answers_start message.now ≡ None → result ≡ Err (unreached_fault true message.now) }
{
    if !is_transfer_head(message, true) {
        return Err(Error::NotValidXfrResponse);
    }
    let mut section = answers(message)?;
    let asks_changes = asks_changes(message)?;
    match next_found(&mut section) {
        Some(Ok(found)) => {
            let place = place_at(asks_changes, &found);
            drop(found);
            place
        }
        Some(Err(_)) => Err(Error::Malformed),
        None => Err(Error::NotValidXfrResponse),
    }
}

// Where the first record leads.
fn place_at(asks_changes: bool, found: &ReadRecord<'_>) -> Result<Place, Error>
    ensures { IsPlaceAt asks_changes found.now result }
{
    match first_soa(found) {
        None => Err(Error::NotValidXfrResponse),
        Some(first) => Ok(Place {
            stage: first_stage(asks_changes),
            first,
        }),
    }
}

// The stage after the first record: a question for changes alone may be answered in either form.
fn first_stage(asks_changes: bool) -> Stage
    ensures { (r : Record) → place_at result r ≡ (first_step (if asks_changes then Ixfr else Axfr) r).place }
{
    if asks_changes {
        Stage::AtSecond
    } else {
        Stage::InWhole
    }
}

// Whether the question asks for changes alone, where it asks for a transfer.
#[tactic(auto, using(crate::proofs::MessageParts::asked, crate::proofs::MessageParts::not_asked))]
fn asks_changes(message: &MessageBuf) -> Result<bool, Error>
    ensures { (m : ReadMessage) → IsReadAs message.now m → IsTrue (length m.questions == 1) → Asks m result }
{
    let Ok(question) = message.sole_question() else {
        return Err(Error::Malformed);
    };
    if question.qtype() == Rtype::IXFR {
        Ok(true)
    } else if question.qtype() == Rtype::AXFR {
        Ok(false)
    } else {
        Err(Error::Malformed)
    }
}

// The place after all records up to the first that can't be read, and whether there is such a one.
fn run_over(mut place: Place, mut section: RecordSection<'_>) -> (Place, bool)
    ensures place { place_of result.0 ≡ (run_items Axfr (place_of place) (items_left section.entry)).place }
    ensures bad { result.1 ≡ is_some (first_fault (items_left section.entry)) }
{
    while let Some(next) = next_found(&mut section) {
        let Ok(found) = next else {
            return (place, true);
        };
        let _ = step(&mut place, &found);
        drop(found);
    }
    (place, false)
}
