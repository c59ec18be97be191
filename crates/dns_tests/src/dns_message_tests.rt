// Messages read: octets that aren't messages, sections and where they end.

use crate::common::{composed, is, prints};
use dns_numbers::{Rcode, Rtype};
use dns_rdata::ParsedRecord;
use dns_wire::{Message, MessageBuf, RecordSection, ShortMessage};
use std::alloc::Global;
use std::process::Abort;

/// The next record of a section, which has one that can be read.
fn next<'m, R: Abort>(rt: &R, section: &mut RecordSection<'m>) -> ParsedRecord<'m> {
    section
        .next_record()
        .expect(rt, "a record")
        .expect(rt, "no error")
}

#[test]
fn eleven_octets(rt: HostRuntime) {
    let octets = vec![in rt.alloc(); 0; 11].expect(&rt, "memory");
    let truths = [
        Message::from_octets(&[0; 11]).is_err(),
        Message::from_octets(&[0; 12]).is_ok(),
        MessageBuf::from_octets(octets).is_err(),
    ];
    is(&rt, truths, [true; 3]);
    prints(&rt, rt.alloc(), &ShortMessage, "fewer than 12 octets");
}

/// A message of these octets.
fn message<R: Abort>(rt: &R, alloc: Global, octets: &[u8]) -> MessageBuf {
    let octets = octets.to_vec(alloc).expect(rt, "memory");
    MessageBuf::from_octets(octets).expect(rt, "a header")
}

/// Two answer records are announced, and a whole one and the half of one are there.
const HALF_A_RECORD: &[u8] = b"\x00\x00\x80\x00\x00\x00\x00\x02\x00\x00\x00\x00\
\x00\x00\x01\x00\x01\x00\x00\x0e\x10\x00\x04\xc0\x00\x02\x01\
\x00\x00\x01\x00\x01";

#[test]
fn sections_end_at_an_error(rt: HostRuntime) {
    let message = message(&rt, rt.alloc(), HALF_A_RECORD);
    let mut section = message.answer().expect(&rt, "a section");
    let first = next(&rt, &mut section);
    let second = section.next_record().expect(&rt, "an error");
    let truths = [
        first.rtype() == Rtype::A,
        second.is_err(),
        section.next_record().is_none(),
        message.authority().is_err(),
        message.sole_question().is_err(),
        message.as_message().question().count() == 0,
    ];
    is(&rt, truths, [true; 6]);
    drop(message);
}

/// A question for `e`, an answer record whose owner points to it, and two octets after the last counted item.
const COMPRESSED: &[u8] = b"\x00\x07\x80\x00\x00\x01\x00\x01\x00\x00\x00\x00\
\x01e\x00\x00\x01\x00\x01\
\xc0\x0c\x00\x01\x00\x01\x00\x00\x0e\x10\x00\x04\xc0\x00\x02\x01\
\xff\xff";

#[test]
fn owner_points_to_the_question(rt: HostRuntime) {
    let message = message(&rt, rt.alloc(), COMPRESSED);
    let mut section = message.answer().expect(&rt, "a section");
    let record = next(&rt, &mut section);
    let spelled = composed(&rt, rt.alloc(), &record.owner());
    is(&rt, spelled.as_slice(), b"\x01e\x00".as_slice());
    drop(message);
}

#[test]
fn octets_behind_are_unread(rt: HostRuntime) {
    let message = message(&rt, rt.alloc(), COMPRESSED);
    let end = message.end().expect(&rt, "a message");
    let found = (message.as_slice().len(), end);
    is(&rt, found, (37, 35));
    drop(message);
}

#[test]
fn header_written_over(rt: HostRuntime) {
    let mut message = message(
        &rt,
        rt.alloc(),
        b"\x00\x07\x01\x20\x00\x00\x00\x00\x00\x00\x00\x01\xff",
    );
    let mut header = message.header();
    header.id = 1000;
    header.qr = true;
    header.rcode = Rcode::REFUSED;
    message.set_header(header);
    let due = *b"\x03\xe8\x81\x25\x00\x00\x00\x00\x00\x00\x00\x01\xff";
    is(&rt, message.as_slice(), due.as_slice());
    drop(message);
}
