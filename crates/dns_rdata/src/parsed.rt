// Records as they are read: first the head by RDLENGTH alone, then the data.
ghost use Rattle.std.specs.Prelude.{◌≡◌, ◌≤◌, ◌+◌, IfOk, OnErr, Some, None, length, slice_range};
ghost use Rattle.dns_rdata.specs.Heads.{raw_record_at, readable, record_in};

use crate::record::{ReadRecord, Record};
use crate::zone_data::ParsedRecordData;
use dns_name::{ParseError, ParsedName, parse_octets, parse_u16, parse_u32};
use dns_numbers::{Class, Rtype, Ttl};
use std::marker::Model;

/// A record within a message of which only the head was read; the data lie where RDLENGTH says (RFC 1035, 3.2.1 and 4.1.3).
#[derive(Drop)]
pub struct ParsedRecord<'m> {
    message: &'m [u8],
    start: usize,
    owner: ParsedName<'m>,
    rtype: Rtype,
    class: Class,
    ttl: Ttl,
    rdata: usize,
    rdlength: u16,
}

impl<'m> Model for ParsedRecord<'m> {
    ghost use Rattle.std.specs.Prelude.{◌≡◌, ◌≤◌, ◌+◌, Some, length};
    ghost use Rattle.dns_rdata.specs.Heads.{RecordIn, raw_record_at};

    ghost Value = { RecordIn };

    ghost view = { λ r. record { message = r.message.now; raw = record { start = r.start; owner = r.owner; rtype = r.rtype; class = r.class; ttl = r.ttl; rdata = r.rdata; rdlength = r.rdlength } } };

    ghost invariant = { λ r. (raw_record_at r.message.now r.start ≡ Some (record { start = r.start; owner = r.owner; rtype = r.rtype; class = r.class; ttl = r.ttl; rdata = r.rdata; rdlength = r.rdlength }, r.rdata + r.rdlength)) × (r.rdata + r.rdlength ≤ length r.message.now) };
}

impl<'m> ParsedRecord<'m> {
    /// The record at place `pos` of a message, by RDLENGTH alone, and the place after it; the data are not looked at.
    #[tactic(auto, unfolding(crate::specs::Heads::raw_record_at))]
    pub fn parse(message: &'m [u8], pos: usize) -> Result<(ParsedRecord<'m>, usize), ParseError>
        ensures lies { IfOk result (λ r. r.0.message ≡ message.now) }
        ensures found { IfOk result (λ r. raw_record_at message.now pos ≡ Some (r.0.raw, r.1)) }
        ensures none { OnErr result (raw_record_at message.now pos ≡ None) }
        ensures inside { IfOk result (λ r. r.1 ≤ length message.now) }
    {
        let (owner, place) = ParsedName::parse(message, pos)?;
        let (rtype, place) = parse_u16(message, place)?;
        let (class, place) = parse_u16(message, place)?;
        let (ttl, place) = parse_u32(message, place)?;
        let (rdlength, rdata) = parse_u16(message, place)?;
        let (_, after) = parse_octets(message, rdata, usize::from(rdlength))?;
        let parsed = ParsedRecord {
            message,
            start: pos,
            owner,
            rtype: Rtype::from_int(rtype),
            class: Class::from_int(class),
            ttl: Ttl::from_int(ttl),
            rdata,
            rdlength,
        };
        Ok((parsed, after))
    }

    /// The message that the record lies in.
    pub fn message(&self) -> &'m [u8]
        ensures { result.now ≡ self.now.message }
    {
        self.message
    }

    /// The place of the record's first octet.
    pub fn start(&self) -> usize
        ensures { result ≡ self.now.raw.start }
    {
        self.start
    }

    /// The name that the record stands at.
    pub fn owner(&self) -> ParsedName<'m>
        ensures { result ≡ self.now.raw.owner }
    {
        self.owner.duplicate()
    }

    /// The type of the data.
    pub fn rtype(&self) -> Rtype
        ensures { result ≡ self.now.raw.rtype }
    {
        self.rtype
    }

    /// The class.
    pub fn class(&self) -> Class
        ensures { result ≡ self.now.raw.class }
    {
        self.class
    }

    /// For how many seconds the record may be kept.
    pub fn ttl(&self) -> Ttl
        ensures { result ≡ self.now.raw.ttl }
    {
        self.ttl
    }

    /// The place of the first octet of the data.
    pub fn rdata(&self) -> usize
        ensures { result ≡ self.now.raw.rdata }
    {
        self.rdata
    }

    /// How many octets the data have.
    pub fn rdlength(&self) -> u16
        ensures { result ≡ self.now.raw.rdlength }
    {
        self.rdlength
    }

    /// The octets of the data, as they stand in the message.
    pub fn rdata_octets(&self) -> &'m [u8]
        ensures octets { result.now ≡ slice_range self.now.message self.now.raw.rdata (self.now.raw.rdata + self.now.raw.rdlength) }
        ensures inside { self.now.raw.rdata + self.now.raw.rdlength ≤ length self.now.message }
    {
        let message = self.message;
        &message[self.rdata..self.rdata + usize::from(self.rdlength)]
    }

    /// The record with its data. An error where the data don't have the pieces of the type or don't fill RDLENGTH.
    pub fn to_record(&self) -> Result<ReadRecord<'m>, ParseError>
        ensures found { IfOk result (λ r. readable self.now.message self.now.raw ≡ Some r) }
        ensures none { OnErr result (readable self.now.message self.now.raw ≡ None) }
    {
        let fields = ParsedRecordData::parse(self.rtype, self.message, self.rdata, self.rdlength)?;
        Ok(Record::new(self.owner.duplicate(), self.class, self.ttl, fields))
    }
}

/// The record that the octets spell, all of them and without a pointer. An error where they spell none.
pub fn record_from_octets(octets: &[u8]) -> Result<ReadRecord<'_>, ParseError>
    ensures found { IfOk result (λ r. record_in octets.now ≡ Some r) }
    ensures none { OnErr result (record_in octets.now ≡ None) }
{
    let (head, _) = ParsedRecord::parse(octets, 0)?;
    let record = head.to_record()?;
    if record.is_spelled(octets) {
        Ok(record)
    } else {
        Err(ParseError)
    }
}
