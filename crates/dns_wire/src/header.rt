// The header of a message: id, flags and counts (RFC 1035, 4.1.1; RFC 4035, 3.2 for AD and CD).

ghost use Rattle.std.specs.Prelude.{◌≡◌, ◌+◌, ◌<◌, ◌≤◌, ◌^◌, ◌++◌, drop, length, vec_len, false};
ghost use Rattle.dns_wire.specs.Wire.{header_of, header_in, header_wire, flags_word};
ghost use Rattle.dns_wire.specs.Numbers.{counts_in};
ghost use Rattle.dns_wire.specs.Reply.{answer_header};

use crate::numbers::{flag, is_set, number_at, set_number};
use dns_numbers::{Opcode, Rcode};
use std::marker::Model;

/// The id and the flags of a message, its first four octets (RFC 1035, 4.1.1). Opcode and rcode are below 16.
#[derive(Clone, Copy, Debug, PartialEq, Eq)]
pub struct Header {
    /// The id, which an answer takes over from its request.
    pub id: u16,
    /// Whether it is an answer.
    pub qr: bool,
    /// The kind of query.
    pub opcode: Opcode,
    /// Whether the answer is authoritative.
    pub aa: bool,
    /// Whether the answer was cut.
    pub tc: bool,
    /// Whether recursion is asked for.
    pub rd: bool,
    /// Whether recursion is offered.
    pub ra: bool,
    /// The reserved bit.
    pub z: bool,
    /// Whether all data are authentic (RFC 4035, 3.2.3).
    pub ad: bool,
    /// Whether checking is disabled (RFC 4035, 3.2.2).
    pub cd: bool,
    /// The result.
    pub rcode: Rcode,
}

impl Model for Header {
    ghost use Rattle.std.specs.Prelude.{◌<◌};
    ghost use Rattle.dns_wire.specs.Wire.{Header as HeaderParts};

    ghost Value = { HeaderParts };

    ghost view = { λ h. record { id = h.id; qr = h.qr; opcode = h.opcode; aa = h.aa; tc = h.tc; rd = h.rd; ra = h.ra; z = h.z; ad = h.ad; cd = h.cd; rcode = h.rcode } };

    ghost invariant = { λ h. (h.opcode < 16) × (h.rcode < 16) };

    ghost inverse = { λ h. record { id = h.id; qr = h.qr; opcode = h.opcode; aa = h.aa; tc = h.tc; rd = h.rd; ra = h.ra; z = h.z; ad = h.ad; cd = h.cd; rcode = h.rcode } };
}

impl Header {
    /// A header with that id, opcode 0 (QUERY), no flag set and rcode 0 (NOERROR).
    pub fn new(id: u16) -> Header
        ensures { result ≡ header_of id 0 }
    {
        Header::from_word(id, 0)
    }

    /// The header of an answer to a request with this one: id, opcode and RD of the request, QR set, and that rcode
    /// (RFC 1035, 4.1.1).
    pub fn answer(&self, rcode: Rcode) -> Header
        ensures { result ≡ answer_header self.now rcode }
    {
        Header {
            qr: true,
            opcode: self.opcode,
            rd: self.rd,
            rcode: Rcode::from_int(rcode.to_int()),
            ..Header::new(self.id)
        }
    }

    /// The header that an id and the number in the two octets of flags spell.
    pub(crate) fn from_word(id: u16, word: u16) -> Header
        ensures { result ≡ header_of id word }
    {
        Header {
            id,
            qr: is_set(word, 15),
            opcode: Opcode::from_int((word / 2048 % 16) as u8),
            aa: is_set(word, 10),
            tc: is_set(word, 9),
            rd: is_set(word, 8),
            ra: is_set(word, 7),
            z: is_set(word, 6),
            ad: is_set(word, 5),
            cd: is_set(word, 4),
            rcode: Rcode::from_int((word % 16) as u8),
        }
    }

    /// The number in the two octets of flags, after the id (RFC 1035, 4.1.1; RFC 4035, 3.2 for AD and CD).
    pub fn to_word(&self) -> u16
        ensures { result ≡ flags_word self.now }
    {
        let high = flag(15, self.qr) + u16::from(self.opcode.to_int()) * 2048;
        let middle = flag(10, self.aa) + flag(9, self.tc) + flag(8, self.rd) + flag(7, self.ra);
        let low = flag(6, self.z) + flag(5, self.ad) + flag(4, self.cd);
        high + middle + low + u16::from(self.rcode.to_int())
    }
}

/// How many items the four sections of a message have (RFC 1035, 4.1.1).
#[derive(Clone, Copy, Debug, PartialEq, Eq)]
pub struct HeaderCounts {
    /// Questions.
    pub qdcount: u16,
    /// Answer records.
    pub ancount: u16,
    /// Authority records.
    pub nscount: u16,
    /// Additional records.
    pub arcount: u16,
}

impl Model for HeaderCounts {
    ghost use Rattle.dns_wire.specs.Wire.{Counts};

    ghost Value = { Counts };

    ghost view = { λ c. record { qdcount = c.qdcount; ancount = c.ancount; nscount = c.nscount; arcount = c.arcount } };

    ghost inverse = { λ c. record { qdcount = c.qdcount; ancount = c.ancount; nscount = c.nscount; arcount = c.arcount } };
}

/// The header of octets that are at least a header.
pub(crate) fn header_from(octets: &[u8]) -> Header
    requires { 12 ≤ length octets.now }
    ensures { result ≡ header_in octets.now }
{
    Header::from_word(number_at(octets, 0), number_at(octets, 2))
}

/// Writes id and flags, the first four octets; the others stay as they were.
pub fn write_header(octets: &mut Vec<u8>, header: Header)
    requires { 4 ≤ vec_len octets.old }
    ensures after { octets.new.items ≡ header_wire header ++ drop 4 octets.old.items }
    ensures read { header_in octets.new.items ≡ header }
{
    set_number(octets, 0, header.id);
    set_number(octets, 2, header.to_word());
}

/// The counts of octets that are at least a header.
pub(crate) fn counts_from(octets: &[u8]) -> HeaderCounts
    requires { 12 ≤ length octets.now }
    ensures { result ≡ counts_in octets.now }
{
    HeaderCounts {
        qdcount: number_at(octets, 4),
        ancount: number_at(octets, 6),
        nscount: number_at(octets, 8),
        arcount: number_at(octets, 10),
    }
}
