// Addresses.
ghost use Rattle.std.specs.Prelude.{◌≡◌, ◌+◌, IfOk, OnErr, Some, None};
ghost use Rattle.dns_name.specs.Records.{fields_at, parts};
ghost use Rattle.dns_rdata.specs.OctetFields.{a_fields, aaaa_fields};

use crate::record_data::{RecordData, ends_at};
use dns_name::{ParseError, parse_octets};
use dns_numbers::Rtype;
use std::alloc::AllocError;

/// An address of the Internet, in four octets as they are sent (A; RFC 1035, 3.4.1).
#[derive(Clone, Copy, Debug, PartialEq, Eq)]
pub struct A {
    pub octets: [u8; 4],
}

impl A {
    /// The data of these four octets, as they are sent.
    pub fn new(octets: [u8; 4]) -> A
        ensures { result.octets ≡ octets }
    {
        A { octets }
    }

    /// The address in the `len` octets at place `pos` of a message, which are exactly four; else an error.
    #[tactic(auto, unfolding(dns_name::specs::Records::fields_at))]
    pub fn parse(message: &[u8], pos: usize, len: u16) -> Result<A, ParseError>
        ensures found { IfOk result (λ a. fields_at (parts 1) message.now (pos + len) pos ≡ Some (a_fields a)) }
        ensures none { OnErr result (fields_at (parts 1) message.now (pos + len) pos ≡ None) }
    {
        let (found, after) = parse_octets(message, pos, 4)?;
        if !ends_at(pos, len, after) {
            return Err(ParseError);
        }
        let mut octets = [0; 4];
        octets.copy_from_slice(found);
        Ok(A { octets })
    }

    /// The four octets, as they are sent.
    pub fn octets(&self) -> [u8; 4]
        ensures { result ≡ self.now.octets }
    {
        self.octets
    }
}

impl RecordData for A {
    ghost rtype = { λ a. 1 };

    ghost fields = { a_fields };

    fn rtype(&self) -> Rtype {
        Rtype::A
    }

    fn rdlen(&self) -> u16 {
        4
    }

    fn compose_rdata(&self, out: &mut Vec<u8>) -> Result<(), AllocError> {
        out.extend_from_slice(&self.octets)
    }
}

/// An address of the Internet, in sixteen octets as they are sent (AAAA; RFC 3596, 2.2).
#[derive(Clone, Copy, Debug, PartialEq, Eq)]
pub struct Aaaa {
    pub octets: [u8; 16],
}

impl Aaaa {
    /// The data of these sixteen octets, as they are sent.
    pub fn new(octets: [u8; 16]) -> Aaaa
        ensures { result.octets ≡ octets }
    {
        Aaaa { octets }
    }

    /// The address in the `len` octets at place `pos` of a message, which are exactly sixteen; else an error.
    #[tactic(auto, unfolding(dns_name::specs::Records::fields_at))]
    pub fn parse(message: &[u8], pos: usize, len: u16) -> Result<Aaaa, ParseError>
        ensures found { IfOk result (λ a. fields_at (parts 28) message.now (pos + len) pos ≡ Some (aaaa_fields a)) }
        ensures none { OnErr result (fields_at (parts 28) message.now (pos + len) pos ≡ None) }
    {
        let (found, after) = parse_octets(message, pos, 16)?;
        if !ends_at(pos, len, after) {
            return Err(ParseError);
        }
        let mut octets = [0; 16];
        octets.copy_from_slice(found);
        Ok(Aaaa { octets })
    }

    /// The sixteen octets, as they are sent.
    pub fn octets(&self) -> [u8; 16]
        ensures { result ≡ self.now.octets }
    {
        self.octets
    }
}

impl RecordData for Aaaa {
    ghost rtype = { λ a. 28 };

    ghost fields = { aaaa_fields };

    fn rtype(&self) -> Rtype {
        Rtype::AAAA
    }

    fn rdlen(&self) -> u16 {
        16
    }

    fn compose_rdata(&self, out: &mut Vec<u8>) -> Result<(), AllocError> {
        out.extend_from_slice(&self.octets)
    }
}
