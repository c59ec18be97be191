// Data of types that aren't known.
ghost use Rattle.std.specs.Prelude.{◌≡◌, ◌≤◌, ◌<◌, ◌+◌, IfOk, OnErr, IsTrue, Some, None, length, not};
ghost use Rattle.dns_name.specs.Records.{fields_at, is_known_type, parts};
ghost use Rattle.dns_rdata.specs.OctetFields.{unknown_fields};

use crate::octets::{LongRecordData, rest_of, store};
use crate::record_data::RecordData;
use bytes::Bytes;
use dns_name::ParseError;
use dns_numbers::Rtype;
use std::alloc::{AllocError, Global};
use std::convert::AsSlice;
use std::marker::Model;

/// Data of a type that isn't known, as they are sent: at most 65,535 octets, in which no pointer is followed (RFC 3597, 3).
#[derive(Debug, Drop)]
pub struct UnknownRecordData<O: AsSlice<u8> + Drop> {
    rtype: Rtype,
    octets: O,
}

impl<O: AsSlice<u8> + Drop> Model for UnknownRecordData<O> {
    ghost use Rattle.std.specs.Prelude.{◌<◌, IsTrue, length, not};
    ghost use Rattle.dns_rdata.specs.DataValues.{UnknownValue};
    ghost use Rattle.dns_name.specs.Records.{is_known_type};

    ghost Value = { UnknownValue };

    ghost view = { λ d. record { rtype = d.rtype; octets = O.items d.octets } };

    ghost invariant = { λ d. IsTrue (not (is_known_type d.rtype)) × (length (O.items d.octets) < 65536) };
}

/// Whether data of this type are read piece by piece, so that they are no `UnknownRecordData`.
pub fn is_known_type(rtype: Rtype) -> bool
    ensures { result ≡ is_known_type rtype }
{
    matches!(
        rtype.to_int(),
        1 | 2 | 3 | 4 | 5 | 6 | 7 | 8 | 9 | 12 | 14 | 15 | 16 | 28 | 33 | 43
    )
}

impl<O: AsSlice<u8> + Drop> UnknownRecordData<O> {
    /// The data of this type with these octets. Refused exactly above 65,535 octets. The type must not be a known one, as `is_known_type` tells.
    pub fn new(rtype: Rtype, octets: O) -> Result<UnknownRecordData<O>, LongRecordData>
        requires { IsTrue (not (is_known_type rtype)) }
        ensures ok { IfOk result (λ d. d ≡ record { rtype = rtype; octets = O.items octets }) }
        ensures fits { IfOk result (λ d. length (O.items octets) < 65536) }
        ensures err { OnErr result (65536 ≤ length (O.items octets)) }
    {
        if octets.as_slice().len() > 65535 {
            return Err(LongRecordData);
        }
        Ok(UnknownRecordData { rtype, octets })
    }

    /// The octets of the data.
    pub fn as_slice(&self) -> &[u8]
        ensures octets { result.now ≡ self.now.octets }
        ensures bound { length result.now < 65536 }
    {
        self.octets.as_slice()
    }

    /// The same data in memory of their own.
    pub fn flatten(&self, alloc: Global) -> Result<UnknownRecordData<Bytes>, AllocError>
        ensures { IfOk result (λ d. d ≡ self.now) }
    {
        Ok(UnknownRecordData {
            rtype: self.rtype,
            octets: store(alloc, self.octets.as_slice())?,
        })
    }
}

impl<'m> UnknownRecordData<&'m [u8]> {
    /// The data in the `len` octets at place `pos` of a message; an error where the message ends before. The type must not be a known one,
    /// as `is_known_type` tells.
    #[tactic(auto, unfolding(dns_name::specs::Records::fields_at))]
    pub fn parse(
        rtype: Rtype,
        message: &'m [u8],
        pos: usize,
        len: u16,
    ) -> Result<UnknownRecordData<&'m [u8]>, ParseError>
        requires { IsTrue (not (is_known_type rtype)) }
        ensures rtype { IfOk result (λ d. d.rtype ≡ rtype) }
        ensures found { IfOk result (λ d. fields_at (parts rtype) message.now (pos + len) pos ≡ Some (unknown_fields d)) }
        ensures none { OnErr result (fields_at (parts rtype) message.now (pos + len) pos ≡ None) }
    {
        Ok(UnknownRecordData {
            rtype,
            octets: rest_of(message, pos, len)?,
        })
    }
}

impl<O: AsSlice<u8> + Drop> RecordData for UnknownRecordData<O> {
    ghost rtype = { λ d. d.rtype };

    ghost fields = { unknown_fields };

    fn rtype(&self) -> Rtype {
        self.rtype
    }

    fn rdlen(&self) -> u16 {
        self.octets.as_slice().len() as u16
    }

    fn compose_rdata(&self, out: &mut Vec<u8>) -> Result<(), AllocError> {
        out.extend_from_slice(self.octets.as_slice())
    }
}

impl Clone for UnknownRecordData<Bytes> {
    ghost is_clone = { λ d copy. copy ≡ d };

    fn clone(&self) -> Result<UnknownRecordData<Bytes>, AllocError> {
        Ok(UnknownRecordData {
            rtype: self.rtype,
            octets: self.octets.clone()?,
        })
    }
}
