// Digests of keys.
ghost use Rattle.std.specs.Prelude.{◌≡◌, ◌≤◌, ◌<◌, ◌+◌, ◌++◌, IfOk, OnOk, OnErr, Some, None, length};
ghost use Rattle.dns_name.specs.Records.{fields_at, parts};
ghost use Rattle.dns_name.specs.LentFields.{fields_in};
ghost use Rattle.dns_rdata.specs.OctetFields.{ds_fields, ds_head};

use crate::octets::{LongRecordData, rest_of, store};
use crate::record_data::RecordData;
use bytes::Bytes;
use dns_name::{Labelled, LentField, LentFields, Numbers, ParseError, StoredName};
use dns_numbers::Rtype;
use std::alloc::{AllocError, Global};
use std::convert::AsSlice;
use std::marker::Model;

/// The digest of a key of the zone below (DS; RFC 4034, 5.1), at most 65,531 octets of it.
#[derive(Debug, Drop)]
pub struct Ds<O: AsSlice<u8> + Drop> {
    key_tag: u16,
    algorithm: u8,
    digest_type: u8,
    digest: O,
}

impl<O: AsSlice<u8> + Drop> Model for Ds<O> {
    ghost use Rattle.std.specs.Prelude.{◌<◌, ◌^◌, length};
    ghost use Rattle.dns_rdata.specs.DataValues.{DsValue};

    ghost Value = { DsValue };

    ghost view = { λ d. record { key_tag = d.key_tag; algorithm = d.algorithm; digest_type = d.digest_type; digest = O.items d.digest } };

    ghost invariant = { λ d. length (O.items d.digest) < 65532 };
}

impl<O: AsSlice<u8> + Drop> Ds<O> {
    /// The data of this key tag, algorithm, digest type and digest. Refused exactly where they have more than 65,535 octets, four of which
    /// stand before the digest.
    pub fn new(
        key_tag: u16,
        algorithm: u8,
        digest_type: u8,
        digest: O,
    ) -> Result<Ds<O>, LongRecordData>
        ensures ok { IfOk result (λ d. d ≡ record { key_tag = key_tag; algorithm = algorithm; digest_type = digest_type; digest = O.items digest }) }
        ensures fits { OnOk result (length (O.items digest) + 4 < 65536) }
        ensures err { OnErr result (65536 ≤ length (O.items digest) + 4) }
    {
        if digest.as_slice().len() > 65531 {
            return Err(LongRecordData);
        }
        Ok(Ds {
            key_tag,
            algorithm,
            digest_type,
            digest,
        })
    }

    /// The key tag, by which the key is found (RFC 4034, 5.1.1).
    pub fn key_tag(&self) -> u16
        ensures { result ≡ self.now.key_tag }
    {
        self.key_tag
    }

    /// The key's algorithm (RFC 4034, 5.1.2).
    pub fn algorithm(&self) -> u8
        ensures { result ≡ self.now.algorithm }
    {
        self.algorithm
    }

    /// The algorithm of the digest (RFC 4034, 5.1.3).
    pub fn digest_type(&self) -> u8
        ensures { result ≡ self.now.digest_type }
    {
        self.digest_type
    }

    /// The digest (RFC 4034, 5.1.4).
    pub fn digest(&self) -> &[u8]
        ensures { result.now ≡ self.now.digest }
    {
        self.digest.as_slice()
    }

    /// Key tag, algorithm and digest type in four octets, as they are sent.
    #[tactic(auto, unfolding(crate::specs::OctetFields::ds_head))]
    fn head(&self) -> [u8; 4]
        ensures { result ≡ ds_head self.now }
    {
        let [a, b] = self.key_tag.to_be_bytes();
        [a, b, self.algorithm, self.digest_type]
    }

    /// The data as fields, lent; there is no name.
    pub fn lent_fields<N: Labelled>(&self) -> LentFields<'_, N>
        ensures { fields_in N.labels result ≡ ds_fields self.now }
    {
        LentFields::One(LentField::Octets(Numbers::Four(self.head()), self.digest.as_slice()))
    }

    /// The same data in memory of their own.
    pub fn flatten(&self, alloc: Global) -> Result<Ds<Bytes>, AllocError>
        ensures { IfOk result (λ d. d ≡ self.now) }
    {
        Ok(Ds {
            key_tag: self.key_tag,
            algorithm: self.algorithm,
            digest_type: self.digest_type,
            digest: store(alloc, self.digest.as_slice())?,
        })
    }
}

impl<'m> Ds<&'m [u8]> {
    /// The data in the `len` octets at place `pos` of a message; an error where those are fewer than four or the message ends before.
    #[tactic(auto, unfolding(dns_name::specs::Records::fields_at))]
    pub fn parse(message: &'m [u8], pos: usize, len: u16) -> Result<Ds<&'m [u8]>, ParseError>
        ensures found { IfOk result (λ d. fields_at (parts 43) message.now (pos + len) pos ≡ Some (ds_fields d)) }
        ensures none { OnErr result (fields_at (parts 43) message.now (pos + len) pos ≡ None) }
    {
        let octets = rest_of(message, pos, len)?;
        if octets.len() < 4 {
            return Err(ParseError);
        }
        Ok(Ds::of_octets(octets))
    }

    /// The data of at least four octets.
    #[tactic(auto, unfolding(crate::specs::OctetFields::ds_head))]
    fn of_octets(octets: &'m [u8]) -> Ds<&'m [u8]>
        requires head { 4 ≤ length octets.now }
        requires fits { length octets.now < 65536 }
        ensures { ds_head result ++ result.digest ≡ octets.now }
    {
        let (head, digest) = octets.split_at(4);
        Ds {
            key_tag: u16::from_be_bytes([head[0], head[1]]),
            algorithm: head[2],
            digest_type: head[3],
            digest,
        }
    }
}

impl<O: AsSlice<u8> + Drop> RecordData for Ds<O> {
    ghost rtype = { λ d. 43 };

    ghost fields = { ds_fields };

    fn rtype(&self) -> Rtype {
        Rtype::DS
    }

    #[tactic(auto, unfolding(crate::specs::OctetFields::ds_head))]
    fn rdlen(&self) -> u16 {
        4 + self.digest.as_slice().len() as u16
    }

    fn compose_rdata(&self, out: &mut Vec<u8>) -> Result<(), AllocError> {
        self.lent_fields::<StoredName>().compose(out)
    }
}

impl Clone for Ds<Bytes> {
    ghost is_clone = { λ d copy. copy ≡ d };

    fn clone(&self) -> Result<Ds<Bytes>, AllocError> {
        Ok(Ds {
            key_tag: self.key_tag,
            algorithm: self.algorithm,
            digest_type: self.digest_type,
            digest: self.digest.clone()?,
        })
    }
}
