// The data of a record of any type.
ghost use Rattle.std.specs.Prelude.{◌≡◌, ◌+◌, IfOk, OnErr, Some, None};
ghost use Rattle.std.specs.Str.{bytes_eq};
ghost use Rattle.dns_name.specs.Records.{data_wire, fields_at, parts};
ghost use Rattle.dns_name.specs.LentFields.{fields_in};
ghost use Rattle.dns_rdata.specs.ZoneData.{rtype_of, fields_of, data_fields, same_zone_data};

use crate::addresses::{A, Aaaa};
use crate::ds::Ds;
use crate::mail::{Minfo, Mx};
use crate::names::{Cname, Mb, Md, Mf, Mg, Mr, Ns, Ptr};
use crate::record_data::RecordData;
use crate::soa::Soa;
use crate::spelling::are_fields;
use crate::srv::Srv;
use crate::text::Txt;
use crate::unknown::{UnknownRecordData, is_known_type};
use bytes::Bytes;
use dns_name::{Labelled, LentFields, ParseError, ParsedName, StoredName, ToName};
use dns_numbers::Rtype;
use std::alloc::{AllocError, Global};
use std::convert::AsSlice;

/// Data of any type: of a known one piece by piece, and of any other as octets (RFC 1035, 3.3; RFC 3597, 3).
#[derive(Debug, Drop)]
pub enum ZoneRecordData<O: AsSlice<u8> + Drop, N: Labelled + Drop> {
    A(A),
    Aaaa(Aaaa),
    Ns(Ns<N>),
    Md(Md<N>),
    Mf(Mf<N>),
    Mb(Mb<N>),
    Mg(Mg<N>),
    Mr(Mr<N>),
    Cname(Cname<N>),
    Ptr(Ptr<N>),
    Minfo(Minfo<N>),
    Mx(Mx<N>),
    Srv(Srv<N>),
    Soa(Soa<N>),
    Txt(Txt<O>),
    Ds(Ds<O>),
    Unknown(UnknownRecordData<O>),
}

/// Data in memory of their own.
pub type StoredRecordData = ZoneRecordData<Bytes, StoredName>;

/// Data within a message.
pub type ParsedRecordData<'m> = ZoneRecordData<&'m [u8], ParsedName<'m>>;

impl<O: AsSlice<u8> + Drop, N: Labelled + Drop> RecordData for ZoneRecordData<O, N> {
    ghost rtype = { rtype_of };

    ghost fields = { fields_of N.labels };

    fn rtype(&self) -> Rtype {
        match self {
            ZoneRecordData::A(d) => d.rtype(),
            ZoneRecordData::Aaaa(d) => d.rtype(),
            ZoneRecordData::Ns(d) => d.rtype(),
            ZoneRecordData::Md(d) => d.rtype(),
            ZoneRecordData::Mf(d) => d.rtype(),
            ZoneRecordData::Mb(d) => d.rtype(),
            ZoneRecordData::Mg(d) => d.rtype(),
            ZoneRecordData::Mr(d) => d.rtype(),
            ZoneRecordData::Cname(d) => d.rtype(),
            ZoneRecordData::Ptr(d) => d.rtype(),
            ZoneRecordData::Minfo(d) => d.rtype(),
            ZoneRecordData::Mx(d) => d.rtype(),
            ZoneRecordData::Srv(d) => d.rtype(),
            ZoneRecordData::Soa(d) => d.rtype(),
            ZoneRecordData::Txt(d) => d.rtype(),
            ZoneRecordData::Ds(d) => d.rtype(),
            ZoneRecordData::Unknown(d) => d.rtype(),
        }
    }

    fn rdlen(&self) -> u16 {
        match self {
            ZoneRecordData::A(d) => d.rdlen(),
            ZoneRecordData::Aaaa(d) => d.rdlen(),
            ZoneRecordData::Ns(d) => d.rdlen(),
            ZoneRecordData::Md(d) => d.rdlen(),
            ZoneRecordData::Mf(d) => d.rdlen(),
            ZoneRecordData::Mb(d) => d.rdlen(),
            ZoneRecordData::Mg(d) => d.rdlen(),
            ZoneRecordData::Mr(d) => d.rdlen(),
            ZoneRecordData::Cname(d) => d.rdlen(),
            ZoneRecordData::Ptr(d) => d.rdlen(),
            ZoneRecordData::Minfo(d) => d.rdlen(),
            ZoneRecordData::Mx(d) => d.rdlen(),
            ZoneRecordData::Srv(d) => d.rdlen(),
            ZoneRecordData::Soa(d) => d.rdlen(),
            ZoneRecordData::Txt(d) => d.rdlen(),
            ZoneRecordData::Ds(d) => d.rdlen(),
            ZoneRecordData::Unknown(d) => d.rdlen(),
        }
    }

    fn compose_rdata(&self, out: &mut Vec<u8>) -> Result<(), AllocError> {
        self.lent_fields().compose(out)
    }
}

impl<O: AsSlice<u8> + Drop, N: Labelled + Drop> ZoneRecordData<O, N> {
    /// The data as fields, lent.
    pub(crate) fn lent_fields(&self) -> LentFields<'_, N>
        ensures { fields_in N.labels result ≡ fields_of N.labels self.now }
    {
        match self {
            ZoneRecordData::A(d) => LentFields::octets(&d.octets),
            ZoneRecordData::Aaaa(d) => LentFields::octets(&d.octets),
            ZoneRecordData::Ns(d) => LentFields::name(d.name()),
            ZoneRecordData::Md(d) => LentFields::name(d.name()),
            ZoneRecordData::Mf(d) => LentFields::name(d.name()),
            ZoneRecordData::Mb(d) => LentFields::name(d.name()),
            ZoneRecordData::Mg(d) => LentFields::name(d.name()),
            ZoneRecordData::Mr(d) => LentFields::name(d.name()),
            ZoneRecordData::Cname(d) => LentFields::name(d.name()),
            ZoneRecordData::Ptr(d) => LentFields::name(d.name()),
            ZoneRecordData::Minfo(d) => d.lent_fields(),
            ZoneRecordData::Mx(d) => d.lent_fields(),
            ZoneRecordData::Srv(d) => d.lent_fields(),
            ZoneRecordData::Soa(d) => d.lent_fields(),
            ZoneRecordData::Txt(d) => LentFields::octets(d.as_slice()),
            ZoneRecordData::Ds(d) => d.lent_fields(),
            ZoneRecordData::Unknown(d) => LentFields::octets(d.as_slice()),
        }
    }

    /// The same data in memory of their own.
    pub fn flatten(&self, alloc: Global) -> Result<StoredRecordData, AllocError>
        ensures rtype { IfOk result (λ d. rtype_of d ≡ rtype_of self.now) }
        ensures fields { IfOk result (λ d. data_fields d ≡ fields_of N.labels self.now) }
    {
        // Addresses are most of all data, and take nothing of what the other types' copies do.
        match self {
            ZoneRecordData::A(d) => Ok(ZoneRecordData::A(*d)),
            ZoneRecordData::Aaaa(d) => Ok(ZoneRecordData::Aaaa(*d)),
            _ => self.flatten_any(alloc),
        }
    }

    /// The same for data of any type.
    fn flatten_any(&self, alloc: Global) -> Result<StoredRecordData, AllocError>
        ensures rtype { IfOk result (λ d. rtype_of d ≡ rtype_of self.now) }
        ensures fields { IfOk result (λ d. data_fields d ≡ fields_of N.labels self.now) }
    {
        match self {
            ZoneRecordData::A(d) => Ok(ZoneRecordData::A(*d)),
            ZoneRecordData::Aaaa(d) => Ok(ZoneRecordData::Aaaa(*d)),
            ZoneRecordData::Ns(d) => Ok(ZoneRecordData::Ns(d.flatten(alloc)?)),
            ZoneRecordData::Md(d) => Ok(ZoneRecordData::Md(d.flatten(alloc)?)),
            ZoneRecordData::Mf(d) => Ok(ZoneRecordData::Mf(d.flatten(alloc)?)),
            ZoneRecordData::Mb(d) => Ok(ZoneRecordData::Mb(d.flatten(alloc)?)),
            ZoneRecordData::Mg(d) => Ok(ZoneRecordData::Mg(d.flatten(alloc)?)),
            ZoneRecordData::Mr(d) => Ok(ZoneRecordData::Mr(d.flatten(alloc)?)),
            ZoneRecordData::Cname(d) => Ok(ZoneRecordData::Cname(d.flatten(alloc)?)),
            ZoneRecordData::Ptr(d) => Ok(ZoneRecordData::Ptr(d.flatten(alloc)?)),
            ZoneRecordData::Minfo(d) => Ok(ZoneRecordData::Minfo(d.flatten(alloc)?)),
            ZoneRecordData::Mx(d) => Ok(ZoneRecordData::Mx(d.flatten(alloc)?)),
            ZoneRecordData::Srv(d) => Ok(ZoneRecordData::Srv(d.flatten(alloc)?)),
            ZoneRecordData::Soa(d) => Ok(ZoneRecordData::Soa(d.flatten(alloc)?)),
            ZoneRecordData::Txt(d) => Ok(ZoneRecordData::Txt(d.flatten(alloc)?)),
            ZoneRecordData::Ds(d) => Ok(ZoneRecordData::Ds(d.flatten(alloc)?)),
            ZoneRecordData::Unknown(d) => Ok(ZoneRecordData::Unknown(d.flatten(alloc)?)),
        }
    }

    /// Whether the octets are those of the data as they are sent, without RDLENGTH and without compression.
    pub fn is_spelled(&self, octets: &[u8]) -> bool
        ensures { result ≡ bytes_eq (data_wire (fields_of N.labels self.now)) octets.now }
    {
        are_fields(octets, &self.lent_fields())
    }
}

impl<O: AsSlice<u8> + Drop, N: ToName + Drop> ZoneRecordData<O, N> {
    /// Whether the data are equal: of one type, names equal ASCII case aside, and all else octet for octet (RFC 2181, 5).
    pub fn data_eq<P: AsSlice<u8> + Drop, M: Labelled + Drop>(
        &self,
        other: &ZoneRecordData<P, M>,
    ) -> bool
        ensures { result ≡ same_zone_data N.labels M.labels self.now other.now }
    {
        self.rtype() == other.rtype() && self.fields_eq(other)
    }
}

impl<'m> ZoneRecordData<&'m [u8], ParsedName<'m>> {
    /// The data of that type in the `len` octets at place `pos` of a message, which they fill exactly; else an error.
    pub fn parse(
        rtype: Rtype,
        message: &'m [u8],
        pos: usize,
        len: u16,
    ) -> Result<ParsedRecordData<'m>, ParseError>
        ensures rtype { IfOk result (λ d. rtype_of d ≡ rtype) }
        ensures found { IfOk result (λ d. fields_at (parts rtype) message.now (pos + len) pos ≡ Some (data_fields d)) }
        ensures none { OnErr result (fields_at (parts rtype) message.now (pos + len) pos ≡ None) }
    {
        if !is_known_type(rtype) {
            return Ok(ZoneRecordData::Unknown(UnknownRecordData::<&[u8]>::parse(
                rtype, message, pos, len,
            )?));
        }
        match rtype.to_int() {
            1 => Ok(ZoneRecordData::A(A::parse(message, pos, len)?)),
            2 => Ok(ZoneRecordData::Ns(Ns::<ParsedName>::parse(message, pos, len)?)),
            3 => Ok(ZoneRecordData::Md(Md::<ParsedName>::parse(message, pos, len)?)),
            4 => Ok(ZoneRecordData::Mf(Mf::<ParsedName>::parse(message, pos, len)?)),
            5 => Ok(ZoneRecordData::Cname(Cname::<ParsedName>::parse(message, pos, len)?)),
            6 => Ok(ZoneRecordData::Soa(Soa::<ParsedName>::parse(message, pos, len)?)),
            7 => Ok(ZoneRecordData::Mb(Mb::<ParsedName>::parse(message, pos, len)?)),
            8 => Ok(ZoneRecordData::Mg(Mg::<ParsedName>::parse(message, pos, len)?)),
            9 => Ok(ZoneRecordData::Mr(Mr::<ParsedName>::parse(message, pos, len)?)),
            12 => Ok(ZoneRecordData::Ptr(Ptr::<ParsedName>::parse(message, pos, len)?)),
            14 => Ok(ZoneRecordData::Minfo(Minfo::<ParsedName>::parse(message, pos, len)?)),
            15 => Ok(ZoneRecordData::Mx(Mx::<ParsedName>::parse(message, pos, len)?)),
            16 => Ok(ZoneRecordData::Txt(Txt::<&[u8]>::parse(message, pos, len)?)),
            28 => Ok(ZoneRecordData::Aaaa(Aaaa::parse(message, pos, len)?)),
            33 => Ok(ZoneRecordData::Srv(Srv::<ParsedName>::parse(message, pos, len)?)),
            _ => Ok(ZoneRecordData::Ds(Ds::<&[u8]>::parse(message, pos, len)?)),
        }
    }
}

impl<O: AsSlice<u8> + Drop, N: ToName + Drop> PartialEq for ZoneRecordData<O, N> {
    ghost use Rattle.dns_rdata.specs.ZoneData.{same_zone_data};
    ghost use Rattle.dns_rdata.specs.SameZoneData.{same_zone_data_partial};

    ghost eq = { same_zone_data N.labels N.labels };

    ghost laws = { same_zone_data_partial N.labels };

    fn eq(&self, other: &ZoneRecordData<O, N>) -> bool {
        self.data_eq(other)
    }
}

impl<O: AsSlice<u8> + Drop, N: ToName + Drop> Eq for ZoneRecordData<O, N> {
    ghost use Rattle.dns_rdata.specs.SameZoneData.{same_zone_data_equiv};

    ghost laws = { same_zone_data_equiv N.labels };
}

impl Clone for ZoneRecordData<Bytes, StoredName> {
    ghost is_clone = { λ d copy. copy ≡ d };

    fn clone(&self) -> Result<StoredRecordData, AllocError> {
        match self {
            ZoneRecordData::A(d) => Ok(ZoneRecordData::A(*d)),
            ZoneRecordData::Aaaa(d) => Ok(ZoneRecordData::Aaaa(*d)),
            ZoneRecordData::Ns(d) => Ok(ZoneRecordData::Ns(d.clone()?)),
            ZoneRecordData::Md(d) => Ok(ZoneRecordData::Md(d.clone()?)),
            ZoneRecordData::Mf(d) => Ok(ZoneRecordData::Mf(d.clone()?)),
            ZoneRecordData::Mb(d) => Ok(ZoneRecordData::Mb(d.clone()?)),
            ZoneRecordData::Mg(d) => Ok(ZoneRecordData::Mg(d.clone()?)),
            ZoneRecordData::Mr(d) => Ok(ZoneRecordData::Mr(d.clone()?)),
            ZoneRecordData::Cname(d) => Ok(ZoneRecordData::Cname(d.clone()?)),
            ZoneRecordData::Ptr(d) => Ok(ZoneRecordData::Ptr(d.clone()?)),
            ZoneRecordData::Minfo(d) => Ok(ZoneRecordData::Minfo(d.clone()?)),
            ZoneRecordData::Mx(d) => Ok(ZoneRecordData::Mx(d.clone()?)),
            ZoneRecordData::Srv(d) => Ok(ZoneRecordData::Srv(d.clone()?)),
            ZoneRecordData::Soa(d) => Ok(ZoneRecordData::Soa(d.clone()?)),
            ZoneRecordData::Txt(d) => Ok(ZoneRecordData::Txt(d.clone()?)),
            ZoneRecordData::Ds(d) => Ok(ZoneRecordData::Ds(d.clone()?)),
            ZoneRecordData::Unknown(d) => Ok(ZoneRecordData::Unknown(d.clone()?)),
        }
    }
}
