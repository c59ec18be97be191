// The start of a zone of authority.
ghost use Rattle.std.specs.Prelude.{◌≡◌, ◌≤◌, ◌+◌, IfOk, OnErr, Some, None, length, slice_range};
ghost use Rattle.dns_name.specs.Octets.{u32_octets};
ghost use Rattle.dns_name.specs.Records.{fields_at, parts};
ghost use Rattle.dns_name.specs.LentFields.{fields_in};
ghost use Rattle.dns_name.specs.Soa.{serial_of};
ghost use Rattle.dns_rdata.specs.DataFields.{soa_fields, soa_times};

use crate::record_data::{RecordData, ends_at};
use dns_name::{
    Labelled, LentField, LentFields, Numbers, ParseError, ParsedName, StoredName, parse_octets,
};
use dns_numbers::{Rtype, Serial, Ttl};
use std::alloc::{AllocError, Global};

/// The start of a zone of authority (SOA; RFC 1035, 3.3.13). The times are seconds.
#[derive(Clone, Debug, Drop)]
pub struct Soa<N: Labelled + Drop> {
    pub mname: N,
    pub rname: N,
    pub serial: Serial,
    pub refresh: Ttl,
    pub retry: Ttl,
    pub expire: Ttl,
    pub minimum: Ttl,
}

impl<N: Labelled + Drop> Soa<N> {
    /// The data of the primary's name, the mailbox of the one responsible, the serial and the four times.
    pub fn new(
        mname: N,
        rname: N,
        serial: Serial,
        refresh: Ttl,
        retry: Ttl,
        expire: Ttl,
        minimum: Ttl,
    ) -> Soa<N>
        ensures { result
            ≡ record { mname = mname; rname = rname; serial = serial; refresh = refresh; retry = retry; expire = expire; minimum = minimum } }
    {
        Soa {
            mname,
            rname,
            serial,
            refresh,
            retry,
            expire,
            minimum,
        }
    }

    /// The name of the primary.
    pub fn mname(&self) -> &N
        ensures { result.now ≡ self.now.mname }
    {
        &self.mname
    }

    /// The mailbox of the one responsible, as a name.
    pub fn rname(&self) -> &N
        ensures { result.now ≡ self.now.rname }
    {
        &self.rname
    }

    /// The serial of the version.
    #[tactic(auto, unfolding(crate::specs::DataFields::soa_times), using(crate::proofs::Numbers::four_octets))]
    pub fn serial(&self) -> Serial
        ensures value { result ≡ self.now.serial }
        ensures of_fields { result ≡ serial_of (soa_fields N.labels self.now) }
    {
        let _ = self.serial.into_int();
        self.serial
    }

    /// After how many seconds a secondary asks again.
    pub fn refresh(&self) -> Ttl
        ensures { result ≡ self.now.refresh }
    {
        self.refresh
    }

    /// After how many seconds a secondary asks again where the last question failed.
    pub fn retry(&self) -> Ttl
        ensures { result ≡ self.now.retry }
    {
        self.retry
    }

    /// After how many seconds without an answer a secondary's zone isn't authoritative any more.
    pub fn expire(&self) -> Ttl
        ensures { result ≡ self.now.expire }
    {
        self.expire
    }

    /// For how many seconds a negative answer is kept (RFC 2308, 4).
    pub fn minimum(&self) -> Ttl
        ensures { result ≡ self.now.minimum }
    {
        self.minimum
    }

    /// The data of two names, and of the serial and the four times in twenty octets as they are sent.
    fn of_times(mname: N, rname: N, times: &[u8]) -> Soa<N>
        requires { length times.now ≡ 20 }
        ensures mname { result.mname ≡ mname }
        ensures rname { result.rname ≡ rname }
        ensures times { soa_times result ≡ times.now }
    {
        Soa {
            mname,
            rname,
            serial: Serial::from(number_at(times, 0)),
            refresh: Ttl::from_int(number_at(times, 4)),
            retry: Ttl::from_int(number_at(times, 8)),
            expire: Ttl::from_int(number_at(times, 12)),
            minimum: Ttl::from_int(number_at(times, 16)),
        }
    }

    /// The serial and the four times in twenty octets, as they are sent.
    #[tactic(auto, unfolding(crate::specs::DataFields::soa_times))]
    pub fn times(&self) -> [u8; 20]
        ensures { result ≡ soa_times self.now }
    {
        let [a, b, c, d] = self.serial.into_int().to_be_bytes();
        let [e, f, g, h] = self.refresh.to_int().to_be_bytes();
        let [i, j, k, l] = self.retry.to_int().to_be_bytes();
        let [m, n, o, p] = self.expire.to_int().to_be_bytes();
        let [q, r, s, t] = self.minimum.to_int().to_be_bytes();
        [a, b, c, d, e, f, g, h, i, j, k, l, m, n, o, p, q, r, s, t]
    }

    /// The data as fields, lent.
    pub fn lent_fields(&self) -> LentFields<'_, N>
        ensures { fields_in N.labels result ≡ soa_fields N.labels self.now }
    {
        LentFields::Three(
            LentField::DomainName(&self.mname),
            LentField::DomainName(&self.rname),
            LentField::numbers(Numbers::Twenty(self.times())),
        )
    }

    /// The same data in memory of their own.
    #[tactic(auto, unfolding(crate::specs::DataFields::soa_times))]
    pub fn flatten(&self, alloc: Global) -> Result<Soa<StoredName>, AllocError>
        ensures { IfOk result (λ soa. soa_fields (λ n. n) soa ≡ soa_fields N.labels self.now) }
    {
        Ok(Soa {
            mname: self.mname.to_stored(alloc)?,
            rname: self.rname.to_stored(alloc)?,
            serial: self.serial,
            refresh: self.refresh,
            retry: self.retry,
            expire: self.expire,
            minimum: self.minimum,
        })
    }
}

/// The number of the four octets at place `at`.
fn number_at(octets: &[u8], at: usize) -> u32
    requires { at + 4 ≤ length octets.now }
    ensures { u32_octets result ≡ slice_range octets.now at (at + 4) }
{
    let mut number = [0; 4];
    number.copy_from_slice(&octets[at..at + 4]);
    u32::from_be_bytes(number)
}

impl<'m> Soa<ParsedName<'m>> {
    /// The SOA data in the `len` octets at place `pos` of a message, which they fill exactly; else an error.
    #[tactic(auto, unfolding(dns_name::specs::Records::fields_at))]
    pub fn parse(message: &'m [u8], pos: usize, len: u16) -> Result<Soa<ParsedName<'m>>, ParseError>
        ensures found { IfOk result (λ soa. fields_at (parts 6) message.now (pos + len) pos ≡ Some (soa_fields (λ n. n) soa)) }
        ensures none { OnErr result (fields_at (parts 6) message.now (pos + len) pos ≡ None) }
    {
        let (mname, second) = ParsedName::parse(message, pos)?;
        let (rname, third) = ParsedName::parse(message, second)?;
        let (times, after) = parse_octets(message, third, 20)?;
        if !ends_at(pos, len, after) {
            return Err(ParseError);
        }
        Ok(Soa::of_times(mname, rname, times))
    }
}

impl<N: Labelled + Drop> RecordData for Soa<N> {
    ghost rtype = { λ soa. 6 };

    ghost fields = { soa_fields N.labels };

    fn rtype(&self) -> Rtype {
        Rtype::SOA
    }

    #[tactic(auto, unfolding(crate::specs::DataFields::soa_times))]
    fn rdlen(&self) -> u16 {
        self.mname.compose_len() + self.rname.compose_len() + 20
    }

    fn compose_rdata(&self, out: &mut Vec<u8>) -> Result<(), AllocError> {
        self.lent_fields().compose(out)
    }
}
