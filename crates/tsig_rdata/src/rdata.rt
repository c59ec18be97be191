// The data of a TSIG record, and the record (RFC 8945, 4.2).
ghost use Rattle.std.specs.Prelude.{◌≡◌, ◌≤◌, ◌<◌, ◌++◌, length, IfOk, IfSome, OnOk, OnErr, Some, None, take};
ghost use Rattle.dns_rdata.specs.Records.{record_wire};
ghost use Rattle.dns_numbers.specs.Codes.{type_tsig};
ghost use Rattle.tsig_rdata.specs.TsigData.{tsig_at, tsig_of, tsig_wire, tsig_record, within_fudge};
ghost use Rattle.tsig_rdata.specs.TsigParts.{tsig_with, time_in};

use crate::time::Time48;
use bytes::Bytes;
use dns_name::{KeyName, Labelled, ParseError, ParsedName, StoredName, parse_octets, parse_u16};
use dns_numbers::{Class, Rtype};
use dns_rdata::{ComposeRecord, LongRecordData, ParsedRecord};
use std::alloc::{AllocError, Global};
use std::convert::AsSlice;
use std::marker::Model;
use tsig_keys::Mac;

/// The data of a TSIG record: at most 65,535 octets, the algorithm's name written out (RFC 8945, 4.2). `O` are octets, `N` is a
/// name.
#[derive(Drop)]
pub struct Tsig<O: AsSlice<u8> + Drop, N: Labelled + Drop> {
    algorithm: N,
    time_signed: Time48,
    fudge: u16,
    mac: O,
    original_id: u16,
    error: u16,
    other: O,
}

/// The data as they stand in a message.
pub type ReadTsig<'m> = Tsig<&'m [u8], ParsedName<'m>>;

/// The data in memory of their own.
pub type StoredTsig = Tsig<Bytes, StoredName>;

/// The data that a signer makes.
pub type SigningTsig = Tsig<Mac, KeyName>;

impl<O: AsSlice<u8> + Drop, N: Labelled + Drop> Model for Tsig<O, N> {
    ghost use Rattle.std.specs.Prelude.{◌<◌, ◌+◌, length};
    ghost use Rattle.dns_name.specs.Names.{name_wire};
    ghost use Rattle.tsig_rdata.specs.TsigData.{Tsig as TsigData};

    ghost Value = { TsigData };

    ghost view = { λ t. record { algorithm = N.labels t.algorithm; time_signed = t.time_signed; fudge = t.fudge; mac = O.items t.mac; original_id = t.original_id; error = t.error; other = O.items t.other } };

    ghost invariant = { λ t. length (name_wire (N.labels t.algorithm)) + 16 + length (O.items t.mac) + length (O.items t.other) < 65536 };
}

impl<O: AsSlice<u8> + Drop, N: Labelled + Drop> Tsig<O, N> {
    /// The data of these parts: the algorithm's name, when the message was signed, the fudge in seconds, the MAC, the id of the message when
    /// it was signed, the error with 0 for none, and the other octets. Refused exactly where they have more than 65,535 octets, the
    /// algorithm's name written out (RFC 8945, 4.2).
    pub fn new(
        algorithm: N,
        time_signed: Time48,
        fudge: u16,
        mac: O,
        original_id: u16,
        error: u16,
        other: O,
    ) -> Result<Tsig<O, N>, LongRecordData>
        ensures ok { IfOk result (λ t. t ≡ tsig_with (N.labels algorithm) time_signed fudge (O.items mac) original_id error (O.items other)) }
        ensures fits { OnOk result (length (tsig_wire (tsig_with (N.labels algorithm) time_signed fudge (O.items mac) original_id error (O.items other))) < 65536) }
        ensures err { OnErr result (65536 ≤ length (tsig_wire (tsig_with (N.labels algorithm) time_signed fudge (O.items mac) original_id error (O.items other)))) }
    {
        let most = 65519 - usize::from(algorithm.compose_len());
        let mac_len = mac.as_slice().len();
        if mac_len > most || other.as_slice().len() > most - mac_len {
            return Err(LongRecordData);
        }
        Ok(Tsig {
            algorithm,
            time_signed,
            fudge,
            mac,
            original_id,
            error,
            other,
        })
    }

    /// The type: TSIG (RFC 8945, 4.1).
    pub fn rtype(&self) -> Rtype
        ensures { result ≡ type_tsig }
    {
        Rtype::TSIG
    }

    /// The algorithm's name.
    pub fn algorithm(&self) -> &N
        ensures { N.labels result.now ≡ self.now.algorithm }
    {
        &self.algorithm
    }

    /// When the message was signed.
    pub fn time_signed(&self) -> Time48
        ensures { result ≡ self.now.time_signed }
    {
        self.time_signed
    }

    /// How many seconds the moment of the check may be away from that.
    pub fn fudge(&self) -> u16
        ensures { result ≡ self.now.fudge }
    {
        self.fudge
    }

    /// The MAC.
    pub fn mac(&self) -> &O
        ensures { O.items result.now ≡ self.now.mac }
    {
        &self.mac
    }

    /// The MAC alone.
    pub fn into_mac(self) -> O
        ensures { O.items result ≡ self.mac }
    {
        self.mac
    }

    /// The octets of the MAC.
    pub fn mac_slice(&self) -> &[u8]
        ensures mac { result.now ≡ self.now.mac }
        ensures short { length self.now.mac < 65536 }
    {
        self.mac.as_slice()
    }

    /// The id of the message when it was signed.
    pub fn original_id(&self) -> u16
        ensures { result ≡ self.now.original_id }
    {
        self.original_id
    }

    /// The error, 0 for none.
    pub fn error(&self) -> u16
        ensures { result ≡ self.now.error }
    {
        self.error
    }

    /// The other octets, in a BADTIME answer the server's time.
    pub fn other(&self) -> &[u8]
        ensures other { result.now ≡ self.now.other }
        ensures short { length self.now.other < 65536 }
    {
        self.other.as_slice()
    }

    /// The server's time, which a BADTIME answer has as its other octets; None where those aren't six (RFC 8945, 5.2.3).
    pub fn other_time(&self) -> Option<Time48>
        ensures { result ≡ time_in self.now.other }
    {
        Time48::from_octets(self.other.as_slice())
    }

    /// How many octets the data have, the algorithm's name written out.
    pub fn rdlen(&self) -> u16
        ensures { result ≡ length (tsig_wire self.now) }
    {
        self.algorithm.compose_len()
            + 16
            + self.mac.as_slice().len() as u16
            + self.other.as_slice().len() as u16
    }

    /// Whether the moment is within the fudge of the time signed (RFC 8945, 5.2.3).
    pub fn is_valid_at(&self, now: Time48) -> bool
        ensures { result ≡ within_fudge self.now now }
    {
        self.time_signed.eq_fudged(now, u64::from(self.fudge))
    }

    /// The data at the end of `out`, the algorithm's name written out (RFC 8945, 4.2). Without memory `out` is as before.
    pub fn compose_rdata(&self, out: &mut Vec<u8>) -> Result<(), AllocError>
        ensures ok { OnOk result (out.new.items ≡ out.old.items ++ tsig_wire self.now) }
        ensures err { OnErr result (out.new.items ≡ out.old.items) }
    {
        let start = out.len();
        let composed = self.compose_parts(out);
        if composed.is_err() {
            out.truncate(start);
        }
        composed
    }

    /// The same data in memory of their own.
    pub fn flatten(&self, alloc: Global) -> Result<StoredTsig, AllocError>
        ensures { IfOk result (λ t. t ≡ self.now) }
    {
        Ok(Tsig {
            algorithm: self.algorithm.to_stored(alloc)?,
            time_signed: self.time_signed,
            fudge: self.fudge,
            mac: Bytes::copy_from_slice(alloc, self.mac.as_slice())?,
            original_id: self.original_id,
            error: self.error,
            other: Bytes::copy_from_slice(alloc, self.other.as_slice())?,
        })
    }

    /// The data at the end of `out`; without memory `out` may have some of them.
    #[tactic(auto, using(dns_name::proofs::Writing::begins, std::proofs::lemmas::List::append_assoc))]
    fn compose_parts(&self, out: &mut Vec<u8>) -> Result<(), AllocError>
        ensures ok { OnOk result (out.new.items ≡ out.old.items ++ tsig_wire self.now) }
        ensures begins { take (length out.old.items) out.new.items ≡ out.old.items }
    {
        self.algorithm.compose(out)?;
        out.extend_from_slice(&self.time_signed.into_octets())?;
        out.extend_from_slice(&self.fudge.to_be_bytes())?;
        out.extend_from_slice(&(self.mac.as_slice().len() as u16).to_be_bytes())?;
        out.extend_from_slice(self.mac.as_slice())?;
        out.extend_from_slice(&self.original_id.to_be_bytes())?;
        out.extend_from_slice(&self.error.to_be_bytes())?;
        out.extend_from_slice(&(self.other.as_slice().len() as u16).to_be_bytes())?;
        out.extend_from_slice(self.other.as_slice())?;
        Ok(())
    }
}

impl<'m> Tsig<&'m [u8], ParsedName<'m>> {
    /// The data at a place of a message, and the place after them. Refused also where they are more than 65,535 octets with the
    /// algorithm's name written out.
    fn parse_at(message: &'m [u8], pos: usize) -> Result<(ReadTsig<'m>, usize), ParseError>
        ensures found { IfOk result (λ r. tsig_at message.now pos ≡ Some r) }
        ensures short { IfOk result (λ r. length (tsig_wire r.0) < 65536) }
        ensures none { OnErr result (IfSome (tsig_at message.now pos) (λ r. 65536 ≤ length (tsig_wire r.0))) }
    {
        let (algorithm, pos) = ParsedName::parse(message, pos)?;
        let (time_signed, pos) = Time48::parse(message, pos)?;
        let (fudge, pos) = parse_u16(message, pos)?;
        let (mac_len, pos) = parse_u16(message, pos)?;
        let (mac, pos) = parse_octets(message, pos, usize::from(mac_len))?;
        let (original_id, pos) = parse_u16(message, pos)?;
        let (error, pos) = parse_u16(message, pos)?;
        let (other_len, pos) = parse_u16(message, pos)?;
        let (other, pos) = parse_octets(message, pos, usize::from(other_len))?;
        if usize::from(algorithm.compose_len()) + 16 + usize::from(mac_len) + usize::from(other_len)
            > 65535
        {
            return Err(ParseError);
        }
        let tsig = Tsig {
            algorithm,
            time_signed,
            fudge,
            mac,
            original_id,
            error,
            other,
        };
        Ok((tsig, pos))
    }

    /// The data of a record: they fill RDLENGTH, and have at most 65,535 octets with the algorithm's name written out.
    #[tactic(auto, unfolding(crate::specs::TsigData::tsig_of))]
    pub fn parse(head: &ParsedRecord<'m>) -> Result<ReadTsig<'m>, ParseError>
        ensures found { IfOk result (λ t. tsig_of head.now.message head.now.raw ≡ Some t) }
        ensures none { OnErr result (tsig_of head.now.message head.now.raw ≡ None) }
    {
        let (tsig, after) = Tsig::parse_at(head.message(), head.rdata())?;
        if after.checked_sub(head.rdata()) != Some(usize::from(head.rdlength())) {
            return Err(ParseError);
        }
        Ok(tsig)
    }
}

impl Tsig<Mac, KeyName> {
    /// The data of these parts, which always fit.
    pub fn signing(
        algorithm: KeyName,
        time_signed: Time48,
        fudge: u16,
        mac: Mac,
        original_id: u16,
        error: u16,
        other: Mac,
    ) -> SigningTsig
        ensures { result ≡ record { algorithm = algorithm; time_signed = time_signed; fudge = fudge; mac = mac; original_id = original_id; error = error; other = other } }
    {
        Tsig {
            algorithm,
            time_signed,
            fudge,
            mac,
            original_id,
            error,
            other,
        }
    }

    /// The same data with that MAC.
    pub fn with_mac(self, mac: Mac) -> SigningTsig
        ensures { result ≡ record self { mac = mac } }
    {
        Tsig {
            algorithm: self.algorithm,
            time_signed: self.time_signed,
            fudge: self.fudge,
            mac,
            original_id: self.original_id,
            error: self.error,
            other: self.other,
        }
    }
}

/// A TSIG record: class ANY, TTL 0 (RFC 8945, 4.2).
#[derive(Drop)]
pub struct TsigRecord {
    owner: KeyName,
    tsig: SigningTsig,
}

impl TsigRecord {
    /// The record of these data at the key's name.
    pub fn new(owner: KeyName, tsig: SigningTsig) -> TsigRecord
        ensures owner { result.owner ≡ owner }
        ensures tsig { result.tsig ≡ tsig }
    {
        TsigRecord { owner, tsig }
    }

    /// The record at the end of `out`; without memory `out` may have some of it.
    #[tactic(auto, using(dns_name::proofs::Writing::begins, std::proofs::lemmas::List::append_assoc))]
    fn compose_parts(&self, out: &mut Vec<u8>) -> Result<(), AllocError>
        ensures ok { OnOk result (out.new.items ≡ out.old.items ++ record_wire (tsig_record self.now.owner self.now.tsig)) }
        ensures begins { take (length out.old.items) out.new.items ≡ out.old.items }
    {
        self.owner.compose(out)?;
        out.extend_from_slice(&Rtype::TSIG.to_int().to_be_bytes())?;
        out.extend_from_slice(&Class::ANY.to_int().to_be_bytes())?;
        out.extend_from_slice(&[0, 0, 0, 0])?;
        out.extend_from_slice(&self.tsig.rdlen().to_be_bytes())?;
        self.tsig.compose_parts(out)
    }
}

impl ComposeRecord for TsigRecord {
    ghost record_of = { λ r. tsig_record r.owner r.tsig };

    fn record_len(&self) -> u32 {
        u32::from(self.owner.compose_len()) + 10 + u32::from(self.tsig.rdlen())
    }

    fn compose_record(&self, out: &mut Vec<u8>) -> Result<(), AllocError> {
        let start = out.len();
        let composed = self.compose_parts(out);
        if composed.is_err() {
            out.truncate(start);
        }
        composed
    }
}
