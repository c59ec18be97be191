// Records.
ghost use Rattle.std.specs.Prelude.{◌≡◌, ◌++◌, ◌+◌, IfOk, OnOk, OnErr, length, take};
ghost use Rattle.std.specs.Str.{bytes_eq};
ghost use Rattle.dns_name.specs.Records.{Record as RecordOf, data_wire, record_wire};
ghost use Rattle.dns_rdata.specs.RecordHead.{head_wire};
ghost use Rattle.dns_rdata.specs.ZoneData.{data_fields};

use crate::record_data::RecordData;
use crate::spelling::{after_front, after_name};
use crate::zone_data::{ParsedRecordData, StoredRecordData};
use dns_name::{Labelled, ParsedName, StoredName};
use dns_numbers::{Class, Rtype, Ttl};
use std::alloc::{AllocError, Global};
use std::marker::Model;

/// A record: its owner, its class, its TTL and its data (RFC 1035, 3.2.1).
#[derive(Debug, Drop)]
pub struct Record<N: Labelled + Drop, D: RecordData + Drop> {
    owner: N,
    class: Class,
    ttl: Ttl,
    data: D,
}

/// A record in memory of its own.
pub type StoredRecord = Record<StoredName, StoredRecordData>;

/// A record within a message.
pub type ReadRecord<'m> = Record<ParsedName<'m>, ParsedRecordData<'m>>;

impl<N: Labelled + Drop, D: RecordData + Drop> Model for Record<N, D> {
    ghost use Rattle.dns_name.specs.Records.{Record as RecordOf};

    ghost Value = { RecordOf };

    ghost view = { λ r. record { owner = N.labels r.owner; rtype = D.rtype r.data; class = r.class; ttl = r.ttl; fields = D.fields r.data } };
}

impl<N: Labelled + Drop, D: RecordData + Drop> Record<N, D> {
    /// The record of these parts.
    pub fn new(owner: N, class: Class, ttl: Ttl, data: D) -> Record<N, D>
        ensures { result
            ≡ record { owner = N.labels owner; rtype = D.rtype «data»; class = class; ttl = ttl; fields = D.fields «data» } }
    {
        Record {
            owner,
            class,
            ttl,
            data,
        }
    }

    /// The name that the record stands at.
    pub fn owner(&self) -> &N
        ensures { N.labels result.now ≡ self.now.owner }
    {
        &self.owner
    }

    /// The type of the data.
    pub fn rtype(&self) -> Rtype
        ensures { result ≡ self.now.rtype }
    {
        self.data.rtype()
    }

    /// The class.
    pub fn class(&self) -> Class
        ensures { result ≡ self.now.class }
    {
        self.class
    }

    /// For how many seconds the record may be kept.
    pub fn ttl(&self) -> Ttl
        ensures { result ≡ self.now.ttl }
    {
        self.ttl
    }

    /// The data.
    pub fn data(&self) -> &D
        ensures rtype { D.rtype result.now ≡ self.now.rtype }
        ensures fields { D.fields result.now ≡ self.now.fields }
    {
        &self.data
    }

    /// The data alone.
    pub fn into_data(self) -> D
        ensures rtype { D.rtype result ≡ self.rtype }
        ensures fields { D.fields result ≡ self.fields }
    {
        self.data
    }

    /// The owner, the class, the TTL and the data.
    pub fn into_parts(self) -> (N, Class, Ttl, D)
        ensures owner { N.labels result.0 ≡ self.owner }
        ensures class { result.1 ≡ self.class }
        ensures ttl { result.2 ≡ self.ttl }
        ensures rtype { D.rtype result.3 ≡ self.rtype }
        ensures fields { D.fields result.3 ≡ self.fields }
    {
        (self.owner, self.class, self.ttl, self.data)
    }

    /// How many octets the record has as it is sent, without compression.
    pub fn compose_len(&self) -> u32
        ensures { result ≡ length (record_wire self.now) }
    {
        u32::from(self.owner.compose_len()) + 10 + u32::from(self.data.rdlen())
    }

    /// TYPE, CLASS, TTL and RDLENGTH in ten octets, as they are sent.
    #[tactic(auto, unfolding(crate::specs::RecordHead::head_wire))]
    fn head(&self) -> [u8; 10]
        ensures { result ≡ head_wire self.now }
    {
        let [a, b] = self.data.rtype().to_int().to_be_bytes();
        let [c, d] = self.class.to_int().to_be_bytes();
        let [e, f, g, h] = self.ttl.to_int().to_be_bytes();
        let [i, j] = self.data.rdlen().to_be_bytes();
        [a, b, c, d, e, f, g, h, i, j]
    }

    #[tactic(auto, using(dns_name::proofs::Writing::begins, crate::proofs::Writing::record_parts, std::proofs::lemmas::List::append_assoc))]
    fn compose_parts(&self, out: &mut Vec<u8>) -> Result<(), AllocError>
        ensures ok { OnOk result (out.new.items ≡ out.old.items ++ record_wire self.now) }
        ensures begins { take (length out.old.items) out.new.items ≡ out.old.items }
    {
        self.owner.compose(out)?;
        out.extend_from_slice(&self.head())?;
        self.data.compose_rdata(out)?;
        Ok(())
    }
}

impl<'m> Record<ParsedName<'m>, ParsedRecordData<'m>> {
    /// The same record in memory of its own.
    pub fn flatten(&self, alloc: Global) -> Result<StoredRecord, AllocError>
        ensures { IfOk result (λ r. r ≡ self.now) }
    {
        Ok(Record {
            owner: self.owner.to_stored(alloc)?,
            class: self.class,
            ttl: self.ttl,
            data: self.data.flatten(alloc)?,
        })
    }

    /// Whether the octets are those of the record as it is sent, without compression.
    #[tactic(auto, using(crate::proofs::Fronts::one_front, crate::proofs::Fronts::wrong_front, crate::proofs::Writing::record_regrouped))]
    pub fn is_spelled(&self, octets: &[u8]) -> bool
        ensures { result ≡ bytes_eq (record_wire self.now) octets.now }
    {
        match after_name(octets, &self.owner) {
            Some(rest) => is_head_and_data(rest, &self.head(), &self.data),
            None => false,
        }
    }
}

/// Whether the octets are those of a record's head and of its data.
#[tactic(auto, using(crate::proofs::Fronts::one_front, crate::proofs::Fronts::wrong_front))]
fn is_head_and_data(octets: &[u8], head: &[u8], data: &ParsedRecordData<'_>) -> bool
    ensures { result ≡ bytes_eq (head.now ++ data_wire (data_fields «data».now)) octets.now }
{
    match after_front(octets, head) {
        Some(rest) => data.is_spelled(rest),
        None => false,
    }
}

impl Clone for Record<StoredName, StoredRecordData> {
    ghost is_clone = { λ r copy. copy ≡ r };

    fn clone(&self) -> Result<StoredRecord, AllocError> {
        Ok(Record {
            owner: self.owner.clone()?,
            class: self.class,
            ttl: self.ttl,
            data: self.data.clone()?,
        })
    }
}

/// What is sent as a record.
pub trait ComposeRecord {
    ghost use Rattle.std.specs.Prelude.{◌≡◌, ◌++◌, OnOk, OnErr, length};
    ghost use Rattle.dns_name.specs.Records.{Record as RecordOf, record_wire};

    ghost record_of: { Self → RecordOf };

    /// How many octets the record has as it is sent, without compression.
    fn record_len(&self) -> u32
        ensures len { result ≡ length (record_wire (record_of self.now)) };

    /// The record at the end of `out`, without compression (RFC 1035, 3.2.1). Without memory `out` stays as it was.
    fn compose_record(&self, out: &mut Vec<u8>) -> Result<(), AllocError>
        ensures ok { OnOk result (out.new.items ≡ out.old.items ++ record_wire (record_of self.now)) }
        ensures err { OnErr result (out.new.items ≡ out.old.items) };
}

impl<N: Labelled + Drop, D: RecordData + Drop> ComposeRecord for Record<N, D> {
    ghost record_of = { λ r. r };

    fn record_len(&self) -> u32 {
        self.compose_len()
    }

    fn compose_record(&self, out: &mut Vec<u8>) -> Result<(), AllocError> {
        let start = out.as_slice().len();
        let composed = self.compose_parts(out);
        if composed.is_err() {
            out.truncate(start);
        }
        composed
    }
}
