// The SOA record that a transfer begins with, kept without memory of its own.
ghost use Rattle.std.specs.Prelude.{◌≡◌, IfSome, IfNone, true, false};
ghost use Rattle.dns_name.specs.Records.{same_data};
ghost use Rattle.dns_rdata.specs.DataFields.{soa_fields};
ghost use Rattle.dns_rdata.specs.Soa.{serial_of};
ghost use Rattle.zone_model.specs.TransferText.{is_soa, is_same_soa};

use dns_name::{KeyName, Labelled, ToName};
use dns_numbers::Serial;
use dns_rdata::{ReadRecord, Record, RecordData, Soa, ZoneRecordData};

/// The first SOA record of a transfer, its names in place.
pub type FirstSoa = Record<KeyName, Soa<KeyName>>;

// SOA data with their names in place.
#[tactic(auto, unfolding(dns_rdata::specs::DataFields::soa_times))]
fn in_place<N: Labelled + Drop>(soa: &Soa<N>) -> Soa<KeyName>
    ensures { ⟦<Soa<KeyName> as RecordData>⟧.fields result ≡ ⟦<Soa<N> as RecordData>⟧.fields soa.now }
{
    Soa::new(
        soa.mname().to_key_name(),
        soa.rname().to_key_name(),
        soa.serial(),
        soa.refresh(),
        soa.retry(),
        soa.expire(),
        soa.minimum(),
    )
}

/// The record with its names in place, if it is an SOA.
pub fn first_soa(found: &ReadRecord<'_>) -> Option<FirstSoa>
    ensures found { IfSome result (λ s. (s ≡ found.now) × (is_soa found.now ≡ true)) }
    ensures none { IfNone result (is_soa found.now ≡ false) }
{
    match found.data() {
        ZoneRecordData::Soa(soa) => Some(Record::new(
            found.owner().to_key_name(),
            found.class(),
            found.ttl(),
            in_place(soa),
        )),
        ZoneRecordData::Unknown(octets) => {
            // For the proof: octets of an unknown type aren't SOA data.
            let _ = octets.rdlen();
            None
        }
        _ => None,
    }
}

/// A copy.
pub fn duplicate(first: &FirstSoa) -> FirstSoa
    ensures { result ≡ first.now }
{
    Record::new(
        first.owner().duplicate(),
        first.class(),
        first.ttl(),
        in_place(first.data()),
    )
}

// Whether SOA data are equal: the names ASCII case aside, and the five numbers (RFC 1035, 3.3.13).
fn are_same_data<N: ToName + Drop, M: Labelled + Drop>(a: &Soa<N>, b: &Soa<M>) -> bool
    ensures { result ≡ same_data (soa_fields N.labels a.now) (soa_fields M.labels b.now) }
{
    a.mname().name_eq(b.mname()) && a.rname().name_eq(b.rname()) && a.times() == b.times()
}

/// Whether the record is an SOA with the first one's data, letters' case in names aside (RFC 1035, 3.3.13).
pub fn is_same_soa(first: &FirstSoa, found: &ReadRecord<'_>) -> bool
    ensures { result ≡ is_same_soa first.now found.now }
{
    match found.data() {
        ZoneRecordData::Soa(soa) => are_same_data(first.data(), soa),
        ZoneRecordData::Unknown(octets) => {
            // For the proof: octets of an unknown type aren't SOA data.
            let _ = octets.rdlen();
            false
        }
        _ => false,
    }
}

/// The serial (RFC 1035, 3.3.13).
pub fn serial_of(first: &FirstSoa) -> Serial
    ensures { result ≡ serial_of first.now.fields }
{
    first.data().serial()
}
