// Equality, order and hash of records: owner, class, type and data; the TTL isn't looked at.
ghost use Rattle.std.specs.Prelude.{◌≡◌, refl, Some};
ghost use Rattle.dns_rdata.specs.SameRecord.{same_record, same_record_equiv, same_record_partial};
ghost use Rattle.dns_rdata.specs.RecordOrder.{record_cmp, record_total, record_ties, record_po};
ghost use Rattle.dns_rdata.specs.RecordHash.{record_hash, same_record_hash};

use crate::hash::hash_name;
use crate::record::Record;
use crate::zone_data::ZoneRecordData;
use dns_name::{Labelled, ToName};
use std::cmp::Ordering;
use std::convert::AsSlice;
use std::hash::{Hash, Hasher};

impl<N: ToName + Drop, O: AsSlice<u8> + Drop, M: ToName + Drop> Record<N, ZoneRecordData<O, M>> {
    /// Whether the records are equal: of one class and one type, owners and names in the data equal ASCII case aside, and all else octet
    /// for octet. The TTL isn't looked at (RFC 2136, 1.1.1).
    pub fn record_eq<K: Labelled + Drop, P: AsSlice<u8> + Drop, L: Labelled + Drop>(
        &self,
        other: &Record<K, ZoneRecordData<P, L>>,
    ) -> bool
        ensures { result ≡ same_record self.now other.now }
    {
        self.owner().name_eq(other.owner())
            && self.class() == other.class()
            && self.data().data_eq(other.data())
    }
}

impl<N: ToName + Drop, O: AsSlice<u8> + Drop, M: ToName + Drop> PartialEq
    for Record<N, ZoneRecordData<O, M>> {
    ghost eq = { same_record };

    ghost laws = { same_record_partial };

    fn eq(&self, other: &Self) -> bool {
        self.record_eq(other)
    }
}

impl<N: ToName + Drop, O: AsSlice<u8> + Drop, M: ToName + Drop> Eq
    for Record<N, ZoneRecordData<O, M>> {
    ghost laws = { same_record_equiv };
}

impl<N: ToName + Drop, O: AsSlice<u8> + Drop, M: ToName + Drop> PartialOrd
    for Record<N, ZoneRecordData<O, M>> {
    ghost partial_cmp = { λ a b. Some (record_cmp a b) };

    ghost laws = { record_po };

    fn partial_cmp(&self, other: &Self) -> Option<Ordering> {
        Some(self.cmp(other))
    }
}

impl<N: ToName + Drop, O: AsSlice<u8> + Drop, M: ToName + Drop> Ord
    for Record<N, ZoneRecordData<O, M>> {
    ghost cmp = { record_cmp };

    ghost total = { record_total };

    ghost matches_partial_cmp = { λ a b. refl };

    ghost matches_eq = { record_ties };

    /// Owners in canonical order, then by class, by type and by data.
    fn cmp(&self, other: &Self) -> Ordering {
        match self.owner().name_cmp(other.owner()) {
            Ordering::Less => Ordering::Less,
            Ordering::Equal => self
                .class()
                .cmp(&other.class())
                .then(self.data().cmp(other.data())),
            Ordering::Greater => Ordering::Greater,
        }
    }
}

impl<N: ToName + Drop, O: AsSlice<u8> + Drop, M: ToName + Drop> Hash
    for Record<N, ZoneRecordData<O, M>> {
    ghost hash_input = { record_hash };

    ghost respects_eq = { same_record_hash };

    fn hash<H: Hasher>(&self, state: &mut H) {
        hash_name(self.owner(), state);
        self.class().hash(state);
        self.data().hash(state);
    }
}
