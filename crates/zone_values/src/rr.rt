// A record without its owner.
ghost use Rattle.std.specs.Prelude.{◌≡◌, IfOk};
ghost use Rattle.dns_rdata.specs.ZoneData.{rtype_of, data_fields};
ghost use Rattle.zone_values.specs.TypedSets.{TypedRecord};

use dns_numbers::{Rtype, Ttl};
use dns_rdata::{RecordData, StoredRecord, StoredRecordData};
use std::alloc::AllocError;
use std::marker::Model;

/// A record without its owner and class, which shares its octets with its copies (RFC 1035, 3.2.1).
#[derive(Debug, Drop)]
pub struct SharedRr {
    ttl: Ttl,
    data: StoredRecordData,
}

impl Model for SharedRr {
    ghost use Rattle.dns_rdata.specs.ZoneData.{rtype_of, data_fields};
    ghost use Rattle.zone_values.specs.TypedSets.{TypedRecord};

    ghost Value = { TypedRecord };

    ghost view = { λ r. record { rtype = rtype_of r.data; ttl = r.ttl; fields = data_fields r.data } };
}

impl SharedRr {
    /// A record of this TTL, in seconds, with these data.
    pub fn new(ttl: Ttl, item: StoredRecordData) -> SharedRr
        ensures { result ≡ record { rtype = rtype_of item; ttl = ttl; fields = data_fields item } }
    {
        SharedRr { ttl, data: item }
    }

    /// The type.
    pub fn rtype(&self) -> Rtype
        ensures { result ≡ self.now.rtype }
    {
        self.data.rtype()
    }

    /// For how many seconds the record may be kept.
    pub fn ttl(&self) -> Ttl
        ensures { result ≡ self.now.ttl }
    {
        self.ttl
    }

    /// The data.
    pub fn data(&self) -> &StoredRecordData
        ensures rtype { rtype_of result.now ≡ self.now.rtype }
        ensures fields { data_fields result.now ≡ self.now.fields }
    {
        &self.data
    }
}

impl From<StoredRecord> for SharedRr {
    ghost from_gives = { λ r s. s ≡ record { rtype = r.rtype; ttl = r.ttl; fields = r.fields } };

    /// A record without its owner and class.
    fn from(record: StoredRecord) -> SharedRr {
        let ttl = record.ttl();
        SharedRr::new(ttl, record.into_data())
    }
}

impl Clone for SharedRr {
    ghost is_clone = { λ r copy. copy ≡ r };

    fn clone(&self) -> Result<SharedRr, AllocError> {
        Ok(SharedRr {
            ttl: self.ttl,
            data: self.data.clone()?,
        })
    }
}

impl PartialEq for SharedRr {
    ghost use Rattle.zone_values.specs.TypedSets.{same_typed_record};
    ghost use Rattle.zone_values.specs.SameSets.{same_typed_record_partial};

    ghost eq = { same_typed_record };

    ghost laws = { same_typed_record_partial };

    /// Equal type, TTL and data, names in the data ASCII case aside.
    fn eq(&self, other: &SharedRr) -> bool {
        if self.data.rtype() != other.data.rtype() {
            return false;
        }
        if self.ttl != other.ttl {
            return false;
        }
        self.data.fields_eq(&other.data)
    }
}

impl Eq for SharedRr {
    ghost use Rattle.zone_values.specs.SameSets.{same_typed_record_equiv};

    ghost laws = { same_typed_record_equiv };
}
