// Record sets without their owner.
ghost use Rattle.std.specs.Prelude.{◌≡◌, ◌==◌, ◌∷◌, [], length, min, map, IfOk, OnOk, OnErr, All};
ghost use Rattle.dns_rdata.specs.ZoneData.{rtype_of, data_fields};
ghost use Rattle.zone_values.specs.TypedSets.{set_of, with_ttl, with_data, with_record, first_record};

use crate::data_key::DataKey;
use crate::rr::SharedRr;
use crate::rrset_edits::push_last;
use dns_numbers::{Rtype, Ttl};
use dns_rdata::{RecordData, StoredRecord, StoredRecordData};
use std::alloc::{AllocError, Global};
use std::collections::BTreeSet;
use std::marker::Model;
use std::ops::Deref;
use std::sync::Arc;

/// The records of one owner and type without the owner: their type, their TTL and their data, in order (RFC 2181, 5).
#[derive(Debug, Drop)]
pub struct Rrset {
    pub(crate) rtype: Rtype,
    pub(crate) ttl: Ttl,
    pub(crate) items: Vec<StoredRecordData>,
    // An index of many data, so that an addition doesn't look at each.
    pub(crate) seen: Option<BTreeSet<DataKey>>,
}

impl Model for Rrset {
    ghost use Rattle.std.specs.Prelude.{◌≡◌, map, All};
    ghost use Rattle.dns_rdata.specs.ZoneData.{rtype_of, data_fields};
    ghost use Rattle.zone_values.specs.TypedSets.{TypedSet, set_of};
    ghost use Rattle.zone_values.specs.DataIndex.{IsIndexed};

    ghost Value = { TypedSet };

    ghost view = { λ s. set_of s.rtype s.ttl (map data_fields s.items.items) };

    ghost invariant = { λ s. IsIndexed (map data_fields s.items.items) s.seen × All (λ d. rtype_of d ≡ s.rtype) s.items.items };
}

impl Rrset {
    /// An RRset of this type and TTL, in seconds, without records.
    pub fn new(alloc: Global, rtype: Rtype, ttl: Ttl) -> Rrset
        ensures { result ≡ set_of rtype ttl [] }
    {
        Rrset {
            rtype,
            ttl,
            items: Vec::new(alloc),
            seen: None,
        }
    }

    /// An RRset of one record's data, and of their type, with room for no more. The TTL is in seconds.
    pub fn of_one(alloc: Global, ttl: Ttl, item: StoredRecordData) -> Result<Rrset, AllocError>
        ensures { IfOk result (λ s. s ≡ set_of (rtype_of item) ttl (data_fields item ∷ [])) }
    {
        let rtype = item.rtype();
        let mut items = Vec::with_capacity(alloc, 1)?;
        items.push(item)?;
        Ok(Rrset {
            rtype,
            ttl,
            items,
            seen: None,
        })
    }

    /// The RRset of one record.
    pub fn from_record(alloc: Global, first: StoredRecord) -> Result<Rrset, AllocError>
        ensures { IfOk result (λ s. s ≡ set_of first.rtype first.ttl (first.fields ∷ [])) }
    {
        Rrset::of_one(alloc, first.ttl(), first.into_data())
    }

    /// The type of the records.
    pub fn rtype(&self) -> Rtype
        ensures { result ≡ self.now.rtype }
    {
        self.rtype
    }

    /// For how many seconds the records may be kept.
    pub fn ttl(&self) -> Ttl
        ensures { result ≡ self.now.contents.ttl }
    {
        self.ttl
    }

    /// The data of the records, in order.
    pub fn data(&self) -> &[StoredRecordData]
        ensures fields { map data_fields result.now ≡ self.now.contents.items }
        ensures types { All (λ d. rtype_of d ≡ self.now.rtype) result.now }
    {
        &self.items
    }

    /// Whether there are no records.
    pub fn is_empty(&self) -> bool
        ensures { result ≡ (length self.now.contents.items == 0) }
    {
        self.items.is_empty()
    }

    /// The first record, if there is one.
    pub fn first(&self) -> Result<Option<SharedRr>, AllocError>
        ensures { IfOk result (λ r. r ≡ first_record self.now) }
    {
        match self.items.first() {
            Some(data) => Ok(Some(SharedRr::new(self.ttl, data.clone()?))),
            None => Ok(None),
        }
    }

    /// Changes the TTL of all records, in seconds.
    pub fn set_ttl(&mut self, ttl: Ttl)
        ensures { self.new ≡ with_ttl self.old ttl }
    {
        self.ttl = ttl;
    }

    /// Lowers the TTL of all records to this one, in seconds, where it is higher.
    pub fn limit_ttl(&mut self, ttl: Ttl)
        ensures { self.new ≡ with_ttl self.old (min self.old.contents.ttl ttl) }
    {
        if ttl.to_int() < self.ttl.to_int() {
            self.ttl = ttl;
        }
    }

    /// Puts the data of one more record, which are of the RRset's type, last.
    pub fn push_data(&mut self, item: StoredRecordData) -> Result<(), AllocError>
        requires { rtype_of item ≡ self.old.rtype }
        ensures ok { OnOk result (self.new ≡ with_data self.old (data_fields item)) }
        ensures err { OnErr result (self.new ≡ self.old) }
    {
        push_last(&mut self.items, &mut self.seen, item)
    }

    /// Puts the data of a record of the RRset's type last, and lowers the TTL to the record's where it is higher. The record's owner and class
    /// aren't looked at.
    pub fn push_record(&mut self, added: StoredRecord) -> Result<(), AllocError>
        requires { added.rtype ≡ self.old.rtype }
        ensures ok { OnOk result (self.new ≡ with_record self.old added.ttl added.fields) }
        ensures err { OnErr result (self.new ≡ self.old) }
    {
        let ttl = added.ttl();
        self.push_data(added.into_data())?;
        self.limit_ttl(ttl);
        Ok(())
    }

    /// The RRset after an `Arc`.
    pub fn into_shared(self, alloc: Global) -> Result<SharedRrset, AllocError>
        ensures { IfOk result (λ s. s ≡ self) }
    {
        SharedRrset::new(alloc, self)
    }
}

impl Clone for Rrset {
    ghost is_clone = { λ s copy. copy ≡ s };

    fn clone(&self) -> Result<Rrset, AllocError> {
        Ok(Rrset {
            rtype: self.rtype,
            ttl: self.ttl,
            items: self.items.clone()?,
            seen: self.seen.clone()?,
        })
    }
}

impl PartialEq for Rrset {
    ghost use Rattle.zone_values.specs.TypedSets.{same_typed_set};
    ghost use Rattle.zone_values.specs.SameSets.{same_typed_set_partial};

    ghost eq = { same_typed_set };

    ghost laws = { same_typed_set_partial };

    /// Equal type, TTL and data in the same order, names in the data ASCII case aside.
    fn eq(&self, other: &Rrset) -> bool {
        if self.rtype != other.rtype {
            return false;
        }
        if self.ttl != other.ttl {
            return false;
        }
        self.items == other.items
    }
}

impl Eq for Rrset {
    ghost use Rattle.zone_values.specs.SameSets.{same_typed_set_equiv};

    ghost laws = { same_typed_set_equiv };
}

/// An RRset after an `Arc`, which its copies share.
#[derive(Debug, Drop)]
pub struct SharedRrset {
    set: Arc<Rrset>,
}

impl Model for SharedRrset {
    ghost use Rattle.zone_values.specs.TypedSets.{TypedSet};

    ghost Value = { TypedSet };

    ghost view = { λ s. s.set.value };
}

impl SharedRrset {
    /// The RRset after an `Arc`.
    pub fn new(alloc: Global, set: Rrset) -> Result<SharedRrset, AllocError>
        ensures { IfOk result (λ s. s ≡ set) }
    {
        Ok(SharedRrset {
            set: Arc::new(alloc, set)?,
        })
    }

    /// The RRset.
    pub fn as_rrset(&self) -> &Rrset
        ensures { result.now ≡ self.now }
    {
        &self.set
    }
}

impl Deref for SharedRrset {
    type Target = Rrset;

    ghost use Rattle.std.specs.Prelude.{◌≡◌};

    ghost deref_gives = { λ s set. set ≡ s };

    fn deref(&self) -> &Rrset {
        self.as_rrset()
    }
}

impl AsRef<Rrset> for SharedRrset {
    fn as_ref(&self) -> &Rrset
        ensures { result.now ≡ self.now }
    {
        self.as_rrset()
    }
}

impl Clone for SharedRrset {
    ghost is_clone = { λ s copy. copy ≡ s };

    fn clone(&self) -> Result<SharedRrset, AllocError> {
        Ok(SharedRrset {
            set: self.set.clone()?,
        })
    }
}

impl PartialEq for SharedRrset {
    ghost use Rattle.zone_values.specs.TypedSets.{same_typed_set};
    ghost use Rattle.zone_values.specs.SameSets.{same_typed_set_partial};

    ghost eq = { same_typed_set };

    ghost laws = { same_typed_set_partial };

    /// Whether the RRsets are equal, field by field.
    fn eq(&self, other: &SharedRrset) -> bool {
        self.as_rrset() == other.as_rrset()
    }
}

impl Eq for SharedRrset {
    ghost use Rattle.zone_values.specs.SameSets.{same_typed_set_equiv};

    ghost laws = { same_typed_set_equiv };
}

// The RRset in place.
impl SharedRrset {
    ghost use Rattle.std.specs.Borrow.{sem};
    ghost use Rattle.zone_values.specs.SetLends.{lends_set};

    /// The RRset, to write. If copies share it, this one gets its own first. Without memory it is as before.
    pub fn make_mut(&mut self) -> Result<&mut Rrset, AllocError>
        ensures* writes_back { sem 𝓛 (lends_set self.entry result) }
        ensures value { IfOk result (λ x. x.now ≡ self.old) }
    {
        Ok(Arc::make_mut(&mut self.set)?)
    }
}
