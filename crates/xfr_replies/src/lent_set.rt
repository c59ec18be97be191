// A set where it is kept, of a version or of a difference.
ghost use Rattle.std.specs.Prelude.{◌≡◌, All, map, take};
ghost use Rattle.dns_rdata.specs.ZoneData.{rtype_of, data_fields};
ghost use Rattle.zone_model.specs.Answer.{first_only};
ghost use Rattle.zone_values.specs.TypedEntries.{typed};

use dns_numbers::{Rtype, Ttl};
use dns_rdata::StoredRecordData;
use std::marker::Model;
use zone_values::Rrset;

/// The type, the TTL and the data of a set, lent.
#[derive(Drop)]
pub(crate) struct LentSet<'t> {
    rtype: Rtype,
    ttl: Ttl,
    items: &'t [StoredRecordData],
}

impl<'t> Model for LentSet<'t> {
    ghost use Rattle.std.specs.Prelude.{◌≡◌, map, All};
    ghost use Rattle.dns_rdata.specs.ZoneData.{rtype_of, data_fields};
    ghost use Rattle.zone_values.specs.TypedSets.{TypedSet, set_of};

    ghost Value = { TypedSet };

    ghost view = { λ s. set_of s.rtype s.ttl (map data_fields s.items.now) };

    ghost invariant = { λ s. All (λ d. rtype_of d ≡ s.rtype) s.items.now };
}

impl<'t> LentSet<'t> {
    /// A set, lent.
    pub(crate) fn of(set: &'t Rrset) -> LentSet<'t>
        ensures { result ≡ set.now }
    {
        LentSet {
            rtype: set.rtype(),
            ttl: set.ttl(),
            items: set.data(),
        }
    }

    /// The first record alone.
    pub(crate) fn first_only(&self) -> LentSet<'t>
        ensures { result ≡ typed self.now.rtype (first_only self.now.contents) }
    {
        LentSet {
            rtype: self.rtype,
            ttl: self.ttl,
            items: first_item(self.items),
        }
    }

    /// The TTL, in seconds.
    pub(crate) fn ttl(&self) -> Ttl
        ensures { result ≡ self.now.contents.ttl }
    {
        self.ttl
    }

    /// The data of the records, in order.
    pub(crate) fn items(&self) -> &'t [StoredRecordData]
        ensures fields { map data_fields result.now ≡ self.now.contents.items }
        ensures types { All (λ d. rtype_of d ≡ self.now.rtype) result.now }
    {
        self.items
    }
}

/// The first of some data alone.
fn first_item(items: &[StoredRecordData]) -> &[StoredRecordData]
    ensures { result.now ≡ take 1 items.now }
{
    match items.split_at_checked(1) {
        Some((first, _)) => first,
        None => items,
    }
}
