// Record data as keys: equal data are one key.
ghost use Rattle.std.specs.Prelude.{◌≡◌, IfOk};
ghost use Rattle.dns_rdata.specs.ZoneData.{data_fields};

use dns_rdata::StoredRecordData;
use std::alloc::AllocError;
use std::cmp::Ordering;
use std::marker::Model;

/// RDATA in an order whose ties are equal data, names ASCII case aside (RFC 2181, 5; RFC 4343, 3).
#[derive(Debug, Drop)]
pub(crate) struct DataKey {
    item: StoredRecordData,
}

impl Model for DataKey {
    ghost use Rattle.std.specs.Prelude.{List};
    ghost use Rattle.dns_rdata.specs.Records.{Field};
    ghost use Rattle.dns_rdata.specs.ZoneData.{data_fields};

    ghost Value = { List Field };

    ghost view = { λ k. data_fields k.item };
}

impl DataKey {
    /// The key of data, which shares the octets of their names.
    pub(crate) fn of(item: &StoredRecordData) -> Result<DataKey, AllocError>
        ensures { IfOk result (λ k. k ≡ data_fields item.now) }
    {
        Ok(DataKey {
            item: item.clone()?,
        })
    }
}

impl Clone for DataKey {
    ghost is_clone = { λ k copy. copy ≡ k };

    fn clone(&self) -> Result<DataKey, AllocError> {
        DataKey::of(&self.item)
    }
}

impl PartialEq for DataKey {
    ghost use Rattle.dns_rdata.specs.Records.{same_data};
    ghost use Rattle.dns_rdata.specs.SameData.{same_data_equiv};
    ghost use Rattle.std.specs.Cmp.{partial_equiv_from_equiv};

    ghost eq = { same_data };

    ghost laws = { partial_equiv_from_equiv same_data_equiv };

    #[tactic(auto, using(dns_rdata::specs::DataTies::data_ties))]
    fn eq(&self, other: &DataKey) -> bool {
        self.cmp(other) == Ordering::Equal
    }
}

impl Eq for DataKey {
    ghost use Rattle.dns_rdata.specs.SameData.{same_data_equiv};

    ghost laws = { same_data_equiv };
}

impl PartialOrd for DataKey {
    ghost use Rattle.std.specs.Prelude.{refl};
    ghost use Rattle.std.specs.Cmp.{partial_order_from_agreeing_total};
    ghost use Rattle.std.specs.Ordering.{as_partial_cmp};
    ghost use Rattle.dns_rdata.specs.DataOrder.{data_cmp};
    ghost use Rattle.dns_rdata.specs.DataTies.{data_total, data_ties};

    ghost partial_cmp = { as_partial_cmp data_cmp };

    ghost laws = { partial_order_from_agreeing_total data_cmp data_total (λ a b. refl) data_ties };

    fn partial_cmp(&self, other: &DataKey) -> Option<Ordering> {
        Some(self.cmp(other))
    }
}

impl Ord for DataKey {
    ghost use Rattle.std.specs.Prelude.{refl};
    ghost use Rattle.dns_rdata.specs.DataOrder.{data_cmp};
    ghost use Rattle.dns_rdata.specs.DataTies.{data_total, data_ties};

    ghost cmp = { data_cmp };

    ghost total = { data_total };

    ghost matches_partial_cmp = { λ a b. refl };

    ghost matches_eq = { data_ties };

    fn cmp(&self, other: &DataKey) -> Ordering {
        self.item.fields_cmp(&other.item)
    }
}
