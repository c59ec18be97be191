// The order of data: ties are equal data, whatever their type.
ghost use Rattle.std.specs.Prelude.{◌≡◌, ◌++◌};
ghost use Rattle.std.specs.Ordering.{nat_cmp};
ghost use Rattle.std.specs.Cmp.Lexicographic.{slice_cmp};
ghost use Rattle.dns_name.specs.Records.{same_data};
ghost use Rattle.dns_name.specs.LentFields.{field_of, fields_in};
ghost use Rattle.dns_rdata.specs.DataOrder.{data_cmp, field_cmp as field_order};
ghost use Rattle.dns_rdata.specs.ZoneData.{fields_of};

use crate::record_data::RecordData;
use crate::zone_data::ZoneRecordData;
use dns_name::{Labelled, LentField, LentFields, ToName};
use std::cmp::Ordering;
use std::convert::AsSlice;

impl<O: AsSlice<u8> + Drop, N: ToName + Drop> ZoneRecordData<O, N> {
    /// The order of the fields, one after another: octets as strings and before names, names in canonical order (RFC 4034, 6.1). The types
    /// aren't looked at. Data with equal fields tie.
    pub fn fields_cmp<P: AsSlice<u8> + Drop, M: Labelled + Drop>(
        &self,
        other: &ZoneRecordData<P, M>,
    ) -> Ordering
        ensures { result ≡ data_cmp (fields_of N.labels self.now) (fields_of M.labels other.now) }
    {
        lent_cmp(&self.lent_fields(), &other.lent_fields())
    }

    /// Whether the fields are equal, names ASCII case aside; the types aren't looked at.
    #[tactic(auto, using(crate::specs::DataTies::data_ties))]
    pub fn fields_eq<P: AsSlice<u8> + Drop, M: Labelled + Drop>(
        &self,
        other: &ZoneRecordData<P, M>,
    ) -> bool
        ensures { result ≡ same_data (fields_of N.labels self.now) (fields_of M.labels other.now) }
    {
        self.fields_cmp(other).is_eq()
    }
}

impl<O: AsSlice<u8> + Drop, N: ToName + Drop> PartialOrd for ZoneRecordData<O, N> {
    ghost use Rattle.std.specs.Prelude.{refl};
    ghost use Rattle.std.specs.Cmp.{partial_order_from_agreeing_total};
    ghost use Rattle.std.specs.Ordering.{as_partial_cmp};
    ghost use Rattle.dns_rdata.specs.ZoneData.{zone_data_cmp};
    ghost use Rattle.dns_rdata.specs.ZoneDataOrder.{zone_data_total, zone_data_ties};

    ghost partial_cmp = { as_partial_cmp (zone_data_cmp N.labels N.labels) };

    ghost laws = { partial_order_from_agreeing_total (zone_data_cmp N.labels N.labels) (zone_data_total N.labels) (λ a b. refl) (zone_data_ties N.labels) };

    fn partial_cmp(&self, other: &ZoneRecordData<O, N>) -> Option<Ordering> {
        Some(self.cmp(other))
    }
}

impl<O: AsSlice<u8> + Drop, N: ToName + Drop> Ord for ZoneRecordData<O, N> {
    ghost use Rattle.std.specs.Prelude.{refl};
    ghost use Rattle.dns_rdata.specs.ZoneData.{zone_data_cmp};
    ghost use Rattle.dns_rdata.specs.ZoneDataOrder.{zone_data_total, zone_data_ties};

    ghost cmp = { zone_data_cmp N.labels N.labels };

    ghost total = { zone_data_total N.labels };

    ghost matches_partial_cmp = { λ a b. refl };

    ghost matches_eq = { zone_data_ties N.labels };

    /// By type, then by fields.
    fn cmp(&self, other: &ZoneRecordData<O, N>) -> Ordering {
        self.rtype()
            .cmp(&other.rtype())
            .then(self.fields_cmp(other))
    }
}

/// The order of fields, one after another; data whose fields end first come first.
fn lent_cmp<N: ToName, M: Labelled>(a: &LentFields<'_, N>, b: &LentFields<'_, M>) -> Ordering
    ensures { result ≡ data_cmp (fields_in N.labels a.now) (fields_in M.labels b.now) }
{
    match a {
        LentFields::One(x) => match b {
            LentFields::One(y) => field_cmp(x, y),
            LentFields::Two(y, _) => field_cmp(x, y).then(Ordering::Less),
            LentFields::Three(y, _, _) => field_cmp(x, y).then(Ordering::Less),
        },
        LentFields::Two(x, next) => match b {
            LentFields::One(y) => field_cmp(x, y).then(Ordering::Greater),
            LentFields::Two(y, other) => field_cmp(x, y).then(field_cmp(next, other)),
            LentFields::Three(y, other, _) => field_cmp(x, y)
                .then(field_cmp(next, other))
                .then(Ordering::Less),
        },
        LentFields::Three(x, next, last) => match b {
            LentFields::One(y) => field_cmp(x, y).then(Ordering::Greater),
            LentFields::Two(y, other) => field_cmp(x, y)
                .then(field_cmp(next, other))
                .then(Ordering::Greater),
            LentFields::Three(y, other, end) => field_cmp(x, y)
                .then(field_cmp(next, other))
                .then(field_cmp(last, end)),
        },
    }
}

/// The order of two fields: octets as strings and before names, names in canonical order (RFC 4034, 6.1).
fn field_cmp<N: ToName, M: Labelled>(a: &LentField<'_, N>, b: &LentField<'_, M>) -> Ordering
    ensures { result ≡ field_order (field_of N.labels a.now) (field_of M.labels b.now) }
{
    match a {
        LentField::Octets(numbers, octets) => match b {
            LentField::Octets(others, more) => {
                joined_cmp(numbers.as_slice(), octets, others.as_slice(), more)
            }
            LentField::DomainName(_) => Ordering::Less,
        },
        LentField::DomainName(name) => match b {
            LentField::Octets(_, _) => Ordering::Greater,
            LentField::DomainName(other) => (**name).name_cmp(*other),
        },
    }
}

/// The order of octets that are given in two parts each.
#[tactic(auto, using(crate::proofs::Comparing::longer_front, crate::proofs::Comparing::shorter_front))]
fn joined_cmp(a: &[u8], a_rest: &[u8], b: &[u8], b_rest: &[u8]) -> Ordering
    ensures { result ≡ slice_cmp nat_cmp (a.now ++ a_rest.now) (b.now ++ b_rest.now) }
{
    if a.len() < b.len() {
        let (front, tail) = b.split_at(a.len());
        return a.cmp(front).then(octets_cmp(a_rest, tail, b_rest));
    }
    let (front, tail) = a.split_at(b.len());
    front
        .cmp(b)
        .then(octets_cmp(b_rest, tail, a_rest).reverse())
}

/// The order of octets, and others that are given in two parts.
#[tactic(auto, using(crate::proofs::Comparing::within_front, crate::proofs::Comparing::split_order))]
fn octets_cmp(octets: &[u8], front: &[u8], rest: &[u8]) -> Ordering
    ensures { result ≡ slice_cmp nat_cmp octets.now (front.now ++ rest.now) }
{
    if octets.len() < front.len() {
        return octets.cmp(front);
    }
    let (start, tail) = octets.split_at(front.len());
    start.cmp(front).then(tail.cmp(rest))
}
