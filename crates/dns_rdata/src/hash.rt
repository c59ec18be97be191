// What data give to a hash: equal data give the same, whatever the case of their names.
ghost use Rattle.std.specs.Prelude.{◌≡◌, ◌++◌, fold};
ghost use Rattle.std.specs.Hash.{slice, u8 as u8_hash};
ghost use Rattle.dns_name.specs.NameOrder.{name_hash};
ghost use Rattle.dns_name.specs.LentFields.{field_of, fields_in};
ghost use Rattle.dns_rdata.specs.DataHash.{field_hash, fields_hash, zone_data_hash, same_zone_data_hash};

use crate::record_data::RecordData;
use crate::zone_data::ZoneRecordData;
use dns_name::{Labelled, LentField, LentFields, ToName};
use std::convert::AsSlice;
use std::hash::{Hash, Hasher};

impl<O: AsSlice<u8> + Drop, N: ToName + Drop> Hash for ZoneRecordData<O, N> {
    ghost hash_input = { zone_data_hash N.labels };

    ghost respects_eq = { same_zone_data_hash N.labels };

    /// The type, then field by field, names in lower case.
    fn hash<H: Hasher>(&self, state: &mut H) {
        self.rtype().hash(state);
        hash_fields(&self.lent_fields(), state);
    }
}

/// The fields, one after another.
fn hash_fields<N: Labelled, H: Hasher>(fields: &LentFields<'_, N>, state: &mut H)
    ensures { state.new ≡ fold H.write state.old (fields_hash (fields_in N.labels fields.now)) }
{
    match fields {
        LentFields::One(first) => hash_field(first, state),
        LentFields::Two(first, second) => {
            hash_field(first, state);
            hash_field(second, state);
        }
        LentFields::Three(first, second, third) => {
            hash_field(first, state);
            hash_field(second, state);
            hash_field(third, state);
        }
    }
}

fn hash_field<N: Labelled, H: Hasher>(field: &LentField<'_, N>, state: &mut H)
    ensures { state.new ≡ fold H.write state.old (field_hash (field_of N.labels field.now)) }
{
    match field {
        LentField::Octets(numbers, octets) => hash_octets(numbers.as_slice(), octets, state),
        LentField::DomainName(name) => hash_name(*name, state),
    }
}

/// The name in lower case.
pub(crate) fn hash_name<N: Labelled, H: Hasher>(name: &N, state: &mut H)
    ensures { state.new ≡ fold H.write state.old (name_hash (N.labels name.now)) }
{
    name.to_canonical().as_slice().hash(state);
}

/// Octets that are given in two parts, as one piece.
fn hash_octets<H: Hasher>(front: &[u8], rest: &[u8], state: &mut H)
    ensures { state.new ≡ fold H.write state.old (slice u8_hash (front.now ++ rest.now)) }
{
    (front.len() + rest.len()).hash(state);
    u8::hash_slice(front, state);
    u8::hash_slice(rest, state);
}
