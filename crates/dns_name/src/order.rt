// Equality, order and hash of names, ASCII case aside.
ghost use Rattle.std.specs.Prelude.{Some, refl};
ghost use Rattle.dns_name.specs.Names.{same_name, canonical_cmp};
ghost use Rattle.dns_name.specs.NameOrder.{same_name_equiv, same_name_per, canonical_total, canonical_ties, canonical_po, name_hash, same_hash};

use crate::name::Name;
use crate::parsed::ParsedName;
use crate::to_name::{Labelled, ToName};
use std::cmp::Ordering;
use std::convert::AsSlice;
use std::hash::{Hash, Hasher};

impl<Octs: AsSlice<u8>> PartialEq for Name<Octs> {
    ghost eq = { same_name };

    ghost laws = { same_name_per };

    fn eq(&self, other: &Self) -> bool {
        self.name_eq(other)
    }
}

impl<Octs: AsSlice<u8>> Eq for Name<Octs> {
    ghost laws = { same_name_equiv };
}

impl<Octs: AsSlice<u8>> PartialOrd for Name<Octs> {
    ghost partial_cmp = { λ a b. Some (canonical_cmp a b) };

    ghost laws = { canonical_po };

    fn partial_cmp(&self, other: &Self) -> Option<Ordering> {
        Some(self.name_cmp(other))
    }
}

impl<Octs: AsSlice<u8>> Ord for Name<Octs> {
    ghost cmp = { canonical_cmp };

    ghost total = { canonical_total };

    ghost matches_partial_cmp = { λ a b. refl };

    ghost matches_eq = { canonical_ties };

    fn cmp(&self, other: &Self) -> Ordering {
        self.name_cmp(other)
    }
}

impl<Octs: AsSlice<u8>> Hash for Name<Octs> {
    ghost hash_input = { name_hash };

    ghost respects_eq = { same_hash };

    fn hash<H: Hasher>(&self, state: &mut H) {
        self.in_place().into_canonical().as_slice().hash(state);
    }
}

impl<'m> PartialEq for ParsedName<'m> {
    ghost eq = { same_name };

    ghost laws = { same_name_per };

    fn eq(&self, other: &Self) -> bool {
        self.name_eq(other)
    }
}

impl<'m> Eq for ParsedName<'m> {
    ghost laws = { same_name_equiv };
}

impl<'m> PartialOrd for ParsedName<'m> {
    ghost partial_cmp = { λ a b. Some (canonical_cmp a b) };

    ghost laws = { canonical_po };

    fn partial_cmp(&self, other: &Self) -> Option<Ordering> {
        Some(self.name_cmp(other))
    }
}

impl<'m> Ord for ParsedName<'m> {
    ghost cmp = { canonical_cmp };

    ghost total = { canonical_total };

    ghost matches_partial_cmp = { λ a b. refl };

    ghost matches_eq = { canonical_ties };

    fn cmp(&self, other: &Self) -> Ordering {
        self.name_cmp(other)
    }
}

impl<'m> Hash for ParsedName<'m> {
    ghost hash_input = { name_hash };

    ghost respects_eq = { same_hash };

    fn hash<H: Hasher>(&self, state: &mut H) {
        self.to_canonical().as_slice().hash(state);
    }
}
