// Equality, order and hash of TSIG data, the algorithm's name ASCII case aside.
ghost use Rattle.std.specs.Prelude.{◌≡◌, Some, refl};
ghost use Rattle.tsig_rdata.specs.TsigOrder.{same_tsig, tsig_cmp, tsig_hash, same_tsig_equiv, same_tsig_partial, tsig_total, tsig_ties, tsig_partial_order, same_tsig_hash};

use crate::rdata::Tsig;
use dns_name::{Labelled, ToName};
use std::cmp::Ordering;
use std::convert::AsSlice;
use std::hash::{Hash, Hasher};

impl<O: AsSlice<u8> + Drop, N: ToName + Drop> Tsig<O, N> {
    /// Whether the data are equal: the algorithms' names ASCII case aside, and all else octet for octet.
    pub fn data_eq<P: AsSlice<u8> + Drop, M: Labelled + Drop>(&self, other: &Tsig<P, M>) -> bool
        ensures { result ≡ same_tsig self.now other.now }
    {
        self.algorithm().name_eq(other.algorithm())
            && self.time_signed() == other.time_signed()
            && self.fudge() == other.fudge()
            && self.mac_slice() == other.mac_slice()
            && self.original_id() == other.original_id()
            && self.error() == other.error()
            && self.other() == other.other()
    }

    /// The order of the fields as they are sent, one after another: names in canonical order (RFC 4034, 6.1), numbers, octets as
    /// strings. The order of RFC 4034, 6.3 is `canonical_cmp`.
    pub fn data_cmp<P: AsSlice<u8> + Drop, M: Labelled + Drop>(
        &self,
        other: &Tsig<P, M>,
    ) -> Ordering
        ensures { result ≡ tsig_cmp self.now other.now }
    {
        self.algorithm()
            .name_cmp(other.algorithm())
            .then(self.time_signed().cmp(&other.time_signed()))
            .then(self.fudge().cmp(&other.fudge()))
            .then(self.mac_slice().cmp(other.mac_slice()))
            .then(self.original_id().cmp(&other.original_id()))
            .then(self.error().cmp(&other.error()))
            .then(self.other().cmp(other.other()))
    }
}

impl<O: AsSlice<u8> + Drop, N: ToName + Drop> PartialEq for Tsig<O, N> {
    ghost eq = { same_tsig };

    ghost laws = { same_tsig_partial };

    fn eq(&self, other: &Tsig<O, N>) -> bool {
        self.data_eq(other)
    }
}

impl<O: AsSlice<u8> + Drop, N: ToName + Drop> Eq for Tsig<O, N> {
    ghost laws = { same_tsig_equiv };
}

impl<O: AsSlice<u8> + Drop, N: ToName + Drop> PartialOrd for Tsig<O, N> {
    ghost partial_cmp = { λ a b. Some (tsig_cmp a b) };

    ghost laws = { tsig_partial_order };

    fn partial_cmp(&self, other: &Tsig<O, N>) -> Option<Ordering> {
        Some(self.data_cmp(other))
    }
}

impl<O: AsSlice<u8> + Drop, N: ToName + Drop> Ord for Tsig<O, N> {
    ghost cmp = { tsig_cmp };

    ghost total = { tsig_total };

    ghost matches_partial_cmp = { λ a b. refl };

    ghost matches_eq = { tsig_ties };

    fn cmp(&self, other: &Tsig<O, N>) -> Ordering {
        self.data_cmp(other)
    }
}

impl<O: AsSlice<u8> + Drop, N: ToName + Drop> Hash for Tsig<O, N> {
    ghost hash_input = { tsig_hash };

    ghost respects_eq = { same_tsig_hash };

    fn hash<H: Hasher>(&self, state: &mut H) {
        self.algorithm().to_canonical().as_slice().hash(state);
        self.time_signed().hash(state);
        self.fudge().hash(state);
        self.mac_slice().hash(state);
        self.original_id().hash(state);
        self.error().hash(state);
        self.other().hash(state);
    }
}
