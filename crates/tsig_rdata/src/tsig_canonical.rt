// Canonical order of TSIG data (RFC 4034, 6.2 and 6.3).
ghost use Rattle.std.specs.Prelude.{◌≡◌};
ghost use Rattle.tsig_rdata.specs.CanonicalTsig.{canonical_tsig_cmp, times_wire, state_wire};

use crate::rdata::Tsig;
use dns_name::Labelled;
use std::cmp::Ordering;
use std::convert::AsSlice;

impl<O: AsSlice<u8> + Drop, N: Labelled + Drop> Tsig<O, N> {
    /// Time signed, fudge and the MAC's length in ten octets, as they are sent.
    fn times(&self) -> [u8; 10]
        ensures { result ≡ times_wire self.now }
    {
        let [a, b, c, d, e, f] = self.time_signed().into_octets();
        let [g, h] = self.fudge().to_be_bytes();
        let [i, j] = (self.mac_slice().len() as u16).to_be_bytes();
        [a, b, c, d, e, f, g, h, i, j]
    }

    /// Original id, error and the other octets' length in six octets, as they are sent.
    fn state(&self) -> [u8; 6]
        ensures { result ≡ state_wire self.now }
    {
        let [a, b] = self.original_id().to_be_bytes();
        let [c, d] = self.error().to_be_bytes();
        let [e, f] = (self.other().len() as u16).to_be_bytes();
        [a, b, c, d, e, f]
    }

    /// Canonical order: the data as they are sent, as strings of octets. Case counts in the algorithm's name, since TSIG is none of the types
    /// whose names are put in lower case (RFC 4034, 6.2 and 6.3).
    #[tactic(auto, using(crate::proofs::CanonicalOrder::canonical_parts))]
    pub fn canonical_cmp<P: AsSlice<u8> + Drop, M: Labelled + Drop>(
        &self,
        other: &Tsig<P, M>,
    ) -> Ordering
        ensures { result ≡ canonical_tsig_cmp self.now other.now }
    {
        let name = self.algorithm().to_key_name();
        let other_name = other.algorithm().to_key_name();
        name.as_slice()
            .cmp(other_name.as_slice())
            .then(self.times().cmp(&other.times()))
            .then(self.mac_slice().cmp(other.mac_slice()))
            .then(self.state().cmp(&other.state()))
            .then(self.other().cmp(other.other()))
    }
}
