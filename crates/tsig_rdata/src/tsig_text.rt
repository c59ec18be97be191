// TSIG data as text.
ghost use Rattle.std.specs.Prelude.{◌≡◌, ◌++◌, Some, codes};
ghost use Rattle.tsig_rdata.specs.TsigText.{absolute_text, base64_text, tsig_text};

use crate::rdata::Tsig;
use base64::display::Base64Display;
use base64::engine::general_purpose::STANDARD;
use dns_name::{KeyName, Labelled};
use dns_numbers::TsigRcode;
use std::convert::AsSlice;
use std::fmt;

/// A name that prints with its last dot (RFC 1035, 5.1).
#[derive(Drop)]
struct AbsoluteName {
    name: KeyName,
}

impl fmt::Display for AbsoluteName {
    ghost output = { λ a. Some (absolute_text a.name) };

    fn fmt<W: fmt::Write>(&self, f: &mut fmt::Formatter<W>) -> fmt::Result {
        let name = &self.name;
        match name.borrowed().split_first() {
            None => write!(f, "."),
            Some(_) => write!(f, "{name}."),
        }
    }
}

/// Octets that print in base64 (RFC 4648, 4).
#[derive(Clone, Copy)]
struct Base64Text<'a> {
    octets: &'a [u8],
}

impl<'a> fmt::Display for Base64Text<'a> {
    ghost output = { λ t. Some (base64_text t.octets.now) };

    #[tactic(auto, unfolding(crate::specs::TsigText::base64_text))]
    fn fmt<W: fmt::Write>(&self, f: &mut fmt::Formatter<W>) -> fmt::Result {
        let shown = Base64Display::new(self.octets, &STANDARD);
        write!(f, "{shown}")
    }
}

impl<O: AsSlice<u8> + Drop, N: Labelled + Drop> fmt::Display for Tsig<O, N> {
    ghost output = { λ t. Some (tsig_text t) };

    /// The fields with a space between them: the algorithm's name with its last dot, the time signed in seconds, the fudge, the MAC in
    /// base64, the original id, the error by its name, and the other octets in base64 within quotes (RFC 8945, 4.2; RFC 4648, 4).
    fn fmt<W: fmt::Write>(&self, f: &mut fmt::Formatter<W>) -> fmt::Result {
        let algorithm = AbsoluteName {
            name: self.algorithm().to_key_name(),
        };
        let time_signed = self.time_signed();
        let fudge = self.fudge();
        let mac = Base64Text {
            octets: self.mac_slice(),
        };
        let original_id = self.original_id();
        let error = TsigRcode::from_int(self.error());
        let other = Base64Text {
            octets: self.other(),
        };
        write!(
            f,
            "{algorithm} {time_signed} {fudge} {mac} {original_id} {error} \"{other}\""
        )
    }
}

impl<O: AsSlice<u8> + Drop, N: Labelled + Drop> fmt::Debug for Tsig<O, N> {
    ghost debug_output = { λ t. Some (codes "Tsig(" ++ tsig_text t ++ codes ")") };

    fn fmt<W: fmt::Write>(&self, f: &mut fmt::Formatter<W>) -> fmt::Result {
        write!(f, "Tsig({self})")
    }
}
