// TSIG's algorithms, and their names (RFC 8945, 6).
ghost use Rattle.std.specs.Prelude.{◌≡◌, ◌≤◌, IsTrue, Some, length};
ghost use Rattle.dns_name.specs.Names.{is_name, labels_in, name_wire};
ghost use Rattle.tsig_keys.specs.Hmac.{native_len, block_len};
ghost use Rattle.tsig_keys.specs.TsigKeys.{algorithm_name, algorithm_of, algorithm_text, is_mac_len, ParsesAlgorithm};

use crate::errors::AlgorithmError;
use dns_name::{KeyName, NameOctets, ToName};
use std::fmt;
use std::str::FromStr;

/// TSIG's algorithms.
#[derive(Clone, Copy, Debug, PartialEq, Eq, Hash)]
pub enum Algorithm {
    Sha1,
    Sha256,
    Sha384,
    Sha512,
}

impl Algorithm {
    /// Whether a MAC may be that long.
    pub fn within_len_bounds(self, len: usize) -> bool
        ensures { result ≡ is_mac_len self len }
    {
        len >= 10 && len <= self.native_len() && self.native_len() <= 2 * len
    }

    /// The octets of a whole MAC.
    pub fn native_len(self) -> usize
        ensures { result ≡ native_len self }
    {
        match self {
            Algorithm::Sha1 => 20,
            Algorithm::Sha256 => 32,
            Algorithm::Sha384 => 48,
            Algorithm::Sha512 => 64,
        }
    }

    /// The algorithm of that name, in any case, if it is one of the four (RFC 8945, 6).
    pub fn from_name<N: ToName>(name: &N) -> Option<Algorithm>
        ensures { result ≡ algorithm_of (N.labels name.now) }
    {
        if name.name_eq(&Algorithm::Sha1.to_name()) {
            Some(Algorithm::Sha1)
        } else if name.name_eq(&Algorithm::Sha256.to_name()) {
            Some(Algorithm::Sha256)
        } else if name.name_eq(&Algorithm::Sha384.to_name()) {
            Some(Algorithm::Sha384)
        } else if name.name_eq(&Algorithm::Sha512.to_name()) {
            Some(Algorithm::Sha512)
        } else {
            None
        }
    }

    /// The algorithm's name, of one label (RFC 8945, 6).
    pub fn to_name(self) -> KeyName
        ensures { result ≡ algorithm_name self }
    {
        match self {
            Algorithm::Sha1 => name_of_wire(b"\x09hmac-sha1\0"),
            Algorithm::Sha256 => name_of_wire(b"\x0bhmac-sha256\0"),
            Algorithm::Sha384 => name_of_wire(b"\x0bhmac-sha384\0"),
            Algorithm::Sha512 => name_of_wire(b"\x0bhmac-sha512\0"),
        }
    }

    /// The octets in a block of the digest (RFC 2104, 2).
    pub fn block_len(self) -> usize
        ensures block { result ≡ block_len self }
        ensures most { result ≤ 128 }
    {
        match self {
            Algorithm::Sha1 | Algorithm::Sha256 => 64,
            Algorithm::Sha384 | Algorithm::Sha512 => 128,
        }
    }
}

impl Algorithm {
    /// The text of its name (RFC 8945, 6).
    fn text(self) -> &'static str
        ensures { result.now ≡ algorithm_text self }
    {
        match self {
            Algorithm::Sha1 => "hmac-sha1",
            Algorithm::Sha256 => "hmac-sha256",
            Algorithm::Sha384 => "hmac-sha384",
            Algorithm::Sha512 => "hmac-sha512",
        }
    }
}

/// The algorithm of one of the texts `hmac-sha1`, `hmac-sha256`, `hmac-sha384` and `hmac-sha512`, in lower case (RFC 8945, 6).
impl FromStr for Algorithm {
    type Err = AlgorithmError;

    ghost from_str_gives = { ParsesAlgorithm };

    fn from_str(s: &str) -> Result<Algorithm, AlgorithmError> {
        if s == Algorithm::Sha1.text() {
            return Ok(Algorithm::Sha1);
        }
        if s == Algorithm::Sha256.text() {
            return Ok(Algorithm::Sha256);
        }
        if s == Algorithm::Sha384.text() {
            return Ok(Algorithm::Sha384);
        }
        if s == Algorithm::Sha512.text() {
            return Ok(Algorithm::Sha512);
        }
        Err(AlgorithmError)
    }
}

impl fmt::Display for Algorithm {
    ghost output = { λ a. Some (algorithm_text a) };

    fn fmt<W: fmt::Write>(&self, f: &mut fmt::Formatter<W>) -> fmt::Result {
        let text = self.text();
        write!(f, "{text}")
    }
}

/// The name that the octets spell, all of them and without a pointer.
fn name_of_wire(wire: &[u8]) -> KeyName
    requires short { length wire.now ≤ 255 }
    requires name { IsTrue (is_name (labels_in wire.now)) }
    requires spelled { name_wire (labels_in wire.now) ≡ wire.now }
    ensures { result ≡ labels_in wire.now }
{
    let mut octets = NameOctets::new();
    let _ = octets.append(wire);
    KeyName::from_wire(octets)
}
