// Octets of a name in place.
ghost use Rattle.std.specs.Prelude.{◌≡◌, ◌≤◌, ◌<◌, ◌+◌, ◌++◌, ◌∷◌, [], length, map};
ghost use Rattle.std.specs.Char.{to_ascii_lowercase};
ghost use Rattle.std.specs.Prelude.{if◌then◌else◌, nat_le, OnErr, OnOk};

use crate::error::NameError;
use std::convert::AsSlice;
use std::marker::Model;

/// Up to 255 octets in place, so that no memory is asked for.
#[derive(Drop)]
pub struct NameOctets {
    octets: [u8; 255],
    len: usize,
}

impl Model for NameOctets {
    ghost use Rattle.std.specs.Prelude.{ℕ, List, take, length, ◌≤◌};

    ghost Value = { List ℕ };

    ghost view = { λ n. take n.len n.octets };

    ghost invariant = { λ n. n.len ≤ 255 };
}

impl NameOctets {
    /// No octets.
    pub fn new() -> NameOctets
        ensures { result ≡ [] }
    {
        NameOctets {
            octets: [0; 255],
            len: 0,
        }
    }

    /// Octets in place, 255 at most.
    pub fn from_slice(octets: &[u8]) -> NameOctets
        requires { length octets.now ≤ 255 }
        ensures { result ≡ octets.now }
    {
        let len = octets.len();
        let mut all = [0; 255];
        all[..len].copy_from_slice(octets);
        NameOctets { octets: all, len }
    }

    /// The octets.
    pub fn as_slice(&self) -> &[u8]
        ensures value { result.now ≡ self.now }
        ensures bound { length self.now ≤ 255 }
    {
        &self.octets[..self.len]
    }

    /// The same octets again.
    pub fn duplicate(&self) -> NameOctets
        ensures { result ≡ self.now }
    {
        NameOctets {
            octets: self.octets,
            len: self.len,
        }
    }

    /// Puts the octets at the end, if there is room for them.
    pub fn append(&mut self, octets: &[u8]) -> Result<(), NameError>
        ensures ok { OnOk result (self.new ≡ self.old ++ octets.now) }
        ensures fits { OnOk result (length self.old + length octets.now ≤ 255) }
        ensures err { OnErr result (self.new ≡ self.old) }
        ensures full { OnErr result (256 ≤ length self.old + length octets.now) }
    {
        let start = self.len;
        if octets.len() > 255 - start {
            return Err(NameError);
        }
        let end = start + octets.len();
        self.octets[start..end].copy_from_slice(octets);
        self.len = end;
        Ok(())
    }

    /// Puts a label at the end, after its length, if there is room for both.
    pub fn append_label(&mut self, label: &[u8]) -> Result<(), NameError>
        requires { length label.now ≤ 63 }
        ensures ok { OnOk result (self.new ≡ self.old ++ length label.now ∷ label.now) }
        ensures fits { OnOk result (length self.old + length label.now < 255) }
        ensures err { OnErr result (self.new ≡ self.old) }
        ensures full { OnErr result (255 ≤ length self.old + length label.now) }
    {
        if label.len() >= 255 - self.len {
            return Err(NameError);
        }
        self.append(&[label.len() as u8])?;
        self.append(label)
    }

    /// Puts the ASCII letters in lower case.
    pub fn make_ascii_lowercase(&mut self)
        ensures { self.new ≡ map to_ascii_lowercase self.old }
    {
        let len = self.len;
        self.octets[..len].make_ascii_lowercase();
    }
}

impl AsSlice<u8> for NameOctets {
    ghost items = { λ n. n };

    fn as_slice(&self) -> &[u8] {
        NameOctets::as_slice(self)
    }
}
