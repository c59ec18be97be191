// Octets of a key in place, put there from the end.
ghost use Rattle.std.specs.Prelude.{◌≡◌, ◌≤◌, ◌<◌, ◌+◌, ◌++◌, ◌∷◌, [], length, IsTrue};
ghost use Rattle.std.specs.Char.{to_ascii_lowercase};
ghost use Rattle.std.specs.Str.{str_to_ascii_lowercase};
ghost use Rattle.dns_name.specs.Names.{is_name};
ghost use Rattle.name_keys.specs.NameKeys.{octet_key, label_key, name_key};

use dns_name::{Labelled, Name};
use std::convert::AsSlice;
use std::marker::Model;

/// Up to 504 octets in place, so that no memory is asked for: no name has a longer key.
#[derive(Drop)]
pub struct KeyOctets {
    octets: [u8; 504],
    start: usize,
}

impl Model for KeyOctets {
    ghost use Rattle.std.specs.Prelude.{ℕ, List, drop, length, ◌≤◌};

    ghost Value = { List ℕ };

    ghost view = { λ k. drop k.start k.octets };

    ghost invariant = { λ k. k.start ≤ 504 };
}

impl KeyOctets {
    /// No octets.
    pub fn new() -> KeyOctets
        ensures { result ≡ [] }
    {
        KeyOctets {
            octets: [0; 504],
            start: 504,
        }
    }

    /// The octets.
    pub fn as_slice(&self) -> &[u8]
        ensures value { result.now ≡ self.now }
        ensures bound { length result.now ≤ 504 }
    {
        &self.octets[self.start..]
    }

    /// Puts the key of a name in place of what was here.
    pub fn fill<Octs: AsSlice<u8>>(&mut self, name: &Name<Octs>)
        ensures key { self.new ≡ name_key name.now }
        ensures name { IsTrue (is_name name.now) }
    {
        self.clear();
        let mut rest = name.borrowed();
        while let Some((label, tail)) = rest.split_first() {
            self.put_label(label.as_slice());
            rest = tail;
        }
    }

    /// Puts the key of what has labels in place of what was here.
    pub fn fill_labels<N: Labelled>(&mut self, name: &N)
        ensures key { self.new ≡ name_key (N.labels name.now) }
        ensures name { IsTrue (is_name (N.labels name.now)) }
    {
        // For the proof: the labels are those of a name that has a wire form.
        let _ = name.compose_len();
        self.clear();
        for label in name.iter_labels() {
            self.put_label(label.as_slice());
        }
    }

    /// Leaves no octets.
    fn clear(&mut self)
        ensures { self.new ≡ [] }
    {
        self.start = 504;
    }

    /// Puts a label in front: its octets in lower case, as a key has them, then a 0.
    fn put_label(&mut self, label: &[u8])
        requires { length (label_key (str_to_ascii_lowercase label.now)) + length self.old ≤ 504 }
        ensures { self.new ≡ label_key (str_to_ascii_lowercase label.now) ++ self.old }
    {
        self.put(0);
        let mut left = label.len();
        while left > 0 {
            left -= 1;
            self.put_folded(label[left]);
        }
    }

    /// Puts an octet of a label in front, in lower case, as a key has it.
    #[tactic(auto, using(crate::proofs::Octets::behind_capitals))]
    fn put_folded(&mut self, octet: u8)
        requires { length (octet_key (to_ascii_lowercase octet)) + length self.old ≤ 504 }
        ensures { self.new ≡ octet_key (to_ascii_lowercase octet) ++ self.old }
    {
        // Most octets come after the capitals.
        if octet > b'Z' {
            self.put(octet);
            return;
        }
        let folded = octet.to_ascii_lowercase();
        if folded < 2 {
            self.put(folded + 1);
            self.put(1);
        } else {
            self.put(folded);
        }
    }

    /// Puts an octet in front.
    fn put(&mut self, octet: u8)
        requires { length self.old < 504 }
        ensures { self.new ≡ octet ∷ self.old }
    {
        let start = self.start - 1;
        self.octets[start] = octet;
        self.start = start;
    }
}

impl AsSlice<u8> for KeyOctets {
    ghost items = { λ k. k };

    fn as_slice(&self) -> &[u8] {
        KeyOctets::as_slice(self)
    }
}
