// Domain names in wire form (RFC 1035, 3.1).
ghost use Rattle.std.specs.Prelude.{◌≡◌, ◌≤◌, ◌∷◌, [], ℕ, List, IfOk, IsTrue, Ok, MatchOption, length, drop};
ghost use Rattle.std.specs.Bool.{OnTrue};
ghost use Rattle.dns_name.specs.Names.{Name as LabelList, is_name, name_wire, fold, labels_in};

use crate::error::NameError;
use crate::label::Label;
use crate::labels::Labels;
use crate::name_octets::NameOctets;
use crate::parsed::{ParsedName, decode};
use bytes::Bytes;
use std::alloc::{AllocError, Global};
use std::convert::AsSlice;
use std::marker::Model;

/// A domain name in wire form, without a pointer: 1 to 255 octets, the root label last (RFC 1035, 3.1).
#[derive(Drop)]
pub struct Name<Octs: AsSlice<u8>> {
    octets: Octs,
}

/// A name in memory of its own.
pub type StoredName = Name<Bytes>;

/// A name in place, which takes no memory.
pub type KeyName = Name<NameOctets>;

/// A name in octets that are lent.
pub type NameRef<'a> = Name<&'a [u8]>;

impl<Octs: AsSlice<u8>> Model for Name<Octs> {
    ghost use Rattle.std.specs.Prelude.{◌≡◌, ℕ, List, IsTrue};
    ghost use Rattle.dns_name.specs.Names.{labels_in, is_name, name_wire};

    ghost Value = { List (List ℕ) };

    ghost view = { λ n. labels_in (Octs.items n.octets) };

    ghost invariant = { λ n. IsTrue (is_name (labels_in (Octs.items n.octets))) × (name_wire (labels_in (Octs.items n.octets)) ≡ Octs.items n.octets) };
}

impl<Octs: AsSlice<u8> + Drop> Name<Octs> {
    /// The name that the octets spell, all of them and without a pointer.
    pub fn from_octets(octets: Octs) -> Result<Name<Octs>, NameError>
        // What is read is spelled so.
        ensures found { IfOk result (λ name. IsTrue (is_name name) × (name_wire name ≡ Octs.items octets)) }
        // What is spelled so is read.
        ensures only { (name : LabelList) → IsTrue (is_name name) → name_wire name ≡ Octs.items octets → result ≡ Ok name }
    {
        if spells_name(octets.as_slice()) {
            Ok(Name { octets })
        } else {
            Err(NameError)
        }
    }
}

/// Whether the octets are the wire form of a name, all of them and without a pointer.
fn spells_name(octets: &[u8]) -> bool
    ensures found { OnTrue result (IsTrue (is_name (labels_in octets.now)) × (name_wire (labels_in octets.now) ≡ octets.now)) }
    ensures only { (name : LabelList) → IsTrue (is_name name) → name_wire name ≡ octets.now → IsTrue result }
{
    match decode(octets, 0) {
        Ok((name, _)) => name.as_slice() == octets,
        Err(_) => false,
    }
}

impl<Octs: AsSlice<u8>> Name<Octs> {
    /// The wire form.
    pub fn as_slice(&self) -> &[u8]
        ensures wire { result.now ≡ name_wire self.now }
        ensures name { IsTrue (is_name self.now) }
        ensures bound { length result.now ≤ 255 }
    {
        self.octets.as_slice()
    }

    /// The name, its octets lent.
    pub fn borrowed(&self) -> NameRef<'_>
        ensures value { result ≡ self.now }
        ensures name { IsTrue (is_name self.now) }
    {
        Name {
            octets: self.as_slice(),
        }
    }

    /// The name in place.
    pub fn in_place(&self) -> KeyName
        ensures value { result ≡ self.now }
        ensures name { IsTrue (is_name self.now) }
    {
        Name {
            octets: NameOctets::from_slice(self.as_slice()),
        }
    }

    /// The name in memory of its own.
    pub fn store(&self, alloc: Global) -> Result<StoredName, AllocError>
        ensures { IfOk result (λ n. n ≡ self.now) }
    {
        Ok(Name {
            octets: Bytes::copy_from_slice(alloc, self.as_slice())?,
        })
    }

    /// The labels from the left, without the root label.
    pub fn iter_labels(&self) -> Labels<'_>
        ensures value { result ≡ self.now }
        ensures few { length result ≤ 127 }
    {
        Labels::of(ParsedName::whole(self.as_slice()))
    }
}

impl<'a> Name<&'a [u8]> {
    /// The name that the octets spell, all of them and without a pointer.
    pub(crate) fn whole(octets: &'a [u8]) -> NameRef<'a>
        requires name { IsTrue (is_name (labels_in octets.now)) }
        requires wire { name_wire (labels_in octets.now) ≡ octets.now }
        ensures { result ≡ labels_in octets.now }
    {
        Name { octets }
    }

    /// How many labels there are, the root label aside.
    pub fn label_count(&self) -> usize
        ensures value { result ≡ length self.now }
        ensures bound { result ≤ 127 }
    {
        let mut rest = self.borrowed();
        let mut count = 0;
        while let Some((_, tail)) = rest.split_first() {
            rest = tail;
            count += 1;
        }
        count
    }

    /// The name without its first `count` labels.
    pub fn without_first(&self, count: usize) -> NameRef<'_>
        requires { count ≤ length self.now }
        ensures { result ≡ drop count self.now }
    {
        let mut rest = self.borrowed();
        for step in 0..count {
            if let Some((_, tail)) = rest.split_first() {
                rest = tail;
            }
        }
        rest
    }

    /// The first label and the name after it, if this isn't the root.
    pub fn split_first(&self) -> Option<(Label<'a>, NameRef<'a>)>
        ensures { MatchOption result (self.now ≡ []) (λ r. self.now ≡ r.0 ∷ r.1) }
    {
        let octets = self.octets;
        let len = octets[0] as usize;
        if len == 0 {
            return None;
        }
        let label = Label::of(&octets[1..1 + len]);
        let rest = Name {
            octets: &octets[1 + len..],
        };
        Some((label, rest))
    }
}

impl Name<NameOctets> {
    /// The name that the octets spell.
    pub fn from_wire(octets: NameOctets) -> KeyName
        requires name { IsTrue (is_name (labels_in octets)) }
        requires wire { name_wire (labels_in octets) ≡ octets }
        ensures { result ≡ labels_in octets }
    {
        Name { octets }
    }

    /// The root.
    pub fn root() -> KeyName
        ensures { result ≡ [] }
    {
        Name {
            octets: NameOctets::from_slice(&[0]),
        }
    }

    /// The same name again.
    pub fn duplicate(&self) -> KeyName
        ensures { result ≡ self.now }
    {
        Name {
            octets: self.octets.duplicate(),
        }
    }

    /// The name with its ASCII letters in lower case (RFC 4343, 3).
    pub fn into_canonical(self) -> KeyName
        ensures { result ≡ fold self }
    {
        let mut octets = self.octets;
        octets.make_ascii_lowercase();
        Name { octets }
    }
}

impl Name<Bytes> {
    /// The root.
    pub fn root() -> StoredName
        ensures { result ≡ [] }
    {
        Name {
            octets: Bytes::from_static(b"\0"),
        }
    }
}

impl Clone for Name<Bytes> {
    ghost is_clone = { λ n copy. copy ≡ n };

    fn clone(&self) -> Result<StoredName, AllocError> {
        Ok(Name {
            octets: self.octets.clone()?,
        })
    }
}
