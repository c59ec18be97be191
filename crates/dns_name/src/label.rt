// Labels whose octets are lent.
ghost use Rattle.std.specs.Prelude.{◌≡◌, ◌≤◌, ◌==◌, ◌∷◌, [], length, IfOk, OnErr, Some, refl};
ghost use Rattle.std.specs.Str.{bytes_eq, str_to_ascii_lowercase};
ghost use Rattle.dns_name.specs.LabelOrder.{same_label, same_label_equiv, same_label_per, label_cmp, label_total, label_ties, label_po, label_hash, same_label_hash};

use crate::error::NameError;
use crate::owned::OwnedLabel;
use std::cmp::Ordering;
use std::hash::{Hash, Hasher};
use std::marker::Model;

/// A label: up to 63 octets, none for the root label (RFC 1035, 3.1).
#[derive(Drop)]
pub struct Label<'a> {
    octets: &'a [u8],
}

impl<'a> Model for Label<'a> {
    ghost use Rattle.std.specs.Prelude.{ℕ, List, length, ◌≤◌};

    ghost Value = { List ℕ };

    ghost view = { λ l. l.octets.now };

    ghost invariant = { λ l. length l.octets.now ≤ 63 };
}

impl<'a> Label<'a> {
    /// The label of these octets, which may be 63 at most.
    pub fn from_slice(octets: &'a [u8]) -> Result<Label<'a>, NameError>
        ensures found { IfOk result (λ l. (l ≡ octets.now) × (length l ≤ 63)) }
        ensures long { OnErr result (64 ≤ length octets.now) }
    {
        if octets.len() > 63 {
            return Err(NameError);
        }
        Ok(Label { octets })
    }

    /// The label of these octets, which are 63 at most.
    pub fn of(octets: &'a [u8]) -> Label<'a>
        requires { length octets.now ≤ 63 }
        ensures { result ≡ octets.now }
    {
        Label { octets }
    }

    /// The root label, which has no octets.
    pub fn root() -> Label<'a>
        ensures { result ≡ [] }
    {
        Label {
            octets: b"".as_slice(),
        }
    }

    /// The label of a wildcard name (RFC 4592, 2.1.1).
    pub fn wildcard() -> Label<'a>
        ensures { result ≡ 42 ∷ [] }
    {
        Label {
            octets: b"*".as_slice(),
        }
    }

    /// The octets.
    pub fn as_slice(&self) -> &'a [u8]
        ensures value { result.now ≡ self.now }
        ensures bound { length result.now ≤ 63 }
    {
        self.octets
    }

    /// Whether this is the root label.
    pub fn is_root(&self) -> bool
        ensures { result ≡ (length self.now == 0) }
    {
        self.octets.is_empty()
    }

    /// Whether this is the label of a wildcard name (RFC 4592, 2.1.1).
    pub fn is_wildcard(&self) -> bool
        ensures { result ≡ bytes_eq self.now (42 ∷ []) }
    {
        self.octets == b"*".as_slice()
    }

    /// The octets with the ASCII letters in lower case (RFC 4343, 3).
    pub fn to_canonical(&self) -> OwnedLabel
        ensures { result ≡ str_to_ascii_lowercase self.now }
    {
        let mut label = OwnedLabel::from_label(self);
        label.make_canonical();
        label
    }
}

impl<'a> PartialEq for Label<'a> {
    ghost eq = { same_label };

    ghost laws = { same_label_per };

    fn eq(&self, other: &Self) -> bool {
        self.to_canonical().as_slice() == other.to_canonical().as_slice()
    }
}

impl<'a> Eq for Label<'a> {
    ghost laws = { same_label_equiv };
}

impl<'a> PartialOrd for Label<'a> {
    ghost partial_cmp = { λ a b. Some (label_cmp a b) };

    ghost laws = { label_po };

    fn partial_cmp(&self, other: &Self) -> Option<Ordering> {
        Some(self.cmp(other))
    }
}

impl<'a> Ord for Label<'a> {
    ghost cmp = { label_cmp };

    ghost total = { label_total };

    ghost matches_partial_cmp = { λ a b. refl };

    ghost matches_eq = { label_ties };

    fn cmp(&self, other: &Self) -> Ordering {
        self.to_canonical()
            .as_slice()
            .cmp(other.to_canonical().as_slice())
    }
}

impl<'a> Hash for Label<'a> {
    ghost hash_input = { label_hash };

    ghost respects_eq = { same_label_hash };

    fn hash<H: Hasher>(&self, state: &mut H) {
        self.to_canonical().as_slice().hash(state);
    }
}
