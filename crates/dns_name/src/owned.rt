// Labels in place.
ghost use Rattle.std.specs.Prelude.{◌≡◌, ◌≤◌, ◌==◌, ◌∷◌, [], length, IfOk, OnErr, Some, refl};
ghost use Rattle.std.specs.Str.{bytes_eq, str_to_ascii_lowercase};
ghost use Rattle.dns_name.specs.LabelOrder.{same_label, same_label_equiv, same_label_per, label_cmp, label_total, label_ties, label_po, label_hash, same_label_hash};

use crate::error::NameError;
use crate::label::Label;
use std::cmp::Ordering;
use std::hash::{Hash, Hasher};
use std::marker::Model;

/// A label in place, which takes no memory: up to 63 octets, none for the root label (RFC 1035, 3.1).
#[derive(Drop)]
pub struct OwnedLabel {
    octets: [u8; 63],
    len: u8,
}

impl Model for OwnedLabel {
    ghost use Rattle.std.specs.Prelude.{ℕ, List, take, ◌≤◌};

    ghost Value = { List ℕ };

    ghost view = { λ l. take l.len l.octets };

    ghost invariant = { λ l. l.len ≤ 63 };
}

impl OwnedLabel {
    /// The label of these octets, which may be 63 at most.
    pub fn from_slice(octets: &[u8]) -> Result<OwnedLabel, NameError>
        ensures found { IfOk result (λ l. (l ≡ octets.now) × (length l ≤ 63)) }
        ensures long { OnErr result (64 ≤ length octets.now) }
    {
        let label = Label::from_slice(octets)?;
        Ok(OwnedLabel::from_label(&label))
    }

    /// The same label in place.
    pub fn from_label(label: &Label<'_>) -> OwnedLabel
        ensures { result ≡ label.now }
    {
        let octets = label.as_slice();
        let len = octets.len();
        let mut all = [0; 63];
        all[..len].copy_from_slice(octets);
        OwnedLabel {
            octets: all,
            len: len as u8,
        }
    }

    /// The root label, which has no octets.
    pub fn root() -> OwnedLabel
        ensures { result ≡ [] }
    {
        OwnedLabel::from_label(&Label::root())
    }

    /// The label of a wildcard name (RFC 4592, 2.1.1).
    pub fn wildcard() -> OwnedLabel
        ensures { result ≡ 42 ∷ [] }
    {
        OwnedLabel::from_label(&Label::wildcard())
    }

    /// The octets.
    pub fn as_slice(&self) -> &[u8]
        ensures value { result.now ≡ self.now }
        ensures bound { length result.now ≤ 63 }
    {
        &self.octets[..self.len as usize]
    }

    /// The label, its octets lent.
    pub fn as_label(&self) -> Label<'_>
        ensures { result ≡ self.now }
    {
        Label::of(self.as_slice())
    }

    /// Whether this is the root label.
    pub fn is_root(&self) -> bool
        ensures { result ≡ (length self.now == 0) }
    {
        self.as_label().is_root()
    }

    /// Whether this is the label of a wildcard name (RFC 4592, 2.1.1).
    pub fn is_wildcard(&self) -> bool
        ensures { result ≡ bytes_eq self.now (42 ∷ []) }
    {
        self.as_label().is_wildcard()
    }

    /// Puts the ASCII letters in lower case (RFC 4343, 3).
    pub fn make_canonical(&mut self)
        ensures { self.new ≡ str_to_ascii_lowercase self.old }
    {
        let len = self.len as usize;
        self.octets[..len].make_ascii_lowercase();
    }

    /// The octets with the ASCII letters in lower case (RFC 4343, 3).
    pub fn to_canonical(&self) -> OwnedLabel
        ensures { result ≡ str_to_ascii_lowercase self.now }
    {
        self.as_label().to_canonical()
    }

    /// The same label again.
    pub fn duplicate(&self) -> OwnedLabel
        ensures { result ≡ self.now }
    {
        OwnedLabel {
            octets: self.octets,
            len: self.len,
        }
    }
}

impl PartialEq for OwnedLabel {
    ghost eq = { same_label };

    ghost laws = { same_label_per };

    fn eq(&self, other: &Self) -> bool {
        self.as_label() == other.as_label()
    }
}

impl Eq for OwnedLabel {
    ghost laws = { same_label_equiv };
}

impl PartialOrd for OwnedLabel {
    ghost partial_cmp = { λ a b. Some (label_cmp a b) };

    ghost laws = { label_po };

    fn partial_cmp(&self, other: &Self) -> Option<Ordering> {
        Some(self.cmp(other))
    }
}

impl Ord for OwnedLabel {
    ghost cmp = { label_cmp };

    ghost total = { label_total };

    ghost matches_partial_cmp = { λ a b. refl };

    ghost matches_eq = { label_ties };

    fn cmp(&self, other: &Self) -> Ordering {
        self.as_label().cmp(&other.as_label())
    }
}

impl Hash for OwnedLabel {
    ghost hash_input = { label_hash };

    ghost respects_eq = { same_label_hash };

    fn hash<H: Hasher>(&self, state: &mut H) {
        self.as_label().hash(state);
    }
}
