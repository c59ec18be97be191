// Keys of names.
ghost use Rattle.std.specs.Prelude.{◌≡◌, ◌≤◌, ◌∷◌, ◌++◌, [], ◌<◌, ◌+◌, ◌-◌, ◌≢◌, ℕ, List, IfOk, IsTrue, MatchOption, length, drop, slice_index};
ghost use Rattle.std.specs.Box.{boxed_slice_items};
ghost use Rattle.dns_name.specs.Names.{is_name, fold, under};
ghost use Rattle.name_keys.specs.NameKeys.{IsNameKey, label_of, name_key, name_of_key, key_end};

use crate::key_octets::KeyOctets;
use dns_name::{KeyName, Labelled, Name, NameOctets};
use std::alloc::{AllocError, Global};
use std::boxed::BoxedSlice;
use std::convert::AsSlice;
use std::marker::Model;

/// The key of a name: a string of octets whose order, octet by octet, is canonical order of the names (RFC 4034, 6.1). It is seen as
/// the name that it spells, in lower case.
#[derive(Drop)]
pub struct KeyedName<Octs: AsSlice<u8>> {
    octets: Octs,
}

/// A key in place, which takes no memory.
pub type NameKey = KeyedName<KeyOctets>;

/// A key whose octets are lent, as by a map.
pub type NameKeyRef<'a> = KeyedName<&'a [u8]>;

impl<Octs: AsSlice<u8>> Model for KeyedName<Octs> {
    ghost use Rattle.std.specs.Prelude.{◌≡◌, ℕ, List, IsTrue};
    ghost use Rattle.dns_name.specs.Names.{is_name};
    ghost use Rattle.name_keys.specs.NameKeys.{name_key, name_of_key};

    ghost Value = { List (List ℕ) };

    ghost view = { λ k. name_of_key (Octs.items k.octets) };

    ghost invariant = { λ k. IsTrue (is_name (name_of_key (Octs.items k.octets)))
        × (name_key (name_of_key (Octs.items k.octets)) ≡ Octs.items k.octets) };
}

impl KeyedName<KeyOctets> {
    /// The key of a name.
    pub fn of<N: Labelled>(name: &N) -> NameKey
        ensures { result ≡ fold (N.labels name.now) }
    {
        let mut octets = KeyOctets::new();
        octets.fill_labels(name);
        KeyedName { octets }
    }

    /// The key of a name in wire form.
    pub fn of_name<Octs: AsSlice<u8>>(name: &Name<Octs>) -> NameKey
        ensures { result ≡ fold name.now }
    {
        let mut octets = KeyOctets::new();
        octets.fill(name);
        KeyedName { octets }
    }

    /// The key of the name without its first label, if this isn't the root's: these octets without those of the last label.
    pub fn parent(&self) -> Option<NameKeyRef<'_>>
        ensures { MatchOption result (self.now ≡ []) (λ p. (label : List ℕ) × (self.now ≡ label ∷ p)) }
    {
        self.borrowed().parent()
    }
}

impl<Octs: AsSlice<u8>> KeyedName<Octs> {
    /// The octets.
    pub fn as_slice(&self) -> &[u8]
        ensures value { result.now ≡ name_key self.now }
        ensures name { IsTrue (is_name self.now) }
        ensures folded { fold self.now ≡ self.now }
        ensures bound { length result.now ≤ 504 }
    {
        self.octets.as_slice()
    }

    /// The key, its octets lent.
    pub fn borrowed(&self) -> NameKeyRef<'_>
        ensures value { result ≡ self.now }
        ensures name { IsTrue (is_name self.now) }
        ensures folded { fold self.now ≡ self.now }
    {
        KeyedName {
            octets: self.as_slice(),
        }
    }

    /// Whether the name is the other one or below it, ASCII case aside (RFC 1034, 3.1).
    #[tactic(auto, using(crate::proofs::Nesting::under_by_test))]
    pub fn is_under<Others: AsSlice<u8>>(&self, other: &KeyedName<Others>) -> bool
        ensures { result ≡ under self.now other.now }
    {
        self.as_slice().starts_with(other.as_slice())
    }

    /// The name that the key spells, in lower case.
    pub fn to_name(&self) -> KeyName
        ensures { result ≡ self.now }
    {
        let mut wire = NameOctets::new();
        let mut rest = self.borrowed();
        while let Some(parent) = rest.parent() {
            let octets = rest.as_slice();
            append_label(
                &mut wire,
                &octets[parent.as_slice().len()..octets.len() - 1],
            );
            rest = parent;
        }
        let _ = wire.append(&[0]);
        KeyName::from_wire(wire)
    }

    /// The octets in memory of their own, as the key of a map's entry.
    pub fn to_boxed(&self, alloc: Global) -> Result<BoxedSlice<u8>, AllocError>
        ensures value { IfOk result (λ b. boxed_slice_items b ≡ name_key self.now) }
        ensures name { IsTrue (is_name self.now) }
    {
        BoxedSlice::from_slice(alloc, self.as_slice())
    }

    /// Where the keys of the names at or below this one end, which isn't the root: the bound that a map's
    /// range excludes.
    pub fn to_boxed_end(&self, alloc: Global) -> Result<BoxedSlice<u8>, AllocError>
        requires { self.now ≢ [] }
        ensures { IfOk result (λ b. boxed_slice_items b ≡ key_end (name_key self.now)) }
    {
        let octets = self.as_slice();
        let mut end = Vec::from_slice(alloc, &octets[..octets.len() - 1])?;
        end.push(1)?;
        Ok(end.into_boxed_slice())
    }
}

impl<'a> KeyedName<&'a [u8]> {
    /// The key that these octets are.
    pub fn of_octets(octets: &'a [u8]) -> NameKeyRef<'a>
        requires { IsNameKey octets.now }
        ensures { result ≡ name_of_key octets.now }
    {
        KeyedName { octets }
    }

    /// The key of a name, put into `octets` in place of what was there: no octets are copied but these.
    pub fn put<Octs: AsSlice<u8>>(octets: &'a mut KeyOctets, name: &Name<Octs>) -> NameKeyRef<'a>
        ensures value { result ≡ fold name.now }
        ensures name { IsTrue (is_name name.now) }
        ensures folded { fold result ≡ result }
    {
        octets.fill(name);
        KeyedName {
            octets: octets.as_slice(),
        }
    }

    /// The same of what has labels.
    pub fn put_labels<N: Labelled>(octets: &'a mut KeyOctets, name: &N) -> NameKeyRef<'a>
        ensures value { result ≡ fold (N.labels name.now) }
        ensures name { IsTrue (is_name (N.labels name.now)) }
        ensures folded { fold result ≡ result }
    {
        octets.fill_labels(name);
        KeyedName {
            octets: octets.as_slice(),
        }
    }

    /// The key of the name without its first label, if this isn't the root's: these octets without those of the last label.
    pub fn parent(&self) -> Option<NameKeyRef<'a>>
        ensures { MatchOption result (self.now ≡ []) (λ p. (label : List ℕ) × (self.now ≡ label ∷ p)) }
    {
        let octets = self.octets;
        if octets.is_empty() {
            return None;
        }
        Some(KeyedName {
            octets: &octets[..last_label_start(octets)],
        })
    }
}

/// Where the last label of a key begins that isn't the root's: after the last 0 before its end.
fn last_label_start(octets: &[u8]) -> usize
    requires { 0 < length octets.now }
    ensures within { result < length octets.now }
    ensures after { 0 < result → slice_index octets.now (result - 1) ≡ 0 }
    ensures plain { (k : ℕ) → result ≤ k → k + 1 < length octets.now → slice_index octets.now k ≢ 0 }
{
    let mut start = octets.len() - 1;
    while start > 0 && octets[start - 1] != 0 {
        start -= 1;
    }
    start
}

/// Puts the label that a piece of a key spells at the end of a wire form that has room for it.
fn append_label(wire: &mut NameOctets, piece: &[u8])
    requires label { length (label_of piece.now) ≤ 63 }
    requires room { length wire.old + length (label_of piece.now) < 255 }
    ensures { wire.new ≡ wire.old ++ length (label_of piece.now) ∷ label_of piece.now }
{
    // A piece without a 1, as most are, spells its own octets.
    if piece.contains(&1) {
        append_by_octets(wire, piece);
    } else {
        let _ = wire.append_label(piece);
    }
}

/// `append_label`, octet by octet.
fn append_by_octets(wire: &mut NameOctets, piece: &[u8])
    requires label { length (label_of piece.now) ≤ 63 }
    requires room { length wire.old + length (label_of piece.now) < 255 }
    ensures { wire.new ≡ wire.old ++ length (label_of piece.now) ∷ label_of piece.now }
{
    let mut label = [0; 63];
    let mut len = 0;
    let mut at = 0;
    while at < piece.len() {
        let (octet, after) = octet_at(piece, at);
        label[len] = octet;
        len += 1;
        at = after;
    }
    let _ = wire.append_label(&label[..len]);
}

/// The octet that a piece spells at place `at`, and the place after it.
fn octet_at(piece: &[u8], at: usize) -> (u8, usize)
    requires { at < length piece.now }
    ensures octet { label_of (drop at piece.now) ≡ result.0 ∷ label_of (drop result.1 piece.now) }
    ensures after { (at < result.1) × (result.1 ≤ length piece.now) }
{
    let next = at + 1;
    if piece[at] == 1 && next < piece.len() {
        (piece[next].saturating_sub(1), next + 1)
    } else {
        (piece[at], next)
    }
}
