// Names within messages, compressed ones too (RFC 1035, 4.1.4).
ghost use Rattle.std.specs.Prelude.{◌≡◌, ◌∷◌, [], IfOk, OnErr, IsTrue, MatchOption, IfSome, Some, None, ◌==◌, if◌then◌else◌};
ghost use Rattle.dns_name.specs.Names.{is_name, name_wire, labels_in};
ghost use Rattle.dns_name.specs.Compression.{name_at, labels_at, element_at};
ghost use Rattle.dns_name.specs.Pieces.{element_of, IsWithin};

use crate::label::Label;
use crate::labels::Labels;
use crate::name::{KeyName, NameRef, StoredName};
use crate::name_octets::NameOctets;
use crate::octets::ParseError;
use crate::to_name::{Labelled, ToName};
use std::alloc::{AllocError, Global};
use std::marker::Model;

/// What a name is made of (RFC 1035, 4.1.4).
pub enum Piece<'m> {
    /// The root label, which ends the name.
    Root,
    /// The octets of a label.
    Label(&'m [u8]),
    /// The place where the name goes on.
    Pointer(usize),
}

/// The piece of a name at place `pos`.
#[inline(always)]
pub fn piece_at<'m>(message: &'m [u8], pos: usize) -> Result<Piece<'m>, ParseError>
    ensures found { IfOk result (λ piece. element_at message.now pos ≡ Some (element_of piece)) }
    ensures none { OnErr result (element_at message.now pos ≡ None) }
    ensures inside { IfOk result (IsWithin message.now pos) }
{
    let len = message.len();
    if pos >= len {
        return Err(ParseError);
    }
    let first = message[pos] as usize;
    if first == 0 {
        return Ok(Piece::Root);
    }
    if first < 64 {
        if first >= len - pos {
            return Err(ParseError);
        }
        let start = pos + 1;
        return Ok(Piece::Label(&message[start..start + first]));
    }
    if first < 192 || len - pos < 2 {
        return Err(ParseError);
    }
    let offset = (first - 192) * 256 + message[pos + 1] as usize;
    if offset < pos {
        Ok(Piece::Pointer(offset))
    } else {
        Err(ParseError)
    }
}

/// The place after a name: after its first pointer, or else where it ends.
fn first_end(pointers: u16, after: usize, end: usize) -> usize
    ensures { result ≡ (if pointers == 0 then end else after) }
{
    if pointers == 0 { end } else { after }
}

/// The name at place `pos` of a message, and the place after it (RFC 1035, 4.1.4): at most 255 octets and 255 pointers.
pub fn decode(message: &[u8], pos: usize) -> Result<(KeyName, usize), ParseError>
    ensures found { IfOk result (λ r. name_at message.now pos ≡ Some r) }
    ensures none { OnErr result (name_at message.now pos ≡ None) }
{
    let mut octets = NameOctets::new();
    let mut place = pos;
    let mut after = pos;
    let mut pointers = 0u16;
    for step in 0..512u16 {
        match piece_at(message, place)? {
            Piece::Root => {
                octets.append(&[0])?;
                let end = first_end(pointers, after, place + 1);
                return Ok((KeyName::from_wire(octets), end));
            }
            Piece::Label(label) => {
                octets.append_label(label)?;
                place = place + 1 + label.len();
            }
            Piece::Pointer(offset) => {
                after = first_end(pointers, after, place + 2);
                pointers += 1;
                if pointers == 256 {
                    return Err(ParseError);
                }
                place = offset;
            }
        }
    }
    Err(ParseError)
}

/// The place after the name at place `pos` of a message, where one stands that `decode` reads.
fn name_end(message: &[u8], pos: usize) -> Result<usize, ParseError>
    ensures found { IfOk result (λ after. name_at message.now pos ≡ Some (labels_at message.now pos, after)) }
    ensures none { OnErr result (name_at message.now pos ≡ None) }
{
    let mut len = 0;
    let mut place = pos;
    let mut after = pos;
    let mut pointers = 0u16;
    for step in 0..512u16 {
        match piece_at(message, place)? {
            Piece::Root => {
                if len == 255 {
                    return Err(ParseError);
                }
                return Ok(first_end(pointers, after, place + 1));
            }
            Piece::Label(label) => {
                if label.len() >= 255 - len {
                    return Err(ParseError);
                }
                len = len + 1 + label.len();
                place = place + 1 + label.len();
            }
            Piece::Pointer(offset) => {
                after = first_end(pointers, after, place + 2);
                pointers += 1;
                if pointers > 255 {
                    return Err(ParseError);
                }
                place = offset;
            }
        }
    }
    Err(ParseError)
}

/// A name within a message, which may go on elsewhere in it (RFC 1035, 4.1.4).
#[derive(Drop)]
pub struct ParsedName<'m> {
    message: &'m [u8],
    pos: usize,
}

impl<'m> Model for ParsedName<'m> {
    ghost use Rattle.std.specs.Prelude.{◌≡◌, ℕ, List, IsTrue, is_some};
    ghost use Rattle.dns_name.specs.Compression.{name_at, labels_at};

    ghost Value = { List (List ℕ) };

    ghost view = { λ n. labels_at n.message.now n.pos };

    ghost invariant = { λ n. IsTrue (is_some (name_at n.message.now n.pos)) };
}

impl<'m> ParsedName<'m> {
    /// The name at a place of a message, and the place after it.
    pub fn parse(message: &'m [u8], pos: usize) -> Result<(ParsedName<'m>, usize), ParseError>
        ensures found { IfOk result (λ name. name_at message.now pos ≡ Some name) }
        ensures none { OnErr result (name_at message.now pos ≡ None) }
    {
        let after = name_end(message, pos)?;
        Ok((ParsedName { message, pos }, after))
    }

    /// The name that the octets spell, all of them and without a pointer.
    pub fn whole(octets: &'m [u8]) -> ParsedName<'m>
        requires name { IsTrue (is_name (labels_in octets.now)) }
        requires wire { name_wire (labels_in octets.now) ≡ octets.now }
        ensures { result ≡ labels_in octets.now }
    {
        ParsedName {
            message: octets,
            pos: 0,
        }
    }

    /// The first label and the name after it, if this isn't the root.
    pub fn split_first(&self) -> Option<(Label<'m>, ParsedName<'m>)>
        ensures { MatchOption result (self.now ≡ []) (λ r. self.now ≡ r.0 ∷ r.1) }
    {
        let message = self.message;
        let mut place = self.pos;
        'pieces: loop {
            match piece_at(message, place) {
                Ok(Piece::Pointer(offset)) => place = offset,
                Ok(Piece::Label(octets)) => {
                    let pos = place + 1 + octets.len();
                    return Some((Label::of(octets), ParsedName { message, pos }));
                }
                Ok(Piece::Root) => return None,
                Err(_) => unreachable!(),
            }
        }
    }

    /// The name in the octets of the message, where they stand together: up to the root label there is no pointer.
    fn uncompressed(&self) -> Option<NameRef<'m>>
        ensures value { IfSome result (λ name. name ≡ self.now) }
        ensures name { IfSome result (λ name. IsTrue (is_name self.now)) }
    {
        let (message, pos) = (self.message, self.pos);
        let mut place = pos;
        'pieces: loop {
            match piece_at(message, place) {
                Ok(Piece::Label(label)) => place = place + 1 + label.len(),
                Ok(Piece::Root) => {
                    let after = place + 1;
                    return Some(NameRef::whole(&message[pos..after]));
                }
                Ok(Piece::Pointer(_)) => return None,
                Err(_) => return None,
            }
        }
    }

    /// The name in place, put together piece by piece.
    fn decoded(&self) -> KeyName
        ensures value { result ≡ self.now }
        ensures name { IsTrue (is_name self.now) }
    {
        match decode(self.message, self.pos) {
            Ok((name, _)) => name,
            Err(_) => unreachable!(),
        }
    }

    /// The same name again.
    pub fn duplicate(&self) -> ParsedName<'m>
        ensures { result ≡ self.now }
    {
        ParsedName {
            message: self.message,
            pos: self.pos,
        }
    }

    /// The name in memory of its own.
    pub fn flatten(&self, alloc: Global) -> Result<StoredName, AllocError>
        ensures { IfOk result (λ n. n ≡ self.now) }
    {
        self.to_stored(alloc)
    }
}

impl<'m> Labelled for ParsedName<'m> {
    ghost labels = { λ n. n };

    fn iter_labels(&self) -> Labels<'_> {
        Labels::of(self.duplicate())
    }

    fn to_key_name(&self) -> KeyName {
        match self.uncompressed() {
            Some(name) => name.in_place(),
            None => self.decoded(),
        }
    }

    fn to_stored(&self, alloc: Global) -> Result<StoredName, AllocError> {
        match self.uncompressed() {
            Some(name) => name.store(alloc),
            None => self.decoded().store(alloc),
        }
    }
}

impl<'m> ToName for ParsedName<'m> {}
