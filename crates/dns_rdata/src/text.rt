// Texts.
ghost use Rattle.std.specs.Prelude.{◌≡◌, ◌≤◌, ◌<◌, ◌+◌, ◌++◌, ◌∷◌, [], IfOk, OnOk, OnErr, IsTrue, Some, None, length, nat_le};
ghost use Rattle.std.specs.List.{list_all};
ghost use Rattle.dns_name.specs.Records.{are_strings as spell_strings, are_strings_after, fields_at, parts, strings_in, text_strings};
ghost use Rattle.dns_rdata.specs.Texts.{BuildsText};
ghost use Rattle.dns_rdata.specs.OctetFields.{txt_fields};

use crate::char_strs::CharStrs;
use crate::octets::{LongRecordData, rest_of, store};
use crate::record_data::RecordData;
use bytes::Bytes;
use dns_name::ParseError;
use dns_numbers::Rtype;
use std::alloc::{AllocError, Global};
use std::convert::AsSlice;
use std::marker::Model;
use thiserror::Error;

/// The longest text whose strings have at most 65,535 octets: 256 strings.
const MAX_TEXT: usize = 65279;

/// Why a text's data weren't made.
#[derive(Clone, Copy, Debug, PartialEq, Eq, Drop, Error)]
pub enum TxtAppendError {
    /// The data would pass 65,535 octets, which RDLENGTH can't tell (RFC 1035, 3.2.1).
    #[error("record data too long")]
    LongRecordData,
    /// There is no memory for them.
    #[error("out of memory")]
    Memory,
}

/// A text: one or more character strings, each led by an octet that tells its length, at most 65,535 octets together (TXT; RFC 1035, 3.3.14).
#[derive(Debug, Drop)]
pub struct Txt<O: AsSlice<u8> + Drop> {
    octets: O,
}

impl<O: AsSlice<u8> + Drop> Model for Txt<O> {
    ghost use Rattle.std.specs.Prelude.{◌<◌, ℕ, List, IsTrue, length};
    ghost use Rattle.dns_name.specs.Records.{are_strings};

    ghost Value = { List ℕ };

    ghost view = { λ d. O.items d.octets };

    ghost invariant = { λ d. IsTrue (are_strings (O.items d.octets)) × (length (O.items d.octets) < 65536) };
}

/// Whether the octets are one or more whole character strings, each led by an octet that tells its length (RFC 1035, 3.3).
pub fn are_strings(octets: &[u8]) -> bool
    ensures { result ≡ spell_strings octets.now }
{
    !octets.is_empty() && are_whole(octets)
}

/// Whether the octets are whole character strings, or there are none.
#[tactic(auto, using(crate::proofs::Strings::string_left, crate::proofs::Strings::string_cut))]
fn are_whole(octets: &[u8]) -> bool
    ensures { result ≡ are_strings_after 0 octets.now }
{
    let mut rest = octets;
    while let Some((len, after)) = rest.split_first() {
        let len = usize::from(*len);
        if after.len() < len {
            return false;
        }
        let (_, behind) = after.split_at(len);
        rest = behind;
    }
    true
}

impl<O: AsSlice<u8> + Drop> Txt<O> {
    /// The text of these octets. Refused exactly above 65,535 octets. They must be whole character strings, as `are_strings` tells.
    pub fn new(octets: O) -> Result<Txt<O>, LongRecordData>
        requires { IsTrue (spell_strings (O.items octets)) }
        ensures ok { IfOk result (λ d. d ≡ O.items octets) }
        ensures fits { OnOk result (length (O.items octets) < 65536) }
        ensures err { OnErr result (65536 ≤ length (O.items octets)) }
    {
        if octets.as_slice().len() > 65535 {
            return Err(LongRecordData);
        }
        Ok(Txt { octets })
    }

    /// The character strings as they are sent, each led by its length.
    pub fn as_slice(&self) -> &[u8]
        ensures octets { result.now ≡ self.now }
        ensures strings { IsTrue (spell_strings self.now) }
        ensures bound { length result.now < 65536 }
    {
        self.octets.as_slice()
    }

    /// The character strings in order, each without the octet that tells its length.
    #[tactic(auto, using(crate::proofs::Strings::few_strings, crate::proofs::Strings::whole_or_none))]
    pub fn iter_charstrs(&self) -> CharStrs<'_>
        ensures value { result ≡ strings_in self.now }
        ensures few { length result < 65536 }
        ensures short { IsTrue (list_all (λ string. nat_le (length string) 255) result) }
    {
        CharStrs::of(self.octets.as_slice())
    }

    /// The same data in memory of their own.
    pub fn flatten(&self, alloc: Global) -> Result<Txt<Bytes>, AllocError>
        ensures { IfOk result (λ d. d ≡ self.now) }
    {
        Ok(Txt {
            octets: store(alloc, self.octets.as_slice())?,
        })
    }
}

impl<'m> Txt<&'m [u8]> {
    /// The text in the `len` octets at place `pos` of a message, which its character strings fill exactly; else an error.
    #[tactic(auto, unfolding(dns_name::specs::Records::fields_at))]
    pub fn parse(message: &'m [u8], pos: usize, len: u16) -> Result<Txt<&'m [u8]>, ParseError>
        ensures found { IfOk result (λ d. fields_at (parts 16) message.now (pos + len) pos ≡ Some (txt_fields d)) }
        ensures none { OnErr result (fields_at (parts 16) message.now (pos + len) pos ≡ None) }
    {
        let octets = rest_of(message, pos, len)?;
        if !are_strings(octets) {
            return Err(ParseError);
        }
        Ok(Txt { octets })
    }
}

impl Txt<Bytes> {
    /// The data of a text: character strings of 255 octets, of which the last one may be shorter; one empty string where the text has no
    /// octets. Refused exactly where the strings have more than 65,535 octets with their lengths.
    #[tactic(auto, using(crate::proofs::Texts::text_long, crate::proofs::Texts::text_fits, crate::proofs::Texts::text_whole))]
    pub fn build_from_slice(alloc: Global, text: &[u8]) -> Result<Txt<Bytes>, TxtAppendError>
        ensures { BuildsText text.now result }
    {
        if text.len() > MAX_TEXT {
            return Err(TxtAppendError::LongRecordData);
        }
        let mut out = Vec::new(alloc);
        let Ok(()) = push_strings(&mut out, text) else {
            return Err(TxtAppendError::Memory);
        };
        let Ok(octets) = store(alloc, out.as_slice()) else {
            return Err(TxtAppendError::Memory);
        };
        Ok(Txt { octets })
    }
}

/// The text at the end of `out`, in character strings of 255 octets, of which the last one may be shorter.
#[tactic(auto, using(crate::proofs::Texts::text_end))]
fn push_strings(out: &mut Vec<u8>, text: &[u8]) -> Result<(), AllocError>
    ensures { OnOk result (out.new.items ≡ out.old.items ++ text_strings text.now) }
{
    let mut rest = text;
    'strings: while rest.len() > 255 {
        let (string, behind) = rest.split_at(255);
        push_string(out, string)?;
        rest = behind;
    }
    push_string(out, rest)
}

/// One character string at the end of `out`, led by its length.
#[tactic(auto, using(std::proofs::lemmas::List::append_assoc))]
fn push_string(out: &mut Vec<u8>, string: &[u8]) -> Result<(), AllocError>
    requires { length string.now ≤ 255 }
    ensures { OnOk result (out.new.items ≡ out.old.items ++ length string.now ∷ string.now) }
{
    out.push(string.len() as u8)?;
    out.extend_from_slice(string)
}

impl<O: AsSlice<u8> + Drop> RecordData for Txt<O> {
    ghost rtype = { λ d. 16 };

    ghost fields = { txt_fields };

    fn rtype(&self) -> Rtype {
        Rtype::TXT
    }

    fn rdlen(&self) -> u16 {
        self.octets.as_slice().len() as u16
    }

    fn compose_rdata(&self, out: &mut Vec<u8>) -> Result<(), AllocError> {
        out.extend_from_slice(self.octets.as_slice())
    }
}

impl Clone for Txt<Bytes> {
    ghost is_clone = { λ d copy. copy ≡ d };

    fn clone(&self) -> Result<Txt<Bytes>, AllocError> {
        Ok(Txt {
            octets: self.octets.clone()?,
        })
    }
}
