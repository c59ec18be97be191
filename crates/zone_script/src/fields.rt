//! The fields of a line: names, numbers, records, keys.
ghost use Rattle.std.specs.Prelude.{◌≡◌, ◌^◌, ◌∷◌, [], ℕ, List, IfOk, IfSome, IfNone, option_map, option_and_then};
ghost use Rattle.std.specs.Result.{result_ok};
ghost use Rattle.dns_name.specs.Compression.{name_in};
ghost use Rattle.dns_rdata.specs.Heads.{record_in};
ghost use Rattle.tsig_port.specs.Tsig.{new_key};
ghost use Rattle.zone_script.specs.ScriptLines as scripts;
ghost use Rattle.zone_script.specs.ScriptReaders.{wire_readers, key_of, algorithm_word, or_none};
ghost use Rattle.zone_script.specs.Lines.{line_of, change_of, is_of_class, key_from, mac_len_field};

use crate::lines::cut;
use crate::numbers::{number_below, octets_of_hex};
use dns_name::{KeyName, Labelled, ParsedName, StoredName};
use dns_numbers::{Class, Rtype};
use dns_rdata::{StoredRecord, record_from_octets};
use std::alloc::{AllocError, Global};
use std::marker::Model;
use tsig_port::{Algorithm, Key, Time48};

/// An edit of the primary's zone.
#[derive(Drop)]
pub enum Change {
    /// Adds a record.
    Plus(StoredRecord),
    /// Deletes a record.
    Minus(StoredRecord),
    /// Publishes what was edited.
    Commit,
}

impl Change {
    /// Whether its record, if it has one, is of a class.
    pub fn is_of_class(&self, class: Class) -> bool
        ensures { result ≡ is_of_class class (scripts.ChangeLine (change_of self.now)) }
    {
        match self {
            Change::Plus(added) => added.class() == class,
            Change::Minus(deleted) => deleted.class() == class,
            Change::Commit => true,
        }
    }
}

/// A line as it is read.
#[derive(Drop)]
pub enum Line {
    /// Apex and class of both zones.
    Zone(StoredName, Class),
    /// The key of both sides.
    Key(Key),
    /// The moments of the primary and of the secondary.
    At(Time48, Time48),
    /// A record with which the primary's zone opens.
    Primary(StoredRecord),
    /// A record with which the secondary's zone opens.
    Secondary(StoredRecord),
    /// An edit of the primary's zone.
    Change(Change),
    /// A question to the secondary's zone: name and type.
    Query(StoredName, Rtype),
}

impl Line {
    /// The stage of a script at which such a line may stand.
    pub fn stage(&self) -> u8
        ensures { result ≡ scripts.stage_of (line_of self.now) }
    {
        match self {
            Line::Zone(_, _) => 1,
            Line::Key(_) => 2,
            Line::At(_, _) => 3,
            Line::Primary(_) => 4,
            Line::Secondary(_) => 5,
            Line::Change(_) => 6,
            Line::Query(_, _) => 7,
        }
    }

    /// Whether the record of an edit is of a class.
    pub fn is_of_class(&self, class: Class) -> bool
        ensures { result ≡ is_of_class class (line_of self.now) }
    {
        match self {
            Line::Zone(_, _) => true,
            Line::Key(_) => true,
            Line::At(_, _) => true,
            Line::Primary(_) => true,
            Line::Secondary(_) => true,
            Line::Change(change) => change.is_of_class(class),
            Line::Query(_, _) => true,
        }
    }
}

/// The fields of a line that are left, separated by one space each.
#[derive(Drop)]
struct Fields<'l> {
    rest: Option<&'l [u8]>,
}

impl<'l> Model for Fields<'l> {
    ghost use Rattle.std.specs.Prelude.{ℕ, List, option_copied};
    ghost use Rattle.zone_script.specs.Lines.{fields_in};

    ghost Value = { List (List ℕ) };

    ghost view = { λ f. fields_in (option_copied f.rest) };
}

impl<'l> Fields<'l> {
    /// The next field.
    fn next_field(&mut self) -> Option<&'l [u8]>
        ensures some { IfSome result (λ field. self.old ≡ field.now ∷ self.new) }
        ensures none { IfNone result (self.old ≡ []) }
    {
        let rest = self.rest?;
        let (field, behind) = cut(rest, b' ');
        self.rest = behind;
        Some(field)
    }
}

/// The only field that is left.
fn one_field<'l>(fields: &mut Fields<'l>) -> Option<&'l [u8]>
    ensures some { IfSome result (λ x. fields.old ≡ x.now ∷ []) }
    ensures none { IfNone result ((x : List ℕ) → fields.old ≡ x ∷ [] → ⊥) }
{
    let first = fields.next_field()?;
    match fields.next_field() {
        Some(_) => None,
        None => Some(first),
    }
}

/// The only two fields that are left.
fn two_fields<'l>(fields: &mut Fields<'l>) -> Option<(&'l [u8], &'l [u8])>
    ensures some { IfSome result (λ r. fields.old ≡ r.0.now ∷ r.1.now ∷ []) }
    ensures none { IfNone result ((x y : List ℕ) → fields.old ≡ x ∷ y ∷ [] → ⊥) }
{
    let first = fields.next_field()?;
    let second = one_field(fields)?;
    Some((first, second))
}

/// What a line says, which is given without its end: a word, and the fields after it, each after one space; None where that is no line of a script.
/// It answers an error only for want of memory.
pub fn read_line(alloc: Global, line: &[u8]) -> Result<Option<Line>, AllocError>
    ensures { IfOk result (λ l. option_map line_of l ≡ scripts.read_line wire_readers line.now) }
{
    let (word, rest) = cut(line, b' ');
    let mut fields = Fields { rest };
    read_word(alloc, word, &mut fields)
}

/// What a word says with the fields after it.
fn read_word(
    alloc: Global,
    word: &[u8],
    fields: &mut Fields<'_>,
) -> Result<Option<Line>, AllocError>
    ensures { IfOk result (λ l. option_map line_of l ≡ scripts.read_word wire_readers word.now fields.old) }
{
    if word == b"zone".as_slice() {
        read_zone(alloc, fields)
    } else if word == b"key".as_slice() {
        read_key_line(alloc, fields)
    } else if word == b"at".as_slice() {
        Ok(read_at(fields))
    } else if word == b"p".as_slice() {
        read_primary(alloc, fields)
    } else if word == b"s".as_slice() {
        read_secondary(alloc, fields)
    } else if word == b"-".as_slice() {
        read_minus(alloc, fields)
    } else if word == b"+".as_slice() {
        read_plus(alloc, fields)
    } else if word == b"commit".as_slice() {
        Ok(read_commit(fields))
    } else if word == b"query".as_slice() {
        read_query(alloc, fields)
    } else {
        Ok(None)
    }
}

/// `NAME CLASS`.
fn read_zone(alloc: Global, fields: &mut Fields<'_>) -> Result<Option<Line>, AllocError>
    ensures { IfOk result (λ l. option_map line_of l ≡ scripts.two_fields (scripts.zone_line wire_readers) fields.old) }
{
    let Some((name, class)) = two_fields(fields) else {
        return Ok(None);
    };
    let Some(name) = name_of_hex(alloc, name)? else {
        return Ok(None);
    };
    let Some(class) = number_below(65_536, class) else {
        return Ok(None);
    };
    let apex = name.to_stored(alloc)?;
    Ok(Some(Line::Zone(apex, Class::from_int(class as u16))))
}

/// `P S`, each below 2^48.
fn read_at(fields: &mut Fields<'_>) -> Option<Line>
    ensures { option_map line_of result ≡ scripts.two_fields scripts.at_line fields.old }
{
    let (primary, secondary) = two_fields(fields)?;
    let at_primary = read_moment(primary)?;
    let at_secondary = read_moment(secondary)?;
    Some(Line::At(at_primary, at_secondary))
}

/// A moment, in seconds since 1970.
fn read_moment(field: &[u8]) -> Option<Time48>
    ensures { result ≡ scripts.number_below (2 ^ 48) field.now }
{
    let seconds = number_below(281_474_976_710_656, field)?;
    Some(Time48::from_u64(seconds))
}

/// A record of the primary's zone.
fn read_primary(alloc: Global, fields: &mut Fields<'_>) -> Result<Option<Line>, AllocError>
    ensures { IfOk result (λ l. option_map line_of l ≡ scripts.one_field (scripts.record_line wire_readers scripts.PrimaryLine) fields.old) }
{
    let Some(field) = one_field(fields) else {
        return Ok(None);
    };
    match record_of_hex(alloc, field)? {
        Some(found) => Ok(Some(Line::Primary(found))),
        None => Ok(None),
    }
}

/// A record of the secondary's zone.
fn read_secondary(alloc: Global, fields: &mut Fields<'_>) -> Result<Option<Line>, AllocError>
    ensures { IfOk result (λ l. option_map line_of l ≡ scripts.one_field (scripts.record_line wire_readers scripts.SecondaryLine) fields.old) }
{
    let Some(field) = one_field(fields) else {
        return Ok(None);
    };
    match record_of_hex(alloc, field)? {
        Some(found) => Ok(Some(Line::Secondary(found))),
        None => Ok(None),
    }
}

/// A record that is deleted from the primary's zone.
fn read_minus(alloc: Global, fields: &mut Fields<'_>) -> Result<Option<Line>, AllocError>
    ensures { IfOk result (λ l. option_map line_of l ≡ scripts.one_field (scripts.record_line wire_readers (λ r. scripts.ChangeLine (scripts.Minus r))) fields.old) }
{
    let Some(field) = one_field(fields) else {
        return Ok(None);
    };
    match record_of_hex(alloc, field)? {
        Some(deleted) => Ok(Some(Line::Change(Change::Minus(deleted)))),
        None => Ok(None),
    }
}

/// A record that is added to the primary's zone.
fn read_plus(alloc: Global, fields: &mut Fields<'_>) -> Result<Option<Line>, AllocError>
    ensures { IfOk result (λ l. option_map line_of l ≡ scripts.one_field (scripts.record_line wire_readers (λ r. scripts.ChangeLine (scripts.Plus r))) fields.old) }
{
    let Some(field) = one_field(fields) else {
        return Ok(None);
    };
    match record_of_hex(alloc, field)? {
        Some(added) => Ok(Some(Line::Change(Change::Plus(added)))),
        None => Ok(None),
    }
}

/// A commit, which has no fields.
fn read_commit(fields: &mut Fields<'_>) -> Option<Line>
    ensures { option_map line_of result ≡ scripts.no_fields (scripts.ChangeLine scripts.Commit) fields.old }
{
    match fields.next_field() {
        Some(_) => None,
        None => Some(Line::Change(Change::Commit)),
    }
}

/// `NAME TYPE`: a question, of any type.
fn read_query(alloc: Global, fields: &mut Fields<'_>) -> Result<Option<Line>, AllocError>
    ensures { IfOk result (λ l. option_map line_of l ≡ scripts.two_fields (scripts.query_line wire_readers) fields.old) }
{
    let Some((name, rtype)) = two_fields(fields) else {
        return Ok(None);
    };
    let Some(name) = name_of_hex(alloc, name)? else {
        return Ok(None);
    };
    let Some(rtype) = number_below(65_536, rtype) else {
        return Ok(None);
    };
    let qname = name.to_stored(alloc)?;
    Ok(Some(Line::Query(qname, Rtype::from_int(rtype as u16))))
}

/// One record in wire form without pointers, as hexadecimal digits.
fn record_of_hex(alloc: Global, field: &[u8]) -> Result<Option<StoredRecord>, AllocError>
    ensures { IfOk result (λ r. r ≡ scripts.record_field wire_readers field.now) }
{
    match octets_of_hex(alloc, field)? {
        Some(octets) => record_of_octets(alloc, octets.as_slice()),
        None => Ok(None),
    }
}

/// The record that the octets spell, unless its type is one of questions or signatures alone, 250 to 255 (RFC 6895, 3.1).
fn record_of_octets(alloc: Global, octets: &[u8]) -> Result<Option<StoredRecord>, AllocError>
    ensures { IfOk result (λ r. r ≡ option_and_then scripts.data_only (record_in octets.now)) }
{
    let Ok(found) = record_from_octets(octets) else {
        return Ok(None);
    };
    let number = found.rtype().to_int();
    if 250 <= number && number <= 255 {
        return Ok(None);
    }
    Ok(Some(found.flatten(alloc)?))
}

/// A name in wire form without pointers, as hexadecimal digits.
fn name_of_hex(alloc: Global, field: &[u8]) -> Result<Option<KeyName>, AllocError>
    ensures { IfOk result (λ n. n ≡ scripts.name_field wire_readers field.now) }
{
    match octets_of_hex(alloc, field)? {
        Some(octets) => Ok(name_of_octets(octets.as_slice())),
        None => Ok(None),
    }
}

/// The name that the octets spell, all of them and without a pointer.
fn name_of_octets(octets: &[u8]) -> Option<KeyName>
    ensures { result ≡ name_in octets.now }
{
    let Ok((name, _)) = ParsedName::parse(octets, 0) else {
        return None;
    };
    let name = name.to_key_name();
    if name.as_slice() == octets {
        Some(name)
    } else {
        None
    }
}

/// `NAME ALGORITHM SECRET SIGN MIN`.
fn read_key_line(alloc: Global, fields: &mut Fields<'_>) -> Result<Option<Line>, AllocError>
    ensures { IfOk result (λ l. option_map line_of l ≡ option_map scripts.KeyLine (key_of fields.old)) }
{
    match read_key(alloc, fields)? {
        Some(key) => Ok(Some(Line::Key(key))),
        None => Ok(None),
    }
}

/// The key that the fields say.
fn read_key(alloc: Global, fields: &mut Fields<'_>) -> Result<Option<Key>, AllocError>
    ensures { IfOk result (λ k. k ≡ key_of fields.old) }
{
    let Some((name, algorithm, secret, signing, least)) = five_fields(fields) else {
        return Ok(None);
    };
    let Some(name) = name_of_hex(alloc, name)? else {
        return Ok(None);
    };
    let Some(algorithm) = algorithm_of_word(algorithm) else {
        return Ok(None);
    };
    match read_secret(alloc, secret)? {
        Some(secret) => Ok(key_of_parts(algorithm, secret.as_slice(), name, signing, least)),
        None => Ok(None),
    }
}

/// The key of these parts, the lengths as they are written (RFC 8945, 5.2.2.1).
#[tactic(auto, using(crate::proofs::KeyFields::signing_too_long, crate::proofs::KeyFields::least_too_long))]
fn key_of_parts(
    algorithm: Algorithm,
    secret: &[u8],
    name: KeyName,
    signing: &[u8],
    least: &[u8],
) -> Option<Key>
    ensures { result ≡ key_from algorithm secret.now name signing.now least.now }
{
    let signing = read_mac_len(signing)?;
    let least = read_mac_len(least)?;
    key_of_lens(algorithm, secret, name, signing, least)
}

/// The key of these parts, where both lengths lie in the bounds of the algorithm.
fn key_of_lens(
    algorithm: Algorithm,
    secret: &[u8],
    name: KeyName,
    signing: Option<usize>,
    least: Option<usize>,
) -> Option<Key>
    ensures { result ≡ result_ok (new_key algorithm secret.now name least signing) }
{
    Key::new(algorithm, secret, name, least, signing).ok()
}

/// The only five fields that are left.
fn five_fields<'l>(
    fields: &mut Fields<'l>,
) -> Option<(&'l [u8], &'l [u8], &'l [u8], &'l [u8], &'l [u8])>
    ensures some { IfSome result (λ r. fields.old ≡ r.0.now ∷ r.1.now ∷ r.2.now ∷ r.3.now ∷ r.4.now ∷ []) }
    ensures none { IfNone result ((a b c d e : List ℕ) → fields.old ≡ a ∷ b ∷ c ∷ d ∷ e ∷ [] → ⊥) }
{
    let first = fields.next_field()?;
    let second = fields.next_field()?;
    let third = fields.next_field()?;
    let (fourth, fifth) = two_fields(fields)?;
    Some((first, second, third, fourth, fifth))
}

/// The algorithm of one of the four names in lower case (RFC 8945, 6).
fn algorithm_of_word(word: &[u8]) -> Option<Algorithm>
    ensures { result ≡ algorithm_word word.now }
{
    if word == b"hmac-sha1".as_slice() {
        Some(Algorithm::Sha1)
    } else if word == b"hmac-sha256".as_slice() {
        Some(Algorithm::Sha256)
    } else if word == b"hmac-sha384".as_slice() {
        Some(Algorithm::Sha384)
    } else if word == b"hmac-sha512".as_slice() {
        Some(Algorithm::Sha512)
    } else {
        None
    }
}

/// How many octets a MAC has, up to the 64 of the longest whole one, or a hyphen for a whole one.
fn read_mac_len(field: &[u8]) -> Option<Option<usize>>
    ensures { result ≡ mac_len_field field.now }
{
    if field == b"-".as_slice() {
        return Some(None);
    }
    let len = number_below(65, field)?;
    Some(Some(len as usize))
}

/// A secret as hexadecimal digits, or a hyphen for none.
fn read_secret(alloc: Global, field: &[u8]) -> Result<Option<Vec<u8>>, AllocError>
    ensures { IfOk result (λ o. option_map (λ v. v.items) o ≡ or_none [] scripts.hex_of field.now) }
{
    if field == b"-".as_slice() {
        return Ok(Some(Vec::new(alloc)));
    }
    octets_of_hex(alloc, field)
}
