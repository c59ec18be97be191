//! What the words of the secondary's program ask for (docs/SCRIPT.md).
ghost use Rattle.std.specs.Prelude.{◌≡◌, ◌<◌, Some, None, if◌then◌else◌, IfSome, map, option_map, option_copied, string_bytes};
ghost use Rattle.zone_script.specs.ScriptLines as scripts;
ghost use Rattle.xfr_outcomes.specs.Modes.{mode_of};
ghost use Rattle.zone_asking.specs.Wishes as spec;

use crate::limits::Limits;
use xfr_services::XfrMode;
use zone_script::numbers::{GREATEST_BOUND, number_below};

/// How many replies an exchange has at most, where the words say nothing else: as many as a client takes at all.
pub const USUAL_REPLIES: u64 = 65_536;

/// How many octets they have.
pub const USUAL_OCTETS: u64 = 1_073_741_824;

/// How many records they have.
pub const USUAL_RECORDS: u64 = 10_000_000;

/// How many records a set has.
pub const USUAL_SET_RECORDS: u64 = 100_000;

/// The kind of transfer that words ask for, and how much is read at most: `axfr` or `ixfr`, a file's name, and then the names of limits, in any order and
/// each once at most, with a number behind each: `replies`, below 2^32, `octets`, `records` and `set-records`, below 2^48.
pub fn wish_of(words: &[String]) -> Option<(XfrMode, Limits)>
    ensures { option_map spec.wished result ≡ spec.wish_of (map string_bytes words.now) }
{
    match words {
        [word, _, more @ ..] => wish_from(word, more),
        _ => None,
    }
}

/// The name of the script's file in words: the second one.
pub fn file_of(words: &[String]) -> Option<&String>
    ensures { option_map string_bytes (option_copied result) ≡ spec.file_of (map string_bytes words.now) }
{
    match words {
        [_, file, ..] => Some(file),
        _ => None,
    }
}

/// What the first word asks for with the words behind the file's name.
fn wish_from(word: &String, more: &[String]) -> Option<(XfrMode, Limits)>
    ensures { option_map spec.wished result ≡ spec.wish_from (spec.mode_named (string_bytes word.now)) (spec.limits_of (map string_bytes more.now)) }
{
    let mode = mode_named(word)?;
    let limits = limits_of(more)?;
    Some((mode, limits))
}

/// The kind of transfer that a word names.
fn mode_named(word: &String) -> Option<XfrMode>
    ensures { option_map mode_of result ≡ spec.mode_named (string_bytes word.now) }
{
    if word.as_str() == "axfr" {
        Some(XfrMode::Axfr)
    } else if word.as_str() == "ixfr" {
        Some(XfrMode::Ixfr)
    } else {
        None
    }
}

/// The limits that words set, with the usual ones where they say nothing.
fn limits_of(words: &[String]) -> Option<Limits>
    ensures { result ≡ spec.limits_of (map string_bytes words.now) }
{
    if are_limits(words) {
        numbers_of(words)
    } else {
        None
    }
}

/// The limits that names and numbers set.
fn numbers_of(words: &[String]) -> Option<Limits>
    ensures { result ≡ spec.numbers_of (map string_bytes words.now) }
{
    let replies = limit_named(b"replies", 1 << 32, USUAL_REPLIES, words)?;
    let octets = limit_named(b"octets", 1 << 48, USUAL_OCTETS, words)?;
    let records = limit_named(b"records", 1 << 48, USUAL_RECORDS, words)?;
    let set_records = limit_named(b"set-records", 1 << 48, USUAL_SET_RECORDS, words)?;
    Some(Limits {
        replies: replies as u32,
        octets,
        records,
        set_records: Some(set_records as usize),
    })
}

/// Whether words are names of limits with a word behind each.
fn are_limits(words: &[String]) -> bool
    ensures { result ≡ spec.are_limits (map string_bytes words.now) }
{
    let mut rest = words;
    while let [name, _, more @ ..] = rest {
        if !is_limit(name) {
            return false;
        }
        rest = more;
    }
    rest.is_empty()
}

/// Whether a word is the name of a limit.
fn is_limit(word: &String) -> bool
    ensures { result ≡ spec.is_limit (string_bytes word.now) }
{
    if word.as_str() == "replies" {
        true
    } else if word.as_str() == "octets" {
        true
    } else if word.as_str() == "records" {
        true
    } else {
        word.as_str() == "set-records"
    }
}

/// Whether one of the names of limits in words is this one.
fn has_limit(name: &[u8], words: &[String]) -> bool
    ensures { result ≡ spec.has_limit name.now (map string_bytes words.now) }
{
    let mut rest = words;
    while let [word, _, more @ ..] = rest {
        if word.as_bytes() == name {
            return true;
        }
        rest = more;
    }
    false
}

/// The number, below a bound, behind the only one of this name in words; where none has it, the usual number.
fn limit_named(name: &[u8], bound: u64, usual: u64, words: &[String]) -> Option<u64>
    requires bounded { bound < GREATEST_BOUND }
    requires fits { usual < bound }
    ensures value { result ≡ spec.limit_named name.now bound usual (map string_bytes words.now) }
    ensures within { IfSome result (λ n. n < bound) }
{
    let mut rest = words;
    while let [word, digits, more @ ..] = rest {
        if word.as_bytes() == name {
            return only_limit(name, bound, digits, more);
        }
        rest = more;
    }
    Some(usual)
}

/// The number that digits say, below a bound, unless a limit of this name stands in the words behind them.
fn only_limit(name: &[u8], bound: u64, digits: &String, more: &[String]) -> Option<u64>
    requires { bound < GREATEST_BOUND }
    ensures value { result ≡ (if spec.has_limit name.now (map string_bytes more.now) then None else scripts.number_below bound (string_bytes digits.now)) }
    ensures within { IfSome result (λ n. n < bound) }
{
    if has_limit(name, more) {
        None
    } else {
        number_below(bound, digits.as_bytes())
    }
}
