//! Numbers and octets as a script and a command line write them.
ghost use Rattle.std.specs.Prelude.{◌≡◌, ◌<◌, ◌+◌, ◌*◌, ◌^◌, Some, None, IfOk, IfSome, IfNone, option_map};
ghost use Rattle.zone_script.specs.ScriptLines as scripts;
ghost use Rattle.zone_script.specs.Digits.{below, next_number};

use hex::FromHexError;
use std::alloc::{AllocError, Global};

/// The bound below which numbers can be asked for.
pub const GREATEST_BOUND: u64 = 1_000_000_000_000_000_000;

/// The number of one decimal digit.
fn digit_of(octet: u8) -> Option<u64>
    ensures { result ≡ scripts.digit_of octet }
{
    match octet {
        b'0'..=b'9' => Some(u64::from(octet - b'0')),
        _ => None,
    }
}

/// A number with a further digit after it.
fn with_digit(number: u64, octet: u8) -> Option<u64>
    requires { number < GREATEST_BOUND }
    ensures { result ≡ next_number number octet }
{
    let digit = digit_of(octet)?;
    Some(number * 10 + digit)
}

/// The number of the digits so far and of further ones, where it is below a bound.
#[tactic(auto, using(crate::proofs::NumberSteps::past_bound, crate::proofs::NumberSteps::no_digit))]
fn with_digits_below(bound: u64, so_far: u64, more: &[u8]) -> Option<u64>
    requires { bound < GREATEST_BOUND }
    ensures value { result ≡ below bound (scripts.more_digits (Some so_far) more.now) }
    ensures within { IfSome result (λ n. n < bound) }
{
    let mut number = so_far;
    for octet in more {
        if number >= bound {
            return None;
        }
        let Some(next) = with_digit(number, *octet) else {
            return None;
        };
        number = next;
    }
    if number < bound { Some(number) } else { None }
}

/// The number of the first digit, and the octets after it; none where another octet comes first, or any after a `0`.
#[tactic(auto, using(crate::proofs::NumberSteps::no_number))]
fn first_digit(digits: &[u8]) -> Option<(u64, &[u8])>
    ensures some { IfSome result (λ r. scripts.number_of digits.now ≡ scripts.more_digits (Some r.0) r.1.now) }
    ensures none { IfNone result (scripts.number_of digits.now ≡ None) }
{
    let Some((first, more)) = digits.split_first() else {
        return None;
    };
    if *first == b'0' && !more.is_empty() {
        return None;
    }
    let Some(number) = digit_of(*first) else {
        return None;
    };
    Some((number, more))
}

/// The number that decimal digits say, where it is below a bound; `+1`, `-1` and `01` are none.
pub fn number_below(bound: u64, digits: &[u8]) -> Option<u64>
    requires { bound < GREATEST_BOUND }
    ensures value { result ≡ scripts.number_below bound digits.now }
    ensures within { IfSome result (λ n. n < bound) }
{
    let (number, more) = first_digit(digits)?;
    with_digits_below(bound, number, more)
}

/// A number with a further digit after it, where it is below 2^64.
#[tactic(auto, using(crate::proofs::NumberSteps::below_bound, crate::proofs::NumberSteps::not_below))]
fn with_digit_u64(number: u64, octet: u8) -> Option<u64>
    ensures value { result ≡ below (2 ^ 64) (next_number number octet) }
    ensures within { IfSome result (λ n. n < 2 ^ 64) }
{
    let digit = digit_of(octet)?;
    number.checked_mul(10)?.checked_add(digit)
}

/// The number of the digits so far and of further ones, where it is below 2^64.
#[tactic(auto, using(crate::proofs::NumberSteps::below_bound, crate::proofs::NumberSteps::stops, crate::proofs::NumberSteps::goes_on))]
fn with_digits_u64(so_far: u64, more: &[u8]) -> Option<u64>
    ensures { result ≡ below (2 ^ 64) (scripts.more_digits (Some so_far) more.now) }
{
    let mut number = so_far;
    for octet in more {
        let Some(next) = with_digit_u64(number, *octet) else {
            return None;
        };
        number = next;
    }
    Some(number)
}

/// The number that decimal digits say, where it is below 2^64, by the same rules.
pub fn number_u64(digits: &[u8]) -> Option<u64>
    ensures { result ≡ scripts.number_below (2 ^ 64) digits.now }
{
    let (number, more) = first_digit(digits)?;
    with_digits_u64(number, more)
}

/// The octets that pairs of hexadecimal digits in either case say; None where the text is empty or isn't that.
pub fn octets_of_hex(alloc: Global, text: &[u8]) -> Result<Option<Vec<u8>>, AllocError>
    ensures { IfOk result (λ o. option_map (λ v. v.items) o ≡ scripts.hex_of text.now) }
{
    if text.is_empty() {
        return Ok(None);
    }
    match hex::decode(alloc, text) {
        Ok(octets) => Ok(Some(octets)),
        Err(FromHexError::OutOfMemory) => Err(AllocError),
        Err(_) => Ok(None),
    }
}
