// Moments as a TSIG tells them.
ghost use Rattle.std.specs.Prelude.{◌≡◌, ◌<◌, ◌^◌, ◌==◌, ◌+◌, ◌++◌, ℕ, List, length, Some, None, Ok, IfOk, OnOk, OnErr, if◌then◌else◌, nat_le, nat_lt};
ghost use Rattle.std.specs.Fmt.{decimal};
ghost use Rattle.std.specs.Int.{abs_diff};
ghost use Rattle.dns_name.specs.Octets.{u48_at, u48_number, u48_octets};

use dns_name::{ParseError, parse_octets};
use std::alloc::AllocError;
use std::fmt;
use std::marker::Model;

/// Seconds since 1970, below 2^48, as a TSIG tells them (RFC 8945, 4.2).
#[derive(Clone, Copy, Debug, PartialEq, Eq, PartialOrd, Ord, Hash)]
pub struct Time48 {
    seconds: u64,
}

impl Model for Time48 {
    ghost use Rattle.std.specs.Prelude.{ℕ, ◌<◌, ◌^◌};

    ghost Value = { ℕ };

    ghost view = { λ t. t.seconds };

    ghost invariant = { λ t. t.seconds < 2 ^ 48 };

    ghost inverse = { λ n. record { seconds = n } };
}

impl Time48 {
    /// Whether so many seconds fit 48 bits.
    pub fn fits(seconds: u64) -> bool
        ensures { result ≡ nat_lt seconds (2 ^ 48) }
    {
        seconds < 1 << 48
    }

    /// The moment so many seconds after the begin of 1970.
    pub fn from_u64(seconds: u64) -> Time48
        requires { seconds < 2 ^ 48 }
        ensures { result ≡ seconds }
    {
        Time48 { seconds }
    }

    /// The six octets in which the moment is sent, the most significant first (RFC 8945, 4.2).
    pub fn into_octets(self) -> [u8; 6]
        ensures { result ≡ u48_octets self }
    {
        let [_, _, a, b, c, d, e, f] = self.seconds.to_be_bytes();
        [a, b, c, d, e, f]
    }

    /// These octets at the end of `out` (RFC 8945, 4.2). Without memory `out` is as before.
    pub fn compose(self, out: &mut Vec<u8>) -> Result<(), AllocError>
        ensures ok { OnOk result (out.new.items ≡ out.old.items ++ u48_octets self) }
        ensures err { OnErr result (out.new.items ≡ out.old.items) }
    {
        out.extend_from_slice(&self.into_octets())
    }

    /// The moment that six octets tell, the most significant first, and None where there aren't six (RFC 8945, 4.2).
    pub fn from_octets(octets: &[u8]) -> Option<Time48>
        ensures { result ≡ (if length octets.now == 6 then Some (u48_number octets.now) else None) }
    {
        let [a, b, c, d, e, f] = octets else {
            return None;
        };
        let seconds = u64::from_be_bytes([0, 0, *a, *b, *c, *d, *e, *f]);
        Some(Time48 { seconds })
    }

    /// The moment in the six octets at place `pos` of a message, and the place after it. Refused where six don't stand there (RFC
    /// 8945, 4.2).
    pub fn parse(message: &[u8], pos: usize) -> Result<(Time48, usize), ParseError>
        ensures found { IfOk result (λ r. u48_at message.now pos ≡ Some r) }
        ensures none { OnErr result (u48_at message.now pos ≡ None) }
        // What `into_octets` wrote is the same moment again, wherever it stands.
        ensures round_trip { (t : ℕ) (before after : List ℕ) → t < 2 ^ 48 → message.now ≡ before ++ (u48_octets t ++ after) → pos ≡ length before
            → result ≡ Ok (t, pos + 6) }
    {
        time_at(message, pos)
    }

    /// Whether the two moments are at most `fudge` seconds apart (RFC 8945, 5.2.3).
    pub fn eq_fudged(self, other: Time48, fudge: u64) -> bool
        ensures { result ≡ nat_le (abs_diff self other) fudge }
    {
        self.seconds.abs_diff(other.seconds) <= fudge
    }
}

/// The moment at a place, as `Time48::parse` gives it.
fn time_at(message: &[u8], pos: usize) -> Result<(Time48, usize), ParseError>
    ensures found { IfOk result (λ r. u48_at message.now pos ≡ Some r) }
    ensures none { OnErr result (u48_at message.now pos ≡ None) }
{
    let (octets, pos) = parse_octets(message, pos, 6)?;
    match Time48::from_octets(octets) {
        Some(time) => Ok((time, pos)),
        None => Err(ParseError),
    }
}

impl From<Time48> for u64 {
    ghost from_gives = { λ t seconds. seconds ≡ t };

    fn from(time: Time48) -> u64 {
        time.seconds
    }
}

impl fmt::Display for Time48 {
    ghost output = { λ t. Some (decimal t) };

    fn fmt<W: fmt::Write>(&self, f: &mut fmt::Formatter<W>) -> fmt::Result {
        let seconds = self.seconds;
        write!(f, "{seconds}")
    }
}
