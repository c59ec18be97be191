// Serial numbers (RFC 1982).
ghost use Rattle.std.specs.Prelude.{◌≡◌, ◌<◌, ◌^◌, Some};
ghost use Rattle.std.specs.Fmt.{decimal};
ghost use Rattle.dns_numbers.specs.Serial.{serial_lt, serial_cmp, serial_add};

use std::cmp::Ordering;
use std::fmt;
use std::marker::Model;

/// A serial number of 32 bits, which counts on from 2^32 - 1 to 0 (RFC 1982). Two serials at distance 2^31 have no order.
#[derive(Clone, Copy, Debug, PartialEq, Eq, Hash)]
pub struct Serial {
    value: u32,
}

impl Model for Serial {
    ghost use Rattle.std.specs.Prelude.{ℕ, ◌<◌, ◌^◌};

    ghost Value = { ℕ };

    ghost view = { λ s. s.value };

    ghost invariant = { λ s. s.value < 2 ^ 32 };

    ghost inverse = { λ n. record { value = n } };
}

impl Serial {
    /// The number as it is sent.
    pub fn into_int(self) -> u32
        ensures { result ≡ self }
    {
        self.value
    }

    /// The serial `n` later (RFC 1982, 3.1), for `n` below 2^31.
    pub fn add(self, n: u32) -> Serial
        requires { n < 2 ^ 31 }
        ensures { result ≡ serial_add self n }
    {
        Serial {
            value: self.value.wrapping_add(n),
        }
    }

    /// How this serial stands to the other (RFC 1982, 3.2), with no answer at distance 2^31. The order isn't transitive, so it is no
    /// `PartialOrd`.
    pub fn partial_cmp(&self, other: &Serial) -> Option<Ordering>
        ensures { result ≡ serial_cmp self.now other.now }
    {
        let (a, b) = (self.value, other.value);
        if a == b {
            Some(Ordering::Equal)
        } else if is_before(a, b) {
            Some(Ordering::Less)
        } else if is_before(b, a) {
            Some(Ordering::Greater)
        } else {
            None
        }
    }
}

impl From<u32> for Serial {
    ghost from_gives = { λ n s. s ≡ n };

    fn from(value: u32) -> Serial {
        Serial { value }
    }
}

impl fmt::Display for Serial {
    ghost output = { λ s. Some (decimal s) };

    fn fmt<W: fmt::Write>(&self, f: &mut fmt::Formatter<W>) -> fmt::Result {
        let value = self.value;
        write!(f, "{value}")
    }
}

/// Whether `a` is less than `b` (RFC 1982, 3.2).
fn is_before(a: u32, b: u32) -> bool
    ensures { result ≡ serial_lt a b }
{
    a < b && b - a < 0x8000_0000 || b < a && a - b > 0x8000_0000
}
