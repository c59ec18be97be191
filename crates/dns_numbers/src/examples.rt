// Worked examples, proved by computation.
ghost use Rattle.std.specs.Prelude.{◌≡◌, true, false, None};
ghost use Rattle.dns_numbers.specs.Serial.{serial_lt, serial_cmp, serial_add, serial_upto};

use crate::codes::Ttl;

/// A record that isn't to be kept has no second.
pub fn zero_ttl() -> Ttl
    ensures { result ≡ 0 }
{
    Ttl::ZERO
}

/// At distance 2^31 neither serial is less.
pub fn serials()
    ensures wraps { serial_lt 4294967295 0 ≡ true }
    ensures far { serial_lt 0 2147483648 ≡ false }
    ensures far_back { serial_lt 2147483648 0 ≡ false }
    ensures near { serial_lt 0 2147483647 ≡ true }
    ensures none { serial_cmp 0 2147483648 ≡ None }
    ensures next { serial_add 4294967295 1 ≡ 0 }
    ensures no_news { serial_upto 7 7 ≡ true }
{}
