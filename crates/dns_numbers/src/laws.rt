// Laws of the definitions, each the contract of a function with an empty body.
ghost use Rattle.std.specs.Prelude.{◌≡◌, ◌^◌, ◌<◌, ℕ, IsTrue};
ghost use Rattle.dns_numbers.specs.Serial.{serial_lt, serial_add};

/// A serial is before another exactly where fewer than 2^31 steps lead from it there, and never before and after (RFC 1982, 3).
pub fn serials_count_on()
    ensures steps { (a n : ℕ) → a < 2 ^ 32 → 0 < n → n < 2 ^ 31 → IsTrue (serial_lt a (serial_add a n)) }
    ensures reached { (a b : ℕ) → a < 2 ^ 32 → b < 2 ^ 32 → IsTrue (serial_lt a b)
        → (n : ℕ) × (0 < n) × (n < 2 ^ 31) × (serial_add a n ≡ b) }
    ensures one_way { (a b : ℕ) → IsTrue (serial_lt a b) → IsTrue (serial_lt b a) → ⊥ }
{}
