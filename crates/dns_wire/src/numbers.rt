// Numbers of two octets in a header.

ghost use Rattle.std.specs.Prelude.{◌≡◌, ◌==◌, ◌+◌, ◌<◌, ◌≤◌, length, vec_len};
ghost use Rattle.std.specs.Int.{bit_at};
ghost use Rattle.dns_wire.specs.Wire.{header_number, flag as flag_worth};
ghost use Rattle.dns_wire.specs.Numbers.{with_number};

/// The number in the two octets at `place`, the most significant octet first (RFC 1035, 4.1.1).
pub fn number_at(octets: &[u8], place: usize) -> u16
    requires { place + 2 ≤ length octets.now }
    ensures { result ≡ header_number place octets.now }
{
    u16::from_be_bytes([octets[place], octets[place + 1]])
}

/// Writes a number into the two octets at `place`, the most significant octet first; the others stay as they were
/// (RFC 1035, 4.1.1).
pub fn set_number(octets: &mut Vec<u8>, place: usize, number: u16)
    requires { place + 2 ≤ vec_len octets.old }
    ensures { octets.new.items ≡ with_number place octets.old.items number }
{
    let [high, low] = number.to_be_bytes();
    octets[place] = high;
    octets[place + 1] = low;
}

/// Whether bit `place` is set, the least significant bit being bit 0.
pub fn is_set(word: u16, place: u32) -> bool
    requires { place < 16 }
    ensures { result ≡ (bit_at word place == 1) }
{
    word >> place & 1 == 1
}

/// What a flag is worth at bit `place`.
pub fn flag(place: u32, set: bool) -> u16
    requires { place < 16 }
    ensures { result ≡ flag_worth place set }
{
    if set { 1 << place } else { 0 }
}
