// Numbers and octets at a place of a message (RFC 1035, 2.3.2).
ghost use Rattle.std.specs.Prelude.{◌≡◌, ◌≤◌, ◌+◌, length, IfOk, OnErr, Some, None};
ghost use Rattle.dns_name.specs.Octets.{octets_at, u16_at, u32_at, u48_at};

use thiserror::Error;

/// The octets at a place of the message spell no item there.
#[derive(Clone, Copy, Debug, PartialEq, Eq, Drop, Error)]
#[error("unexpected end or malformed item")]
pub struct ParseError;

/// The `len` octets at place `pos`, and the place after them.
pub fn parse_octets<'m>(
    message: &'m [u8],
    pos: usize,
    len: usize,
) -> Result<(&'m [u8], usize), ParseError>
    ensures found { IfOk result (λ r. octets_at len message.now pos ≡ Some (r.0.now, r.1)) }
    ensures none { OnErr result (octets_at len message.now pos ≡ None) }
    ensures inside { IfOk result (λ r. (r.1 ≡ pos + len) × (r.1 ≤ length message.now) × (length r.0.now ≡ len)) }
{
    if pos > message.len() || len > message.len() - pos {
        return Err(ParseError);
    }
    let after = pos + len;
    Ok((&message[pos..after], after))
}

/// The number of two octets at place `pos`, the most significant octet first, and the place after it.
pub fn parse_u16(message: &[u8], pos: usize) -> Result<(u16, usize), ParseError>
    ensures found { IfOk result (λ r. u16_at message.now pos ≡ Some r) }
    ensures none { OnErr result (u16_at message.now pos ≡ None) }
    ensures inside { IfOk result (λ r. (r.1 ≡ pos + 2) × (r.1 ≤ length message.now)) }
{
    let (octets, after) = parse_octets(message, pos, 2)?;
    let mut number = [0; 2];
    number.copy_from_slice(octets);
    Ok((u16::from_be_bytes(number), after))
}

/// The number of four octets at place `pos`, the most significant octet first, and the place after it.
pub fn parse_u32(message: &[u8], pos: usize) -> Result<(u32, usize), ParseError>
    ensures found { IfOk result (λ r. u32_at message.now pos ≡ Some r) }
    ensures none { OnErr result (u32_at message.now pos ≡ None) }
    ensures inside { IfOk result (λ r. (r.1 ≡ pos + 4) × (r.1 ≤ length message.now)) }
{
    let (octets, after) = parse_octets(message, pos, 4)?;
    let mut number = [0; 4];
    number.copy_from_slice(octets);
    Ok((u32::from_be_bytes(number), after))
}

/// The number of six octets at place `pos`, the most significant octet first, and the place after it (RFC 8945, 4.2).
pub fn parse_u48(message: &[u8], pos: usize) -> Result<(u64, usize), ParseError>
    ensures found { IfOk result (λ r. u48_at message.now pos ≡ Some r) }
    ensures none { OnErr result (u48_at message.now pos ≡ None) }
    ensures inside { IfOk result (λ r. (r.1 ≡ pos + 6) × (r.1 ≤ length message.now)) }
{
    let (octets, after) = parse_octets(message, pos, 6)?;
    let mut number = [0; 8];
    number[2..].copy_from_slice(octets);
    Ok((u64::from_be_bytes(number), after))
}
