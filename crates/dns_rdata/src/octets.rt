// Data that are octets alone.
ghost use Rattle.std.specs.Prelude.{◌≡◌, ◌<◌, ◌+◌, IfOk, OnErr, Some, None, length};
ghost use Rattle.dns_name.specs.Records.{rest_at};

use bytes::Bytes;
use dns_name::{ParseError, parse_octets};
use std::alloc::{AllocError, Global};
use thiserror::Error;

/// The data would pass 65,535 octets, which RDLENGTH can't tell (RFC 1035, 3.2.1).
#[derive(Clone, Copy, Debug, PartialEq, Eq, Drop, Error)]
#[error("record data too long")]
pub struct LongRecordData;

/// The `len` octets at place `pos` of a message; an error where the message ends before.
pub(crate) fn rest_of<'m>(message: &'m [u8], pos: usize, len: u16) -> Result<&'m [u8], ParseError>
    ensures found { IfOk result (λ o. rest_at message.now (pos + len) pos ≡ Some (o.now, pos + len)) }
    ensures bound { IfOk result (λ o. length o.now < 65536) }
    ensures none { OnErr result (rest_at message.now (pos + len) pos ≡ None) }
{
    let (found, _) = parse_octets(message, pos, usize::from(len))?;
    Ok(found)
}

/// The octets in memory of their own.
pub(crate) fn store(alloc: Global, octets: &[u8]) -> Result<Bytes, AllocError>
    ensures { IfOk result (λ b. b ≡ octets.now) }
{
    Bytes::copy_from_slice(alloc, octets)
}
