//! Numbers and octets in a line.
ghost use Rattle.std.specs.Prelude.{◌≡◌, ◌++◌, decimal, OnOk};
ghost use Rattle.hex.specs.Hex.{encode_lower};

use std::alloc::{AllocError, Global};

/// A number in decimal digits at the end of `out`.
pub fn append_number(alloc: Global, out: &mut Vec<u8>, number: u64) -> Result<(), AllocError>
    ensures { OnOk result (out.new.items ≡ out.old.items ++ decimal number) }
{
    let text = format!(in alloc; "{number}")?;
    out.extend_from_slice(text.as_bytes())
}

/// Octets in hexadecimal digits, with lower case letters, at the end of `out`.
pub(crate) fn append_hex(out: &mut Vec<u8>, octets: &[u8]) -> Result<(), AllocError>
    ensures { OnOk result (out.new.items ≡ out.old.items ++ encode_lower octets.now) }
{
    let start = out.len();
    let Some(len) = octets.len().checked_mul(2) else {
        return Err(AllocError);
    };
    let Some(end) = start.checked_add(len) else {
        return Err(AllocError);
    };
    out.resize(end, 0)?;
    match hex::encode_to_slice(octets, out.slice_mut(start..)) {
        Ok(()) => Ok(()),
        Err(_) => Err(AllocError),
    }
}
