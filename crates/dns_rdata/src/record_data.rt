// What all record data have.
ghost use Rattle.std.specs.Prelude.{◌≡◌, ◌+◌, ◌==◌};

use dns_numbers::Rtype;
use std::alloc::AllocError;

/// Data of a record (RDATA; RFC 1035, 3.2.1): its type, and its fields one after another.
pub trait RecordData {
    ghost use Rattle.std.specs.Prelude.{◌≡◌, ◌++◌, ℕ, List, OnOk, OnErr, IsTrue, length};
    ghost use Rattle.dns_name.specs.Records.{Field, data_wire, is_data};

    ghost rtype: { Self → ℕ };

    ghost fields: { Self → List Field };

    /// The type (RFC 1035, 3.2.2).
    fn rtype(&self) -> Rtype
        ensures { result ≡ rtype self.now };

    /// How many octets the data have as they are sent, which is RDLENGTH.
    fn rdlen(&self) -> u16
        ensures len { result ≡ length (data_wire (fields self.now)) }
        ensures pieces { IsTrue (is_data (rtype self.now) (fields self.now)) };

    /// The data at the end of `out`, without RDLENGTH and without compression. Without memory `out` stays as it was.
    fn compose_rdata(&self, out: &mut Vec<u8>) -> Result<(), AllocError>
        ensures ok { OnOk result (out.new.items ≡ out.old.items ++ data_wire (fields self.now)) }
        ensures err { OnErr result (out.new.items ≡ out.old.items) };
}

/// Whether data of `len` octets at place `pos` end at place `after`.
pub fn ends_at(pos: usize, len: u16, after: usize) -> bool
    ensures { result ≡ (after == pos + len) }
{
    after >= pos && after - pos == usize::from(len)
}
