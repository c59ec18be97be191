// Zone cuts.
ghost use Rattle.std.specs.Prelude.{◌≡◌};

use crate::rrset::SharedRrset;
use dns_name::StoredName;
use dns_rdata::StoredRecord;
use std::alloc::AllocError;

/// A zone cut: where the authority of a zone ends (RFC 1034, 4.2.1).
#[derive(Debug, Drop)]
pub struct ZoneCut {
    /// The owner of the cut's NS records.
    pub name: StoredName,
    /// The NS records.
    pub ns: SharedRrset,
    /// The DS records, if there are any (RFC 4034, 5).
    pub ds: Option<SharedRrset>,
    /// The addresses of name servers that stand below the cut.
    pub glue: Vec<StoredRecord>,
}

impl Clone for ZoneCut {
    ghost is_clone = { λ cut copy. (copy.name ≡ cut.name) × (copy.ns ≡ cut.ns) × (copy.ds ≡ cut.ds) × (copy.glue.items ≡ cut.glue.items) };

    fn clone(&self) -> Result<ZoneCut, AllocError> {
        Ok(ZoneCut {
            name: self.name.clone()?,
            ns: self.ns.clone()?,
            ds: self.ds.clone()?,
            glue: self.glue.clone()?,
        })
    }
}
