// Records whose owner and data are lent.
ghost use Rattle.dns_rdata.specs.ZoneData.{rtype_of, data_fields};

use crate::record::Record;
use crate::record_data::RecordData;
use crate::zone_data::StoredRecordData;
use dns_name::NameRef;
use dns_numbers::Rtype;
use std::alloc::AllocError;

/// A record whose owner and data are lent, as one of an RRset that is sent from where it is kept.
pub type LentRecord<'r> = Record<NameRef<'r>, &'r StoredRecordData>;

impl RecordData for &StoredRecordData {
    ghost rtype = { λ d. rtype_of d.now };

    ghost fields = { λ d. data_fields d.now };

    fn rtype(&self) -> Rtype {
        (**self).rtype()
    }

    fn rdlen(&self) -> u16 {
        (**self).rdlen()
    }

    fn compose_rdata(&self, out: &mut Vec<u8>) -> Result<(), AllocError> {
        (**self).compose_rdata(out)
    }
}
