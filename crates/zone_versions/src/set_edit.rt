// Edits of RRsets in place.
use dns_numbers::Ttl;
use dns_rdata::StoredRecordData;
use std::alloc::{AllocError, Global};
use zone_values::Rrset;

/// An edit of an RRset in place, which keeps its type.
pub(crate) trait SetEdit {
    ghost use Rattle.std.specs.Prelude.{◌≡◌, ℕ, Option, Some, OnOk, OnErr};
    ghost use Rattle.zone_model.specs.Version.{RecordSet};
    ghost use Rattle.zone_values.specs.TypedEntries.{typed};

    ghost fits: { Self → ℕ → Type 0 };

    ghost edited: { Self → Option RecordSet → RecordSet };

    /// Makes it. The data that it brings are of the RRset's type. Without memory all is as before.
    fn edit(self, set: &mut Rrset) -> Result<(), AllocError>
        requires { fits self set.old.rtype }
        ensures ok { OnOk result (set.new ≡ typed set.old.rtype (edited self (Some set.old.contents))) }
        ensures err { OnErr result (set.new ≡ set.old) };
}

/// Data put last, and a TTL, in seconds, in place of the RRset's.
#[derive(Drop)]
pub(crate) struct Appending {
    pub(crate) alloc: Global,
    pub(crate) ttl: Ttl,
    pub(crate) item: StoredRecordData,
}

impl SetEdit for Appending {
    ghost use Rattle.std.specs.Prelude.{◌≡◌};
    ghost use Rattle.dns_rdata.specs.ZoneData.{rtype_of, data_fields};
    ghost use Rattle.zone_values.specs.SetEdits.{last_set};

    ghost fits = { λ e rtype. rtype_of e.item ≡ rtype };

    ghost edited = { λ e found. last_set e.ttl (data_fields e.item) found };

    fn edit(self, set: &mut Rrset) -> Result<(), AllocError> {
        let Appending { alloc, ttl, item } = self;
        set.append(alloc, ttl, item)
    }
}

/// Data that a zone opens with, put last unless equal data stand there, and the lower of a TTL, in seconds, and the RRset's.
#[derive(Drop)]
pub(crate) struct Opening {
    pub(crate) alloc: Global,
    pub(crate) ttl: Ttl,
    pub(crate) item: StoredRecordData,
}

impl SetEdit for Opening {
    ghost use Rattle.std.specs.Prelude.{◌≡◌};
    ghost use Rattle.dns_rdata.specs.ZoneData.{rtype_of, data_fields};
    ghost use Rattle.zone_values.specs.SetEdits.{opening_set};

    ghost fits = { λ e rtype. rtype_of e.item ≡ rtype };

    ghost edited = { λ e found. opening_set e.ttl (data_fields e.item) found };

    fn edit(self, set: &mut Rrset) -> Result<(), AllocError> {
        let Opening { alloc, ttl, item } = self;
        set.open_with(alloc, ttl, item)
    }
}

/// Data taken out, and a TTL, in seconds, in place of the RRset's.
#[derive(Drop)]
pub(crate) struct Thinning<'i> {
    pub(crate) ttl: Ttl,
    pub(crate) item: &'i StoredRecordData,
}

impl<'i> SetEdit for Thinning<'i> {
    ghost use Rattle.std.specs.Prelude.{⊤};
    ghost use Rattle.dns_rdata.specs.ZoneData.{data_fields};
    ghost use Rattle.zone_versions.specs.DataEdits.{thinned_set};

    ghost fits = { λ e rtype. ⊤ };

    ghost edited = { λ e found. thinned_set e.ttl (data_fields e.item.now) found };

    fn edit(self, set: &mut Rrset) -> Result<(), AllocError> {
        set.remove(self.ttl, self.item);
        Ok(())
    }
}
