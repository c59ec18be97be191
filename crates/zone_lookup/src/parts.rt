// The authority and additional sections of an owned answer.
ghost use Rattle.std.specs.Prelude.{◌≡◌, [], option_copied};
ghost use Rattle.zone_lookup.specs.Replies.{additional, authority};

use dns_name::StoredName;
use dns_rdata::StoredRecord;
use std::alloc::Global;
use std::marker::Model;
use zone_values::{SharedRr, SharedRrset};

/// Records for the additional section: those that the answer needs, and those that may be left out (RFC 2181, 9).
#[derive(Drop)]
pub struct AnswerAdditional {
    required: Vec<StoredRecord>,
    discardable: Vec<StoredRecord>,
}

impl Model for AnswerAdditional {
    ghost use Rattle.zone_lookup.specs.Replies.{Additional, additional};

    ghost Value = { Additional };

    ghost view = { λ a. additional a.required.items a.discardable.items };
}

impl AnswerAdditional {
    /// These records, without which the answer is cut short, and none that may be left out.
    pub fn new(alloc: Global, required: Vec<StoredRecord>) -> AnswerAdditional
        ensures { result ≡ additional required.items [] }
    {
        AnswerAdditional {
            required,
            discardable: Vec::new(alloc),
        }
    }

    /// Puts these records that may be left out in place of those there.
    pub fn push_discardable(&mut self, discardable: Vec<StoredRecord>)
        ensures { self.new ≡ additional self.old.required discardable.items }
    {
        self.discardable = discardable;
    }

    /// The records that the answer needs.
    pub fn required(&self) -> &[StoredRecord]
        ensures { result.now ≡ self.now.required }
    {
        &self.required
    }

    /// The records that may be left out.
    pub fn discardable(&self) -> &[StoredRecord]
        ensures { result.now ≡ self.now.discardable }
    {
        &self.discardable
    }
}

/// Records for the authority section, at one owner: an SOA record, an NS set and a DS set, each if there is one.
#[derive(Drop)]
pub struct AnswerAuthority {
    owner: StoredName,
    soa: Option<SharedRr>,
    ns: Option<SharedRrset>,
    ds: Option<SharedRrset>,
}

impl Model for AnswerAuthority {
    ghost use Rattle.zone_lookup.specs.Replies.{Authority, authority};

    ghost Value = { Authority };

    ghost view = { λ a. authority a.owner a.soa a.ns a.ds };
}

impl AnswerAuthority {
    /// These records at that owner.
    pub fn new(
        owner: StoredName,
        soa: Option<SharedRr>,
        ns: Option<SharedRrset>,
        ds: Option<SharedRrset>,
    ) -> AnswerAuthority
        ensures { result ≡ authority owner soa ns ds }
    {
        AnswerAuthority { owner, soa, ns, ds }
    }

    /// The name that the records stand at.
    pub fn owner(&self) -> &StoredName
        ensures { result.now ≡ self.now.owner }
    {
        &self.owner
    }

    /// The SOA record.
    pub fn soa(&self) -> Option<&SharedRr>
        ensures { option_copied result ≡ self.now.soa }
    {
        self.soa.as_ref()
    }

    /// The NS set.
    pub fn ns(&self) -> Option<&SharedRrset>
        ensures { option_copied result ≡ self.now.ns }
    {
        self.ns.as_ref()
    }

    /// The DS set.
    pub fn ds(&self) -> Option<&SharedRrset>
        ensures { option_copied result ≡ self.now.ds }
    {
        self.ds.as_ref()
    }
}
