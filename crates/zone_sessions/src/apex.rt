// A zone.
ghost use Rattle.std.specs.Prelude.{◌≡◌, [], IfOk, OnErr, option_copied, option_map, true, false};
ghost use Rattle.dns_name.specs.Names.{same_name, under};
ghost use Rattle.dns_numbers.specs.Codes.{type_soa};
ghost use Rattle.zone_model.specs.Version.{set_at};
ghost use Rattle.zone_values.specs.Relative.{labels_below};
ghost use Rattle.zone_values.specs.TypedEntries.{typed};
ghost use Rattle.zone_reads.specs.Parts.{part};
ghost use Rattle.zone_reads.specs.Session.{new_session};

use crate::desk::Desk;
use crate::write::WriteZone;
use dns_name::{Labelled, StoredName, ToName};
use dns_numbers::{Class, Rtype};
use std::alloc::{AllocError, Global};
use std::marker::Model;
use std::sync::{Arc, Wait};
use zone_reads::{NodeChildren, NodeRrsets, ReadZone};
use zone_values::{OutOfZone, RelNameRevIter, Rrset, rel_name_rev_iter};
use zone_versions::ZoneVersion;

/// A zone that is read where it is written: its current version, and how the next one is written. It is not `Drop`: end it by `close`.
pub struct ZoneApex {
    desk: Desk,
}

impl Model for ZoneApex {
    ghost use Rattle.zone_model.specs.Commits.{Commit};

    ghost Value = { Commit };

    ghost view = { λ z. z.desk.last };
}

impl ZoneApex {
    /// A zone without records, its version numbered 0.
    pub fn new(alloc: Global, apex: StoredName, class: Class) -> Result<ZoneApex, AllocError>
        ensures { IfOk result (λ z. z ≡ record { number = 0; version = record { apex = apex; class = class; sets = [] } }) }
    {
        let version = ZoneVersion::empty(alloc, &apex, class);
        drop(apex);
        let version = Arc::new(alloc, version?)?;
        ZoneApex::of(alloc, ReadZone::of(0, version))
    }

    /// A zone of the RRsets of a version that is read, which are shared: `rrsets` and `children` are the parts of its apex, as the calls of these
    /// names lend them, and `apex_name` is that apex up to case. `version` is the number of the version that it opens with. Refused only where memory
    /// runs out.
    pub fn from_parts(
        alloc: Global,
        apex_name: StoredName,
        class: Class,
        rrsets: NodeRrsets<'_>,
        children: NodeChildren<'_>,
        version: u64,
    ) -> Result<ZoneApex, AllocError>
        requires parts { children ≡ rrsets }
        requires apex { rrsets.name ≡ rrsets.version.apex }
        requires name { same_name apex_name rrsets.version.apex ≡ true }
        ensures { IfOk result (λ z. z ≡ record { number = version; version = record { apex = apex_name; class = class; sets = rrsets.entry.version.sets } }) }
    {
        drop(children);
        let reopened = rrsets.version().reopened(apex_name, class)?;
        let contents = Arc::new(alloc, reopened)?;
        ZoneApex::of(alloc, ReadZone::of(version, contents))
    }

    /// A zone whose current version is this one. Refused only where memory runs out.
    pub fn of(alloc: Global, current: ReadZone) -> Result<ZoneApex, AllocError>
        ensures { IfOk result (λ z. z ≡ current) }
    {
        Ok(ZoneApex {
            desk: Desk::open_locked(alloc, current)?,
        })
    }

    /// The class of the zone.
    pub fn class(&self) -> Class
        ensures { result ≡ self.now.version.class }
    {
        self.current().class()
    }

    /// The name of the zone's apex, as it was given.
    pub fn name(&self) -> &StoredName
        ensures { result.now ≡ self.now.version.apex }
    {
        self.current().apex_name()
    }

    /// The labels of a name left of the apex, from the right, ASCII case aside (RFC 1034, 3.1). `OutOfZone` exactly where the name is neither the
    /// apex nor below it.
    pub fn prepare_name<'a, N: ToName>(
        &self,
        qname: &'a N,
    ) -> Result<RelNameRevIter<'a, N>, OutOfZone>
        ensures ok { IfOk result (λ i. (under (N.labels qname.now) self.now.version.apex ≡ true) × (i ≡ labels_below self.now.version.apex (N.labels qname.now))) }
        ensures err { OnErr result (under (N.labels qname.now) self.now.version.apex ≡ false) }
    {
        rel_name_rev_iter(self.name(), qname)
    }

    /// The SOA records at the apex of a version that is read, lent with their TTL, if there are any: the first is the zone's (RFC 1035, 3.3.13).
    pub fn get_soa<'v>(&self, read: &'v ReadZone) -> Option<&'v Rrset>
        ensures { option_copied result ≡ option_map (typed type_soa) (set_at read.now.version read.now.version.apex type_soa) }
    {
        read.rrset_at(read.apex_name(), Rtype::SOA)
    }

    /// The RRsets of the apex of a version that is read.
    #[tactic(auto, using(crate::proofs::Reopened::apex_inside))]
    pub fn rrsets<'v>(&self, read: &'v ReadZone) -> NodeRrsets<'v>
        ensures { result ≡ part read.now.version read.now.version.apex }
    {
        // For the proof: a published version is valid.
        read.validity();
        NodeRrsets::of(read.contents(), read.apex_name().to_key_name())
    }

    /// The names below the apex of a version that is read.
    #[tactic(auto, using(crate::proofs::Reopened::apex_inside))]
    pub fn children<'v>(&self, read: &'v ReadZone) -> NodeChildren<'v>
        ensures { result ≡ part read.now.version read.now.version.apex }
    {
        // For the proof: a published version is valid.
        read.validity();
        NodeChildren::of(read.contents(), read.apex_name().to_key_name())
    }

    /// The number of the current version: 0 for the one that the zone opened with, and one more for each commit.
    pub fn versions(&self) -> u64
        ensures { result ≡ self.now.number }
    {
        self.current().version_number()
    }

    /// A read handle of the current version.
    pub fn read<R: Wait>(&self, _rt: &R) -> Result<ReadZone, AllocError>
        ensures { IfOk result (λ z. z ≡ self.now) }
    {
        self.current().clone()
    }

    /// A session that writes the zone's next versions. What it didn't commit is dropped with it.
    pub fn write<'z>(&'z mut self, alloc: Global) -> WriteZone<'z>
        ensures session { (result ≡ new_session result.past) × (result.past.last ≡ self.old) }
    {
        self.desk.write(alloc)
    }

    /// Ends the zone. It takes no memory, and waits for readers that are within a call.
    pub fn close<R: Wait>(self, rt: &R) {
        let ZoneApex { desk } = self;
        desk.close(rt);
    }

    /// The current version's handle, lent.
    fn current(&self) -> &ReadZone
        ensures { result.now ≡ self.now }
    {
        self.desk.current()
    }
}
