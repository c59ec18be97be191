// Reading one version of a zone.
ghost use Rattle.std.specs.Prelude.{◌≡◌, IfOk, option_copied, option_map};
ghost use Rattle.zone_model.specs.Version.{IsValid, set_at};
ghost use Rattle.zone_model.specs.Walk.{next_stop, walk};
ghost use Rattle.zone_values.specs.TypedEntries.{typed};
ghost use Rattle.zone_versions.specs.Stops.{first_stop};

use dns_name::{Labelled, StoredName};
use dns_numbers::{Class, Rtype};
use published::Numbered;
use std::alloc::AllocError;
use std::marker::Model;
use std::sync::Arc;
use zone_values::Rrset;
use zone_versions::{RrsetIter, WalkItem, ZoneVersion};

/// A read handle: one version of a zone, which stays as it is, and its number.
#[derive(Drop)]
pub struct ReadZone {
    number: u64,
    version: Arc<ZoneVersion>,
}

impl Model for ReadZone {
    ghost use Rattle.zone_model.specs.Commits.{Commit};
    ghost use Rattle.zone_model.specs.Version.{IsValid};

    ghost Value = { Commit };

    ghost view = { λ z. record { number = z.number; version = z.version.value } };

    ghost invariant = { λ z. IsValid z.version.value };
}

impl Clone for ReadZone {
    ghost is_clone = { λ z copy. copy ≡ z };

    fn clone(&self) -> Result<ReadZone, AllocError> {
        Ok(ReadZone {
            number: self.number,
            version: self.version.clone()?,
        })
    }
}

/// A zone publishes its versions with their numbers.
impl Numbered for ReadZone {
    ghost number_of = { λ z. z.number };

    fn number(&self) -> u64 {
        self.number
    }

    fn again(&self) -> Result<ReadZone, AllocError> {
        self.clone()
    }
}

/// Reads a zone on any thread, and never waits: what it gives are read handles.
pub type ZoneReader = published::Reader<ReadZone>;

/// Word of what a zone has published, for a reader.
pub type Receipt = published::Receipt<ReadZone>;

impl ReadZone {
    /// The handle of a version with this number.
    pub fn of(number: u64, version: Arc<ZoneVersion>) -> ReadZone
        requires { IsValid version.value }
        ensures { result ≡ record { number = number; version = version.value } }
    {
        ReadZone { number, version }
    }

    /// The version's number: one more for each commit than that of the version which the zone opened with, which is 0 unless another was given.
    pub fn version_number(&self) -> u64
        ensures { result ≡ self.now.number }
    {
        self.number
    }

    /// The version's number, as `version_number` gives it, by the name that callers of the crate `domain` know. `contents` lends the version itself.
    pub fn version(&self) -> u64
        ensures { result ≡ self.now.number }
    {
        self.version_number()
    }

    /// What may be published: every set has data, all of them different; below the apex an alias is its node's only CNAME; and where a node
    /// has DS it has NS (RFC 2181, 5 and 10.1; RFC 4035, 2.4). It does nothing.
    pub fn validity(&self)
        ensures { IsValid self.now.version }
    {
        let _number = self.number;
    }

    /// The class of the zone.
    pub fn class(&self) -> Class
        ensures { result ≡ self.now.version.class }
    {
        self.version.class()
    }

    /// The name of the zone's apex, as it was given.
    pub fn apex_name(&self) -> &StoredName
        ensures { result.now ≡ self.now.version.apex }
    {
        self.version.apex()
    }

    /// Each set once, in order, marked where a cut stands at its owner or above it.
    pub fn iter_rrsets(&self) -> RrsetIter<'_>
        ensures { result ≡ walk self.now.version }
    {
        RrsetIter::of(&self.version)
    }

    /// The first set in order: owners in canonical order, types ascending (RFC 4034, 6.1).
    pub fn first_rrset(&self) -> Option<WalkItem<'_>>
        ensures { result ≡ first_stop self.now.version }
    {
        self.version.first_stop()
    }

    /// The first set after an owner and type, in the same order.
    pub fn next_rrset<N: Labelled>(&self, owner: &N, rtype: Rtype) -> Option<WalkItem<'_>>
        ensures { result ≡ next_stop self.now.version (N.labels owner.now) rtype }
    {
        self.version.next_stop(&owner.to_key_name(), rtype)
    }

    /// The set of an owner and type.
    pub fn rrset_at<N: Labelled>(&self, owner: &N, rtype: Rtype) -> Option<&Rrset>
        ensures { option_copied result ≡ option_map (typed rtype) (set_at self.now.version (N.labels owner.now) rtype) }
    {
        self.version.set_at(owner, rtype)
    }

    /// The version, lent.
    pub fn contents(&self) -> &ZoneVersion
        ensures { result.now ≡ self.now.version }
    {
        &self.version
    }

    /// One more owner of the version.
    pub fn share(&self) -> Result<Arc<ZoneVersion>, AllocError>
        ensures is { IfOk result (λ v. v.value ≡ self.now.version) }
        ensures valid { IfOk result (λ v. IsValid v.value) }
    {
        self.version.clone()
    }
}
