// The records of a zone file.
ghost use Rattle.std.specs.Prelude.{◌≡◌, ◌==◌, ◌&&◌, ◌||◌, ◌<◌, [], length, map, not, true, None, Ok, OnOk, OnErr, IfOk, IfErr, IfSome, IfNone, IsTrue, if◌then◌else◌};
ghost use Rattle.std.specs.List.{list_all};
ghost use Rattle.std.specs.Map.{keys_of};
ghost use Rattle.dns_name.specs.Names.{same_name, under};
ghost use Rattle.dns_numbers.specs.Codes.{type_ns, type_ds};
ghost use Rattle.zone_model.specs.Classify.{ZoneFile, Accepted, is_address, classify};
ghost use Rattle.zone_model.specs.Edits.{with_sets};
ghost use Rattle.zone_values.specs.SetEdits.{put_all};
ghost use Rattle.zone_versions.specs.Sound.{IsSound};
ghost use Rattle.zone_versions.specs.Stops.{entry_told};
ghost use Rattle.zone_records.specs.OpeningSets.{is_put_at};
ghost use Rattle.zone_records.specs.Parsed.{IsTidy, kept, with_record, empty_file, version_of, sets_for};
ghost use Rattle.zone_records.specs.Taking.{cut_in, verdict_in, verdict_as, cut_verdict, alias_verdict, normal_verdict, kind_in, taken_in, take};
ghost use Rattle.zone_records.specs.Seen.{kind_seen, verdict_seen};
ghost use Rattle.zone_records.specs.Refusals.{refusal};
ghost use Rattle.zone_records.specs.Faults.{faults};
ghost use Rattle.zone_records.specs.Causes.{errors_in};

use crate::errors::FileError;
use crate::kinds::{Obstacle, RecordKind};
use crate::opening_sets::{OwnerSets, put_sets};
use crate::owners::Owners;
use dns_name::{StoredName, ToName};
use dns_numbers::{Class, Rtype};
use dns_rdata::StoredRecord;
use std::alloc::{AllocError, Global};
use std::marker::Model;
use zone_values::{ContextError, RecordError, ZoneErrors};
use zone_versions::{VersionTree, ZoneVersion, is_at_or_below};

/// The records of a zone file by kind (RFC 1034, 4.2.1), under an origin and a class.
#[derive(Drop)]
pub struct Zonefile {
    alloc: Global,
    origin: StoredName,
    class: Class,
    normal: Owners,
    zone_cuts: Owners,
    cnames: Owners,
    out_of_zone: Owners,
}

impl Model for Zonefile {
    ghost use Rattle.zone_records.specs.Parsed.{Parsed, IsByKind};

    ghost Value = { Parsed };

    ghost view = { λ z. record { origin = z.origin; class = z.class; normal = z.normal; cuts = z.zone_cuts; aliases = z.cnames; outside = z.out_of_zone } };

    ghost invariant = { λ z. IsByKind z.normal z.zone_cuts z.cnames };
}

impl Zonefile {
    /// A zone file of this origin and class without records.
    #[tactic(auto, using(crate::proofs::ByKind::none_by_kind))]
    pub fn new(alloc: Global, origin: StoredName, class: Class) -> Zonefile
        ensures { result ≡ empty_file origin class }
    {
        Zonefile {
            alloc,
            origin,
            class,
            normal: Owners::new(),
            zone_cuts: Owners::new(),
            cnames: Owners::new(),
            out_of_zone: Owners::new(),
        }
    }

    /// The origin, the apex of the zone.
    pub fn origin(&self) -> &StoredName
        ensures { result.now ≡ self.now.origin }
    {
        &self.origin
    }

    /// The class of the zone.
    pub fn class(&self) -> Class
        ensures { result ≡ self.now.class }
    {
        self.class
    }

    /// Where its memory comes from.
    pub fn memory(&self) -> Global {
        self.alloc
    }

    /// Changes the origin. Records that were taken stay of their kind.
    pub fn set_origin(&mut self, origin: StoredName)
        ensures { self.new ≡ record self.old { origin = origin } }
    {
        self.origin = origin;
    }

    /// The RRsets at names that are no zone cuts and no aliases, and addresses at and below zone cuts.
    pub fn normal(&self) -> &Owners
        ensures { result.now ≡ self.now.normal }
    {
        &self.normal
    }

    /// The NS and DS RRsets below the origin.
    pub fn zone_cuts(&self) -> &Owners
        ensures { result.now ≡ self.now.cuts }
    {
        &self.zone_cuts
    }

    /// The CNAME RRsets.
    pub fn cnames(&self) -> &Owners
        ensures { result.now ≡ self.now.aliases }
    {
        &self.cnames
    }

    /// The RRsets whose owners were neither the origin nor below it as they were taken.
    pub fn out_of_zone(&self) -> &Owners
        ensures { result.now ≡ self.now.outside }
    {
        &self.out_of_zone
    }

    /// The RRsets of one kind.
    pub(crate) fn owners(&self, kind: RecordKind) -> &Owners
        ensures { result.now ≡ sets_for self.now (kind_seen kind) }
    {
        match kind {
            RecordKind::Normal => &self.normal,
            RecordKind::Cut => &self.zone_cuts,
            RecordKind::Alias => &self.cnames,
            RecordKind::Outside => &self.out_of_zone,
        }
    }

    /// Takes a record, unless it can't stand beside those before it. Tested in this order: its class is another; it is of a zone cut, and other types
    /// than A and AAAA or a CNAME stand at its owner (`IllegalZoneCut`); it is a CNAME beside other types (`IllegalCname`) or a second one
    /// (`MultipleCnames`), equal data too; it is no address beside a zone cut's records, or stands beside a CNAME (`IllegalRecord`). The type that is
    /// told is the least, and DS before NS. Records outside the origin are all taken. `Memory` comes only where a record would be taken.
    #[tactic(auto, using(crate::proofs::Answering::took, crate::proofs::Answering::out_of_memory, crate::proofs::Answering::refused, crate::proofs::Answering::verdict_for, crate::proofs::Answering::taken_for))]
    pub fn insert(&mut self, found: StoredRecord) -> Result<(), RecordError>
        ensures ok { OnOk result (take self.old found ≡ Ok self.new) }
        ensures refused { IfErr result (λ e. e ≡ refusal self.old found) }
        ensures err { OnErr result (self.new ≡ self.old) }
        ensures file_verdict { (f : ZoneFile) → self.old ≡ kept f → verdict_in self.old found ≡ classify f found }
        ensures file_taken { OnOk result ((f : ZoneFile) → self.old ≡ kept f → self.new ≡ kept (with_record f found)) }
    {
        let class = self.class();
        match self.verdict(&found) {
            Ok(kind) => {
                self.put(kind, found)?;
                Ok(())
            }
            Err(obstacle) => Err(obstacle.refusal(found, class)),
        }
    }

    /// The kind of a record, or what is in its way.
    #[tactic(auto, using(crate::proofs::Answering::other_class, crate::proofs::Answering::verdict_of_kind))]
    pub(crate) fn verdict(&self, found: &StoredRecord) -> Result<RecordKind, Obstacle>
        ensures { verdict_seen result ≡ verdict_in self.now found.now }
    {
        if self.is_other_class(found) {
            return Err(Obstacle::ClassMismatch);
        }
        self.verdict_as(found, self.kind_of(found))
    }

    /// The verdict on a record of one kind.
    fn verdict_as(&self, found: &StoredRecord, kind: RecordKind) -> Result<RecordKind, Obstacle>
        ensures { verdict_seen result ≡ verdict_as self.now found.now (kind_seen kind) }
    {
        match kind {
            RecordKind::Outside => Ok(RecordKind::Outside),
            RecordKind::Cut => self.cut_verdict(found.owner()),
            RecordKind::Alias => self.alias_verdict(found.owner()),
            RecordKind::Normal => self.normal_verdict(found.owner(), found.rtype()),
        }
    }

    /// The kind that a record's owner and type give it.
    fn kind_of(&self, found: &StoredRecord) -> RecordKind
        ensures { kind_seen result ≡ kind_in self.now found.now }
    {
        if self.is_outside(found) {
            RecordKind::Outside
        } else if self.is_of_cut(found) {
            RecordKind::Cut
        } else if found.rtype() == Rtype::CNAME {
            RecordKind::Alias
        } else {
            RecordKind::Normal
        }
    }

    /// Whether a record is of another class.
    fn is_other_class(&self, found: &StoredRecord) -> bool
        ensures { result ≡ not (found.now.class == self.now.class) }
    {
        found.class() != self.class()
    }

    /// Whether a record's owner is neither the origin nor below it.
    fn is_outside(&self, found: &StoredRecord) -> bool
        ensures { result ≡ not (under found.now.owner self.now.origin) }
    {
        !is_at_or_below(found.owner(), self.origin())
    }

    /// Whether a record is of a zone cut, if its owner is in the zone.
    fn is_of_cut(&self, found: &StoredRecord) -> bool
        ensures { result ≡ (((found.now.rtype == type_ns) || (found.now.rtype == type_ds)) && not (same_name found.now.owner self.now.origin)) }
    {
        (found.rtype() == Rtype::NS || found.rtype() == Rtype::DS)
            && !found.owner().name_eq(self.origin())
    }

    /// The verdict on a record of a zone cut.
    #[tactic(auto, using(crate::proofs::Answering::in_the_way, crate::proofs::Answering::free))]
    fn cut_verdict(&self, owner: &StoredName) -> Result<RecordKind, Obstacle>
        ensures { verdict_seen result ≡ cut_verdict self.now owner.now }
    {
        if let Some(rtype) = self.normal().first_non_glue(owner) {
            return Err(Obstacle::IllegalZoneCut(rtype));
        }
        if let Some(rtype) = self.cnames().sample_rtype(owner) {
            return Err(Obstacle::IllegalZoneCut(rtype));
        }
        Ok(RecordKind::Cut)
    }

    /// The verdict on a CNAME.
    #[tactic(auto, using(crate::proofs::Answering::in_the_way, crate::proofs::Answering::free))]
    fn alias_verdict(&self, owner: &StoredName) -> Result<RecordKind, Obstacle>
        ensures { verdict_seen result ≡ alias_verdict self.now owner.now }
    {
        if let Some(rtype) = self.normal().sample_rtype(owner) {
            return Err(Obstacle::IllegalCname(rtype));
        }
        if let Some(rtype) = self.zone_cuts().cut_type(owner) {
            return Err(Obstacle::IllegalCname(rtype));
        }
        if let Some(_) = self.cnames().sample_rtype(owner) {
            return Err(Obstacle::MultipleCnames);
        }
        Ok(RecordKind::Alias)
    }

    /// The verdict on a record of another type.
    #[tactic(auto, using(crate::proofs::Answering::in_the_way, crate::proofs::Answering::free))]
    fn normal_verdict(&self, owner: &StoredName, rtype: Rtype) -> Result<RecordKind, Obstacle>
        ensures { verdict_seen result ≡ normal_verdict self.now owner.now rtype }
    {
        if let Some(other) = self.cut_beside(owner, rtype) {
            return Err(Obstacle::IllegalRecord(other));
        }
        if let Some(other) = self.cnames().sample_rtype(owner) {
            return Err(Obstacle::IllegalRecord(other));
        }
        Ok(RecordKind::Normal)
    }

    /// The type of a zone cut that is in a record's way; none is in that of an address.
    fn cut_beside(&self, owner: &StoredName, rtype: Rtype) -> Option<Rtype>
        ensures { result ≡ (if is_address rtype then None else cut_in self.now.cuts owner.now) }
    {
        if is_address(rtype) {
            None
        } else {
            self.zone_cuts().cut_type(owner)
        }
    }

    /// Puts a record to the RRsets of its kind.
    pub(crate) fn put(&mut self, kind: RecordKind, found: StoredRecord) -> Result<(), AllocError>
        requires { Accepted (kind_seen kind) ≡ verdict_in self.old found }
        ensures ok { OnOk result (self.new ≡ taken_in self.old found (kind_seen kind)) }
        ensures err { OnErr result (self.new ≡ self.old) }
    {
        let (alloc, origin, class) = (self.alloc, &self.origin, self.class);
        match kind {
            RecordKind::Normal => self.normal.put(alloc, origin, class, found),
            RecordKind::Cut => self.zone_cuts.put(alloc, origin, class, found),
            RecordKind::Alias => self.cnames.put(alloc, origin, class, found),
            RecordKind::Outside => {
                self.out_of_zone
                    .put(alloc, &StoredName::root(), class, found)
            }
        }
    }

    /// The version that the records make, which is sound; or all that keeps them from making one, in the order of `faults` and at least one,
    /// or want of memory, which hides these only where it is their list that finds none: `is_whole` tells beforehand, and needs none, whether
    /// there are any. The file is gone either way; the RRsets move, and none is copied.
    #[tactic(auto, using(crate::proofs::SoundFiles::no_faults))]
    pub fn into_version(self) -> Result<ZoneVersion, FileError<ContextError>>
        ensures ok { IfOk result (λ v. (faults self ≡ []) × (v ≡ version_of self)) }
        ensures refused { IfErr result (λ e. IfSome (errors_in e) (λ errors. (errors ≡ faults self) × (0 < length errors))) }
    {
        match self.faults(self.alloc) {
            Ok(found) => self.unless_faults(found),
            Err(error) => {
                drop(self);
                Err(FileError::from(error))
            }
        }
    }

    /// The version that the records make, unless these are faults.
    #[tactic(auto, using(crate::proofs::SoundFiles::no_faults, crate::proofs::SoundFiles::none_hidden))]
    fn unless_faults(
        self,
        found: ZoneErrors<ContextError>,
    ) -> Result<ZoneVersion, FileError<ContextError>>
        requires { found ≡ faults self }
        ensures ok { IfOk result (λ v. (faults self ≡ []) × (v ≡ version_of self)) }
        ensures refused { IfErr result (λ e. IfSome (errors_in e) (λ errors. (errors ≡ faults self) × (0 < length errors))) }
        ensures memory { IfErr result (λ e. IfNone (errors_in e) (faults self ≡ [])) }
    {
        match found.unwrap() {
            Ok(()) => Ok(self.joined()?),
            Err(errors) => {
                drop(self);
                Err(FileError::Errors(errors))
            }
        }
    }

    /// The version that the records make.
    fn joined(self) -> Result<ZoneVersion, AllocError>
        requires { faults self ≡ [] }
        ensures { IfOk result (λ v. v ≡ version_of self) }
    {
        drop(self.out_of_zone);
        let tree = self.normal.into_tree(self.alloc, &self.origin, self.class);
        drop(self.origin);
        match tree {
            Ok(tree) => joined_with(tree, self.alloc, self.zone_cuts, self.cnames),
            Err(error) => {
                drop(self.zone_cuts);
                drop(self.cnames);
                Err(error)
            }
        }
    }
}

/// The version of a tree, once the RRsets of cuts and aliases are put to it.
fn joined_with(
    tree: VersionTree,
    alloc: Global,
    zone_cuts: Owners,
    cnames: Owners,
) -> Result<ZoneVersion, AllocError>
    requires cuts { list_all (λ k. under k.0 tree.apex) (keys_of zone_cuts) ≡ true }
    requires aliases { list_all (λ k. under k.0 tree.apex) (keys_of cnames) ≡ true }
    requires sound { IsTidy zone_cuts → IsTidy cnames → IsSound (with_sets tree (put_all (put_all tree.sets zone_cuts) cnames)) }
    ensures { IfOk result (λ v. v ≡ with_sets tree (put_all (put_all tree.sets zone_cuts) cnames)) }
{
    let mut tree = tree;
    let put = put_both(&mut tree, alloc, zone_cuts.iter(), cnames.iter());
    drop(zone_cuts);
    drop(cnames);
    match put {
        Ok(()) => Ok(ZoneVersion::of_tree(tree)),
        Err(error) => {
            drop(tree);
            Err(error)
        }
    }
}

/// Puts the RRsets of cuts and aliases to a tree. Without memory some of them may have been put.
fn put_both(
    tree: &mut VersionTree,
    alloc: Global,
    zone_cuts: OwnerSets<'_>,
    cnames: OwnerSets<'_>,
) -> Result<(), AllocError>
    requires cuts { IsTrue (list_all (is_put_at tree.old.apex) zone_cuts) }
    requires aliases { IsTrue (list_all (is_put_at tree.old.apex) cnames) }
    ensures { OnOk result (tree.new ≡ with_sets tree.old (put_all (put_all tree.old.sets (map entry_told zone_cuts.entry)) (map entry_told cnames.entry))) }
{
    put_sets(tree, alloc, zone_cuts)?;
    put_sets(tree, alloc, cnames)
}

/// Whether a type is one of addresses.
fn is_address(rtype: Rtype) -> bool
    ensures { result ≡ is_address rtype }
{
    rtype == Rtype::A || rtype == Rtype::AAAA
}
