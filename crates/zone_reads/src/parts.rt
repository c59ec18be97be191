// The nodes of one version.
ghost use Rattle.std.specs.Prelude.{◌≡◌, ◌==◌, true, length, Some, IfOk, option_copied, option_map};
ghost use Rattle.dns_name.specs.Names.{under};
ghost use Rattle.zone_model.specs.Version.{IsValid, below_apex, set_at};
ghost use Rattle.zone_values.specs.TypedEntries.{typed};
ghost use Rattle.zone_reads.specs.Parts.{part, IsPart, IsNode, child_of, cut_at, cut_in, node_named, parts_of_cut, sets_here, special_at, special_of};
ghost use Rattle.zone_reads.specs.Parts.SpecialAt.{CnameAt};

use crate::child::child_name;
use crate::cutting::own_cut;
use crate::names::exists;
use crate::rrsets::NodeRrsetsIter;
use crate::special::Special;
use dns_name::{KeyName, Label};
use dns_numbers::Rtype;
use std::alloc::{AllocError, Global};
use std::marker::Model;
use zone_values::{Rrset, ZoneCut};
use zone_versions::ZoneVersion;

/// The RRsets of a name of one version.
#[derive(Drop)]
pub struct NodeRrsets<'v> {
    version: &'v ZoneVersion,
    name: KeyName,
}

impl<'v> Model for NodeRrsets<'v> {
    ghost use Rattle.zone_reads.specs.Parts.{Part, part, IsPart};

    ghost Value = { Part };

    ghost view = { λ p. part p.version.now p.name };

    ghost invariant = { λ p. IsPart (part p.version.now p.name) };
}

impl<'v> NodeRrsets<'v> {
    /// Those of a name of a version that may be published, the apex or one below it.
    pub fn of(version: &'v ZoneVersion, name: KeyName) -> NodeRrsets<'v>
        requires valid { IsValid version.now }
        requires inside { under name version.now.apex ≡ true }
        ensures { result ≡ part version.now name }
    {
        NodeRrsets { version, name }
    }

    /// The version.
    pub fn version(&self) -> &'v ZoneVersion
        ensures is { result.now ≡ self.now.version }
        ensures part { IsPart self.now }
    {
        self.version
    }

    /// Whether the name has no RRset.
    #[tactic(auto, using(crate::proofs::NameSets::some_left))]
    pub fn is_empty(&self) -> bool
        ensures { result ≡ (length (sets_here self.now) == 0) }
    {
        match self.iter().next() {
            Some(_) => false,
            None => true,
        }
    }

    /// The RRset of a type.
    pub fn get(&self, rtype: Rtype) -> Option<&'v Rrset>
        ensures { option_copied result ≡ option_map (typed rtype) (set_at self.now.version self.now.name rtype) }
    {
        self.version.set_at(&self.name, rtype)
    }

    /// The RRsets, each once, types ascending.
    pub fn iter(&self) -> NodeRrsetsIter<'v>
        ensures { result ≡ sets_here self.now }
    {
        NodeRrsetsIter::of(self.version, self.name.duplicate())
    }
}

/// The names one label below a name of one version.
#[derive(Drop)]
pub struct NodeChildren<'v> {
    version: &'v ZoneVersion,
    name: KeyName,
}

impl<'v> Model for NodeChildren<'v> {
    ghost use Rattle.zone_reads.specs.Parts.{Part, part, IsPart};

    ghost Value = { Part };

    ghost view = { λ p. part p.version.now p.name };

    ghost invariant = { λ p. IsPart (part p.version.now p.name) };
}

impl<'v> NodeChildren<'v> {
    /// Those below a name of a version that may be published, the apex or one below it.
    pub fn of(version: &'v ZoneVersion, name: KeyName) -> NodeChildren<'v>
        requires valid { IsValid version.now }
        requires inside { under name version.now.apex ≡ true }
        ensures { result ≡ part version.now name }
    {
        NodeChildren { version, name }
    }

    /// The node of a label below the name, where there is one. The root's label has none.
    #[tactic(auto, using(crate::proofs::NodeParts::root_child, crate::proofs::NodeParts::long_child))]
    pub fn get(&self, label: &Label<'_>) -> Option<ZoneNode<'v>>
        ensures { result ≡ child_of self.now label.now }
    {
        if label.is_root() {
            return None;
        }
        match child_name(label, &self.name) {
            Ok(name) => node_of(self.version, name),
            Err(_) => None,
        }
    }

    /// Hands that node to `op`, and gives what `op` answers.
    pub fn with<R, F: FnOnce(Option<ZoneNode<'v>>) -> R>(&self, label: &Label<'_>, op: F) -> R
        requires { F.IsAlwaysCallable op }
        ensures { (child : _) × (child ≡ child_of self.now label.now) × F.post op child result }
    {
        op(self.get(label))
    }
}

/// The node of a name, where that exists.
#[tactic(auto, using(crate::proofs::NodeParts::node_there, crate::proofs::NodeParts::node_absent))]
fn node_of<'v>(version: &'v ZoneVersion, name: KeyName) -> Option<ZoneNode<'v>>
    requires valid { IsValid version.now }
    requires inside { under name version.now.apex ≡ true }
    ensures { result ≡ node_named version.now name }
{
    // For the proof: what is a name is one.
    let _ = name.as_slice();
    if exists(version, &name.borrowed()) {
        Some(ZoneNode { version, name })
    } else {
        None
    }
}

/// The node of a name of one version: a name that exists in it (RFC 4592, 2.2.2).
#[derive(Drop)]
pub struct ZoneNode<'v> {
    version: &'v ZoneVersion,
    name: KeyName,
}

impl<'v> Model for ZoneNode<'v> {
    ghost use Rattle.zone_reads.specs.Parts.{Part, part, IsNode};

    ghost Value = { Part };

    ghost view = { λ p. part p.version.now p.name };

    ghost invariant = { λ p. IsNode (part p.version.now p.name) };
}

impl<'v> ZoneNode<'v> {
    /// The name, which exists in the version.
    pub fn name(&self) -> &KeyName
        ensures is { result.now ≡ self.now.name }
        ensures node { IsNode self.now }
    {
        &self.name
    }

    /// Its RRsets.
    pub fn rrsets(&self) -> NodeRrsets<'v>
        ensures { result ≡ self.now }
    {
        NodeRrsets::of(self.version, self.name.duplicate())
    }

    /// The names below it.
    pub fn children(&self) -> NodeChildren<'v>
        ensures { result ≡ self.now }
    {
        NodeChildren::of(self.version, self.name.duplicate())
    }

    /// What the name is by its RRsets: below the apex a zone cut where it has NS records, or else an alias where it has a CNAME record. None for
    /// a plain name, and for the apex.
    pub fn special(&self) -> Option<Special<'v>>
        ensures { option_map special_of result ≡ special_at self.now.version self.now.name }
    {
        special_in(self.version, &self.name)
    }

    /// Hands that to `op`, and gives what `op` answers.
    pub fn with_special<R, F: FnOnce(Option<Special<'v>>) -> R>(&self, op: F) -> R
        requires { F.IsAlwaysCallable op }
        ensures { (special : _) × (option_map special_of special ≡ special_at self.now.version self.now.name) × F.post op special result }
    {
        op(self.special())
    }

    /// The zone cut that stands at the name, if there is one, with its name in lower case, and the addresses of its servers that are in the zone as
    /// glue (RFC 1034, 4.2.1). Refused only where memory runs out.
    pub fn zone_cut(&self, alloc: Global) -> Result<Option<ZoneCut>, AllocError>
        ensures { IfOk result (λ c. option_map parts_of_cut c ≡ cut_at self.now.version self.now.name) }
    {
        match self.special() {
            Some(special) => cut_of(alloc, self.version, &self.name, special),
            None => Ok(None),
        }
    }
}

/// What a name is by its RRsets.
#[tactic(auto, using(crate::proofs::NodeParts::nothing_special))]
fn special_in<'v>(version: &'v ZoneVersion, name: &KeyName) -> Option<Special<'v>>
    ensures { option_map special_of result ≡ special_at version.now name.now }
{
    if version.is_below_apex(name) {
        special_below(version, name)
    } else {
        None
    }
}

/// The same of a name below the apex.
fn special_below<'v>(version: &'v ZoneVersion, name: &KeyName) -> Option<Special<'v>>
    requires { below_apex version.now name.now ≡ true }
    ensures { option_map special_of result ≡ special_at version.now name.now }
{
    let ds = version.set_at(name, Rtype::DS);
    let target = version.set_at(name, Rtype::CNAME);
    match version.set_at(name, Rtype::NS) {
        Some(ns) => Some(Special::Cut { ns, ds }),
        None => alias_of(target),
    }
}

/// An alias, where there is a CNAME RRset.
fn alias_of<'v>(target: Option<&'v Rrset>) -> Option<Special<'v>>
    ensures { option_map special_of result ≡ option_map CnameAt (option_copied target.entry) }
{
    match target {
        Some(target) => Some(Special::Cname(target)),
        None => None,
    }
}

/// The zone cut that a name is, where it is one.
fn cut_of(
    alloc: Global,
    version: &ZoneVersion,
    name: &KeyName,
    special: Special<'_>,
) -> Result<Option<ZoneCut>, AllocError>
    ensures { IfOk result (λ c. option_map parts_of_cut c ≡ cut_in version.now name.now (Some (special_of special.entry))) }
{
    match special {
        Special::Cut { ns, ds } => Ok(Some(own_cut(alloc, version, name, ns, ds)?)),
        Special::Cname(_) => Ok(None),
    }
}
