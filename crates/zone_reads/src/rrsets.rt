// The RRsets of a name, one after the other.
ghost use Rattle.std.specs.Prelude.{◌≡◌, Some, None};
ghost use Rattle.std.specs.Iterator.{YieldsFirstRef};
ghost use Rattle.zone_model.specs.Version.{IsValid};
ghost use Rattle.zone_reads.specs.Parts.{part, sets_here};
ghost use Rattle.zone_reads.specs.NameSets.{first_type, left_of};

use dns_name::{KeyName, ToName};
use dns_numbers::Rtype;
use std::marker::Model;
use zone_values::Rrset;
use zone_versions::ZoneVersion;

/// The RRsets of a name of one version that are left, types ascending.
#[derive(Drop)]
pub struct NodeRrsetsIter<'v> {
    version: &'v ZoneVersion,
    name: KeyName,
    // The type of the last one given.
    last: Option<Rtype>,
}

impl<'v> Model for NodeRrsetsIter<'v> {
    ghost use Rattle.std.specs.Prelude.{List};
    ghost use Rattle.zone_model.specs.Version.{IsValid};
    ghost use Rattle.zone_values.specs.TypedSets.{TypedSet};
    ghost use Rattle.zone_reads.specs.Parts.{part, sets_with_types};
    ghost use Rattle.zone_reads.specs.NameSets.{left_of};

    ghost Value = { List TypedSet };

    ghost view = { λ r. sets_with_types (left_of r.version.now r.name r.last) };

    ghost invariant = { λ r. IsValid r.version.now };
}

impl<'v> NodeRrsetsIter<'v> {
    /// All RRsets of a name.
    pub(crate) fn of(version: &'v ZoneVersion, name: KeyName) -> NodeRrsetsIter<'v>
        requires { IsValid version.now }
        ensures { result ≡ sets_here (part version.now name) }
    {
        NodeRrsetsIter {
            version,
            name,
            last: None,
        }
    }

    /// The next. None where none is left.
    #[tactic(auto, using(crate::proofs::NameSets::given, crate::proofs::NameSets::none_left))]
    fn next_set(&mut self) -> Option<&'v Rrset>
        ensures { YieldsFirstRef (λ s. s) self.old result self.new }
    {
        let version = self.version;
        match next_type(version, &self.name, self.last) {
            Some(rtype) => {
                self.last = Some(rtype);
                version.set_at(&self.name, rtype)
            }
            None => None,
        }
    }
}

impl<'v> Iterator for NodeRrsetsIter<'v> {
    type Item = &'v Rrset;

    ghost use Rattle.std.specs.Iterator.{YieldsFirstRef, item_count};

    ghost next_gives = { YieldsFirstRef (λ s. s) };

    ghost remaining = { item_count (λ s. s) };

    fn next(&mut self) -> Option<&'v Rrset> {
        self.next_set()
    }
}

/// The type of the first RRset of a name after the last one given, if there is one.
fn next_type(version: &ZoneVersion, name: &KeyName, last: Option<Rtype>) -> Option<Rtype>
    requires { IsValid version.now }
    ensures { result ≡ first_type (left_of version.now name.now last) }
{
    match last {
        Some(rtype) => type_after(version, name, rtype),
        None => least_type(version, name),
    }
}

/// The least type of a name's RRsets, if there is one.
fn least_type(version: &ZoneVersion, name: &KeyName) -> Option<Rtype>
    requires { IsValid version.now }
    ensures { result ≡ first_type (left_of version.now name.now None) }
{
    match version.first_from(name) {
        Some(found) => {
            if found.owner().to_name().name_eq(name) {
                Some(found.rtype())
            } else {
                None
            }
        }
        None => None,
    }
}

/// The type after one, if the name has an RRset of such a type.
fn type_after(version: &ZoneVersion, name: &KeyName, rtype: Rtype) -> Option<Rtype>
    requires { IsValid version.now }
    ensures { result ≡ first_type (left_of version.now name.now (Some rtype)) }
{
    match version.next_stop(name, rtype) {
        Some(found) => {
            if found.owner().name_eq(name) {
                Some(found.rtype())
            } else {
                None
            }
        }
        None => None,
    }
}
