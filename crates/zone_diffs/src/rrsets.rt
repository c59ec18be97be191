// What is left of two record sets, and both as one.
ghost use Rattle.std.specs.Prelude.{◌≡◌, ◌++◌, Some, IfOk, OnOk, not, filter};
ghost use Rattle.std.specs.List.{list_any};
ghost use Rattle.dns_rdata.specs.Records.{same_data};
ghost use Rattle.zone_model.specs.Difference.{merged_set};
ghost use Rattle.zone_values.specs.TypedSets.{set_of};
ghost use Rattle.zone_values.specs.TypedEntries.{typed};
ghost use Rattle.zone_diffs.specs.Building.{lacked};

use std::alloc::{AllocError, Global};
use zone_values::Rrset;

/// The records of an RRset that another lacks. Records of another TTL are others.
pub(crate) fn lacked(alloc: Global, set: &Rrset, other: &Rrset) -> Result<Rrset, AllocError>
    ensures { IfOk result (λ r. r ≡ typed set.now.rtype (lacked set.now.contents other.now.contents)) }
{
    if set.ttl() != other.ttl() {
        return set.clone();
    }
    let mut left = Rrset::new(alloc, set.rtype(), set.ttl());
    push_lacked(&mut left, set, other)?;
    Ok(left)
}

/// The RRset with the data of another of its type that it lacks after its own. The TTL stays.
pub(crate) fn merged(held: &Rrset, set: &Rrset) -> Result<Rrset, AllocError>
    requires { set.now.rtype ≡ held.now.rtype }
    ensures { IfOk result (λ r. r ≡ typed held.now.rtype (merged_set (Some held.now.contents) set.now.contents)) }
{
    let mut both = held.clone()?;
    push_lacked(&mut both, set, held)?;
    Ok(both)
}

/// Puts the data of an RRset that another lacks last.
fn push_lacked(into: &mut Rrset, set: &Rrset, other: &Rrset) -> Result<(), AllocError>
    requires { set.now.rtype ≡ into.old.rtype }
    ensures { OnOk result (into.new ≡ set_of into.old.rtype into.old.contents.ttl (into.old.contents.items ++ filter (λ d. not (list_any (same_data d) other.now.contents.items)) set.now.contents.items)) }
{
    for item in set.data() {
        if !other.contains(item) {
            into.push_data(item.clone()?)?;
        }
    }
    Ok(())
}
