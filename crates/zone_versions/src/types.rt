// RRsets of one name by type, ascending. Names have few of them, so that they are looked at one by one.
ghost use Rattle.std.specs.Prelude.{◌≡◌, ◌≤◌, ◌<◌, ◌==◌, ◌+◌, [], length, take, drop, slice_get, slice_set, option_map, option_copied, Some, ◌≢◌, true, false, IfSome, IfOk, IsSome, IsTrue, OnOk, OnErr};
ghost use Rattle.std.specs.List.{AllByRecursion};
ghost use Rattle.std.specs.List.Sorted.{IsStrictlySortedBy};
ghost use Rattle.std.specs.Ordering.{nat_cmp};
ghost use Rattle.std.specs.BTreeMap.{insert_entry, is_at};
ghost use Rattle.std.specs.Map.{keys_of, lookup, remove_entry};
ghost use Rattle.zone_values.specs.TypedEntries.{typed};
ghost use Rattle.zone_versions.specs.Held.{typed_set_of, held_of};
ghost use Rattle.zone_versions.specs.Trees.{IsHeld};

use crate::set_edit::SetEdit;
use dns_numbers::Rtype;
use std::alloc::AllocError;
use zone_values::SharedRrset;

/// How many of the RRsets at the front are of types below a number.
fn count_below(sets: &[SharedRrset], limit: u32) -> usize
    ensures bound { result ≤ length sets.now }
    ensures below { AllByRecursion (λ s. s.rtype < limit) (take result sets.now) }
    ensures next { IfSome (slice_get sets.now result) (λ s. limit ≤ s.rtype) }
{
    let mut count = 0;
    while count < sets.len() && u32::from(sets[count].rtype().to_int()) < limit {
        count += 1;
    }
    count
}

/// How many of them are of types up to one.
pub(crate) fn count_up_to(sets: &[SharedRrset], rtype: Rtype) -> usize
    ensures bound { result ≤ length sets.now }
    ensures below { AllByRecursion (λ s. s.rtype ≤ rtype) (take result sets.now) }
    ensures next { IfSome (slice_get sets.now result) (λ s. rtype < s.rtype) }
{
    count_below(sets, u32::from(rtype.to_int()) + 1)
}

/// Where the RRset of a type stands or belongs.
fn place_of(sets: &[SharedRrset], rtype: Rtype) -> usize
    ensures bound { result ≤ length sets.now }
    ensures below { AllByRecursion (λ s. s.rtype < rtype) (take result sets.now) }
    ensures next { IfSome (slice_get sets.now result) (λ s. rtype ≤ s.rtype) }
{
    count_below(sets, u32::from(rtype.to_int()))
}

/// The RRset of a type.
pub(crate) fn set_of(sets: &[SharedRrset], rtype: Rtype) -> Option<&SharedRrset>
    requires { IsHeld (held_of sets.now) }
    ensures { option_copied result ≡ typed_set_of (held_of sets.now) rtype }
{
    let at = place_of(sets, rtype);
    if has_type_at(sets, at, rtype) {
        sets.get(at)
    } else {
        None
    }
}

/// Whether the RRset at a place is of a type.
fn has_type_at(sets: &[SharedRrset], at: usize, rtype: Rtype) -> bool
    ensures there { result ≡ true → option_map (λ s. s.rtype) (slice_get sets.now at) ≡ Some rtype }
    ensures other { result ≡ false → option_map (λ s. s.rtype) (slice_get sets.now at) ≢ Some rtype }
{
    match sets.get(at) {
        Some(set) => set.rtype() == rtype,
        None => false,
    }
}

/// Puts an RRset in place of the one of its type.
pub(crate) fn put_in(
    sets: &mut Vec<SharedRrset>,
    rtype: Rtype,
    set: SharedRrset,
) -> Result<(), AllocError>
    requires held { IsHeld (held_of sets.old.items) }
    requires own { set.rtype ≡ rtype }
    ensures ok { OnOk result (held_of sets.new.items ≡ insert_entry nat_cmp (held_of sets.old.items) rtype set.contents) }
{
    let at = place_of(sets, rtype);
    if has_type_at(sets, at, rtype) {
        sets[at] = set;
        return Ok(());
    }
    sets.insert(at, set)?;
    Ok(())
}

/// Takes the RRset of a type out, if there is one.
pub(crate) fn take_out(sets: &mut Vec<SharedRrset>, rtype: Rtype)
    requires { IsHeld (held_of sets.old.items) }
    ensures { held_of sets.new.items ≡ remove_entry (is_at (nat_cmp rtype)) (held_of sets.old.items) }
{
    let at = place_of(sets, rtype);
    if has_type_at(sets, at, rtype) {
        drop(sets.remove(at));
    }
}

/// Edits the RRset of a type, which is there, in place.
pub(crate) fn edit_set<E: SetEdit + Drop>(
    sets: &mut Vec<SharedRrset>,
    rtype: Rtype,
    edit: E,
) -> Result<(), AllocError>
    requires there { IsSome (lookup (is_at (nat_cmp rtype)) (held_of sets.old.items)) }
    requires fits { E.fits edit rtype }
    requires held { IsHeld (held_of sets.old.items) }
    ensures ok { OnOk result (held_of sets.new.items ≡ insert_entry nat_cmp (held_of sets.old.items) rtype (E.edited edit (lookup (is_at (nat_cmp rtype)) (held_of sets.old.items)))) }
    ensures err { OnErr result (sets.new.items ≡ sets.old.items) }
{
    let at = place_of(sets, rtype);
    edit_shared(&mut sets[at], edit)
}

/// Edits an RRset, which is copied first if others have it.
fn edit_shared<E: SetEdit + Drop>(set: &mut SharedRrset, edit: E) -> Result<(), AllocError>
    requires { E.fits edit set.old.rtype }
    ensures ok { OnOk result (set.new ≡ typed set.old.rtype (E.edited edit (Some set.old.contents))) }
    ensures err { OnErr result (set.new ≡ set.old) }
{
    edit.edit(set.make_mut()?)
}
