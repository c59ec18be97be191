// Edits of the version that a zone opens with.
ghost use Rattle.std.specs.Prelude.{◌≡◌, [], true, false, OnOk, OnErr, IfSome, option_map, unwrap_or, fold as fold_list};
ghost use Rattle.dns_name.specs.Names.{under};
ghost use Rattle.dns_numbers.specs.Codes.{type_cname, type_ns, type_ds};
ghost use Rattle.zone_model.specs.Edits as edits;
ghost use Rattle.zone_model.specs.Edits.{distinct_set};
ghost use Rattle.zone_values.specs.TypedSets.{TypedSet};

use crate::version::ZoneVersion;
use dns_name::KeyName;
use dns_numbers::Rtype;
use dns_rdata::StoredRecord;
use std::alloc::{AllocError, Global};
use zone_values::{Rrset, SharedRr, SharedRrset};

/// Puts the first of equal data of an RRset in place of the old one; an empty one removes that.
pub fn replace_set(
    version: &mut ZoneVersion,
    alloc: Global,
    owner: &KeyName,
    set: &Rrset,
) -> Result<(), AllocError>
    requires zone { under owner.now version.old.apex ≡ true }
    requires alias { edits.is_bad_alias version.old owner.now set.now.rtype set.now.contents ≡ false }
    ensures ok { OnOk result
        (version.new ≡ edits.put_set version.old owner.now set.now.rtype (distinct_set set.now.contents)) }
    ensures err { OnErr result (version.new ≡ version.old) }
{
    let first = set.to_distinct(alloc)?;
    version.put_set(alloc, owner, first)
}

/// Makes an owner an alias (RFC 1034, 3.6.2).
pub fn make_alias(
    version: &mut ZoneVersion,
    alloc: Global,
    owner: &KeyName,
    alias: &SharedRr,
) -> Result<(), AllocError>
    requires zone { under owner.now version.old.apex ≡ true }
    requires rtype { alias.now.rtype ≡ type_cname }
    ensures ok { OnOk result
        (version.new ≡ edits.make_alias version.old owner.now alias.now.ttl alias.now.fields) }
    ensures err { OnErr result (version.new ≡ version.old) }
{
    let item = alias.data().clone()?;
    let set = Rrset::of_one(alloc, alias.ttl(), item)?;
    version.put_set(alloc, owner, set)
}

/// Makes an owner a zone cut (RFC 1034, 4.2.1). So that all of it is done or nothing, the version is copied first.
pub fn make_cut(
    version: &mut ZoneVersion,
    alloc: Global,
    owner: &KeyName,
    ns: &SharedRrset,
    ds: &Option<SharedRrset>,
    glue: &[StoredRecord],
) -> Result<(), AllocError>
    requires zone { under owner.now version.old.apex ≡ true }
    requires ns { ns.now.rtype ≡ type_ns }
    requires ds { IfSome ds.now (λ s. s.rtype ≡ type_ds) }
    ensures ok { OnOk result (version.new ≡ edits.make_cut version.old owner.now ns.now.contents
        (option_map (λ (s : TypedSet). s.contents) ds.now) glue.now) }
    ensures err { OnErr result (version.new ≡ version.old) }
{
    let before = version.clone()?;
    match put_cut(version, alloc, owner, ns, ds, glue) {
        Ok(()) => {
            drop(before);
            Ok(())
        }
        Err(error) => {
            *version = before;
            Err(error)
        }
    }
}

/// Puts the parts of a zone cut, in turn.
fn put_cut(
    version: &mut ZoneVersion,
    alloc: Global,
    owner: &KeyName,
    ns: &SharedRrset,
    ds: &Option<SharedRrset>,
    glue: &[StoredRecord],
) -> Result<(), AllocError>
    requires zone { under owner.now version.old.apex ≡ true }
    requires ns { ns.now.rtype ≡ type_ns }
    requires ds { IfSome ds.now (λ s. s.rtype ≡ type_ds) }
    ensures { OnOk result (version.new ≡ edits.make_cut version.old owner.now ns.now.contents
        (option_map (λ (s : TypedSet). s.contents) ds.now) glue.now) }
{
    replace_set(version, alloc, owner, ns)?;
    put_signer(version, alloc, owner, ds)?;
    put_glue(version, alloc, glue)
}

/// Puts the DS RRset of a zone cut; without one, what was there goes.
fn put_signer(
    version: &mut ZoneVersion,
    alloc: Global,
    owner: &KeyName,
    signer: &Option<SharedRrset>,
) -> Result<(), AllocError>
    requires zone { under owner.now version.old.apex ≡ true }
    requires ds { IfSome signer.now (λ s. s.rtype ≡ type_ds) }
    ensures { OnOk result (version.new ≡ edits.put_set version.old owner.now type_ds (distinct_set
        (unwrap_or (option_map (λ (s : TypedSet). s.contents) signer.now) (record { ttl = 0; items = [] })))) }
{
    match signer {
        Some(set) => replace_set(version, alloc, owner, set),
        None => version.remove_set(alloc, owner, Rtype::DS),
    }
}

/// Puts the addresses of a zone cut's servers, in turn.
fn put_glue(
    version: &mut ZoneVersion,
    alloc: Global,
    glue: &[StoredRecord],
) -> Result<(), AllocError>
    ensures { OnOk result (version.new ≡ fold_list edits.add_glue version.old glue.now) }
{
    for added in glue {
        version.add_glue(alloc, added.clone()?)?;
    }
    Ok(())
}
