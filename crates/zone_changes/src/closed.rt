// What a commit publishes of an edited version, whose keys are noted where it differs from that.
ghost use Rattle.std.specs.Prelude.{◌≡◌, IfOk, if◌then◌else◌};
ghost use Rattle.zone_model.specs.Version.{Sets, IsValid};
ghost use Rattle.zone_model.specs.Edits as edits;
ghost use Rattle.zone_changes.specs.Touched.{CoversIn};
ghost use Rattle.zone_changes.specs.Drafts.{BeganAs};

use crate::tracked::TrackedKeys;
use dns_numbers::Rtype;
use std::alloc::{AllocError, Global};
use std::sync::Arc;
use zone_values::SetKey;
use zone_versions::ZoneVersion;

/// What a commit publishes of an edited version that began as `base`: with `bumps` the serial is counted on from the one of `base`, and DS RRsets below
/// the apex that lack NS are left out (RFC 4035, 2.4). Where neither changes anything, it is the edited version itself.
pub(crate) fn closed(
    touched: &mut TrackedKeys,
    alloc: Global,
    base: &ZoneVersion,
    version: &Arc<ZoneVersion>,
    bumps: bool,
) -> Result<Arc<ZoneVersion>, AllocError>
    requires covered { CoversIn touched.old base.now.sets version.now.value.sets }
    requires began { BeganAs base.now version.now.value }
    ensures is { IfOk result (λ v. v.value ≡ edits.close (if bumps then edits.bump base.now version.now.value else version.now.value)) }
    ensures valid { IfOk result (λ v. IsValid v.value) }
    ensures covers { IfOk result (λ v. CoversIn touched.new base.now.sets v.value.sets) }
    ensures keeps { (a b : Sets) → CoversIn touched.old a b → CoversIn touched.new a b }
{
    let version = bumped(touched, alloc, base, version, bumps)?;
    without_strays(touched, alloc, base, version)
}

/// An edited version with its serial counted on where that is wanted (RFC 1982, 3.1), or else itself.
fn bumped(
    touched: &mut TrackedKeys,
    alloc: Global,
    base: &ZoneVersion,
    version: &Arc<ZoneVersion>,
    bumps: bool,
) -> Result<Arc<ZoneVersion>, AllocError>
    requires covered { CoversIn touched.old base.now.sets version.now.value.sets }
    requires began { BeganAs base.now version.now.value }
    ensures is { IfOk result (λ v. v.value ≡ (if bumps then edits.bump base.now version.now.value else version.now.value)) }
    ensures began { IfOk result (λ v. BeganAs base.now v.value) }
    ensures covers { IfOk result (λ v. CoversIn touched.new base.now.sets v.value.sets) }
    ensures keeps { (a b : Sets) → CoversIn touched.old a b → CoversIn touched.new a b }
{
    if !bumps {
        return version.clone();
    }
    touched.note(SetKey::new(version.apex(), Rtype::SOA))?;
    Ok(Arc::new(alloc, counted_on(alloc, base, version)?)?)
}

/// A version with the serial that follows on the published one's.
fn counted_on(
    alloc: Global,
    published: &ZoneVersion,
    version: &ZoneVersion,
) -> Result<ZoneVersion, AllocError>
    ensures { IfOk result (λ v. v ≡ edits.bump published.now version.now) }
{
    let mut copy = version.clone()?;
    copy.bump(alloc, published)?;
    Ok(copy)
}

/// A version without DS RRsets below the apex that lack NS (RFC 4035, 2.4); itself where it has none.
fn without_strays(
    touched: &mut TrackedKeys,
    alloc: Global,
    base: &ZoneVersion,
    version: Arc<ZoneVersion>,
) -> Result<Arc<ZoneVersion>, AllocError>
    requires covered { CoversIn touched.old base.now.sets version.value.sets }
    requires began { BeganAs base.now version.value }
    ensures is { IfOk result (λ v. v.value ≡ edits.close version.value) }
    ensures valid { IfOk result (λ v. IsValid v.value) }
    ensures covers { IfOk result (λ v. CoversIn touched.new base.now.sets v.value.sets) }
    ensures keeps { (a b : Sets) → CoversIn touched.old a b → CoversIn touched.new a b }
{
    if !touched.has_stray(base, &version) {
        return Ok(version);
    }
    touched.note_strays(&version)?;
    Ok(Arc::new(alloc, version.closed(alloc)?)?)
}
