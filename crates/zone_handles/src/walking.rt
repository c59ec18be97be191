// A walk with a visitor.
ghost use Rattle.std.specs.Prelude.{◌≡◌};
ghost use Rattle.std.specs.List.{FoldsTo};
ghost use Rattle.zone_model.specs.Walk.{walk as walk_of};

use zone_reads::{ReadZone, WalkItem};

/// Hands each set of the version to `visit`, once, with its owner and type and whether a zone cut stands at the owner or above it: owners
/// in canonical order, types ascending (RFC 4034, 6.1).
pub fn walk<F: FnMut(WalkItem<'_>)>(zone: &ReadZone, visit: &mut F)
    requires { F.IsAlwaysCallable visit.old }
    ensures { FoldsTo (λ p x q. F.step p x tt q) visit.old (walk_of zone.now.version) visit.new }
{
    let mut stops = zone.iter_rrsets();
    while let Some(stop) = stops.next() {
        visit(stop);
    }
}
