// All sets at and below a name are taken out of nodes.
ghost use Rattle.std.specs.Prelude.{◌≡◌, OnOk, OnErr};
ghost use Rattle.zone_versions.specs.Ways.{highest_below, stays_without, clear_held};

use crate::node_map::NodeMap;
use name_keys::NameKeyRef;
use std::alloc::AllocError;

/// Whether a name is the apex or above it, or RRsets are held at or below it, those at and below another aside.
fn stays(
    nodes: &NodeMap,
    apex: &NameKeyRef<'_>,
    cleared: &NameKeyRef<'_>,
    name: &NameKeyRef<'_>,
) -> bool
    ensures { result ≡ stays_without nodes.now apex.now cleared.now name.now }
{
    apex.is_under(name) || nodes.any_held_outside(name, cleared)
}

/// The highest name from one upwards below the first that stays without the RRsets at and below that one.
fn topmost<'n>(nodes: &NodeMap, apex: &NameKeyRef<'_>, name: &'n NameKeyRef<'_>) -> NameKeyRef<'n>
    ensures { result ≡ highest_below (stays_without nodes.now apex.now name.now) name.now }
{
    let mut top = name.borrowed();
    while let Some(parent) = top.parent() {
        if stays(nodes, apex, name, &parent) {
            return top;
        }
        top = parent;
    }
    top
}

/// Takes the nodes at and below a name out that is neither the apex nor above it, and those above it that then hold nothing and have nothing below them.
/// Without memory all is as before.
pub(crate) fn clear_below(
    nodes: &mut NodeMap,
    apex: &NameKeyRef<'_>,
    name: &NameKeyRef<'_>,
) -> Result<(), AllocError>
    ensures ok { OnOk result (nodes.new ≡ clear_held nodes.old apex.now name.now) }
    ensures err { OnErr result (nodes.new ≡ nodes.old) }
{
    if !nodes.has(name) {
        return Ok(());
    }
    let top = topmost(nodes, apex, name);
    nodes.remove_under(&top)
}
