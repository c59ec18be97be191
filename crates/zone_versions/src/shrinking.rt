// A set is taken out of nodes.
ghost use Rattle.std.specs.Prelude.{◌≡◌, OnOk, OnErr};
ghost use Rattle.zone_versions.specs.Held.{counted};
ghost use Rattle.zone_versions.specs.Trees.{node_at};
ghost use Rattle.zone_versions.specs.Ways.{stays_at, climb, remove_held, remove_steps};

use crate::node::NodeCount;
use crate::node_map::NodeMap;
use dns_numbers::Rtype;
use name_keys::NameKeyRef;
use std::alloc::{AllocError, Global};

/// Whether a name is the apex or above it, or RRsets are held at or below it, those of an owner aside.
fn stays(
    nodes: &NodeMap,
    apex: &NameKeyRef<'_>,
    owner: &NameKeyRef<'_>,
    name: &NameKeyRef<'_>,
) -> bool
    ensures { result ≡ stays_at nodes.now apex.now owner.now name.now }
{
    apex.is_under(name) || nodes.any_held_besides(name, owner)
}

/// The highest name from an owner upwards below the first that stays.
fn topmost<'n>(nodes: &NodeMap, apex: &NameKeyRef<'_>, owner: &'n NameKeyRef<'_>) -> NameKeyRef<'n>
    ensures { result ≡ climb nodes.now apex.now owner.now owner.now }
{
    let mut top = owner.borrowed();
    while let Some(parent) = top.parent() {
        if stays(nodes, apex, owner, &parent) {
            return top;
        }
        top = parent;
    }
    top
}

/// Takes the RRset of a name and its type out, where there is one. The name's node goes, and those above it that then hold nothing and have nothing
/// below them, unless the name still exists. Without memory all is as before.
pub(crate) fn remove_set(
    nodes: &mut NodeMap,
    alloc: Global,
    apex: &NameKeyRef<'_>,
    owner: &NameKeyRef<'_>,
    rtype: Rtype,
    steps: &mut NodeCount,
) -> Result<(), AllocError>
    ensures ok { OnOk result (nodes.new ≡ remove_held nodes.old apex.now owner.now rtype (node_at nodes.old owner.now)) }
    ensures err { OnErr result (nodes.new ≡ nodes.old) }
    ensures steps { OnOk result (steps.new ≡ counted steps.old (remove_steps nodes.old apex.now owner.now rtype (node_at nodes.old owner.now))) }
{
    // For the proof: the count fits 64 bits.
    let _ = steps.get();
    let Some(node) = nodes.get(owner) else {
        return Ok(());
    };
    if node.get(rtype).is_none() {
        return Ok(());
    }
    if node.len() > 1 || stays(nodes, apex, owner, &owner.borrowed()) {
        let node = node.without(rtype, steps)?;
        return nodes.insert(alloc, owner, node);
    }
    let top = topmost(nodes, apex, owner);
    nodes.remove_under(&top)
}
