// A set is put among nodes.
ghost use Rattle.std.specs.Prelude.{◌≡◌, ◌≤◌, true, length, None, is_some, IsSome, OnOk, OnErr};
ghost use Rattle.zone_versions.specs.Held.{counted};
ghost use Rattle.zone_versions.specs.Trees.{NodeSets, node_at, type_in};
ghost use Rattle.zone_versions.specs.Ways.{put_node, add_upwards, lacking_upwards, add_above, lacking_above, put_held, put_steps};

use crate::node::{NodeCount, ZoneNode};
use crate::node_map::NodeMap;
use crate::set_edit::SetEdit;
use dns_numbers::Rtype;
use name_keys::NameKeyRef;
use std::alloc::{AllocError, Global};
use zone_values::SharedRrset;

/// Puts a node without RRsets at a name and at each above it, up to the first that has one. Without memory some of them may have been put.
fn fill_upwards(
    nodes: &mut NodeMap,
    alloc: Global,
    name: NameKeyRef<'_>,
    steps: &mut NodeCount,
) -> Result<(), AllocError>
    ensures ok { OnOk result (nodes.new ≡ add_upwards nodes.old name.entry) }
    ensures steps { OnOk result (steps.new ≡ counted steps.old (lacking_upwards nodes.old name.entry)) }
    ensures few { steps.new ≤ counted steps.old (lacking_upwards nodes.old name.entry) }
{
    // For the proof: the count fits 64 bits.
    let _ = steps.get();
    let mut rest = name;
    while !nodes.has(&rest) {
        let node = ZoneNode::empty(alloc, steps);
        nodes.insert(alloc, &rest, node)?;
        match rest.parent() {
            Some(parent) => rest = parent,
            None => return Ok(()),
        }
    }
    Ok(())
}

/// The same at the names above one.
fn fill_above(
    nodes: &mut NodeMap,
    alloc: Global,
    name: &NameKeyRef<'_>,
    steps: &mut NodeCount,
) -> Result<(), AllocError>
    ensures ok { OnOk result (nodes.new ≡ add_above nodes.old name.now) }
    ensures steps { OnOk result (steps.new ≡ counted steps.old (lacking_above nodes.old name.now)) }
    ensures few { steps.new ≤ counted steps.old (lacking_above nodes.old name.now) }
{
    let _ = steps.get();
    match name.parent() {
        Some(parent) => fill_upwards(nodes, alloc, parent, steps),
        None => Ok(()),
    }
}

/// Puts a node at a name that has none, and nodes at those above it that have none. Without memory some of them may have been put.
fn put_with_above(
    nodes: &mut NodeMap,
    alloc: Global,
    name: &NameKeyRef<'_>,
    node: ZoneNode,
    steps: &mut NodeCount,
) -> Result<(), AllocError>
    ensures ok { OnOk result (nodes.new ≡ add_above (put_node nodes.old name.now node) name.now) }
    ensures steps { OnOk result (steps.new ≡ counted steps.old (lacking_above (put_node nodes.old name.now node) name.now)) }
    ensures few { steps.new ≤ counted steps.old (lacking_above (put_node nodes.old name.now node) name.now) }
{
    let _ = steps.get();
    nodes.insert(alloc, name, node)?;
    fill_above(nodes, alloc, name, steps)
}

/// Whether a name has a node. The first node is compared before the map is searched: the apex is above most names.
fn has_node(nodes: &NodeMap, name: &NameKeyRef<'_>) -> bool
    ensures { result ≡ is_some (node_at nodes.now name.now) }
{
    nodes.is_first(name) || nodes.has(name)
}

/// Whether the name above one has a node, or there is none above it.
fn has_above(nodes: &NodeMap, name: &NameKeyRef<'_>) -> bool
    ensures add { (held : NodeSets) → result ≡ true
        → add_above (put_node nodes.now name.now held) name.now ≡ put_node nodes.now name.now held }
    ensures lacking { (held : NodeSets) → result ≡ true → lacking_above (put_node nodes.now name.now held) name.now ≡ 0 }
{
    match name.parent() {
        Some(parent) => has_node(nodes, &parent),
        None => true,
    }
}

/// The same, but without memory all is as before.
fn put_new(
    nodes: &mut NodeMap,
    alloc: Global,
    name: &NameKeyRef<'_>,
    node: ZoneNode,
    steps: &mut NodeCount,
) -> Result<(), AllocError>
    ensures ok { OnOk result (nodes.new ≡ add_above (put_node nodes.old name.now node) name.now) }
    ensures err { OnErr result (nodes.new ≡ nodes.old) }
    ensures steps { OnOk result (steps.new ≡ counted steps.old (lacking_above (put_node nodes.old name.now node) name.now)) }
    ensures few { steps.new ≤ counted steps.old (lacking_above (put_node nodes.old name.now node) name.now) }
{
    let _ = steps.get();
    if has_above(nodes, name) {
        return nodes.insert(alloc, name, node);
    }
    // Several nodes are made on a copy, which shares all pages: taking some out again could want memory too.
    let mut copy = nodes.clone()?;
    put_with_above(&mut copy, alloc, name, node, steps)?;
    *nodes = copy;
    Ok(())
}

/// Puts an RRset that isn't empty at a name and its type, in place of the one there. Without memory all is as before.
pub(crate) fn put_set(
    nodes: &mut NodeMap,
    alloc: Global,
    name: &NameKeyRef<'_>,
    rtype: Rtype,
    set: SharedRrset,
    steps: &mut NodeCount,
) -> Result<(), AllocError>
    requires own { set.rtype ≡ rtype }
    requires full { 1 ≤ length set.contents.items }
    ensures ok { OnOk result (nodes.new ≡ put_held nodes.old name.now rtype set.contents (node_at nodes.old name.now)) }
    ensures err { OnErr result (nodes.new ≡ nodes.old) }
    ensures steps { OnOk result (steps.new ≡ counted steps.old (put_steps nodes.old name.now rtype set.contents (node_at nodes.old name.now))) }
    ensures few { steps.new ≤ counted steps.old (put_steps nodes.old name.now rtype set.contents (node_at nodes.old name.now)) }
{
    let _ = steps.get();
    match nodes.get(name) {
        Some(node) => {
            let node = node.with(rtype, set, steps)?;
            nodes.insert(alloc, name, node)
        }
        None => put_in_new(nodes, alloc, name, rtype, set, steps),
    }
}

/// The same at a name that has no node, which isn't looked for.
pub(crate) fn put_in_new(
    nodes: &mut NodeMap,
    alloc: Global,
    name: &NameKeyRef<'_>,
    rtype: Rtype,
    set: SharedRrset,
    steps: &mut NodeCount,
) -> Result<(), AllocError>
    requires own { set.rtype ≡ rtype }
    requires full { 1 ≤ length set.contents.items }
    requires new { node_at nodes.old name.now ≡ None }
    ensures ok { OnOk result (nodes.new ≡ put_held nodes.old name.now rtype set.contents (node_at nodes.old name.now)) }
    ensures err { OnErr result (nodes.new ≡ nodes.old) }
    ensures steps { OnOk result (steps.new ≡ counted steps.old (put_steps nodes.old name.now rtype set.contents (node_at nodes.old name.now))) }
    ensures few { steps.new ≤ counted steps.old (put_steps nodes.old name.now rtype set.contents (node_at nodes.old name.now)) }
{
    let _ = steps.get();
    let node = ZoneNode::of_one(alloc, rtype, set, steps)?;
    put_new(nodes, alloc, name, node, steps)
}

/// Edits the RRset of a name and type, which stands there and keeps data, in place. No node is built. Without memory all is as before.
pub(crate) fn edit_set<E: SetEdit + Drop>(
    nodes: &mut NodeMap,
    name: &NameKeyRef<'_>,
    rtype: Rtype,
    edit: E,
) -> Result<(), AllocError>
    requires there { IsSome (type_in (node_at nodes.old name.now) rtype) }
    requires fits { E.fits edit rtype }
    requires full { 1 ≤ length (E.edited edit (type_in (node_at nodes.old name.now) rtype)).items }
    ensures ok { OnOk result (nodes.new ≡ put_held nodes.old name.now rtype (E.edited edit (type_in (node_at nodes.old name.now) rtype)) (node_at nodes.old name.now)) }
    ensures err { OnErr result (nodes.new ≡ nodes.old) }
{
    nodes.node_mut(name)?.edit(rtype, edit)
}
