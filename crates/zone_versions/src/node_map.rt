// Nodes by name.
ghost use Rattle.std.specs.Prelude.{◌≡◌, ◌==◌, ◌&&◌, true, [], length, not, filter, IfOk, OnOk, OnErr, IsSome, Some, is_some, option_copied};
ghost use Rattle.std.specs.List.{list_any};
ghost use Rattle.std.specs.Ordering.{is_eq, is_le};
ghost use Rattle.std.specs.List.Sorted.{IsStrictlySortedBy};
ghost use Rattle.std.specs.Map.{keys_of};
ghost use Rattle.dns_name.specs.Names.{under, canonical_cmp};
ghost use Rattle.paged_map.specs.Octets.{octets_cmp, begins_with};
ghost use Rattle.zone_versions.specs.Keyed.{holds_besides, holds_outside, named, AreKeys};
ghost use Rattle.zone_versions.specs.Held.{counted};
ghost use Rattle.zone_versions.specs.Trees.{node_at};
ghost use Rattle.zone_versions.specs.Ways.{put_node, any_held, outside};

use crate::node::{NodeCount, ZoneNode};
use name_keys::NameKeyRef;
use paged_map::{Entries, PagedMap, compare};
use std::alloc::{AllocError, Global};
use std::marker::Model;

/// Nodes by name, in canonical order (RFC 4034, 6.1), in pages that copies share.
#[derive(Drop)]
pub(crate) struct NodeMap {
    pages: PagedMap<ZoneNode>,
}

impl Model for NodeMap {
    ghost use Rattle.zone_versions.specs.Trees.{Nodes};
    ghost use Rattle.std.specs.List.Sorted.{IsStrictlySortedBy};
    ghost use Rattle.std.specs.Map.{keys_of};
    ghost use Rattle.paged_map.specs.Octets.{octets_cmp};
    ghost use Rattle.zone_versions.specs.Keyed.{named, AreKeys};

    ghost Value = { Nodes };

    ghost view = { λ m. named m.pages };

    ghost invariant = { λ m. AreKeys m.pages × IsStrictlySortedBy octets_cmp (keys_of m.pages) };
}

impl NodeMap {
    ghost use Rattle.std.specs.Borrow.{sem};
    ghost use Rattle.zone_versions.specs.Lends.{lends_node};

    /// No nodes.
    pub(crate) fn new(alloc: Global) -> NodeMap
        ensures { result ≡ [] }
    {
        NodeMap {
            pages: PagedMap::new(alloc),
        }
    }

    /// The node of a name.
    pub(crate) fn get(&self, name: &NameKeyRef<'_>) -> Option<&ZoneNode>
        ensures { option_copied result ≡ node_at self.now name.now }
    {
        self.pages.get(name.as_slice())
    }

    /// Whether a name has a node.
    pub(crate) fn has(&self, name: &NameKeyRef<'_>) -> bool
        ensures { result ≡ is_some (node_at self.now name.now) }
    {
        self.get(name).is_some()
    }

    /// Whether a name is that of the first node, as the apex is in a version's tree.
    pub(crate) fn is_first(&self, name: &NameKeyRef<'_>) -> bool
        ensures { result ≡ true → is_some (node_at self.now name.now) ≡ true }
    {
        let mut entries = self.pages.iter();
        match entries.next() {
            Some((key, _)) => is_same(name.as_slice(), key),
            None => false,
        }
    }

    /// Whether RRsets are held at or below a name, those of an owner aside.
    pub(crate) fn any_held_besides(&self, name: &NameKeyRef<'_>, owner: &NameKeyRef<'_>) -> bool
        ensures { result ≡ any_held (put_node self.now owner.now []) name.now }
    {
        any_held_besides(&self.pages, name.as_slice(), owner.as_slice())
    }

    /// Whether RRsets are held at or below a name, those at and below another aside.
    pub(crate) fn any_held_outside(&self, name: &NameKeyRef<'_>, other: &NameKeyRef<'_>) -> bool
        ensures { result ≡ any_held (outside self.now other.now) name.now }
    {
        any_held_outside(&self.pages, name.as_slice(), other.as_slice())
    }

    /// The nodes in order, by the keys of their names.
    pub(crate) fn entries(&self) -> Entries<'_, ZoneNode>
        ensures is { named result ≡ self.now }
        ensures keys { AreKeys result }
    {
        self.pages.iter()
    }

    /// The nodes of names that aren't before one, in order.
    pub(crate) fn entries_from(&self, name: &NameKeyRef<'_>) -> Entries<'_, ZoneNode>
        ensures is { named result ≡ filter (λ e. is_le (canonical_cmp name.now e.0)) self.now }
        ensures keys { AreKeys result }
    {
        self.pages.iter_from(name.as_slice())
    }

    /// Puts a node at a name, in place of the one there. Without memory all is as before.
    pub(crate) fn insert(
        &mut self,
        alloc: Global,
        name: &NameKeyRef<'_>,
        node: ZoneNode,
    ) -> Result<(), AllocError>
        ensures ok { OnOk result (self.new ≡ put_node self.old name.now node) }
        ensures err { OnErr result (self.new ≡ self.old) }
    {
        self.pages.insert(alloc, name.as_slice(), node)
    }

    /// Has the node of a name be no copy's too: one that a copy shares is copied. Either way it counts as built.
    pub(crate) fn own_node(
        &mut self,
        alloc: Global,
        name: &NameKeyRef<'_>,
        steps: &mut NodeCount,
    ) -> Result<(), AllocError>
        ensures same { self.new ≡ self.old }
        ensures steps { OnOk result (steps.new ≡ counted steps.old 1) }
        ensures uncounted { OnErr result (steps.new ≡ steps.old) }
    {
        if self.pages.is_shared(name.as_slice()) {
            return copy_node(&mut self.pages, alloc, name.as_slice(), steps);
        }
        steps.add_one();
        Ok(())
    }

    /// The node of a name that has one and that no copy shares (`own_node`), to write. The page is copied first where copies share that. Without memory
    /// all is as before.
    pub(crate) fn node_mut(&mut self, name: &NameKeyRef<'_>) -> Result<&mut ZoneNode, AllocError>
        requires { IsSome (node_at self.old name.now) }
        ensures* writes_back { sem 𝓛 (lends_node self.entry name.now result) }
        ensures value { IfOk result (λ x. node_at self.old name.now ≡ Some x.now) }
    {
        Ok(self.pages.value_mut(name.as_slice())?)
    }

    /// Takes the nodes at and below a name out. Without memory all is as before.
    pub(crate) fn remove_under(&mut self, name: &NameKeyRef<'_>) -> Result<(), AllocError>
        ensures ok { OnOk result (self.new ≡ filter (λ e. not (under e.0 name.now)) self.old) }
        ensures err { OnErr result (self.new ≡ self.old) }
    {
        self.pages.remove_under(name.as_slice())
    }
}

impl Clone for NodeMap {
    ghost is_clone = { λ s copy. copy ≡ s };

    fn clone(&self) -> Result<NodeMap, AllocError> {
        Ok(NodeMap {
            pages: self.pages.clone()?,
        })
    }
}

/// Puts a copy of a key's node in its place, where there is one. It counts as built, as it does where there is none.
fn copy_node(
    pages: &mut PagedMap<ZoneNode>,
    alloc: Global,
    key: &[u8],
    steps: &mut NodeCount,
) -> Result<(), AllocError>
    requires { IsStrictlySortedBy octets_cmp (keys_of pages.old) }
    ensures same { pages.new ≡ pages.old }
    ensures steps { OnOk result (steps.new ≡ counted steps.old 1) }
    ensures uncounted { OnErr result (steps.new ≡ steps.old) }
{
    let Some(node) = pages.get(key) else {
        steps.add_one();
        return Ok(());
    };
    let before = steps.get();
    let copy = node.copy(steps)?;
    let done = pages.insert(alloc, key, copy);
    steps.keep_if(done.is_ok(), before);
    done
}

/// Whether an entry of a key that begins with a string has RRsets, that of an owner's key aside.
fn any_held_besides(pages: &PagedMap<ZoneNode>, name: &[u8], owner: &[u8]) -> bool
    requires { IsStrictlySortedBy octets_cmp (keys_of pages.now) }
    ensures { result ≡ list_any (holds_besides name.now owner.now) pages.now }
{
    let mut next = pages.first_from(name);
    while let Some((key, node)) = next {
        if !key.starts_with(name) {
            return false;
        }
        if holds_besides(owner, key, node) {
            return true;
        }
        next = pages.first_after(key);
    }
    false
}

/// Whether an entry has RRsets and isn't an owner's.
fn holds_besides(owner: &[u8], key: &[u8], node: &ZoneNode) -> bool
    ensures { result ≡ (not (length node.now == 0) && not (is_eq (octets_cmp owner.now key.now))) }
{
    !node.is_empty() && !is_same(owner, key)
}

/// Whether an entry of a key that begins with a string has RRsets, those of keys that begin with another aside.
fn any_held_outside(pages: &PagedMap<ZoneNode>, name: &[u8], other: &[u8]) -> bool
    requires { IsStrictlySortedBy octets_cmp (keys_of pages.now) }
    ensures { result ≡ list_any (holds_outside name.now other.now) pages.now }
{
    let mut entries = pages.iter_from(name);
    'entries: while let Some((key, node)) = entries.next() {
        if !key.starts_with(name) {
            return false;
        }
        if holds_outside(other, key, node) {
            return true;
        }
    }
    false
}

/// Whether an entry has RRsets and its key doesn't begin with a string.
fn holds_outside(other: &[u8], key: &[u8], node: &ZoneNode) -> bool
    ensures { result ≡ (not (begins_with key.now other.now) && not (length node.now == 0)) }
{
    !key.starts_with(other) && !node.is_empty()
}

/// Whether two strings of octets are the same.
pub(crate) fn is_same<'x>(left: &'x [u8], right: &'x [u8]) -> bool
    ensures { result ≡ is_eq (octets_cmp left.now right.now) }
{
    compare(left, right).is_eq()
}
