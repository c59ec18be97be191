// A walk of a tree as an iterator.
ghost use Rattle.std.specs.Prelude.{◌≡◌, [], map, filter, true, if◌then◌else◌};
ghost use Rattle.std.specs.Ordering.{is_eq, is_le, is_lt};
ghost use Rattle.std.specs.Iterator.{YieldsFirst};
ghost use Rattle.std.specs.List.{AllByRecursion};
ghost use Rattle.std.specs.List.Sorted.{IsStrictlySortedBy};
ghost use Rattle.std.specs.Map.{keys_of};
ghost use Rattle.dns_name.specs.Names.{canonical_cmp, fold};
ghost use Rattle.name_keys.specs.NameKeys.{name_of_key, IsNameKey};
ghost use Rattle.zone_model.specs.Version.{key_cmp};
ghost use Rattle.zone_versions.specs.Held.{told, told_at, typed_sets, after_type};
ghost use Rattle.zone_versions.specs.Keyed.{named, AreKeys};
ghost use Rattle.zone_versions.specs.Trees.{sets_of};

use crate::node::ZoneNode;
use crate::node_map::is_same;
use dns_numbers::Rtype;
use name_keys::NameKeyRef;
use paged_map::Entries;
use std::marker::Model;
use zone_values::{Rrset, SharedRrset};

/// One stop of a walk: an RRset with the key of its owner's name.
#[derive(Drop)]
pub struct TreeSet<'v> {
    owner: NameKeyRef<'v>,
    set: &'v SharedRrset,
}

impl<'v> Model for TreeSet<'v> {
    ghost use Rattle.dns_name.specs.Names.{Name};
    ghost use Rattle.zone_values.specs.TypedSets.{TypedSet};

    ghost Value = { Name × TypedSet };

    ghost view = { λ s. (s.owner, s.set.now) };
}

impl<'v> TreeSet<'v> {
    /// The owner, in lower case.
    pub fn owner(&self) -> &NameKeyRef<'v>
        ensures is { result.now ≡ self.now.0 }
        ensures folded { fold self.now.0 ≡ self.now.0 }
    {
        // For the proof: a key's name is in lower case.
        let _ = self.owner.as_slice();
        &self.owner
    }

    /// The type.
    pub fn rtype(&self) -> Rtype
        ensures { result ≡ self.now.1.rtype }
    {
        self.set().rtype()
    }

    /// The RRset.
    pub fn set(&self) -> &'v Rrset
        ensures { result.now ≡ self.now.1 }
    {
        self.set.as_rrset()
    }

    /// The RRset as versions share it.
    pub fn shared(&self) -> &'v SharedRrset
        ensures { result.now ≡ self.now.1 }
    {
        self.set
    }
}

/// What is left of one node's RRsets, with the key of its name.
#[derive(Drop)]
struct NodeRest<'v> {
    key: &'v [u8],
    sets: &'v [SharedRrset],
}

impl<'v> Model for NodeRest<'v> {
    ghost use Rattle.std.specs.Prelude.{List};
    ghost use Rattle.dns_name.specs.Names.{Name};
    ghost use Rattle.name_keys.specs.NameKeys.{name_of_key, IsNameKey};
    ghost use Rattle.zone_values.specs.TypedSets.{TypedSet};
    ghost use Rattle.zone_versions.specs.Held.{told_at};

    ghost Value = { List (Name × TypedSet) };

    ghost view = { λ n. told_at (name_of_key n.key.now) n.sets.now };

    ghost invariant = { λ n. IsNameKey n.key.now };
}

impl<'v> NodeRest<'v> {
    /// Of no node.
    fn none() -> NodeRest<'v>
        ensures { result ≡ [] }
    {
        NodeRest {
            key: &[],
            sets: &[],
        }
    }

    /// Of a node, all.
    fn of(key: &'v [u8], node: &'v ZoneNode) -> NodeRest<'v>
        requires { IsNameKey key.now }
        ensures { result ≡ told_at (name_of_key key.now) (typed_sets node.now) }
    {
        NodeRest {
            key,
            sets: node.sets(),
        }
    }

    /// Of a node, those of types after one, or all where the name isn't the one that is given.
    fn after(key: &'v [u8], node: &'v ZoneNode, name: &NameKeyRef<'_>, rtype: Rtype) -> NodeRest<'v>
        requires { IsNameKey key.now }
        ensures { result ≡ told_at (name_of_key key.now)
            (typed_sets (if is_eq (canonical_cmp name.now (name_of_key key.now)) then after_type rtype node.now else node.now)) }
    {
        if is_same(name.as_slice(), key) {
            return NodeRest {
                key,
                sets: node.after(rtype),
            };
        }
        NodeRest::of(key, node)
    }

    /// The next. None where none is left.
    fn next_set(&mut self) -> Option<TreeSet<'v>>
        ensures { YieldsFirst (λ n. n) self.old result self.new }
    {
        let (set, rest) = self.sets.split_first()?;
        self.sets = rest;
        Some(TreeSet {
            owner: NameKeyRef::of_octets(self.key),
            set,
        })
    }
}

/// The RRsets of a tree, or those from a place on: owners in canonical order, types ascending (RFC 4034, 6.1).
#[derive(Drop)]
pub struct TreeSets<'v> {
    // What is left of a node, and the nodes after it.
    node: NodeRest<'v>,
    nodes: Entries<'v, ZoneNode>,
}

impl<'v> Model for TreeSets<'v> {
    ghost use Rattle.std.specs.Prelude.{List, ◌++◌, map};
    ghost use Rattle.dns_name.specs.Names.{Name};
    ghost use Rattle.zone_values.specs.TypedSets.{TypedSet};
    ghost use Rattle.zone_versions.specs.Held.{told};
    ghost use Rattle.zone_versions.specs.Keyed.{named, AreKeys};
    ghost use Rattle.zone_versions.specs.Trees.{sets_of};

    ghost Value = { List (Name × TypedSet) };

    ghost view = { λ s. s.node ++ map told (sets_of (named s.nodes)) };

    ghost invariant = { λ s. AreKeys s.nodes };
}

impl<'v> TreeSets<'v> {
    /// The RRsets of these nodes.
    pub(crate) fn of(nodes: Entries<'v, ZoneNode>) -> TreeSets<'v>
        requires { AreKeys nodes }
        ensures { result ≡ map told (sets_of (named nodes.entry)) }
    {
        TreeSets {
            node: NodeRest::none(),
            nodes,
        }
    }

    /// Those after an owner and type, of nodes in order that aren't before the owner's.
    pub(crate) fn after(
        nodes: Entries<'v, ZoneNode>,
        name: &NameKeyRef<'_>,
        rtype: Rtype,
    ) -> TreeSets<'v>
        requires keys { AreKeys nodes }
        requires sorted { IsStrictlySortedBy canonical_cmp (keys_of (named nodes)) }
        requires from { AllByRecursion (λ n. is_le (canonical_cmp name.now n) ≡ true) (keys_of (named nodes)) }
        ensures { result ≡ map told (filter (λ e. is_lt (key_cmp (name.now, rtype) e.0)) (sets_of (named nodes.entry))) }
    {
        let mut nodes = nodes;
        match nodes.next() {
            Some((key, node)) => TreeSets {
                node: NodeRest::after(key, node, name, rtype),
                nodes,
            },
            None => TreeSets::of(nodes),
        }
    }

    /// The next. None where none is left.
    fn next_set(&mut self) -> Option<TreeSet<'v>>
        ensures { YieldsFirst (λ s. s) self.old result self.new }
    {
        'nodes: loop {
            if let Some(set) = self.node.next_set() {
                return Some(set);
            }
            match self.nodes.next() {
                Some((key, node)) => self.node = NodeRest::of(key, node),
                None => return None,
            }
        }
    }
}

impl<'v> Iterator for TreeSets<'v> {
    type Item = TreeSet<'v>;

    ghost use Rattle.std.specs.Iterator.{YieldsFirst, item_count};

    ghost next_gives = { YieldsFirst (λ s. s) };

    ghost remaining = { item_count (λ s. s) };

    fn next(&mut self) -> Option<TreeSet<'v>> {
        self.next_set()
    }
}
