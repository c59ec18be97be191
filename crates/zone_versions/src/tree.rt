// Versions as trees.
ghost use Rattle.std.specs.Prelude.{◌≡◌, ◌≤◌, ◌==◌, [], length, true, false, if◌then◌else◌, filter, find, map, option_copied, option_map, is_some, IfOk, IfSome, IsSome, OnOk, OnErr};
ghost use Rattle.dns_name.specs.Names.{fold, same_name, under, canonical_cmp};
ghost use Rattle.zone_model.specs.Version.{key_cmp, set_at};
ghost use Rattle.zone_model.specs.Edits as edits;
ghost use Rattle.zone_versions.specs.Held.{told, counted};
ghost use Rattle.zone_values.specs.TypedEntries.{typed};
ghost use Rattle.zone_versions.specs.Trees as trees;
ghost use Rattle.std.specs.Ordering.{is_le, is_lt};
ghost use Rattle.zone_versions.specs.Keyed.{named, AreKeys};
ghost use Rattle.zone_versions.specs.Trees.{IsTree, sets_of, node_of, built, built_by_clear};

use crate::clearing::clear_below;
use crate::growing::{edit_set, put_in_new, put_set};
use crate::node::{NodeCount, ZoneNode};
use crate::node_map::NodeMap;
use crate::set_edit::SetEdit;
use crate::shrinking::remove_set;
use crate::tree_walk::{TreeSet, TreeSets};
use dns_name::{Labelled, StoredName};
use dns_numbers::{Class, Rtype};
use name_keys::{KeyOctets, NameKeyRef};
use paged_map::Entries;
use std::alloc::{AllocError, Global};
use std::marker::Model;
use zone_values::{Rrset, SharedRrset};

/// A version of a zone (RFC 1034, 4.2) as a tree: its apex as it was given, its class, and a node for each name that exists in the zone, in pages
/// that versions share.
#[derive(Drop)]
pub struct VersionTree {
    apex: StoredName,
    class: Class,
    nodes: NodeMap,
}

impl Model for VersionTree {
    ghost use Rattle.zone_model.specs.Version.{Version};
    ghost use Rattle.zone_versions.specs.Trees.{IsTree};
    ghost use Rattle.zone_versions.specs.Ways.{version_of};

    ghost Value = { Version };

    ghost view = { λ t. version_of t.apex t.class t.nodes };

    ghost invariant = { λ t. IsTree (version_of t.apex t.class t.nodes) t.nodes };
}

impl VersionTree {
    /// A version without RRsets: the apex's node alone.
    pub fn new(
        alloc: Global,
        apex: &StoredName,
        class: Class,
        steps: &mut NodeCount,
    ) -> Result<VersionTree, AllocError>
        ensures is { IfOk result (λ t. t ≡ record { apex = apex.now; class = class; sets = [] }) }
        ensures steps { OnOk result (steps.new ≡ counted steps.old 1) }
        ensures uncounted { OnErr result (steps.new ≡ steps.old) }
    {
        let apex = apex.clone()?;
        let mut nodes = NodeMap::new(alloc);
        let mut octets = KeyOctets::new();
        let key = NameKeyRef::put(&mut octets, &apex);
        let before = steps.get();
        let node = ZoneNode::empty(alloc, steps);
        let done = nodes.insert(alloc, &key, node);
        steps.keep_if(done.is_ok(), before);
        done?;
        Ok(VersionTree { apex, class, nodes })
    }

    /// The same version, which shares all nodes: none is built.
    pub fn fork(&self, _steps: &mut NodeCount) -> Result<VersionTree, AllocError>
        ensures is { IfOk result (λ t. t ≡ self.now) }
        ensures none_built { _steps.new ≡ _steps.old }
    {
        Ok(VersionTree {
            apex: self.apex.clone()?,
            class: self.class,
            nodes: self.nodes.clone()?,
        })
    }

    /// The same RRsets in a version of another class, and of an apex that is the same name up to case. All nodes are shared.
    pub fn reopened(&self, apex: StoredName, class: Class) -> Result<VersionTree, AllocError>
        requires { same_name apex self.now.apex ≡ true }
        ensures { IfOk result (λ t. t ≡ record { apex = apex; class = class; sets = self.now.sets }) }
    {
        match self.nodes.clone() {
            Ok(nodes) => Ok(VersionTree { apex, class, nodes }),
            Err(error) => {
                drop(apex);
                Err(error)
            }
        }
    }

    /// The apex, as it was given.
    pub fn apex(&self) -> &StoredName
        ensures { result.now ≡ self.now.apex }
    {
        &self.apex
    }

    /// The class.
    pub fn class(&self) -> Class
        ensures { result ≡ self.now.class }
    {
        self.class
    }

    /// The node of a name: that of each name which exists in the zone, and of no other (RFC 4592, 2.2.2). It has the name's RRsets.
    pub fn node<N: Labelled>(&self, owner: &N) -> Option<&ZoneNode>
        ensures { option_copied result ≡ node_of self.now (N.labels owner.now) }
    {
        let mut octets = KeyOctets::new();
        self.node_at(&NameKeyRef::put_labels(&mut octets, owner))
    }

    /// The same of a name's key.
    pub(crate) fn node_at(&self, name: &NameKeyRef<'_>) -> Option<&ZoneNode>
        ensures { option_copied result ≡ node_of self.now name.now }
    {
        self.nodes.get(name)
    }

    /// The RRset of an owner and type.
    pub fn get<N: Labelled>(&self, owner: &N, rtype: Rtype) -> Option<&Rrset>
        ensures { option_copied result ≡ option_map (typed rtype) (set_at self.now (N.labels owner.now) rtype) }
    {
        let mut octets = KeyOctets::new();
        self.set_at(&NameKeyRef::put_labels(&mut octets, owner), rtype)
    }

    /// The nodes in canonical order of their names (RFC 4034, 6.1), by the names' keys: the version's tree.
    pub fn nodes(&self) -> Entries<'_, ZoneNode>
        ensures tree { IsTree self.now (named result) }
        ensures keys { AreKeys result }
    {
        self.nodes.entries()
    }

    /// The same without the nodes of names before one: the RRsets whose owners aren't before it.
    fn nodes_from<N: Labelled>(&self, owner: &N) -> Entries<'_, ZoneNode>
        ensures sets { sets_of (named result) ≡ filter (λ e. is_le (canonical_cmp (N.labels owner.now) e.0.0)) self.now.sets }
        ensures keys { AreKeys result }
    {
        let mut octets = KeyOctets::new();
        self.entries_from(&NameKeyRef::put_labels(&mut octets, owner))
    }

    /// The same of an owner's key.
    fn entries_from(&self, name: &NameKeyRef<'_>) -> Entries<'_, ZoneNode>
        ensures sets { sets_of (named result) ≡ filter (λ e. is_le (canonical_cmp name.now e.0.0)) self.now.sets }
        ensures keys { AreKeys result }
    {
        self.nodes.entries_from(name)
    }

    /// The same of an owner's key.
    pub(crate) fn set_at(&self, name: &NameKeyRef<'_>, rtype: Rtype) -> Option<&Rrset>
        ensures { option_copied result ≡ option_map (typed rtype) (set_at self.now name.now rtype) }
    {
        self.set_in(name, self.node_at(name), rtype)
    }

    /// The same in the owner's node, where it has one.
    pub(crate) fn set_in<'v>(
        &'v self,
        name: &NameKeyRef<'_>,
        node: Option<&'v ZoneNode>,
        rtype: Rtype,
    ) -> Option<&'v Rrset>
        requires { option_copied node ≡ node_of self.now name.now }
        ensures { option_copied result ≡ option_map (typed rtype) (set_at self.now name.now rtype) }
    {
        // For the proof: the nodes are the version's tree.
        let _class = self.class;
        match node {
            Some(node) => node.get(rtype),
            None => None,
        }
    }
}

// The walk.
impl VersionTree {
    /// The RRsets in order, each once: owners in canonical order, types ascending (RFC 4034, 6.1).
    pub fn sets(&self) -> TreeSets<'_>
        ensures { result ≡ map told self.now.sets }
    {
        TreeSets::of(self.nodes.entries())
    }

    /// Those whose owners aren't before a name.
    pub fn sets_from<N: Labelled>(&self, owner: &N) -> TreeSets<'_>
        ensures { result ≡ map told (filter (λ e. is_le (canonical_cmp (N.labels owner.now) e.0.0)) self.now.sets) }
    {
        TreeSets::of(self.nodes_from(owner))
    }

    /// Those after an owner and type.
    pub fn sets_after<N: Labelled>(&self, owner: &N, rtype: Rtype) -> TreeSets<'_>
        ensures { result ≡ map told (filter (λ e. is_lt (key_cmp (fold (N.labels owner.now), rtype) e.0)) self.now.sets) }
    {
        let mut octets = KeyOctets::new();
        self.sets_after_key(&NameKeyRef::put_labels(&mut octets, owner), rtype)
    }

    /// The same of an owner's key.
    fn sets_after_key(&self, name: &NameKeyRef<'_>, rtype: Rtype) -> TreeSets<'_>
        ensures { result ≡ map told (filter (λ e. is_lt (key_cmp (name.now, rtype) e.0)) self.now.sets) }
    {
        TreeSets::after(self.nodes.entries_from(name), name, rtype)
    }

    /// The first RRset whose owner isn't before a name.
    pub fn first_from<N: Labelled>(&self, owner: &N) -> Option<TreeSet<'_>>
        ensures { result ≡ option_map told (find (λ e. is_le (canonical_cmp (N.labels owner.now) e.0.0)) self.now.sets) }
    {
        self.sets_from(owner).next()
    }

    /// The first RRset after an owner and type.
    pub fn first_after<N: Labelled>(&self, owner: &N, rtype: Rtype) -> Option<TreeSet<'_>>
        ensures { result ≡ option_map told (find (λ e. is_lt (key_cmp (fold (N.labels owner.now), rtype) e.0)) self.now.sets) }
    {
        self.sets_after(owner, rtype).next()
    }
}

// Edits.
impl VersionTree {
    /// Puts an RRset in place of the one of its owner and type, or takes that out, where none or an empty one is given. Names that begin to exist get
    /// nodes, and those of names that no longer exist go. Without memory all is as before.
    pub fn with_set<N: Labelled>(
        &mut self,
        alloc: Global,
        owner: &N,
        rtype: Rtype,
        set: Option<SharedRrset>,
        steps: &mut NodeCount,
    ) -> Result<(), AllocError>
        requires zone { under (N.labels owner.now) self.old.apex ≡ true }
        requires own { IfSome set (λ s. s.rtype ≡ rtype) }
        ensures ok { OnOk result (self.new ≡ trees.with_set self.old (N.labels owner.now) rtype (option_map (λ s. s.contents) set)) }
        ensures err { OnErr result (self.new ≡ self.old) }
        ensures steps { OnOk result (steps.new ≡ counted steps.old (built self.old self.new (N.labels owner.now) rtype)) }
        ensures uncounted { OnErr result (steps.new ≡ steps.old) }
    {
        let mut octets = KeyOctets::new();
        let name = NameKeyRef::put_labels(&mut octets, owner);
        match set {
            Some(set) => self.put(alloc, &name, rtype, set, steps),
            None => self.remove(alloc, &name, rtype, steps),
        }
    }

    /// Puts an RRset in place of the one of its owner and type, or takes that out, where an empty one is given.
    fn put(
        &mut self,
        alloc: Global,
        owner: &NameKeyRef<'_>,
        rtype: Rtype,
        set: SharedRrset,
        steps: &mut NodeCount,
    ) -> Result<(), AllocError>
        requires zone { under owner.now self.old.apex ≡ true }
        requires own { set.rtype ≡ rtype }
        ensures ok { OnOk result (self.new ≡ trees.with_set self.old owner.now rtype (Some set.contents)) }
        ensures err { OnErr result (self.new ≡ self.old) }
        ensures steps { OnOk result (steps.new ≡ counted steps.old (built self.old self.new owner.now rtype)) }
        ensures uncounted { OnErr result (steps.new ≡ steps.old) }
    {
        if set.is_empty() {
            drop(set);
            return self.remove(alloc, owner, rtype, steps);
        }
        self.put_full(alloc, owner, rtype, set, steps)
    }

    /// Puts an RRset that isn't empty in place of the one of its owner and type.
    pub(crate) fn put_full(
        &mut self,
        alloc: Global,
        owner: &NameKeyRef<'_>,
        rtype: Rtype,
        set: SharedRrset,
        steps: &mut NodeCount,
    ) -> Result<(), AllocError>
        requires zone { under owner.now self.old.apex ≡ true }
        requires own { set.rtype ≡ rtype }
        requires full { 1 ≤ length set.contents.items }
        ensures ok { OnOk result (self.new ≡ trees.with_set self.old owner.now rtype (Some set.contents)) }
        ensures err { OnErr result (self.new ≡ self.old) }
        ensures steps { OnOk result (steps.new ≡ counted steps.old (built self.old self.new owner.now rtype)) }
        ensures uncounted { OnErr result (steps.new ≡ steps.old) }
    {
        // For the proof: a key's name is in lower case.
        let _ = owner.as_slice();
        let before = steps.get();
        let done = put_set(&mut self.nodes, alloc, owner, rtype, set, steps);
        steps.keep_if(done.is_ok(), before);
        done
    }

    /// The same at an owner that has no node, which isn't looked for.
    pub(crate) fn put_in_new(
        &mut self,
        alloc: Global,
        owner: &NameKeyRef<'_>,
        rtype: Rtype,
        set: SharedRrset,
        steps: &mut NodeCount,
    ) -> Result<(), AllocError>
        requires zone { under owner.now self.old.apex ≡ true }
        requires own { set.rtype ≡ rtype }
        requires full { 1 ≤ length set.contents.items }
        requires new { is_some (node_of self.old owner.now) ≡ false }
        ensures ok { OnOk result (self.new ≡ trees.with_set self.old owner.now rtype (Some set.contents)) }
        ensures err { OnErr result (self.new ≡ self.old) }
        ensures steps { OnOk result (steps.new ≡ counted steps.old (built self.old self.new owner.now rtype)) }
        ensures uncounted { OnErr result (steps.new ≡ steps.old) }
    {
        let _ = owner.as_slice();
        let before = steps.get();
        let done = put_in_new(&mut self.nodes, alloc, owner, rtype, set, steps);
        steps.keep_if(done.is_ok(), before);
        done
    }

    /// Edits the RRset of an owner and type, which stands there and keeps data, in place, in a node that no other version has. No node is built. Without
    /// memory all is as before.
    fn edit_set<E: SetEdit + Drop>(
        &mut self,
        owner: &NameKeyRef<'_>,
        rtype: Rtype,
        edit: E,
    ) -> Result<(), AllocError>
        requires zone { under owner.now self.old.apex ≡ true }
        requires there { IsSome (set_at self.old owner.now rtype) }
        requires fits { E.fits edit rtype }
        requires full { 1 ≤ length (E.edited edit (set_at self.old owner.now rtype)).items }
        ensures ok { OnOk result (self.new ≡ trees.with_set self.old owner.now rtype (Some (E.edited edit (set_at self.old owner.now rtype)))) }
        ensures err { OnErr result (self.new ≡ self.old) }
        ensures one { OnOk result (built self.old self.new owner.now rtype ≡ 1) }
    {
        // For the proof: a key's name is in lower case.
        let _ = owner.as_slice();
        edit_set(&mut self.nodes, owner, rtype, edit)
    }

    /// Has the node of a name be no other version's, and counts it as the node that is built.
    fn own_node(
        &mut self,
        alloc: Global,
        owner: &NameKeyRef<'_>,
        steps: &mut NodeCount,
    ) -> Result<(), AllocError>
        ensures same { self.new ≡ self.old }
        ensures steps { OnOk result (steps.new ≡ counted steps.old 1) }
        ensures uncounted { OnErr result (steps.new ≡ steps.old) }
    {
        self.nodes.own_node(alloc, owner, steps)
    }

    /// The same, counted as the node that `with_set` would build: one that another version has is copied first.
    pub(crate) fn edit_in_place<E: SetEdit + Drop>(
        &mut self,
        alloc: Global,
        owner: &NameKeyRef<'_>,
        rtype: Rtype,
        edit: E,
        steps: &mut NodeCount,
    ) -> Result<(), AllocError>
        requires zone { under owner.now self.old.apex ≡ true }
        requires there { IsSome (set_at self.old owner.now rtype) }
        requires fits { E.fits edit rtype }
        requires full { 1 ≤ length (E.edited edit (set_at self.old owner.now rtype)).items }
        ensures ok { OnOk result (self.new ≡ edits.put_set self.old owner.now rtype (E.edited edit (set_at self.old owner.now rtype))) }
        ensures err { OnErr result (self.new ≡ self.old) }
        ensures steps { OnOk result (steps.new ≡ counted steps.old (built self.old self.new owner.now rtype)) }
        ensures uncounted { OnErr result (steps.new ≡ steps.old) }
    {
        let before = steps.get();
        match self.own_node(alloc, owner, steps) {
            Ok(()) => self.edit_own(owner, rtype, edit, before, steps),
            Err(error) => {
                drop(edit);
                Err(error)
            }
        }
    }

    /// The same in a node that no other version has and that is counted. The count is the one before it again where memory is wanting.
    fn edit_own<E: SetEdit + Drop>(
        &mut self,
        owner: &NameKeyRef<'_>,
        rtype: Rtype,
        edit: E,
        before: u64,
        steps: &mut NodeCount,
    ) -> Result<(), AllocError>
        requires zone { under owner.now self.old.apex ≡ true }
        requires there { IsSome (set_at self.old owner.now rtype) }
        requires fits { E.fits edit rtype }
        requires full { 1 ≤ length (E.edited edit (set_at self.old owner.now rtype)).items }
        requires one { steps.old ≡ counted before 1 }
        ensures ok { OnOk result (self.new ≡ trees.with_set self.old owner.now rtype (Some (E.edited edit (set_at self.old owner.now rtype)))) }
        ensures err { OnErr result (self.new ≡ self.old) }
        ensures steps { OnOk result (steps.new ≡ counted before (built self.old self.new owner.now rtype)) }
        ensures uncounted { OnErr result (steps.new ≡ before) }
    {
        let done = self.edit_set(owner, rtype, edit);
        steps.keep_if(done.is_ok(), before);
        done
    }

    /// Takes the RRset of an owner and type out, where there is one.
    pub(crate) fn remove(
        &mut self,
        alloc: Global,
        owner: &NameKeyRef<'_>,
        rtype: Rtype,
        steps: &mut NodeCount,
    ) -> Result<(), AllocError>
        requires { under owner.now self.old.apex ≡ true }
        ensures ok { OnOk result (self.new ≡ edits.remove_set self.old owner.now rtype) }
        ensures err { OnErr result (self.new ≡ self.old) }
        ensures steps { OnOk result (steps.new ≡ counted steps.old (built self.old self.new owner.now rtype)) }
        ensures uncounted { OnErr result (steps.new ≡ steps.old) }
    {
        let _ = owner.as_slice();
        let mut octets = KeyOctets::new();
        let apex = NameKeyRef::put(&mut octets, &self.apex);
        let before = steps.get();
        let done = remove_set(&mut self.nodes, alloc, &apex, owner, rtype, steps);
        steps.keep_if(done.is_ok(), before);
        done
    }

    /// Takes all RRsets at and below a name out. The nodes of names that no longer exist go; the apex's stays, and is built anew where it is among those
    /// names and there are RRsets. Without memory all is as before.
    pub fn clear<N: Labelled>(
        &mut self,
        alloc: Global,
        name: &N,
        steps: &mut NodeCount,
    ) -> Result<(), AllocError>
        ensures ok { OnOk result (self.new ≡ edits.clear self.old (N.labels name.now)) }
        ensures err { OnErr result (self.new ≡ self.old) }
        ensures steps { OnOk result (steps.new ≡ counted steps.old (built_by_clear self.old (N.labels name.now))) }
        ensures uncounted { OnErr result (steps.new ≡ steps.old) }
    {
        let mut octets = KeyOctets::new();
        self.clear_key(alloc, &NameKeyRef::put_labels(&mut octets, name), steps)
    }

    /// The same of a name's key.
    fn clear_key(
        &mut self,
        alloc: Global,
        name: &NameKeyRef<'_>,
        steps: &mut NodeCount,
    ) -> Result<(), AllocError>
        ensures ok { OnOk result (self.new ≡ edits.clear self.old name.now) }
        ensures err { OnErr result (self.new ≡ self.old) }
        ensures steps { OnOk result (steps.new ≡ counted steps.old (built_by_clear self.old name.now)) }
        ensures uncounted { OnErr result (steps.new ≡ steps.old) }
    {
        // For the proof: the count fits 64 bits, and the nodes are the version's tree.
        let _ = steps.get();
        let _ = self.nodes();
        if self.is_apex_under(name) {
            return self.clear_all(alloc, steps);
        }
        self.clear_below(name)
    }

    /// Whether the apex is at or below a name.
    fn is_apex_under(&self, name: &NameKeyRef<'_>) -> bool
        ensures { result ≡ under self.now.apex name.now }
    {
        let mut octets = KeyOctets::new();
        NameKeyRef::put(&mut octets, &self.apex).is_under(name)
    }

    /// Takes all RRsets out.
    fn clear_all(&mut self, alloc: Global, steps: &mut NodeCount) -> Result<(), AllocError>
        ensures ok { OnOk result (self.new ≡ edits.with_sets self.old []) }
        ensures err { OnErr result (self.new ≡ self.old) }
        ensures steps { OnOk result (steps.new ≡ counted steps.old (if length self.old.sets == 0 then 0 else 1)) }
        ensures uncounted { OnErr result (steps.new ≡ steps.old) }
    {
        let _ = steps.get();
        if self.sets().next().is_none() {
            return Ok(());
        }
        *self = VersionTree::new(alloc, &self.apex, self.class, steps)?;
        Ok(())
    }

    /// Takes all RRsets at and below a name out that is neither the apex nor above it. That builds no node.
    fn clear_below(&mut self, name: &NameKeyRef<'_>) -> Result<(), AllocError>
        requires { under self.old.apex name.now ≡ false }
        ensures ok { OnOk result (self.new ≡ edits.clear self.old name.now) }
        ensures err { OnErr result (self.new ≡ self.old) }
    {
        let mut octets = KeyOctets::new();
        let apex = NameKeyRef::put(&mut octets, &self.apex);
        clear_below(&mut self.nodes, &apex, name)
    }
}
