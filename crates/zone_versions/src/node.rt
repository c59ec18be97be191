// Nodes, and how many were built.
ghost use Rattle.std.specs.Prelude.{◌≡◌, ◌≤◌, ◌==◌, [], ◌∷◌, length, if◌then◌else◌, IfOk, IsSome, IsTrue, OnOk, OnErr, option_copied, map};
ghost use Rattle.std.specs.Ordering.{nat_cmp};
ghost use Rattle.std.specs.BTreeMap.{insert_entry, is_at};
ghost use Rattle.std.specs.Map.{lookup, remove_entry};
ghost use Rattle.zone_values.specs.TypedEntries.{typed};
ghost use Rattle.zone_versions.specs.Held.{typed_set_of, typed_sets, after_type, held_of, counted};
ghost use Rattle.zone_versions.specs.Trees.{IsHeld};

use crate::set_edit::SetEdit;
use crate::types::{count_up_to, edit_set, put_in, set_of, take_out};
use dns_numbers::Rtype;
use std::alloc::{AllocError, Global};
use std::marker::Model;
use zone_values::{Rrset, SharedRrset};

/// How many nodes were built by edits that succeeded. It stays at the greatest number of 64 bits once it is there.
#[derive(Debug, Drop)]
pub struct NodeCount {
    nodes: u64,
}

impl Model for NodeCount {
    ghost use Rattle.std.specs.Prelude.{ℕ, ◌<◌, ◌^◌};

    ghost Value = { ℕ };

    ghost view = { λ c. c.nodes };
}

impl NodeCount {
    /// None.
    pub fn new() -> NodeCount
        ensures { result ≡ 0 }
    {
        NodeCount { nodes: 0 }
    }

    /// The number.
    pub fn get(&self) -> u64
        ensures { result ≡ self.now }
    {
        self.nodes
    }

    /// One more.
    pub(crate) fn add_one(&mut self)
        ensures { self.new ≡ counted self.old 1 }
    {
        self.nodes = self.nodes.saturating_add(1);
    }

    /// The number before an edit again, unless the edit is kept.
    pub(crate) fn keep_if(&mut self, kept: bool, before: u64)
        ensures { self.new ≡ (if kept then self.old else before) }
    {
        if !kept {
            self.nodes = before;
        }
    }
}

/// The node of a name: its RRsets by type, none of them empty (RFC 2181, 5). An edit builds another, but for one of an RRset in place.
#[derive(Drop)]
pub struct ZoneNode {
    // Their types ascend.
    sets: Vec<SharedRrset>,
}

impl Model for ZoneNode {
    ghost use Rattle.zone_versions.specs.Trees.{NodeSets, IsHeld};
    ghost use Rattle.zone_versions.specs.Held.{held_of};

    ghost Value = { NodeSets };

    ghost view = { λ n. held_of n.sets.items };

    ghost invariant = { λ n. IsHeld (held_of n.sets.items) };
}

impl ZoneNode {
    /// A node of these RRsets. Each node is built here, and counted.
    fn build(steps: &mut NodeCount, sets: Vec<SharedRrset>) -> ZoneNode
        requires { IsHeld (held_of sets.items) }
        ensures is { result ≡ held_of sets.items }
        ensures steps { steps.new ≡ counted steps.old 1 }
    {
        steps.add_one();
        ZoneNode { sets }
    }

    /// A node without RRsets.
    pub(crate) fn empty(alloc: Global, steps: &mut NodeCount) -> ZoneNode
        ensures is { result ≡ [] }
        ensures steps { steps.new ≡ counted steps.old 1 }
    {
        ZoneNode::build(steps, Vec::new(alloc))
    }

    /// A node of one RRset, of this type and not empty.
    pub(crate) fn of_one(
        alloc: Global,
        rtype: Rtype,
        set: SharedRrset,
        steps: &mut NodeCount,
    ) -> Result<ZoneNode, AllocError>
        requires own { set.rtype ≡ rtype }
        requires full { 1 ≤ length set.contents.items }
        ensures is { IfOk result (λ n. n ≡ (rtype, set.contents) ∷ []) }
        ensures steps { OnOk result (steps.new ≡ counted steps.old 1) }
        ensures err { OnErr result (steps.new ≡ steps.old) }
    {
        let mut sets = Vec::new(alloc);
        sets.push(set)?;
        Ok(ZoneNode::build(steps, sets))
    }

    /// The node with an RRset in place of the one of its type. The RRset is of this type and not empty.
    pub(crate) fn with(
        &self,
        rtype: Rtype,
        set: SharedRrset,
        steps: &mut NodeCount,
    ) -> Result<ZoneNode, AllocError>
        requires own { set.rtype ≡ rtype }
        requires full { 1 ≤ length set.contents.items }
        ensures is { IfOk result (λ n. n ≡ insert_entry nat_cmp self.now rtype set.contents) }
        ensures steps { OnOk result (steps.new ≡ counted steps.old 1) }
        ensures err { OnErr result (steps.new ≡ steps.old) }
    {
        let mut sets = copied(&self.sets)?;
        put_in(&mut sets, rtype, set)?;
        Ok(ZoneNode::build(steps, sets))
    }

    /// The node without the RRset of a type.
    pub(crate) fn without(
        &self,
        rtype: Rtype,
        steps: &mut NodeCount,
    ) -> Result<ZoneNode, AllocError>
        ensures is { IfOk result (λ n. n ≡ remove_entry (is_at (nat_cmp rtype)) self.now) }
        ensures steps { OnOk result (steps.new ≡ counted steps.old 1) }
        ensures err { OnErr result (steps.new ≡ steps.old) }
    {
        let mut sets = copied(&self.sets)?;
        take_out(&mut sets, rtype);
        Ok(ZoneNode::build(steps, sets))
    }

    /// A copy of the node, which shares its RRsets.
    pub(crate) fn copy(&self, steps: &mut NodeCount) -> Result<ZoneNode, AllocError>
        ensures is { IfOk result (λ n. n ≡ self.now) }
        ensures steps { OnOk result (steps.new ≡ counted steps.old 1) }
        ensures err { OnErr result (steps.new ≡ steps.old) }
    {
        let shared = self.shared_sets()?;
        Ok(ZoneNode::build(steps, shared))
    }

    /// The RRsets, shared.
    fn shared_sets(&self) -> Result<Vec<SharedRrset>, AllocError>
        ensures same { IfOk result (λ shared. held_of shared.items ≡ self.now) }
        ensures held { IfOk result (λ shared. IsHeld (held_of shared.items)) }
    {
        copied(&self.sets)
    }

    /// Edits the RRset of a type, which stands there and keeps data, in place. Without memory all is as before.
    pub(crate) fn edit<E: SetEdit + Drop>(
        &mut self,
        rtype: Rtype,
        edit: E,
    ) -> Result<(), AllocError>
        requires there { IsSome (lookup (is_at (nat_cmp rtype)) self.old) }
        requires fits { E.fits edit rtype }
        requires full { 1 ≤ length (E.edited edit (lookup (is_at (nat_cmp rtype)) self.old)).items }
        ensures ok { OnOk result (self.new ≡ insert_entry nat_cmp self.old rtype (E.edited edit (lookup (is_at (nat_cmp rtype)) self.old))) }
        ensures err { OnErr result (self.new ≡ self.old) }
    {
        edit_set(&mut self.sets, rtype, edit)
    }

    /// The RRset of a type.
    pub fn get(&self, rtype: Rtype) -> Option<&Rrset>
        ensures { option_copied result ≡ typed_set_of self.now rtype }
    {
        match set_of(&self.sets, rtype) {
            Some(set) => Some(set.as_rrset()),
            None => None,
        }
    }

    /// The RRsets by type, ascending.
    pub fn sets(&self) -> &[SharedRrset]
        ensures is { result.now ≡ typed_sets self.now }
        ensures held { IsHeld self.now }
    {
        &self.sets
    }

    /// The RRsets of types after one, ascending.
    pub(crate) fn after(&self, rtype: Rtype) -> &[SharedRrset]
        ensures { result.now ≡ typed_sets (after_type rtype self.now) }
    {
        &self.sets[count_up_to(&self.sets, rtype)..]
    }

    /// How many RRsets there are.
    pub fn len(&self) -> usize
        ensures { result ≡ length self.now }
    {
        self.sets.len()
    }

    /// Whether there are no RRsets.
    pub fn is_empty(&self) -> bool
        ensures { result ≡ (length self.now == 0) }
    {
        self.sets.len() == 0
    }
}

/// A copy of a node's RRsets, which shares them.
fn copied(sets: &Vec<SharedRrset>) -> Result<Vec<SharedRrset>, AllocError>
    ensures { IfOk result (λ copy. copy.items ≡ sets.now.items) }
{
    sets.clone()
}
